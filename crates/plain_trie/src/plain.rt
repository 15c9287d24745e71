//! A sequential trie, with its records in vectors.

ghost use Rattle.std.specs.Prelude.{◌≡◌, ◌<◌, ◌+◌, Some, None, [], IfOk, OnOk, OnErr, MatchOption, slice_get};
ghost use Rattle.std.specs.Vec.{vec_capacity};
ghost use Rattle.compound_node.specs.Nodes.{piece};
ghost use Rattle.finite_map.specs.Maps.{value_at, with_value};
ghost use Rattle.finite_map.specs.declared.Call.TheVariants.{Insert, Upsert};
ghost use Rattle.finite_map.specs.declared.Reply.TheVariants.{Inserted, New};
ghost use Rattle.tries.specs.Search.{seek};

mod scan;

use compound_node::{Entry, Node};
use finite_map::Reply;
use key_bits::{Key, mismatch};
use plain_trie_records::{LeafRecord, make_room, make_root, raise_newcomer};
use std::alloc::{AllocError, Global};
use std::marker::Model;

/// A height optimized trie for one thread. Contracts see its records, the entry of its root, and for how many records its
/// two vectors have memory.
///
/// A node's stored height is one above the greatest of its entries when the node is built. It stays as it is while the node keeps its
/// forks. So where an entry gives way to a lower one, it can be more than one above the greatest.
#[derive(Drop)]
pub struct PlainTrie {
    nodes: Vec<Node>,
    leaves: Vec<LeafRecord>,
    top: Option<Entry>,
}

impl Model for PlainTrie {
    ghost use Rattle.std.specs.Vec.{vec_capacity};
    ghost use Rattle.plain_trie.specs.Views.{PlainView, ShowsSoundTree};

    ghost Value = { PlainView };

    ghost view = { λ a. record {
      nodes = a.nodes.items;
      leaves = a.leaves.items;
      top = a.top;
      node_capacity = vec_capacity a.nodes;
      leaf_capacity = vec_capacity a.leaves;
    } };

    ghost invariant = { λ a. ShowsSoundTree (record {
      nodes = a.nodes.items;
      leaves = a.leaves.items;
      top = a.top;
      node_capacity = vec_capacity a.nodes;
      leaf_capacity = vec_capacity a.leaves;
    }) };
}

impl PlainTrie {
    ghost use Rattle.plain_trie.specs.Cases.{TakesCase};
    ghost use Rattle.plain_trie_records.specs.Heights.{KeepsHeights};
    ghost use Rattle.plain_trie.specs.Room.{KeepsRoom, IsTrieAnswer, IsOutOfMemory};
    ghost use Rattle.plain_trie.specs.Views.{trie_map, EndsAt, ShowsTrie, IsHeldInLeaf};
    ghost use Rattle.compound_node.specs.Nodes.{height_of};

    /// Returns a trie without a key. It takes no memory yet.
    pub fn new(alloc: Global) -> PlainTrie
        ensures map { trie_map result ≡ [] }
        ensures memory { (result.node_capacity ≡ 0) × (result.leaf_capacity ≡ 0) }
    {
        PlainTrie {
            nodes: Vec::new(alloc),
            leaves: Vec::new(alloc),
            top: None,
        }
    }

    /// Returns the root's entry; `None` if the trie has no key. In either case the records show the trie's map (`ShowsTrie`).
    pub fn top(&self) -> Option<Entry>
        ensures top { result ≡ self.now.top }
        ensures shows { ShowsTrie self.now }
    {
        self.top
    }

    /// Returns the height of the trie: that of the root's entry, so 0 for one key or none.
    pub fn height(&self) -> u16
        ensures { MatchOption self.now.top (result ≡ 0) (λ entry. result ≡ height_of entry) }
    {
        match self.top {
            None => 0,
            Some(entry) => entry.height(),
        }
    }

    /// Returns the node whose record has the number `number`; `None` if no record has it.
    pub fn node(&self, number: u32) -> Option<&Node>
        ensures { MatchOption result (slice_get self.now.nodes number ≡ None) (λ node. slice_get self.now.nodes number ≡ Some node.now) }
    {
        self.nodes.get(number as usize)
    }

    /// Returns the value of `key`; `None` if the trie hasn't the key. The search reads one record a level, and compares `key` with that of
    /// the one leaf at which it ends.
    pub fn get(&self, key: &Key) -> Option<u64>
        ensures { result ≡ value_at (trie_map self.now) key.now }
    {
        match self.top {
            None => None,
            Some(entry) => {
                let leaf = &self.leaves[self.find_leaf(key, entry)];
                if leaf.key == *key {
                    Some(leaf.value)
                } else {
                    None
                }
            }
        }
    }

    /// Gives `key` the value `value` if it has none, and returns `Inserted`; or returns `Exists` with the value that it has and keeps. Only
    /// a key that was absent takes memory. Room is made for its leaf and for the most nodes that one insertion can add: one for each level
    /// and one above the root, `height() + 1` in all. The first key adds no node.
    ///
    /// `AllocError` only where a vector had to grow for that many records and got no memory, or too few 32-bit numbers are left. There are
    /// too few with 4,294,967,296 leaves, or with more than `4,294,967,295 - height()` nodes. Most insertions add fewer nodes than room is
    /// made for, so one may be refused though its own would find room. A refused call leaves all records and the root as they were.
    ///
    /// A key that is added below a node changes the nodes by the case of the affected one, which `choose_case` of `insert_cases` names.
    /// Those above it change by what rises from there. In any case no vector has less room, and each node keeps a right height
    /// (`KeepsHeights`).
    pub fn insert(&mut self, key: &Key, value: u64) -> Result<Reply, AllocError>
        ensures ok { IfOk result (IsTrieAnswer (Insert key.now value) self.old self.new) }
        ensures err { OnErr result (IsOutOfMemory (Insert key.now value) self.old self.new) }
        ensures case { IfOk result (λ reply. reply ≡ Inserted → TakesCase self.old self.new key.now) }
        ensures room { KeepsRoom self.old self.new }
        ensures heights { KeepsHeights self.old.nodes self.new.nodes }
    {
        match self.add_absent(key, value)? {
            None => Ok(Reply::Inserted),
            Some(leaf) => Ok(Reply::Exists(self.leaves[leaf].value)),
        }
    }

    /// Gives `key` the value `value`, and returns `New`, or `Was` with the value that the key had. Only a key that was absent takes memory.
    /// It changes the nodes as `insert` does, by the case of the affected one. `AllocError` where `insert` would return it; then all
    /// records and the root stay as they were. In any case no vector has less room, and each node keeps a right height (`KeepsHeights`).
    pub fn upsert(&mut self, key: &Key, value: u64) -> Result<Reply, AllocError>
        ensures ok { IfOk result (IsTrieAnswer (Upsert key.now value) self.old self.new) }
        ensures err { OnErr result (IsOutOfMemory (Upsert key.now value) self.old self.new) }
        ensures case { IfOk result (λ reply. reply ≡ New → TakesCase self.old self.new key.now) }
        ensures room { KeepsRoom self.old self.new }
        ensures heights { KeepsHeights self.old.nodes self.new.nodes }
    {
        let Some(leaf) = self.add_absent(key, value)? else {
            return Ok(Reply::New);
        };
        let held = self.leaves[leaf].value;
        self.set_value(leaf, key, value);
        Ok(Reply::Was(held))
    }

    /// Adds `key` with `value` if it is absent, and returns `None`; else returns the number of its leaf record, and changes nothing. Room
    /// is made first for the leaf, a node for each height, and a new root. So a refusal, `AllocError`, changes no record. A key that is
    /// added below a node changes the nodes by the case of the affected one (`TakesCase`). In any case no vector has less room, and each
    /// node keeps a right height (`KeepsHeights`).
    fn add_absent(&mut self, key: &Key, value: u64) -> Result<Option<usize>, AllocError>
        ensures ok { IfOk result (λ held. MatchOption held
            ((value_at (trie_map self.old) key.now ≡ None) × (trie_map self.new ≡ with_value (trie_map self.old) key.now value))
            (λ leaf. IsHeldInLeaf self.old key.now leaf × (self.new ≡ self.old))) }
        ensures case { IfOk result (λ held. held ≡ None → TakesCase self.old self.new key.now) }
        ensures err { OnErr result (IsOutOfMemory (Insert key.now value) self.old self.new) }
        ensures room { KeepsRoom self.old self.new }
        ensures heights { KeepsHeights self.old.nodes self.new.nodes }
    {
        let Some(top) = self.top else {
            self.add_first_leaf(key, value)?;
            return Ok(None);
        };
        let held = self.find_leaf(key, top);
        let Some(position) = mismatch(key, &self.leaves[held].key) else {
            return Ok(Some(held));
        };
        let count = usize::from(top.height()) + 1;
        let leaf = make_room(&mut self.nodes, &mut self.leaves, count)?;
        self.leaves.push_reserved(LeafRecord {
            key: key.copy(),
            value,
        });
        let risen = raise_newcomer(&mut self.nodes, top, key, position, leaf);
        self.top = Some(make_root(&mut self.nodes, risen));
        Ok(None)
    }

    /// Adds `key` with `value` to a trie without keys. `AllocError` if memory, or a number of 32 bits, is lacking; then no record and no
    /// key has changed. In any case no vector has less room, and each node keeps a right height (`KeepsHeights`).
    fn add_first_leaf(&mut self, key: &Key, value: u64) -> Result<(), AllocError>
        requires { self.old.top ≡ None }
        ensures map { OnOk result (trie_map self.new ≡ with_value (trie_map self.old) key.now value) }
        ensures err { OnErr result (IsOutOfMemory (Insert key.now value) self.old self.new) }
        ensures room { KeepsRoom self.old self.new }
        ensures heights { KeepsHeights self.old.nodes self.new.nodes }
    {
        let number = make_room(&mut self.nodes, &mut self.leaves, 0)?;
        self.leaves.push_reserved(LeafRecord {
            key: key.copy(),
            value,
        });
        self.top = Some(Entry::Leaf(number));
        Ok(())
    }

    /// Gives `key`, which is held in leaf record `leaf`, the value `value`. All nodes stay, and no vector has less room.
    fn set_value(&mut self, leaf: usize, key: &Key, value: u64)
        requires { IsHeldInLeaf self.old key.now leaf }
        ensures map { trie_map self.new ≡ with_value (trie_map self.old) key.now value }
        ensures room { KeepsRoom self.old self.new }
        ensures nodes { self.new.nodes ≡ self.old.nodes }
    {
        self.leaves[leaf] = LeafRecord {
            key: key.copy(),
            value,
        };
    }

    /// Returns the number of the leaf record at which the search for `key` ends, from the root's entry `top` down.
    fn find_leaf(&self, key: &Key, top: Entry) -> usize
        requires { self.now.top ≡ Some top }
        ensures { EndsAt self.now top key.now result }
    {
        let mut entry = top;
        loop {
            match entry {
                Entry::Leaf(number) => return number as usize,
                Entry::Node { number, .. } => {
                    entry = find_entry(&self.nodes[number as usize], key);
                }
            }
        }
    }
}

/// Returns the entry of `node` to which the search for `key` leads.
fn find_entry(node: &Node, key: &Key) -> Entry
    ensures { result ≡ seek key.now (piece node.now) }
{
    let slot = node.search(key);
    prove!(slot < node.count());
    node.entry(slot)
}
