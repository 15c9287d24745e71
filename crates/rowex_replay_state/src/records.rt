//! The records of the table: their words, what has become of them, and who has locked them.

ghost use Rattle.std.specs.Prelude.{◌≡◌, ℕ, Some, None, IfOk, IsTrue, ◌↔◌, ◌+◌, ◌<◌, ◌^◌, MatchOption, replicate, set};
ghost use Rattle.rowex_core.specs.Cores.{FitsIn};
ghost use Rattle.rowex_core.specs.Reading.{IsPacked};
ghost use Rattle.rowex_replay_state.specs.declared.fate.Fate.TheVariants.{Held, InTree, Marked};
ghost use Rattle.record_words.specs.declared.records.Rec.TheVariants.{Node as a_node, Leaf as a_leaf};

use crate::fate::Fate;
use crate::leaf::unpack_leaf;
use crate::links::{may_link, may_unlink, update_each_fate};
use crate::node::unpack_node;
use key_bits::Key;
use record_words::{HEAD_WORDS, LEAF_FIELDS, Layout, MAX_ENTRIES, NODE_FIELDS, Tag, unpack_state};
use rowex_core::Rec;
use std::alloc::{AllocError, Global};
use std::marker::Model;

/// The records of a table: of each its words but the state, and its fate; of each node who has locked it.
#[derive(Drop)]
pub(crate) struct Records {
    layout: Layout,
    nodes: Vec<[u64; NODE_FIELDS]>,
    leaves: Vec<[u64; LEAF_FIELDS]>,
    node_fates: Vec<Fate>,
    leaf_fates: Vec<Fate>,
    locks: Vec<Option<u16>>,
}

impl Model for Records {
    ghost use Rattle.rowex_replay_state.specs.Records.{RecordsView};

    ghost Value = { RecordsView };

    ghost view = { λ a. record {
      layout = a.layout;
      nodes = a.nodes.items;
      leaves = a.leaves.items;
      node_fates = a.node_fates.items;
      leaf_fates = a.leaf_fates.items;
      locks = a.locks.items;
    } };
}

impl Records {
    ghost use Rattle.rowex_core.specs.Opening.{opening};
    ghost use Rattle.rowex_replay_state.specs.Records.{AreRecordsOf, HasEntryStored, HasLockedEntry, HasKeyIn, HasState, AreNextRecords, IsEntryLocked, IsEncodedIn, MayPublishTree, HasWordStored, IsPackedIn, fate_in, lock_in, with_fate_unlocked_in, tag_in, words_in, with_fate_in, with_lock_in, with_words_in};

    /// Returns the records of a table of `layout`, all free: all words are 0, and nothing is locked. `AllocError` if memory is refused.
    pub(crate) fn new(alloc: Global, layout: Layout) -> Result<Records, AllocError>
        ensures { let c = opening layout in IfOk result (λ s. AreRecordsOf s layout c.words c.fate c.lock) }
    {
        Ok(Records {
            layout,
            nodes: repeat_item(alloc, [0; NODE_FIELDS], layout.nodes)?,
            leaves: repeat_item(alloc, [0; LEAF_FIELDS], layout.leaves)?,
            node_fates: repeat_item(alloc, Fate::Free, layout.nodes)?,
            leaf_fates: repeat_item(alloc, Fate::Free, layout.leaves)?,
            locks: repeat_item(alloc, None, layout.nodes)?,
        })
    }

    /// Returns the layout of the table.
    pub(crate) fn layout(&self) -> Layout
        ensures { result ≡ self.now.layout }
    {
        self.layout
    }

    /// Returns the fate of `rec`; `None` if the table hasn't the record.
    pub(crate) fn fate(&self, rec: Rec) -> Option<Fate>
        ensures { result ≡ fate_in self.now rec }
    {
        match rec {
            Rec::Node(number) => self.node_fates.get(number as usize).copied(),
            Rec::Leaf(number) => self.leaf_fates.get(number as usize).copied(),
        }
    }

    /// Returns the pass that has locked `rec`; `Some(None)` if none has, and for any leaf number. `None` if the table hasn't the node.
    pub(crate) fn lock_of(&self, rec: Rec) -> Option<Option<u16>>
        ensures { result ≡ lock_in self.now rec }
    {
        match rec {
            Rec::Node(number) => self.locks.get(number as usize).copied(),
            Rec::Leaf(_) => Some(None),
        }
    }

    /// Returns the state of `rec`; `None` if the table hasn't the record.
    pub(crate) fn state(&self, rec: Rec) -> Option<Tag>
        ensures { result ≡ tag_in self.now rec }
    {
        let fate = self.fate(rec)?;
        let lock = self.lock_of(rec)?;
        Some(fate.state(lock))
    }

    /// Returns the words of `rec` but its state; `None` if the table hasn't the record.
    pub(crate) fn words(&self, rec: Rec) -> Option<&[u64]>
        ensures { MatchOption result (words_in self.now rec ≡ None) (λ words. words_in self.now rec ≡ Some words.now) }
    {
        match rec {
            Rec::Node(number) => match self.nodes.get(number as usize) {
                Some(words) => Some(words.as_slice()),
                None => None,
            },
            Rec::Leaf(number) => match self.leaves.get(number as usize) {
                Some(words) => Some(words.as_slice()),
                None => None,
            },
        }
    }

    /// Returns the words of each node record but its state.
    pub(crate) fn nodes(&self) -> &[[u64; NODE_FIELDS]]
        ensures { result.now ≡ self.now.nodes }
    {
        &self.nodes
    }

    /// Returns the words of each leaf record but its state.
    pub(crate) fn leaves(&self) -> &[[u64; LEAF_FIELDS]]
        ensures { result.now ≡ self.now.leaves }
    {
        &self.leaves
    }

    /// Returns whether fates and locks let `pass` publish a tree that links just the nodes and leaves that `nodes` and `leaves` mark. Each
    /// marked record must be in the tree, or made ready by `pass`. Each node of the tree that isn't marked must be locked by `pass`. A
    /// record behind the last mark isn't linked.
    pub(crate) fn may_publish(&self, pass: u16, nodes: &[bool], leaves: &[bool]) -> bool
        ensures { IsTrue result ↔ MayPublishTree self.now pass nodes.now leaves.now }
    {
        if !may_link(&self.node_fates, pass, nodes) {
            return false;
        }
        if !may_link(&self.leaf_fates, pass, leaves) {
            return false;
        }
        may_unlink(&self.node_fates, &self.locks, pass, nodes)
    }

    /// Sets the fate of each record to what it is after `pass` has published version `now + 1`. That version links just the nodes and
    /// leaves that `nodes` and `leaves` mark. A record behind the last mark isn't linked. Words and locks stay.
    pub(crate) fn update_fates(&mut self, now: u64, pass: u16, nodes: &[bool], leaves: &[bool])
        requires { now + 1 < 2 ^ 64 }
        ensures { AreNextRecords now pass nodes.now leaves.now self.old self.new }
    {
        update_each_fate(&mut self.node_fates, now, pass, nodes);
        update_each_fate(&mut self.leaf_fates, now, pass, leaves);
    }

    /// Returns whether `word` is the state word of `rec`; `false` if the table hasn't the record.
    pub(crate) fn has_state_word(&self, rec: Rec, word: u64) -> bool
        ensures { IsTrue result ↔ HasState self.now rec word }
    {
        match (self.state(rec), unpack_state(word)) {
            (Some(tag), Ok(shown)) => tag == shown,
            _ => false,
        }
    }

    /// Returns whether `word` stands at index `at` among the words of `rec`, counted from 0 behind the state. `false` if there is no such
    /// word.
    pub(crate) fn has_word(&self, rec: Rec, at: usize, word: u64) -> bool
        ensures { IsTrue result ↔ HasWordStored self.now rec at word }
    {
        match self.words(rec) {
            Some(words) => words.get(at).copied() == Some(word),
            None => false,
        }
    }

    /// Returns whether `pass` has locked a node of the tree one of whose entries has the word `word`.
    pub(crate) fn has_locked_entry(&self, pass: u16, word: u64) -> bool
        ensures { IsTrue result ↔ HasLockedEntry self.now pass word }
    {
        for node in 0..self.layout.nodes {
            if self.is_entry_locked(node, pass, word) {
                return true;
            }
        }
        false
    }

    /// Returns whether the node `node` is in the tree, `pass` has locked it, and one of its entries has the word `word`.
    fn is_entry_locked(&self, node: u32, pass: u16, word: u64) -> bool
        ensures { IsTrue result ↔ IsEntryLocked self.now pass word node }
    {
        self.is_locked_by(node, pass) && self.is_node_in_tree(node) && self.has_entry(node, word)
    }

    /// Returns whether one of the entries of the node `node` has the word `word`.
    fn has_entry(&self, node: u32, word: u64) -> bool
        ensures { IsTrue result ↔ HasEntryStored self.now node word }
    {
        for slot in 0..MAX_ENTRIES {
            if self.has_word(Rec::Node(node), HEAD_WORDS + slot, word) {
                return true;
            }
        }
        false
    }

    /// Returns whether the words of `rec` are those of a node, or of a leaf for whose key the record has room. `false` if the table hasn't
    /// the record.
    pub(crate) fn has_valid_words(&self, rec: Rec) -> bool
        ensures { IsTrue result ↔ IsPackedIn self.now rec }
    {
        match rec {
            Rec::Node(number) => match self.nodes.get(number as usize) {
                Some(words) => are_node_words(words),
                None => false,
            },
            Rec::Leaf(number) => match self.leaf(number) {
                Some(words) => are_leaf_words(&words) && self.has_room_for_key(number, &words),
                None => false,
            },
        }
    }

    /// Returns whether the leaf record `number` has room for a key of the length that `words` say, a leaf's words from offset 1 on. A leaf
    /// has three words beside those of its key: state, value and length.
    fn has_room_for_key(&self, number: u32, words: &[u64; LEAF_FIELDS]) -> bool
        ensures { IsTrue result ↔ FitsIn self.now.layout (a_leaf number) words.now }
    {
        words[1] <= 8 * (self.layout.leaf_size(number) as u64 - 3)
    }

    /// Returns whether `pass` holds `rec`.
    pub(crate) fn is_held(&self, rec: Rec, pass: u16) -> bool
        ensures { IsTrue result ↔ (fate_in self.now rec ≡ Some (Held pass)) }
    {
        match self.fate(rec) {
            Some(Fate::Held { by }) => by == pass,
            _ => false,
        }
    }

    /// Returns whether `rec` is marked with `epoch`.
    pub(crate) fn is_marked(&self, rec: Rec, epoch: u64) -> bool
        ensures { IsTrue result ↔ ((since : ℕ) × (last : ℕ) × (fate_in self.now rec ≡ Some (Marked since last epoch))) }
    {
        match self.fate(rec) {
            Some(Fate::Marked { epoch: marked, .. }) => marked == epoch,
            _ => false,
        }
    }

    /// Returns whether the node `number` is in the tree; `false` if the table hasn't it.
    pub(crate) fn is_node_in_tree(&self, number: u32) -> bool
        ensures { IsTrue result ↔ ((since : ℕ) × (fate_in self.now (a_node number) ≡ Some (InTree since))) }
    {
        matches!(self.fate(Rec::Node(number)), Some(Fate::InTree { .. }))
    }

    /// Returns whether `pass` has locked the node `number`.
    pub(crate) fn is_locked_by(&self, number: u32, pass: u16) -> bool
        ensures { IsTrue result ↔ (lock_in self.now (a_node number) ≡ Some (Some pass)) }
    {
        self.lock_of(Rec::Node(number)) == Some(Some(pass))
    }

    /// Puts `word` at index `at` among the words of `rec`, counted from 0 behind the state. If there is no such word, nothing changes.
    pub(crate) fn set_word(&mut self, rec: Rec, at: usize, word: u64)
        ensures { MatchOption (words_in self.old rec) (self.new ≡ self.old) (λ words. self.new ≡ with_words_in self.old rec (set words at word)) }
    {
        match rec {
            Rec::Node(number) => {
                if let Some(words) = self.nodes.get(number as usize).copied() {
                    set_item(&mut self.nodes, number as usize, with_word(words, at, word));
                }
            }
            Rec::Leaf(number) => {
                if let Some(words) = self.leaves.get(number as usize).copied() {
                    set_item(
                        &mut self.leaves,
                        number as usize,
                        with_word(words, at, word),
                    );
                }
            }
        }
    }

    /// Returns the words of the node record `number` but its state; `None` if the table hasn't the record.
    pub(crate) fn node(&self, number: u32) -> Option<[u64; NODE_FIELDS]>
        ensures { result ≡ words_in self.now (a_node number) }
    {
        self.nodes.get(number as usize).copied()
    }

    /// Returns the words of the leaf record `number` but its state; `None` if the table hasn't the record.
    pub(crate) fn leaf(&self, number: u32) -> Option<[u64; LEAF_FIELDS]>
        ensures { result ≡ words_in self.now (a_leaf number) }
    {
        self.leaves.get(number as usize).copied()
    }

    /// Returns the key of the leaf record `number`; `None` if the table hasn't the record, or its words are those of no leaf.
    pub(crate) fn key_of(&self, number: u32) -> Option<Key>
        ensures { MatchOption result (¬ (IsEncodedIn self.now (a_leaf number))) (λ key. HasKeyIn self.now number key) }
    {
        let Some(words) = self.leaf(number) else {
            return None;
        };
        match unpack_leaf(&words) {
            Ok((key, _)) => Some(key),
            Err(_) => None,
        }
    }

    /// Gives the node record `number` the words `words`, all but its state. If the table hasn't the record, nothing changes.
    pub(crate) fn set_node(&mut self, number: u32, words: [u64; NODE_FIELDS])
        ensures { self.new ≡ with_words_in self.old (a_node number) words }
    {
        set_item(&mut self.nodes, number as usize, words);
    }

    /// Sets the fate of `rec` to `fate`. If the table hasn't the record, nothing changes.
    pub(crate) fn set_fate(&mut self, rec: Rec, fate: Fate)
        ensures { self.new ≡ with_fate_in self.old rec fate }
    {
        match rec {
            Rec::Node(number) => set_item(&mut self.node_fates, number as usize, fate),
            Rec::Leaf(number) => set_item(&mut self.leaf_fates, number as usize, fate),
        }
    }

    /// Sets the fate of `rec` to `fate`, and unlocks it if it is a node. If the table hasn't the record, nothing changes.
    pub(crate) fn set_fate_and_unlock(&mut self, rec: Rec, fate: Fate)
        ensures { self.new ≡ with_fate_unlocked_in self.old rec fate }
    {
        if let Rec::Node(number) = rec {
            self.set_lock(number, None);
        }
        self.set_fate(rec, fate);
    }

    /// Makes `lock` the pass that has locked the node `number`; `None` unlocks it. If the table hasn't the node, nothing changes.
    pub(crate) fn set_lock(&mut self, number: u32, lock: Option<u16>)
        ensures { self.new ≡ with_lock_in self.old number lock }
    {
        set_item(&mut self.locks, number as usize, lock);
    }
}

/// Returns a list of `count` copies of `item`; `AllocError` if memory is refused.
pub(crate) fn repeat_item<T: Copy>(alloc: Global, item: T, count: u32) -> Result<Vec<T>, AllocError>
    ensures { IfOk result (λ copies. copies.items ≡ replicate count item) }
{
    let mut copies = Vec::with_capacity(alloc, count as usize)?;
    for _ in 0..count {
        copies.push(item)?;
    }
    Ok(copies)
}

/// Puts `item` at index `at` of `items`. If `at` is behind the last item, nothing changes.
pub(crate) fn set_item<T: Copy>(items: &mut Vec<T>, at: usize, item: T)
    ensures { items.new.items ≡ set items.old.items at item }
{
    if at < items.len() {
        items[at] = item;
    }
}

/// Returns `words` with `word` at index `at`; just `words` if `at` is behind the last one.
pub(crate) fn with_word<const N: usize>(words: [u64; N], at: usize, word: u64) -> [u64; N]
    ensures { result ≡ set words.entry at word }
{
    let mut filled = words;
    if at < N {
        filled[at] = word;
    }
    filled
}

/// Returns whether `words`, from offset 1 on, are those of a node.
pub(crate) fn are_node_words(words: &[u64; NODE_FIELDS]) -> bool
    ensures { (n : ℕ) → IsTrue result ↔ IsPacked (a_node n) words.now }
{
    unpack_node(words).is_ok()
}

/// Returns whether `words`, from offset 1 on, are those of a leaf, up to the end of its key.
fn are_leaf_words(words: &[u64; LEAF_FIELDS]) -> bool
    ensures { (n : ℕ) → IsTrue result ↔ IsPacked (a_leaf n) words.now }
{
    unpack_leaf(words).is_ok()
}
