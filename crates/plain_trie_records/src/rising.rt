//! How a new leaf rises from the node that it affects to the root, in records that are kept in a vector.

ghost use Rattle.std.specs.Prelude.{◌≡◌, ◌⊎◌, ◌↔◌, ℕ, suc, ◌+◌, ◌^◌, ◌<◌, ◌≤◌, Bool, IsTrue, List, Some, true, slice_get, slice_set};
ghost use Rattle.std.specs.Vec.{vec_len, vec_capacity};
ghost use Rattle.node_tries.specs.Growth.{grown};
ghost use Rattle.node_tries.specs.Piece.{Fork, Place as At, size};
ghost use Rattle.compound_node.specs.Nodes.{NodeView, piece, StandsBelow, height_of};
ghost use Rattle.compound_node.specs.declared.entries.Entry.{Entry as EntryView};
ghost use Rattle.tries.specs.Affected.{subtrie_forked};
ghost use Rattle.tries.specs.Content.{Item, item};
ghost use Rattle.tries.specs.Tree.{Tree, Fixed, node as tree_node};
ghost use Rattle.node_tries.specs.Grafts.{grafted};
ghost use Rattle.plain_trie_records.specs.Cases.{AddsByCase, IsLevelDone, IsNewNode, IsPutBetween, is_split};
ghost use Rattle.plain_trie_records.specs.Heights.{KeepsHeights};
ghost use Rattle.plain_trie_records.specs.Rising.{IsRaised, IsAddable, IsLifting, level, records};
ghost use Rattle.insert_cases.specs.Risen.{subtrie_of};
ghost use Rattle.plain_trie_records.specs.Risen.{IsNamed, OthersStay, AllStay};
ghost use Rattle.plain_trie_records.specs.declared.leaf.LeafRecord.{LeafRecord};

use crate::raising::{push_pair, put_node, store_grown};
use compound_node::{Entry, Node};
use insert_cases::{Risen, grow, is_pull_up, pull_up};
use key_bits::Key;

/// Adds the leaf of the record `leaf`, which has `key`, below `entry`, and returns what takes the place of `entry`. At `position` the key
/// first differs from that of the leaf where its search ends. `nodes` has room, and numbers of 32 bits, for as many nodes more as `entry`
/// is high. No more are added, so its capacity stays.
///
/// The search goes down to the node that takes the new leaf, or to a leaf. That leaf gives way to a fork of itself and the new one. If it
/// is `entry` itself, no node changes. Each node on the way back takes in what took its child's place, as `AddsByCase` says. Node records
/// outside the tree below `entry` stay. A node whose columns and rows stay keeps its height, too (`KeepsHeights`).
pub fn raise_newcomer(
    nodes: &mut Vec<Node>,
    entry: Entry,
    key: &Key,
    position: u16,
    leaf: u32,
) -> Risen
    requires place { (leaves : List LeafRecord) × (value : ℕ) × (t : Tree) × IsAddable nodes.old.items leaves (item leaf key.now value) position entry t }
    requires position { position < 65535 }
    requires room { vec_len nodes.old + height_of entry ≤ vec_capacity nodes.old }
    requires small { vec_len nodes.old + height_of entry ≤ 2 ^ 32 }
    ensures raised { (leaves : List LeafRecord) (value : ℕ) (t : Tree) → IsAddable nodes.old.items leaves (item leaf key.now value) position entry t →
        IsRaised nodes.old.items nodes.new.items leaves (item leaf key.now value) position t (suc (height_of entry)) (subtrie_of result) }
    ensures case { (leaves : List LeafRecord) (value : ℕ) (t : Tree) → IsAddable nodes.old.items leaves (item leaf key.now value) position entry t →
        AddsByCase nodes.old.items nodes.new.items key.now position leaf t (is_split result) }
    ensures low { height_of entry ≡ 0 → (nodes.new.items ≡ nodes.old.items) × (bit : Bool) ×
        (subtrie_of result ≡ subtrie_forked bit position (Entry.Leaf leaf) (At entry)) }
    ensures heights { KeepsHeights nodes.old.items nodes.new.items }
    ensures len { vec_len nodes.new ≤ vec_len nodes.old + height_of entry }
    ensures capacity { vec_capacity nodes.new ≡ vec_capacity nodes.old }
{
    match entry {
        Entry::Leaf(_) => fork_entries(entry, position, key.bit(position), Entry::Leaf(leaf)),
        Entry::Node { number, height } => {
            let node = &nodes[number as usize];
            let slot = node.search(key);
            prove!(slot < node.count());
            let (first, last) = node.affected(slot, position);
            if node_takes_leaf(height, first, last) {
                let bit = key.bit(position);
                let grown = grow(node, first, last, position, bit, Entry::Leaf(leaf));
                return store_grown(nodes, number, height, grown);
            }
            let child = node.entry(slot);
            let risen = raise_newcomer(nodes, child, key, position, leaf);
            lift_risen(nodes, number, height, slot, child.height(), risen)
        }
    }
}

/// Returns whether a new leaf goes into a node of the height `height` itself, if it affects the node's entries from `first` to `last`. It
/// does if these are several, or if all entries are leaves. Else the one affected entry gives way: to a node that takes the leaf, or to a
/// new node of both.
fn node_takes_leaf(height: u16, first: u8, last: u8) -> bool
    ensures { IsTrue result ↔ ((first < last) ⊎ (height ≡ 1)) }
{
    first < last || height == 1
}

/// Returns the fork at `position` of the entries `old` and `new`, where `new` is the 1 side if `bit` is true, else the 0 side.
fn fork_entries(old: Entry, position: u16, bit: bool, new: Entry) -> Risen
    ensures { subtrie_of result ≡ subtrie_forked bit position new (At old) }
{
    if bit {
        Risen::Split {
            position,
            zero: old,
            one: new,
        }
    } else {
        Risen::Split {
            position,
            zero: new,
            one: old,
        }
    }
}

/// Puts `risen` in the place of the entry in `slot` of the node `number`, which is `height` high, and returns what takes the node's place.
/// `low` is the height of the entry that was there. A fork goes into the node if the node is one higher than `low`, else into a new node in
/// that slot. A full node that takes in the fork is cut, and the fork of its sides is returned. One record at most is added, for which
/// there is room. All other records stay.
fn lift_risen(
    nodes: &mut Vec<Node>,
    number: u32,
    height: u16,
    slot: u8,
    low: u16,
    risen: Risen,
) -> Risen
    requires place { (ns : List NodeView) × (leaves : List LeafRecord) × (x : Item) × (p : ℕ) × (y : Fixed) × (b : Tree) ×
        IsLifting (records ns leaves) nodes.old.items x p (level number height slot low) y b (subtrie_of risen) }
    requires room { vec_len nodes.old < vec_capacity nodes.old }
    requires small { vec_len nodes.old < 2 ^ 32 }
    ensures raised { (ns : List NodeView) (leaves : List LeafRecord) (x : Item) (p : ℕ) (y : Fixed) (b : Tree) →
        IsLifting (records ns leaves) nodes.old.items x p (level number height slot low) y b (subtrie_of risen) →
        IsRaised ns nodes.new.items leaves x p (tree_node number y b) (suc height) (subtrie_of result) }
    ensures between { (old : NodeView) (p : ℕ) (zero one : EntryView) → slice_get nodes.old.items number ≡ Some old →
        subtrie_of risen ≡ Fork p (At zero) (At one) → low + 1 < height →
        IsPutBetween nodes.old.items nodes.new.items number slot old (Fork p (At zero) (At one)) }
    ensures takes { (old : NodeView) → slice_get nodes.old.items number ≡ Some old →
        (new : NodeView) × (slice_get nodes.new.items number ≡ Some new) × IsLevelDone low (is_split risen) old new slot (is_split result) }
    ensures others { OthersStay nodes.old.items nodes.new.items number }
    ensures heights { KeepsHeights nodes.old.items nodes.new.items }
    ensures len { vec_len nodes.new ≤ vec_len nodes.old + 1 }
    ensures capacity { vec_capacity nodes.new ≡ vec_capacity nodes.old }
{
    match risen {
        Risen::Whole(entry) => Risen::Whole(replace_entry(nodes, number, slot, entry)),
        Risen::Split {
            position,
            zero,
            one,
        } => {
            if is_pull_up(low, height) {
                let node = &nodes[number as usize];
                prove!(slot < node.count());
                let grown = pull_up(node, slot, position, zero, one);
                return store_grown(nodes, number, height, grown);
            }
            let entry = push_pair(nodes, position, zero, one);
            Risen::Whole(replace_entry(nodes, number, slot, entry))
        }
    }
}

/// Returns the root's entry when `risen` takes the old root's place. One entry is returned as it is. A fork becomes a new node in `nodes`,
/// which has room for it. All node records from before stay.
pub fn make_root(nodes: &mut Vec<Node>, risen: Risen) -> Entry
    requires place { (ns : List NodeView) × (leaves : List LeafRecord) × (x : Item) × (p : ℕ) × (t : Tree) × (h : ℕ) ×
        IsRaised ns nodes.old.items leaves x p t h (subtrie_of risen) }
    requires room { vec_len nodes.old < vec_capacity nodes.old }
    requires small { vec_len nodes.old < 2 ^ 32 }
    ensures raised { (ns : List NodeView) (leaves : List LeafRecord) (x : Item) (p : ℕ) (t : Tree) (h : ℕ) →
        IsRaised ns nodes.old.items leaves x p t h (subtrie_of risen) → IsRaised ns nodes.new.items leaves x p t (suc h) (At result) }
    ensures new { is_split risen ≡ true → IsNewNode (vec_len nodes.old) result }
    ensures all { AllStay nodes.old.items nodes.new.items }
    ensures heights { KeepsHeights nodes.old.items nodes.new.items }
    ensures capacity { vec_capacity nodes.new ≡ vec_capacity nodes.old }
{
    match risen {
        Risen::Whole(entry) => entry,
        Risen::Split {
            position,
            zero,
            one,
        } => push_pair(nodes, position, zero, one),
    }
}

/// Puts `entry`, which is lower than the node `number`, into slot `slot` of that node in its own record. Returns the entry that names the
/// node. The node's height stays, and so do all other records.
fn replace_entry(nodes: &mut Vec<Node>, number: u32, slot: u8, entry: Entry) -> Entry
    requires { (old : NodeView) × (slice_get nodes.old.items number ≡ Some old) × (slot < size (piece old)) × StandsBelow old.height entry }
    ensures shows { (old : NodeView) → slice_get nodes.old.items number ≡ Some old → IsNamed nodes.new.items old result (grafted slot (At entry) (piece old)) }
    ensures fields { (old : NodeView) → slice_get nodes.old.items number ≡ Some old →
        slice_get nodes.new.items number ≡ Some (record old { entries = slice_set old.entries slot entry }) }
    ensures others { OthersStay nodes.old.items nodes.new.items number }
    ensures heights { KeepsHeights nodes.old.items nodes.new.items }
    ensures len { vec_len nodes.new ≡ vec_len nodes.old }
    ensures capacity { vec_capacity nodes.new ≡ vec_capacity nodes.old }
{
    let node = &nodes[number as usize];
    prove!(slot < node.count());
    let node = node.replace(slot, entry);
    put_node(nodes, number, node)
}
