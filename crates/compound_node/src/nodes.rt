//! Compound nodes.

use super::entries::{
    Entry, all_stand_below, height_with_added_entry, insert_entry_beside, list_items,
};
use super::heads::Head;
use super::rows::find_sibling;
use arrayvec::ArrayVec;
use key_bits::Key;
use partial_keys::{Columns, MAX_ENTRIES};
use std::marker::Model;

/// A compound node of 2 to 32 entries, in the order of their keys. It shows a piece of a bit trie: its 1 to 31 columns are the positions of
/// the piece's forks. The row of an entry, its sparse partial key, has a 1 exactly where the entry's path takes the 1 side of a fork. The
/// stored height is above that of each entry.
#[derive(Drop)]
pub struct Node {
    pub(crate) head: Head,
    pub(crate) entries: ArrayVec<Entry, MAX_ENTRIES>,
}

impl Model for Node {
    ghost use Rattle.compound_node.specs.Nodes.{IsLawfulNode, NodeView, node_of};

    ghost Value = { NodeView };

    ghost view = { λ n. node_of n.head n.entries.items };

    ghost invariant = { λ n. IsLawfulNode (node_of n.head n.entries.items) };
}

impl Node {
    ghost use Rattle.std.specs.Prelude.{◌≡◌, ℕ, ◌↔◌, ◌+◌, ◌<◌, ◌≤◌, IsSome, IfSome, Some, length, slice_get, slice_index, slice_index_or, slice_set};
    ghost use Rattle.compound_node.specs.Nodes.{AgreeBefore, IsBuiltFrom, IsEntry, IsLawfulNode, IsNode, StandsBelow, head_of, node_from, node_of, piece};
    ghost use Rattle.key_bits.specs.Bits.{bit_of};
    ghost use Rattle.partial_keys.specs.Rows.{with_unused};
    ghost use Rattle.node_tries.specs.Changes.{AtRootFork, beside};
    ghost use Rattle.node_tries.specs.Changes.{replaced as replaced_place};
    ghost use Rattle.node_tries.specs.Growth.{IsAffected, affected_count, affected_first, grown};
    ghost use Rattle.node_tries.specs.Piece.{leads_to};

    /// Returns the node with these fields; `None` exactly if no node has them. A node has 2 to 32 entries, each lower than `height`.
    /// `padded_rows` has their rows, those of one piece that uses each of `columns`, and 4,294,967,295 at each unused slot.
    pub fn from_parts(
        height: u16,
        columns: &[u16],
        padded_rows: &[u32; MAX_ENTRIES],
        entries: &[Entry],
    ) -> Option<Node>
        ensures some { IsSome result ↔ IsNode height columns.now padded_rows.now entries.now }
        ensures node { IfSome result (λ node. node ≡ node_from height columns.now padded_rows.now entries.now) }
    {
        if entries.len() > MAX_ENTRIES || !all_stand_below(entries, height) {
            return None;
        }
        let head = Head::from_parts(entries.len() as u8, height, columns, padded_rows)?;
        Some(Node::of(head, list_items(entries)))
    }

    /// Returns the node of `head` and `entries`. There are as many entries as the head has rows, and each is lower than the head's height.
    pub fn of(head: Head, entries: ArrayVec<Entry, MAX_ENTRIES>) -> Node
        requires { IsLawfulNode (node_of head entries.items) }
        ensures { result ≡ node_of head entries.items }
    {
        Node { head, entries }
    }

    /// Returns how many entries the node has, 2 to 32.
    pub fn count(&self) -> u8
        ensures count { result ≡ length self.now.entries }
        ensures lawful { IsLawfulNode self.now }
    {
        self.head.count()
    }

    /// Returns the stored height. It is above that of each entry, where a leaf counts 0.
    pub fn height(&self) -> u16
        ensures { result ≡ self.now.height }
    {
        self.head.height()
    }

    /// Returns the columns: the positions of the forks, each once.
    pub fn columns(&self) -> &Columns
        ensures { result.now ≡ self.now.columns }
    {
        self.head.columns()
    }

    /// Returns the row of `slot`, its sparse partial key; 4,294,967,295 if the slot is unused. `slot` is below 32.
    pub fn sparse(&self, slot: u8) -> u32
        requires { slot < 32 }
        ensures used { slot < length self.now.rows → result ≡ slice_index self.now.rows slot }
        ensures unused { length self.now.rows ≤ slot → result ≡ 4294967295 }
    {
        self.head.row(slot)
    }

    /// Returns the rows of the entries, and 4,294,967,295 for the unused ones of 32 slots.
    pub fn padded_rows(&self) -> &[u32; MAX_ENTRIES]
        ensures { result.now ≡ with_unused self.now.rows }
    {
        self.head.padded_rows()
    }

    /// Returns the entry in `slot`, which is below `count()`.
    pub fn entry(&self, slot: u8) -> Entry
        requires { slot < length self.now.entries }
        ensures entry { slice_get self.now.entries slot ≡ Some result }
        ensures stands { StandsBelow self.now.height result }
    {
        self.entries[slot as usize]
    }

    /// Returns a copy of the node's head.
    pub fn head(&self) -> Head
        ensures { result ≡ head_of self.now }
    {
        self.head.copy()
    }

    /// Returns the node's head, not copied.
    pub fn as_head(&self) -> &Head
        ensures { result.now ≡ head_of self.now }
    {
        &self.head
    }

    /// Returns the position of the root fork, the lowest of all columns.
    pub fn first_position(&self) -> u16
        ensures root { AtRootFork (λ p zero one. result ≡ p) (piece self.now) }
        ensures below { result < 65535 }
    {
        self.head.first_position()
    }

    /// Returns the slot to which the forks lead by the bits of `key`. Each key leads to a slot, also a key that no entry holds.
    pub fn search(&self, key: &Key) -> u8
        ensures leads { result ≡ leads_to (bit_of key.now) (piece self.now) }
        ensures in_range { result < length self.now.entries }
    {
        self.head.search(key)
    }

    /// Returns the first and the last slot that `position` affects, seen from `slot`. From the first to the last stand just the entries
    /// whose rows agree with that of `slot` in all columns below `position`.
    pub fn affected(&self, slot: u8, position: u16) -> (u8, u8)
        requires { slot < length self.now.entries }
        ensures range { (k : ℕ) → k < length self.now.entries → AgreeBefore self.now position slot k ↔ ((result.0 ≤ k) × (k ≤ result.1)) }

        // In terms of the piece: the part below the forks before the position, on the way to the entry in `slot`.
        ensures from { affected_first position slot (piece self.now) ≡ result.0 }
        ensures upto { affected_count position slot (piece self.now) + result.0 ≡ result.1 + 1 }
    {
        self.head.affected(slot, position)
    }

    /// Returns the one slot on the other side of the last fork on the path to `slot`, and that fork's position. `None` if that side has
    /// several slots.
    pub fn find_sibling(&self, slot: u8) -> Option<(u8, u16)>
        requires { slot < length self.now.entries }
        ensures { result ≡ beside slot (piece self.now) }
    {
        let columns = self.head.columns();
        let before = self.row(slot.saturating_sub(1));
        let (own, after, after_next) = (self.row(slot), self.row(slot + 1), self.row(slot + 2));
        match find_sibling(slot, before, own, after, after_next) {
            Some((sibling, column)) => Some((sibling, columns.position(column))),
            None => None,
        }
    }

    /// Returns the row of `slot`; 4,294,967,295 for a slot behind the last entry, also for one above 31.
    fn row(&self, slot: u8) -> u32
        ensures { result ≡ slice_index_or self.now.rows slot 4294967295 }
    {
        if (slot as usize) < MAX_ENTRIES {
            self.head.row(slot)
        } else {
            u32::MAX
        }
    }

    /// Returns a copy of the node with one entry more, for which there is room. A new fork at `position` parts `entry` from the affected
    /// slots `first` to `last`. No fork between these slots has that position yet. `entry` stands straight behind them if `bit` is true,
    /// else straight before. The height is one above the greatest of the entries'.
    pub fn insert(&self, first: u8, last: u8, position: u16, bit: bool, entry: Entry) -> Node
        requires room { length self.now.entries < 32 }
        requires range { IsAffected (piece self.now) position first last }
        requires below { position < 65535 }
        requires entry { IsEntry entry }
        ensures { IsBuiltFrom result (grown position bit entry first (piece self.now)) }
    {
        let mut node = self.copy();
        node.add_entry(first, last, position, bit, entry);
        node
    }

    /// Adds `entry` to this node, which has room for it. A new fork at `position` parts `entry` from the affected slots `first` to `last`.
    /// No fork between these slots has that position yet. `entry` stands straight behind them if `bit` is true, else straight before. The
    /// height becomes one above the greatest of the entries'.
    pub fn add_entry(&mut self, first: u8, last: u8, position: u16, bit: bool, entry: Entry)
        requires room { length self.old.entries < 32 }
        requires range { IsAffected (piece self.old) position first last }
        requires below { position < 65535 }
        requires entry { IsEntry entry }
        ensures { IsBuiltFrom self.new (grown position bit entry first (piece self.old)) }
    {
        let (first, last) = (first as usize, last as usize);
        insert_entry_beside(&mut self.entries, first, last, bit, entry);
        let height = height_with_added_entry(self.entries.as_slice(), entry, self.head.height());
        self.head.add_fork(height, position, first, last, bit);
    }

    /// Returns a copy of the node.
    pub fn copy(&self) -> Node
        ensures { result ≡ self.now }
    {
        Node {
            head: self.head.copy(),
            entries: list_items(self.entries.as_slice()),
        }
    }

    /// Returns a copy of the node with `entry`, which is lower than the node, in `slot`. The stored height and all else stay.
    pub fn replace(&self, slot: u8, entry: Entry) -> Node
        requires in_range { slot < length self.now.entries }
        requires stands { StandsBelow self.now.height entry }
        ensures fields { result ≡ record self.now { entries = slice_set self.now.entries slot entry } }
        ensures piece { piece result ≡ replaced_place slot entry (piece self.now) }
        ensures lawful { IsLawfulNode result }
    {
        let mut node = self.copy();
        node.set_entry(slot, entry);
        node
    }

    /// Puts `entry`, which is lower than this node, into its slot `slot`. The stored height and all else stay.
    pub fn set_entry(&mut self, slot: u8, entry: Entry)
        requires in_range { slot < length self.old.entries }
        requires stands { StandsBelow self.old.height entry }
        ensures fields { self.new ≡ record self.old { entries = slice_set self.old.entries slot entry } }
        ensures piece { piece self.new ≡ replaced_place slot entry (piece self.old) }
        ensures lawful { IsLawfulNode self.new }
    {
        self.entries[slot as usize] = entry;
    }
}
