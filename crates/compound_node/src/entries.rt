//! Entries, which are what a node leads to: their heights, and lists of them.

ghost use Rattle.std.specs.List.{All};
ghost use Rattle.std.specs.Prelude.{◌≡◌, ◌↔◌, ◌+◌, ◌-◌, ◌<◌, ◌≤◌, ◌++◌, IsTrue, length, remove};
ghost use Rattle.arrayvec.specs.ArrayVec.{array_vec_len};
ghost use Rattle.node_tries.specs.Growth.{edited, forked_places};
ghost use Rattle.compound_node.specs.Nodes.{IsEntry, StandsBelow, greatest_height, height_of};

use arrayvec::ArrayVec;
use partial_keys::MAX_ENTRIES;

/// What a node has in a slot. It is a leaf record by its number, as HOT has a tuple identifier, or a child node by its number and its
/// stored height. In a node the height of a child is from 1 to 65,534.
#[derive(Clone, Copy, PartialEq, Eq)]
pub enum Entry {
    Leaf(u32),
    Node { number: u32, height: u16 },
}

impl Default for Entry {
    ghost use Rattle.compound_node.specs.declared.entries.Entry.TheVariants.{Leaf as LeafEntry};

    ghost is_default = { λ entry. entry ≡ LeafEntry 0 };

    /// Returns the leaf of record 0, which fills a list behind its last entry.
    fn default() -> Self {
        Entry::Leaf(0)
    }
}

impl Entry {
    ghost use Rattle.std.specs.Prelude.{◌≡◌};
    ghost use Rattle.compound_node.specs.Nodes.{height_of};

    /// Returns the stored height of a child node; 0 for a leaf.
    pub fn height(&self) -> u16
        ensures { result ≡ height_of self.now }
    {
        match self {
            Entry::Leaf(_) => 0,
            Entry::Node { height, .. } => *height,
        }
    }
}

/// Returns the height of a new node over `entries`: one above the greatest of theirs.
pub(crate) fn height_over_entries(entries: &[Entry]) -> u16
    requires { All IsEntry entries.now }
    ensures { result ≡ 1 + greatest_height entries.now }
{
    let mut greatest = 0;
    for i in (0..entries.len()).rev() {
        greatest = entries[i].height().max(greatest);
    }
    1 + greatest
}

/// Returns the height of a node of `entries`, of which `entry` was just added: one above the greatest of theirs. `height` is the node's
/// height before. If that is 1, all others are leaves, so `entry` alone is looked at.
pub(crate) fn height_with_added_entry(entries: &[Entry], entry: Entry, height: u16) -> u16
    requires children { All IsEntry entries.now }
    requires leaves { height ≡ 1 → greatest_height entries.now ≡ height_of entry }
    ensures { result ≡ 1 + greatest_height entries.now }
{
    if height == 1 {
        1 + entry.height()
    } else {
        height_over_entries(entries)
    }
}

/// Returns whether `entry` can stand in a node of the height `height`: it is a leaf, or a node of a lower height from 1 on.
fn stands_below(entry: Entry, height: u16) -> bool
    ensures { IsTrue result ↔ StandsBelow height entry }
{
    match entry {
        Entry::Leaf(_) => 0 < height,
        Entry::Node { height: child, .. } => 0 < child && child < height,
    }
}

/// Returns whether all `entries` can stand in a node of the height `height`.
pub(crate) fn all_stand_below(entries: &[Entry], height: u16) -> bool
    ensures { IsTrue result ↔ All (StandsBelow height) entries.now }
{
    for entry in entries {
        if !stands_below(*entry, height) {
            return false;
        }
    }
    true
}

/// Returns the list of `items`, 32 at most.
pub(crate) fn list_items<T: Copy + Default + Drop>(items: &[T]) -> ArrayVec<T, MAX_ENTRIES>
    requires { length items.now ≤ 32 }
    ensures { result.items ≡ items.now }
{
    let mut list = ArrayVec::new();
    append_items(&mut list, items);
    list
}

/// Puts `entry` into `entries`, fewer than 32: straight after slot `last` if `bit` is true, else straight before slot `first`.
pub(crate) fn insert_entry_beside(
    entries: &mut ArrayVec<Entry, MAX_ENTRIES>,
    first: usize,
    last: usize,
    bit: bool,
    entry: Entry,
)
    requires room { array_vec_len entries.old < 32 }
    requires range { first ≤ last }
    requires in_range { last < array_vec_len entries.old }
    ensures { entries.new.items ≡ edited first (last + 1 - first) (forked_places bit entry) entries.old.items }
{
    let slot = if bit { last + 1 } else { first };
    entries.insert(slot, entry);
}

/// Returns the list of `entries` without the one in `slot`.
pub(crate) fn list_entries_without(entries: &[Entry], slot: usize) -> ArrayVec<Entry, MAX_ENTRIES>
    requires room { length entries.now ≤ 32 }
    requires in_range { slot < length entries.now }
    ensures { result.items ≡ remove entries.now slot }
{
    let mut list = ArrayVec::new();
    append_items(&mut list, &entries[..slot]);
    append_items(&mut list, &entries[slot + 1..]);
    list
}

/// Returns the list of the entries `zero`, and behind them the entries `one`, 32 at most.
pub(crate) fn concatenate_entries(zero: &[Entry], one: &[Entry]) -> ArrayVec<Entry, MAX_ENTRIES>
    requires { length zero.now + length one.now ≤ 32 }
    ensures { result.items ≡ zero.now ++ one.now }
{
    let mut list = list_items(zero);
    append_items(&mut list, one);
    list
}

/// Adds `items` to the end of `list`, which has room for them.
pub(crate) fn append_items<T: Copy + Drop>(list: &mut ArrayVec<T, MAX_ENTRIES>, items: &[T])
    requires { array_vec_len list.old + length items.now ≤ 32 }
    ensures { list.new.items ≡ list.old.items ++ items.now }
{
    let _ = list.try_extend_from_slice(items);
}
