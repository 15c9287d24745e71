//! What takes a node's place when an entry is added below it.

use compound_node::Entry;

/// What takes a node's place: an entry, or a fork of two at a bit position.
#[derive(Clone, Copy)]
pub enum Risen {
    /// One entry.
    Whole(Entry),
    /// A fork at a bit position: an entry for the keys with 0 there, and one for those with 1.
    Split {
        position: u16,
        zero: Entry,
        one: Entry,
    },
}
