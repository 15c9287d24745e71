//! What an attempt has to do, once it is planned: the change, what comes in the place of its nodes, and what a removal leaves.

use crate::plan::{Deed, Span};
use compound_node::Entry;
use insert_cases::PathNode;
use key_bits::Key;
use record_words::NODE_FIELDS;
use rowex_reading::Found;

/// What a change is made by: the way of the search for `key`, what it found, and the value that `key` is to get. `span` says which nodes
/// of the way get others in their place, and `deed` what is done at its lower end.
#[derive(Drop)]
pub(crate) struct Job<'a> {
    pub way: &'a [PathNode],
    pub key: &'a Key,
    pub value: u64,
    pub found: Found,
    pub span: Span,
    pub deed: Deed,
}

/// What comes in the place of a span's nodes.
#[derive(Clone, Copy)]
pub(crate) struct Raised {
    /// The entry; `None` if the root is to be empty.
    pub entry: Option<Entry>,
    /// The index on the way from which on nodes of the span stay: that of the lowest, or the span's `len` if none stays.
    pub low: usize,
    /// The number of the leaf record that the change unlinks, if it unlinks one.
    pub leaf: Option<u32>,
}

/// A merge of a node that loses a leaf, the lower one, with its sibling. Both stand in the upper node.
#[derive(Clone, Copy)]
pub(crate) struct Merge<'a> {
    /// The sibling's slot in the upper node.
    pub slot: u8,
    /// The position of the fork between the two.
    pub position: u16,
    /// The number of the sibling's record.
    pub number: u32,
    /// What is left of the lower node.
    pub left: &'a Leftover,
}

/// What is left of a node that loses a leaf, where that is a node, too.
#[derive(Drop)]
pub(crate) struct Leftover {
    /// The number of the record that is claimed for it, or for the node of both where it is merged with its sibling.
    pub number: u32,
    /// The words of what is left, all but its state.
    pub words: [u64; NODE_FIELDS],
}
