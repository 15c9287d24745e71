//! What a tree links.

use key_bits::Key;

/// A leaf record as it stands in a tree.
#[derive(Drop)]
pub struct Item {
    pub number: u32,
    pub key: Key,
    pub value: u64,
}

/// What a tree links: its leaves in the order of their keys, and of each record of the table whether it is linked.
#[derive(Drop)]
pub struct Linked {
    pub items: Vec<Item>,
    pub nodes: Vec<bool>,
    pub leaves: Vec<bool>,
}
