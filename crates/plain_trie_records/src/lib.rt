//! The records of a sequential trie, nodes and leaves in two vectors: a key is added to them, a range is scanned.
//!
//! `plain_trie` is made of these functions, and says what it is for. An entry names its record by its place in a vector. A function has
//! the vectors and an entry as its arguments, and its contract speaks of the tree that stands at the entry.
//!
//! # How a key is added
//!
//! 1. The search ends at a leaf with another key. Room is made for all that may be needed ([`make_room`]): a leaf, and a node for each
//!    height.
//! 2. [`raise_newcomer`] goes down to the node that the new leaf affects, and adds the leaf there: beside entries of the node, or in a
//!    new node with one leaf. A full node is cut in two.
//! 3. What a node was cut into rises. It goes into the node above if that is one higher (pulling it up), else into a node of its own
//!    between the two, or into a new root ([`make_root`]). [`place`] is this rule by itself.
//!
//! A scan ([`scan_below`]) goes through the leaves in the order of their keys, and copies the pairs of its range.
//!
//! # What carries the proof
//!
//! The records of a `PlainTrie` show a bit trie.
#![tactic(auto)]

mod leaf;
mod overflow;
mod places;
mod raising;
mod rising;
mod room;
mod scanning;

pub use leaf::LeafRecord;
pub use overflow::place;
pub use places::Place;
pub use rising::{make_root, raise_newcomer};
pub use room::make_room;
pub use scanning::{ScanRange, scan_below};
