//! A table's words from pairs in the order of their keys: what the words of an index are that has these pairs already.
//!
//! A [`Loader`] takes one pair after another. Pieces of the tree stand in a stack, the newest on top: its tips, one for each entry, with
//! the position of the fork before it. A new key differs first from the one before it at some position. The pieces whose forks are behind
//! that position join, and the new leaf is a piece of its own. Where two pieces have too many entries for one node, or one is lower than
//! the other, it is closed: a node is built of its entries, written into a record, and the node's entry takes their place.
//!
//! # What carries the proof
//!
//! A stack of pieces is one tree, with the forks between them (`whole_of`). A piece is closed by writing its node, which leaves the tree's
//! leaves and forks as they are (`MayTakePlaceOf`). A new key parts from the last leaf at its fork, so pieces join at forks behind it alone.
//! Node records are left for all that `finish` has to close, so it never fails. Its contract is what `HotTable::new_loaded` requires.
#![tactic(auto)]

mod builder;
mod loader;
mod records;
mod tips;

pub use builder::LoadFault;
pub use loader::Loader;
