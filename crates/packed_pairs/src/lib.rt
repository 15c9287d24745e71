//! Lists of keys with their values, packed: the bytes of all keys one after another, so that no pair takes more room than it needs.
//!
//! # What carries the proof
//!
//! `push` of `Pairs` adds a pair, or out of memory nothing.
#![tactic(auto)]

mod back;
mod direction;
mod filling;
mod head;
mod heads;
mod iter;
mod keys;
mod pairs;
mod parts;

pub use direction::Direction;
pub use filling::Filling;
pub use head::PairHead;
pub use iter::Iter;
pub use pairs::Pairs;
