//! The insertion cases of a height optimized trie (Binna and others, SIGMOD 2018): a full node with one entry more, a fork that is pulled
//! up, and the choice of what is done where.
//!
//! # What carries the proof
//!
//! `choose_case` decides an insertion's case from a writer's path: the lowest node whose first position is before the first difference, or
//! the topmost (`IsAffectedNode`). `grow_full` cuts a full node at its root fork, or leaves it whole beside the leaf. `pull_up_chain_end`
//! says how far full nodes are pulled up (`is_pull_up`).
//!
//! All keys of the affected part first differ from the new key at one position, so no fork of that part has this position. That is what
//! adding to a node requires. If one entry alone is affected, it is a leaf at the end of the path, or the next node.
#![tactic(auto)]

mod choice;
mod growth;
mod raising;

pub use choice::{
    Case, Choice, PathNode, choose_case, is_pull_up, last_level_before, pull_up_chain_end,
};
pub use growth::{Grown, grow, grow_full, pull_up, pull_up_full, put_fork};
pub use raising::Risen;
