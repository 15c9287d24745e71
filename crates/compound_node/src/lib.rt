//! The compound nodes of a height optimized trie (HOT: Binna and others, SIGMOD 2018), as plain values.
//!
//! A node holds 2 to 32 entries in the order of their keys and shows a piece of a bit trie. Its columns, HOT's discriminative bits, are
//! the positions of the piece's forks. It has a row for each entry, its sparse partial key. A row has a 1 exactly where the entry's path
//! takes the 1 side of a fork. No call takes memory.
//!
//! # What carries the proof
//!
//! Every node shows a piece. Each function is an edit of pieces: `without` dissolves the last fork on a path, `merge` puts two nodes below
//! one fork. `from_parts` accepts exactly the fields that some node has (`proofs/Ladders`). The first row is 0. Each next is above the one
//! before, and without its lowest 1 not above. All rows together are the highest bits, one a column. A new node is one higher than its
//! highest entry, so heights bound the depth.
#![tactic(auto)]

mod building;
mod entries;
mod halves;
mod heads;
mod joining;
mod nodes;
mod rows;

pub use entries::Entry;
pub use halves::{Cut, Half};
pub use heads::Head;
pub use nodes::Node;
pub use rows::{find_sibling, fork_rows, or_first_rows, remove_row, spread_lanes, squeeze_lanes};
