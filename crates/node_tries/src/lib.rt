//! Pieces of a bit trie, for contracts: places and forks, paths, insertion, cut and removal. It has no code.
//!
//! # What carries the proof
//!
//! A piece is a place, or a fork with two pieces. A place's path is the positions at which it takes the 1 side. `highest-paths` is the
//! search lemma without masks. The forks lead to the place with the last path whose positions all have a 1 in the key.
#![tactic(auto)]
