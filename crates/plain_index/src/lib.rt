//! What stands beside the program over the finite map: the map for one thread, the decision whether calls are legal, and
//! the laws of histories.
//!
//! # What carries the proof
//!
//! `PlainIndex` is the map over a `BTreeMap`: `apply` gives what `step` says, and `run` does so call by call. `scan` lists the first pairs
//! of the range. Out of memory a call changes nothing.
//!
//! The laws of histories are here. Later changes of others leave a pass's calls legal (`legal_calls_stay_legal_in_longer_fronts`). The
//! legal calls of passes in one front weave into one legal history, each once and in order (`weave_of_legal_calls_is_legal`,
//! `weave_of_passes_keeps_calls`). If the places fit what is known of time, no call stands before one that had returned when it began
//! (`weave_puts_returned_calls_first`). A pass that made all changes ran the map itself (`lone_calls_are_a_run`).
#![tactic(auto)]

mod histories;
pub mod laws;
mod plain;

pub use histories::are_legal;
pub use plain::PlainIndex;
