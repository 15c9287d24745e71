//! Whole runs of the index, and its calls in the order of time.
//!
//! # What carries the proof
//!
//! A run is a function from times to states (`IsWholeRun`); each time is sound (`runs_stay_sound`). A call's place lies between the
//! changes made before its load of the root and those made by its end. The list of changes only grows, so places fit real time.
//! `weave_puts_returned_calls_first` makes one history (`runs_are_linearizable`).
#![tactic(auto)]

pub mod laws;
