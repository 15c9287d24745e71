//! What the contracts of the index come to over whole runs: laws, and the promises of the index in one place.
//!
//! # What carries the proof
//!
//! `ExecutionsAreLinearizable` says so of an `IsExecution`; `StepsAreMoments` ties it to the table's steps. Lives of passes whose traces
//! have ended in one run are interleaved as their steps stand in it (`OneRunIsAnExecution`). `NoRecordIsLost`: where no pass is at work,
//! steps of a round lead from core to core (`Rounding`), and each record in the tree of a lawful core is listed once (`Standing`).
#![tactic(auto)]

pub mod laws;
