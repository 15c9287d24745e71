//! The index for programs in C: a static library, whose header is `c/hot.h`.
//!
//! # What carries the proof
//!
//! Each call is the index's on the handle's pass, and the status and value say how it came out (`Answers`, `HasOutcome`). Scans write
//! pairs, and leave other places alone (`ListsUpwards`, `ListsReverse`, `ListsLast`); packed ones write the pairs whose keys fit
//! (`ListsPacked`, `fitting`). What a handle owns is a ghost field. Four functions of `hot_handles`, proved by hand for any type, make,
//! take apart and lend it. Each call leaves C's pointer in the handle as it was. No call requires more of its caller than `hot.h` says.
//!
//! Scans for C are cut behind the last pair that fits, since a scan cut at any smaller number of its pairs is lawful (`IsListedByParts`).
//!
//! What calls through the handles of one index have told, each by its status and value, stands in one legal history
//! (`CallsAreLinearizable`).
#![tactic(auto)]

mod around;
mod cell;
mod census;
mod committing;
mod counting;
mod ends;
mod exports;
mod following;
mod handle;
mod laws;
mod lending;
mod loading;
mod lookups;
mod opened;
mod opening;
mod packs;
mod pairs;
mod prefixes;
mod refusals;
mod scans;
mod sectioning;
mod status;
mod stock;
mod values;
