//! Sections, in which threads use what they found in an index, and whether all that were open at a moment have been left.
//!
//! # What carries the proof
//!
//! The words show a run of events, the newest first: a section entered or left, a moment taken (`SectionsRuled`, `ShowsRun`). A section is
//! entered with the number of moments that its owner loaded before (`MayFollow`). So where a word is 0, or above a moment's number, the
//! section has been left since that moment (`left_since` in `proofs/Runs/Past`). Sections from the extent on were never entered.
//! `laws::runs_are_one`: of two owners' runs one goes on from the other.
#![tactic(auto)]

mod calls;
mod events;
pub mod laws;
mod plays;
mod steps;
mod table;

pub use events::{Seated, SectionEvent, SectionKnowledge};
pub use table::{MOST_MOMENTS, Section, Sections};
