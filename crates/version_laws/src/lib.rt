//! What writers, searches and scans may conclude from what they read. Definitions and laws alone.
//!
//! # What carries the proof
//!
//! Conclusions from facts about past versions. Writers: what rises from a locked node (`IsRise`), whether a publish is legal with just the
//! records that come and go (`IsAtHand`), why a path found without locks still leads (`way_follows`). Two reads of one place differ only if
//! something was published (`root_loads_agree`, `entry_loads_agree`, `searches_agree`, `unchanged_search_goes_on_by_entry`, by
//! `node_met_twice_is_equal`). Readers: `loaded_entry_leads_search_on` leads a search on, `lookup_is_current` ends it in a version since
//! the root's load. Scans: the invariant `IsScanBy`, and what its ends give (`scan_is_lawful`). `specs/Directions` names what differs by
//! direction.
//!
//! For an insertion all keys of the affected part first differ from the new one at the mismatch, even if the search's leaf has gone since.
//! The public laws ask for no tree.
#![tactic(auto)]

pub mod laws;
