//! Records of a pass's own on their way into the tree: claimed, filled and made ready, or given up.
//!
//! # What carries the proof
//!
//! A claim tries records of a kind from a given number upwards and then from 0, each at most once. All are committed (`AreCommitted`). It
//! exchanges only what it saw free (`MissesOne`, `ClaimsOne`). If it ends with none, each record has a failed step of this call, which says
//! whose it was (`FindsNone`, `HasMissed`, `IsAnothers`). A full result rests on that (`AllMissed`). `fill_leaf`, `fill_node` say which words
//! the pass holds then (`SetsSome`, `SetsWord`).
#![tactic(auto)]

mod claiming;
mod filling;

pub use claiming::{
    RecordKind, claim_by_number, claim_next_record, claim_record, find_free_record, give_up_record,
    give_up_records,
};
pub use filling::{fill_leaf, fill_node, make_ready};
