//! What a pass does in its calls, on its seat of the table: attempts at a change, counts of records, and the notes that come with
//! a call's last step. The calls themselves are those of `hot_index`.
//!
//! # What carries the proof
//!
//! Between calls a pass owns nothing, and its calls are legal in its front: the invariant `IsSettled`. A note comes with the unpin, at the
//! first place at which the map gives the reply (`place_of`); `IsNoted` follows. The gets of `get_many` are noted in the order of their
//! places (`AreNoted`). What the map says is `IsOutcome`: noted, or `IsRefused`, as full only where the call may take a record (`MayTake`).
//! `HasCause` is apart: `HasConflict`, or all missed. `HasMadeGetSteps`, `HasMadeScanSteps`, `HasMadeGetManySteps`, `HasMadeChangeSteps`,
//! `HasMadeCallSteps`, `HasCollected`, `HasCounted` say which steps a call makes, with bounds. A change is a small round or none, and one
//! attempt, or two with a round between, whole or spared (`AreAttempts`, `is_full`).
//!
//! A get's place names no core: the first n changes are the same in each possible one, and so is the map of version n.
//!
//! Steps are numbered from 1. If the last load of the root is among this call's steps, `SeesAllOfRun` says what it showed and where it
//! stands in the trace. A call that waits begins again while a try is busy, or held back by the count after it (`IsTriedAndCounted`). It
//! makes such tries alone, and the cause of its refusal lies in the last (`MakesTries`). In an index of one pass each record that a full
//! call lacked is in the tree or retired after it (`LeavesUsed`), so its count finds too few free.
#![tactic(auto)]

mod census;
mod changing;
mod gets;
mod refusals;
mod scratch;

pub use census::{RecordCounts, StateCounts, count_records};
pub use changing::{retry_change, try_and_count, try_change};
pub use gets::{end_get, end_gets};
pub use refusals::Refusal;
pub use scratch::{FirstFree, Scratch, new_scratch};
