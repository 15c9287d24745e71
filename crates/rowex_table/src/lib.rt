//! The shared table: its words, the seats of its passes, and the atomic steps that they make, each one event of the core.
//!
//! # What carries the proof
//!
//! The rule of the table (`Ruled`): the words show a lawful core, what each seat knows is true of it, and no number belongs to two seats. A
//! run of steps leads to that core, and begins with each seat's trace (`HasTraces`). So steps of one pass stand in one run
//! (`laws::call_steps_are_in_one_run`), and so do the traces of two (`laws::traces_are_of_one_run`). Stamps, follows and meetings are
//! counted (`asides`), and so are touches (`touches`), of which few stand beside a step (`MayTouch`). Each step function owes that the step
//! is legal in every core that agrees with what the seat knows (`MayStep`, `MayLock`). One lemma serves loads, stores and exchanges
//! (`allows` in `proofs/Rule`). Contracts of steps are `Steps`, of runs `Runs`; a gate hears just these (`laws::gate_is_told_each_step`).
//! `meet_seats` joins two seats, makes one load, and parts them. A stamp is a seat that owns no number (`stamp_seat`, `follow_stamp`).
//!
//! Of each kind of records the first are committed (`specs/Committed`), and a run claims or loads only these. Six words say how many of the
//! last ones aren't. They only fall, so what a pass finds stays a bound (`HasBounds`). Their loads and exchanges are no events, and may stand
//! beside a step of any run (`step_from` in `proofs/Committed/Chains`). `claim_at` takes committed records alone.
#![tactic(auto)]

mod commit_steps;
mod epoch_steps;
mod first_words;
pub mod laws;
mod locations;
mod plays;
mod record_steps;
mod seating;
mod spot_steps;
mod stamping;
mod steps;
mod table;
mod traces;

pub use record_steps::RecordAt;
pub use stamping::TableStamp;
pub use table::{HotTable, TableSeat};
pub use traces::{Trace, TracedView};
