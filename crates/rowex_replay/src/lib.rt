//! The check of one given run of the concurrent index: its events one by one, each made if it is legal, and refused if not.
//!
//! # What carries the proof
//!
//! A replay is seen as its run: the layout and the events accepted, a ghost field. `step` refuses exactly events that aren't legal in the
//! core to which they lead, bulk loads, and publishes without memory. No gate is told of a load, so a loaded index's events don't replay
//! from a new table. Stored is what events tell of that core (`IsStateOf`); past versions are not kept, since no event's legality needs
//! them. A publish is judged by the tree that the words show with it (`read_tree`), and by the one change between two lists of leaves
//! (`change_between`). `laws::runs_are_legal`.
#![tactic(auto)]

mod history;
pub mod laws;
mod replay;

pub use replay::Replay;
pub use rowex_replay_state::ReplayFault;
