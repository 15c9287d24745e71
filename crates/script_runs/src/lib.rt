//! How scripts run through handles of an index: a call, a command, a script, several at the same time.
//!
//! # A script alone
//!
//! [`run_on_new_index`] makes an index of one pass, whose leaf records fit the script's longest key. It puts the pass in a handle and
//! makes the commands one after another. No other pass is in the way, so no call waits. The answers come back as text.
//!
//! # Several scripts
//!
//! [`run_all_scripts`] makes a run in this order:
//!
//! 1. *Index and passes.* It makes an index with a pass for each file's script and one for the last script.
//! 2. *Handles and threads.* It puts each file's pass in a handle, and starts a thread with the handle, the script and its gate. A call
//!    waits while another pass is in its way, or while records that it lacks may come back.
//! 3. *Joins.* It joins the threads in the order of the files. Each returns its handle, its answers and its gate.
//! 4. *Meetings.* The last script's pass meets each file's pass in turn. So the last script sees all that the files' scripts changed.
//! 5. *The last script.* It runs by the last pass. Then that pass meets the others once more. So each of them has seen all changes of the
//!    run, and the calls of all scripts are legal in one front.
//!
//! A run ends early only if memory is refused or a thread can't be started. Threads that were started are joined before it returns.
//!
//! # What carries the proof
//!
//! What a pass goes through is said command by command (`IsAnswerTold`). `run_one`: the only pass of an index made all changes, so by
//! `lone_calls_are_a_run` and `still_scan_gives_first_pairs` its results are the map's (`IsAnsweredScript`). `run_scripts`: each thread
//! promises what its pass did and what its gate was told (`Promise`). After the second meeting all calls are legal in one front
//! (`LawfulScripts`, `script_runs/proofs/Scripts`).
#![tactic(auto)]

mod answer;
mod callers;
mod engine;
mod indexes;
mod one;
mod together;

pub use indexes::Records;
pub use one::run_on_new_index;
pub use together::{Results, run_all_scripts};
