//! The concurrent index as a pure state machine: the atomic steps of its passes, when each is legal, what it makes of
//! the shared state, and what it teaches the pass that makes it.
//!
//! # What carries the proof
//!
//! An event is one atomic step of a pass. `Core` has the layout, raw words, and what `versions` has. `word_at` gives each word that a core
//! shows. `Legal` says when an event may happen, `after` what it makes of the core. A legal event keeps the core lawful
//! (`steps_stay_lawful`) and changes at most one word (`steps_write_one_word`). What a pass knows (`Knows`) is facts about the past, and
//! its share: exactly what is its own (`pass_knows_all_it_has`). Others' events keep it true (`steps_keep_what_others_know`); its own teach
//! it (`learned_is_true`). A load of the root shows all changes so far (`root_load_sees_all_changes`, `SeesAllAtRoot`).
//!
//! The change of a publish is found from the leaves before and after (`legality_finds_change`). `publish_is_map_step`: it is one step of
//! the map, whatever locks others hold. `writer_laws` turn a publish of versions into one of words (`allowed_store_is_legal_publish`).
//! `runs_stay_lawful`, `runs_keep_knowledge` are the same for lists of events. A run may begin with a bulk load (`IsLoad`), whose words
//! show a lawful tree. Its versions are those of single insertions in key order (`loaded_past` of `versions`).
//!
//! Other words than states and entries are fixed for a record's life. So what a pinned pass loads of them is of one content
//! (`reach_keeps_its_words`), and each entry is the one of the node's last version (`entries_in_reach_are_of_last_version`).
#![tactic(auto)]

mod event;
mod known;
pub mod laws;
pub mod writer_laws;

pub use event::{Act, Event, Gate, NoGate, Spot, Target};
pub use known::{Fact, Failed, FailedAct, Fresh, Holding, Known, Loaded, Locked, Owned, View};
pub use record_words::Rec;
pub use versions::{Pin, Round};
