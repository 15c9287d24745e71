//! The versions of the index: the trees that publishes make one after the other, the lives of records, fates and epochs.
//!
//! # What carries the proof
//!
//! What passes share, without words: versions, changes, lives and fates of records, locks, the epoch, pins, rounds. Steps are one relation
//! (`IsCoreStep`), and each keeps the state lawful (`steps_stay_lawful`). Main laws: `hindsight` (a search goes on in a record that was
//! unlinked), `keys_part_at_fork_between_slots` (keys below two entries part at their fork, in whichever versions), `content_is_map`
//! (version n holds the map of n changes), `nodes_in_tree_are_fewer_than_keys`, `reach_is_kept`. `HasTraded` says exactly which records a
//! publish links and unlinks.
#![tactic(auto)]

pub mod laws;

use std::collections::LinkedList;
use std::marker::Model;
use std::mem::ManuallyDrop;

/// A list for contracts alone: no value of it is made. Dropping one does nothing, so no crate proves the drop of what holds one.
pub struct Listed<T> {
    list: ManuallyDrop<LinkedList<T>>,
}

impl<T> Model for Listed<T> {
    ghost use Rattle.std.specs.Mem.{manually_drop_value};
    ghost use Rattle.std.specs.Prelude.{List};

    ghost Value = { List T };

    ghost view = { λ listed. manually_drop_value listed.list };
}

/// A pin: `word` is the epoch in it, `version` the newest version when it was set, `floor` the epoch then. No value of it is made.
pub struct Pin {
    pub word: u64,
    pub version: u64,
    pub floor: u64,
}

/// A pass's round: its last load of the epoch found `epoch`, when the newest version was `version`. `bound` is the least of `epoch` and of
/// the pins loaded since, and `seen` the passes whose pins these were. No value of it is made.
pub struct Round {
    pub epoch: u64,
    pub version: u64,
    pub bound: u64,
    pub seen: Listed<u64>,
}
