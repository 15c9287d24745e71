//! The run that a replay has accepted. It is there for proofs alone: it takes no memory, and its methods do nothing.

ghost use Rattle.std.specs.Prelude.{◌≡◌};
ghost use Rattle.std.specs.Borrow.{ftrue};
ghost use Rattle.rowex_replay.specs.Runs.{Run};

use record_words::Layout;
use rowex_core::Event;
use std::marker::Model;

/// The run so far, for proofs alone: the layout of an index, and its events, the oldest first.
#[derive(Drop)]
pub(crate) struct History {
    ghost run: { Run },
}

impl Model for History {
    ghost also_owns = { λ _. ftrue };
}

// It owns nothing.
unsafe impl Send for History {}

unsafe impl Sync for History {}

impl History {
    ghost use Rattle.rowex_replay.specs.Runs.{new_run, with_event};

    /// Returns the history of no event yet, of an index of the layout `_layout`.
    pub(crate) fn new(_layout: &Layout) -> History
        ensures { result.run ≡ new_run _layout.now }
    {
        History {}
    }

    /// Returns the history with `_event` behind its events.
    pub(crate) fn append_event(&self, _event: &Event) -> History
        ensures { result.run ≡ with_event self.now.run _event.now }
    {
        History {}
    }
}
