//! The replay: the state that it keeps, beside the run that it has accepted.

ghost use Rattle.std.specs.Prelude.{◌≡◌, IfOk, OnErr, OnOk, length};

use crate::history::History;
use key_bits::Key;
use record_words::Layout;
use rowex_core::Event;
use rowex_replay_state::{ReplayFault, State};
use std::alloc::{AllocError, Global};
use std::marker::Model;

/// Checks one given run of the concurrent index, event by event.
///
/// Contracts see it as the run so far: the layout of the index and the events that were accepted. These are legal one after the other
/// from the opening core on.
#[derive(Drop)]
pub struct Replay {
    pub(crate) state: State,
    history: History,
}

impl Model for Replay {
    ghost use Rattle.rowex_replay.specs.Runs.{Run};

    ghost Value = { Run };

    ghost use Rattle.rowex_replay.specs.Replays.{IsAfter};

    ghost view = { λ a. a.history.run };

    ghost invariant = { λ a. IsAfter a.state a.history.run };
}

impl Replay {
    ghost use Rattle.finite_map.specs.Fronts.{map_of};
    ghost use Rattle.versions.specs.Told.{content};
    ghost use Rattle.rowex_core.specs.Events.{IsAtomic, Legal};
    ghost use Rattle.rowex_replay.specs.Runs.{core_of, new_run, with_event};
    ghost use Rattle.rowex_replay.specs.Replays.{MayWantMemory};

    /// Returns a replay of no event yet, of an index of `layout`; `AllocError` if memory is refused.
    pub fn new(alloc: Global, layout: Layout) -> Result<Replay, AllocError>
        ensures { IfOk result (λ replay. replay ≡ new_run layout) }
    {
        let state = State::new(alloc, layout)?;
        Ok(Replay {
            state,
            history: History::new(&layout),
        })
    }

    /// Makes `event` if it is a legal step where the run so far leads, and appends it to the run. If it isn't legal, the error is
    /// `Illegal`. It is `Load` for a bulk load, which a replay never makes. It is `Memory` if memory was refused, which only a publish
    /// under the lock of its word takes. An error changes nothing. Only a publish takes time linear in the table.
    pub fn step(&mut self, event: Event) -> Result<(), ReplayFault>
        ensures ok { OnOk result (Legal (core_of self.old) event.pass event.act × (self.new ≡ with_event self.old event)) }
        ensures illegal { result ≡ Err ReplayFault.Illegal → ¬ Legal (core_of self.old) event.pass event.act }
        ensures memory { result ≡ Err ReplayFault.Memory → MayWantMemory (core_of self.old) event.pass event.act }
        ensures load { result ≡ Err ReplayFault.Load → ¬ IsAtomic event.act }
        ensures refused { OnErr result (self.new ≡ self.old) }
    {
        self.state.step(event)?;
        self.history = self.history.append_event(&event);
        Ok(())
    }

    /// Returns how many changes the run has made so far.
    pub fn changes(&self) -> u64
        ensures { result ≡ length (core_of self.now).changes }
    {
        self.state.changes()
    }

    /// Returns the keys of the newest version with their values, in key order. That is also the map after the run's changes. `AllocError`
    /// if memory is refused.
    pub fn content(&self, alloc: Global) -> Result<Vec<(Key, u64)>, AllocError>
        ensures version { IfOk result (λ pairs. pairs.items ≡ content ((core_of self.now).past.version (core_of self.now).past.now)) }
        ensures map { IfOk result (λ pairs. pairs.items ≡ map_of (core_of self.now).changes) }
    {
        self.state.content(alloc)
    }
}
