//! The passes: their pins, and their rounds over the pins of all.

ghost use Rattle.std.specs.Prelude.{◌≡◌, ◌↔◌, ◌<◌, IsTrue, true, Some, None, min, false};

use record_words::MAX_STOCK_PASSES;

/// The most passes of an index, as a length.
const PASSES: usize = MAX_STOCK_PASSES as usize;

/// What a replay keeps of a pass: its pin, and its round. Its last load of the epoch found `epoch`, when version `version` was the newest;
/// both are 0 before the first load. `bound` is the least of `epoch` and of the pins loaded since, and `seen` says of which passes these
/// were.
#[derive(Clone, Copy)]
pub(crate) struct PassState {
    pub(crate) pin: Option<u64>,
    pub(crate) epoch: u64,
    pub(crate) version: u64,
    pub(crate) bound: u64,
    pub(crate) seen: [bool; PASSES],
}

impl PassState {
    ghost use Rattle.rowex_replay_state.specs.Passes.{fresh_pass, in_round, with_pin_seen, HasLoadedPins, IsOutOfReach, MayPin};

    /// Returns a pass that has done nothing yet.
    pub(crate) fn new() -> PassState
        ensures { result ≡ fresh_pass }
    {
        PassState {
            pin: None,
            epoch: 0,
            version: 0,
            bound: 0,
            seen: [false; PASSES],
        }
    }

    /// Returns the pass as it is once it has loaded `epoch`, while version `version` was the newest. Its new round has loaded no pin yet,
    /// and its own pin stays.
    pub(crate) fn begin_round(self, epoch: u64, version: u64) -> PassState
        ensures { result ≡ in_round self epoch version }
    {
        PassState {
            epoch,
            version,
            bound: epoch,
            seen: [false; PASSES],
            ..self
        }
    }

    /// Returns the pass as it is once its round has loaded `pin`, the pin of pass `of`, which may be the pass itself. `None` stands for no
    /// pin. The bound falls to `pin` if that is lower. A number that no pass can have is not noted.
    pub(crate) fn see_pin(self, of: u16, pin: Option<u64>) -> PassState
        ensures { result ≡ with_pin_seen self of pin }
    {
        let mut seen = self.seen;
        if (of as usize) < PASSES {
            seen[of as usize] = true;
        }
        let bound = match pin {
            None => self.bound,
            Some(word) => self.bound.min(word),
        };
        PassState {
            bound,
            seen,
            ..self
        }
    }

    /// Returns whether the pass may be pinned by `epoch`: it isn't pinned, and its last load of the epoch found `epoch`. That is at least
    /// 1; before the first load it is 0.
    pub(crate) fn may_pin(&self, epoch: u64) -> bool
        ensures { IsTrue result ↔ MayPin self.now epoch }
    {
        self.pin.is_none() && epoch == self.epoch && epoch >= 1
    }

    /// Returns whether this pass's round shows that no pass can reach what was marked with `epoch`. `passes` is how many passes the index
    /// has. The result is `true` exactly if `epoch` is at least 1 and below the round's bound, and the round has loaded all their pins.
    pub(crate) fn is_unreachable(&self, epoch: u64, passes: usize) -> bool
        ensures { IsTrue result ↔ IsOutOfReach self.now epoch passes }
    {
        if epoch < 1 || epoch >= self.bound {
            return false;
        }
        self.has_seen_all(passes)
    }

    /// Returns whether the pass has loaded the pin of each of the first `passes` passes in its round.
    fn has_seen_all(&self, passes: usize) -> bool
        ensures { IsTrue result ↔ HasLoadedPins self.now passes }
    {
        self.seen.iter().take(passes).all(|seen| *seen)
    }
}
