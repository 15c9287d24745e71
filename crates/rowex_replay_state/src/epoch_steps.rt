//! The steps on the epoch and on pins.

ghost use Rattle.std.specs.Prelude.{◌≡◌, ◌<◌, length, slice_get, Some};
ghost use Rattle.rowex_core.specs.declared.event.Act.TheVariants.{Advance, ClearPin, LoadEpoch, LoadPin, SetPin};
ghost use Rattle.rowex_replay_state.specs.States.{IsStepped};

use crate::passes::PassState;
use crate::records::set_item;
use crate::state::State;
use record_words::EPOCHS;

impl State {
    /// Returns the pin and the round of `pass`, one of the index's passes.
    pub(crate) fn pass_state(&self, pass: u16) -> PassState
        requires { pass < length self.now.passes }
        ensures { slice_get self.now.passes pass ≡ Some result }
    {
        self.passes[pass as usize]
    }

    /// Returns the pin and the round of `pass`; `None` if the index hasn't that pass.
    fn find_pass_state(&self, pass: u16) -> Option<PassState>
        ensures { result ≡ slice_get self.now.passes pass }
    {
        self.passes.get(pass as usize).copied()
    }

    /// Makes the load of the epoch by `pass`, which finds `word`. Returns whether the step is legal: `word` is the epoch. If so, a new
    /// round of `pass` begins, with this epoch and the newest version, whose number is that of the changes so far. If not, nothing changes.
    pub(crate) fn load_epoch(&mut self, pass: u16, word: u64) -> bool
        requires { pass < length self.old.passes }
        ensures { IsStepped result self.old self.new pass (LoadEpoch word) }
    {
        if word != self.epoch {
            return false;
        }
        let version = self.changes.len() as u64;
        let loaded = self.pass_state(pass).begin_round(self.epoch, version);
        set_item(&mut self.passes, pass as usize, loaded);
        true
    }

    /// Raises the epoch by one if it is `expected`, as an exchange by `pass`, which may be any. Returns whether the step is legal: `found`
    /// is the epoch before, and `expected` is 1 to `EPOCHS` - 2, so that the epoch stays below `EPOCHS`. If not, nothing changes. An
    /// exchange that finds another epoch than `expected` fails: it is a legal step, too, and changes nothing.
    pub(crate) fn advance(&mut self, pass: u16, expected: u64, found: u64) -> bool
        ensures { IsStepped result self.old self.new pass (Advance expected found) }
    {
        if expected < 1 || expected >= EPOCHS - 1 || found != self.epoch {
            return false;
        }
        if self.epoch == expected {
            self.epoch = expected + 1;
        }
        true
    }

    /// Pins `pass` by `word`. Returns whether the step is legal: the pass isn't pinned, and its last load of the epoch found `word`. A pass
    /// that hasn't loaded the epoch yet may not be pinned. If the step isn't legal, nothing changes.
    pub(crate) fn set_pin(&mut self, pass: u16, word: u64) -> bool
        requires { pass < length self.old.passes }
        ensures { IsStepped result self.old self.new pass (SetPin word) }
    {
        let mut own = self.pass_state(pass);
        if !own.may_pin(word) {
            return false;
        }
        own.pin = Some(word);
        set_item(&mut self.passes, pass as usize, own);
        true
    }

    /// Unpins `pass`. Returns whether the step is legal: the pass is pinned. If not, nothing changes.
    pub(crate) fn clear_pin(&mut self, pass: u16) -> bool
        requires { pass < length self.old.passes }
        ensures { IsStepped result self.old self.new pass ClearPin }
    {
        let mut own = self.pass_state(pass);
        if own.pin.is_none() {
            return false;
        }
        own.pin = None;
        set_item(&mut self.passes, pass as usize, own);
        true
    }

    /// Makes the load by `pass` of the pin of pass `of`, which finds `word`. Returns whether the step is legal: the index has pass `of`,
    /// and `word` is its pin, or 0 if it has none. If so, the round of `pass` has loaded that pin, and its bound falls to the pin if that
    /// is lower. If not, nothing changes.
    pub(crate) fn load_pin(&mut self, pass: u16, of: u16, word: u64) -> bool
        requires { pass < length self.old.passes }
        ensures { IsStepped result self.old self.new pass (LoadPin of word) }
    {
        let Some(other) = self.find_pass_state(of) else {
            return false;
        };
        if word != other.pin.unwrap_or(0) {
            return false;
        }
        let seen = self.pass_state(pass).see_pin(of, other.pin);
        set_item(&mut self.passes, pass as usize, seen);
        true
    }
}
