//! Steps on the epoch and on pins. The pass of `seat` makes each, and `gate` is told of it.

ghost use Rattle.std.specs.Prelude.{◌<◌, ◌≤◌, ◌+◌, List};
ghost use Rattle.finite_map.specs.declared.Note.{Note};
ghost use Rattle.rowex_core.specs.declared.event.Act.TheVariants.{LoadEpoch, Advance, SetPin, ClearPin, LoadPin};
ghost use Rattle.rowex_core.specs.declared.known.Known.{Known};
ghost use Rattle.rowex_table.specs.Rule.{MayStep};
ghost use Rattle.rowex_table.specs.Runs.{Steps, StepsWith};
ghost use Rattle.rowex_table.specs.Seats.{IsPassOf, IsSeatOf};

use crate::steps::Exchange;
use crate::table::{HotTable, TableSeat};
use record_words::{EPOCHS, Location, NO_PIN};
use rowex_core::{Act, Gate};
use std::marker::Brand;

impl HotTable {
    /// Loads the epoch and returns it. So the pass begins a round, whose bound is this epoch.
    pub fn load_epoch<G: Gate>(&self, seat: &mut TableSeat, gate: &mut G) -> u64
        requires own { IsSeatOf self.now seat.old }
        ensures { Steps self.now G.becomes (LoadEpoch result) (seat.old, gate.old) (seat.new, gate.new) }
    {
        let epoch = self.address_of(Location::Epoch);
        self.load_word_at::<Brand, G>(seat, gate, Act::LoadEpoch { word: 0 }, epoch)
    }

    /// Exchanges the epoch `expected`, from 1 to 2^60 - 2, for the next one. If the epoch is another, it stays. Returns the epoch that the
    /// step found.
    pub fn advance<G: Gate>(&self, seat: &mut TableSeat, gate: &mut G, expected: u64) -> u64
        requires own { IsSeatOf self.now seat.old }
        requires range { (1 ≤ expected) × (expected + 1 < EPOCHS) }
        ensures { Steps self.now G.becomes (Advance expected result) (seat.old, gate.old) (seat.new, gate.new) }
    {
        let act = Act::Advance { expected, found: 0 };
        let new = expected + 1;
        let epoch = self.address_of(Location::Epoch);
        self.compare_exchange_at::<Brand, G>(seat, gate, act, epoch, Exchange { expected, new })
    }

    /// Stores `word` as the pass's pin. `word` is the epoch that the pass loaded last, and at least 1, and the pass has no pin before.
    pub fn set_pin<G: Gate>(&self, seat: &mut TableSeat, gate: &mut G, word: u64)
        requires fits { IsPassOf self.now seat.old }
        requires may { MayStep self.now.layout (λ _. SetPin word) seat.old.known }
        ensures { Steps self.now G.becomes (SetPin word) (seat.old, gate.old) (seat.new, gate.new) }
    {
        let pin = self.address_of(Location::Pin(seat.number()));
        self.store_word_at::<Brand, G>(seat, gate, Act::SetPin { word }, pin, word);
    }

    /// Clears the pass's pin, which is set, by a store of `NO_PIN`. A call ends with this step, which appends its notes, `said`.
    pub fn clear_pin<G: Gate>(&self, seat: &mut TableSeat, gate: &mut G)
        ghost said: { Known → List Note }
        requires fits { IsPassOf self.now seat.old }
        requires may { MayStep self.now.layout (λ _. ClearPin) seat.old.known }
        ensures { StepsWith self.now G.becomes ClearPin said (seat.old, gate.old) (seat.new, gate.new) }
    {
        let pin = self.address_of(Location::Pin(seat.number()));
        self.store_word_at::<Brand, G>(seat, gate, Act::ClearPin, pin, NO_PIN);
    }

    /// Loads the word of the pin of pass `of` and returns it: `NO_PIN` if that pass isn't pinned.
    pub fn load_pin<G: Gate>(&self, seat: &mut TableSeat, gate: &mut G, of: u16) -> u64
        requires own { IsSeatOf self.now seat.old }
        requires range { of < self.now.layout.passes }
        ensures { Steps self.now G.becomes (LoadPin of result) (seat.old, gate.old) (seat.new, gate.new) }
    {
        let pin = self.address_of(Location::Pin(of));
        self.load_word_at::<Brand, G>(seat, gate, Act::LoadPin { of, word: 0 }, pin)
    }
}
