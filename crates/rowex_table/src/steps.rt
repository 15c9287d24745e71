//! The three forms of steps: a load, a store and an exchange. Each is an event, of which the gate is told. `Q` has its act, and the notes
//! that come with it.

ghost use Rattle.std.specs.Prelude.{◌≡◌, ℕ, Some};
ghost use Rattle.record_words.specs.Layout.{IsInTable};
ghost use Rattle.rowex_core.specs.Events.{IsAtomic, exchanged, location_of, writes};
ghost use Rattle.record_words.specs.Layout.{uncommitted_in};
ghost use Rattle.rowex_table.specs.Committed.{ClaimsCommitted};
ghost use Rattle.rowex_table.specs.Rule.{IsAddressOf, MayStep, found_by};
ghost use Rattle.rowex_table.specs.Runs.{StepsWith};
ghost use Rattle.rowex_table.specs.Seats.{IsSeatOf};

use crate::plays::{Step, Stepping};
use crate::table::{HotTable, TableSeat};
use record_words::Location;
use rowex_core::{Act, Event, Gate};

/// What an exchange expects to find, and what it stores in place of that.
#[derive(Clone, Copy)]
pub(crate) struct Exchange {
    pub expected: u64,
    pub new: u64,
}

impl HotTable {
    /// Returns the number of the word at `location` in the table.
    #[inline(always)]
    pub(crate) fn address_of(&self, location: Location) -> usize
        requires { IsInTable self.now.layout location }
        ensures { IsAddressOf self.now.layout location result }
    {
        self.origins.address(location)
    }

    /// Loads the table's word with the number `address` as the step `act`, of which `gate` is told, and returns the word. `Q` names the act
    /// and the notes that come with it. What `act` has as the found word doesn't count. The pass touches no other word.
    pub(crate) fn load_word_at<Q: Step, G: Gate>(
        &self,
        seat: &mut TableSeat,
        gate: &mut G,
        act: Act,
        address: usize,
    ) -> u64
        requires own { IsSeatOf self.now seat.old }
        requires place { IsAddressOf self.now.layout (location_of seat.old.known.pass Q.act) address }
        requires writes { (w : ℕ) → w ≡ writes Q.act w }
        requires atomic { IsAtomic Q.act }
        requires committed { ClaimsCommitted self.now.layout (uncommitted_in seat.old.bounds) Q.act }
        requires apt { (Q.layout ≡ Some self.now.layout) × (act ≡ Q.act) × MayStep self.now.layout (found_by Q.act) seat.old.known }
        ensures steps { StepsWith self.now G.becomes (found_by Q.act result) Q.said (seat.old, gate.old) (seat.new, gate.new) }
        ensures touches { seat.new.touches ≡ seat.old.touches }
    {
        let word = self
            .table
            .shared
            .load::<Stepping<Q>>(&mut seat.seat, address);
        tell_gate(gate, seat, act_with_found(act, word));
        word
    }

    /// Stores `new` to the table's word with the number `address` as the step `act`, of which `gate` is told. `Q` names the act and the
    /// notes that come with it.
    pub(crate) fn store_word_at<Q: Step, G: Gate>(
        &self,
        seat: &mut TableSeat,
        gate: &mut G,
        act: Act,
        address: usize,
        new: u64,
    )
        requires own { IsSeatOf self.now seat.old }
        requires place { IsAddressOf self.now.layout (location_of seat.old.known.pass Q.act) address }
        requires writes { ((w : ℕ) → new ≡ writes Q.act w) × ((w : ℕ) → found_by Q.act w ≡ Q.act) }
        requires atomic { IsAtomic Q.act }
        requires committed { ClaimsCommitted self.now.layout (uncommitted_in seat.old.bounds) Q.act }
        requires apt { (Q.layout ≡ Some self.now.layout) × (act ≡ Q.act) × MayStep self.now.layout (found_by Q.act) seat.old.known }
        ensures { StepsWith self.now G.becomes (found_by Q.act new) Q.said (seat.old, gate.old) (seat.new, gate.new) }
    {
        self.table
            .shared
            .store::<Stepping<Q>>(&mut seat.seat, address, new);
        tell_gate(gate, seat, act);
    }

    /// Stores `exchange.new` to the table's word with the number `address`, if the word is `exchange.expected`, as the step `act`, of which
    /// `gate` is told. Returns the word that the step found: it has stored exactly if that is `exchange.expected`. `Q` names the act and
    /// the notes that come with it.
    pub(crate) fn compare_exchange_at<Q: Step, G: Gate>(
        &self,
        seat: &mut TableSeat,
        gate: &mut G,
        act: Act,
        address: usize,
        exchange: Exchange,
    ) -> u64
        requires own { IsSeatOf self.now seat.old }
        requires place { IsAddressOf self.now.layout (location_of seat.old.known.pass Q.act) address }
        requires writes { (w : ℕ) → exchanged w exchange.expected exchange.new ≡ writes Q.act w }
        requires atomic { IsAtomic Q.act }
        requires committed { ClaimsCommitted self.now.layout (uncommitted_in seat.old.bounds) Q.act }
        requires apt { (Q.layout ≡ Some self.now.layout) × (act ≡ Q.act) × MayStep self.now.layout (found_by Q.act) seat.old.known }
        ensures { StepsWith self.now G.becomes (found_by Q.act result) Q.said (seat.old, gate.old) (seat.new, gate.new) }
    {
        let found = self
            .table
            .shared
            .compare_exchange::<Stepping<Q>>(
                &mut seat.seat,
                address,
                exchange.expected,
                exchange.new,
            );
        tell_gate(gate, seat, act_with_found(act, found));
        found
    }
}

/// Tells `gate` of the step `act`, which the pass of `seat` has just made.
fn tell_gate<G: Gate>(gate: &mut G, seat: &TableSeat, act: Act)
    ensures { G.becomes gate.old (record { pass = seat.now.known.pass; act = act }) gate.new }
{
    let pass = seat.pass;
    gate.at(&Event { pass, act });
}

/// Returns `act` with `word` as the word that its step found. The act of a store finds none, and stays as it is; so does a bulk load.
fn act_with_found(act: Act, word: u64) -> Act
    ensures { result ≡ found_by act word }
{
    match act {
        Act::Claim { rec, .. } => Act::Claim { rec, found: word },
        Act::LoadRef { spot, .. } => Act::LoadRef { spot, word },
        Act::LoadFixed { rec, offset, .. } => Act::LoadFixed { rec, offset, word },
        Act::Lock { target, .. } => Act::Lock {
            target,
            found: word,
        },
        Act::LoadEpoch { .. } => Act::LoadEpoch { word },
        Act::Advance { expected, .. } => Act::Advance {
            expected,
            found: word,
        },
        Act::LoadPin { of, .. } => Act::LoadPin { of, word },
        Act::LoadState { rec, .. } => Act::LoadState { rec, word },
        Act::GiveBack { rec, epoch, .. } => Act::GiveBack {
            rec,
            epoch,
            found: word,
        },
        Act::Fill { .. } | Act::Ready { .. } | Act::Release { .. } => act,
        Act::Unlock { .. } | Act::Publish { .. } | Act::Mark { .. } => act,
        Act::SetPin { .. } | Act::ClearPin | Act::Load { .. } => act,
    }
}
