//! Steps on the words of a record. The pass of `seat` makes each, and `gate` is told of it.

ghost use Rattle.std.specs.Prelude.{◌≡◌, ◌<◌, ◌+◌};
ghost use Rattle.record_words.specs.Layout.{uncommitted_in};
ghost use Rattle.rowex_core.specs.declared.event.Act.TheVariants.{Claim, Fill, Ready, Release, LoadFixed, Mark, LoadState, GiveBack};
ghost use Rattle.rowex_core.specs.Cores.{HasRecord, HasWord};
ghost use Rattle.rowex_core.specs.Events.{IsOffset, IsFixedOffset};
ghost use Rattle.rowex_table.specs.Committed.{IsCommitted};
ghost use Rattle.rowex_table.specs.Rule.{IsStartOf, MayStep, record_number};
ghost use Rattle.rowex_table.specs.Runs.{Steps};
ghost use Rattle.rowex_table.specs.Seats.{IsSeatOf, touched};

use crate::plays::Touching;
use crate::steps::Exchange;
use crate::table::{HotTable, TableSeat};
use record_words::{EPOCHS, Origins, Tag, obsolete_word, pack_state};
use rowex_core::{Act, Gate, Rec};
use std::marker::Brand;

/// A record of a table, and the number of its first word there in `start`. It is found once, and serves several steps.
#[derive(Clone, Copy)]
pub struct RecordAt {
    pub rec: Rec,
    pub start: usize,
}

impl RecordAt {
    /// Returns `rec` with the number of its first word, in a table that has these `origins`.
    #[inline(always)]
    pub fn find(origins: &Origins, rec: Rec) -> RecordAt
        requires { HasRecord origins.now.layout rec }
        ensures rec { result.rec ≡ rec }
        ensures start { IsStartOf origins.now.layout rec result.start }
    {
        let start = match rec {
            Rec::Node(number) => origins.start_of_node(number),
            Rec::Leaf(number) => origins.start_of_leaf(number),
        };
        RecordAt { rec, start }
    }

    /// Returns the record's number among those of its kind.
    #[inline(always)]
    pub fn number(self) -> u32
        ensures { result ≡ record_number self.rec }
    {
        match self.rec {
            Rec::Node(number) | Rec::Leaf(number) => number,
        }
    }
}

impl HotTable {
    /// Returns `rec` with the number of its first word, for several steps on it.
    #[inline(always)]
    pub fn locate(&self, rec: Rec) -> RecordAt
        requires { HasRecord self.now.layout rec }
        ensures rec { result.rec ≡ rec }
        ensures start { IsStartOf self.now.layout rec result.start }
    {
        RecordAt::find(&self.origins, rec)
    }

    /// Claims `rec` if it is free; else its state stays. Returns the state word that the step found: 0 exactly if it claimed `rec`. `rec`
    /// is committed before.
    pub fn claim<G: Gate>(&self, seat: &mut TableSeat, gate: &mut G, rec: Rec) -> u64
        requires own { IsSeatOf self.now seat.old }
        requires range { HasRecord self.now.layout rec }
        ensures { Steps self.now G.becomes (Claim rec result) (seat.old, gate.old) (seat.new, gate.new) }
    {
        self.commit(seat, rec);
        self.claim_at(seat, gate, self.locate(rec))
    }

    /// Claims the record `at`, which is committed, if it is free; else its state stays. Returns the state word that the step found: 0
    /// exactly if it claimed the record.
    #[inline(always)]
    pub fn claim_at<G: Gate>(&self, seat: &mut TableSeat, gate: &mut G, at: RecordAt) -> u64
        requires own { IsSeatOf self.now seat.old }
        requires start { IsStartOf self.now.layout at.rec at.start }
        requires committed { IsCommitted self.now.layout (uncommitted_in seat.old.bounds) at.rec }
        ensures { Steps self.now G.becomes (Claim at.rec result) (seat.old, gate.old) (seat.new, gate.new) }
    {
        let (rec, found) = (at.rec, 0);
        let act = Act::Claim { rec, found };
        let (expected, new) = (pack_state(Tag::Free), pack_state(Tag::Held));
        self.compare_exchange_at::<Brand, G>(seat, gate, act, at.start, Exchange { expected, new })
    }

    /// Stores `word` at `offset` of `rec`, which the pass holds. `offset` is that of a word of `rec` other than its state.
    pub fn fill<G: Gate>(&self, seat: &mut TableSeat, gate: &mut G, rec: Rec, offset: u8, word: u64)
        requires own { IsSeatOf self.now seat.old }
        requires range { HasRecord self.now.layout rec × IsOffset rec offset × HasWord self.now.layout rec offset }
        requires may { MayStep self.now.layout (λ _. Fill rec offset word) seat.old.known }
        ensures { Steps self.now G.becomes (Fill rec offset word) (seat.old, gate.old) (seat.new, gate.new) }
    {
        self.fill_at(seat, gate, self.locate(rec), offset, word);
    }

    /// Stores `word` at `offset` of the record `at`, which the pass holds. `offset` is as for `fill`.
    #[inline(always)]
    pub fn fill_at<G: Gate>(
        &self,
        seat: &mut TableSeat,
        gate: &mut G,
        at: RecordAt,
        offset: u8,
        word: u64,
    )
        requires own { IsSeatOf self.now seat.old }
        requires range { IsOffset at.rec offset × HasWord self.now.layout at.rec offset }
        requires start { IsStartOf self.now.layout at.rec at.start }
        requires may { MayStep self.now.layout (λ _. Fill at.rec offset word) seat.old.known }
        ensures { Steps self.now G.becomes (Fill at.rec offset word) (seat.old, gate.old) (seat.new, gate.new) }
    {
        let rec = at.rec;
        let act = Act::Fill { rec, offset, word };
        self.store_word_at::<Brand, G>(seat, gate, act, at.start + offset as usize, word);
    }

    /// Makes `rec`, which the pass holds, live. Its words have to be those of a node, or of a leaf with a key for which the record has
    /// room.
    pub fn ready<G: Gate>(&self, seat: &mut TableSeat, gate: &mut G, rec: Rec)
        requires own { IsSeatOf self.now seat.old }
        requires range { HasRecord self.now.layout rec }
        requires may { MayStep self.now.layout (λ _. Ready rec) seat.old.known }
        ensures { Steps self.now G.becomes (Ready rec) (seat.old, gate.old) (seat.new, gate.new) }
    {
        let (act, state) = (Act::Ready { rec }, self.locate(rec).start);
        self.store_word_at::<Brand, G>(seat, gate, act, state, pack_state(Tag::Live));
    }

    /// Makes `rec`, which the pass holds and gives up without having made it ready, free.
    pub fn release<G: Gate>(&self, seat: &mut TableSeat, gate: &mut G, rec: Rec)
        requires own { IsSeatOf self.now seat.old }
        requires range { HasRecord self.now.layout rec }
        requires may { MayStep self.now.layout (λ _. Release rec) seat.old.known }
        ensures { Steps self.now G.becomes (Release rec) (seat.old, gate.old) (seat.new, gate.new) }
    {
        let (act, state) = (Act::Release { rec }, self.locate(rec).start);
        self.store_word_at::<Brand, G>(seat, gate, act, state, pack_state(Tag::Free));
    }

    /// Loads and returns the word at `offset` of `rec`, which is neither its state nor an entry nor a value.
    pub fn load_fixed<G: Gate>(
        &self,
        seat: &mut TableSeat,
        gate: &mut G,
        rec: Rec,
        offset: u8,
    ) -> u64
        requires own { IsSeatOf self.now seat.old }
        requires range { HasRecord self.now.layout rec × IsFixedOffset rec offset × HasWord self.now.layout rec offset }
        ensures { Steps self.now G.becomes (LoadFixed rec offset result) (seat.old, gate.old) (seat.new, gate.new) }
    {
        self.load_fixed_at(seat, gate, self.locate(rec), offset)
    }

    /// Loads and returns the word at `offset` of the record `at`, which is neither its state nor an entry nor a value.
    #[inline(always)]
    pub fn load_fixed_at<G: Gate>(
        &self,
        seat: &mut TableSeat,
        gate: &mut G,
        at: RecordAt,
        offset: u8,
    ) -> u64
        requires own { IsSeatOf self.now seat.old }
        requires range { IsFixedOffset at.rec offset × HasWord self.now.layout at.rec offset }
        requires start { IsStartOf self.now.layout at.rec at.start }
        ensures { Steps self.now G.becomes (LoadFixed at.rec offset result) (seat.old, gate.old) (seat.new, gate.new) }
    {
        let (rec, word) = (at.rec, 0);
        let act = Act::LoadFixed { rec, offset, word };
        self.load_word_at::<Brand, G>(seat, gate, act, at.start + offset as usize)
    }

    /// Loads the word at `offset` of the record `at`, and ignores what it finds. So the word's cache line comes before it is needed. This
    /// is no step: no gate is told of it. It is counted among the `touches` of the pass.
    #[inline(always)]
    pub fn touch(&self, seat: &mut TableSeat, at: RecordAt, offset: u8)
        requires own { IsSeatOf self.now seat.old }
        requires start { IsStartOf self.now.layout at.rec at.start }
        requires range { HasWord self.now.layout at.rec offset }
        ensures { seat.new ≡ touched 1 seat.old }
    {
        self.table
            .shared
            .load::<Touching>(&mut seat.seat, at.start + offset as usize);
    }

    /// Makes `rec` obsolete in `epoch`, and so unlocks a node. The pass has unlinked `rec`, then loaded `epoch`, and no epoch since.
    pub fn mark<G: Gate>(&self, seat: &mut TableSeat, gate: &mut G, rec: Rec, epoch: u64)
        requires own { IsSeatOf self.now seat.old }
        requires range { HasRecord self.now.layout rec × (epoch < EPOCHS) }
        requires may { MayStep self.now.layout (λ _. Mark rec epoch) seat.old.known }
        ensures { Steps self.now G.becomes (Mark rec epoch) (seat.old, gate.old) (seat.new, gate.new) }
    {
        let (act, state) = (Act::Mark { rec, epoch }, self.locate(rec).start);
        self.store_word_at::<Brand, G>(seat, gate, act, state, obsolete_word(epoch));
    }

    /// Loads and returns the state word of `rec`.
    pub fn load_state<G: Gate>(&self, seat: &mut TableSeat, gate: &mut G, rec: Rec) -> u64
        requires own { IsSeatOf self.now seat.old }
        requires range { HasRecord self.now.layout rec }
        ensures { Steps self.now G.becomes (LoadState rec result) (seat.old, gate.old) (seat.new, gate.new) }
    {
        self.load_state_at(seat, gate, self.locate(rec))
    }

    /// Loads and returns the state word of the record `at`.
    #[inline(always)]
    pub fn load_state_at<G: Gate>(&self, seat: &mut TableSeat, gate: &mut G, at: RecordAt) -> u64
        requires own { IsSeatOf self.now seat.old }
        requires start { IsStartOf self.now.layout at.rec at.start }
        ensures { Steps self.now G.becomes (LoadState at.rec result) (seat.old, gate.old) (seat.new, gate.new) }
    {
        let (rec, word) = (at.rec, 0);
        self.load_word_at::<Brand, G>(seat, gate, Act::LoadState { rec, word }, at.start)
    }

    /// Makes `rec` free if it is obsolete in `epoch`; else its state stays. Returns the state word that the step found: that of `epoch`
    /// exactly if it made `rec` free. The pass has loaded the epoch, and then each pin. `epoch` is below the loaded one and each pin that
    /// was set, so no pinned pass can reach `rec`.
    pub fn give_back<G: Gate>(
        &self,
        seat: &mut TableSeat,
        gate: &mut G,
        rec: Rec,
        epoch: u64,
    ) -> u64
        requires own { IsSeatOf self.now seat.old }
        requires range { HasRecord self.now.layout rec × (epoch < EPOCHS) }
        requires may { MayStep self.now.layout (λ found. GiveBack rec epoch found) seat.old.known }
        ensures { Steps self.now G.becomes (GiveBack rec epoch result) (seat.old, gate.old) (seat.new, gate.new) }
    {
        self.give_back_at(seat, gate, self.locate(rec), epoch)
    }

    /// Makes the record `at` free if it is obsolete in `epoch`; else its state stays. Returns the state word that the step found: that of
    /// `epoch` exactly if it made the record free. `epoch` is below the epoch that the pass has loaded and below each pin that it then
    /// found set, as for `give_back`.
    #[inline(always)]
    pub fn give_back_at<G: Gate>(
        &self,
        seat: &mut TableSeat,
        gate: &mut G,
        at: RecordAt,
        epoch: u64,
    ) -> u64
        requires own { IsSeatOf self.now seat.old }
        requires start { IsStartOf self.now.layout at.rec at.start }
        requires range { epoch < EPOCHS }
        requires may { MayStep self.now.layout (λ found. GiveBack at.rec epoch found) seat.old.known }
        ensures { Steps self.now G.becomes (GiveBack at.rec epoch result) (seat.old, gate.old) (seat.new, gate.new) }
    {
        // What the step finds comes in the place of this 0.
        let (rec, found) = (at.rec, 0);
        let act = Act::GiveBack { rec, epoch, found };
        let (expected, new) = (obsolete_word(epoch), pack_state(Tag::Free));
        self.compare_exchange_at::<Brand, G>(seat, gate, act, at.start, Exchange { expected, new })
    }
}
