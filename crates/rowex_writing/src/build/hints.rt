//! Where a pass claims records: the hints that it keeps between calls, and the claims that begin with them.

ghost use Rattle.std.specs.Prelude.{◌≡◌, ◌<◌, ◌≤◌, ◌++◌, ◌∷◌, [], length, ◌⊎◌, ◌+◌, ◌-◌, ◌^◌, ◌/◌, ◌↔◌, max, min, ◌*◌, MatchOption, IfOk, IsSome, IsTrue, List, ℕ, vec_capacity};
ghost use Rattle.record_words.specs.declared.records.Rec.TheVariants.{Node as a_node};
ghost use Rattle.rowex_table.specs.Seats.{IsSeatOf, SeatView};
ghost use Rattle.rowex_records.specs.Claims.{AllMissed, AreCommitted, HoldsOneMore, IsAnothersTo, IsKindOf, count_of, record_of};
ghost use Rattle.rowex_records.specs.declared.claiming.RecordKind.TheVariants.{Node};
ghost use Rattle.rowex_writing.specs.build.Spare.{FindsOne, NoneWasFree};
ghost use Rattle.rowex_writing.specs.locks.Going.{WorksOn};
ghost use Rattle.record_words.specs.declared.records.Rec.{Rec as Record};
ghost use Rattle.rowex_writing.specs.build.Walks.{HasNoOther, HasNoneLeft, IsClaimWalk, IsCommittedWalk, left_below};

use crate::build::kept::NodeWalk;
use rowex_core::{Gate, Rec};
use rowex_records::{RecordKind, claim_by_number, claim_next_record, claim_record};
use rowex_table::{HotTable, TableSeat};
use std::alloc::{AllocError, Global};
use std::ops::Range;

/// The most numbers of records of one kind that a pass keeps to begin claims with.
const MOST_SPARE: u32 = 4_096;

/// Where the claims of a pass begin, of node records or of the leaf records of one class. Numbers are counted from the first of these
/// on.
///
/// Whatever a hint says, a claim of a leaf record tries each committed one that has room before it finds that none is free, up to the first
/// class with uncommitted ones. All claims of node records in one change share one walk, which tries each committed one once before it
/// finds that.
#[derive(Drop)]
pub struct Hint {
    /// Numbers that the pass has given back, as far as they find room here: claims begin with the last of these.
    pub spare: Vec<u32>,
    /// The number with which a walk of claims goes on, if no spare one is free.
    pub next: u32,
    /// Where a walk of claims begins.
    pub stretch: Stretch,
    /// How many claims of a leaf record still try the records of this class last. A claim that finds none of them free, where all are
    /// committed, sets it to their number, and each claim lowers it. So in the long run a claim looks at one of them, however many are in use.
    pub skips: u32,
}

impl Hint {
    /// Returns a hint without spare numbers, for a kind or class of `records` records. Its claims begin at the number `next`, and skip
    /// nothing. `AllocError` if its memory is refused. No later call on the hint asks for memory.
    pub fn begin_at(alloc: Global, next: u32, records: u32) -> Result<Hint, AllocError>
        ensures spare { IfOk result (λ hint. hint.spare.items ≡ []) }
        ensures next { IfOk result (λ hint. hint.next ≡ next) }
        ensures skips { IfOk result (λ hint. hint.skips ≡ 0) }
    {
        Ok(Hint {
            spare: Vec::with_capacity(alloc, records.min(MOST_SPARE) as usize)?,
            next,
            stretch: Stretch::begin_at(next),
            skips: 0,
        })
    }

    /// Notes that the pass gave back the record `number`. The number is added to the spare ones, if these have room; the next claim begins
    /// with it. In any case claims no longer skip the records of this hint, and `next` stays.
    pub fn give_back(&mut self, number: u32)
        ensures kept { length self.old.spare.items < vec_capacity self.old.spare → self.new.spare.items ≡ self.old.spare.items ++ number ∷ [] }
        ensures full { vec_capacity self.old.spare ≤ length self.old.spare.items → self.new.spare.items ≡ self.old.spare.items }
        ensures next { self.new.next ≡ self.old.next }
        ensures skips { self.new.skips ≡ 0 }
    {
        self.skips = 0;
        if self.spare.len() < self.spare.capacity() {
            self.spare.push_reserved(number);
        } else {
            self.stretch.note_given();
        }
    }
}

/// Where a pass claims records of a kind, where none is spare. These are plain numbers, which promise nothing.
///
/// The pass claims one record after the other, and the stretch is the range of those that it has claimed so. Where more than an eighth of
/// that range was given back, it claims there again. So a table takes memory for what is in use, and little more.
#[derive(Drop)]
pub struct Stretch {
    /// The number with which the stretch begins.
    first: u32,
    /// The number after its last one.
    end: u32,
    /// The number after that of the record that was claimed again last.
    again: u32,
    /// About how many records of the stretch are free: how many the pass has given back, less those that it has claimed again. `u32::MAX`
    /// if the last claim found none free behind the stretch.
    given: u32,
    /// How many records the pass has claimed by walks since the stretch was last looked at.
    walked: u32,
}

/// Claims go back into the stretch once more than one of so many of its records is free.
const SHARE: u32 = 8;

/// A stretch is looked at again after so many claims by walks, and one for each `SHARE` of its records.
const LEAST_WALKED: u32 = 1_024;

impl Stretch {
    /// Returns an empty stretch, which begins at the number `first`.
    pub fn begin_at(first: u32) -> Stretch
        ensures { (result.first ≡ first) × (result.end ≡ first) × (result.again ≡ first) × (result.given ≡ 0) × (result.walked ≡ 0) }
    {
        Stretch {
            first,
            end: first,
            again: first,
            given: 0,
            walked: 0,
        }
    }

    /// Returns the stretch from the number `first` up to, but without, `end`, of which nothing was given back. It is empty if `end` isn't
    /// behind `first`.
    pub fn between(first: u32, end: u32) -> Stretch
        ensures { (result.first ≡ first) × (result.end ≡ max first end) × (result.again ≡ first) × (result.given ≡ 0) × (result.walked ≡ 0) }
    {
        Stretch {
            first,
            end: first.max(end),
            again: first,
            given: 0,
            walked: 0,
        }
    }

    /// Returns the number with which the next claim begins. It is `again` if more than an eighth of the stretch counts as free (`given`).
    /// Else it is `end`, the first number behind the stretch.
    pub fn start(&self) -> u32
        ensures { (result ≡ self.now.again) ⊎ (result ≡ self.now.end) }
    {
        if self.given > self.end.saturating_sub(self.first) / SHARE {
            self.again
        } else {
            self.end
        }
    }

    /// Lets claims go on with the number `first`, if that is after the stretch. The numbers between may be of other passes' records: they
    /// count as part of the stretch.
    pub fn go_on_at(&mut self, first: u32)
        ensures end { self.new.end ≡ max self.old.end first }
        ensures same { (self.new.first ≡ self.old.first) × (self.new.again ≡ self.old.again) × (self.new.given ≡ self.old.given) × (self.new.walked ≡ self.old.walked) }
    {
        self.end = self.end.max(first);
    }

    /// Notes that the pass gave back a record that is not kept as spare. The record may be of another pass's stretch: other passes give
    /// back about as many of this one. The count stops at `u32::MAX`, and nothing else changes.
    pub fn note_given(&mut self)
        ensures given { self.new.given ≡ min (self.old.given + 1) (2 ^ 32 - 1) }
        ensures same { (self.new.first ≡ self.old.first) × (self.new.end ≡ self.old.end) × (self.new.again ≡ self.old.again) }
    {
        self.given = self.given.saturating_add(1);
    }

    /// Returns the numbers of the stretch.
    pub fn numbers(&self) -> Range<u32>
        ensures { (result.start ≡ self.now.first) × (result.end ≡ self.now.end) }
    {
        self.first..self.end
    }

    /// Returns whether it is time to look how many records of the stretch are free: since the last look walks have claimed more than an
    /// eighth of their number, and 1,024.
    pub fn is_look_due(&self) -> bool
        ensures { IsTrue result ↔ (self.now.end - self.now.first) / SHARE + LEAST_WALKED < self.now.walked }
    {
        self.walked > self.end.saturating_sub(self.first) / SHARE + LEAST_WALKED
    }

    /// Notes that a look at the stretch begins. Nothing else changes.
    pub fn begin_look(&mut self)
        ensures walked { self.new.walked ≡ 0 }
        ensures same { (self.new.first ≡ self.old.first) × (self.new.end ≡ self.old.end) × (self.new.again ≡ self.old.again) × (self.new.given ≡ self.old.given) }
    {
        self.walked = 0;
    }

    /// Notes that a look has found about `count` records of the stretch free. If more count as free already, nothing changes.
    pub fn note_free(&mut self, count: u32)
        ensures given { self.new.given ≡ max self.old.given count }
        ensures same { (self.new.first ≡ self.old.first) × (self.new.end ≡ self.old.end) × (self.new.again ≡ self.old.again) × (self.new.walked ≡ self.old.walked) }
    {
        self.given = self.given.max(count);
    }

    /// Notes that a claim which began at the number `start` has claimed the record `number`. If `number` is in the stretch, both ends of
    /// the stretch stay. If it is behind, it becomes the last one.
    ///
    /// If the claim began in the stretch and ended behind it, the records between were not free. Then the next claim begins at the
    /// stretch's first number. If the claim began at that first number, no record of the stretch is free. If it began behind the stretch
    /// and ended in it, no record behind was free: from then on claims go on in the stretch. A `number` before the stretch begins a new
    /// one.
    pub fn advance_past_claim(&mut self, start: u32, number: u32)
        ensures within { self.old.first ≤ number → number < self.old.end → (self.new.first ≡ self.old.first) × (self.new.end ≡ self.old.end) }
        ensures behind { self.old.first ≤ self.old.end → self.old.end ≤ number → number + 1 < 2 ^ 32 → self.new.end ≡ number + 1 }
    {
        let next = number.wrapping_add(1);
        self.walked = self.walked.saturating_add(1);
        if self.first <= number && number < self.end {
            self.again = if next < self.end { next } else { self.first };
            self.given = if start < self.end {
                self.given.saturating_sub(1)
            } else {
                u32::MAX
            };
            return;
        }
        if number < self.first {
            *self = Stretch::begin_at(number);
        } else if start == self.first {
            self.given = 0;
        }
        self.again = self.first;
        self.end = next;
    }
}

/// Claims a record of `kind` and returns its number, counted from the first of the kind on. The pass then has it beside its other records.
/// All records of the kind are committed.
/// `None` if each record of the kind was found not free: then the pass has just its records of before. For each one a failed step of this
/// call tells who may own it: nobody, another pass, or this pass if it did before (`IsAnothersTo`).
///
/// The last spare number of `hint` is tried first, and is no longer spare. If that fails, each record is tried once, from the number
/// `hint.stretch.start()` on, and from 0 on after the last. `hint.next` becomes that number, and `hint.stretch` notes the claim. Each try
/// takes at most two steps. Inline, so that `kind` is known when it is compiled.
#[inline(always)]
pub(crate) fn claim_by_hint<G: Gate>(
    table: &HotTable,
    seat: &mut TableSeat,
    gate: &mut G,
    kind: RecordKind,
    hint: &mut Hint,
) -> Option<u32>
    requires own { IsSeatOf table.now seat.old }
    requires kind { IsKindOf kind table.now.layout }
    requires committed { AreCommitted table.now.layout seat.old.bounds kind }
    ensures goes { WorksOn table.now G.becomes (seat.old, gate.old) (seat.new, gate.new) }
    ensures claims { MatchOption result
        ((seat.new.known.own ≡ seat.old.known.own) ×
        AllMissed (IsAnothersTo table.now.layout seat.old.known) (record_of kind) (count_of kind table.now.layout) seat.new.known.failed seat.old.known.steps)
        (λ number. (number < count_of kind table.now.layout) × HoldsOneMore (record_of kind number) seat.old.known seat.new.known) }
    ensures some { 0 < count_of kind table.now.layout → seat.old.known.steps < seat.new.known.steps }
    ensures few { seat.new.known.steps ≤ seat.old.known.steps + 2 * count_of kind table.now.layout + 2 }
{
    if let Some(number) = claim_spare_record(table, seat, gate, kind, &mut hint.spare) {
        return Some(number);
    }
    hint.next = hint.stretch.start();
    let number = claim_record(table, seat, gate, kind, hint.next)?;
    hint.stretch.advance_past_claim(hint.next, number);
    Some(number)
}

/// Takes the last number out of `spare`, and returns it if the pass could claim that record of `kind`, by two steps at most. `None` if it
/// couldn't, or if `spare` was empty. Inline, so that `kind` is known when it is compiled.
#[inline(always)]
fn claim_spare_record<G: Gate>(
    table: &HotTable,
    seat: &mut TableSeat,
    gate: &mut G,
    kind: RecordKind,
    spare: &mut Vec<u32>,
) -> Option<u32>
    requires own { IsSeatOf table.now seat.old }
    requires kind { IsKindOf kind table.now.layout }
    requires committed { AreCommitted table.now.layout seat.old.bounds kind }
    ensures goes { WorksOn table.now G.becomes (seat.old, gate.old) (seat.new, gate.new) }
    ensures claims { MatchOption result (seat.new.known.own ≡ seat.old.known.own)
        (λ number. (number < count_of kind table.now.layout) × HoldsOneMore (record_of kind number) seat.old.known seat.new.known) }
    ensures some { IsSome result → seat.old.known.steps < seat.new.known.steps }
    ensures few { seat.new.known.steps ≤ seat.old.known.steps + 2 }
{
    let number = spare.pop()?;
    if claim_by_number(table, seat, gate, kind, number) {
        return Some(number);
    }
    None
}

/// Claims the next free node record on the walk of a change's claims, and returns its number. `None` if none of those left was free. Where
/// `walk.commits`, the next uncommitted records are then committed and tried, one after the other, so that `None` says it of all.
///
/// The last spare number of `hint` is tried first, and is no longer spare. Then each record that the walk has left is tried once, from
/// `hint.next` on. Each try takes at most two steps. `walk.left` becomes less by the number of these tries without the spare one. If one of
/// these claims a record, `hint.next` is the number behind it.
///
/// In a table with one pass that has no record of its own, a walk that may still try each record, and commit more, finds one if one is free.
pub(crate) fn claim_node_on_walk<G: Gate>(
    table: &HotTable,
    seat: &mut TableSeat,
    gate: &mut G,
    hint: &mut Hint,
    walk: &mut NodeWalk,
) -> Option<u32>
    requires own { IsSeatOf table.now seat.old }
    ensures goes { WorksOn table.now G.becomes (seat.old, gate.old) (seat.new, gate.new) }
    ensures claims { MatchOption result (seat.new.known.own ≡ seat.old.known.own)
        (λ number. (number < table.now.layout.nodes) × HoldsOneMore (a_node number) seat.old.known seat.new.known) }
    ensures walk { (first : SeatView) (made : List Record) → HasNoOther seat.old.known made →
        IsCommittedWalk table.now.layout first seat.old made hint.old.next walk.old → MatchOption result
        (HasNoneLeft table.now.layout first seat.new made hint.new.next walk.new)
        (λ number. IsCommittedWalk table.now.layout first seat.new (made ++ a_node number ∷ []) hint.new.next walk.new) }
    ensures few { seat.new.known.steps + 2 * walk.new.left ≤ seat.old.known.steps + 2 * walk.old.left + 2 }
    ensures commits { walk.new.commits ≡ walk.old.commits }
    ensures finds { FindsOne table.now.layout walk.old seat.old result }
{
    if let Some(number) = claim_below_end(table, seat, gate, hint, walk) {
        return Some(number);
    }
    if walk.commits {
        return claim_from_end(table, seat, gate, hint, walk);
    }
    None
}

/// Claims the next free node record of those below the end of the walk, as [`claim_node_on_walk`] does. One load finds how many are
/// committed, which is one at least. The first claim of a walk lowers the end to that.
fn claim_below_end<G: Gate>(
    table: &HotTable,
    seat: &mut TableSeat,
    gate: &mut G,
    hint: &mut Hint,
    walk: &mut NodeWalk,
) -> Option<u32>
    requires own { IsSeatOf table.now seat.old }
    ensures goes { WorksOn table.now G.becomes (seat.old, gate.old) (seat.new, gate.new) }
    ensures claims { MatchOption result (seat.new.known.own ≡ seat.old.known.own)
        (λ number. (number < table.now.layout.nodes) × HoldsOneMore (a_node number) seat.old.known seat.new.known) }
    ensures walk { (first : SeatView) (made : List Record) → HasNoOther seat.old.known made →
        IsCommittedWalk table.now.layout first seat.old made hint.old.next walk.old → MatchOption result
        ((left_below table.now.layout.nodes walk.new ≡ 0) × IsCommittedWalk table.now.layout first seat.new made hint.new.next walk.new)
        (λ number. IsCommittedWalk table.now.layout first seat.new (made ++ a_node number ∷ []) hint.new.next walk.new) }
    ensures few { seat.new.known.steps + 2 * walk.new.left ≤ seat.old.known.steps + 2 * walk.old.left + 2 }
    ensures commits { walk.new.commits ≡ walk.old.commits }
    ensures left { result ≡ None → walk.old.left ≡ table.now.layout.nodes → walk.old.end ≡ table.now.layout.nodes →
        table.now.layout.nodes ≤ walk.new.left + walk.new.end }
    ensures tried { walk.old.left ≡ table.now.layout.nodes → walk.old.end ≡ table.now.layout.nodes →
        NoneWasFree table.now.layout 0 walk.new.end seat.old result }
{
    let nodes = table.layout().nodes;
    let left = walk.left_below_end(nodes);
    if left == 0 || walk.end == 0 {
        return None;
    }
    let end = table.count_committed_from(seat, Rec::Node(0)).min(walk.end);
    let most = left.min(end);
    let mut rest = most;
    let claimed = claim_committed_node(table, seat, gate, hint, &mut rest, end);
    walk.end = end;
    walk.left -= most - rest;
    claimed
}

/// Commits the next node record from the end of the walk on, and claims it; and so on until one is claimed. Returns its number. `None` if
/// none was free up to the table's last. The end of the walk is after the last one tried.
fn claim_from_end<G: Gate>(
    table: &HotTable,
    seat: &mut TableSeat,
    gate: &mut G,
    hint: &mut Hint,
    walk: &mut NodeWalk,
) -> Option<u32>
    requires own { IsSeatOf table.now seat.old }
    ensures goes { WorksOn table.now G.becomes (seat.old, gate.old) (seat.new, gate.new) }
    ensures claims { MatchOption result (seat.new.known.own ≡ seat.old.known.own)
        (λ number. (number < table.now.layout.nodes) × HoldsOneMore (a_node number) seat.old.known seat.new.known) }
    ensures walk { (first : SeatView) (made : List Record) → HasNoOther seat.old.known made → left_below table.now.layout.nodes walk.old ≡ 0 →
        IsCommittedWalk table.now.layout first seat.old made hint.old.next walk.old → MatchOption result
        ((left_below table.now.layout.nodes walk.new ≡ 0) × IsCommittedWalk table.now.layout first seat.new made hint.new.next walk.new ×
        (table.now.layout.nodes ≤ walk.new.end))
        (λ number. IsCommittedWalk table.now.layout first seat.new (made ++ a_node number ∷ []) hint.new.next walk.new) }
    ensures few { seat.new.known.steps + 2 * walk.new.left ≤ seat.old.known.steps + 2 * walk.old.left }
    ensures commits { walk.new.commits ≡ walk.old.commits }
    ensures tried { table.now.layout.nodes ≤ walk.old.left + walk.old.end →
        NoneWasFree table.now.layout walk.old.end table.now.layout.nodes seat.old result }
{
    let nodes = table.layout().nodes;
    while walk.end < nodes && walk.left > 0 {
        let number = walk.end;
        table.commit(seat, Rec::Node(number));
        walk.end = number + 1;
        walk.left -= 1;
        if claim_by_number(
            table,
            seat,
            gate,
            RecordKind::Node { end: walk.end },
            number,
        ) {
            hint.stretch.advance_past_claim(number, number);
            hint.next = walk.end;
            return Some(number);
        }
    }
    None
}

/// Claims the next free node record on a walk over those below `end`, as [`claim_node_on_walk`] does. These are committed, and the table has
/// them.
fn claim_committed_node<G: Gate>(
    table: &HotTable,
    seat: &mut TableSeat,
    gate: &mut G,
    hint: &mut Hint,
    left: &mut u32,
    end: u32,
) -> Option<u32>
    requires own { IsSeatOf table.now seat.old }
    requires range { end ≤ table.now.layout.nodes }
    requires committed { AreCommitted table.now.layout seat.old.bounds (Node end) }
    ensures goes { WorksOn table.now G.becomes (seat.old, gate.old) (seat.new, gate.new) }
    ensures claims { MatchOption result (seat.new.known.own ≡ seat.old.known.own)
        (λ number. (number < table.now.layout.nodes) × HoldsOneMore (a_node number) seat.old.known seat.new.known) }
    ensures walk { (since : ℕ) (made : List Record) → HasNoOther seat.old.known made →
        IsClaimWalk table.now.layout end since seat.old.known made hint.old.next left.old → MatchOption result
        ((left.new ≡ 0) × IsClaimWalk table.now.layout end since seat.new.known made hint.new.next left.new)
        (λ number. IsClaimWalk table.now.layout end since seat.new.known (made ++ a_node number ∷ []) hint.new.next left.new) }
    ensures few { seat.new.known.steps + 2 * left.new ≤ seat.old.known.steps + 2 * left.old + 2 }
    ensures less { left.new ≤ left.old }
    ensures tried { left.old ≡ end → NoneWasFree table.now.layout 0 end seat.old result }
    ensures some { 0 < end → 0 < left.old → seat.old.known.steps < seat.new.known.steps }
{
    let kind = RecordKind::Node { end };
    if let Some(number) = claim_spare_record(table, seat, gate, kind, &mut hint.spare) {
        return Some(number);
    }
    let number = claim_next_record(table, seat, gate, kind, hint.next, left)?;
    hint.stretch.advance_past_claim(hint.next, number);
    hint.next = number + 1;
    Some(number)
}
