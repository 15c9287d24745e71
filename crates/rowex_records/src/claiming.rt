//! Records claimed, and given up again.

ghost use Rattle.std.specs.Prelude.{◌≡◌, ◌<◌, ◌≤◌, ◌+◌, ◌-◌, min, true, false, IfNone, IfSome, MatchOption, All};
ghost use Rattle.rowex_core.specs.Cores.{HasRecord};
ghost use Rattle.rowex_table.specs.Rights.{IsClaimed};
ghost use Rattle.record_words.specs.Layout.{uncommitted_in};
ghost use Rattle.rowex_table.specs.Committed.{AtMost, IsCommitted};
ghost use Rattle.rowex_table.specs.Rule.{IsStartOf};
ghost use Rattle.rowex_table.specs.Seats.{IsSeatOf};
ghost use Rattle.rowex_records.specs.Claims.{AllMissed, AreCommitted, IsAnothersTo, Claims, ClaimsOne, FindsFree, FindsNone, GoesOnBehind, MissesNumber, MissesOne, TriesSome, HasIndex, IsKindOf, GoesOnTrying, begin_of, count_of, record_of};
ghost use Rattle.rowex_records.specs.Starts.{IsSpan, first_word};
ghost use Rattle.rowex_records.specs.Records.{GivesUp, GivesUpAll, HoldsJust};

use record_words::{Layout, NODE_WORDS, Tag, pack_state};
use rowex_core::{Gate, Rec};
use rowex_table::{HotTable, RecordAt, TableSeat};

/// The records among which a claim looks, numbered from 0 on.
#[derive(Clone, Copy)]
pub enum RecordKind {
    /// The node records below `end`, which the table must have.
    Node { end: u32 },
    /// The leaf records from `first` on and below `end`, which the table must have; none if `end` isn't above `first`.
    Leaf { first: u32, end: u32 },
}

/// `count` records of a kind, from number `number` on. Each begins `size` words behind the one before, so that a walk adds `size` and looks
/// nothing up.
#[derive(Clone, Copy)]
struct Span {
    number: u32,
    count: u32,
    size: usize,
}

/// Which records of a kind are tried: `most` of them, from number `from` on, and from 0 on after the last. `most` is no more than the kind
/// has.
#[derive(Clone, Copy)]
struct Turn {
    from: u32,
    most: u32,
}

impl RecordKind {
    /// Returns the record of this kind with the number `number`, counted from 0 at the first. A kind of leaf records must have that number.
    fn record_at(self, number: u32) -> Rec
        requires { HasIndex self number }
        ensures { result ≡ record_of self number }
    {
        match self {
            RecordKind::Node { .. } => Rec::Node(number),
            RecordKind::Leaf { first, .. } => Rec::Leaf(first + number),
        }
    }

    /// Returns the number of the word at which the record of this kind with the number `number` begins. For `number` equal to the count of
    /// records it is where one more would begin.
    fn start_at(self, layout: &Layout, number: u32) -> usize
        requires { number ≤ count_of self layout.now }
        ensures { result ≡ first_word self layout.now number }
    {
        match self {
            RecordKind::Node { .. } => layout.node(number),
            RecordKind::Leaf { first, .. } => layout.leaf(first + number),
        }
    }

    /// Returns the span that begins with the record `number` of this kind, which the kind must have. It has this record, and those of the
    /// kind straight behind it that are as large.
    fn span_from(self, layout: &Layout, number: u32) -> Span
        requires kind { IsKindOf self layout.now }
        requires low { number < count_of self layout.now }
        ensures number { result.number ≡ number }
        ensures count { (0 < result.count) × (number + result.count ≤ count_of self layout.now) }
        ensures span { IsSpan self layout.now number result.count result.size }
    {
        match self {
            RecordKind::Node { end } => Span {
                number,
                count: end - number,
                size: NODE_WORDS,
            },
            RecordKind::Leaf { first, end } => Span {
                number,
                count: layout.class_end(first + number).min(end) - first - number,
                size: layout.leaf_size(first + number),
            },
        }
    }

    /// Returns how many records of this kind a table of `layout` has; 0 for leaf records if `end` isn't above `first`.
    fn count(self, layout: Layout) -> u32
        ensures { result ≡ count_of self layout }
    {
        match self {
            RecordKind::Node { end } => end,
            RecordKind::Leaf { first, end } => end.saturating_sub(first),
        }
    }
}

/// Claims the first record of `kind` that it finds free. Returns its number, counted from 0 at the first of the kind. The result is `None`
/// if no try found one free. Then failed steps of this call tell of each record who may own it.
///
/// Each record is tried once, from number `from` on, and from 0 on after the last. A try loads the state, and claims only a record that it
/// saw free. A `from` that is out of range counts as 0. Inline, since callers know the kind.
#[inline(always)]
pub fn claim_record<G: Gate>(
    table: &HotTable,
    seat: &mut TableSeat,
    gate: &mut G,
    kind: RecordKind,
    from: u32,
) -> Option<u32>
    requires own { IsSeatOf table.now seat.old }
    requires kind { IsKindOf kind table.now.layout }
    requires committed { AreCommitted table.now.layout seat.old.bounds kind }
    ensures claims { MatchOption result
        (let n = count_of kind table.now.layout in
        FindsNone table.now G.becomes (record_of kind) n (begin_of n from) n (seat.old, gate.old) (seat.new, gate.new))
        (λ number. let n = count_of kind table.now.layout in
        Claims table.now G.becomes (record_of kind) n (begin_of n from) number (seat.old, gate.old) (seat.new, gate.new)) }
    ensures none { IfNone result
        (AllMissed (IsAnothersTo table.now.layout seat.old.known) (record_of kind) (count_of kind table.now.layout) seat.new.known.failed seat.old.known.steps) }
    ensures held { IfSome result (λ number. (number < count_of kind table.now.layout) × IsClaimed seat.new.known (record_of kind number)) }
{
    let mut left = kind.count(table.layout());
    claim_next_record(table, seat, gate, kind, from, &mut left)
}

/// Claims the first record of `kind` that it finds free, of the next `left` ones from number `from` on. Returns its number; `None` if none
/// of them was free. Then failed steps of this call tell of each of them who may own it.
///
/// Records are tried as by [`claim_record`], each once even if `left` is above their number. `left` becomes less by the number of those
/// that were tried, the claimed one counted. Inline, since callers know the kind.
#[inline(always)]
pub fn claim_next_record<G: Gate>(
    table: &HotTable,
    seat: &mut TableSeat,
    gate: &mut G,
    kind: RecordKind,
    from: u32,
    left: &mut u32,
) -> Option<u32>
    requires own { IsSeatOf table.now seat.old }
    requires kind { IsKindOf kind table.now.layout }
    requires committed { AreCommitted table.now.layout seat.old.bounds kind }
    ensures claims { MatchOption result
        (let n = count_of kind table.now.layout in let m = min n left.old in (left.new + m ≡ left.old) ×
        FindsNone table.now G.becomes (record_of kind) n (begin_of n from) m (seat.old, gate.old) (seat.new, gate.new))
        (λ number. let n = count_of kind table.now.layout in
        (claims : Claims table.now G.becomes (record_of kind) n (begin_of n from) number (seat.old, gate.old) (seat.new, gate.new)) ×
        (left.new + claims.tried + 1 ≡ left.old)) }
    ensures held { IfSome result (λ number. (number < count_of kind table.now.layout) × IsClaimed seat.new.known (record_of kind number)) }
{
    let most = kind.count(table.layout()).min(*left);
    let (claimed, tried) = claim_and_count_tries(table, seat, gate, kind, Turn { from, most });
    *left -= tried;
    claimed
}

/// Claims the first record of `kind` that it finds free, of those of `turn`. Returns its number, or `None` if none of them was free, and
/// how many were tried. Inline, since mostly the first one is free.
#[inline(always)]
fn claim_and_count_tries<G: Gate>(
    table: &HotTable,
    seat: &mut TableSeat,
    gate: &mut G,
    kind: RecordKind,
    turn: Turn,
) -> (Option<u32>, u32)
    requires own { IsSeatOf table.now seat.old }
    requires kind { IsKindOf kind table.now.layout }
    requires committed { AreCommitted table.now.layout seat.old.bounds kind }
    requires few { turn.most ≤ count_of kind table.now.layout }
    ensures few { result.1 ≤ turn.most }
    ensures tries { TriesSome table.now G.becomes kind (begin_of (count_of kind table.now.layout) turn.from) turn.most result (seat.old, gate.old) (seat.new, gate.new) }
{
    let Turn { from, most } = turn;
    if most == 0 {
        return (None, 0);
    }
    let begin = number_or_zero(from, kind.count(table.layout()));
    let at = table.locate(kind.record_at(begin));
    if try_claim_record(table, seat, gate, at) {
        return (Some(begin), 1);
    }
    claim_record_behind(table, seat, gate, kind, Turn { from: begin, most })
}

/// Tries the records of `turn` from the second on, and claims the first of `kind` that it finds free. The first record of `turn` was tried
/// before, and wasn't free. Returns the number of the claimed record, or `None` if none was free, and how many were tried, the first
/// counted.
fn claim_record_behind<G: Gate>(
    table: &HotTable,
    seat: &mut TableSeat,
    gate: &mut G,
    kind: RecordKind,
    turn: Turn,
) -> (Option<u32>, u32)
    requires own { IsSeatOf table.now seat.old }
    requires kind { IsKindOf kind table.now.layout }
    requires committed { AreCommitted table.now.layout seat.old.bounds kind }
    requires low { turn.from < count_of kind table.now.layout }
    requires some { 1 ≤ turn.most }
    requires few { turn.most ≤ count_of kind table.now.layout }
    ensures few { result.1 ≤ turn.most }
    ensures tries { GoesOnBehind table.now G.becomes kind turn.from turn.most result (seat.old, gate.old) (seat.new, gate.new) }
{
    let Turn { from: begin, most } = turn;
    let layout = table.layout();
    let all = kind.count(layout);
    let mut number = number_or_zero(begin + 1, all);
    let mut tried = 1;
    while tried < most {
        let span = kind.span_from(&layout, number);
        let count = span.count.min(most - tried);
        if let Some(index) = claim_record_in_span(table, seat, gate, kind, Span { count, ..span }) {
            return (Some(number + index), tried + index + 1);
        }
        tried += count;
        number = number_or_zero(number + count, all);
    }
    (None, most)
}

/// Claims the first record of `span`, of records of `kind`, that it finds free. Returns how many were tried before that one, which is the
/// claimed record's place in the span. `None` if none was free: then failed steps of this call tell of each who may own it.
fn claim_record_in_span<G: Gate>(
    table: &HotTable,
    seat: &mut TableSeat,
    gate: &mut G,
    kind: RecordKind,
    span: Span,
) -> Option<u32>
    requires own { IsSeatOf table.now seat.old }
    requires kind { IsKindOf kind table.now.layout }
    requires committed { AreCommitted table.now.layout seat.old.bounds kind }
    requires few { span.number + span.count ≤ count_of kind table.now.layout }
    requires span { IsSpan kind table.now.layout span.number span.count span.size }
    ensures own { IsSeatOf table.now seat.new }
    ensures bounds { AtMost (uncommitted_in seat.new.bounds) (uncommitted_in seat.old.bounds) }
    ensures low { IfSome result (λ index. index < span.count) }
    ensures tries { GoesOnTrying table.now G.becomes kind span.number span.count result (seat.old, gate.old) (seat.new, gate.new) }
{
    let mut start = kind.start_at(&table.layout(), span.number);
    for index in 0..span.count {
        let rec = kind.record_at(span.number + index);
        if try_claim_record(table, seat, gate, RecordAt { rec, start }) {
            return Some(index);
        }
        start += span.size;
    }
    None
}

/// Claims the record of `kind` with the number `number`, counted from 0 at the first of the kind, if it is free. Returns whether the pass
/// has it now. At most two steps are made, and `gate` is told each. If the kind has no such number, the result is `false`, and no step is
/// made. Inline, since callers know the kind.
#[inline(always)]
pub fn claim_by_number<G: Gate>(
    table: &HotTable,
    seat: &mut TableSeat,
    gate: &mut G,
    kind: RecordKind,
    number: u32,
) -> bool
    requires own { IsSeatOf table.now seat.old }
    requires kind { IsKindOf kind table.now.layout }
    requires committed { AreCommitted table.now.layout seat.old.bounds kind }
    ensures missed { result ≡ false →
        MissesNumber table.now G.becomes (record_of kind) (count_of kind table.now.layout) number (seat.old, gate.old) (seat.new, gate.new) }
    ensures claimed { result ≡ true → (number < count_of kind table.now.layout) ×
        ClaimsOne table.now G.becomes (record_of kind number) (seat.old, gate.old) (seat.new, gate.new) }
{
    if number >= kind.count(table.layout()) {
        return false;
    }
    let at = table.locate(kind.record_at(number));
    try_claim_record(table, seat, gate, at)
}

/// Claims the record `at` if it is free, and returns whether the pass has it now. If a load finds its state not free, no claim is tried,
/// since an exchange costs more than a load. The claim fails, too, if another pass claims the record between the two steps. A failed try
/// becomes one of the pass's failed steps, and its own records stay.
fn try_claim_record<G: Gate>(
    table: &HotTable,
    seat: &mut TableSeat,
    gate: &mut G,
    at: RecordAt,
) -> bool
    requires own { IsSeatOf table.now seat.old }
    requires start { IsStartOf table.now.layout at.rec at.start }
    requires committed { IsCommitted table.now.layout (uncommitted_in seat.old.bounds) at.rec }
    ensures missed { result ≡ false → MissesOne table.now G.becomes at.rec (seat.old, gate.old) (seat.new, gate.new) }
    ensures claimed { result ≡ true → ClaimsOne table.now G.becomes at.rec (seat.old, gate.old) (seat.new, gate.new) }
{
    if table.load_state_at(seat, gate, at) != pack_state(Tag::Free) {
        return false;
    }
    table.claim_at(seat, gate, at) == pack_state(Tag::Free)
}

/// Returns the number of the first record of `kind` that a load finds free, counted from 0 at the first of the kind. Nothing is claimed, so
/// another pass may claim that record. `None` if none of those looked at was free: then failed steps of this call tell of each of them who
/// may own it.
///
/// The states of at most `most` records are loaded, once each, from number `from` on, and from 0 on after the last. A `most` above the
/// number of records of the kind counts as that number. A `from` that is out of range counts as 0.
pub fn find_free_record<G: Gate>(
    table: &HotTable,
    seat: &mut TableSeat,
    gate: &mut G,
    kind: RecordKind,
    from: u32,
    most: u32,
) -> Option<u32>
    requires own { IsSeatOf table.now seat.old }
    requires kind { IsKindOf kind table.now.layout }
    ensures finds { MatchOption result
        (let n = count_of kind table.now.layout in
        FindsNone table.now G.becomes (record_of kind) n (begin_of n from) (min n most) (seat.old, gate.old) (seat.new, gate.new))
        (λ number. let n = count_of kind table.now.layout in
        FindsFree table.now G.becomes (record_of kind) n (begin_of n from) (min n most) number (seat.old, gate.old) (seat.new, gate.new)) }
{
    let all = kind.count(table.layout());
    let most = all.min(most);
    let mut number = number_or_zero(from, all);
    for tried in 0..most {
        let rec = kind.record_at(number);
        if table.load_state(seat, gate, rec) == pack_state(Tag::Free) {
            return Some(number);
        }
        number = number_or_zero(number + 1, all);
    }
    None
}

/// Returns the number to begin at, of `all` records: `from`, or 0 if `from` is out of range.
fn number_or_zero(from: u32, all: u32) -> u32
    ensures begin { result ≡ begin_of all from }
    ensures low { 0 < all → result < all }
    ensures few { result ≤ all }
{
    if from < all { from } else { 0 }
}

/// Makes `rec`, which the pass has claimed and not made ready, free again, by one step. The pass's other records stay.
pub fn give_up_record<G: Gate>(table: &HotTable, seat: &mut TableSeat, gate: &mut G, rec: Rec)
    requires own { IsSeatOf table.now seat.old }
    requires range { HasRecord table.now.layout rec }
    requires held { IsClaimed seat.old.known rec }
    ensures { GivesUp table.now G.becomes rec (seat.old, gate.old) (seat.new, gate.new) }
{
    table.release(seat, gate, rec);
}

/// Makes the records `recs` free again, in their order, by one step each. They are all that the pass has, each claimed and not made ready.
/// Then the pass has no record.
pub fn give_up_records<G: Gate>(table: &HotTable, seat: &mut TableSeat, gate: &mut G, recs: &[Rec])
    requires own { IsSeatOf table.now seat.old }
    requires range { All (HasRecord table.now.layout) recs.now }
    requires held { HoldsJust seat.old.known recs.now }
    ensures { GivesUpAll table.now G.becomes recs.now (seat.old, gate.old) (seat.new, gate.new) }
{
    for index in 0..recs.len() {
        give_up_record(table, seat, gate, recs[index]);
    }
}
