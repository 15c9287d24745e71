//! Rounds of collection: records that no pinned pass can reach are given back.

ghost use Rattle.std.specs.Prelude.{◌≡◌, ◌≢◌, ℕ, ◌+◌, ◌-◌, ◌^◌, ◌<◌, ◌≤◌, None, true, false, min, if◌then◌else◌, IfSome, MatchOption};
ghost use Rattle.record_words.specs.declared.state.Tag.TheVariants.{Free as FreeTag, Obsolete};
ghost use Rattle.record_words.specs.Layout.{leaf_size};
ghost use Rattle.record_words.specs.State.{state_word};
ghost use Rattle.record_words.specs.declared.TheConstants.{NO_PIN, RECORD_KINDS};
ghost use Rattle.record_words.specs.declared.records.Rec.TheVariants.{Node as a_node, Leaf as a_leaf};
ghost use Rattle.rowex_core.specs.Cores.{HasRecord};
ghost use Rattle.rowex_table.specs.Committed.{IsCommitted, count_from, record_kind};
ghost use Rattle.rowex_table.specs.Rule.{IsStartOf};
ghost use Rattle.rowex_table.specs.Seats.{IsSeatOf};
ghost use Rattle.epochs.specs.Rounds.{AdvancesEpoch, BeginsRound, FindsBound, HasBound, IsRound, IsSmallRound, IsSparedRound, LoadsUncommitted, VisitsFirst, GoesOnVisiting, VisitsOne, VisitsSome, VisitsTable, count_of_kind, is_given};
ghost use Rattle.epochs.specs.declared.limbo.Visited.TheVariants.{Free, Waits};

use crate::limbo::{Limbo, MOST_VISITED, Sweep, Visited};
use record_words::{
    EPOCHS, LEAST_OBSOLETE, Layout, NO_PIN, RECORD_KINDS, Tag, read_obsolete_epoch, unpack_state,
};
use rowex_core::{Gate, Rec};
use rowex_table::{HotTable, RecordAt, TableSeat};
use std::ops::Range;

/// How many records a round of collection gave back.
#[derive(Clone, Copy, PartialEq, Eq)]
pub struct Given {
    pub nodes: u32,
    pub leaves: u32,
}

/// What a round of collection came to.
#[derive(Clone, Copy)]
pub struct Collected {
    /// How many records it gave back.
    pub given: Given,
    /// Whether it found a node record free already.
    pub found_free_node: bool,
    /// Whether it found a leaf record free already.
    pub found_free_leaf: bool,
}

/// What visits of records of one kind came to.
#[derive(Clone, Copy)]
struct Tally {
    given: u32,
    found_free: bool,
}

/// The tally of no visits.
const NO_VISITS: Tally = Tally {
    given: 0,
    found_free: false,
};

/// Makes a full round: tries to raise the epoch by one, and visits each committed record. It gives back a retired record whose epoch is
/// below the epoch then loaded and below each set pin. A record that another pass has given back meanwhile doesn't count. Returns how many
/// it gave back, and whether other records were free already. The pass has no pin, before and after.
///
/// At the last epoch, 2^60 - 1, the epoch stays, and what is below it is still given back.
pub fn collect_round<G: Gate>(table: &HotTable, seat: &mut TableSeat, gate: &mut G) -> Collected
    requires own { IsSeatOf table.now seat.old }
    requires free { seat.old.known.pin ≡ None }
    ensures free { seat.new.known.pin ≡ None }
    ensures round { IsRound table.now G.becomes (seat.old, gate.old) (seat.new, gate.new) result.given.nodes result.given.leaves }
{
    let bound = begin_round(table, seat, gate);
    visit_records(table, seat, gate, bound)
}

/// Makes a full round, in which each committed record is visited, unless that could give nothing back. Then it only begins one, and returns
/// `None`. That is so in an index of several passes, if the round's bound is no higher than `limbo.swept`: the bound of the last full round
/// that this function made for the pass. A full round sets `limbo.swept` to its bound. The pass has no pin, before and after.
///
/// That last full round left no record below its bound retired, and none is retired below it later. A pass marks what it retires while it
/// is pinned, with an epoch that it loads under this pin. If the round has seen the pin, the pin was no lower than the bound. Otherwise the
/// pass was pinned after the round had loaded its epoch, or it had marked and unpinned before the round visited a record.
pub fn collect_if_risen<G: Gate>(
    table: &HotTable,
    seat: &mut TableSeat,
    gate: &mut G,
    limbo: &mut Limbo,
) -> Option<Collected>
    requires own { IsSeatOf table.now seat.old }
    requires free { seat.old.known.pin ≡ None }
    ensures free { seat.new.known.pin ≡ None }
    ensures round { IfSome result (λ round. IsRound table.now G.becomes (seat.old, gate.old) (seat.new, gate.new) round.given.nodes round.given.leaves) }
    ensures swept { IfSome result (λ round. limbo.new.swept ≡ seat.new.known.round.bound) }
    ensures several { result ≡ None → 1 < table.now.layout.passes }
    ensures low { result ≡ None → (seat.new.known.round.bound ≤ limbo.old.swept) × (limbo.new.swept ≡ limbo.old.swept) }
    ensures spared { result ≡ None → IsSparedRound table.now G.becomes (seat.old, gate.old) (seat.new, gate.new) }
{
    let bound = begin_round(table, seat, gate);
    if table.layout().passes > 1 && bound <= limbo.swept {
        return None;
    }
    limbo.swept = bound;
    Some(visit_records(table, seat, gate, bound))
}

/// Makes a small round: tries to raise the epoch by one, and visits the oldest records of the pass's list `limbo`, up to the first that has
/// to wait. Then it goes on with `sweep`. It visits at most `MOST_VISITED` records. A retired record whose epoch is below the epoch then
/// loaded and below each set pin is given back. As far as there is room, `limbo.given` lists the records given back. The contract says only
/// how many records are visited.
///
/// The cost doesn't grow with the number of the table's records. The pass has no pin, before and after.
pub fn collect_small_round<G: Gate>(
    table: &HotTable,
    seat: &mut TableSeat,
    gate: &mut G,
    limbo: &mut Limbo,
    sweep: &mut Sweep,
)
    requires own { IsSeatOf table.now seat.old }
    requires free { seat.old.known.pin ≡ None }
    ensures free { seat.new.known.pin ≡ None }
    ensures round { IsSmallRound table.now G.becomes MOST_VISITED (seat.old, gate.old) (seat.new, gate.new) }
{
    let most = sweep.most_visits(limbo.retired());
    limbo.clear_round();
    let bound = begin_round(table, seat, gate);
    let visited = visit_limbo(table, seat, gate, limbo, bound);
    let left = most.min(MOST_VISITED - visited);
    visit_sweep(table, seat, gate, limbo, sweep, bound, left);
}

/// Tries to raise the epoch by one, and returns the bound of the round: the least of the epoch loaded after that and of the pins that are
/// set. The pass's pin stays.
fn begin_round<G: Gate>(table: &HotTable, seat: &mut TableSeat, gate: &mut G) -> u64
    requires { IsSeatOf table.now seat.old }
    ensures pin { seat.new.known.pin ≡ seat.old.known.pin }
    ensures bound { HasBound table.now.layout.passes result seat.new.known }
    ensures steps { BeginsRound table.now G.becomes (seat.old, gate.old) (seat.new, gate.new) }
{
    advance_epoch(table, seat, gate);
    find_bound(table, seat, gate)
}

/// Loads the epoch and tries to raise it by one, which changes nothing if another pass has done so meanwhile. At the last epoch, 2^60 - 1,
/// nothing is tried. The pass's pin stays.
fn advance_epoch<G: Gate>(table: &HotTable, seat: &mut TableSeat, gate: &mut G)
    requires { IsSeatOf table.now seat.old }
    ensures pin { seat.new.known.pin ≡ seat.old.known.pin }
    ensures steps { AdvancesEpoch table.now G.becomes (seat.old, gate.old) (seat.new, gate.new) }
{
    let expected = table.load_epoch(seat, gate);
    if expected + 1 < EPOCHS {
        table.advance(seat, gate, expected);
    }
}

/// Loads the epoch and each pin. Returns the least of the loaded epoch and of the pins that are set. The pass's own pin stays.
fn find_bound<G: Gate>(table: &HotTable, seat: &mut TableSeat, gate: &mut G) -> u64
    requires { IsSeatOf table.now seat.old }
    ensures pin { seat.new.known.pin ≡ seat.old.known.pin }
    ensures bound { HasBound table.now.layout.passes result seat.new.known }
    ensures steps { FindsBound table.now G.becomes table.now.layout.passes (seat.old, gate.old) (seat.new, gate.new) }
{
    let mut bound = table.load_epoch(seat, gate);
    for pass in 0..table.layout().passes {
        let number = pass as u16;
        let word = table.load_pin(seat, gate, number);
        bound = bound_with_pin(bound, word);
    }
    bound
}

/// Returns the lower of `bound` and `word`, a pin's word; `bound` if the pin is not set.
fn bound_with_pin(bound: u64, word: u64) -> u64
    ensures none { word ≡ NO_PIN → result ≡ bound }
    ensures pinned { 1 ≤ word → result ≡ min bound word }
{
    if word == NO_PIN {
        bound
    } else {
        bound.min(word)
    }
}

/// Visits each committed record of the table, nodes first. Returns how many of each kind it gave back, and whether others were free. `bound`
/// is the bound of the round. The pass's pin and round stay.
fn visit_records<G: Gate>(
    table: &HotTable,
    seat: &mut TableSeat,
    gate: &mut G,
    bound: u64,
) -> Collected
    requires own { IsSeatOf table.now seat.old }
    requires bound { HasBound table.now.layout.passes bound seat.old.known }
    ensures same { (seat.new.known.pin ≡ seat.old.known.pin) × (seat.new.known.round ≡ seat.old.known.round) }
    ensures steps { VisitsTable table.now G.becomes bound result.given.nodes result.given.leaves (seat.old, gate.old) (seat.new, gate.new) }
{
    let uncommitted = load_uncommitted_counts(table, seat);
    let nodes = visit_node_records(table, seat, gate, bound, &uncommitted);
    let leaves = visit_leaf_records(table, seat, gate, bound, &uncommitted);
    Collected {
        given: Given {
            nodes: nodes.given,
            leaves: leaves.given,
        },
        found_free_node: nodes.found_free,
        found_free_leaf: leaves.found_free,
    }
}

/// Loads how many records of each kind are uncommitted, and returns these counts. What the pass knows and its trace stay.
fn load_uncommitted_counts(table: &HotTable, seat: &mut TableSeat) -> [u64; RECORD_KINDS]
    requires own { IsSeatOf table.now seat.old }
    ensures { LoadsUncommitted table.now.layout RECORD_KINDS result seat.old seat.new }
{
    let mut counts = [0; RECORD_KINDS];
    for kind in 0..RECORD_KINDS {
        counts[kind] = table.load_uncommitted(seat, kind as u8);
    }
    counts
}

/// Returns how many of `count` records are committed if the last `uncommitted` of them are not.
fn count_committed(count: u32, uncommitted: u64) -> u32
    ensures { result ≡ count - uncommitted }
{
    let count = u64::from(count);
    if uncommitted < count {
        (count - uncommitted) as u32
    } else {
        0
    }
}

/// Visits each committed node record, in the order of their numbers. Returns how many it gave back, and whether one was free already.
/// `bound` is the bound of the round, and `uncommitted` has the count of each kind. The pass's pin and round stay.
fn visit_node_records<G: Gate>(
    table: &HotTable,
    seat: &mut TableSeat,
    gate: &mut G,
    bound: u64,
    uncommitted: &[u64; RECORD_KINDS],
) -> Tally
    requires own { IsSeatOf table.now seat.old }
    requires bound { HasBound table.now.layout.passes bound seat.old.known }
    ensures same { (seat.new.known.pin ≡ seat.old.known.pin) × (seat.new.known.round ≡ seat.old.known.round) }
    ensures steps { VisitsFirst table.now G.becomes (count_of_kind uncommitted.now) bound a_node table.now.layout.nodes result.given
        (seat.old, gate.old) (seat.new, gate.new) }
{
    let mut tally = NO_VISITS;
    let end = count_committed(table.layout().nodes, uncommitted[0]);
    for number in 0..end {
        let node = table.locate(Rec::Node(number));
        let seen = visit_record(table, seat, gate, node, bound);
        tally = count_visit(tally, seen);
    }
    tally
}

/// Visits each committed leaf record, in the order of their numbers. Returns how many it gave back, and whether one was free already.
/// `bound` is the bound of the round, and `uncommitted` has the count of each kind. The pass's pin and round stay.
fn visit_leaf_records<G: Gate>(
    table: &HotTable,
    seat: &mut TableSeat,
    gate: &mut G,
    bound: u64,
    uncommitted: &[u64; RECORD_KINDS],
) -> Tally
    requires own { IsSeatOf table.now seat.old }
    requires bound { HasBound table.now.layout.passes bound seat.old.known }
    ensures same { (seat.new.known.pin ≡ seat.old.known.pin) × (seat.new.known.round ≡ seat.old.known.round) }
    ensures steps { VisitsFirst table.now G.becomes (count_of_kind uncommitted.now) bound a_leaf table.now.layout.leaves result.given
        (seat.old, gate.old) (seat.new, gate.new) }
{
    let mut tally = NO_VISITS;
    let layout = table.layout();
    let mut first = 0;
    while first < layout.leaves {
        let class = class_at(&layout, first);
        let end = first + count_committed(class.count, uncommitted[class.kind]);
        tally = visit_class(table, seat, gate, bound, first..end, tally);
        first += class.count;
    }
    tally
}

/// A class of leaf records, from one of its records on.
#[derive(Clone, Copy)]
struct ClassRest {
    /// The kind of its records.
    kind: usize,
    /// How many of its records stand from that one on.
    count: u32,
}

/// Returns the class of the leaf record `number`, from there on.
fn class_at(layout: &Layout, number: u32) -> ClassRest
    requires { number < layout.now.leaves }
    ensures kind { result.kind ≡ record_kind layout.now (a_leaf number) }
    ensures count { result.count ≡ count_from layout.now (a_leaf number) }
    ensures some { (result.kind < RECORD_KINDS) × (0 < result.count) × (number + result.count ≤ layout.now.leaves) }
{
    let (kind, end) = if number < layout.medium_from {
        (1, layout.medium_from)
    } else if number < layout.large_from {
        (2, layout.large_from)
    } else if number < layout.wide_from {
        (3, layout.wide_from)
    } else if number < layout.long_from {
        (4, layout.long_from)
    } else {
        (5, layout.leaves)
    };
    let count = end - number;
    ClassRest { kind, count }
}

/// Visits the leaf records of `numbers`, all of one class, so that each begins equally far behind the one before. Returns the tally
/// `before`, which counts the lower numbers, with these visits. `bound` is the bound of the round. The pass's pin and round stay.
fn visit_class<G: Gate>(
    table: &HotTable,
    seat: &mut TableSeat,
    gate: &mut G,
    bound: u64,
    numbers: Range<u32>,
    before: Tally,
) -> Tally
    requires own { IsSeatOf table.now seat.old }
    requires bound { HasBound table.now.layout.passes bound seat.old.known }
    requires range { (numbers.start ≤ numbers.end) × (numbers.end ≤ table.now.layout.leaves) }
    requires class { (q : ℕ) → numbers.start ≤ q → q < numbers.end → leaf_size table.now.layout q ≡ leaf_size table.now.layout numbers.start }
    requires few { before.given ≤ numbers.start }
    ensures same { (seat.new.known.pin ≡ seat.old.known.pin) × (seat.new.known.round ≡ seat.old.known.round) }
    ensures few { result.given ≤ numbers.end }
    ensures steps { (uncommitted : ℕ → ℕ) → ((q : ℕ) → numbers.start ≤ q → q < numbers.end → IsCommitted table.now.layout uncommitted (a_leaf q)) →
        GoesOnVisiting table.now G.becomes uncommitted bound a_leaf (numbers.start, before.given) (numbers.end, result.given)
        (seat.old, gate.old) (seat.new, gate.new) }
{
    let layout = table.layout();
    let size = layout.leaf_size(numbers.start);
    let mut start = layout.leaf(numbers.start);
    let mut tally = before;
    for number in numbers.start..numbers.end {
        let rec = Rec::Leaf(number);
        let seen = visit_record(table, seat, gate, RecordAt { rec, start }, bound);
        tally = count_visit(tally, seen);
        start += size;
    }
    tally
}

/// Returns `tally` with one more visit, which came to `seen`. It counts a record given back, and notes one that was free. A visit that came
/// to something else changes nothing.
fn count_visit(tally: Tally, seen: Visited) -> Tally
    requires { tally.given + 1 < 2 ^ 32 }
    ensures given { result.given ≡ tally.given + (if is_given seen then 1 else 0) }
    ensures free { seen ≡ Free → result.found_free ≡ true }
    ensures others { seen ≢ Free → result.found_free ≡ tally.found_free }
{
    match seen {
        Visited::Given => Tally {
            given: tally.given + 1,
            found_free: tally.found_free,
        },
        Visited::Free => Tally {
            given: tally.given,
            found_free: true,
        },
        Visited::Waits | Visited::Other => tally,
    }
}

/// Visits the oldest records of `limbo`, at most `MOST_VISITED`, up to the first that has to wait. Returns how many may have been visited.
/// The records before the one that waits leave the list, whatever their visits came to. The records behind it were retired later, so they
/// mostly wait, too. `bound` is the bound of the round. The pass's pin and round stay.
fn visit_limbo<G: Gate>(
    table: &HotTable,
    seat: &mut TableSeat,
    gate: &mut G,
    limbo: &mut Limbo,
    bound: u64,
) -> usize
    requires own { IsSeatOf table.now seat.old }
    requires bound { HasBound table.now.layout.passes bound seat.old.known }
    ensures same { (seat.new.known.pin ≡ seat.old.known.pin) × (seat.new.known.round ≡ seat.old.known.round) }
    ensures few { result ≤ MOST_VISITED }
    ensures steps { VisitsSome table.now G.becomes bound result (seat.old, gate.old) (seat.new, gate.new) }
{
    let count = limbo.count().min(MOST_VISITED);
    for index in 0..count {
        let Some(rec) = limbo.waiting_record(index) else {
            break;
        };
        let seen = visit_if_there(table, seat, gate, rec, bound);
        if !limbo.take_visit(rec, seen) {
            limbo.drop_oldest_records(index);
            return index + 1;
        }
    }
    limbo.drop_oldest_records(count);
    count
}

/// Visits the next records of `sweep`, at most `most`. Those given back are listed in `limbo.given`, as far as there is room. `bound` is
/// the bound of the round. The pass's pin and round stay.
fn visit_sweep<G: Gate>(
    table: &HotTable,
    seat: &mut TableSeat,
    gate: &mut G,
    limbo: &mut Limbo,
    sweep: &mut Sweep,
    bound: u64,
    most: usize,
)
    requires own { IsSeatOf table.now seat.old }
    requires bound { HasBound table.now.layout.passes bound seat.old.known }
    ensures same { (seat.new.known.pin ≡ seat.old.known.pin) × (seat.new.known.round ≡ seat.old.known.round) }
    ensures steps { VisitsSome table.now G.becomes bound most (seat.old, gate.old) (seat.new, gate.new) }
{
    for _visit in 0..most {
        let Some(rec) = sweep.take_next() else {
            return;
        };
        if !has_record(table.layout(), rec) {
            continue;
        }
        let seen = visit_record(table, seat, gate, table.locate(rec), bound);
        sweep.count_visit(seen);
        limbo.take_visit(rec, seen);
    }
}

/// Visits `rec`, and returns what the visit came to. If the table has no such record, nothing is visited, and the result is `Other`.
/// `bound` is the bound of the round. The pass's pin and round stay.
fn visit_if_there<G: Gate>(
    table: &HotTable,
    seat: &mut TableSeat,
    gate: &mut G,
    rec: Rec,
    bound: u64,
) -> Visited
    requires own { IsSeatOf table.now seat.old }
    requires bound { HasBound table.now.layout.passes bound seat.old.known }
    ensures same { (seat.new.known.pin ≡ seat.old.known.pin) × (seat.new.known.round ≡ seat.old.known.round) }
    ensures steps { VisitsSome table.now G.becomes bound 1 (seat.old, gate.old) (seat.new, gate.new) }
{
    if !has_record(table.layout(), rec) {
        return Visited::Other;
    }
    visit_record(table, seat, gate, table.locate(rec), bound)
}

/// Returns whether a table of `layout` has the record `rec`.
fn has_record(layout: Layout, rec: Rec) -> bool
    ensures has { result ≡ true → HasRecord layout rec }
    ensures has_not { result ≡ false → ¬ (HasRecord layout rec) }
{
    match rec {
        Rec::Node(number) => number < layout.nodes,
        Rec::Leaf(number) => number < layout.leaves,
    }
}

/// Loads the state of the record `at`. If the record is obsolete in an epoch below `bound`, the bound of the round, it tries to make the
/// record free. Returns what the visit came to: `Given` exactly if it made the record free. The pass's pin and round stay.
fn visit_record<G: Gate>(
    table: &HotTable,
    seat: &mut TableSeat,
    gate: &mut G,
    at: RecordAt,
    bound: u64,
) -> Visited
    requires own { IsSeatOf table.now seat.old }
    requires start { IsStartOf table.now.layout at.rec at.start }
    requires bound { HasBound table.now.layout.passes bound seat.old.known }
    ensures same { (seat.new.known.pin ≡ seat.old.known.pin) × (seat.new.known.round ≡ seat.old.known.round) }
    ensures steps { VisitsOne table.now G.becomes bound at.rec (is_given result) (seat.old, gate.old) (seat.new, gate.new) }
{
    let word = table.load_state_at(seat, gate, at);
    let Some(epoch) = epoch_below(word, bound) else {
        return outcome_of_state(word);
    };
    let found = table.give_back_at(seat, gate, at, epoch);
    outcome_of_try(found == word)
}

/// Returns what a visit came to that tried to give its record back: `Given` if `given` is true, `Other` if another pass had changed the
/// state before.
fn outcome_of_try(given: bool) -> Visited
    ensures { is_given result ≡ given }
{
    if given {
        Visited::Given
    } else {
        Visited::Other
    }
}

/// Returns what a visit came to of a record that is not to be given back, by its state `word`. It is `Waits` if the record is obsolete,
/// `Free` if it is free, and else `Other`; never `Given`.
fn outcome_of_state(word: u64) -> Visited
    ensures given { is_given result ≡ false }
    ensures waits { (epoch : ℕ) → 1 ≤ epoch → epoch < EPOCHS → word ≡ state_word (Obsolete epoch) → result ≡ Waits }
    ensures free { word ≡ state_word FreeTag → result ≡ Free }
{
    match unpack_state(word) {
        Ok(Tag::Obsolete(_)) => Visited::Waits,
        Ok(Tag::Free) => Visited::Free,
        _ => Visited::Other,
    }
}

/// Returns the epoch in which a record with the state `word` was retired, if that is below `bound`. `None` for a later epoch, or for a
/// record that isn't retired. The first comparison settles most records, since words of other states are lower.
fn epoch_below(word: u64, bound: u64) -> Option<u64>
    ensures { MatchOption result ((epoch : ℕ) → 1 ≤ epoch → epoch < EPOCHS → epoch < bound → word ≢ state_word (Obsolete epoch))
        (λ epoch. (1 ≤ epoch) × (epoch < EPOCHS) × (epoch < bound) × (word ≡ state_word (Obsolete epoch))) }
{
    if word < LEAST_OBSOLETE {
        return None;
    }
    match read_obsolete_epoch(word) {
        Some(epoch) if epoch < bound => Some(epoch),
        _ => None,
    }
}
