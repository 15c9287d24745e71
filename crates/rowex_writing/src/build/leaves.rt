//! The leaf record of a change: claimed in the smallest class that has one free, and filled.

ghost use Rattle.std.specs.Prelude.{◌≡◌, ◌<◌, ◌≤◌, ◌+◌, ◌*◌, [], IfErr, IfOk, MatchOption, ◌-◌};
ghost use Rattle.key_bits.specs.Key.{IsKey};
ghost use Rattle.rowex_table.specs.Seats.{IsSeatOf};
ghost use Rattle.rowex_reading.specs.Possible.{IsPossible};
ghost use Rattle.rowex_writing.specs.build.Building.{HasLeafMade, IsBuilding};
ghost use Rattle.rowex_writing.specs.build.Changes.{IsFull};
ghost use Rattle.rowex_writing.specs.declared.plan.Full.TheVariants.{Leaves};
ghost use Rattle.rowex_writing.specs.plan.Counts.{leaf_steps};
ghost use Rattle.rowex_writing.specs.locks.Going.{WorksOn};
ghost use Rattle.tries.specs.Content.{item};
ghost use Rattle.record_words.specs.Layout.{leaf_size, uncommitted_in};
ghost use Rattle.record_words.specs.declared.TheConstants.{LEAF_WORDS};
ghost use Rattle.record_words.specs.declared.records.Rec.TheVariants.{Leaf as a_leaf};
ghost use Rattle.rowex_table.specs.Committed.{IsCommitted};
ghost use Rattle.rowex_records.specs.Claims.{AllMissed, AllMissedFrom, HoldsOneMore, IsAnothersTo, record_of};
ghost use Rattle.rowex_records.specs.declared.claiming.RecordKind.TheVariants.{Leaf as LeafKind};
ghost use Rattle.rowex_writing.specs.build.Classes.{AllMissedBetween, AreOfOneClass};

use crate::build::hints::{Hint, claim_by_hint};
use crate::build::kept::Build;
use crate::plan::job::Job;
use record_words::{LEAF_CLASSES, Layout, count_leaf_words};
use rowex_core::{Gate, Rec};
use rowex_records::{RecordKind, fill_leaf};
use rowex_table::{HotTable, TableSeat};
use std::ops::Range;

/// Makes a record for the leaf of `job.key` and `job.value`, the first record of a change, and returns its number. `build.made` is this
/// record alone then. `None` if no leaf record with room for the key was free before the first of these that the pass didn't know to be
/// committed when the call began: `build.made` is empty then. At most `leaf_steps` steps are made.
pub(crate) fn make_leaf<G: Gate>(
    table: &HotTable,
    seat: &mut TableSeat,
    gate: &mut G,
    build: &mut Build,
    job: &Job<'_>,
) -> Option<u32>
    requires own { IsSeatOf table.now seat.old }
    requires possible { IsPossible table.now.layout seat.old.known }
    requires none { seat.old.known.own ≡ [] }
    requires key { IsKey job.now.key.now }
    ensures goes { WorksOn table.now G.becomes (seat.old, gate.old) (seat.new, gate.new) }
    ensures made { MatchOption result
        (IsBuilding table.now seat.new build.new.made.items [] × IsFull table.now.layout seat.old.bounds job.now.key.now seat.old.known seat.new.known [] Leaves)
        (λ n. HasLeafMade table.now seat.new build.new.made.items (item n job.now.key.now job.now.value)) }
    ensures few { seat.new.known.steps ≤ seat.old.known.steps + leaf_steps table.now.layout }
{
    build.made.clear();
    let number = claim_leaf(
        table,
        seat,
        gate,
        count_leaf_words(job.key),
        &mut build.leaves,
    )?;
    fill_leaf(table, seat, gate, number, job.key, job.value);
    build.made.push(Rec::Leaf(number));
    Some(number)
}

/// Claims a leaf record of at least `words` words and returns its number. `None` if none was free before the first of these that the pass
/// didn't know to be committed when the call began: then failed steps of this call tell of each before it who may own it. `classes` has the
/// hint of each class.
///
/// The classes whose records are large enough are tried one after the other, the smallest first. Those among the smallest that are to be
/// skipped are tried after the others. At most four steps are made for each leaf record of the table.
fn claim_leaf<G: Gate>(
    table: &HotTable,
    seat: &mut TableSeat,
    gate: &mut G,
    words: usize,
    classes: &mut [Hint; LEAF_CLASSES],
) -> Option<u32>
    requires own { IsSeatOf table.now seat.old }
    requires words { words ≤ LEAF_WORDS }
    ensures goes { WorksOn table.now G.becomes (seat.old, gate.old) (seat.new, gate.new) }
    ensures claims { MatchOption result
        ((seat.new.known.own ≡ seat.old.known.own) ×
        AllMissedFrom (IsAnothersTo table.now.layout seat.old.known) table.now.layout seat.old.bounds words seat.new.known.failed seat.old.known.steps)
        (λ number. (number < table.now.layout.leaves) × (words ≤ leaf_size table.now.layout number) ×
        HoldsOneMore (a_leaf number) seat.old.known seat.new.known) }
    ensures few { seat.new.known.steps ≤ seat.old.known.steps + 4 * table.now.layout.leaves }
{
    let layout = table.layout();
    let first = layout.first_leaf_with(words);
    let from = skip_classes(layout, classes, first);
    if let Some(number) = claim_leaf_between(table, seat, gate, from..layout.leaves, classes) {
        return Some(number);
    }
    let number = claim_leaf_between(table, seat, gate, first..from, classes)?;
    Some(number)
}

/// Returns the number of the first leaf record, from `first` on, whose class is not to be skipped; `layout.leaves` if there is none. Each
/// class passed over has one claim less to skip in its hint in `classes`.
fn skip_classes(layout: Layout, classes: &mut [Hint; LEAF_CLASSES], first: u32) -> u32
    requires { first ≤ layout.leaves }
    ensures { (first ≤ result) × (result ≤ layout.leaves) }
{
    let mut from = first;
    while from < layout.leaves {
        let hint = &mut classes[layout.class_of(from).index()];
        if hint.skips == 0 {
            return from;
        }
        hint.skips -= 1;
        from = layout.class_end(from);
    }
    from
}

/// Claims a leaf record with one of `numbers`, in the smallest class that has one free, and returns the number. A class that has uncommitted
/// ones is the last that is tried: a claim doesn't go on to larger records where smaller ones may be committed. `None` if none was free before
/// the first uncommitted one: then failed steps of this call tell of each before it who may own it. At most four steps are made for each of
/// `numbers`.
///
/// A class with none free is skipped by as many later claims as it has records, by its hint in `classes`: so a full class costs little. One
/// that has uncommitted records isn't skipped. Inline, so that the class of the first number is known when it is compiled.
#[inline(always)]
fn claim_leaf_between<G: Gate>(
    table: &HotTable,
    seat: &mut TableSeat,
    gate: &mut G,
    numbers: Range<u32>,
    classes: &mut [Hint; LEAF_CLASSES],
) -> Option<u32>
    requires own { IsSeatOf table.now seat.old }
    requires range { (numbers.start ≤ numbers.end) × (numbers.end ≤ table.now.layout.leaves) }
    ensures goes { WorksOn table.now G.becomes (seat.old, gate.old) (seat.new, gate.new) }
    ensures claims { MatchOption result
        ((seat.new.known.own ≡ seat.old.known.own) ×
        AllMissedBetween (IsAnothersTo table.now.layout seat.old.known) table.now.layout seat.old.bounds numbers.start numbers.end
        seat.new.known.failed seat.old.known.steps)
        (λ number. (numbers.start ≤ number) × (number < numbers.end) × HoldsOneMore (a_leaf number) seat.old.known seat.new.known) }
    ensures few { seat.new.known.steps ≤ seat.old.known.steps + 4 * (numbers.end - numbers.start) }
{
    let layout = table.layout();
    let mut first = numbers.start;
    while first < numbers.end {
        let end = layout.class_end(first).min(numbers.end);
        let hint = &mut classes[layout.class_of(first).index()];
        match claim_leaf_of_class(table, seat, gate, first..end, hint) {
            Ok(number) => return Some(first + number),
            Err(tried) => {
                if tried < end {
                    return None;
                }
            }
        }
        hint.skips = end - first;
        first = end;
    }
    None
}

/// Claims a leaf record with one of `numbers`, which are all of one class, and returns its number, counted from the first of them on. Only
/// committed ones are tried: one load finds how many are, and the first of `numbers` is committed if none was. The error is the number of the
/// first that wasn't tried. Each before it was found not free then: failed steps of this call tell who may own it.
///
/// Claims begin by `hint`, and each try takes at most two steps. Inline, as its caller is.
#[inline(always)]
fn claim_leaf_of_class<G: Gate>(
    table: &HotTable,
    seat: &mut TableSeat,
    gate: &mut G,
    numbers: Range<u32>,
    hint: &mut Hint,
) -> Result<u32, u32>
    requires own { IsSeatOf table.now seat.old }
    requires range { (numbers.start < numbers.end) × (numbers.end ≤ table.now.layout.leaves) }
    requires class { AreOfOneClass table.now.layout numbers.start numbers.end }
    ensures goes { WorksOn table.now G.becomes (seat.old, gate.old) (seat.new, gate.new) }
    ensures own { IfErr result (λ end. seat.new.known.own ≡ seat.old.known.own) }
    ensures tried { IfErr result (λ end. (numbers.start < end) ×
        (end < numbers.end → ¬ (IsCommitted table.now.layout (uncommitted_in seat.old.bounds) (a_leaf end)))) }
    ensures missed { IfErr result (λ end. AllMissed (IsAnothersTo table.now.layout seat.old.known) (record_of (LeafKind numbers.start end))
        (end - numbers.start) seat.new.known.failed seat.old.known.steps) }
    ensures claimed { IfOk result (λ number. (number < numbers.end - numbers.start) × HoldsOneMore (a_leaf (numbers.start + number)) seat.old.known seat.new.known) }
    ensures few { seat.new.known.steps ≤ seat.old.known.steps + 2 * (numbers.end - numbers.start) + 2 }
{
    let first = numbers.start;
    let count = table.count_committed_from(seat, Rec::Leaf(first));
    let end = first + count.min(numbers.end - first);
    match claim_by_hint(table, seat, gate, RecordKind::Leaf { first, end }, hint) {
        Some(number) => Ok(number),
        None => Err(end),
    }
}
