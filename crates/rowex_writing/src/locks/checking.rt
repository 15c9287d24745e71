//! The check under the locks: what a search has found still stands.

ghost use Rattle.std.specs.Prelude.{◌≡◌, ◌≢◌, ◌<◌, ◌≤◌, ℕ, List, length, true, false, Option, Some, IsSome, ◌+◌, ◌-◌};
ghost use Rattle.compound_node.specs.declared.entries.Entry.{Entry as EntryValue};
ghost use Rattle.record_words.specs.Entry.{HasEntryWord, entry_word};
ghost use Rattle.tries.specs.Place.{entry_at};
ghost use Rattle.rowex_core.specs.Reading.{node_words_of};
ghost use Rattle.version_laws.specs.Scan.{IsPlaced};
ghost use Rattle.rowex_table.specs.Seats.{IsSeatOf};
ghost use Rattle.rowex_reading.specs.Possible.{IsPossible};
ghost use Rattle.rowex_reading.specs.Seen.{HasPlace, Sure};
ghost use Rattle.rowex_writing.specs.locks.Checks.{EntriesStand, IsChecked};
ghost use Rattle.rowex_writing.specs.locks.Going.{HasLocked, IsLockedBy, WorksOnKeepingRecords};
ghost use Rattle.rowex_writing.specs.locks.Locks.{locks_of};
ghost use Rattle.rowex_writing.specs.locks.Jobs.{HoldsSpan, IsJobFrom};
ghost use Rattle.rowex_reading.specs.Ways.{RootWas, named};

use crate::plan::job::Job;
use compound_node::Entry;
use insert_cases::PathNode;
use record_words::pack_entry;
use rowex_core::{Gate, Spot};
use rowex_reading::{Found, load_root};
use rowex_table::{HotTable, TableSeat};

/// Returns whether each node locked for the span of `job` still names what the search found there. If the anchor is locked, the root is
/// checked, too. Each is loaded once, from the top down, up to the first that names something else. If one does, another pass has made a
/// change since the search loaded the root. The pass keeps its locks and records.
pub(crate) fn check_span<G: Gate>(
    table: &HotTable,
    seat: &mut TableSeat,
    gate: &mut G,
    job: &Job<'_>,
) -> bool
    requires held { HoldsSpan table.now seat.old job.now }
    ensures reads { WorksOnKeepingRecords table.now G.becomes (seat.old, gate.old) (seat.new, gate.new) }
    ensures possible { IsPossible table.now.layout seat.new.known }
    ensures checked { result ≡ true → IsChecked seat.new.known job.now.key.now job.now.way.now job.now.found job.now.span }
    ensures changed { (m : ℕ) → IsJobFrom table.now.layout seat.old.known m job.now → result ≡ false → m < length seat.new.known.front }
    ensures few { seat.new.known.steps ≤ seat.old.known.steps + locks_of job.now.span }
{
    if job.span.end > 0 {
        return entries_stand(table, seat, gate, job);
    }
    if !root_stands(table, seat, gate, naming_entry(job.way, job.found, 0)) {
        return false;
    }
    entries_stand(table, seat, gate, job)
}

/// Returns the entry that names the node at `index` of `way`. If `index` is behind the last node, it is what the search ended at, as
/// `found` says: the leaf, or `None`.
pub(crate) fn naming_entry(way: &[PathNode], found: Found, index: usize) -> Option<Entry>
    ensures { result ≡ named way.now found index }
{
    if index < way.len() {
        let step = way[index];
        return Some(Entry::Node {
            number: step.number,
            height: step.height,
        });
    }
    match found {
        Found::Nothing => None,
        Found::Leaf { number, .. } => Some(Entry::Leaf(number)),
    }
}

/// Returns whether the root is `root`, an empty one for `None`, by one load under the anchor's lock. Let the pass be sure that the root was
/// `root` in some version since version m. If the root is another one now, the pass has seen a change made after version m.
pub(crate) fn root_stands<G: Gate>(
    table: &HotTable,
    seat: &mut TableSeat,
    gate: &mut G,
    root: Option<Entry>,
) -> bool
    requires own { IsSeatOf table.now seat.old }
    requires pinned { IsSome seat.old.known.pin }
    requires locked { IsSome seat.old.known.anchor }
    ensures reads { WorksOnKeepingRecords table.now G.becomes (seat.old, gate.old) (seat.new, gate.new) }
    ensures possible { IsPossible table.now.layout seat.new.known }
    ensures same { result ≡ true → seat.new.known.anchor ≡ Some root }
    ensures changed { (m : ℕ) → RootWas seat.old.known m root → result ≡ false → m < length seat.new.known.front }
    ensures few { seat.new.known.steps ≤ seat.old.known.steps + 1 }
{
    let found = load_root(table, seat, gate);
    are_same_entry(found, root)
}

/// Returns whether each node that is locked for the span of `job` has the entry that the search took in it. Each entry is loaded once, from
/// the top down, up to the first that is another. If one is, another pass has made a change since the search loaded the root.
fn entries_stand<G: Gate>(
    table: &HotTable,
    seat: &mut TableSeat,
    gate: &mut G,
    job: &Job<'_>,
) -> bool
    requires held { HoldsSpan table.now seat.old job.now }
    ensures reads { WorksOnKeepingRecords table.now G.becomes (seat.old, gate.old) (seat.new, gate.new) }
    ensures possible { IsPossible table.now.layout seat.new.known }
    ensures stand { (m : ℕ) → IsJobFrom table.now.layout seat.old.known m job.now → result ≡ true →
        EntriesStand seat.new.known job.now.key.now job.now.way.now job.now.found job.now.span }
    ensures changed { (m : ℕ) → IsJobFrom table.now.layout seat.old.known m job.now → result ≡ false → m < length seat.new.known.front }
    ensures few { seat.new.known.steps + (job.now.span.end - 1) ≤ seat.old.known.steps + job.now.span.len }
{
    for index in job.span.first_locked()..job.span.len {
        let entry = naming_entry(job.way, job.found, index + 1);
        if !entry_stands(table, seat, gate, job.way[index], entry) {
            return false;
        }
    }
    true
}

/// Returns whether the locked node `step.number` has `entry` in `step.slot`, by one load. Let the pass be sure that `entry` stood there in
/// some version since version m. If another entry stands there now, the pass has seen a change made after version m.
pub(crate) fn entry_stands<G: Gate>(
    table: &HotTable,
    seat: &mut TableSeat,
    gate: &mut G,
    step: PathNode,
    entry: Option<Entry>,
) -> bool
    requires own { IsSeatOf table.now seat.old }
    requires possible { IsPossible table.now.layout seat.old.known }
    requires place { (m h : ℕ) × HasPlace seat.old.known m step.number h step.slot }
    requires locked { IsLockedBy seat.old.known step.number }
    ensures reads { WorksOnKeepingRecords table.now G.becomes (seat.old, gate.old) (seat.new, gate.new) }
    ensures possible { IsPossible table.now.layout seat.new.known }
    ensures same { result ≡ true → (words : List ℕ) → HasLocked seat.old.known step.number words → entry ≡ Some (entry_at (node_words_of words).subtrie step.slot) }
    ensures changed { (m h : ℕ) (e : EntryValue) → HasPlace seat.old.known m step.number h step.slot → entry ≡ Some e →
        Sure seat.old.known (λ past. IsPlaced past m step.number step.slot e) → result ≡ false → m < length seat.new.known.front }
    ensures few { seat.new.known.steps ≤ seat.old.known.steps + 1 }
{
    let spot = Spot::Slot {
        node: step.number,
        slot: step.slot,
    };
    let word = table.load_ref(seat, gate, spot);
    is_word_of(entry, word)
}

/// Returns whether `word` is that of `entry`, or 0 for `None`. `false` if `entry` is a node of height 0, which has no word.
fn is_word_of(entry: Option<Entry>, word: u64) -> bool
    ensures same { result ≡ true → HasEntryWord entry × (entry_word entry ≡ word) }
    ensures differ { result ≡ false → (e : Option EntryValue) → HasEntryWord e → entry_word e ≡ word → e ≢ entry }
{
    match entry {
        None => word == pack_entry(None),
        Some(Entry::Leaf(number)) => word == pack_entry(Some(Entry::Leaf(number))),
        Some(Entry::Node { number, height }) => {
            height > 0 && word == pack_entry(Some(Entry::Node { number, height }))
        }
    }
}

/// Returns whether `one` and `other` are the same entry, or both `None`.
fn are_same_entry(one: Option<Entry>, other: Option<Entry>) -> bool
    ensures same { result ≡ true → one ≡ other }
    ensures differ { result ≡ false → one ≢ other }
{
    one == other
}
