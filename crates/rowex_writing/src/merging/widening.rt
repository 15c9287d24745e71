//! Locks that a merge needs beside those of its removal: of the lower node's sibling, and of what names the upper node.

ghost use Rattle.std.specs.Prelude.{◌≡◌, ◌<◌, ◌≤◌, ◌+◌, ◌-◌, ◌∷◌, [], ℕ, List, true, false, None, Some, IsSome, length};
ghost use Rattle.tries.specs.Place.{entry_at};
ghost use Rattle.rowex_core.specs.Reading.{node_words_of};
ghost use Rattle.rowex_core.specs.declared.known.Locked.{Locked};
ghost use Rattle.rowex_core.specs.declared.event.Target.{Target as TargetView};
ghost use Rattle.rowex_reading.specs.Possible.{IsPossible};
ghost use Rattle.rowex_reading.specs.Seen.{HasPlace};
ghost use Rattle.rowex_table.specs.Made.{IsLater};
ghost use Rattle.rowex_table.specs.Seats.{IsSeatOf};
ghost use Rattle.publish_laws.specs.Lone.{KeepsSpare};
ghost use Rattle.rowex_writing.specs.locks.Going.{HasLocked};
ghost use Rattle.rowex_writing.specs.locks.Jobs.{IsJobFrom};
ghost use Rattle.rowex_writing.specs.locks.Locks.{AreNodes, KeepsLocksAndRecords, KeepsRecords, LocksLast, Works, span_numbers, HasRun, HasTried};
ghost use Rattle.rowex_reading.specs.declared.descent.Found.{Found as FoundView};
ghost use Rattle.tries.specs.Keys.{Key as KeyView};
ghost use Rattle.rowex_writing.specs.merging.Merging.{IsFarFromSpan, IsNeighbour, IsTargetAbove, HasWiderLocks, LocksAbove, HasTriedUpToTwoMore};
ghost use Rattle.rowex_writing.specs.build.Taking.{TakesOn};
ghost use Rattle.rowex_writing.specs.declared.plan.job.Merge.{Merge as MergeView};

use crate::locks::checking::{entry_stands, naming_entry, root_stands};
use crate::locks::{lock_anchor, lock_node};
use crate::plan::job::Job;
use compound_node::Entry;
use insert_cases::PathNode;
use rowex_core::{Gate, Target};
use rowex_table::{HotTable, TableSeat};

/// Locks node `number`, the sibling of the node that loses the leaf. Then it locks what names the upper node, in which both stand, and
/// checks that the upper node is still named there. Returns whether both are locked. Neither stays locked if `number` is a node near the
/// span ([`is_near_span`]), a lock is refused, or something else is named.
///
/// Each lock is tried once at most, and at most five steps are made. The pass's other locks and its records stay. In a table with one pass,
/// if a node record was outside the tree, one is at the end, too.
pub(crate) fn lock_for_merge<G: Gate>(
    table: &HotTable,
    seat: &mut TableSeat,
    gate: &mut G,
    job: &Job<'_>,
    number: u32,
) -> bool
    requires takes { TakesOn table.now seat.old job.now }
    requires beside { (m : MergeView) × IsNeighbour seat.old.known job.now m × (m.number ≡ number) }
    ensures tries { HasTriedUpToTwoMore table.now G.becomes (span_numbers job.now.way.now job.now.span) result (seat.old, gate.old) (seat.new, gate.new) }
    ensures later { KeepsRecords table.now seat.old.known seat.new }
    ensures wide { result ≡ true → (w : HasWiderLocks table.now seat.new job.now number) ×
        (w.taking.before.known.locks ≡ seat.old.known.locks) × (w.taking.before.known.anchor ≡ seat.old.known.anchor) }
    ensures same { result ≡ false → KeepsLocksAndRecords seat.old.known seat.new.known }
    ensures few { seat.new.known.steps ≤ seat.old.known.steps + 5 }
    ensures spares { KeepsSpare table.now.layout seat.old seat.new }
{
    if is_near_span(job, number) {
        return false;
    }
    if !lock_node(table, seat, gate, number) {
        return false;
    }
    if lock_target_above(table, seat, gate, job) {
        return true;
    }
    unlock_last_node(table, seat, gate, number);
    false
}

/// Returns whether `number` is that of a node of the span of `job`, or of one of the two nodes above the span. These nodes are locked
/// already, or are to be locked next, and no lock is tried twice.
fn is_near_span(job: &Job<'_>, number: u32) -> bool
    requires within { (job.now.span.end ≤ job.now.span.len) × (job.now.span.len ≤ length job.now.way.now) }
    ensures near { result ≡ true → ¬ IsFarFromSpan job.now.way.now job.now.span number }
    ensures none { result ≡ false → IsFarFromSpan job.now.way.now job.now.span number }
{
    for index in job.span.end.saturating_sub(2)..job.span.len {
        if job.way[index].number == number {
            return true;
        }
    }
    false
}

/// Locks what names the upper node of a removal, which is the one above its span: the node above that, or the anchor. Checks that the upper
/// node is still named there. Returns whether the lock is held. If the lock is refused, or something else is named, the locks are as
/// before.
///
/// The pass keeps its records. At most three steps are made: the try, a load and an unlock. In a table with one pass, if a node record was
/// outside the tree, one is at the end, too.
fn lock_target_above<G: Gate>(
    table: &HotTable,
    seat: &mut TableSeat,
    gate: &mut G,
    job: &Job<'_>,
) -> bool
    requires own { IsSeatOf table.now seat.old }
    requires possible { IsPossible table.now.layout seat.old.known }
    requires way { (m : ℕ) × IsJobFrom table.now.layout seat.old.known m job.now }
    requires some { (0 < job.now.span.end) × (job.now.span.end ≤ length job.now.way.now) }
    requires free { seat.old.known.anchor ≡ None }
    ensures tries { (target : TargetView) × HasTried table.now G.becomes (target ∷ []) (seat.old, gate.old) (seat.new, gate.new) ×
        IsTargetAbove job.now.way.now (job.now.span.end - 1) target }
    ensures later { IsLater seat.old.known seat.new.known × (seat.new.known.own ≡ seat.old.known.own) }
    ensures above { result ≡ true → LocksAbove seat.old.known.locks job.now.key.now job.now.way.now job.now.found (job.now.span.end - 1) seat.new.known }
    ensures same { result ≡ false → KeepsLocksAndRecords seat.old.known seat.new.known }
    ensures few { seat.new.known.steps ≤ seat.old.known.steps + 3 }
    ensures spares { KeepsSpare table.now.layout seat.old seat.new }
{
    let end = job.span.end - 1;
    let named = naming_entry(job.way, job.found, end);
    if end == 0 {
        return lock_root(table, seat, gate, named);
    }
    lock_node_with_entry(table, seat, gate, job.way[end - 1], named)
}

/// Locks the anchor, and checks that the root is `root`, an empty one for `None`. Returns whether the anchor is locked. If the lock is
/// refused, or the root is another, the locks are as before. The pass keeps its records, and makes at most three steps. In a table with one
/// pass, if a node record was outside the tree, one is at the end, too.
fn lock_root<G: Gate>(
    table: &HotTable,
    seat: &mut TableSeat,
    gate: &mut G,
    root: Option<Entry>,
) -> bool
    requires own { IsSeatOf table.now seat.old }
    requires pinned { IsSome seat.old.known.pin }
    requires free { seat.old.known.anchor ≡ None }
    ensures tries { HasTried table.now G.becomes (Target.Anchor ∷ []) (seat.old, gate.old) (seat.new, gate.new) }
    ensures later { IsLater seat.old.known seat.new.known × (seat.new.known.own ≡ seat.old.known.own) }
    ensures locked { result ≡ true → (seat.new.known.locks ≡ seat.old.known.locks) × (seat.new.known.anchor ≡ Some root) }
    ensures same { result ≡ false → KeepsLocksAndRecords seat.old.known seat.new.known }
    ensures few { seat.new.known.steps ≤ seat.old.known.steps + 3 }
    ensures spares { KeepsSpare table.now.layout seat.old seat.new }
{
    if !lock_anchor(table, seat, gate) {
        return false;
    }
    if root_stands(table, seat, gate, root) {
        return true;
    }
    table.unlock(seat, gate, Target::Anchor);
    false
}

/// Locks node `step.number`, and checks that its entry in `step.slot` is `entry`. Returns whether the node is locked. If the lock is
/// refused, or the entry is another, the locks are as before. The pass keeps its records, and makes at most three steps. In a table with
/// one pass, if a node record was outside the tree, one is at the end, too.
fn lock_node_with_entry<G: Gate>(
    table: &HotTable,
    seat: &mut TableSeat,
    gate: &mut G,
    step: PathNode,
    entry: Option<Entry>,
) -> bool
    requires own { IsSeatOf table.now seat.old }
    requires possible { IsPossible table.now.layout seat.old.known }
    requires range { step.number < table.now.layout.nodes }
    requires place { (m h : ℕ) × HasPlace seat.old.known m step.number h step.slot }
    ensures tries { HasTried table.now G.becomes (Target.Node step.number ∷ []) (seat.old, gate.old) (seat.new, gate.new) }
    ensures later { IsLater seat.old.known seat.new.known × (seat.new.known.own ≡ seat.old.known.own) }
    ensures locked { result ≡ true → LocksLast step.number seat.old.known.locks seat.new.known × (seat.new.known.anchor ≡ seat.old.known.anchor) ×
        ((words : List ℕ) → HasLocked seat.new.known step.number words → entry ≡ Some (entry_at (node_words_of words).subtrie step.slot)) }
    ensures same { result ≡ false → KeepsLocksAndRecords seat.old.known seat.new.known }
    ensures few { seat.new.known.steps ≤ seat.old.known.steps + 3 }
    ensures spares { KeepsSpare table.now.layout seat.old seat.new }
{
    if !lock_node(table, seat, gate, step.number) {
        return false;
    }
    if entry_stands(table, seat, gate, step, entry) {
        return true;
    }
    unlock_last_node(table, seat, gate, step.number);
    false
}

/// Unlocks node `number`, which the pass has locked last, by one step. The pass's other locks and its records stay.
fn unlock_last_node<G: Gate>(table: &HotTable, seat: &mut TableSeat, gate: &mut G, number: u32)
    requires own { IsSeatOf table.now seat.old }
    requires range { number < table.now.layout.nodes }
    requires last { (held : List Locked) × LocksLast number held seat.old.known }
    ensures works { Works table.now G.becomes (seat.old, gate.old) (seat.new, gate.new) }
    ensures less { (held : List Locked) → LocksLast number held seat.old.known → seat.new.known.locks ≡ held }
    ensures same { (seat.new.known.anchor ≡ seat.old.known.anchor) × (seat.new.known.own ≡ seat.old.known.own) }
    ensures few { seat.new.known.steps ≤ seat.old.known.steps + 1 }
{
    table.unlock(seat, gate, Target::Node(number));
}

/// Unlocks the node at `end - 1` of `way`, or the anchor if `end` is 0, by one step. That is the last lock that the pass has taken. The
/// pass's other locks and its records stay.
fn unlock_target_above<G: Gate>(
    table: &HotTable,
    seat: &mut TableSeat,
    gate: &mut G,
    way: &[PathNode],
    end: usize,
)
    requires own { IsSeatOf table.now seat.old }
    requires nodes { AreNodes table.now.layout way.now }
    requires range { end ≤ length way.now }
    requires above { (held : List Locked) × (key : KeyView) × (found : FoundView) × LocksAbove held key way.now found end seat.old.known }
    ensures works { Works table.now G.becomes (seat.old, gate.old) (seat.new, gate.new) }
    ensures less { (held : List Locked) (key : KeyView) (found : FoundView) → LocksAbove held key way.now found end seat.old.known →
        (seat.new.known.locks ≡ held) × (seat.new.known.anchor ≡ None) }
    ensures own { seat.new.known.own ≡ seat.old.known.own }
    ensures few { seat.new.known.steps ≤ seat.old.known.steps + 1 }
{
    if end == 0 {
        table.unlock(seat, gate, Target::Anchor);
    } else {
        unlock_last_node(table, seat, gate, way[end - 1].number);
    }
}

/// Unlocks what [`lock_for_merge`] has locked, by two steps: first what names the upper node of the removal `job`, then node `number`. The
/// locks are then those from before, and the pass's records stay. In a table with one pass, if a node record was outside the tree, one is
/// at the end, too.
pub(crate) fn release_merge_locks<G: Gate>(
    table: &HotTable,
    seat: &mut TableSeat,
    gate: &mut G,
    job: &Job<'_>,
    number: u32,
)
    requires wide { HasWiderLocks table.now seat.old job.now number }
    ensures run { HasRun table.now G.becomes (seat.old, gate.old) (seat.new, gate.new) }
    ensures later { IsLater seat.old.known seat.new.known }
    ensures same { (w : HasWiderLocks table.now seat.old job.now number) →
        (seat.new.known.locks ≡ w.taking.before.known.locks) × (seat.new.known.anchor ≡ w.taking.before.known.anchor) × (seat.new.known.own ≡ seat.old.known.own) }
    ensures few { seat.new.known.steps ≤ seat.old.known.steps + 2 }
    ensures spares { KeepsSpare table.now.layout seat.old seat.new }
{
    unlock_target_above(table, seat, gate, job.way, job.span.end - 1);
    unlock_last_node(table, seat, gate, number);
}
