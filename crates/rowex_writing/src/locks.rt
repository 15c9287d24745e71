//! The locks of a writer: those of a span of the way, taken upwards, and given back.

ghost use Rattle.std.specs.Prelude.{◌≡◌, ◌<◌, ◌≤◌, ℕ, [], ◌∷◌, length, true, false, None, ◌+◌, ◌*◌};
ghost use Rattle.versions.specs.Trades.{AreApart};
ghost use Rattle.rowex_core.specs.Knowing.{version_of};
ghost use Rattle.rowex_table.specs.Seats.{IsSeatOf};
ghost use Rattle.rowex_table.specs.Rights.{MayLock};
ghost use Rattle.rowex_writing.specs.locks.Locks.{AreLed, AreNodes, HasJustLocked, HasLockedSpan, HasMadeNoChange, HasNoLock, HasNotLocked, KeepsLocksAndRecords, IsRefusedLock, KnowsSameButLocks, LocksAnchor, LocksOne, Tries, TriesNodes, TriesOnce, Works, locks_of, numbers_of, span_numbers};
ghost use Rattle.rowex_writing.specs.locks.Others.{HasMetOther, IsBlocked};

pub mod checking;
pub mod locked;

use crate::plan::Span;
use insert_cases::PathNode;
use record_words::{Tag, pack_state};
use rowex_core::{Gate, Target};
use rowex_table::{HotTable, TableSeat};

/// Locks the nodes of `span` on `way`, and the one above them that gets the new entry, from the lowest upwards. The anchor comes last,
/// where the span goes up to the root. Each is tried once at most. Returns whether all are locked. If another pass has locked or retired
/// one, those that were locked are given back, and the pass has no lock. Each lock takes one step, and so does each that is given back.
/// Lowest first means that what more passes want is held for the shortest time.
pub(crate) fn lock_span<G: Gate>(
    table: &HotTable,
    seat: &mut TableSeat,
    gate: &mut G,
    way: &[PathNode],
    span: Span,
) -> bool
    requires own { IsSeatOf table.now seat.old }
    requires span { (span.end ≤ span.len) × (span.len ≤ length way.now) }
    requires free { HasNoLock seat.old.known }
    requires led { AreLed table.now.layout seat.old.known way.now }
    requires apart { AreApart (numbers_of way.now) }
    requires none { seat.old.known.own ≡ [] }
    requires quiet { HasMadeNoChange seat.old.known }
    ensures tries { (locks : ℕ) × TriesOnce table.now G.becomes locks (seat.old, gate.old) (seat.new, gate.new) ×
        (locks ≤ locks_of span) × (result ≡ true → locks ≡ locks_of span) ×
        (seat.new.known.steps < seat.old.known.steps + 2 * locks) }
    ensures same { seat.new.known.own ≡ seat.old.known.own }
    ensures locked { result ≡ true → HasLockedSpan seat.new.known way.now span }
    ensures refused { result ≡ false → HasNoLock seat.new.known × IsBlocked table.now.layout seat.old seat.new }
    ensures nodes { result ≡ true → 0 < span.end → TriesNodes table.now G.becomes (span_numbers way.now span) (seat.old, gate.old) (seat.new, gate.new) }
    ensures few { result ≡ true → seat.new.known.steps ≤ seat.old.known.steps + locks_of span }
{
    let first = span.first_locked();
    let mut index = span.len;
    while index > first {
        index -= 1;
        if !lock_node(table, seat, gate, way[index].number) {
            unlock_nodes(table, seat, gate, &way[index + 1..span.len]);
            return false;
        }
    }
    if span.end > 0 {
        return true;
    }
    if lock_anchor(table, seat, gate) {
        return true;
    }
    unlock_nodes(table, seat, gate, &way[index..span.len]);
    false
}

/// Tries by one step to lock node `number`, and returns whether it did. The pass knows that the node is in the tree if it is live: it was
/// led there, or has locked the node that names it. If the lock is refused, the pass has the locks and records that it had. Another pass
/// was in the way then, if this one has no record, hasn't locked the node, and has made no change since its pin.
pub(crate) fn lock_node<G: Gate>(
    table: &HotTable,
    seat: &mut TableSeat,
    gate: &mut G,
    number: u32,
) -> bool
    requires own { IsSeatOf table.now seat.old }
    requires range { number < table.now.layout.nodes }
    requires may { MayLock table.now.layout (Target.Node number) seat.old.known }
    ensures tries { Tries table.now G.becomes (Target.Node number ∷ []) (seat.old, gate.old) (seat.new, gate.new) }
    ensures locked { result ≡ true → LocksOne number seat.old.known seat.new.known }
    ensures same { result ≡ false → KeepsLocksAndRecords seat.old.known seat.new.known }
    ensures refused { result ≡ false → HasNotLocked seat.old.known number → IsBlocked table.now.layout seat.old seat.new }
    ensures few { seat.new.known.steps ≤ seat.old.known.steps + 1 }
{
    let found = table.lock(seat, gate, Target::Node(number));
    found == pack_state(Tag::Live)
}

/// Tries by one step to lock the anchor, which this pass hasn't locked, and returns whether it did. If it didn't, another pass had the lock
/// at that step. The pass keeps its other locks and its records in any case.
pub(crate) fn lock_anchor<G: Gate>(table: &HotTable, seat: &mut TableSeat, gate: &mut G) -> bool
    requires own { IsSeatOf table.now seat.old }
    requires free { seat.old.known.anchor ≡ None }
    ensures tries { Tries table.now G.becomes (Target.Anchor ∷ []) (seat.old, gate.old) (seat.new, gate.new) }
    ensures locked { result ≡ true → LocksAnchor seat.old.known seat.new.known }
    ensures refused { result ≡ false → IsRefusedLock table.now.layout seat.old.known seat.new.known }
    ensures met { result ≡ false → HasMetOther table.now.layout (version_of seat.old.known.pin) seat.old seat.new }
    ensures few { seat.new.known.steps ≤ seat.old.known.steps + 1 }
{
    let found = table.lock(seat, gate, Target::Anchor);
    found == pack_state(Tag::Live)
}

/// Unlocks the nodes `steps`, the first one first, by a step for each. These are all nodes that the pass has locked; the anchor's lock and
/// the pass's records stay.
pub(crate) fn unlock_nodes<G: Gate>(
    table: &HotTable,
    seat: &mut TableSeat,
    gate: &mut G,
    steps: &[PathNode],
)
    requires own { IsSeatOf table.now seat.old }
    requires nodes { AreNodes table.now.layout steps.now }
    requires locked { HasJustLocked seat.old.known (numbers_of steps.now) }
    ensures works { Works table.now G.becomes (seat.old, gate.old) (seat.new, gate.new) }
    ensures free { seat.new.known.locks ≡ [] }
    ensures rest { KnowsSameButLocks seat.old.known seat.new.known }
    ensures few { seat.new.known.steps ≤ seat.old.known.steps + length steps.now }
{
    for index in 0..steps.len() {
        table.unlock(seat, gate, Target::Node(steps[index].number));
    }
}
