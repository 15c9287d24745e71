//! The end of a change: what it has unlinked is marked, and what it keeps is unlocked.

ghost use Rattle.std.specs.Prelude.{◌≡◌, ◌<◌, [], ◌≤◌, ◌+◌, length};
ghost use Rattle.record_words.specs.declared.TheConstants.{EPOCHS};
ghost use Rattle.rowex_records.specs.Records.{HoldsJust};
ghost use Rattle.publish_laws.specs.Ending.{IsAtRest};
ghost use Rattle.rowex_table.specs.Seats.{IsSeatOf};
ghost use Rattle.rowex_writing.specs.locks.Jobs.{HoldsSpan};
ghost use Rattle.rowex_writing.specs.locks.Locks.{AreNodes, HasJustLocked, Works, locks_of, numbers_of};
ghost use Rattle.rowex_writing.specs.store.Retiring.{HasJustPublished, HasToMark, KeepsLocks, is_root as is_the_root};
ghost use Rattle.rowex_writing.specs.build.Putting.{AreInTable, IsAnchored};

use crate::locks::unlock_nodes;
use crate::plan::job::Job;
use crate::store::{Store, is_root};
use insert_cases::PathNode;
use rowex_core::{Gate, Rec, Target};
use rowex_records::give_up_records;
use rowex_table::{HotTable, TableSeat};

/// Loads the epoch, straight after the publish of `store`, and marks with it the records `gone`, which that store has unlinked. Then it
/// unlocks the nodes `store.kept`, the first one first, and the anchor, if the root was stored. The pass has no record and no lock then,
/// and has seen no further change. Each record and node takes one step, and so do the epoch and the anchor.
#[inline(always)]
pub(crate) fn retire_and_unlock<G: Gate>(
    table: &HotTable,
    seat: &mut TableSeat,
    gate: &mut G,
    gone: &[Rec],
    store: &Store<'_>,
)
    requires own { IsSeatOf table.now seat.old }
    requires records { AreInTable table.now.layout gone.now }
    requires nodes { AreNodes table.now.layout store.now.kept.now }
    requires published { HasJustPublished seat.old.known gone.now (numbers_of store.now.kept.now) }
    requires anchored { IsAnchored (is_the_root store.now.spot) seat.old.known }
    ensures works { Works table.now G.becomes (seat.old, gate.old) (seat.new, gate.new) }
    ensures rest { IsAtRest seat.new.known }
    ensures front { seat.new.known.front ≡ seat.old.known.front }
    ensures few { seat.new.known.steps ≤ seat.old.known.steps + length gone.now + length store.now.kept.now + 2 }
{
    let epoch = table.load_epoch(seat, gate);
    mark_records(table, seat, gate, gone, epoch);
    unlock_nodes(table, seat, gate, store.kept);
    let anchor = is_root(store.spot);
    if anchor {
        table.unlock(seat, gate, Target::Anchor);
    }
}

/// Unlocks the nodes `kept`, the first one first, and the anchor, if `anchor` says that it is locked. These are all that the pass has
/// locked, and it has no record: it is at rest then. It has seen no further change.
pub(crate) fn unlock_kept<G: Gate>(
    table: &HotTable,
    seat: &mut TableSeat,
    gate: &mut G,
    kept: &[PathNode],
    anchor: bool,
)
    requires own { IsSeatOf table.now seat.old }
    requires none { seat.old.known.own ≡ [] }
    requires nodes { AreNodes table.now.layout kept.now }
    requires locked { HasJustLocked seat.old.known (numbers_of kept.now) }
    requires anchored { IsAnchored anchor seat.old.known }
    ensures works { Works table.now G.becomes (seat.old, gate.old) (seat.new, gate.new) }
    ensures rest { IsAtRest seat.new.known }
    ensures front { seat.new.known.front ≡ seat.old.known.front }
    ensures few { seat.new.known.steps ≤ seat.old.known.steps + length kept.now + 1 }
{
    unlock_nodes(table, seat, gate, kept);
    if anchor {
        table.unlock(seat, gate, Target::Anchor);
    }
}

/// Takes back a change that was not published: gives up the records `held`, which are all that the pass has. Then it unlocks the nodes of
/// the span of `job` and the one above them. If the span goes up to the root, it unlocks the anchor in place of that node. These are all
/// that the pass has locked. Each record and each lock takes one step.
pub(crate) fn release_records_and_locks<G: Gate>(
    table: &HotTable,
    seat: &mut TableSeat,
    gate: &mut G,
    held: &[Rec],
    job: &Job<'_>,
)
    requires span { HoldsSpan table.now seat.old job.now }
    requires records { AreInTable table.now.layout held.now }
    requires held { HoldsJust seat.old.known held.now }
    ensures works { Works table.now G.becomes (seat.old, gate.old) (seat.new, gate.new) }
    ensures rest { IsAtRest seat.new.known }
    ensures few { seat.new.known.steps ≤ seat.old.known.steps + length held.now + locks_of job.now.span }
{
    give_up_records(table, seat, gate, held);
    let locked = &job.way[job.span.first_locked()..job.span.len];
    unlock_nodes(table, seat, gate, locked);
    if job.span.end == 0 {
        table.unlock(seat, gate, Target::Anchor);
    }
}

/// Marks the records `recs`, all that the pass has unlinked, with `epoch`, which the pass has just loaded, by one step each. The pass has
/// no record then. Its locks, and the changes that it has seen, stay.
#[inline(always)]
fn mark_records<G: Gate>(
    table: &HotTable,
    seat: &mut TableSeat,
    gate: &mut G,
    recs: &[Rec],
    epoch: u64,
)
    requires own { IsSeatOf table.now seat.old }
    requires records { AreInTable table.now.layout recs.now }
    requires epoch { epoch < EPOCHS }
    requires due { HasToMark seat.old.known epoch recs.now }
    ensures works { Works table.now G.becomes (seat.old, gate.old) (seat.new, gate.new) }
    ensures marked { seat.new.known.own ≡ [] }
    ensures same { KeepsLocks seat.old.known seat.new.known }
    ensures few { seat.new.known.steps ≤ seat.old.known.steps + length recs.now }
{
    for index in 0..recs.len() {
        table.mark(seat, gate, recs[index], epoch);
    }
}
