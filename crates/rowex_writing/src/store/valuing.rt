//! The value of a key that is held: it is loaded under the lock of what names the key's leaf, and a new one is stored to the leaf.

ghost use Rattle.std.specs.Prelude.{◌≡◌, ◌+◌, ◌≤◌, ℕ, true, false};
ghost use Rattle.publish_laws.specs.Ending.{IsAtRest};
ghost use Rattle.rowex_reading.specs.Possible.{IsPossible};
ghost use Rattle.rowex_reading.specs.Ways.{IsFoundAt};
ghost use Rattle.rowex_table.specs.Seats.{IsSeatOf};
ghost use Rattle.publish_laws.specs.Lone.{KeepsSpare};
ghost use Rattle.rowex_writing.specs.store.Values.{HasDoneDeed, HasLoadedFound, HasMoved, HoldsFound, revalued};
ghost use Rattle.rowex_writing.specs.locks.Checks.{HasTakenPlan};
ghost use Rattle.rowex_writing.specs.plan.Counts.{held_loads};
ghost use Rattle.rowex_writing.specs.locks.Going.{WorksOnKeepingRecords};
ghost use Rattle.rowex_writing.specs.locks.Jobs.{IsJobFrom};
ghost use Rattle.rowex_writing.specs.locks.Locks.{locks_of, HasRun};
ghost use Rattle.rowex_writing.specs.declared.plan.Deed.{Deed};
ghost use Rattle.rowex_writing.specs.declared.plan.Deed.TheVariants.{Value};

use crate::plan::job::Job;
use crate::store::ending::unlock_kept;
use rowex_core::{Gate, Rec, Spot};
use rowex_reading::Found;
use rowex_table::{HotTable, TableSeat};

/// Returns what the search of `job` found, with the value that the leaf has now, if the leaf has the key. The value is loaded under the
/// lock of what names the leaf. So it is the key's value after all changes that the pass has seen. No step is made if no leaf has the key.
/// The pass keeps its locks and records.
pub(crate) fn load_found_again<G: Gate>(
    table: &HotTable,
    seat: &mut TableSeat,
    gate: &mut G,
    job: &Job<'_>,
) -> Found
    requires taken { (deed : Deed) × HasTakenPlan table.now seat.old job.now deed }
    ensures reads { WorksOnKeepingRecords table.now G.becomes (seat.old, gate.old) (seat.new, gate.new) }
    ensures again { (value : ℕ) × (result ≡ revalued job.now.found value) }
    ensures loaded { HasLoadedFound seat.new.known result }
    ensures held { HoldsFound seat.new.known job.now.key.now result }
    ensures found { (m : ℕ) → IsJobFrom table.now.layout seat.old.known m job.now → IsFoundAt seat.new.known m job.now.key.now result }
    ensures few { seat.new.known.steps ≤ seat.old.known.steps + held_loads job.now.found }
{
    let Found::Leaf {
        number,
        mismatch: None,
        ..
    } = job.found
    else {
        return job.found;
    };
    let value = table.load_value_at(seat, gate, table.locate(Rec::Leaf(number)));
    Found::Leaf {
        number,
        value,
        mismatch: None,
    }
}

/// Returns whether the leaf that the search of `job` found still has the value in `job.found`, by one load. `false` means that another pass
/// has changed the value since. `true`, without a step, if no leaf has the key.
pub(crate) fn is_unchanged<G: Gate>(
    table: &HotTable,
    seat: &mut TableSeat,
    gate: &mut G,
    job: &Job<'_>,
) -> bool
    requires own { IsSeatOf table.now seat.old }
    requires possible { IsPossible table.now.layout seat.old.known }
    requires from { (m : ℕ) × IsJobFrom table.now.layout seat.old.known m job.now }
    ensures reads { WorksOnKeepingRecords table.now G.becomes (seat.old, gate.old) (seat.new, gate.new) }
    ensures same { result ≡ true → HasLoadedFound seat.new.known job.now.found }
    ensures moved { result ≡ false → HasMoved table.now.layout job.now seat.old.known seat.new.known }
    ensures few { seat.new.known.steps ≤ seat.old.known.steps + held_loads job.now.found }
{
    match job.found {
        Found::Leaf {
            number,
            value,
            mismatch: None,
        } => table.load_value_at(seat, gate, table.locate(Rec::Leaf(number))) == value,
        _ => true,
    }
}

/// Stores the value of `job` to the leaf that has the key, and unlocks all that is locked. That store is the change. No record is claimed,
/// and none is unlinked, so the epoch isn't loaded. At most one step is made for each lock, and two more. In a table with one pass, if a
/// node record was outside the tree, one is at the end, too.
pub(crate) fn store_value<G: Gate>(
    table: &HotTable,
    seat: &mut TableSeat,
    gate: &mut G,
    job: &Job<'_>,
)
    requires taken { HasTakenPlan table.now seat.old job.now Value }
    requires loaded { HasLoadedFound seat.old.known job.now.found }
    ensures run { HasRun table.now G.becomes (seat.old, gate.old) (seat.new, gate.new) }
    ensures rest { IsAtRest seat.new.known }
    ensures done { HasDoneDeed seat.old.known seat.new.known Value job.now.key.now job.now.value job.now.found }
    ensures few { seat.new.known.steps ≤ seat.old.known.steps + 2 + locks_of job.now.span }
    ensures spares { KeepsSpare table.now.layout seat.old seat.new }
{
    let Found::Leaf { number, .. } = job.found else {
        unreachable!()
    };
    table.publish(seat, gate, Spot::Value { leaf: number }, job.value);
    let kept = &job.way[job.span.first_locked()..job.span.len];
    unlock_kept(table, seat, gate, kept, job.span.end == 0);
}
