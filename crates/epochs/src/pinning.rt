//! Pins: while a pass is pinned, no record that it may find is given back.

ghost use Rattle.std.specs.Prelude.{◌≡◌, List, None, IsSome};
ghost use Rattle.finite_map.specs.declared.Note.{Note};
ghost use Rattle.rowex_core.specs.declared.event.Act.TheVariants.{ClearPin};
ghost use Rattle.rowex_core.specs.declared.known.Known.{Known};
ghost use Rattle.rowex_table.specs.Runs.{StepsWith};
ghost use Rattle.rowex_table.specs.Seats.{IsPassOf, IsSeatOf};
ghost use Rattle.epochs.specs.Runs.{Pins};

use rowex_core::Gate;
use rowex_table::{HotTable, TableSeat};

/// Loads the epoch and stores it as the pass's pin, which is clear before. No record that is linked at this store or later is given back
/// until `unpin`, so the pass may read what it then finds.
pub fn pin<G: Gate>(table: &HotTable, seat: &mut TableSeat, gate: &mut G)
    requires own { IsSeatOf table.now seat.old }
    requires free { seat.old.known.pin ≡ None }
    ensures fits { IsPassOf table.now seat.new }
    ensures pinned { IsSome seat.new.known.pin }
    ensures steps { Pins table.now G.becomes (seat.old, gate.old) (seat.new, gate.new) }
{
    let epoch = table.load_epoch(seat, gate);
    table.set_pin(seat, gate, epoch);
}

/// Clears the pin, which is set: what the pass has found may be given back from now on. A call ends with this step, which appends its
/// notes, `said`.
pub fn unpin<G: Gate>(table: &HotTable, seat: &mut TableSeat, gate: &mut G)
    ghost said: { Known → List Note }
    requires fits { IsPassOf table.now seat.old }
    requires pinned { IsSome seat.old.known.pin }
    ensures free { seat.new.known.pin ≡ None }
    ensures step { StepsWith table.now G.becomes ClearPin said (seat.old, gate.old) (seat.new, gate.new) }
{
    table.clear_pin(seat, gate);
}
