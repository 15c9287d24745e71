//! The ends of gets, with which their notes come.

ghost use Rattle.std.specs.Prelude.{IsSome, List};
ghost use Rattle.finite_map.specs.declared.Note.{Note};
ghost use Rattle.rowex_core.specs.declared.event.Act.TheVariants.{ClearPin};
ghost use Rattle.rowex_core.specs.declared.known.Known.{Known};
ghost use Rattle.rowex_table.specs.Runs.{StepsWith};
ghost use Rattle.rowex_table.specs.Seats.{IsPassOf};

use epochs::unpin;
use key_bits::Key;
use rowex_core::Gate;
use rowex_table::{HotTable, TableSeat};

/// Clears the pin at the end of a get. The get's note, `said`, comes with this step. The caller's proof makes `said` of `_key` and
/// `_found`, which the code doesn't read.
pub fn end_get<G: Gate>(
    table: &HotTable,
    seat: &mut TableSeat,
    gate: &mut G,
    _key: &Key,
    _found: Option<u64>,
)
    ghost said: { Known → List Note }
    requires fits { IsPassOf table.now seat.old }
    requires pinned { IsSome seat.old.known.pin }
    ensures step { StepsWith table.now G.becomes ClearPin said (seat.old, gate.old) (seat.new, gate.new) }
{
    unpin(table, seat, gate);
}

/// Clears the pin at the end of gets of several keys. Their notes, `said`, come with this step. The caller's proof makes `said` of `_keys`
/// and `_found`, which the code doesn't read.
pub fn end_gets<G: Gate>(
    table: &HotTable,
    seat: &mut TableSeat,
    gate: &mut G,
    _keys: &[Key],
    _found: &[Option<u64>],
)
    ghost said: { Known → List Note }
    requires fits { IsPassOf table.now seat.old }
    requires pinned { IsSome seat.old.known.pin }
    ensures step { StepsWith table.now G.becomes ClearPin said (seat.old, gate.old) (seat.new, gate.new) }
{
    unpin(table, seat, gate);
}
