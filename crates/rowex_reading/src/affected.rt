//! The entries of a node that a position affects, by a look at the node's head.

ghost use Rattle.std.specs.Prelude.{◌≡◌, ◌+◌, ◌≤◌, ℕ};
ghost use Rattle.node_tries.specs.Growth.{affected_count, affected_first};
ghost use Rattle.record_words.specs.declared.TheConstants.{HEAD_WORDS};
ghost use Rattle.version_laws.specs.Scan.{HadShapeSince};
ghost use Rattle.rowex_reading.specs.Reads.{IsReader, Reads};
ghost use Rattle.rowex_reading.specs.Seen.{HasPlace, Sure};
ghost use Rattle.tries.specs.Tree.{Subtrie};

use crate::reading::load_head_words;
use insert_cases::PathNode;
use record_words::affected_slots;
use rowex_core::Gate;
use rowex_table::{HotTable, TableSeat};

/// Returns the slots of the first and the last entry of the node `step.number` that a new fork at `position` affects. The entry in
/// `step.slot`, a slot that the node has, is one of these. They are affected by the forks that the node had in some version since the pass
/// was led there. It loads the words of the node's head that its kind uses, 25 at most, and `gate` is told of each load.
#[inline(always)]
pub fn find_affected<G: Gate>(
    table: &HotTable,
    seat: &mut TableSeat,
    gate: &mut G,
    step: PathNode,
    position: u16,
) -> (u8, u8)
    requires reader { IsReader table.now seat.old }
    requires place { (m h : ℕ) × HasPlace seat.old.known m step.number h step.slot }
    ensures reads { (n : ℕ) × (n ≤ HEAD_WORDS) × Reads table.now G.becomes 0 n (seat.old, gate.old) (seat.new, gate.new) }
    ensures affected { (m h : ℕ) → HasPlace seat.old.known m step.number h step.slot →
        (forks : Subtrie) × Sure seat.new.known (λ s. HadShapeSince s m step.number forks) ×
        (affected_first position step.slot forks ≡ result.0) × (affected_count position step.slot forks + result.0 ≡ result.1 + 1) }
{
    let words = load_head_words(table, seat, gate, step.number);
    affected_slots(&words, step.slot, position)
}
