//! The number of the keys of a range.

ghost use Rattle.std.specs.Prelude.{◌-◌, ◌^◌};
ghost use Rattle.hot_index_calls.specs.Answers.{range_from};
ghost use Rattle.hot_index_calls.specs.Calls.{IsCountRead, IsCountReadWith};
ghost use Rattle.hot_index_calls.specs.Passes.{Owns};

use crate::index::{Index, Pass};
use epochs::{pin, unpin};
use key_bits::Key;
use rowex_core::{Gate, NoGate};
use rowex_scanning::{Direction, Range, count_root};

/// How many keys a count counts at most. A list can have no more pairs, and a count is that of a list.
const MOST_COUNTED: usize = (1 << 63) - 1;

impl Index {
    /// Returns how many keys there are from `from` to `upto`, both included; at most 2^63 - 1.
    ///
    /// It takes no lock and never blocks, and it needs no memory. It reads the entries of nodes, and few of the leaves. Entries are in key
    /// order, so a leaf that belongs to the range shows the same of the entries before it in its node. It makes at most 169,567 steps, and
    /// 60 for each key that it counts.
    ///
    /// It is no snapshot. The number is that of the pairs of a list that a `scan` could give instead. So each key that was there all along
    /// is counted, and each that is counted was there at some moment of the call.
    pub fn count_range(&self, pass: &mut Pass, from: &Key, upto: &Key) -> usize
        requires { Owns self.now pass.old }
        ensures { IsCountRead (range_from from.now upto.now (2 ^ 63 - 1)) result self.now pass.old pass.new }
    {
        self.count_range_with(pass, from, upto, &mut NoGate)
    }

    /// Returns how many keys there are from `from` to `upto`, both included, as `count_range` does. Reports each of its steps to `gate`.
    pub fn count_range_with<G: Gate>(
        &self,
        pass: &mut Pass,
        from: &Key,
        upto: &Key,
        gate: &mut G,
    ) -> usize
        requires { Owns self.now pass.old }
        ensures { IsCountReadWith (range_from from.now upto.now (2 ^ 63 - 1)) result self.now G.becomes (pass.old, gate.old) (pass.new, gate.new) }
    {
        let range = Range {
            from,
            upto,
            direction: Direction::Upwards,
            limit: MOST_COUNTED,
        };
        pin(&self.table, &mut pass.seat, gate);
        let way = &mut pass.scratch.way;
        let (count, _) = count_root(&self.table, &mut pass.seat, gate, way, &range);
        unpin(&self.table, &mut pass.seat, gate);
        count
    }
}
