//! The values of a range, without their keys.

ghost use Rattle.hot_index_calls.specs.Answers.{range_from};
ghost use Rattle.hot_index_calls.specs.Calls.{IsValuesRead, IsValuesReadWith};
ghost use Rattle.hot_index_calls.specs.Passes.{Owns};

use crate::index::{Index, Pass};
use epochs::{pin, unpin};
use key_bits::Key;
use rowex_core::{Gate, NoGate};
use rowex_scanning::{Direction, Range, scan_values};
use std::alloc::AllocError;

impl Index {
    /// Lists the values of the first `limit` pairs whose keys are from `from` to `upto`, both included, into `values`, in key order. The
    /// earlier content of `values` is dropped. Returns whether the range has more.
    ///
    /// It is a `scan_into` that keeps no keys, with the same promise and bound on steps. `AllocError` if memory is refused for a value that
    /// was found: `values` then has the values before it, fewer than `limit`.
    pub fn scan_values_into(
        &self,
        pass: &mut Pass,
        from: &Key,
        upto: &Key,
        limit: usize,
        values: &mut Vec<u64>,
    ) -> Result<bool, AllocError>
        requires { Owns self.now pass.old }
        ensures { IsValuesRead (range_from from.now upto.now limit) values.new.items result self.now pass.old pass.new }
    {
        self.scan_values_into_with(pass, from, upto, limit, values, &mut NoGate)
    }

    /// Lists the values of the first `limit` pairs from `from` to `upto` into `values`, as `scan_values_into` does, and returns whether the
    /// range has more. `AllocError` if memory is refused for a value that was found: `values` then has the values before it, fewer than
    /// `limit`. Reports each of its steps to `gate`.
    pub fn scan_values_into_with<G: Gate>(
        &self,
        pass: &mut Pass,
        from: &Key,
        upto: &Key,
        limit: usize,
        values: &mut Vec<u64>,
        gate: &mut G,
    ) -> Result<bool, AllocError>
        requires { Owns self.now pass.old }
        ensures { IsValuesReadWith (range_from from.now upto.now limit) values.new.items result self.now G.becomes (pass.old, gate.old) (pass.new, gate.new) }
    {
        let range = Range {
            from,
            upto,
            direction: Direction::Upwards,
            limit,
        };
        pin(&self.table, &mut pass.seat, gate);
        let way = &mut pass.scratch.way;
        let scan = scan_values(&self.table, &mut pass.seat, gate, way, &range, values);
        unpin(&self.table, &mut pass.seat, gate);
        scan
    }
}
