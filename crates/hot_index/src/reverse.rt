//! Scans from the end of a range downwards, and the last pair up to a key.

ghost use Rattle.std.specs.Prelude.{[]};
ghost use Rattle.finite_map.specs.Reverse.{IsLawfulReverseScan};
ghost use Rattle.hot_index_calls.specs.Answers.{range_from};
ghost use Rattle.hot_index_calls.specs.Calls.{IsListReadBy, IsRangeRead, IsScanReadBy};
ghost use Rattle.hot_index_calls.specs.Passes.{Owns};
ghost use Rattle.hot_index_calls.specs.Reverse.{IsLastFound};
ghost use Rattle.hot_index_calls.specs.Traces.{untold};

use crate::index::{Index, Pass};
use finite_map::Scan;
use key_bits::{Key, MAX_BYTES};
use packed_pairs::Pairs;
use rowex_core::{Gate, NoGate};
use rowex_scanning::{Direction, Range};
use std::alloc::{AllocError, Global};

impl Index {
    /// Lists the last `limit` pairs whose keys are from `from` to `upto`, both included, in falling key order. Returns them, and whether
    /// the range has more below.
    ///
    /// It is `scan` in the other direction: it takes no lock, never blocks, and makes no more steps than `scan` may.
    ///
    /// It is no snapshot. Each pair was in the index at some moment of the call. No key of the range that was there all along is missing.
    /// If the range has more, this is said only of keys down to the last one listed. To go on, scan up to the `previous_key` of the last
    /// pair's key.
    ///
    /// `AllocError` if memory is refused; only pairs found need memory.
    pub fn scan_reverse(
        &self,
        alloc: Global,
        pass: &mut Pass,
        from: &Key,
        upto: &Key,
        limit: usize,
    ) -> Result<Scan, AllocError>
        requires { Owns self.now pass.old }
        ensures { IsScanReadBy IsLawfulReverseScan (range_from from.now upto.now limit) result self.now untold (pass.old, tt) (pass.new, tt) }
    {
        let range = Range {
            from,
            upto,
            direction: Direction::Downwards,
            limit,
        };
        self.scan_range(alloc, pass, &range, &mut NoGate)
    }

    /// Lists the last `limit` pairs with keys from `from` to `upto` into `pairs`, as `scan_reverse` lists them. The earlier pairs of
    /// `pairs` are dropped. The pair with the greatest key comes first. Returns whether the range has more below. The promise and the bound
    /// on steps are those of `scan_reverse`.
    ///
    /// `AllocError` if memory is refused for a pair that was found. `pairs` then holds the first of these pairs, fewer than `limit`, and
    /// the range has more below. A scan with the number of these pairs as its limit lists the same.
    pub fn scan_reverse_into(
        &self,
        pass: &mut Pass,
        from: &Key,
        upto: &Key,
        limit: usize,
        pairs: &mut Pairs,
    ) -> Result<bool, AllocError>
        requires { Owns self.now pass.old }
        ensures { IsListReadBy IsLawfulReverseScan (range_from from.now upto.now limit) pairs.new result self.now untold (pass.old, tt) (pass.new, tt) }
    {
        self.scan_reverse_into_with(pass, from, upto, limit, pairs, &mut NoGate)
    }

    /// Returns the last pair whose key is `upto` or below; `None` if none was found. If `upto` is the greatest key that there can be
    /// (`last_with_prefix` of the empty key), it is the last pair of the index.
    ///
    /// It is a scan downwards for one pair, with its promise and bound on steps. The pair was there at some moment of the call. No key up
    /// to `upto` and above the pair's was there all along. If the result is `None`, no key up to `upto` was. `AllocError` if memory is
    /// refused; only a pair found needs memory.
    pub fn last(
        &self,
        alloc: Global,
        pass: &mut Pass,
        upto: &Key,
    ) -> Result<Option<(Key, u64)>, AllocError>
        requires { Owns self.now pass.old }
        ensures { IsRangeRead (λ layout k j. IsLastFound layout k j upto.now) (range_from [] upto.now 1) result self.now pass.old pass.new }
    {
        let empty = Key::from_padded([0; MAX_BYTES], 0);
        self.find_first_pair(alloc, pass, Direction::Downwards, &empty, upto)
    }

    /// Lists the last `limit` pairs from `from` to `upto` into `pairs`, downwards, as `scan_reverse_into` does, and returns whether the
    /// range has more below. `AllocError` if memory is refused for a pair that was found: `pairs` then holds the pairs before it, fewer
    /// than `limit`. Reports each of its steps to `gate`.
    pub fn scan_reverse_into_with<G: Gate>(
        &self,
        pass: &mut Pass,
        from: &Key,
        upto: &Key,
        limit: usize,
        pairs: &mut Pairs,
        gate: &mut G,
    ) -> Result<bool, AllocError>
        requires { Owns self.now pass.old }
        ensures { IsListReadBy IsLawfulReverseScan (range_from from.now upto.now limit) pairs.new result self.now G.becomes (pass.old, gate.old) (pass.new, gate.new) }
    {
        let range = Range {
            from,
            upto,
            direction: Direction::Downwards,
            limit,
        };
        self.list_range(pass, &range, pairs, gate)
    }
}
