//! Scans, of a range of keys in either direction.

ghost use Rattle.version_laws.specs.Directions.{IsLawfulBy};
ghost use Rattle.rowex_scanning.specs.Scanning.{asked_range};
ghost use Rattle.hot_index_calls.specs.Answers.{IsFoundBy, range_from};
ghost use Rattle.hot_index_calls.specs.Calls.{IsListRead, IsListReadBy, IsListReadWith, IsRangeRead, IsScanRead, IsScanReadBy, IsScanReadWith};
ghost use Rattle.hot_index_calls.specs.Passes.{Owns};
ghost use Rattle.hot_index_calls.specs.Traces.{untold};

use crate::index::{Index, Pass};
use epochs::{pin, unpin};
use finite_map::Scan;
use key_bits::Key;
use packed_pairs::Pairs;
use rowex_core::{Gate, NoGate};
use rowex_scanning::{Direction, Range, scan_root};
use std::alloc::{AllocError, Global};

impl Index {
    /// Lists the first `limit` pairs whose keys are from `from` to `upto`, both included, in key order. Returns them, and whether the range
    /// has more.
    ///
    /// It takes no lock and never blocks. It makes at most 101 atomic steps, 8 for each pair of the limit, and 26 for each entry of a node
    /// that it loads. It loads at most 6,481 entries, and two for each pair of the limit. That is at most 168,607 steps, and 60 for each
    /// pair of the limit, whatever others insert meanwhile. Beside these steps it touches at most eleven words for each loaded entry.
    ///
    /// It is no snapshot. Each pair was in the index at some moment of the call. No key of the range that was there all along is missing.
    /// If the range has more, this is said only of keys up to the last one listed.
    ///
    /// `AllocError` if memory is refused; only pairs found need memory.
    pub fn scan(
        &self,
        alloc: Global,
        pass: &mut Pass,
        from: &Key,
        upto: &Key,
        limit: usize,
    ) -> Result<Scan, AllocError>
        requires { Owns self.now pass.old }
        ensures { IsScanRead (range_from from.now upto.now limit) result self.now pass.old pass.new }
    {
        self.scan_with(alloc, pass, from, upto, limit, &mut NoGate)
    }

    /// Returns the first `limit` pairs from `from` to `upto`, and whether the range has more, as `scan` does. Reports each of its steps to
    /// `gate`.
    pub fn scan_with<G: Gate>(
        &self,
        alloc: Global,
        pass: &mut Pass,
        from: &Key,
        upto: &Key,
        limit: usize,
        gate: &mut G,
    ) -> Result<Scan, AllocError>
        requires { Owns self.now pass.old }
        ensures { IsScanReadWith (range_from from.now upto.now limit) result self.now G.becomes (pass.old, gate.old) (pass.new, gate.new) }
    {
        let range = Range {
            from,
            upto,
            direction: Direction::Upwards,
            limit,
        };
        self.scan_range(alloc, pass, &range, gate)
    }

    /// Lists the first `limit` pairs with keys from `from` to `upto` into `pairs`, as `scan` lists them. The earlier pairs of `pairs` are
    /// dropped. Returns whether the range has more. The promise and the bound on steps are those of `scan`.
    ///
    /// A list that is used again keeps its memory, and a key takes no more bytes of the list than it has. So this is the form for frequent
    /// scans.
    ///
    /// `AllocError` if memory is refused for a pair that was found. `pairs` then holds the first pairs, fewer than `limit`, and the range
    /// has more. A scan with the number of these pairs as its limit lists the same.
    pub fn scan_into(
        &self,
        pass: &mut Pass,
        from: &Key,
        upto: &Key,
        limit: usize,
        pairs: &mut Pairs,
    ) -> Result<bool, AllocError>
        requires { Owns self.now pass.old }
        ensures { IsListRead (range_from from.now upto.now limit) pairs.new result self.now pass.old pass.new }
    {
        self.scan_into_with(pass, from, upto, limit, pairs, &mut NoGate)
    }

    /// Lists the first `limit` pairs from `from` to `upto` into `pairs`, as `scan_into` does, and returns whether the range has more.
    /// `AllocError` if memory is refused for a pair that was found: `pairs` then holds the pairs before it, fewer than `limit`. Reports
    /// each of its steps to `gate`.
    pub fn scan_into_with<G: Gate>(
        &self,
        pass: &mut Pass,
        from: &Key,
        upto: &Key,
        limit: usize,
        pairs: &mut Pairs,
        gate: &mut G,
    ) -> Result<bool, AllocError>
        requires { Owns self.now pass.old }
        ensures { IsListReadWith (range_from from.now upto.now limit) pairs.new result self.now G.becomes (pass.old, gate.old) (pass.new, gate.new) }
    {
        let range = Range {
            from,
            upto,
            direction: Direction::Upwards,
            limit,
        };
        self.list_range(pass, &range, pairs, gate)
    }

    /// Lists the first pairs of `range` in its direction, at most as many as its limit, into `pairs`, whose earlier pairs are dropped.
    /// Returns whether the range has more in that direction. `AllocError` if memory is refused for a pair that was found: `pairs` then
    /// holds a part, as `scan_into` says.
    ///
    /// It is a `scan_into` or a `scan_reverse_into`, by the direction. A caller that needs both directions calls this form, so that the
    /// code of the walk is compiled in once for both.
    pub fn range_into(
        &self,
        pass: &mut Pass,
        range: &Range,
        pairs: &mut Pairs,
    ) -> Result<bool, AllocError>
        requires { Owns self.now pass.old }
        ensures { IsListReadBy (IsLawfulBy range.now.direction) (asked_range range.now) pairs.new result self.now untold (pass.old, tt) (pass.new, tt) }
    {
        self.list_range(pass, range, pairs, &mut NoGate)
    }

    /// Lists the first pairs of `range` in its direction, at most as many as its limit, into `pairs`, whose earlier pairs are dropped.
    /// `gate` is told each step. The steps are no more than `scan` may make. Returns whether the range has more in that direction.
    /// `AllocError` if memory is refused for a pair that was found: `pairs` then holds a part, as `scan_into` says. Inline, so that each
    /// direction has code of its own.
    #[inline(always)]
    pub(crate) fn list_range<G: Gate>(
        &self,
        pass: &mut Pass,
        range: &Range,
        pairs: &mut Pairs,
        gate: &mut G,
    ) -> Result<bool, AllocError>
        requires { Owns self.now pass.old }
        ensures { IsListReadBy (IsLawfulBy range.now.direction) (asked_range range.now) pairs.new result self.now G.becomes (pass.old, gate.old) (pass.new, gate.new) }
    {
        pin(&self.table, &mut pass.seat, gate);
        let scan = scan_root(
            &self.table,
            &mut pass.seat,
            gate,
            &mut pass.scratch.way,
            range,
            pairs,
        );
        unpin(&self.table, &mut pass.seat, gate);
        scan
    }

    /// Returns the first pairs of `range` in its direction, at most as many as its limit, and whether the range has more. `AllocError` if
    /// memory is refused for a pair that was found. `gate` is told each step. Inline, as `list_range` is.
    #[inline(always)]
    pub(crate) fn scan_range<G: Gate>(
        &self,
        alloc: Global,
        pass: &mut Pass,
        range: &Range,
        gate: &mut G,
    ) -> Result<Scan, AllocError>
        requires { Owns self.now pass.old }
        ensures { IsScanReadBy (IsLawfulBy range.now.direction) (asked_range range.now) result self.now G.becomes (pass.old, gate.old) (pass.new, gate.new) }
    {
        let mut list = Pairs::new(alloc);
        let more = self.list_range(pass, range, &mut list, gate)?;
        let pairs = list.to_vec(alloc)?;
        Ok(Scan { pairs, more })
    }

    /// Returns the pair that comes first in `direction`, of those with keys from `from` to `upto`; `None` if no pair was found.
    /// `AllocError` if memory is refused for a pair that was found. Inline, as `list_range` is.
    #[inline(always)]
    pub(crate) fn find_first_pair(
        &self,
        alloc: Global,
        pass: &mut Pass,
        direction: Direction,
        from: &Key,
        upto: &Key,
    ) -> Result<Option<(Key, u64)>, AllocError>
        requires { Owns self.now pass.old }
        ensures { IsRangeRead (λ layout k j. IsFoundBy (IsLawfulBy direction) layout k j from.now upto.now) (range_from from.now upto.now 1) result
            self.now pass.old pass.new }
    {
        let range = Range {
            from,
            upto,
            direction,
            limit: 1,
        };
        let mut list = Pairs::new(alloc);
        self.list_range(pass, &range, &mut list, &mut NoGate)?;
        let mut pairs = list.to_vec(alloc)?;
        Ok(pairs.pop())
    }
}
