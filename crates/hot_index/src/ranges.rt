//! Scans of the keys that begin with a prefix, and the first pair from a key on.

ghost use Rattle.std.specs.Prelude.{[]};
ghost use Rattle.hot_index_calls.specs.Answers.{range_from};
ghost use Rattle.hot_index_calls.specs.Calls.{IsListRead, IsRangeRead};
ghost use Rattle.hot_index_calls.specs.Passes.{Owns};
ghost use Rattle.hot_index.specs.Ranges.{IsFirstFound};
ghost use Rattle.key_ranges.specs.Ranges.{last_with};

use crate::index::{Index, Pass};
use key_bits::{Key, MAX_BYTES};
use key_ranges::last_with_prefix;
use packed_pairs::Pairs;
use rowex_scanning::Direction;
use std::alloc::{AllocError, Global};

impl Index {
    /// Lists the first `limit` pairs whose keys begin with `prefix` into `pairs`, whose earlier pairs are dropped, in key order. Returns
    /// whether there are more. `AllocError` if memory is refused for a pair that was found: `pairs` then holds the first of these pairs,
    /// fewer than `limit`.
    ///
    /// It is a `scan_into` from the prefix to the last key that begins with it, with the same promise and bound on steps. That range has
    /// exactly the keys with the prefix (`key_ranges::laws::prefix_is_a_range`).
    pub fn prefix_into(
        &self,
        pass: &mut Pass,
        prefix: &Key,
        limit: usize,
        pairs: &mut Pairs,
    ) -> Result<bool, AllocError>
        requires { Owns self.now pass.old }
        ensures { IsListRead (range_from prefix.now (last_with prefix.now) limit) pairs.new result self.now pass.old pass.new }
    {
        self.scan_into(pass, prefix, &last_with_prefix(prefix), limit, pairs)
    }

    /// Returns the first pair whose key is `from` or above; `None` if none was found. If `from` is the empty key, it is the first pair of
    /// the index.
    ///
    /// It is a scan for one pair, with a scan's promise and bound on steps. The pair was there at some moment of the call. No key from
    /// `from` on and below the pair's was there all along. If the result is `None`, no key from `from` on was. `AllocError` if memory is
    /// refused; only a pair found needs memory.
    pub fn first(
        &self,
        alloc: Global,
        pass: &mut Pass,
        from: &Key,
    ) -> Result<Option<(Key, u64)>, AllocError>
        requires { Owns self.now pass.old }
        ensures { IsRangeRead (λ layout k j. IsFirstFound layout k j from.now) (range_from from.now (last_with []) 1) result self.now pass.old pass.new }
    {
        let last = last_with_prefix(&Key::from_padded([0; MAX_BYTES], 0));
        self.find_first_pair(alloc, pass, Direction::Upwards, from, &last)
    }
}
