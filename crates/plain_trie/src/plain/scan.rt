//! The scan of a sequential trie: the keys of a range with their values, in order.

ghost use Rattle.std.specs.Prelude.{◌≢◌, [], take, IfOk, OnErr};
ghost use Rattle.finite_map.specs.Scans.{IsScanOf, range_of};
ghost use Rattle.plain_trie.specs.Views.{trie_map};

use super::PlainTrie;
use finite_map::Scan;
use key_bits::Key;
use plain_trie_records::{ScanRange, scan_below};
use std::alloc::{AllocError, Global};

impl PlainTrie {
    /// Returns the keys from `from` to `upto`, both included, with their values: the first `limit` of them, in the order of the keys.
    /// `more` says whether there are others. It goes through all leaves from the first one on, and its calls nest as deep as the trie is
    /// high.
    ///
    /// `AllocError` if memory is refused, which is needed only for a pair to return.
    pub fn scan(
        &self,
        alloc: Global,
        from: &Key,
        upto: &Key,
        limit: usize,
    ) -> Result<Scan, AllocError>
        ensures scan { IfOk result (IsScanOf (trie_map self.now) from.now upto.now limit) }
        ensures memory { OnErr result (take limit (range_of (trie_map self.now) from.now upto.now) ≢ []) }
    {
        let mut scan = Scan {
            pairs: Vec::new(alloc),
            more: false,
        };
        let Some(top) = self.top else {
            return Ok(scan);
        };
        let range = ScanRange { from, upto, limit };
        scan_below(&self.nodes, &self.leaves, top, range, &mut scan)?;
        Ok(scan)
    }
}
