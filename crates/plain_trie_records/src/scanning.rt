//! The scan of the records: the pairs of a range, in the order of their keys.

ghost use Rattle.std.specs.Prelude.{◌≡◌, ◌≢◌, [], ◌∷◌, ◌++◌, take, MatchResult};
ghost use Rattle.finite_map.specs.Maps.{Map};
ghost use Rattle.finite_map.specs.Scans.{IsScanOf, is_within, range_of};
ghost use Rattle.node_tries.specs.Piece.{Place as At};
ghost use Rattle.plain_trie_records.specs.Store.{ShowsSound};
ghost use Rattle.tries.specs.Content.{items, pairs};
ghost use Rattle.tries.specs.Tree.{Tree, subtrie};

use crate::leaf::LeafRecord;
use compound_node::{Entry, Node};
use finite_map::Scan;
use key_bits::Key;
use std::alloc::AllocError;

/// The range of a scan, and how many pairs it returns at most.
#[derive(Clone, Copy)]
pub struct ScanRange<'a> {
    /// The first key of the range.
    pub from: &'a Key,
    /// The last key of the range, itself included.
    pub upto: &'a Key,
    /// How many pairs are returned at most.
    pub limit: usize,
}

/// Goes on with `scan`, which has the pairs before those below `entry`: adds the pairs of `range` below `entry`, in the order of their
/// keys. If the limit is reached, it sets `more` instead of adding a further pair. All leaves below `entry` are read. `AllocError` if
/// memory is refused for a pair, so only if `scan` is to have one.
pub fn scan_below(
    nodes: &Vec<Node>,
    leaves: &Vec<LeafRecord>,
    entry: Entry,
    range: ScanRange,
    scan: &mut Scan,
) -> Result<(), AllocError>
    requires shown { (t : Tree) × (subtrie t ≡ At entry) × ShowsSound nodes.now.items leaves.now.items t }
    ensures scan { (t : Tree) (m : Map) → subtrie t ≡ At entry → ShowsSound nodes.now.items leaves.now.items t →
        IsScanOf m range.entry.from.now range.entry.upto.now range.entry.limit scan.old →
        MatchResult result (λ _. IsScanOf (m ++ pairs (items t)) range.entry.from.now range.entry.upto.now range.entry.limit scan.new)
        (λ _. take range.entry.limit (range_of (m ++ pairs (items t)) range.entry.from.now range.entry.upto.now) ≢ []) }
{
    match entry {
        Entry::Leaf(number) => scan_leaf(&leaves[number as usize], range, scan),
        Entry::Node { number, .. } => {
            let node = &nodes[number as usize];
            for slot in 0..node.count() {
                scan_below(nodes, leaves, node.entry(slot), range, scan)?;
            }
            Ok(())
        }
    }
}

/// Goes on with `scan`, which has the pairs before `leaf`: adds the leaf's pair if its key is in `range`. If the limit is reached, it sets
/// `more` instead. `AllocError` if memory is refused for the pair.
fn scan_leaf(leaf: &LeafRecord, range: ScanRange, scan: &mut Scan) -> Result<(), AllocError>
    ensures scan { (m : Map) → IsScanOf m range.entry.from.now range.entry.upto.now range.entry.limit scan.old →
        MatchResult result (λ _. IsScanOf (m ++ (leaf.now.key, leaf.now.value) ∷ []) range.entry.from.now range.entry.upto.now range.entry.limit scan.new)
        (λ _. take range.entry.limit (range_of (m ++ (leaf.now.key, leaf.now.value) ∷ []) range.entry.from.now range.entry.upto.now) ≢ []) }
{
    let inside = is_in_range(range, &leaf.key);
    if !inside {
        return Ok(());
    }
    if scan.pairs.len() == range.limit {
        scan.more = true;
        return Ok(());
    }
    scan.pairs.push((leaf.key.copy(), leaf.value))?;
    Ok(())
}

/// Returns whether `key` is in `range`, both ends included.
fn is_in_range(range: ScanRange, key: &Key) -> bool
    ensures { result ≡ is_within range.entry.from.now range.entry.upto.now key.now }
{
    *range.from <= *key && !(*range.upto < *key)
}
