//! How many records an index needs for its keys.

ghost use Rattle.std.specs.Prelude.{ℕ, ◌≡◌, ◌<◌, ◌≤◌};
ghost use Rattle.key_bits.specs.declared.TheConstants.{MAX_BYTES};
ghost use Rattle.record_words.specs.declared.layout.Layout.{Layout};
ghost use Rattle.record_words.specs.Layout.{class_for, stock_of, stock_for, stock_for_any, spare_for, leaves_of, leaf_size, HasStock};
ghost use Rattle.record_words.specs.Leaf.{words_for};
ghost use Rattle.record_words.specs.Limits.{IsRecordCount};

use crate::layout::{LeafClass, Stock};
use crate::{
    FEW_KEYS, FEW_SPARE, KEY_OFFSET, KEYS_A_NODE, KEYS_A_SPARE, KEYS_A_SPARE_LEAF, LARGE_WORDS,
    LEAST_SPARE, MEDIUM_WORDS, MOST_SPARE, SHORT_WORDS, WIDE_WORDS, count_key_words,
};
use key_bits::MAX_BYTES;

impl LeafClass {
    /// Returns the smallest class with room for a key of `bytes` bytes. No key has more than 240; more count as 240.
    pub fn for_key(bytes: usize) -> LeafClass
        ensures { result ≡ class_for bytes }
    {
        let words = KEY_OFFSET as usize + count_key_words(bytes.min(MAX_BYTES) as u64);
        if words <= SHORT_WORDS {
            LeafClass::Short
        } else if words <= MEDIUM_WORDS {
            LeafClass::Medium
        } else if words <= LARGE_WORDS {
            LeafClass::Large
        } else if words <= WIDE_WORDS {
            LeafClass::Wide
        } else {
            LeafClass::Long
        }
    }
}

impl Stock {
    /// Returns a stock for up to `count` keys at once, of at most `longest` bytes each; more than 240 count as 240. All its leaf records
    /// are of the smallest class with room for such keys.
    ///
    /// It has one node record for 3 keys, and one leaf record for each key and one more for 3 keys. Of both kinds it has one record to
    /// spare for up to 32 keys. For more keys it has 10 to spare and one for 16 keys, but no more than 512. Sums stop at 4,294,967,295. So
    /// each index of 1 to 1,024 passes can be made with it where there is memory.
    ///
    /// For more than 32 keys the nodes are a measured number (`docs/SIZING.md`) and no bound. Keys may be such that each node has two
    /// entries, so that `count` of them take `count - 1` nodes. Up to 32 keys stand in one node. What is to spare is for the records that
    /// passes have replaced and can't use again yet. That is enough for one pass that changes the index. If several do, let `count` be 256
    /// for each at least, for eight at most: else they may have to wait.
    pub fn for_keys(count: u32, longest: usize) -> Stock
        ensures stock { result ≡ stock_for count longest }
        ensures nodes { IsRecordCount result.nodes }
        ensures leaves { IsRecordCount (leaves_of result) × (count ≤ leaves_of result) }
        ensures room { (layout : Layout) (leaf bytes : ℕ) → HasStock layout result → leaf < layout.leaves →
            bytes ≤ longest → bytes ≤ MAX_BYTES → words_for bytes ≤ leaf_size layout leaf }
    {
        let spare = count_spare(count);
        Stock::of_class(
            count / KEYS_A_NODE + spare,
            LeafClass::for_key(longest),
            count.saturating_add(count / KEYS_A_SPARE_LEAF + spare),
        )
    }

    /// Returns a stock that is always enough for up to `count` keys at once, of at most `longest` bytes each, in an index of `passes`
    /// passes. More than 240 bytes count as 240. All its leaf records are of the smallest class with room for such keys.
    ///
    /// A tree has fewer nodes than keys (`versions::laws::nodes_in_tree_are_fewer_than_keys`). So the stock has a node record and a leaf
    /// record for each key. For each pass it has the records that one change claims at most: a leaf record, 18 node records for each byte
    /// of a key, and one. Records that passes have replaced come back once no call can reach them; calls may wait for them. Sums stop at
    /// 4,294,967,295. For at least one pass there is at least one record of each kind.
    pub fn for_any_keys(count: u32, longest: usize, passes: u32) -> Stock
        ensures stock { result ≡ stock_for_any count longest passes }
        ensures size { 1 ≤ passes → IsRecordCount result.nodes × IsRecordCount (leaves_of result) }
        ensures room { (layout : Layout) (leaf bytes : ℕ) → HasStock layout result → leaf < layout.leaves →
            bytes ≤ longest → bytes ≤ MAX_BYTES → words_for bytes ≤ leaf_size layout leaf }
    {
        let claims = 18 * longest.min(MAX_BYTES) as u32 + 1;
        Stock::of_class(
            count.saturating_add(passes.saturating_mul(claims)),
            LeafClass::for_key(longest),
            count.saturating_add(passes),
        )
    }

    /// Returns a stock of `nodes` node records, and of `leaves` leaf records, all of the class `class`.
    pub fn of_class(nodes: u32, class: LeafClass, leaves: u32) -> Stock
        ensures { result ≡ stock_of nodes class leaves }
    {
        let mut stock = Stock {
            nodes,
            short: 0,
            medium: 0,
            large: 0,
            wide: 0,
            long: 0,
        };
        match class {
            LeafClass::Short => stock.short = leaves,
            LeafClass::Medium => stock.medium = leaves,
            LeafClass::Large => stock.large = leaves,
            LeafClass::Wide => stock.wide = leaves,
            LeafClass::Long => stock.long = leaves,
        }
        stock
    }
}

/// Returns how many records of each kind a stock for `count` keys has to spare: 1 for up to 32 keys, else 10 and one more for each 16 keys,
/// but at most 512.
fn count_spare(count: u32) -> u32
    ensures { result ≡ spare_for count }
{
    if count <= FEW_KEYS {
        FEW_SPARE
    } else {
        (LEAST_SPARE + count / KEYS_A_SPARE).min(MOST_SPARE)
    }
}
