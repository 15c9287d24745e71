//! How an index is made of sorted pairs: a bulk load.

ghost use Rattle.std.specs.Prelude.{◌≡◌, ◌≤◌, ◌<◌, ◌↔◌, ℕ, [], Some, Err, IfOk, IsTrue, OnErr, OnOk, get_or, length, slice_get};
ghost use Rattle.bulk_load.specs.Views.{HasNoRoomFor, IsAboveLast};
ghost use Rattle.record_words.specs.Layout.{HasStock, leaf_size, leaves_of};
ghost use Rattle.record_words.specs.Leaf.{words_for};
ghost use Rattle.record_words.specs.Limits.{IsRecordCount, IsStockPassCount};
ghost use Rattle.record_words.specs.declared.TheConstants.{RECORD_KINDS};
ghost use Rattle.rowex_table.specs.Seats.{HasAllCommitted};
ghost use Rattle.tries.specs.Content.{pairs};
ghost use Rattle.hot_index.specs.Kept.{kept_stock};
ghost use Rattle.hot_index.specs.Loads.{HasNoLeafFor, HasTakenPair, IsPassOfLoad};
ghost use Rattle.hot_index_calls.specs.Passes.{Owns, PassView};

use crate::closed::ClosedPass;
use crate::creating::{IndexFault, keep_one_node, make_closed_passes};
use crate::index::Index;
use crate::key_counts::KeyCount;
use bulk_load::{LoadFault, Loader};
use finite_map::Reply;
use hot_index_calls::FirstFree;
use key_bits::Key;
use record_words::{FIRST_UNCOMMITTED, Layout, LayoutFault, RECORD_KINDS, Stock, count_leaf_words};
use rowex_table::HotTable;
use std::alloc::{AllocError, Global};
use std::marker::Model;

/// Pairs that become an index. They are pushed in the order of their keys. Each takes a leaf record of the smallest class with room for its
/// key that has one left. Nodes are made as full as they can be. Contracts see the layout of the index, and the leaf records that were
/// taken, each with its pair.
#[derive(Drop)]
pub struct Load {
    layout: Layout,
    loader: Loader,
    count: KeyCount,
}

impl Model for Load {
    ghost use Rattle.bulk_load.specs.Views.{LoadView};
    ghost use Rattle.hot_index.specs.Loads.{CountsItems};
    ghost use Rattle.std.specs.Prelude.{◌≡◌};

    ghost Value = { LoadView };

    ghost view = { λ l. l.loader };

    ghost invariant = { λ l. (l.layout ≡ l.loader.layout) × CountsItems l.loader.items l.count };
}

impl Load {
    /// Begins an index with `passes` passes (1 to 1,024), the records of `stock`, and one node record more for removals, as `create_with`
    /// makes it. No pair has been pushed. The error is `Layout` exactly if a number is out of range, with the first such of passes, nodes
    /// and leaves. It is `Memory` if all are in range and memory is refused.
    pub fn new(alloc: Global, passes: u32, stock: Stock) -> Result<Load, IndexFault>
        ensures layout { IfOk result (λ load. (load.layout.passes ≡ passes) × HasStock load.layout (kept_stock stock)) }
        ensures none { IfOk result (λ load. load.items ≡ []) }
        ensures passes { (result ≡ Err (IndexFault.Layout LayoutFault.Passes)) ↔ ¬ IsStockPassCount passes }
        ensures nodes { (result ≡ Err (IndexFault.Layout LayoutFault.Nodes)) ↔ (IsStockPassCount passes × ¬ IsRecordCount stock.nodes) }
        ensures leaves { (result ≡ Err (IndexFault.Layout LayoutFault.Leaves)) ↔
            (IsStockPassCount passes × IsRecordCount stock.nodes × ¬ IsRecordCount (leaves_of stock)) }
        ensures memory { result ≡ Err IndexFault.Memory → IsStockPassCount passes × IsRecordCount stock.nodes × IsRecordCount (leaves_of stock) }
    {
        match Layout::with_stock(passes, stock) {
            Ok(asked) => match Load::begin(alloc, keep_one_node(asked)) {
                Ok(load) => Ok(load),
                Err(_) => Err(IndexFault::Memory),
            },
            Err(fault) => Err(IndexFault::Layout(fault)),
        }
    }

    /// Begins an index of `layout`, with no pair pushed; `AllocError` if memory is refused.
    fn begin(alloc: Global, layout: Layout) -> Result<Load, AllocError>
        ensures { IfOk result (λ load. (load.layout ≡ layout) × (load.items ≡ [])) }
    {
        let loader = Loader::new(alloc, layout)?;
        let count = KeyCount::new();
        Ok(Load {
            layout,
            loader,
            count,
        })
    }

    /// Pushes `key` with `value`, behind the pairs that were pushed before. If the pair is refused, the load stays as it was, and the next
    /// pair may be pushed.
    ///
    /// The error is `NotRising` exactly if the key isn't above the last one. It is `LeavesFull` only if each leaf record with room for the
    /// key is taken. It is `NodesFull` if too few node records may be left. That is never so while there are fewer pairs than node records.
    /// Nor is it for the first 32 pairs of an index with two node records or more, and `new` begins no other. It is `Memory` if memory is
    /// refused.
    pub fn push(&mut self, key: &Key, value: u64) -> Result<(), LoadFault>
        ensures taken { OnOk result (HasTakenPair key.now value self.old self.new) }
        ensures refused { OnErr result (self.new ≡ self.old) }
        ensures rising { (result ≡ Err LoadFault.NotRising) ↔ ¬ IsAboveLast self.old.items key.now }
        ensures leaves { result ≡ Err LoadFault.LeavesFull → HasNoRoomFor self.old key.now }
        ensures nodes { result ≡ Err LoadFault.NodesFull → self.old.layout.nodes ≤ length self.old.items }
        ensures many { result ≡ Err LoadFault.NodesFull → 2 ≤ self.old.layout.nodes → 32 ≤ length self.old.items }
    {
        self.loader.push(key, value)?;
        self.count.note(Reply::Inserted);
        Ok(())
    }

    /// Returns whether the index has a leaf record, taken or not, with room for `key`.
    pub fn has_leaf_for(&self, key: &Key) -> bool
        ensures some { IsTrue result → (n : ℕ) × (n < self.now.layout.leaves) × (words_for (length key.now) ≤ leaf_size self.now.layout n) }
        ensures none { ¬ IsTrue result → HasNoLeafFor self.now.layout key.now }
    {
        self.layout.first_leaf_with(count_leaf_words(key)) < self.layout.leaves
    }

    /// Makes the index of the pairs that were pushed, with the layout of the load. Returns it with its passes, closed, in their order, from
    /// 0 on. Pass 0 has inserted each pair in the order of the keys, and its `count` is their number. All others are new. Some node record
    /// stands in no tree, so that a removal finds one. All records are committed. `AllocError` if memory is refused.
    pub fn finish(self, alloc: Global) -> Result<(Index, Vec<ClosedPass>), AllocError>
        ensures layout { IfOk result (λ made. made.0.layout ≡ self.layout) }
        ensures count { IfOk result (λ made. length made.1.items ≡ self.layout.passes) }
        ensures each { IfOk result (λ made. (q : ℕ) (p : PassView) → slice_get made.1.items q ≡ Some p → Owns made.0 p × IsPassOfLoad made.0 (pairs self.items) q p) }
        ensures committed { IfOk result (λ made. (q : ℕ) (p : PassView) → slice_get made.1.items q ≡ Some p → HasAllCommitted p.seat) }
    {
        self.finish_committed(alloc, &[u32::MAX; RECORD_KINDS])
    }

    /// Makes the index of the pairs that were pushed, as `finish` does. Of each kind the first records are committed: as many as `committed`
    /// has, and those that the pairs have taken, each with one node more. Of each class of leaves that the stock has one at least is.
    /// `Index::commit` commits more.
    pub fn finish_reserved(
        self,
        alloc: Global,
        committed: Stock,
    ) -> Result<(Index, Vec<ClosedPass>), AllocError>
        ensures layout { IfOk result (λ made. made.0.layout ≡ self.layout) }
        ensures count { IfOk result (λ made. length made.1.items ≡ self.layout.passes) }
        ensures each { IfOk result (λ made. (q : ℕ) (p : PassView) → slice_get made.1.items q ≡ Some p → Owns made.0 p × IsPassOfLoad made.0 (pairs self.items) q p) }
    {
        let Stock {
            nodes,
            short,
            medium,
            large,
            wide,
            long,
        } = committed;
        let committed = [
            nodes.saturating_add(1),
            short.max(1),
            medium.max(1),
            large.max(1),
            wide.max(1),
            long.max(1),
        ];
        self.finish_committed(alloc, &committed)
    }

    /// Makes the index of the pairs that were pushed, as `finish_reserved` does. `committed` has how many of the first records of each kind are
    /// committed: of nodes, and then of each leaf class.
    fn finish_committed(
        self,
        alloc: Global,
        committed: &[u32; RECORD_KINDS],
    ) -> Result<(Index, Vec<ClosedPass>), AllocError>
        ensures layout { IfOk result (λ made. made.0.layout ≡ self.layout) }
        ensures count { IfOk result (λ made. length made.1.items ≡ self.layout.passes) }
        ensures each { IfOk result (λ made. (q : ℕ) (p : PassView) → slice_get made.1.items q ≡ Some p → Owns made.0 p × IsPassOfLoad made.0 (pairs self.items) q p) }
        ensures all { ((kind : ℕ) → kind < RECORD_KINDS → get_or committed.now kind 0 ≡ 4294967295) →
            IfOk result (λ made. (q : ℕ) (p : PassView) → slice_get made.1.items q ≡ Some p → HasAllCommitted p.seat) }
    {
        let Load {
            layout,
            loader,
            count,
        } = self;
        let node = loader.first_free_node();
        let leaves = loader.first_free_leaves();
        let words = loader.finish_reserved(committed);
        let mut uncommitted = words.iter().skip(FIRST_UNCOMMITTED).take(RECORD_KINDS);
        let free = FirstFree {
            node,
            leaves,
            is_reserved: uncommitted.any(|count| *count > 0),
        };
        let (table, seats) = HotTable::new_loaded(alloc, layout, words)?;
        let passes = make_closed_passes(alloc, seats, count)?;
        Ok((Index { table, free }, passes))
    }
}
