//! How an index is made, with its passes.

ghost use Rattle.std.specs.Prelude.{◌≡◌, ◌↔◌, ℕ, Some, Ok, Err, IfOk, IsOk, length, map, slice_get};
ghost use Rattle.record_words.specs.Layout.{HasStock, leaves_of};
ghost use Rattle.record_words.specs.Limits.{IsPassCount, IsStockPassCount, IsNodeCount, IsLeafCount, IsRecordCount};
ghost use Rattle.record_words.specs.declared.layout.Layout.{Layout as LayoutView};
ghost use Rattle.rowex_table.specs.Seats.{HasAllCommitted, HasUncommitted};
ghost use Rattle.hot_index.specs.Committing.{uncommitted_of};
ghost use Rattle.hot_index.specs.Kept.{HasOneKept, kept_stock, with_one_kept};
ghost use Rattle.hot_index_calls.specs.Passes.{PassView, Owns, IsNewPass, pass_of};
ghost use Rattle.hot_index.specs.Passes.{AreSettled};

use crate::closed::ClosedPass;
use crate::index::{Index, Pass};
use crate::key_counts::KeyCount;
use hot_index_calls::FirstFree;
use record_words::{Layout, LayoutFault, RECORD_KINDS, Stock};
use rowex_table::{HotTable, TableSeat};
use std::alloc::{AllocError, Global};
use thiserror::Error;

/// Why no index was made.
#[derive(Debug, Drop, Error)]
pub enum IndexFault {
    /// A number is out of range: the first such of passes, node records and leaf records.
    #[error("the numbers of passes, nodes and leaves are out of range")]
    Layout(LayoutFault),
    /// Out of memory.
    #[error("out of memory")]
    Memory,
}

/// All records are committed: none is only reserved.
const ALL_COMMITTED: [u64; RECORD_KINDS] = [0; RECORD_KINDS];

/// Makes an empty index with `passes` passes (1 to 64), `nodes` node records (1 to 65,535) and `leaves` leaf records (1 to 262,143).
/// Returns it with its passes, which are new, in the order of their numbers, from 0 on. The error is `Layout` exactly if a number is out of
/// range, with the first such of the three. It is `Memory` if all are in range and memory is refused.
///
/// The index has one node record more, for removals: with one pass insertions leave it free. All leaf records are long. So a call that
/// lacks one has found each of them taken (`laws::all_long_full_means_none_free`). All records are committed.
pub fn create(
    alloc: Global,
    passes: u32,
    nodes: u32,
    leaves: u32,
) -> Result<(Index, Vec<Pass>), IndexFault>
    ensures layout { IfOk result (λ made. (made.0.layout.passes ≡ passes) × (made.0.layout.nodes ≡ with_one_kept nodes)
        × (made.0.layout.leaves ≡ leaves) × (made.0.layout.long_from ≡ 0)) }
    ensures count { IfOk result (λ made. length made.1.items ≡ passes) }
    ensures each { IfOk result (λ made. (q : ℕ) (p : PassView) → slice_get made.1.items q ≡ Some p → Owns made.0 p × IsNewPass q p) }
    ensures committed { IfOk result (λ made. (q : ℕ) (p : PassView) → slice_get made.1.items q ≡ Some p → HasAllCommitted p.seat) }
    ensures passes { (result ≡ Err (IndexFault.Layout LayoutFault.Passes)) ↔ ¬ IsPassCount passes }
    ensures nodes { (result ≡ Err (IndexFault.Layout LayoutFault.Nodes)) ↔ (IsPassCount passes × ¬ IsNodeCount nodes) }
    ensures leaves { (result ≡ Err (IndexFault.Layout LayoutFault.Leaves)) ↔ (IsPassCount passes × IsNodeCount nodes × ¬ IsLeafCount leaves) }
    ensures memory { result ≡ Err IndexFault.Memory → IsPassCount passes × IsNodeCount nodes × IsLeafCount leaves }
{
    make_index_with_open_passes(alloc, Layout::of(passes, nodes, leaves), &ALL_COMMITTED)
}

/// Makes an empty index with `passes` passes (1 to 1,024) and the records of `stock`. Returns it with its passes, which are new, in the
/// order of their numbers, from 0 on.
///
/// A stock has 1 to 4,294,967,295 node records, and 1 to 4,294,967,295 leaf records of all classes together. The error is `Layout` exactly
/// if a number is out of range, with the first such of passes, nodes and leaves. It is `Memory` if all are in range and memory is refused.
///
/// The index has one node record more, as after `create`; if the stock has 4,294,967,295, it has no more. `Layout::bytes` of
/// `keep_one_node` returns the bytes of the table. Twice as many are in use while it is made.
pub fn create_with(
    alloc: Global,
    passes: u32,
    stock: Stock,
) -> Result<(Index, Vec<Pass>), IndexFault>
    ensures layout { IfOk result (λ made. (made.0.layout.passes ≡ passes) × HasStock made.0.layout (kept_stock stock)) }
    ensures count { IfOk result (λ made. length made.1.items ≡ passes) }
    ensures each { IfOk result (λ made. (q : ℕ) (p : PassView) → slice_get made.1.items q ≡ Some p → Owns made.0 p × IsNewPass q p) }
    ensures committed { IfOk result (λ made. (q : ℕ) (p : PassView) → slice_get made.1.items q ≡ Some p → HasAllCommitted p.seat) }
    ensures passes { (result ≡ Err (IndexFault.Layout LayoutFault.Passes)) ↔ ¬ IsStockPassCount passes }
    ensures nodes { (result ≡ Err (IndexFault.Layout LayoutFault.Nodes)) ↔ (IsStockPassCount passes × ¬ IsRecordCount stock.nodes) }
    ensures leaves { (result ≡ Err (IndexFault.Layout LayoutFault.Leaves)) ↔ (IsStockPassCount passes × IsRecordCount stock.nodes × ¬ IsRecordCount (leaves_of stock)) }
    ensures memory { result ≡ Err IndexFault.Memory → IsStockPassCount passes × IsRecordCount stock.nodes × IsRecordCount (leaves_of stock) }
{
    make_index_with_open_passes(alloc, Layout::with_stock(passes, stock), &ALL_COMMITTED)
}

/// Makes an empty index with `passes` passes, the records of `stock` and one node record more, as `create_with` does, with its bounds and
/// errors. Returns it with its passes, new and closed, in the order of their numbers, from 0 on. A closed pass takes 16 bytes until it is
/// opened.
pub fn create_closed(
    alloc: Global,
    passes: u32,
    stock: Stock,
) -> Result<(Index, Vec<ClosedPass>), IndexFault>
    ensures layout { IfOk result (λ made. (made.0.layout.passes ≡ passes) × HasStock made.0.layout (kept_stock stock)) }
    ensures count { IfOk result (λ made. length made.1.items ≡ passes) }
    ensures each { IfOk result (λ made. (q : ℕ) (p : PassView) → slice_get made.1.items q ≡ Some p → Owns made.0 p × IsNewPass q p) }
    ensures committed { IfOk result (λ made. (q : ℕ) (p : PassView) → slice_get made.1.items q ≡ Some p → HasAllCommitted p.seat) }
    ensures passes { (result ≡ Err (IndexFault.Layout LayoutFault.Passes)) ↔ ¬ IsStockPassCount passes }
    ensures nodes { (result ≡ Err (IndexFault.Layout LayoutFault.Nodes)) ↔ (IsStockPassCount passes × ¬ IsRecordCount stock.nodes) }
    ensures leaves { (result ≡ Err (IndexFault.Layout LayoutFault.Leaves)) ↔ (IsStockPassCount passes × IsRecordCount stock.nodes × ¬ IsRecordCount (leaves_of stock)) }
    ensures memory { result ≡ Err IndexFault.Memory → IsStockPassCount passes × IsRecordCount stock.nodes × IsRecordCount (leaves_of stock) }
{
    make_index_with_closed_passes(alloc, Layout::with_stock(passes, stock), &ALL_COMMITTED)
}

/// Makes an empty index with `passes` passes that reserves the records of `stock`, and one node record more, as `create_closed` does, with
/// its bounds and errors. Of each kind the first records are committed, as many as `committed` has, or all if it has more. The node record
/// that is kept is committed, too, and of each class of leaves that the stock has one at least. Calls use committed records alone, and
/// `Index::commit` commits more. Returns the index with its passes, new and closed, in the order of their numbers, from 0 on.
///
/// It stores a word for each word of the table, which is 0 but for a few. Where memory is 0 and comes as it is used, these stores can be
/// left out: then the time doesn't depend on the stock.
pub fn create_reserved(
    alloc: Global,
    passes: u32,
    stock: Stock,
    committed: Stock,
) -> Result<(Index, Vec<ClosedPass>), IndexFault>
    ensures layout { IfOk result (λ made. (made.0.layout.passes ≡ passes) × HasStock made.0.layout (kept_stock stock)) }
    ensures count { IfOk result (λ made. length made.1.items ≡ passes) }
    ensures each { IfOk result (λ made. (q : ℕ) (p : PassView) → slice_get made.1.items q ≡ Some p → Owns made.0 p × IsNewPass q p) }
    ensures reserved { IfOk result (λ made. (q : ℕ) (p : PassView) → slice_get made.1.items q ≡ Some p → HasUncommitted (uncommitted_of stock committed) p.seat) }
    ensures passes { (result ≡ Err (IndexFault.Layout LayoutFault.Passes)) ↔ ¬ IsStockPassCount passes }
    ensures nodes { (result ≡ Err (IndexFault.Layout LayoutFault.Nodes)) ↔ (IsStockPassCount passes × ¬ IsRecordCount stock.nodes) }
    ensures leaves { (result ≡ Err (IndexFault.Layout LayoutFault.Leaves)) ↔ (IsStockPassCount passes × IsRecordCount stock.nodes × ¬ IsRecordCount (leaves_of stock)) }
    ensures memory { result ≡ Err IndexFault.Memory → IsStockPassCount passes × IsRecordCount stock.nodes × IsRecordCount (leaves_of stock) }
{
    let uncommitted = count_uncommitted(stock, committed);
    make_index_with_closed_passes(alloc, Layout::with_stock(passes, stock), &uncommitted)
}

/// Returns how many records of each kind are uncommitted where those of `stock` are reserved and those of `committed` are committed, with
/// one at least of each class of leaves that the stock has.
fn count_uncommitted(stock: Stock, committed: Stock) -> [u64; RECORD_KINDS]
    ensures { result ≡ uncommitted_of stock committed }
{
    [
        u64::from(stock.nodes.saturating_sub(committed.nodes)),
        u64::from(stock.short.saturating_sub(committed.short.max(1))),
        u64::from(stock.medium.saturating_sub(committed.medium.max(1))),
        u64::from(stock.large.saturating_sub(committed.large.max(1))),
        u64::from(stock.wide.saturating_sub(committed.wide.max(1))),
        u64::from(stock.long.saturating_sub(committed.long.max(1))),
    ]
}

/// Makes an index of the layout `found`, with one node record more (`keep_one_node`). Returns it with its new passes, open, in the order of
/// their numbers. The error is `Layout` exactly if `found` is a fault, with that fault. It is `Memory` if memory is refused.
fn make_index_with_open_passes(
    alloc: Global,
    found: Result<Layout, LayoutFault>,
    uncommitted: &[u64; RECORD_KINDS],
) -> Result<(Index, Vec<Pass>), IndexFault>
    ensures layout { IfOk result (λ made. (asked : LayoutView) × (found ≡ Ok asked) × HasOneKept asked made.0.layout) }
    ensures count { IfOk result (λ made. length made.1.items ≡ made.0.layout.passes) }
    ensures each { IfOk result (λ made. (q : ℕ) (p : PassView) → slice_get made.1.items q ≡ Some p → Owns made.0 p × IsNewPass q p) }
    ensures reserved { IfOk result (λ made. (q : ℕ) (p : PassView) → slice_get made.1.items q ≡ Some p → HasUncommitted uncommitted.now p.seat) }
    ensures fault { (fault : LayoutFault) → (result ≡ Err (IndexFault.Layout fault)) ↔ (found ≡ Err fault) }
    ensures memory { result ≡ Err IndexFault.Memory → IsOk found }
{
    let (index, closed) = match make_index_with_closed_passes(alloc, found, uncommitted) {
        Ok(made) => made,
        Err(fault) => return Err(fault),
    };
    match open_passes(alloc, &index, closed) {
        Ok(passes) => Ok((index, passes)),
        Err(_) => Err(IndexFault::Memory),
    }
}

/// Opens the passes `closed` for calls at `index`, and returns them in their order, otherwise as they were; `AllocError` if memory is
/// refused.
fn open_passes(
    alloc: Global,
    index: &Index,
    closed: Vec<ClosedPass>,
) -> Result<Vec<Pass>, AllocError>
    ensures { IfOk result (λ passes. passes.items ≡ closed.items) }
{
    let mut passes = Vec::new(alloc);
    for pass in closed {
        passes.push(pass.open(alloc, index)?)?;
    }
    Ok(passes)
}

/// Makes an index of the layout `found`, with one node record more (`keep_one_node`). Returns it with its new passes, closed, in the order
/// of their numbers. The error is `Layout` exactly if `found` is a fault, with that fault. It is `Memory` if memory is refused.
fn make_index_with_closed_passes(
    alloc: Global,
    found: Result<Layout, LayoutFault>,
    uncommitted: &[u64; RECORD_KINDS],
) -> Result<(Index, Vec<ClosedPass>), IndexFault>
    ensures layout { IfOk result (λ made. (asked : LayoutView) × (found ≡ Ok asked) × HasOneKept asked made.0.layout) }
    ensures count { IfOk result (λ made. length made.1.items ≡ made.0.layout.passes) }
    ensures each { IfOk result (λ made. (q : ℕ) (p : PassView) → slice_get made.1.items q ≡ Some p → Owns made.0 p × IsNewPass q p) }
    ensures reserved { IfOk result (λ made. (q : ℕ) (p : PassView) → slice_get made.1.items q ≡ Some p → HasUncommitted uncommitted.now p.seat) }
    ensures fault { (fault : LayoutFault) → (result ≡ Err (IndexFault.Layout fault)) ↔ (found ≡ Err fault) }
    ensures memory { result ≡ Err IndexFault.Memory → IsOk found }
{
    match found {
        Ok(asked) => match make_index(alloc, keep_one_node(asked), uncommitted) {
            Ok(made) => Ok(made),
            Err(_) => Err(IndexFault::Memory),
        },
        Err(fault) => Err(IndexFault::Layout(fault)),
    }
}

/// Returns the layout of the index that is made when `layout` is asked for. It has one node record more, so that a removal finds one; if
/// `layout` has 4,294,967,295 already, no more. All else is as in `layout`.
pub fn keep_one_node(layout: Layout) -> Layout
    ensures { HasOneKept layout result }
{
    Layout {
        passes: layout.passes,
        nodes: layout.nodes.saturating_add(1),
        leaves: layout.leaves,
        medium_from: layout.medium_from,
        large_from: layout.large_from,
        wide_from: layout.wide_from,
        long_from: layout.long_from,
    }
}

/// Makes the index of just `layout`, with its new passes, closed, in the order of their numbers; `AllocError` if memory is refused.
fn make_index(
    alloc: Global,
    layout: Layout,
    uncommitted: &[u64; RECORD_KINDS],
) -> Result<(Index, Vec<ClosedPass>), AllocError>
    ensures layout { IfOk result (λ made. made.0.layout ≡ layout) }
    ensures count { IfOk result (λ made. length made.1.items ≡ layout.passes) }
    ensures each { IfOk result (λ made. (q : ℕ) (p : PassView) → slice_get made.1.items q ≡ Some p → Owns made.0 p × IsNewPass q p) }
    ensures reserved { IfOk result (λ made. (q : ℕ) (p : PassView) → slice_get made.1.items q ≡ Some p → HasUncommitted uncommitted.now p.seat) }
{
    let (table, seats) = HotTable::new_reserved(alloc, layout, uncommitted)?;
    let count = KeyCount::new();
    let passes = make_closed_passes(alloc, seats, count)?;
    let free = FirstFree {
        is_reserved: uncommitted.iter().any(|count| *count > 0),
        ..FirstFree::of(layout)
    };
    Ok((Index { table, free }, passes))
}

/// Returns closed passes of `seats`, in their order; `AllocError` if memory is refused. The passes must be between two calls. `first` must
/// be the count of keys of the first pass's answered calls, which are those of a load, or none. No other pass may have an answered call, so
/// each begins with the count of no call.
pub(crate) fn make_closed_passes(
    alloc: Global,
    seats: Vec<TableSeat>,
    first: KeyCount,
) -> Result<Vec<ClosedPass>, AllocError>
    requires { AreSettled first seats.items }
    ensures { IfOk result (λ passes. passes.items ≡ map pass_of seats.items) }
{
    let mut passes = Vec::new(alloc);
    let mut count = first;
    for seat in seats {
        passes.push(ClosedPass { seat, count })?;
        count = KeyCount::new();
    }
    Ok(passes)
}
