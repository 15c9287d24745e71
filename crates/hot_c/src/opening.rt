//! How handles are opened: on a new index, with a pass for each.

ghost use Rattle.std.specs.Prelude.{◌≡◌, ◌≢◌, ◌↔◌, ◌++◌, ◌∷◌, [], ℕ, All, Err, IfErr, IfOk, IsErr, IsTrue, Some, length, map, reverse, slice_get};
ghost use Rattle.hot_index_calls.specs.Passes.{IsNewPass, Owns, PassView};
ghost use Rattle.hot_index.specs.Handles.{handle_at};
ghost use Rattle.hot_c.specs.Calls.{AreClosed, AreNewHandles, HasCounts, IsKeeper, IsNewShare, IsSize, IsStockSize, places_of};
ghost use Rattle.record_words.specs.Layout.{HasStock};
ghost use Rattle.hot_index.specs.Kept.{kept_stock};

use crate::handle::IndexHandle;
use crate::opened::Opened;
use hot_index::{
    ClosedHandle, ClosedPass, Index, IndexFault, Pass, create, create_reserved, create_with,
};
use packed_pairs::Pairs;
use record_words::{MAX_LEAVES, MAX_NODES, MAX_PASSES, MAX_STOCK_PASSES, Stock};
use std::alloc::{AllocError, Global};
use std::sync::Arc;

/// Returns whether all of `handles` are closed.
pub fn are_closed(handles: &[IndexHandle]) -> bool
    ensures { IsTrue result ↔ AreClosed handles.now }
{
    handles.iter().all(|handle| !handle.is_open())
}

/// Returns whether `create` takes these counts: `passes` of 1 to 64, `nodes` of 1 to 65,535, and `leaves` of 1 to 262,143.
pub fn are_counts_in_range(passes: usize, nodes: u32, leaves: u32) -> bool
    ensures { IsTrue result ↔ IsSize passes nodes leaves }
{
    1 <= passes
        && passes <= MAX_PASSES as usize
        && 1 <= nodes
        && nodes <= MAX_NODES
        && 1 <= leaves
        && leaves <= MAX_LEAVES
}

/// Returns whether `create_with` takes `passes` and `stock`: 1 to 1,024 passes, a node record, and 1 to 4,294,967,295 leaf records in all.
pub fn is_stock_in_range(passes: usize, stock: &Stock) -> bool
    ensures { IsTrue result ↔ IsStockSize passes stock.now }
{
    let short = stock.short as u64 + stock.medium as u64;
    let leaves = short + stock.large as u64 + stock.wide as u64 + stock.long as u64;
    1 <= passes
        && passes <= MAX_STOCK_PASSES as usize
        && 1 <= stock.nodes
        && 1 <= leaves
        && leaves <= u32::MAX as u64
}

/// Opens each of `handles`, which must all be closed, with the element of `passes` at the same index. Both must be equally long. What C
/// keeps in each handle (`place`) stays.
pub fn open_handles(handles: &mut [IndexHandle], passes: Vec<Box<Opened, Global>>)
    requires closed { AreClosed handles.old }
    requires count { length passes.items ≡ length handles.old }
    ensures opened { map (λ h. h.cell.opened) handles.new ≡ map (λ b. Some b.value) passes.items }
    ensures places { places_of handles.new ≡ places_of handles.old }
{
    let mut place = 0;
    for opened in passes {
        handles[place].open(opened);
        place += 1;
    }
}

/// Makes an index with `passes` passes, `nodes` node records and one more for removals, and `leaves` leaf records, all long. Returns its
/// passes, which are new, in the order of their numbers, each with a share of the index and no kept handle. The error is `Layout` exactly
/// if a number is out of range (`are_counts_in_range`). It is `Memory` if memory is refused.
pub fn make_passes(
    alloc: Global,
    passes: u32,
    nodes: u32,
    leaves: u32,
) -> Result<Vec<Box<Opened, Global>>, IndexFault>
    ensures size { IsSize passes nodes leaves → IfErr result (λ fault. fault ≡ IndexFault.Memory) }
    ensures range { ¬ IsSize passes nodes leaves → IsErr result × result ≢ Err IndexFault.Memory }
    ensures made { IfOk result (λ made. AreNewHandles passes (HasCounts nodes leaves) (map (λ b. b.value) made.items)) }
{
    let (index, passes) = create(alloc, passes, nodes, leaves)?;
    share_index(alloc, index, passes).map_err(|_| IndexFault::Memory)
}

/// Makes an index with `passes` passes, the records of `stock`, and one node record more for removals. Returns its passes, which are new,
/// in the order of their numbers, each with a share of the index and no kept handle. The error is `Layout` exactly if a number is out of
/// range (`is_stock_in_range`). It is `Memory` if memory is refused.
pub fn make_passes_with_stock(
    alloc: Global,
    passes: u32,
    stock: Stock,
) -> Result<Vec<Box<Opened, Global>>, IndexFault>
    ensures size { IsStockSize passes stock → IfErr result (λ fault. fault ≡ IndexFault.Memory) }
    ensures range { ¬ IsStockSize passes stock → IsErr result × result ≢ Err IndexFault.Memory }
    ensures made { IfOk result (λ made. AreNewHandles passes (λ layout. HasStock layout (kept_stock stock)) (map (λ b. b.value) made.items)) }
{
    let (index, passes) = create_with(alloc, passes, stock)?;
    share_index(alloc, index, passes).map_err(|_| IndexFault::Memory)
}

/// Makes an index with `passes` passes, the records of `stock`, and one node record more for removals. Of each kind the first records are
/// committed, as many as `committed` has, as `create_reserved` does. Returns an open handle of its last pass, with a share of the index. This
/// handle keeps the other passes, closed, for handles that are opened later, the pass of the least number first. The error is `Layout` exactly
/// if a number is out of range (`is_stock_in_range`). It is `Memory` if memory is refused.
pub fn make_keeper(
    alloc: Global,
    passes: u32,
    stock: Stock,
    committed: Stock,
) -> Result<Box<Opened, Global>, IndexFault>
    ensures size { IsStockSize passes stock → IfErr result (λ fault. fault ≡ IndexFault.Memory) }
    ensures range { ¬ IsStockSize passes stock → IsErr result × result ≢ Err IndexFault.Memory }
    ensures made { IfOk result (λ made. IsKeeper passes (λ layout. HasStock layout (kept_stock stock)) made.value) }
{
    let (index, passes) = create_reserved(alloc, passes, stock, committed)?;
    keep_passes(alloc, index, passes).map_err(|_| IndexFault::Memory)
}

/// Opens the last of `passes`, which are those of `index`, and returns it as a handle with a share of the index. This handle keeps the
/// other passes, closed, for handles that are opened later, the first pass first. `AllocError` if memory is refused, or if there is no
/// pass.
pub fn keep_passes(
    alloc: Global,
    index: Index,
    passes: Vec<ClosedPass>,
) -> Result<Box<Opened, Global>, AllocError>
    requires { All (Owns index) passes.items }
    ensures all { IfOk result (λ b. reverse b.value.kept.items ++ b.value.handle ∷ [] ≡ map (handle_at index) passes.items) }
{
    let index = Arc::new(alloc, index)?;
    let mut kept = make_closed_handles(alloc, &index, passes)?;
    let Some(last) = kept.pop() else {
        return Err(AllocError);
    };
    kept.reverse();
    let handle = last.open(alloc)?;
    let list = Pairs::new(alloc);
    Ok(Box::new(alloc, Opened { handle, list, kept })?)
}

/// Returns closed handles of `passes`, in their order, each with a share of `index`; `AllocError` if memory is refused.
fn make_closed_handles(
    alloc: Global,
    index: &Arc<Index, Global>,
    passes: Vec<ClosedPass>,
) -> Result<Vec<ClosedHandle<Arc<Index, Global>>>, AllocError>
    requires { All (Owns index.now.value) passes.items }
    ensures { IfOk result (λ handles. handles.items ≡ map (handle_at index.now.value) passes.items) }
{
    let mut handles = Vec::with_capacity(alloc, passes.len())?;
    for pass in passes {
        handles.push(ClosedHandle::new(Arc::try_clone(index)?, pass))?;
    }
    Ok(handles)
}

/// Returns the new `passes` of `index`, in their order, each with a share of the index, an empty list and no kept handle. `AllocError` if
/// memory is refused.
fn share_index(
    alloc: Global,
    index: Index,
    passes: Vec<Pass>,
) -> Result<Vec<Box<Opened, Global>>, AllocError>
    requires { (q : ℕ) (p : PassView) → slice_get passes.items q ≡ Some p → Owns index p × IsNewPass q p }
    ensures count { IfOk result (λ shared. length shared.items ≡ length passes.items) }
    ensures each { IfOk result (λ shared. (q : ℕ) (b : _) → slice_get shared.items q ≡ Some b → IsNewShare index q b.value) }
{
    let index = Arc::new(alloc, index)?;
    let mut shared = Vec::new(alloc);
    for pass in passes {
        let index = Arc::try_clone(&index)?;
        let handle = hot_index::Handle::new(index, pass);
        let list = Pairs::new(alloc);
        let kept = Vec::new(alloc);
        shared.push(Box::new(alloc, Opened { handle, list, kept })?)?;
    }
    Ok(shared)
}
