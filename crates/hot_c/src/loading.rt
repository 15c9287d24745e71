//! The calls of a load, for programs in C: an index is made of pairs whose keys rise.

ghost use Rattle.std.specs.Prelude.{◌≡◌, ◌≢◌, ◌⊎◌, Err, IfErr, IfOk, IsErr, IsSome, None, Some};
ghost use Rattle.hot_c.specs.Calls.{IsStockSize};
ghost use Rattle.hot_c.specs.Loads.{HasBegunLoad, HasOpenedLoaded, IsNewLoad, KeepsLoadedPasses, LoadsPair, TellsPush};
ghost use Rattle.hot_c.specs.Stocks.{stock_in};
ghost use Rattle.hot_handles.specs.declared.load.open_load.OpenLoad.{OpenLoad as LoadContent};

use crate::handle::IndexHandle;
use crate::opened::Opened;
use crate::opening::{is_stock_in_range, keep_passes};
use crate::status::{
    CLOSED, DONE, FULL_LEAVES, FULL_NODES, KEY_TOO_LONG, NO_MEMORY, NOT_RISING, OPEN, OUT_OF_RANGE,
};
use crate::stock::HotStock;
use hot_handles::{LoadHandle, OpenLoad};
use hot_index::{IndexFault, Load, LoadFault};
use key_bits::Key;
use record_words::Stock;
use std::alloc::{AllocError, Global};

/// Begins an index with `passes` passes, the records of `stock`, and one node record more for removals. Opens `load` for its pairs, and
/// returns `DONE`. Else `load` stays as it was. It returns `OUT_OF_RANGE` unless there are 1 to 1,024 passes, a node record, and 1 to
/// 4,294,967,295 leaf records in all. It returns `OPEN` if these numbers are in range and `load` is open, or `NO_MEMORY`.
#[unsafe(no_mangle)]
pub extern "C" fn hot_begin_load(
    alloc: Global,
    stock: &HotStock,
    passes: usize,
    load: &mut LoadHandle,
) -> u32
    ensures range { ¬ IsStockSize passes (stock_in stock.now) → (result ≡ OUT_OF_RANGE) × (load.new ≡ load.old) }
    ensures open { IsStockSize passes (stock_in stock.now) → IsSome load.old.cell.opened → (result ≡ OPEN) × (load.new ≡ load.old) }
    ensures begun { load.old.cell.opened ≡ None → IsStockSize passes (stock_in stock.now) →
        ((result ≡ DONE) × HasBegunLoad passes (stock_in stock.now) load.new.cell.opened) ⊎ ((result ≡ NO_MEMORY) × (load.new ≡ load.old)) }
{
    let records = stock.to_stock();
    if !is_stock_in_range(passes, &records) {
        return OUT_OF_RANGE;
    }
    if load.is_open() {
        return OPEN;
    }
    match begin_load(alloc, passes as u32, records) {
        Ok(begun) => {
            load.open(begun);
            DONE
        }
        Err(IndexFault::Layout(_)) => OUT_OF_RANGE,
        Err(IndexFault::Memory) => NO_MEMORY,
    }
}

/// Pushes `key` with `value`, and returns `DONE`. Else the load stays as it was, with its pairs, and goes on.
///
/// It returns `CLOSED` if `load` is closed. It returns `KEY_TOO_LONG` if `key` has more than 240 bytes, or no leaf record of the index,
/// taken or not, has room for it. If `key` has at most 240 bytes, it returns `NOT_RISING` exactly if `key` isn't above the last key. It
/// returns `FULL_LEAVES` if all leaf records with room are taken, `FULL_NODES` if too few node records may be left, or `NO_MEMORY`. It
/// never returns `FULL_NODES` while there are fewer pairs than node records.
#[unsafe(no_mangle)]
pub extern "C" fn hot_load_pair(load: &mut LoadHandle, key: &[u8], value: u64) -> u32
    ensures { LoadsPair key.now value load.old.cell.opened load.new.cell.opened result }
{
    if !load.is_open() {
        return CLOSED;
    }
    let mut pushed = Key::empty();
    match pushed.set_bytes(key) {
        Ok(()) => push_pair(load.cell.lend(), &pushed, value),
        Err(_) => KEY_TOO_LONG,
    }
}

/// Closes `load`, makes the index of its pairs, opens `handle` with the last pass, and returns `DONE`. Of each kind the first records are
/// committed: as many as `committed` has, or all if it has more, and those that the pairs have taken. The handle keeps the other passes,
/// closed, for `hot_open_kept`. It returns `CLOSED` if `load` is closed, else `OPEN` if `handle` is open: then both stay as they were. With
/// `NO_MEMORY` the load is closed, its pairs are gone, and `handle` stays. The handle's `place` stays.
#[unsafe(no_mangle)]
pub extern "C" fn hot_end_load(
    alloc: Global,
    load: &mut LoadHandle,
    committed: &HotStock,
    handle: &mut IndexHandle,
) -> u32
    ensures closed { load.old.cell.opened ≡ None → (result ≡ CLOSED) × (load.new ≡ load.old) × (handle.new ≡ handle.old) }
    ensures open { IsSome load.old.cell.opened → IsSome handle.old.cell.opened → (result ≡ OPEN) × (load.new ≡ load.old) × (handle.new ≡ handle.old) }
    ensures ended { (was : LoadContent) → load.old.cell.opened ≡ Some was → handle.old.cell.opened ≡ None → (load.new.cell.opened ≡ None) ×
        (((result ≡ DONE) × HasOpenedLoaded was.load handle.new.cell.opened) ⊎ ((result ≡ NO_MEMORY) × (handle.new ≡ handle.old))) }
    ensures place { handle.new.place ≡ handle.old.place }
{
    if !load.is_open() {
        return CLOSED;
    }
    if handle.is_open() {
        return OPEN;
    }
    match end_load(alloc, load.close(alloc), committed.to_stock()) {
        Ok(keeper) => {
            handle.open(keeper);
            DONE
        }
        Err(_) => NO_MEMORY,
    }
}

/// Closes `load`, frees its pairs, and returns `DONE`; `CLOSED` if it was closed already.
#[unsafe(no_mangle)]
pub extern "C" fn hot_give_up_load(alloc: Global, load: &mut LoadHandle) -> u32
    ensures closed { load.old.cell.opened ≡ None → result ≡ CLOSED }
    ensures done { IsSome load.old.cell.opened → result ≡ DONE }
    ensures gone { load.new.cell.opened ≡ None }
{
    if !load.is_open() {
        return CLOSED;
    }
    drop(load.close(alloc));
    DONE
}

/// Returns a box of a load of an index with `passes` passes, the records of `stock`, and one node record more for removals. No pair is
/// pushed. The error is `Layout` exactly if a number is out of range (`is_stock_in_range`). It is `Memory` if memory is refused.
fn begin_load(alloc: Global, passes: u32, stock: Stock) -> Result<Box<OpenLoad, Global>, IndexFault>
    ensures size { IsStockSize passes stock → IfErr result (λ fault. fault ≡ IndexFault.Memory) }
    ensures range { ¬ IsStockSize passes stock → IsErr result × result ≢ Err IndexFault.Memory }
    ensures begun { IfOk result (λ b. IsNewLoad passes stock b.value.load) }
{
    let load = Load::new(alloc, passes, stock)?;
    match Box::new(alloc, OpenLoad { load }) {
        Ok(begun) => Ok(begun),
        Err(_) => Err(IndexFault::Memory),
    }
}

/// Pushes `key` with `value` to the load of `opened`, and returns `DONE`. Else the load stays as it was. It returns `NOT_RISING` exactly if
/// `key` isn't above the last key. It returns `KEY_TOO_LONG` only if no leaf record of the index, taken or not, has room for `key`. It
/// returns `FULL_LEAVES` only if there are such records, and all are taken. It returns `FULL_NODES` only if the pairs are no fewer than the
/// node records. It returns `NO_MEMORY` if memory is refused.
fn push_pair(opened: &mut OpenLoad, key: &Key, value: u64) -> u32
    ensures { TellsPush key.now value opened.old.load opened.new.load result }
{
    match opened.load.push(key, value) {
        Ok(()) => DONE,
        Err(LoadFault::NotRising) => NOT_RISING,
        Err(LoadFault::LeavesFull) if !opened.load.has_leaf_for(key) => KEY_TOO_LONG,
        Err(LoadFault::LeavesFull) => FULL_LEAVES,
        Err(LoadFault::NodesFull) => FULL_NODES,
        Err(LoadFault::Memory) => NO_MEMORY,
    }
}

/// Makes the index of the pairs of `opened`. Returns an open handle of its last pass, with a share of the index. This handle keeps the
/// other passes, closed. Pass 0 has inserted the pairs, and all others are new. `committed` has how many records are committed besides those
/// that the pairs have taken. `AllocError` if memory is refused.
fn end_load(
    alloc: Global,
    opened: Box<OpenLoad, Global>,
    committed: Stock,
) -> Result<Box<Opened, Global>, AllocError>
    ensures { IfOk result (λ b. KeepsLoadedPasses opened.value.load b.value) }
{
    let OpenLoad { load } = Box::into_inner(opened);
    let (index, passes) = load.finish_reserved(alloc, committed)?;
    keep_passes(alloc, index, passes)
}
