//! The calls for programs in C. `c/hot.h` says how to use them.

ghost use Rattle.std.specs.Prelude.{◌≡◌, ◌≢◌, ◌⊎◌, ◌↔◌, ℕ, List, IsOk, IsSome, None, Some, length, min};
ghost use Rattle.finite_map.specs.declared.Call.TheVariants.{Add, Exchange, Get, Insert, Remove, RemoveIf, Upsert};
ghost use Rattle.hot_c.specs.declared.opened.Opened.{Opened};
ghost use Rattle.hot_c.specs.Calls.{Answers, AreClosed, FitsInKey, HasGivenBack, HasCountedRecords, HasOpenedKeeper, HaveOpened, HaveOpenedStock, IsSize, IsStockSize, OpensNext, StaysOpen, for_key, places_of};
ghost use Rattle.hot_c.specs.Lookups.{LooksUpAll};
ghost use Rattle.hot_c.specs.Refusals.{TellsOfNoLack, TellsWhatMay};
ghost use Rattle.hot_c.specs.Stocks.{TakesBytes, stock_in};
ghost use Rattle.record_words.specs.Layout.{stock_for, stock_for_any};
ghost use Rattle.record_words.specs.declared.TheConstants.{MAX_STOCK_PASSES};

use crate::census::{HotCounts, show_counts};
use crate::handle::IndexHandle;
use crate::lookups::{Lookup, copy_keys, have_fitting_keys, write_found_values};
use crate::opening::{
    are_closed, are_counts_in_range, is_stock_in_range, make_keeper, make_passes,
    make_passes_with_stock, open_handles,
};
use crate::status::{
    BUSY, CLOSED, DONE, FULL_LEAVES, FULL_NODES, HELD_BACK, KEY_TOO_LONG, NO_HANDLE, NO_MEMORY,
    OPEN, OUT_OF_RANGE, write_reply,
};
use crate::stock::HotStock;
use hot_index::{Call, IndexFault, keep_one_node};
use key_bits::{Key, KeyFault};
use record_words::{Layout, MAX_STOCK_PASSES, Stock};
use std::alloc::Global;

/// Makes an empty index with `nodes` node records, 1 to 65,535, one more for removals, and `leaves` leaf records, 1 to 262,143, all long.
/// Opens each of `handles`, 1 to 64, with a pass of it, in the order of their numbers, and returns `DONE`.
///
/// Else all handles stay as they were. It returns `OUT_OF_RANGE` if a number is out of range, `OPEN` if a handle is open, or `NO_MEMORY`.
/// Of two that apply it returns the one named first. What C keeps in each handle (`place`) stays.
#[unsafe(no_mangle)]
pub extern "C" fn hot_create(
    alloc: Global,
    nodes: u32,
    leaves: u32,
    handles: &mut [IndexHandle],
) -> u32
    ensures range { ¬ IsSize (length handles.old) nodes leaves → (result ≡ OUT_OF_RANGE) × (handles.new ≡ handles.old) }
    ensures open { IsSize (length handles.old) nodes leaves → ¬ AreClosed handles.old → (result ≡ OPEN) × (handles.new ≡ handles.old) }
    ensures made { AreClosed handles.old → IsSize (length handles.old) nodes leaves →
        ((result ≡ DONE) × HaveOpened nodes leaves handles.new) ⊎ ((result ≡ NO_MEMORY) × (handles.new ≡ handles.old)) }
    ensures places { places_of handles.new ≡ places_of handles.old }
{
    if !are_counts_in_range(handles.len(), nodes, leaves) {
        return OUT_OF_RANGE;
    }
    if !are_closed(handles) {
        return OPEN;
    }
    match make_passes(alloc, handles.len() as u32, nodes, leaves) {
        Ok(passes) => {
            open_handles(handles, passes);
            DONE
        }
        Err(IndexFault::Layout(_)) => OUT_OF_RANGE,
        Err(IndexFault::Memory) => NO_MEMORY,
    }
}

/// Makes an empty index with the records of `stock`, and one node record more for removals. Opens each of `handles` with a pass of it, in
/// the order of their numbers, and returns `DONE`.
///
/// Else all handles stay as they were. It returns `OUT_OF_RANGE` unless there are 1 to 1,024 handles, a node record, and 1 to 4,294,967,295
/// leaf records in all. It returns `OPEN` if these numbers are in range and a handle is open, or `NO_MEMORY`. What C keeps in each handle
/// (`place`) stays.
#[unsafe(no_mangle)]
pub extern "C" fn hot_create_with(
    alloc: Global,
    stock: &HotStock,
    handles: &mut [IndexHandle],
) -> u32
    ensures range { ¬ IsStockSize (length handles.old) (stock_in stock.now) → (result ≡ OUT_OF_RANGE) × (handles.new ≡ handles.old) }
    ensures open { IsStockSize (length handles.old) (stock_in stock.now) → ¬ AreClosed handles.old → (result ≡ OPEN) × (handles.new ≡ handles.old) }
    ensures made { AreClosed handles.old → IsStockSize (length handles.old) (stock_in stock.now) →
        ((result ≡ DONE) × HaveOpenedStock (stock_in stock.now) handles.new) ⊎ ((result ≡ NO_MEMORY) × (handles.new ≡ handles.old)) }
    ensures places { places_of handles.new ≡ places_of handles.old }
{
    let records = stock.to_stock();
    if !is_stock_in_range(handles.len(), &records) {
        return OUT_OF_RANGE;
    }
    if !are_closed(handles) {
        return OPEN;
    }
    match make_passes_with_stock(alloc, handles.len() as u32, records) {
        Ok(stocked) => {
            open_handles(handles, stocked);
            DONE
        }
        Err(IndexFault::Layout(_)) => OUT_OF_RANGE,
        Err(IndexFault::Memory) => NO_MEMORY,
    }
}

/// Makes an empty index with `passes` passes, the records of `stock`, and one node record more for removals. Of each kind the first records
/// are committed: as many as `committed` has, or all if it has more, with those that `create_reserved` adds. Opens `handle` with the last of
/// its passes, and returns `DONE`. The handle keeps the others, closed, for `hot_open_kept`. Else the handle stays as it was. It returns
/// `OUT_OF_RANGE` unless there are 1 to 1,024 passes, a node record, and 1 to 4,294,967,295 leaf records in all. It returns `OPEN` if these
/// numbers are in range and the handle is open, or `NO_MEMORY`. `place` stays.
#[unsafe(no_mangle)]
pub extern "C" fn hot_create_keeping(
    alloc: Global,
    stock: &HotStock,
    committed: &HotStock,
    passes: usize,
    handle: &mut IndexHandle,
) -> u32
    ensures range { ¬ IsStockSize passes (stock_in stock.now) → (result ≡ OUT_OF_RANGE) × (handle.new ≡ handle.old) }
    ensures open { IsStockSize passes (stock_in stock.now) → IsSome handle.old.cell.opened → (result ≡ OPEN) × (handle.new ≡ handle.old) }
    ensures made { handle.old.cell.opened ≡ None → IsStockSize passes (stock_in stock.now) →
        ((result ≡ DONE) × HasOpenedKeeper passes (stock_in stock.now) handle.new.cell.opened) ⊎ ((result ≡ NO_MEMORY) × (handle.new ≡ handle.old)) }
    ensures place { handle.new.place ≡ handle.old.place }
{
    let records = stock.to_stock();
    if !is_stock_in_range(passes, &records) {
        return OUT_OF_RANGE;
    }
    if handle.is_open() {
        return OPEN;
    }
    match make_keeper(alloc, passes as u32, records, committed.to_stock()) {
        Ok(keeper) => {
            handle.open(keeper);
            DONE
        }
        Err(IndexFault::Layout(_)) => OUT_OF_RANGE,
        Err(IndexFault::Memory) => NO_MEMORY,
    }
}

/// Takes the pass of the least number out of those that `keeper` keeps, opens `handle` with it, and returns `DONE`. `handle` then keeps no
/// pass. Else both handles stay as they were. It returns `CLOSED` if `keeper` is closed, else `OPEN` if `handle` is open, else `NO_HANDLE`
/// if no pass is kept, or `NO_MEMORY`. What C keeps in each handle (`place`) stays.
#[unsafe(no_mangle)]
pub extern "C" fn hot_open_kept(
    alloc: Global,
    keeper: &mut IndexHandle,
    handle: &mut IndexHandle,
) -> u32
    ensures closed { keeper.old.cell.opened ≡ None → (result ≡ CLOSED) × (keeper.new.cell.opened ≡ None) × (handle.new ≡ handle.old) }
    ensures open { IsSome keeper.old.cell.opened → IsSome handle.old.cell.opened → (result ≡ OPEN) × (keeper.new ≡ keeper.old) × (handle.new ≡ handle.old) }
    ensures opened { (was : Opened) → keeper.old.cell.opened ≡ Some was → handle.old.cell.opened ≡ None →
        OpensNext was keeper.new.cell.opened handle.new.cell.opened result }
    ensures places { (keeper.new.place ≡ keeper.old.place) × (handle.new.place ≡ handle.old.place) }
{
    if !keeper.is_open() {
        return CLOSED;
    }
    if handle.is_open() {
        return OPEN;
    }
    match keeper.cell.lend().open_next_handle(alloc) {
        Ok(Some(opened)) => {
            handle.open(opened);
            DONE
        }
        Ok(None) => NO_HANDLE,
        Err(_) => NO_MEMORY,
    }
}

/// Writes to `stock` what `Stock::for_keys` returns: records for up to `count` keys at once, of at most `longest` bytes each. A `longest`
/// above 240 counts as 240.
#[unsafe(no_mangle)]
pub extern "C" fn hot_stock_for_keys(count: u32, longest: usize, stock: &mut HotStock)
    ensures { stock_in stock.new ≡ stock_for count longest }
{
    stock.set_counts(Stock::for_keys(count, longest));
}

/// Writes to `stock` what `Stock::for_any_keys` returns for an index of `handles` passes. That stock is enough for any `count` keys at
/// once, of at most `longest` bytes each. More than 1,024 passes count as 1,024.
#[unsafe(no_mangle)]
pub extern "C" fn hot_stock_for_any_keys(
    count: u32,
    longest: usize,
    handles: usize,
    stock: &mut HotStock,
)
    ensures { stock_in stock.new ≡ stock_for_any count longest (min handles MAX_STOCK_PASSES) }
{
    let passes = handles.min(MAX_STOCK_PASSES as usize) as u32;
    stock.set_counts(Stock::for_any_keys(count, longest, passes));
}

/// Writes how many bytes the table of an index with the records of `stock` and `handles` passes takes to `bytes`, and returns `DONE`. The
/// node record that is kept for removals is counted. It returns `OUT_OF_RANGE` if there is no such index, since a number is out of range;
/// then `bytes` stays.
#[unsafe(no_mangle)]
pub extern "C" fn hot_stock_bytes(stock: &HotStock, handles: usize, bytes: &mut usize) -> u32
    ensures range { ¬ IsStockSize handles (stock_in stock.now) → (result ≡ OUT_OF_RANGE) × (bytes.new ≡ bytes.old) }
    ensures done { IsStockSize handles (stock_in stock.now) → (result ≡ DONE) × TakesBytes handles (stock_in stock.now) bytes.new }
{
    let Ok(passes) = u32::try_from(handles) else {
        return OUT_OF_RANGE;
    };
    match Layout::with_stock(passes, stock.to_stock()) {
        Ok(layout) => {
            *bytes = keep_one_node(layout).bytes();
            DONE
        }
        Err(_) => OUT_OF_RANGE,
    }
}

/// Writes the number of the handle's pass to `number`, and returns `DONE`. After `hot_create` or `hot_create_with` it is the handle's
/// number in `handles`, from 0 on. If the handle is closed, it returns `CLOSED`, and `number` stays. The handle stays as it was.
#[unsafe(no_mangle)]
pub extern "C" fn hot_number(handle: &mut IndexHandle, number: &mut u16) -> u32
    ensures closed { handle.old.cell.opened ≡ None → (result ≡ CLOSED) × (number.new ≡ number.old) }
    ensures number { (was : Opened) → handle.old.cell.opened ≡ Some was → (result ≡ DONE) × (number.new ≡ was.handle.pass.number) }
    ensures kept { handle.new.cell.opened ≡ handle.old.cell.opened }
    ensures place { handle.new.place ≡ handle.old.place }
{
    if !handle.is_open() {
        return CLOSED;
    }
    *number = handle.cell.lend().handle.number();
    DONE
}

/// Looks up `key`, as `Index::get` does. Writes the key's value to `value` and returns `FOUND`, or returns `ABSENT`. It returns `CLOSED` if
/// `handle` is closed, and `KEY_TOO_LONG` if `key` has more than 240 bytes. `value` stays unless the status is `FOUND`. No other status is
/// returned. An open handle stays open, with the passes that it keeps. `place` stays.
#[unsafe(no_mangle)]
pub extern "C" fn hot_get(handle: &mut IndexHandle, key: &[u8], value: &mut u64) -> u32
    ensures call { Answers key.now (Get key.now) handle.old.cell.opened handle.new.cell.opened value.old value.new result }
    ensures unrefused { (result ≢ BUSY) × (result ≢ HELD_BACK) × (result ≢ FULL_NODES) × (result ≢ FULL_LEAVES) }
    ensures place { handle.new.place ≡ handle.old.place }
{
    if !handle.is_open() {
        return CLOSED;
    }
    let mut asked = Key::empty();
    match asked.set_bytes(key) {
        Ok(()) => write_reply(handle.cell.lend().get(&asked), value),
        Err(_) => KEY_TOO_LONG,
    }
}

/// Looks up each key of `lookups` once, as `Index::get_many` does, and returns `DONE`. Each element of `lookups` gets the status `FOUND`
/// with the key's value, or the status `ABSENT`, and its value stays. It returns `CLOSED`, `KEY_TOO_LONG` if a key has more than 240 bytes,
/// or `NO_MEMORY`: no key is looked up then, and nothing is written. An open handle stays open, with the passes that it keeps. `place`
/// stays.
#[unsafe(no_mangle)]
pub extern "C" fn hot_get_many(
    alloc: Global,
    handle: &mut IndexHandle,
    lookups: &mut [Lookup<'_>],
) -> u32
    ensures call { LooksUpAll handle.old.cell.opened handle.new.cell.opened lookups.old lookups.new result }
    ensures place { handle.new.place ≡ handle.old.place }
{
    if !handle.is_open() {
        return CLOSED;
    }
    if !have_fitting_keys(lookups) {
        return KEY_TOO_LONG;
    }
    let Ok(keys) = copy_keys(alloc, lookups) else {
        return NO_MEMORY;
    };
    let Ok(mut found) = Vec::from_elem(alloc, None, keys.len()) else {
        return NO_MEMORY;
    };
    handle.cell.lend().handle.get_many(&keys, &mut found);
    write_found_values(&found, lookups);
    DONE
}

/// Inserts `key` with `value` if the key is absent, and returns `INSERTED`. Else nothing changes. If the key is there, its value goes to
/// `had`, and the status is `EXISTS`. The call is refused with `BUSY`, `FULL_NODES`, `FULL_LEAVES`, `HELD_BACK`, `CLOSED` or
/// `KEY_TOO_LONG`. `KEY_TOO_LONG` tells that `key` has more than 240 bytes, or that no leaf record of the index has room for it. `had`
/// stays unless the status is `EXISTS`. An open handle stays open, with the passes that it keeps. `place` stays.
#[unsafe(no_mangle)]
pub extern "C" fn hot_try_insert(
    handle: &mut IndexHandle,
    key: &[u8],
    value: u64,
    had: &mut u64,
) -> u32
    ensures call { Answers key.now (Insert key.now value) handle.old.cell.opened handle.new.cell.opened had.old had.new result }
    ensures place { handle.new.place ≡ handle.old.place }
{
    let mut call = Call::Insert(Key::empty(), value);
    make_call(handle, &mut call, key, had)
}

/// Gives `key` the value `value`, whether it has one or not. Returns `NEW` if the key was absent. Else it writes the value before to `had`,
/// and returns `WAS`. It is refused with `BUSY`, `FULL_NODES`, `FULL_LEAVES`, `HELD_BACK`, `CLOSED` or `KEY_TOO_LONG`, and nothing changes.
/// It lacks a record only if its search found the key absent. `KEY_TOO_LONG` tells that `key` has more than 240 bytes, or that no leaf
/// record of the index has room for it. `had` stays unless the status is `WAS`. An open handle stays open, with the passes that it keeps.
/// `place` stays.
#[unsafe(no_mangle)]
pub extern "C" fn hot_try_upsert(
    handle: &mut IndexHandle,
    key: &[u8],
    value: u64,
    had: &mut u64,
) -> u32
    ensures call { Answers key.now (Upsert key.now value) handle.old.cell.opened handle.new.cell.opened had.old had.new result }
    ensures place { handle.new.place ≡ handle.old.place }
{
    let mut call = Call::Upsert(Key::empty(), value);
    make_call(handle, &mut call, key, had)
}

/// Gives `key` the value `value` if it has the value `expected`, and returns `EXCHANGED`. Else the key's value doesn't change. If the key
/// has another value, the call writes this to `had`, and returns `DIFFERS`; else it returns `ABSENT`. It takes no record, so it is refused
/// only with `BUSY`, `CLOSED` or `KEY_TOO_LONG` (over 240 bytes). `had` stays unless the status is `DIFFERS`. An open handle stays open,
/// with the passes that it keeps. `place` stays.
#[unsafe(no_mangle)]
pub extern "C" fn hot_try_exchange(
    handle: &mut IndexHandle,
    key: &[u8],
    expected: u64,
    value: u64,
    had: &mut u64,
) -> u32
    ensures call { Answers key.now (Exchange key.now expected value) handle.old.cell.opened handle.new.cell.opened had.old had.new result }
    ensures takes { TellsOfNoLack result }
    ensures place { handle.new.place ≡ handle.old.place }
{
    let mut call = Call::Exchange(Key::empty(), expected, value);
    make_call(handle, &mut call, key, had)
}

/// Adds `delta` to the value of `key`, modulo 2 to the power of 64. It writes the value before to `had`, and returns `WAS`. It returns
/// `ABSENT` if the key is absent, and then nothing changes. It takes no record, so it is refused only with `BUSY`, `CLOSED` or
/// `KEY_TOO_LONG` (over 240 bytes). `had` stays unless the status is `WAS`. An open handle stays open, with the passes that it keeps.
/// `place` stays.
#[unsafe(no_mangle)]
pub extern "C" fn hot_try_add(
    handle: &mut IndexHandle,
    key: &[u8],
    delta: u64,
    had: &mut u64,
) -> u32
    ensures call { Answers key.now (Add key.now delta) handle.old.cell.opened handle.new.cell.opened had.old had.new result }
    ensures takes { TellsOfNoLack result }
    ensures place { handle.new.place ≡ handle.old.place }
{
    let mut call = Call::Add(Key::empty(), delta);
    make_call(handle, &mut call, key, had)
}

/// Removes `key`, writes its value to `had`, and returns `REMOVED`; or returns `ABSENT`. It is refused with `BUSY`, `FULL_NODES`,
/// `HELD_BACK`, `CLOSED` or `KEY_TOO_LONG` (over 240 bytes), and nothing changes. It needs no leaf record, so it never returns
/// `FULL_LEAVES`. `had` stays unless the status is `REMOVED`. An open handle stays open, with the passes that it keeps. `place` stays.
#[unsafe(no_mangle)]
pub extern "C" fn hot_try_remove(handle: &mut IndexHandle, key: &[u8], had: &mut u64) -> u32
    ensures call { Answers key.now (Remove key.now) handle.old.cell.opened handle.new.cell.opened had.old had.new result }
    ensures leafless { result ≢ FULL_LEAVES }
    ensures place { handle.new.place ≡ handle.old.place }
{
    let mut call = Call::Remove(Key::empty());
    make_call(handle, &mut call, key, had)
}

/// Removes `key` if it has the value `expected`, writes this value to `had`, and returns `REMOVED`. If the key has another value, the call
/// writes that to `had`, and returns `DIFFERS`; else it returns `ABSENT`. It is refused with `BUSY`, `FULL_NODES`, `HELD_BACK`, `CLOSED` or
/// `KEY_TOO_LONG` (over 240 bytes). The map changes only with `REMOVED`. It never returns `FULL_LEAVES`. `had` stays unless the status is
/// `REMOVED` or `DIFFERS`. An open handle stays open, with the passes that it keeps. `place` stays.
#[unsafe(no_mangle)]
pub extern "C" fn hot_try_remove_if(
    handle: &mut IndexHandle,
    key: &[u8],
    expected: u64,
    had: &mut u64,
) -> u32
    ensures call { Answers key.now (RemoveIf key.now expected) handle.old.cell.opened handle.new.cell.opened had.old had.new result }
    ensures leafless { result ≢ FULL_LEAVES }
    ensures place { handle.new.place ≡ handle.old.place }
{
    let mut call = Call::RemoveIf(Key::empty(), expected);
    make_call(handle, &mut call, key, had)
}

/// Makes `call` with the key `key` in place of its own, and returns the status. `CLOSED` if `handle` is closed, `KEY_TOO_LONG` if `key` has
/// more than 240 bytes. The reply's value, if it has one, goes to `had`; else `had` stays. No status tells a lack of records that such a
/// call can't have. An open handle stays open, with the passes that it keeps. `place` stays.
// Inline, so that the key's bytes are written once.
#[inline(always)]
fn make_call(handle: &mut IndexHandle, call: &mut Call, key: &[u8], had: &mut u64) -> u32
    ensures call { Answers key.now (for_key key.now call.old) handle.old.cell.opened handle.new.cell.opened had.old had.new result }
    ensures may { TellsWhatMay (for_key key.now call.old) result }
    ensures place { handle.new.place ≡ handle.old.place }
{
    if !handle.is_open() {
        return CLOSED;
    }
    match set_key(call, key) {
        Ok(()) => make_call_on_open_handle(handle, call, key.len(), had),
        Err(_) => KEY_TOO_LONG,
    }
}

/// Gives `call` the key `key` in place of its own. `KeyFault` exactly if `key` has more than 240 bytes; then nothing is said of `call`.
#[inline(always)]
fn set_key(call: &mut Call, key: &[u8]) -> Result<(), KeyFault>
    ensures fits { IsOk result ↔ FitsInKey key.now }
    ensures ok { IsOk result → call.new ≡ for_key key.now call.old }
{
    match call {
        Call::Insert(own, _) => own.set_bytes(key),
        Call::Upsert(own, _) => own.set_bytes(key),
        Call::Exchange(own, _, _) => own.set_bytes(key),
        Call::Add(own, _) => own.set_bytes(key),
        Call::Get(own) => own.set_bytes(key),
        Call::Remove(own) => own.set_bytes(key),
        Call::RemoveIf(own, _) => own.set_bytes(key),
    }
}

/// Makes `call`, whose key has `size` bytes, through `handle`, which must be open, and returns the status. The reply's value, if it has
/// one, goes to `had`; else `had` stays. No status tells a lack of records that such a call can't have. The handle stays open, with the
/// passes that it keeps, and `place` stays. Not inline, so that all calls share its code.
#[inline(never)]
fn make_call_on_open_handle(
    handle: &mut IndexHandle,
    call: &Call,
    size: usize,
    had: &mut u64,
) -> u32
    requires { IsSome handle.old.cell.opened }
    ensures call { (key : List ℕ) → FitsInKey key → length key ≡ size → Answers key call.now handle.old.cell.opened handle.new.cell.opened had.old had.new result }
    ensures may { TellsWhatMay call.now result }
    ensures place { handle.new.place ≡ handle.old.place }
{
    handle.cell.lend().try_call(call, size, had)
}

/// Makes one round of collection, as `Index::collect` does. Writes how many node and leaf records it gave back to `nodes` and `leaves`, and
/// returns `DONE`. If the handle is closed, it returns `CLOSED`, and both stay. An open handle stays open, with the passes that it keeps.
/// `place` stays.
#[unsafe(no_mangle)]
pub extern "C" fn hot_collect(handle: &mut IndexHandle, nodes: &mut u32, leaves: &mut u32) -> u32
    ensures closed { handle.old.cell.opened ≡ None → (result ≡ CLOSED) × (handle.new.cell.opened ≡ None) × (nodes.new ≡ nodes.old) × (leaves.new ≡ leaves.old) }
    ensures round { IsSome handle.old.cell.opened → (result ≡ DONE) × StaysOpen (HasGivenBack nodes.new leaves.new) handle.old.cell.opened handle.new.cell.opened }
    ensures place { handle.new.place ≡ handle.old.place }
{
    if !handle.is_open() {
        return CLOSED;
    }
    let given = handle.cell.lend().handle.collect();
    *nodes = given.nodes;
    *leaves = given.leaves;
    DONE
}

/// Writes to `counts` how many node records, and leaf records of each class, are free, held, live and obsolete, and the table's bytes. It
/// counts committed records alone.
/// Returns `DONE`. The counts are of no single moment, and the call asks nothing of the map. If the handle is closed, it returns `CLOSED`,
/// and `counts` stays. An open handle stays open, with the passes that it keeps. `place` stays.
#[unsafe(no_mangle)]
pub extern "C" fn hot_census(handle: &mut IndexHandle, counts: &mut HotCounts) -> u32
    ensures closed { handle.old.cell.opened ≡ None → (result ≡ CLOSED) × (handle.new.cell.opened ≡ None) × (counts.new ≡ counts.old) }
    ensures counted { IsSome handle.old.cell.opened → (result ≡ DONE) × StaysOpen (HasCountedRecords counts.new) handle.old.cell.opened handle.new.cell.opened }
    ensures place { handle.new.place ≡ handle.old.place }
{
    if !handle.is_open() {
        return CLOSED;
    }
    let found = handle.cell.lend().handle.census();
    *counts = show_counts(&found);
    DONE
}

/// Closes `handle` and returns `DONE`, or `CLOSED` if it was closed already. The passes that it keeps go with it. The last handle of an
/// index frees the index. `place` stays.
#[unsafe(no_mangle)]
pub extern "C" fn hot_destroy(alloc: Global, handle: &mut IndexHandle) -> u32
    ensures closed { handle.old.cell.opened ≡ None → result ≡ CLOSED }
    ensures done { IsSome handle.old.cell.opened → result ≡ DONE }
    ensures gone { handle.new.cell.opened ≡ None }
    ensures place { handle.new.place ≡ handle.old.place }
{
    if handle.is_open() {
        drop(handle.close(alloc));
        DONE
    } else {
        CLOSED
    }
}
