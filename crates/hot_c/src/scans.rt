//! The scans of a range, for programs in C.

ghost use Rattle.std.specs.Prelude.{◌≡◌, ◌<◌, ◌^◌, IfErr, IfOk};
ghost use Rattle.hot_index_calls.specs.Answers.{range_from};
ghost use Rattle.hot_c.specs.Orders.{IsFilledIn, IsListedIn};
ghost use Rattle.hot_c.specs.Scans.{HasFilledList, ListsUpwards, ListsBy, ListsLast, ListsNothing, ListsReverse, listing};

use crate::handle::IndexHandle;
use crate::pairs::{Order, Pair, Query, write_pairs_in_order};
use crate::status::{CLOSED, DONE, KEY_TOO_LONG, NO_MEMORY};
use key_bits::Key;

/// Lists the first pairs whose keys are from `from` to `upto`, both included, in key order, as `Index::scan` does, and returns `DONE`. They
/// go to the front of `room`, at most as many as `room` has elements; the other elements stay. `count` becomes their number, and `more` 1
/// if the range has more, else 0. With `CLOSED`, `KEY_TOO_LONG` (of an end) or `NO_MEMORY` (for a pair that was found) all of `room`,
/// `count` and `more` stay. An open handle stays open, with the passes that it keeps. `place` stays.
#[unsafe(no_mangle)]
pub extern "C" fn hot_scan(
    handle: &mut IndexHandle,
    from: &[u8],
    upto: &[u8],
    room: &mut [Pair],
    count: &mut usize,
    more: &mut u32,
) -> u32
    ensures call { ListsUpwards from.now upto.now handle.old.cell.opened handle.new.cell.opened
        (listing room.old count.old more.old) (listing room.new count.new more.new) result }
    ensures place { handle.new.place ≡ handle.old.place }
{
    let order = Order::Upwards;
    let query = Query { order, from, upto };
    list_pairs_of_query(handle, &query, room, count, more)
}

/// Lists the last pairs whose keys are from `from` to `upto`, both included, in falling key order, as `Index::scan_reverse` does, and
/// returns `DONE`. They go to the front of `room`, at most as many as `room` has elements; the other elements stay. `count` becomes their
/// number, and `more` 1 if the range has more below, else 0. With `CLOSED`, `KEY_TOO_LONG` (of an end) or `NO_MEMORY` (for a pair that was
/// found) all of `room`, `count` and `more` stay. An open handle stays open, with the passes that it keeps. `place` stays.
#[unsafe(no_mangle)]
pub extern "C" fn hot_scan_reverse(
    handle: &mut IndexHandle,
    from: &[u8],
    upto: &[u8],
    room: &mut [Pair],
    count: &mut usize,
    more: &mut u32,
) -> u32
    ensures call { ListsReverse from.now upto.now handle.old.cell.opened handle.new.cell.opened
        (listing room.old count.old more.old) (listing room.new count.new more.new) result }
    ensures place { handle.new.place ≡ handle.old.place }
{
    let order = Order::Downwards;
    let query = Query { order, from, upto };
    list_pairs_of_query(handle, &query, room, count, more)
}

/// Lists the pairs that `hot_scan_reverse` lists, but in rising key order, and returns `DONE`. They are the last ones whose keys are from
/// `from` to `upto`, both included. They go to the front of `room`, at most as many as `room` has elements; the other elements stay.
/// `count` becomes their number, and `more` 1 if the range has more below, else 0. With `CLOSED`, `KEY_TOO_LONG` (of an end) or `NO_MEMORY`
/// (for a pair that was found) all of `room`, `count` and `more` stay. An open handle stays open, with the passes that it keeps. `place`
/// stays.
#[unsafe(no_mangle)]
pub extern "C" fn hot_scan_last(
    handle: &mut IndexHandle,
    from: &[u8],
    upto: &[u8],
    room: &mut [Pair],
    count: &mut usize,
    more: &mut u32,
) -> u32
    ensures call { ListsLast from.now upto.now handle.old.cell.opened handle.new.cell.opened
        (listing room.old count.old more.old) (listing room.new count.new more.new) result }
    ensures place { handle.new.place ≡ handle.old.place }
{
    let order = Order::LastUpwards;
    let query = Query { order, from, upto };
    list_pairs_of_query(handle, &query, room, count, more)
}

/// Lists pairs of `query` into `room` in its order, for `Upwards` the first ones, else the last ones. `count` becomes their number, and
/// `more` 1 if there are more, else 0, as of `hot_scan`. It returns `DONE`; or `CLOSED`, `KEY_TOO_LONG` or `NO_MEMORY`, with which all
/// three stay. An open handle stays open, with the passes that it keeps. `place` stays.
pub fn list_pairs_of_query(
    handle: &mut IndexHandle,
    query: &Query,
    room: &mut [Pair],
    count: &mut usize,
    more: &mut u32,
) -> u32
    ensures call { ListsBy (IsListedIn query.now.order) query.now.from.now query.now.upto.now handle.old.cell.opened handle.new.cell.opened
        (listing room.old count.old more.old) (listing room.new count.new more.new) result }
    ensures place { handle.new.place ≡ handle.old.place }
{
    match fill_list(handle, query, room.len()) {
        Ok((found, is_more)) => {
            let opened = handle.cell.lend();
            *count = found;
            *more = u32::from(is_more);
            write_pairs_in_order(query.order, &opened.list, room);
            opened.empty_list();
            DONE
        }
        Err(status) => status,
    }
}

/// Scans the range of `query` into the handle's list, for at most `limit` pairs, as `Opened::scan` does. Returns how many were found, which
/// are fewer than 2^63, and whether there are more. The error is `CLOSED`, `KEY_TOO_LONG` (an end has more than 240 bytes) or `NO_MEMORY`
/// (for a pair that was found). An open handle stays open, with the passes that it keeps. `place` stays.
pub fn fill_list(
    handle: &mut IndexHandle,
    query: &Query,
    limit: usize,
) -> Result<(usize, bool), u32>
    ensures ok { IfOk result (λ found. HasFilledList (IsFilledIn query.now.order) (range_from query.now.from.now query.now.upto.now limit)
        handle.old.cell.opened handle.new.cell.opened found.0 found.1) }
    ensures short { IfOk result (λ found. found.0 < 2 ^ 63) }
    ensures err { IfErr result (ListsNothing (range_from query.now.from.now query.now.upto.now limit) handle.old.cell.opened handle.new.cell.opened) }
    ensures place { handle.new.place ≡ handle.old.place }
{
    if !handle.is_open() {
        return Err(CLOSED);
    }
    let mut first = Key::empty();
    let mut last = Key::empty();
    let (Ok(()), Ok(())) = (first.set_bytes(query.from), last.set_bytes(query.upto)) else {
        return Err(KEY_TOO_LONG);
    };
    let opened = handle.cell.lend();
    match opened.scan(query.order, &first, &last, limit) {
        Ok(is_more) => Ok((opened.list.len(), is_more)),
        Err(_) => {
            opened.empty_list();
            Err(NO_MEMORY)
        }
    }
}
