//! The scans of the keys that begin with a prefix, for programs in C.

ghost use Rattle.std.specs.Prelude.{◌≡◌};
ghost use Rattle.key_ranges.specs.Ranges.{last_with};
ghost use Rattle.hot_c.specs.Calls.{FitsInKey};
ghost use Rattle.hot_c.specs.Orders.{IsListedIn};
ghost use Rattle.hot_c.specs.Prefixes.{HasPrefixAbove, HasPrefixBelow, IsRangeOf, ListsAfter, ListsBefore};
ghost use Rattle.hot_c.specs.Scans.{ListsUpwards, ListsBy, ListsReverse, listing};

use crate::handle::IndexHandle;
use crate::pairs::{Order, Pair, Query};
use crate::scans::list_pairs_of_query;
use crate::status::{CLOSED, KEY_TOO_LONG};
use key_bits::Key;
use key_ranges::{last_with_prefix, next_key, previous_key};
use std::cmp::Ordering;

/// Lists the first pairs whose keys begin with `prefix`, in key order, and returns `DONE`. They go to the front of `room`, at most as many
/// as `room` has elements; the others stay. `count` becomes their number, and `more` 1 if there are more, else 0. With `CLOSED`,
/// `KEY_TOO_LONG` or `NO_MEMORY` (for a pair that was found) all of `room`, `count` and `more` stay. It is a `hot_scan` from `prefix` to
/// the last key that begins with it. An open handle stays open, with the passes that it keeps. `place` stays.
#[unsafe(no_mangle)]
pub extern "C" fn hot_scan_whole_prefix(
    handle: &mut IndexHandle,
    prefix: &[u8],
    room: &mut [Pair],
    count: &mut usize,
    more: &mut u32,
) -> u32
    ensures call { ListsUpwards prefix.now (last_with prefix.now) handle.old.cell.opened handle.new.cell.opened
        (listing room.old count.old more.old) (listing room.new count.new more.new) result }
    ensures place { handle.new.place ≡ handle.old.place }
{
    list_whole_prefix(handle, Order::Upwards, prefix, room, count, more)
}

/// Lists the first pairs whose keys begin with `prefix` and are above `after`, in key order, and returns `DONE`. They go to the front of
/// `room`, at most as many as `room` has elements; the others stay. `count` becomes their number, and `more` 1 if there are more, else 0.
/// With `CLOSED`, `KEY_TOO_LONG` or `NO_MEMORY` (for a pair that was found) all of `room`, `count` and `more` stay. The status of an open
/// handle is `KEY_TOO_LONG` if `prefix` or `after` has more than 240 bytes. An open handle stays open, with the passes that it keeps.
/// `place` stays.
#[unsafe(no_mangle)]
pub extern "C" fn hot_scan_prefix_after(
    handle: &mut IndexHandle,
    prefix: &[u8],
    after: &[u8],
    room: &mut [Pair],
    count: &mut usize,
    more: &mut u32,
) -> u32
    ensures call { ListsAfter prefix.now after.now handle.old.cell.opened handle.new.cell.opened
        (listing room.old count.old more.old) (listing room.new count.new more.new) result }
    ensures place { handle.new.place ≡ handle.old.place }
{
    if !handle.is_open() {
        return CLOSED;
    }
    let (Ok(prefix), Ok(after)) = (Key::from_bytes(prefix), Key::from_bytes(after)) else {
        return KEY_TOO_LONG;
    };
    let (first, last) = ends_after(&prefix, &after);
    let query = Query {
        order: Order::Upwards,
        from: first.as_bytes(),
        upto: last.as_bytes(),
    };
    list_pairs_of_query(handle, &query, room, count, more)
}

/// Lists the last pairs whose keys begin with `prefix`, in falling key order, and returns `DONE`. They go to the front of `room`, at most
/// as many as `room` has elements; the others stay. `count` becomes their number, and `more` 1 if there are more, else 0. With `CLOSED`,
/// `KEY_TOO_LONG` or `NO_MEMORY` (for a pair that was found) all of `room`, `count` and `more` stay. It is a `hot_scan_reverse` from
/// `prefix` to the last key that begins with it. An open handle stays open, with the passes that it keeps. `place` stays.
#[unsafe(no_mangle)]
pub extern "C" fn hot_scan_whole_prefix_reverse(
    handle: &mut IndexHandle,
    prefix: &[u8],
    room: &mut [Pair],
    count: &mut usize,
    more: &mut u32,
) -> u32
    ensures call { ListsReverse prefix.now (last_with prefix.now) handle.old.cell.opened handle.new.cell.opened
        (listing room.old count.old more.old) (listing room.new count.new more.new) result }
    ensures place { handle.new.place ≡ handle.old.place }
{
    list_whole_prefix(handle, Order::Downwards, prefix, room, count, more)
}

/// Lists the last pairs whose keys begin with `prefix` and are below `before`, in falling key order, and returns `DONE`. They go to the
/// front of `room`, at most as many as `room` has elements; the others stay. `count` becomes their number, and `more` 1 if there are more,
/// else 0. With `CLOSED`, `KEY_TOO_LONG` or `NO_MEMORY` (for a pair that was found) all of `room`, `count` and `more` stay. The status of
/// an open handle is `KEY_TOO_LONG` if `prefix` or `before` has more than 240 bytes. An open handle stays open, with the passes that it
/// keeps. `place` stays.
#[unsafe(no_mangle)]
pub extern "C" fn hot_scan_prefix_before(
    handle: &mut IndexHandle,
    prefix: &[u8],
    before: &[u8],
    room: &mut [Pair],
    count: &mut usize,
    more: &mut u32,
) -> u32
    ensures call { ListsBefore prefix.now before.now handle.old.cell.opened handle.new.cell.opened
        (listing room.old count.old more.old) (listing room.new count.new more.new) result }
    ensures place { handle.new.place ≡ handle.old.place }
{
    if !handle.is_open() {
        return CLOSED;
    }
    let (Ok(prefix), Ok(before)) = (Key::from_bytes(prefix), Key::from_bytes(before)) else {
        return KEY_TOO_LONG;
    };
    let (first, last) = ends_before(&prefix, &before);
    let query = Query {
        order: Order::Downwards,
        from: first.as_bytes(),
        upto: last.as_bytes(),
    };
    list_pairs_of_query(handle, &query, room, count, more)
}

/// Lists pairs whose keys begin with `prefix`, in `order`: the first ones for `Upwards`, else the last ones. They are of the range from
/// `prefix` to the last key that begins with it. The pairs go to `room`, their number to `count`, and whether there are more to `more`, as
/// of `hot_scan`. It returns `DONE`, or a status with which all three stay. That is `KEY_TOO_LONG` if the handle is open and `prefix` has
/// more than 240 bytes. An open handle stays open, with the passes that it keeps. `place` stays.
#[inline(always)]
fn list_whole_prefix(
    handle: &mut IndexHandle,
    order: Order,
    prefix: &[u8],
    room: &mut [Pair],
    count: &mut usize,
    more: &mut u32,
) -> u32
    ensures call { ListsBy (IsListedIn order) prefix.now (last_with prefix.now) handle.old.cell.opened handle.new.cell.opened
        (listing room.old count.old more.old) (listing room.new count.new more.new) result }
    ensures place { handle.new.place ≡ handle.old.place }
{
    if !handle.is_open() {
        return CLOSED;
    }
    let Ok(first) = Key::from_bytes(prefix) else {
        return KEY_TOO_LONG;
    };
    let last = last_with_prefix(&first);
    let query = Query {
        order,
        from: prefix,
        upto: last.as_bytes(),
    };
    list_pairs_of_query(handle, &query, room, count, more)
}

/// Returns the ends of the range of the keys that begin with `prefix` and are above `after`. If there is no such key, the first end is
/// above the last.
fn ends_after(prefix: &Key, after: &Key) -> (Key, Key)
    ensures range { IsRangeOf (HasPrefixAbove prefix.now after.now) result.0 result.1 }
    ensures fit { FitsInKey result.0 × FitsInKey result.1 }
{
    let last = last_with_prefix(prefix);
    match next_key(after) {
        Some(next) => match next.cmp(prefix) {
            Ordering::Less => (prefix.copy(), last),
            _ => (next, last),
        },
        None => (last, Key::empty()),
    }
}

/// Returns the ends of the range of the keys that begin with `prefix` and are below `before`. If there is no such key, the first end is
/// above the last.
fn ends_before(prefix: &Key, before: &Key) -> (Key, Key)
    ensures range { IsRangeOf (HasPrefixBelow prefix.now before.now) result.0 result.1 }
    ensures fit { FitsInKey result.0 × FitsInKey result.1 }
{
    let last = last_with_prefix(prefix);
    match previous_key(before) {
        Some(previous) => match previous.cmp(&last) {
            Ordering::Greater => (prefix.copy(), last),
            _ => (prefix.copy(), previous),
        },
        None => (last, Key::empty()),
    }
}
