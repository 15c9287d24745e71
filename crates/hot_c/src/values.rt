//! The values of a range, without their keys, for programs in C.

ghost use Rattle.std.specs.Prelude.{◌++◌, ◌≡◌, ◌≤◌, drop, length};
ghost use Rattle.hot_c.specs.Values.{ListsValues, value_listing};

use crate::handle::IndexHandle;
use crate::status::{CLOSED, DONE, KEY_TOO_LONG, NO_MEMORY};
use key_bits::Key;
use std::alloc::Global;

/// Writes the values that `Index::scan_values_into` lists to the front of `room`, and returns `DONE`. They are those of the first pairs
/// whose keys are from `from` to `upto`, both included, in key order. There are at most as many as `room` has elements; the other elements
/// stay. `count` becomes their number, and `more` 1 if the range has more, else 0. With `CLOSED`, `KEY_TOO_LONG` (of an end) or `NO_MEMORY`
/// (for a pair that was found) all of `room`, `count` and `more` stay. An open handle stays open, with the passes that it keeps. `place`
/// stays.
#[unsafe(no_mangle)]
pub extern "C" fn hot_scan_values(
    alloc: Global,
    handle: &mut IndexHandle,
    from: &[u8],
    upto: &[u8],
    room: &mut [u64],
    count: &mut usize,
    more: &mut u32,
) -> u32
    ensures call { ListsValues from.now upto.now handle.old.cell.opened handle.new.cell.opened
        (value_listing room.old count.old more.old) (value_listing room.new count.new more.new) result }
    ensures place { handle.new.place ≡ handle.old.place }
{
    if !handle.is_open() {
        return CLOSED;
    }
    let mut first = Key::empty();
    let mut last = Key::empty();
    let (Ok(()), Ok(())) = (first.set_bytes(from), last.set_bytes(upto)) else {
        return KEY_TOO_LONG;
    };
    let mut values = Vec::new(alloc);
    let opened = handle.cell.lend();
    match opened
        .handle
        .scan_values_into(&first, &last, room.len(), &mut values)
    {
        Ok(is_more) => {
            write_values(&values, room);
            *count = values.len();
            *more = u32::from(is_more);
            DONE
        }
        Err(_) => NO_MEMORY,
    }
}

/// Writes `values` to the front of `room`, which must have room for them. What stands behind them stays.
fn write_values(values: &[u64], room: &mut [u64])
    requires { length values.now ≤ length room.old }
    ensures { room.new ≡ values.now ++ drop (length values.now) room.old }
{
    room[..values.len()].copy_from_slice(values);
}
