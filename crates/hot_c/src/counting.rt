//! The number of the keys of a range, or with a prefix, for programs in C.

ghost use Rattle.std.specs.Prelude.{◌≡◌};
ghost use Rattle.key_ranges.specs.Ranges.{last_with};
ghost use Rattle.hot_c.specs.Counting.{CountsRange};

use crate::handle::IndexHandle;
use crate::status::{CLOSED, DONE, KEY_TOO_LONG};
use key_bits::Key;
use key_ranges::last_with_prefix;

/// Writes the number of the keys from `from` to `upto`, both included, to `count`, as `Index::count_range` finds it, and returns `DONE`.
/// The number is at most 2^63 - 1. Else `count` stays: it returns `CLOSED` if `handle` is closed, and `KEY_TOO_LONG` if an end has more
/// than 240 bytes. No other status is returned. An open handle stays open, with the passes that it keeps. `place` stays.
#[unsafe(no_mangle)]
pub extern "C" fn hot_count(
    handle: &mut IndexHandle,
    from: &[u8],
    upto: &[u8],
    count: &mut usize,
) -> u32
    ensures call { CountsRange from.now upto.now handle.old.cell.opened handle.new.cell.opened count.old count.new result }
    ensures place { handle.new.place ≡ handle.old.place }
{
    if !handle.is_open() {
        return CLOSED;
    }
    let mut first = Key::empty();
    let mut last = Key::empty();
    let (Ok(()), Ok(())) = (first.set_bytes(from), last.set_bytes(upto)) else {
        return KEY_TOO_LONG;
    };
    *count = handle.cell.lend().handle.count_range(&first, &last);
    DONE
}

/// Writes the number of the keys that begin with `prefix` to `count`, as `hot_count` does for their range, and returns `DONE`. Else `count`
/// stays: it returns `CLOSED` if `handle` is closed, and `KEY_TOO_LONG` if `prefix` has more than 240 bytes. No other status is returned.
/// An open handle stays open, with the passes that it keeps. `place` stays.
#[unsafe(no_mangle)]
pub extern "C" fn hot_count_prefix(
    handle: &mut IndexHandle,
    prefix: &[u8],
    count: &mut usize,
) -> u32
    ensures call { CountsRange prefix.now (last_with prefix.now) handle.old.cell.opened handle.new.cell.opened count.old count.new result }
    ensures place { handle.new.place ≡ handle.old.place }
{
    if !handle.is_open() {
        return CLOSED;
    }
    let Ok(first) = Key::from_bytes(prefix) else {
        return KEY_TOO_LONG;
    };
    let last = last_with_prefix(&first);
    hot_count(handle, prefix, last.as_bytes(), count)
}
