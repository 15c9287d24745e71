//! The scans of a range whose pairs are packed, for programs in C.

ghost use Rattle.std.specs.Prelude.{◌≡◌, ◌≤◌, ◌++◌, drop, length, map};
ghost use Rattle.hot_c.specs.Orders.{IsFilledIn};
ghost use Rattle.hot_c.specs.Packs.{ListsPacked, ListsPackedBy, ListsPackedReverse, packing};
ghost use Rattle.packed_pairs.specs.Parts.{packed_head, keys_in};

use crate::handle::IndexHandle;
use crate::pairs::{Order, Query};
use crate::scans::fill_list;
use crate::status::DONE;
use packed_pairs::{PairHead, Pairs};

/// Where packed pairs go: the bytes of their keys, one after another, and a head for each.
#[derive(Drop)]
struct Room<'a> {
    bytes: &'a mut [u8],
    heads: &'a mut [PairHead],
}

/// Lists the first pairs whose keys are from `from` to `upto`, both included, in key order, packed, and returns `DONE`. The bytes of their
/// keys go to `bytes`, one after another, and a head for each pair to `heads`. It lists at most as many pairs as `heads` has elements, and
/// only those first ones whose keys together have room in `bytes`. Behind what it writes both stay. `count` becomes the number of the
/// pairs, and `more` 1 if the range has more than these, else 0.
///
/// With `CLOSED`, `KEY_TOO_LONG` (of an end) or `NO_MEMORY` (for a pair that was found) all of `bytes`, `heads`, `count` and `more` stay.
/// An open handle stays open, with the passes that it keeps. `place` stays.
#[unsafe(no_mangle)]
pub extern "C" fn hot_scan_packed(
    handle: &mut IndexHandle,
    from: &[u8],
    upto: &[u8],
    bytes: &mut [u8],
    heads: &mut [PairHead],
    count: &mut usize,
    more: &mut u32,
) -> u32
    ensures call { ListsPacked from.now upto.now handle.old.cell.opened handle.new.cell.opened
        (packing bytes.old heads.old count.old more.old) (packing bytes.new heads.new count.new more.new) result }
    ensures place { handle.new.place ≡ handle.old.place }
{
    let order = Order::Upwards;
    let query = Query { order, from, upto };
    list_packed_pairs(handle, &query, Room { bytes, heads }, count, more)
}

/// Lists the last pairs whose keys are from `from` to `upto`, both included, in falling key order, packed as by `hot_scan_packed`, and
/// returns `DONE`. `count` becomes their number, and `more` 1 if the range has more below them, else 0. With `CLOSED`, `KEY_TOO_LONG` (of
/// an end) or `NO_MEMORY` (for a pair that was found) all of `bytes`, `heads`, `count` and `more` stay. An open handle stays open, with the
/// passes that it keeps. `place` stays.
#[unsafe(no_mangle)]
pub extern "C" fn hot_scan_packed_reverse(
    handle: &mut IndexHandle,
    from: &[u8],
    upto: &[u8],
    bytes: &mut [u8],
    heads: &mut [PairHead],
    count: &mut usize,
    more: &mut u32,
) -> u32
    ensures call { ListsPackedReverse from.now upto.now handle.old.cell.opened handle.new.cell.opened
        (packing bytes.old heads.old count.old more.old) (packing bytes.new heads.new count.new more.new) result }
    ensures place { handle.new.place ≡ handle.old.place }
{
    let order = Order::Downwards;
    let query = Query { order, from, upto };
    list_packed_pairs(handle, &query, Room { bytes, heads }, count, more)
}

/// Lists pairs of `query` into `room`, packed as by `hot_scan_packed`: for `Upwards` the first pairs, in rising order, else the last ones,
/// in falling order. `count` becomes their number, and `more` 1 if there are more, else 0. It returns `DONE`; or `CLOSED`, `KEY_TOO_LONG`
/// or `NO_MEMORY`, with which all stay. An open handle stays open, with the passes that it keeps. `place` stays.
fn list_packed_pairs(
    handle: &mut IndexHandle,
    query: &Query,
    room: Room<'_>,
    count: &mut usize,
    more: &mut u32,
) -> u32
    ensures call { ListsPackedBy (IsFilledIn query.now.order) query.now.from.now query.now.upto.now handle.old.cell.opened handle.new.cell.opened
        (packing room.entry.bytes.now room.entry.heads.now count.old more.old) (packing room.exit.0.now room.exit.1.0.now count.new more.new) result }
    ensures place { handle.new.place ≡ handle.old.place }
{
    let Room { bytes, heads } = room;
    match fill_list(handle, query, heads.len()) {
        Ok((found, is_more)) => {
            let opened = handle.cell.lend();
            opened.list.fit(bytes.len());
            *count = opened.list.len();
            *more = u32::from(is_more || *count < found);
            write_packed_pairs(&opened.list, bytes, heads);
            opened.empty_list();
            DONE
        }
        Err(status) => status,
    }
}

/// Writes the heads of `pairs` to the front of `heads`, and the bytes of their keys to the front of `bytes`. Both must have room for these,
/// and stay as they were behind what is written.
fn write_packed_pairs(pairs: &Pairs, bytes: &mut [u8], heads: &mut [PairHead])
    requires bytes { length (keys_in pairs.now) ≤ length bytes.old }
    requires heads { length pairs.now ≤ length heads.old }
    ensures bytes { bytes.new ≡ keys_in pairs.now ++ drop (length (keys_in pairs.now)) bytes.old }
    ensures heads { heads.new ≡ map packed_head pairs.now ++ drop (length pairs.now) heads.old }
{
    let (all_heads, all_bytes) = pairs.parts();
    heads[..all_heads.len()].copy_from_slice(all_heads);
    bytes[..all_bytes.len()].copy_from_slice(all_bytes);
}
