//! The calls for the ends of a range, for programs in C: its first pair and its last pair.

ghost use Rattle.std.specs.Prelude.{◌≡◌};
ghost use Rattle.hot_c.specs.Ends.{FindsFirst, FindsFirstIn, FindsLast};

use crate::handle::IndexHandle;
use crate::pairs::{Order, Pair, Query, write_first_pair};
use crate::scans::fill_list;
use key_bits::MAX_BYTES;

/// Writes the first pair whose key is `from` or above to `pair`, and returns `FOUND`; `ABSENT` if there is none, as `Index::first` does. It
/// fails with `CLOSED`, or with `KEY_TOO_LONG` if `from` has more than 240 bytes. It fails with `NO_MEMORY` only for a pair that it had
/// found. `pair` stays unless the status is `FOUND`. An open handle stays open, with the passes that it keeps. `place` stays.
#[unsafe(no_mangle)]
pub extern "C" fn hot_first(handle: &mut IndexHandle, from: &[u8], pair: &mut Pair) -> u32
    ensures call { FindsFirst from.now handle.old.cell.opened handle.new.cell.opened pair.old pair.new result }
    ensures place { handle.new.place ≡ handle.old.place }
{
    let query = Query {
        order: Order::Upwards,
        from,
        upto: &[u8::MAX; MAX_BYTES],
    };
    find_pair(handle, &query, pair)
}

/// Writes the last pair whose key is `upto` or below to `pair`, and returns `FOUND`; `ABSENT` if there is none, as `Index::last` does. It
/// fails with `CLOSED`, or with `KEY_TOO_LONG` if `upto` has more than 240 bytes. It fails with `NO_MEMORY` only for a pair that it had
/// found. `pair` stays unless the status is `FOUND`. An open handle stays open, with the passes that it keeps. `place` stays.
#[unsafe(no_mangle)]
pub extern "C" fn hot_last(handle: &mut IndexHandle, upto: &[u8], pair: &mut Pair) -> u32
    ensures call { FindsLast upto.now handle.old.cell.opened handle.new.cell.opened pair.old pair.new result }
    ensures place { handle.new.place ≡ handle.old.place }
{
    let query = Query {
        order: Order::Downwards,
        from: &[],
        upto,
    };
    find_pair(handle, &query, pair)
}

/// Writes the pair that a scan of `query` for one pair finds to `pair`, and returns `FOUND`; `ABSENT` if it finds none. It fails with
/// `CLOSED`, `KEY_TOO_LONG` or `NO_MEMORY`, as `fill_list` does. `pair` stays unless the status is `FOUND`. An open handle stays open, with
/// the passes that it keeps. `place` stays.
fn find_pair(handle: &mut IndexHandle, query: &Query, pair: &mut Pair) -> u32
    ensures call { FindsFirstIn query.now.order query.now.from.now query.now.upto.now handle.old.cell.opened handle.new.cell.opened pair.old pair.new result }
    ensures place { handle.new.place ≡ handle.old.place }
{
    match fill_list(handle, query, 1) {
        Ok(_) => {
            let opened = handle.cell.lend();
            let status = write_first_pair(&opened.list, pair);
            opened.empty_list();
            status
        }
        Err(status) => status,
    }
}
