//! The calls for programs in C that commit reserved records. `c/hot.c` makes them.

ghost use Rattle.std.specs.Prelude.{◌≡◌, ◌<◌, ◌≤◌, IsSome, None};
ghost use Rattle.record_words.specs.declared.TheConstants.{RECORD_KINDS};
ghost use Rattle.hot_c.specs.Calls.{StaysOpen};
ghost use Rattle.hot_c.specs.Committing.{TellsUncommitted};

use crate::handle::IndexHandle;
use crate::status::{CLOSED, DONE, OUT_OF_RANGE};
use hot_index::Kind;

/// Writes how many records of the kind with the number `kind` are reserved and not committed to `left`, as `Index::uncommitted` does, and
/// returns `DONE`. A kind is 0 for nodes, and 1 to 5 for leaves by their class. It returns `CLOSED` if the handle is closed, else
/// `OUT_OF_RANGE` if there is no such kind. Then `left` stays. An open handle stays open, with the passes that it keeps. `place` stays.
#[unsafe(no_mangle)]
pub extern "C" fn hot_uncommitted(handle: &mut IndexHandle, kind: u32, left: &mut u64) -> u32
    ensures closed { handle.old.cell.opened ≡ None → (result ≡ CLOSED) × (handle.new.cell.opened ≡ None) × (left.new ≡ left.old) }
    ensures range { IsSome handle.old.cell.opened → RECORD_KINDS ≤ kind → (result ≡ OUT_OF_RANGE) × (handle.new ≡ handle.old) × (left.new ≡ left.old) }
    ensures found { IsSome handle.old.cell.opened → kind < RECORD_KINDS →
        (result ≡ DONE) × StaysOpen (TellsUncommitted kind left.new) handle.old.cell.opened handle.new.cell.opened }
    ensures place { handle.new.place ≡ handle.old.place }
{
    if !handle.is_open() {
        return CLOSED;
    }
    let Some(kind) = Kind::of(kind) else {
        return OUT_OF_RANGE;
    };
    *left = handle.cell.lend().handle.uncommitted(kind);
    DONE
}

/// Commits the next `count` records of the kind with the number `kind`, as `Index::commit` does. Writes how many of the kind are
/// uncommitted then to `left`, and returns `DONE`. It returns `CLOSED` or `OUT_OF_RANGE` as `hot_uncommitted` does, and then `left` stays. An
/// open handle stays open, with the passes that it keeps. `place` stays.
#[unsafe(no_mangle)]
pub extern "C" fn hot_commit(handle: &mut IndexHandle, kind: u32, count: u64, left: &mut u64) -> u32
    ensures closed { handle.old.cell.opened ≡ None → (result ≡ CLOSED) × (handle.new.cell.opened ≡ None) × (left.new ≡ left.old) }
    ensures range { IsSome handle.old.cell.opened → RECORD_KINDS ≤ kind → (result ≡ OUT_OF_RANGE) × (handle.new ≡ handle.old) × (left.new ≡ left.old) }
    ensures found { IsSome handle.old.cell.opened → kind < RECORD_KINDS →
        (result ≡ DONE) × StaysOpen (TellsUncommitted kind left.new) handle.old.cell.opened handle.new.cell.opened }
    ensures place { handle.new.place ≡ handle.old.place }
{
    if !handle.is_open() {
        return CLOSED;
    }
    let Some(kind) = Kind::of(kind) else {
        return OUT_OF_RANGE;
    };
    *left = handle.cell.lend().handle.commit(kind, count);
    DONE
}

/// Returns whether the next `count` claims of the handle, of the kind with the number `kind`, may go past the records that it has committed:
/// 1 if so, as `Index::is_short_of` says, else 0. It is 0 for a closed handle, and where there is no such kind. The handle stays as it was.
#[unsafe(no_mangle)]
pub extern "C" fn hot_is_short_of(handle: &mut IndexHandle, kind: u32, count: u32) -> u32
    ensures kept { handle.new.cell.opened ≡ handle.old.cell.opened }
    ensures place { handle.new.place ≡ handle.old.place }
{
    if !handle.is_open() {
        return 0;
    }
    match Kind::of(kind) {
        Some(kind) if handle.cell.lend().handle.is_short_of(kind, count) => 1,
        _ => 0,
    }
}
