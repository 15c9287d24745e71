//! Handles that are opened, closed and opened again, and the counts of keys that they keep meanwhile.

ghost use Rattle.std.specs.Prelude.{All};
ghost use Rattle.hot_index_calls.specs.Passes.{Owns};

use crate::loads::{begin_load, finish_load};
use crate::shared::*;
use hot_index::{ClosedPass, Handle, Index, Key, Reply, Stock, create_closed, total};
use std::alloc::Global;
use std::process::Abort;
use std::test::*;

/// Returns an index for eight keys, and its two passes, which are closed.
fn create_closed_passes(rt: &impl Abort, alloc: Global) -> (Index, Vec<ClosedPass>)
    ensures { All (Owns result.0) result.1.items }
{
    match create_closed(alloc, 2, Stock::for_keys(8, 240)) {
        Ok(made) => made,
        Err(_) => panic!(rt; "no index"),
    }
}

/// Asserts that `first` inserts a key and `second` another one, that `second` finds the first one's key, and that together they count two.
fn insert_by_both(
    rt: &impl Abort,
    first: &mut Handle<&Index>,
    second: &mut Handle<&Index>,
    keys: &(Key, Key),
) {
    assert!(rt; first.try_insert(&keys.0, 1) == Ok(Reply::Inserted));
    assert!(rt; second.try_upsert(&keys.1, 2) == Ok(Reply::New));
    assert!(rt; second.try_insert(&keys.0, 3) == Ok(Reply::Exists(1)));
    assert!(rt; total(&[first.count(), second.count()]) == 2);
}

/// Asserts that `second`, which has inserted one key, removes both and then counts -1 modulo 2^64. Asserts that together they count none.
fn remove_both_keys(
    rt: &impl Abort,
    first: &mut Handle<&Index>,
    second: &mut Handle<&Index>,
    keys: &(Key, Key),
) {
    assert!(rt; first.get(&keys.1) == Some(2) && first.count().keys == 1);
    assert!(rt; second.try_remove(&keys.0) == Ok(Reply::Removed(1)));
    assert!(rt; second.try_remove_if(&keys.1, 2) == Ok(Reply::Removed(2)));
    assert!(rt; second.try_remove(&keys.1) == Ok(Reply::Absent));
    assert!(rt; second.count().keys == u64::MAX);
    assert!(rt; total(&[first.count(), second.count()]) == 0);
}

/// A closed handle counts its one key, and still does when it is opened again: a count that began anew would make the sum of both wrong.
#[test]
fn a_handle_keeps_its_count_while_it_is_closed(rt: HostRuntime) {
    let (index, mut passes) = create_closed_passes(&rt, rt.alloc());
    let mut first = open_last_handle(&rt, rt.alloc(), &index, &mut passes);
    let mut second = open_last_handle(&rt, rt.alloc(), &index, &mut passes);
    let keys = ends(&rt);
    insert_by_both(&rt, &mut first, &mut second, &keys);
    let closed = first.close();
    assert!(rt; closed.count().keys == 1);
    let mut first = open_handle(&rt, rt.alloc(), closed);
    remove_both_keys(&rt, &mut first, &mut second, &keys);
}

/// Returns an index of the two keys, loaded with the values 1 and 2, and its two passes, which are closed.
fn load_both_keys(rt: &impl Abort, alloc: Global, keys: &(Key, Key)) -> (Index, Vec<ClosedPass>)
    ensures { All (Owns result.0) result.1.items }
{
    let mut load = begin_load(rt, alloc, 2, Stock::for_keys(8, 240));
    assert!(rt; load.push(&keys.0, 1) == Ok(()));
    assert!(rt; load.push(&keys.1, 2) == Ok(()));
    finish_load(rt, alloc, load)
}

/// The first pass of a load counts both keys when it is opened. It removes one, and counts the other when it is closed. The second pass
/// counts none. It finds the key that is left once the first handle is dropped.
#[test]
fn a_loaded_handle_keeps_its_count_while_it_is_closed(rt: HostRuntime) {
    let keys = ends(&rt);
    let (index, mut passes) = load_both_keys(&rt, rt.alloc(), &keys);
    let mut second = open_last_handle(&rt, rt.alloc(), &index, &mut passes);
    let mut first = open_last_handle(&rt, rt.alloc(), &index, &mut passes);
    assert!(rt; first.count().keys == 2 && second.count().keys == 0);
    assert!(rt; first.try_insert(&keys.0, 3) == Ok(Reply::Exists(1)));
    assert!(rt; first.try_remove(&keys.1) == Ok(Reply::Removed(2)));
    assert!(rt; total(&[first.close().count(), second.count()]) == 1);
    assert!(rt; second.get(&keys.0) == Some(1) && second.get(&keys.1).is_none());
}
