//! Threads that read and change an index that was made of sorted pairs.

ghost use Rattle.std.specs.Prelude.{All};
ghost use Rattle.hot_index_calls.specs.Passes.{Owns};

use crate::full::expect_same_pairs;
use crate::loads::{begin_load, finish_load};
use crate::shared::*;
use hot_index::{Call, ClosedPass, Handle, Index, Key, Reply, Stock, total};
use plain_index::PlainIndex;
use std::alloc::Global;
use std::process::Abort;
use std::sync::Wait;
use std::test::*;
use std::thread::{Threads, join};

/// How many keys are loaded. A key's part is its number modulo 3: each thread replaces the keys of one part.
const MANY: u16 = 3_000;

/// The part of the keys that stay.
const STAYS: u16 = 2;

/// A handle: a pass with a reference to its index.
type Guest<'a> = Handle<&'a Index>;

/// Returns the key of two bytes that is loaded for `number`.
fn loaded_key(rt: &impl Abort, number: u16) -> Key {
    key(rt, &number.to_be_bytes())
}

/// Returns the key of three bytes that takes the place of the one of `number`.
fn longer_key(rt: &impl Abort, number: u16) -> Key {
    let [high, low] = number.to_be_bytes();
    key(rt, &[high, low, 0])
}

/// Returns an index of two passes with the keys of all numbers, each with its number as the value, and these passes.
fn load_numbers(rt: &impl Abort, alloc: Global) -> (Index, Vec<ClosedPass>)
    ensures { All (Owns result.0) result.1.items }
{
    let mut load = begin_load(rt, alloc, 2, Stock::for_keys(2 * u32::from(MANY), 8));
    for number in 0..MANY {
        assert!(rt; load.push(&loaded_key(rt, number), u64::from(number)) == Ok(()));
    }
    finish_load(rt, alloc, load)
}

/// Returns a map of the pairs that are left in the end: the keys that stay, and the longer ones.
fn make_map_of_rest(rt: &impl Abort, alloc: Global) -> PlainIndex {
    let mut map = PlainIndex::new(alloc);
    for number in 0..MANY {
        let key = match number % 3 {
            STAYS => loaded_key(rt, number),
            _ => longer_key(rt, number),
        };
        let told = map.apply(Call::Insert(key, u64::from(number)));
        assert!(rt; matches!(told, Ok(Reply::Inserted)));
    }
    map
}

/// Replaces the key of `number` by the longer one, with the same value. Asserts that the key had its number as the value.
fn replace_key<R: Abort + Wait>(rt: &R, guest: &mut Guest, number: u16) {
    let value = u64::from(number);
    assert!(rt; guest.remove(rt, &loaded_key(rt, number)) == Ok(Reply::Removed(value)));
    assert!(rt; guest.insert(rt, &longer_key(rt, number), value) == Ok(Reply::Inserted));
}

/// Replaces each key of `part`. Asserts that each key that stays is found meanwhile. Returns the handle.
fn replace_part<'a, R: Abort + Wait>(rt: &R, mut guest: Guest<'a>, part: u16) -> Guest<'a> {
    for number in 0..MANY {
        if number % 3 == part {
            replace_key(rt, &mut guest, number);
        }
        if number % 3 == STAYS {
            assert!(rt; guest.get(&loaded_key(rt, number)) == Some(u64::from(number)));
        }
    }
    guest
}

/// Two threads replace a part of the keys each. Returns their handles.
fn replace_in_threads<'a, R: Abort + Threads + Wait + Sync>(
    rt: &R,
    first: Guest<'a>,
    second: Guest<'a>,
) -> (Guest<'a>, Guest<'a>) {
    join(
        rt,
        || -> Guest { replace_part(rt, first, 0) },
        || -> Guest { replace_part(rt, second, 1) },
    )
}

/// Two threads replace two thirds of the keys of a loaded index, and find all others meanwhile. Their counts add up to the number of keys.
/// The pairs in the end are those of a map of one thread.
#[test]
fn threads_change_a_loaded_index(rt: HostRuntime) {
    let (index, mut passes) = load_numbers(&rt, rt.alloc());
    let second = open_last_handle(&rt, rt.alloc(), &index, &mut passes);
    let first = open_last_handle(&rt, rt.alloc(), &index, &mut passes);
    let (mut first, second) = replace_in_threads(&rt, first, second);
    assert!(rt; total(&[first.count(), second.count()]) == u64::from(MANY));
    expect_same_pairs(
        &rt,
        rt.alloc(),
        &mut first,
        &make_map_of_rest(&rt, rt.alloc()),
    );
}
