//! Indexes that are filled to the last record, beside a map: held keys take new values there, all can be removed, and as many go in again.
//! What is refused memory is asked for again.

ghost use Rattle.std.specs.Prelude.{◌<◌, ◌≤◌};

use crate::shared::*;
use finite_map::Scan;
use hot_index::{Call, Handle, Index, Key, NoGate, Reply};
use plain_index::PlainIndex;
use std::alloc::{AllocError, Global};
use std::process::Abort;
use std::sync::Wait;
use std::test::*;

/// How many keys there are, one more than leaf records.
const MANY: u32 = 1_000;

/// A handle: a pass with a reference to its index.
type Guest<'a> = Handle<&'a Index>;

/// What a call does with its key.
#[derive(Clone, Copy)]
pub enum Deed {
    Insert,
    Upsert,
    Exchange,
    Add,
    Remove,
}

/// Returns the call of `deed` with `key`. In the order of the deeds, each call finds the value that it wants.
fn make_call(deed: Deed, key: Key) -> Call {
    match deed {
        Deed::Insert => Call::Insert(key, 1),
        Deed::Upsert => Call::Upsert(key, 2),
        Deed::Exchange => Call::Exchange(key, 2, 3),
        Deed::Add => Call::Add(key, 4),
        Deed::Remove => Call::Remove(key),
    }
}

/// Returns the key of two bytes for `number`, which must be below `MANY`. The keys of numbers that follow each other are far apart.
fn numbered_key(rt: &impl Abort, number: u32) -> Key
    requires { number < 1000 }
{
    key(rt, &[(number * 37 % 256) as u8, (number / 256) as u8])
}

/// Returns the reply of `map` to the call of `deed` with `key`, made again where memory is refused once.
fn apply_to_map(rt: &impl Abort, map: &mut PlainIndex, deed: Deed, key: &Key) -> Reply {
    let told = match map.apply(make_call(deed, key.copy())) {
        Ok(reply) => Ok(reply),
        Err(_) => map.apply(make_call(deed, key.copy())),
    };
    match told {
        Ok(reply) => reply,
        Err(_) => panic!(rt; "no memory"),
    }
}

/// Makes the call of `deed` with `key` at the index, and at `map` if it wasn't refused. Asserts that the replies are equal. Returns whether
/// the call was made.
pub fn call_both<R: Abort + Wait>(
    rt: &R,
    guest: &mut Guest,
    map: &mut PlainIndex,
    deed: Deed,
    key: &Key,
) -> bool {
    let call = make_call(deed, key.copy());
    let (index, pass) = (guest.index, &mut guest.pass);
    match index.call_with(rt, pass, &call, &mut NoGate) {
        Ok(reply) => {
            assert!(rt; reply == apply_to_map(rt, map, deed, key));
            true
        }
        Err(_) => false,
    }
}

/// Makes the calls of `deed` with the keys of the numbers below `count`, which is `MANY` at most, up to the first that is refused. Returns
/// how many were made.
fn call_for_keys<R: Abort + Wait>(
    rt: &R,
    guest: &mut Guest,
    map: &mut PlainIndex,
    deed: Deed,
    count: u32,
) -> u32
    requires { count ≤ 1000 }
    ensures { result ≤ count }
{
    for number in 0..count {
        if !call_both(rt, guest, map, deed, &numbered_key(rt, number)) {
            return number;
        }
    }
    count
}

/// Returns the scan of all pairs of `guest`; `AllocError` if memory is refused.
fn scan_all(rt: &impl Abort, alloc: Global, guest: &mut Guest) -> Result<Scan, AllocError> {
    let (from, upto) = ends(rt);
    guest.scan(alloc, &from, &upto, usize::MAX)
}

/// Returns the scan of all pairs of `map`; `AllocError` if memory is refused.
fn scan_map(rt: &impl Abort, alloc: Global, map: &PlainIndex) -> Result<Scan, AllocError> {
    let (from, upto) = ends(rt);
    map.scan(alloc, &from, &upto, usize::MAX)
}

/// Asserts that scans of the index and of the map have the same pairs, and that the index counts as many. Each scan is made again where
/// memory is refused once.
pub fn expect_same_pairs(rt: &impl Abort, alloc: Global, guest: &mut Guest, map: &PlainIndex) {
    let ours = match scan_all(rt, alloc, guest) {
        Ok(scan) => Ok(scan),
        Err(_) => scan_all(rt, alloc, guest),
    };
    let theirs = match scan_map(rt, alloc, map) {
        Ok(scan) => Ok(scan),
        Err(_) => scan_map(rt, alloc, map),
    };
    match (ours, theirs) {
        (Ok(ours), Ok(theirs)) => {
            assert!(rt; ours.pairs == theirs.pairs && !ours.more);
            let (from, upto) = ends(rt);
            assert!(rt; guest.count_range(&from, &upto) == theirs.pairs.len());
        }
        _ => panic!(rt; "no memory"),
    }
}

/// Fills the index by inserts until one is refused, and returns how many keys went in. Asserts that each held key takes new values then,
/// and that the refused key is refused again. Asserts that the index has the pairs of the map.
fn fill<R: Abort + Wait>(rt: &R, alloc: Global, guest: &mut Guest, map: &mut PlainIndex) -> u32
    ensures { result < 1000 }
{
    let count = call_for_keys(rt, guest, map, Deed::Insert, MANY);
    assert!(rt; count < MANY);
    for deed in [Deed::Upsert, Deed::Exchange, Deed::Add] {
        assert!(rt; call_for_keys(rt, guest, map, deed, count) == count);
    }
    assert!(rt; !call_both(rt, guest, map, Deed::Upsert, &numbered_key(rt, count)));
    expect_same_pairs(rt, alloc, guest, map);
    count
}

/// Fills an index of `nodes` node records, removes all keys, and fills it again. Asserts that as many keys go in. Returns how many.
pub fn fill_twice<R: Abort + Wait>(rt: &R, alloc: Global, nodes: u32) -> u32 {
    let (index, mut passes) = make_index_of_size(rt, alloc, 1, nodes, MANY - 1);
    let mut guest = Handle::new(&index, pop_pass(rt, &index, &mut passes));
    let mut map = PlainIndex::new(alloc);
    let count = fill(rt, alloc, &mut guest, &mut map);
    let removed = call_for_keys(rt, &mut guest, &mut map, Deed::Remove, count);
    assert!(rt; removed == count);
    expect_same_pairs(rt, alloc, &mut guest, &map);
    assert!(rt; fill(rt, alloc, &mut guest, &mut map) == count);
    count
}

/// With one to a hundred nodes, a full index takes new values of its keys, can be emptied, and takes as many keys again. It would take
/// fewer if a call had lost a record. With one node these are two, with two they are 32. The largest lack no node, but leaves.
#[test]
fn a_full_index_can_be_emptied(rt: HostRuntime) {
    assert!(rt; fill_twice(&rt, rt.alloc(), 1) == 2);
    assert!(rt; fill_twice(&rt, rt.alloc(), 2) == 32);
    for nodes in [3, 4, 5, 6, 7, 8, 9, 10, 12, 15, 20, 50, 100] {
        let _ = fill_twice(&rt, rt.alloc(), nodes);
    }
}

/// Where there are several passes, insertions leave one node record, which removals need: with one node asked for, two keys go in, and both
/// can be removed.
#[test]
fn insertions_of_two_passes_leave_a_node(rt: HostRuntime) {
    let (index, mut passes) = make_index_of_size(&rt, rt.alloc(), 2, 1, MANY - 1);
    let mut guest = Handle::new(&index, pop_pass(&rt, &index, &mut passes));
    let mut map = PlainIndex::new(rt.alloc());
    assert!(rt; fill(&rt, rt.alloc(), &mut guest, &mut map) == 2);
    assert!(rt; call_for_keys(&rt, &mut guest, &mut map, Deed::Remove, 2) == 2);
}
