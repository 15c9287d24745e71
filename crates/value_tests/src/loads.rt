//! Indexes that were made of sorted pairs, beside a map and beside single insertions. And loads that refuse a pair: what came before stays.

ghost use Rattle.std.specs.Prelude.{All, ◌≤◌, ◌<◌};
ghost use Rattle.hot_index_calls.specs.Passes.{Owns};

use crate::full::{Deed, call_both, expect_same_pairs};
use crate::shared::*;
use hot_index::{
    Call, ClosedPass, Handle, Index, Key, Load, LoadFault, RecordCounts, Reply, Stock, create_with,
};
use plain_index::PlainIndex;
use std::alloc::Global;
use std::process::Abort;
use std::sync::Wait;
use std::test::*;

/// How many numbers there are of keys. Some of them have the same key.
const MANY: u32 = 2_000;

/// Records of each class, enough for all keys.
const STOCK: Stock = Stock {
    nodes: 1_000,
    short: 2_000,
    medium: 1_000,
    large: 1_000,
    wide: 1_000,
    long: 1_000,
};

/// A handle: a pass with a reference to its index.
type Guest<'a> = Handle<&'a Index>;

/// Returns how many bytes the mixed key of `number` has: 0 to 240, with lengths of each class of leaf records among them.
fn mixed_length(number: u32) -> usize
    ensures { result ≤ 240 }
{
    match number % 11 {
        0 => 0,
        1 => 1,
        2 => 2,
        3 => 3,
        4 => 8,
        5 => 9,
        6 => 24,
        7 => 25,
        8 => 57,
        9 => 89,
        _ => 240,
    }
}

/// Returns the key of `number`, which is below `MANY`. Two bytes tell the number, and all others are 0, as far as the key goes. So many
/// keys are prefixes of others.
fn mixed_key(rt: &impl Abort, number: u32) -> Key
    requires { number < 2000 }
{
    let mut bytes = [0; 240];
    bytes[0] = (number / 256) as u8;
    bytes[1] = (number % 256) as u8;
    key(rt, &bytes[..mixed_length(number)])
}

/// Returns a map of all mixed keys, each with the first of its numbers.
fn make_map(rt: &impl Abort, alloc: Global) -> PlainIndex {
    let mut map = PlainIndex::new(alloc);
    for number in 0..MANY {
        let told = map.apply(Call::Insert(mixed_key(rt, number), u64::from(number)));
        assert!(rt; told.is_ok());
    }
    map
}

/// Returns a load that has begun. Panics if that is refused.
pub fn begin_load(rt: &impl Abort, alloc: Global, passes: u32, stock: Stock) -> Load {
    match Load::new(alloc, passes, stock) {
        Ok(load) => load,
        Err(_) => panic!(rt; "no load"),
    }
}

/// Returns the index of the pairs of `load`, and its passes. Panics if memory is refused.
pub fn finish_load(rt: &impl Abort, alloc: Global, load: Load) -> (Index, Vec<ClosedPass>)
    ensures { All (Owns result.0) result.1.items }
{
    match load.finish(alloc) {
        Ok(made) => made,
        Err(_) => panic!(rt; "no memory"),
    }
}

/// Pushes the pairs of `map`, in the order of their keys. Panics if one is refused.
fn push_map(rt: &impl Abort, alloc: Global, load: &mut Load, map: &PlainIndex) {
    let (from, upto) = ends(rt);
    let Ok(scan) = map.scan(alloc, &from, &upto, usize::MAX) else {
        panic!(rt; "no memory")
    };
    for (key, value) in &scan.pairs {
        assert!(rt; load.push(key, *value) == Ok(()));
    }
}

/// Asserts that both counts have as many live leaf records of each class. Asserts that `loaded` has no more live nodes than `single`, and
/// none that is held or obsolete.
fn expect_no_more_records(rt: &impl Abort, loaded: &RecordCounts, single: &RecordCounts) {
    assert!(rt; loaded.nodes.live <= single.nodes.live && loaded.nodes.held == 0);
    assert!(rt; loaded.short.live == single.short.live && loaded.medium.live == single.medium.live);
    assert!(rt; loaded.large.live == single.large.live && loaded.wide.live == single.wide.live);
    assert!(rt; loaded.long.live == single.long.live && loaded.nodes.obsolete == 0);
}

/// Inserts the mixed keys one by one into an index of `STOCK`. Asserts that it has the pairs of `map` then, that `loaded` has them too, and
/// that the counts of both passes agree. `loaded` has no more records in use.
fn expect_as_after_insertions<R: Abort + Wait>(
    rt: &R,
    alloc: Global,
    loaded: &mut Guest,
    map: &PlainIndex,
) {
    let Ok((index, mut passes)) = create_with(alloc, 1, STOCK) else {
        panic!(rt; "no index")
    };
    let mut single = Handle::new(&index, pop_pass(rt, &index, &mut passes));
    for number in 0..MANY {
        assert!(rt;
            single
                .insert(rt, &mixed_key(rt, number), u64::from(number))
                .is_ok()
        );
    }
    let _ = single.collect();
    expect_same_pairs(rt, alloc, &mut single, map);
    expect_same_pairs(rt, alloc, loaded, map);
    assert!(rt; loaded.count().keys == single.count().keys);
    expect_no_more_records(rt, &loaded.census(), &single.census());
}

/// Makes the call of `deed` with each mixed key at the index and at `map`, and asserts that the replies are equal.
fn call_with_each_key<R: Abort + Wait>(
    rt: &R,
    guest: &mut Guest,
    map: &mut PlainIndex,
    deed: Deed,
) {
    for number in 0..MANY {
        assert!(rt; call_both(rt, guest, map, deed, &mixed_key(rt, number)));
    }
}

/// A loaded index has the pairs, scans and counts of one that is filled by single insertions, and no more records in use. Calls with each
/// key, by either of its passes, return what a map does, while they change the nodes that the load has made.
#[test]
fn a_loaded_index_is_as_after_insertions(rt: HostRuntime) {
    let mut map = make_map(&rt, rt.alloc());
    let mut load = begin_load(&rt, rt.alloc(), 2, STOCK);
    push_map(&rt, rt.alloc(), &mut load, &map);
    let (index, mut passes) = finish_load(&rt, rt.alloc(), load);
    let mut second = open_last_handle(&rt, rt.alloc(), &index, &mut passes);
    let mut first = open_last_handle(&rt, rt.alloc(), &index, &mut passes);
    expect_as_after_insertions(&rt, rt.alloc(), &mut first, &map);
    expect_same_pairs(&rt, rt.alloc(), &mut second, &map);
    call_with_each_key(&rt, &mut first, &mut map, Deed::Insert);
    call_with_each_key(&rt, &mut second, &mut map, Deed::Upsert);
    call_with_each_key(&rt, &mut first, &mut map, Deed::Remove);
    expect_same_pairs(&rt, rt.alloc(), &mut second, &map);
    call_with_each_key(&rt, &mut second, &mut map, Deed::Insert);
    expect_same_pairs(&rt, rt.alloc(), &mut first, &map);
}

/// Inserts `key`, which is new. Returns how many steps that took.
fn count_insertion(rt: &impl Abort, guest: &mut Guest, key: &Key) -> u64 {
    let mut counter = Counter { steps: 0 };
    let (index, pass) = (guest.index, &mut guest.pass);
    let told = index.try_insert_with(pass, key, 1, &mut counter);
    assert!(rt; matches!(told, Ok(Reply::Inserted)));
    counter.steps
}

/// The first insertion of a pass into a loaded index goes past no record that has a loaded key. If its claims began at the first records,
/// it would load the states of hundreds of them.
#[test]
fn insertions_go_past_no_loaded_record(rt: HostRuntime) {
    let map = make_map(&rt, rt.alloc());
    let mut load = begin_load(&rt, rt.alloc(), 2, STOCK);
    push_map(&rt, rt.alloc(), &mut load, &map);
    let (index, mut passes) = finish_load(&rt, rt.alloc(), load);
    let mut second = open_last_handle(&rt, rt.alloc(), &index, &mut passes);
    let mut first = open_last_handle(&rt, rt.alloc(), &index, &mut passes);
    assert!(rt; count_insertion(&rt, &mut second, &key(&rt, &[255; 8])) < 300);
    assert!(rt; count_insertion(&rt, &mut first, &key(&rt, &[255; 7])) < 300);
}

/// Counts all keys. Returns how many there are, and how many steps that took.
fn count_all(rt: &impl Abort, guest: &mut Guest) -> (usize, u64) {
    let mut counter = Counter { steps: 0 };
    let (from, upto) = ends(rt);
    let (index, pass) = (guest.index, &mut guest.pass);
    let count = index.count_range_with(pass, &from, &upto, &mut counter);
    (count, counter.steps)
}

/// A count of keys that fill their nodes makes less than two steps for each: one loads its entry. It would make four at least if it read
/// each key, with its value and its length.
#[test]
fn a_count_reads_few_keys(rt: HostRuntime) {
    let mut load = begin_load(&rt, rt.alloc(), 1, STOCK);
    for number in 0u16..2_000 {
        assert!(rt; load.push(&key(&rt, &number.to_be_bytes()), 1) == Ok(()));
    }
    let (index, mut passes) = finish_load(&rt, rt.alloc(), load);
    let mut guest = open_last_handle(&rt, rt.alloc(), &index, &mut passes);
    let (count, steps) = count_all(&rt, &mut guest);
    assert!(rt; count == 2_000);
    assert!(rt; steps < 4_000, "{steps}");
}

/// Makes the index of `load`, of one pass. Asserts that it has just the pairs of `map`, also once one key more is inserted and removed, if
/// there is room for it.
fn expect_pairs_of_map(rt: &(impl Abort + Wait), alloc: Global, load: Load, map: &PlainIndex) {
    let (index, mut passes) = finish_load(rt, alloc, load);
    let mut guest = open_last_handle(rt, alloc, &index, &mut passes);
    expect_same_pairs(rt, alloc, &mut guest, map);
    let another = key(rt, &[255; 8]);
    if guest.insert(rt, &another, 1) == Ok(Reply::Inserted) {
        assert!(rt; guest.remove(rt, &another) == Ok(Reply::Removed(1)));
    }
    expect_same_pairs(rt, alloc, &mut guest, map);
}

/// Pushes the key of `bytes` with `value`, and puts it into `map` if it was taken.
fn push_both(
    rt: &impl Abort,
    load: &mut Load,
    map: &mut PlainIndex,
    bytes: &[u8],
    value: u64,
) -> Result<(), LoadFault> {
    let pushed = key(rt, bytes);
    load.push(&pushed, value)?;
    let told = map.apply(Call::Insert(pushed, value));
    assert!(rt; matches!(told, Ok(Reply::Inserted)));
    Ok(())
}

/// Begins a load of `STOCK`, pushes a pair, and drops the load.
fn drop_load_of_one(rt: &impl Abort, alloc: Global) {
    let mut load = begin_load(rt, alloc, 1, STOCK);
    assert!(rt; load.push(&key(rt, b"a"), 1) == Ok(()));
}

/// A load of no pair makes an empty index, also after a load that was dropped with a pair.
#[test]
fn a_load_of_no_pair_is_empty(rt: HostRuntime) {
    drop_load_of_one(&rt, rt.alloc());
    let load = begin_load(&rt, rt.alloc(), 1, STOCK);
    expect_pairs_of_map(&rt, rt.alloc(), load, &PlainIndex::new(rt.alloc()));
}

/// A key that isn't above the last one is refused, equal or below, and the next one that is above goes in. A key with a byte 0 behind the
/// last one is above it.
#[test]
fn keys_that_do_not_rise_are_refused(rt: HostRuntime) {
    let mut map = PlainIndex::new(rt.alloc());
    let mut load = begin_load(&rt, rt.alloc(), 1, STOCK);
    assert!(rt; push_both(&rt, &mut load, &mut map, b"", 0) == Ok(()));
    assert!(rt; push_both(&rt, &mut load, &mut map, b"", 1) == Err(LoadFault::NotRising));
    assert!(rt; push_both(&rt, &mut load, &mut map, b"b", 2) == Ok(()));
    assert!(rt; push_both(&rt, &mut load, &mut map, b"ab", 3) == Err(LoadFault::NotRising));
    assert!(rt; push_both(&rt, &mut load, &mut map, b"b", 4) == Err(LoadFault::NotRising));
    assert!(rt; push_both(&rt, &mut load, &mut map, b"b\0", 5) == Ok(()));
    assert!(rt; push_both(&rt, &mut load, &mut map, b"", 6) == Err(LoadFault::NotRising));
    expect_pairs_of_map(&rt, rt.alloc(), load, &map);
}

/// Pushes keys of two bytes until one is refused, and returns the fault. Asserts that the index has the keys before it.
fn push_until_refused(rt: &(impl Abort + Wait), alloc: Global, stock: Stock) -> LoadFault {
    let mut map = PlainIndex::new(alloc);
    let mut load = begin_load(rt, alloc, 1, stock);
    for number in 0..u16::MAX {
        let bytes = number.to_be_bytes();
        if let Err(fault) = push_both(rt, &mut load, &mut map, &bytes, u64::from(number)) {
            expect_pairs_of_map(rt, alloc, load, &map);
            return fault;
        }
    }
    panic!(rt; "never refused")
}

/// Where all leaf records are taken, or too few nodes may be left, the key is refused. The index made of the load then has just the pairs
/// before it.
#[test]
fn a_full_load_keeps_its_pairs(rt: HostRuntime) {
    let few = Stock {
        nodes: 1,
        short: 1_000,
        medium: 0,
        large: 0,
        wide: 0,
        long: 0,
    };
    let narrow = Stock {
        nodes: 100,
        short: 30,
        medium: 3,
        large: 0,
        wide: 0,
        long: 0,
    };
    assert!(rt; push_until_refused(&rt, rt.alloc(), few) == LoadFault::NodesFull);
    assert!(rt; push_until_refused(&rt, rt.alloc(), narrow) == LoadFault::LeavesFull);
}

/// Asserts that an index of `stock` has a leaf record for a key of `most` bytes, and takes it behind a shorter one. Asserts that it has
/// none for a key of one byte more, and refuses that key. `most` is below 100.
fn expect_longest_key(rt: &(impl Abort + Wait), alloc: Global, stock: Stock, most: usize)
    requires { most < 100 }
{
    let mut map = PlainIndex::new(alloc);
    let mut load = begin_load(rt, alloc, 1, stock);
    let bytes = [1; 100];
    let longest = &bytes[..most];
    let longer = &bytes[..most + 1];
    assert!(rt; push_both(rt, &mut load, &mut map, &[0], 1) == Ok(()));
    assert!(rt; !load.has_leaf_for(&key(rt, longer)));
    assert!(rt; push_both(rt, &mut load, &mut map, longer, 2) == Err(LoadFault::LeavesFull));
    assert!(rt; load.has_leaf_for(&key(rt, longest)));
    assert!(rt; push_both(rt, &mut load, &mut map, longest, 3) == Ok(()));
    expect_pairs_of_map(rt, alloc, load, &map);
}

/// A key that no leaf record has room for is refused, whatever the largest class is, and one that is a byte shorter is taken. The longest
/// keys of the classes follow from the sizes of leaf records in `docs/FORMATS.md`.
#[test]
fn a_key_too_long_for_each_class_is_refused(rt: HostRuntime) {
    let mut stock = Stock {
        nodes: 8,
        short: 4,
        medium: 0,
        large: 0,
        wide: 0,
        long: 0,
    };
    expect_longest_key(&rt, rt.alloc(), stock, 8);
    stock.medium = 4;
    expect_longest_key(&rt, rt.alloc(), stock, 24);
    stock.large = 4;
    expect_longest_key(&rt, rt.alloc(), stock, 56);
    stock.wide = 4;
    expect_longest_key(&rt, rt.alloc(), stock, 88);
}
