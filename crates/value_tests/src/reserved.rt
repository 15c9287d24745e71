//! Indexes that reserve records: an insertion that finds no committed record free says so, and is made once more are committed.

ghost use Rattle.std.specs.Prelude.{All};
ghost use Rattle.hot_index_calls.specs.Passes.{Owns};

use crate::loads::begin_load;
use crate::shared::*;
use hot_index::{ClosedPass, Handle, Index, Kind, Load, Reply, Stock, TryFault, create_reserved};
use record_words::LeafClass;
use std::alloc::Global;
use std::process::Abort;
use std::test::*;

/// Leaves for keys of up to 8 bytes.
const SHORT: Kind = Kind::Leaves(LeafClass::Short);

/// Returns a stock of so many nodes and short leaves.
fn stock_of(nodes: u32, short: u32) -> Stock {
    Stock {
        nodes,
        short,
        medium: 0,
        large: 0,
        wide: 0,
        long: 0,
    }
}

/// Returns an empty index of one pass with 1,000 nodes and 2,000 short leaves, of which so many are committed, and its pass, closed.
fn reserve(rt: &impl Abort, alloc: Global, nodes: u32, short: u32) -> (Index, Vec<ClosedPass>)
    ensures { All (Owns result.0) result.1.items }
{
    match create_reserved(alloc, 1, stock_of(1_000, 2_000), stock_of(nodes, short)) {
        Ok(made) => made,
        Err(_) => panic!(rt; "no index"),
    }
}

/// Returns the index of the pairs of `load`, with no records committed but those that it takes, and its passes.
fn finish_load(rt: &impl Abort, alloc: Global, load: Load) -> (Index, Vec<ClosedPass>)
    ensures { All (Owns result.0) result.1.items }
{
    match load.finish_reserved(alloc, stock_of(0, 0)) {
        Ok(made) => made,
        Err(_) => panic!(rt; "no memory"),
    }
}

/// Asserts that keys of one byte are inserted, from `from` on and below `upto`, and that the next one is refused by `fault`.
fn fill(rt: &impl Abort, handle: &mut Handle<&Index>, from: u8, upto: u8, fault: TryFault) {
    for number in from..upto {
        let inserted = handle.try_insert(&key(rt, &[number]), u64::from(number));
        assert!(rt; inserted == Ok(Reply::Inserted));
    }
    assert!(rt; handle.try_insert(&key(rt, &[upto]), 0) == Err(fault));
}

/// An index with 8 short leaves committed of 2,000 takes 8 keys, and as many more as are committed then. Each stays with its value.
#[test]
fn leaves_are_full_until_more_are_committed(rt: HostRuntime) {
    let (index, mut passes) = reserve(&rt, rt.alloc(), 100, 8);
    let mut handle = open_last_handle(&rt, rt.alloc(), &index, &mut passes);
    assert!(&rt; handle.uncommitted(SHORT) == 1_992 && handle.uncommitted(Kind::Nodes) == 900);
    fill(&rt, &mut handle, 0, 8, TryFault::FullLeaves);
    assert!(&rt; handle.commit(SHORT, 4) == 1_988);
    fill(&rt, &mut handle, 8, 12, TryFault::FullLeaves);
    assert!(&rt; handle.commit(SHORT, 5_000) == 0 && handle.commit(SHORT, 1) == 0);
    assert!(&rt; handle.try_insert(&key(&rt, &[12]), 12) == Ok(Reply::Inserted));
    assert!(&rt;
        handle.get(&key(&rt, &[0])) == Some(0) && handle.get(&key(&rt, &[12])) == Some(12)
    );
}

/// An index with one node committed, and the kept one, takes keys until a change needs a third, and more once more are committed. A removal
/// that finds none free commits one itself.
#[test]
fn nodes_are_full_until_more_are_committed(rt: HostRuntime) {
    let (index, mut passes) = reserve(&rt, rt.alloc(), 1, 1_000);
    let mut handle = open_last_handle(&rt, rt.alloc(), &index, &mut passes);
    fill(&rt, &mut handle, 0, 33, TryFault::FullNodes);
    assert!(&rt; handle.uncommitted(Kind::Nodes) == 999);
    assert!(&rt; handle.try_remove(&key(&rt, &[5])) == Ok(Reply::Removed(5)));
    assert!(&rt; handle.uncommitted(Kind::Nodes) == 998);
    assert!(&rt; handle.try_insert(&key(&rt, &[5]), 5) == Ok(Reply::Inserted));
    assert!(&rt; handle.commit(Kind::Nodes, 10) == 988);
    assert!(&rt; handle.try_insert(&key(&rt, &[33]), 33) == Ok(Reply::Inserted));
    assert!(&rt;
        handle.get(&key(&rt, &[5])) == Some(5) && handle.get(&key(&rt, &[33])) == Some(33)
    );
}

/// A load commits what its pairs take, and a node more. So the next key lacks a leaf, and a removal lacks nothing.
#[test]
fn a_load_commits_what_it_takes(rt: HostRuntime) {
    let mut load = begin_load(&rt, rt.alloc(), 1, stock_of(1_000, 2_000));
    for number in 0..40u8 {
        assert!(&rt; load.push(&key(&rt, &[number]), u64::from(number)) == Ok(()));
    }
    let (index, mut passes) = finish_load(&rt, rt.alloc(), load);
    let mut handle = open_last_handle(&rt, rt.alloc(), &index, &mut passes);
    assert!(&rt; handle.uncommitted(SHORT) == 1_960 && handle.uncommitted(Kind::Nodes) < 1_000);
    assert!(&rt; handle.try_insert(&key(&rt, &[40]), 40) == Err(TryFault::FullLeaves));
    assert!(&rt; handle.commit(SHORT, 10) == 1_950);
    assert!(&rt; handle.try_remove(&key(&rt, &[39])) == Ok(Reply::Removed(39)));
}
