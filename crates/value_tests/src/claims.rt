//! Records of a table, by their numbers: a free one is claimed by one seat, filled and released, and a round gives back none that is free.
//! Those of a reserved table are committed as they are claimed.

ghost use Rattle.std.specs.Prelude.{◌≡◌, ◌<◌, true};
ghost use Rattle.rowex_core.specs.Cores.{HasRecord};
ghost use Rattle.rowex_table.specs.Rights.{IsClaimed};
ghost use Rattle.rowex_table.specs.Seats.{IsSeatOf};

use hot_index_calls::count_records;
use record_words::Layout;
use rowex_core::{NoGate, Rec};
use rowex_table::{HotTable, TableSeat};
use std::alloc::Global;
use std::process::Abort;
use std::test::*;
use std::thread::{Threads, join};

/// Returns a table of two seats, eight node records and eight leaf records, and its seats.
fn make_table(rt: &impl Abort, alloc: Global) -> (HotTable, TableSeat, TableSeat)
    ensures layout { (result.0.layout.passes ≡ 2) × (result.0.layout.nodes ≡ 8) × (result.0.layout.leaves ≡ 8) }
    ensures own { IsSeatOf result.0 result.1 × IsSeatOf result.0 result.2 }
{
    let Ok(layout) = Layout::of(2, 8, 8) else {
        panic!(rt; "no layout")
    };
    let Ok((table, mut seats)) = HotTable::new(alloc, layout) else {
        panic!(rt; "no memory")
    };
    match (seats.pop(), seats.pop()) {
        (Some(second), Some(first)) => (table, first, second),
        _ => panic!(rt; "no seats"),
    }
}

/// Loads the state of `rec`, a record of the table, and claims the record if it is free. Returns whether the seat has claimed it.
fn claim_if_free(table: &HotTable, seat: &mut TableSeat, rec: Rec) -> bool
    requires own { IsSeatOf table.now seat.old }
    requires range { HasRecord table.now.layout rec }
    ensures own { IsSeatOf table.now seat.new }
    ensures taken { result ≡ true → IsClaimed seat.new.known rec }
{
    let mut gate = NoGate;
    if table.load_state(seat, &mut gate, rec) != 0 {
        return false;
    }
    table.claim(seat, &mut gate, rec) == 0
}

/// Asserts that `first` claims the free `rec`, a record of the table, and that `second` can't claim it then. Asserts that `second` can once
/// `first` has released the record.
fn hand_record_over(
    rt: &impl Abort,
    table: &HotTable,
    first: &mut TableSeat,
    second: &mut TableSeat,
    rec: Rec,
)
    requires first { IsSeatOf table.now first.old }
    requires second { IsSeatOf table.now second.old }
    requires range { HasRecord table.now.layout rec }
    ensures first { IsSeatOf table.now first.new }
    ensures second { IsSeatOf table.now second.new }
{
    assert!(rt; claim_if_free(table, first, rec));
    assert!(rt; table.claim(second, &mut NoGate, rec) == 1);
    table.release(first, &mut NoGate, rec);
    assert!(rt; table.claim(second, &mut NoGate, rec) == 0);
}

/// Lets `seat` claim node 0, which must be free, and fill a word of it. Asserts that the word stands there.
fn fill_node(rt: &impl Abort, table: &HotTable, seat: &mut TableSeat)
    requires own { IsSeatOf table.now seat.old }
    requires range { 0 < table.now.layout.nodes }
    ensures own { IsSeatOf table.now seat.new }
{
    let node = Rec::Node(0);
    assert!(rt; claim_if_free(table, seat, node));
    table.fill(seat, &mut NoGate, node, 1, 7);
    assert!(rt; table.load_fixed(seat, &mut NoGate, node, 1) == 7);
}

/// Raises the epoch, and loads both pins of the table, which has two passes. Asserts that the epoch goes from 1 to 2, that both pins are
/// clear, and that leaf 0, which is free, isn't given back.
fn expect_free_leaf_kept(rt: &impl Abort, table: &HotTable, seat: &mut TableSeat)
    requires own { IsSeatOf table.now seat.old }
    requires range { (0 < table.now.layout.leaves) × (table.now.layout.passes ≡ 2) }
    ensures own { IsSeatOf table.now seat.new }
{
    assert!(rt; table.load_epoch(seat, &mut NoGate) == 1);
    assert!(rt; table.advance(seat, &mut NoGate, 1) == 1);
    let epoch = table.load_epoch(seat, &mut NoGate);
    let first = table.load_pin(seat, &mut NoGate, 0);
    let second = table.load_pin(seat, &mut NoGate, 1);
    assert!(rt; epoch == 2 && first == 0 && second == 0);
    assert!(rt; table.give_back(seat, &mut NoGate, Rec::Leaf(0), 1) == 0);
}

/// Claims each leaf record that is free. Returns a mask: bit `n % 64` is set if leaf n was claimed.
fn claim_free_leaves(table: &HotTable, seat: &mut TableSeat) -> u64
    requires own { IsSeatOf table.now seat.old }
{
    let mut claimed = 0;
    for number in 0..table.layout().leaves {
        if table.claim(seat, &mut NoGate, Rec::Leaf(number)) == 0 {
            claimed |= 1 << (number & 63);
        }
    }
    claimed
}

/// Two threads claim each leaf record that is free. Asserts that together they claim all of eight but the first, each once.
fn claim_in_threads(
    rt: &(impl Abort + Threads + Sync),
    table: &HotTable,
    seats: (TableSeat, TableSeat),
)
    requires first { IsSeatOf table.now seats.0 }
    requires second { IsSeatOf table.now seats.1 }
{
    let (mut first, mut second) = seats;
    let (ours, theirs) = join(
        rt,
        || -> u64
            requires { IsSeatOf table.now first }
        { claim_free_leaves(table, &mut first) },
        || -> u64
            requires { IsSeatOf table.now second }
        { claim_free_leaves(table, &mut second) },
    );
    assert!(rt; ours & theirs == 0 && ours | theirs == 0xfe);
}

/// A free record isn't given back, and a filled word stands. A record that one seat has claimed can't be claimed by another, until it is
/// released. Two threads claim all that are free, and none twice.
#[test]
fn a_record_has_one_seat(rt: HostRuntime) {
    let (table, mut first, mut second) = make_table(&rt, rt.alloc());
    expect_free_leaf_kept(&rt, &table, &mut first);
    fill_node(&rt, &table, &mut first);
    hand_record_over(&rt, &table, &mut first, &mut second, Rec::Leaf(0));
    claim_in_threads(&rt, &table, (first, second));
}

/// Returns a table of one seat, and its seat. Two of its eight node records are committed, and one of its eight leaf records, all long.
fn make_reserved(rt: &impl Abort, alloc: Global) -> (HotTable, TableSeat)
    ensures layout { (result.0.layout.nodes ≡ 8) × (result.0.layout.leaves ≡ 8) }
    ensures own { IsSeatOf result.0 result.1 }
{
    let Ok(layout) = Layout::of(1, 8, 8) else {
        panic!(rt; "no layout")
    };
    let Ok((table, mut seats)) = HotTable::new_reserved(alloc, layout, &[6, 0, 0, 0, 0, 7]) else {
        panic!(rt; "no memory")
    };
    match seats.pop() {
        Some(seat) => (table, seat),
        None => panic!(rt; "no seat"),
    }
}

/// Asserts that so many node records and long leaf records are uncommitted.
fn expect_uncommitted(
    rt: &impl Abort,
    table: &HotTable,
    seat: &mut TableSeat,
    nodes: u64,
    leaves: u64,
)
    requires own { IsSeatOf table.now seat.old }
    ensures own { IsSeatOf table.now seat.new }
{
    assert!(rt; table.load_uncommitted(seat, 0) == nodes);
    assert!(rt; table.load_uncommitted(seat, 5) == leaves);
}

/// Asserts that the seat claims `rec`, a free record of the table, and that so many node records and long leaf records are uncommitted
/// then.
fn claim_and_expect(
    rt: &impl Abort,
    table: &HotTable,
    seat: &mut TableSeat,
    rec: Rec,
    nodes: u64,
    leaves: u64,
)
    requires own { IsSeatOf table.now seat.old }
    requires range { HasRecord table.now.layout rec }
    ensures own { IsSeatOf table.now seat.new }
{
    assert!(rt; table.claim(seat, &mut NoGate, rec) == 0);
    expect_uncommitted(rt, table, seat, nodes, leaves);
}

/// A claim of a committed record leaves the others of its kind as they are. One of an uncommitted record commits it, and all before it.
/// Others are committed by their number, if as many are uncommitted as was thought. A count of the records tells which are.
#[test]
fn a_claim_commits_its_record(rt: HostRuntime) {
    let (table, mut seat) = make_reserved(&rt, rt.alloc());
    expect_uncommitted(&rt, &table, &mut seat, 6, 7);
    claim_and_expect(&rt, &table, &mut seat, Rec::Node(1), 6, 7);
    claim_and_expect(&rt, &table, &mut seat, Rec::Node(4), 3, 7);
    claim_and_expect(&rt, &table, &mut seat, Rec::Node(3), 3, 7);
    claim_and_expect(&rt, &table, &mut seat, Rec::Leaf(7), 3, 0);
    assert!(&rt; table.commit_records(&mut seat, 0, 4, 1) == 3);
    assert!(&rt; table.commit_records(&mut seat, 0, 3, 1) == 3);
    expect_uncommitted(&rt, &table, &mut seat, 1, 0);
    let counts = count_records(&table, &mut seat, &mut NoGate);
    let nodes = counts.nodes;
    assert!(&rt; nodes.held == 3 && nodes.free == 4 && nodes.uncommitted == 1);
    let leaves = counts.long;
    assert!(&rt; leaves.held == 1 && leaves.free == 7 && leaves.uncommitted == 0);
}
