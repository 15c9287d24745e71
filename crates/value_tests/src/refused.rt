//! Tests that pass also where any one allocation is refused: the call that was refused memory says so, and is made again then, and
//! succeeds. What they share asks again, too.

ghost use Rattle.std.specs.Prelude.{All, IfOk};
ghost use Rattle.hot_index_calls.specs.Passes.{Owns};

use crate::full::fill_twice;
use crate::shared::*;
use finite_map::{Call, Scan};
use hot_index::{
    ClosedHandle, ClosedPass, Event, Gate, Handle, Index, Key, Load, LoadFault, Reply, Stock,
};
use plain_index::PlainIndex;
use plain_trie::PlainTrie;
use record_words::Layout;
use rowex_replay::{Replay, ReplayFault};
use std::alloc::{AllocError, Global};
use std::process::Abort;
use std::test::*;

/// A handle: a pass with a reference to its index.
type Guest<'a> = Handle<&'a Index>;

/// The direction of a scan.
#[derive(Clone, Copy)]
enum Direction {
    Upwards,
    Downwards,
}

/// Scans nine pairs at most between the two keys of `ends`, in `direction`. `AllocError` if memory is refused.
fn scan_between_keys(
    alloc: Global,
    guest: &mut Guest,
    direction: Direction,
    ends: &(Key, Key),
) -> Result<Scan, AllocError> {
    match direction {
        Direction::Upwards => guest.scan(alloc, &ends.0, &ends.1, 9),
        Direction::Downwards => guest.scan_reverse(alloc, &ends.0, &ends.1, 9),
    }
}

/// Asserts that `scan` has `count` pairs, and that there are no more. Panics if memory was refused.
fn expect_whole_scan(rt: &impl Abort, scan: Result<Scan, AllocError>, count: usize) {
    match scan {
        Ok(scan) => assert!(rt; scan.pairs.len() == count && !scan.more),
        Err(_) => panic!(rt; "no memory"),
    }
}

/// Inserts the two keys, which are absent, with the values 1 and 2.
fn insert_both_keys(rt: &impl Abort, guest: &mut Guest, keys: &(Key, Key)) {
    assert!(rt; guest.try_insert(&keys.0, 1) == Ok(Reply::Inserted));
    assert!(rt; guest.try_insert(&keys.1, 2) == Ok(Reply::Inserted));
}

/// Removes the first key and inserts it again. Asserts that a round gives its old leaf back.
fn replace_first_leaf(rt: &impl Abort, guest: &mut Guest, keys: &(Key, Key)) {
    assert!(rt; guest.try_remove(&keys.0) == Ok(Reply::Removed(1)));
    assert!(rt; guest.try_insert(&keys.0, 3) == Ok(Reply::Inserted));
    assert!(rt; guest.collect().leaves == 1);
}

/// Asserts that a scan of two keys by `guest`, refused memory or not, leaves no pin: a leaf that `other` replaces then is given back.
fn scan_beside_change(
    rt: &impl Abort,
    alloc: Global,
    guest: &mut Guest,
    other: &mut Guest,
    direction: Direction,
) {
    let ends = ends(rt);
    insert_both_keys(rt, other, &ends);
    let first = scan_between_keys(alloc, guest, direction, &ends);
    replace_first_leaf(rt, other, &ends);
    let scan = match first {
        Ok(scan) => Ok(scan),
        Err(_) => scan_between_keys(alloc, guest, direction, &ends),
    };
    expect_whole_scan(rt, scan, 2);
    expect_last_pair(rt, alloc, guest, &ends.1);
}

/// Returns the last pair up to `key`, asked for again where memory is refused once. It returns an error if memory is refused twice.
fn find_last_pair(
    alloc: Global,
    guest: &mut Guest,
    key: &Key,
) -> Result<Option<(Key, u64)>, AllocError> {
    match guest.last(alloc, key) {
        Ok(last) => Ok(last),
        Err(_) => guest.last(alloc, key),
    }
}

/// Asserts that the last pair up to `key` is that of `key`, with the value 2.
fn expect_last_pair(rt: &impl Abort, alloc: Global, guest: &mut Guest, key: &Key) {
    let Ok(Some((found, value))) = find_last_pair(alloc, guest, key) else {
        panic!(rt; "no pair")
    };
    assert!(rt; found == *key && value == 2);
}

/// Asserts that a scan in `direction`, by a pass of a new index, leaves no pin.
fn scan_new_index(rt: &impl Abort, alloc: Global, direction: Direction) {
    let (index, mut passes) = make_index(rt, alloc, 2);
    let mut guest = Handle::new(&index, pop_pass(rt, &index, &mut passes));
    let mut other = Handle::new(&index, pop_pass(rt, &index, &mut passes));
    scan_beside_change(rt, alloc, &mut guest, &mut other, direction);
}

/// A scan that was refused memory leaves no pin, upwards as downwards. Otherwise the leaf that another pass replaces after it would not be
/// given back.
#[test]
fn scans_leave_no_pin(rt: HostRuntime) {
    scan_new_index(&rt, rt.alloc(), Direction::Upwards);
    scan_new_index(&rt, rt.alloc(), Direction::Downwards);
}

/// A gate that gives each step to a replay, and once more where memory was refused. `wrong` counts the steps that are refused in the end.
#[derive(Drop)]
struct RetryingGate {
    replay: Replay,
    wrong: u32,
}

impl Gate for RetryingGate {
    ghost becomes = { λ _ _ _. Unit {0} };

    /// Gives `event` to the replay, and once more if memory was refused. Counts one wrong if it is refused in the end.
    fn at(&mut self, event: &Event) {
        let changes = self.replay.changes();
        let told = match self.replay.step(*event) {
            Err(ReplayFault::Memory) if self.replay.changes() == changes => self
                .replay
                .step(*event),
            told => told,
        };
        if told.is_err() {
            self.wrong = self.wrong.wrapping_add(1);
        }
    }
}

/// Returns a replay without an event, of an index with one pass. Where memory is refused once, the next call makes it.
fn make_replay(rt: &impl Abort, alloc: Global) -> Replay {
    let Ok(layout) = Layout::of(1, 2, 8) else {
        panic!(rt; "no layout")
    };
    match Replay::new(alloc, layout) {
        Ok(replay) => replay,
        Err(_) => match Replay::new(alloc, layout) {
            Ok(replay) => replay,
            Err(_) => panic!(rt; "no memory"),
        },
    }
}

/// Inserts two keys and removes one of them, with `gate`. Asserts that its replay takes each step, and has three changes then.
fn change_with_gate(rt: &impl Abort, guest: &mut Guest, gate: &mut RetryingGate) {
    let (low, high) = ends(rt);
    let (index, pass) = (guest.index, &mut guest.pass);
    assert!(rt; index.try_insert_with(pass, &low, 1, gate) == Ok(Reply::Inserted));
    assert!(rt; index.try_insert_with(pass, &high, 2, gate) == Ok(Reply::Inserted));
    assert!(rt; index.try_remove_with(pass, &low, gate) == Ok(Reply::Removed(1)));
    assert!(rt; gate.wrong == 0 && gate.replay.changes() == 3);
}

/// Asserts that `replay` holds `count` pairs, asked for again where memory is refused once.
fn expect_pair_count(rt: &impl Abort, alloc: Global, replay: &Replay, count: usize) {
    let held = match replay.content(alloc) {
        Ok(pairs) => Ok(pairs),
        Err(_) => replay.content(alloc),
    };
    match held {
        Ok(pairs) => assert!(rt; pairs.len() == count),
        Err(_) => panic!(rt; "no memory"),
    }
}

/// A step refused for want of memory changes nothing: told again, it is made. The replay has three changes and one pair then.
#[test]
fn a_replay_refused_memory_stays_as_it_was(rt: HostRuntime) {
    let (index, mut passes) = make_index(&rt, rt.alloc(), 1);
    let mut guest = Handle::new(&index, pop_pass(&rt, &index, &mut passes));
    let mut gate = RetryingGate {
        replay: make_replay(&rt, rt.alloc()),
        wrong: 0,
    };
    change_with_gate(&rt, &mut guest, &mut gate);
    expect_pair_count(&rt, rt.alloc(), &gate.replay, 1);
}

/// Inserts `key`. Where memory was refused, the key is absent, and the next call inserts it.
fn insert_in_plain_index(rt: &impl Abort, index: &mut PlainIndex, key: Key) {
    if index.apply(Call::Insert(key.copy(), 1)).is_err() {
        let told = index.apply(Call::Get(key.copy()));
        assert!(rt; matches!(told, Ok(Reply::Absent)));
        let told = index.apply(Call::Insert(key, 1));
        assert!(rt; matches!(told, Ok(Reply::Inserted)));
    }
}

/// An insert that was refused memory adds nothing, and a second one does; a scan has all twenty keys.
#[test]
fn a_plain_index_refused_memory_stays_as_it_was(rt: HostRuntime) {
    let mut index = PlainIndex::new(rt.alloc());
    for byte in 1..=20u8 {
        insert_in_plain_index(&rt, &mut index, key(&rt, &[byte]));
    }
    let (from, upto) = ends(&rt);
    let scan = match index.scan(rt.alloc(), &from, &upto, 100) {
        Ok(scan) => Ok(scan),
        Err(_) => index.scan(rt.alloc(), &from, &upto, 100),
    };
    expect_whole_scan(&rt, scan, 20);
}

/// Inserts `key`. Where memory was refused, the key is absent, and an upsert adds it.
fn insert_in_trie(rt: &impl Abort, trie: &mut PlainTrie, key: &Key) {
    if trie.insert(key, 1).is_err() {
        assert!(rt; trie.get(key).is_none());
        let told = trie.upsert(key, 1);
        assert!(rt; matches!(told, Ok(Reply::New)));
    }
}

/// An insert that was refused memory adds nothing, and an upsert then does; a scan has all forty keys.
#[test]
fn a_plain_trie_refused_memory_stays_as_it_was(rt: HostRuntime) {
    let mut trie = PlainTrie::new(rt.alloc());
    for byte in 1..=40u8 {
        insert_in_trie(&rt, &mut trie, &key(&rt, &[byte]));
    }
    let (from, upto) = ends(&rt);
    let scan = match trie.scan(rt.alloc(), &from, &upto, 100) {
        Ok(scan) => Ok(scan),
        Err(_) => trie.scan(rt.alloc(), &from, &upto, 100),
    };
    expect_whole_scan(&rt, scan, 40);
}

/// An index of two nodes is filled with 32 keys, emptied, and filled again, also where the map beside it was refused memory once.
#[test]
fn a_full_index_beside_a_map_refused_memory_can_be_emptied(rt: HostRuntime) {
    assert!(rt; fill_twice(&rt, rt.alloc(), 2) == 32);
}

/// Pushes `key`. Where memory was refused, the next call takes it.
fn push_key(rt: &impl Abort, load: &mut Load, key: &Key) {
    if let Err(fault) = load.push(key, 1) {
        assert!(rt; fault == LoadFault::Memory);
        assert!(rt; load.push(key, 1) == Ok(()));
    }
}

/// Returns the index of forty pairs, and its pass. `AllocError` if memory is refused before the first pair, or behind the last one.
fn load_keys(rt: &impl Abort, alloc: Global) -> Result<(Index, Vec<ClosedPass>), AllocError>
    ensures { IfOk result (λ made. All (Owns made.0) made.1.items) }
{
    let Ok(mut load) = Load::new(alloc, 1, Stock::for_keys(40, 8)) else {
        return Err(AllocError);
    };
    for byte in 1..=40u8 {
        push_key(rt, &mut load, &key(rt, &[byte]));
    }
    load.finish(alloc)
}

/// Returns the index of `load_keys`, made again where memory is refused once.
fn make_loaded_index(rt: &impl Abort, alloc: Global) -> (Index, Vec<ClosedPass>)
    ensures { All (Owns result.0) result.1.items }
{
    if let Ok(made) = load_keys(rt, alloc) {
        return made;
    }
    match load_keys(rt, alloc) {
        Ok(made) => made,
        Err(_) => panic!(rt; "no index"),
    }
}

/// Takes the last of `passes` out, and opens a handle of it at `index`, again where memory is refused once. Panics if there is none.
fn open_handle_again<'a>(
    rt: &impl Abort,
    alloc: Global,
    index: &'a Index,
    passes: &mut Vec<ClosedPass>,
) -> Guest<'a>
    requires { All (Owns index.now) passes.old.items }
{
    let Some(pass) = passes.pop() else {
        panic!(rt; "no pass")
    };
    match ClosedHandle::new(index, pass).open(alloc) {
        Ok(handle) => handle,
        Err(refused) => open_handle(rt, alloc, refused.value),
    }
}

/// A push that was refused memory takes nothing, and a second one does; a scan has all forty keys.
#[test]
fn a_load_refused_memory_goes_on(rt: HostRuntime) {
    let (index, mut passes) = make_loaded_index(&rt, rt.alloc());
    let mut guest = open_handle_again(&rt, rt.alloc(), &index, &mut passes);
    assert!(rt; guest.count().keys == 40);
    let ends = ends(&rt);
    let scan = match guest.scan(rt.alloc(), &ends.0, &ends.1, 100) {
        Ok(scan) => Ok(scan),
        Err(_) => guest.scan(rt.alloc(), &ends.0, &ends.1, 100),
    };
    expect_whole_scan(&rt, scan, 40);
}
