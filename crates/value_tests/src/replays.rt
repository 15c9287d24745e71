//! Runs that a replay checks event by event.

use crate::nodes::{words_of_leaf, words_of_three};
use compound_node::{Entry, Node};
use record_words::{Layout, LayoutFault, LeafClass, Stock, pack_node};
use rowex_core::{Act, Event, Rec, Spot, Target};
use rowex_replay::{Replay, ReplayFault};
use std::alloc::Global;
use std::process::Abort;

/// An act, shorter to write: its record, spot, target or pass, then its other numbers as in `Act`.
#[derive(Drop)]
enum Step {
    Claim(Rec, u64),
    Fill(Rec, u8, u64),
    Ready(Rec),
    Release(Rec),
    LoadRef(Spot, u64),
    LoadFixed(Rec, u8, u64),
    Lock(Target, u64),
    Unlock(Target),
    Publish(Spot, u64),
    Mark(Rec, u64),
    LoadEpoch(u64),
    Advance(u64, u64),
    SetPin(u64),
    ClearPin,
    LoadPin(u16, u64),
    LoadState(Rec, u64),
    GiveBack(Rec, u64, u64),
}

/// Returns the act of `step`.
fn act_of_step(step: &Step) -> Act {
    match *step {
        Step::Claim(rec, found) => Act::Claim { rec, found },
        Step::Fill(rec, offset, word) => Act::Fill { rec, offset, word },
        Step::Ready(rec) => Act::Ready { rec },
        Step::Release(rec) => Act::Release { rec },
        Step::LoadRef(spot, word) => Act::LoadRef { spot, word },
        Step::LoadFixed(rec, offset, word) => Act::LoadFixed { rec, offset, word },
        Step::Lock(target, found) => Act::Lock { target, found },
        Step::Unlock(target) => Act::Unlock { target },
        Step::Publish(spot, word) => Act::Publish { spot, word },
        Step::Mark(rec, epoch) => Act::Mark { rec, epoch },
        Step::LoadEpoch(word) => Act::LoadEpoch { word },
        Step::Advance(expected, found) => Act::Advance { expected, found },
        Step::SetPin(word) => Act::SetPin { word },
        Step::ClearPin => Act::ClearPin,
        Step::LoadPin(of, word) => Act::LoadPin { of, word },
        Step::LoadState(rec, word) => Act::LoadState { rec, word },
        Step::GiveBack(rec, epoch, found) => Act::GiveBack { rec, epoch, found },
    }
}

/// A pass's event, and whether it is legal where it comes.
type Line = (u16, Step, bool);

/// Gives `replay` each event of `lines`. Asserts that it is accepted where it is legal, and refused as illegal where it is not.
fn expect_events(rt: &impl Abort, replay: &mut Replay, lines: &[Line]) {
    for (i, (pass, step, legal)) in lines.iter().enumerate() {
        let (pass, act) = (*pass, act_of_step(step));
        let answer = replay.step(Event { pass, act });
        assert!(rt; answer.is_ok() == *legal, "at {i}");
        assert!(rt;
            matches!(answer, Err(ReplayFault::Illegal)) != *legal,
            "at {i}"
        );
    }
}

/// Asserts that it is legal that `pass` claims `rec`, fills it with `words` from offset 1 on, and makes it ready.
fn expect_record_made(rt: &impl Abort, replay: &mut Replay, pass: u16, rec: Rec, words: &[u64]) {
    expect_events(rt, replay, &[(pass, Step::Claim(rec, 0), true)]);
    for (offset, word) in (1..64u8).zip(words.iter()) {
        expect_events(rt, replay, &[(pass, Step::Fill(rec, offset, *word), true)]);
    }
    expect_events(rt, replay, &[(pass, Step::Ready(rec), true)]);
}

/// Asserts that `changes` changes were made, and that the replay's pairs are `want`, keys of one byte with their values.
fn expect_pairs(rt: &impl Abort, alloc: Global, replay: &Replay, changes: u64, want: &[(u8, u64)]) {
    assert!(rt; replay.changes() == changes);
    match replay.content(alloc) {
        Ok(pairs) => {
            assert!(rt; pairs.len() == want.len());
            for ((key, value), (byte, number)) in pairs.iter().zip(want) {
                assert!(rt; key.as_bytes() == [*byte].as_slice() && *value == *number);
            }
        }
        Err(_) => panic!(rt; "no memory"),
    }
}

/// Returns a replay of no event yet, for `layout`. Panics if `layout` is a fault or memory is refused.
fn make_replay(rt: &impl Abort, alloc: Global, layout: Result<Layout, LayoutFault>) -> Replay {
    let Ok(layout) = layout else {
        panic!(rt; "no layout");
    };
    match Replay::new(alloc, layout) {
        Ok(replay) => replay,
        Err(_) => panic!(rt; "no memory"),
    }
}

const LEAF: Rec = Rec::Leaf(0);

/// Claims, locks, pins and a round by pass 0 that change nothing in the map, and steps that are not legal among them.
const NO_RECORD: [Line; 25] = [
    (0, Step::Claim(LEAF, 0), true),
    (0, Step::Claim(LEAF, 0), false),
    (0, Step::Claim(LEAF, 1), true),
    (0, Step::Release(LEAF), true),
    (0, Step::Release(LEAF), false),
    (1, Step::Claim(LEAF, 0), false),
    (0, Step::Claim(Rec::Leaf(1), 0), false),
    (0, Step::Lock(Target::Node(0), 0), true),
    (0, Step::Unlock(Target::Node(0)), false),
    (0, Step::SetPin(1), false),
    (0, Step::LoadEpoch(1), true),
    (0, Step::SetPin(1), true),
    (0, Step::SetPin(1), false),
    (0, Step::ClearPin, true),
    (0, Step::Advance(1, 1), true),
    (0, Step::LoadEpoch(1), false),
    (0, Step::LoadEpoch(2), true),
    (0, Step::GiveBack(LEAF, 1, 0), false),
    (0, Step::LoadPin(0, 0), true),
    (0, Step::GiveBack(LEAF, 2, 0), false),
    (0, Step::GiveBack(LEAF, 1, 0), true),
    (0, Step::LoadState(LEAF, 0), true),
    (0, Step::Publish(Spot::Root, 1), false),
    (0, Step::Lock(Target::Anchor, 2), true),
    (0, Step::Publish(Spot::Root, 1), false),
];

/// Leaf 0 becomes the root under the anchor's lock.
const ONE_LEAF: [Line; 6] = [
    (0, Step::Publish(Spot::Root, 1), true),
    (0, Step::Unlock(Target::Anchor), true),
    (0, Step::Unlock(Target::Anchor), false),
    (0, Step::LoadRef(Spot::Root, 1), true),
    (0, Step::LoadRef(Spot::Root, 5), false),
    (0, Step::Mark(LEAF, 1), false),
];

/// Claims, locks, pins and a round change nothing in the map, and are legal or not as `NO_RECORD` has it. Then a leaf is made and
/// published, and the replay's map has it.
#[test]
fn one_leaf_is_published(rt: HostRuntime) {
    let mut replay = make_replay(&rt, rt.alloc(), Layout::of(1, 1, 1));
    expect_events(&rt, &mut replay, &NO_RECORD);
    expect_pairs(&rt, rt.alloc(), &replay, 0, &[]);
    expect_record_made(&rt, &mut replay, 0, LEAF, &words_of_leaf(b'a', 5));
    expect_events(&rt, &mut replay, &ONE_LEAF);
    expect_pairs(&rt, rt.alloc(), &replay, 1, &[(b'a', 5)]);
}

const VALUE: Spot = Spot::Value { leaf: 0 };

// The value of leaf 0, the root, is stored under the anchor's lock. It is loaded as a value, not as a fixed word. Leaf 1 is nobody's.
const VALUED: [Line; 12] = [
    (0, Step::LoadRef(VALUE, 5), true),
    (0, Step::Publish(VALUE, 6), false),
    (0, Step::Lock(Target::Anchor, 2), true),
    (1, Step::Publish(VALUE, 6), false),
    (0, Step::Publish(Spot::Value { leaf: 1 }, 6), false),
    (0, Step::Publish(VALUE, 6), true),
    (1, Step::LoadRef(VALUE, 6), true),
    (1, Step::LoadRef(VALUE, 5), false),
    (1, Step::LoadFixed(LEAF, 1, 6), false),
    (0, Step::Mark(LEAF, 1), false),
    (0, Step::Unlock(Target::Anchor), true),
    (0, Step::Publish(VALUE, 7), false),
];

/// A value changes where it stands, under the lock of what names its leaf, and not without this lock. The leaf stays in the tree, so it
/// can't be marked.
#[test]
fn a_value_changes_under_a_lock(rt: HostRuntime) {
    let mut replay = make_replay(&rt, rt.alloc(), Layout::of(2, 1, 2));
    expect_record_made(&rt, &mut replay, 0, LEAF, &words_of_leaf(b'a', 5));
    expect_events(
        &rt,
        &mut replay,
        &[(0, Step::Lock(Target::Anchor, 2), true)],
    );
    expect_events(&rt, &mut replay, &ONE_LEAF);
    expect_events(&rt, &mut replay, &VALUED);
    expect_pairs(&rt, rt.alloc(), &replay, 2, &[(b'a', 6)]);
}

// A short record has no word at offset 4. With a 0 behind them, eight bytes spell a key of nine, for which it has no room.
const SHORT: [Line; 10] = [
    (0, Step::Claim(LEAF, 0), true),
    (0, Step::Fill(LEAF, 4, 0), false),
    (0, Step::LoadFixed(LEAF, 4, 0), false),
    (0, Step::Fill(LEAF, 1, 5), true),
    (0, Step::Fill(LEAF, 2, 9), true),
    (0, Step::Fill(LEAF, 3, 0x6162_6364_6566_6768), true),
    (0, Step::Ready(LEAF), false),
    (0, Step::Fill(LEAF, 2, 8), true),
    (0, Step::Ready(LEAF), true),
    (0, Step::LoadFixed(LEAF, 3, 0x6162_6364_6566_6768), true),
];

/// A short record has no word at offset 4, and can be made ready with a key of eight bytes, not of nine. A replay that took all records as
/// long would accept both.
#[test]
fn a_short_record_has_room_for_eight_bytes(rt: HostRuntime) {
    let stock = Stock::of_class(1, LeafClass::Short, 1);
    let mut replay = make_replay(&rt, rt.alloc(), Layout::with_stock(1_024, stock));
    expect_events(&rt, &mut replay, &SHORT);
}

// The words behind the key may be any, but no byte behind it in its last word.
const SPELLED: [Line; 9] = [
    (0, Step::Claim(LEAF, 0), true),
    (0, Step::Fill(LEAF, 1, 5), true),
    (0, Step::Fill(LEAF, 2, 1), true),
    (0, Step::Fill(LEAF, 4, 7), true),
    (0, Step::Fill(LEAF, 3, 0x6101_0000_0000_0000), true),
    (0, Step::Ready(LEAF), false),
    (0, Step::Fill(LEAF, 3, 0x6100_0000_0000_0000), true),
    (0, Step::Ready(LEAF), true),
    (0, Step::Lock(Target::Anchor, 2), true),
];

/// Other words behind a key are legal, and are loaded again; another byte behind it in its last word isn't.
#[test]
fn what_stands_behind_a_key_says_nothing(rt: HostRuntime) {
    let mut replay = make_replay(&rt, rt.alloc(), Layout::of(1, 1, 1));
    expect_events(&rt, &mut replay, &SPELLED);
    expect_events(&rt, &mut replay, &ONE_LEAF);
    expect_pairs(&rt, rt.alloc(), &replay, 1, &[(b'a', 5)]);
    expect_events(
        &rt,
        &mut replay,
        &[
            (0, Step::LoadFixed(LEAF, 4, 7), true),
            (0, Step::LoadFixed(LEAF, 4, 0), false),
        ],
    );
}

/// The words of a reference to node 0 and to node 1, each of height 1.
const NODE_0: u64 = 17_179_869_186;

const NODE_1: u64 = 17_179_869_190;

const OLD: Rec = Rec::Node(0);

// Two keys at once are refused, and one after the other they are not.
const TWO_KEYS: [Line; 10] = [
    (0, Step::Publish(Spot::Root, 1), false),
    (0, Step::Lock(Target::Anchor, 2), true),
    (0, Step::Publish(Spot::Root, NODE_0), false),
    (0, Step::Publish(Spot::Root, 1), true),
    (0, Step::Publish(Spot::Root, NODE_0), true),
    (0, Step::Unlock(Target::Anchor), true),
    (1, Step::LoadEpoch(1), true),
    (1, Step::SetPin(1), true),
    (1, Step::Lock(Target::Node(0), 2), true),
    (1, Step::Lock(Target::Anchor, 2), true),
];

// Node 1 takes the place of node 0, which is marked after the epoch was loaded.
const GROWN: [Line; 8] = [
    (0, Step::Publish(Spot::Root, NODE_1), false),
    (1, Step::Mark(OLD, 1), false),
    (1, Step::Publish(Spot::Root, NODE_1), true),
    (1, Step::Mark(OLD, 1), false),
    (1, Step::Unlock(Target::Node(0)), false),
    (1, Step::LoadEpoch(1), true),
    (1, Step::Mark(OLD, 1), true),
    (1, Step::Unlock(Target::Anchor), true),
];

// Pass 1 is pinned by the epoch of the mark: pass 0 gives the node back once it has found no pin in a round that began later.
const GIVEN_BACK: [Line; 14] = [
    (0, Step::Advance(1, 1), true),
    (0, Step::LoadEpoch(2), true),
    (0, Step::LoadPin(0, 0), true),
    (0, Step::LoadPin(1, 1), true),
    (0, Step::GiveBack(OLD, 1, 12), false),
    (1, Step::ClearPin, true),
    (0, Step::LoadPin(1, 0), true),
    (0, Step::GiveBack(OLD, 1, 12), false),
    (0, Step::LoadEpoch(2), true),
    (0, Step::LoadPin(0, 0), true),
    (0, Step::GiveBack(OLD, 1, 12), false),
    (0, Step::LoadPin(1, 0), true),
    (0, Step::GiveBack(OLD, 1, 12), true),
    (0, Step::LoadState(OLD, 0), true),
];

const FIRST: Spot = Spot::Slot { node: 1, slot: 0 };

// Leaf 3 takes the place of leaf 0 under the lock of its node.
const REPLACED: [Line; 8] = [
    (0, Step::Publish(FIRST, 13), false),
    (0, Step::Lock(Target::Node(1), 2), true),
    (1, Step::Lock(Target::Node(1), 3), true),
    (1, Step::Publish(FIRST, 13), false),
    (0, Step::Publish(FIRST, 13), true),
    (0, Step::LoadEpoch(2), true),
    (0, Step::Mark(LEAF, 2), true),
    (0, Step::Unlock(Target::Node(1)), true),
];

// Node 0 without c takes the place of node 1, which is to be locked for that. Two keys don't go by one store, as when the halves of a node
// are stored one after the other. Then nothing is stored below node 1, though its lock is held: no entry, and no value of its leaf.
const REMOVED: [Line; 11] = [
    (0, Step::Lock(Target::Anchor, 2), true),
    (0, Step::Publish(Spot::Root, NODE_0), false),
    (0, Step::Lock(Target::Node(1), 2), true),
    (0, Step::Publish(Spot::Root, 5), false),
    (0, Step::Publish(Spot::Root, NODE_0), true),
    (0, Step::Publish(FIRST, 17), false),
    (0, Step::Publish(Spot::Value { leaf: 2 }, 8), false),
    (0, Step::LoadEpoch(2), true),
    (0, Step::Mark(Rec::Leaf(2), 2), true),
    (0, Step::Mark(Rec::Node(1), 2), true),
    (0, Step::Unlock(Target::Anchor), true),
];

/// Inserts, a round, a replaced leaf and a removal are legal step by step, and give the pairs worked out by hand. Refused are a store
/// without its lock, and one that changes two keys. So are a mark before its epoch is loaded, and a record given back while a pin holds it.
#[test]
fn a_node_grows_and_shrinks(rt: HostRuntime) {
    let mut replay = make_replay(&rt, rt.alloc(), Layout::of(2, 2, 5));
    let two = Node::pair(7, Entry::Leaf(0), Entry::Leaf(1));
    expect_record_made(&rt, &mut replay, 0, LEAF, &words_of_leaf(b'a', 5));
    expect_record_made(&rt, &mut replay, 0, Rec::Leaf(1), &words_of_leaf(b'b', 6));
    expect_record_made(&rt, &mut replay, 0, OLD, &pack_node(&two));
    expect_events(&rt, &mut replay, &TWO_KEYS);
    expect_pairs(&rt, rt.alloc(), &replay, 2, &[(b'a', 5), (b'b', 6)]);
    expect_record_made(&rt, &mut replay, 1, Rec::Leaf(2), &words_of_leaf(b'c', 7));
    expect_record_made(&rt, &mut replay, 1, Rec::Node(1), &words_of_three());
    expect_events(&rt, &mut replay, &GROWN);
    expect_events(&rt, &mut replay, &GIVEN_BACK);
    expect_pairs(
        &rt,
        rt.alloc(),
        &replay,
        3,
        &[(b'a', 5), (b'b', 6), (b'c', 7)],
    );
    expect_record_made(&rt, &mut replay, 0, Rec::Leaf(3), &words_of_leaf(b'a', 9));
    expect_events(&rt, &mut replay, &REPLACED);
    expect_record_made(&rt, &mut replay, 0, Rec::Leaf(4), &words_of_leaf(b'a', 8));
    expect_record_made(
        &rt,
        &mut replay,
        0,
        OLD,
        &pack_node(&two.replace(0, Entry::Leaf(3))),
    );
    expect_events(&rt, &mut replay, &REMOVED);
    expect_pairs(&rt, rt.alloc(), &replay, 5, &[(b'a', 9), (b'b', 6)]);
}

/// Asserts that it is legal that pass 0 makes `node` in node record `number`.
fn expect_node_made(rt: &impl Abort, replay: &mut Replay, number: u32, node: &Node) {
    expect_record_made(rt, replay, 0, Rec::Node(number), &pack_node(node));
}

/// The words of references to nodes 1 and 3 of height 2, and to nodes 2, 3 and 4 of height 1.
const HIGH_1: u64 = 34_359_738_374;

const HIGH_3: u64 = 34_359_738_382;

const NODE_2: u64 = 17_179_869_194;

const NODE_3: u64 = 17_179_869_198;

const NODE_4: u64 = 17_179_869_202;

const SECOND: Spot = Spot::Slot { node: 1, slot: 1 };

// A tree of node 0 with ` and a, and node 2 with b and c, below node 1.
const TWO_LEVELS: [Line; 6] = [
    (0, Step::Lock(Target::Anchor, 2), true),
    (0, Step::Publish(Spot::Root, 1), true),
    (0, Step::Publish(Spot::Root, NODE_0), true),
    (0, Step::Publish(Spot::Root, HIGH_1), true),
    (0, Step::Lock(Target::Node(1), 2), true),
    (0, Step::Publish(SECOND, NODE_2), true),
];

// Node 3, with a, b and c, takes the place of all three. Node 2 is to be locked for that. Node 4 lacks c, and node 3 isn't 2 high.
const MERGED: [Line; 12] = [
    (0, Step::Lock(Target::Node(0), 2), true),
    (0, Step::Publish(Spot::Root, NODE_3), false),
    (0, Step::Lock(Target::Node(2), 2), true),
    (0, Step::Publish(Spot::Root, NODE_4), false),
    (0, Step::Publish(Spot::Root, HIGH_3), false),
    (0, Step::Publish(Spot::Root, NODE_3), true),
    (0, Step::LoadEpoch(1), true),
    (0, Step::Mark(Rec::Node(0), 1), true),
    (0, Step::Mark(Rec::Node(1), 1), true),
    (0, Step::Mark(Rec::Node(2), 1), true),
    (0, Step::Mark(Rec::Leaf(3), 1), true),
    (0, Step::Unlock(Target::Anchor), true),
];

/// A removal that merges a node with its sibling is legal once the sibling is locked. The new node must have all entries of both but the
/// removed one, and be named with its own height.
#[test]
fn a_removal_merges_under_the_siblings_lock(rt: HostRuntime) {
    let mut replay = make_replay(&rt, rt.alloc(), Layout::of(1, 5, 4));
    for (number, byte, value) in [(0, b'a', 5), (1, b'b', 6), (2, b'c', 7), (3, b'`', 4)].iter() {
        let words = words_of_leaf(*byte, *value);
        expect_record_made(&rt, &mut replay, 0, Rec::Leaf(*number), &words);
    }
    let (number, height) = (0, 1);
    let child = Entry::Node { number, height };
    let (first, second, third) = (Entry::Leaf(0), Entry::Leaf(1), Entry::Leaf(2));
    expect_node_made(&rt, &mut replay, 0, &Node::pair(8, Entry::Leaf(3), first));
    expect_node_made(&rt, &mut replay, 1, &Node::pair(7, child, second));
    expect_node_made(&rt, &mut replay, 2, &Node::pair(8, second, third));
    expect_node_made(&rt, &mut replay, 4, &Node::pair(7, first, second));
    expect_record_made(&rt, &mut replay, 0, Rec::Node(3), &words_of_three());
    expect_events(&rt, &mut replay, &TWO_LEVELS);
    expect_events(&rt, &mut replay, &MERGED);
    expect_pairs(
        &rt,
        rt.alloc(),
        &replay,
        5,
        &[(b'a', 5), (b'b', 6), (b'c', 7)],
    );
}
