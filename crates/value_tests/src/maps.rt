//! The maps for one thread and the decision on histories, by value.

use crate::nodes::key;
use compound_node::{Entry, Node};
use finite_map::{Call, Change, Kind, Note, Reply, Scan};
use insert_cases::{Case, PathNode, choose_case, last_level_before, pull_up_chain_end};
use key_bits::Key;
use plain_index::{PlainIndex, are_legal};
use plain_trie::{Place, PlainTrie, place};
use std::alloc::{AllocError, Global};
use std::process::Abort;

/// Returns a call about the key of the one byte `byte`. `letter` is i, u, p or g for an insert, upsert, add or get. It is x for an exchange
/// of `value` for the next number, and d for a removal if the value is `value`. Any other letter is for a removal.
fn make_call(rt: &impl Abort, letter: u8, byte: u8, value: u64) -> Call {
    let key = key(rt, &[byte]);
    match letter {
        b'i' => Call::Insert(key, value),
        b'u' => Call::Upsert(key, value),
        b'x' => Call::Exchange(key, value, value.wrapping_add(1)),
        b'p' => Call::Add(key, value),
        b'd' => Call::RemoveIf(key, value),
        b'g' => Call::Get(key),
        _ => Call::Remove(key),
    }
}

/// A plain index returns the replies worked out by hand to a run of all kinds of calls.
#[test]
fn calls_reply_as_a_map(rt: HostRuntime) {
    let cases = [
        (b'i', b'a', 5, Reply::Inserted),
        (b'i', b'a', 6, Reply::Exists(5)),
        (b'g', b'a', 0, Reply::Value(5)),
        (b'u', b'b', 1, Reply::New),
        (b'u', b'b', u64::MAX, Reply::Was(1)),
        (b'g', b'b', 0, Reply::Value(18_446_744_073_709_551_615)),
        (b'x', b'a', 6, Reply::Differs(5)),
        (b'x', b'a', 5, Reply::Exchanged),
        (b'p', b'b', 2, Reply::Was(18_446_744_073_709_551_615)),
        (b'p', b'b', 3, Reply::Was(1)),
        (b'g', b'b', 0, Reply::Value(4)),
        (b'p', b'c', 1, Reply::Absent),
        (b'd', b'a', 5, Reply::Differs(6)),
        (b'g', b'a', 0, Reply::Value(6)),
        (b'd', b'a', 6, Reply::Removed(6)),
        (b'd', b'a', 6, Reply::Absent),
        (b'x', b'a', 6, Reply::Absent),
        (b'i', b'a', 5, Reply::Inserted),
        (b'r', b'a', 0, Reply::Removed(5)),
        (b'r', b'a', 0, Reply::Absent),
        (b'g', b'a', 0, Reply::Absent),
    ];
    let mut calls = Vec::new(rt.alloc());
    let mut want = Vec::new(rt.alloc());
    for (letter, byte, value, reply) in cases {
        assert!(rt; calls.push(make_call(&rt, letter, byte, value)).is_ok());
        assert!(rt; want.push(reply).is_ok());
    }
    let mut index = PlainIndex::new(rt.alloc());
    match index.run(rt.alloc(), calls) {
        Ok(replies) => assert!(rt; replies.as_slice() == want.as_slice()),
        Err(_) => panic!(rt; "no memory"),
    }
}

/// Returns the changes of the key `a` that `rows` list. A row is a pass, a value and a kind.
fn make_front(rt: &impl Abort, alloc: Global, rows: &[(u16, u64, Kind)]) -> Vec<Change> {
    let mut changes = Vec::new(alloc);
    for (pass, value, kind) in rows {
        let change = Change {
            pass: *pass,
            key: key(rt, b"a"),
            value: *value,
            kind: *kind,
        };
        assert!(rt; changes.push(change).is_ok());
    }
    changes
}

/// A note by its place, its call's letter, the byte of its key and its value, and the reply.
type Row = (u64, u8, u8, u64, Reply);

/// Returns the notes of `rows`.
fn make_notes(rt: &impl Abort, alloc: Global, rows: &[Row]) -> Vec<Note> {
    let mut notes = Vec::new(alloc);
    for (place, letter, byte, value, reply) in rows {
        let note = Note {
            place: *place,
            call: make_call(rt, *letter, *byte, *value),
            reply: *reply,
        };
        assert!(rt; notes.push(note).is_ok());
    }
    notes
}

/// Notes of the first and the last change of `FRONT`, and of look-ups of the keys a and b.
const FIRST: Row = (0, b'i', b'a', 5, Reply::Inserted);

const HELD: Row = (1, b'g', b'a', 0, Reply::Value(5));

const LATER: Row = (2, b'g', b'a', 0, Reply::Value(6));

const NONE: Row = (2, b'g', b'b', 0, Reply::Absent);

const LAST: Row = (2, b'r', b'a', 0, Reply::Removed(6));

/// Three changes of one key: their passes, values and kinds.
const FRONT: [(u16, u64, Kind); 3] = [
    (1, 5, Kind::Added),
    (2, 6, Kind::Replaced),
    (1, 6, Kind::Removed),
];

/// From which change on the front is taken, a pass, its notes, and whether they are legal. What is wrong with those that are not: a reply
/// of another map; a place that falls, or is past the front; a change without its note, or a note without its change; a change noted twice,
/// or of another pass; an addition of another number; a front that removes an absent key.
const HISTORIES: [(usize, u16, &[Row], bool); 13] = [
    (
        0,
        1,
        &[
            (0, b'g', b'a', 0, Reply::Absent),
            FIRST,
            HELD,
            LAST,
            (3, b'g', b'a', 0, Reply::Absent),
        ],
        true,
    ),
    (0, 2, &[(1, b'u', b'a', 6, Reply::Was(5)), NONE], true),
    (0, 3, &[HELD, LATER], true),
    (0, 2, &[(1, b'p', b'a', 1, Reply::Was(5)), NONE], true),
    (
        0,
        1,
        &[FIRST, (1, b'g', b'a', 0, Reply::Value(6)), LAST],
        false,
    ),
    (0, 3, &[LATER, HELD], false),
    (0, 3, &[(4, b'g', b'a', 0, Reply::Absent)], false),
    (0, 1, &[FIRST], false),
    (0, 3, &[(3, b'i', b'b', 7, Reply::Inserted)], false),
    (0, 1, &[FIRST, FIRST, LAST], false),
    (0, 3, &[FIRST, LAST], false),
    (0, 2, &[(1, b'p', b'a', 2, Reply::Was(5)), NONE], false),
    (2, 3, &[], false),
];

/// `are_legal` accepts the legal histories of `HISTORIES`, and refuses the others, each of which breaks one rule.
#[test]
fn histories_are_legal_or_not(rt: HostRuntime) {
    for (i, (from, pass, rows, legal)) in HISTORIES.iter().enumerate() {
        assert!(rt; *from < 3);
        let changes = make_front(&rt, rt.alloc(), &FRONT[*from..]);
        let notes = make_notes(&rt, rt.alloc(), rows);
        assert!(rt;
            are_legal(changes.as_slice(), *pass, notes.as_slice()) == *legal,
            "at {i}"
        );
    }
}

/// Asserts that `scan` has the pairs `want` and the flag `more`. Panics if memory was refused.
fn expect_scan(rt: &impl Abort, scan: Result<Scan, AllocError>, want: &[(&[u8], u64)], more: bool) {
    match scan {
        Ok(scan) => {
            assert!(rt; scan.more == more && scan.pairs.len() == want.len());
            for ((key, value), (bytes, number)) in scan.pairs.iter().zip(want) {
                assert!(rt; key.as_bytes() == *bytes && *value == *number);
            }
        }
        Err(_) => panic!(rt; "no memory"),
    }
}

/// Two keys with their values.
const PAIRS: [(&[u8], u64); 2] = [(b"a", 5), (b"b", 6)];

/// How many of `PAIRS` are held, a range and a limit, and what a scan returns: its pairs, and whether there are more.
const SCANS: [(usize, &[u8], &[u8], usize, &[(&[u8], u64)], bool); 11] = [
    (0, b"", b"\xff", 10, &[], false),
    (0, b"a", b"b", 0, &[], false),
    (1, b"", b"\xff", 1, &[(b"a", 5)], false),
    (1, b"b", b"\xff", 1, &[], false),
    (2, b"a", b"b", 1, &[(b"a", 5)], true),
    (2, b"a", b"b", 2, &PAIRS, false),
    (2, b"a", b"b", 0, &[], true),
    (2, b"b", b"a", 5, &[], false),
    (2, b"b", b"b", 2, &[(b"b", 6)], false),
    (2, b"", b"a", 1, &[(b"a", 5)], false),
    (2, b"", b"", 2, &[], false),
];

/// A plain trie and a plain index return the pairs and the flag of `SCANS`, worked out by hand. Each has none, one or both of two keys. A
/// limit of 0 has more only if a key is in the range.
#[test]
fn scans_return_the_first_pairs(rt: HostRuntime) {
    for (held, from, upto, limit, want, more) in SCANS {
        let (mut trie, mut index) = (PlainTrie::new(rt.alloc()), PlainIndex::new(rt.alloc()));
        for (bytes, value) in PAIRS.iter().take(held) {
            let key = key(&rt, bytes);
            assert!(rt; trie.insert(&key, *value).is_ok());
            assert!(rt; index.apply(Call::Insert(key, *value)).is_ok());
        }
        let (from, upto) = (key(&rt, from), key(&rt, upto));
        expect_scan(&rt, trie.scan(rt.alloc(), &from, &upto, limit), want, more);
        expect_scan(&rt, index.scan(rt.alloc(), &from, &upto, limit), want, more);
    }
}

/// Returns a trie of the first `count` keys of one byte, or of two bytes if `wide`, added in rising order. `further` is added, too, if it
/// isn't empty.
fn make_trie(rt: &impl Abort, alloc: Global, wide: bool, count: u16, further: &[u8]) -> PlainTrie {
    let mut trie = PlainTrie::new(alloc);
    for number in 0..count {
        let bytes = number.to_be_bytes();
        let key = if wide {
            key(rt, &bytes)
        } else {
            key(rt, &bytes[1..])
        };
        assert!(rt; trie.insert(&key, u64::from(number)).is_ok());
    }
    if !further.is_empty() {
        assert!(rt; trie.insert(&key(rt, further), 7).is_ok());
    }
    trie
}

/// Returns the node of `trie` that `entry` names. Panics if that is no node's entry.
fn node_at_entry<'a>(rt: &impl Abort, trie: &'a PlainTrie, entry: Option<Entry>) -> &'a Node {
    let number = match entry {
        Some(Entry::Node { number, .. }) => number,
        _ => panic!(rt; "no node"),
    };
    match trie.node(number) {
        Some(node) => node,
        None => panic!(rt; "no record"),
    }
}

/// The parameters of `make_trie`, the slots on the path to a node, and that node's height, positions and count of entries.
type Shape = (
    bool,
    u16,
    &'static [u8],
    &'static [u8],
    u16,
    &'static [u16],
    u8,
);

const SHAPES: [Shape; 16] = [
    (false, 32, &[], &[], 1, &[4, 5, 6, 7, 8], 32),
    (false, 33, &[], &[], 2, &[3], 2),
    (false, 33, &[], &[0], 1, &[4, 5, 6, 7, 8], 32),
    (false, 34, &[], &[1], 1, &[8], 2),
    (false, 64, &[], &[1], 1, &[4, 5, 6, 7, 8], 32),
    (false, 64, &[0x20, 0], &[], 2, &[3, 4], 3),
    (false, 64, &[0x20, 0], &[0], 1, &[4, 5, 6, 7, 8], 32),
    (false, 64, &[0x20, 0], &[1], 1, &[5, 6, 7, 8, 9], 17),
    (false, 64, &[0x20, 0], &[2], 1, &[5, 6, 7, 8], 16),
    (true, 1056, &[], &[], 3, &[6], 2),
    (true, 1056, &[], &[0], 2, &[7, 8, 10, 11, 12], 32),
    (true, 1056, &[], &[1], 1, &[13, 14, 15, 16, 17], 32),
    (true, 1056, &[4, 0, 0], &[], 3, &[6], 2),
    (true, 1056, &[4, 0, 0], &[1], 2, &[13], 2),
    (
        true,
        1056,
        &[4, 0, 0],
        &[1, 0],
        1,
        &[14, 15, 16, 17, 18],
        17,
    ),
    (true, 1056, &[4, 0, 0], &[1, 1], 1, &[14, 15, 16, 17], 16),
];

/// The node at each path has the expected height, count and columns, and the trie the height of its root. The shapes are worked out by hand
/// by HOT's rules: a full node is cut, and its fork goes up or makes a node between.
#[test]
fn tries_have_their_shapes(rt: HostRuntime) {
    for (i, (wide, count, further, path, height, positions, entries)) in SHAPES.iter().enumerate() {
        let trie = make_trie(&rt, rt.alloc(), *wide, *count, further);
        let mut node = node_at_entry(&rt, &trie, trie.top());
        for at in path.iter() {
            assert!(rt; *at < node.count());
            node = node_at_entry(&rt, &trie, Some(node.entry(*at)));
        }
        assert!(rt;
            node.height() == *height && node.count() == *entries,
            "at {i}"
        );
        assert!(rt; node.columns().as_slice() == *positions, "at {i}");
        assert!(rt; !path.is_empty() || trie.height() == *height);
    }
}

/// Returns a key that `number` chooses among those of `kind`. For 0 it has two bytes, and is one of 1,024 keys. For 1 it has eight, and is
/// one of 512 scattered keys. Else it has 66 bytes that are 7 but for one, or just those before that one.
fn key_by_chance(rt: &impl Abort, kind: u8, number: u64) -> Key {
    if kind == 0 {
        return key(rt, &((number % 1024) as u16).to_be_bytes());
    }
    if kind == 1 {
        return key(
            rt,
            &(number % 512)
                .wrapping_mul(6_364_136_223_846_793_005)
                .to_be_bytes(),
        );
    }
    let mut bytes = [7; 66];
    let at = (number % 66) as usize;
    bytes[at] = (number / 66 % 16) as u8;
    let end = if number / 1056 % 2 == 0 { 66 } else { at };
    key(rt, first_bytes(&bytes, end))
}

/// Returns the first `count` bytes, or all if there are fewer.
fn first_bytes(bytes: &[u8], count: usize) -> &[u8] {
    if count < bytes.len() {
        &bytes[..count]
    } else {
        bytes
    }
}

/// Asserts that `trie` and `index` reply alike to a call about `key`. `number` chooses it: an insert, an upsert, a get or a scan.
fn call_trie_and_index(
    rt: &impl Abort,
    alloc: Global,
    trie: &mut PlainTrie,
    index: &mut PlainIndex,
    key: Key,
    number: u64,
) {
    let value = number / 4;
    let (found, want) = match number % 4 {
        0 => (
            trie.insert(&key, value),
            index.apply(Call::Insert(key, value)),
        ),
        1 => (
            trie.upsert(&key, value),
            index.apply(Call::Upsert(key, value)),
        ),
        2 => (Ok(get_reply(trie, &key)), index.apply(Call::Get(key))),
        _ => return scan_trie_and_index(rt, alloc, trie, index, &key, (value % 4) as usize),
    };
    assert!(rt; found.ok() == want.ok());
}

/// Returns the reply of `trie` to a look-up of `key`.
fn get_reply(trie: &PlainTrie, key: &Key) -> Reply {
    match trie.get(key) {
        Some(value) => Reply::Value(value),
        None => Reply::Absent,
    }
}

/// Asserts that scans of `trie` and `index` from `from` to the greatest key, of `limit` pairs at most, return the same.
fn scan_trie_and_index(
    rt: &impl Abort,
    alloc: Global,
    trie: &PlainTrie,
    index: &PlainIndex,
    from: &Key,
    limit: usize,
) {
    let last = key(rt, &[0xff; 240]);
    let (found, want) = (
        trie.scan(alloc, from, &last, limit),
        index.scan(alloc, from, &last, limit),
    );
    let (Ok(found), Ok(want)) = (found, want) else {
        panic!(rt; "no memory")
    };
    assert!(rt; found.more == want.more && found.pairs.as_slice() == want.pairs.as_slice());
}

/// For keys of each of three kinds, 2,000 calls by chance return the same from a plain trie and a plain index. The index is a map of the
/// standard library, so a fault of the trie shows.
#[test]
fn calls_by_chance_are_answered_alike(rt: HostRuntime) {
    for kind in 0..3u8 {
        let (mut trie, mut index) = (PlainTrie::new(rt.alloc()), PlainIndex::new(rt.alloc()));
        let (mut state, mut number) = (u64::from(kind), 0);
        for _ in 0..2000u16 {
            state = state
                .wrapping_mul(6_364_136_223_846_793_005)
                .wrapping_add(1_442_695_040_888_963_407);
            let key = key_by_chance(&rt, kind, number);
            call_trie_and_index(&rt, rt.alloc(), &mut trie, &mut index, key, state >> 33);
            number = state >> 40;
        }
    }
}

/// A node on a way: its height, its first position, its count, and the slot that is taken there.
type Passed = (u16, u16, u8, u8);

/// A way; the first bit that differs, the index of the affected node, and its one affected slot. Then the index, the slots and the case of
/// the choice, and where the chain of full nodes ends. Keys 00 to 21, and then 22: the root's entry 1 alone is affected, a node, which gets
/// the key. Keys 00 to 3f, and then 2000: the full node's halves go into the root. Keys 0000 to 041f, and then 040000: the root is two
/// higher. Keys 00 to 20, and then 21: a leaf is pushed down.
type Chosen = (
    &'static [Passed],
    u16,
    usize,
    u8,
    (usize, u8, u8, Case),
    usize,
);

const CHOSEN: [Chosen; 4] = [
    (
        &[(2, 3, 2, 1), (1, 8, 2, 0)],
        7,
        0,
        1,
        (1, 0, 1, Case::NormalInsert),
        1,
    ),
    (
        &[(2, 3, 2, 1), (1, 4, 32, 0)],
        9,
        1,
        0,
        (1, 0, 0, Case::Overflow),
        0,
    ),
    (
        &[(3, 6, 2, 1), (1, 13, 32, 0)],
        18,
        1,
        0,
        (1, 0, 0, Case::Overflow),
        1,
    ),
    (&[(2, 3, 2, 1)], 8, 0, 1, (0, 1, 1, Case::LeafPushdown), 0),
];

/// Four insertions have the level, the choice and the end of the chain of `CHOSEN`, worked out by hand from the tries that it names.
/// `place` tells the three cases of a full node.
#[test]
fn insertions_have_their_cases(rt: HostRuntime) {
    for (passed, position, level, entry, want, end) in CHOSEN {
        let mut steps = [PathNode::default(); 2];
        for (step, (height, first_position, count, at)) in steps.iter_mut().zip(passed.iter()) {
            step.height = *height;
            step.first_position = *first_position;
            step.count = *count;
            step.slot = *at;
        }
        let way = &steps[..passed.len().min(2)];
        assert!(rt; level < way.len() && last_level_before(way, position) == level);
        let choice = choose_case(way, level, entry, entry);
        assert!(rt; (choice.level, choice.first, choice.last) == (want.0, want.1, want.2));
        assert!(rt; choice.case as u8 == want.3 as u8);
        assert!(rt; choice.level < way.len() && pull_up_chain_end(way, choice.level) == end);
    }
    assert!(rt; matches!(place(1, Some(3)), Place::Intermediate));
    assert!(rt; matches!(place(1, Some(2)), Place::PullUp));
    assert!(rt; matches!(place(1, None), Place::NewRoot));
}
