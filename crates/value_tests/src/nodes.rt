//! Keys, nodes and their words by value. The keys a, b and c fork at the positions 7 and 8, and d parts from them at 6.

ghost use Rattle.std.specs.Prelude.{◌≡◌, ◌+◌, ◌-◌, length, slice_index};
ghost use Rattle.compound_node.specs.Nodes.{piece};
ghost use Rattle.compound_node.specs.declared.entries.Entry.TheVariants.{Leaf as LeafEntry};
ghost use Rattle.node_tries.specs.Piece.{Fork, Place};
ghost use Rattle.node_tries.specs.Positions.{AllBelow};
ghost use Rattle.value_tests.specs.Combs.{comb};

use compound_node::{Entry, Half, Node};
use insert_cases::{Grown, grow};
use key_bits::{Key, KeyFault, extract, mismatch};
use partial_keys::{search_lanes, search_plain};
use record_words::{
    HEAD_WORDS, LEAF_FIELDS, NODE_FIELDS, Tag, pack_entry, pack_leaf, pack_node, pack_state,
    unpack_state,
};
use rowex_replay_state::{unpack_entry, unpack_head, unpack_leaf, unpack_node};
use std::process::Abort;

/// Returns the key with the bytes `bytes`; panics if they are more than 240.
pub fn key(rt: &impl Abort, bytes: &[u8]) -> Key {
    match Key::from_bytes(bytes) {
        Ok(key) => key,
        Err(_) => panic!(rt; "over 240 bytes"),
    }
}

/// Two keys and the first position at which they differ, by hand: each byte has nine positions, the first of them 1, and behind a key's end
/// all are 0.
const DIFFERENT: [(&[u8], &[u8], Option<u16>); 4] = [
    (b"a", b"b", Some(7)),
    (b"", b"a", Some(0)),
    (b"a", b"aa", Some(9)),
    (b"a", b"a", None),
];

/// Asserts that the keys first differ at `want`, in either order, and that `one` is the lesser. `None` is for equal keys.
fn expect_mismatch(rt: &impl Abort, one: &[u8], other: &[u8], want: Option<u16>) {
    let (one, other) = (key(rt, one), key(rt, other));
    assert!(rt; mismatch(&one, &other) == want && mismatch(&other, &one) == want);
    assert!(rt; (one < other) == want.is_some());
}

/// `mismatch` finds the positions of `DIFFERENT`, and the first and the last position of byte 239, the last that a key may have. It would
/// miss them if it counted eight positions a byte. 241 bytes are no key.
#[test]
fn keys_differ_first(rt: HostRuntime) {
    for (one, other, want) in DIFFERENT {
        expect_mismatch(&rt, one, other, want);
    }
    let low = [0x7e; 240];
    let mut high = low;
    high[239] = 0x7f;
    expect_mismatch(&rt, &[0x7e; 239], &low, Some(2151));
    expect_mismatch(&rt, &low, &high, Some(2159));
    assert!(rt; Key::from_bytes(&[0x61; 241]).err() == Some(KeyFault::TooLong));
}

/// A key, positions, and the key's bits there, by hand. The last two have columns further apart than sixteen bytes.
const GATHERED: [(&[u8], &[u16], u32); 7] = [
    (b"a", &[7, 8], 0x4000_0000),
    (b"b", &[7, 8], 0x8000_0000),
    (b"c", &[7, 8], 0xc000_0000),
    (b"a", &[0, 1, 2, 3, 4, 5, 6, 7, 8, 9], 0xb080_0000),
    (
        &[0xff; 4],
        &[
            0, 1, 2, 3, 4, 5, 6, 7, 8, 9, 10, 11, 12, 13, 14, 15, 16, 17, 18, 19, 20, 21, 22, 23,
            24, 25, 26, 27, 28, 29, 30,
        ],
        0xffff_fffe,
    ),
    (&[0xff; 4], &[35, 36, 2159], 0x8000_0000),
    (&[1; 40], &[8, 187, 188, 359], 0xb000_0000),
];

/// Returns the node of leaves 0, 1 and so on, with columns at `positions`, each fork on the 1 side of the one before. Panics unless there
/// are 1 to 31 positions, which rise and are below 65,535.
pub fn comb_node(rt: &impl Abort, positions: &[u16]) -> Node
    ensures shown { piece result ≡ comb 0 positions.now }
    ensures last { AllBelow (slice_index positions.now (length positions.now - 1) + 1) positions.now }
{
    if positions.len() == 0 || positions.len() > 31 || positions[0] == u16::MAX {
        panic!(rt; "no node");
    }
    let mut node = Node::pair(positions[0], Entry::Leaf(0), Entry::Leaf(1));
    for i in 1..positions.len() {
        if positions[i] <= positions[i - 1] || positions[i] == u16::MAX {
            panic!(rt; "no node");
        }
        let leaf = Entry::Leaf(i as u32 + 1);
        node.add_entry(i as u8, i as u8, positions[i], true, leaf);
    }
    node
}

/// `extract` gathers a key's bits at listed positions, and at a node's columns. The bit at the first one is the highest.
#[test]
fn bits_are_gathered_from_the_highest(rt: HostRuntime) {
    for (bytes, positions, want) in GATHERED {
        let key = key(&rt, bytes);
        assert!(rt; extract(&key, positions) == want);
        assert!(rt; comb_node(&rt, positions).columns().extract(&key) == want);
    }
}

/// Both searches return the last slot whose row has only bits that the dense key has. From slot 3 on the rows have all bits set, as unused
/// ones have. So only a dense key of all ones leads to the last slot.
#[test]
fn searches_find_the_highest_complying_entry(rt: HostRuntime) {
    let mut sparse = [u32::MAX; 32];
    sparse[0] = 0;
    sparse[1] = 0x8000_0000;
    sparse[2] = 0xc000_0000;
    let cases = [
        (0x4000_0000, 0),
        (0x8000_0000, 1),
        (0xc000_0000, 2),
        (0, 0),
        (u32::MAX, 31),
    ];
    for (dense, want) in cases.iter() {
        assert!(rt; search_plain(&sparse, *dense) == *want, "at {dense}");
        assert!(rt; search_lanes(&sparse, *dense) == *want, "at {dense}");
    }
}

/// Returns the node of three keys, leaves 0 to 2. The last two part at 8, and the first from both at 7.
pub fn node_of_three() -> Node
    ensures { piece result ≡ Fork 7 (Place (LeafEntry 0)) (Fork 8 (Place (LeafEntry 1)) (Place (LeafEntry 2))) }
{
    Node::pair(7, Entry::Leaf(0), Entry::Leaf(1)).insert(1, 1, 8, true, Entry::Leaf(2))
}

/// Returns the node of three keys with one more behind, leaf 3, which parts from them at 6.
fn node_of_four() -> Node
    ensures { piece result ≡ Fork 6 (Fork 7 (Place (LeafEntry 0)) (Fork 8 (Place (LeafEntry 1)) (Place (LeafEntry 2)))) (Place (LeafEntry 3)) }
{
    node_of_three().insert(0, 2, 6, true, Entry::Leaf(3))
}

/// A node and its head find the slot of each key by its gathered bits, worked out by hand. The key d parts from all others before the
/// columns, so it has 0 at both, and leads to slot 0. A position before all columns affects all slots.
#[test]
fn nodes_are_searched(rt: HostRuntime) {
    let node = node_of_three();
    let head = node.head();
    for (byte, dense, place) in [
        (b'a', 0x4000_0000, 0),
        (b'b', 0x8000_0000, 1),
        (b'c', 0xc000_0000, 2),
        (b'd', 0, 0),
    ] {
        let key = key(&rt, &[byte]);
        assert!(rt; node.columns().extract(&key) == dense);
        assert!(rt; node.search(&key) == place && head.search(&key) == place);
    }
    assert!(rt; node.affected(0, 6) == (0, 2));
}

/// Returns the node in `half`; panics if it has none.
fn node_in_half(rt: &impl Abort, half: Half) -> Node {
    match half {
        Half::Many(node) => node,
        _ => panic!(rt; "no node"),
    }
}

/// Asserts that `node` has the height 1, these positions, rows and leaves, and no other rows.
pub fn expect_node(rt: &impl Abort, node: &Node, positions: &[u16], rows: &[u32], leaves: &[u32]) {
    let count = node.count() as usize;
    assert!(rt; node.height() == 1 && node.columns().as_slice() == positions);
    assert!(rt; rows.len() == count && leaves.len() == count);
    for i in 0..node.count() {
        assert!(rt; node.sparse(i) == rows[i as usize]);
        assert!(rt; node.entry(i) == Entry::Leaf(leaves[i as usize]));
    }
    expect_unused_rows(rt, node);
}

/// Asserts that the rows of `node` behind its entries have all bits set.
fn expect_unused_rows(rt: &impl Abort, node: &Node) {
    for i in node.count()..32 {
        assert!(rt; node.sparse(i) == u32::MAX);
    }
}

/// The rows of `node_of_three`, by hand: 0 for a, a 1 at 7 for b, and one at 8 too for c.
const THREE_ROWS: [u32; 3] = [0, 0x8000_0000, 0xc000_0000];

/// The rows of `node_of_four`, by hand: those of three behind a 0 at 6, and then leaf 3 with a 1 at 6.
const FOUR_ROWS: [u32; 4] = [0, 0x4000_0000, 0x6000_0000, 0x8000_0000];

/// The rows where the fourth leaf comes in front of the three, on the 0 side of a fork at 6.
const FIRST_ROWS: [u32; 4] = [0, 0x8000_0000, 0xc000_0000, 0xe000_0000];

/// Inserts behind and before, removals of the last and the first leaf, and a cut give the nodes worked out by hand. A removal must also
/// take out the column that no fork has any longer.
#[test]
fn nodes_grow_and_shrink(rt: HostRuntime) {
    expect_node(&rt, &node_of_three(), &[7, 8], &THREE_ROWS, &[0, 1, 2]);
    expect_node(&rt, &node_of_four(), &[6, 7, 8], &FOUR_ROWS, &[0, 1, 2, 3]);
    let first = node_of_three().insert(0, 2, 6, false, Entry::Leaf(9));
    expect_node(&rt, &first, &[6, 7, 8], &FIRST_ROWS, &[9, 0, 1, 2]);
    let last_out = node_in_half(&rt, node_of_four().without(3));
    expect_node(&rt, &last_out, &[7, 8], &THREE_ROWS, &[0, 1, 2]);
    let first_out = node_in_half(&rt, node_of_four().without(0));
    expect_node(
        &rt,
        &first_out,
        &[6, 8],
        &[0, 0x4000_0000, 0x8000_0000],
        &[1, 2, 3],
    );
    let front = node_in_half(&rt, node_of_four().cut().zero);
    expect_node(&rt, &front, &[7, 8], &THREE_ROWS, &[0, 1, 2]);
}

/// A node is one higher than its child, and stays so when a leaf replaces the child. A side of one entry is that entry, and no node of one.
#[test]
fn heights_and_single_entries(rt: HostRuntime) {
    let child = Entry::Node {
        number: 4,
        height: 3,
    };
    let node = Node::pair(7, child, Entry::Leaf(1));
    assert!(rt; node.height() == 4 && node.replace(0, Entry::Leaf(5)).height() == 4);
    assert!(rt; matches!(node.without(0), Half::One(Entry::Leaf(1))));
    let cut = node_of_four().cut();
    assert!(rt; cut.position == 6 && matches!(cut.one, Half::One(Entry::Leaf(3))));
}

/// Where a node has room, `grow` returns one node with the new leaf, and doesn't cut it in two.
#[test]
fn a_node_with_room_grows_whole(rt: HostRuntime) {
    let Grown::One(node) = grow(&node_of_three(), 0, 2, 6, true, Entry::Leaf(3)) else {
        panic!(rt; "no node");
    };
    expect_node(&rt, &node, &[6, 7, 8], &FOUR_ROWS, &[0, 1, 2, 3]);
}

/// Returns the words of the node of the keys a, b and c over the leaves 0, 1 and 2, from offset 1 on. They are those that `docs/FORMATS.md`
/// lists.
pub fn words_of_three() -> [u64; NODE_FIELDS] {
    let mut words = [u64::MAX; NODE_FIELDS];
    words[0] = 0x100_0001_0203;
    words[1] = 0;
    words[2] = 0x0201_0000_0000_0000;
    words[3] = 0xffff_ffff_ffc0_8000;
    for i in 25..NODE_FIELDS {
        words[i] = 0;
    }
    words[25] = 1;
    words[26] = 5;
    words[27] = 9;
    words
}

/// Returns the words of the leaf of the key of one byte, `byte`, with `value`, from offset 1 on.
pub fn words_of_leaf(byte: u8, value: u64) -> [u64; LEAF_FIELDS] {
    let mut words = [0; LEAF_FIELDS];
    words[0] = value;
    words[1] = 1;
    words[2] = u64::from(byte) << 56;
    words
}

/// Words of states and entries are read or refused as `docs/FORMATS.md` says; what is read packs to the same word. An obsolete state needs
/// an epoch from 1 to 2^60 - 1. Refused are entries of no kind, a leaf with a height, and nodes whose height is 0 or too great.
#[test]
fn states_and_entries_have_their_words(rt: HostRuntime) {
    for (word, want) in [
        (0, Some(Tag::Free)),
        (1, Some(Tag::Held)),
        (2, Some(Tag::Live)),
        (3, Some(Tag::Locked)),
        (4, None),
        (12, Some(Tag::Obsolete(1))),
        (
            9_223_372_036_854_775_804,
            Some(Tag::Obsolete((1 << 60) - 1)),
        ),
        (9_223_372_036_854_775_820, None),
    ] {
        let tag = unpack_state(word);
        assert!(rt; tag.ok() == want, "at {word}");
        if let Ok(tag) = tag {
            assert!(rt; pack_state(tag) == word, "at {word}");
        }
    }
    let node = Entry::Node {
        number: 3,
        height: 2,
    };
    for (word, want) in [
        (0, Some(None)),
        (2, None),
        (3, None),
        (21, Some(Some(Entry::Leaf(5)))),
        (0x4_0000_0001, None),
        (34_359_738_382, Some(Some(node))),
        (0x4_0000_0000_0002, None),
    ] {
        let entry = unpack_entry(word);
        assert!(rt; entry.ok() == want, "at {word}");
        if let Ok(entry) = entry {
            assert!(rt; pack_entry(entry) == word, "at {word}");
        }
    }
}

/// A leaf and a node pack to the words of `docs/FORMATS.md`, and are read from them. The longest key fills the last word of its record.
#[test]
fn leaves_and_nodes_have_their_words(rt: HostRuntime) {
    let leaf = words_of_leaf(b'a', 5);
    assert!(rt; pack_leaf(&key(&rt, b"a"), 5) == leaf);
    assert!(rt; unpack_leaf(&leaf).ok() == Some((key(&rt, b"a"), 5)));
    assert!(rt; pack_leaf(&key(&rt, &[0xab; 240]), u64::MAX)[31] == 0xabab_abab_abab_abab);
    let node = words_of_three();
    assert!(rt; pack_node(&node_of_three()) == node);
    match unpack_node(&node) {
        Ok(same) => assert!(rt; pack_node(&same) == node),
        Err(_) => panic!(rt; "no node"),
    }
}

/// What the leaf of the key a becomes where one of its words is another. A row has the word's place, the word, and the key, if it spells
/// one. A length above 240 is no key's. In the last word of a key the bytes behind it are 0; the words behind that may be any.
const OTHER_LEAVES: [(usize, u64, Option<&[u8]>); 10] = [
    (1, 0, Some(b"")),
    (1, 8, Some(b"a\0\0\0\0\0\0\0")),
    (1, 241, None),
    (1, u64::MAX, None),
    (2, 0x6200_0000_0000_0000, Some(b"b")),
    (2, 0x6101_0000_0000_0000, None),
    (2, 0x6100_0000_0000_0001, None),
    (3, 1, Some(b"a")),
    (3, u64::MAX, Some(b"a")),
    (31, 1, Some(b"a")),
];

/// With a word of `OTHER_LEAVES` in place of its own, a leaf is read with the row's key, or refused. It would be read with another key if
/// bytes or words behind the key counted.
#[test]
fn leaves_are_read_up_to_the_end_of_their_keys(rt: HostRuntime) {
    for (at, word, want) in OTHER_LEAVES {
        let mut words = words_of_leaf(b'a', 5);
        words[at] = word;
        match (unpack_leaf(&words), want) {
            (Ok(leaf), Some(bytes)) => assert!(rt; leaf == (key(&rt, bytes), 5), "{word} at {at}"),
            (Err(_), None) => {}
            _ => panic!(rt; "{word} at {at}"),
        }
    }
}

/// Words that `pack_node` doesn't write are refused. Each row changes one word of the node of a, b and c. It then has a count of four over
/// three entries, the wide kind, the middle kind, or no masks. Or an unused row or an unused word of its head isn't all ones. Or an entry
/// stands behind the last, or a row has a bit behind its columns. A head of zeros is refused, too, and the node's own head is read.
#[test]
fn other_words_of_nodes_are_refused(rt: HostRuntime) {
    for (at, word) in [
        (0, 0x100_0001_0204),
        (0, 0x1_0203),
        (0, 0x200_0001_0203),
        (2, 0),
        (3, 0xfeff_ffff_ffc0_8000),
        (24, 0),
        (56, 1),
        (3, 0xffff_ffff_ffc0_8100),
    ] {
        let mut words = words_of_three();
        words[at] = word;
        assert!(rt; unpack_node(&words).is_err(), "at {at}");
    }
    let mut head = [0; HEAD_WORDS];
    assert!(rt; unpack_head(&head).is_err());
    let words = words_of_three();
    for i in 0..HEAD_WORDS {
        head[i] = words[i];
    }
    assert!(rt; unpack_head(&head).is_ok());
}
