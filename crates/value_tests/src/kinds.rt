//! Heads of each kind by value: their words read plainly, and searched, against the node that they spell.

ghost use Rattle.std.specs.Prelude.{◌≡◌, ◌≤◌, ◌<◌, length};

use crate::nodes::{comb_node, key};
use compound_node::Node;
use key_bits::Key;
use record_words::{
    FIRST_ROWS, HEAD_WORDS, HeadKind, MIDDLE_HEAD_WORDS, NARROW_HEAD_WORDS, NODE_FIELDS, ROW_WORDS,
    extract_dense_key, first_position_of, index_of_first_position, pack_node, read_node,
    read_numbers, search_middle, search_narrow, search_row_words,
};
use std::process::Abort;

/// Columns and the kind of their head. There are 8 of them and 9, 16 and 17. Some reach to byte 15 or to byte 16. Some tell whether there
/// is a byte, and some stand at the last bytes of a key.
const KINDS: [(&[u16], HeadKind); 13] = [
    (&[7, 8], HeadKind::Narrow),
    (&[1, 2, 10, 20, 35, 71, 100, 143], HeadKind::Narrow),
    (&[1, 2, 10, 20, 35, 71, 100, 142, 143], HeadKind::Middle),
    (
        &[
            28, 29, 30, 31, 32, 33, 34, 35, 37, 38, 39, 40, 41, 42, 169, 170,
        ],
        HeadKind::Middle,
    ),
    (
        &[
            28, 29, 30, 31, 32, 33, 34, 35, 37, 38, 39, 40, 41, 42, 43, 169, 170,
        ],
        HeadKind::Wide,
    ),
    (&[1, 144], HeadKind::Wide),
    (&[1, 145], HeadKind::Wide),
    (&[10, 145], HeadKind::Narrow),
    (&[9, 10], HeadKind::Wide),
    (&[8, 9, 10], HeadKind::Wide),
    (&[2017, 2018, 2159], HeadKind::Narrow),
    (&[2026, 2159], HeadKind::Wide),
    (
        &[
            1, 2, 3, 4, 5, 6, 7, 8, 10, 11, 12, 13, 14, 15, 16, 17, 19, 20, 21, 22, 23, 24, 25, 26,
            28, 29, 30, 31, 32, 33, 34,
        ],
        HeadKind::Wide,
    ),
];

/// Returns the position of column `j` of the head with `words`, whose kind is `kind`, as the layout tells it.
fn plain_position(words: &[u64; NODE_FIELDS], kind: HeadKind, j: usize) -> u16
    requires { j < 31 }
{
    if kind == HeadKind::Wide {
        return (words[1 + j / 4] >> (16 * (j % 4)) & 0xffff) as u16;
    }
    let first = words[0] >> 32 & 0xff;
    let (index, mask) = match kind {
        HeadKind::Narrow => (words[1], words[2]),
        _ if j < 8 => (words[2], words[4]),
        _ => (words[1], words[3]),
    };
    let low = 56 - 8 * (j % 8);
    let mut bit = 0;
    for o in 1..9 {
        if mask >> low & 0xff == 256 >> o {
            bit = o;
        }
    }
    ((9 * (first + (index >> low & 0xff))).wrapping_add(bit) & 0xffff) as u16
}

/// Returns the row of slot `i` of the head with `words`, whose kind is `kind`, as the layout tells it.
fn plain_row(words: &[u64; NODE_FIELDS], kind: HeadKind, i: usize) -> u32
    requires { i < 32 }
{
    match kind {
        HeadKind::Wide => (words[9 + i / 2] >> (32 * (i % 2)) & 0xffff_ffff) as u32,
        HeadKind::Narrow => ((words[3 + i / 8] >> (8 * (i % 8)) & 0xff) as u32) << 24,
        HeadKind::Middle => ((words[5 + i / 4] >> (16 * (i % 4)) & 0xffff) as u32) << 16,
    }
}

/// Returns the slot that the words of the head of `node` lead to by `key`.
fn search_words(node: &Node, key: &Key) -> u8 {
    let words = pack_node(node);
    match read_numbers(words[0]).kind {
        HeadKind::Wide => {
            let mut front = [0; FIRST_ROWS];
            front.copy_from_slice(&words[..FIRST_ROWS]);
            let mut back = [0; ROW_WORDS];
            back.copy_from_slice(&words[FIRST_ROWS..HEAD_WORDS]);
            search_row_words(&back, extract_dense_key(&front, key))
        }
        HeadKind::Narrow => {
            let mut front = [0; NARROW_HEAD_WORDS];
            front.copy_from_slice(&words[..NARROW_HEAD_WORDS]);
            search_narrow(&front, key)
        }
        HeadKind::Middle => {
            let mut front = [0; MIDDLE_HEAD_WORDS];
            front.copy_from_slice(&words[..MIDDLE_HEAD_WORDS]);
            search_middle(&front, key)
        }
    }
}

/// Asserts that `words` are those of `node`, by each function that reads them, and those that `pack_node` makes. Their head must be of the
/// kind `want`, with all ones in its unused words.
fn expect_words(rt: &impl Abort, words: &[u64; NODE_FIELDS], node: &Node, want: HeadKind) {
    let numbers = read_numbers(words[0]);
    let columns = node.columns();
    assert!(rt; numbers.kind == want);
    assert!(rt; numbers.count == node.count() && numbers.columns == columns.count());
    assert!(rt; numbers.height == node.height());
    for j in 0..columns.count() {
        let position = columns.position(j);
        assert!(rt;
            plain_position(words, want, j as usize) == position,
            "column {j}"
        );
        let word = words[numbers.index_of_position(j)];
        let masks = words[numbers.index_of_mask(j)];
        assert!(rt;
            numbers.read_position(word, masks, j) == position,
            "column {j}"
        );
    }
    let first = first_position_of(numbers, words[index_of_first_position(want)]);
    assert!(rt; first == columns.first());
    for i in 0..node.count() {
        assert!(rt;
            plain_row(words, want, i as usize) == node.sparse(i),
            "row {i}"
        );
        let row = numbers.row_of(words[numbers.index_of_row(i)], i);
        assert!(rt; row == node.sparse(i), "row {i}");
    }
    for index in want.head_words()..HEAD_WORDS {
        assert!(rt; words[index] == u64::MAX, "unused word {index}");
    }
    let packed = pack_node(node);
    assert!(rt; packed == *words);
    let read = read_node(&packed);
    assert!(rt; *read.columns().padded_positions() == *columns.padded_positions());
    assert!(rt; *read.padded_rows() == *node.padded_rows());
}

/// Returns a key of `length` bytes, at most 240, made from `seed`, so that each search meets ones and zeros.
fn long_key(rt: &impl Abort, seed: u8, length: usize) -> Key {
    let mut bytes = [0; 240];
    let mut state = seed as u32;
    for i in 0..240 {
        state = state.wrapping_mul(75).wrapping_add(74) % 65_537;
        bytes[i] = (state / 7 % 256) as u8;
    }
    key(rt, &bytes[..length.min(240)])
}

/// Asserts that searches in the words of `node`, by keys of many lengths, lead where those in the node do.
fn expect_searches(rt: &impl Abort, node: &Node) {
    for length in [
        0, 1, 2, 3, 7, 15, 16, 17, 18, 19, 25, 200, 224, 225, 239, 240,
    ] {
        for seed in 1..9 {
            let key = long_key(rt, seed, length);
            assert!(rt;
                search_words(node, &key) == node.search(&key),
                "key {seed} of {length}"
            );
        }
    }
}

/// Columns of a node, a key, and the slot to which a search leads: as many columns as have a 1 before the first with a 0. Behind a key's
/// end all bits are 0.
const SEARCHED: [(&[u16], &[u8], u8); 16] = [
    (&[1, 2, 10, 20, 35, 71, 100, 143], b"", 0),
    (&[1, 2, 10, 20, 35, 71, 100, 143], b"\xff", 2),
    (
        &[1, 2, 10, 20, 35, 71, 100, 143],
        b"\xff\xff\xff\xfe\xff",
        4,
    ),
    (&[1, 2, 10, 20, 35, 71, 100, 143], &[0xff; 15], 7),
    (&[1, 2, 10, 20, 35, 71, 100, 143], &[0xff; 16], 8),
    (&[1, 2, 10, 20, 35, 71, 100, 142, 143], &[0xff; 15], 7),
    (&[1, 2, 10, 20, 35, 71, 100, 142, 143], &[0xfe; 16], 4),
    (&[1, 2, 10, 20, 35, 71, 100, 142, 143], &[0xff; 16], 9),
    (&[1, 144], &[0x80; 16], 1),
    (&[1, 144], &[0x80; 17], 2),
    (&[1, 145], &[0x80; 16], 1),
    (&[1, 145], &[0x80; 17], 2),
    (&[9, 10], b"\0", 0),
    (&[9, 10], b"\0\0", 1),
    (&[9, 10], b"\0\x80", 2),
    (&[1, 2, 9], b"\xc0\0", 3),
];

/// Searches of a node and of the words of its head lead to the slot worked out by hand. The keys end before, in and behind the columns:
/// bytes loaded behind a key's end must count as 0.
#[test]
fn keys_lead_to_their_slots(rt: HostRuntime) {
    for (positions, bytes, want) in SEARCHED {
        let node = comb_node(&rt, positions);
        let key = key(&rt, bytes);
        assert!(rt;
            search_words(&node, &key) == want && node.search(&key) == want,
            "slot {want}"
        );
    }
}

/// A head takes the kind of its columns. Searches and readings of its words agree with the node, and with the layout read plainly
/// (`plain_position`, `plain_row`).
#[test]
fn heads_take_the_kind_of_their_columns(rt: HostRuntime) {
    for (positions, want) in KINDS {
        let node = comb_node(&rt, positions);
        expect_words(&rt, &pack_node(&node), &node, want);
        expect_searches(&rt, &node);
    }
}
