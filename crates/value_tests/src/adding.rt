//! Leaves added to the words of heads of each kind, and the slots that a position affects, by value.

ghost use Rattle.std.specs.Prelude.{◌≡◌, ◌<◌, length};
ghost use Rattle.compound_node.specs.Nodes.{piece};
ghost use Rattle.node_tries.specs.Growth.{IsAffected};

use crate::nodes::comb_node;
use compound_node::{Entry, Node};
use record_words::{
    HEAD_WORDS, HeadKind, NODE_FIELDS, add_leaf, affected_slots, can_take_leaf, pack_entry,
    pack_node,
};
use std::process::Abort;

/// Returns the words of `node` with leaf 40, which parts from `slots`, the first to the last, at `position`, on the side `bit`. `position`
/// must affect just these slots. Panics if the node can't take the leaf.
fn words_with_leaf(
    rt: &impl Abort,
    node: &Node,
    slots: (u8, u8),
    position: u16,
    bit: bool,
) -> [u64; NODE_FIELDS]
    requires range { IsAffected (piece node.now) position slots.0 slots.1 }
    requires below { position < 65535 }
{
    let mut words = pack_node(node);
    if !can_take_leaf(&words) {
        panic!(rt; "no room");
    }
    add_leaf(&mut words, slots.0, slots.1, position, bit, 40);
    words
}

/// Returns the words of the node with columns at `positions` and leaf 40 behind all, parted from the last at `position`. Panics unless the
/// positions rise to this one, and the node can take it.
fn words_with_last(rt: &impl Abort, positions: &[u16], position: u16) -> [u64; NODE_FIELDS] {
    let node = comb_node(rt, positions);
    let count = positions.len();
    if count == 0 || count > 31 || position <= positions[count - 1] || position == u16::MAX {
        panic!(rt; "not behind");
    }
    words_with_leaf(rt, &node, (count as u8, count as u8), position, true)
}

/// Returns the words of a node whose head is of the kind `kind`: those of `front` first, those of `rows` where its rows begin, all ones up
/// to the entries, and then those of `leaves`.
fn words_of(kind: HeadKind, front: &[u64], rows: &[u64], leaves: &[u32]) -> [u64; NODE_FIELDS] {
    let mut words = [0; NODE_FIELDS];
    for index in 0..HEAD_WORDS {
        words[index] = u64::MAX;
    }
    for index in 0..front.len().min(9) {
        words[index] = front[index];
    }
    for index in 0..rows.len().min(16) {
        words[kind.first_rows() + index] = rows[index];
    }
    for slot in 0..leaves.len().min(32) {
        words[HEAD_WORDS + slot] = pack_entry(Some(Entry::Leaf(leaves[slot])));
    }
    words
}

/// Returns 32 leaves: 0 to `last`, and leaf 40 at each place behind.
fn leaves_up_to(last: usize) -> [u32; 32] {
    let mut leaves = [40; 32];
    for slot in 0..32 {
        if slot <= last {
            leaves[slot] = slot as u32;
        }
    }
    leaves
}

/// Columns of a node, the position of a new one behind, and what the head is then: its kind, its numbers and columns, and its rows. A
/// narrow head has 8 columns at most, and a middle one 16. Neither has a column over 15 bytes behind its first, or one that says whether
/// there is a byte.
const LAST: [(&[u16], u16, HeadKind, &[u64], &[u64]); 8] = [
    (
        &[1],
        143,
        HeadKind::Narrow,
        &[
            0x100_0001_0203,
            0x000f_0000_0000_0000,
            0x8001_0000_0000_0000,
        ],
        &[0xffff_ffff_ffc0_8000],
    ),
    (
        &[1],
        144,
        HeadKind::Wide,
        &[0x1_0203, 0xffff_ffff_0090_0001],
        &[0x8000_0000_0000_0000, 0xffff_ffff_c000_0000],
    ),
    (
        &[1],
        145,
        HeadKind::Wide,
        &[0x1_0203, 0xffff_ffff_0091_0001],
        &[0x8000_0000_0000_0000, 0xffff_ffff_c000_0000],
    ),
    (
        &[1],
        9,
        HeadKind::Wide,
        &[0x1_0203, 0xffff_ffff_0009_0001],
        &[0x8000_0000_0000_0000, 0xffff_ffff_c000_0000],
    ),
    (
        &[1, 2, 3, 4, 5, 6, 7],
        8,
        HeadKind::Narrow,
        &[0x100_0001_0809, 0, 0x8040_2010_0804_0201],
        &[0xfefc_f8f0_e0c0_8000],
    ),
    (
        &[1, 2, 3, 4, 5, 6, 7, 8],
        10,
        HeadKind::Middle,
        &[
            0x200_0001_090a,
            0x0100_0000_0000_0000,
            0,
            0x8000_0000_0000_0000,
            0x8040_2010_0804_0201,
        ],
        &[
            0xe000_c000_8000_0000,
            0xfe00_fc00_f800_f000,
            0xffff_ffff_ff80_ff00,
        ],
    ),
    (
        &[1, 2, 3, 4, 5, 6, 7, 8, 10, 11, 12, 13, 14, 15, 16],
        17,
        HeadKind::Middle,
        &[
            0x200_0001_1011,
            0x0101_0101_0101_0101,
            0,
            0x8040_2010_0804_0201,
            0x8040_2010_0804_0201,
        ],
        &[
            0xe000_c000_8000_0000,
            0xfe00_fc00_f800_f000,
            0xffe0_ffc0_ff80_ff00,
            0xfffe_fffc_fff8_fff0,
        ],
    ),
    (
        &[1, 2, 3, 4, 5, 6, 7, 8, 10, 11, 12, 13, 14, 15, 16, 17],
        19,
        HeadKind::Wide,
        &[
            0x1_1112,
            0x0004_0003_0002_0001,
            0x0008_0007_0006_0005,
            0x000d_000c_000b_000a,
            0x0011_0010_000f_000e,
            0xffff_ffff_ffff_0013,
        ],
        &[
            0x8000_0000_0000_0000,
            0xe000_0000_c000_0000,
            0xf800_0000_f000_0000,
            0xfe00_0000_fc00_0000,
            0xff80_0000_ff00_0000,
            0xffe0_0000_ffc0_0000,
            0xfff8_0000_fff0_0000,
            0xfffe_0000_fffc_0000,
            0xffff_8000_ffff_0000,
        ],
    ),
];

/// Leaves behind the last one make heads of the expected kind and words, worked out by hand. They lie on either side of each border: of 8
/// columns, of 16, of the sixteen bytes, and of a position that says whether there is a byte.
#[test]
fn leaves_are_added_behind(rt: HostRuntime) {
    for (positions, position, kind, front, rows) in LAST {
        let words = words_with_last(&rt, positions, position);
        let leaves = leaves_up_to(positions.len());
        let want = words_of(kind, front, rows, &leaves[..positions.len().min(30) + 2]);
        assert!(rt; words == want, "{position}");
    }
}

/// A leaf is added to a narrow head at a column that it has, with a new column in front, and with one far behind. The head keeps its
/// columns, gets one more, and becomes a wide one. The words are worked out by hand.
#[test]
fn leaves_are_added_to_narrow_words(rt: HostRuntime) {
    let node = comb_node(&rt, &[7, 8]);
    let words = words_with_leaf(&rt, &node, (0, 0), 8, true);
    let front = [0x100_0001_0204, 0, 0x0201_0000_0000_0000];
    let rows = [0xffff_ffff_c080_4000];
    assert!(rt; words == words_of(HeadKind::Narrow, &front, &rows, &[0, 40, 1, 2]));
    let words = words_with_leaf(&rt, &node, (0, 2), 6, true);
    let front = [0x100_0001_0304, 0, 0x0402_0100_0000_0000];
    let rows = [0xffff_ffff_8060_4000];
    assert!(rt; words == words_of(HeadKind::Narrow, &front, &rows, &[0, 1, 2, 40]));
    let words = words_with_leaf(&rt, &node, (2, 2), 200, false);
    let front = [0x1_0304, 0xffff_00c8_0008_0007];
    let rows = [0x8000_0000_0000_0000, 0xe000_0000_c000_0000];
    assert!(rt; words == words_of(HeadKind::Wide, &front, &rows, &[0, 1, 40, 2]));
}

/// A leaf that is added at a column of a middle head leaves all columns. Rows and entries behind it move by one place. The words are worked
/// out by hand.
#[test]
fn leaves_are_added_to_middle_words(rt: HostRuntime) {
    let node = comb_node(&rt, &[1, 2, 3, 4, 5, 6, 7, 8, 10]);
    let words = words_with_leaf(&rt, &node, (0, 0), 10, false);
    let front = [
        0x200_0001_090b,
        0x0100_0000_0000_0000,
        0,
        0x8000_0000_0000_0000,
        0x8040_2010_0804_0201,
    ];
    let rows = [
        0xc000_8000_0080_0000,
        0xfc00_f800_f000_e000,
        0xffff_ff80_ff00_fe00,
    ];
    let leaves = [40, 0, 1, 2, 3, 4, 5, 6, 7, 8, 9];
    assert!(rt; words == words_of(HeadKind::Middle, &front, &rows, &leaves));
}

/// A leaf that is added at a column of a wide head leaves all columns. Rows and entries behind it move by one place. The words are worked
/// out by hand.
#[test]
fn leaves_are_added_to_wide_words(rt: HostRuntime) {
    let node = comb_node(&rt, &[7, 200]);
    let words = words_with_leaf(&rt, &node, (0, 0), 200, true);
    let front = [0x1_0204, 0xffff_ffff_00c8_0007];
    let rows = [0x4000_0000_0000_0000, 0xc000_0000_8000_0000];
    assert!(rt; words == words_of(HeadKind::Wide, &front, &rows, &[0, 40, 1, 2]));
}

/// Returns the first and the last slot that `position` affects, from `slot` of `node`, which must have an entry. The words of the node's
/// head tell them.
fn affected_in_words(node: &Node, slot: u8, position: u16) -> (u8, u8)
    requires { slot < length node.now.entries }
{
    let words = pack_node(node);
    affected_slots(&words[..HEAD_WORDS], slot, position)
}

/// Columns of a node, and for slots and positions the first and the last affected slot, by hand.
const AFFECTED: [(&[u16], &[(u8, u16, (u8, u8))]); 3] = [
    (
        &[7, 8],
        &[
            (0, 6, (0, 2)),
            (0, 8, (0, 0)),
            (1, 8, (1, 2)),
            (1, 9, (1, 1)),
        ],
    ),
    (
        &[1, 2, 3, 4, 5, 6, 7, 8, 10],
        &[
            (9, 1, (0, 9)),
            (9, 5, (4, 9)),
            (3, 4, (3, 9)),
            (3, 5, (3, 3)),
            (9, 10, (8, 9)),
            (9, 11, (9, 9)),
        ],
    ),
    (
        &[7, 200],
        &[(2, 7, (0, 2)), (1, 100, (1, 2)), (1, 201, (1, 1))],
    ),
];

/// In the words of a head of each kind a position affects the slots that agree with the given one before it. If the position is a column,
/// that column doesn't count: else too few slots would be affected.
#[test]
fn affected_slots_are_found_in_words(rt: HostRuntime) {
    for (positions, wants) in AFFECTED {
        let node = comb_node(&rt, positions);
        for (slot, position, want) in wants {
            assert!(rt; *slot < node.count());
            let slots = affected_in_words(&node, *slot, *position);
            assert!(rt; slots == *want, "{slot} at {position}");
        }
    }
}
