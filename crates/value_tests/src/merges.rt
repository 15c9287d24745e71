//! Merges, by value: the sibling of a slot, two nodes under a fork, and one entry in place of a fork; and numbers read of words.

ghost use Rattle.std.specs.Prelude.{◌≡◌};

use crate::nodes::{comb_node, expect_node, node_of_three};
use compound_node::{Entry, Node};
use record_words::{NODE_FIELDS, close_fork, pack_node, read_numbers};
use std::process::Abort;

/// Returns the node of height 2 of children 10 and 11 and leaf 12, with these rows and forks at the positions 4 and 6. Panics if there is
/// none.
fn node_of_two_children_and_leaf(rt: &impl Abort, rows: [u32; 3]) -> Node {
    let mut sparse = [u32::MAX; 32];
    for i in 0..3 {
        sparse[i] = rows[i];
    }
    let entries = [child_entry(10), child_entry(11), Entry::Leaf(12)];
    match Node::from_parts(2, &[4, 6], &sparse, &entries) {
        Some(node) => node,
        None => panic!(rt; "no node"),
    }
}

/// Returns the entry of child `number`, a node of height 1.
fn child_entry(number: u32) -> Entry
    ensures { result ≡ Entry.Node number 1 }
{
    Entry::Node { number, height: 1 }
}

/// Asserts that `find_sibling` returns what `want` has, for each slot of `node`.
fn expect_siblings(rt: &impl Abort, node: &Node, want: &[Option<(u8, u16)>]) {
    assert!(rt; want.len() == node.count() as usize);
    for i in 0..node.count() {
        assert!(rt; node.find_sibling(i) == want[i as usize], "{i}");
    }
}

/// In nodes of two, three and 32 entries each slot's sibling is found with the fork's position. None is found where the other side of the
/// slot's fork has several entries.
#[test]
fn siblings_are_found(rt: HostRuntime) {
    let last = node_of_two_children_and_leaf(&rt, [0, 0x4000_0000, 0x8000_0000]);
    expect_siblings(&rt, &last, &[Some((1, 6)), Some((0, 6)), None]);
    let first = node_of_two_children_and_leaf(&rt, [0, 0x8000_0000, 0xc000_0000]);
    expect_siblings(&rt, &first, &[None, Some((2, 6)), Some((1, 6))]);
    let two = Node::pair(7, Entry::Leaf(0), Entry::Leaf(1));
    expect_siblings(&rt, &two, &[Some((1, 7)), Some((0, 7))]);
    let mut want = [None; 32];
    want[30] = Some((31, 30));
    want[31] = Some((30, 30));
    expect_siblings(&rt, &comb_node(&rt, &POSITIONS), &want);
}

/// The positions 0 to 30, as many as a node may have columns.
const POSITIONS: [u16; 31] = [
    0, 1, 2, 3, 4, 5, 6, 7, 8, 9, 10, 11, 12, 13, 14, 15, 16, 17, 18, 19, 20, 21, 22, 23, 24, 25,
    26, 27, 28, 29, 30,
];

/// Returns the node of `zero` and `one`, with a fork at `position` between them. Asserts that both fork later and have room in one node.
fn merge_nodes(rt: &impl Abort, position: u16, zero: &Node, one: &Node) -> Node {
    assert!(rt; zero.count() + one.count() <= 32);
    assert!(rt; position < zero.first_position() && position < one.first_position());
    Node::merge(position, zero, one)
}

/// A new fork at position 6 joins two nodes. Columns, rows and leaves are worked out by hand. A row's highest bit is that of the first
/// column. First both sides have just column 7. Then one side is `node_of_three`, with columns 7 and 8, and the other has just column 8.
/// The rows of that other side have 0 at column 7.
#[test]
fn two_nodes_become_one(rt: HostRuntime) {
    let two = Node::pair(7, Entry::Leaf(3), Entry::Leaf(4));
    let rows = [0, 0x4000_0000, 0x8000_0000, 0xc000_0000];
    expect_node(
        &rt,
        &merge_nodes(&rt, 6, &two, &two),
        &[6, 7],
        &rows,
        &[3, 4, 3, 4],
    );
    let later = Node::pair(8, Entry::Leaf(3), Entry::Leaf(4));
    let rows = [0, 0x4000_0000, 0x6000_0000, 0x8000_0000, 0xa000_0000];
    expect_node(
        &rt,
        &merge_nodes(&rt, 6, &node_of_three(), &later),
        &[6, 7, 8],
        &rows,
        &[0, 1, 2, 3, 4],
    );
    let rows = [0, 0x2000_0000, 0x8000_0000, 0xc000_0000, 0xe000_0000];
    expect_node(
        &rt,
        &merge_nodes(&rt, 6, &later, &node_of_three()),
        &[6, 7, 8],
        &rows,
        &[3, 4, 0, 1, 2],
    );
}

/// Odd and even positions.
const ODD: [u16; 15] = [1, 3, 5, 7, 9, 11, 13, 15, 17, 19, 21, 23, 25, 27, 29];

const EVEN: [u16; 15] = [2, 4, 6, 8, 10, 12, 14, 16, 18, 20, 22, 24, 26, 28, 30];

/// Two nodes of 16 entries without a common column become one with 32 entries and 31 columns, the most that there may be. The rows are
/// worked out by hand.
#[test]
fn two_nodes_become_a_full_one(rt: HostRuntime) {
    let node = merge_nodes(&rt, 0, &comb_node(&rt, &ODD), &comb_node(&rt, &EVEN));
    assert!(rt; node.count() == 32 && node.columns().as_slice() == POSITIONS.as_slice());
    for (at, row) in [
        (0, 0),
        (1, 0x4000_0000),
        (2, 0x5000_0000),
        (15, 0x5555_5554),
        (16, 0x8000_0000),
        (17, 0xa000_0000),
        (18, 0xa800_0000),
        (31, 0xaaaa_aaaa),
    ] {
        assert!(rt; node.sparse(at) == row, "{at}");
    }
}

/// Puts child 20 in place of the entry in slot `at` of `node` and of its sibling. Returns the node's words then, and the child if the node
/// has no other entries. Panics if there is no such slot or sibling, or the node isn't 2 high.
fn close_fork_at(rt: &impl Abort, node: &Node, at: u8) -> (Option<Entry>, [u64; NODE_FIELDS]) {
    let (count, height) = (node.count(), node.height());
    if at >= count {
        panic!(rt; "no entry");
    }
    if height != 2 {
        panic!(rt; "of another height");
    }
    let Some((place, _)) = node.find_sibling(at) else {
        panic!(rt; "none beside");
    };
    let mut words = pack_node(node);
    let left = close_fork(&mut words, at, place, child_entry(20));
    (left, words)
}

/// Closing a fork makes the words of a pair, from either of its two slots. Of a node of two the entry alone is left. The first pair's words
/// are given by hand, too.
#[test]
fn one_entry_takes_the_place_of_two(rt: HostRuntime) {
    let last = node_of_two_children_and_leaf(&rt, [0, 0x4000_0000, 0x8000_0000]);
    let want = pack_node(&Node::pair(4, child_entry(20), Entry::Leaf(12)));
    assert!(rt; want[0] == (1 << 40) + 131_330 && want[1] == 0);
    assert!(rt; want[2] == 16 << 56 && want[3] == 0xffff_ffff_ffff_8000);
    for at in 0..2 {
        let (left, words) = close_fork_at(&rt, &last, at);
        assert!(rt; left.is_none() && words == want, "{at}");
    }
    let first = node_of_two_children_and_leaf(&rt, [0, 0x8000_0000, 0xc000_0000]);
    let want = pack_node(&Node::pair(4, child_entry(10), child_entry(20)));
    for at in 1..3 {
        let (left, words) = close_fork_at(&rt, &first, at);
        assert!(rt; left.is_none() && words == want, "{at}");
    }
    let two = Node::pair(4, child_entry(10), child_entry(11));
    for at in 0..2 {
        let (left, _) = close_fork_at(&rt, &two, at);
        assert!(rt; left == Some(child_entry(20)), "{at}");
    }
}

/// In a wide head `row_of` reads the half of a word by the slot, and `read_position` the quarter by the column.
#[test]
fn rows_and_positions_are_read(rt: HostRuntime) {
    let words = pack_node(&comb_node(&rt, &POSITIONS));
    let numbers = read_numbers(words[0]);
    for at in 0..32u8 {
        let row = numbers.row_of(words[numbers.index_of_row(at)], at);
        assert!(rt; row == !(u32::MAX >> at), "{at}");
    }
    for column in 0..31u8 {
        let word = words[numbers.index_of_position(column)];
        let position = numbers.read_position(word, words[numbers.index_of_mask(column)], column);
        assert!(rt; position == u16::from(column), "{column}");
    }
    assert!(rt; numbers.row_of(0xc000_0000_8000_0000, 7) == 0xc000_0000);
    assert!(rt; numbers.read_position(0xffff_0008_0006_0004, 0, 9) == 6);
}
