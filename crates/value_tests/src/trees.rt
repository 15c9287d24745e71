//! The trees that words show.

use crate::nodes::{key, words_of_leaf, words_of_three};
use compound_node::Entry;
use record_words::{LEAF_FIELDS, NODE_FIELDS};
use rowex_replay_state::{Linked, read_tree};
use std::alloc::Global;
use std::process::Abort;

/// Returns the tree that `root` shows over `nodes` and five leaves: a, b, c, q and one whose words are no leaf's. `None` if the words show
/// no lawful tree. Panics if memory is refused.
fn shown_tree(
    rt: &impl Abort,
    alloc: Global,
    nodes: &[[u64; NODE_FIELDS]],
    root: Option<Entry>,
) -> Option<Linked> {
    let leaves = [
        words_of_leaf(b'a', 10),
        words_of_leaf(b'b', 20),
        words_of_leaf(b'c', 30),
        words_of_leaf(b'q', 40),
        [7; LEAF_FIELDS],
    ];
    match read_tree(alloc, nodes, &leaves, root) {
        Ok(linked) => linked,
        Err(_) => panic!(rt; "no memory"),
    }
}

/// The tree that is read has the leaves of a, b and c, with their values. Of the records just these leaves and node 0 are linked, not those
/// that the root doesn't reach.
#[test]
fn words_show_a_tree_of_three_leaves(rt: HostRuntime) {
    let nodes = [words_of_three(), [9; NODE_FIELDS]];
    let (number, height) = (0, 1);
    match shown_tree(
        &rt,
        rt.alloc(),
        &nodes,
        Some(Entry::Node { number, height }),
    ) {
        Some(linked) => {
            assert!(rt; linked.items.len() == 3);
            for (i, item) in linked.items.iter().enumerate() {
                assert!(rt; item.key == key(&rt, &[b'a' + i as u8]));
                assert!(rt; item.number as usize == i && item.value == 10 * (i as u64 + 1));
            }
            assert!(rt; linked.nodes.as_slice() == [true, false].as_slice());
            assert!(rt; linked.leaves.as_slice() == [true, true, true, false, false].as_slice());
        }
        None => panic!(rt; "no tree"),
    }
}

/// The root is a leaf where its height is 0. Lawful are a leaf, the tree of three leaves, and that with a node of the greatest height. The
/// next five have a leaf twice, one outside the table, one without a key, one that parts elsewhere, and two in the other order. Then come a
/// root of another height, and one outside the table. Last are a root leaf without a key, one outside the table, and a node that is too
/// high.
#[test]
fn other_words_show_other_trees_or_none(rt: HostRuntime) {
    for (i, (below, second, third, number, height, want)) in [
        (1, 5, 9, 3, 0, Some(1)),
        (1, 5, 9, 0, 1, Some(3)),
        (2153, 5, 9, 0, 2153, Some(3)),
        (1, 1, 9, 0, 1, None),
        (1, 5, 21, 0, 1, None),
        (1, 5, 17, 0, 1, None),
        (1, 5, 13, 0, 1, None),
        (1, 9, 5, 0, 1, None),
        (1, 5, 9, 0, 2, None),
        (1, 5, 9, 1, 1, None),
        (1, 5, 9, 4, 0, None),
        (1, 5, 9, 5, 0, None),
        (2154, 5, 9, 0, 2154, None),
    ]
    .iter()
    .enumerate()
    {
        let mut words = words_of_three();
        words[0] = 0x100_0000_0203 | *below << 16;
        words[26] = *second;
        words[27] = *third;
        let (number, height) = (*number, *height);
        let root = if height == 0 {
            Entry::Leaf(number)
        } else {
            Entry::Node { number, height }
        };
        let found = shown_tree(&rt, rt.alloc(), &[words], Some(root));
        assert!(rt; found.map(|linked| linked.items.len()) == *want, "at {i}");
    }
    assert!(rt; shown_tree(&rt, rt.alloc(), &[], None).is_some());
}
