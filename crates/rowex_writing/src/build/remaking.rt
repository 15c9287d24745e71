//! What a node becomes with a new leaf, or with a fork in the place of an entry.

ghost use Rattle.std.specs.Prelude.{◌≡◌, ◌↔◌, ◌<◌, ◌≤◌, IsTrue, length, false};
ghost use Rattle.node_tries.specs.Changes.{AtRootFork};
ghost use Rattle.node_tries.specs.Piece.{Place as At};
ghost use Rattle.compound_node.specs.Nodes.{NodeView, piece, height_of, IsBuiltFrom};
ghost use Rattle.record_words.specs.Node.{CanTakeLeaf, SpellBuilt};
ghost use Rattle.tries.specs.Affected.{subtrie_forked};
ghost use Rattle.tries.specs.Keys.{bit};
ghost use Rattle.tries.specs.Place.{spot};
ghost use Rattle.insert_cases.specs.Grown.{IsCutOf, keeps_side};
ghost use Rattle.rowex_writing.specs.build.Remaking.{AwaitsLeaf, IsSubtrieOfTree, AreNoHigher, subtrie_with_fork, subtrie_with_leaf};

use compound_node::{Cut, Entry, Node};
use insert_cases::{grow_full, pull_up_full, put_fork};
use key_bits::Key;
use record_words::{
    HEAD_WORDS, HeadKind, MAX_ENTRIES, NODE_FIELDS, NUMBERS_INDEX, affected_slots, read_numbers,
};

/// A new leaf for a node, in the leaf record `number`. It goes beside the entries that `position` affects, at which its key first differs
/// from theirs. One of these is the entry in `slot`, to which the search for its key leads.
#[derive(Drop)]
pub(crate) struct NewLeaf<'a> {
    pub key: &'a Key,
    pub number: u32,
    pub position: u16,
    pub slot: u8,
}

/// Adds the leaf `new` to `node`, which has fewer than 32 entries. The search for `new.key` in `node` takes the slot `new.slot`. The node
/// gets no higher.
pub(crate) fn add_leaf(node: &mut Node, new: &NewLeaf<'_>)
    requires room { length node.old.entries < MAX_ENTRIES }
    requires leads { spot new.now.key.now (piece node.old) ≡ new.now.slot }
    requires tree { IsSubtrieOfTree (subtrie_with_leaf new.now (piece node.old)) }
    ensures shows { IsBuiltFrom node.new (subtrie_with_leaf new.now (piece node.old)) }
    ensures low { node.new.height ≤ node.old.height }
{
    prove!((node.count() as usize) < MAX_ENTRIES);
    let bit = new.key.bit(new.position);
    let (first, last) = node.affected(new.slot, new.position);
    node.add_entry(first, last, new.position, bit, Entry::Leaf(new.number));
}

/// Changes `words`, those of a node with leaves alone and room for one more, to those of the node with the leaf `new`. The three arms are
/// alike: each is compiled for its kind of head alone, and reads the columns and the rows once.
#[inline(never)]
pub(crate) fn add_leaf_to_words(words: &mut [u64; NODE_FIELDS], new: &NewLeaf<'_>)
    requires takes { (node : NodeView) × AwaitsLeaf words.old node new.now × CanTakeLeaf node }
    ensures { (node : NodeView) → AwaitsLeaf words.old node new.now → CanTakeLeaf node → SpellBuilt words.new (subtrie_with_leaf new.now (piece node)) }
{
    match read_numbers(words[NUMBERS_INDEX]).kind {
        HeadKind::Narrow => add_leaf_beside(words, new),
        HeadKind::Middle => add_leaf_beside(words, new),
        HeadKind::Wide => add_leaf_beside(words, new),
    }
}

/// Changes `words`, those of a node with leaves alone and room for one more, to those of the node with the leaf `new`, as
/// [`add_leaf_to_words`] promises. Inline, so that it is compiled for each kind of head.
#[inline(always)]
fn add_leaf_beside(words: &mut [u64; NODE_FIELDS], new: &NewLeaf<'_>)
    requires takes { (node : NodeView) × AwaitsLeaf words.old node new.now × CanTakeLeaf node }
    ensures { (node : NodeView) → AwaitsLeaf words.old node new.now → CanTakeLeaf node → SpellBuilt words.new (subtrie_with_leaf new.now (piece node)) }
{
    let bit = new.key.bit(new.position);
    let (first, last) = affected_slots(&words[..HEAD_WORDS], new.slot, new.position);
    record_words::add_leaf(words, first, last, new.position, bit, new.number);
}

/// Returns the two sides of the first fork that the full node `node` has once the leaf `new` is added. The search for `new.key` in `node`
/// takes the slot `new.slot`. One side is `node` as it is, exactly if `new.position` is before the first fork of `node`. No side is higher
/// than `node`.
pub(crate) fn cut_with_leaf(node: &Node, new: &NewLeaf<'_>) -> Cut
    requires full { length node.now.entries ≡ MAX_ENTRIES }
    requires leads { spot new.now.key.now (piece node.now) ≡ new.now.slot }
    requires tree { IsSubtrieOfTree (subtrie_with_leaf new.now (piece node.now)) }
    ensures shows { IsCutOf node.now result (subtrie_with_leaf new.now (piece node.now)) }
    ensures same { IsTrue (keeps_side result) ↔ AtRootFork (λ p zero one. new.now.position < p) (piece node.now) }
    ensures low { AreNoHigher node.now.height result }
{
    prove!(node.count() as usize == MAX_ENTRIES);
    let bit = new.key.bit(new.position);
    let (first, last) = node.affected(new.slot, new.position);
    grow_full(
        node,
        first,
        last,
        new.position,
        bit,
        Entry::Leaf(new.number),
    )
}

/// A fork (BiNode) of two entries at `position`, which comes in the place of the entry to which the search for `key` leads.
#[derive(Drop)]
pub(crate) struct Fork<'a> {
    pub key: &'a Key,
    pub position: u16,
    pub zero: Entry,
    pub one: Entry,
}

/// Puts `fork` into `node` in the place of the entry to which the search for `fork.key` leads. `node` has fewer than 32 entries. Both
/// entries of `fork` are lower than `node`. The node gets no higher.
pub(crate) fn add_fork(node: &mut Node, fork: &Fork<'_>)
    requires room { length node.old.entries < MAX_ENTRIES }
    requires tree { IsSubtrieOfTree (subtrie_with_fork fork.now (piece node.old)) }
    requires zero { height_of fork.now.zero < node.old.height }
    requires one { height_of fork.now.one < node.old.height }
    ensures shows { IsBuiltFrom node.new (subtrie_with_fork fork.now (piece node.old)) }
    ensures low { node.new.height ≤ node.old.height }
{
    prove!((node.count() as usize) < MAX_ENTRIES);
    let slot = node.search(fork.key);
    put_fork(node, slot, fork.position, fork.zero, fork.one);
}

/// Returns the two sides of the first fork that the full node `node` has once `fork` is in it. `fork` takes the place of the entry to which
/// the search for `fork.key` leads. Both entries of `fork` are lower than `node`. Neither side is `node` as it is, and neither is higher
/// than `node`.
pub(crate) fn cut_with_fork(node: &Node, fork: &Fork<'_>) -> Cut
    requires full { length node.now.entries ≡ MAX_ENTRIES }
    requires tree { IsSubtrieOfTree (subtrie_with_fork fork.now (piece node.now)) }
    requires zero { height_of fork.now.zero < node.now.height }
    requires one { height_of fork.now.one < node.now.height }
    ensures shows { IsCutOf node.now result (subtrie_with_fork fork.now (piece node.now)) }
    ensures same { keeps_side result ≡ false }
    ensures low { AreNoHigher node.now.height result }
{
    prove!(node.count() as usize == MAX_ENTRIES);
    let slot = node.search(fork.key);
    pull_up_full(node, slot, fork.position, fork.zero, fork.one)
}

/// Returns a node of two: the entry `old` and the leaf in the record `leaf`, with a fork at `position`. The leaf is on the side of the bit
/// that `key` has at `position`.
pub(crate) fn pair_with_leaf(key: &Key, position: u16, old: Entry, leaf: u32) -> Node
    requires { IsSubtrieOfTree (subtrie_forked (bit key.now position) position (Entry.Leaf leaf) (At old)) }
    ensures { IsBuiltFrom result (subtrie_forked (bit key.now position) position (Entry.Leaf leaf) (At old)) }
{
    let new = Entry::Leaf(leaf);
    if key.bit(position) {
        Node::pair(position, old, new)
    } else {
        Node::pair(position, new, old)
    }
}
