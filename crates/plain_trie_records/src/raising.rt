//! Grown nodes, halves and new nodes are stored in records that are kept in a vector.

ghost use Rattle.std.specs.Prelude.{◌≡◌, ◌+◌, ◌^◌, ◌<◌, ◌≤◌, [], ◌∷◌, ◌++◌, Some, MatchBool, not, true, slice_get, slice_set};
ghost use Rattle.std.specs.Vec.{vec_len, vec_capacity};
ghost use Rattle.node_tries.specs.Piece.{Piece, Fork, Place as At, size};
ghost use Rattle.compound_node.specs.Nodes.{NodeView, IsLawfulNode, IsEntry, IsBuiltFrom};
ghost use Rattle.compound_node.specs.declared.entries.Entry.{Entry as EntryView};
ghost use Rattle.insert_cases.specs.Grown.{GrownShows, is_whole};
ghost use Rattle.plain_trie_records.specs.Cases.{IsOneSide, is_split};
ghost use Rattle.plain_trie_records.specs.Heights.{IsGrownSteady, KeepsHeights};
ghost use Rattle.plain_trie_records.specs.Rising.{IsNew};
ghost use Rattle.plain_trie_records.specs.Risen.{RisenShows, OthersStay, pushed_nodes, pushed_entry, kept_nodes, kept_entry};

use compound_node::{Cut, Entry, Half, Node};
use insert_cases::{Grown, Risen};

/// Stores `grown`, which the node `number` of the height `height` has become. Returns what takes the node's place: the entry of the one
/// node, or the fork of the two halves. The one node, or the first half that is a node, takes the old node's record. A second half that is
/// a node gets a new record, for which there is room. All other records stay.
pub fn store_grown(nodes: &mut Vec<Node>, number: u32, height: u16, grown: Grown) -> Risen
    requires number { number < vec_len nodes.old }
    requires room { vec_len nodes.old < vec_capacity nodes.old }
    requires small { vec_len nodes.old < 2 ^ 32 }
    ensures shows { (old : NodeView) (P : Piece EntryView) → slice_get nodes.old.items number ≡ Some old → old.height ≡ height → IsLawfulNode old →
        GrownShows old grown P → RisenShows nodes.new.items old result P }
    ensures heights { (old : NodeView) (P : Piece EntryView) → slice_get nodes.old.items number ≡ Some old → GrownShows old grown P →
        IsGrownSteady old grown → KeepsHeights nodes.old.items nodes.new.items }
    ensures does { (old : NodeView) (P : Piece EntryView) → slice_get nodes.old.items number ≡ Some old → GrownShows old grown P → 2 < size P →
        (view : NodeView) × (slice_get nodes.new.items number ≡ Some view) × MatchBool (is_whole grown) (IsBuiltFrom view P) (IsOneSide view P) }
    ensures up { is_split result ≡ not (is_whole grown) }
    ensures others { OthersStay nodes.old.items nodes.new.items number }
    ensures longer { vec_len nodes.old ≤ vec_len nodes.new }
    ensures len { vec_len nodes.new ≤ vec_len nodes.old + 1 }
    ensures capacity { vec_capacity nodes.new ≡ vec_capacity nodes.old }
{
    match grown {
        Grown::One(node) => Risen::Whole(put_node(nodes, number, node)),
        Grown::Two(cut) => store_cut(nodes, number, height, cut),
    }
}

/// Stores the two halves of `cut`, into which the node `number` of the height `height` was cut, and returns the fork of their entries. The
/// first half that is a node gets the record `number`, since nothing else names it any more. A second one gets a new record, for which
/// there is room. All other records stay.
fn store_cut(nodes: &mut Vec<Node>, number: u32, height: u16, cut: Cut) -> Risen
    requires number { number < vec_len nodes.old }
    requires room { vec_len nodes.old < vec_capacity nodes.old }
    requires small { vec_len nodes.old < 2 ^ 32 }
    ensures shows { (old : NodeView) (P : Piece EntryView) → slice_get nodes.old.items number ≡ Some old → old.height ≡ height → IsLawfulNode old →
        GrownShows old (Grown.Two cut) P → RisenShows nodes.new.items old result P }
    ensures heights { (old : NodeView) (P : Piece EntryView) → slice_get nodes.old.items number ≡ Some old → GrownShows old (Grown.Two cut) P →
        IsGrownSteady old (Grown.Two cut) → KeepsHeights nodes.old.items nodes.new.items }
    ensures side { (old : NodeView) (P : Piece EntryView) → slice_get nodes.old.items number ≡ Some old → GrownShows old (Grown.Two cut) P → 2 < size P →
        (view : NodeView) × (slice_get nodes.new.items number ≡ Some view) × IsOneSide view P }
    ensures up { is_split result ≡ true }
    ensures others { OthersStay nodes.old.items nodes.new.items number }
    ensures longer { vec_len nodes.old ≤ vec_len nodes.new }
    ensures len { vec_len nodes.new ≤ vec_len nodes.old + 1 }
    ensures capacity { vec_capacity nodes.new ≡ vec_capacity nodes.old }
{
    let Cut {
        position,
        zero,
        one,
    } = cut;
    match zero {
        Half::One(zero) => {
            let one = put_half(nodes, number, height, one);
            Risen::Split {
                position,
                zero,
                one,
            }
        }
        zero => {
            let one = push_half_if_node(nodes, number, height, one);
            let zero = put_half(nodes, number, height, zero);
            Risen::Split {
                position,
                zero,
                one,
            }
        }
    }
}

/// Returns the entry of `half`. One entry is returned as it is, and a node is put into the record `number`. `Half::Same` is the node that
/// stands there, of the height `height`.
fn put_half(nodes: &mut Vec<Node>, number: u32, height: u16, half: Half) -> Entry
    requires { number < vec_len nodes.old }
    ensures nodes { nodes.new.items ≡ kept_nodes nodes.old.items number half }
    ensures entry { result ≡ kept_entry number (Entry.Node number height) half }
    ensures len { vec_len nodes.new ≡ vec_len nodes.old }
    ensures capacity { vec_capacity nodes.new ≡ vec_capacity nodes.old }
{
    match half {
        Half::One(entry) => entry,
        Half::Many(node) => put_node(nodes, number, node),
        Half::Same => Entry::Node { number, height },
    }
}

/// Returns the entry of `half`. One entry is returned as it is, and a node is put into a new record, for which there is room. `Half::Same`
/// is the node `number`, of the height `height`.
fn push_half_if_node(nodes: &mut Vec<Node>, number: u32, height: u16, half: Half) -> Entry
    requires room { vec_len nodes.old < vec_capacity nodes.old }
    requires small { vec_len nodes.old < 2 ^ 32 }
    ensures nodes { nodes.new.items ≡ pushed_nodes nodes.old.items half }
    ensures entry { result ≡ pushed_entry (vec_len nodes.old) (Entry.Node number height) half }
    ensures longer { vec_len nodes.old ≤ vec_len nodes.new }
    ensures len { vec_len nodes.new ≤ vec_len nodes.old + 1 }
    ensures capacity { vec_capacity nodes.new ≡ vec_capacity nodes.old }
{
    match half {
        Half::One(entry) => entry,
        Half::Many(node) => push_node(nodes, node),
        Half::Same => Entry::Node { number, height },
    }
}

/// Puts `node` into the record `number`, and returns the entry that names it.
pub fn put_node(nodes: &mut Vec<Node>, number: u32, node: Node) -> Entry
    requires { number < vec_len nodes.old }
    ensures nodes { nodes.new.items ≡ slice_set nodes.old.items number node }
    ensures entry { result ≡ Entry.Node number node.height }
    ensures len { vec_len nodes.new ≡ vec_len nodes.old }
    ensures capacity { vec_capacity nodes.new ≡ vec_capacity nodes.old }
{
    let height = node.height();
    nodes[number as usize] = node;
    Entry::Node { number, height }
}

/// Puts `node` into a new record behind the others, for which there is room, and returns the entry that names it.
fn push_node(nodes: &mut Vec<Node>, node: Node) -> Entry
    requires room { vec_len nodes.old < vec_capacity nodes.old }
    requires small { vec_len nodes.old < 2 ^ 32 }
    ensures nodes { nodes.new.items ≡ nodes.old.items ++ node ∷ [] }
    ensures entry { result ≡ Entry.Node (vec_len nodes.old) node.height }
    ensures len { vec_len nodes.new ≡ vec_len nodes.old + 1 }
    ensures capacity { vec_capacity nodes.new ≡ vec_capacity nodes.old }
{
    let entry = Entry::Node {
        number: nodes.len() as u32,
        height: node.height(),
    };
    nodes.push_reserved(node);
    entry
}

/// Puts a node of `zero` and `one`, with a fork at `position`, into a new record behind the others, for which there is room. Returns the
/// entry that names it.
pub fn push_pair(nodes: &mut Vec<Node>, position: u16, zero: Entry, one: Entry) -> Entry
    requires room { vec_len nodes.old < vec_capacity nodes.old }
    requires small { vec_len nodes.old < 2 ^ 32 }
    requires position { position < 65535 }
    requires zero { IsEntry zero }
    requires one { IsEntry one }
    ensures new { IsNew nodes.old.items nodes.new.items result (Fork position (At zero) (At one)) }
    ensures len { vec_len nodes.new ≡ vec_len nodes.old + 1 }
    ensures capacity { vec_capacity nodes.new ≡ vec_capacity nodes.old }
{
    push_node(nodes, Node::pair(position, zero, one))
}
