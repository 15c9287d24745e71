//! Reading a part of a tree: below an entry, or below a fork of a node.

ghost use Rattle.std.specs.Prelude.{IfOk, IsTrue, length, ◌≡◌, ◌↔◌};
ghost use Rattle.tries.specs.Keys.{IsParted};
ghost use Rattle.compound_node.specs.Halves.{CutShows, HalfShows};
ghost use Rattle.node_tries.specs.Piece.{Place};
ghost use Rattle.rowex_replay_state.specs.Parts.{AddsLeaf, HasGrown, HasMarks, IsNodeAt, IsPartRead, table_of};

use crate::leaf::unpack_leaf;
use crate::linked::{Item, Linked};
use crate::node::unpack_node;
use compound_node::{Cut, Entry, Half, Node};
use key_bits::{Key, MAX_BYTES, mismatch};
use record_words::{LEAF_FIELDS, NODE_FIELDS};
use std::alloc::AllocError;

/// The words of a table's records, each from offset 1 on.
#[derive(Clone, Copy)]
pub(crate) struct RecordedWords<'a> {
    pub nodes: &'a [[u64; NODE_FIELDS]],
    pub leaves: &'a [[u64; LEAF_FIELDS]],
}

/// Reads the part of a tree that begins at `entry`, from the words in `records`. Returns whether they show a lawful part, with no fork
/// before position `least`. If so, its leaves, at least one, are appended to `linked`, and its records are marked there. `linked` has a
/// mark for each record, before and after. `AllocError` if memory is refused. After an error or `false`, `linked` may have some of the
/// part.
#[cycle(reading)]
pub(crate) fn read_entry(
    records: RecordedWords,
    least: u32,
    entry: Entry,
    linked: &mut Linked,
) -> Result<bool, AllocError>
    requires { HasMarks (table_of records) linked.old }
    ensures grown { IfOk result (λ good. HasGrown (table_of records.entry) good linked.old linked.new) }
    ensures read { IfOk result (λ good. IsPartRead (table_of records.entry) least (λ p. p ≡ Place entry) good linked.old linked.new) }
{
    match entry {
        Entry::Leaf(number) => read_leaf(records.leaves, number, linked),
        Entry::Node { number, height } => {
            let Some(node) = node_at(records.nodes, number, height) else {
                return Ok(false);
            };
            let cut = node.cut();
            // A lawful node is no higher than bits of a key are left, since each fork below takes one.
            if usize::from(height) + usize::from(cut.position) > 9 * MAX_BYTES {
                return Ok(false);
            }
            linked.nodes[number as usize] = true;
            read_cut(records, least, cut, linked)
        }
    }
}

/// Reads the part of a tree below `half`, one side of a fork. Returns whether the words show a lawful part there, with no fork before
/// position `least`. If so, its leaves, at least one, are appended to `linked`, and its records are marked there. `linked` has a mark for
/// each record, before and after. `AllocError` if memory is refused. Returns `false` for `Half::Same`, which no cut of a node has.
#[cycle(reading)]
fn read_half(
    records: RecordedWords,
    least: u32,
    half: Half,
    linked: &mut Linked,
) -> Result<bool, AllocError>
    requires { HasMarks (table_of records) linked.old }
    ensures grown { IfOk result (λ good. HasGrown (table_of records.entry) good linked.old linked.new) }
    ensures read { IfOk result (λ good. IsPartRead (table_of records.entry) least (HalfShows half) good linked.old linked.new) }
{
    match half {
        Half::One(entry) => read_entry(records, least, entry, linked),
        Half::Many(node) => read_cut(records, least, node.cut(), linked),
        Half::Same => Ok(false),
    }
}

/// Reads the part of a tree below `cut`, a node's root fork with its two sides. Returns whether the words show a lawful part there, with no
/// fork before position `least`. If so, its leaves, at least one, are appended to `linked`, and its records are marked there. `linked` has
/// a mark for each record, before and after. `AllocError` if memory is refused. Just the first keys of the sides are compared: a side's
/// keys agree up to its own first fork, which is further.
#[cycle(reading)]
fn read_cut(
    records: RecordedWords,
    least: u32,
    cut: Cut,
    linked: &mut Linked,
) -> Result<bool, AllocError>
    requires { HasMarks (table_of records) linked.old }
    ensures grown { IfOk result (λ good. HasGrown (table_of records.entry) good linked.old linked.new) }
    ensures read { IfOk result (λ good. IsPartRead (table_of records.entry) least (CutShows cut) good linked.old linked.new) }
{
    let position = cut.position;
    if u32::from(position) < least {
        return Ok(false);
    }
    let zero = linked.items.len();
    if !read_half(records, u32::from(position) + 1, cut.zero, linked)? {
        return Ok(false);
    }
    let one = linked.items.len();
    if !read_half(records, u32::from(position) + 1, cut.one, linked)? {
        return Ok(false);
    }
    Ok(are_parted_keys(position, &linked.items[zero].key, &linked.items[one].key))
}

/// Adds the leaf of record `number` of `leaves` to `linked`, marks the record, and returns `true`. Returns `false`, and adds nothing, if
/// the table has no such record or its words are those of no leaf. `AllocError` if memory is refused.
fn read_leaf(
    leaves: &[[u64; LEAF_FIELDS]],
    number: u32,
    linked: &mut Linked,
) -> Result<bool, AllocError>
    requires { length linked.old.leaves.items ≡ length leaves.now }
    ensures { IfOk result (λ good. AddsLeaf leaves.now number good linked.old linked.new) }
{
    let Some(words) = leaves.get(number as usize) else {
        return Ok(false);
    };
    let Ok((key, value)) = unpack_leaf(words) else {
        return Ok(false);
    };
    linked.items.push(Item { number, key, value })?;
    linked.leaves[number as usize] = true;
    Ok(true)
}

/// Returns the node in the record `number`, if its height is `height`. `None` if it has another height, if the table hasn't the record, or
/// if no node has the record's words.
fn node_at(nodes: &[[u64; NODE_FIELDS]], number: u32, height: u16) -> Option<Node>
    ensures { IsNodeAt nodes.now number height result }
{
    let words = nodes.get(number as usize)?;
    let node = unpack_node(words).ok()?;
    if node.height() == height {
        Some(node)
    } else {
        None
    }
}

/// Returns whether the keys `zero` and `one` differ first at `position`, where `zero` has 0.
fn are_parted_keys(position: u16, zero: &Key, one: &Key) -> bool
    ensures { IsTrue result ↔ IsParted position zero.now one.now }
{
    let Some(first) = mismatch(zero, one) else {
        return false;
    };
    first == position && !zero.bit(position)
}
