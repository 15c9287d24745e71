//! Nodes cut at their root fork, and nodes with an entry less.

ghost use Rattle.std.specs.List.{All};
ghost use Rattle.std.specs.Prelude.{◌<◌, ◌≤◌, length};
ghost use Rattle.compound_node.specs.Halves.{CutShows, HalfShows};
ghost use Rattle.compound_node.specs.Nodes.{FitTogether, IsEntry, piece};
ghost use Rattle.compound_node.specs.declared.entries.Entry.TheVariants.{Leaf as LeafEntry};
ghost use Rattle.partial_keys.specs.Columns.{IsColumns};
ghost use Rattle.partial_keys.specs.Shown.{piece_of};
ghost use Rattle.partial_keys.specs.Shows.{Covers};
ghost use Rattle.node_tries.specs.Changes.{without};

use super::building::build_node;
use super::entries::{Entry, list_entries_without, list_items};
use super::nodes::Node;
use super::rows::{clear_first_column, count_zero_side, or_rows, squeeze_rows, without_row};
use arrayvec::ArrayVec;
use partial_keys::{Columns, MAX_ENTRIES};

/// A side of a cut node, or what is left of one. It is one entry, a new node of several, or (`Same`) the node that was handed in.
#[derive(Drop)]
pub enum Half {
    One(Entry),
    Many(Node),
    Same,
}

/// A node cut at its root fork: the fork's position, and its two sides.
#[derive(Drop)]
pub struct Cut {
    pub position: u16,
    pub zero: Half,
    pub one: Half,
}

/// Returns the `Half` that has all of `entries`, at least one, whose rows over `columns` are `rows`. It is the one entry, or a new node of
/// several. The node has only the columns that the rows use, and is one higher than its highest entry. The half is never `Same`.
fn make_half(
    columns: &Columns,
    rows: ArrayVec<u32, MAX_ENTRIES>,
    entries: ArrayVec<Entry, MAX_ENTRIES>,
) -> Half
    requires some { 0 < length entries.items }
    requires room { length entries.items ≤ 32 }
    requires positions { IsColumns columns.now }
    requires children { All IsEntry entries.items }
    requires covers { Covers columns.now rows.items entries.items (piece_of (LeafEntry 0) columns.now rows.items entries.items) }
    ensures { HalfShows result (piece_of (LeafEntry 0) columns.now rows.items entries.items) }
{
    if entries.len() == 1 {
        return Half::One(entries[0]);
    }
    let mut rows = rows;
    let mut used_columns = *columns;
    let used = or_rows(rows.as_slice());
    used_columns.drop_unused(used);
    squeeze_rows(rows.as_mut_slice(), used, columns.count());
    Half::Many(build_node(used_columns, rows.as_slice(), entries))
}

/// Returns the two sides of the node of `columns`, `rows` and `entries`, cut at its root fork. Each side is one entry, or a new node of
/// several, and neither is `Same`.
pub(crate) fn make_cut(columns: &Columns, rows: &[u32], entries: &[Entry]) -> Cut
    requires { FitTogether columns.now rows.now entries.now }
    ensures { CutShows result (piece_of (LeafEntry 0) columns.now rows.now entries.now) }
{
    let front = count_zero_side(rows);
    let rest = clear_first_column(&rows[front..]);
    let zero = make_half(
        columns,
        list_items(&rows[..front]),
        list_items(&entries[..front]),
    );
    let one = make_half(columns, rest, list_items(&entries[front..]));
    Cut {
        position: columns.first(),
        zero,
        one,
    }
}

/// Returns what is left of the node of `columns`, `rows` and `entries` without the entry in `slot`: one entry, or a new node of several.
/// The last fork on the path to `slot` goes, too, and its other side takes its place. The result is never `Same`.
pub(crate) fn make_rest(columns: &Columns, rows: &[u32], entries: &[Entry], slot: usize) -> Half
    requires fit { FitTogether columns.now rows.now entries.now }
    requires in_range { slot < length entries.now }
    ensures { HalfShows result (without slot (piece_of (LeafEntry 0) columns.now rows.now entries.now)) }
{
    let rest_rows = without_row(rows, slot);
    let rest_entries = list_entries_without(entries, slot);
    make_half(columns, rest_rows, rest_entries)
}

impl Node {
    /// Returns the two sides of the node, cut at its root fork. Each is one entry, or a new node of several. A new node has only the
    /// columns that it uses, and is one higher than its highest entry. Neither side is `Same`.
    pub fn cut(&self) -> Cut
        ensures { CutShows result (piece self.now) }
    {
        make_cut(
            self.head.columns(),
            self.head.rows(),
            self.entries.as_slice(),
        )
    }

    /// Returns what is left of the node without the entry in `slot`, and without the last fork on the path to it. That fork's other side
    /// takes the fork's place. It is `One` if one entry is left, else `Many`. The new node has only the columns that it uses, and is one
    /// higher than its highest entry. It is never `Same`.
    pub fn without(&self, slot: u8) -> Half
        requires { slot < length self.now.entries }
        ensures { HalfShows result (without slot (piece self.now)) }
    {
        make_rest(
            self.head.columns(),
            self.head.rows(),
            self.entries.as_slice(),
            slot as usize,
        )
    }
}
