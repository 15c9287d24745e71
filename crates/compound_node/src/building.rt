//! New nodes over columns, rows and entries, and nodes whose root fork is new.

ghost use Rattle.std.specs.Prelude.{◌+◌, ◌<◌, ◌≤◌, length};
ghost use Rattle.compound_node.specs.Nodes.{FitTogether, IsBuiltFrom, IsEntry, piece};
ghost use Rattle.compound_node.specs.declared.entries.Entry.TheVariants.{Leaf as LeafEntry};
ghost use Rattle.partial_keys.specs.Shown.{piece_of};
ghost use Rattle.node_tries.specs.Piece.{Fork, Place, RisesFrom};

use super::entries::{Entry, concatenate_entries, height_over_entries};
use super::heads::Head;
use super::joining::{concatenate_rows, ensure_columns};
use super::nodes::Node;
use arrayvec::ArrayVec;
use partial_keys::{Columns, MAX_ENTRIES};

/// Returns the node of 2 to 32 `entries` that shows a piece with these `columns` and `rows`. Its height is one above the greatest of its
/// entries'.
pub(crate) fn build_node(
    columns: Columns,
    rows: &[u32],
    entries: ArrayVec<Entry, MAX_ENTRIES>,
) -> Node
    requires { FitTogether columns rows.now entries.items }
    ensures { IsBuiltFrom result (piece_of (LeafEntry 0) columns rows.now entries.items) }
{
    let head = Head::from_rows(height_over_entries(entries.as_slice()), columns, rows);
    Node::of(head, entries)
}

impl Node {
    /// Returns the node of two entries, `zero` and `one`, the sides of a fork at `position`. Its height is one above the greater of theirs.
    pub fn pair(position: u16, zero: Entry, one: Entry) -> Node
        requires below { position < 65535 }
        requires zero { IsEntry zero }
        requires one { IsEntry one }
        ensures { IsBuiltFrom result (Fork position (Place zero) (Place one)) }
    {
        let mut entries = ArrayVec::new();
        entries.push(zero);
        entries.push(one);
        build_node(Columns::of(&[position]), &[0, 1 << 31], entries)
    }

    /// Returns the node of all entries of `zero` and `one`, 32 at most, which become the two sides of a fork at `position`. All forks of
    /// `zero` and `one` have higher positions. The height is one above the greatest of the entries'.
    pub fn merge(position: u16, zero: &Node, one: &Node) -> Node
        requires room { length zero.now.entries + length one.now.entries ≤ 32 }
        requires after { RisesFrom 0 (Fork position (piece zero.now) (piece one.now)) }
        ensures { IsBuiltFrom result (Fork position (piece zero.now) (piece one.now)) }
    {
        let (zero_count, one_count) = (zero.count() as usize, one.count() as usize);
        let (mut columns, mut zero_rows) = (*zero.columns(), *zero.padded_rows());
        ensure_columns(&mut columns, &mut zero_rows, position, one.columns());
        let (mut same_columns, mut one_rows) = (*one.columns(), *one.padded_rows());
        ensure_columns(&mut same_columns, &mut one_rows, position, zero.columns());
        let bit = 1 << (31 - columns.count_columns_below(position));
        let rows = concatenate_rows(&zero_rows[..zero_count], &one_rows[..one_count], bit);
        let entries = concatenate_entries(zero.entries.as_slice(), one.entries.as_slice());
        build_node(columns, rows.as_slice(), entries)
    }
}
