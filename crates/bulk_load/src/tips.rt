//! Entries with the forks between them, and the node of such a list.

ghost use Rattle.std.specs.Prelude.{ℕ, ◌≡◌, ◌≤◌, ◌<◌, ◌+◌, ◌∷◌, All, length, get_or};
ghost use Rattle.std.specs.Vec.{vec_capacity, vec_len};
ghost use Rattle.bulk_load.specs.Tips.{AreTipsOf, MayBeTip, entries_in_tips, forks_between, rows_behind, tip};
ghost use Rattle.compound_node.specs.Nodes.{IsBuiltFrom, greatest_height};
ghost use Rattle.compound_node.specs.declared.entries.Entry.{Entry as EntryView};
ghost use Rattle.node_tries.specs.Piece.{Piece};
ghost use Rattle.node_tries.specs.Positions.{has};
ghost use Rattle.partial_keys.specs.Columns.{IsColumns};
ghost use Rattle.partial_keys.specs.Rows.{with_unused};
ghost use Rattle.bulk_load.specs.declared.tips.Tip.{Tip as TipView};

use arrayvec::ArrayVec;
use compound_node::{Entry, Head, Node};
use partial_keys::{Columns, MAX_ENTRIES};

/// An entry, and the position of the fork (BiNode) between it and the one before.
#[derive(Clone, Copy)]
pub(crate) struct Tip {
    pub(crate) fork: u16,
    pub(crate) entry: Entry,
}

/// Returns the node of the entries of `tips`, 2 to 32, with the forks between them. Its height is one above the greatest of the entries'.
/// The tips must be those of a piece whose forks have rising positions along each path. The fork before the first tip becomes no column.
/// Each entry may stand in a node, and each tip's fork, the first one's too, has a position below 65,535.
pub(crate) fn build_node(tips: &[Tip]) -> Node
    requires few { (2 ≤ length tips.now) × (length tips.now ≤ 32) }
    requires each { All MayBeTip tips.now }
    requires shown { (p : ℕ) × (x : Piece EntryView) × AreTipsOf tips.now p x }
    ensures { (p : ℕ) (x : Piece EntryView) → AreTipsOf tips.now p x → IsBuiltFrom result x }
{
    let columns = collect_columns(tips);
    let rows = make_rows(tips, &columns);
    let height = height_over(tips);
    let head = Head::of(tips.len() as u8, height, columns, rows);
    Node::of(head, list_entries(tips))
}

/// Returns the columns of a node of `tips`: the positions of the forks between the tips, each once.
fn collect_columns(tips: &[Tip]) -> Columns
    requires few { (2 ≤ length tips.now) × (length tips.now ≤ 32) }
    requires each { All MayBeTip tips.now }
    ensures columns { IsColumns result }
    ensures positions { (q : ℕ) → has result q ≡ has (forks_between tips.now) q }
{
    let mut columns = Columns::of(&[tips[1].fork]);
    for i in 2..tips.len() {
        let position = tips[i].fork;
        let below = columns.count_columns_below(position);
        if !columns.is_column_at(below, position) {
            columns.insert_position_at(below, position);
        }
    }
    columns
}

/// Returns the rows of `tips` over `columns`, and 4,294,967,295 behind them. The first row is 0. Each further tip's path is that of the tip
/// before it up to the fork between the two, and takes the 1 side there. Below that fork it has only 0 sides.
fn make_rows(tips: &[Tip], columns: &Columns) -> [u32; MAX_ENTRIES]
    requires few { (1 ≤ length tips.now) × (length tips.now ≤ 32) }
    requires columns { IsColumns columns.now }
    ensures { result ≡ with_unused (0 ∷ rows_behind columns.now 0 (forks_between tips.now)) }
{
    let mut rows = [u32::MAX; MAX_ENTRIES];
    rows[0] = 0;
    let mut row = 0;
    for i in 1..tips.len() {
        let behind = 31 - columns.count_columns_below(tips[i].fork);
        // The fork's column gets 1, and all columns behind it 0.
        row = (row >> behind | 1) << behind;
        rows[i] = row;
    }
    rows
}

/// Returns the height of a node of `tips`: one above the greatest of their entries'.
fn height_over(tips: &[Tip]) -> u16
    requires { All MayBeTip tips.now }
    ensures { result ≡ 1 + greatest_height (entries_in_tips tips.now) }
{
    let mut greatest = 0;
    for i in (0..tips.len()).rev() {
        greatest = tips[i].entry.height().max(greatest);
    }
    1 + greatest
}

/// Returns the entries of `tips`, in their order.
fn list_entries(tips: &[Tip]) -> ArrayVec<Entry, MAX_ENTRIES>
    requires { length tips.now ≤ 32 }
    ensures { result.items ≡ entries_in_tips tips.now }
{
    let mut entries = ArrayVec::new();
    for i in 0..tips.len() {
        entries.push(tips[i].entry);
    }
    entries
}

/// Replaces the `count` tips from index `start` on by one with `entry`, behind the fork that stood before the first of them. The other tips
/// stay in their order, and so does the list's memory.
pub(crate) fn merge_tips(tips: &mut Vec<Tip>, start: usize, count: usize, entry: Entry)
    requires { (1 ≤ count) × (start + count ≤ vec_len tips.old) }
    ensures len { vec_len tips.new + count ≡ vec_len tips.old + 1 }
    ensures capacity { vec_capacity tips.new ≡ vec_capacity tips.old }
    ensures before { (i : ℕ) (d : TipView) → i < start → get_or tips.new.items i d ≡ get_or tips.old.items i d }
    ensures here { (d : TipView) → get_or tips.new.items start d ≡ tip (get_or tips.old.items start d).fork entry }
    ensures behind { (i : ℕ) (d : TipView) → get_or tips.new.items (start + 1 + i) d ≡ get_or tips.old.items (start + count + i) d }
{
    let left = tips.len() - (count - 1);
    tips[start].entry = entry;
    tips.as_mut_slice().copy_within(start + count.., start + 1);
    tips.truncate(left);
}
