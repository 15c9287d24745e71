//! The parts of two nodes under one fork.

ghost use Rattle.std.specs.Prelude.{◌≡◌, ◌+◌, ◌<◌, ◌≤◌, ◌++◌, ◌∷◌, ℕ, bit_or, false, if◌then◌else◌, length, map};
ghost use Rattle.compound_node.specs.Joining.{IsWidened};
ghost use Rattle.partial_keys.specs.Spread.{spread_row};
ghost use Rattle.node_tries.specs.Positions.{front_below, has, with_position};

use super::entries::list_items;
use super::rows::spread_lanes;
use arrayvec::ArrayVec;
use partial_keys::{Columns, MAX_ENTRIES};
use std::simd::prelude::*;

/// Adds to `columns` a column at `position` and one at each of `others`, wherever there is none yet. Each of `rows` gets 0 in a new column,
/// so that the rows show the same piece as before. There is room: `columns` and `others` are fewer than 31 together.
pub(crate) fn ensure_columns(
    columns: &mut Columns,
    rows: &mut [u32; MAX_ENTRIES],
    position: u16,
    others: &Columns,
)
    requires small { position < 65535 }
    requires room { length columns.old + length others.now < 31 }
    ensures { (count : ℕ) → IsWidened count (position ∷ others.now) columns.old rows.old columns.new rows.new }
{
    let mut lanes = ensure_column_of_lanes(columns, u32x32::from_array(*rows), position);
    for other in others.as_slice() {
        lanes = ensure_column_of_lanes(columns, lanes, *other);
    }
    *rows = lanes.to_array();
}

/// Adds a column at `position` to `columns`, and returns `rows` with 0 in that column. If there is one already, nothing changes, and it
/// returns `rows`. Inline, so that the rows stay vectors from one column to the next.
#[inline(always)]
fn ensure_column_of_lanes(columns: &mut Columns, rows: u32x32, position: u16) -> u32x32
    requires columns { length columns.old ≤ 31 }
    requires room { has columns.old position ≡ false → length columns.old < 31 }
    requires small { position < 65535 }
    ensures columns { columns.new ≡ (if has columns.old position then columns.old else with_position position columns.old) }
    ensures rows { result ≡ (if has columns.old position then rows else map (spread_row (front_below position columns.old)) rows) }
{
    let below = columns.count_columns_below(position);
    if columns.is_column_at(below, position) {
        return rows;
    }
    columns.insert_position_at(below, position);
    spread_lanes(rows, below)
}

/// Returns the list of the rows `zero`, and behind them the rows `one`, each of these with `bit` set; 32 at most.
pub(crate) fn concatenate_rows(zero: &[u32], one: &[u32], bit: u32) -> ArrayVec<u32, MAX_ENTRIES>
    requires { length zero.now + length one.now ≤ 32 }
    ensures { result.items ≡ zero.now ++ map (λ row. bit_or row bit) one.now }
{
    let mut rows = list_items(zero);
    for row in one {
        rows.push(*row | bit);
    }
    rows
}
