//! Rows of 32 bits, HOT's sparse partial keys. The column of the lowest position is the highest bit.

ghost use Rattle.std.specs.List.{All};
ghost use Rattle.std.specs.Prelude.{ℕ, ◌≡◌, ◌≢◌, ◌+◌, ◌-◌, ◌%◌, ◌^◌, ◌<◌, ◌≤◌, ◌↔◌, ◌++◌, ◌∷◌, IsTrue, bit_and, drop, false, insert, length, map, slice_index, take};
ghost use Rattle.arrayvec.specs.ArrayVec.{array_vec_len};
ghost use Rattle.partial_keys.specs.Rows.{with_unused};
ghost use Rattle.partial_keys.specs.Runs.{agree_in, IsRunStart, IsRunEnd};
ghost use Rattle.partial_keys.specs.Spread.{spread_row, forked_rows};
ghost use Rattle.partial_keys.specs.Squeezed.{IsRowOver, closed_row, or_all, squeezed};
ghost use Rattle.node_tries.specs.Growth.{edited};
ghost use Rattle.node_tries.specs.Positions.{front_below};
ghost use Rattle.compound_node.specs.Ladders.{AreSparseKeys, IsLadder};
ghost use Rattle.compound_node.specs.Beside.{AreRowsRound, IsBesideIn, column_before};
ghost use Rattle.compound_node.specs.Nodes.{IsLawfulNode, NodeView};
ghost use Rattle.compound_node.specs.Lowering.{lowered_row};
ghost use Rattle.compound_node.specs.Removal.{lowest, bit_after, cleared_front, removed_row};

use super::entries::append_items;
use arrayvec::ArrayVec;
use partial_keys::MAX_ENTRIES;
use std::simd::prelude::*;

/// Returns whether `padded_rows` has 4,294,967,295 at each index from `count` on, as at unused slots.
pub(crate) fn is_padded(padded_rows: &[u32; MAX_ENTRIES], count: usize) -> bool
    requires { count ≤ 32 }
    ensures { IsTrue result ↔ (padded_rows.now ≡ with_unused (take count padded_rows.now)) }
{
    for i in count..MAX_ENTRIES {
        if padded_rows[i] != u32::MAX {
            return false;
        }
    }
    true
}

/// Returns whether `rows` are those of some piece over `columns` columns that uses each of them.
pub(crate) fn are_sparse_keys(rows: &[u32], columns: usize) -> bool
    requires some { 0 < length rows.now }
    requires few { columns ≤ 31 }
    ensures { IsTrue result ↔ AreSparseKeys columns rows.now }
{
    // Each column is used: all rows together have the highest `columns` bits.
    is_ladder(rows) && or_rows(rows) == !(u32::MAX >> columns)
}

/// Returns whether the first of `rows` is 0, and each other row can stand straight behind the one before it in a piece.
fn is_ladder(rows: &[u32]) -> bool
    requires { 0 < length rows.now }
    ensures { IsTrue result ↔ IsLadder rows.now }
{
    for i in 1..rows.len() {
        let row = rows[i];
        // A row is above the one before it, and without its lowest 1 it is not.
        if row <= rows[i - 1] || row & (row - 1) > rows[i - 1] {
            return false;
        }
    }
    rows[0] == 0
}

/// Returns the bits that at least one of `rows` has.
pub(crate) fn or_rows(rows: &[u32]) -> u32
    ensures { result ≡ or_all rows.now }
{
    let mut all = 0;
    for i in (0..rows.len()).rev() {
        all |= rows[i];
    }
    all
}

// ---- a new column and a new fork

/// Returns `row` with 0 in a new column with the index `column`. The columns from there on move back by one, and the last one is lost.
fn spread_row(row: u32, column: u8) -> u32
    requires { column ≤ 31 }
    ensures { result ≡ spread_row column row }
{
    let low = u32::MAX >> column;
    row & !low | (row & low) >> 1
}

/// Puts 0 in a new column with the index `column` of each of the first `count` rows. The columns from there on move back by one, and the
/// last one is lost.
pub(crate) fn spread_rows(rows: &mut [u32; MAX_ENTRIES], count: usize, column: u8)
    requires column { column ≤ 31 }
    requires room { count ≤ 32 }
    ensures { rows.new ≡ map (spread_row column) (take count rows.old) ++ drop count rows.old }
{
    for i in 0..count {
        rows[i] = spread_row(rows[i], column);
    }
}

/// Returns `rows` with 0 in a new column of each, with the index `column`, at most 31. The columns from there on move back by one, and the
/// last one is lost.
#[inline(always)]
pub fn spread_lanes(rows: u32x32, column: u8) -> u32x32
    requires { column ≤ 31 }
    ensures { result ≡ map (spread_row column) rows }
{
    let low = u32::MAX >> column;
    let moved = (rows & u32x32::splat(low)) >> u32x32::splat(1);
    rows & u32x32::splat(!low) | moved
}

/// The index of each lane.
const INDEXES: [u32; 32] = [
    0, 1, 2, 3, 4, 5, 6, 7, 8, 9, 10, 11, 12, 13, 14, 15, 16, 17, 18, 19, 20, 21, 22, 23, 24, 25,
    26, 27, 28, 29, 30, 31,
];

/// Returns `rows` with `row` put in at `slot`. The rows from there on move back by one, and the last of the 32 is lost.
#[inline(always)]
fn insert_row(rows: u32x32, slot: u32, row: u32) -> u32x32
    requires { slot < 32 }
    ensures { result ≡ take 32 (insert rows slot row) }
{
    let (indexes, slot) = (u32x32::from_array(INDEXES), u32x32::splat(slot));
    let moved = rows.rotate_elements_right::<1>();
    let put = indexes.simd_eq(slot).select(u32x32::splat(row), moved);
    indexes.simd_lt(slot).select(rows, put)
}

/// Returns `rows` with a copy of row `first` put in before it. In the result, the rows from `first + 1` on and below `end` have `bits` set,
/// too. The last of the 32 is lost.
#[inline(always)]
fn fork_rows_before(rows: u32x32, first: u32, end: u32, bits: u32) -> u32x32
    requires order { first + 1 < end }
    requires in_range { end ≤ 32 }
    ensures { result ≡ take 32 (edited first (end - 1 - first) (forked_rows bits false) rows) }
{
    let (indexes, zeros) = (u32x32::from_array(INDEXES), u32x32::splat(0));
    let joined = indexes.simd_lt(u32x32::splat(end));
    let moved = rows.rotate_elements_right::<1>() | joined.select(u32x32::splat(bits), zeros);
    indexes
        .simd_lt(u32x32::splat(first + 1))
        .select(rows, moved)
}

/// Returns `rows` with one row more, parted from the rows `first` to `last` by a new fork. The new row is a copy of row `first`. If `bit`
/// is true, it stands straight behind row `last`, and gets `weight`, the bit of the fork's column. Else it stands straight before row
/// `first`, and the rows `first` to `last` get `weight`. The last of the 32 rows is lost.
#[inline(always)]
pub fn fork_rows(rows: u32x32, first: usize, last: usize, weight: u32, bit: bool) -> u32x32
    requires range { first ≤ last }
    requires in_range { last < 31 }
    ensures { result ≡ take 32 (edited first (last + 1 - first) (forked_rows weight bit) rows) }
{
    if bit {
        let row = rows.to_array()[first] | weight;
        insert_row(rows, last as u32 + 1, row)
    } else {
        fork_rows_before(rows, first as u32, last as u32 + 2, weight)
    }
}

// ---- the rows round one

/// Returns whether the rows `a` and `b` agree in their first `columns` columns.
fn rows_agree(a: u32, b: u32, columns: usize) -> bool
    requires { columns ≤ 31 }
    ensures { result ≡ agree_in columns a b }
{
    // A shift by all 32 bits is not allowed.
    columns == 0 || a >> (32 - columns) == b >> (32 - columns)
}

/// Returns the index of the first row of the run round row `slot`. The run is as many consecutive rows, row `slot` among them, as agree
/// with row `slot` in their first `columns` columns.
pub(crate) fn first_of_run(rows: &[u32], columns: usize, slot: usize) -> usize
    requires few { columns ≤ 31 }
    requires in_range { slot < length rows.now }
    ensures { IsRunStart rows.now columns slot result }
{
    for i in (0..slot).rev() {
        if !rows_agree(rows[i], rows[slot], columns) {
            return i + 1;
        }
    }
    0
}

/// Returns the index of the last row of the run round row `slot`. The run is as many consecutive rows, row `slot` among them, as agree with
/// row `slot` in their first `columns` columns.
pub(crate) fn last_of_run(rows: &[u32], columns: usize, slot: usize) -> usize
    requires few { columns ≤ 31 }
    requires in_range { slot < length rows.now }
    ensures { IsRunEnd rows.now columns slot result }
{
    for i in slot + 1..rows.len() {
        if !rows_agree(rows[i], rows[slot], columns) {
            return i - 1;
        }
    }
    rows.len() - 1
}

// ---- the two sides of the first column

/// Returns how many rows stand before the first one with a 1 in the first column; the number of `rows`, if none has it.
pub(crate) fn count_zero_side(rows: &[u32]) -> usize
    ensures value { result ≡ front_below (2 ^ 31) rows.now }
    ensures within { result ≤ length rows.now }
{
    for (i, row) in rows.iter().enumerate() {
        if *row >= 1 << 31 {
            return i;
        }
    }
    rows.len()
}

/// Returns the list of `rows`, each with 0 in the first column.
pub(crate) fn clear_first_column(rows: &[u32]) -> ArrayVec<u32, MAX_ENTRIES>
    requires { length rows.now ≤ 32 }
    ensures { result.items ≡ map (λ r. r % 2 ^ 31) rows.now }
{
    let mut out = ArrayVec::new();
    for row in rows {
        out.push(*row % (1 << 31));
    }
    out
}

/// Returns `row` without the column with the index `column`, 0 to 31, which is bit 31-`column`. The columns behind it move forward by one.
fn close_column(row: u32, column: u8) -> u32
    requires { column ≤ 31 }
    ensures { result ≡ closed_row column row }
{
    let low = u32::MAX >> column;
    row & !low | (row & low >> 1) << 1
}

/// Takes the column with the index `column`, 0 to 31, out of each of `rows`. The columns behind it move forward by one.
fn close_column_of_rows(rows: &mut [u32], column: u8)
    requires { column ≤ 31 }
    ensures { rows.new ≡ map (closed_row column) rows.old }
{
    for row in rows.iter_mut() {
        *row = close_column(*row, column);
    }
}

/// Takes the columns in which `used` has 0 out of each of `rows`. The columns behind these move forward. Neither `used` nor a row has a 1
/// behind the first `columns` columns.
pub(crate) fn squeeze_rows(rows: &mut [u32], used: u32, columns: u8)
    requires few { columns ≤ 31 }
    requires used { IsRowOver columns used }
    requires rows { All (IsRowOver columns) rows.old }
    ensures { rows.new ≡ map (squeezed used) rows.old }
{
    for column in (0..columns).rev() {
        if used >> (31 - column) & 1 == 0 {
            close_column_of_rows(rows, column);
        }
    }
}

// ---- a row less

/// Returns a mask of the lowest 1 of `row`, which isn't 0.
fn lowest_bit(row: u32) -> u32
    requires { 0 < row }
    ensures { result ≡ lowest row }
{
    row - (row & (row - 1))
}

/// Returns the bit that rows lose when row `slot` is taken out, as a mask; 0 if none does. With the row goes the last fork on the path to
/// it. If the row is that fork's 0 side, the rows of the 1 side lose the fork's bit.
fn bit_lost_without_row(rows: &[u32], slot: usize) -> u32
    requires ladder { IsLadder rows.now }
    requires in_range { slot < length rows.now }
    ensures { result ≡ bit_after slot rows.now }
{
    if slot + 1 == rows.len() {
        return 0;
    }
    let after = lowest_bit(rows[slot + 1]);
    if slot == 0 || after < lowest_bit(rows[slot]) {
        after
    } else {
        0
    }
}

/// Adds `rows` to the end of `out`, which has room for them. The rows before the first one without `bit` lose `bit`.
fn append_cleared_rows(out: &mut ArrayVec<u32, MAX_ENTRIES>, rows: &[u32], bit: u32)
    requires { array_vec_len out.old + length rows.now ≤ 32 }
    ensures { out.new.items ≡ out.old.items ++ cleared_front bit rows.now }
{
    let mut front = true;
    for row in rows {
        front = front && *row & bit != 0;
        out.push(if front { *row - (*row & bit) } else { *row });
    }
}

/// Returns the list of `rows` without row `slot`. If that row is the 0 side of its last fork, the rows of the 1 side lose the fork's bit.
pub(crate) fn without_row(rows: &[u32], slot: usize) -> ArrayVec<u32, MAX_ENTRIES>
    requires ladder { IsLadder rows.now }
    requires room { length rows.now ≤ 32 }
    requires in_range { slot < length rows.now }
    ensures { result.items ≡ removed_row slot rows.now }
{
    let mut out = ArrayVec::new();
    append_items(&mut out, &rows[..slot]);
    append_cleared_rows(
        &mut out,
        &rows[slot + 1..],
        bit_lost_without_row(rows, slot),
    );
    out
}

/// Returns the index of the first of `rows`, from `first` on and before `end`, that has 0 at `bit`; `end` if there is none. `bit` is a mask
/// of one bit or none.
#[inline(always)]
fn first_row_without(rows: u32x32, first: u32, end: u32, bit: u32) -> u32
    requires ordered { first ≤ end }
    requires in_range { end ≤ 32 }
    ensures range { (first ≤ result) × (result ≤ end) }
    ensures having { (i : ℕ) → first ≤ i → i < result → bit_and (slice_index rows i) bit ≢ 0 }
    ensures stops { result < end → bit_and (slice_index rows result) bit ≡ 0 }
{
    let before = u32x32::from_array(INDEXES).simd_lt(u32x32::splat(first));
    let found = before.select(u32x32::splat(1), rows & u32x32::splat(bit));
    let lacking = found.simd_eq(u32x32::splat(0)).to_bitmask() as u32;
    lacking.trailing_zeros().min(end)
}

/// Returns `rows` without row `slot` of the first `count`. The rows behind it move forward by one, and those of them before row `end` lose
/// `bit`. Behind the `count - 1` rows that are left, each of the 32 is 4,294,967,295.
#[inline(always)]
fn lower_rows(rows: u32x32, count: u32, slot: u32, end: u32, bit: u32) -> u32x32
    requires some { 0 < count }
    requires few { count ≤ 32 }
    ensures whole { length result ≡ 32 }
    ensures each { (i : ℕ) → i < 32 → slice_index result i ≡ lowered_row count slot end bit rows i }
{
    let indexes = u32x32::from_array(INDEXES);
    let losing = indexes.simd_lt(u32x32::splat(end));
    let lost = losing.select(u32x32::splat(bit), u32x32::splat(0));
    let moved = (rows & !lost).rotate_elements_left::<1>();
    let used = indexes.simd_lt(u32x32::splat(count - 1));
    let left = used.select(moved, u32x32::splat(u32::MAX));
    indexes.simd_lt(u32x32::splat(slot)).select(rows, left)
}

/// Returns `rows` without row `slot`, one of the first `count`. If that row is the 0 side of its last fork, the rows of the 1 side lose the
/// fork's bit. The rows behind row `slot` move forward by one. Each row behind the first `count` is 4,294,967,295. In the result each one
/// behind the first `count - 1` is.
#[inline(always)]
pub fn remove_row(rows: u32x32, count: usize, slot: usize) -> u32x32
    requires ladder { IsLadder (take count rows) }
    requires unused { rows ≡ with_unused (take count rows) }
    requires room { count ≤ 32 }
    requires in_range { slot < count }
    ensures { result ≡ removed_row slot (take count rows) ++ 4294967295 ∷ drop count rows }
{
    let bit = bit_lost_without_row(&rows.to_array()[..count], slot);
    let end = first_row_without(rows, slot as u32 + 1, count as u32, bit);
    lower_rows(rows, count as u32, slot as u32, end, bit)
}

/// Returns the bits that at least one of the first `count` of `rows` has.
#[inline(always)]
pub fn or_first_rows(rows: u32x32, count: u32) -> u32
    requires { count ≤ 32 }
    ensures { result ≡ or_all (take count rows) }
{
    let used = u32x32::from_array(INDEXES).simd_lt(u32x32::splat(count));
    let rows = used.select(rows, u32x32::splat(0));
    or_lanes(rows.extract::<0, 16>() | rows.extract::<16, 16>())
}

/// Returns the bits that at least one of `rows` has.
#[inline(always)]
fn or_lanes(rows: u32x16) -> u32
    ensures { result ≡ or_all rows }
{
    let eight = rows.extract::<0, 8>() | rows.extract::<8, 8>();
    let four = eight.extract::<0, 4>() | eight.extract::<4, 4>();
    let lanes = four.to_array();
    lanes[0] | lanes[1] | lanes[2] | lanes[3]
}

/// Returns `rows` without the columns in which `used` has 0. The columns behind these move forward. `used` has no 1 behind the first
/// `columns` columns. The result means nothing from the first row on that has a 1 there.
#[inline(always)]
pub fn squeeze_lanes(rows: u32x32, used: u32, columns: u8) -> u32x32
    requires few { columns ≤ 31 }
    requires used { IsRowOver columns used }
    ensures whole { length result ≡ 32 }
    ensures each { (n : ℕ) → All (IsRowOver columns) (take n rows) → take n result ≡ map (squeezed used) (take n rows) }
{
    let mut left = rows;
    for column in (0..columns).rev() {
        if used >> (31 - column) & 1 == 0 {
            left = close_lanes(left, column);
        }
    }
    left
}

/// Returns `rows` without the column with the index `column`. The columns behind it move forward by one.
#[inline(always)]
fn close_lanes(rows: u32x32, column: u8) -> u32x32
    requires { column ≤ 31 }
    ensures { result ≡ map (closed_row column) rows }
{
    let low = u32::MAX >> column;
    let moved = (rows & u32x32::splat(low >> 1)) << u32x32::splat(1);
    rows & u32x32::splat(!low) | moved
}

// ---- the sibling of a slot

/// Returns the column of the fork between `row` and the row before, counted from 1. It is 0 for the first row, and for an unused slot's
/// row.
fn fork_column(row: u32) -> u8
    ensures { result ≡ column_before row }
{
    // The first row is 0, with 32 zeros at its end. An unused one is all ones, with none.
    ((32 - row.trailing_zeros()) % 32) as u8
}

/// Returns the one slot on the other side of the last fork on the path to `slot`, and the index of that fork's column. `None` if that side
/// has several slots.
///
/// `before`, `own`, `after` and `after_next` are the rows of the slots `slot - 1` to `slot + 2`; 4,294,967,295 behind the last entry. If
/// `slot` is 0, `before` is row 0. The result holds for each node with these rows.
#[inline(always)]
pub fn find_sibling(
    slot: u8,
    before: u32,
    own: u32,
    after: u32,
    after_next: u32,
) -> Option<(u8, u8)>
    requires { slot < 32 }
    ensures { (node : NodeView) → IsLawfulNode node → slot < length node.entries →
        AreRowsRound node.rows slot before own after after_next → IsBesideIn node slot result }
{
    let (before, own) = (fork_column(before), fork_column(own));
    let (after, after_next) = (fork_column(after), fork_column(after_next));
    if own < after {
        if after < after_next {
            None
        } else {
            Some((slot + 1, after - 1))
        }
    } else if own < before {
        None
    } else {
        Some((slot.saturating_sub(1), own.saturating_sub(1)))
    }
}
