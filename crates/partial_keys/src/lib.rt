//! Columns of a compound node and the search of its rows: HOT's discriminative bits and sparse partial keys (Binna and others 2018).
//!
//! # What carries the proof
//!
//! A row is the code of a path over the columns. It complies exactly if the dense key has a 1 at each position of the path
//! (`complies-row`), so the search lemma carries over. `shown` reads rows back: column by column, the rows with 0 are the front part of a
//! fork. Reading the rows of a lawful piece gives that piece (`piece_of_shown`). `search_plain` and `search_lanes` state one function;
//! `extract_dense_key_by_lanes` gathers bits by vectors as if one by one (`lane_tells`, `mask_is`).
#![tactic(auto)]

ghost use Rattle.std.specs.Prelude.{◌≡◌, ◌+◌, ◌-◌, ◌++◌, ◌∷◌, ◌<◌, ◌≤◌, drop, insert, length, map, remove, replicate, slice_index, take};
ghost use Rattle.node_tries.specs.Kept.{kept};
ghost use Rattle.node_tries.specs.Positions.{front_below};
ghost use Rattle.partial_keys.specs.Columns.{with_free};
ghost use Rattle.partial_keys.specs.Leads.{IsFound};
ghost use Rattle.partial_keys.specs.Rows.{complies};
ghost use Rattle.partial_keys.specs.Squeezed.{used_bits};
ghost use lib.Lanes.{mask_l};

mod gathering;

pub use gathering::extract_dense_key_by_lanes;
use gathering::lanes_of;
use key_bits::Key;
use std::marker::Model;
use std::simd::prelude::*;

/// How many columns a compound node has at most.
pub const MAX_COLUMNS: usize = 31;

/// How many entries a compound node has at most: one more than columns, since 32 entries have 31 forks between them. There is a row for
/// each.
pub const MAX_ENTRIES: usize = MAX_COLUMNS + 1;

/// The columns (discriminative bits) of a compound node: 1 to 31 positions, strictly rising, each below 65,535. Column j is bit 31-j of a
/// dense key or a row.
#[derive(Clone, Copy)]
pub struct Columns {
    positions: [u16; MAX_COLUMNS],
    count: u8,
}

impl Model for Columns {
    ghost use Rattle.std.specs.Prelude.{ℕ, List, length, take};
    ghost use Rattle.partial_keys.specs.Columns.{HoldsColumns, with_free};

    ghost Value = { List ℕ };

    ghost view = { λ c. take c.count c.positions };

    ghost invariant = { λ c. HoldsColumns c.positions c.count };

    ghost inverse = { λ positions. record { positions = with_free positions; count = length positions } };

    ghost inverse_ok = { λ c h i. record { positions = h.filled i; count = h.counted i } };
}

impl Columns {
    ghost use Rattle.std.specs.Prelude.{◌≡◌, ◌<◌, ◌≤◌, false, length, slice_index, take};
    ghost use Rattle.key_bits.specs.Bits.{bit_of};
    ghost use Rattle.node_tries.specs.Kept.{kept};
    ghost use Rattle.node_tries.specs.Positions.{front_below, has, with_position};
    ghost use Rattle.partial_keys.specs.Columns.{HoldsColumns, IsColumns, with_free};
    ghost use Rattle.partial_keys.specs.Rows.{dense_of};
    ghost use Rattle.partial_keys.specs.Squeezed.{used_bits};

    /// Returns the columns at `positions`, which are 1 to 31 and rise strictly, each below 65,535.
    pub fn of(positions: &[u16]) -> Columns
        requires { IsColumns positions.now }
        ensures { result ≡ positions.now }
    {
        Columns {
            positions: pad(positions, u16::MAX),
            count: positions.len() as u8,
        }
    }

    /// Returns the columns at the first `count` of `positions`: 1 to 31, strictly rising, each below 65,535. All other positions are
    /// 65,535.
    pub fn from_padded(positions: [u16; MAX_COLUMNS], count: u8) -> Columns
        requires { HoldsColumns positions count }
        ensures { result ≡ take count positions }
    {
        Columns { positions, count }
    }

    /// Returns the positions, in rising order.
    pub fn as_slice(&self) -> &[u16]
        ensures positions { result.now ≡ self.now }
        ensures columns { IsColumns self.now }
    {
        &self.positions[..self.count as usize]
    }

    /// Returns the positions, and 65,535 behind them up to 31.
    pub fn padded_positions(&self) -> &[u16; MAX_COLUMNS]
        ensures { result.now ≡ with_free self.now }
    {
        &self.positions
    }

    /// Returns how many columns there are, 1 to 31.
    pub fn count(&self) -> u8
        ensures { result ≡ length self.now }
    {
        self.count
    }

    /// Returns the first position, which is the lowest.
    pub fn first(&self) -> u16
        ensures { result ≡ slice_index self.now 0 }
    {
        self.positions[0]
    }

    /// Returns the position of column `j`, which is below `count()`.
    pub fn position(&self, j: u8) -> u16
        requires { j < length self.now }
        ensures { result ≡ slice_index self.now j }
    {
        self.positions[j as usize]
    }

    /// Returns how many columns have a position below `position`. If `position` is a column, that is its index.
    pub fn count_columns_below(&self, position: u16) -> u8
        ensures value { result ≡ front_below position self.now }
        ensures within { result ≤ length self.now }
    {
        count_below(lanes_of(&self.positions), position)
    }

    /// Returns whether `position` is a column; `below` says how many columns are below it.
    pub fn is_column_at(&self, below: u8, position: u16) -> bool
        requires { below ≡ front_below position self.now }
        ensures { result ≡ has self.now position }
    {
        below < self.count && self.positions[below as usize] == position
    }

    /// Returns the dense key (dense partial key) of `key`: bit 31-j has the key's bit at column j, and all other bits are 0.
    pub fn extract(&self, key: &Key) -> u32
        ensures { result ≡ dense_of self.now (bit_of key.now) }
    {
        extract_dense_key_by_lanes(lanes_of(&self.positions), self.count, key)
    }

    /// Adds a column at `position`, which is below 65,535 and no column yet. There were fewer than 31. Returns its index among the columns.
    pub fn add_position(&mut self, position: u16) -> u8
        requires room { length self.old < 31 }
        requires below { position < 65535 }
        requires new { has self.old position ≡ false }
        ensures index { result ≡ front_below position self.old }
        ensures columns { self.new ≡ with_position position self.old }
    {
        let index = self.count_columns_below(position);
        self.insert_position_at(index, position);
        index
    }

    /// Adds a column at `position`, which is below 65,535 and no column yet. There were fewer than 31. `below` says how many columns are
    /// below it, and becomes its index.
    pub fn insert_position_at(&mut self, below: u8, position: u16)
        requires room { length self.old < 31 }
        requires small { position < 65535 }
        requires new { has self.old position ≡ false }
        requires index { below ≡ front_below position self.old }
        ensures { self.new ≡ with_position position self.old }
    {
        let count = self.count as usize;
        insert_element(&mut self.positions, count, below as usize, position);
        self.count += 1;
    }

    /// Drops each column j whose bit 31-j is 0 in `used`. At least one stays.
    pub fn drop_unused(&mut self, used: u32)
        requires some { 0 < length (kept (used_bits used) self.old) }
        ensures { self.new ≡ kept (used_bits used) self.old }
    {
        let count = self.count as usize;
        self.count = keep_used_positions(&mut self.positions, count, used) as u8;
    }
}

/// Returns an array of `items`, at most N, with `unused` behind them up to its end.
pub fn pad<T: Copy, const N: usize>(items: &[T], unused: T) -> [T; N]
    requires { length items.now ≤ N }
    ensures { result ≡ items.now ++ replicate (N - length items.now) unused }
{
    let mut padded = [unused; N];
    for (i, item) in items.iter().enumerate() {
        padded[i] = *item;
    }
    padded
}

/// Returns how many of `lanes` stand before the first that is not below `bound`; 32 if all are below.
#[inline(always)]
pub fn count_below(lanes: u16x32, bound: u16) -> u8
    ensures { result ≡ front_below bound lanes }
{
    let reached = lanes.simd_ge(u16x32::splat(bound)).to_bitmask() as u32;
    reached.trailing_zeros() as u8
}

/// Puts `element` in at index `at` among the first `count` of `items`. The items from there on move back by one, and the item behind the
/// first `count` is lost.
pub fn insert_element<T: Copy>(items: &mut [T], count: usize, at: usize, element: T)
    requires in_range { at ≤ count }
    requires room { count < length items.old }
    ensures { items.new ≡ insert (take count items.old) at element ++ drop (count + 1) items.old }
{
    items.copy_within(at..count, at + 1);
    items[at] = element;
}

/// Takes the item at index `at` out of the first `count` of `items`. Those behind it move forward by one, and `fill` comes behind them.
pub fn remove_element<T: Copy>(items: &mut [T], count: usize, at: usize, fill: T)
    requires in_range { at < count }
    requires room { count ≤ length items.old }
    ensures { items.new ≡ remove (take count items.old) at ++ fill ∷ drop count items.old }
{
    for i in at..count - 1 {
        items[i] = items[i + 1];
    }
    items[count - 1] = fill;
}

/// Keeps, of the first `count` of `positions`, those whose bit 31-j is set in `used`, where j is their index. They move to the front, and
/// all behind them become 65,535. Returns how many are kept.
fn keep_used_positions(positions: &mut [u16; MAX_COLUMNS], count: usize, used: u32) -> usize
    requires few { count ≤ 31 }
    requires unused { drop count positions.old ≡ replicate (31 - count) 65535 }
    ensures count { result ≡ length (kept (used_bits used) (take count positions.old)) }
    ensures positions { positions.new ≡ with_free (kept (used_bits used) (take count positions.old)) }
{
    let mut found = 0;
    for j in 0..count {
        if used >> (31 - j) & 1 == 1 {
            positions[found] = positions[j];
            found += 1;
        }
    }
    for j in found..count {
        positions[j] = u16::MAX;
    }
    found
}

/// Returns the highest index i at which row `padded_rows[i]` complies with `dense`: it has no bit that `dense` lacks. The first row must
/// be 0, so there is one.
///
/// Let the rows be those of a node, with all ones behind them. Let `dense` have a key's bits at the node's columns. Then i is the slot to
/// which the forks lead the key. No row of ones complies, since bit 0 of such a dense key is 0.
pub fn search_plain(padded_rows: &[u32; MAX_ENTRIES], dense: u32) -> u8
    requires { slice_index padded_rows.now 0 ≡ 0 }
    ensures { IsFound padded_rows.now dense result }
{
    let mut best = 0;
    for i in 1..32 {
        if dense & padded_rows[i as usize] == padded_rows[i as usize] {
            best = i;
        }
    }
    best
}

/// Returns the highest index of a row that complies with the dense key `dense`, as `search_plain` does. It compares all 32 rows at once, as
/// lanes of a vector. The first row is 0, so there is one.
pub fn search_lanes(padded_rows: &[u32; MAX_ENTRIES], dense: u32) -> u8
    requires { slice_index padded_rows.now 0 ≡ 0 }
    ensures { IsFound padded_rows.now dense result }
{
    search_rows(u32x32::from_array(*padded_rows), dense)
}

/// Returns the highest index of a row that complies with the dense key `dense`, as `search_plain` does, where the rows are lanes already.
/// The first row is 0, so there is one.
#[inline(always)]
pub fn search_rows(padded_rows: u32x32, dense: u32) -> u8
    requires { slice_index padded_rows 0 ≡ 0 }
    ensures { IsFound padded_rows dense result }
{
    (63 - mark_complying(padded_rows, dense).leading_zeros()) as u8
}

/// Returns a mask whose bit i is set exactly if lane i complies with `dense`: it has no bit that `dense` lacks.
#[inline(always)]
fn mark_complying(lanes: u32x32, dense: u32) -> u64
    ensures { result ≡ mask_l (map (complies dense) lanes) }
{
    (u32x32::splat(!dense) & lanes)
        .simd_eq(u32x32::splat(0))
        .to_bitmask()
}
