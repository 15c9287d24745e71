//! Nodes without their entries.

ghost use Rattle.std.specs.Prelude.{◌≡◌, ◌↔◌, ◌<◌, ◌≤◌, ◌++◌, IsTrue, drop, false, if◌then◌else◌, length, map, take};
ghost use Rattle.compound_node.specs.Nodes.{FitsWords};
ghost use Rattle.partial_keys.specs.Columns.{IsColumns};
ghost use Rattle.partial_keys.specs.Spread.{spread_row};
ghost use Rattle.node_tries.specs.Positions.{front_below, has, with_position};

use super::rows::{are_sparse_keys, first_of_run, fork_rows, is_padded, last_of_run, spread_rows};
use key_bits::Key;
use partial_keys::{Columns, MAX_COLUMNS, MAX_ENTRIES, pad, search_lanes};
use std::marker::Model;
use std::simd::prelude::*;

/// A node without its entries: its stored height, its columns, and a row for each entry. A search reads no more.
#[derive(Drop)]
pub struct Head {
    height: u16,
    count: u8,
    columns: Columns,
    padded_rows: [u32; MAX_ENTRIES],
}

impl Model for Head {
    ghost use Rattle.std.specs.Prelude.{take};
    ghost use Rattle.compound_node.specs.Nodes.{FitsHead, HeadView};

    ghost Value = { HeadView };

    ghost view = { λ h. record { height = h.height; columns = h.columns; rows = take h.count h.padded_rows } };

    ghost invariant = { λ h. FitsHead h.count h.padded_rows (record { height = h.height; columns = h.columns; rows = take h.count h.padded_rows }) };
}

impl Head {
    ghost use Rattle.std.specs.Prelude.{◌≡◌, ℕ, ◌↔◌, ◌+◌, ◌<◌, ◌≤◌, IsSome, IfSome, length, slice_index, take};
    ghost use Rattle.compound_node.specs.Forking.{forked_head};
    ghost use Rattle.compound_node.specs.Nodes.{AgreeBefore, InEachNode, IsHead, IsLawfulNode, leaves, node_of, piece};
    ghost use Rattle.key_bits.specs.Bits.{bit_of};
    ghost use Rattle.partial_keys.specs.Rows.{with_unused};
    ghost use Rattle.node_tries.specs.Changes.{AtRootFork};
    ghost use Rattle.node_tries.specs.Growth.{affected_count, affected_first};
    ghost use Rattle.node_tries.specs.Piece.{leads_to};

    /// Returns the head of a node of `count` entries with these fields; `None` exactly if no node has them. `columns` has the positions of
    /// the forks, each once, in rising order. `padded_rows` has the row of each entry at its slot, and 4,294,967,295 at each unused slot.
    pub fn from_parts(
        count: u8,
        height: u16,
        columns: &[u16],
        padded_rows: &[u32; MAX_ENTRIES],
    ) -> Option<Head>
        ensures some { IsSome result ↔ IsHead count height columns.now padded_rows.now }
        ensures head { IfSome result (λ head. head ≡ record { height = height; columns = columns.now; rows = take count padded_rows.now }) }
    {
        if height > 0 && fit_a_node(count, columns, padded_rows) {
            Some(Head {
                height,
                count,
                columns: Columns::of(columns),
                padded_rows: *padded_rows,
            })
        } else {
            None
        }
    }

    /// Returns the head of a node of `count` entries with these fields, which some node has. `padded_rows` has the row of each entry at its
    /// slot, and 4,294,967,295 at each unused slot.
    pub fn of(count: u8, height: u16, columns: Columns, padded_rows: [u32; MAX_ENTRIES]) -> Head
        requires { IsHead count height columns padded_rows }
        ensures { result ≡ record { height = height; columns = columns; rows = take count padded_rows } }
    {
        Head {
            height,
            count,
            columns,
            padded_rows,
        }
    }

    /// Returns how many entries the node has, 2 to 32.
    pub fn count(&self) -> u8
        ensures count { result ≡ length self.now.rows }

        // A lawful node has this head: the one with as many leaves as entries.
        ensures lawful { IsLawfulNode (node_of self.now (leaves result)) }
    {
        self.count
    }

    /// Returns the node's stored height.
    pub fn height(&self) -> u16
        ensures { result ≡ self.now.height }
    {
        self.height
    }

    /// Returns the slot to which the forks lead by the bits of `key`, in each node that has this head.
    pub fn search(&self, key: &Key) -> u8
        ensures leads { InEachNode self.now (λ node. result ≡ leads_to (bit_of key.now) (piece node)) }
        ensures in_range { result < length self.now.rows }
    {
        search_lanes(&self.padded_rows, self.columns.extract(key))
    }

    /// Returns the position of the root fork, the lowest of all columns, in each node that has this head.
    pub fn first_position(&self) -> u16
        ensures column { result ≡ slice_index self.now.columns 0 }
        ensures root { InEachNode self.now (λ node. AtRootFork (λ p zero one. result ≡ p) (piece node)) }
        ensures below { result < 65535 }
    {
        self.columns.first()
    }

    /// Returns the first and the last slot that `position` affects, seen from `slot`, in each node that has this head. From the first to
    /// the last stand just the entries whose rows agree with that of `slot` in all columns below `position`.
    pub fn affected(&self, slot: u8, position: u16) -> (u8, u8)
        requires { slot < length self.now.rows }
        ensures range { InEachNode self.now (λ node. (k : ℕ) → k < length node.entries →
            AgreeBefore node position slot k ↔ ((result.0 ≤ k) × (k ≤ result.1))) }

        // In terms of the piece: the part below the forks before the position, on the way to the entry in `slot`.
        ensures from { InEachNode self.now (λ node. affected_first position slot (piece node) ≡ result.0) }
        ensures upto { InEachNode self.now (λ node. affected_count position slot (piece node) + result.0 ≡ result.1 + 1) }
    {
        let rows = self.rows();
        let columns = self.columns.count_columns_below(position) as usize;
        (
            first_of_run(rows, columns, slot as usize) as u8,
            last_of_run(rows, columns, slot as usize) as u8,
        )
    }

    /// Returns the head of these fields, which some node has; `rows` are those of the entries, without unused ones.
    pub(crate) fn from_rows(height: u16, columns: Columns, rows: &[u32]) -> Head
        requires { IsLawfulNode (node_of (record { height = height; columns = columns; rows = rows.now }) (leaves (length rows.now))) }
        ensures { result ≡ record { height = height; columns = columns; rows = rows.now } }
    {
        Head {
            height,
            count: rows.len() as u8,
            columns,
            padded_rows: pad(rows, u32::MAX),
        }
    }

    /// Adds a new fork at `position` over the slots from `first` to `last`, and a row for one more entry, for which there is room. The new
    /// entry's slot is straight behind these if `bit` is true, else straight before them. The stored height becomes `height`. Some node has
    /// the head that results.
    pub(crate) fn add_fork(
        &mut self,
        height: u16,
        position: u16,
        first: usize,
        last: usize,
        bit: bool,
    )
        requires room { length self.old.rows < 32 }
        requires range { first ≤ last }
        requires in_range { last < length self.old.rows }
        requires below { position < 65535 }
        requires lawful { IsLawfulNode (node_of (forked_head height position first last bit self.old) (leaves (length self.old.rows + 1))) }
        ensures { self.new ≡ forked_head height position first last bit self.old }
    {
        let count = self.count as usize;
        let below = ensure_column(&mut self.columns, &mut self.padded_rows, count, position);
        let rows = u32x32::from_array(self.padded_rows);
        self.padded_rows = fork_rows(rows, first, last, 1 << (31 - below), bit).to_array();
        self.count += 1;
        self.height = height;
    }

    /// Returns a copy of the head.
    pub(crate) fn copy(&self) -> Head
        ensures { result ≡ self.now }
    {
        Head {
            height: self.height,
            count: self.count,
            columns: self.columns,
            padded_rows: self.padded_rows,
        }
    }

    /// Returns the columns: the positions of the forks, each once.
    pub fn columns(&self) -> &Columns
        ensures { result.now ≡ self.now.columns }
    {
        &self.columns
    }

    /// Returns the rows of the entries, in the order of the slots.
    pub(crate) fn rows(&self) -> &[u32]
        ensures { result.now ≡ self.now.rows }
    {
        &self.padded_rows[..self.count as usize]
    }

    /// Returns the rows of the entries, and 4,294,967,295 for the unused ones of 32 slots.
    pub fn padded_rows(&self) -> &[u32; MAX_ENTRIES]
        ensures { result.now ≡ with_unused self.now.rows }
    {
        &self.padded_rows
    }

    /// Returns the row of `slot`; 4,294,967,295 if the slot is unused.
    pub(crate) fn row(&self, slot: u8) -> u32
        requires { slot < 32 }
        ensures used { slot < length self.now.rows → result ≡ slice_index self.now.rows slot }
        ensures unused { length self.now.rows ≤ slot → result ≡ 4294967295 }
    {
        self.padded_rows[slot as usize]
    }
}

/// Adds a column at `position`, for which there is room. In it the first `count` of `rows` get 0. If `position` is a column already,
/// nothing changes. Returns the column's index.
pub(crate) fn ensure_column(
    columns: &mut Columns,
    rows: &mut [u32; MAX_ENTRIES],
    count: usize,
    position: u16,
) -> u8
    requires columns { length columns.old ≤ 31 }
    requires room { has columns.old position ≡ false → length columns.old < 31 }
    requires few { count ≤ 32 }
    requires small { position < 65535 }
    ensures below { result ≡ front_below position columns.old }
    ensures few { result ≤ 31 }
    ensures columns { columns.new ≡ (if has columns.old position then columns.old else with_position position columns.old) }
    ensures rows { rows.new ≡ (if has columns.old position then rows.old else map (spread_row result) (take count rows.old) ++ drop count rows.old) }
{
    let below = columns.count_columns_below(position);
    if !columns.is_column_at(below, position) {
        columns.insert_position_at(below, position);
        spread_rows(rows, count, below);
    }
    below
}

/// Returns whether some node of `count` entries has `columns`, and `padded_rows` has its rows, with 4,294,967,295 at each unused slot.
fn fit_a_node(count: u8, columns: &[u16], padded_rows: &[u32; MAX_ENTRIES]) -> bool
    ensures { IsTrue result ↔ FitsWords count columns.now padded_rows.now }
{
    let used = count as usize;
    2 <= used
        && used <= MAX_ENTRIES
        && are_columns(columns)
        && is_padded(padded_rows, used)
        && are_sparse_keys(&padded_rows[..used], columns.len())
}

/// Returns whether `positions` are 1 to 31 positions that rise strictly, each below 65,535.
fn are_columns(positions: &[u16]) -> bool
    ensures { IsTrue result ↔ IsColumns positions.now }
{
    if positions.is_empty() || positions.len() > MAX_COLUMNS {
        return false;
    }
    let mut least = 0;
    for position in positions {
        if *position < least || *position == u16::MAX {
            return false;
        }
        least = *position + 1;
    }
    true
}
