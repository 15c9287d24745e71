//! The entries that a position affects, found in the words of a head as they were loaded.

ghost use Rattle.std.specs.Prelude.{◌≡◌, ◌+◌, ◌<◌, count_by, length, nat_lt};
ghost use Rattle.compound_node.specs.Nodes.{piece};
ghost use Rattle.node_tries.specs.Growth.{affected_count, affected_first};
ghost use Rattle.record_words.specs.Node.{HasHeadWords, InNodesOf, head_words};
ghost use Rattle.record_words.specs.Packed.{row_at};
ghost use Rattle.record_words.specs.Reading.{IsSpelling};

use crate::HEAD_WORDS;
use crate::numbers::read_numbers;
use crate::search::{positions_in, rows_in};
use partial_keys::count_below;
use std::simd::prelude::*;

/// Returns the first and the last slot that `position` affects, seen from `slot`, in each node whose head has `words`. `words` are those of
/// a head, and `slot` has an entry. From the first to the last stand just the entries whose rows agree with that of `slot` in all columns
/// below `position`. They follow each other, since rows rise. The words are compared as vectors, and no head is made.
#[inline(always)]
pub fn affected_slots(words: &[u64], slot: u8, position: u16) -> (u8, u8)
    requires long { length words.now ≡ HEAD_WORDS }
    requires spelling { IsSpelling HasHeadWords head_words words.now }
    requires in_range { InNodesOf words.now (λ node. slot < length node.entries) }
    ensures from { InNodesOf words.now (λ node. affected_first position slot (piece node) ≡ result.0) }
    ensures upto { InNodesOf words.now (λ node. affected_count position slot (piece node) + result.0 ≡ result.1 + 1) }
{
    let positions = positions_in(words);
    let rest = u32::MAX >> count_below(positions, position);
    let row = row_in(words, slot);
    let rows = rows_in(words);
    // The rows that agree with `row` below `position` are those from `row & !rest` to `row | rest`.
    let first = count_rows_below(rows, row & !rest);
    let end = count_rows_upto(rows, row | rest).min(read_numbers(words[0]).count as u32);
    (first as u8, (end - 1) as u8)
}

/// Returns the row of `slot` of each node whose head has `words`; 4,294,967,295 for a slot behind the last entry.
#[inline(always)]
fn row_in(words: &[u64], slot: u8) -> u32
    requires { (length words.now ≡ HEAD_WORDS) × (slot < 32) }
    ensures { InNodesOf words.now (λ node. result ≡ row_at node.rows slot) }
{
    let numbers = read_numbers(words[0]);
    numbers.row_of(words[numbers.index_of_row(slot)], slot)
}

/// Returns how many of `rows` are below `bound`.
#[inline(always)]
fn count_rows_below(rows: u32x32, bound: u32) -> u32
    ensures { result ≡ count_by (λ x. nat_lt x bound) rows }
{
    rows.simd_lt(u32x32::splat(bound)).to_bitmask().count_ones()
}

/// Returns how many of `rows` are `bound` or below it.
#[inline(always)]
fn count_rows_upto(rows: u32x32, bound: u32) -> u32
    ensures { result ≡ count_by (λ x. nat_lt x (bound + 1)) rows }
{
    rows.simd_le(u32x32::splat(bound)).to_bitmask().count_ones()
}
