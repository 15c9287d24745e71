//! Searching in the words of a head as they were loaded.

ghost use Rattle.std.specs.Prelude.{◌≡◌, ◌-◌, ◌*◌, ◌/◌, ◌%◌, ◌^◌, ◌<◌, ◌≤◌, ◌++◌, Bool, ℕ, length, replicate, slice_index};
ghost use lib.Count.{count_leading_zeros};
ghost use lib.Lanes.{digits_l, number_l};
ghost use Rattle.compound_node.specs.Nodes.{piece};
ghost use Rattle.key_bits.specs.Bits.{bit_of};
ghost use Rattle.partial_keys.specs.Rows.{dense_of, with_unused};
ghost use Rattle.node_tries.specs.Piece.{leads_to};
ghost use Rattle.node_tries.specs.Positions.{has};
ghost use Rattle.record_words.specs.HeadParts.{HasHeadOf, InNodesOfKind, back_words, front_words, middle_words, narrow_words};
ghost use Rattle.record_words.specs.Node.{InNodesOf};
ghost use Rattle.record_words.specs.Reading.{IsSpelling};
ghost use Rattle.record_words.specs.declared.kind.HeadKind.TheVariants.{Middle, Narrow, Wide};
ghost use Rattle.record_words.specs.declared.TheConstants.{HEAD_WORDS};

use crate::kind::HeadKind;
use crate::near::{bytes_of_words, extract_near, near_positions};
use crate::numbers::read_numbers;
use crate::{
    FIRST_MIDDLE_ROWS, FIRST_NARROW_ROWS, FIRST_POSITIONS, FIRST_ROWS, MIDDLE_HEAD_WORDS,
    NARROW_HEAD_WORDS, ROW_WORDS,
};
use key_bits::Key;
use partial_keys::{extract_dense_key_by_lanes, search_rows};
use std::simd::prelude::*;

/// The lanes' own indexes.
const PLACES: [u32; 32] = [
    0, 1, 2, 3, 4, 5, 6, 7, 8, 9, 10, 11, 12, 13, 14, 15, 16, 17, 18, 19, 20, 21, 22, 23, 24, 25,
    26, 27, 28, 29, 30, 31,
];

/// Returns the dense key of `key` for each node whose head is wide and begins with `words`: bit 31-j has the key's bit at column j. The
/// positions are read as a vector as they stand. `search_row_words` needs only the words behind `words`, so a caller can load those later.
#[inline(always)]
pub fn extract_dense_key(words: &[u64; FIRST_ROWS], key: &Key) -> u32
    requires { IsSpelling (HasHeadOf Wide) front_words words.now }
    ensures { InNodesOfKind Wide front_words words.now (λ node. result ≡ dense_of node.columns (bit_of key.now)) }
{
    let positions = split_into_quarters(u64x8::from_slice(&words[FIRST_POSITIONS..]));
    extract_dense_key_by_lanes(positions, read_numbers(words[0]).columns, key)
}

/// Returns the slot to which the dense key `dense` leads, in each node whose head is wide and ends with `words`. It is the slot that
/// `Head::search` returns, but no head is made: the rows are searched as a vector as they stand.
#[inline(always)]
pub fn search_row_words(words: &[u64; ROW_WORDS], dense: u32) -> u8
    requires { IsSpelling (HasHeadOf Wide) back_words words.now }
    ensures { InNodesOfKind Wide back_words words.now (λ node.
        (bit : ℕ → Bool) → dense ≡ dense_of node.columns bit → result ≡ leads_to bit (piece node)) }
{
    search_rows(wide_rows_in(words), dense)
}

/// Returns the slot to which the bits of `key` lead, in each node whose head is narrow and begins with `words`. The rows are searched as
/// they stand.
#[inline(always)]
pub fn search_narrow(words: &[u64; NARROW_HEAD_WORDS], key: &Key) -> u8
    requires { IsSpelling (HasHeadOf Narrow) narrow_words words.now }
    ensures { InNodesOfKind Narrow narrow_words words.now (λ node. result ≡ leads_to (bit_of key.now) (piece node)) }
{
    let numbers = read_numbers(words[0]);
    let (indexes, masks) = (bytes_of_words(0, words[1]), bytes_of_words(0, words[2]));
    let dense = extract_near(indexes, masks, numbers.first_byte, key);
    let rows = bytes_in(u64x4::from_slice(&words[FIRST_NARROW_ROWS..]));
    // A row complies if it has no bit that the dense key lacks.
    let lacking = u8x32::splat(!((dense >> 24) as u8)) & rows;
    last_of(lacking.simd_eq(u8x32::splat(0)).to_bitmask(), numbers.count)
}

/// Returns the slot to which the bits of `key` lead, in each node whose head is middle and begins with `words`. The rows are searched as
/// they stand.
#[inline(always)]
pub fn search_middle(words: &[u64; MIDDLE_HEAD_WORDS], key: &Key) -> u8
    requires { IsSpelling (HasHeadOf Middle) middle_words words.now }
    ensures { InNodesOfKind Middle middle_words words.now (λ node. result ≡ leads_to (bit_of key.now) (piece node)) }
{
    let numbers = read_numbers(words[0]);
    let indexes = bytes_of_words(words[1], words[2]);
    let masks = bytes_of_words(words[3], words[4]);
    let dense = extract_near(indexes, masks, numbers.first_byte, key);
    let rows = split_into_quarters(u64x8::from_slice(&words[FIRST_MIDDLE_ROWS..]));
    // A row complies if it has no bit that the dense key lacks.
    let lacking = u16x32::splat(!((dense >> 16) as u16)) & rows;
    last_of(
        lacking.simd_eq(u16x32::splat(0)).to_bitmask(),
        numbers.count,
    )
}

/// Returns the index of the highest bit set in `mask` below bit `count`. A bit is set for each row that complies with a key, and the search
/// leads to the last of them. Bit 0 is set, since the first row is 0.
#[inline(always)]
fn last_of(mask: u64, count: u8) -> u8
    requires some { mask % 2 ≡ 1 }
    requires few { (1 ≤ count) × (count ≤ 32) }
    ensures { result ≡ 63 - count_leading_zeros 64 (mask % 2 ^ count) }
{
    (63 - (mask & ((1 << count) - 1)).leading_zeros()) as u8
}

/// Returns the positions of the columns of each node whose head has `words`, and 65,535 behind them up to 32 lanes.
#[inline(always)]
pub(crate) fn positions_in(words: &[u64]) -> u16x32
    requires long { length words.now ≡ HEAD_WORDS }
    ensures { InNodesOf words.now (λ node. result ≡ node.columns ++ replicate (32 - length node.columns) 65535) }
{
    let first = read_numbers(words[0]).first_byte;
    match read_numbers(words[0]).kind {
        HeadKind::Wide => split_into_quarters(u64x8::from_slice(&words[FIRST_POSITIONS..])),
        HeadKind::Narrow => widen(near_positions(
            bytes_of_words(0, words[1]),
            bytes_of_words(0, words[2]),
            first,
        )),
        HeadKind::Middle => widen(near_positions(
            bytes_of_words(words[1], words[2]),
            bytes_of_words(words[3], words[4]),
            first,
        )),
    }
}

/// Returns the sixteen `positions`, and 65,535 behind them up to 32 lanes.
#[inline(always)]
fn widen(positions: u16x16) -> u16x32
    ensures { result ≡ positions ++ replicate 16 65535 }
{
    join_lanes(positions, u16x16::splat(u16::MAX))
}

/// Returns the rows of each node whose head has `words`: lane `i` has the row of slot `i`. Lanes behind the last entry are 4,294,967,295.
#[inline(always)]
pub(crate) fn rows_in(words: &[u64]) -> u32x32
    requires long { length words.now ≡ HEAD_WORDS }
    ensures { InNodesOf words.now (λ node. result ≡ with_unused node.rows) }
{
    let count = read_numbers(words[0]).count;
    match read_numbers(words[0]).kind {
        HeadKind::Wide => wide_rows_in(&words[FIRST_ROWS..]),
        HeadKind::Narrow => with_unused_from(
            bytes_in(u64x4::from_slice(&words[FIRST_NARROW_ROWS..])).cast::<u32>()
                << u32x32::splat(24),
            count,
        ),
        HeadKind::Middle => with_unused_from(
            split_into_quarters(u64x8::from_slice(&words[FIRST_MIDDLE_ROWS..])).cast::<u32>()
                << u32x32::splat(16),
            count,
        ),
    }
}

/// Returns the first `count` of `rows`, and 4,294,967,295 behind them up to 32 lanes.
#[inline(always)]
pub(crate) fn with_unused_from(rows: u32x32, count: u8) -> u32x32
    ensures whole { length result ≡ 32 }
    ensures used { (i : ℕ) → i < count → slice_index result i ≡ slice_index rows i }
    ensures unused { (i : ℕ) → i < 32 → count ≤ i → slice_index result i ≡ 4294967295 }
{
    u32x32::from_array(PLACES)
        .simd_lt(u32x32::splat(count as u32))
        .select(rows, u32x32::splat(u32::MAX))
}

/// Returns the rows of each node whose head is wide and ends with `words`: lane `i` has the row of slot `i`. Lanes behind the last entry
/// are 4,294,967,295.
#[inline(always)]
fn wide_rows_in(words: &[u64]) -> u32x32
    requires { length words.now ≡ ROW_WORDS }
    ensures { InNodesOfKind Wide back_words words.now (λ node. result ≡ with_unused node.rows) }
{
    let low = split_into_halves(u64x8::from_slice(words));
    let high = split_into_halves(u64x8::from_slice(&words[8..]));
    low.shuffle::<32>(
        high,
        [
            0, 1, 2, 3, 4, 5, 6, 7, 8, 9, 10, 11, 12, 13, 14, 15, 16, 17, 18, 19, 20, 21, 22, 23,
            24, 25, 26, 27, 28, 29, 30, 31,
        ],
    )
}

/// Returns the four quarters of 16 bits of each of `words`, the one with the lowest bits first.
#[inline(always)]
pub(crate) fn split_into_quarters(words: u64x8) -> u16x32
    ensures whole { length result ≡ 32 }
    ensures each { (i : ℕ) → i < 32 → slice_index result i ≡ slice_index words (i / 4) / 2 ^ (16 * (i % 4)) % 2 ^ 16 }
{
    u16x32::from_le_bytes(words.to_le_bytes())
}

/// Returns whether one of `lanes` is `number`.
#[inline(always)]
pub(crate) fn has_lane(lanes: u16x32, number: u16) -> bool
    ensures { result ≡ has lanes number }
{
    lanes.simd_eq(u16x32::splat(number)).to_bitmask() != 0
}

/// Returns the two halves of 32 bits of each of `words`, the low one first.
#[inline(always)]
pub(crate) fn split_into_halves(words: u64x8) -> u32x16
    ensures whole { length result ≡ 16 }
    ensures each { (i : ℕ) → i < 16 → slice_index result i ≡ slice_index words (i / 2) / 2 ^ (32 * (i % 2)) % 2 ^ 32 }
{
    u32x16::from_le_bytes(words.to_le_bytes())
}

/// Returns the bytes of `words`, the lowest byte of each first.
#[inline(always)]
fn bytes_in(words: u64x4) -> u8x32
    ensures { result ≡ digits_l (2 ^ 8) 32 (number_l (2 ^ 64) words) }
{
    words.to_le_bytes()
}

/// Returns the lanes of `low`, and those of `high` behind them.
#[inline(always)]
pub(crate) fn join_lanes(low: u16x16, high: u16x16) -> u16x32
    ensures { result ≡ low ++ high }
{
    low.shuffle::<32>(
        high,
        [
            0, 1, 2, 3, 4, 5, 6, 7, 8, 9, 10, 11, 12, 13, 14, 15, 16, 17, 18, 19, 20, 21, 22, 23,
            24, 25, 26, 27, 28, 29, 30, 31,
        ],
    )
}
