//! The fixed words of a node: all but its state and its entries.

ghost use Rattle.std.specs.Prelude.{ℕ, ◌≡◌, ◌+◌, ◌<◌, length, slice_index};
ghost use Rattle.record_words.specs.Kinds.{kind_of};
ghost use Rattle.record_words.specs.Packed.{numbers_word, position_at, position_word, row_word, row_words};
ghost use Rattle.record_words.specs.declared.kind.HeadKind.TheVariants.{Middle, Narrow};
ghost use Rattle.record_words.specs.Node.{InNodesOf};
ghost use Rattle.partial_keys.specs.Columns.{with_free};

use crate::kind::HeadKind;
use crate::search::positions_in;
use crate::{HEAD_WORDS, MIDDLE_KIND, NARROW_KIND};
use partial_keys::{Columns, MAX_COLUMNS};
use std::simd::prelude::*;

/// Returns the positions of the columns of each node whose head has `words`, and 65,535 behind them: 31 numbers in all.
pub(crate) fn read_positions(words: &[u64]) -> [u16; MAX_COLUMNS]
    requires { length words.now ≡ HEAD_WORDS }
    ensures { InNodesOf words.now (λ node. result ≡ with_free node.columns) }
{
    let mut positions = [0; MAX_COLUMNS];
    positions.copy_from_slice(&positions_in(words).to_array()[..MAX_COLUMNS]);
    positions
}

/// Returns the first word of a head of the kind `kind` over `columns`. Its lowest byte is the number of entries, `count`, and the next byte
/// the number of columns. Bits 16 to 31 have the height. Bits 32 to 39 have the index of the first column's byte, or 0 if the kind is wide.
/// The bits from 40 on have the kind: 0 for wide, 1 for narrow, 2 for middle.
pub(crate) fn word_of_numbers(count: u8, columns: &Columns, height: u16, kind: HeadKind) -> u64
    requires { kind ≡ kind_of columns.now }
    ensures { result ≡ numbers_word kind count height columns.now }
{
    let numbers = count as u64 + 256 * columns.count() as u64 + 65_536 * height as u64;
    let first = (columns.first() as u64 / 9) << 32;
    match kind {
        HeadKind::Wide => numbers,
        HeadKind::Narrow => numbers + first + (NARROW_KIND << 40),
        HeadKind::Middle => numbers + first + (MIDDLE_KIND << 40),
    }
}

/// Returns word `j`, counted from 0, of the eight words of positions in a wide head. It has the four from `positions[4 * j]` on, in 16 bits
/// each, the first in its lowest bits. 65,535 stands for a position behind the last.
pub(crate) fn word_of_positions(positions: &[u16; MAX_COLUMNS], j: usize) -> u64
    requires { j < 8 }
    ensures { result ≡ position_word positions.now j }
{
    let first = 4 * j;
    let low = position_at(positions, first) as u64
        + ((position_at(positions, first + 1) as u64) << 16);
    let high = position_at(positions, first + 2) as u64
        + ((position_at(positions, first + 3) as u64) << 16);
    low + (high << 32)
}

/// Returns the position at index `at` of `positions`, counted from 0; 65,535 behind the last.
fn position_at(positions: &[u16; MAX_COLUMNS], at: usize) -> u16
    ensures { result ≡ position_at positions.now at }
{
    if at < MAX_COLUMNS {
        positions[at]
    } else {
        u16::MAX
    }
}

/// Returns the eight words of the sixteen `rows`: two in each word, the first of them in its low half.
#[inline(always)]
pub(crate) fn words_of_rows(rows: u32x16) -> u64x8
    ensures whole { length result ≡ 8 }
    ensures each { (j : ℕ) → j < 8 → slice_index result j ≡ row_word rows j }
{
    u64x8::from_le_bytes(rows.to_le_bytes())
}

/// Returns the four words of the highest bytes of the 32 `rows`: eight in each word, the first in its lowest bits.
#[inline(always)]
pub(crate) fn words_of_high_bytes(rows: u32x32) -> u64x4
    ensures { result ≡ row_words Narrow rows }
{
    u64x4::from_le_bytes((rows >> u32x32::splat(24)).cast::<u8>())
}

/// Returns the eight words of the higher halves of the 32 `rows`: four in each word, the first in its lowest bits.
#[inline(always)]
pub(crate) fn words_of_high_halves(rows: u32x32) -> u64x8
    ensures { result ≡ row_words Middle rows }
{
    u64x8::from_le_bytes((rows >> u32x32::splat(16)).cast::<u16>().to_le_bytes())
}
