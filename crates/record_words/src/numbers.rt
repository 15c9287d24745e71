//! Numbers of a node's head, each read of the word that it shares with others.

ghost use Rattle.std.specs.Prelude.{◌≡◌, ◌+◌, ◌-◌, ◌/◌, ◌%◌, ◌^◌, ◌<◌, ℕ, slice_index};
ghost use Rattle.compound_node.specs.Nodes.{IsLawfulNode, NodeView, head_of};
ghost use Rattle.record_words.specs.Decoding.{column_count_in, count_in, first_byte_in, height_in};
ghost use Rattle.record_words.specs.HeadParts.{AreNumbersOf, InNodesWith};
ghost use Rattle.record_words.specs.Kinds.{bit_mask, kind_in, mask_index};
ghost use Rattle.record_words.specs.Node.{head_words};

use crate::kind::HeadKind;
use crate::{FIRST_POSITIONS, HEAD_WORDS, MIDDLE_KIND, NARROW_KIND};

/// The numbers in the first word of a head.
#[derive(Clone, Copy)]
pub struct HeadNumbers {
    /// How many entries the node has.
    pub count: u8,
    /// How many columns it has.
    pub columns: u8,
    /// The node's stored height.
    pub height: u16,
    /// How its columns and rows are spelled.
    pub kind: HeadKind,
    /// The byte with the bit at the first column; 0 in a wide head.
    pub first_byte: u8,
}

impl HeadNumbers {
    ghost use Rattle.std.specs.Prelude.{◌≡◌, ◌+◌, ◌-◌, ◌/◌, slice_index};
    ghost use Rattle.compound_node.specs.Nodes.{head_of};
    ghost use Rattle.record_words.specs.HeadParts.{InNodesWith};
    ghost use Rattle.record_words.specs.Kinds.{mask_index, position_index, rows_a_word, rows_from};
    ghost use Rattle.record_words.specs.Node.{head_words};
    ghost use Rattle.record_words.specs.Packed.{position_at, row_at};
    ghost use Rattle.record_words.specs.declared.TheConstants.{HEAD_WORDS};

    /// Returns the index behind the word of the node's last entry.
    #[inline(always)]
    pub fn entries_end(self) -> usize
        ensures { result ≡ HEAD_WORDS + self.count }
    {
        HEAD_WORDS + self.count as usize
    }

    /// Returns the index of the word with the row of slot `slot`.
    #[inline(always)]
    pub fn index_of_row(self, slot: u8) -> usize
        ensures { result ≡ rows_from self.kind + slot / rows_a_word self.kind }
    {
        self.kind.first_rows() + slot as usize / self.kind.rows_a_word()
    }

    /// Returns the index of the word with the position of column `column`, or with the index of its byte.
    #[inline(always)]
    pub fn index_of_position(self, column: u8) -> usize
        ensures { result ≡ position_index self.kind column }
    {
        match self.kind {
            HeadKind::Wide => FIRST_POSITIONS + column as usize / 4,
            HeadKind::Narrow => FIRST_POSITIONS,
            HeadKind::Middle if column < 8 => FIRST_POSITIONS + 1,
            HeadKind::Middle => FIRST_POSITIONS,
        }
    }

    /// Returns the index of the word with the mask of column `column`; the same as `index_of_position` in a wide head.
    #[inline(always)]
    pub fn index_of_mask(self, column: u8) -> usize
        ensures { result ≡ mask_index self.kind column }
    {
        let index = self.index_of_position(column);
        match self.kind {
            HeadKind::Wide => index,
            HeadKind::Narrow => index + 1,
            HeadKind::Middle => index + 2,
        }
    }

    /// Returns the row of slot `slot`, in each node whose head has these numbers and `word` at [`HeadNumbers::index_of_row`]. It is
    /// 4,294,967,295 for a slot behind the last entry.
    #[inline(always)]
    pub fn row_of(self, word: u64, slot: u8) -> u32
        ensures { InNodesWith self (rows_from self.kind + slot / rows_a_word self.kind) word (λ node. result ≡ row_at node.rows slot) }
    {
        if slot >= self.count {
            return u32::MAX;
        }
        match self.kind {
            HeadKind::Wide => (word >> (32 * (slot % 2)) & 0xffff_ffff) as u32,
            HeadKind::Narrow => ((word >> (8 * (slot % 8)) & 0xff) as u32) << 24,
            HeadKind::Middle => ((word >> (16 * (slot % 4)) & 0xffff) as u32) << 16,
        }
    }

    /// Returns the position of column `column`, in each node whose head has these numbers, `word` at [`HeadNumbers::index_of_position`] and
    /// `masks` at [`HeadNumbers::index_of_mask`]. It is 65,535 for a column behind the last.
    #[inline(always)]
    pub fn read_position(self, word: u64, masks: u64, column: u8) -> u16
        ensures { InNodesWith self (position_index self.kind column) word (λ node. slice_index (head_words (head_of node)) (mask_index self.kind column) ≡ masks →
            result ≡ position_at node.columns column) }
    {
        if column >= self.columns {
            return u16::MAX;
        }
        // A word of a near head has a byte for each of eight columns, the highest for the first of them.
        let low = 8 * (7 - column % 8);
        match self.kind {
            HeadKind::Wide => (word >> (16 * (column % 4)) & 0xffff) as u16,
            _ => near_position(
                self.first_byte,
                (word >> low & 0xff) as u8,
                (masks >> low & 0xff) as u8,
            ),
        }
    }
}

/// Returns the numbers of entries and of columns, the height, the kind and the first byte, of each node whose head begins with `word`. Of
/// any other word it returns the parts that stand there.
#[inline(always)]
pub fn read_numbers(word: u64) -> HeadNumbers
    ensures parts { (result.count ≡ count_in word) × (result.columns ≡ column_count_in word) × (result.height ≡ height_in word) × (result.kind ≡ kind_in word) ×
        (result.first_byte ≡ first_byte_in word) }
    ensures node { (node : NodeView) → IsLawfulNode node → slice_index (head_words (head_of node)) 0 ≡ word →
        AreNumbersOf result node }
{
    HeadNumbers {
        count: (word % 256) as u8,
        columns: (word / 256 % 256) as u8,
        height: (word / 65_536 % 65_536) as u16,
        kind: read_kind(word),
        first_byte: (word >> 32 & 0xff) as u8,
    }
}

/// Returns the kind that `word` tells, the first word of a head: narrow for 1 from bit 40 on, middle for 2, and else wide.
#[inline(always)]
fn read_kind(word: u64) -> HeadKind
    ensures { result ≡ kind_in word }
{
    match kind_number(word) {
        NARROW_KIND => HeadKind::Narrow,
        MIDDLE_KIND => HeadKind::Middle,
        _ => HeadKind::Wide,
    }
}

/// Returns the number that stands in `word` from bit 40 on. In the first word of a head it tells the kind: `NARROW_KIND`, `MIDDLE_KIND`, or
/// 0 for a wide one. A search compares the number as it is, since a `HeadKind` takes some ten instructions more.
#[inline(always)]
pub fn kind_number(word: u64) -> u64
    ensures { result ≡ word / 2 ^ 40 }
{
    word >> 40
}

/// Returns the position of a near column. Its byte is `index` behind byte `first_byte`, and `mask`, which is not 0, is the mask of its bit
/// there.
#[inline(always)]
fn near_position(first_byte: u8, index: u8, mask: u8) -> u16
    ensures { (p : ℕ) → bit_mask p ≡ mask → 0 < mask → p / 9 ≡ first_byte + index → result ≡ p }
{
    9 * (first_byte as u16 + index as u16) + 1 + mask.leading_zeros() as u16
}

/// Returns the index of the word that tells the first position in a head of the kind `kind`. A wide head has the position there. The others
/// have its mask, which is enough, since its byte is in the first word.
#[inline(always)]
pub fn index_of_first_position(kind: HeadKind) -> usize
    ensures { result ≡ mask_index kind 0 }
{
    match kind {
        HeadKind::Wide => FIRST_POSITIONS,
        HeadKind::Narrow => FIRST_POSITIONS + 1,
        HeadKind::Middle => FIRST_POSITIONS + 3,
    }
}

/// Returns the position of the first column, in each node whose head has `numbers` and `word` at [`index_of_first_position`].
#[inline(always)]
pub fn first_position_of(numbers: HeadNumbers, word: u64) -> u16
    ensures { InNodesWith numbers (mask_index numbers.kind 0) word (λ node. result ≡ slice_index node.columns 0) }
{
    match numbers.kind {
        HeadKind::Wide => (word % 65_536) as u16,
        _ => near_position(numbers.first_byte, 0, (word >> 56) as u8),
    }
}
