//! The kinds of a node's head, by how many columns it has and how close together they are.

ghost use Rattle.std.specs.Prelude.{◌≡◌};
ghost use Rattle.record_words.specs.Kinds.{are_near, kind_of};

use crate::{
    FIRST_MIDDLE_ROWS, FIRST_NARROW_ROWS, FIRST_ROWS, HEAD_WORDS, MIDDLE_COLUMNS,
    MIDDLE_HEAD_WORDS, NARROW_COLUMNS, NARROW_HEAD_WORDS, WINDOW_BYTES,
};
use key_bits::MAX_BYTES;
use partial_keys::Columns;

/// How a head spells its columns and rows. The columns decide it: near ones have their bits in sixteen bytes, and none is the bit that says
/// that there is a byte.
#[derive(Clone, Copy, PartialEq, Eq)]
pub enum HeadKind {
    /// Any columns: 16 bits for each, and rows of 32 bits.
    Wide = 0,
    /// At most 8 columns, all near: two bytes for each, and rows of 8 bits.
    Narrow = 1,
    /// 9 to 16 columns, all near: two bytes for each, and rows of 16 bits.
    Middle = 2,
}

impl HeadKind {
    ghost use Rattle.std.specs.Prelude.{◌≡◌};
    ghost use Rattle.record_words.specs.Kinds.{head_size, rows_from, rows_a_word};

    /// Returns how many words a head of this kind uses: 25, 7 or 13. The words behind them are all ones.
    #[inline(always)]
    pub fn head_words(self) -> usize
        ensures { result ≡ head_size self }
    {
        match self {
            HeadKind::Wide => HEAD_WORDS,
            HeadKind::Narrow => NARROW_HEAD_WORDS,
            HeadKind::Middle => MIDDLE_HEAD_WORDS,
        }
    }

    /// Returns the index of the first word with rows, in a head of this kind.
    #[inline(always)]
    pub fn first_rows(self) -> usize
        ensures { result ≡ rows_from self }
    {
        match self {
            HeadKind::Wide => FIRST_ROWS,
            HeadKind::Narrow => FIRST_NARROW_ROWS,
            HeadKind::Middle => FIRST_MIDDLE_ROWS,
        }
    }

    /// Returns how many rows a word of a head of this kind has.
    #[inline(always)]
    pub fn rows_a_word(self) -> usize
        ensures { result ≡ rows_a_word self }
    {
        match self {
            HeadKind::Wide => 2,
            HeadKind::Narrow => 8,
            HeadKind::Middle => 4,
        }
    }
}

/// Returns the kind of a head with `columns`: narrow for at most 8 near ones, middle for 9 to 16 near ones, else wide.
pub fn kind_of(columns: &Columns) -> HeadKind
    ensures { result ≡ kind_of columns.now }
{
    let count = columns.count() as usize;
    if count > MIDDLE_COLUMNS || !are_near(columns) {
        return HeadKind::Wide;
    }
    if count <= NARROW_COLUMNS {
        HeadKind::Narrow
    } else {
        HeadKind::Middle
    }
}

/// Returns whether all bits at `columns` are in sixteen bytes of a key, within its first `MAX_BYTES`, and none is the 1 before a byte.
fn are_near(columns: &Columns) -> bool
    ensures { result ≡ are_near columns.now }
{
    let first = columns.first() as usize / 9;
    if first + WINDOW_BYTES > MAX_BYTES {
        return false;
    }
    let end = first + WINDOW_BYTES;
    columns.as_slice().iter().all(|position| *position % 9 != 0 && (*position as usize) / 9 < end)
}
