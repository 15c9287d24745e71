//! The columns and the sparse partial keys of a head, read of its words by its kind.

ghost use Rattle.std.specs.Prelude.{◌≡◌, ◌↔◌, IsTrue, length};
ghost use Rattle.partial_keys.specs.Rows.{with_unused};
ghost use Rattle.record_words.specs.HeadParts.{AreNumbersOf};
ghost use Rattle.record_words.specs.Node.{InNodesOf};
ghost use Rattle.record_words.specs.declared.TheConstants.{HEAD_WORDS};

use arrayvec::ArrayVec;
use record_words::HeadNumbers;

/// Returns the columns of each node whose head has `words`, with `numbers` in their first word. For words of no node the result has no
/// meaning, so the caller compares.
pub(crate) fn read_columns(words: &[u64], numbers: HeadNumbers) -> ArrayVec<u16, 31>
    requires { length words.now ≡ HEAD_WORDS }
    ensures { InNodesOf words.now (λ node. AreNumbersOf numbers node → result.items ≡ node.columns) }
{
    let mut columns = ArrayVec::new();
    for column in 0..numbers.columns.min(31) {
        let word = words[numbers.index_of_position(column)];
        let masks = words[numbers.index_of_mask(column)];
        columns.push(numbers.read_position(word, masks, column));
    }
    columns
}

/// Returns the 32 rows of each node whose head has `words`, with `numbers` in their first word. Behind the last entry they are
/// 4,294,967,295. For words of no node the result has no meaning, so the caller compares.
pub(crate) fn read_rows(words: &[u64], numbers: HeadNumbers) -> [u32; 32]
    requires { length words.now ≡ HEAD_WORDS }
    ensures { InNodesOf words.now (λ node. AreNumbersOf numbers node → result ≡ with_unused node.rows) }
{
    let mut rows = [0; 32];
    for slot in 0..32 {
        rows[slot] = numbers.row_of(words[numbers.index_of_row(slot as u8)], slot as u8);
    }
    rows
}

/// Returns whether `words` and `others` are the same.
pub(crate) fn are_same(words: &[u64], others: &[u64]) -> bool
    ensures { IsTrue result ↔ (words.now ≡ others.now) }
{
    words == others
}
