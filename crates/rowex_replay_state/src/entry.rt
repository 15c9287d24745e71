//! An entry of its word.

ghost use Rattle.record_words.specs.Entry.{HasEntryWord, entry_word};
ghost use Rattle.record_words.specs.Reading.{IsReading};

use compound_node::Entry;
use record_words::{HEIGHT_BIT, WordFault};

/// Returns the entry whose word is `word`, or `None` for 0, the word of an empty slot or root. The error is `WordFault::Bad` for any word
/// that `pack_entry` never returns.
///
/// The lowest two bits are 1 for a leaf and 2 for a node. The next 32 are the record's number. From `HEIGHT_BIT` on stands a node's height,
/// 1 to 65,535, and 0 for a leaf.
pub fn unpack_entry(word: u64) -> Result<Option<Entry>, WordFault>
    ensures { IsReading HasEntryWord entry_word word result }
{
    let number = (word % (1 << HEIGHT_BIT) / 4) as u32;
    let height = word >> HEIGHT_BIT;
    match word % 4 {
        0 if word == 0 => Ok(None),
        1 if height == 0 => Ok(Some(Entry::Leaf(number))),
        2 if height != 0 && height < 1 << 16 => Ok(Some(Entry::Node {
            number,
            height: height as u16,
        })),
        _ => Err(WordFault::Bad),
    }
}
