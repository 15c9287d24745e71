//! The word of an entry.

ghost use Rattle.std.specs.Prelude.{◌≡◌, Some};
ghost use Rattle.record_words.specs.Entry.{HasEntryWord, entry_word};
ghost use Rattle.record_words.specs.Reading.{IsSpelledBy, IsSpelling};

use crate::HEIGHT_BIT;
use compound_node::Entry;

/// Returns the word of `entry`; 0 for `None`. Its lowest two bits are 1 for a leaf and 2 for a node. The number stands from bit 2 on, and a
/// node's height, which is at least 1, from bit 34 on.
pub fn pack_entry(entry: Option<Entry>) -> u64
    requires { HasEntryWord entry }
    ensures { result ≡ entry_word entry }
{
    match entry {
        None => 0,
        Some(Entry::Leaf(number)) => 4 * number as u64 + 1,
        Some(Entry::Node { number, height }) => ((height as u64) << HEIGHT_BIT)
            + 4 * number as u64
            + 2,
    }
}

/// Returns the entry whose word is `word`, one that `pack_entry` makes; `None` for 0.
pub fn read_entry(word: u64) -> Option<Entry>
    requires { IsSpelling HasEntryWord entry_word word }
    ensures { IsSpelledBy HasEntryWord entry_word word result }
{
    match word {
        0 => None,
        _ => Some(read_some_entry(word)),
    }
}

/// Returns the entry whose word is `word`, one that `pack_entry` makes of an entry, so not 0.
pub fn read_some_entry(word: u64) -> Entry
    requires { IsSpelling (λ entry. HasEntryWord (Some entry)) (λ entry. entry_word (Some entry)) word }
    ensures { IsSpelledBy (λ entry. HasEntryWord (Some entry)) (λ entry. entry_word (Some entry)) word result }
{
    let number = (word % (1 << HEIGHT_BIT) / 4) as u32;
    match (word >> HEIGHT_BIT) as u16 {
        0 => Entry::Leaf(number),
        height => Entry::Node { number, height },
    }
}
