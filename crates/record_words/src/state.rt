//! The state word of a record.

ghost use Rattle.std.specs.Prelude.{ℕ, ◌≡◌, ◌≢◌, ◌<◌, MatchOption};
ghost use Rattle.record_words.specs.declared.state.Tag.TheVariants.{Obsolete};
ghost use Rattle.record_words.specs.State.{HasStateWord, state_word};
ghost use Rattle.record_words.specs.Reading.{IsReading};

use crate::{EPOCHS, WordFault};

/// The least state word of a retired record, that of epoch 1.
pub const LEAST_OBSOLETE: u64 = 12;

/// What a record's state word says of it.
#[derive(Clone, Copy, PartialEq, Eq)]
pub enum Tag {
    /// Any pass may claim it.
    Free,
    /// A pass has claimed it and fills it.
    Held,
    /// The record is whole, and unlocked.
    Live,
    /// A writer has locked it.
    Locked,
    /// The record was retired in this epoch.
    Obsolete(u64),
}

/// Returns the state word of `tag`; an epoch is from 1 to `EPOCHS - 1`.
pub fn pack_state(tag: Tag) -> u64
    requires { HasStateWord tag }
    ensures { result ≡ state_word tag }
{
    match tag {
        Tag::Free => 0,
        Tag::Held => 1,
        Tag::Live => 2,
        Tag::Locked => 3,
        Tag::Obsolete(epoch) => obsolete_word(epoch),
    }
}

/// Returns the state word of a record that was retired in `epoch`: 8 times the epoch, and 4.
pub fn obsolete_word(epoch: u64) -> u64
    requires { epoch < EPOCHS }
    ensures { result ≡ state_word (Obsolete epoch) }
{
    8 * epoch + 4
}

/// Returns the epoch in which a record with the state word `word` was retired; `None` if `word` tells no such epoch.
pub fn read_obsolete_epoch(word: u64) -> Option<u64>
    ensures { MatchOption result ((epoch : ℕ) → HasStateWord (Obsolete epoch) → word ≢ state_word (Obsolete epoch))
        (λ epoch. HasStateWord (Obsolete epoch) × (word ≡ state_word (Obsolete epoch))) }
{
    let epoch = word / 8;
    if word % 8 == 4 && epoch != 0 && epoch < EPOCHS {
        return Some(epoch);
    }
    None
}

/// Returns the tag whose state word is `word`; `Err(Bad)` if no tag has it.
pub fn unpack_state(word: u64) -> Result<Tag, WordFault>
    ensures { IsReading HasStateWord state_word word result }
{
    match word {
        0 => Ok(Tag::Free),
        1 => Ok(Tag::Held),
        2 => Ok(Tag::Live),
        3 => Ok(Tag::Locked),
        _ => match read_obsolete_epoch(word) {
            Some(epoch) => Ok(Tag::Obsolete(epoch)),
            None => Err(WordFault::Bad),
        },
    }
}
