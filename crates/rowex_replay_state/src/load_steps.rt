//! The loads of words of records, and of the root. They change nothing.

ghost use Rattle.std.specs.Prelude.{◌≡◌, ◌↔◌, IsTrue, Option};
ghost use Rattle.rowex_core.specs.declared.event.Act.TheVariants.{LoadFixed, LoadRef, LoadState};
ghost use Rattle.record_words.specs.Entry.{HasEntryWord, entry_word};
ghost use Rattle.rowex_replay_state.specs.States.{IsStepped};

use crate::entry::unpack_entry;
use crate::record_steps::is_offset_of_fixed_word;
use crate::state::State;
use compound_node::Entry;
use record_words::{HEAD_WORDS, MAX_ENTRIES};
use rowex_core::{Rec, Spot};

impl State {
    /// Returns whether it is legal that `pass` loads the word at `spot` and finds `word`: the table has that spot, and `word` stands there.
    /// Any pass may.
    pub(crate) fn load_ref(&self, pass: u16, spot: Spot, word: u64) -> bool
        ensures { IsStepped result self.now self.now pass (LoadRef spot word) }
    {
        match spot {
            Spot::Root => is_entry_word(self.root, word),
            Spot::Slot { node, slot } => {
                if slot as usize >= MAX_ENTRIES {
                    return false;
                }
                self.records
                    .has_word(Rec::Node(node), HEAD_WORDS + slot as usize, word)
            }
            Spot::Value { leaf } => self.records.has_word(Rec::Leaf(leaf), 0, word),
        }
    }

    /// Returns whether it is legal that `pass` loads the word at `offset` of `rec` and finds `word`: `word` stands there. `false`, too, if
    /// the table has no such record, or `offset` is that of the state, an entry, a value or no word.
    pub(crate) fn load_fixed(&self, pass: u16, rec: Rec, offset: u8, word: u64) -> bool
        ensures { IsStepped result self.now self.now pass (LoadFixed rec offset word) }
    {
        if !is_offset_of_fixed_word(self.records.layout(), rec, offset) {
            return false;
        }
        self.records.has_word(rec, offset as usize - 1, word)
    }

    /// Returns whether it is legal that `pass` loads the state of `rec` and finds `word`: the table has the record, and `word` is its state
    /// word.
    pub(crate) fn load_state(&self, pass: u16, rec: Rec, word: u64) -> bool
        ensures { IsStepped result self.now self.now pass (LoadState rec word) }
    {
        self.records.has_state_word(rec, word)
    }
}

/// Returns whether `word` is that of `entry`. `None` is an empty root, whose word is 0.
fn is_entry_word(entry: Option<Entry>, word: u64) -> bool
    ensures { IsTrue result ↔ (HasEntryWord entry × (word ≡ entry_word entry)) }
{
    match unpack_entry(word) {
        Ok(shown) => shown == entry,
        Err(_) => false,
    }
}
