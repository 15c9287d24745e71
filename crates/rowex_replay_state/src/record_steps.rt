//! The steps on records of a pass's own: claim, fill, ready and release; marks, and giving back.

ghost use Rattle.std.specs.Prelude.{◌↔◌, ◌<◌, IsTrue, length};
ghost use Rattle.rowex_core.specs.declared.event.Act.TheVariants.{Claim, Fill, GiveBack, Mark, Ready, Release};
ghost use Rattle.rowex_core.specs.Cores.{HasWord};
ghost use Rattle.rowex_core.specs.Events.{IsFixedOffset, IsOffset};
ghost use Rattle.rowex_replay_state.specs.States.{IsStepped};

use crate::fate::Fate;
use crate::state::State;
use record_words::{FIRST_ENTRY, Layout, NODE_WORDS, Tag, pack_state};
use rowex_core::Rec;

impl State {
    /// Claims `rec` for `pass` if it is free. Returns whether the step is legal: `found` is the record's state word before. If not, nothing
    /// changes. A claim that finds another state than free fails: it is a legal step, too, and changes nothing.
    pub(crate) fn claim(&mut self, pass: u16, rec: Rec, found: u64) -> bool
        ensures { IsStepped result self.old self.new pass (Claim rec found) }
    {
        if !self.records.has_state_word(rec, found) {
            return false;
        }
        if found == pack_state(Tag::Free) {
            self.records.set_fate(rec, Fate::Held { by: pass });
        }
        true
    }

    /// Stores `word` at `offset` of `rec`. Returns whether the step is legal: `pass` holds the record, which has a word other than its
    /// state at `offset`. If not, nothing changes.
    pub(crate) fn fill(&mut self, pass: u16, rec: Rec, offset: u8, word: u64) -> bool
        ensures { IsStepped result self.old self.new pass (Fill rec offset word) }
    {
        if !self.records.is_held(rec, pass) || !is_offset(self.records.layout(), rec, offset) {
            return false;
        }
        self.records.set_word(rec, offset as usize - 1, word);
        true
    }

    /// Makes `rec` ready, and so live. Returns whether the step is legal: `pass` holds the record, and its words are those of a node, or of
    /// a leaf for whose key the record has room. If not, nothing changes.
    pub(crate) fn ready(&mut self, pass: u16, rec: Rec) -> bool
        ensures { IsStepped result self.old self.new pass (Ready rec) }
    {
        if !self.records.is_held(rec, pass) || !self.records.has_valid_words(rec) {
            return false;
        }
        self.records.set_fate(rec, Fate::Ready { by: pass });
        true
    }

    /// Makes `rec` free. Returns whether the step is legal: `pass` holds the record. If not, nothing changes.
    pub(crate) fn release(&mut self, pass: u16, rec: Rec) -> bool
        ensures { IsStepped result self.old self.new pass (Release rec) }
    {
        if !self.records.is_held(rec, pass) {
            return false;
        }
        self.records.set_fate(rec, Fate::Free);
        true
    }

    /// Makes `rec` obsolete with `epoch`, and unlocks it. Returns whether the step is legal: `pass` has unlinked the record, has loaded the
    /// epoch since, and its last load found `epoch`. If not, nothing changes.
    pub(crate) fn mark(&mut self, pass: u16, rec: Rec, epoch: u64) -> bool
        requires { pass < length self.old.passes }
        ensures { IsStepped result self.old self.new pass (Mark rec epoch) }
    {
        let own = self.pass_state(pass);
        let Some(Fate::Unlinked { since, last, by }) = self.records.fate(rec) else {
            return false;
        };
        if by != pass || own.epoch != epoch || own.version <= last {
            return false;
        }
        self.records
            .set_fate_and_unlock(rec, Fate::Marked { since, last, epoch });
        true
    }

    /// Frees `rec` if it is marked with `epoch`. Returns whether the step is legal: `found` is the record's state word before, and the
    /// round of `pass` shows that no pass can reach what is marked with `epoch`. If not, nothing changes. An exchange that finds another
    /// state fails: it is a legal step, too, and changes nothing.
    pub(crate) fn give_back(&mut self, pass: u16, rec: Rec, epoch: u64, found: u64) -> bool
        requires { pass < length self.old.passes }
        ensures { IsStepped result self.old self.new pass (GiveBack rec epoch found) }
    {
        if !self
            .pass_state(pass)
            .is_unreachable(epoch, self.passes.len())
        {
            return false;
        }
        if !self.records.has_state_word(rec, found) {
            return false;
        }
        if self.records.is_marked(rec, epoch) {
            self.records.set_fate(rec, Fate::Free);
        }
        true
    }
}

/// Returns whether `rec` has a word other than its state at `offset`. In a table of `layout` a leaf's number tells its record's size.
/// Whether the table has the record is not asked.
fn is_offset(layout: Layout, rec: Rec, offset: u8) -> bool
    ensures { IsTrue result ↔ (IsOffset rec offset × HasWord layout rec offset) }
{
    match rec {
        Rec::Node(_) => 1 <= offset && offset < NODE_WORDS as u8,
        Rec::Leaf(number) => 1 <= offset && (offset as usize) < layout.leaf_size(number),
    }
}

/// Returns whether `rec` has a word at `offset` that is neither its state nor an entry nor a value. In a table of `layout` a leaf's number
/// tells its record's size. Whether the table has the record is not asked.
pub(crate) fn is_offset_of_fixed_word(layout: Layout, rec: Rec, offset: u8) -> bool
    ensures { IsTrue result ↔ (IsFixedOffset rec offset × HasWord layout rec offset) }
{
    match rec {
        Rec::Node(_) => 1 <= offset && offset < FIRST_ENTRY as u8,
        Rec::Leaf(number) => 1 < offset && (offset as usize) < layout.leaf_size(number),
    }
}
