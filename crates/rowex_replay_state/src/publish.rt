//! The publish: the one step that changes the map.

ghost use Rattle.std.specs.Prelude.{◌≡◌, ◌↔◌, IfOk, IsTrue, OnErr, Some};
ghost use Rattle.record_words.specs.Entry.{HasEntryWord, entry_word};
ghost use Rattle.rowex_core.specs.declared.event.Act.TheVariants.{Publish};
ghost use Rattle.rowex_core.specs.declared.event.Spot.TheVariants.{Root, Slot, Value};
ghost use Rattle.record_words.specs.Decoding.{entry_of};
ghost use Rattle.rowex_replay_state.specs.Publishing.{AreRevalued, IsPublishJudged};
ghost use Rattle.rowex_replay_state.specs.States.{HasLock, HasNamerLocked, IsStepped};

use crate::changes::change_between;
use crate::entry::unpack_entry;
use crate::linked::Item;
use crate::records::{are_node_words, with_word};
use crate::state::State;
use crate::trees::read_tree;
use compound_node::Entry;
use finite_map::{Change, Kind};
use record_words::{HEAD_WORDS, MAX_ENTRIES, pack_entry};
use rowex_core::{Rec, Spot};
use std::alloc::AllocError;

impl State {
    /// Stores `word` at `spot`. Returns whether the step is legal; if not, nothing changes. At the root `pass` must have locked the anchor,
    /// in a slot the node. There `word` must be that of an entry or 0, and the words must then show a lawful next version. To store a
    /// value, `pass` must have locked what names the leaf.
    ///
    /// `AllocError`, and nothing changes, if memory is refused. Then `pass` has the lock that the spot asks for, and whether the publish is
    /// legal stays open.
    pub(crate) fn publish(&mut self, pass: u16, spot: Spot, word: u64) -> Result<bool, AllocError>
        ensures ok { IfOk result (λ made. IsStepped made self.old self.new pass (Publish spot word)) }
        ensures err { OnErr result (self.new ≡ self.old) }
        ensures locked { OnErr result (HasLock self.old pass spot) }
    {
        match (spot, unpack_entry(word)) {
            (Spot::Value { leaf }, _) => self.publish_value(pass, leaf, word),
            (Spot::Root, Ok(entry)) => self.publish_root(pass, entry, word),
            (Spot::Slot { node, slot }, Ok(_)) => self.publish_entry(pass, node, slot, word),
            (_, Err(_)) => Ok(false),
        }
    }

    /// Stores the value `word` to the leaf `leaf`. Returns whether the step is legal: `pass` has locked what names the leaf. If not,
    /// nothing changes. `AllocError`, and nothing changes, if memory is refused; `pass` has that lock then. No tree is read, since a value
    /// stored under that lock always makes a next version.
    fn publish_value(&mut self, pass: u16, leaf: u32, word: u64) -> Result<bool, AllocError>
        ensures ok { IfOk result (λ made. IsStepped made self.old self.new pass (Publish (Value leaf) word)) }
        ensures err { OnErr result (self.new ≡ self.old) }
        ensures locked { OnErr result (HasLock self.old pass (Value leaf)) }
    {
        if !self.has_locked_namer(pass, leaf) {
            return Ok(false);
        }
        let Some(key) = self.records.key_of(leaf) else {
            return Ok(false);
        };
        self.changes.push(Change {
            pass,
            key,
            value: word,
            kind: Kind::Replaced,
        })?;
        self.records.set_word(Rec::Leaf(leaf), 0, word);
        set_value(&mut self.items, leaf, word);
        Ok(true)
    }

    /// Returns whether `pass` has locked what names the leaf `leaf`. That is the anchor if the leaf is the root's entry, or a node of the
    /// tree that has the leaf as an entry.
    fn has_locked_namer(&self, pass: u16, leaf: u32) -> bool
        ensures { IsTrue result ↔ HasNamerLocked self.now pass leaf }
    {
        let entry = Some(Entry::Leaf(leaf));
        self.has_locked_root(pass, entry) || self.records.has_locked_entry(pass, pack_entry(entry))
    }

    /// Returns whether `pass` has locked the anchor, and the root's entry is `root`.
    fn has_locked_root(&self, pass: u16, root: Option<Entry>) -> bool
        ensures { IsTrue result ↔ ((self.now.anchor ≡ Some pass) × (self.now.root ≡ root)) }
    {
        self.has_locked_anchor(pass) && self.root == root
    }

    /// Stores `word`, that of the entry `root`, at the root. Returns whether the step is legal: `pass` has locked the anchor, and the words
    /// then show a lawful next version. If not, nothing changes. `AllocError`, and nothing changes, if memory is refused; `pass` has locked
    /// the anchor then.
    fn publish_root(
        &mut self,
        pass: u16,
        root: Option<Entry>,
        word: u64,
    ) -> Result<bool, AllocError>
        requires fits { HasEntryWord root }
        requires spelled { entry_word root ≡ word }
        ensures ok { IfOk result (λ made. IsStepped made self.old self.new pass (Publish Root word)) }
        ensures err { OnErr result (self.new ≡ self.old) }
        ensures locked { OnErr result (HasLock self.old pass Root) }
    {
        if !self.has_locked_anchor(pass) {
            return Ok(false);
        }
        self.publish_tree(pass, root)
    }

    /// Stores `word`, that of an entry or 0, in slot `entry` of the node `node`. Returns whether the step is legal: `pass` has locked the
    /// node, which has that slot, and the words then show a lawful next version. If not, nothing changes. `AllocError`, and nothing
    /// changes, if memory is refused; `pass` has locked the node then.
    fn publish_entry(
        &mut self,
        pass: u16,
        node: u32,
        entry: u8,
        word: u64,
    ) -> Result<bool, AllocError>
        requires { HasEntryWord (entry_of word) × (entry_word (entry_of word) ≡ word) }
        ensures ok { IfOk result (λ made. IsStepped made self.old self.new pass (Publish (Slot node entry) word)) }
        ensures err { OnErr result (self.new ≡ self.old) }
        ensures locked { OnErr result (HasLock self.old pass (Slot node entry)) }
    {
        if entry as usize >= MAX_ENTRIES {
            return Ok(false);
        }
        if !self.records.is_locked_by(node, pass) {
            return Ok(false);
        }
        let Some(before) = self.records.node(node) else {
            return Ok(false);
        };
        let after = with_word(before, HEAD_WORDS + entry as usize, word);
        if !are_node_words(&after) {
            return Ok(false);
        }
        let root = self.root;
        self.records.set_node(node, after);
        match self.publish_tree(pass, root) {
            Ok(true) => Ok(true),
            Ok(false) => {
                self.records.set_node(node, before);
                Ok(false)
            }
            Err(refused) => {
                self.records.set_node(node, before);
                Err(refused)
            }
        }
    }

    /// Makes the tree that the words show from `root` the newest version, by one change of `pass`, and returns `true`. Returns `false`, and
    /// nothing changes, if that tree isn't lawful, or differs from the newest version by more or less than one change. It returns `false`,
    /// too, if fates or locks don't allow the tree. `AllocError`, and nothing changes, if memory is refused. The caller has checked the
    /// lock of the stored word.
    fn publish_tree(&mut self, pass: u16, root: Option<Entry>) -> Result<bool, AllocError>
        ensures ok { IfOk result (λ made. IsPublishJudged made self.old self.new pass root) }
        ensures err { OnErr result (self.new ≡ self.old) }
    {
        let nodes = self.records.nodes();
        let leaves = self.records.leaves();
        let Some(linked) = read_tree(self.alloc, nodes, leaves, root)? else {
            return Ok(false);
        };
        if !self
            .records
            .may_publish(pass, &linked.nodes, &linked.leaves)
        {
            return Ok(false);
        }
        let before = self.items.as_slice();
        let after = linked.items.as_slice();
        let Some(change) = change_between(pass, before, after) else {
            return Ok(false);
        };
        let now = self.changes.len() as u64;
        self.changes.push(change)?;
        self.records
            .update_fates(now, pass, &linked.nodes, &linked.leaves);
        self.root = root;
        self.items = linked.items;
        Ok(true)
    }
}

/// Gives the leaf with the number `leaf` the value `value`, in `items`. All other leaves stay.
fn set_value(items: &mut Vec<Item>, leaf: u32, value: u64)
    ensures { AreRevalued leaf value items.old.items items.new.items }
{
    for i in 0..items.len() {
        if items[i].number == leaf {
            items[i].value = value;
        }
    }
}
