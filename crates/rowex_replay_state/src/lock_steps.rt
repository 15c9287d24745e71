//! The steps that lock and unlock the anchor and nodes.

ghost use Rattle.std.specs.Prelude.{◌≡◌, ◌↔◌, IsTrue, Some};
ghost use Rattle.rowex_core.specs.declared.event.Act.TheVariants.{Lock, Unlock};
ghost use Rattle.rowex_core.specs.declared.event.Target.TheVariants.{Anchor, Node as NodeTarget};
ghost use Rattle.rowex_replay_state.specs.States.{IsStepped};

use crate::fate::live_state;
use crate::state::State;
use record_words::{Tag, pack_state};
use rowex_core::{Rec, Target};

impl State {
    /// Returns whether `pass` has locked the anchor.
    pub(crate) fn has_locked_anchor(&self, pass: u16) -> bool
        ensures { IsTrue result ↔ (self.now.anchor ≡ Some pass) }
    {
        self.anchor == Some(pass)
    }

    /// Locks `target` for `pass` if its state is live. Returns whether the step is legal: `found` is the target's state word before. A live
    /// node must also be in the tree: one that is ready may not be locked. If the step isn't legal, nothing changes. A try that finds
    /// another state than live fails: it is a legal step, too, and changes nothing.
    pub(crate) fn lock(&mut self, pass: u16, target: Target, found: u64) -> bool
        ensures { IsStepped result self.old self.new pass (Lock target found) }
    {
        match target {
            Target::Anchor => self.lock_anchor(pass, found),
            Target::Node(number) => self.lock_node(pass, number, found),
        }
    }

    /// Unlocks `target`. Returns whether the step is legal: `pass` has locked the target. A node must also be in the tree, since an
    /// unlinked one is unlocked by its mark. If not legal, nothing changes.
    pub(crate) fn unlock(&mut self, pass: u16, target: Target) -> bool
        ensures { IsStepped result self.old self.new pass (Unlock target) }
    {
        match target {
            Target::Anchor => self.unlock_anchor(pass),
            Target::Node(number) => self.unlock_node(pass, number),
        }
    }

    /// Locks the anchor for `pass` if it is unlocked. Returns whether the step is legal: `found` is the anchor's state word before. If not,
    /// nothing changes. A legal try that finds the anchor locked changes nothing either.
    fn lock_anchor(&mut self, pass: u16, found: u64) -> bool
        ensures { IsStepped result self.old self.new pass (Lock Anchor found) }
    {
        if found != pack_state(live_state(self.anchor)) {
            return false;
        }
        if self.anchor.is_none() {
            self.anchor = Some(pass);
        }
        true
    }

    /// Locks the node `node` for `pass` if its state is live. Returns whether the step is legal: `found` is the node's state word before,
    /// and a live node is also in the tree. If not, nothing changes. A legal try that finds another state changes nothing either.
    fn lock_node(&mut self, pass: u16, node: u32, found: u64) -> bool
        ensures { IsStepped result self.old self.new pass (Lock (NodeTarget node) found) }
    {
        if !self.records.has_state_word(Rec::Node(node), found) {
            return false;
        }
        if found == pack_state(Tag::Live) {
            if !self.records.is_node_in_tree(node) {
                return false;
            }
            self.records.set_lock(node, Some(pass));
        }
        true
    }

    /// Unlocks the anchor. Returns whether the step is legal: `pass` has locked the anchor. If not, nothing changes.
    fn unlock_anchor(&mut self, pass: u16) -> bool
        ensures { IsStepped result self.old self.new pass (Unlock Anchor) }
    {
        if !self.has_locked_anchor(pass) {
            return false;
        }
        self.anchor = None;
        true
    }

    /// Unlocks the node `node`. Returns whether the step is legal: `pass` has locked the node, and the node is in the tree. If not, nothing
    /// changes.
    fn unlock_node(&mut self, pass: u16, node: u32) -> bool
        ensures { IsStepped result self.old self.new pass (Unlock (NodeTarget node)) }
    {
        if !self.records.is_locked_by(node, pass) {
            return false;
        }
        if !self.records.is_node_in_tree(node) {
            return false;
        }
        self.records.set_lock(node, None);
        true
    }
}
