//! Steps on the entries of the tree and the values of leaves, and on the locks that guard them. The pass of `seat` makes each, and `gate`
//! is told of it.

ghost use Rattle.std.specs.Prelude.{◌≡◌, ◌<◌, ◌+◌};
ghost use Rattle.record_words.specs.Layout.{IsInTable};
ghost use Rattle.partial_keys.specs.declared.TheConstants.{MAX_ENTRIES};
ghost use Rattle.rowex_core.specs.declared.event.Act.TheVariants.{LoadRef, Lock, Unlock, Publish};
ghost use Rattle.rowex_core.specs.declared.event.Spot.TheVariants.{Slot, Value};
ghost use Rattle.rowex_core.specs.Events.{target_word};
ghost use Rattle.rowex_table.specs.Rule.{HasSpot, IsLeafRecordAt, IsNodeRecordAt, MayStep, record_number};
ghost use Rattle.rowex_table.specs.Rights.{MayLock};
ghost use Rattle.rowex_table.specs.Runs.{Steps};
ghost use Rattle.rowex_table.specs.Seats.{IsSeatOf};

use crate::locations::{lock_location, spot_location};
use crate::record_steps::RecordAt;
use crate::steps::Exchange;
use crate::table::{HotTable, TableSeat};
use record_words::{FIRST_ENTRY, Tag, VALUE_OFFSET, pack_state};
use rowex_core::{Act, Gate, Spot, Target};
use std::marker::Brand;

impl HotTable {
    /// Loads and returns the word at `spot`, which is the root, a slot of a node or the value of a leaf.
    pub fn load_ref<G: Gate>(&self, seat: &mut TableSeat, gate: &mut G, spot: Spot) -> u64
        requires own { IsSeatOf self.now seat.old }
        requires range { HasSpot self.now.layout spot }
        ensures { Steps self.now G.becomes (LoadRef spot result) (seat.old, gate.old) (seat.new, gate.new) }
    {
        let entry = self.address_of(spot_location(spot));
        self.load_word_at::<Brand, G>(seat, gate, Act::LoadRef { spot, word: 0 }, entry)
    }

    /// Loads and returns the word of the entry in slot `slot`, 0 to 31, of the node record `node`. It touches no other word.
    #[inline(always)]
    pub fn load_slot_at<G: Gate>(
        &self,
        seat: &mut TableSeat,
        gate: &mut G,
        node: RecordAt,
        slot: u8,
    ) -> u64
        requires own { IsSeatOf self.now seat.old }
        requires node { IsNodeRecordAt self.now.layout node }
        requires slot { slot < MAX_ENTRIES }
        ensures step { Steps self.now G.becomes (LoadRef (Slot (record_number node.rec) slot) result) (seat.old, gate.old) (seat.new, gate.new) }
        ensures touches { seat.new.touches ≡ seat.old.touches }
    {
        let spot = Spot::Slot {
            node: node.number(),
            slot,
        };
        let address = node.start + FIRST_ENTRY + slot as usize;
        self.load_word_at::<Brand, G>(seat, gate, Act::LoadRef { spot, word: 0 }, address)
    }

    /// Loads and returns the value in the leaf record `leaf`.
    #[inline(always)]
    pub fn load_value_at<G: Gate>(&self, seat: &mut TableSeat, gate: &mut G, leaf: RecordAt) -> u64
        requires own { IsSeatOf self.now seat.old }
        requires leaf { IsLeafRecordAt self.now.layout leaf }
        ensures { Steps self.now G.becomes (LoadRef (Value (record_number leaf.rec)) result) (seat.old, gate.old) (seat.new, gate.new) }
    {
        let spot = Spot::Value {
            leaf: leaf.number(),
        };
        let address = leaf.start + VALUE_OFFSET as usize;
        self.load_word_at::<Brand, G>(seat, gate, Act::LoadRef { spot, word: 0 }, address)
    }

    /// Locks `target`, the anchor or a node, if it is live; else its state stays. Returns the state word that the step found: that of
    /// `Tag::Live` exactly if it locked `target`. The pass must know of a node that it is in the tree if it is live.
    pub fn lock<G: Gate>(&self, seat: &mut TableSeat, gate: &mut G, target: Target) -> u64
        requires own { IsSeatOf self.now seat.old }
        requires range { IsInTable self.now.layout (target_word target) }
        requires may { MayLock self.now.layout target seat.old.known }
        ensures { Steps self.now G.becomes (Lock target result) (seat.old, gate.old) (seat.new, gate.new) }
    {
        let act = Act::Lock { target, found: 0 };
        let (expected, new) = (pack_state(Tag::Live), pack_state(Tag::Locked));
        let state = self.address_of(lock_location(target));
        self.compare_exchange_at::<Brand, G>(seat, gate, act, state, Exchange { expected, new })
    }

    /// Makes `target`, which the pass has locked, live: the anchor, or a node that is still in the tree.
    pub fn unlock<G: Gate>(&self, seat: &mut TableSeat, gate: &mut G, target: Target)
        requires own { IsSeatOf self.now seat.old }
        requires range { IsInTable self.now.layout (target_word target) }
        requires may { MayStep self.now.layout (λ _. Unlock target) seat.old.known }
        ensures { Steps self.now G.becomes (Unlock target) (seat.old, gate.old) (seat.new, gate.new) }
    {
        let (act, live) = (Act::Unlock { target }, pack_state(Tag::Live));
        let state = self.address_of(lock_location(target));
        self.store_word_at::<Brand, G>(seat, gate, act, state, live);
    }

    /// Stores `word` at `spot`. At the root or in a slot `word` is that of an entry or 0, and the pass has locked the anchor or the slot's
    /// node. At a leaf `word` is a value, and the pass has locked what names the leaf. No other step changes the map.
    ///
    /// The words then have to show a lawful tree of one leaf more, exchanged or less. The pass has made ready the records that come, and
    /// has locked each node that goes.
    pub fn publish<G: Gate>(&self, seat: &mut TableSeat, gate: &mut G, spot: Spot, word: u64)
        requires own { IsSeatOf self.now seat.old }
        requires range { HasSpot self.now.layout spot }
        requires may { MayStep self.now.layout (λ _. Publish spot word) seat.old.known }
        ensures { Steps self.now G.becomes (Publish spot word) (seat.old, gate.old) (seat.new, gate.new) }
    {
        let entry = self.address_of(spot_location(spot));
        self.store_word_at::<Brand, G>(seat, gate, Act::Publish { spot, word }, entry, word);
    }
}
