//! What passes do to the shared words, as events: atomic steps, and bulk loads.

use record_words::Rec;
use std::marker::Model;

/// What a writer locks.
#[derive(Clone, Copy)]
pub enum Target {
    /// The lock of the root, a word of its own.
    Anchor,
    /// The node record of this number.
    Node(u32),
}

/// A word of the map: where an entry word or a value stands.
#[derive(Clone, Copy)]
pub enum Spot {
    /// The word of the root.
    Root,
    /// A slot, 0 to 31, of node record `node`.
    Slot { node: u32, slot: u8 },
    /// The value of leaf record `leaf`.
    Value { leaf: u32 },
}

/// One load, store or compare-exchange on one word; or the bulk load with which a table was made, which is no atomic step.
///
/// `word` is what a load found, or what a store puts there. `found` is the word that a compare-exchange found. If it isn't the one
/// expected, the exchange changes nothing. `offset` counts the words of a record, from its state at 0 on.
#[derive(Clone, Copy)]
pub enum Act {
    /// Exchanges the state of a record from free to held.
    Claim { rec: Rec, found: u64 },
    /// Stores a word, other than the state, of a record that the pass holds.
    Fill { rec: Rec, offset: u8, word: u64 },
    /// Makes a held record live, so that a publish of its pass may link it.
    Ready { rec: Rec },
    /// Makes a held record free.
    Release { rec: Rec },
    /// Loads the root, an entry word or a leaf's value.
    LoadRef { spot: Spot, word: u64 },
    /// Loads a word of a record that is neither its state nor an entry nor a value.
    LoadFixed { rec: Rec, offset: u8, word: u64 },
    /// Exchanges the state of the anchor or of a node from live to locked.
    Lock { target: Target, found: u64 },
    /// Makes the anchor or a node live again, which the pass has locked. A node is still in the tree.
    Unlock { target: Target },
    /// Stores the root, an entry word or a leaf's value, under its lock or that of what names the leaf. It is the one step that changes the
    /// map.
    Publish { spot: Spot, word: u64 },
    /// Makes a record that the pass has unlinked obsolete in this epoch.
    Mark { rec: Rec, epoch: u64 },
    /// Loads the epoch.
    LoadEpoch { word: u64 },
    /// Exchanges the epoch from `expected` to `expected` + 1.
    Advance { expected: u64, found: u64 },
    /// Stores the epoch that the pass loaded last as its pin.
    SetPin { word: u64 },
    /// Stores 0 as the pin.
    ClearPin,
    /// Loads the pin of pass `of`.
    LoadPin { of: u16, word: u64 },
    /// Loads the state of a record.
    LoadState { rec: Rec, word: u64 },
    /// Exchanges the state of a record from obsolete in this epoch to free.
    GiveBack { rec: Rec, epoch: u64, found: u64 },
    /// Makes a table of `words`, and links all records of the tree that they show. It stands before all steps, and no step makes it.
    Load { words: &'static [u64] },
}

/// An atomic step of the pass of this number, or its bulk load.
#[derive(Clone, Copy)]
pub struct Event {
    pub pass: u16,
    pub act: Act,
}

/// What is told each step of a call, as an event, straight after it. No gate is told of a bulk load.
pub trait Gate {
    ghost use Rattle.rowex_core.specs.declared.event.Event.{Event};

    /// That the first gate, told this event, may have become the second.
    ghost becomes: { Self → Event → Self → Type 0 };

    /// Tells the gate `event`, whose step has just been made.
    fn at(&mut self, event: &Event)
        ensures { becomes self.old event.now self.new };
}

/// A gate that does nothing. Contracts see no state of it.
#[derive(Clone, Copy, Drop)]
pub struct NoGate;

impl Model for NoGate {
    ghost Value = { Unit {0} };

    ghost view = { λ _. tt };

    ghost inverse = { λ _. record {} };
}

impl Gate for NoGate {
    ghost becomes = { λ _ _ _. Unit {0} };

    /// Tells nobody of the step.
    fn at(&mut self, _event: &Event) {}
}
