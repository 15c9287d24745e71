//! A finite map from keys to numbers, and histories of it: the calls, their replies, and what makes the calls of many passes legal
//! together.
//!
//! # What carries the proof
//!
//! A map is the list of its pairs in key order. One table (`step`) gives each call's reply and the map that it leaves. A front is a list of
//! changes; it is legal if each change fits the map of those before. A note has a place, a call and a reply. `LegalCalls` says of a pass's
//! notes in a front: each reply is the map's at its place. A call that changed the map is the change there. The front's changes of this
//! pass are exactly those of its notes. Places never fall, and rise after each change of its own.
//!
//! A weave puts notes into a front: a change whose call is among the notes stands as that call, another as the bare change. Calls that
//! changed nothing stand between them, by their places.
#![tactic(auto)]

ghost use Rattle.std.specs.Prelude.{◌≡◌};
ghost use Rattle.finite_map.specs.Maps.{Map, key_of, step_where};

use key_bits::Key;

/// A call on the map, about one key.
#[derive(Drop)]
pub enum Call {
    /// Gives the key the value if it has none.
    Insert(Key, u64),
    /// Gives the key the value, whether it has one or not.
    Upsert(Key, u64),
    /// Gives the key the second value if it has the first: a compare-and-exchange.
    Exchange(Key, u64, u64),
    /// Adds the number to the value of the key, if it has one: the sum modulo 2 to the power of 64.
    Add(Key, u64),
    /// Asks for the value of the key.
    Get(Key),
    /// Removes the key.
    Remove(Key),
    /// Removes the key if it has the value.
    RemoveIf(Key, u64),
}

impl Call {
    /// Returns the key that the call is about.
    pub fn key(&self) -> &Key
        ensures { result.now ≡ key_of self.now }
    {
        match self {
            Call::Insert(key, _) | Call::Upsert(key, _) | Call::Exchange(key, _, _) => key,
            Call::Add(key, _) | Call::Get(key) | Call::Remove(key) | Call::RemoveIf(key, _) => key,
        }
    }

    /// Returns the reply to the call by a map in which its key has the value `held`; `None` stands for an absent key.
    pub fn reply(&self, held: Option<u64>) -> Reply
        ensures { (m : Map) → result ≡ (step_where held m self.now).1 }
    {
        match (self, held) {
            (Call::Insert(..), None) => Reply::Inserted,
            (Call::Insert(..), Some(held)) => Reply::Exists(held),
            (Call::Upsert(..), None) => Reply::New,
            (Call::Upsert(..), Some(held)) => Reply::Was(held),
            (Call::Exchange(..), None) => Reply::Absent,
            (Call::Exchange(_, expected, _), Some(held)) if held == *expected => Reply::Exchanged,
            (Call::Exchange(..), Some(held)) => Reply::Differs(held),
            (Call::Add(..), None) => Reply::Absent,
            (Call::Add(..), Some(held)) => Reply::Was(held),
            (Call::Get(_), None) => Reply::Absent,
            (Call::Get(_), Some(held)) => Reply::Value(held),
            (Call::Remove(_), None) => Reply::Absent,
            (Call::Remove(_), Some(held)) => Reply::Removed(held),
            (Call::RemoveIf(..), None) => Reply::Absent,
            (Call::RemoveIf(_, expected), Some(held)) if held == *expected => Reply::Removed(held),
            (Call::RemoveIf(..), Some(held)) => Reply::Differs(held),
        }
    }
}

/// What a call returns.
#[derive(Clone, Copy, PartialEq, Eq)]
pub enum Reply {
    /// Of `Insert`: the key was absent and has the value now.
    Inserted,
    /// Of `Insert`: the key has this value, and keeps it.
    Exists(u64),
    /// Of `Upsert`: the key was absent and has the value now.
    New,
    /// Of `Upsert` and `Add`: the key had this value and has the new one now.
    Was(u64),
    /// Of `Exchange`: the key had the expected value and has the new one now.
    Exchanged,
    /// Of `Exchange` and `RemoveIf`: the key has this value, which is not the expected one, and keeps it.
    Differs(u64),
    /// Of `Get`: the key has this value.
    Value(u64),
    /// Of all calls but `Insert` and `Upsert`: the key is absent.
    Absent,
    /// Of `Remove` and `RemoveIf`: the key had this value and is absent now.
    Removed(u64),
}

/// What a change does to its key.
#[derive(Clone, Copy, PartialEq, Eq)]
pub enum Kind {
    /// The absent key got the value.
    Added,
    /// The held key got the value, which may be the one that it had.
    Replaced,
    /// The key, which held the value, was taken away.
    Removed,
}

/// A change of the map: what pass number `pass` did to `key`. `value` is the one that the key got, or of a removal the one that it lost.
#[derive(Drop)]
pub struct Change {
    pub pass: u16,
    pub key: Key,
    pub value: u64,
    pub kind: Kind,
}

/// A completed call of a pass with its reply, and where it stands in a front: after the first `place` changes.
/// In contracts a place is a whole number without bound.
#[derive(Drop)]
pub struct Note {
    pub place: u64,
    pub call: Call,
    pub reply: Reply,
}

/// The result of a scan of a range.
#[derive(Drop)]
pub struct Scan {
    /// Keys with their values, in the order of the keys; of a scan downwards, the greatest first.
    pub pairs: Vec<(Key, u64)>,
    /// Whether the range has a further key, beyond the last of the pairs.
    pub more: bool,
}
