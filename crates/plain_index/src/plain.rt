//! An index of one thread, over a sorted map.
ghost use Rattle.std.specs.Prelude.{◌≡◌, ◌≢◌, ℕ, List, [], ◌≤◌, length, take, IfOk, IsOk, OnOk, OnErr};
ghost use Rattle.finite_map.specs.declared.Call.TheVariants.{Add, Exchange, RemoveIf};
ghost use Rattle.finite_map.specs.Maps.{map_after, reply_of, map_after_all, replies_of, AddsKey};
ghost use Rattle.finite_map.specs.Scans.{IsScanOf, range_of};

use finite_map::{Call, Reply, Scan};
use key_bits::Key;
use std::alloc::{AllocError, Global};
use std::collections::BTreeMap;
use std::marker::Model;
use std::ops::Bound;

/// A finite map from keys to numbers. Contracts see it as the list of its keys with their values, in the order of the keys.
#[derive(Drop)]
pub struct PlainIndex {
    entries: BTreeMap<Key, u64>,
}

impl Model for PlainIndex {
    ghost Value = { List (List ℕ × ℕ) };

    ghost view = { λ index. index.entries.entries };
}

impl PlainIndex {
    /// Returns an index without a key.
    pub fn new(alloc: Global) -> PlainIndex
        ensures { result ≡ [] }
    {
        PlainIndex {
            entries: BTreeMap::new(alloc),
        }
    }

    /// Makes `call`, and returns the map's reply. `AllocError` if the call adds a key and memory is refused; nothing changes then.
    pub fn apply(&mut self, call: Call) -> Result<Reply, AllocError>
        ensures reply { IfOk result (λ reply. reply ≡ reply_of self.old call) }
        ensures map { OnOk result (self.new ≡ map_after self.old call) }
        ensures memory { OnErr result (AddsKey self.old call) }
        ensures err { OnErr result (self.new ≡ self.old) }
    {
        match call {
            Call::Insert(key, value) => match self.entries.get(&key) {
                Some(held) => Ok(Reply::Exists(*held)),
                None => {
                    self.entries.insert(key, value)?;
                    Ok(Reply::Inserted)
                }
            },
            Call::Upsert(key, value) => match self.entries.insert(key, value)? {
                Some(held) => Ok(Reply::Was(held)),
                None => Ok(Reply::New),
            },
            Call::Exchange(key, expected, value) => self.exchange_value(key, expected, value),
            Call::Add(key, delta) => self.add_to_value(key, delta),
            Call::Get(key) => match self.entries.get(&key) {
                Some(held) => Ok(Reply::Value(*held)),
                None => Ok(Reply::Absent),
            },
            Call::Remove(key) => match self.entries.remove(&key) {
                Some(held) => Ok(Reply::Removed(held)),
                None => Ok(Reply::Absent),
            },
            Call::RemoveIf(key, expected) => Ok(self.remove_if(&key, expected)),
        }
    }

    /// Gives `key` the value `value` if it has the value `expected`, and returns `Exchanged`. Else nothing changes. It returns `Differs`
    /// with the key's value then, or `Absent` if the key is absent. There is never an error.
    fn exchange_value(&mut self, key: Key, expected: u64, value: u64) -> Result<Reply, AllocError>
        ensures reply { IfOk result (λ reply. reply ≡ reply_of self.old (Exchange key expected value)) }
        ensures map { OnOk result (self.new ≡ map_after self.old (Exchange key expected value)) }
        ensures memory { IsOk result }
    {
        match self.entries.get(&key) {
            None => Ok(Reply::Absent),
            Some(held) if *held == expected => {
                self.entries.insert(key, value)?;
                Ok(Reply::Exchanged)
            }
            Some(held) => Ok(Reply::Differs(*held)),
        }
    }

    /// Adds `delta` to the value of `key`, modulo 2 to the power of 64, and returns `Was` with the value before. An absent key stays
    /// absent, and `Absent` is returned. There is never an error.
    fn add_to_value(&mut self, key: Key, delta: u64) -> Result<Reply, AllocError>
        ensures reply { IfOk result (λ reply. reply ≡ reply_of self.old (Add key delta)) }
        ensures map { OnOk result (self.new ≡ map_after self.old (Add key delta)) }
        ensures memory { IsOk result }
    {
        let Some(held) = self.entries.get(&key) else {
            return Ok(Reply::Absent);
        };
        let had = *held;
        self.entries.insert(key, had.wrapping_add(delta))?;
        Ok(Reply::Was(had))
    }

    /// Removes `key` if it has the value `expected`, and returns `Removed` with that value. Else nothing changes. It returns `Differs` with
    /// the key's value then, or `Absent` if the key is absent.
    fn remove_if(&mut self, key: &Key, expected: u64) -> Reply
        ensures reply { result ≡ reply_of self.old (RemoveIf key.now expected) }
        ensures map { self.new ≡ map_after self.old (RemoveIf key.now expected) }
    {
        match self.entries.get(key) {
            None => Reply::Absent,
            Some(held) if *held == expected => {
                self.entries.remove(key);
                Reply::Removed(expected)
            }
            Some(held) => Reply::Differs(*held),
        }
    }

    /// Returns the keys from `from` to `upto`, both included, with their values: the first `limit` of them, in the order of the keys.
    /// `more` says whether there are others. `from` is found by one search, and only the pairs returned and the one behind them are read.
    /// `AllocError` if memory is refused for a pair.
    pub fn scan(
        &self,
        alloc: Global,
        from: &Key,
        upto: &Key,
        limit: usize,
    ) -> Result<Scan, AllocError>
        ensures scan { IfOk result (IsScanOf self.now from.now upto.now limit) }
        ensures memory { OnErr result (take limit (range_of self.now from.now upto.now) ≢ []) }
    {
        let mut pairs = Vec::new(alloc);
        if from > upto {
            return Ok(Scan { pairs, more: false });
        }
        let range = (Bound::Included(from), Bound::Included(upto));
        for (key, value) in self.entries.range(range) {
            if pairs.len() == limit {
                return Ok(Scan { pairs, more: true });
            }
            pairs.push((key.copy(), *value))?;
        }
        Ok(Scan { pairs, more: false })
    }

    /// Makes `calls` one after the other, and returns their replies. `AllocError` where memory is refused. Then some first calls were made,
    /// and no other.
    pub fn run(&mut self, alloc: Global, calls: Vec<Call>) -> Result<Vec<Reply>, AllocError>
        ensures replies { IfOk result (λ replies. replies.items ≡ replies_of self.old calls.items) }
        ensures map { OnOk result (self.new ≡ map_after_all self.old calls.items) }
        ensures err { OnErr result ((n : ℕ) × (n ≤ length calls.items)
            × (self.new ≡ map_after_all self.old (take n calls.items))) }
    {
        let mut replies = Vec::with_capacity(alloc, calls.len())?;
        for call in calls {
            replies.push(self.apply(call)?)?;
        }
        Ok(replies)
    }
}
