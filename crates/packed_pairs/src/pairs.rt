//! A list of pairs that is filled, read, and used again.

ghost use Rattle.std.specs.Prelude.{◌≡◌, ◌≢◌, ◌<◌, ◌^◌, [], All, IfOk, MatchOption, OnErr, length, nat_eq};
ghost use Rattle.key_bits.specs.Key.{IsKey};
ghost use Rattle.packed_pairs.specs.Last.{IsLastKey};

use crate::heads::Heads;
use crate::iter::{Iter, key_from_bytes};
use crate::keys::KeyBytes;
use key_bits::Key;
use std::alloc::{AllocError, Global};
use std::marker::Model;

/// Keys with their values, in the order in which they came.
///
/// Contracts see a list of pairs. It takes 16 bytes for each pair, and the bytes of its key; and has some room behind these.
#[derive(Drop)]
pub struct Pairs {
    pub(crate) bytes: KeyBytes,
    pub(crate) heads: Heads,
}

impl Model for Pairs {
    ghost use Rattle.std.specs.Prelude.{List, ℕ};
    ghost use Rattle.packed_pairs.specs.Packed.{unpacked, ArePacked};

    ghost Value = { List (List ℕ × ℕ) };

    ghost view = { λ p. unpacked p.heads p.bytes };

    ghost invariant = { λ p. ArePacked p.heads p.bytes };
}

impl Pairs {
    /// Returns a list of no pairs, for memory of `alloc`. It takes none yet.
    pub fn new(alloc: Global) -> Pairs
        ensures { result ≡ [] }
    {
        Pairs {
            bytes: KeyBytes::new(alloc),
            heads: Heads::new(alloc),
        }
    }

    /// Returns how many pairs the list has, fewer than 2^63.
    pub fn len(&self) -> usize
        ensures count { result ≡ length self.now }
        ensures short { length self.now < 2 ^ 63 }
    {
        self.heads.len()
    }

    /// Returns whether the list has no pair.
    pub fn is_empty(&self) -> bool
        ensures { result ≡ nat_eq (length self.now) 0 }
    {
        self.len() == 0
    }

    /// Takes out all pairs. The list keeps its memory.
    pub fn clear(&mut self)
        ensures { self.new ≡ [] }
    {
        self.bytes.truncate(0);
        self.heads.truncate(0);
    }

    /// Returns the key of the last pair; `None` if there is no pair.
    pub fn last_key(&self) -> Option<Key>
        ensures { MatchOption result (self.now ≡ []) (IsLastKey self.now) }
    {
        let (head, _) = self.heads.as_slice().split_last()?;
        let (_, key) = self
            .bytes
            .as_slice()
            .split_at(self.bytes.len() - head.count as usize);
        Some(key_from_bytes(key))
    }

    /// Returns an iterator over the pairs, from the first one on. Each pair's key is lawful.
    pub fn iter(&self) -> Iter<'_>
        ensures pairs { result ≡ self.now }
        ensures keys { All (λ pair. IsKey pair.0) self.now }
    {
        Iter::of(self.bytes.as_slice(), self.heads.as_slice())
    }

    /// Returns these pairs, with keys that are values of their own. `AllocError` if memory is refused; no memory is needed if there is no
    /// pair.
    pub fn to_vec(&self, alloc: Global) -> Result<Vec<(Key, u64)>, AllocError>
        ensures list { IfOk result (λ list. list.items ≡ self.now) }
        ensures memory { OnErr result (self.now ≢ []) }
        ensures short { length self.now < 2 ^ 63 }
    {
        let mut list = Vec::new(alloc);
        list.reserve(self.len())?;
        let mut rest = self.iter();
        while let Some((key, value)) = rest.next_pair() {
            list.push_reserved((key, value));
        }
        Ok(list)
    }
}
