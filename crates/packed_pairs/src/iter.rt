//! The pairs of a list, one after another.

ghost use Rattle.std.specs.Prelude.{◌≡◌};
ghost use Rattle.std.specs.Iterator.{YieldsFirst};
ghost use Rattle.key_bits.specs.Key.{IsKey};
ghost use Rattle.packed_pairs.specs.Packed.{ArePacked, unpacked};

use crate::head::PairHead;
use key_bits::{Key, MAX_BYTES};
use std::marker::Model;

/// An iterator over the pairs of a list that are left: the bytes of each key, and its value.
#[derive(Drop)]
pub struct Iter<'a> {
    pub(crate) bytes: &'a [u8],
    pub(crate) heads: &'a [PairHead],
}

impl<'a> Model for Iter<'a> {
    ghost use Rattle.std.specs.Prelude.{List, ℕ};
    ghost use Rattle.packed_pairs.specs.Packed.{unpacked, ArePacked};

    ghost Value = { List (List ℕ × ℕ) };

    ghost view = { λ i. unpacked i.heads.now i.bytes.now };

    ghost invariant = { λ i. ArePacked i.heads.now i.bytes.now };
}

impl<'a> Iter<'a> {
    /// Returns an iterator over the pairs of `heads`. `bytes` are the bytes of their keys, one key behind the other, and no others.
    pub(crate) fn of(bytes: &'a [u8], heads: &'a [PairHead]) -> Iter<'a>
        requires { ArePacked heads.now bytes.now }
        ensures { result ≡ unpacked heads.now bytes.now }
    {
        Iter { bytes, heads }
    }

    /// Returns the next pair, with a key that is a value of its own; `None` if no pair is left. Inline, so that the key is made where it
    /// stays.
    #[inline(always)]
    pub(crate) fn next_pair(&mut self) -> Option<(Key, u64)>
        ensures { YieldsFirst (λ i. i) self.old result self.new }
    {
        let (head, heads) = self.heads.split_first()?;
        let (key, bytes) = self.bytes.split_at(head.count as usize);
        self.heads = heads;
        self.bytes = bytes;
        Some((key_from_bytes(key), head.value))
    }
}

/// Returns the key of `bytes`, at most `MAX_BYTES`. Inline, as its caller is.
#[inline(always)]
pub(crate) fn key_from_bytes(bytes: &[u8]) -> Key
    requires { IsKey bytes.now }
    ensures { result ≡ bytes.now }
{
    let mut places = [0; MAX_BYTES];
    places[..bytes.len()].copy_from_slice(bytes);
    Key::from_padded(places, bytes.len())
}

impl<'a> Iterator for Iter<'a> {
    ghost use Rattle.std.specs.Iterator.{YieldsFirstBy, item_count};
    ghost use Rattle.packed_pairs.specs.Packed.{pair_of};

    type Item = (&'a [u8], u64);

    ghost next_gives = { YieldsFirstBy pair_of (λ i. i) };

    ghost remaining = { item_count (λ i. i) };

    /// Returns the next pair, its key as bytes of the list; `None` if no pair is left.
    #[inline(always)]
    fn next(&mut self) -> Option<(&'a [u8], u64)> {
        let (head, heads) = self.heads.split_first()?;
        let (key, bytes) = self.bytes.split_at(head.count as usize);
        self.heads = heads;
        self.bytes = bytes;
        Some((key, head.value))
    }
}
