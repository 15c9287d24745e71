//! Byte keys of bounded length, their bits, the first bit at which two keys differ, and bits gathered into a word.
//!
//! # What carries the proof
//!
//! In contracts a key is the list of its bytes, with nine bits for each: a 1, then the byte's bits; then all are 0. So where one key ends
//! and another goes on, they differ, and the order of bits is the order of bytes. `mismatch` finds the first difference of two keys; the
//! key with a 0 there is the smaller (`less`, `greater` of `Key`'s `cmp`).
#![tactic(auto)]

ghost use Rattle.std.specs.Prelude.{[], ◌≡◌, ◌≢◌, ℕ, ◌+◌, ◌*◌, ◌≤◌, ◌<◌, ◌↔◌, ◌++◌, drop, length, replicate, take, IsTrue, IsOk, IsNone, IfOk, IfErr, IfSome, false, if◌then◌else◌};
ghost use Rattle.std.specs.Cmp.Lexicographic.{slice_cmp};
ghost use Rattle.std.specs.Int.{to_be_bytes, w64};
ghost use Rattle.std.specs.Ordering.{nat_cmp};
ghost use Rattle.key_bits.specs.Bits.{bit_of, IsFirstDifference, BytesDifferAt};
ghost use Rattle.key_bits.specs.Gather.{gathered};
ghost use Rattle.key_bits.specs.Key.{HoldsKey, IsKey, with_zeros};

use std::cmp::Ordering;
use std::hash::{Hash, Hasher};
use std::marker::Model;
use std::simd::prelude::*;

/// The most bytes that a key has. Every other bound on keys and their bits is computed from this one. The bits of a key stand at
/// positions below `9 * MAX_BYTES`, and so does the first difference of two keys.
pub const MAX_BYTES: usize = 240;

/// Why bytes are no key.
#[derive(Clone, Copy, PartialEq, Eq)]
pub enum KeyFault {
    /// There are more than `MAX_BYTES` of them.
    TooLong = 1,
}

/// A key of an ordered index: 0 to `MAX_BYTES` bytes, which lie in the value itself.
///
/// Keys are ordered by bytes, a prefix first. Contracts see a key as the list of its bytes.
#[derive(Drop)]
pub struct Key {
    // The count stands first: in a `Result` a fault then shares no byte with the key's own, so that these move in one piece.
    count: usize,
    bytes: [u8; MAX_BYTES],
}

impl Model for Key {
    ghost use Rattle.std.specs.Prelude.{List, ℕ, length, take};
    ghost use Rattle.key_bits.specs.Key.{HoldsKey, with_zeros};

    ghost Value = { List ℕ };

    ghost view = { λ k. take k.count k.bytes };

    ghost invariant = { λ k. HoldsKey k.bytes k.count };

    ghost inverse = { λ bytes. record { count = length bytes; bytes = with_zeros bytes } };

    ghost use Rattle.std.proofs.Common.{sym};

    ghost inverse_ok = { λ k h i. record { count = h.counted i; bytes = sym h.zeros i } };
}

impl Key {
    /// Returns the key of `bytes`; `Err(TooLong)` exactly if there are more than `MAX_BYTES`.
    pub fn from_bytes(bytes: &[u8]) -> Result<Key, KeyFault>
        ensures fits { IsOk result ↔ (length bytes.now ≤ MAX_BYTES) }
        ensures ok { IfOk result (λ key. key ≡ bytes.now) }
        ensures key { IfOk result IsKey }
        ensures err { IfErr result (λ fault. fault ≡ KeyFault.TooLong) }
    {
        let mut key = Key::empty();
        key.set_bytes(bytes)?;
        Ok(key)
    }

    /// Returns the key of no bytes.
    #[inline(always)]
    pub fn empty() -> Key
        ensures { result ≡ [] }
    {
        Key {
            count: 0,
            bytes: [0; MAX_BYTES],
        }
    }

    /// Makes this the key of `bytes`. `Err(TooLong)` exactly if there are more than `MAX_BYTES`; then the key stays.
    ///
    /// A key that is set in its place isn't moved. The one in the result of `Key::from_bytes` is.
    #[inline(always)]
    pub fn set_bytes(&mut self, bytes: &[u8]) -> Result<(), KeyFault>
        ensures fits { IsOk result ↔ (length bytes.now ≤ MAX_BYTES) }
        ensures ok { IsOk result → (self.new ≡ bytes.now) × IsKey self.new }
        ensures err { IfErr result (λ fault. (fault ≡ KeyFault.TooLong) × (self.new ≡ self.old)) }
    {
        if bytes.len() > MAX_BYTES {
            return Err(KeyFault::TooLong);
        }
        self.count = bytes.len();
        self.bytes = [0; MAX_BYTES];
        write_key_bytes(&mut self.bytes, bytes);
        Ok(())
    }

    /// Returns the key of the first `count` of `bytes`, at most `MAX_BYTES`. All other bytes are 0.
    pub fn from_padded(bytes: [u8; MAX_BYTES], count: usize) -> Key
        requires { HoldsKey bytes count }
        ensures { result ≡ take count bytes }
    {
        Key { count, bytes }
    }

    /// Returns the key's bytes, at most `MAX_BYTES`.
    pub fn as_bytes(&self) -> &[u8]
        ensures bytes { result.now ≡ self.now }
        ensures key { IsKey self.now }
    {
        &self.bytes[..self.count]
    }

    /// Returns the key's bytes, and 0 behind them up to `MAX_BYTES`.
    pub fn padded_bytes(&self) -> &[u8; MAX_BYTES]
        ensures bytes { result.now ≡ with_zeros self.now }
        ensures key { IsKey self.now }
    {
        &self.bytes
    }

    /// Returns a copy of the key.
    pub fn copy(&self) -> Key
        ensures same { result ≡ self.now }
        ensures key { IsKey self.now }
    {
        Key {
            count: self.count,
            bytes: self.bytes,
        }
    }

    /// Returns the bit at `position`. Byte `i` makes the nine bits from `9 * i` on: a 1, and then its own bits, the highest first. Each bit
    /// behind the last byte is 0.
    pub fn bit(&self, position: u16) -> bool
        ensures { result ≡ bit_of self.now position }
    {
        bit_of_bytes(self.as_bytes(), position) == 1
    }
}

/// Writes `bytes` to the front of `array`, which has 0 everywhere. If there are just eight bytes, as keys commonly have, or 32 and more,
/// one store writes the first 32 bytes of the array. A load of sixteen bytes would wait longer for two stores.
#[inline(always)]
fn write_key_bytes(array: &mut [u8; MAX_BYTES], bytes: &[u8])
    requires few { length bytes.now ≤ MAX_BYTES }
    requires zeros { array.old ≡ replicate MAX_BYTES 0 }
    ensures { array.new ≡ with_zeros bytes.now }
{
    if bytes.len() == 8 {
        let lanes = u8x8::from_slice(bytes).shuffle::<32>(
            u8x8::splat(0),
            [
                0, 1, 2, 3, 4, 5, 6, 7, 8, 9, 10, 11, 12, 13, 14, 15, 8, 9, 10, 11, 12, 13, 14, 15,
                8, 9, 10, 11, 12, 13, 14, 15,
            ],
        );
        lanes.copy_to_slice(array);
    } else if bytes.len() >= 32 {
        u8x32::from_slice(bytes).copy_to_slice(array);
        array[32..bytes.len()].copy_from_slice(&bytes[32..]);
    } else {
        array[..bytes.len()].copy_from_slice(bytes);
    }
}

impl PartialEq for Key {
    ghost use Rattle.std.specs.Prelude.{◌≡◌, ◌↔◌, IsTrue, nat_eq};
    ghost use Rattle.std.specs.Cmp.{partial_equiv_from_equiv};
    ghost use Rattle.std.specs.Cmp.Lexicographic.{pointwise, nat_list_eq_equiv};

    ghost eq = { pointwise nat_eq };

    ghost laws = { partial_equiv_from_equiv nat_list_eq_equiv };

    /// Returns whether both keys have the same bytes.
    fn eq(&self, other: &Key) -> bool
        ensures same { IsTrue result ↔ (self.now ≡ other.now) }
        ensures pointwise { result ≡ pointwise nat_eq self.now other.now }
    {
        self.as_bytes() == other.as_bytes()
    }
}

impl Eq for Key {
    ghost use Rattle.std.specs.Cmp.Lexicographic.{nat_list_eq_equiv};

    ghost laws = { nat_list_eq_equiv };
}

impl PartialOrd for Key {
    ghost use Rattle.std.specs.Prelude.{Some};
    ghost use Rattle.std.specs.Cmp.Lexicographic.{slice_cmp, texts_po};
    ghost use Rattle.std.specs.Ordering.{nat_cmp};

    ghost partial_cmp = { λ a b. Some (slice_cmp nat_cmp a b) };

    ghost laws = { texts_po };

    /// Returns the order of the two keys by bytes. Each two keys have one: it is never `None`.
    fn partial_cmp(&self, other: &Key) -> Option<Ordering> {
        Some(self.cmp(other))
    }
}

impl Ord for Key {
    ghost use Rattle.std.specs.Prelude.{◌≡◌, ℕ, ◌↔◌, refl, false, true};
    ghost use Rattle.std.specs.Cmp.Lexicographic.{slice_cmp, nat_list_cmp_total, texts_ties};
    ghost use Rattle.std.specs.Ordering.{nat_cmp};
    ghost use Rattle.key_bits.specs.Bits.{bit_of, IsFirstDifference};

    ghost cmp = { slice_cmp nat_cmp };

    ghost total = { nat_list_cmp_total };

    ghost matches_partial_cmp = { λ a b. refl };

    ghost matches_eq = { texts_ties };

    /// Returns the order of the two keys by bytes, a prefix first. It is also their order by bits.
    fn cmp(&self, other: &Key) -> Ordering
        ensures bytes { result ≡ slice_cmp nat_cmp self.now other.now }
        ensures equal { (result ≡ Ordering.Equal) ↔ (self.now ≡ other.now) }

        // Of two distinct keys the one with 0 at the first differing bit is the smaller.
        ensures less { (p : ℕ) → IsFirstDifference self.now other.now p → (result ≡ Ordering.Less) ↔ (bit_of self.now p ≡ false) }
        ensures greater { (p : ℕ) → IsFirstDifference self.now other.now p → (result ≡ Ordering.Greater) ↔ (bit_of self.now p ≡ true) }
    {
        self.as_bytes().cmp(other.as_bytes())
    }
}

impl Hash for Key {
    ghost use Rattle.std.specs.Hash as fed;
    ghost use Rattle.std.specs.Cmp.Rules.{hashing};
    ghost use Rattle.std.proofs.Common.{rules};

    ghost hash_input = { fed.slice fed.u8 };

    ghost respects_eq = { Prim.search (hashing, rules) };

    /// Feeds the key's bytes to `state`, as a slice of bytes does.
    fn hash<H: Hasher>(&self, state: &mut H) {
        self.as_bytes().hash(state);
    }
}

/// Returns the first position at which the bits of `a` and `b` differ, below `9 * MAX_BYTES`; `None` exactly for equal keys.
pub fn mismatch(a: &Key, b: &Key) -> Option<u16>
    ensures none { IsNone result ↔ (a.now ≡ b.now) }
    ensures first { IfSome result (IsFirstDifference a.now b.now) }
    ensures bound { IfSome result (λ p. p < 9 * MAX_BYTES) }

    // The key with 0 there is the smaller one.
    ensures order { IfSome result (λ p. (slice_cmp nat_cmp a.now b.now ≡ Ordering.Less) ↔ (bit_of a.now p ≡ false)) }
    ensures keys { IsKey a.now × IsKey b.now }
{
    mismatch_of_bytes(a.as_bytes(), b.as_bytes())
}

/// Returns the first position at which the keys of the bytes `xs` and `ys` differ, below `9 * MAX_BYTES`; `None` exactly for equal keys.
/// The key with 0 there is the smaller one. Both have at most `MAX_BYTES` bytes.
pub fn mismatch_of_bytes(xs: &[u8], ys: &[u8]) -> Option<u16>
    requires { IsKey xs.now × IsKey ys.now }
    ensures none { IsNone result ↔ (xs.now ≡ ys.now) }
    ensures first { IfSome result (IsFirstDifference xs.now ys.now) }
    ensures bound { IfSome result (λ p. p < 9 * MAX_BYTES) }
    ensures order { IfSome result (λ p. (slice_cmp nat_cmp xs.now ys.now ≡ Ordering.Less) ↔ (bit_of xs.now p ≡ false)) }
{
    let common = xs.len().min(ys.len());
    let begin = 8 * count_same_eights(xs, ys, common / 8);
    for i in begin..common {
        if xs[i] != ys[i] {
            return Some(9 * i as u16 + 1 + byte_mismatch(xs[i], ys[i]) as u16);
        }
    }
    if xs.len() == ys.len() {
        None
    } else {
        Some(9 * common as u16)
    }
}

/// Returns how many groups of eight bytes are the same in `xs` and `ys`, before the first group that differs; at most `count`.
fn count_same_eights(xs: &[u8], ys: &[u8], count: usize) -> usize
    requires { (8 * count ≤ length xs.now) × (8 * count ≤ length ys.now) }
    ensures few { result ≤ count }
    ensures same { take (8 * result) xs.now ≡ take (8 * result) ys.now }
    ensures next { result < count → take 8 (drop (8 * result) xs.now) ≢ take 8 (drop (8 * result) ys.now) }
{
    for j in 0..count {
        if eight_bytes_at(xs, j) != eight_bytes_at(ys, j) {
            return j;
        }
    }
    count
}

/// Returns the eight bytes from byte `8 * j` on as a number, whose highest byte is the first of them. `j` counts groups of eight bytes from
/// 0.
#[inline(always)]
fn eight_bytes_at(bytes: &[u8], j: usize) -> u64
    requires { 8 * j + 8 ≤ length bytes.now }
    ensures { to_be_bytes w64 result ≡ take 8 (drop (8 * j) bytes.now) }
{
    let mut eight = [0; 8];
    eight.copy_from_slice(&bytes[8 * j..8 * j + 8]);
    u64::from_be_bytes(eight)
}

/// Returns how many bits, from the highest on, stand before the first in which the bytes `x` and `y` differ: 0 to 7. The two differ, and
/// the smaller one has 0 there.
fn byte_mismatch(x: u8, y: u8) -> u32
    requires { x ≢ y }
    ensures bound { result < 8 }
    ensures first { BytesDifferAt x y result }
{
    (x ^ y).leading_zeros()
}

/// Returns the bits of `key` at `positions`, at most 31: bit `31 - j` is the one at `positions[j]`. All lower bits are 0.
pub fn extract(key: &Key, positions: &[u16]) -> u32
    requires { length positions.now ≤ 31 }
    ensures { result ≡ gathered (bit_of key.now) positions.now }
{
    let bytes = key.as_bytes();
    let mut bits = 0;
    for position in positions {
        bits = bits << 1 | bit_of_bytes(bytes, *position);
    }
    // Two shifts, since one shift by all 32 bits is not allowed.
    bits << (31 - positions.len()) << 1
}

/// Returns the bit at `position` of the key of `bytes`, as 0 or 1. Each byte has nine positions, as `Key::bit` says: its bits there are
/// those of 256 plus the byte, the highest first. Behind the last byte each bit is 0.
fn bit_of_bytes(bytes: &[u8], position: u16) -> u32
    ensures { result ≡ (if bit_of bytes.now position then 1 else 0) }
{
    let position = position as u32;
    let byte_index = position / 9;
    match bytes.get(byte_index as usize) {
        Some(byte) => (256 + *byte as u32) >> (9 * byte_index + 8 - position) & 1,
        None => 0,
    }
}
