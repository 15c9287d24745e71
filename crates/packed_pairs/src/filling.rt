//! A list while it is filled. Room is made for several pairs at once, and then each is added without a test.

ghost use Rattle.std.specs.Prelude.{◌≡◌, ◌++◌, ◌∷◌, ◌+◌, ◌*◌, ◌<◌, ◌≤◌, [], IsTrue, OnErr, OnOk, length, take};
ghost use Rattle.std.specs.Vec.{vec_capacity, vec_len};
ghost use Rattle.key_bits.specs.Key.{IsKey};
ghost use Rattle.key_bits.specs.declared.TheConstants.{MAX_BYTES};

use crate::head::PairHead;
use crate::heads::{Heads, put_head};
use crate::keys::{KeyBytes, copy_key};
use crate::pairs::Pairs;
use key_bits::MAX_BYTES;
use std::alloc::AllocError;
use std::marker::Model;
use std::mem;

/// The pairs of a list while it is filled, with the list's memory. A value of its own, and no reference to the list, stays in registers
/// while a walk fills it.
///
/// Contracts see the pairs, and for how many more it has room.
#[derive(Drop)]
pub struct Filling {
    bytes: Vec<u8>,
    used: usize,
    heads: Vec<PairHead>,
    count: usize,
    room: usize,
}

impl Model for Filling {
    ghost use Rattle.std.specs.Prelude.{◌≤◌, ◌+◌, ◌*◌, length, take};
    ghost use Rattle.std.specs.Vec.{vec_capacity, vec_len};
    ghost use Rattle.key_bits.specs.declared.TheConstants.{MAX_BYTES};
    ghost use Rattle.packed_pairs.specs.Packed.{ArePacked, unpacked};
    ghost use Rattle.packed_pairs.specs.Filled.{Filled};

    ghost Value = { Filled };

    ghost view = { λ f. record { pairs = unpacked (take f.count f.heads.items) (take f.used f.bytes.items); room = f.room } };

    ghost invariant = { λ f. ArePacked (take f.count f.heads.items) (take f.used f.bytes.items) × (f.used + MAX_BYTES * f.room ≤ length f.bytes.items)
        × (f.count + f.room ≤ length f.heads.items) };
}

impl Filling {
    /// Takes the pairs of `pairs` with their memory, and returns them. `pairs` has none then.
    #[inline(always)]
    pub fn take(pairs: &mut Pairs) -> Filling
        ensures pairs { result.pairs ≡ pairs.old }
        ensures none { pairs.new ≡ [] }
    {
        let empty = Pairs::new(*pairs.bytes.allocator());
        let Pairs { bytes, heads } = mem::replace(pairs, empty);
        let (bytes, used) = bytes.into_parts();
        let (heads, count) = heads.into_parts();
        Filling {
            bytes,
            used,
            heads,
            count,
            room: 0,
        }
    }

    /// Puts the pairs and their memory back into `pairs`, in place of what is there.
    #[inline(always)]
    pub fn put_back(self, pairs: &mut Pairs)
        ensures { pairs.new ≡ self.pairs }
    {
        let Filling {
            bytes,
            used,
            heads,
            count,
            room: _,
        } = self;
        let bytes = KeyBytes::of_parts(bytes, used);
        let heads = Heads::of_parts(heads, count);
        *pairs = Pairs { bytes, heads };
    }

    /// Returns how many pairs there are.
    #[inline(always)]
    pub fn len(&self) -> usize
        ensures { result ≡ length self.now.pairs }
    {
        self.count
    }

    /// Takes out all pairs. The memory stays.
    #[inline(always)]
    pub fn clear(&mut self)
        ensures { self.new.pairs ≡ [] }
    {
        self.used = 0;
        self.count = 0;
    }

    /// Makes room for `count` more pairs, at most 32, and for no others. `AllocError` if memory is refused, which is asked for only if
    /// `count` isn't 0. The pairs stay in any case.
    #[inline(always)]
    pub fn reserve(&mut self, count: usize) -> Result<(), AllocError>
        requires { count ≤ 32 }
        ensures pairs { self.new.pairs ≡ self.old.pairs }
        ensures room { OnOk result (self.new.room ≡ count) }
        ensures some { OnErr result (0 < count) }
    {
        self.room = 0;
        let alloc = *self.heads.allocator();
        if self.heads.len() - self.count < count {
            let (heads, has_room) = add_heads_room(
                mem::replace(&mut self.heads, Vec::new(alloc)),
                self.count,
                count,
            );
            self.heads = heads;
            if !has_room {
                return Err(AllocError);
            }
        }
        if self.bytes.len() - self.used < MAX_BYTES * count {
            let bytes = mem::replace(&mut self.bytes, Vec::new(alloc));
            let (bytes, has_room) = add_bytes_room(bytes, self.used, MAX_BYTES * count);
            self.bytes = bytes;
            if !has_room {
                return Err(AllocError);
            }
        }
        self.room = count;
        Ok(())
    }

    /// Adds a pair at the end. There is room for it, and for one pair less afterwards. Its key has the first `length` bytes of `places`,
    /// and its value is `value`.
    #[inline(always)]
    pub fn push(&mut self, places: &[u8; MAX_BYTES], length: usize, value: u64)
        requires key { IsKey (take length places.now) }
        requires fits { length ≤ MAX_BYTES }
        requires room { 0 < self.old.room }
        ensures pairs { self.new.pairs ≡ self.old.pairs ++ (take length places.now, value) ∷ [] }
        ensures room { self.new.room + 1 ≡ self.old.room }
    {
        copy_key(&mut self.bytes, self.used, places, length);
        self.used += length;
        put_head(&mut self.heads, self.count, length as u8, value);
        self.count += 1;
        self.room -= 1;
    }
}

/// Returns `heads` with room for `count` more behind the first `used`, which stay, and whether memory was there for it. Never inline, so
/// that callers have less code; and by value, so that a caller's list still lies in registers.
#[inline(never)]
fn add_heads_room(mut heads: Vec<PairHead>, used: usize, count: usize) -> (Vec<PairHead>, bool)
    requires { used ≤ length heads.items }
    ensures same { take used result.0.items ≡ take used heads.items }
    ensures long { used ≤ length result.0.items }
    ensures room { IsTrue result.1 → used + count ≤ length result.0.items }
{
    if heads.reserve(count).is_err() {
        return (heads, false);
    }
    let all = heads.capacity();
    let none = PairHead { count: 0, value: 0 };
    let has_room = heads.resize(all, none).is_ok();
    (heads, has_room)
}

/// Returns `bytes` with room for `count` more behind the first `used`, which stay, and whether memory was there for it. Never inline, so
/// that callers have less code; and by value, so that a caller's list still lies in registers.
#[inline(never)]
fn add_bytes_room(mut bytes: Vec<u8>, used: usize, count: usize) -> (Vec<u8>, bool)
    requires { used ≤ length bytes.items }
    ensures same { take used result.0.items ≡ take used bytes.items }
    ensures long { used ≤ length result.0.items }
    ensures room { IsTrue result.1 → used + count ≤ length result.0.items }
{
    if bytes.reserve(count).is_err() {
        return (bytes, false);
    }
    let all = bytes.capacity();
    let has_room = bytes.resize(all, 0).is_ok();
    (bytes, has_room)
}
