//! The bytes of the keys of a list, with room behind them that is written already. So a key is copied by a few stores, and no length but
//! one changes.

ghost use Rattle.std.specs.Prelude.{◌≡◌, ◌++◌, ◌+◌, ◌≤◌, [], drop, length, take};
ghost use Rattle.key_bits.specs.declared.TheConstants.{MAX_BYTES};

use key_bits::MAX_BYTES;
use std::alloc::Global;
use std::marker::Model;

/// The bytes of some keys, one key behind the other.
///
/// Contracts see a list of bytes.
#[derive(Drop)]
pub(crate) struct KeyBytes {
    /// The bytes of the keys, and others behind them, which mean nothing.
    bytes: Vec<u8>,
    /// How many bytes the keys have.
    used: usize,
}

impl Model for KeyBytes {
    ghost use Rattle.std.specs.Prelude.{List, ℕ, ◌≤◌, length, take};

    ghost Value = { List ℕ };

    ghost view = { λ b. take b.used b.bytes.items };

    ghost invariant = { λ b. b.used ≤ length b.bytes.items };
}

impl KeyBytes {
    /// Returns no bytes, for memory of `alloc`. They take none yet.
    pub(crate) fn new(alloc: Global) -> KeyBytes
        ensures { result ≡ [] }
    {
        KeyBytes {
            bytes: Vec::new(alloc),
            used: 0,
        }
    }

    /// Returns how many bytes there are.
    #[inline(always)]
    pub(crate) fn len(&self) -> usize
        ensures { result ≡ length self.now }
    {
        self.used
    }

    /// Returns for how many bytes there is memory.
    pub(crate) fn capacity(&self) -> usize {
        self.bytes.capacity()
    }

    /// Returns where the memory comes from.
    pub(crate) fn allocator(&self) -> &Global {
        self.bytes.allocator()
    }

    /// Returns the bytes.
    pub(crate) fn as_slice(&self) -> &[u8]
        ensures { result.now ≡ self.now }
    {
        &self.bytes[..self.used]
    }

    /// Drops all bytes from byte `count` on. The memory stays.
    pub(crate) fn truncate(&mut self, count: usize)
        ensures { self.new ≡ take count self.old }
    {
        if count < self.used {
            self.used = count;
        }
    }

    /// Returns the bytes with others behind them, which mean nothing, and the number of the keys' bytes.
    #[inline(always)]
    pub(crate) fn into_parts(self) -> (Vec<u8>, usize)
        ensures bytes { take result.1 result.0.items ≡ self }
        ensures fit { result.1 ≤ length result.0.items }
    {
        let KeyBytes { bytes, used } = self;
        (bytes, used)
    }

    /// Returns the first `used` of `bytes`.
    #[inline(always)]
    pub(crate) fn of_parts(bytes: Vec<u8>, used: usize) -> KeyBytes
        requires { used ≤ length bytes.items }
        ensures { result ≡ take used bytes.items }
    {
        KeyBytes { bytes, used }
    }
}

/// Copies the first `size` bytes of `places` to `bytes`, from byte `used` on, where there is room for `MAX_BYTES` bytes. All bytes before
/// stay.
///
/// A copy whose length is known when it is compiled needs no call. So eight bytes are copied for a key of eight, and 64 for another of up
/// to 64.
#[inline(always)]
pub(crate) fn copy_key(bytes: &mut Vec<u8>, used: usize, places: &[u8; MAX_BYTES], size: usize)
    requires room { used + MAX_BYTES ≤ length bytes.old.items }
    requires fits { size ≤ MAX_BYTES }
    ensures copied { take (used + size) bytes.new.items ≡ take used bytes.old.items ++ take size places.now }
    ensures long { length bytes.new.items ≡ length bytes.old.items }
{
    let room = &mut bytes[used..];
    if size == 8 {
        copy_first::<8>(room, places, size);
    } else if size <= 64 {
        copy_first::<64>(room, places, size);
    } else {
        copy_any_length(room, places, size);
    }
}

/// Copies the first N bytes of `places` to the front of `room`, for a key of `size` bytes, no more than N. An array between the two spares
/// a test whether they overlap.
#[inline(always)]
fn copy_first<const N: usize>(room: &mut [u8], places: &[u8; MAX_BYTES], size: usize)
    requires room { MAX_BYTES ≤ length room.old }
    requires fits { N ≤ MAX_BYTES }
    requires all { size ≤ N }
    ensures copied { take size room.new ≡ take size places.now }
    ensures fits { size ≤ length room.new }
    ensures long { length room.new ≡ length room.old }
{
    let mut part = [0; N];
    part.copy_from_slice(&places[..N]);
    copy_to_front(room, &part);
}

/// Copies `key` to the front of `room`, which has room for it.
#[inline(always)]
fn copy_to_front(room: &mut [u8], key: &[u8])
    requires { length key.now ≤ length room.old }
    ensures { room.new ≡ key.now ++ drop (length key.now) room.old }
{
    room[..key.len()].copy_from_slice(key);
}

/// Copies the first `size` bytes of `places` to the front of `room`, as `copy_key` needs it for a key of any length. `room` has at least
/// `MAX_BYTES` bytes, and stays as long. Never inline, so that callers have less code.
#[inline(never)]
fn copy_any_length(room: &mut [u8], places: &[u8; MAX_BYTES], size: usize)
    requires room { MAX_BYTES ≤ length room.old }
    requires fits { size ≤ MAX_BYTES }
    ensures copied { take size room.new ≡ take size places.now }
    ensures fits { size ≤ length room.new }
    ensures long { length room.new ≡ length room.old }
{
    copy_to_front(room, &places[..size]);
}
