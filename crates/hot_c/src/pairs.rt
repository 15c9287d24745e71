//! The pairs of a scan as a program in C has them: in an array, or one at a place of its own.

ghost use Rattle.std.specs.Prelude.{◌≡◌, ◌+◌, ◌≤◌, length, drop, reverse, slice_get};
ghost use Rattle.hot_c.specs.Orders.{direction_of, in_order};
ghost use Rattle.hot_c.specs.Pairs.{HoldPairs, IsPairTold, HoldsPair};
ghost use Rattle.key_bits.specs.Key.{IsKey};

use crate::status::{ABSENT, FOUND};
use hot_index::Direction;
use key_bits::MAX_BYTES;
use packed_pairs::Pairs;

/// A key with its value. The key is the first `length` bytes.
#[repr(C)]
pub struct Pair {
    pub key: [u8; MAX_BYTES],
    pub length: u32,
    pub value: u64,
}

/// Which pairs of a range are listed where there is no room for all, and in which order.
#[derive(Clone, Copy)]
pub enum Order {
    /// The first ones, in rising order.
    Upwards,
    /// The last ones, in falling order.
    Downwards,
    /// The last ones, in rising order.
    LastUpwards,
}

impl Order {
    /// Returns the direction in which a scan finds the pairs of this order.
    pub fn direction(self) -> Direction
        ensures { result ≡ direction_of self }
    {
        match self {
            Order::Upwards => Direction::Upwards,
            Order::Downwards | Order::LastUpwards => Direction::Downwards,
        }
    }
}

/// Which pairs a scan is asked for: those with keys from one to another, both included, in this order.
#[derive(Drop)]
pub struct Query<'a> {
    pub order: Order,
    pub from: &'a [u8],
    pub upto: &'a [u8],
}

/// Writes `pairs`, in the order in which a scan for `order` has found them, to the front of `room`, which must have room for all. For
/// `LastUpwards` they are written in the opposite order, since such a scan finds the last pairs downwards. The places behind them stay.
pub fn write_pairs_in_order(order: Order, pairs: &Pairs, room: &mut [Pair])
    requires { length pairs.now ≤ length room.old }
    ensures written { HoldPairs (in_order order pairs.now) room.old room.new }
    ensures others { drop (length pairs.now) room.new ≡ drop (length pairs.now) room.old }
{
    match order {
        Order::Upwards | Order::Downwards => write_pairs(pairs, room),
        Order::LastUpwards => write_pairs_backwards(pairs, room),
    }
}

/// Writes `pairs` to the front of `room`, which must have room for all, the first one first. The places behind them stay.
fn write_pairs(pairs: &Pairs, room: &mut [Pair])
    requires { length pairs.now ≤ length room.old }
    ensures written { HoldPairs pairs.now room.old room.new }
    ensures others { drop (length pairs.now) room.new ≡ drop (length pairs.now) room.old }
{
    for (place, (key, value)) in pairs.iter().enumerate() {
        write_pair(key, value, &mut room[place]);
    }
}

/// Writes `pairs` to the front of `room`, which must have room for all, the last one first. The places behind them stay.
fn write_pairs_backwards(pairs: &Pairs, room: &mut [Pair])
    requires { length pairs.now ≤ length room.old }
    ensures written { HoldPairs (reverse pairs.now) room.old room.new }
    ensures others { drop (length pairs.now) room.new ≡ drop (length pairs.now) room.old }
{
    for (place, (key, value)) in pairs.iter().rev().enumerate() {
        write_pair(key, value, &mut room[place]);
    }
}

/// Writes `key`, its length and `value` to `pair`; the bytes behind the key stay. The key must have at most 240 bytes.
fn write_pair(key: &[u8], value: u64, pair: &mut Pair)
    requires { IsKey key.now }
    ensures { HoldsPair (key.now, value) pair.old pair.new }
{
    // The common lengths are copied through arrays: such a copy needs no call and no test for overlap.
    match key.len() {
        8 => {
            let mut eight = [0; 8];
            eight.copy_from_slice(&key[..8]);
            pair.key[..8].copy_from_slice(&eight);
            pair.length = 8;
            pair.value = value;
        }
        16..=31 => write_pair_by_ends::<16>(key, value, pair),
        32..=64 => write_pair_by_ends::<32>(key, value, pair),
        _ => write_pair_of_any_length(key, value, pair),
    }
}

/// Writes `key`, its length and `value` to `pair`; the bytes behind the key stay. The key must have N to 2 N bytes, and at most 240.
fn write_pair_by_ends<const N: usize>(key: &[u8], value: u64, pair: &mut Pair)
    requires key { IsKey key.now }
    requires covered { (N ≤ length key.now) × (length key.now ≤ N + N) }
    ensures { HoldsPair (key.now, value) pair.old pair.new }
{
    // The first N bytes and the last N may overlap. One array holds both in turn: with two they would go through memory.
    let last = key.len() - N;
    let mut part = [0; N];
    part.copy_from_slice(&key[..N]);
    pair.key[..N].copy_from_slice(&part);
    part.copy_from_slice(&key[last..]);
    pair.key[last..key.len()].copy_from_slice(&part);
    pair.length = key.len() as u32;
    pair.value = value;
}

/// Writes `key`, its length and `value` to `pair`; the bytes behind the key stay. The key may have any length up to 240 bytes.
// Not inline, so that a loop over pairs needs few registers.
#[inline(never)]
fn write_pair_of_any_length(key: &[u8], value: u64, pair: &mut Pair)
    requires { IsKey key.now }
    ensures { HoldsPair (key.now, value) pair.old pair.new }
{
    pair.key[..key.len()].copy_from_slice(key);
    pair.length = key.len() as u32;
    pair.value = value;
}

/// Writes the first of `pairs` to `pair`, and returns `FOUND`. If there is none, it returns `ABSENT`, and `pair` stays.
pub fn write_first_pair(pairs: &Pairs, pair: &mut Pair) -> u32
    ensures { IsPairTold (slice_get pairs.now 0) pair.old pair.new result }
{
    match pairs.iter().next() {
        Some((key, value)) => {
            write_pair(key, value, pair);
            FOUND
        }
        None => ABSENT,
    }
}
