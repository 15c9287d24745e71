//! The heads of a list, with room behind them that is written already. So a head is written field by field, and no length but one changes.

ghost use Rattle.std.specs.Prelude.{◌≡◌, ◌++◌, ◌∷◌, ◌+◌, ◌<◌, ◌≤◌, ◌^◌, [], MatchOption, length, option_to_list, take};

use crate::head::PairHead;
use std::alloc::Global;
use std::marker::Model;

/// Some heads.
///
/// Contracts see a list of heads.
#[derive(Drop)]
pub(crate) struct Heads {
    /// The heads, and others behind them, which mean nothing.
    heads: Vec<PairHead>,
    /// How many there are.
    used: usize,
}

impl Model for Heads {
    ghost use Rattle.std.specs.Prelude.{List, ◌≤◌, length, take};
    ghost use Rattle.packed_pairs.specs.declared.head.PairHead.{PairHead};

    ghost Value = { List PairHead };

    ghost view = { λ h. take h.used h.heads.items };

    ghost invariant = { λ h. h.used ≤ length h.heads.items };
}

impl Heads {
    /// Returns no heads, for memory of `alloc`. They take none yet.
    pub(crate) fn new(alloc: Global) -> Heads
        ensures { result ≡ [] }
    {
        Heads {
            heads: Vec::new(alloc),
            used: 0,
        }
    }

    /// Returns how many heads there are, fewer than 2^63.
    #[inline(always)]
    pub(crate) fn len(&self) -> usize
        ensures count { result ≡ length self.now }
        ensures short { length self.now < 2 ^ 63 }
    {
        self.used
    }

    /// Returns for how many heads there is memory.
    pub(crate) fn capacity(&self) -> usize {
        self.heads.capacity()
    }

    /// Returns the heads.
    pub(crate) fn as_slice(&self) -> &[PairHead]
        ensures { result.now ≡ self.now }
    {
        &self.heads[..self.used]
    }

    /// Drops all heads from the one at `count` on. The memory stays.
    pub(crate) fn truncate(&mut self, count: usize)
        ensures { self.new ≡ take count self.old }
    {
        if count < self.used {
            self.used = count;
        }
    }

    /// Takes out the last head, and returns it; `None` if there is none. The memory stays.
    pub(crate) fn pop(&mut self) -> Option<PairHead>
        ensures items { self.old ≡ self.new ++ option_to_list result }
        ensures none { MatchOption result ((self.old ≡ []) × (self.new ≡ [])) (λ _. 0 < length self.old) }
    {
        if self.used == 0 {
            return None;
        }
        self.used -= 1;
        Some(self.heads[self.used])
    }

    /// Returns the heads with others behind them, which mean nothing, and the number of the heads.
    #[inline(always)]
    pub(crate) fn into_parts(self) -> (Vec<PairHead>, usize)
        ensures heads { take result.1 result.0.items ≡ self }
        ensures fit { result.1 ≤ length result.0.items }
    {
        let Heads { heads, used } = self;
        (heads, used)
    }

    /// Returns the first `used` of `heads`.
    #[inline(always)]
    pub(crate) fn of_parts(heads: Vec<PairHead>, used: usize) -> Heads
        requires { used ≤ length heads.items }
        ensures { result ≡ take used heads.items }
    {
        Heads { heads, used }
    }
}

/// Writes a head of `count` and `value` to `heads`, behind the first `used`. These stay.
#[inline(always)]
pub(crate) fn put_head(heads: &mut Vec<PairHead>, used: usize, count: u8, value: u64)
    requires room { used < length heads.old.items }
    ensures put { take (used + 1) heads.new.items ≡ take used heads.old.items ++ record { count = count; value = value } ∷ [] }
    ensures long { length heads.new.items ≡ length heads.old.items }
{
    let room = &mut heads[used..];
    write_first(room, count, value);
}

/// Writes `count` and `value` to the first of `room`. The head's padding stays, which a store of a whole head would write, too.
#[inline(always)]
fn write_first(room: &mut [PairHead], count: u8, value: u64)
    requires { 0 < length room.old }
    ensures first { take 1 room.new ≡ record { count = count; value = value } ∷ [] }
    ensures fits { 1 ≤ length room.new }
    ensures long { length room.new ≡ length room.old }
{
    let head = &mut room[0];
    head.count = count;
    head.value = value;
}
