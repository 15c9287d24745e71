//! In which order a scan passes slots and keys, by its direction. In a node, gap `i` is before the entry in slot `i`, and the last gap
//! behind all entries.

ghost use Rattle.std.specs.Prelude.{◌≡◌, ◌+◌, ◌<◌, ◌≤◌, ℕ, IsTrue, false};
ghost use Rattle.key_bits.specs.Key.{IsKey};
ghost use Rattle.rowex_scanning.specs.Ahead.{AreSlots};
ghost use Rattle.tries.specs.Keys.{IsAtMost, IsBefore};
ghost use Rattle.packed_pairs.specs.declared.direction.Direction.{Direction as Way};
ghost use Rattle.version_laws.specs.Directions.{IsEarlier, IsNoLater};
ghost use Rattle.version_laws.specs.Directions.{gap_behind as gap_behind_of, first_gap as first_gap_of, gap_after as gap_after_of, place_ahead as place_ahead_of, to_come as to_come_of};

use insert_cases::PathNode;
use packed_pairs::Direction;

/// Returns how many entries are to come in the node `top`, for a walk in the direction `direction` that stands at its gap `top.slot`.
#[inline(always)]
pub(crate) fn entries_to_come(direction: Direction, top: &PathNode) -> u8
    requires { top.now.slot ≤ top.now.count }
    ensures { result ≡ to_come_of direction top.now.count top.now.slot }
{
    match direction {
        Direction::Upwards => top.count - top.slot,
        Direction::Downwards => top.slot,
    }
}

/// Returns the gap at which a walk in the direction `direction` stands in the node `top` after the next `entries` entries. At least so many
/// are to come.
#[inline(always)]
pub(crate) fn gap_after_entries(direction: Direction, top: PathNode, entries: u8) -> u8
    requires fits { top.slot ≤ top.count }
    requires come { entries ≤ to_come_of direction top.count top.slot }
    ensures { result ≡ gap_after_of direction top.slot entries }
{
    match direction {
        Direction::Upwards => top.slot + entries,
        Direction::Downwards => top.slot - entries,
    }
}

/// Returns the slot in the node `top` of the entry that comes after the next `entries` ones, for a walk in the direction `direction`. More
/// than these are to come.
#[inline(always)]
pub(crate) fn slot_ahead(direction: Direction, top: PathNode, entries: u8) -> u8
    requires fits { top.slot ≤ top.count }
    requires come { entries < to_come_of direction top.count top.slot }
    ensures { result ≡ place_ahead_of direction top.slot entries }
{
    match direction {
        Direction::Upwards => top.slot + entries,
        Direction::Downwards => top.slot - entries - 1,
    }
}

/// The slots of a node's entries, one after another as a walk comes to them. A step leads from each to the next one, modulo 256, so that a
/// loop over them never asks for the direction.
#[derive(Drop)]
pub(crate) struct Slots {
    /// The slot of the next entry, if one is to come.
    next: u8,
    /// What is added to a slot for the one behind: 1 upwards, and 255 downwards.
    step: u8,
}

impl Slots {
    /// Returns the slots of the entries that are to come in the node `top`, one at least, for a walk in the direction `direction`.
    #[inline(always)]
    pub(crate) fn to_come(direction: Direction, top: PathNode) -> Slots
        requires fits { top.slot ≤ top.count }
        requires come { 0 < to_come_of direction top.count top.slot }
        ensures { AreSlots direction top.count top.slot 0 result }
    {
        match direction {
            Direction::Upwards => Slots {
                next: top.slot,
                step: 1,
            },
            Direction::Downwards => Slots {
                next: top.slot - 1,
                step: 255,
            },
        }
    }

    /// Returns the slot of the next entry, and goes on to the one behind. It is a slot of the node only as long as an entry is to come.
    #[inline(always)]
    pub(crate) fn next_slot(&mut self) -> u8
        ensures { (direction : Way) (count gap entries : ℕ) → entries < to_come_of direction count gap → AreSlots direction count gap entries self.old →
            (result ≡ place_ahead_of direction gap entries) × AreSlots direction count gap (entries + 1) self.new }
    {
        let slot = self.next;
        self.next = slot.wrapping_add(self.step);
        slot
    }
}

/// Returns the gap at which a walk in the direction `direction` stands after the entry in `slot`.
#[inline(always)]
pub(crate) fn gap_behind_slot(direction: Direction, slot: u8) -> u8
    requires { slot < 32 }
    ensures { result ≡ gap_behind_of direction slot }
{
    match direction {
        Direction::Upwards => slot + 1,
        Direction::Downwards => slot,
    }
}

/// Returns the gap at which a walk in the direction `direction` enters a node of `count` entries: all of them are to come.
#[inline(always)]
pub(crate) fn first_gap(direction: Direction, count: u8) -> u8
    ensures { result ≡ first_gap_of direction count }
{
    match direction {
        Direction::Upwards => 0,
        Direction::Downwards => count,
    }
}

/// Returns whether a scan in the direction `direction` comes to the key with the bytes `first` before that with the bytes `second`. `false`
/// if they are one key.
#[inline(always)]
pub(crate) fn is_earlier_key(direction: Direction, first: &[u8], second: &[u8]) -> bool
    requires keys { IsKey first.now × IsKey second.now }
    ensures earlier { IsTrue result → IsEarlier direction first.now second.now }
    ensures no_later { result ≡ false → IsNoLater direction second.now first.now }
{
    match direction {
        Direction::Upwards => is_key_before(first, second),
        Direction::Downwards => is_key_before(second, first),
    }
}

/// Returns whether the key with the bytes `first` is before that with the bytes `second`. The order of keys is that of their first
/// different bit; their first different byte gives the same order. `false` if they are one key.
pub(crate) fn is_key_before(first: &[u8], second: &[u8]) -> bool
    requires keys { IsKey first.now × IsKey second.now }
    ensures before { IsTrue result → IsBefore first.now second.now }
    ensures at_most { result ≡ false → IsAtMost second.now first.now }
{
    first.cmp(second).is_lt()
}
