//! The status of a refused call.

ghost use Rattle.std.specs.Prelude.{◌↔◌, IsTrue};
ghost use Rattle.hot_index_calls.specs.Refusals.{OfLeaves};
ghost use Rattle.hot_c.specs.Refusals.{HasNoRecord, TellsOfLeaves, TellsRefusal};

use crate::status::{BUSY, FULL_LEAVES, FULL_NODES, HELD_BACK, KEY_TOO_LONG};
use hot_index::{Full, RecordCounts, Refusal, StateCounts};
use record_words::{LARGE_BYTES, MEDIUM_BYTES, SHORT_BYTES, WIDE_BYTES};

/// Returns the status that tells why a call for a key of `size` bytes was refused with `refusal`: `BUSY`, `HELD_BACK`, `FULL_NODES` or
/// `FULL_LEAVES`. In place of `FULL_LEAVES` it is `KEY_TOO_LONG` if the index has no leaf record with room for such a key.
pub fn tell_refusal(size: usize, refusal: Refusal) -> u32
    ensures { TellsRefusal size refusal result }
{
    match refusal {
        Refusal::Busy => BUSY,
        Refusal::HeldBack(_) => HELD_BACK,
        Refusal::Full(Full::Nodes, _) => FULL_NODES,
        Refusal::Full(Full::Leaves, counts) => tell_lack_of_leaves(size, &counts),
    }
}

/// Returns the status of a call that found no leaf record free for a key of `size` bytes. It is `KEY_TOO_LONG` if by `counts`, made after
/// the call, there is no leaf record with room for the key at all, else `FULL_LEAVES`.
fn tell_lack_of_leaves(size: usize, counts: &RecordCounts) -> u32
    ensures { TellsOfLeaves size counts.now result }
{
    if has_no_leaf_for(size, counts) {
        KEY_TOO_LONG
    } else {
        FULL_LEAVES
    }
}

/// Returns whether `counts`, which are those of one kind and class, count no record at all.
fn has_no_record(counts: &StateCounts) -> bool
    ensures { IsTrue result ↔ HasNoRecord counts.now }
{
    counts.free == 0
        && counts.held == 0
        && counts.live == 0
        && counts.obsolete == 0
        && counts.uncommitted == 0
}

/// Returns whether `counts` count no leaf record at all with room for a key of `size` bytes.
fn has_no_leaf_for(size: usize, counts: &RecordCounts) -> bool
    ensures { IsTrue result ↔ OfLeaves HasNoRecord size counts.now }
{
    (size > SHORT_BYTES || has_no_record(&counts.short))
        && (size > MEDIUM_BYTES || has_no_record(&counts.medium))
        && (size > LARGE_BYTES || has_no_record(&counts.large))
        && (size > WIDE_BYTES || has_no_record(&counts.wide))
        && has_no_record(&counts.long)
}
