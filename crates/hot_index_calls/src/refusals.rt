//! Why a change is refused that found no record free: by a count of all committed records, made after its try was undone.

ghost use Rattle.std.specs.Prelude.{◌≡◌, ◌↔◌, ◌∷◌, [], IfSome, IsTrue, None, length};
ghost use Rattle.rowex_writing.specs.declared.attempts.TryFault.TheVariants.{Busy};
ghost use Rattle.rowex_writing.specs.build.Walks.{nodes_among};
ghost use Rattle.hot_index_calls.specs.Answers.{fault_of};
ghost use Rattle.hot_index_calls.specs.Refusals.{AreLeavesShort, AreShort, AreShortFrom, IsPassing, IsShortOf, IsRefusalByCounts};
ghost use Rattle.hot_index_calls.specs.declared.census.RecordCounts.{RecordCounts as CountsView};
ghost use Rattle.hot_index_calls.specs.declared.refusals.Refusal.TheVariants.{Full as IsFull};

use crate::census::{RecordCounts, StateCounts};
use record_words::{LARGE_BYTES, MEDIUM_BYTES, SHORT_BYTES, WIDE_BYTES};
use rowex_core::Rec;
use rowex_writing::{Full, TryFault};

/// Why a change was refused that doesn't wait. Where a try finds no record free, a count of all committed records decides between the last two.
/// Nothing has changed then.
#[derive(Clone, Copy)]
pub enum Refusal {
    /// Another pass was in the way of the try.
    Busy,
    /// No record of the kind was free. But by the count one may come back: another pass has claimed one, or one is retired, or enough are
    /// free now. For a removal with several passes it needs no count: insertions leave a node record for removals, and another call has
    /// that record, or keeps it retired.
    HeldBack(Full),
    /// No record of the kind was free. By the count fewer are free than the change needs, and none may come back; or the index has one
    /// pass.
    Full(Full, RecordCounts),
}

/// Returns the refusal of a try that found no record of the kind `lacks` free, by `counts`, which were made after it. The try needs `needs`
/// node records, or one leaf record with room for a key of `size` bytes. `passes` is the number of passes of the index. If it is 1, or
/// `counts` show too few records and none that may come back, the refusal is `Full`. Else it is `HeldBack`.
pub(crate) fn judge_lack(
    passes: u32,
    lacks: Full,
    needs: usize,
    size: usize,
    counts: RecordCounts,
) -> Refusal
    ensures { IsRefusalByCounts passes lacks needs size counts result }
{
    if passes == 1 || is_short_of(lacks, needs, size, &counts) {
        Refusal::Full(lacks, counts)
    } else {
        Refusal::HeldBack(lacks)
    }
}

/// Returns the kind of record that a try with the fault `fault` lacked; `None` if the try was busy.
pub(crate) fn lack_of(fault: TryFault) -> Option<Full>
    ensures some { IfSome result (λ full. fault ≡ fault_of full) }
    ensures none { result ≡ None → fault ≡ Busy }
{
    match fault {
        TryFault::FullNodes => Some(Full::Nodes),
        TryFault::FullLeaves => Some(Full::Leaves),
        TryFault::Busy => None,
    }
}

/// Returns the kind of record with which a waiting call is refused, when one of its tries was refused with `refusal`. `None` if the call
/// tries again, since the try was busy or held back.
pub(crate) fn final_refusal(refusal: Refusal) -> Option<Full>
    ensures some { IfSome result (λ full. (counts : CountsView) × (refusal ≡ IsFull full counts)) }
    ensures none { result ≡ None → IsPassing refusal }
{
    match refusal {
        Refusal::Full(full, _) => Some(full),
        Refusal::Busy | Refusal::HeldBack(_) => None,
    }
}

/// Returns how many of the records `recs` are node records.
pub(crate) fn count_node_records(recs: &[Rec]) -> usize
    ensures { result ≡ length (nodes_among recs.now) }
{
    let mut count = 0;
    for index in 0..recs.len() {
        count += count_if_node(recs[index]);
    }
    count
}

/// Returns 1 for a node record, and 0 for a leaf record.
fn count_if_node(rec: Rec) -> usize
    ensures { result ≡ length (nodes_among (rec ∷ [])) }
{
    match rec {
        Rec::Node(_) => 1,
        Rec::Leaf(_) => 0,
    }
}

/// Returns whether `counts` show that an index is full for a change that lacks a record of the kind `lacks`. The change needs `needs` node
/// records, or one leaf record with room for a key of `size` bytes. Fewer must be free, and none may be held or obsolete.
fn is_short_of(lacks: Full, needs: usize, size: usize, counts: &RecordCounts) -> bool
    ensures { IsTrue result ↔ IsShortOf lacks needs size counts.now }
{
    match lacks {
        Full::Nodes => are_short(needs, &counts.nodes),
        Full::Leaves => are_leaves_short(size, counts),
    }
}

/// Returns whether `counts`, those of one kind and class, show fewer free records than `needs`, and no held or obsolete one, which may come
/// back.
fn are_short(needs: usize, counts: &StateCounts) -> bool
    ensures { IsTrue result ↔ AreShort needs counts.now }
{
    (counts.free as usize) < needs && counts.held == 0 && counts.obsolete == 0
}

/// Returns whether `counts` show no leaf record with room for a key of `size` bytes that is free, held or obsolete, in any class up to the
/// first that has uncommitted ones. A claim doesn't go on to larger records while smaller ones may be committed.
fn are_leaves_short(size: usize, counts: &RecordCounts) -> bool
    ensures { IsTrue result ↔ AreLeavesShort size counts.now }
{
    let long = are_short(1, &counts.long);
    let wide = are_short_from(WIDE_BYTES, size, &counts.wide, long);
    let large = are_short_from(LARGE_BYTES, size, &counts.large, wide);
    let medium = are_short_from(MEDIUM_BYTES, size, &counts.medium, large);
    are_short_from(SHORT_BYTES, size, &counts.short, medium)
}

/// Returns whether `counts`, those of the leaf records with room for `most` bytes, show none free, held or obsolete for a key of `size` bytes,
/// and the `larger` ones none either, unless some of these are uncommitted.
fn are_short_from(most: usize, size: usize, counts: &StateCounts, larger: bool) -> bool
    ensures { IsTrue result ↔ AreShortFrom most size counts.now (IsTrue larger) }
{
    if size > most {
        return larger;
    }
    are_short(1, counts) && (counts.uncommitted > 0 || larger)
}
