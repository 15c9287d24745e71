//! How the leaves that come next on a walk are read, and their pairs taken.

ghost use Rattle.std.specs.Prelude.{◌≡◌, ◌≤◌, ◌<◌, ◌+◌, ◌-◌, ◌*◌, ℕ, IfOk, List, OnErr, length, slice_index, take};
ghost use Rattle.compound_node.specs.declared.entries.Entry.TheVariants.{Leaf as LeafEntry};
ghost use Rattle.insert_cases.specs.declared.choice.PathNode.{PathNode};
ghost use Rattle.key_bits.specs.Key.{IsKey};
ghost use Rattle.key_bits.specs.declared.TheConstants.{MAX_BYTES};
ghost use Rattle.record_words.specs.declared.TheConstants.{LEAF_FIELDS};
ghost use Rattle.rowex_reading.specs.Reads.{IsReader, Reads};
ghost use Rattle.rowex_reading.specs.Seen.{IsLedTo, Sure, since};
ghost use Rattle.rowex_scanning.specs.Ahead.{AreNext, LeavesBeginAt, AreTakenOnWays, HavePassed, IsLeafNotPast};
ghost use Rattle.rowex_scanning.specs.Scanning.{HasTakenPart, IsLeafRefused, IsLeafJudged, IsPairRefused, IsPairJudged, IsReached, asked_range, first_key_of, request_of};
ghost use Rattle.record_words.specs.declared.records.Rec.TheVariants.{Leaf as a_leaf};
ghost use Rattle.rowex_table.specs.Rule.{IsStartOf};
ghost use Rattle.version_laws.specs.Directions.{IsNoLater};
ghost use Rattle.version_laws.specs.Scan.{IsRead};

use crate::scan::{Places, Range, Scan, Verdict, is_past_range};
use crate::sinks::Tallies;
use key_bits::MAX_BYTES;
use rowex_core::{Gate, Rec};
use rowex_reading::load_leaf;
use rowex_table::{RecordAt, TableSeat};
use std::alloc::AllocError;

/// Takes the pairs of `leaves`, which come next on the walk, and returns `Further`. At a leaf past the range it stops and returns `Past`;
/// at one of the range for which the limit leaves no room, `Full`. An error if memory is refused; the pairs before it stay. The limit
/// leaves room for all of the leaves, or for all but one. Their records begin at `starts`.
///
/// The last leaf is read first. The leaves' keys are in the scan's order: if the last one isn't past the range, no other is, and none of
/// them is compared. If it is past, the others go one by one.
#[inline(always)]
pub(crate) fn take_each_leaf<G: Gate, S: Tallies>(
    scan: &Scan,
    seat: &mut TableSeat,
    gate: &mut G,
    leaves: &[u32],
    starts: &[usize],
    places: &mut Places,
    sink: &mut S,
) -> Result<Verdict, AllocError>
    requires reader { IsReader scan.now.table.now seat.old }
    requires origins { scan.now.origins.now.layout ≡ scan.now.table.now.layout }
    requires next { (top : PathNode) × (frames : List PathNode) × AreNext seat.old.known (request_of scan.now.range.now) top frames (S.tally sink.old) leaves.now }
    requires starts { LeavesBeginAt scan.now.table.now.layout leaves.now starts.now }
    requires few { (S.tally sink.old).size + length leaves.now ≤ scan.now.range.now.limit + 1 }
    ensures reads { (n : ℕ) × (n ≤ LEAF_FIELDS * length leaves.now) × Reads scan.now.table.now G.becomes 0 n (seat.old, gate.old) (seat.new, gate.new) }
    ensures more { (S.tally sink.old).size ≤ (S.tally sink.new).size }
    ensures taken { IfOk result (AreTakenOnWays seat.old.known seat.new.known (request_of scan.now.range.now) (S.tally sink.old) leaves.now (S.tally sink.new)) }
    ensures part { OnErr result (HasTakenPart scan.now.range.now.direction seat.new.known (asked_range scan.now.range.now) (S.tally sink.new)) }
    ensures refused { OnErr result S.may_refuse }
{
    let count = leaves.len();
    if count == 0 {
        return Ok(Verdict::Further);
    }
    let others = count - 1;
    let (length, value) = load_leaf_at(
        scan,
        seat,
        gate,
        leaves[others],
        starts[others],
        &mut places.last,
    );
    if is_past_range(scan.range, &places.last[..length]) {
        let (next, starts) = (&leaves[..others], &starts[..others]);
        return match take_leaves_to_end(scan, seat, gate, next, starts, &mut places.next, sink)? {
            Verdict::Full => Ok(Verdict::Full),
            Verdict::Further | Verdict::Past => Ok(Verdict::Past),
        };
    }
    let room = scan.range.limit - sink.size();
    sink.make_room(count.min(room))?;
    take_leaves_before_last(scan, seat, gate, leaves, starts, &mut places.next, sink);
    if room < count {
        return Ok(Verdict::Full);
    }
    sink.take_pair(&places.last, length, value);
    Ok(Verdict::Further)
}

/// Takes the pairs of `leaves` but that of the last one, by at most `LEAF_FIELDS` loads for each. The last one's key is not past the range,
/// so no other key is compared with the range's end. There is room for the pairs, by the limit and in `sink`.
#[inline(always)]
fn take_leaves_before_last<G: Gate, S: Tallies>(
    scan: &Scan,
    seat: &mut TableSeat,
    gate: &mut G,
    leaves: &[u32],
    starts: &[usize],
    places: &mut [u8; MAX_BYTES],
    sink: &mut S,
)
    requires reader { IsReader scan.now.table.now seat.old }
    requires origins { scan.now.origins.now.layout ≡ scan.now.table.now.layout }
    requires next { (top : PathNode) × (frames : List PathNode) × AreNext seat.old.known (request_of scan.now.range.now) top frames (S.tally sink.old) leaves.now }
    requires starts { LeavesBeginAt scan.now.table.now.layout leaves.now starts.now }
    requires some { 0 < length leaves.now }
    requires last { IsLeafNotPast seat.old.known (since seat.old.known) (request_of scan.now.range.now) (slice_index leaves.now (length leaves.now - 1)) }
    requires few { (S.tally sink.old).size + (length leaves.now - 1) ≤ scan.now.range.now.limit }
    requires room { length leaves.now - 1 ≤ S.room sink.old }
    ensures reads { (n : ℕ) × (n ≤ LEAF_FIELDS * (length leaves.now - 1)) × Reads scan.now.table.now G.becomes 0 n (seat.old, gate.old) (seat.new, gate.new) }
    ensures passed { (top : PathNode) (frames : List PathNode) → AreNext seat.old.known (request_of scan.now.range.now) top frames (S.tally sink.old) leaves.now →
        HavePassed seat.new.known (since seat.old.known) (request_of scan.now.range.now) frames top (S.tally sink.old).size (length leaves.now - 1) (S.tally sink.new) }
    ensures room { S.room sink.old ≤ S.room sink.new + (length leaves.now - 1) }
{
    let others = leaves.len() - 1;
    for index in 0..others {
        let (length, value) = load_leaf_at(scan, seat, gate, leaves[index], starts[index], places);
        sink.take_pair(places, length, value);
    }
}

/// Takes the pairs of `leaves` one by one, compares each key with the range's end, and returns `Further` if none ends the scan. It stops at
/// a leaf past the range, and returns `Past`. At a leaf of the range for which the limit leaves no room, it returns `Full`. An error if
/// memory is refused; the pairs before it stay.
#[inline(always)]
fn take_leaves_to_end<G: Gate, S: Tallies>(
    scan: &Scan,
    seat: &mut TableSeat,
    gate: &mut G,
    leaves: &[u32],
    starts: &[usize],
    places: &mut [u8; MAX_BYTES],
    sink: &mut S,
) -> Result<Verdict, AllocError>
    requires reader { IsReader scan.now.table.now seat.old }
    requires origins { scan.now.origins.now.layout ≡ scan.now.table.now.layout }
    requires next { (top : PathNode) × (frames : List PathNode) × AreNext seat.old.known (request_of scan.now.range.now) top frames (S.tally sink.old) leaves.now }
    requires starts { LeavesBeginAt scan.now.table.now.layout leaves.now starts.now }
    ensures reads { (n : ℕ) × (n ≤ LEAF_FIELDS * length leaves.now) × Reads scan.now.table.now G.becomes 0 n (seat.old, gate.old) (seat.new, gate.new) }
    ensures more { (S.tally sink.old).size ≤ (S.tally sink.new).size }
    ensures taken { IfOk result (AreTakenOnWays seat.old.known seat.new.known (request_of scan.now.range.now) (S.tally sink.old) leaves.now (S.tally sink.new)) }
    ensures part { OnErr result (HasTakenPart scan.now.range.now.direction seat.new.known (asked_range scan.now.range.now) (S.tally sink.new)) }
    ensures refused { OnErr result S.may_refuse }
{
    for index in 0..leaves.len() {
        match take_leaf(scan, seat, gate, leaves[index], starts[index], places, sink)? {
            Verdict::Further => (),
            Verdict::Past => return Ok(Verdict::Past),
            Verdict::Full => return Ok(Verdict::Full),
        }
    }
    Ok(Verdict::Further)
}

/// Loads leaf `number`, to which the walk was led, by at most `LEAF_FIELDS` loads. Returns its key's length in bytes and its value. Writes
/// the bytes of the key to the first of `places`; what stands behind them is not said. The leaf had both in some version since the pass was
/// led there.
#[inline(always)]
pub(crate) fn load_scanned_leaf<G: Gate>(
    scan: &Scan,
    seat: &mut TableSeat,
    gate: &mut G,
    number: u32,
    places: &mut [u8; MAX_BYTES],
) -> (usize, u64)
    requires reader { IsReader scan.now.table.now seat.old }
    requires origins { scan.now.origins.now.layout ≡ scan.now.table.now.layout }
    requires led { (m : ℕ) × IsLedTo seat.old.known m (LeafEntry number) }
    ensures reads { (n : ℕ) × (n ≤ LEAF_FIELDS) × Reads scan.now.table.now G.becomes 0 n (seat.old, gate.old) (seat.new, gate.new) }
    ensures key { IsKey (take result.0 places.new) × (result.0 ≤ MAX_BYTES) }
    ensures leaf { (m : ℕ) → IsLedTo seat.old.known m (LeafEntry number) → Sure seat.new.known (λ s. IsRead s m number (take result.0 places.new) result.1) }
{
    let leaf = RecordAt::find(scan.origins, Rec::Leaf(number));
    load_leaf_at(scan, seat, gate, number, leaf.start, places)
}

/// Loads leaf `number`, whose record begins at the word `start`. Returns its key's length in bytes and its value. Writes the bytes of the
/// key to the first of `places`, as [`load_scanned_leaf`] does.
#[inline(always)]
fn load_leaf_at<G: Gate>(
    scan: &Scan,
    seat: &mut TableSeat,
    gate: &mut G,
    number: u32,
    start: usize,
    places: &mut [u8; MAX_BYTES],
) -> (usize, u64)
    requires reader { IsReader scan.now.table.now seat.old }
    requires led { (m : ℕ) × IsLedTo seat.old.known m (LeafEntry number) }
    requires start { IsStartOf scan.now.table.now.layout (a_leaf number) start }
    ensures reads { (n : ℕ) × (n ≤ LEAF_FIELDS) × Reads scan.now.table.now G.becomes 0 n (seat.old, gate.old) (seat.new, gate.new) }
    ensures key { IsKey (take result.0 places.new) × (result.0 ≤ MAX_BYTES) }
    ensures leaf { (m : ℕ) → IsLedTo seat.old.known m (LeafEntry number) → Sure seat.new.known (λ s. IsRead s m number (take result.0 places.new) result.1) }
{
    let leaf = RecordAt {
        rec: Rec::Leaf(number),
        start,
    };
    load_leaf(scan.table, seat, gate, leaf, places)
}

/// Loads leaf `number`, whose record begins at the word `start`. Gives its pair to `sink` and returns `Further`. Gives none and returns
/// `Past` where the key is past the range, or `Full` where it is of the range and the limit is reached. If memory is refused, gives none
/// and returns an error. The key does not come before `scan.range`. `places` is room for its bytes.
#[inline(always)]
pub(crate) fn take_leaf<G: Gate, S: Tallies>(
    scan: &Scan,
    seat: &mut TableSeat,
    gate: &mut G,
    number: u32,
    start: usize,
    places: &mut [u8; MAX_BYTES],
    sink: &mut S,
) -> Result<Verdict, AllocError>
    requires reader { IsReader scan.now.table.now seat.old }
    requires leaf { (m : ℕ) × IsLedTo seat.old.known m (LeafEntry number) ×
        IsReached scan.now.range.now.direction scan.now.table.now.layout seat.old.known m (first_key_of scan.now.range.now) number }
    requires start { IsStartOf scan.now.table.now.layout (a_leaf number) start }
    requires few { (S.tally sink.old).size ≤ scan.now.range.now.limit }
    ensures reads { (n : ℕ) × (n ≤ LEAF_FIELDS) × Reads scan.now.table.now G.becomes 0 n (seat.old, gate.old) (seat.new, gate.new) }
    ensures more { (S.tally sink.old).size ≤ (S.tally sink.new).size }
    ensures taken { IfOk result (IsLeafJudged seat.old.known seat.new.known (request_of scan.now.range.now) number (S.tally sink.old) (S.tally sink.new)) }
    ensures refused { OnErr result (IsLeafRefused seat.old.known seat.new.known (asked_range scan.now.range.now) number (S.tally sink.old) (S.tally sink.new)) }
    ensures may { OnErr result S.may_refuse }
{
    let (length, value) = load_leaf_at(scan, seat, gate, number, start, places);
    take_pair_in_range(sink, scan.range, places, length, value)
}

/// Gives the pair of `value` and of the key in the first `length` bytes of `places` to `sink`, and returns `Further`. Gives none and
/// returns `Past` where the key is past `range`, or `Full` where it is of the range and the limit is reached. If memory is refused, gives
/// none and returns an error. The key does not come before the range. Inline, so that the key's bytes go at once from where they were read
/// to their place among the pairs.
#[inline(always)]
pub(crate) fn take_pair_in_range<S: Tallies>(
    sink: &mut S,
    range: &Range,
    places: &[u8; MAX_BYTES],
    length: usize,
    value: u64,
) -> Result<Verdict, AllocError>
    requires key { IsKey (take length places.now) }
    requires fits { length ≤ MAX_BYTES }
    requires reached { IsNoLater range.now.direction (first_key_of range.now) (take length places.now) }
    requires few { (S.tally sink.old).size ≤ range.now.limit }
    ensures more { (S.tally sink.old).size ≤ (S.tally sink.new).size }
    ensures taken { IfOk result (IsPairJudged (request_of range.now) (S.tally sink.old) (take length places.now) value (S.tally sink.new)) }
    ensures refused { OnErr result (IsPairRefused (asked_range range.now) (S.tally sink.old) (take length places.now) (S.tally sink.new)) }
    ensures may { OnErr result S.may_refuse }
{
    if is_past_range(range, &places[..length]) {
        return Ok(Verdict::Past);
    }
    if sink.size() == range.limit {
        return Ok(Verdict::Full);
    }
    sink.make_room(1)?;
    sink.take_pair(places, length, value);
    Ok(Verdict::Further)
}
