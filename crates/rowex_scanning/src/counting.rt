//! The number of the pairs of a range. Entries of a node are in key order: if one leaf is not past the range, none before it
//! is, and these are counted unread.

ghost use Rattle.std.specs.Prelude.{◌*◌, ◌≡◌, ◌≤◌, ◌+◌, ℕ, IsSome, IsTrue, false, length};
ghost use Rattle.compound_node.specs.declared.entries.Entry.TheVariants.{Leaf as LeafEntry};
ghost use Rattle.insert_cases.specs.declared.choice.PathNode.{PathNode};
ghost use Rattle.key_bits.specs.Key.{IsKey};
ghost use Rattle.record_words.specs.declared.TheConstants.{LEAF_FIELDS};
ghost use Rattle.rowex_reading.specs.Reads.{IsReader, Reads};
ghost use Rattle.rowex_reading.specs.Seen.{IsLedTo, since};
ghost use Rattle.rowex_scanning.specs.Ahead.{AreBehindGap, AreParted, IsLeafNotPast, IsLeafPast};
ghost use Rattle.rowex_scanning.specs.Counts.{Scans, limit_by, scan_loads};
ghost use Rattle.rowex_scanning.specs.Scanning.{HasTaken, asked_range, request_of};
ghost use Rattle.rowex_scanning.specs.Tallies.{tally_of_number};
ghost use Rattle.rowex_table.specs.Seats.{IsSeatOf};

use crate::scan::{Places, Range, Scan, Verdict, is_past_range};
use crate::scanning::walk_root;
use crate::sinks::{Sink, Tallies};
use crate::taking::load_scanned_leaf;
use bounded_vec::BoundedVec;
use insert_cases::PathNode;
use key_bits::MAX_BYTES;
use rowex_core::Gate;
use rowex_reading::MOST_NODES;
use rowex_table::{HotTable, RecordAt, TableSeat};
use std::alloc::AllocError;

/// How many pairs a walk has taken, and nothing else of them.
#[derive(Drop)]
struct Number {
    count: usize,
}

impl Tallies for Number {
    ghost use Rattle.std.specs.Prelude.{◌-◌, ◌^◌};
    ghost use Rattle.rowex_scanning.specs.Tallies.{tally_of_number};

    ghost tally = { λ number. tally_of_number number.count };

    ghost room = { λ number. 2 ^ 64 - 1 - number.count };

    ghost may_refuse = { ⊥ };

    /// Asks for no line, since a count reads few of the leaves.
    #[inline(always)]
    fn touch_leaf(&self, _scan: &Scan, _seat: &mut TableSeat, _leaf: RecordAt, _touches: bool) {}

    /// Returns how many pairs were counted.
    #[inline(always)]
    fn size(&self) -> usize {
        self.count
    }

    /// Does nothing: a number needs no memory, so none is refused.
    #[inline(always)]
    fn make_room(&mut self, _count: usize) -> Result<(), AllocError> {
        Ok(())
    }

    /// Counts the pair, whatever its key and value are.
    #[inline(always)]
    fn take_pair(&mut self, _places: &[u8; MAX_BYTES], _length: usize, _value: u64) {
        self.count += 1;
    }
}

impl Sink for Number {
    /// Counts those of `leaves` that are not past the range, as far as the limit leaves room. Mostly it reads the last one alone. It never
    /// returns an error.
    #[inline(always)]
    fn take_leaves<G: Gate>(
        &mut self,
        scan: &Scan,
        seat: &mut TableSeat,
        gate: &mut G,
        leaves: &[u32],
        _starts: &[usize],
        places: &mut Places,
    ) -> Result<Verdict, AllocError> {
        let within = count_leaves_within(scan, seat, gate, leaves, &mut places.next);
        let room = scan.range.limit - self.count;
        if room < within {
            self.count += room;
            return Ok(Verdict::Full);
        }
        self.count += within;
        if within < leaves.len() {
            Ok(Verdict::Past)
        } else {
            Ok(Verdict::Further)
        }
    }
}

/// Counts the pairs of `range`, `range.limit` at most. Returns their number, and whether there is a further one.
///
/// The pass makes loads alone, at most those of a scan whose limit is that number and 16, or `range.limit` if that is less. Of the leaves
/// that come together in a node it reads the last one. If that is past the range, it reads as many as a search among them takes. No memory
/// is asked for. `way` is room for the nodes of its way, and need not be empty.
#[inline(always)]
pub fn count_root<G: Gate>(
    table: &HotTable,
    seat: &mut TableSeat,
    gate: &mut G,
    way: &mut BoundedVec<PathNode, MOST_NODES>,
    range: &Range,
) -> (usize, bool)
    requires own { IsSeatOf table.now seat.old }
    requires pinned { IsSome seat.old.known.pin }
    ensures looks { Scans table.now G.becomes (limit_by range.now.limit result.0) (seat.old, gate.old) (seat.new, gate.new) }
    ensures keys { IsKey range.now.from.now × IsKey range.now.upto.now }
    ensures counted { HasTaken range.now.direction seat.new.known (asked_range range.now) (tally_of_number result.0) result.1 }
    ensures few { seat.new.known.steps ≤ seat.old.known.steps + (1 + scan_loads (limit_by range.now.limit result.0)) }
{
    let mut number = Number { count: 0 };
    match walk_root(table, seat, gate, way, range, &mut number) {
        Ok(more) => (number.count, more),
        Err(_) => unreachable!(),
    }
}

/// Returns how many of `leaves`, which come next in a node, come before the first one whose key is past the range. It reads the last leaf.
/// If that is past the range, it reads some of the others, by halves: their keys are in the scan's order. `places` is room for a key's
/// bytes, and `gate` is told of each load.
#[inline(always)]
pub(crate) fn count_leaves_within<G: Gate>(
    scan: &Scan,
    seat: &mut TableSeat,
    gate: &mut G,
    leaves: &[u32],
    places: &mut [u8; MAX_BYTES],
) -> usize
    requires reader { IsReader scan.now.table.now seat.old }
    requires origins { scan.now.origins.now.layout ≡ scan.now.table.now.layout }
    requires next { (top : PathNode) × AreBehindGap seat.old.known (request_of scan.now.range.now) top leaves.now }
    ensures most { result ≤ length leaves.now }
    ensures reads { (n : ℕ) × (n ≤ LEAF_FIELDS * length leaves.now) × Reads scan.now.table.now G.becomes 0 n (seat.old, gate.old) (seat.new, gate.new) }
    ensures parted { (top : PathNode) → AreBehindGap seat.old.known (request_of scan.now.range.now) top leaves.now →
        AreParted seat.new.known (since seat.old.known) (request_of scan.now.range.now) leaves.now result }
{
    let count = leaves.len();
    if count == 0 {
        return 0;
    }
    let mut past = count - 1;
    if !is_leaf_past(scan, seat, gate, leaves[past], places) {
        return count;
    }
    let mut within = 0;
    while within < past {
        let middle = within + (past - within) / 2;
        if is_leaf_past(scan, seat, gate, leaves[middle], places) {
            past = middle;
        } else {
            within = middle + 1;
        }
    }
    within
}

/// Returns whether the key of leaf `number` is past the range. It reads the leaf, to which the walk was led, by at most `LEAF_FIELDS`
/// loads. `places` is room for the key's bytes.
#[inline(always)]
fn is_leaf_past<G: Gate>(
    scan: &Scan,
    seat: &mut TableSeat,
    gate: &mut G,
    number: u32,
    places: &mut [u8; MAX_BYTES],
) -> bool
    requires reader { IsReader scan.now.table.now seat.old }
    requires origins { scan.now.origins.now.layout ≡ scan.now.table.now.layout }
    requires led { (m : ℕ) × IsLedTo seat.old.known m (LeafEntry number) }
    ensures reads { (n : ℕ) × (n ≤ LEAF_FIELDS) × Reads scan.now.table.now G.becomes 0 n (seat.old, gate.old) (seat.new, gate.new) }
    ensures past { IsTrue result → (m : ℕ) → IsLedTo seat.old.known m (LeafEntry number) → IsLeafPast seat.new.known m (request_of scan.now.range.now) number }
    ensures not_past { result ≡ false → (m : ℕ) → IsLedTo seat.old.known m (LeafEntry number) → IsLeafNotPast seat.new.known m (request_of scan.now.range.now) number }
{
    let (length, _) = load_scanned_leaf(scan, seat, gate, number, places);
    is_past_range(scan.range, &places[..length])
}
