//! The walk of a scan: the pairs of a range of keys, in the order of its direction, as a pinned pass reads them.

ghost use Rattle.std.specs.Prelude.{◌≡◌, ◌≤◌, ◌+◌, ℕ, IfOk, IsSome, OnErr, false, length};
ghost use Rattle.compound_node.specs.declared.entries.Entry.TheVariants.{Leaf as LeafEntry, Node as NodeEntry};
ghost use Rattle.key_bits.specs.Key.{IsKey};
ghost use Rattle.key_bits.specs.declared.TheConstants.{MAX_BYTES};
ghost use Rattle.record_words.specs.declared.TheConstants.{HEAD_WORDS, LEAF_FIELDS};
ghost use Rattle.rowex_table.specs.Seats.{IsSeatOf};
ghost use Rattle.rowex_reading.specs.Reads.{IsReader, Reads};
ghost use Rattle.rowex_reading.specs.Seen.{IsAtRoot, IsLedTo, since};
ghost use Rattle.insert_cases.specs.declared.choice.PathNode.{PathNode};
ghost use Rattle.rowex_scanning.specs.Starts.{IsSearchEnd};
ghost use Rattle.rowex_scanning.specs.Counts.{Scans, Walks, scan_loads};
ghost use Rattle.rowex_scanning.specs.Scanning.{HasScanned, HasScannedPart, HasTaken, HasTakenPart};
ghost use Rattle.rowex_scanning.specs.Scanning.{IsEntered, IsWalkAlong, asked_range, first_key_of, request_of};
ghost use Rattle.rowex_scanning.specs.Tallies.{IsNone, tally_of_values};
ghost use Rattle.rowex_scanning.specs.declared.ahead.TheConstants.{MOST_AHEAD};

use crate::ahead::{MOST_AHEAD, load_entries_ahead};
use crate::direction::{
    entries_to_come, first_gap, gap_after_entries, gap_behind_slot, is_earlier_key, is_key_before,
    slot_ahead,
};
use crate::scan::{Places, Range, Scan, Verdict, first_key};
use crate::sinks::Sink;
use crate::start::{SearchEnd, find_start};
use crate::taking::{load_scanned_leaf, take_leaf, take_pair_in_range};
use bounded_vec::BoundedVec;
use insert_cases::PathNode;
use key_bits::MAX_BYTES;
use packed_pairs::{Direction, Filling, Pairs};
use rowex_core::{Gate, Rec};
use rowex_reading::{Found, MOST_NODES, load_path_node, load_root, search_way};
use rowex_table::{HotTable, RecordAt, TableSeat};
use std::alloc::AllocError;

/// Lists the first pairs of `range` in its direction, `range.limit` at most, into `pairs`, whose earlier pairs are dropped. Returns whether
/// there is a further one.
///
/// An error if memory is refused. Then `pairs` has the first of these pairs, fewer than the limit, and there is a further one. The pass
/// makes loads alone, no more than `scan_loads` allows for the limit, and that of the root. `way` is room for the nodes of its way, and
/// need not be empty. Inline, so that a caller has a walk of its own direction.
#[inline(always)]
pub fn scan_root<G: Gate>(
    table: &HotTable,
    seat: &mut TableSeat,
    gate: &mut G,
    way: &mut BoundedVec<PathNode, MOST_NODES>,
    range: &Range,
    pairs: &mut Pairs,
) -> Result<bool, AllocError>
    requires own { IsSeatOf table.now seat.old }
    requires pinned { IsSome seat.old.known.pin }
    ensures looks { Scans table.now G.becomes range.now.limit (seat.old, gate.old) (seat.new, gate.new) }
    ensures keys { IsKey range.now.from.now × IsKey range.now.upto.now }
    ensures scanned { IfOk result (HasScanned range.now.direction seat.new.known (asked_range range.now) pairs.new) }
    ensures part { OnErr result (HasScannedPart range.now.direction seat.new.known (asked_range range.now) pairs.new) }
    ensures few { seat.new.known.steps ≤ seat.old.known.steps + (1 + scan_loads range.now.limit) }
{
    let mut filling = Filling::take(pairs);
    filling.clear();
    let scan = walk_root(table, seat, gate, way, range, &mut filling);
    filling.put_back(pairs);
    scan
}

/// Lists the values of the first pairs of `range` in its direction, `range.limit` at most, into `values`, whose earlier values are dropped.
/// They are in the order of their keys in the scan's direction. Returns whether there is a further pair.
///
/// An error if memory is refused. Then `values` has those of the first of these pairs, fewer than the limit, and there is a further one.
/// Loads, and the room in `way`, are as in [`scan_root`].
#[inline(always)]
pub fn scan_values<G: Gate>(
    table: &HotTable,
    seat: &mut TableSeat,
    gate: &mut G,
    way: &mut BoundedVec<PathNode, MOST_NODES>,
    range: &Range,
    values: &mut Vec<u64>,
) -> Result<bool, AllocError>
    requires own { IsSeatOf table.now seat.old }
    requires pinned { IsSome seat.old.known.pin }
    ensures looks { Scans table.now G.becomes range.now.limit (seat.old, gate.old) (seat.new, gate.new) }
    ensures keys { IsKey range.now.from.now × IsKey range.now.upto.now }
    ensures scanned { IfOk result (HasTaken range.now.direction seat.new.known (asked_range range.now) (tally_of_values values.new.items)) }
    ensures part { OnErr result (HasTakenPart range.now.direction seat.new.known (asked_range range.now) (tally_of_values values.new.items)) }
    ensures few { seat.new.known.steps ≤ seat.old.known.steps + (1 + scan_loads range.now.limit) }
{
    values.clear();
    walk_root(table, seat, gate, way, range, values)
}

/// Gives `sink`, which has no pair before, the first pairs of `range` in its direction, `range.limit` at most. Returns whether there is a
/// further one. An error if memory is refused; the pairs given before stay, fewer than the limit. The loads are bounded by the limit, and
/// by the number of pairs given and 16 more. Inline, so that a caller has a walk of its own direction.
#[inline(always)]
pub(crate) fn walk_root<G: Gate, S: Sink>(
    table: &HotTable,
    seat: &mut TableSeat,
    gate: &mut G,
    way: &mut BoundedVec<PathNode, MOST_NODES>,
    range: &Range,
    sink: &mut S,
) -> Result<bool, AllocError>
    requires own { IsSeatOf table.now seat.old }
    requires pinned { IsSome seat.old.known.pin }
    requires empty { IsNone (S.tally sink.old) }
    ensures looks { Scans table.now G.becomes range.now.limit (seat.old, gate.old) (seat.new, gate.new) }
    ensures passed { Scans table.now G.becomes ((S.tally sink.new).size + MOST_AHEAD) (seat.old, gate.old) (seat.new, gate.new) }
    ensures keys { IsKey range.now.from.now × IsKey range.now.upto.now }
    ensures scanned { IfOk result (HasTaken range.now.direction seat.new.known (asked_range range.now) (S.tally sink.new)) }
    ensures part { OnErr result (HasTakenPart range.now.direction seat.new.known (asked_range range.now) (S.tally sink.new)) }
    ensures refused { OnErr result S.may_refuse }
    ensures few { seat.new.known.steps ≤ seat.old.known.steps + (1 + scan_loads range.now.limit) }
{
    if is_key_before(range.upto.as_bytes(), range.from.as_bytes()) {
        load_root(table, seat, gate);
        return Ok(false);
    }
    match search_way(table, seat, gate, first_key(range), way) {
        Found::Nothing => Ok(false),
        Found::Leaf {
            number,
            mismatch,
            ..
        } => {
            let origins = table.origins();
            let scan = Scan {
                table,
                origins: &origins,
                range,
            };
            if way.len() == 0 {
                scan_leaf(&scan, seat, gate, number, sink)
            } else {
                let found = SearchEnd { number, mismatch };
                scan_node(&scan, seat, gate, way, found, sink)
            }
        }
    }
}

/// Scans from a root that is leaf `number`: gives its pair to `sink`, if the pair belongs to the range and the limit isn't 0. Returns
/// whether the pair belongs to the range and the limit is 0: then it is a further one. An error if memory is refused; no pair is given
/// then. At most `LEAF_FIELDS` loads are made.
#[inline(always)]
fn scan_leaf<G: Gate, S: Sink>(
    scan: &Scan,
    seat: &mut TableSeat,
    gate: &mut G,
    number: u32,
    sink: &mut S,
) -> Result<bool, AllocError>
    requires reader { IsReader scan.now.table.now seat.old }
    requires origins { scan.now.origins.now.layout ≡ scan.now.table.now.layout }
    requires root { IsAtRoot seat.old.known (LeafEntry number) }
    requires empty { IsNone (S.tally sink.old) }
    ensures reads { (n : ℕ) × (n ≤ LEAF_FIELDS) × Reads scan.now.table.now G.becomes 0 n (seat.old, gate.old) (seat.new, gate.new) }
    ensures scanned { IfOk result (HasTaken scan.now.range.now.direction seat.new.known (asked_range scan.now.range.now) (S.tally sink.new)) }
    ensures part { OnErr result (HasTakenPart scan.now.range.now.direction seat.new.known (asked_range scan.now.range.now) (S.tally sink.new)) }
    ensures refused { OnErr result S.may_refuse }
{
    let range = scan.range;
    let mut places = [0; MAX_BYTES];
    let (length, value) = load_scanned_leaf(scan, seat, gate, number, &mut places);
    if is_earlier_key(
        range.direction,
        &places[..length],
        first_key(range).as_bytes(),
    ) {
        return Ok(false);
    }
    match take_pair_in_range(sink, range, &places, length, value)? {
        Verdict::Full => Ok(true),
        Verdict::Further | Verdict::Past => Ok(false),
    }
}

/// Scans from a root that is a node. The search for the range's first key went through `way` and ended at `found`. Gives the pairs to
/// `sink`, which has none before, and returns whether there is a further one. An error if memory is refused; the pairs given before stay.
/// The loads are bounded by the limit, and by the number of pairs given and 16 more.
#[inline(always)]
fn scan_node<G: Gate, S: Sink>(
    scan: &Scan,
    seat: &mut TableSeat,
    gate: &mut G,
    way: &mut BoundedVec<PathNode, MOST_NODES>,
    found: SearchEnd,
    sink: &mut S,
) -> Result<bool, AllocError>
    requires reader { IsReader scan.now.table.now seat.old }
    requires origins { scan.now.origins.now.layout ≡ scan.now.table.now.layout }
    requires way { IsSearchEnd scan.now.table.now.layout seat.old.known (since seat.old.known) (first_key_of scan.now.range.now) way.old.items found }
    requires empty { IsNone (S.tally sink.old) }
    ensures reads { Walks scan.now.table.now G.becomes (HEAD_WORDS + LEAF_FIELDS) scan.now.range.now.limit (seat.old, gate.old) (seat.new, gate.new) }
    ensures passed { Walks scan.now.table.now G.becomes (HEAD_WORDS + LEAF_FIELDS) ((S.tally sink.new).size + MOST_AHEAD) (seat.old, gate.old) (seat.new, gate.new) }
    ensures scanned { IfOk result (HasTaken scan.now.range.now.direction seat.new.known (asked_range scan.now.range.now) (S.tally sink.new)) }
    ensures part { OnErr result (HasTakenPart scan.now.range.now.direction seat.new.known (asked_range scan.now.range.now) (S.tally sink.new)) }
    ensures refused { OnErr result S.may_refuse }
{
    let direction = scan.range.direction;
    let start = find_start(scan, seat, gate, way.as_slice(), found);
    let mut top = start.top;
    way.truncate(start.level);
    if start.leaf {
        let places = &mut [0; MAX_BYTES];
        let leaf = RecordAt::find(scan.origins, Rec::Leaf(found.number));
        match take_leaf(scan, seat, gate, found.number, leaf.start, places, sink)? {
            Verdict::Further => top.slot = gap_behind_slot(direction, top.slot),
            Verdict::Past => return Ok(false),
            Verdict::Full => return Ok(true),
        }
    }
    way.push(top);
    walk_slots(scan, seat, gate, way, sink)
}

/// Walks over the slots of the last node of `way`, from the gap in its `slot` on, and then of the nodes above. Gives the pairs of the range
/// to `sink`, in the scan's direction, and returns whether there is a further one. An error if memory is refused; the pairs given before
/// stay. The loads are bounded by the limit, and by the number of pairs given and 16 more.
///
/// It looks at several slots together, so that it doesn't wait for each leaf alone. All keys are read into the same arrays, whatever a sink
/// keeps of them.
#[inline(always)]
fn walk_slots<G: Gate, S: Sink>(
    scan: &Scan,
    seat: &mut TableSeat,
    gate: &mut G,
    way: &mut BoundedVec<PathNode, MOST_NODES>,
    sink: &mut S,
) -> Result<bool, AllocError>
    requires reader { IsReader scan.now.table.now seat.old }
    requires origins { scan.now.origins.now.layout ≡ scan.now.table.now.layout }
    requires walk { IsWalkAlong seat.old.known (since seat.old.known) (request_of scan.now.range.now) way.old.items (S.tally sink.old) }
    ensures reads { Walks scan.now.table.now G.becomes 0 scan.now.range.now.limit (seat.old, gate.old) (seat.new, gate.new) }
    ensures passed { Walks scan.now.table.now G.becomes 0 ((S.tally sink.new).size + MOST_AHEAD) (seat.old, gate.old) (seat.new, gate.new) }
    ensures scanned { IfOk result (HasTaken scan.now.range.now.direction seat.new.known (asked_range scan.now.range.now) (S.tally sink.new)) }
    ensures part { OnErr result (HasTakenPart scan.now.range.now.direction seat.new.known (asked_range scan.now.range.now) (S.tally sink.new)) }
    ensures refused { OnErr result S.may_refuse }
{
    let direction = scan.range.direction;
    let places = &mut Places {
        last: [0; MAX_BYTES],
        next: [0; MAX_BYTES],
    };
    let mut leaves = [0; MOST_AHEAD as usize];
    let mut starts = [0; MOST_AHEAD as usize];
    let Some(mut top) = way.pop() else {
        return Ok(false);
    };
    loop {
        if entries_to_come(direction, &top) > 0 {
            let ahead = load_entries_ahead(scan, seat, gate, &top, sink, &mut leaves, &mut starts);
            let count = ahead.count as usize;
            let (next, starts) = (&leaves[..count], &starts[..count]);
            match sink.take_leaves(scan, seat, gate, next, starts, places)? {
                Verdict::Further => (),
                Verdict::Past => return Ok(false),
                Verdict::Full => return Ok(true),
            }
            match ahead.node {
                Some(number) => {
                    top.slot = slot_ahead(direction, top, ahead.count);
                    way.push(top);
                    top = enter_node_at_gap(scan.table, seat, gate, direction, number);
                }
                None => top.slot = gap_after_entries(direction, top, ahead.count),
            }
        } else {
            let Some(above) = way.pop() else {
                return Ok(false);
            };
            top = above;
            top.slot = gap_behind_slot(direction, above.slot);
        }
    }
}

/// Loads the head of node `number`, to which the walk was led, by 25 loads at most. Returns the node as one of the walk's path, at the gap
/// before its first entry in the direction `direction`. Inline, so that the walk has the node's parts in registers: a processor waits where
/// parts are stored one by one and then read as one.
#[inline(always)]
fn enter_node_at_gap<G: Gate>(
    table: &HotTable,
    seat: &mut TableSeat,
    gate: &mut G,
    direction: Direction,
    number: u32,
) -> PathNode
    requires reader { IsReader table.now seat.old }
    requires led { (m h : ℕ) × IsLedTo seat.old.known m (NodeEntry number h) }
    ensures reads { (n : ℕ) × (n ≤ HEAD_WORDS) × Reads table.now G.becomes 0 n (seat.old, gate.old) (seat.new, gate.new) }
    ensures entered { (m h : ℕ) → IsLedTo seat.old.known m (NodeEntry number h) → IsEntered direction seat.new.known m number h result }
{
    let mut step = load_path_node(table, seat, gate, number);
    step.slot = first_gap(direction, step.count);
    step
}
