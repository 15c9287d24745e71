//! What a walk looks at ahead of its place: so the lines of several leaves come side by side.

ghost use Rattle.std.specs.Prelude.{◌≡◌, ◌+◌, ◌<◌, ◌≤◌, ℕ, length};
ghost use Rattle.rowex_reading.specs.Reads.{IsReader, Reads};
ghost use Rattle.rowex_scanning.specs.Ahead.{FirstLeavesBeginAt, HasPlaces, HasSeenAhead, entries_ahead};
ghost use Rattle.rowex_table.specs.Rule.{IsLeafRecordAt};
ghost use Rattle.rowex_table.specs.Seats.{HasTouched, IsSeatOf};
ghost use Rattle.version_laws.specs.Directions.{to_come as to_come_of};

use crate::direction::{Slots, entries_to_come};
use crate::scan::Scan;
use crate::sinks::Tallies;
use compound_node::Entry;
use insert_cases::PathNode;
use record_words::{CACHE_LINE_WORDS, VALUE_OFFSET};
use rowex_core::{Gate, Rec};
use rowex_reading::load_entry;
use rowex_table::{RecordAt, TableSeat};

/// How many slots of a node a walk looks at together, at most.
pub(crate) const MOST_AHEAD: u8 = 16;

/// If an index has fewer leaf records, a walk touches none of them: they are in a processor's cache mostly.
const LEAST_LEAVES: u32 = 32_768;

/// Beside the leaf's value the word of this index is touched, which is a cache line further on. If the leaf's last word comes before it,
/// that word is touched instead.
const NEXT_LINE: usize = VALUE_OFFSET as usize + CACHE_LINE_WORDS;

/// If the limit leaves fewer pairs, a walk looks at one slot at a time.
const LEAST_PAIRS: usize = 4;

/// What comes next in a node.
#[derive(Clone, Copy)]
pub(crate) struct Ahead {
    /// How many leaves come first.
    pub count: u8,
    /// The node behind them, if it was looked at.
    pub node: Option<u32>,
}

/// Returns at how many slots a walk that has taken `taken` pairs looks together: those of the pairs that `limit` leaves, and one more,
/// which tells whether there is a further pair. `MOST_AHEAD` at most, and one if fewer than `LEAST_PAIRS` are left.
#[inline(always)]
fn most_slots(limit: usize, taken: usize) -> u8
    requires { taken ≤ limit }
    ensures some { 0 < result }
    ensures most { result ≤ MOST_AHEAD }
    ensures few { taken + result ≤ limit + 1 }
{
    let left = limit - taken;
    if left < LEAST_PAIRS {
        1
    } else if left < MOST_AHEAD as usize {
        left as u8 + 1
    } else {
        MOST_AHEAD
    }
}

/// Loads the entries in the next slots of the node `top`, in the scan's direction, up to the first that leads to a node. It looks at
/// [`most_slots`] slots, or fewer if fewer are to come, but one at least. Returns how many leaves these are, and the node behind them, if
/// it came to one. `sink` has the pairs so far, no more than the limit. At most one load is made for each slot looked at, and one more for
/// each leaf.
///
/// The leaves' numbers go to the first of `leaves`, and the words at which their records begin to the first of `starts`. They are written
/// to the walk's own arrays: an array that is returned would be copied, and a copy waits for the stores of its elements.
#[inline(always)]
pub(crate) fn load_entries_ahead<G: Gate, S: Tallies>(
    scan: &Scan,
    seat: &mut TableSeat,
    gate: &mut G,
    top: &PathNode,
    sink: &S,
    leaves: &mut [u32; MOST_AHEAD as usize],
    starts: &mut [usize; MOST_AHEAD as usize],
) -> Ahead
    requires reader { IsReader scan.now.table.now seat.old }
    requires origins { scan.now.origins.now.layout ≡ scan.now.table.now.layout }
    requires fits { top.now.slot ≤ top.now.count }
    requires come { 0 < to_come_of scan.now.range.now.direction top.now.count top.now.slot }
    requires limit { (S.tally sink.now).size ≤ scan.now.range.now.limit }
    requires places { (m : ℕ) × HasPlaces scan.now.range.now.direction seat.old.known m top.now }
    ensures reads { (n : ℕ) × (n ≤ entries_ahead result + result.count) ×
        Reads scan.now.table.now G.becomes (entries_ahead result) n (seat.old, gate.old) (seat.new, gate.new) }
    ensures some { 0 < entries_ahead result }
    ensures come { entries_ahead result ≤ to_come_of scan.now.range.now.direction top.now.count top.now.slot }
    ensures most { result.count ≤ MOST_AHEAD }
    ensures wide { (length leaves.new ≡ MOST_AHEAD) × (length starts.new ≡ MOST_AHEAD) }
    ensures starts { FirstLeavesBeginAt scan.now.table.now.layout result.count leaves.new starts.new }
    ensures few { (S.tally sink.now).size + entries_ahead result ≤ scan.now.range.now.limit + 1 }
    ensures ahead { (m : ℕ) → HasPlaces scan.now.range.now.direction seat.old.known m top.now →
        HasSeenAhead scan.now.range.now.direction seat.new.known m top.now leaves.new result }
{
    if scan.origins.layout.leaves < LEAST_LEAVES {
        load_entries::<G, S, false>(scan, seat, gate, top, sink, leaves, starts)
    } else {
        load_entries::<G, S, true>(scan, seat, gate, top, sink, leaves, starts)
    }
}

/// Loads the entries in the next slots of the node `top`, as [`load_entries_ahead`] promises. The sink asks for the lines of leaves if
/// `TOUCHES` says so: what is compiled for one value of `TOUCHES` has a loop without that question. For a count, which reads no start, the
/// compiler leaves out what finds the records.
#[inline(always)]
fn load_entries<G: Gate, S: Tallies, const TOUCHES: bool>(
    scan: &Scan,
    seat: &mut TableSeat,
    gate: &mut G,
    top: &PathNode,
    sink: &S,
    leaves: &mut [u32; MOST_AHEAD as usize],
    starts: &mut [usize; MOST_AHEAD as usize],
) -> Ahead
    requires reader { IsReader scan.now.table.now seat.old }
    requires origins { scan.now.origins.now.layout ≡ scan.now.table.now.layout }
    requires fits { top.now.slot ≤ top.now.count }
    requires come { 0 < to_come_of scan.now.range.now.direction top.now.count top.now.slot }
    requires limit { (S.tally sink.now).size ≤ scan.now.range.now.limit }
    requires places { (m : ℕ) × HasPlaces scan.now.range.now.direction seat.old.known m top.now }
    ensures reads { (n : ℕ) × (n ≤ entries_ahead result + result.count) ×
        Reads scan.now.table.now G.becomes (entries_ahead result) n (seat.old, gate.old) (seat.new, gate.new) }
    ensures some { 0 < entries_ahead result }
    ensures come { entries_ahead result ≤ to_come_of scan.now.range.now.direction top.now.count top.now.slot }
    ensures most { result.count ≤ MOST_AHEAD }
    ensures wide { (length leaves.new ≡ MOST_AHEAD) × (length starts.new ≡ MOST_AHEAD) }
    ensures starts { FirstLeavesBeginAt scan.now.table.now.layout result.count leaves.new starts.new }
    ensures few { (S.tally sink.now).size + entries_ahead result ≤ scan.now.range.now.limit + 1 }
    ensures ahead { (m : ℕ) → HasPlaces scan.now.range.now.direction seat.old.known m top.now →
        HasSeenAhead scan.now.range.now.direction seat.new.known m top.now leaves.new result }
{
    let count = entries_to_come(scan.range.direction, top).min(most_slots(
        scan.range.limit,
        sink.size(),
    ));
    let node = RecordAt::find(scan.origins, Rec::Node(top.number));
    // Taken out of the loop by hand: each load in it is an atomic one, behind which the compiler reads memory again.
    let (direction, top) = (scan.range.direction, *top);
    let mut slots = Slots::to_come(direction, top);
    for index in 0..count {
        let slot = slots.next_slot();
        match load_entry(scan.table, seat, gate, node, slot) {
            Entry::Node { number, .. } => {
                return Ahead {
                    count: index,
                    node: Some(number),
                };
            }
            Entry::Leaf(number) => {
                let leaf = RecordAt::find(scan.origins, Rec::Leaf(number));
                sink.touch_leaf(scan, seat, leaf, TOUCHES);
                starts[index as usize] = leaf.start;
                leaves[index as usize] = number;
            }
        }
    }
    Ahead { count, node: None }
}

/// Touches at most two words of `leaf` if `touches` says so, so that its first cache lines come. The leaf is read soon: so the lines of
/// several leaves come side by side.
#[inline(always)]
pub(crate) fn touch_leaf(scan: &Scan, seat: &mut TableSeat, leaf: RecordAt, touches: bool)
    requires own { IsSeatOf scan.now.table.now seat.old }
    requires origins { scan.now.origins.now.layout ≡ scan.now.table.now.layout }
    requires leaf { IsLeafRecordAt scan.now.table.now.layout leaf }
    ensures { HasTouched 2 seat.old seat.new }
{
    if !touches {
        return;
    }
    let last = scan.origins.layout.leaf_size(leaf.number()) - 1;
    scan.table.touch(seat, leaf, VALUE_OFFSET);
    scan.table.touch(seat, leaf, last.min(NEXT_LINE) as u8);
}
