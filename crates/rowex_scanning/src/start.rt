//! Where a scan starts.

ghost use Rattle.std.specs.Prelude.{◌≤◌, ℕ};
ghost use Rattle.record_words.specs.declared.TheConstants.{HEAD_WORDS};
ghost use Rattle.rowex_reading.specs.Reads.{IsReader, Reads};
ghost use Rattle.rowex_scanning.specs.Scanning.{first_key_of};
ghost use Rattle.rowex_scanning.specs.Starts.{IsSearchEnd, IsParting, IsStart};

use crate::scan::{Scan, first_key};
use insert_cases::{PathNode, choose_case, last_level_before};
use packed_pairs::Direction;
use rowex_core::Gate;
use rowex_reading::find_affected;
use rowex_table::TableSeat;

/// Where a scan starts on the way of the search for its first key.
#[derive(Clone, Copy)]
pub(crate) struct Start {
    /// The level of the node in which it starts.
    pub level: usize,
    /// That node, with the gap at which the scan starts, or the leaf's slot if `leaf` is true.
    pub top: PathNode,
    /// Whether the leaf at which the search ended comes first. It is not looked for in its slot again: by now there may be another
    /// entry, with keys out of the range.
    pub leaf: bool,
}

/// The leaf at which a search has ended.
#[derive(Clone, Copy)]
pub(crate) struct SearchEnd {
    /// The number of its record.
    pub number: u32,
    /// The position at which its key first differs from the key that was searched for. `None` if it is that key.
    pub mismatch: Option<u16>,
}

/// Finds where `scan` starts on `way`, the way of the search for its first key, which ended at `found`. At most one head is loaded.
///
/// A scan downwards starts left of the gap at which one upwards does. The found leaf comes first if it has the key, or stands just left of
/// that gap, and the scan goes on left of it. Inline, so that the walk behind it still knows its direction.
#[inline(always)]
pub(crate) fn find_start<G: Gate>(
    scan: &Scan,
    seat: &mut TableSeat,
    gate: &mut G,
    way: &[PathNode],
    found: SearchEnd,
) -> Start
    requires reader { IsReader scan.now.table.now seat.old }
    requires way { (m : ℕ) × IsSearchEnd scan.now.table.now.layout seat.old.known m (first_key_of scan.now.range.now) way.now found }
    ensures reads { (n : ℕ) × (n ≤ HEAD_WORDS) × Reads scan.now.table.now G.becomes 0 n (seat.old, gate.old) (seat.new, gate.new) }
    ensures start { (m : ℕ) → IsSearchEnd scan.now.table.now.layout seat.old.known m (first_key_of scan.now.range.now) way.now found →
        IsStart scan.now.range.now.direction seat.new.known m (first_key_of scan.now.range.now) way.now found.number result }
{
    let mut start = find_start_of_upward_scan(scan, seat, gate, way, found);
    match scan.range.direction {
        Direction::Upwards => start,
        Direction::Downwards => {
            let lowest = way[way.len() - 1];
            if start.leaf {
                start.leaf = found.mismatch.is_none();
            } else if start.level + 1 == way.len() && lowest.slot + 1 == start.top.slot {
                start.top.slot = lowest.slot;
                start.leaf = true;
            }
            start
        }
    }
}

/// Finds where a scan upwards from the first key of `scan` starts on `way`, the way of that key's search, which ended at `found`. If the
/// found leaf has the key, the scan starts there. At most one head is loaded.
///
/// Else the leaf's key first differs from the key sought at `found.mismatch`, and so do the keys of all entries that this position affects.
/// All other keys differ from the key sought before that position. So the scan starts at the first affected entry, or behind the last if
/// the key sought has a 1 there. If it starts before an entry that alone is affected, that entry is the found leaf.
///
/// Always inline: a call that takes `scan` makes the compiler read the scan's direction again at each slot.
#[inline(always)]
fn find_start_of_upward_scan<G: Gate>(
    scan: &Scan,
    seat: &mut TableSeat,
    gate: &mut G,
    way: &[PathNode],
    found: SearchEnd,
) -> Start
    requires reader { IsReader scan.now.table.now seat.old }
    requires way { (m : ℕ) × IsSearchEnd scan.now.table.now.layout seat.old.known m (first_key_of scan.now.range.now) way.now found }
    ensures reads { (n : ℕ) × (n ≤ HEAD_WORDS) × Reads scan.now.table.now G.becomes 0 n (seat.old, gate.old) (seat.new, gate.new) }
    ensures start { (m : ℕ) → IsSearchEnd scan.now.table.now.layout seat.old.known m (first_key_of scan.now.range.now) way.now found →
        IsParting seat.new.known m (first_key_of scan.now.range.now) way.now found.number result }
{
    let lowest = way.len() - 1;
    let Some(position) = found.mismatch else {
        return Start {
            level: lowest,
            top: way[lowest],
            leaf: true,
        };
    };
    let below = first_key(scan.range).bit(position);
    let level = last_level_before(way, position);
    let (first, last) = find_affected(scan.table, seat, gate, way[level], position);
    let part = choose_case(way, level, first, last);
    let mut top = way[part.level];
    top.slot = if below { part.last + 1 } else { part.first };
    Start {
        level: part.level,
        top,
        leaf: !below && part.first == part.last,
    }
}
