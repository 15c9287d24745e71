//! Census: how many records of an index are in each state.

ghost use Rattle.std.specs.Prelude.{◌≡◌, ◌+◌, ◌-◌, ◌<◌, ◌≤◌, ◌^◌, []};
ghost use Rattle.record_words.specs.declared.state.Tag.{Tag as Found};
ghost use Rattle.record_words.specs.Reading.{IsSpelling};
ghost use Rattle.record_words.specs.State.{HasStateWord, state_word};
ghost use Rattle.rowex_table.specs.Seats.{IsSeatOf};
ghost use Rattle.hot_index_calls.specs.Census.{CountsAll, CountsLeaves, CountsNodes, LoadsUncommitted, counts_of, with_tag};

use record_words::{RECORD_KINDS, Tag, unpack_state};
use rowex_core::{Gate, Rec};
use rowex_table::{HotTable, TableSeat};

/// How many records of one kind and class are in each state. All fields together are the table's records of the kind and class.
#[derive(Clone, Copy)]
pub struct StateCounts {
    /// Free for any pass to claim.
    pub free: u32,
    /// Claimed by a pass, and not ready yet.
    pub held: u32,
    /// In use, locked or not. This counts records that a change has made ready and not linked yet, or unlinked and not retired yet.
    pub live: u32,
    /// Retired, and not given back yet.
    pub obsolete: u32,
    /// Reserved and not committed yet. Such a record is free, but counts here alone.
    pub uncommitted: u32,
}

/// How many node records, and leaf records of each class, are in each state, and how many bytes the table has.
#[derive(Clone, Copy)]
pub struct RecordCounts {
    pub nodes: StateCounts,
    /// Leaf records for keys of up to 8 bytes.
    pub short: StateCounts,
    /// Leaf records for keys of up to 24 bytes.
    pub medium: StateCounts,
    /// Leaf records for keys of up to 56 bytes.
    pub large: StateCounts,
    /// Leaf records for keys of up to 88 bytes.
    pub wide: StateCounts,
    /// Leaf records for keys of any length.
    pub long: StateCounts,
    pub bytes: usize,
}

/// Returns how many records of each kind and class are in each state, and the bytes of the table. The state of each committed record is
/// loaded once, each at a moment of its own, those of nodes first. How many records are uncommitted is loaded after the first of these
/// steps. So while other passes make steps, the counts are of no single moment. Each record that isn't free becomes one of the pass's
/// failed steps. `gate` is told each step, and the pin stays.
pub fn count_records<G: Gate>(table: &HotTable, seat: &mut TableSeat, gate: &mut G) -> RecordCounts
    requires { IsSeatOf table.now seat.old }
    ensures pin { seat.new.known.pin ≡ seat.old.known.pin }
    ensures steps { CountsAll table.now G.becomes result (seat.old, gate.old) (seat.new, gate.new) }
{
    let layout = table.layout();
    let first = table.load_state(seat, gate, Rec::Node(0));
    let words = load_uncommitted(table, seat);
    let nodes = count_nodes(table, seat, gate, first, words[0]);
    let short = count_leaves(table, seat, gate, 0, layout.medium_from, words[1]);
    let medium = count_leaves(
        table,
        seat,
        gate,
        layout.medium_from,
        layout.large_from,
        words[2],
    );
    let large = count_leaves(
        table,
        seat,
        gate,
        layout.large_from,
        layout.wide_from,
        words[3],
    );
    let wide = count_leaves(
        table,
        seat,
        gate,
        layout.wide_from,
        layout.long_from,
        words[4],
    );
    let long = count_leaves(table, seat, gate, layout.long_from, layout.leaves, words[5]);
    RecordCounts {
        nodes,
        short,
        medium,
        large,
        wide,
        long,
        bytes: layout.bytes(),
    }
}

/// Loads how many records of each kind are uncommitted, and returns these numbers. It makes no step.
fn load_uncommitted(table: &HotTable, seat: &mut TableSeat) -> [u64; RECORD_KINDS]
    requires { IsSeatOf table.now seat.old }
    ensures { LoadsUncommitted table.now.layout result seat.old seat.new }
{
    let mut words = [0u64; RECORD_KINDS];
    for kind in 0..RECORD_KINDS {
        words[kind] = table.load_uncommitted(seat, kind as u8);
    }
    words
}

/// Loads the state of each committed node record after the first once. Returns how many are in each state, the first included. Its state
/// word is `first`. The last `uncommitted` node records are uncommitted. `gate` is told each load, and the pin stays.
fn count_nodes<G: Gate>(
    table: &HotTable,
    seat: &mut TableSeat,
    gate: &mut G,
    first: u64,
    uncommitted: u64,
) -> StateCounts
    requires own { IsSeatOf table.now seat.old }
    requires state { IsSpelling HasStateWord state_word first }
    ensures pin { seat.new.known.pin ≡ seat.old.known.pin }
    ensures steps { CountsNodes table.now G.becomes first uncommitted result (seat.old, gate.old) (seat.new, gate.new) }
{
    let nodes = table.layout().nodes;
    let behind = 1 + committed_of(nodes - 1, uncommitted);
    let mut counts = count_state(zero_counts(nodes - behind), first);
    for number in 1..behind {
        let word = table.load_state(seat, gate, Rec::Node(number));
        counts = count_state(counts, word);
    }
    counts
}

/// Loads the state of each committed leaf record from number `first` on and below `behind` once, and returns how many are in each state.
/// The last `uncommitted` of these records are uncommitted. `gate` is told each load, and the pin stays.
fn count_leaves<G: Gate>(
    table: &HotTable,
    seat: &mut TableSeat,
    gate: &mut G,
    first: u32,
    behind: u32,
    uncommitted: u64,
) -> StateCounts
    requires own { IsSeatOf table.now seat.old }
    requires range { (first ≤ behind) × (behind ≤ table.now.layout.leaves) }
    ensures pin { seat.new.known.pin ≡ seat.old.known.pin }
    ensures steps { CountsLeaves table.now G.becomes first behind uncommitted result (seat.old, gate.old) (seat.new, gate.new) }
{
    let committed = committed_of(behind - first, uncommitted);
    let mut counts = zero_counts(behind - first - committed);
    for number in first..first + committed {
        let word = table.load_state(seat, gate, Rec::Leaf(number));
        counts = count_state(counts, word);
    }
    counts
}

/// Returns how many of `count` records are committed where the last `uncommitted` ones aren't.
fn committed_of(count: u32, uncommitted: u64) -> u32
    ensures { result ≡ count - uncommitted }
{
    if uncommitted < count as u64 {
        count - uncommitted as u32
    } else {
        0
    }
}

/// Returns the counts of no state: 0 of each, and `uncommitted` records that are uncommitted.
fn zero_counts(uncommitted: u32) -> StateCounts
    ensures { result ≡ counts_of uncommitted [] }
{
    StateCounts {
        free: 0,
        held: 0,
        live: 0,
        obsolete: 0,
        uncommitted,
    }
}

/// Returns `counts` with one more record, whose state word is `word`. A locked node counts as live. All counts together stay below 2^32, as
/// there are fewer records of a kind.
fn count_state(counts: StateCounts, word: u64) -> StateCounts
    requires few { counts.free + counts.held + counts.live + counts.obsolete + 1 < 2 ^ 32 }
    requires state { IsSpelling HasStateWord state_word word }
    ensures { (tag : Found) → HasStateWord tag → state_word tag ≡ word → result ≡ with_tag tag counts }
{
    let mut more = counts;
    match unpack_state(word) {
        Ok(Tag::Free) => more.free += 1,
        Ok(Tag::Held) => more.held += 1,
        Ok(Tag::Live | Tag::Locked) => more.live += 1,
        Ok(Tag::Obsolete(_)) => more.obsolete += 1,
        Err(_) => unreachable!(),
    }
    more
}
