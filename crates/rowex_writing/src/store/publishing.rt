//! The last part of each change: its records are made ready, and one store makes it visible. What it leaves comes after.

ghost use Rattle.std.specs.Prelude.{◌≡◌, ℕ, List, ◌++◌, Option, ◌<◌, ◌≤◌, ◌+◌, ◌-◌, length, map, slice_range};
ghost use Rattle.finite_map.specs.declared.Change.{Change};
ghost use Rattle.insert_cases.specs.declared.choice.PathNode.{PathNode as PathNodeView};
ghost use Rattle.record_words.specs.Entry.{HasEntryWord, entry_word};
ghost use Rattle.record_words.specs.declared.records.Rec.TheVariants.{Node as a_node};
ghost use Rattle.record_words.specs.Decoding.{entry_of};
ghost use Rattle.rowex_table.specs.Made.{Made};
ghost use Rattle.publish_laws.specs.Stages.{HasReady};
ghost use Rattle.publish_laws.specs.Lone.{HasSpare};
ghost use Rattle.rowex_writing.specs.build.Spare.{WillSpare, WillSpareOne};
ghost use Rattle.rowex_writing.specs.store.Values.{HasLoadedFound};
ghost use Rattle.rowex_writing.specs.build.Building.{IsBuilding};
ghost use Rattle.rowex_writing.specs.build.Changes.{HasChanged};
ghost use Rattle.rowex_writing.specs.store.Retiring.{MayStore};
ghost use Rattle.rowex_writing.specs.build.Deeds.{MayReplace, leaf_gone};
ghost use Rattle.rowex_writing.specs.locks.Going.{WorksOn};
ghost use Rattle.rowex_writing.specs.locks.Jobs.{HoldsSpan};
ghost use Rattle.rowex_writing.specs.locks.Locks.{locks_of, HasRun};
ghost use Rattle.rowex_writing.specs.build.Putting.{IsSpotAbove};

use crate::build::kept::{Build, MOST_MADE};
use crate::plan::Span;
use crate::plan::job::{Job, Raised};
use crate::store::Store;
use crate::store::ending::retire_and_unlock;
use arrayvec::ArrayVec;
use bounded_vec::BoundedVec;
use compound_node::Entry;
use insert_cases::PathNode;
use record_words::pack_entry;
use rowex_core::{Gate, Rec, Spot};
use rowex_records::make_ready;
use rowex_table::{HotTable, TableSeat};

/// Makes the records in `made`, all those of a change, ready to be linked, the last one first, by one step each. `made` is empty then.
#[inline(always)]
fn ready_records<G: Gate>(
    table: &HotTable,
    seat: &mut TableSeat,
    gate: &mut G,
    made: &mut BoundedVec<Rec, MOST_MADE>,
)
    requires building { (news : List Made) × IsBuilding table.now seat.old made.old.items news }
    ensures goes { WorksOn table.now G.becomes (seat.old, gate.old) (seat.new, gate.new) }
    ensures ready { (news : List Made) → IsBuilding table.now seat.old made.old.items news → HasReady seat.new.known seat.old.known.locks news }
    ensures few { seat.new.known.steps ≤ seat.old.known.steps + length made.old.items }
{
    while let Some(rec) = made.pop() {
        make_ready(table, seat, gate, rec);
    }
}

/// Returns the word of `entry`, or that of an empty root for `None`. `entry` has a word: the height of a node is at least 1, and number and
/// height fit.
fn stored_word(entry: Option<Entry>) -> u64
    requires { HasEntryWord (entry_of (entry_word entry)) }
    ensures { result ≡ entry_word entry }
{
    match entry {
        None => pack_entry(None),
        Some(Entry::Leaf(number)) => pack_entry(Some(Entry::Leaf(number))),
        Some(Entry::Node { number, height }) => pack_entry(Some(Entry::Node { number, height })),
    }
}

/// Publishes the change of `job`: makes the records in `build.made` ready, stores the word of `raised.entry` above the span, and marks the
/// records that the store unlinks. Then it unlocks the nodes that stay, the one above the span first, and the anchor, if that is locked.
/// The pass has no record and no lock then.
///
/// At most one step is made for each new record, for the unlinked leaf and for each lock, and three more. In a table with one pass a node
/// record is outside the tree at the end, if one was free before, or a node is unlinked. The same holds if one was outside before, and no
/// node is linked.
pub(crate) fn publish_change<G: Gate>(
    table: &HotTable,
    seat: &mut TableSeat,
    gate: &mut G,
    build: &mut Build,
    job: &Job<'_>,
    raised: Raised,
)
    requires held { HoldsSpan table.now seat.old job.now }
    requires may { (x : Change) × (was : Option ℕ) × MayReplace table.now seat.old build.old.made.items job.now raised x was }
    requires loaded { HasLoadedFound seat.old.known job.now.found }
    ensures run { HasRun table.now G.becomes (seat.old, gate.old) (seat.new, gate.new) }
    ensures changed { (x : Change) (was : Option ℕ) → MayReplace table.now seat.old build.old.made.items job.now raised x was →
        HasChanged seat.old.known seat.new.known x was }
    ensures few { seat.new.known.steps ≤
        seat.old.known.steps + length build.old.made.items + length (leaf_gone raised.leaf) + locks_of job.now.span + 3 }
    ensures spares { WillSpareOne table.now.layout seat.old build.old.made.items job.now raised → HasSpare table.now.layout seat.new }
{
    let way = job.way;
    let span = job.span;
    list_gone_records(build, &way[span.end..raised.low], raised.leaf);
    let kept = list_kept_nodes(way, span, raised.low);
    let store = Store {
        spot: spot_above(way, span.end),
        entry: raised.entry,
        kept: kept.as_slice(),
    };
    publish_entry(table, seat, gate, build, &store);
}

/// Makes the one store of a change: makes the records in `build.made` ready, stores the word of `store.entry`, and marks the records in
/// `build.gone`, which the store unlinks. Then it unlocks the nodes `store.kept`, and the anchor, if the root is stored. Each of these
/// records and nodes takes one step, and three are for the store, the epoch and the anchor.
///
/// In a table with one pass a node record is outside the tree at the end, if one was free before, or a node is unlinked. The same holds if
/// one was outside before, and no node is linked.
#[inline(always)]
pub(crate) fn publish_entry<G: Gate>(
    table: &HotTable,
    seat: &mut TableSeat,
    gate: &mut G,
    build: &mut Build,
    store: &Store<'_>,
)
    requires may { (x : Change) × (was : Option ℕ) × MayStore table.now seat.old build.old store.now.kept.now store.now.spot store.now.entry x was }
    ensures run { HasRun table.now G.becomes (seat.old, gate.old) (seat.new, gate.new) }
    ensures changed { (x : Change) (was : Option ℕ) → MayStore table.now seat.old build.old store.now.kept.now store.now.spot store.now.entry x was →
        HasChanged seat.old.known seat.new.known x was }
    ensures few { seat.new.known.steps ≤
        seat.old.known.steps + length build.old.made.items + length build.old.gone.items + length store.now.kept.now + 3 }
    ensures spares { WillSpare table.now.layout seat.old build.old.made.items build.old.gone.items → HasSpare table.now.layout seat.new }
{
    ready_records(table, seat, gate, &mut build.made);
    table.publish(seat, gate, store.spot, stored_word(store.entry));
    retire_and_unlock(table, seat, gate, build.gone.as_slice(), store);
}

/// Sets `build.gone` to the records that a change unlinks: those of the nodes `steps`, at most 2,160, and the leaf record `leaf`, if there
/// is one. `build.made` stays.
#[inline(always)]
fn list_gone_records(build: &mut Build, steps: &[PathNode], leaf: Option<u32>)
    requires { length steps.now ≤ 2160 }
    ensures gone { build.new.gone.items ≡ map (λ (s : PathNodeView). a_node s.number) steps.now ++ leaf_gone leaf }
    ensures made { build.new.made.items ≡ build.old.made.items }
{
    build.gone.clear();
    for index in 0..steps.len() {
        build.gone.push(Rec::Node(steps[index].number));
    }
    if let Some(number) = leaf {
        build.gone.push(Rec::Leaf(number));
    }
}

/// Returns the locked nodes of `way` that a change keeps. These are the one above `span`, if there is one, and the span's lowest, if `low`
/// is its index. If the lowest node is unlinked as well, `low` is `span.len`.
#[inline(always)]
fn list_kept_nodes(way: &[PathNode], span: Span, low: usize) -> ArrayVec<PathNode, 2>
    requires { (span.end ≤ low) × (low ≤ span.len) × (span.len ≤ low + 1) × (span.len ≤ length way.now) }
    ensures { result.items ≡ slice_range way.now (span.end - 1) span.end ++ slice_range way.now low span.len }
{
    let mut kept = ArrayVec::new();
    if span.end > 0 {
        kept.push(way[span.end - 1]);
    }
    if low < span.len {
        kept.push(way[low]);
    }
    kept
}

/// Returns the spot of the entry above the nodes of `way` from index `end` on: a slot of the node above them, or the root if `end` is 0.
pub(crate) fn spot_above(way: &[PathNode], end: usize) -> Spot
    requires { end ≤ length way.now }
    ensures { IsSpotAbove way.now end result }
{
    if end == 0 {
        return Spot::Root;
    }
    let step = way[end - 1];
    Spot::Slot {
        node: step.number,
        slot: step.slot,
    }
}
