//! The end of a removal by a merge: what is left of the leaf's node, and its sibling, become one node.

ghost use Rattle.std.specs.Prelude.{◌≡◌, ◌<◌, ◌≤◌, ◌+◌, ◌-◌, ◌*◌, ◌++◌, ℕ, List, IfSome, None, false, true, length};
ghost use Rattle.compound_node.specs.Nodes.{IsBuiltFrom, NodeView, piece};
ghost use Rattle.node_tries.specs.Changes.{without};
ghost use Rattle.node_tries.specs.Piece.{RisesFrom};
ghost use Rattle.tries.specs.Keys.{Key as KeyValue};
ghost use Rattle.tries.specs.Place.{fork_of, subtrie_collapsed};
ghost use Rattle.rowex_core.specs.Reading.{node_words_of};
ghost use Rattle.rowex_reading.specs.Possible.{IsPossible};
ghost use Rattle.rowex_reading.specs.declared.descent.Found.TheVariants.{Leaf as FoundLeaf};
ghost use Rattle.publish_laws.specs.Rises.{IsSide};
ghost use Rattle.publish_laws.specs.Stages.{AreBeside, merged};
ghost use Rattle.rowex_table.specs.Made.{IsLater, Made};
ghost use Rattle.rowex_table.specs.Seats.{IsSeatOf};
ghost use Rattle.publish_laws.specs.Lone.{HasSpare, KeepsSpare};
ghost use Rattle.rowex_writing.specs.store.Values.{HasDoneDeed, HasLoadedFound};
ghost use Rattle.rowex_writing.specs.build.Building.{IsBuilding};
ghost use Rattle.rowex_writing.specs.locks.Going.{HasLocked, HasLockedNode, IsLockedBy, WorksOnKeepingRecords, WorksOn};
ghost use Rattle.rowex_writing.specs.locks.Locks.{span_numbers, HasRun};
ghost use Rattle.rowex_writing.specs.merging.Merging.{AreNoNode, ClosesFork, HasListed, IsNeighbour, HasWiderLocks, MayMergeInto, HasFewStepsAfterTries};
ghost use Rattle.rowex_writing.specs.build.Taking.{HasClaimed, HasHeight, IsLeftOfNode, TakesOn, lower, upper};
ghost use Rattle.rowex_writing.specs.declared.plan.Deed.TheVariants.{Take};

pub mod widening;

use crate::build::growing::show_number_fits;
use crate::build::kept::Build;
use crate::build::nodes::make_node_from_words;
use crate::locks::locked::{
    load_locked_entry, load_locked_node_words, load_position, load_sibling, read_locked_node,
};
use crate::merging::widening::{lock_for_merge, release_merge_locks};
use crate::plan::job::{Job, Leftover, Merge};
use crate::store::Store;
use crate::store::publishing::{publish_entry, spot_above};
use crate::store::valuing::is_unchanged;
use compound_node::{Entry, Node};
use insert_cases::PathNode;
use record_words::{
    MAX_ENTRIES, NODE_FIELDS, NUMBERS_OFFSET, close_fork, pack_node, read_node, read_numbers,
};
use rowex_core::{Gate, Rec};
use rowex_reading::Found;
use rowex_records::fill_node;
use rowex_table::{HotTable, TableSeat};

/// A fork of a locked node, whose place an entry takes.
#[derive(Clone, Copy)]
struct ClosedFork {
    /// The node, and a slot below the fork.
    step: PathNode,
    /// The slot that stands alone on the fork's other side.
    slot: u8,
    /// The entry that takes the fork's place.
    entry: Entry,
}

/// Ends the removal of `job` by `merge`, and returns whether it did. Without a merge the pass has the record and the locks that it had.
/// There is none in these cases: both siblings have more than 32 entries together; another pass is at work there; the found leaf has
/// another value now. Nor is there one if the sibling has the number of a node near the span. The last case is that no record was free for
/// what is left of the upper node.
///
/// At most two more locks are tried. The value of the found leaf is loaded once more, after the last of these. The steps are at most 53,
/// with two more for each node record left to try, and `level_steps` more for each further lock. In a table with one pass, if a node record
/// was outside the tree, one is at the end, too.
pub(crate) fn try_merge<G: Gate>(
    table: &HotTable,
    seat: &mut TableSeat,
    gate: &mut G,
    build: &mut Build,
    job: &Job<'_>,
    merge: &Merge<'_>,
) -> bool
    requires takes { TakesOn table.now seat.old job.now }
    requires beside { IsNeighbour seat.old.known job.now merge.now }
    requires claimed { HasClaimed table.now seat.old.known merge.now.left.now.number }
    requires left { IsLeftOfNode seat.old.known job.now merge.now.left.now.words }
    ensures tries { HasFewStepsAfterTries table.now G.becomes (span_numbers job.now.way.now job.now.span) build.old.walk.left 53
        (seat.old, gate.old) (seat.new, gate.new) }
    ensures done { result ≡ true → HasDoneDeed seat.old.known seat.new.known Take job.now.key.now job.now.value job.now.found }
    ensures later { result ≡ false → IsLater seat.old.known seat.new.known × IsSeatOf table.now seat.new × IsPossible table.now.layout seat.new.known }
    ensures same { result ≡ false → (seat.new.known.locks ≡ seat.old.known.locks) × (seat.new.known.anchor ≡ seat.old.known.anchor) ×
        HasClaimed table.now seat.new.known merge.now.left.now.number }
    ensures spares { KeepsSpare table.now.layout seat.old seat.new }
{
    if !lock_for_merge(table, seat, gate, job, merge.number) {
        return false;
    }
    if !is_unchanged(table, seat, gate, job) {
        release_merge_locks(table, seat, gate, job, merge.number);
        return false;
    }
    merge_under_locks(table, seat, gate, build, job, merge)
}

/// Returns the merge of `left`, what is left of the node that loses a leaf, with its sibling. `None` if the other side of the last fork is
/// not one node. `None` too if both nodes have more than 33 entries together, the leaf among them. No lock is tried, and at most ten words
/// are loaded. The pass keeps its locks and records.
///
/// A full node has no merge, since 31 entries are left of it, and a sibling has two at least. The sibling isn't locked yet, and may change:
/// so its entries are counted again under its lock.
pub(crate) fn find_merge<'a, G: Gate>(
    table: &HotTable,
    seat: &mut TableSeat,
    gate: &mut G,
    job: &Job<'_>,
    left: &'a Leftover,
) -> Option<Merge<'a>>
    requires takes { TakesOn table.now seat.old job.now }
    ensures reads { WorksOnKeepingRecords table.now G.becomes (seat.old, gate.old) (seat.new, gate.new) }
    ensures beside { IfSome result (IsNeighbour seat.new.known job.now) }
    ensures left { IfSome result (λ merge. merge.left.now ≡ left.now) }
    ensures few { seat.new.known.steps ≤ seat.old.known.steps + 10 }
{
    let (above, low) = (job.way[job.span.end - 1], job.way[job.span.end]);
    if low.count as usize >= MAX_ENTRIES {
        return None;
    }
    let Some((slot, column)) = load_sibling(table, seat, gate, above.number, above.slot) else {
        return None;
    };
    let Entry::Node { number, .. } = load_locked_entry(table, seat, gate, above.number, slot) else {
        return None;
    };
    let word = table.load_fixed(seat, gate, Rec::Node(number), NUMBERS_OFFSET);
    if read_numbers(word).count as usize + low.count as usize > MAX_ENTRIES + 1 {
        return None;
    }
    let position = load_position(table, seat, gate, above.number, column);
    Some(Merge {
        slot,
        position,
        number,
        left,
    })
}

/// Ends the removal of `job` by `merge`, under the locks that [`lock_for_merge`] has taken, and returns whether it did. If the merge's
/// records can't be made, these locks are given back, and the pass has the record that it had. In a table with one pass, if a node record
/// was outside the tree, one is at the end, too.
///
/// Two steps may try each node record that is left. The others are at most 500, fewer than `level_steps` allows for the two further locks.
fn merge_under_locks<G: Gate>(
    table: &HotTable,
    seat: &mut TableSeat,
    gate: &mut G,
    build: &mut Build,
    job: &Job<'_>,
    merge: &Merge<'_>,
) -> bool
    requires wide { HasWiderLocks table.now seat.old job.now merge.now.number }
    requires beside { IsNeighbour seat.old.known job.now merge.now }
    requires claimed { HasClaimed table.now seat.old.known merge.now.left.now.number }
    requires left { IsLeftOfNode seat.old.known job.now merge.now.left.now.words }
    requires loaded { HasLoadedFound seat.old.known job.now.found }
    ensures run { HasRun table.now G.becomes (seat.old, gate.old) (seat.new, gate.new) }
    ensures done { result ≡ true → HasDoneDeed seat.old.known seat.new.known Take job.now.key.now job.now.value job.now.found }
    ensures later { result ≡ false → IsLater seat.old.known seat.new.known }
    ensures same { result ≡ false → (w : HasWiderLocks table.now seat.old job.now merge.now.number) →
        (seat.new.known.locks ≡ w.taking.before.known.locks) × (seat.new.known.anchor ≡ w.taking.before.known.anchor) ×
        HasClaimed table.now seat.new.known merge.now.left.now.number }
    ensures few { seat.new.known.steps ≤ seat.old.known.steps + 2 * build.old.walk.left + 500 }
    ensures spares { KeepsSpare table.now.layout seat.old seat.new }
{
    if let Some(entry) = make_merge_records(table, seat, gate, build, job, merge) {
        list_merged_records(build, job, merge.number);
        publish_merge(table, seat, gate, build, job, entry);
        return true;
    }
    release_merge_locks(table, seat, gate, job, merge.number);
    false
}

/// Puts the merged node of both siblings into the record `merge.left.number`. Returns the entry for what is left of the upper node, in a
/// new record if that has other entries, too. `None` if both siblings have more than 32 entries ([`merge_siblings`]), or if no record was
/// free. Then the pass has the record that it had. Beside two steps for each node record that is left to try, at most 420 are made.
fn make_merge_records<G: Gate>(
    table: &HotTable,
    seat: &mut TableSeat,
    gate: &mut G,
    build: &mut Build,
    job: &Job<'_>,
    merge: &Merge<'_>,
) -> Option<Entry>
    requires wide { HasWiderLocks table.now seat.old job.now merge.now.number }
    requires beside { IsNeighbour seat.old.known job.now merge.now }
    requires claimed { HasClaimed table.now seat.old.known merge.now.left.now.number }
    requires left { IsLeftOfNode seat.old.known job.now merge.now.left.now.words }
    ensures goes { WorksOn table.now G.becomes (seat.old, gate.old) (seat.new, gate.new) }
    ensures may { IfSome result (λ e. MayMergeInto table.now seat.new build.new.made.items job.now merge.now.number e) }
    ensures same { result ≡ None → HasClaimed table.now seat.new.known merge.now.left.now.number }
    ensures few { seat.new.known.steps ≤ seat.old.known.steps + 2 * build.old.walk.left + 420 }
{
    let joined = merge_siblings(table, seat, gate, job, merge)?;
    let number = merge.left.number;
    fill_node(table, seat, gate, number, &pack_node(&joined));
    build.made.clear();
    build.made.push(Rec::Node(number));
    let fork = ClosedFork {
        step: job.way[job.span.end - 1],
        slot: merge.slot,
        entry: Entry::Node {
            number,
            height: joined.height(),
        },
    };
    let entry = raise_closed_fork(table, seat, gate, build, fork)?;
    show_number_fits(entry);
    Some(entry)
}

/// Returns one node of what is left of the lower node and all of its sibling, with a fork of the two at `merge.position`. `None` if they
/// have more than 32 entries together. At most 114 words are loaded, and the pass keeps its locks and records.
fn merge_siblings<G: Gate>(
    table: &HotTable,
    seat: &mut TableSeat,
    gate: &mut G,
    job: &Job<'_>,
    merge: &Merge<'_>,
) -> Option<Node>
    requires wide { HasWiderLocks table.now seat.old job.now merge.now.number }
    requires beside { IsNeighbour seat.old.known job.now merge.now }
    requires left { IsLeftOfNode seat.old.known job.now merge.now.left.now.words }
    ensures reads { WorksOnKeepingRecords table.now G.becomes (seat.old, gate.old) (seat.new, gate.new) }
    ensures joined { (leaf : ℕ) (b : AreBeside seat.old.known.locks job.now.key.now (upper job.now).number (lower job.now).number merge.now.number leaf) →
        b.position ≡ merge.now.position → IfSome result (λ node. IsBuiltFrom node (merged b)) }
    ensures none { result ≡ None → (node other : NodeView) → HasLockedNode seat.old.known (lower job.now).number node →
        HasLockedNode seat.old.known merge.now.number other → AreNoNode (without (lower job.now).slot (piece node)) (piece other) }
    ensures few { seat.new.known.steps ≤ seat.old.known.steps + 114 }
{
    let other = read_locked_node(table, seat, gate, merge.number);
    let left = read_node(&merge.left.words);
    if (left.count() + other.count()) as usize > MAX_ENTRIES {
        return None;
    }
    Some(merge_sides(job.key.bit(merge.position), merge.position, &left, &other))
}

/// Returns one node of the entries of `own` and `other`, with a fork of the two at `position`. `own` is on the side of `bit`.
fn merge_sides(bit: bool, position: u16, own: &Node, other: &Node) -> Node
    requires room { length own.now.entries + length other.now.entries ≤ MAX_ENTRIES }
    requires after { RisesFrom 0 (fork_of bit position (piece own.now) (piece other.now)) }
    ensures { IsBuiltFrom result (fork_of bit position (piece own.now) (piece other.now)) }
{
    if bit {
        Node::merge(position, other, own)
    } else {
        Node::merge(position, own, other)
    }
}

/// Returns the entry for what is left of the node `fork.step.number`, once `fork.entry` has taken the fork's place. That is `fork.entry` if
/// nothing else is left. Else it names a new record, the only one added to `build.made`. `None` if no node record was free: none is made
/// then. Beside two steps for each node record that is left to try, at most 180 are made.
fn raise_closed_fork<G: Gate>(
    table: &HotTable,
    seat: &mut TableSeat,
    gate: &mut G,
    build: &mut Build,
    fork: ClosedFork,
) -> Option<Entry>
    requires building { (news : List Made) × IsBuilding table.now seat.old build.old.made.items news }
    requires range { fork.step.number < table.now.layout.nodes }
    requires locked { IsLockedBy seat.old.known fork.step.number }
    requires closes { (key : KeyValue) × ClosesFork seat.old.known key fork }
    requires room { length build.old.made.items < 2 }
    ensures goes { WorksOn table.now G.becomes (seat.old, gate.old) (seat.new, gate.new) }
    ensures made { (key : KeyValue) (words : List ℕ) (news : List Made) → ClosesFork seat.old.known key fork →
        HasLocked seat.old.known fork.step.number words → IsBuilding table.now seat.old build.old.made.items news →
        IfSome result (λ e. (us : List Made) × IsSide (subtrie_collapsed key fork.entry (node_words_of words).subtrie) e us ×
        IsBuilding table.now seat.new build.new.made.items (us ++ news)) }
    ensures height { IfSome result HasHeight }
    ensures same { result ≡ None → (seat.new.known.own ≡ seat.old.known.own) × (build.new.made.items ≡ build.old.made.items) }
    ensures more { length build.new.made.items ≤ length build.old.made.items + 1 }
    ensures few { seat.new.known.steps ≤ seat.old.known.steps + 2 * build.old.walk.left + 180 }
{
    let mut words = [0; NODE_FIELDS];
    load_locked_node_words(table, seat, gate, fork.step.number, &mut words);
    if let Some(entry) = close_fork(&mut words, fork.step.slot, fork.slot, fork.entry) {
        return Some(entry);
    }
    make_node_from_words(table, seat, gate, build, &words)
}

/// Ends a removal that merges: makes the new records ready, and stores `entry` in place of the entry that names the upper node. Then it
/// retires the records that [`list_merged_records`] has listed. What is still locked it unlocks: the node above the upper one, or the
/// anchor. At most 20 steps are made. In a table with one pass a node record is outside the tree then, since the merge unlinks nodes.
fn publish_merge<G: Gate>(
    table: &HotTable,
    seat: &mut TableSeat,
    gate: &mut G,
    build: &mut Build,
    job: &Job<'_>,
    entry: Entry,
)
    requires may { (number : ℕ) × HasWiderLocks table.now seat.old job.now number × MayMergeInto table.now seat.old build.old.made.items job.now number entry ×
        HasListed build.old.gone.items job.now number }
    requires loaded { HasLoadedFound seat.old.known job.now.found }
    ensures run { HasRun table.now G.becomes (seat.old, gate.old) (seat.new, gate.new) }
    ensures done { HasDoneDeed seat.old.known seat.new.known Take job.now.key.now job.now.value job.now.found }
    ensures few { seat.new.known.steps ≤ seat.old.known.steps + 20 }
    ensures spares { HasSpare table.now.layout seat.new }
{
    let end = job.span.end - 1;
    let store = Store {
        spot: spot_above(job.way, end),
        entry: Some(entry),
        kept: &job.way[end.saturating_sub(1)..end],
    };
    publish_entry(table, seat, gate, build, &store);
}

/// Sets `build.gone` to the records that a merge unlinks, in this order: the upper node, the lower node, which loses the leaf, its sibling
/// `number`, and the leaf. `build.made` stays.
fn list_merged_records(build: &mut Build, job: &Job<'_>, number: u32)
    requires within { (0 < job.now.span.end) × (job.now.span.end < length job.now.way.now) }
    requires found { (leaf value : ℕ) × (job.now.found ≡ FoundLeaf leaf value None) }
    ensures gone { HasListed build.new.gone.items job.now number }
    ensures made { build.new.made.items ≡ build.old.made.items }
{
    let Found::Leaf { number: leaf, .. } = job.found else {
        unreachable!()
    };
    build.gone.clear();
    build.gone.push(Rec::Node(job.way[job.span.end - 1].number));
    build.gone.push(Rec::Node(job.way[job.span.end].number));
    build.gone.push(Rec::Node(number));
    build.gone.push(Rec::Leaf(leaf));
}
