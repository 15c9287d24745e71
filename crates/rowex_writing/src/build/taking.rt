//! The end of a leaf: its node is made anew without it, or the root is empty. A record may be claimed first, and filled when it is known
//! with what.

ghost use Rattle.std.specs.Prelude.{◌≡◌, ◌≢◌, Err, ℕ, [], IfErr, IfOk, MatchOption, None, Option, Some, ◌≤◌, ◌+◌, ◌*◌};
ghost use Rattle.version_laws.specs.Writer.{removed_change};
ghost use Rattle.tries.specs.Content.{item};
ghost use Rattle.publish_laws.specs.Lone.{HasRoom, HasSpare};
ghost use Rattle.rowex_writing.specs.build.Spare.{WillSpareOne};
ghost use Rattle.rowex_writing.specs.build.Changes.{IsTakeChange};
ghost use Rattle.rowex_writing.specs.locks.Checks.{HasTakenPlan};
ghost use Rattle.rowex_writing.specs.plan.Counts.{level_steps};
ghost use Rattle.rowex_writing.specs.build.Deeds.{CarriesOut, HasNoneFree, MayReplace};
ghost use Rattle.rowex_writing.specs.locks.Going.{WorksOn};
ghost use Rattle.rowex_writing.specs.build.Taking.{HasLeafBelow, HasClaimed, IsLeftOfNode, TakesOn, TakesStill};
ghost use Rattle.rowex_writing.specs.build.Growths.{HasNumber};
ghost use Rattle.finite_map.specs.declared.Change.{Change};
ghost use Rattle.record_words.specs.declared.TheConstants.{NODE_FIELDS};
ghost use Rattle.rowex_reading.specs.declared.descent.Found.TheVariants.{Leaf as FoundLeaf};
ghost use Rattle.rowex_writing.specs.declared.plan.Deed.TheVariants.{TakeTop};

use crate::build::growing::show_number_fits;
use crate::build::kept::Build;
use crate::build::nodes::claim_node;
use crate::build::rising::make_entry_without_leaf;
use crate::plan::Full;
use crate::plan::job::{Job, Leftover, Raised};
use compound_node::Entry;
use record_words::{NUMBERS_INDEX, read_numbers};
use rowex_core::{Gate, Rec};
use rowex_reading::Found;
use rowex_records::fill_node;
use rowex_table::{HotTable, TableSeat};

/// Makes what is left of the found leaf's node without the leaf, and returns the entry for that, which is to take the node's place. Node
/// and leaf are to be unlinked. The error is `Full::Nodes` if no node record was free for what is left.
///
/// In a table with one pass that has a free node record, there is no error. In a table with one pass, if a node record was outside the
/// tree, one is after the change's store, too. The steps are at most `level_steps` + 1, and two for each node record tried.
pub(crate) fn make_without_leaf<G: Gate>(
    table: &HotTable,
    seat: &mut TableSeat,
    gate: &mut G,
    build: &mut Build,
    job: &Job<'_>,
) -> Result<Raised, Full>
    requires taken { HasTakenPlan table.now seat.old job.now TakeTop }
    ensures done { CarriesOut table.now G.becomes ((seat.old, gate.old), build.old) ((seat.new, gate.new), build.new) job.now TakeTop result }
    ensures leafless { result ≢ Err Full.Leaves }
    ensures walk { seat.new.known.steps + 2 * build.new.walk.left ≤ seat.old.known.steps + 2 * table.now.layout.nodes + level_steps + 1 }
    ensures lowest { IfOk result (λ raised. raised.low ≡ job.now.span.len) }
    ensures spares { HasSpare table.now.layout seat.old → IfOk result (WillSpareOne table.now.layout seat.new build.new.made.items job.now) }
    ensures finds { HasRoom table.now.layout seat.old → result ≢ Err Full.Nodes }
{
    build.made.clear();
    remake_without_leaf(table, seat, gate, build, job)
}

/// Returns what takes the place of the found leaf, which is all of the tree: the root is to be empty. No record is made for that, so
/// `build.made` is empty then.
pub(crate) fn empty_root(build: &mut Build, job: &Job<'_>) -> Raised
    requires found { (leaf value : ℕ) × (job.now.found ≡ FoundLeaf leaf value None) }
    ensures made { build.new.made.items ≡ [] }
    ensures same { (leaf value : ℕ) → job.now.found ≡ FoundLeaf leaf value None → result ≡ record { entry = None; low = 0; leaf = Some leaf } }
{
    build.made.clear();
    let Found::Leaf { number, .. } = job.found else {
        unreachable!()
    };
    Raised {
        entry: None,
        low: 0,
        leaf: Some(number),
    }
}

/// Makes what is left of the span's node without the found leaf, and returns the entry for that, which is to replace the node. The node and
/// the leaf are to be unlinked. The error is `Full::Nodes` if no node record was free for what is left. In a table with one pass that has a
/// free node record, there is no error. The steps are at most `level_steps` + 1, and two for each node record tried.
fn remake_without_leaf<G: Gate>(
    table: &HotTable,
    seat: &mut TableSeat,
    gate: &mut G,
    build: &mut Build,
    job: &Job<'_>,
) -> Result<Raised, Full>
    requires below { (m : ℕ) × (number : ℕ) × (value : ℕ) × HasLeafBelow table.now seat.old m job.now number value }
    requires made { build.old.made.items ≡ [] }
    ensures goes { WorksOn table.now G.becomes (seat.old, gate.old) (seat.new, gate.new) }
    ensures raised { (m number value : ℕ) → HasLeafBelow table.now seat.old m job.now number value →
        IfOk result (λ raised. MayReplace table.now seat.new build.new.made.items job.now raised
        (removed_change seat.old.known.pass (item number job.now.key.now value)) (Some value)) }
    ensures full { IfErr result (λ full. (full ≡ Full.Nodes) × HasNoneFree table.now [] seat.old.known seat.new build.new.made.items job.now full) }
    ensures walk { seat.new.known.steps + 2 * build.new.walk.left ≤ seat.old.known.steps + 2 * table.now.layout.nodes + level_steps + 1 }
    ensures lowest { IfOk result (λ raised. raised.low ≡ job.now.span.len) }
    ensures finds { HasRoom table.now.layout seat.old → result ≢ Err Full.Nodes }
{
    build.begin_claims(table.layout().nodes, true);
    let lowest = job.way[job.span.end];
    let Some(entry) = make_entry_without_leaf(table, seat, gate, build, lowest) else {
        return Err(Full::Nodes);
    };
    Ok(raised_for_leftover(job, entry))
}

/// Claims a node record for what the removal of `job` leaves of its lower node, and returns the record's number. If what is left is merged
/// with its sibling, the record is for the merged node. `None` if each node record was found not free, committed or not. In a table with one
/// pass that has a free one, the result is a number. The steps are at most two for each node record tried, and two for a spare one.
pub(crate) fn claim_for_leftover<G: Gate>(
    table: &HotTable,
    seat: &mut TableSeat,
    gate: &mut G,
    build: &mut Build,
    job: &Job<'_>,
) -> Option<u32>
    requires takes { TakesOn table.now seat.old job.now }
    requires none { seat.old.known.own ≡ [] }
    ensures goes { WorksOn table.now G.becomes (seat.old, gate.old) (seat.new, gate.new) }
    ensures claims { MatchOption result (HasNoneFree table.now [] seat.old.known seat.new build.new.made.items job.now Full.Nodes)
        (HasClaimed table.now seat.new.known) }
    ensures walk { seat.new.known.steps + 2 * build.new.walk.left ≤ seat.old.known.steps + 2 * table.now.layout.nodes + 2 }
    ensures finds { HasRoom table.now.layout seat.old → result ≢ None }
{
    build.made.clear();
    build.begin_claims(table.layout().nodes, true);
    let number = claim_node(table, seat, gate, build)?;
    Some(number)
}

/// Fills the claimed record `left.number` with `left.words`, by at most two steps for each word. Returns what is to take the place of the
/// node that loses the leaf: the entry of that record. Node and leaf are to be unlinked. `build.made` lists this record alone then.
pub(crate) fn fill_leftover<G: Gate>(
    table: &HotTable,
    seat: &mut TableSeat,
    gate: &mut G,
    build: &mut Build,
    job: &Job<'_>,
    left: &Leftover,
) -> Raised
    requires still { TakesStill table.now seat.old job.now }
    requires claimed { HasClaimed table.now seat.old.known left.now.number }
    requires left { IsLeftOfNode seat.old.known job.now left.now.words }
    ensures goes { WorksOn table.now G.becomes (seat.old, gate.old) (seat.new, gate.new) }
    ensures may { (x : Change) × (was : Option ℕ) × IsTakeChange seat.old.known.pass job.now.key.now job.now.found x was ×
        MayReplace table.now seat.new build.new.made.items job.now result x was }
    ensures low { result.low ≡ job.now.span.len }
    ensures few { seat.new.known.steps ≤ seat.old.known.steps + 2 * NODE_FIELDS }
{
    fill_node(table, seat, gate, left.number, &left.words);
    build.made.clear();
    build.made.push(Rec::Node(left.number));
    let entry = Entry::Node {
        number: left.number,
        height: read_numbers(left.words[NUMBERS_INDEX]).height,
    };
    raised_for_leftover(job, entry)
}

/// Returns what takes the place of the span's only node, which loses the found leaf of `job`. `entry` is all that is left of that node, and
/// its record's number fits 32 bits. The node and the leaf are to be unlinked.
pub(crate) fn raised_for_leftover(job: &Job<'_>, entry: Entry) -> Raised
    requires found { (leaf value : ℕ) × (job.now.found ≡ FoundLeaf leaf value None) }
    ensures same { (leaf value : ℕ) → job.now.found ≡ FoundLeaf leaf value None →
        result ≡ record { entry = Some entry; low = job.now.span.len; leaf = Some leaf } }
    ensures number { HasNumber entry }
{
    show_number_fits(entry);
    let Found::Leaf { number, .. } = job.found else {
        unreachable!()
    };
    Raised {
        entry: Some(entry),
        low: job.span.len,
        leaf: Some(number),
    }
}
