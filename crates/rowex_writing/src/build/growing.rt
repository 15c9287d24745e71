//! A node that gets the new leaf, and what rises from it.

ghost use Rattle.std.specs.Prelude.{◌≡◌, ◌≤◌, ◌+◌, IfErr, IfOk, None};
ghost use Rattle.version_laws.specs.Writer.{added_change};
ghost use Rattle.tries.specs.Content.{item};
ghost use Rattle.publish_laws.specs.Lone.{HasFree, HasSpare};
ghost use Rattle.rowex_writing.specs.build.Spare.{WillSpareOne};
ghost use Rattle.rowex_writing.specs.declared.plan.Deed.TheVariants.{Grow};
ghost use Rattle.rowex_writing.specs.locks.Checks.{HasTakenPlan};
ghost use Rattle.rowex_writing.specs.plan.Counts.{deed_steps, leaf_steps};
ghost use Rattle.rowex_writing.specs.build.Deeds.{CarriesOut, HasNoneFree, MayReplace};
ghost use Rattle.rowex_writing.specs.locks.Going.{WorksOn};
ghost use Rattle.rowex_writing.specs.build.Growths.{HasNumber, MayGrow};
ghost use Rattle.rowex_writing.specs.locks.Locks.{locks_of};

use crate::build::kept::Build;
use crate::build::leaves::make_leaf;
use crate::build::nodes::leaves_free_node;
use crate::build::remaking::NewLeaf;
use crate::build::rising::raise_with_leaf;
use crate::plan::Full;
use crate::plan::job::{Job, Raised};
use compound_node::Entry;
use rowex_core::Gate;
use rowex_table::{HotTable, TableSeat};

/// Makes the new leaf, and what the nodes of `job.span` become with it. In the lowest of them the leaf goes beside the entries that
/// `position` affects. Returns what is to take the nodes' place. If no record of a kind was free, the error is that kind: the records made
/// by then stay in `build.made`. In a table with one pass, if a node record was outside the tree, one is after the change's store, too.
pub(crate) fn grow_node<G: Gate>(
    table: &HotTable,
    seat: &mut TableSeat,
    gate: &mut G,
    build: &mut Build,
    job: &Job<'_>,
    position: u16,
) -> Result<Raised, Full>
    requires taken { HasTakenPlan table.now seat.old job.now (Grow position) }
    ensures done { CarriesOut table.now G.becomes ((seat.old, gate.old), build.old) ((seat.new, gate.new), build.new) job.now (Grow position) result }
    ensures spares { HasSpare table.now.layout seat.old → IfOk result (WillSpareOne table.now.layout seat.new build.new.made.items job.now) }
{
    let Some(number) = make_leaf(table, seat, gate, build, job) else {
        return Err(Full::Leaves);
    };
    let new = NewLeaf {
        key: job.key,
        number,
        position,
        slot: job.way[job.span.len - 1].slot,
    };
    grow_with_leaf(table, seat, gate, build, job, &new)
}

/// Makes and returns what replaces the nodes of `job.span` when the lowest gets `new`, a leaf whose record is made. The error is
/// `Full::Nodes` if no node record was free, or if no other one stays free for removals: the records made by then stay in `build.made`. The
/// steps are at most those of `deed_steps` less those of `leaf_steps`.
fn grow_with_leaf<G: Gate>(
    table: &HotTable,
    seat: &mut TableSeat,
    gate: &mut G,
    build: &mut Build,
    job: &Job<'_>,
    new: &NewLeaf<'_>,
) -> Result<Raised, Full>
    requires may { MayGrow table.now seat.old build.old.made.items job.now new.now }
    ensures goes { WorksOn table.now G.becomes (seat.old, gate.old) (seat.new, gate.new) }
    ensures raised { IfOk result (λ raised. MayReplace table.now seat.new build.new.made.items job.now raised
        (added_change seat.old.known.pass (item new.now.number new.now.key.now job.now.value)) None) }
    ensures full { IfErr result (λ full. (full ≡ Full.Nodes) × HasNoneFree table.now seat.old.bounds seat.old.known seat.new build.new.made.items job.now full) }
    ensures few { seat.new.known.steps + leaf_steps table.now.layout ≤
        seat.old.known.steps + deed_steps table.now.layout (locks_of job.now.span) result }
    ensures free { IfOk result (λ raised. HasFree table.now.layout seat.new) }
{
    build.begin_claims(table.layout().nodes, false);
    let Some((entry, stays)) = raise_with_leaf(table, seat, gate, build, job, new) else {
        return Err(Full::Nodes);
    };
    if !leaves_free_node(table, seat, gate, build) {
        return Err(Full::Nodes);
    }
    let len = job.span.len;
    let low = if stays { len - 1 } else { len };
    show_number_fits(entry);
    Ok(Raised {
        entry: Some(entry),
        low,
        leaf: None,
    })
}

/// Does nothing. It tells the proof that the number of the record of `entry` has 32 bits, as its type says.
pub(crate) fn show_number_fits(entry: Entry)
    ensures { HasNumber entry }
{
    match entry {
        Entry::Leaf(number) => prove!(number <= u32::MAX),
        Entry::Node { number, .. } => prove!(number <= u32::MAX),
    }
}
