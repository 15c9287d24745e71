//! What is done under the locks of a span: records are made for what comes in the place of its nodes, and none of them is linked yet.

ghost use Rattle.std.specs.Prelude.{◌≢◌, Err, IfOk};
ghost use Rattle.publish_laws.specs.Lone.{HasRoom, HasSpare};
ghost use Rattle.rowex_writing.specs.build.Spare.{WillSpareOne};
ghost use Rattle.rowex_writing.specs.locks.Checks.{HasTakenPlan};
ghost use Rattle.rowex_writing.specs.build.Deeds.{CarriesOut};
ghost use Rattle.rowex_writing.specs.plan.Plans.{TakesLeaf};
ghost use Rattle.rowex_writing.specs.declared.plan.Deed.TheVariants.{Put, PushDown};

use crate::build::growing::grow_node;
use crate::build::kept::Build;
use crate::build::leaves::make_leaf;
use crate::build::nodes::{leaves_free_node, make_node};
use crate::build::remaking::pair_with_leaf;
use crate::build::taking::{empty_root, make_without_leaf};
use crate::plan::job::{Job, Raised};
use crate::plan::{Deed, Full};
use compound_node::Entry;
use rowex_core::Gate;
use rowex_reading::Found;
use rowex_table::{HotTable, TableSeat};

/// Makes the records of the change of `job`, which other passes don't see yet, by at most `deed_steps` steps. Returns what is to take the
/// place of the nodes of `job.span`, which are locked and checked. `job.deed` is neither `Deed::Value` nor `Deed::Take`.
///
/// If no record of a kind that it wants is free, the error is that kind. The records made by then stay in `build.made`. A change that makes
/// nodes for a new leaf wants one node record more, which stays free for removals. A removal needs no leaf record.
///
/// In a table with one pass that has a free node record, a removal has no error. In a table with one pass, if a node record was outside the
/// tree, one is after the change's store, too.
pub(crate) fn carry_out_deed<G: Gate>(
    table: &HotTable,
    seat: &mut TableSeat,
    gate: &mut G,
    build: &mut Build,
    job: &Job<'_>,
) -> Result<Raised, Full>
    requires taken { HasTakenPlan table.now seat.old job.now job.now.deed }
    requires makes { (job.now.deed ≢ Deed.Value) × (job.now.deed ≢ Deed.Take) }
    ensures done { CarriesOut table.now G.becomes ((seat.old, gate.old), build.old) ((seat.new, gate.new), build.new) job.now job.now.deed result }
    ensures leafless { TakesLeaf job.now.deed → result ≢ Err Full.Leaves }
    ensures kind { job.now.deed ≢ Deed.Value }
    ensures spares { HasSpare table.now.layout seat.old → IfOk result (WillSpareOne table.now.layout seat.new build.new.made.items job.now) }
    ensures finds { TakesLeaf job.now.deed → HasRoom table.now.layout seat.old → result ≢ Err Full.Nodes }
{
    match job.deed {
        Deed::Put => put_new_leaf(table, seat, gate, build, job),
        Deed::PushDown { position } => push_leaf_down(table, seat, gate, build, job, position),
        Deed::Grow { position } => grow_node(table, seat, gate, build, job, position),
        Deed::TakeTop => make_without_leaf(table, seat, gate, build, job),
        Deed::Empty => Ok(empty_root(build, job)),
        Deed::Take | Deed::Value => unreachable!(),
    }
}

/// Makes and returns the new leaf, which is to be all of the tree. The error is `Full::Leaves` if no leaf record with room was free; no
/// node record is needed. In a table with one pass, if a node record was outside the tree, one is after the change's store, too.
pub(crate) fn put_new_leaf<G: Gate>(
    table: &HotTable,
    seat: &mut TableSeat,
    gate: &mut G,
    build: &mut Build,
    job: &Job<'_>,
) -> Result<Raised, Full>
    requires taken { HasTakenPlan table.now seat.old job.now Put }
    ensures done { CarriesOut table.now G.becomes ((seat.old, gate.old), build.old) ((seat.new, gate.new), build.new) job.now Put result }
    ensures kind { result ≢ Err Full.Nodes }
    ensures spares { HasSpare table.now.layout seat.old → IfOk result (WillSpareOne table.now.layout seat.new build.new.made.items job.now) }
{
    let Some(number) = make_leaf(table, seat, gate, build, job) else {
        return Err(Full::Leaves);
    };
    Ok(Raised {
        entry: Some(Entry::Leaf(number)),
        low: job.span.len,
        leaf: None,
    })
}

/// Makes the new leaf, and a node of the new leaf and the found one, with a fork at `position`. Returns the node, which is to take the
/// found leaf's place.
///
/// The error is `Full::Leaves` if no leaf record with room was free. It is `Full::Nodes` if no node record was free, or if no other one
/// stays free for removals. The records made by then stay in `build.made`. In a table with one pass, if a node record was outside the tree,
/// one is after the change's store, too.
pub(crate) fn push_leaf_down<G: Gate>(
    table: &HotTable,
    seat: &mut TableSeat,
    gate: &mut G,
    build: &mut Build,
    job: &Job<'_>,
    position: u16,
) -> Result<Raised, Full>
    requires taken { HasTakenPlan table.now seat.old job.now (PushDown position) }
    ensures done { CarriesOut table.now G.becomes ((seat.old, gate.old), build.old) ((seat.new, gate.new), build.new) job.now (PushDown position) result }
    ensures spares { HasSpare table.now.layout seat.old → IfOk result (WillSpareOne table.now.layout seat.new build.new.made.items job.now) }
{
    let Found::Leaf { number: old, .. } = job.found else {
        unreachable!()
    };
    let Some(leaf) = make_leaf(table, seat, gate, build, job) else {
        return Err(Full::Leaves);
    };
    build.begin_claims(table.layout().nodes, false);
    let pair = pair_with_leaf(job.key, position, Entry::Leaf(old), leaf);
    let Some(entry) = make_node(table, seat, gate, build, &pair) else {
        return Err(Full::Nodes);
    };
    if !leaves_free_node(table, seat, gate, build) {
        return Err(Full::Nodes);
    }
    Ok(Raised {
        entry: Some(entry),
        low: job.span.len,
        leaf: None,
    })
}
