//! One attempt of a call that may change the index, from a pinned pass that has nothing to one that has nothing.

ghost use Rattle.std.specs.Prelude.{◌≡◌, ◌≢◌, ◌⊎◌, ◌<◌, ◌≤◌, [], ℕ, Option, length, true, false, IfErr, IfOk, IsSome, Err, Ok, ◌+◌, ◌*◌};
ghost use Rattle.finite_map.specs.declared.Change.{Change};
ghost use Rattle.finite_map.specs.Maps.{key_of as the_key};
ghost use Rattle.rowex_core.specs.declared.known.Known.{Known};
ghost use Rattle.rowex_reading.specs.Possible.{IsPossible};
ghost use Rattle.publish_laws.specs.Ending.{IsAtRest};
ghost use Rattle.rowex_table.specs.Made.{IsLater};
ghost use Rattle.rowex_table.specs.Seats.{IsSeatOf};
ghost use Rattle.publish_laws.specs.Lone.{HasRoom, KeepsSpare};
ghost use Rattle.rowex_writing.specs.build.Spare.{IsRemoval};
ghost use Rattle.rowex_writing.specs.attempts.Attempts.{HasAnswered, HasAttempted, HasFailed, HasRefused, IsFullOnlyIfWanting, LacksNoLeaf, bounds_for, refusal_of as the_refusal};
ghost use Rattle.rowex_writing.specs.store.Values.{HasDoneDeed, HasFoundOther, HasLoadedFound, IsFoundAgain};
ghost use Rattle.rowex_writing.specs.plan.Planned.{HasLoadedRoot};
ghost use Rattle.rowex_reading.specs.Ways.{value_of as the_value};
ghost use Rattle.rowex_writing.specs.plan.Asking.{aim_of as the_aim, value_in as the_value_in};
ghost use Rattle.rowex_writing.specs.build.Deeds.{MayReplace, bounds_of_deed, leaf_gone};
ghost use Rattle.rowex_writing.specs.build.Building.{HasNotMade};
ghost use Rattle.rowex_writing.specs.build.Changes.{HasChanged, HasPlanned};
ghost use Rattle.rowex_writing.specs.locks.Checks.{HasTakenPlan, HasTakenSpan};
ghost use Rattle.rowex_writing.specs.merging.Merging.{HasChangeStepsAfterTries, EndsChange, HasFewStepsAfterTries};
ghost use Rattle.rowex_writing.specs.build.Taking.{HasClaimed, IsLeftOfNode, TakesOn};
ghost use Rattle.rowex_writing.specs.declared.plan.Deed.TheVariants.{Take};
ghost use Rattle.rowex_writing.specs.plan.Plans.{TakesLeaf};
ghost use Rattle.rowex_writing.specs.locks.Jobs.{HoldsSpan, IsJobFrom, IsWithinWay};
ghost use Rattle.rowex_writing.specs.locks.Locks.{HasMadeNoChange, IsOfAttempt, TriesNodesBy, Works, locks_of, span_numbers, HasRun, HasTriedOnce};
ghost use Rattle.rowex_writing.specs.locks.Others.{IsBlocked, IsHindered};
ghost use Rattle.rowex_writing.specs.plan.Counts.{change_steps, held_loads, most_locks, most_steps_of, span_steps, value_steps};
ghost use Rattle.record_words.specs.declared.TheConstants.{HEAD_WORDS};

use crate::build::deeds::carry_out_deed;
use crate::build::kept::Build;
use crate::build::rising::load_without_leaf;
use crate::build::taking::{claim_for_leftover, fill_leftover, raised_for_leftover};
use crate::locks::checking::check_span;
use crate::locks::lock_span;
use crate::merging::{find_merge, try_merge};
use crate::plan::asking::{found_value, request_of};
use crate::plan::job::{Job, Leftover, Raised};
use crate::plan::{Deed, Full, Plan, find_plan};
use crate::store::ending::release_records_and_locks;
use crate::store::publishing::publish_change;
use crate::store::valuing::{is_unchanged, load_found_again, store_value};
use bounded_vec::BoundedVec;
use finite_map::{Call, Reply};
use insert_cases::PathNode;
use record_words::NODE_FIELDS;
use rowex_core::Gate;
use rowex_reading::{Found, MOST_NODES, search_way};
use rowex_table::{HotTable, TableSeat};
use thiserror::Error;

/// Why an attempt was refused. It has changed nothing then.
#[derive(Clone, Copy, Debug, PartialEq, Eq, Error)]
pub enum TryFault {
    /// Another pass had locked or retired what the attempt had to lock, or has made a change since the attempt began.
    #[error("another pass is at work there")]
    Busy,
    /// Each node record was found not free.
    #[error("no node record is free")]
    FullNodes,
    /// Each leaf record with room for the key was found not free.
    #[error("no leaf record is free")]
    FullLeaves,
}

/// Makes one attempt at `call` and returns its reply. The attempt searches for the key, and locks the nodes that are to change, each by one
/// try. It checks that these nodes are as the search found them, and makes the change by one store. A call with nothing to change locks
/// nothing. A value that `call` expects is compared again under the locks: if the key has another one then, nothing changes, and the reply
/// says so.
///
/// Returns an error, with nothing changed, in two cases. Another pass held a lock, or had made a change since the pin (`TryFault::Busy`).
/// Or no record was free (`TryFault::FullNodes`, `TryFault::FullLeaves`), of those that the pass knew to be committed before. A removal is
/// never refused as `FullLeaves`. It is refused as `FullNodes` only once it has found each node record not free, committed or not. In a table
/// with one pass that has a free node record, it isn't refused as `FullNodes` either. An insertion or an upsert is refused as full only if
/// the search found the key absent. A removal is refused as full only if the search found the key, with the value expected. An exchange or
/// an addition is never refused as full.
///
/// The pass of `seat` is pinned, has no record and no lock, and has made no change since its pin. At the end it has no record and no lock.
/// `way` is filled with the nodes that the search went through. A change that unlinks records lists them in `build.gone`. If no record was
/// free, `build.made` lists those that the attempt had claimed, and has given up. In a table with one pass a node record is outside the
/// tree at the end, if one was before: a later removal may need it.
///
/// An attempt that tries no lock makes at most 58 atomic steps, and 26 for each node on the key's way. One that tries locks makes at most
/// 124, and 26 for each such node. To these come 297 for each lock tried, four for each leaf record and two for each node record. An
/// exchange or an addition makes at most 66, and 26 for each such node.
pub fn attempt<G: Gate>(
    table: &HotTable,
    seat: &mut TableSeat,
    gate: &mut G,
    way: &mut BoundedVec<PathNode, MOST_NODES>,
    build: &mut Build,
    call: &Call,
) -> Result<Reply, TryFault>
    requires own { IsSeatOf table.now seat.old }
    requires pinned { IsSome seat.old.known.pin }
    requires rest { IsAtRest seat.old.known }
    requires quiet { HasMadeNoChange seat.old.known }
    ensures run { HasAttempted table.now G.becomes (seat.old, gate.old) (seat.new, gate.new) }
    ensures loaded { HasLoadedRoot seat.old.known seat.new.known }
    ensures rest { IsAtRest seat.new.known }
    ensures answered { IfOk result (HasAnswered seat.old.known seat.new.known call.now) }
    ensures refused { IfErr result
        (HasRefused table.now.layout (bounds_for call.now seat.old.bounds) (the_key call.now) seat.old.known seat.new.known build.new.made.items) }
    ensures leafless { LacksNoLeaf TryFault.FullLeaves call.now result }
    ensures full { IfErr result (IsFullOnlyIfWanting seat.new.known call.now) }
    ensures few { seat.new.known.steps ≤ seat.old.known.steps + most_steps_of call.now table.now.layout }
    ensures spares { KeepsSpare table.now.layout seat.old seat.new }
    ensures finds { IsRemoval call.now → HasRoom table.now.layout seat.old → result ≢ Err TryFault.FullNodes }
    ensures hindered { IfErr result (λ fault. fault ≡ TryFault.Busy → IsHindered table.now.layout seat.old seat.new) }
{
    let key = call.key();
    let found = search_way(table, seat, gate, key, way);
    let Some(request) = request_of(call, found) else {
        return Ok(call.reply(found_value(found)));
    };
    let way = way.as_slice();
    match find_plan(table, seat, gate, way, request.aim, found) {
        Plan::Answer(reply) => Ok(reply),
        Plan::Change { span, deed } => {
            let job = Job {
                way,
                key,
                value: request.value,
                found,
                span,
                deed,
            };
            match try_plan(table, seat, gate, build, &job, call) {
                Ok(now) => Ok(call.reply(found_value(now))),
                Err(fault) => Err(fault),
            }
        }
    }
}

/// Makes the change planned in `job`, under locks that are each tried once. Returns what the search found, with the value that the key has
/// under the locks. If `call` has nothing to change at that value, nothing is changed. Before and after, the pass has no record and no
/// lock.
///
/// Returns an error, with nothing changed, in two cases. Another pass held a lock, or had made a change since the pin (`TryFault::Busy`).
/// Or no record was free (`TryFault::FullNodes`, `TryFault::FullLeaves`). A new value of a held key is refused only as busy, since it needs
/// no record, and makes at most `value_steps` steps. A removal needs no leaf record. In a table with one pass that has a free node record,
/// a removal isn't refused as `FullNodes` either.
///
/// In a table with one pass, if a node record was outside the tree, one is at the end, too. By the number of locks tried, `span_steps` and
/// `change_steps` bound the steps.
#[inline(always)]
fn try_plan<G: Gate>(
    table: &HotTable,
    seat: &mut TableSeat,
    gate: &mut G,
    build: &mut Build,
    job: &Job<'_>,
    call: &Call,
) -> Result<Found, TryFault>
    requires own { IsSeatOf table.now seat.old }
    requires possible { IsPossible table.now.layout seat.old.known }
    requires within { IsWithinWay job.now }
    requires planned { HasPlanned table.now.layout seat.old.known job.now job.now.deed }
    requires aims { IsSome (the_aim call.now (the_value job.now.found)) }
    requires rest { IsAtRest seat.old.known }
    requires quiet { HasMadeNoChange seat.old.known }
    ensures run { (locks : ℕ) × HasTriedOnce table.now G.becomes locks (seat.old, gate.old) (seat.new, gate.new) ×
        (0 < locks) × (locks ≤ most_locks) × (seat.new.known.steps + HEAD_WORDS ≤ seat.old.known.steps + span_steps locks + change_steps table.now.layout locks) }
    ensures rest { IsAtRest seat.new.known }
    ensures done { IfOk result (λ now. HasFoundOther seat.old.known seat.new.known call.now job.now.key.now now ⊎ (IsFoundAgain call.now job.now.found now ×
        HasDoneDeed seat.old.known seat.new.known job.now.deed job.now.key.now (the_value_in call.now (the_value now)) now)) }
    ensures refused { IfErr result (λ fault. (k : Known) → HasLoadedRoot k seat.old.known → IsLater k seat.old.known →
        HasRefused table.now.layout (bounds_of_deed job.now.deed seat.old.bounds) job.now.key.now k seat.new.known build.new.made.items fault) }
    ensures later { IfErr result (λ fault. IsLater seat.old.known seat.new.known) }
    ensures whole { job.now.deed ≡ Deed.Value → IfErr result (λ fault. fault ≡ TryFault.Busy) }
    ensures short { job.now.deed ≡ Deed.Value → seat.new.known.steps ≤ seat.old.known.steps + value_steps }
    ensures leafless { TakesLeaf job.now.deed → result ≢ Err TryFault.FullLeaves }
    ensures spares { KeepsSpare table.now.layout seat.old seat.new }
    ensures finds { TakesLeaf job.now.deed → HasRoom table.now.layout seat.old → result ≢ Err TryFault.FullNodes }
    ensures hindered { IfErr result (λ fault. fault ≡ TryFault.Busy → IsHindered table.now.layout seat.old seat.new) }
{
    if !lock_and_check_span(table, seat, gate, job) {
        return Err(TryFault::Busy);
    }
    let found = load_found_again(table, seat, gate, job);
    let Some(request) = request_of(call, found) else {
        release_records_and_locks(table, seat, gate, &[], job);
        return Ok(found);
    };
    let job = Job {
        way: job.way,
        key: job.key,
        value: request.value,
        found,
        span: job.span,
        deed: job.deed,
    };
    match change_span(table, seat, gate, build, &job) {
        Ok(()) => Ok(found),
        Err(fault) => Err(fault),
    }
}

/// Makes the change of `job`, whose nodes are locked and checked, and whose held value is loaded. A removal from a node that has one above
/// it on the path is made by [`make_removal`], which may try two more locks. In any case all is unlocked at the end. At most as many steps
/// are made as `change_steps` allows for all these locks.
///
/// If no record was free, or the key got another value before a removal's store, the change is undone, and the error tells which. A new
/// value of a held key can't fail. A removal needs no leaf record. In a table with one pass that has a free node record, a removal finds
/// one. In a table with one pass, if a node record was outside the tree, one is at the end, too.
fn change_span<G: Gate>(
    table: &HotTable,
    seat: &mut TableSeat,
    gate: &mut G,
    build: &mut Build,
    job: &Job<'_>,
) -> Result<(), TryFault>
    requires taken { HasTakenPlan table.now seat.old job.now job.now.deed }
    requires loaded { HasLoadedFound seat.old.known job.now.found }
    ensures run { EndsChange table.now G.becomes job.now (held_loads job.now.found) (seat.old, gate.old) (seat.new, gate.new) }
    ensures done { result ≡ Ok tt → HasDoneDeed seat.old.known seat.new.known job.now.deed job.now.key.now job.now.value job.now.found }
    ensures failed { IfErr result (HasFailed table.now.layout (bounds_of_deed job.now.deed seat.old.bounds) job.now seat.old.known seat.new.known build.new.made.items) }
    ensures whole { job.now.deed ≡ Deed.Value → result ≡ Ok tt }
    ensures short { job.now.deed ≡ Deed.Value → seat.new.known.steps ≤ seat.old.known.steps + 2 + locks_of job.now.span }
    ensures leafless { TakesLeaf job.now.deed → result ≢ Err TryFault.FullLeaves }
    ensures spares { KeepsSpare table.now.layout seat.old seat.new }
    ensures finds { TakesLeaf job.now.deed → HasRoom table.now.layout seat.old → result ≢ Err TryFault.FullNodes }
{
    match job.deed {
        Deed::Value => {
            store_value(table, seat, gate, job);
            Ok(())
        }
        Deed::Take => make_removal(table, seat, gate, build, job),
        _ => match carry_out_deed(table, seat, gate, build, job) {
            Ok(raised) => {
                publish_change(table, seat, gate, build, job, raised);
                Ok(())
            }
            Err(full) => {
                undo_change(table, seat, gate, build, job);
                Err(refusal_of(full))
            }
        },
    }
}

/// Makes the removal of `job`, from a node that has one above it on the path. The job's nodes are locked and checked, and the found value
/// is loaded. If one entry is left in the node, that entry takes the node's place. If more are left, a node record is claimed for them, and
/// [`end_removal`] ends the removal.
///
/// The removal is undone with the error `TryFault::FullNodes` if no node record was free, or with `TryFault::Busy` if the key has got
/// another value meanwhile. In a table with one pass that has a free node record, the error is never `FullNodes`. In a table with one pass,
/// if a node record was outside the tree, one is at the end, too. All is unlocked at the end.
///
/// At most two locks are tried beside those of the span, for a merge. The steps are at least one fewer than `change_steps` allows for all
/// these locks.
fn make_removal<G: Gate>(
    table: &HotTable,
    seat: &mut TableSeat,
    gate: &mut G,
    build: &mut Build,
    job: &Job<'_>,
) -> Result<(), TryFault>
    requires taken { HasTakenPlan table.now seat.old job.now Take }
    requires some { 0 < job.now.span.end }
    requires loaded { HasLoadedFound seat.old.known job.now.found }
    ensures run { HasChangeStepsAfterTries table.now G.becomes (span_numbers job.now.way.now job.now.span) 1 (seat.old, gate.old) (seat.new, gate.new) }
    ensures done { result ≡ Ok tt → HasDoneDeed seat.old.known seat.new.known Take job.now.key.now job.now.value job.now.found }
    ensures failed { IfErr result (HasFailed table.now.layout [] job.now seat.old.known seat.new.known build.new.made.items) }
    ensures leafless { result ≢ Err TryFault.FullLeaves }
    ensures spares { KeepsSpare table.now.layout seat.old seat.new }
    ensures finds { HasRoom table.now.layout seat.old → result ≢ Err TryFault.FullNodes }
{
    let lowest = job.way[job.span.end];
    let mut left = Leftover {
        number: 0,
        words: [0; NODE_FIELDS],
    };
    if let Some(entry) = load_without_leaf(table, seat, gate, lowest, &mut left.words) {
        build.made.clear();
        publish_change(
            table,
            seat,
            gate,
            build,
            job,
            raised_for_leftover(job, entry),
        );
        return Ok(());
    }
    let Some(number) = claim_for_leftover(table, seat, gate, build, job) else {
        undo_change(table, seat, gate, build, job);
        return Err(TryFault::FullNodes);
    };
    left.number = number;
    end_removal(table, seat, gate, build, job, &left)
}

/// Ends the removal of `job`, for which the record `left.number` is claimed. If one node of what is left and its sibling can be made, it
/// takes the place of both. For that at most two more locks are tried. Else what is left takes the node's place alone. If the key has got
/// another value meanwhile, the removal is undone, and the error is `TryFault::Busy`.
///
/// All is unlocked at the end. In a table with one pass, if a node record was outside the tree, one is at the end, too. The steps are at
/// most 84 + 2 * `NODE_FIELDS`, with two more for each node record left to try, and `level_steps` more for each further lock.
fn end_removal<G: Gate>(
    table: &HotTable,
    seat: &mut TableSeat,
    gate: &mut G,
    build: &mut Build,
    job: &Job<'_>,
    left: &Leftover,
) -> Result<(), TryFault>
    requires takes { TakesOn table.now seat.old job.now }
    requires claimed { HasClaimed table.now seat.old.known left.now.number }
    requires left { IsLeftOfNode seat.old.known job.now left.now.words }
    requires loaded { HasLoadedFound seat.old.known job.now.found }
    ensures tries { HasFewStepsAfterTries table.now G.becomes (span_numbers job.now.way.now job.now.span) build.old.walk.left (84 + 2 * NODE_FIELDS)
        (seat.old, gate.old) (seat.new, gate.new) }
    ensures done { result ≡ Ok tt → HasDoneDeed seat.old.known seat.new.known Take job.now.key.now job.now.value job.now.found }
    ensures failed { IfErr result (λ fault. (fault ≡ TryFault.Busy) ×
        HasFailed table.now.layout seat.old.bounds job.now seat.old.known seat.new.known build.new.made.items fault) }
    ensures spares { KeepsSpare table.now.layout seat.old seat.new }
{
    let Some(merge) = find_merge(table, seat, gate, job, left) else {
        let raised = fill_leftover(table, seat, gate, build, job, left);
        publish_change(table, seat, gate, build, job, raised);
        return Ok(());
    };
    if try_merge(table, seat, gate, build, job, &merge) {
        return Ok(());
    }
    let raised = fill_leftover(table, seat, gate, build, job, left);
    publish_or_undo(table, seat, gate, build, job, raised)
}

/// Publishes the change of `job`, whose records are all made. Before that it loads the value of the found leaf once more: the value loaded
/// before may be out of date, since further locks were tried. If it isn't the one found, the change is undone, and the error is
/// `TryFault::Busy`.
///
/// All is unlocked at the end. At most one step is made for each new record, for the unlinked leaf and for each lock, and four more. Let
/// the change unlink a node. In a table with one pass, if a node record was outside the tree, one is at the end, too.
fn publish_or_undo<G: Gate>(
    table: &HotTable,
    seat: &mut TableSeat,
    gate: &mut G,
    build: &mut Build,
    job: &Job<'_>,
    raised: Raised,
) -> Result<(), TryFault>
    requires held { HoldsSpan table.now seat.old job.now }
    requires may { (x : Change) × (was : Option ℕ) × MayReplace table.now seat.old build.old.made.items job.now raised x was }
    ensures run { HasRun table.now G.becomes (seat.old, gate.old) (seat.new, gate.new) }
    ensures changed { result ≡ Ok tt → (x : Change) (was : Option ℕ) → MayReplace table.now seat.old build.old.made.items job.now raised x was →
        HasChanged seat.old.known seat.new.known x was }
    ensures failed { IfErr result (λ fault. (fault ≡ TryFault.Busy) ×
        HasFailed table.now.layout seat.old.bounds job.now seat.old.known seat.new.known build.new.made.items fault) }
    ensures few { seat.new.known.steps ≤
        seat.old.known.steps + held_loads job.now.found + length build.old.made.items + length (leaf_gone raised.leaf) + locks_of job.now.span + 3 }
    ensures spares { job.now.span.end < raised.low → KeepsSpare table.now.layout seat.old seat.new }
{
    if !is_unchanged(table, seat, gate, job) {
        undo_change(table, seat, gate, build, job);
        return Err(TryFault::Busy);
    }
    publish_change(table, seat, gate, build, job, raised);
    Ok(())
}

/// Locks the nodes that `job` is to change, and checks that they are as the search found them. Returns whether all are locked and as found.
/// If not, the pass has no lock at the end. Then another pass was in the way of a lock, or has made a change since the search loaded the
/// root.
///
/// Each lock is tried once at most. Three steps at most are made for each lock tried, and one more. In a table with one pass, if a node
/// record was outside the tree, one is at the end, too. If one was free there before, and all is locked at the end, one is free at the end.
fn lock_and_check_span<G: Gate>(
    table: &HotTable,
    seat: &mut TableSeat,
    gate: &mut G,
    job: &Job<'_>,
) -> bool
    requires own { IsSeatOf table.now seat.old }
    requires possible { IsPossible table.now.layout seat.old.known }
    requires within { IsWithinWay job.now }
    requires way { (m : ℕ) × IsJobFrom table.now.layout seat.old.known m job.now }
    requires rest { IsAtRest seat.old.known }
    requires quiet { HasMadeNoChange seat.old.known }
    ensures run { (locks : ℕ) × HasTriedOnce table.now G.becomes locks (seat.old, gate.old) (seat.new, gate.new) ×
        (0 < locks) × (locks ≤ locks_of job.now.span) × (result ≡ true → locks ≡ locks_of job.now.span) ×
        (seat.new.known.steps ≤ seat.old.known.steps + 3 * locks + 1) }
    ensures nodes { result ≡ true → 0 < job.now.span.end →
        TriesNodesBy IsOfAttempt table.now G.becomes (span_numbers job.now.way.now job.now.span) (seat.old, gate.old) (seat.new, gate.new) ×
        (seat.new.known.steps ≤ seat.old.known.steps + 3 * locks_of job.now.span + 1) }
    ensures later { IsLater seat.old.known seat.new.known }
    ensures taken { result ≡ true → (m : ℕ) → IsJobFrom table.now.layout seat.old.known m job.now →
        HasTakenSpan table.now seat.new m job.now.key.now job.now.way.now job.now.found job.now.span }
    ensures rest { result ≡ false → IsAtRest seat.new.known }
    ensures busy { result ≡ false → (m : ℕ) → IsJobFrom table.now.layout seat.old.known m job.now →
        IsBlocked table.now.layout seat.old seat.new ⊎ (m < length seat.new.known.front) }
    ensures spares { KeepsSpare table.now.layout seat.old seat.new }
    ensures room { result ≡ true → HasRoom table.now.layout seat.old → HasRoom table.now.layout seat.new }
{
    if !lock_span(table, seat, gate, job.way, job.span) {
        return false;
    }
    if check_span(table, seat, gate, job) {
        return true;
    }
    release_records_and_locks(table, seat, gate, &[], job);
    false
}

/// Undoes the change of `job`, which is not published: gives up the records in `build.made`, all that the pass has. Then it unlocks all
/// that the pass has locked. Each takes one step.
fn undo_change<G: Gate>(
    table: &HotTable,
    seat: &mut TableSeat,
    gate: &mut G,
    build: &Build,
    job: &Job<'_>,
)
    requires held { HoldsSpan table.now seat.old job.now }
    requires made { HasNotMade table.now seat.old build.now.made.items }
    ensures works { Works table.now G.becomes (seat.old, gate.old) (seat.new, gate.new) }
    ensures rest { IsAtRest seat.new.known }
    ensures few { seat.new.known.steps ≤ seat.old.known.steps + length build.now.made.items + locks_of job.now.span }
{
    release_records_and_locks(table, seat, gate, build.made.as_slice(), job);
}

/// Returns the fault of an attempt that found no record of the kind `full` free.
fn refusal_of(full: Full) -> TryFault
    ensures { result ≡ the_refusal full }
{
    match full {
        Full::Nodes => TryFault::FullNodes,
        Full::Leaves => TryFault::FullLeaves,
    }
}
