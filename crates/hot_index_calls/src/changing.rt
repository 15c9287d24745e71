//! A call that may change the index, made with a pass's seat and scratch lists: its attempts, and the note of an answer.

ghost use Rattle.std.specs.Prelude.{◌≡◌, ◌⊎◌, ◌+◌, ◌<◌, ◌≤◌, ◌↔◌, List, Err, None, IfSome, IsOk, IsSome, IsTrue, false, ◌≢◌, length};
ghost use Rattle.finite_map.specs.declared.Note.{Note};
ghost use Rattle.rowex_core.specs.declared.event.Act.TheVariants.{ClearPin};
ghost use Rattle.rowex_core.specs.declared.known.Known.{Known};
ghost use Rattle.rowex_table.specs.Runs.{StepsWith};
ghost use Rattle.rowex_table.specs.Seats.{IsPassOf};
ghost use Rattle.rowex_writing.specs.declared.plan.Full.TheVariants.{Nodes, Leaves};
ghost use Rattle.publish_laws.specs.Lone.{HasRoom, KeepsSpare};
ghost use Rattle.rowex_writing.specs.build.Spare.{IsRemoval};
ghost use Rattle.rowex_writing.specs.declared.attempts.TryFault.TheVariants.{FullNodes};
ghost use Rattle.hot_index_calls.specs.Rooms.{FindsRoom, LeavesNoneRetired};
ghost use Rattle.hot_index_calls.specs.Lacking.{LeavesUsed};
ghost use Rattle.rowex_writing.specs.build.Walks.{nodes_among};
ghost use Rattle.finite_map.specs.Maps.{key_of};
ghost use Rattle.hot_index_calls.specs.Answers.{fault_of};
ghost use Rattle.hot_index_calls.specs.Asked.{HasAsked, HasLacked, HasReplied, HasRested, IsIdle, last_try};
ghost use Rattle.hot_index_calls.specs.Calls.{IsTriedAndCounted, MakesTries};
ghost use Rattle.hot_index_calls.specs.Counts.{once_steps, try_steps, twice_steps};
ghost use Rattle.hot_index_calls.specs.Noting.{change_notes};
ghost use Rattle.hot_index_calls.specs.Passes.{pass_of};
ghost use Rattle.hot_index_calls.specs.Refusals.{HasNodeLeft, as_tried};
ghost use Rattle.hot_index_calls.specs.Traces.{AreAttempts, AreTries, Collects, CollectsNone, HasStepped, IsOneAttempt, Tidies, is_full, of_kind};

use crate::census::count_records;
use crate::refusals::{Refusal, count_node_records, final_refusal, judge_lack, lack_of};
use crate::scratch::Scratch;
use epochs::{Collected, Given, collect_if_risen, collect_small_round, pin, unpin};
use finite_map::{Call, Reply};
use key_bits::Key;
use rowex_core::Gate;
use rowex_table::{HotTable, TableSeat};
use rowex_writing::{Full, TryFault, attempt};
use std::sync::Wait;
use std::thread;

/// Tries to make the change `call` by two attempts at most. Before the first, a small round of collection is made if one is due. `gate` is
/// told each step; there are at most `try_steps`. Returns the reply, or why the last attempt was refused: nothing has changed then. The
/// pass is between two calls, before and after.
///
/// If no node record was free, `scratch.build.made` has the records that the last attempt had claimed and given up. In an index of one
/// pass, let a node record be outside the tree before. One is at the end, too, and a removal finds a node record while epochs are not used
/// up.
///
/// Let a call be full in an index of one pass. Each record of the kind that it lacked is in the tree or retired at the end, but for those
/// that it had claimed. While epochs are not used up, none is retired then.
pub fn try_change<G: Gate>(
    table: &HotTable,
    seat: &mut TableSeat,
    gate: &mut G,
    scratch: &mut Scratch,
    call: &Call,
) -> Result<Reply, TryFault>
    requires idle { IsIdle table.now seat.old }
    ensures asked { HasAsked table.now G.becomes (AreAttempts table.now G.becomes call.now result) call.now result (seat.old, gate.old) (seat.new, gate.new) }
    ensures lacks { HasLacked table.now scratch.new.build.made.items result seat.old seat.new }
    ensures few { seat.new.known.steps ≤ seat.old.known.steps + try_steps call.now table.now.layout }
    ensures spares { KeepsSpare table.now.layout seat.old seat.new }
    ensures room { FindsRoom table.now.layout call.now result seat.old seat.new }
    ensures none { LeavesNoneRetired table.now.layout result seat.new }
    ensures used { LeavesUsed table.now.layout (key_of call.now) (nodes_among scratch.new.build.made.items) result seat.old seat.new }
{
    collect_due(table, seat, gate, scratch);
    try_twice(table, seat, gate, scratch, call)
}

/// Makes a small round of collection if the pass has retired enough records since its last one, or records are scarce. The next claims
/// begin with the records that the round gave back. Without a round it makes no step. In an index of one pass, if a node record was outside
/// the tree, one is at the end, too.
fn collect_due<G: Gate>(table: &HotTable, seat: &mut TableSeat, gate: &mut G, scratch: &mut Scratch)
    requires idle { IsIdle table.now seat.old }
    ensures idle { IsIdle table.now seat.new }
    ensures tidied { Tidies table.now G.becomes (seat.old, gate.old) (seat.new, gate.new) }
    ensures spares { KeepsSpare table.now.layout seat.old seat.new }
{
    let layout = table.layout();
    if scratch.limbo.is_due(layout) {
        let turn = scratch.turn % 2;
        let sweep = &mut scratch.sweeps[turn];
        collect_small_round(table, seat, gate, &mut scratch.limbo, sweep);
        scratch.reuse_given_records(layout);
    }
}

/// Tries to make the change `call`. If no record was free, it makes a round of collection and tries once more. Returns the reply, or why
/// the last attempt was refused. If a second attempt could find no record, a pin and an unpin stand for it, and the refusal is that of the
/// first attempt. At most `twice_steps` steps are made.
///
/// If no node record was free, `scratch.build.made` lists the records that the last attempt had claimed. In an index of one pass, let a
/// node record be outside the tree before. One is at the end, too, and a removal finds a node record while epochs are not used up.
///
/// Let a call be full in an index of one pass. Each record of the kind that it lacked is in the tree or retired at the end, but for those
/// that it had claimed. While epochs are not used up, none is retired then.
#[inline(always)]
fn try_twice<G: Gate>(
    table: &HotTable,
    seat: &mut TableSeat,
    gate: &mut G,
    scratch: &mut Scratch,
    call: &Call,
) -> Result<Reply, TryFault>
    requires idle { IsIdle table.now seat.old }
    ensures asked { HasAsked table.now G.becomes (AreTries table.now G.becomes call.now result) call.now result (seat.old, gate.old) (seat.new, gate.new) }
    ensures lacks { HasLacked table.now scratch.new.build.made.items result seat.old seat.new }
    ensures few { seat.new.known.steps ≤ seat.old.known.steps + twice_steps call.now table.now.layout }
    ensures spares { KeepsSpare table.now.layout seat.old seat.new }
    ensures room { FindsRoom table.now.layout call.now result seat.old seat.new }
    ensures none { LeavesNoneRetired table.now.layout result seat.new }
    ensures used { LeavesUsed table.now.layout (key_of call.now) (nodes_among scratch.new.build.made.items) result seat.old seat.new }
{
    let first = make_attempt(table, seat, gate, scratch, call);
    let Some(lacks) = full_kind(first) else {
        return first;
    };
    if collect_between(
        table,
        seat,
        gate,
        scratch,
        lacks,
        is_removal(call),
        call.key(),
    ) {
        return make_attempt(table, seat, gate, scratch, call);
    }
    pin_and_unpin(table, seat, gate);
    first
}

/// Makes a round of collection for a call that found no record of the kind `lacks` free, for the key `key`. From then on small rounds come
/// sooner. `removes` says whether the call is to remove a key. Returns whether a second attempt may find a record. With one pass the result
/// is `true` for each removal. If it is `false`, the round gave back no record of the kind. The pass has no pin, and `scratch.build.made`
/// stays.
///
/// In an index of several passes the round visits no record where it could give none back. The result is `false` then: what another pass
/// has freed meanwhile is found by the count that follows.
fn collect_between<G: Gate>(
    table: &HotTable,
    seat: &mut TableSeat,
    gate: &mut G,
    scratch: &mut Scratch,
    lacks: Full,
    removes: bool,
    key: &Key,
) -> bool
    requires idle { IsIdle table.now seat.old }
    ensures free { seat.new.known.pin ≡ None }
    ensures collects { Collects table.now G.becomes (seat.old, gate.old) (seat.new, gate.new) }
    ensures not { result ≡ false → (removes ≡ false) ⊎ (1 < table.now.layout.passes) }
    ensures none { result ≡ false → CollectsNone table.now G.becomes lacks (seat.old, gate.old) (seat.new, gate.new) }
    ensures made { scratch.new.build.made.items ≡ scratch.old.build.made.items }
{
    let passes = table.layout().passes;
    let collected = collect_if_risen(table, seat, gate, &mut scratch.limbo);
    scratch.reset_skips();
    scratch.note_scarce(table.layout(), lacks, key);
    let Some(round) = collected else {
        return false;
    };
    let count = given_count(round.given, lacks);
    let found = has_found_free(round, lacks);
    may_find_free_record(passes, count, found, removes)
}

/// Returns the kind of record of which none was free, if `answer` is a refusal for that. `None` for a reply, and for `Busy`.
fn full_kind(answer: Result<Reply, TryFault>) -> Option<Full>
    ensures some { IfSome result (λ full. answer ≡ Err (fault_of full)) }
    ensures none { result ≡ None → is_full answer ≡ false }
{
    match answer {
        Err(TryFault::FullNodes) => Some(Full::Nodes),
        Err(TryFault::FullLeaves) => Some(Full::Leaves),
        Ok(_) | Err(TryFault::Busy) => None,
    }
}

/// Returns how many records of the kind `kind` a round gave back, by its counts `given`.
fn given_count(given: Given, kind: Full) -> u32
    ensures { result ≡ of_kind kind given.nodes given.leaves }
{
    match kind {
        Full::Nodes => given.nodes,
        Full::Leaves => given.leaves,
    }
}

/// Returns whether the round `round` found a record of the kind `kind` that was free already.
fn has_found_free(round: Collected, kind: Full) -> bool
    ensures nodes { kind ≡ Nodes → result ≡ round.found_free_node }
    ensures leaves { kind ≡ Leaves → result ≡ round.found_free_leaf }
{
    match kind {
        Full::Nodes => round.found_free_node,
        Full::Leaves => round.found_free_leaf,
    }
}

/// Returns whether a record of one kind may be free after a round that gave back `given` of that kind, in an index of `passes` passes. One
/// of those given back may be. If the round `found` one free, another pass may have given it back meanwhile. If the call `removes` a key,
/// the node record that is left for removals may be free.
fn may_find_free_record(passes: u32, given: u32, found: bool, removes: bool) -> bool
    ensures may { IsTrue result ↔ (((1 < passes) × IsTrue found) ⊎ (0 < given) ⊎ IsTrue removes) }
    ensures not { result ≡ false → (given ≡ 0) × (removes ≡ false) }
{
    passes > 1 && found || given > 0 || removes
}

/// Returns whether `call` is to remove a key.
fn is_removal(call: &Call) -> bool
    ensures { IsTrue result ↔ IsRemoval call.now }
{
    match call {
        Call::Remove(_) | Call::RemoveIf(_, _) => true,
        Call::Insert(_, _)
        | Call::Upsert(_, _)
        | Call::Exchange(_, _, _)
        | Call::Add(_, _)
        | Call::Get(_) => false,
    }
}

/// Returns whether insertions leave a node record for `call` in an index of `passes` passes: the call is to remove a key, and there are
/// several passes.
fn has_node_left(passes: u32, call: &Call) -> bool
    ensures { IsTrue result ↔ HasNodeLeft passes call.now }
{
    passes > 1 && is_removal(call)
}

/// Pins the pass and clears the pin: an attempt of three steps that does nothing. It stands for a second attempt that could find no record,
/// so that each full call has the steps of two attempts. No note is added, and what the first attempt found not free stays known. In an
/// index of one pass, if a node record was outside the tree, one is at the end, too.
fn pin_and_unpin<G: Gate>(table: &HotTable, seat: &mut TableSeat, gate: &mut G)
    requires idle { IsIdle table.now seat.old }
    ensures rested { HasRested table.now G.becomes (seat.old, gate.old) (seat.new, gate.new) }
    ensures spares { KeepsSpare table.now.layout seat.old seat.new }
{
    pin(table, seat, gate);
    unpin(table, seat, gate);
}

/// Tries to make the change `call` by two attempts at most, with the rounds of collection of [`try_change`]. The error is `Refusal::Busy`
/// if another pass was in the call's way. If no record was free, the records are counted, and the error is `Full` or `HeldBack` by the
/// counts. But a removal in an index of several passes is `HeldBack` at once, without a count, since insertions leave a node record for it.
/// A refused call has changed nothing.
///
/// In an index of one pass, let a node record be outside the tree before. One is at the end, too, and a removal lacks no node record while
/// epochs are not used up. `gate` is told each step. The pass is between two calls, before and after.
pub fn try_and_count<G: Gate>(
    table: &HotTable,
    seat: &mut TableSeat,
    gate: &mut G,
    scratch: &mut Scratch,
    call: &Call,
) -> Result<Reply, Refusal>
    requires idle { IsIdle table.now seat.old }
    ensures replied { HasReplied table.now call.now (as_tried result) seat.old seat.new }
    ensures stepped { HasStepped table.now G.becomes (change_notes call.now (as_tried result)) (seat.old, gate.old) (seat.new, gate.new) }
    ensures later { seat.old.known.steps ≤ seat.new.known.steps }
    ensures tried { IsTriedAndCounted call.now result table.now G.becomes (pass_of seat.old, gate.old) (pass_of seat.new, gate.new) }
    ensures spares { KeepsSpare table.now.layout seat.old seat.new }
    ensures room { FindsRoom table.now.layout call.now (as_tried result) seat.old seat.new }
{
    match try_change(table, seat, gate, scratch, call) {
        Ok(reply) => Ok(reply),
        Err(fault) => {
            let Some(lacks) = lack_of(fault) else {
                return Err(Refusal::Busy);
            };
            let passes = table.layout().passes;
            if has_node_left(passes, call) {
                return Err(Refusal::HeldBack(lacks));
            }
            let needs = count_node_records(scratch.build.made.as_slice()).saturating_add(1);
            let counts = count_records(table, seat, gate);
            let size = call.key().as_bytes().len();
            Err(judge_lack(passes, lacks, needs, size, counts))
        }
    }
}

/// Tries to make the change `call` until it is made, or refused for want of records. It tries again as long as another pass is in the
/// call's way, or records are held back. `rt` allows it to wait. Returns the reply, or the kind of records of which none was free: nothing
/// has changed then. In an index of one pass it tries once. A removal in an index of several passes is never refused.
///
/// In an index of one pass, let a node record be outside the tree before. One is at the end, too, and a removal lacks no node record while
/// epochs are not used up. `gate` is told each step. The pass is between two calls, before and after.
pub fn retry_change<R: Wait, G: Gate>(
    rt: &R,
    table: &HotTable,
    seat: &mut TableSeat,
    gate: &mut G,
    scratch: &mut Scratch,
    call: &Call,
) -> Result<Reply, Full>
    requires idle { IsIdle table.now seat.old }
    ensures replied { HasReplied table.now call.now (last_try result) seat.old seat.new }
    ensures stepped { HasStepped table.now G.becomes (change_notes call.now (last_try result)) (seat.old, gate.old) (seat.new, gate.new) }
    ensures tries { MakesTries call.now result table.now G.becomes (pass_of seat.old, gate.old) (pass_of seat.new, gate.new) }
    ensures kept { HasNodeLeft table.now.layout.passes call.now → IsOk result }
    ensures spares { KeepsSpare table.now.layout seat.old seat.new }
    ensures room { FindsRoom table.now.layout call.now (last_try result) seat.old seat.new }
{
    for _ in rt.forever() {
        match try_and_count(table, seat, gate, scratch, call) {
            Ok(reply) => return Ok(reply),
            Err(refusal) => {
                if let Some(full) = final_refusal(refusal) {
                    return Err(full);
                }
                thread::yield_now();
            }
        }
    }
    unreachable!()
}

/// Makes one attempt at `call`, with the pass pinned, and notes its reply if it has one. Returns the reply, or why the attempt was refused.
/// What the attempt has unlinked goes into limbo. The pass is between two calls, before and after. At most `once_steps` steps are made.
///
/// If no node record was free, `scratch.build.made` lists those that the attempt had claimed. In an index of one pass, if a node record was
/// outside the tree, one is at the end, too. If one is free there, a removal finds one. After a full attempt there, each record of the kind
/// that it lacked is in the tree or retired, but for those that it had claimed.
#[inline(always)]
fn make_attempt<G: Gate>(
    table: &HotTable,
    seat: &mut TableSeat,
    gate: &mut G,
    scratch: &mut Scratch,
    call: &Call,
) -> Result<Reply, TryFault>
    requires idle { IsIdle table.now seat.old }
    ensures asked { HasAsked table.now G.becomes (IsOneAttempt table.now) call.now result (seat.old, gate.old) (seat.new, gate.new) }
    ensures lacks { HasLacked table.now scratch.new.build.made.items result seat.old seat.new }
    ensures few { seat.new.known.steps ≤ seat.old.known.steps + once_steps call.now table.now.layout }
    ensures spares { KeepsSpare table.now.layout seat.old seat.new }
    ensures room { IsRemoval call.now → HasRoom table.now.layout seat.old → result ≢ Err FullNodes }
    ensures longer { length seat.old.trace ≤ length seat.new.trace }
    ensures used { LeavesUsed table.now.layout (key_of call.now) (nodes_among scratch.new.build.made.items) result seat.old seat.new }
{
    pin(table, seat, gate);
    let outcome = attempt(
        table,
        seat,
        gate,
        &mut scratch.way,
        &mut scratch.build,
        call,
    );
    end_attempt(table, seat, gate, call, outcome);
    scratch.move_unlinked_to_limbo();
    outcome
}

/// Clears the pin at the end of an attempt. The notes `said` come with this step: that of the reply, or none for a refusal. The caller's
/// proof makes `said` of `_call` and `_outcome`, which the code doesn't read.
fn end_attempt<G: Gate>(
    table: &HotTable,
    seat: &mut TableSeat,
    gate: &mut G,
    _call: &Call,
    _outcome: Result<Reply, TryFault>,
)
    ghost said: { Known → List Note }
    requires fits { IsPassOf table.now seat.old }
    requires pinned { IsSome seat.old.known.pin }
    ensures step { StepsWith table.now G.becomes ClearPin said (seat.old, gate.old) (seat.new, gate.new) }
{
    unpin(table, seat, gate);
}
