//! Laws of the index over whole runs. The functions do nothing: their contracts are the laws.
ghost use Rattle.index_laws.specs.Alone.{IdleChangesEnd};
ghost use Rattle.index_laws.specs.Headline.{Headline};
ghost use Rattle.index_laws.specs.Joined.{AnInsertIsFound, HandlesAreLinearizable, LoadedHaveEnded, OneRunIsAnExecution, SeeingIsDone, ShownHaveEnded, SilentStepsEnd, StepsNeedNoGate, TwoThatMeetHaveEnded};
ghost use Rattle.index_laws.specs.Rest.{CountLeavesNoneOut, IdlePassesLeaveAlone, NoRecordIsLost, OnePassLosesNone};
ghost use Rattle.index_laws.specs.Statements.{AGetReturns, Responses};
ghost use Rattle.index_laws.specs.Steps.{StepsAreMoments, StepsFollow};
ghost use Rattle.index_laws.specs.Traced.{AGetIsTraced, CallsMakeNoAsides, EndedBeforeLoaded, EndedOrLoadedBefore, EndedOrShownBefore, LoadsAreMoments, LoadsSeeAll, MetAreOfOneRun, TracedAreExecutions};

use rowex_core::Gate;

/// A run may begin at a new index. A call that has ended as its contract says responds or is refused in the run. So an execution is a run.
/// Where a call that waits may be refused for want of records, one that doesn't wait may be, too.
pub fn ended_calls_respond_or_are_refused()
    ensures { Responses }
{}

/// Most promises of the index: each field of `Headline` is one.
pub fn all_promises_hold()
    ensures { Headline }
{}

/// For each layout with a pass, and each key, there is an execution in which a call returns. It is a get in a new index, which finds its
/// key absent. So no law of executions is empty.
pub fn a_get_returns()
    ensures { AGetReturns }
{}

/// Let a core show the table's state. An atomic step that a pass may make by what it knows is legal in that core. The core after the step,
/// and the run with it, are those of the table's next state.
pub fn allowed_steps_are_legal()
    ensures { StepsFollow }
{}

/// Take a configuration of a run whose core shows the table's state. Let a pass know there what its seat knows, and have a call pending.
/// Then each atomic step that the pass may make is a step of the run. It leads to a configuration whose core shows the table's next state.
/// There the pass knows what the step taught it.
pub fn allowed_steps_are_steps_of_the_run()
    ensures { StepsAreMoments }
{}

/// The contracts of steps, of stamps, of meetings and of calls make an execution. The premise is that the steps of all passes have one
/// order, in which each step's trace is what came before it.
pub fn contracts_make_an_execution()
    ensures { TracedAreExecutions }
{}

/// Let the traces of all passes of an index have ended in one run. The calls that the passes made are an execution by contracts alone, and
/// linearizable. No premise speaks of executions.
pub fn calls_of_one_run_are_an_execution()
    ensures { OneRunIsAnExecution }
{}

/// Take a run of an index's table that begins with the steps of which each pass of the index knew. Let each of these passes then be shown
/// steps that begin with this run. The traces that the passes had before have ended in the run.
pub fn shown_passes_have_ended_in_one_run()
    ensures { ShownHaveEnded }
{}

/// Let one handle of an index see what another, its leader, has seen: by `hot_see` of C, or by `stamp` and `follow`. Then each of the two
/// passes has done one thing more: it was shown changes. The handle's pass knows a run of the table that begins with the steps of which the
/// leader's knew.
pub fn seeing_is_done()
    ensures { SeeingIsDone }
{}

/// Let each pass of an index have a handle, from Rattle or from C. A handle may be open or closed. Let a run of the index have no step of a
/// pass after those that its handle knew: the handle made no call since, or it saw a leader that knew the run. The calls that all handles
/// had made before are linearizable.
pub fn handles_that_see_are_linearizable()
    ensures { HandlesAreLinearizable }
{}

/// Let the only two passes of an index meet. The traces that they had before have ended in one run: that of which both know afterwards.
pub fn two_that_meet_have_ended_in_one_run()
    ensures { TwoThatMeetHaveEnded }
{}

/// The passes of a table that was just made by a bulk load have ended in one run, whose one step is the load. Pass 0 has made the load, and
/// no other pass has done anything.
pub fn loaded_passes_have_ended_in_one_run()
    ensures { LoadedHaveEnded }
{}

/// For each index of two passes or more, and each value of 64 bits, there are calls that have ended in one run. Pass 0 inserts the empty key
/// with this value, pass 1 finds it, and the others do nothing. So the premise of `calls_of_one_run_are_an_execution` can be met.
pub fn an_insert_is_found()
    ensures { AnInsertIsFound }
{}

/// Let all passes of an index be idle, between two calls each. The calls that one of them then makes are alone while no other makes a step, so
/// `alone_calls_end` of `hot_index` speaks of them.
pub fn idle_passes_leave_alone()
    ensures { IdlePassesLeaveAlone }
{}

/// Let all passes of an index be idle, and let one change the index while no other makes a step. It gets its reply in one try, where enough
/// records are free: 4,322 node records, or two thirds of them and one, and a leaf record with room for its key. So it is after a
/// `collect`, while the index has 4,322 node records more than keys, or three for each key and two, and more leaf records than keys.
pub fn idle_changes_end<G: Gate>()
    ensures { IdleChangesEnd G.becomes }
{}

/// Steps of which a gate is told are steps with no gate, too. So laws that know no gate hold of calls with one.
pub fn steps_need_no_gate<G: Gate>()
    ensures { StepsNeedNoGate G.becomes }
{}

/// The steps of a round of collection or of a count, which come with no notes, are the steps of a call. So the laws of calls hold of rounds
/// and counts.
pub fn silent_steps_are_of_a_call()
    ensures { SilentStepsEnd }
{}

/// For each table with a pass, and each key, there is an execution by contracts alone. In it a get in a new index finds its key absent. So
/// no law of such executions is empty.
pub fn a_get_returns_by_contracts_alone()
    ensures { AGetIsTraced }
{}

/// In an execution by contracts alone, a load of the root is the step of one time. The load shows its pass all that any pass had seen by
/// then.
pub fn a_root_load_has_its_moment()
    ensures { LoadsAreMoments }
{}

/// Let a pass have made the steps of a call. Let a later call load the root after all steps of which that pass knew when its call ended.
/// The later call is shown all changes that the pass had seen then.
pub fn a_root_load_shows_earlier_changes()
    ensures { LoadsSeeAll }
{}

/// Let two calls with a key each be answered. Let the second call's pass load the root after all steps of which the first call's pass knew
/// when that call ended. Then the first call stands no later than the second, and earlier if it changed the map.
pub fn calls_stand_in_order_of_steps()
    ensures { EndedBeforeLoaded }
{}

/// Let one run have the traces of two answered calls with a key each. Either the first stands as in `calls_stand_in_order_of_steps`, or the
/// first call's pass knew of the second one's load of the root when the first ended.
pub fn calls_stand_in_order_or_first_knew_the_load()
    ensures { EndedOrLoadedBefore }
{}

/// Let two calls with a key each be answered. Let one run begin with the first call's trace, and with all steps before the second call's
/// load of the root. Then one of two is so. The first call stands no later than the second, and earlier if it changed the map. Or the first
/// call's pass knew of all these steps when that call ended.
pub fn calls_stand_in_order_or_first_knew_the_steps()
    ensures { EndedOrShownBefore }
{}

/// Two passes that have met are of one run of the table. Take the steps of which one knew at some time before the meeting, and those of
/// which the other knew at some time before it. One list begins with the other.
pub fn met_passes_are_of_one_run()
    ensures { MetAreOfOneRun }
{}

/// A call that makes steps, as one with one key or a scan does, makes no stamp, follows none and meets no other pass.
pub fn calls_neither_stamp_nor_follow_nor_meet()
    ensures { CallsMakeNoAsides }
{}

/// Let no call of an index be running, and let fewer than 2^60 - 2 steps have been made. A `collect` that runs alone then leaves each
/// record free or in the tree. All leaf records are free but one for each key. The node records that aren't free are fewer than the keys,
/// and none if there is no key. A `census` after the round counts just these. What a census calls uncommitted is free.
pub fn no_record_is_lost<G: Gate>()
    ensures { NoRecordIsLost G.becomes }
{}

/// In an index of one pass, a round between any two calls leaves each record free or in the tree, as `no_record_is_lost` says. The bound on
/// the steps made is the same.
pub fn one_pass_loses_no_record<G: Gate>()
    ensures { OnePassLosesNone G.becomes }
{}

/// A `census` counts each record once, in one state or as uncommitted. In a table whose records are all committed none is uncommitted.
pub fn a_census_leaves_no_record_out<G: Gate>()
    ensures { CountLeavesNoneOut G.becomes }
{}
