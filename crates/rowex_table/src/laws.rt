//! The laws of the table. The functions do nothing: their contracts are the laws.

ghost use Rattle.rowex_table.specs.Statements.{CallStepsAreInOneRun, GateIsToldEachStep, UncommittedAreFree, StepsAreInOneRun, TracesAreOfOneRun, UntakenAreFree};

use rowex_core::Gate;

/// A gate is told the event of each step of a run, in order, and nothing else.
pub fn gate_is_told_each_step<G: Gate>()
    ensures { GateIsToldEachStep G.becomes }
{}

/// Steps that one pass makes, one after the other, are its own steps in one run of the table, in this order. Steps of others may stand
/// between. What the pass knows after them is what that run has taught it. They add no notes.
pub fn steps_are_in_one_run<G: Gate>()
    ensures { StepsAreInOneRun G.becomes }
{}

/// The steps of a call stand in one run of the table, in their order; steps of others may stand between. The call's notes come with its
/// last step. What the pass knows after that step is these notes, and what the run has taught it.
pub fn call_steps_are_in_one_run<G: Gate>()
    ensures { CallStepsAreInOneRun G.becomes }
{}

/// In each state that the rule of the table allows, take two lists of steps, known to two passes. Each pass knows of its list now, or knew
/// of it earlier. One of the two lists begins with the other.
pub fn traces_are_of_one_run()
    ensures { TracesAreOfOneRun }
{}

/// A record that no step of a run has tried to claim, and no bulk load has linked, is free.
pub fn untaken_records_are_free()
    ensures { UntakenAreFree }
{}

/// Where a pass has loaded how many records are uncommitted, and no later step of the run takes a record, these are free. So a round or a
/// count of the committed records alone misses none that isn't free.
pub fn uncommitted_records_are_free()
    ensures { UncommittedAreFree }
{}
