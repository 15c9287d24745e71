//! The law of runs. The function does nothing: its contract is the law.

ghost use Rattle.sections.specs.Statements.{RunsAreOne};

/// In each state that the rule of the table allows, take two runs, known to two owners. Each owner knows its run now, or knew it earlier.
/// One of the two runs goes on from the other.
pub fn runs_are_one()
    ensures { RunsAreOne }
{}
