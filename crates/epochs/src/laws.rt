//! The laws of epochs. The functions do nothing: their contracts are the laws.

ghost use Rattle.epochs.specs.Statements.{CommittedAreVisited, GivenIsOutOfReach, ReachIsKept, RunsKeepReach};

use rowex_core::Gate;

/// Before and after each step of any pass, no record of a pinned pass's reach is free or held.
pub fn reach_is_kept()
    ensures { ReachIsKept }
{}

/// Before and after each step of a run, no record of a pinned pass's reach is free or held.
pub fn runs_keep_reach<G: Gate>()
    ensures { RunsKeepReach G.becomes }
{}

/// When an exchange gives a record back, the record is in no pinned pass's reach.
pub fn given_is_out_of_reach()
    ensures { GivenIsOutOfReach }
{}

/// A round of a pass that knows that all records are committed visits each record of the table.
pub fn committed_are_visited<G: Gate>()
    ensures { CommittedAreVisited G.becomes }
{}
