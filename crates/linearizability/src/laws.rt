//! Laws of runs, over their definitions alone. The functions do nothing: their contracts are the laws.
ghost use Rattle.linearizability.specs.Statements.{Linearizable, OrderedByEffect, RefusedChangeNothing, RepliesInTime, RespondersChangeAsAsked, RunsAreEvents, RunsStaySound, ScansInTime};

/// At each time of a run the core is lawful, and what each pass knows is true of it.
pub fn runs_stay_sound()
    ensures { RunsStaySound }
{}

/// The look-ups and changes of a run are linearizable up to each time, if each call that is pending then meets one of two premises. It has
/// changed nothing, or has changed the map once as it asks. Or it ends later in the run, and asks one call of the map, look-ups alone, or
/// nothing.
pub fn runs_are_linearizable()
    ensures { Linearizable }
{}

/// Let a call that responds ask one call of the map, or let its notes tell of no change. At each time from its invocation to its response
/// the call has changed nothing, or has changed the map once as it asks.
pub fn answered_calls_change_as_asked()
    ensures { RespondersChangeAsAsked }
{}

/// A call that is refused has changed nothing at any time from its invocation to its refusal.
pub fn refusals_change_nothing()
    ensures { RefusedChangeNothing }
{}

/// Take the calls that have responded, with one call for each change that a pending call has made. They have one order in which each reply
/// is that of a map, empty at first. A call that had responded before another was invoked stands before that other one. Pending calls may
/// do anything.
pub fn runs_are_ordered_by_effect()
    ensures { OrderedByEffect }
{}

/// The steps of a run are legal events, one after the other, that lead from its first core to that of each time.
pub fn runs_are_events()
    ensures { RunsAreEvents }
{}

/// Let a scan, up or down, be lawful from its pass's load of the root to its end. Each pair was in the map at a time of the scan. No key of
/// its range is missing that was in the map at all times of the scan. If the scan has more pairs to come, this is said of keys up to its
/// last pair alone.
pub fn scans_are_of_their_time()
    ensures { ScansInTime }
{}

/// Each reply of a call that responds is the map's at a time between its invocation and its response.
pub fn replies_are_of_their_time()
    ensures { RepliesInTime }
{}
