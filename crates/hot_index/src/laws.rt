//! Laws of the index. The functions do nothing: their contracts are the laws.

ghost use Rattle.hot_index.specs.Alone.{AloneCallsEnd, AloneChangesEnd};
ghost use Rattle.hot_index.specs.Statements.{AbsentIsNeverFull, AllLongFullMeansNoneFree, CountsAddUp, HeldIsNeverFull, OnePassFullMeansTaken, OnePassIsNeverBusy, OnePassKeepsSpare, OnePassRefusesOnlyNewKeys, RemovalFullMeansNoneFree, ReturnedBeforeBegun};

use rowex_core::Gate;

/// Let all leaf records of an index be long, as `create` makes them. A call that returns `FullLeaves` has found each leaf record not free,
/// at that record's turn in the call. None of them was claimed by the call's own pass.
pub fn all_long_full_means_none_free()
    ensures { AllLongFullMeansNoneFree }
{}

/// In an index of one pass no call returns `Busy`: its cause is always another pass of the index.
pub fn one_pass_is_never_busy()
    ensures { OnePassIsNeverBusy }
{}

/// Let a call be alone. When it began, no other pass had a lock or a record of its own; others may have been stopped within look-ups. While
/// it runs, no other pass makes a step. The call is never busy. If it takes no record, as one that gives a held key a new value, it gets its
/// reply. A form that waits makes just one try then. The first call of a new index is alone, if no other pass makes a step.
pub fn alone_calls_end<G: Gate>()
    ensures { AloneCallsEnd G.becomes }
{}

/// Let a change be alone, and let enough records be free when it begins: 4,322 node records, or two thirds of them and one, and a leaf record
/// with room for its key. A removal asks for no leaf record. The change gets its reply, and a form that waits makes just one try. Of the
/// leaf records of an index that `create` makes, each has room.
pub fn alone_changes_end<G: Gate>()
    ensures { AloneChangesEnd G.becomes }
{}

/// In an index of one pass a call returns `FullLeaves` only if each leaf record with room for its key was in the tree or retired. It returns
/// `FullNodes` only if at least a third of the node records but one were in the tree or retired. At most 4,321 node records weren't, which
/// the call may have claimed itself. This is said of each record at the moment when the call looked at it.
pub fn one_pass_full_means_taken()
    ensures { OnePassFullMeansTaken }
{}

/// A call that gives its key a value is never refused as full if the key was held all the while: in each version that its pass has seen
/// since the call began.
pub fn held_is_never_full()
    ensures { HeldIsNeverFull }
{}

/// A removal is never refused as full if the key was absent all the while: in each version that its pass has seen since the call began.
pub fn absent_is_never_full()
    ensures { AbsentIsNeverFull }
{}

/// A removal is refused as `FullNodes` only once it has found each node record of the index not free, committed or not, at that record's turn
/// in the call. At most 4,321 of them were claimed by the call itself.
pub fn removal_full_means_none_free()
    ensures { RemovalFullMeansNoneFree }
{}

/// In an index of one pass a call that gives its key a value is refused only if the key was absent before the call. So a new value of a
/// held key is never refused. The pass's earlier calls must be legal, as they are between any two calls.
pub fn one_pass_refuses_only_new_keys()
    ensures { OnePassRefusesOnlyNewKeys }
{}

/// Let a stamp tell of all that a pass had seen when a call of it returned. Let a pass then follow the stamp and make a call. The first
/// call stands at no later place than the second, and at an earlier one if it changed the map.
pub fn returned_before_begun()
    ensures { ReturnedBeforeBegun }
{}

/// If no pass is changing an index, the counts of all its passes, in the order of their numbers, fit the changes made so far. These must be
/// legal, and made by passes of the index alone. So the counts' `total` is the number of the index's keys, if there are fewer than 2^64.
pub fn counts_add_up()
    ensures { CountsAddUp }
{}

/// In an index of one pass some node record stands in no tree: when the index is new, and after each call of its pass. `Load::finish` says
/// so of an index that was loaded. So by clause `room` no removal is refused for want of a node record, while fewer than 2^60 - 2 steps
/// have been made.
pub fn one_pass_keeps_spare<G: Gate>()
    ensures { OnePassKeepsSpare G.becomes }
{}
