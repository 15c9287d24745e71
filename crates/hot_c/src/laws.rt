//! Laws of the calls for C over whole runs. The functions do nothing: their contracts are the laws.

ghost use Rattle.hot_c.specs.Histories.{AnInsertIsTold, CallsAreLinearizable, QuietCalls};

/// Let one handle of an index know a run of steps. Let no pass of the index have made a step of this run after those that its handle knew:
/// the handle was never opened, was closed, made no later call, or saw a leader that knows the run. The calls of which all handles have told
/// are one execution, which is linearizable.
pub fn calls_are_linearizable()
    ensures { CallsAreLinearizable }
{}

/// In an index of two handles or more, one handle inserts a key, and another finds it; the others were never opened. This meets the premise
/// of `calls_are_linearizable`.
pub fn an_insert_is_told()
    ensures { AnInsertIsTold }
{}

/// Scans, searches for an end, counts of a range, rounds and censuses through an open handle ask nothing of the map. They add no note, and
/// leave the handle open. No key that they take may be too long.
pub fn other_calls_are_quiet()
    ensures { QuietCalls }
{}
