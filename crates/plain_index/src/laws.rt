//! Laws of histories, over their definitions alone. The functions do nothing: their contracts are the laws.
ghost use Rattle.plain_index.specs.Statements.{WeaveKeepsCalls, LegalCallsStayLegal, WeaveIsLegal, WeaveOfTwoIsLegal, WeaveOfPassesKeepsCalls, WeaveOfTwoKeepsCalls, WeavePutsReturnedFirst, FirstPairsAreAStillScan, StillScanGivesFirstPairs, ScanIsGets, LoneCallsAreARun};

/// A pass's calls that are legal in a front are legal in each legal front that goes on from it by other passes' changes alone.
pub fn legal_calls_stay_legal_in_longer_fronts()
    ensures { LegalCallsStayLegal }
{}

/// Let the calls of passes of different numbers each be legal in one front. The weave of all their notes into the front is a legal history.
pub fn weave_of_legal_calls_is_legal()
    ensures any { WeaveIsLegal }
    ensures two { WeaveOfTwoIsLegal }
{}

/// Let the calls of passes of different numbers each be legal in one front. Their weave has just these calls, each once, and those of a
/// pass in the order in which it made them. Two passes alone may have the same number.
pub fn weave_of_passes_keeps_calls()
    ensures any { WeaveOfPassesKeepsCalls }
    ensures two { WeaveOfTwoKeepsCalls }
{}

/// Take the calls of passes, all legal in one front, and a list of them. Let neither their places nor the list put a call before one that
/// is known to have returned first. Then the list's weave is a legal history with each call once, and puts no call before one that is known
/// to have returned first.
pub fn weave_puts_returned_calls_first()
    ensures { WeavePutsReturnedFirst }
{}

/// Take the first `limit` pairs of a range in a front's map, with `more` exactly if there are others. They are a lawful scan while the
/// front stays.
pub fn first_pairs_are_a_still_scan()
    ensures { FirstPairsAreAStillScan }
{}

/// A lawful scan while a front stays has the first `limit` pairs of the range in its map, and `more` exactly if there are others.
pub fn still_scan_gives_first_pairs()
    ensures { StillScanGivesFirstPairs }
{}

/// Take a key of a lawful scan's range. At some moment between the scan's fronts the key has the value that is listed, or none if none is
/// listed. If the scan has `more`, that holds of the keys up to that of its last pair.
pub fn scan_agrees_with_gets()
    ensures { ScanIsGets }
{}

/// If a pass made all changes of a front, its calls that are legal there are a run of the finite map. Made in order from the empty map on,
/// they have these replies, and lead to the front's map.
pub fn lone_calls_are_a_run()
    ensures { LoneCallsAreARun }
{}

/// The weave of one pass's calls, legal in a front, has just these calls, each once, in the order in which the pass made them.
pub fn weave_keeps_calls()
    ensures { WeaveKeepsCalls }
{}
