//! What a seat of the table knows, and of which steps. No value of these types is made: contracts alone speak of them, and their
//! numbers are whole numbers without bound.

ghost use Rattle.std.specs.Borrow.{ftrue};
ghost use Rattle.std.specs.Prelude.{List, ℕ};
ghost use Rattle.rowex_core.specs.declared.event.Event.{Event};

use finite_map::Change;
use rowex_core::Known;
use std::marker::Model;
use versions::Listed;

/// A list of events. Its type names no lifetime, and so neither does that of a pass.
pub struct ListedSteps {
    ghost events: { List Event },
}

impl Model for ListedSteps {
    ghost Value = { List Event };

    ghost view = { λ steps. steps.events };

    ghost also_owns = { λ _. ftrue };
}

/// Words of which those that say how many records of each kind are uncommitted are bounds: no more are. The others say nothing. Its type
/// names no lifetime.
pub struct ListedBounds {
    ghost bounds: { List ℕ },
}

impl Model for ListedBounds {
    ghost Value = { List ℕ };

    ghost view = { λ listed. listed.bounds };

    ghost also_owns = { λ _. ftrue };
}

/// The events of which a pass knows.
pub struct Trace {
    /// What all passes did, from the first event on a new table up to the last of which this pass knows. A bulk load, if one made the
    /// table, comes first; all others are atomic steps.
    pub events: ListedSteps,
    /// How often the pass has made a stamp, has followed one, or has met another pass. None of these is a step.
    pub asides: u64,
    /// How often the pass has touched a word: loaded it, and ignored what it found. None of these is a step.
    pub touches: u64,
    /// How many records of each kind are uncommitted at most.
    pub bounds: ListedBounds,
}

/// What a seat of the table knows, as a `View` says it, with a trace for each pass.
pub enum TracedView {
    /// Nothing more: it was given up in a join.
    Spent,
    /// That it hands out the pass numbers from this one on, and these bounds.
    Dealer(u64, ListedBounds),
    /// What a pass knows, which it hands out first, and then the pass numbers from this one on.
    Founder(Known, Trace, u64),
    /// What a pass knows.
    Pass(Known, Trace),
    /// What two passes know that have been joined.
    Pair(Known, Trace, Known, Trace),
    /// That these changes and these steps have been made. Its seat is no pass's, and has nothing.
    Witness(Listed<Change>, ListedSteps),
    /// What a pass knows that a witness has been joined to, and what the witness knows.
    Follower(Known, Trace, Listed<Change>, ListedSteps),
}
