//! What a pass knows of the shared state. No value of these types is made: contracts alone speak of them, and their
//! numbers are whole numbers without bound.

use compound_node::Entry;
use finite_map::{Change, Note};
use record_words::{Location, Rec};
use versions::{Listed, Pin, Round};

/// What a load told a pinned pass. `since` is the version at its pin, and `at` the newest version at the load.
pub enum Fact {
    /// The root had this entry in version `at`.
    Rooted {
        since: u64,
        at: u64,
        entry: Option<Entry>,
    },
    /// Let m be `since` or later. If the node was in the tree in versions from m to `at`, it had this entry in this slot in one of them.
    Placed {
        since: u64,
        at: u64,
        node: u32,
        slot: u8,
        entry: Option<Entry>,
    },
    /// As `Placed`, for a record: in one of these versions it had this word at this offset.
    Fixed {
        since: u64,
        at: u64,
        rec: Rec,
        offset: u8,
        word: u64,
    },
    /// As `Placed`, for a leaf: in one of these versions it had this value.
    Valued {
        since: u64,
        at: u64,
        leaf: u32,
        value: u64,
    },
}

/// How a pass holds a record of its own.
pub enum Holding {
    /// Claimed, and not yet ready.
    Held,
    /// Made live, and not yet linked.
    Ready,
    /// In the tree from version `since` to version `last`, then unlinked by the pass, and not yet marked.
    Unlinked { since: u64, last: u64 },
}

/// A record of the pass's own, with its words but the state.
pub struct Owned {
    pub rec: Rec,
    pub holding: Holding,
    pub words: Listed<u64>,
}

/// A node in the tree that the pass has locked, with its words but the state.
pub struct Locked {
    pub node: u32,
    pub words: Listed<u64>,
}

/// A value that the pass has loaded of a leaf since it last locked, unlocked, published or marked. While what names the leaf is locked by
/// the pass, the leaf still has it.
pub struct Loaded {
    pub leaf: u32,
    pub value: u64,
}

/// What kind of step failed, and which pass was in its way; `None` if none was.
pub enum FailedAct {
    /// A claim of a record that the pass `by` had. With `None` it was nobody's, in the tree or retired.
    Claim { by: Option<u64> },
    /// A try of a lock that the pass `by` had, or of a retired node that a change of `by` had unlinked.
    Lock { by: Option<u64> },
    /// A load of a state that wasn't free, of a record that the pass `by` had. With `None` it was nobody's, in the tree or retired.
    LoadState { by: Option<u64> },
}

/// A failed claim or lock, or a load of a state that wasn't free: the word that it found, and the number of the step.
pub struct Failed {
    pub act: FailedAct,
    pub location: Location,
    pub word: u64,
    pub step: u64,
}

/// What the last load of the root left: the front, the number of that step, and the version at which the pass was pinned. Before the
/// first load the step is 0, the number of none; and so is the version, where there was no pin.
pub struct Fresh {
    pub front: Listed<Change>,
    pub step: u64,
    pub pinned: u64,
}

/// What a pass knows.
pub struct Known {
    /// The number of the pass.
    pub pass: u64,
    /// The changes that it has seen.
    pub front: Listed<Change>,
    /// What its last load of the root left.
    pub fresh: Fresh,
    /// The pass's completed calls, each with its reply and its place.
    pub notes: Listed<Note>,
    /// The number of its next atomic step; the first is 1.
    pub steps: u64,
    /// Its failed steps, the latest first.
    pub failed: Listed<Failed>,
    /// What its loads have told it while it was pinned, the latest first.
    pub facts: Listed<Fact>,
    /// The records of its own.
    pub own: Listed<Owned>,
    /// The nodes in the tree that it has locked.
    pub locks: Listed<Locked>,
    /// The root's entry, where it has locked the anchor.
    pub anchor: Option<Option<Entry>>,
    /// The values that it has loaded since it last locked, unlocked, published or marked.
    pub values: Listed<Loaded>,
    /// Its pin; `None` if it isn't pinned.
    pub pin: Option<Pin>,
    /// What it has loaded of the epoch and of pins, from its last load of the epoch on.
    pub round: Round,
}

/// What a seat of the table knows.
pub enum View {
    /// Nothing more: it was given up in a join.
    Spent,
    /// That it hands out the pass numbers from this one on.
    Dealer(u64),
    /// What a pass knows, which it hands out first, and then the pass numbers from this one on.
    Founder(Known, u64),
    /// What a pass knows.
    Pass(Known),
    /// What two passes know that have been joined.
    Pair(Known, Known),
    /// That these changes have been made. Its seat is no pass's, and has nothing.
    Witness(Listed<Change>),
    /// What a pass knows that a witness has been joined to, and the witness's changes.
    Follower(Known, Listed<Change>),
}
