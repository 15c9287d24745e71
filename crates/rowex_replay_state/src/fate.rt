//! What has become of a record.

ghost use Rattle.std.specs.Prelude.{◌≡◌};
ghost use Rattle.rowex_core.specs.Words.{lock_tag, tag_of};

use record_words::Tag;

/// What has become of a record. `by` is the number of a pass; `since` and `last` are numbers of versions.
#[derive(Clone, Copy)]
pub(crate) enum Fate {
    /// Any pass may claim it.
    Free,
    /// Pass `by` has claimed it and fills it.
    Held { by: u16 },
    /// Pass `by` has made it live and not yet linked it.
    Ready { by: u16 },
    /// The record has been in the tree since version `since`.
    InTree { since: u64 },
    /// The record was in the tree from version `since` to `last`. Pass `by` has unlinked it and not yet marked it.
    Unlinked { since: u64, last: u64, by: u16 },
    /// The record was in the tree from version `since` to `last`, and is obsolete with `epoch`.
    Marked { since: u64, last: u64, epoch: u64 },
}

impl Fate {
    ghost use Rattle.rowex_replay_state.specs.Fates.{stored_fate};

    /// Returns the state of a record that has come to this fate. A record that is ready, in the tree or unlinked is locked if `lock` is a
    /// pass, and else live. For other fates `lock` is ignored.
    pub(crate) fn state(self, lock: Option<u16>) -> Tag
        ensures { result ≡ tag_of lock (stored_fate self) }
    {
        match self {
            Fate::Free => Tag::Free,
            Fate::Held { .. } => Tag::Held,
            Fate::Marked { epoch, .. } => Tag::Obsolete(epoch),
            _ => live_state(lock),
        }
    }
}

/// Returns the state of the anchor, or of a record that is neither free, held nor marked: `Locked` if `lock` is a pass, `Live` if it is
/// `None`.
pub(crate) fn live_state(lock: Option<u16>) -> Tag
    ensures { result ≡ lock_tag lock }
{
    match lock {
        None => Tag::Live,
        Some(_) => Tag::Locked,
    }
}
