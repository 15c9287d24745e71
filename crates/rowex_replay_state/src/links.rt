//! What a publish asks of the fates of records, and what it makes of them.

ghost use Rattle.std.specs.Prelude.{◌≡◌, ◌↔◌, ◌+◌, ◌<◌, ◌^◌, IsTrue, None, false, get_or};
ghost use Rattle.versions.specs.Steps.{next_fate};
ghost use Rattle.rowex_replay_state.specs.Fates.{stored_fate};
ghost use Rattle.rowex_replay_state.specs.Links.{AllMayBeLinked, AllMayBeUnlinked, AreNextFates, MayBeLinked, MayBeUnlinked};

use crate::fate::Fate;

impl Fate {
    /// Returns whether a record that has come to this fate lets `pass` publish a tree, where `is_linked` says whether the tree links the
    /// record. A record that the tree links must be in the tree already, or made ready by `pass`. Any fate will do of a record that it
    /// doesn't link.
    fn may_be_linked(self, pass: u16, is_linked: bool) -> bool
        ensures { IsTrue result ↔ MayBeLinked pass is_linked self }
    {
        match self {
            Fate::InTree { .. } => true,
            Fate::Ready { by } if by == pass => true,
            _ => !is_linked,
        }
    }

    /// Returns whether a node that has come to this fate lets `pass` publish a tree. `is_linked` says whether the tree links the node, and
    /// `lock` which pass has locked it, if any. A node that is in the tree may be left out only if `pass` has locked it.
    fn may_be_unlinked(self, pass: u16, is_linked: bool, lock: Option<u16>) -> bool
        ensures { IsTrue result ↔ MayBeUnlinked pass is_linked lock self }
    {
        match self {
            Fate::InTree { .. } => is_linked || lock == Some(pass),
            _ => true,
        }
    }

    /// Returns the fate of a record after `pass` has published version `now + 1`, by its fate before. `is_linked` says whether that version
    /// links the record. A ready record that is linked is in the tree then. A record of the tree that isn't linked is unlinked by `pass`.
    /// All else stays.
    fn fate_after_publish(self, now: u64, pass: u16, is_linked: bool) -> Fate
        requires { now + 1 < 2 ^ 64 }
        ensures { stored_fate result ≡ next_fate now pass is_linked (stored_fate self) }
    {
        match self {
            Fate::Ready { .. } if is_linked => Fate::InTree { since: now + 1 },
            Fate::InTree { since } if !is_linked => Fate::Unlinked {
                since,
                last: now,
                by: pass,
            },
            _ => self,
        }
    }
}

/// Returns whether `pass` may link the records that `linked` marks, by the `fates` of all nodes, or of all leaves. Each must be in the tree
/// already, or made ready by `pass`. A record behind the last mark isn't linked. Records that aren't linked may have any fate.
pub(crate) fn may_link(fates: &[Fate], pass: u16, linked: &[bool]) -> bool
    ensures { IsTrue result ↔ AllMayBeLinked pass linked.now fates.now }
{
    for (i, fate) in fates.iter().enumerate() {
        if !fate.may_be_linked(pass, flag_at(linked, i)) {
            return false;
        }
    }
    true
}

/// Returns whether `pass` may leave out of the tree the nodes that `linked` doesn't mark, by the `fates` and `locks` of all nodes. Each of
/// them that is in the tree must be locked by `pass`. A node behind the last mark isn't linked, and one behind the last lock isn't locked.
pub(crate) fn may_unlink(fates: &[Fate], locks: &[Option<u16>], pass: u16, linked: &[bool]) -> bool
    ensures { IsTrue result ↔ AllMayBeUnlinked pass linked.now locks.now fates.now }
{
    for (i, fate) in fates.iter().enumerate() {
        if !fate.may_be_unlinked(pass, flag_at(linked, i), lock_at(locks, i)) {
            return false;
        }
    }
    true
}

/// Makes each of `fates` that of its record after `pass` has published version `now + 1`. That version links just the records that `linked`
/// marks. A record behind the last mark isn't linked.
pub(crate) fn update_each_fate(fates: &mut [Fate], now: u64, pass: u16, linked: &[bool])
    requires { now + 1 < 2 ^ 64 }
    ensures { AreNextFates now pass linked.now fates.old fates.new }
{
    for i in 0..fates.len() {
        fates[i] = fates[i].fate_after_publish(now, pass, flag_at(linked, i));
    }
}

/// Returns the flag at index `at` of `flags`; `false` behind the last one.
fn flag_at(flags: &[bool], at: usize) -> bool
    ensures { result ≡ get_or flags.now at false }
{
    flags.get(at).copied().unwrap_or(false)
}

/// Returns the pass that has locked the node `at`; `None` if none has, or if `at` is behind the last lock.
fn lock_at(locks: &[Option<u16>], at: usize) -> Option<u16>
    ensures { result ≡ get_or locks.now at None }
{
    locks.get(at).copied().flatten()
}
