//! The laws of a writer's publish from what it knows. The functions do nothing: their contracts are the laws.

ghost use Rattle.publish_laws.specs.Acts.{ActGoesOn, BesideMayLock, LedMayLock, LoadsOfLocked};
ghost use Rattle.publish_laws.specs.Cases.{MayAddFirstKey, MayMerge, MayPair, MayRemove, MayRemoveLast, MayStoreValue};
ghost use Rattle.publish_laws.specs.Ending.{EndBegins, EndInAnyOrder, EndMarks, EndRests, EndUnlocks, EndUnlocksAnchor, EndsAtOnce, KeptAreNotGone, Settles};
ghost use Rattle.publish_laws.specs.Insertions.{Insertion, NormalInsert, Overflow, PullUp, PullUpOverflow, MayKeepNodeWhole};
ghost use Rattle.publish_laws.specs.Rises.{AboveGoesOn};
ghost use Rattle.publish_laws.specs.Sure.{DescentFinds};
ghost use Rattle.publish_laws.specs.Lone.{FreeStays, SpareStays};

use rowex_core::Gate;

// What a pass is sure of: it is true of the past in each lawful state in which all is true that the pass recalls

/// Let a pinned pass have gone down from a locked node's entry on a new key's path to a leaf. Let the new key first differ from that leaf's
/// at the insertion's position. Then the pass knows what an insertion needs of the path below the node (`HasFoundBelow`): it needs no lock
/// there.
pub fn descent_from_lock_tells_way_below()
    ensures { DescentFinds }
{}

// Locks and loads

/// Let a pass be sure that a node stood in the tree in a version since its pin. Then it may try the node's lock. The record isn't reused
/// while the pass is pinned, so if its state is live, it is in the tree.
pub fn led_pass_may_lock_node()
    ensures { LedMayLock }
{}

/// In a node that a pass has locked, let the whole other side of the last fork on a key's path be one node. The pass may try that node's
/// lock, as a merge needs.
pub fn lock_holder_may_lock_sibling()
    ensures { BesideMayLock }
{}

/// A load of a locked node's word, in its head or in a slot, finds the word that the pass with the lock knows. So what was loaded once
/// under the lock is true at the publish.
pub fn loads_are_locked_words()
    ensures { LoadsOfLocked }
{}

/// Let a pass make an act that is no publish, bulk load, pin or unpin. Its pin stays, and what followed from its facts still follows. It
/// has newly seen only changes of others.
pub fn acts_keep_recall()
    ensures { ActGoesOn }
{}

// What rises

/// Let a locked node's entry on a key's path name another locked node. Let an insertion of the key affect that entry alone in the upper
/// node. Then the upper node's first fork is before the position of the insertion. So of the next node up only the entry on the path is
/// affected.
pub fn upper_fork_is_before_insertion()
    ensures { AboveGoesOn }
{}

// Insertion. In each case the pass holds the locks of the spot and of the old nodes. Just the new records are its own, and they are ready.

/// A pass that has locked the anchor and found the root empty may publish the first key: a new leaf at the root, its only record. Nothing
/// is unlinked.
pub fn first_key_may_be_published()
    ensures { MayAddFirstKey }
{}

/// Let one entry have risen from a node, and let the spot at which that node's entry stands be locked. Let the new leaf be among the new
/// records. If the spot is in a node, let no other entry of that node be affected, and let the new entry be lower than that node. The pass
/// may publish the entry at the spot. The publish adds the key, and unlinks the nodes that were copied or cut.
pub fn insertion_may_be_published()
    ensures { Insertion }
{}

/// A pass may publish a normal insert, unless what it affects is just one child node. A copy of the old node with the new leaf in it, low
/// enough for the spot, replaces the old node, which is unlinked.
pub fn normal_insert_may_be_published()
    ensures { NormalInsert }
{}

/// A pass may publish an overflow, unless what it affects is just one child node. The old node with the new leaf is cut at its first fork.
/// A node of both sides, an intermediate node or a new root, takes the old node's place. Each side is an entry or a new node. The old node
/// is unlinked.
pub fn overflow_may_be_published()
    ensures { Overflow }
{}

/// A pass may publish an overflow in which the old node stays whole, since its first fork isn't before the new leaf's position. A node of
/// the new leaf and the old node takes the old one's place, and nothing is unlinked.
pub fn overflow_may_keep_node_whole()
    ensures { MayKeepNodeWhole }
{}

/// A pass may publish a pull up: what has risen from a node takes that node's place in a copy of the node above. No other entry of the node
/// above is affected. The node above is unlinked, with those below that were copied or cut, over any number of levels.
pub fn pull_up_may_be_published()
    ensures { PullUp }
{}

/// A pass may publish a pull up after which the node above is cut, too, at its first fork. A new node of the two sides replaces the node
/// above, which is unlinked with those below that were copied or cut.
pub fn pull_up_may_end_in_overflow()
    ensures { PullUpOverflow }
{}

/// A pass may publish a leaf pushdown, or the second key, if one leaf alone is affected. A node of that leaf and the new one takes the
/// place of that leaf, and nothing is unlinked.
pub fn pair_of_leaves_may_be_published()
    ensures { MayPair }
{}

// Values and removal

/// A pass that has locked what names a key's leaf, and has loaded the leaf's value since, may store another value to the leaf. That store
/// is the change; the value that it replaces is the one loaded. No record comes or goes.
pub fn value_may_be_stored()
    ensures { MayStoreValue }
{}

/// A pass may publish a removal from a node that it has locked, and that names the leaf. What is left of the node, one entry or a new node,
/// replaces it at a locked spot. The publish unlinks node and leaf. The value that the key had is the one that the pass has loaded under
/// its locks.
pub fn removal_may_be_published()
    ensures { MayRemove }
{}

/// A pass that has locked a leaf's node, its sibling and the node above may publish a merge. One new node has what is left beside the leaf,
/// and the sibling's entries. In the node above, the new node's entry stands for both. What is left of the node above, one entry or a new
/// node, takes the place of the node above, at a locked spot.
///
/// The publish unlinks the leaf and the three old nodes. The value that the key had is the one that the pass has loaded under its locks.
pub fn merge_may_be_published()
    ensures { MayMerge }
{}

/// A pass that has locked the anchor may publish the removal of the only leaf, which empties the root. The value that the leaf's key had is
/// the one that the pass has loaded under the anchor's lock.
pub fn last_removal_may_be_published()
    ensures { MayRemoveLast }
{}

// After the publish

/// Of the nodes that a pass has locked, each listed once, `kept_locks` has just those that its publish does not unlink, each once.
pub fn kept_locks_are_not_unlinked()
    ensures { KeptAreNotGone }
{}

/// A load of the epoch straight after a publish begins the end of the attempt. The pass has just the records that the publish unlinked, to
/// be marked with that epoch. Its front and the anchor's lock are as after the publish.
pub fn epoch_load_begins_end()
    ensures { EndBegins }
{}

/// A publish that unlinks no record needs no load of the epoch: with it the end of the attempt has begun.
pub fn end_begins_at_once_if_nothing_is_unlinked()
    ensures { EndsAtOnce }
{}

/// At the end of an attempt the first unlinked record may be marked with the epoch loaded. It is the pass's own no longer; its other
/// records, its locks and its front are as before.
pub fn end_may_mark_first_unlinked()
    ensures { EndMarks }
{}

/// At the end of an attempt the first locked node may be unlocked. The pass's other locks, its records to mark and its front are as before.
pub fn end_may_unlock_node()
    ensures { EndUnlocks }
{}

/// At the end of an attempt a locked anchor may be unlocked. The pass's locked nodes, its records to mark and its front are as before.
pub fn end_may_unlock_anchor()
    ensures { EndUnlocksAnchor }
{}

/// At the end of an attempt the records to mark and the nodes to unlock, each listed once, may be taken in any order.
pub fn end_takes_any_order()
    ensures { EndInAnyOrder }
{}

/// Let no record be left to mark at the end of an attempt, no node be locked, and not the anchor. Then the pass has nothing of its own and
/// no lock.
pub fn end_leaves_nothing()
    ensures { EndRests }
{}

/// Let a pass have published, loaded the epoch, marked each unlinked record and unlocked each kept node. Then it has no record and no
/// locked node. Its front, which ends with its own change, and the lock of the anchor are as they were after the publish.
pub fn finished_end_leaves_nothing()
    ensures { Settles }
{}

// Runs of one pass

/// In a table with one pass, let a node record stand outside the tree. Steps that neither publish nor load in bulk leave one outside the
/// tree.
pub fn spare_stays<G: Gate>()
    ensures { SpareStays G.becomes }
{}

/// In a table with one pass, let steps that neither publish nor load in bulk end where the pass has no record. Each node record that was
/// free before is free after them.
pub fn free_stays<G: Gate>()
    ensures { FreeStays G.becomes }
{}
