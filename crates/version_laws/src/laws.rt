//! The laws of versions for writers, searches and scans. The functions do nothing: their contracts are the laws.

ghost use Rattle.version_laws.specs.Ways.{FoundSame, OneBody, PlacedSame, RootedSame, StillGrows, StillPlaced, StillRooted, WayBegins, WayEnds, WayGoesOn, WayIsBelow, WayOfLeaf};
ghost use Rattle.version_laws.specs.Statements.{FirstKey, FoundIsKept, GetEnds, InsertAtSpot, LedPlaced, LoadsLeaf, LoadsNone, LoadsPlace, LoadsRoot, LoadsShape, MergeAtSpot, PairAtSpot, RemoveAtSpot, RemoveLast, ScanIsLawful, UpperGoesOn, UpsertAtSpot};

/// Let one entry have risen from a locked node with a new leaf, which is ready. Let the spot that names this node be locked, too. If the
/// spot is in a node, let no other entry there be affected, and the new entry be lower than that node. The store of the new entry at the
/// spot is a legal publish that adds the key. It links and unlinks just the records of the rise.
pub fn insert_at_spot_adds_key()
    ensures { InsertAtSpot }
{}

/// Let a locked node's entry on a key's path name a node. Let an insertion affect no more in the locked node than that entry. Then the
/// locked node's first fork is before the position of the insertion.
pub fn first_fork_is_before_insertion()
    ensures { UpperGoesOn }
{}

/// Let a locked spot name a leaf whose key first differs from a new leaf's at some position. Let an insertion affect this leaf alone there.
/// Take a new node of both leaves, with a fork at that position. If the spot is in a node, let the new node be lower than that one. Let the
/// new node and the new leaf be ready. The publish of the new node at the spot is legal, and adds the key. It links just these two, and
/// unlinks nothing.
pub fn pair_at_spot_adds_key()
    ensures { PairAtSpot }
{}

/// Let a pass have locked the anchor, and let the root be empty. The pass's publish of a new leaf there, which is ready, is legal and adds
/// the key.
pub fn first_leaf_adds_key()
    ensures { FirstKey }
{}

/// Let a locked spot name a leaf. The publish there of a new leaf with the same key, which is ready, is legal and replaces the key's value.
/// It links just the new leaf, and unlinks just the old one.
pub fn upsert_at_spot_replaces_value()
    ensures { UpsertAtSpot }
{}

/// Let a leaf's node be locked, and the spot that names this node, too. What is left of the node without the leaf is one entry, or a new
/// node that is ready. If the spot is in a node, let what is left be lower than that one. Its publish at the spot is legal, and removes the
/// key. It unlinks just the leaf and its node.
pub fn remove_at_spot_removes_key()
    ensures { RemoveAtSpot }
{}

/// Let a leaf's node, its sibling, the node above the two, and the spot that names the node above be locked. What is left of the two
/// becomes one new node. What is left of the node above, with the new node in it, is one entry or another new node. New nodes are ready. If
/// the spot is in a node, let what is left be lower than that one. Its publish at the spot is legal, and removes the key. It unlinks just
/// the three nodes and the leaf.
pub fn merge_at_spot_removes_key()
    ensures { MergeAtSpot }
{}

/// The removal of the only leaf, by the pass that has locked the anchor, is a legal publish that leaves the index empty.
pub fn last_removal_leaves_index_empty()
    ensures { RemoveLast }
{}

/// What a writer found below a node stays true in later versions. It does as long as the writer keeps its pin and the node's lock, and the
/// node keeps its words. The pin is no later than the version from which on the writer searched.
pub fn found_below_lock_stays_true()
    ensures { FoundIsKept }
{}

/// Let a load find an entry at the root. For each version so far, the root had this entry in that version or a later one.
pub fn load_tells_root()
    ensures { LoadsRoot }
{}

/// Let a load find the root empty. For each version so far, each key was absent in that version or a later one.
pub fn load_tells_empty_root()
    ensures { LoadsNone }
{}

/// A load of a slot of a node in reach tells that the entry found stood there in a version since the pin. The entry is lower than the node.
pub fn load_tells_entry()
    ensures { LoadsPlace }
{}

/// The loads of the head of a node in reach tell the forks with which the node stood in a version since the pin.
pub fn loads_tell_forks()
    ensures { LoadsShape }
{}

/// The loads of the words of a leaf in reach tell the key and value that the leaf had in a version since the pin.
pub fn loads_tell_leaf()
    ensures { LoadsLeaf }
{}

/// A search that was led to a node is led on to the entry that was loaded in the node's slot on the key's path. The forks that tell the
/// slot were loaded, too. Whatever was published between the loads doesn't matter.
pub fn loaded_entry_leads_search_on()
    ensures { LedPlaced }
{}

/// A lookup that came to a leaf has the reply of a version since its pin. If the leaf has the key that is looked up, the key had the leaf's
/// value in that version. Else the key was absent there.
pub fn lookup_is_current()
    ensures { GetEnds }
{}

/// Let a scan in either direction, between two keys, come to the end of its range, or be cut at its limit. It is lawful between the fronts
/// at its start and end.
pub fn scan_is_lawful()
    ensures { ScanIsLawful }
{}

/// A writer's descent may begin at a node whose forks it has read, and which was in the tree in a version since its pin.
pub fn descent_begins_at_read_node()
    ensures { WayBegins }
{}

/// A descent that has come to a node goes on by each entry that the pass reads there, whatever is published in between.
pub fn descent_goes_on_by_read_entry()
    ensures { WayGoesOn }
{}

/// Let a descent from a node have come to a leaf whose words were read. Then, before the node's first fork, the leaf's key agrees with a
/// key that the node had.
pub fn leaf_has_stem_of_node()
    ensures { WayEnds }
{}

/// A leaf whose words were read is a descent of its own, which begins and ends there.
pub fn read_leaf_is_a_descent()
    ensures { WayOfLeaf }
{}

/// Let a descent have begun at a node's entry on the key's path, and have ended at a leaf. It tells what a writer needs of the path below
/// that node.
pub fn descent_tells_way_below()
    ensures { WayIsBelow }
{}

/// If no change was made since a version, each search in the newest tree begins at the entry that was read at the root since that version.
pub fn unchanged_search_begins_at_root_entry()
    ensures { StillRooted }
{}

/// Let a search in the newest tree be at a node, on condition that no change was made since a version. On the same condition it goes on to
/// the entry in the node's slot on the key's path. The node's forks and that entry were read since the version.
pub fn unchanged_search_goes_on_by_entry()
    ensures { StillPlaced }
{}

/// What is known of a search on condition that no change was made since a version stays true while versions are added.
pub fn unchanged_search_stays_known()
    ensures { StillGrows }
{}

/// Let a node stand twice in the tree of one version, with bodies of the same forks and stems. The two bodies are equal.
pub fn node_met_twice_is_equal()
    ensures { OneBody }
{}

/// Two reads of the root find one entry, or both find it empty, if no change was made in between.
pub fn root_loads_agree()
    ensures { RootedSame }
{}

/// Two reads of one slot of a node find one entry, if no change was made in between.
pub fn entry_loads_agree()
    ensures { PlacedSame }
{}

/// Two searches for a key that end at leaves end at the same leaf, if no change was made in between.
pub fn searches_agree()
    ensures { FoundSame }
{}
