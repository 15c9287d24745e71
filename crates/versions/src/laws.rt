//! The laws of lawful cores: of versions and of the lives of records. The functions do nothing: their contracts are the laws.

ghost use Rattle.versions.specs.Counts.{NodesInTreeAreFewer};
ghost use Rattle.versions.specs.Loads.{LoadIsLawful, LoadIsLegal};
ghost use Rattle.versions.specs.Statements.{ContentIsMap, StateHindsight, BareOpeningIsLawful, StateParting, BareReachIsKept, ReachIsSteady, StepKeepsLawful};

/// Let each record of the versions from m on still be in the life that it had there. A search is led to an entry if the entry's record was
/// in the tree in one of these versions. The search's key also follows the record's stem there, or was absent in one of these versions. A
/// search that was led to a node is led to the node's present entry on the key's path. That holds even if the node has changed or was
/// unlinked since.
pub fn hindsight()
    ensures { StateHindsight }
{}

/// Keys below two slots of a node, in any versions of its life, first differ at the fork between these slots. The key below the lower slot
/// has 0 there.
pub fn keys_part_at_fork_between_slots()
    ensures { StateParting }
{}

/// The opening core is lawful, whatever the words of records are.
pub fn opening_is_lawful()
    ensures { BareOpeningIsLawful }
{}

/// Let the words show a lawful tree, or none. After a load of it into an index in which nothing has happened, the core is lawful.
pub fn load_is_lawful()
    ensures { LoadIsLawful }
{}

/// Take the leaves of a bit trie, or of no tree, as insertions in the order of the keys. They are legal calls of the pass that loads them,
/// in the front of their own changes.
pub fn load_is_legal_calls()
    ensures { LoadIsLegal }
{}

/// Each legal step of a lawful core leads to a lawful core.
pub fn steps_stay_lawful()
    ensures { StepKeepsLawful }
{}

/// The content of version n is the map of the first n changes, in strict key order.
pub fn content_is_map()
    ensures { ContentIsMap }
{}

/// No record of a pinned pass's reach is free or held. Its reach is all records that were in the tree in a version since the pin.
pub fn reach_is_kept()
    ensures { BareReachIsKept }
{}

/// Take a record of a pinned pass's reach, and the versions since the pin in which it was in the tree. A node has the same fixed words and
/// stems in all of these, and a leaf the same key.
pub fn records_in_reach_stay_same()
    ensures { ReachIsSteady }
{}

/// There are fewer node records in the tree than keys in the map. If the map has no key, there is no node record in the tree.
pub fn nodes_in_tree_are_fewer_than_keys()
    ensures { NodesInTreeAreFewer }
{}
