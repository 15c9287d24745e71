//! The laws of the core. The functions do nothing: their contracts are the laws.

ghost use Rattle.rowex_core.specs.Statements.{EntriesInReach, FindsChange, Hindsight, ReachKeepsWords, StepsKeepKnowledge, PassKnowsAllItHas, LearnedIsTrue, StepsLeaveOthers, LocksApart, EachActAppends, OpeningIsLawful, KeysPartAtFork, PublishIsAStep, RunsKeep, RunsStayLawful, RootLoadSeesAll, StepsStayLawful, StepsWriteOneWord};

/// A legal step keeps the core lawful.
pub fn steps_stay_lawful()
    ensures { StepsStayLawful }
{}

/// A legal step of one pass leaves another pass its records, locks, pin and round. It leaves all versions so far, and adds no change of
/// that other pass.
pub fn steps_leave_what_others_have()
    ensures { StepsLeaveOthers }
{}

/// A legal step of one pass leaves true what any other seat knows.
pub fn steps_keep_what_others_know()
    ensures { StepsKeepKnowledge }
{}

/// What a pass knows, with what its own legal step teaches it, is true after that step.
pub fn learned_is_true()
    ensures { LearnedIsTrue }
{}

/// A load of the root leaves its pass all changes that were made before it, and so all that any pass had seen by then.
pub fn root_load_sees_all_changes()
    ensures { RootLoadSeesAll }
{}

/// A pass has just those records of its own that it knows to have. The same holds of its locks of nodes in the tree, and of the anchor's
/// lock.
pub fn pass_knows_all_it_has()
    ensures { PassKnowsAllItHas }
{}

/// A legal atomic step changes at most one word of the table. If the words showed the core before it, they then show the core after it.
pub fn steps_write_one_word()
    ensures { StepsWriteOneWord }
{}

/// The opening core is lawful, the opening words show it, and no pass has done anything.
pub fn opening_is_lawful()
    ensures { OpeningIsLawful }
{}

/// From the opening core every list of legal events leads to a lawful core.
pub fn runs_stay_lawful()
    ensures { RunsStayLawful }
{}

/// Let what a seat knows be true of a lawful core. It stays true after legal events, if none of these is by a pass whose seat it is.
pub fn runs_keep_knowledge()
    ensures { RunsKeep }
{}

/// A publish appends one change and one version; all earlier ones stay. A bulk load appends one change for each leaf, and makes the
/// versions anew: it is legal at the opening alone. Every other act leaves changes and versions as they are.
pub fn only_publish_appends()
    ensures { EachActAppends }
{}

/// Let a search of a pinned pass be led to a node, since a version that is no older than the pin. Since that version it is also led to the
/// entry to which the node's words now send it. This holds whether the node is still linked or not.
pub fn hindsight()
    ensures { Hindsight }
{}

/// Keys below two entries of a node, in any versions of its present life, first differ at the fork between these entries. A key below the
/// left entry has 0 there.
pub fn keys_part_at_fork_between_entries()
    ensures { KeysPartAtFork }
{}

/// Take a record that was in the tree in a version since a pass's pin. It is neither free nor held. It has the words that it had in that
/// version, with four exceptions: its state, a node's entries, a leaf's value, and what stands behind a leaf's key.
pub fn reach_keeps_its_words()
    ensures { ReachKeepsWords }
{}

/// Take a node that was in the tree in a version since a pass's pin. Each of its slots now has the entry that it had in the last version in
/// which the node stood, or none. Its fixed words and stems were the same in these two versions.
pub fn entries_in_reach_are_of_last_version()
    ensures { EntriesInReach }
{}

/// A legal publish appends one change of its pass, which is legal on the map so far. The newest version then has the map after that change.
pub fn publish_is_map_step()
    ensures { PublishIsAStep }
{}

/// Let an entry word be stored, and let the words then show no tree, or a bit trie of lawful nodes. Let one change of the storing pass lead
/// from the newest version's leaves to those of that tree, and let the two lists of leaves differ. Then `next_change` finds that change.
pub fn legality_finds_change()
    ensures { FindsChange }
{}

/// Let a node be locked, and let a pass lock another one by a legal step. The core after that step is lawful, and both locks stand.
pub fn locks_stay_apart()
    ensures { LocksApart }
{}
