//! The laws of trees that were read. The functions do nothing: their contracts are the laws.

ghost use Rattle.rowex_replay_state.specs.Statements.{LeavesAreOne};

/// In a lawful core, let the words show a tree, or an empty root, once any word is stored at the root or in a slot. If one of the tree's
/// leaves and a leaf of the newest version have the same number, they have the same key and value. `change_between` asks that of its two
/// lists.
pub fn leaves_of_one_number_are_one()
    ensures { LeavesAreOne }
{}
