//! The laws of bit tries, each the contract of a function that does nothing. A tree's map has the keys and values of its leaves.

ghost use Rattle.tries.specs.Counts.{NodesAreFewer};
ghost use Rattle.tries.specs.Statements.{AddingInserts, ContentRises, ExchangeReplaces, LocalIsTrie, TakingRemoves};

/// In a bit trie the keys of the leaves, from left to right, rise strictly in byte order.
pub fn content_is_in_key_order()
    ensures { ContentRises }
{}

/// A tree is a bit trie exactly if each leaf's key is lawful, and each fork keeps two rules. The next forks below it have higher positions.
/// The first keys of its two sides agree before its position, and have 0 and 1 there.
pub fn local_rules_make_a_trie()
    ensures { LocalIsTrie }
{}

/// Let a bit trie have one leaf more than another tree. Its map is the other's with that leaf's key and value added. The key was absent
/// there.
pub fn one_leaf_more_adds_its_key()
    ensures { AddingInserts }
{}

/// Let a tree have the leaves of a bit trie, but one leaf in place of another with the same key. In the trie's map the key has the old
/// leaf's value. The tree's map has the new leaf's value for the key, and is otherwise the trie's.
pub fn exchanged_leaf_replaces_value()
    ensures { ExchangeReplaces }
{}

/// A tree with all leaves of a bit trie but one has the trie's map without that leaf's key. In the trie's map the key has the leaf's value.
pub fn one_leaf_less_removes_its_key()
    ensures { TakingRemoves }
{}

/// A tree of lawful nodes, each with two entries or more, has fewer nodes than leaves.
pub fn nodes_are_fewer_than_leaves()
    ensures { NodesAreFewer }
{}
