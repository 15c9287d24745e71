//! The tree of a version: a bit trie with marks at which records begin. Definitions and laws alone.
//!
//! # What carries the proof
//!
//! A version's tree is one inductive type: leaves and forks, with marks where records begin. That it is a bit trie is said of all keys
//! below each fork, so no stem is stored. Its leaves are in key order (`content_is_in_key_order`); one more, exchanged or less is one step
//! of the map (`one_leaf_more_adds_its_key`, `exchanged_leaf_replaces_value`, `one_leaf_less_removes_its_key`). `local_rules_make_a_trie`
//! decides lawfulness by forks and first keys alone.
#![tactic(auto)]

pub mod laws;
