//! A height optimized trie (HOT) for one thread: the structure of the concurrent index, without its concurrency.
//!
//! # What it is for
//!
//! No program uses it. It says what a HOT is where nothing else is in the way: no shared words, no locks, no other threads. Read it before
//! `rowex_writing`, which makes the same tree by publishing one store at a time.
//!
//! It has in common with the concurrent index all that decides the tree's form:
//!
//! - the nodes, and what becomes of one (`compound_node`),
//! - the rule which case an insertion is, growing a full node, and pulling a fork up (`insert_cases`),
//! - the tree that records show, and the map that it holds (`tries`).
//!
//! It differs in how changes come about. Its records stand in two vectors, and a node is replaced in place. Insertion goes down by
//! recursion and up again, and it never removes. The concurrent index makes new records, puts them in by one store, and retires the old.
//!
//! # What contracts say
//!
//! [`PlainTrie`] holds a finite map, and its records show one bit trie at any time (`ShowsSoundTree`). `get`, `insert` and `upsert` return
//! what the map does. `insert` and `upsert` also say by which case the nodes changed (`TakesCase`). A refusal, for want of memory or of
//! numbers, changes nothing.
//!
//! Tests compare it with `PlainIndex`, a sorted list of pairs, and with nodes worked out by hand.
#![tactic(auto)]

mod plain;

pub use plain::PlainTrie;
pub use plain_trie_records::{Place, place};
