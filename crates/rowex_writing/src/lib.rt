//! The writers of a shared trie: what a call does to the index, and what it builds for that.
//!
//! # Mechanism
//!
//! An attempt ([`attempt`]) of a call that may change the index goes through these stages. Their files stand in rooms: `plan`, `locks`,
//! `build`, `store`, `merging` and `attempts`, in this order. Each is a folder of `src/`, `specs/` and `proofs/`, and none imports a later
//! one. No two files import each other, by whatever way. What is planned goes from stage to stage as a job (`job`).
//!
//! 1. *Search* (`rowex_reading`): the path of the key, and the leaf at its end with the key's first mismatch. These tell what the call
//!    requests (`asking`). A call whose answer needs no change ends here.
//! 2. *Plan* (`plan`): which nodes of the path are remade, the span, and what is done at its lower end, the deed. A deed puts the first
//!    leaf, gives a leaf another value, pushes a leaf down into a node of two, grows a node by a leaf, or takes a leaf out. The cases of an
//!    insertion are those of HOT: normal insert, leaf pushdown, parent pull up, intermediate node, new root.
//! 3. *Locks* (`locks`): the nodes of the span and the one above it are locked, from the lowest up; the anchor stands for the
//!    root. Each is tried once. A node that is locked or obsolete makes the attempt busy, after all locks are given back.
//! 4. *Check* (`checking`): one entry of each locked node is loaded and compared with what the search found. If all are the same,
//!    the path still stands, since nobody else changes a locked node. The value of a key that is held is loaded then: it stays while what
//!    names its leaf is locked. A call that expects another value ends here, with nothing changed. A new value is stored at once
//!    (`valuing`), and that is the change. The steps below are those of other deeds.
//! 5. *Build* (`deeds`, `growing`, `taking`, `rising`, `remaking`, `leaves`, `nodes`, `hints`): records are claimed and filled with what
//!    takes the place of the span. Nobody else can reach them yet. If no record is free, all is given up and undone.
//! 6. *Merge* (`merging`, `locked`, `widening`): a removal whose node has another above it looks at the last fork on the path there. If its
//!    other side is one node, that is the sibling. If what is left fits into one node with the sibling, the sibling and what names the
//!    upper node are locked, too, and both become one. If anything fails, these locks are given back, and the removal goes on as it was.
//! 7. *Publish* (`publishing`): the new records are made ready, and one store of an entry's word, or of the root, makes the change
//!    visible. This store is the change: before it all readers see the old tree, after it the new one.
//! 8. *End* (`ending`): the epoch is loaded, what the store has unlinked is marked with it, and the rest is unlocked.
//!
//! # What carries the proof
//!
//! A locked node's words stay as they are, so what was loaded under the locks is true at the store. `publish_laws` has for each case of
//! a change the law that allows the store. It leads from the words of the locked nodes and of the new records to a lawful next version,
//! which differs by one key. A pass recalls what its loads have shown, whatever others publish elsewhere.
//!
//! Nobody waits for a lock while holding one, so no order of locks can block. Lowest first means that those that more passes want
//! are held for the shortest time.
//!
//! `attempt` begins and ends with a pinned pass that has nothing (`IsAtRest`). Its parts (`docs/ARCHITECTURE.md`) hand on facts that last
//! (`IsWayOf`), a plan (`IsPlan`), locks (`HasTriedOnce`, `IsBlocked`), what was checked (`IsChecked`, or the front is longer) and the
//! change (`HasChanged`). A leaf for a node of leaves goes into its words (`make_node_with_leaf`, `SpellBuilt`); other nodes are made as
//! values (`raise_with_leaf`). All claims of a change share one walk (`IsClaimWalk`). `AreAttemptSteps` bounds it by entries, locks and
//! records.
//!
//! No lock is tried twice: heights fall along a path, and a record to which a pass was led since its pin has one height. Under the locks
//! the path of the search is the path in the present tree, from the topmost locked node to the entry of the lowest. Below that only the
//! found leaf's value is loaded again: it is the key's after all changes that the pass has seen (`HoldsFound`). If a check fails, the front
//! is longer than at the root's load, which is another pass's change.
//!
//! The plan comes from reads without locks, and the laws speak of words under them. `locked_shape` ties the two: a node's forks, height,
//! count and affected entries stay for its life. What a node becomes is no higher than it was, or one higher if it was full. Then the node
//! above is at least two higher, or the plan would have gone on upwards.
//!
//! # What is kept between calls
//!
//! [`Build`] (`kept`) has the lists that a change fills, and hints where free records are ([`Hint`], `hints`). The hints are plain numbers
//! of which no contract speaks: a claim is an exchange of the record's state, which fails if the record isn't free.
#![tactic(auto)]

mod attempts;
mod build;
mod locks;
mod merging;
mod plan;
mod store;

pub use attempts::{TryFault, attempt};
pub use build::hints::{Hint, Stretch};
pub use build::kept::{Build, NodeWalk};
pub use plan::Full;
