//! Epochs: a pass is pinned while it reads, and rounds of collection give back the records that no pinned pass can reach.
//!
//! # Mechanism
//!
//! The table has one epoch, a number that only grows, and a pin for each pass, which is 0 or an epoch.
//!
//! 1. *Pin.* A pass loads the epoch and stores it as its pin, before it reads the root. It clears the pin at the end of its call.
//! 2. *Retire.* A writer that has unlinked records by its store loads the epoch after the store. It marks each of them as
//!    obsolete in that epoch. A marked record keeps its words: a reader may still stand in it.
//! 3. *Collect.* A round loads the epoch and, unless it is the last one, tries to make it the next. Then it loads the epoch again
//!    and each pin. The bound of the round is the least of that epoch and of the pins that are set. A record that is obsolete in
//!    an epoch below the bound goes from obsolete to free by one exchange. From then on any pass may claim it.
//!
//! # Why nothing in reach is given back
//!
//! Let a pass reach a record that was unlinked by a store. Then it loaded the epoch for its pin before that store. So its pin is at
//! most the record's mark, which was loaded after the store. If the round loaded this pin, the bound is at most the mark, and the
//! record stays. If the round loaded the pin before it was set, the pass had not yet read the root. Then either the store came first,
//! and the pass can't reach the record. Or the epoch that the round had loaded for its bound is at most the mark, and the record stays
//! again. The laws [`laws::reach_is_kept`] and [`laws::given_is_out_of_reach`] say so of each step.
//!
//! # Rounds
//!
//! A full round ([`collect_round`]) visits each committed record of the table, so its cost grows with these. It loads how many are
//! uncommitted once it has begun. No pass has claimed one of these before, so none waits to be given back. A small round
//! ([`collect_small_round`]) visits the records that the pass has retired itself. These stand in its limbo list ([`Limbo`]), oldest
//! first. A call that changes the index begins with a small round once the pass has retired 32 records since its last one, or up
//! to 96 if there are many passes, whose pins it loads. So each retired record is visited soon, and a full round is left for an attempt
//! that was refused as full. After such an attempt one retired record is enough for a small round, while the pass knows of few free ones.
//!
//! A small round also goes on with a look or a sweep ([`Sweep`]): it visits some of the records among which the pass claims. So those are
//! found that the list had no room for, and those that other passes gave back.
//!
//! An attempt that was refused as full asks for a round that may be spared ([`collect_if_risen`]). In an index of several passes it begins
//! as a full round does, and visits no record if its bound is no higher than that of the last such round of the pass. That one left no
//! record retired below its bound, and none can be later. So while a pass stays pinned, the round of each further full attempt visits none.
//!
//! The limbo list and this bound promise nothing: before a record is given back, its state is loaded and exchanged.
//!
//! A pass that is stopped while it is pinned holds back what others retire from then on, and nothing else: nobody waits for it
//! here. Whoever needs records learns by [`Collected`] whether a round gave some back, or found some free.
//!
//! # What carries the proof
//!
//! Contracts are lists of steps, since others go on meanwhile. A pin is the epoch loaded right before. A round (`docs/ARCHITECTURE.md`)
//! exchanges exactly the records obsolete below its bound. It may, since each pin was loaded after the epoch. A small round begins so, and
//! visits at most 128 records; no clause says which (`IsSmallRound`). `laws::reach_is_kept` and `given_is_out_of_reach` hold before and
//! after each step.
#![tactic(auto)]

mod collection;
pub mod laws;
mod limbo;
mod pinning;

pub use collection::{Collected, Given, collect_if_risen, collect_round, collect_small_round};
pub use limbo::{Limbo, MOST_VISITED, Sweep};
pub use pinning::{pin, unpin};
