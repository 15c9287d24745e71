//! An ordered index from byte keys to 64-bit values, shared by threads: a height optimized trie (HOT, Binna and others,
//! SIGMOD 2018) whose readers take no lock (ROWEX, Leis and others, DaMoN 2016).
//!
//! # Parts
//!
//! An [`Index`] is a table of words of a fixed size. [`create`] makes one with leaf records for the longest keys,
//! [`create_with`] by a [`Stock`]: how many node records, and how many leaf records of each size. [`create_reserved`] makes one that reserves
//! a stock: calls use its first records alone, which are committed, and `Index::commit` commits more. Each thread works through
//! a pass of its own: a [`Pass`] with the index beside it, or a [`Handle`], which has both. There are as many passes as the index was
//! made with. A call takes its pass by `&mut`, so each pass makes one call at a time. A pass has buffers of some 310 KB. One that waits
//! for its thread needs none as a [`ClosedPass`] or [`ClosedHandle`], which [`create_closed`] makes. A [`Load`] takes sorted pairs, and
//! makes an index that has them.
//!
//! # Calls
//!
//! - *Look-ups*: `get`, `get_many`. They take no lock, and make a bounded number of atomic steps, whatever other threads do.
//! - *Changes*: `insert`, `upsert`, `remove`, `exchange`, `add`, `remove_if`. Each changes the map by one store, or not at all. These forms
//!   wait while another pass is in the way, or holds records back. The `try_` forms return [`TryFault`] instead, after a bounded number of
//!   steps.
//! - *Scans*: `scan`, `scan_into`, `scan_values_into`, downwards `scan_reverse`, `prefix_into`, `first`, `last`, `count_range`, and
//!   [`Cursor`]s. A scan is no single moment: each pair was there at a moment of it, and no key is left out that was there all along.
//! - *Upkeep*: `collect` gives back what was retired, and `census` counts the records. Calls collect by themselves. Each pass keeps a
//!   `count` of its keys, and [`total`] adds up these counts.
//! - *Order in time*: passes that `meet` share one history from then on. A [`Stamp`] carries what one pass has seen to another.
//!
//! # What contracts say
//!
//! Contracts see of a pass its seat: the changes that it has seen, its front, and the calls that were answered, its notes. Each answered
//! call adds its note with its last step. The notes of a pass are one legal history of a finite map; those of passes that have
//! met share one. A call that is refused changes nothing. Its clause says why it was refused: another pass was in its way, or each
//! record of the kind was found not free.
//!
//! # Gates
//!
//! The forms `_with` take a [`Gate`], which is told each atomic step that the call makes. Tests stop a call there and let another
//! pass go on. The plain forms use [`NoGate`], which does nothing.
//!
//! # What carries the proof
//!
//! `create` and `create_with` give passes in order (`IsNewPass`) or say which number is out of range. `Load::finish` says that pass 0 has
//! inserted the pairs, in their order, and that the map is just these (`IsLoaderPass`). `meet` ensures `HaveMet`, by `legal_longer` and
//! `weave-legal_two`. `follow` ensures `HasCaughtUp`; `laws::returned_before_begun` orders two calls by a stamp.
//! `laws::one_pass_is_never_busy`, `all_long_full_means_none_free`. A pass's invariant has the count of its keys (`IsSettledWith`); these
//! add up (`laws::counts_add_up`). A handle's has `Owns`, and its methods keep its index (`Stays`). Cursors: `IsLeft`, `GoesOnAt`.
//!
//! Contracts see of a pass its number, front, notes, steps and failed steps (`PassView`), of an index its layout and its identity
//! (`TableView`, `TableId`).
#![tactic(auto)]

mod adding;
mod calls;
mod closed;
mod committing;
mod creating;
mod cursor;
mod expecting;
mod handle;
mod index;
mod key_counts;
pub mod laws;
mod loading;
mod range_counts;
mod range_values;
mod ranges;
mod reverse;
mod scans;
mod stamp;

pub use bulk_load::LoadFault;
pub use closed::{ClosedHandle, ClosedPass};
pub use committing::Kind;
pub use creating::{
    IndexFault, create, create_closed, create_reserved, create_with, keep_one_node,
};
pub use cursor::{Cursor, Rest};
pub use epochs::Given;
pub use finite_map::{Call, Reply, Scan};
pub use handle::{Handle, ShowsIndex, handles_of};
pub use hot_index_calls::{RecordCounts, Refusal, StateCounts};
pub use index::{Index, Pass};
pub use key_bits::Key;
pub use key_counts::{KeyCount, total};
pub use key_ranges::{last_with_prefix, next_key, previous_key};
pub use loading::Load;
pub use packed_pairs::Pairs;
pub use record_words::{LayoutFault, Stock};
pub use rowex_core::{Event, Gate, NoGate};
pub use rowex_scanning::{Direction, Range};
pub use rowex_writing::{Full, TryFault};
pub use stamp::Stamp;
