//! Scans of a shared trie: a pinned pass walks from the first key of a range on, or from the last one downwards. It is sure of what it
//! lists, whatever other passes publish meanwhile.
//!
//! # What carries the proof
//!
//! The walk keeps its way as frames, and is sure of `IsScanBy`. It starts before or behind the entries that the first difference affects;
//! if that is one, its place is never loaded again (`IsPastKey`). The walk is proved once for both directions. A count knows its pairs by
//! their number alone (`Tally`): of leaves that come together, those before one of the range are of the range, too.
#![tactic(auto)]

mod ahead;
mod counting;
mod direction;
mod scan;
mod scanning;
mod sinks;
mod start;
mod taking;

pub use counting::count_root;
pub use packed_pairs::Direction;
pub use scan::Range;
pub use scanning::{scan_root, scan_values};
