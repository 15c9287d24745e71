//! Tests by values that were worked out by hand: of keys and nodes, of the maps for one thread, of words, trees and replays.
//!
//! And tests of the index by what no contract says. Memory that was refused is asked for again. Threads that run at once find each
//! other's keys, tell each other by stamps what they have seen, and lose nothing that they add. Handles are closed for a time. Indexes
//! are filled to the last record, or made of sorted pairs. A full call costs what it should. Records are claimed by their numbers.
#![tactic(auto)]

#[cfg(test)]
mod adding;
#[cfg(test)]
mod claims;
#[cfg(test)]
mod closed;
#[cfg(test)]
mod full;
#[cfg(test)]
mod kinds;
#[cfg(test)]
mod layouts;
#[cfg(test)]
mod loaded_threads;
#[cfg(test)]
mod loads;
#[cfg(test)]
mod maps;
#[cfg(test)]
mod merges;
#[cfg(test)]
mod nodes;
#[cfg(test)]
mod refused;
#[cfg(test)]
mod replays;
#[cfg(test)]
mod reserved;
#[cfg(test)]
mod shared;
#[cfg(test)]
mod spared;
#[cfg(test)]
mod stamps;
#[cfg(test)]
mod sums;
#[cfg(test)]
mod tables;
#[cfg(test)]
mod trees;
#[cfg(test)]
mod waiting;
