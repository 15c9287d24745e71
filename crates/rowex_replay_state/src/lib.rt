//! What a replay keeps of the concurrent index: which events are legal on it, and what each legal one makes of it.
//!
//! Entries, nodes and leaves of words that may come from anywhere: words that no value has are refused. And the trees that recorded
//! words show: which of them are lawful versions, what those link, and by which change one list of leaves became another.
#![tactic(auto)]

mod changes;
mod entry;
mod epoch_steps;
mod fate;
mod fault;
mod fixed;
pub mod laws;
mod leaf;
mod linked;
mod links;
mod load_steps;
mod lock_steps;
mod node;
mod parts;
mod passes;
mod publish;
mod record_steps;
mod records;
mod state;
mod trees;

pub use changes::change_between;
pub use entry::unpack_entry;
pub use fault::ReplayFault;
pub use leaf::unpack_leaf;
pub use linked::{Item, Linked};
pub use node::{unpack_head, unpack_node};
pub use state::State;
pub use trees::read_tree;
