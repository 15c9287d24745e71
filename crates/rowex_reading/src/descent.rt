//! The search that keeps its way (path): of a scan, and of a call that may change the index.

ghost use Rattle.std.specs.Prelude.{IsSome, length};
ghost use Rattle.rowex_table.specs.Seats.{IsSeatOf};
ghost use Rattle.rowex_reading.specs.Lookups.{HasFound, HasSearched};
ghost use Rattle.rowex_reading.specs.Possible.{IsPossible};
ghost use Rattle.rowex_reading.specs.Seen.{since};
ghost use Rattle.rowex_reading.specs.Ways.{IsWayOf, value_of};

use crate::reading::{load_entry, load_leaf, load_root, search_node};
use bounded_vec::BoundedVec;
use compound_node::Entry;
use insert_cases::PathNode;
use key_bits::{Key, MAX_BYTES, mismatch_of_bytes};
use rowex_core::{Gate, Rec};
use rowex_table::{HotTable, TableSeat};

/// The most nodes on a way. A node's height is above that of the next one, and at most 2,160, the number of positions of a key.
pub const MOST_NODES: usize = 2_160;

/// Where the key's search ended.
#[derive(Clone, Copy)]
pub enum Found {
    /// At an empty root.
    Nothing,
    /// At a leaf.
    Leaf {
        /// The leaf's record number.
        number: u32,
        /// The leaf's value.
        value: u64,
        /// The first position at which the leaf's key differs from the one that is looked for; `None` if it is that key.
        mismatch: Option<u16>,
    },
}

/// Searches for `key` from the root down, and returns what stands at the end. Sets `way` to the nodes on the way, the topmost first, each
/// with the slot taken. In some version since the load of the root, the key had the value found, or was absent if no leaf with it was
/// found. It loads the root, and at most 26 words for each node on the way and 32 for a leaf.
pub fn search_way<G: Gate>(
    table: &HotTable,
    seat: &mut TableSeat,
    gate: &mut G,
    key: &Key,
    way: &mut BoundedVec<PathNode, MOST_NODES>,
) -> Found
    requires own { IsSeatOf table.now seat.old }
    requires pinned { IsSome seat.old.known.pin }
    ensures searched { HasSearched table.now G.becomes (seat.old, gate.old) (seat.new, gate.new) }
    ensures possible { IsPossible table.now.layout seat.new.known }
    ensures way { IsWayOf table.now.layout seat.new.known (since seat.new.known) key.now way.new.items result }
    ensures found { HasFound seat.new.known key.now (value_of result) }
{
    // What a function has is 0 where it begins, so this costs nothing there.
    let mut places = [0; MAX_BYTES];
    way.clear();
    let Some(mut entry) = load_root(table, seat, gate) else {
        prove!(key.as_bytes().len() <= MAX_BYTES);
        return Found::Nothing;
    };
    loop {
        match entry {
            Entry::Leaf(number) => {
                let leaf = table.locate(Rec::Leaf(number));
                let (length, value) = load_leaf(table, seat, gate, leaf, &mut places);
                return Found::Leaf {
                    number,
                    value,
                    mismatch: mismatch_of_bytes(key.as_bytes(), &places[..length]),
                };
            }
            Entry::Node { number, .. } => {
                let node = table.locate(Rec::Node(number));
                let step = search_node(table, seat, gate, node, key);
                entry = load_entry(table, seat, gate, node, step.slot);
                way.push(step);
            }
        }
    }
}
