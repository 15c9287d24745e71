//! The search for a key, from the root down to a leaf, which keeps nothing of its way.

ghost use Rattle.std.specs.Prelude.{◌≡◌, ◌≤◌, ℕ, IsSome};
ghost use Rattle.compound_node.specs.declared.entries.Entry.TheVariants.{Node as NodeEntry};
ghost use Rattle.record_words.specs.declared.TheConstants.{HEAD_WORDS};
ghost use Rattle.version_laws.specs.Scan.{HadShapeSince};
ghost use Rattle.rowex_table.specs.Rule.{IsNodeRecordAt, record_number};
ghost use Rattle.rowex_table.specs.Seats.{IsSeatOf};
ghost use Rattle.tries.specs.Place.{spot};
ghost use Rattle.tries.specs.Tree.{Subtrie};
ghost use Rattle.rowex_reading.specs.Lookups.{HasFound, HasSearched, search_touches};
ghost use Rattle.rowex_reading.specs.Reads.{IsReader, ReadsAndTouches};
ghost use Rattle.rowex_reading.specs.Seen.{IsLedTo, Sure};

use crate::reading::{load_entry, load_root, load_value, search_node};
use compound_node::Entry;
use key_bits::Key;
use rowex_core::{Gate, Rec};
use rowex_table::{HotTable, RecordAt, TableSeat};

/// Returns the value of `key`, or `None` if the key is absent. This was so in some version since the load of the root. It loads the root,
/// and at most 26 words for each node on the path and 32 for a leaf. `gate` is told each load. It touches at most four words of each node.
pub fn look_up<G: Gate>(
    table: &HotTable,
    seat: &mut TableSeat,
    key: &Key,
    gate: &mut G,
) -> Option<u64>
    requires own { IsSeatOf table.now seat.old }
    requires pinned { IsSome seat.old.known.pin }
    ensures searched { HasSearched table.now G.becomes (seat.old, gate.old) (seat.new, gate.new) }
    ensures found { HasFound seat.new.known key.now result }
{
    let mut entry = load_root(table, seat, gate)?;
    loop {
        match entry {
            Entry::Leaf(number) => return load_value(table, seat, gate, number, key),
            Entry::Node { number, .. } => {
                let node = table.locate(Rec::Node(number));
                let slot = find_slot(table, seat, gate, node, key);
                entry = load_entry(table, seat, gate, node, slot);
            }
        }
    }
}

/// Returns the slot in `node` to which the bits of `key` lead. They follow the forks that the node had in some version since the pass was
/// led there. At most 25 words of the node's head are loaded, and `gate` is told of each load. Four words at most are touched.
#[inline(always)]
pub(crate) fn find_slot<G: Gate>(
    table: &HotTable,
    seat: &mut TableSeat,
    gate: &mut G,
    node: RecordAt,
    key: &Key,
) -> u8
    requires reader { IsReader table.now seat.old }
    requires led { (m h : ℕ) × IsLedTo seat.old.known m (NodeEntry (record_number node.rec) h) }
    requires node { IsNodeRecordAt table.now.layout node }
    ensures reads { (n : ℕ) × (n ≤ HEAD_WORDS) × ReadsAndTouches table.now G.becomes 0 n search_touches (seat.old, gate.old) (seat.new, gate.new) }
    ensures place { (m h : ℕ) → IsLedTo seat.old.known m (NodeEntry (record_number node.rec) h) →
        (forks : Subtrie) × Sure seat.new.known (λ s. HadShapeSince s m (record_number node.rec) forks) × (result ≡ spot key.now forks) }
{
    search_node(table, seat, gate, node, key).slot
}
