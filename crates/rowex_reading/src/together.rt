//! Look-ups of many keys by one call. Several keys go down side by side, so that what one of them waits for is loaded while the others
//! go on.

ghost use Rattle.std.specs.Prelude.{◌≡◌, ◌+◌, ◌*◌, ◌<◌, ◌≤◌, ℕ, IsSome, false, length, true};
ghost use Rattle.compound_node.specs.Nodes.{height_of};
ghost use Rattle.compound_node.specs.declared.entries.Entry.TheVariants.{Node as NodeEntry};
ghost use Rattle.key_bits.specs.declared.TheConstants.{MAX_BYTES};
ghost use Rattle.record_words.specs.declared.TheConstants.{LEAF_FIELDS};
ghost use Rattle.rowex_table.specs.Seats.{HasTouched, IsSeatOf};
ghost use Rattle.rowex_core.specs.Cores.{HasRecord};
ghost use Rattle.versions.specs.State.{rec_of};
ghost use Rattle.rowex_reading.specs.Lookups.{HaveFound, HaveSearched};
ghost use Rattle.rowex_reading.specs.Reads.{IsReader, Reads};
ghost use Rattle.rowex_reading.specs.Seen.{IsAtRoot};
ghost use Rattle.rowex_reading.specs.Together.{AreLeaves, HaveComeTo, HasComeTo, ReadsForAll, heights_in};

use crate::lookup::find_slot;
use crate::reading::{load_entry, load_root, load_value, touch_entries};
use compound_node::Entry;
use key_bits::Key;
use record_words::{CACHE_LINE_WORDS, KEY_OFFSET, NUMBERS_OFFSET, VALUE_OFFSET};
use rowex_core::{Gate, Rec};
use rowex_table::{HotTable, TableSeat};

/// How many keys go down side by side. The more there are, the more loads are under way at once.
const TOGETHER: usize = 16;

/// Looks up each of `keys` once. Writes to `found`, in the order of the keys, the value of each, or `None` if it is absent. Each result was
/// true in some version since the load of the root. The versions may differ, and have no order. `found` is as long as `keys`.
///
/// It loads the root once, and at most 26 words for each node on a key's way and 32 for its leaf. `gate` is told each load.
pub fn look_up_all<G: Gate>(
    table: &HotTable,
    seat: &mut TableSeat,
    gate: &mut G,
    keys: &[Key],
    found: &mut [Option<u64>],
)
    requires own { IsSeatOf table.now seat.old }
    requires pinned { IsSome seat.old.known.pin }
    requires room { length found.old ≡ length keys.now }
    ensures searched { HaveSearched table.now G.becomes (length keys.now) (seat.old, gate.old) (seat.new, gate.new) }
    ensures found { HaveFound seat.new.known (length keys.now) keys.now found.new }
{
    match load_root(table, seat, gate) {
        None => {
            for index in 0..keys.len() {
                found[index] = None;
            }
        }
        Some(root) => {
            let mut first = 0;
            while first < keys.len() {
                let end = first + TOGETHER.min(keys.len() - first);
                let (group, places) = (&keys[first..end], &mut found[first..end]);
                look_up_group(table, seat, gate, root, group, places);
                first = end;
            }
        }
    }
}

/// Looks up `keys`, at most `TOGETHER`, from the root's entry `root` on. Writes to `found`, in the order of the keys, the value of each, or
/// `None` if it is absent. Each result was true in some version since the load of the root. At most 26 words are loaded for each node on a
/// key's way, and 32 for its leaf.
fn look_up_group<G: Gate>(
    table: &HotTable,
    seat: &mut TableSeat,
    gate: &mut G,
    root: Entry,
    keys: &[Key],
    found: &mut [Option<u64>],
)
    requires reader { IsReader table.now seat.old }
    requires root { IsAtRoot seat.old.known root }
    requires low { height_of root ≤ 9 * MAX_BYTES }
    requires few { length keys.now ≤ TOGETHER }
    requires room { length found.old ≡ length keys.now }
    ensures reads { ReadsForAll table.now G.becomes (length keys.now) (seat.old, gate.old) (seat.new, gate.new) }
    ensures found { HaveFound seat.new.known (length keys.now) keys.now found.new }
{
    let mut entries = [root; TOGETHER];
    let tips = &mut entries[..keys.len()];
    while go_down(table, seat, gate, keys, tips) {}
    load_values(table, seat, gate, keys, tips, found);
}

/// Goes down one node on the path of each of `keys`: from its entry in `tips`, if that is a node, to the entry that the path takes there. A
/// leaf stays. At most 26 words are loaded for each node. Returns whether any entry was a node. If so, the sum of the heights is lower
/// then, so repeated calls come to leaves alone.
fn go_down<G: Gate>(
    table: &HotTable,
    seat: &mut TableSeat,
    gate: &mut G,
    keys: &[Key],
    tips: &mut [Entry],
) -> bool
    requires reader { IsReader table.now seat.old }
    requires room { length tips.old ≡ length keys.now }
    requires ways { HaveComeTo seat.old.known keys.now tips.old }
    ensures reads { (entries loads : ℕ) × (entries + heights_in tips.new ≤ heights_in tips.old) × (loads ≤ 26 * entries)
        × Reads table.now G.becomes entries loads (seat.old, gate.old) (seat.new, gate.new) }
    ensures ways { HaveComeTo seat.new.known keys.now tips.new }
    ensures lower { result ≡ true → heights_in tips.new < heights_in tips.old }
    ensures leaves { result ≡ false → AreLeaves (length keys.now) tips.new }
{
    let mut lower = false;
    for index in 0..keys.len() {
        if let Entry::Node { number, .. } = tips[index] {
            tips[index] = enter_node(table, seat, gate, number, &keys[index]);
            lower = true;
        }
    }
    lower
}

/// Goes down one node on the path of `key`, which has led to the node `number`. It searches the node's head, loads and returns the entry
/// that the path takes there, which is lower, and touches that entry's record. At most 26 words are loaded.
#[inline(always)]
fn enter_node<G: Gate>(
    table: &HotTable,
    seat: &mut TableSeat,
    gate: &mut G,
    number: u32,
    key: &Key,
) -> Entry
    requires reader { IsReader table.now seat.old }
    requires way { (h : ℕ) × HasComeTo seat.old.known key.now (NodeEntry number h) }
    ensures reads { (n : ℕ) × (n ≤ 26) × Reads table.now G.becomes 1 n (seat.old, gate.old) (seat.new, gate.new) }
    ensures entry { (h : ℕ) → HasComeTo seat.old.known key.now (NodeEntry number h) → (height_of result < h) × HasComeTo seat.new.known key.now result }
{
    let node = table.locate(Rec::Node(number));
    let slot = find_slot(table, seat, gate, node, key);
    let entry = load_entry(table, seat, gate, node, slot);
    touch_record(table, seat, entry);
    entry
}

/// Touches the cache lines of the record that `entry` names, so that they come while other keys go down. Of a node these are all its lines,
/// and of a leaf those of its first words. It touches at most seven words.
#[inline(always)]
fn touch_record(table: &HotTable, seat: &mut TableSeat, entry: Entry)
    requires own { IsSeatOf table.now seat.old }
    requires range { HasRecord table.now.layout (rec_of entry) }
    ensures { HasTouched 7 seat.old seat.new }
{
    match entry {
        Entry::Leaf(number) => {
            let leaf = table.locate(Rec::Leaf(number));
            table.touch(seat, leaf, VALUE_OFFSET);
            table.touch(seat, leaf, KEY_OFFSET);
        }
        Entry::Node { number, .. } => {
            let (node, line) = (table.locate(Rec::Node(number)), CACHE_LINE_WORDS as u8);
            table.touch(seat, node, NUMBERS_OFFSET);
            table.touch(seat, node, NUMBERS_OFFSET + line);
            table.touch(seat, node, NUMBERS_OFFSET + 2 * line);
            touch_entries(table, seat, node);
        }
    }
}

/// Compares each of `keys` with its leaf in `tips`, which has leaves alone. Writes the leaf's value to `found`, in the order of the keys,
/// or `None` if the leaf has another key. Each result was true in some version since the load of the root. At most 32 words are loaded for
/// each leaf.
fn load_values<G: Gate>(
    table: &HotTable,
    seat: &mut TableSeat,
    gate: &mut G,
    keys: &[Key],
    tips: &[Entry],
    found: &mut [Option<u64>],
)
    requires reader { IsReader table.now seat.old }
    requires rooms { (length tips.now ≡ length keys.now) × (length found.old ≡ length keys.now) }
    requires ways { HaveComeTo seat.old.known keys.now tips.now }
    requires leaves { AreLeaves (length keys.now) tips.now }
    ensures reads { (n : ℕ) × (n ≤ LEAF_FIELDS * length keys.now) × Reads table.now G.becomes 0 n (seat.old, gate.old) (seat.new, gate.new) }
    ensures found { HaveFound seat.new.known (length keys.now) keys.now found.new }
{
    for index in 0..keys.len() {
        match tips[index] {
            Entry::Leaf(number) => {
                found[index] = load_value(table, seat, gate, number, &keys[index]);
            }
            Entry::Node { .. } => unreachable!(),
        }
    }
}
