//! What a pass reads of a node that it has locked.

ghost use Rattle.std.specs.Prelude.{◌≡◌, ◌<◌, ℕ, List, get_or, length, replicate, ◌≤◌, ◌+◌};
ghost use Rattle.compound_node.specs.Beside.{IsBesideIn};
ghost use Rattle.compound_node.specs.Nodes.{NodeView};
ghost use Rattle.record_words.specs.HeadParts.{AreNumbersOf};
ghost use Rattle.record_words.specs.Packed.{position_at, row_at};
ghost use Rattle.tries.specs.Place.{entry_at};
ghost use Rattle.rowex_core.specs.Reading.{node_words_of};
ghost use Rattle.rowex_reading.specs.Possible.{IsPossible};
ghost use Rattle.rowex_reading.specs.Seen.{HasPlace};
ghost use Rattle.rowex_table.specs.Rule.{IsNodeRecordAt, record_number};
ghost use Rattle.rowex_table.specs.Seats.{IsSeatOf};
ghost use Rattle.rowex_writing.specs.locks.Going.{WorksOnKeepingRecords, HasLocked, IsLockedBy, HasLockedNode, IsNodeOf};
ghost use Rattle.rowex_writing.specs.locks.Loads.{AreRead, ReadsGroup, ReadsRest};

use compound_node::{Entry, Node, find_sibling};
use record_words::{
    FIELDS_OFFSET, HEAD_WORDS, HeadKind, HeadNumbers, MAX_ENTRIES, MIDDLE_HEAD_WORDS,
    NARROW_HEAD_WORDS, NODE_FIELDS, NUMBERS_INDEX, SLOT_GROUP, read_node, read_numbers,
    read_some_entry,
};
use rowex_core::{Gate, Rec, Spot};
use rowex_table::{HotTable, RecordAt, TableSeat};

/// A locked node whose words are to be loaded, and the numbers in its head's first word.
#[derive(Clone, Copy)]
struct NodeLoads {
    node: RecordAt,
    numbers: HeadNumbers,
}

/// Loads the words of the locked node `number`, all but its state, into `words`, which are 0 before. Words of the head that its kind
/// doesn't use become all ones without a load, as they are in the record. Words of slots are loaded in groups of `SLOT_GROUP`, as far as
/// there are entries; those behind stay 0.
pub(crate) fn load_locked_node_words<G: Gate>(
    table: &HotTable,
    seat: &mut TableSeat,
    gate: &mut G,
    number: u32,
    words: &mut [u64; NODE_FIELDS],
)
    requires own { IsSeatOf table.now seat.old }
    requires range { number < table.now.layout.nodes }
    requires locked { IsLockedBy seat.old.known number }
    requires empty { words.old ≡ replicate NODE_FIELDS 0 }
    ensures reads { WorksOnKeepingRecords table.now G.becomes (seat.old, gate.old) (seat.new, gate.new) }
    ensures words { (those : List ℕ) → HasLocked seat.old.known number those → words.new ≡ those }
    ensures node { (view : NodeView) × IsNodeOf words.new view }
    ensures few { seat.new.known.steps ≤ seat.old.known.steps + NODE_FIELDS }
{
    let node = table.locate(Rec::Node(number));
    load_locked_head(table, seat, gate, node, words);
    let numbers = read_numbers(words[NUMBERS_INDEX]);
    let loads = NodeLoads { node, numbers };
    load_slot_group(table, seat, gate, loads, words, HEAD_WORDS);
    load_slot_group(table, seat, gate, loads, words, HEAD_WORDS + SLOT_GROUP);
    load_slot_group(table, seat, gate, loads, words, HEAD_WORDS + 2 * SLOT_GROUP);
    load_slot_group(table, seat, gate, loads, words, HEAD_WORDS + 3 * SLOT_GROUP);
}

/// Loads the words of the head of the locked node `node` into `words`, which are 0 before. The head's first word tells its kind, and so how
/// many words it uses. Its other words become all ones, as they are in the record, without a load.
#[inline(always)]
fn load_locked_head<G: Gate>(
    table: &HotTable,
    seat: &mut TableSeat,
    gate: &mut G,
    node: RecordAt,
    words: &mut [u64; NODE_FIELDS],
)
    requires own { IsSeatOf table.now seat.old }
    requires node { IsNodeRecordAt table.now.layout node }
    requires empty { words.old ≡ replicate NODE_FIELDS 0 }
    ensures { AreRead table.now G.becomes (seat.old, gate.old) (seat.new, gate.new) (record_number node.rec) words.new HEAD_WORDS }
{
    words[NUMBERS_INDEX] = load_locked_word(table, seat, gate, node, NUMBERS_INDEX);
    match read_numbers(words[NUMBERS_INDEX]).kind {
        HeadKind::Narrow => load_rest_of_head(table, seat, gate, node, words, NARROW_HEAD_WORDS),
        HeadKind::Middle => load_rest_of_head(table, seat, gate, node, words, MIDDLE_HEAD_WORDS),
        HeadKind::Wide => load_rest_of_head(table, seat, gate, node, words, HEAD_WORDS),
    }
}

/// Loads the words 1 to `size` - 1 of the head of the locked node `node` into `words`. The head's other words are set to all ones. Inline,
/// so that each index is known when it is compiled.
#[inline(always)]
fn load_rest_of_head<G: Gate>(
    table: &HotTable,
    seat: &mut TableSeat,
    gate: &mut G,
    node: RecordAt,
    words: &mut [u64; NODE_FIELDS],
    size: usize,
)
    requires own { IsSeatOf table.now seat.old }
    requires node { IsNodeRecordAt table.now.layout node }
    requires size { (1 ≤ size) × (size ≤ HEAD_WORDS) }
    ensures { ReadsRest table.now G.becomes (record_number node.rec) size ((seat.old, gate.old), words.old) ((seat.new, gate.new), words.new) }
{
    for index in 1..size {
        words[index] = load_locked_word(table, seat, gate, node, index);
    }
    for index in size..HEAD_WORDS {
        words[index] = u64::MAX;
    }
}

/// Loads the first word of the locked node `node`, and returns the numbers in that word.
#[inline(always)]
fn load_numbers<G: Gate>(
    table: &HotTable,
    seat: &mut TableSeat,
    gate: &mut G,
    node: RecordAt,
) -> HeadNumbers
    requires own { IsSeatOf table.now seat.old }
    requires node { IsNodeRecordAt table.now.layout node }
    ensures own { IsSeatOf table.now seat.new }
    ensures reads { WorksOnKeepingRecords table.now G.becomes (seat.old, gate.old) (seat.new, gate.new) }
    ensures numbers { (view : NodeView) → HasLockedNode seat.old.known (record_number node.rec) view → AreNumbersOf result view }
    ensures few { seat.new.known.steps ≤ seat.old.known.steps + 1 }
{
    read_numbers(load_locked_word(table, seat, gate, node, NUMBERS_INDEX))
}

/// Loads and returns the row of `slot` of the locked node of `loads`. The row is 4,294,967,295 for an unused slot. A slot from
/// `MAX_ENTRIES` on is unused, too, and nothing is loaded for it.
#[inline(always)]
fn load_row<G: Gate>(
    table: &HotTable,
    seat: &mut TableSeat,
    gate: &mut G,
    loads: NodeLoads,
    slot: u8,
) -> u32
    requires own { IsSeatOf table.now seat.old }
    requires node { IsNodeRecordAt table.now.layout loads.node }
    ensures own { IsSeatOf table.now seat.new }
    ensures reads { WorksOnKeepingRecords table.now G.becomes (seat.old, gate.old) (seat.new, gate.new) }
    ensures row { (view : NodeView) → HasLockedNode seat.old.known (record_number loads.node.rec) view → AreNumbersOf loads.numbers view →
        result ≡ row_at view.rows slot }
    ensures few { seat.new.known.steps ≤ seat.old.known.steps + 1 }
{
    if slot as usize >= MAX_ENTRIES {
        return u32::MAX;
    }
    let index = loads.numbers.index_of_row(slot);
    let word = load_locked_word(table, seat, gate, loads.node, index);
    loads.numbers.row_of(word, slot)
}

/// Returns the slot beside `slot` of the locked node `number`, and the column of the fork between the two. `None` if the other side
/// of the last fork on the path to `slot` has several slots. The numbers and at most four rows are loaded.
pub(crate) fn load_sibling<G: Gate>(
    table: &HotTable,
    seat: &mut TableSeat,
    gate: &mut G,
    number: u32,
    slot: u8,
) -> Option<(u8, u8)>
    requires own { IsSeatOf table.now seat.old }
    requires range { number < table.now.layout.nodes }
    requires place { slot < MAX_ENTRIES }
    ensures reads { WorksOnKeepingRecords table.now G.becomes (seat.old, gate.old) (seat.new, gate.new) }
    ensures beside { (node : NodeView) → HasLockedNode seat.old.known number node → slot < length node.entries → IsBesideIn node slot result }
    ensures few { seat.new.known.steps ≤ seat.old.known.steps + 5 }
{
    let node = table.locate(Rec::Node(number));
    let numbers = load_numbers(table, seat, gate, node);
    let loads = NodeLoads { node, numbers };
    match numbers.kind {
        HeadKind::Narrow => load_rows_beside(table, seat, gate, loads, slot),
        HeadKind::Middle => load_rows_beside(table, seat, gate, loads, slot),
        HeadKind::Wide => load_rows_beside(table, seat, gate, loads, slot),
    }
}

/// Returns the slot beside `slot` of the locked node of `loads`, and the column of the fork between the two. `None` if the other side of
/// the last fork on the path to `slot` has several slots. At most four rows are loaded. Inline, so that it is compiled for each kind of
/// head.
#[inline(always)]
fn load_rows_beside<G: Gate>(
    table: &HotTable,
    seat: &mut TableSeat,
    gate: &mut G,
    loads: NodeLoads,
    slot: u8,
) -> Option<(u8, u8)>
    requires own { IsSeatOf table.now seat.old }
    requires node { IsNodeRecordAt table.now.layout loads.node }
    requires place { slot < MAX_ENTRIES }
    ensures reads { WorksOnKeepingRecords table.now G.becomes (seat.old, gate.old) (seat.new, gate.new) }
    ensures beside { (node : NodeView) → HasLockedNode seat.old.known (record_number loads.node.rec) node → AreNumbersOf loads.numbers node →
        slot < length node.entries → IsBesideIn node slot result }
    ensures few { seat.new.known.steps ≤ seat.old.known.steps + 4 }
{
    let before = load_row(table, seat, gate, loads, slot.saturating_sub(1));
    let own = load_row(table, seat, gate, loads, slot);
    let after = load_row(table, seat, gate, loads, slot + 1);
    let second = load_row(table, seat, gate, loads, slot + 2);
    find_sibling(slot, before, own, after, second)
}

/// Loads and returns the position of the column `column` of the locked node `number`; 65,535 if the node has no such column. At most three
/// words are loaded: the numbers, the positions and the masks.
pub(crate) fn load_position<G: Gate>(
    table: &HotTable,
    seat: &mut TableSeat,
    gate: &mut G,
    number: u32,
    column: u8,
) -> u16
    requires own { IsSeatOf table.now seat.old }
    requires range { number < table.now.layout.nodes }
    requires column { column < 31 }
    ensures reads { WorksOnKeepingRecords table.now G.becomes (seat.old, gate.old) (seat.new, gate.new) }
    ensures position { (node : NodeView) → HasLockedNode seat.old.known number node → result ≡ position_at node.columns column }
    ensures few { seat.new.known.steps ≤ seat.old.known.steps + 3 }
{
    let node = table.locate(Rec::Node(number));
    let numbers = load_numbers(table, seat, gate, node);
    let index = numbers.index_of_position(column);
    let word = load_locked_word(table, seat, gate, node, index);
    let mask = numbers.index_of_mask(column);
    let masks = load_locked_word(table, seat, gate, node, mask);
    numbers.read_position(word, masks, column)
}

/// Loads and returns the entry in `slot` of the locked node `number`, which has that slot.
pub(crate) fn load_locked_entry<G: Gate>(
    table: &HotTable,
    seat: &mut TableSeat,
    gate: &mut G,
    number: u32,
    slot: u8,
) -> Entry
    requires own { IsSeatOf table.now seat.old }
    requires possible { IsPossible table.now.layout seat.old.known }
    requires place { (m h : ℕ) × HasPlace seat.old.known m number h slot }
    requires locked { IsLockedBy seat.old.known number }
    ensures reads { WorksOnKeepingRecords table.now G.becomes (seat.old, gate.old) (seat.new, gate.new) }
    ensures entry { (words : List ℕ) → HasLocked seat.old.known number words → result ≡ entry_at (node_words_of words).subtrie slot }
    ensures few { seat.new.known.steps ≤ seat.old.known.steps + 1 }
{
    let spot = Spot::Slot { node: number, slot };
    read_some_entry(table.load_ref(seat, gate, spot))
}

/// Loads `SLOT_GROUP` words of the locked node of `loads` into `words`, from index `first` on. If the entries end at `first` or before,
/// none is loaded. Inline, so that each index is known when it is compiled.
#[inline(always)]
fn load_slot_group<G: Gate>(
    table: &HotTable,
    seat: &mut TableSeat,
    gate: &mut G,
    loads: NodeLoads,
    words: &mut [u64; NODE_FIELDS],
    first: usize,
)
    requires own { IsSeatOf table.now seat.old }
    requires node { IsNodeRecordAt table.now.layout loads.node }
    requires range { first + SLOT_GROUP ≤ NODE_FIELDS }
    ensures own { IsSeatOf table.now seat.new }
    ensures reads { ReadsGroup table.now G.becomes loads first ((seat.old, gate.old), words.old) ((seat.new, gate.new), words.new) }
{
    let end = loads.numbers.entries_end();
    if first < end {
        for place in 0..SLOT_GROUP {
            let index = first + place;
            words[index] = load_locked_word(table, seat, gate, loads.node, index);
        }
    }
}

/// Loads the words of the locked node `number`, at most `NODE_FIELDS`, and returns that node as a value.
pub(crate) fn read_locked_node<G: Gate>(
    table: &HotTable,
    seat: &mut TableSeat,
    gate: &mut G,
    number: u32,
) -> Node
    requires own { IsSeatOf table.now seat.old }
    requires range { number < table.now.layout.nodes }
    requires locked { IsLockedBy seat.old.known number }
    ensures reads { WorksOnKeepingRecords table.now G.becomes (seat.old, gate.old) (seat.new, gate.new) }
    ensures node { (words : List ℕ) → HasLocked seat.old.known number words → IsNodeOf words result }
    ensures few { seat.new.known.steps ≤ seat.old.known.steps + NODE_FIELDS }
{
    let mut words = [0; NODE_FIELDS];
    load_locked_node_words(table, seat, gate, number, &mut words);
    read_node(&words)
}

/// Loads and returns the word at `index` of the locked node `node`; the word behind its state has index 0. Inline, so that neither loop
/// over the words tests whether `index` is in the head.
#[inline(always)]
fn load_locked_word<G: Gate>(
    table: &HotTable,
    seat: &mut TableSeat,
    gate: &mut G,
    node: RecordAt,
    index: usize,
) -> u64
    requires own { IsSeatOf table.now seat.old }
    requires node { IsNodeRecordAt table.now.layout node }
    requires index { index < NODE_FIELDS }
    ensures reads { WorksOnKeepingRecords table.now G.becomes (seat.old, gate.old) (seat.new, gate.new) }
    ensures word { (words : List ℕ) → HasLocked seat.old.known (record_number node.rec) words → result ≡ get_or words index 0 }
    ensures spelled { (words : List ℕ) → HasLocked seat.old.known (record_number node.rec) words → (view : NodeView) × IsNodeOf words view }
    ensures few { seat.new.known.steps ≤ seat.old.known.steps + 1 }
{
    if index < HEAD_WORDS {
        let offset = index as u8 + FIELDS_OFFSET;
        table.load_fixed_at(seat, gate, node, offset)
    } else {
        let slot = (index - HEAD_WORDS) as u8;
        table.load_slot_at(seat, gate, node, slot)
    }
}
