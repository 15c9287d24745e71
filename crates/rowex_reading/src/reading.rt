//! What a pinned pass reads of the tree: the root's entry, the head and the entries of a node, and a leaf.

ghost use Rattle.std.specs.Prelude.{◌≡◌, ◌+◌, ◌*◌, ◌<◌, ◌≤◌, ℕ, length, replicate, slice_index, take, IfSome, IsSome};
ghost use Rattle.key_bits.specs.Key.{HoldsKey, IsKey};
ghost use Rattle.key_bits.specs.declared.TheConstants.{MAX_BYTES};
ghost use Rattle.compound_node.specs.Nodes.{HeadView, height_of};
ghost use Rattle.compound_node.specs.declared.entries.Entry.TheVariants.{Leaf as LeafEntry, Node as NodeEntry};
ghost use Rattle.record_words.specs.declared.TheConstants.{HEAD_WORDS, LEAF_FIELDS};
ghost use Rattle.record_words.specs.HeadParts.{InNodesWith};
ghost use Rattle.record_words.specs.Kinds.{mask_index};
ghost use Rattle.version_laws.specs.Scan.{IsPlaced, IsRead};
ghost use Rattle.rowex_reading.specs.Reads.{IsReader, Reads, ReadsAndTouches, ReadsRoot, leaf_loads};
ghost use Rattle.rowex_reading.specs.Lookups.{search_touches};
ghost use Rattle.rowex_reading.specs.Ways.{step_at};
ghost use Rattle.rowex_reading.specs.Seen.{Sure, RootIs, IsCompared, IsHeadSeen, IsLedTo, HasPlace, AreHeadWords, AreLoaded, shape_of};
ghost use Rattle.record_words.specs.declared.records.Rec.TheVariants.{Node as a_node};
ghost use Rattle.rowex_table.specs.Rule.{IsLeafRecordAt, IsNodeRecordAt, record_number};
ghost use Rattle.rowex_table.specs.Seats.{IsSeatOf, touched};
ghost use Rattle.tries.specs.Place.{spot};

use compound_node::Entry;
use insert_cases::PathNode;
use key_bits::{Key, MAX_BYTES};
use record_words::{
    CACHE_LINE_WORDS, FIELDS_OFFSET, FIRST_KEY_WORD, FIRST_POSITIONS, FIRST_ROWS, HEAD_WORDS,
    HeadKind, HeadNumbers, KEY_OFFSET, LENGTH_OFFSET, MIDDLE_HEAD_WORDS, MIDDLE_KIND,
    NARROW_HEAD_WORDS, NARROW_KIND, NODE_WORDS, NUMBERS_INDEX, ROW_WORDS, count_key_words,
    extract_dense_key, first_position_of, index_of_first_position, key_word_at, kind_number,
    read_entry, read_numbers, read_some_entry, search_middle, search_narrow, search_row_words,
    write_key_word,
};
use rowex_core::{Gate, Rec, Spot};
use rowex_table::{HotTable, RecordAt, TableSeat};

/// Loads and returns the root's entry; `None` if the tree is empty. The pass is pinned, and so may search from there. The entry's height is
/// at most 2,160, which bounds a search.
pub fn load_root<G: Gate>(table: &HotTable, seat: &mut TableSeat, gate: &mut G) -> Option<Entry>
    requires own { IsSeatOf table.now seat.old }
    requires pinned { IsSome seat.old.known.pin }
    ensures reads { ReadsRoot table.now G.becomes (seat.old, gate.old) (seat.new, gate.new) }
    ensures root { RootIs seat.new.known result }
    ensures low { IfSome result (λ entry. height_of entry ≤ 9 * MAX_BYTES) }
{
    let word = table.load_ref(seat, gate, Spot::Root);
    read_entry(word)
}

/// Loads words of the head of `node` into `words`, from the head's word `first` on, counted from 0, until `words` are full. Of each word
/// the pass is then sure that the node had it in some version since the pass was led there.
#[inline(always)]
fn load_head_part<G: Gate>(
    table: &HotTable,
    seat: &mut TableSeat,
    gate: &mut G,
    node: RecordAt,
    first: usize,
    words: &mut [u64],
)
    requires reader { IsReader table.now seat.old }
    requires led { (m h : ℕ) × IsLedTo seat.old.known m (NodeEntry (record_number node.rec) h) }
    requires node { IsNodeRecordAt table.now.layout node }
    requires range { first + length words.old ≤ HEAD_WORDS }
    ensures reads { Reads table.now G.becomes 0 (length words.old) (seat.old, gate.old) (seat.new, gate.new) }
    ensures long { length words.new ≡ length words.old }
    ensures loaded { AreLoaded seat.old.known seat.new.known (a_node (record_number node.rec)) first (λ i. i < length words.new) words.new }
{
    for index in 0..words.len() {
        let offset = (first + index) as u8 + FIELDS_OFFSET;
        words[index] = table.load_fixed_at(seat, gate, node, offset);
    }
}

/// Returns the words of the head of the node `number`. The first word tells the kind of the head. Then the words that this kind uses are
/// loaded: 7, 13 or 25 in all. The others are all ones in each head of the kind, and need no load. The pass is then sure that the node had
/// the head's forks in some version since the pass was led there.
#[inline(always)]
pub(crate) fn load_head_words<G: Gate>(
    table: &HotTable,
    seat: &mut TableSeat,
    gate: &mut G,
    number: u32,
) -> [u64; HEAD_WORDS]
    requires reader { IsReader table.now seat.old }
    requires led { (m h : ℕ) × IsLedTo seat.old.known m (NodeEntry number h) }
    ensures reads { (n : ℕ) × (n ≤ HEAD_WORDS) × Reads table.now G.becomes 0 n (seat.old, gate.old) (seat.new, gate.new) }
    ensures words { (m h : ℕ) → IsLedTo seat.old.known m (NodeEntry number h) → AreHeadWords seat.new.known m number h result }
{
    let node = table.locate(Rec::Node(number));
    let mut first = [0; 1];
    load_head_part(table, seat, gate, node, NUMBERS_INDEX, &mut first);
    let mut words = [u64::MAX; HEAD_WORDS];
    words[NUMBERS_INDEX] = first[0];
    let from = FIRST_POSITIONS;
    match read_numbers(first[0]).kind {
        HeadKind::Narrow => {
            load_head_part(
                table,
                seat,
                gate,
                node,
                from,
                &mut words[from..NARROW_HEAD_WORDS],
            );
        }
        HeadKind::Middle => {
            load_head_part(
                table,
                seat,
                gate,
                node,
                from,
                &mut words[from..MIDDLE_HEAD_WORDS],
            );
        }
        HeadKind::Wide => load_head_part(table, seat, gate, node, from, &mut words[from..]),
    }
    words
}

/// Loads the head of the node `number`, to which the pass was led, by 25 loads at most ([`load_head_words`]). Returns the node as one of a
/// path, with the head's height, first position and number of entries. Its slot is 0, that of the first entry. The pass is then sure that
/// the node had the head's forks in some version since the pass was led there.
#[inline(always)]
pub fn load_path_node<G: Gate>(
    table: &HotTable,
    seat: &mut TableSeat,
    gate: &mut G,
    number: u32,
) -> PathNode
    requires reader { IsReader table.now seat.old }
    requires led { (m h : ℕ) × IsLedTo seat.old.known m (NodeEntry number h) }
    ensures reads { (n : ℕ) × (n ≤ HEAD_WORDS) × Reads table.now G.becomes 0 n (seat.old, gate.old) (seat.new, gate.new) }
    ensures step { (m h : ℕ) → IsLedTo seat.old.known m (NodeEntry number h) →
        (head : HeadView) × IsHeadSeen seat.new.known m number h head × (result ≡ step_at head number 0) }
{
    let words = load_head_words(table, seat, gate, number);
    let numbers = read_numbers(words[NUMBERS_INDEX]);
    let word = words[index_of_first_position(numbers.kind)];
    path_node(number, numbers, word, 0)
}

/// Returns the node `number` as one of a path that takes `slot`. Its head has `numbers`, and `word` at [`index_of_first_position`], which
/// tells the first fork's position.
#[inline(always)]
fn path_node(number: u32, numbers: HeadNumbers, word: u64, slot: u8) -> PathNode
    ensures same { (result.number ≡ number) × (result.slot ≡ slot) }
    ensures node { InNodesWith numbers (mask_index numbers.kind 0) word (λ node.
        (result.height ≡ node.height) × (result.count ≡ length node.entries) × (result.first_position ≡ slice_index node.columns 0)) }
{
    PathNode {
        number,
        height: numbers.height,
        first_position: first_position_of(numbers, word),
        count: numbers.count,
        slot,
    }
}

/// Touches the cache lines of the entries of `node`, so that they come while its head is searched. The words touched are the last entry's,
/// and those one, two and three lines before it. Entries before these share a line with words of the head, which are loaded anyway.
#[inline(always)]
pub(crate) fn touch_entries(table: &HotTable, seat: &mut TableSeat, node: RecordAt)
    requires own { IsSeatOf table.now seat.old }
    requires node { IsNodeRecordAt table.now.layout node }
    ensures { seat.new ≡ touched search_touches seat.old }
{
    let (last, line) = (NODE_WORDS as u8 - 1, CACHE_LINE_WORDS as u8);
    table.touch(seat, node, last - 3 * line);
    table.touch(seat, node, last - 2 * line);
    table.touch(seat, node, last - line);
    table.touch(seat, node, last);
}

/// Loads the head of `node` and searches it for `key`. Returns the node as one of the key's path, with the slot to which the bits of `key`
/// lead. The pass is then sure that the node had the head's forks in some version since the pass was led there.
///
/// The first word tells the kind of the head. Then the words that this kind uses are loaded, 7, 13 or 25 in all, and none of these loads
/// waits for another. Nor does the later load of an entry: four words of the lines of entries are touched here. The rows of a wide head are
/// loaded last, and stay in registers.
#[inline(always)]
pub fn search_node<G: Gate>(
    table: &HotTable,
    seat: &mut TableSeat,
    gate: &mut G,
    node: RecordAt,
    key: &Key,
) -> PathNode
    requires reader { IsReader table.now seat.old }
    requires led { (m h : ℕ) × IsLedTo seat.old.known m (NodeEntry (record_number node.rec) h) }
    requires node { IsNodeRecordAt table.now.layout node }
    ensures reads { (n : ℕ) × (n ≤ HEAD_WORDS) × ReadsAndTouches table.now G.becomes 0 n search_touches (seat.old, gate.old) (seat.new, gate.new) }
    ensures step { (m h : ℕ) → IsLedTo seat.old.known m (NodeEntry (record_number node.rec) h) →
        (head : HeadView) × IsHeadSeen seat.new.known m (record_number node.rec) h head ×
        (result ≡ step_at head (record_number node.rec) (spot key.now (shape_of head))) }
{
    let mut first = [0; 1];
    load_head_part(table, seat, gate, node, NUMBERS_INDEX, &mut first);
    touch_entries(table, seat, node);
    let numbers = read_numbers(first[0]);
    let number = node.number();
    let from = FIRST_POSITIONS;
    match kind_number(first[0]) {
        NARROW_KIND => {
            let mut words = [first[0]; NARROW_HEAD_WORDS];
            load_head_part(table, seat, gate, node, from, &mut words[from..]);
            let slot = search_narrow(&words, key);
            let word = words[index_of_first_position(HeadKind::Narrow)];
            path_node(number, numbers, word, slot)
        }
        MIDDLE_KIND => {
            let mut words = [first[0]; MIDDLE_HEAD_WORDS];
            load_head_part(table, seat, gate, node, from, &mut words[from..]);
            let slot = search_middle(&words, key);
            let word = words[index_of_first_position(HeadKind::Middle)];
            path_node(number, numbers, word, slot)
        }
        _ => {
            let mut front = [first[0]; FIRST_ROWS];
            load_head_part(table, seat, gate, node, from, &mut front[from..]);
            let dense = extract_dense_key(&front, key);
            let mut back = [0; ROW_WORDS];
            load_head_part(table, seat, gate, node, FIRST_ROWS, &mut back);
            let slot = search_row_words(&back, dense);
            let word = front[index_of_first_position(HeadKind::Wide)];
            path_node(number, numbers, word, slot)
        }
    }
}

/// Loads and returns the entry in `slot` of `node`, which has that slot. The node had that entry there in some version since the pass was
/// led to the node. The entry is lower than the node, so a search ends. No word is touched.
#[inline(always)]
pub fn load_entry<G: Gate>(
    table: &HotTable,
    seat: &mut TableSeat,
    gate: &mut G,
    node: RecordAt,
    slot: u8,
) -> Entry
    requires reader { IsReader table.now seat.old }
    requires place { (m h : ℕ) × HasPlace seat.old.known m (record_number node.rec) h slot }
    requires node { IsNodeRecordAt table.now.layout node }
    ensures reads { Reads table.now G.becomes 1 1 (seat.old, gate.old) (seat.new, gate.new) }
    ensures touches { seat.new.touches ≡ seat.old.touches }
    ensures entry { (m h : ℕ) → HasPlace seat.old.known m (record_number node.rec) h slot →
        (height_of result < h) × Sure seat.new.known (λ s. IsPlaced s m (record_number node.rec) slot result) }
{
    let word = table.load_slot_at(seat, gate, node, slot);
    read_some_entry(word)
}

/// Loads the leaf `leaf`, to which the pass was led. Returns its key's length in bytes and its value. Writes the bytes of the key to the
/// front of `places`. The leaf had this key and value in some version since the pass was led there. At most `LEAF_FIELDS` words are loaded.
///
/// Words behind the key are not loaded, and their bytes in `places` stay. If all of `places` was 0 before, the bytes behind the key are
/// still 0, as `Key::from_padded` wants them; else they mean nothing. Keys of eight bytes are common: their one word is loaded without a
/// loop. Inline, so that a caller has the bytes where they were read.
#[inline(always)]
pub fn load_leaf<G: Gate>(
    table: &HotTable,
    seat: &mut TableSeat,
    gate: &mut G,
    leaf: RecordAt,
    places: &mut [u8; MAX_BYTES],
) -> (usize, u64)
    requires reader { IsReader table.now seat.old }
    requires led { (m : ℕ) × IsLedTo seat.old.known m (LeafEntry (record_number leaf.rec)) }
    requires leaf { IsLeafRecordAt table.now.layout leaf }
    ensures reads { Reads table.now G.becomes 0 (leaf_loads (take result.0 places.new)) (seat.old, gate.old) (seat.new, gate.new) }
    ensures few { leaf_loads (take result.0 places.new) ≤ LEAF_FIELDS }
    ensures key { IsKey (take result.0 places.new) × (result.0 ≤ MAX_BYTES) }
    ensures places { places.old ≡ replicate MAX_BYTES 0 → HoldsKey places.new result.0 }
    ensures leaf { (m : ℕ) → IsLedTo seat.old.known m (LeafEntry (record_number leaf.rec)) →
        Sure seat.new.known (λ s. IsRead s m (record_number leaf.rec) (take result.0 places.new) result.1) }
{
    let value = table.load_value_at(seat, gate, leaf);
    let length = table.load_fixed_at(seat, gate, leaf, LENGTH_OFFSET);
    if length == 8 {
        let word = table.load_fixed_at(seat, gate, leaf, KEY_OFFSET);
        write_key_word(places, 0, word);
        return (length as usize, value);
    }
    // A length is at most 240. As a byte it loses nothing, and no sum with it may wrap.
    let used = FIRST_KEY_WORD + count_key_words(u64::from(length as u8));
    for index in FIRST_KEY_WORD..used {
        let word = table.load_fixed_at(seat, gate, leaf, index as u8 + FIELDS_OFFSET);
        write_key_word(places, index - FIRST_KEY_WORD, word);
    }
    (length as usize, value)
}

/// Returns the value of the leaf `number`, if the leaf has `key`; `None` if it has another key, and then no value is loaded. The leaf had
/// this value in some version since the pass was led there. At most `LEAF_FIELDS` words are loaded. Keys of eight bytes are common: what is
/// compiled for them alone has no loop.
pub fn load_value<G: Gate>(
    table: &HotTable,
    seat: &mut TableSeat,
    gate: &mut G,
    number: u32,
    key: &Key,
) -> Option<u64>
    requires reader { IsReader table.now seat.old }
    requires led { (m : ℕ) × IsLedTo seat.old.known m (LeafEntry number) }
    ensures reads { (n : ℕ) × (n ≤ LEAF_FIELDS) × Reads table.now G.becomes 0 n (seat.old, gate.old) (seat.new, gate.new) }
    ensures leaf { (m : ℕ) → IsLedTo seat.old.known m (LeafEntry number) → Sure seat.new.known (λ s. IsCompared s m number key.now result) }
{
    let leaf = table.locate(Rec::Leaf(number));
    let size = key.as_bytes().len() as u64;
    if size == 8 {
        return compare_leaf(table, seat, gate, leaf, key, 8);
    }
    compare_leaf(table, seat, gate, leaf, key, size)
}

/// Returns the value of `leaf`, loaded last, if the leaf has `key`, of `size` bytes; `None` if it has another key. The leaf had this value
/// in some version since the pass was led there. The lengths are compared, and then words up to the first that differs. That is enough,
/// since no two keys have the same length and words. Inline, so that a `size` known beforehand needs no loop.
#[inline(always)]
fn compare_leaf<G: Gate>(
    table: &HotTable,
    seat: &mut TableSeat,
    gate: &mut G,
    leaf: RecordAt,
    key: &Key,
    size: u64,
) -> Option<u64>
    requires reader { IsReader table.now seat.old }
    requires led { (m : ℕ) × IsLedTo seat.old.known m (LeafEntry (record_number leaf.rec)) }
    requires leaf { IsLeafRecordAt table.now.layout leaf }
    requires key { IsKey key.now × (size ≡ length key.now) }
    ensures reads { (n : ℕ) × (n ≤ LEAF_FIELDS) × Reads table.now G.becomes 0 n (seat.old, gate.old) (seat.new, gate.new) }
    ensures leaf { (m : ℕ) → IsLedTo seat.old.known m (LeafEntry (record_number leaf.rec)) →
        Sure seat.new.known (λ s. IsCompared s m (record_number leaf.rec) key.now result) }
{
    if table.load_fixed_at(seat, gate, leaf, LENGTH_OFFSET) != size {
        return None;
    }
    let end = FIRST_KEY_WORD + count_key_words(size);
    for index in FIRST_KEY_WORD..end {
        let offset = index as u8 + FIELDS_OFFSET;
        let word = table.load_fixed_at(seat, gate, leaf, offset);
        if word != key_word_at(key, index - FIRST_KEY_WORD) {
            return None;
        }
    }
    Some(table.load_value_at(seat, gate, leaf))
}
