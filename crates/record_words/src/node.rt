//! The words of a node record.

ghost use Rattle.std.specs.Prelude.{ℕ, ◌≡◌, ◌↔◌, ◌+◌, ◌<◌, ◌≤◌, ◌++◌, ◌-◌, ◌⊎◌, ◌≢◌, IsTrue, List, drop, false, length, map, slice_get, slice_index, take};
ghost use Rattle.compound_node.specs.Forking.{forked_head};
ghost use Rattle.compound_node.specs.Nodes.{NodeView, greatest_height, head_of, piece};
ghost use Rattle.compound_node.specs.declared.entries.Entry.TheVariants.{Leaf as LeafEntry};
ghost use Rattle.partial_keys.specs.Columns.{IsColumns};
ghost use Rattle.partial_keys.specs.Rows.{with_unused};
ghost use Rattle.partial_keys.specs.Squeezed.{squeezed, used_bits};
ghost use Rattle.node_tries.specs.Changes.{collapsed, without};
ghost use Rattle.node_tries.specs.Growth.{grown};
ghost use Rattle.node_tries.specs.Kept.{kept};
ghost use Rattle.node_tries.specs.Positions.{has};
ghost use Rattle.record_words.specs.Entry.{HasEntryWord, entry_word};
ghost use Rattle.record_words.specs.Dropping.{CanDropAt, CanDropColumns, HasHeadWithout};
ghost use Rattle.record_words.specs.Node.{CanCloseAt, CanTakeLeaf, HasHeadWords, HasNodeWords, CanGrowAt, HasHead, SpellBuilt, SpellEntries, SpellLeft, head_words, node_words};
ghost use Rattle.record_words.specs.Kinds.{head_size, index_lanes, kind_of, lane_words, mask_lanes, rows_from};
ghost use Rattle.record_words.specs.Packed.{column_words, fixed_words, position_word, row_words};
ghost use Rattle.record_words.specs.Reading.{IsSpelledBy, IsSpelling};
ghost use Rattle.record_words.specs.declared.kind.HeadKind.TheVariants.{Wide};

use crate::entry::{pack_entry, read_some_entry};
use crate::fixed::{
    read_positions, word_of_numbers, word_of_positions, words_of_high_bytes, words_of_high_halves,
    words_of_rows,
};
use crate::kind::{HeadKind, kind_of};
use crate::near::{near_lanes_of, words_of_bytes};
use crate::numbers::read_numbers;
use crate::search::{has_lane, positions_in, rows_in, with_unused_from};
use crate::{
    FIRST_MIDDLE_ROWS, FIRST_NARROW_ROWS, FIRST_POSITIONS, FIRST_ROWS, HEAD_WORDS, HEIGHT_BIT,
    NODE_FIELDS,
};
use arrayvec::ArrayVec;
use compound_node::{
    Entry, Head, Node, fork_rows, or_first_rows, remove_row, spread_lanes, squeeze_lanes,
};
use partial_keys::{
    Columns, MAX_COLUMNS, MAX_ENTRIES, count_below, insert_element, remove_element,
};
use std::simd::prelude::*;

/// Returns the words of `node` in a node record, from offset 1 on: its head, its entries, and 0 behind these.
pub fn pack_node(node: &Node) -> [u64; NODE_FIELDS]
    ensures words { result ≡ node_words node.now }
    ensures fits { HasNodeWords node.now }
{
    let mut words = [0; NODE_FIELDS];
    put_head(&mut words, node.as_head());
    for slot in 0..node.count() {
        words[HEAD_WORDS + slot as usize] = entry_word_at(node, slot);
    }
    words
}

/// Returns the words of `head` in a node record, from offset 1 on.
pub fn pack_head(head: &Head) -> [u64; HEAD_WORDS]
    ensures { result ≡ head_words head.now }
{
    let mut words = [0; NODE_FIELDS];
    put_head(&mut words, head);
    let mut front = [0; HEAD_WORDS];
    front.copy_from_slice(&words[..HEAD_WORDS]);
    front
}

/// Writes the words of `head` to the front of `words`, those of a node. The words of the entries stay.
fn put_head(words: &mut [u64; NODE_FIELDS], head: &Head)
    ensures { HasHead words.old words.new head.now }
{
    let rows = u32x32::from_array(*head.padded_rows());
    put_parts(words, head.count(), head.height(), head.columns(), rows);
}

/// Writes the words of a head with `count` entries, `height`, `columns` and `rows` to the front of `words`, those of a node. The words of
/// the entries stay.
fn put_parts(
    words: &mut [u64; NODE_FIELDS],
    count: u8,
    height: u16,
    columns: &Columns,
    rows: u32x32,
)
    requires { IsColumns columns.now }
    ensures { words.new ≡ fixed_words count height columns.now rows ++ drop HEAD_WORDS words.old }
{
    let kind = kind_of(columns);
    words[..HEAD_WORDS].fill(u64::MAX);
    words[0] = word_of_numbers(count, columns, height, kind);
    put_columns(words, kind, columns);
    put_rows(words, kind, rows);
}

/// Writes `columns` into `words`, the words of a node, as a head of the kind `kind` has them. A wide head has their positions. A middle one
/// has two words with the indexes of their bytes, and two with the masks of their bits. A narrow one has one word of each. All other words
/// stay.
#[inline(always)]
fn put_columns(words: &mut [u64; NODE_FIELDS], kind: HeadKind, columns: &Columns)
    requires kind { kind ≡ kind_of columns.now }
    requires columns { IsColumns columns.now }
    ensures columns { take (rows_from kind - FIRST_POSITIONS) (drop FIRST_POSITIONS words.new) ≡ column_words kind columns.now }
    ensures others { (k : ℕ) → (k < FIRST_POSITIONS) ⊎ (rows_from kind ≤ k) → slice_index words.new k ≡ slice_index words.old k }
{
    match kind {
        HeadKind::Wide => put_positions(words, columns.padded_positions()),
        HeadKind::Narrow => {
            let (indexes, masks) = near_words_of(columns);
            words[FIRST_POSITIONS] = indexes.to_array()[1];
            words[FIRST_POSITIONS + 1] = masks.to_array()[1];
        }
        HeadKind::Middle => {
            let (indexes, masks) = near_words_of(columns);
            indexes.copy_to_slice(&mut words[FIRST_POSITIONS..]);
            masks.copy_to_slice(&mut words[FIRST_POSITIONS + 2..]);
        }
    }
}

/// Writes `positions`, four in each of eight words, into `words`, those of a node whose head is wide. All other words stay.
#[inline(always)]
fn put_positions(words: &mut [u64; NODE_FIELDS], positions: &[u16; MAX_COLUMNS])
    ensures columns { (j : ℕ) → j < 8 → slice_index words.new (FIRST_POSITIONS + j) ≡ position_word positions.now j }
    ensures others { (k : ℕ) → (k < FIRST_POSITIONS) ⊎ (FIRST_ROWS ≤ k) → slice_index words.new k ≡ slice_index words.old k }
{
    for j in 0..8 {
        words[FIRST_POSITIONS + j] = word_of_positions(positions, j);
    }
}

/// Returns the words of the near columns `columns`: two with the indexes of their bytes, and two with the masks of their bits.
#[inline(always)]
fn near_words_of(columns: &Columns) -> (u64x2, u64x2)
    requires { (kind_of columns.now ≢ Wide) × IsColumns columns.now }
    ensures { (result.0 ≡ lane_words 8 2 (index_lanes columns.now)) × (result.1 ≡ lane_words 8 2 (mask_lanes columns.now)) }
{
    let (indexes, masks) = near_lanes_of(u16x16::from_slice(columns.padded_positions()));
    (words_of_bytes(indexes), words_of_bytes(masks))
}

/// Writes `rows` into `words`, the words of a node, as a head of the kind `kind` has them. A wide head has two rows in each word. A middle
/// one has the higher halves of four, and a narrow one the highest bytes of eight. All other words stay.
#[inline(always)]
fn put_rows(words: &mut [u64; NODE_FIELDS], kind: HeadKind, rows: u32x32)
    ensures rows { take (head_size kind - rows_from kind) (drop (rows_from kind) words.new) ≡ row_words kind rows }
    ensures others { (k : ℕ) → (k < rows_from kind) ⊎ (head_size kind ≤ k) → slice_index words.new k ≡ slice_index words.old k }
{
    match kind {
        HeadKind::Wide => {
            words_of_rows(rows.extract::<0, 16>()).copy_to_slice(&mut words[FIRST_ROWS..]);
            words_of_rows(rows.extract::<16, 16>()).copy_to_slice(&mut words[FIRST_ROWS + 8..]);
        }
        HeadKind::Narrow => words_of_high_bytes(rows).copy_to_slice(
            &mut words[FIRST_NARROW_ROWS..],
        ),
        HeadKind::Middle => words_of_high_halves(rows).copy_to_slice(
            &mut words[FIRST_MIDDLE_ROWS..],
        ),
    }
}

/// Returns whether the node of `words` has leaves alone, and room for one more.
pub fn can_take_leaf(words: &[u64; NODE_FIELDS]) -> bool
    ensures { (node : NodeView) → HasNodeWords node → node_words node ≡ words.now → IsTrue result ↔ CanTakeLeaf node }
{
    let numbers = read_numbers(words[0]);
    numbers.height == 1 && (numbers.count as usize) < MAX_ENTRIES
}

/// Adds the leaf of the record `leaf` to `words`, those of a node with leaves alone and room for one more. A new fork at `position`, which
/// is below 65,535, stands over the affected slots `first` to `last`. No fork between these slots has that position yet. The leaf stands
/// straight after them if `bit` is true, else straight before.
#[inline(always)]
pub fn add_leaf(
    words: &mut [u64; NODE_FIELDS],
    first: u8,
    last: u8,
    position: u16,
    bit: bool,
    leaf: u32,
)
    requires growing { (node : NodeView) × CanGrowAt words.old node position first last }
    requires below { position < 65535 }
    ensures { (node : NodeView) → CanGrowAt words.old node position first last → SpellBuilt words.new (grown position bit (LeafEntry leaf) first (piece node)) }
{
    let end = read_numbers(words[0]).entries_end();
    let at = HEAD_WORDS
        + if bit {
            last as usize + 1
        } else {
            first as usize
        };
    add_fork(words, first, last, position, bit);
    insert_element(words, end, at, pack_entry(Some(Entry::Leaf(leaf))));
}

/// Changes the head in `words` to the one with a new fork at `position` over the slots from `first` to `last`. The new leaf's row stands
/// straight after theirs if `bit` is true, else straight before. The words of the entries stay. Mostly `position` is a column already, and
/// then the words of the positions stay, too.
#[inline(always)]
fn add_fork(words: &mut [u64; NODE_FIELDS], first: u8, last: u8, position: u16, bit: bool)
    requires growing { (node : NodeView) × CanGrowAt words.old node position first last }
    requires below { position < 65535 }
    ensures { (node : NodeView) → CanGrowAt words.old node position first last → HasHead words.old words.new (forked_head 1 position first last bit (head_of node)) }
{
    let positions = positions_in(&words[..HEAD_WORDS]);
    if !has_lane(positions, position) {
        return add_column_fork(words, first, last, position, bit);
    }
    let weight = 1 << (31 - count_below(positions, position));
    let rows = rows_in(&words[..HEAD_WORDS]);
    let rows = fork_rows(rows, first as usize, last as usize, weight, bit);
    let kind = read_numbers(words[0]).kind;
    words[0] += 1;
    put_rows(words, kind, rows);
}

/// Changes the head in `words` to the one with a new fork over the slots from `first` to `last`, at `position`, which is no column yet. The
/// new leaf's row stands straight after theirs if `bit` is true, else straight before. The words of the entries stay. The old rows get 0 in
/// the new column, since they have no fork there.
fn add_column_fork(words: &mut [u64; NODE_FIELDS], first: u8, last: u8, position: u16, bit: bool)
    requires growing { (node : NodeView) × CanGrowAt words.old node position first last }
    requires below { position < 65535 }
    requires new { (node : NodeView) → CanGrowAt words.old node position first last → has node.columns position ≡ false }
    ensures { (node : NodeView) → CanGrowAt words.old node position first last → HasHead words.old words.new (forked_head 1 position first last bit (head_of node)) }
{
    let numbers = read_numbers(words[0]);
    let positions = read_positions(&words[..HEAD_WORDS]);
    let mut columns = Columns::from_padded(positions, numbers.columns);
    let below = columns.add_position(position);
    let spread = spread_lanes(rows_in(&words[..HEAD_WORDS]), below);
    let rows = with_unused_from(spread, numbers.count);
    let rows = fork_rows(rows, first as usize, last as usize, 1 << (31 - below), bit);
    put_parts(words, numbers.count + 1, 1, &columns, rows);
}

/// Takes the entry in `slot`, and the last fork on the path to it, out of the node of `words`. The height becomes one above the greatest
/// left. Returns `None`. If the node has just two entries, `words` stay, and the result is the other entry.
pub fn drop_entry(words: &mut [u64; NODE_FIELDS], slot: u8) -> Option<Entry>
    requires { (node : NodeView) × HasNodeWords node × (node_words node ≡ words.old) × (slot < length node.entries) }
    ensures { (node : NodeView) → HasNodeWords node → node_words node ≡ words.old → SpellLeft words.new result (without slot (piece node)) }
{
    let numbers = read_numbers(words[0]);
    if numbers.count == 2 {
        return Some(read_some_entry(words[HEAD_WORDS + 1 - slot as usize]));
    }
    let last = HEAD_WORDS + numbers.count as usize - 1;
    remove_element(words, last + 1, HEAD_WORDS + slot as usize, 0);
    let height = height_over(&words[HEAD_WORDS..last], numbers.height);
    drop_row(words, slot, height);
    None
}

/// Takes the row of `slot`, one of more than two, and the last fork on the path to it out of the head in `words`. The head's height becomes
/// `height`, which is at least 1. The words of the entries stay. Mostly each column still has a fork, and then the words of the columns
/// stay, too.
fn drop_row(words: &mut [u64; NODE_FIELDS], slot: u8, height: u16)
    requires dropping { (node : NodeView) × CanDropAt words.old node slot }
    requires height { 0 < height }
    ensures { (node : NodeView) → CanDropAt words.old node slot → HasHeadWithout words.old words.new slot height node }
{
    let numbers = read_numbers(words[0]);
    let count = numbers.count - 1;
    let rows = rows_in(&words[..HEAD_WORDS]);
    let rows = remove_row(rows, numbers.count as usize, slot as usize);
    let used = or_first_rows(rows, count as u32);
    if used != !(u32::MAX >> numbers.columns) {
        return drop_columns(words, count, height, rows, used);
    }
    words[0] = words[0] - 1 - 65_536 * numbers.height as u64 + 65_536 * height as u64;
    put_rows(words, numbers.kind, rows);
}

/// Makes the head in `words` one of `count` entries and of `height`, over those of its columns whose bit in `used` is 1. There is one such
/// column at least. The new rows are the first `count` of `rows` without the bits of the other columns. Unused rows have all bits set. In
/// `used`, as in a row, the highest bit is the first column's. Neither has a 1 behind the columns of the old head. The words of the entries
/// stay.
fn drop_columns(words: &mut [u64; NODE_FIELDS], count: u8, height: u16, rows: u32x32, used: u32)
    requires few { count ≤ 32 }
    requires dropping { (node : NodeView) × CanDropColumns words.old node (take count rows) used }
    ensures { (node : NodeView) → CanDropColumns words.old node (take count rows) used → words.new ≡
        fixed_words count height (kept (used_bits used) node.columns) (with_unused (map (squeezed used) (take count rows))) ++ drop HEAD_WORDS words.old }
{
    let numbers = read_numbers(words[0]);
    let positions = read_positions(&words[..HEAD_WORDS]);
    let mut columns = Columns::from_padded(positions, numbers.columns);
    columns.drop_unused(used);
    let left = squeeze_lanes(rows, used, numbers.columns);
    put_parts(
        words,
        count,
        height,
        &columns,
        with_unused_from(left, count),
    );
}

/// Puts `entry` in place of the entries in slots `slot` and `other` of the node of `words`, and of the fork over just these two. `entry` is
/// lower than the node. The node's height becomes one above the greatest left. Returns `None`. If the node has no other entries, the result
/// is `entry`, and only the word of slot `other` changes.
pub fn close_fork(
    words: &mut [u64; NODE_FIELDS],
    slot: u8,
    other: u8,
    entry: Entry,
) -> Option<Entry>
    requires { (node : NodeView) × CanCloseAt words.old node slot other entry }
    ensures { (node : NodeView) → CanCloseAt words.old node slot other entry → SpellLeft words.new result (collapsed slot entry (piece node)) }
{
    words[HEAD_WORDS + other as usize] = pack_entry(Some(entry));
    drop_entry(words, slot)
}

/// Returns the height of a new node over the entries in `words`: one above the greatest of theirs. All of them stood in a node of the
/// height `height`, so they are leaves if that is 1.
fn height_over(words: &[u64], height: u16) -> u16
    requires { (entries : List Entry) × SpellEntries height words.now entries }
    ensures { (entries : List Entry) → SpellEntries height words.now entries → result ≡ 1 + greatest_height entries }
{
    if height == 1 {
        return 1;
    }
    let mut greatest = 0;
    for i in (0..words.len()).rev() {
        greatest = (words[i] >> HEIGHT_BIT).max(greatest);
    }
    1 + greatest as u16
}

/// Returns the node of `words`, which some node has in its record from offset 1 on.
pub fn read_node(words: &[u64; NODE_FIELDS]) -> Node
    requires { IsSpelling HasNodeWords node_words words.now }
    ensures { IsSpelledBy HasNodeWords node_words words.now result }
{
    let mut entries = ArrayVec::new();
    for slot in 0..read_numbers(words[0]).count {
        entries.push(read_some_entry(words[HEAD_WORDS + slot as usize]));
    }
    Node::of(read_head(&words[..HEAD_WORDS]), entries)
}

/// Returns the head of `words`, which some node has as the words of its head.
fn read_head(words: &[u64]) -> Head
    requires { IsSpelling HasHeadWords head_words words.now }
    ensures { IsSpelledBy HasHeadWords head_words words.now result }
{
    let numbers = read_numbers(words[0]);
    let columns = Columns::from_padded(read_positions(words), numbers.columns);
    Head::of(
        numbers.count,
        numbers.height,
        columns,
        rows_in(words).to_array(),
    )
}

/// Returns the word of the entry in `slot` of `node`.
fn entry_word_at(node: &Node, slot: u8) -> u64
    requires { slot < length node.now.entries }
    ensures word { result ≡ entry_word (slice_get node.now.entries slot) }
    ensures fits { HasEntryWord (slice_get node.now.entries slot) }
{
    pack_entry(Some(node.entry(slot)))
}
