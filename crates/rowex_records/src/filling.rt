//! Records filled with the words of a leaf or of a node, and made ready.

ghost use Rattle.std.specs.Prelude.{◌≡◌, ◌<◌, ◌≤◌, ◌+◌, ◌-◌, ℕ, List, length};
ghost use Rattle.record_words.specs.declared.records.Rec.TheVariants.{Node as a_node, Leaf as a_leaf};
ghost use Rattle.record_words.specs.Layout.{leaf_size};
ghost use Rattle.record_words.specs.Leaf.{leaf_words, words_for};
ghost use Rattle.record_words.specs.Node.{HasNodeWords, node_words};
ghost use Rattle.record_words.specs.Reading.{IsSpelling};
ghost use Rattle.record_words.specs.declared.TheConstants.{LEAF_FIELDS};
ghost use Rattle.rowex_core.specs.Cores.{FitsIn, HasRecord, HasWord};
ghost use Rattle.rowex_core.specs.declared.event.Act.TheVariants.{Fill};
ghost use Rattle.rowex_core.specs.Events.{IsOffset};
ghost use Rattle.rowex_table.specs.Rights.{IsClaimed};
ghost use Rattle.rowex_table.specs.Rule.{IsNodeRecordAt, IsStartOf};
ghost use Rattle.rowex_table.specs.Runs.{Steps};
ghost use Rattle.rowex_table.specs.Seats.{IsSeatOf};
ghost use Rattle.rowex_records.specs.Records.{IsFilled, IsFilledLeaf, Readies, SetsAll, SetsMore, SetsSome};

use key_bits::Key;
use record_words::{
    FIELDS_OFFSET, KEY_OFFSET, LENGTH_OFFSET, NODE_FIELDS, VALUE_OFFSET, count_key_words,
    key_word_at,
};
use rowex_core::{Gate, Rec};
use rowex_table::{HotTable, RecordAt, TableSeat};

/// Fills the claimed leaf record `number`, which has room for `key`, with `value` and with the words of `key` up to its end. The words
/// behind the key stay, and mean nothing. It makes at most 32 steps.
///
/// The last store stands behind the loop, so that a store follows each of the others, and none of these needs a fence.
pub fn fill_leaf<G: Gate>(
    table: &HotTable,
    seat: &mut TableSeat,
    gate: &mut G,
    number: u32,
    key: &Key,
    value: u64,
)
    requires own { IsSeatOf table.now seat.old }
    requires range { number < table.now.layout.leaves }
    requires held { IsClaimed seat.old.known (a_leaf number) }
    requires room { words_for (length key.now) ≤ leaf_size table.now.layout number }
    ensures fills { SetsSome table.now G.becomes (a_leaf number) (leaf_words (key.now, value)) (words_for (length key.now) - 1)
        (seat.old, gate.old) (seat.new, gate.new) }
    ensures filled { IsFilledLeaf seat.new.known number (key.now, value) }
    ensures steps { seat.new.known.steps ≤ seat.old.known.steps + LEAF_FIELDS }
{
    let leaf = table.locate(Rec::Leaf(number));
    store_word(table, seat, gate, leaf, VALUE_OFFSET, value);
    let length = key.as_bytes().len() as u64;
    let (mut offset, mut word) = (LENGTH_OFFSET, length);
    for index in 0..count_key_words(length) {
        store_word(table, seat, gate, leaf, offset, word);
        offset = index as u8 + KEY_OFFSET;
        word = key_word_at(key, index);
    }
    store_word(table, seat, gate, leaf, offset, word);
}

/// How many words of a node are stored by one loop. Seven loops and one store fill a node.
const GROUP: usize = 8;

/// Fills the claimed node record `number` with `words`, those of a node but its state, by one step for each word. The words are stored
/// whatever they are, since a store costs less than a look.
pub fn fill_node<G: Gate>(
    table: &HotTable,
    seat: &mut TableSeat,
    gate: &mut G,
    number: u32,
    words: &[u64; NODE_FIELDS],
)
    requires own { IsSeatOf table.now seat.old }
    requires range { number < table.now.layout.nodes }
    requires held { IsClaimed seat.old.known (a_node number) }
    requires spelling { IsSpelling HasNodeWords node_words words.now }
    ensures fills { SetsAll table.now G.becomes (a_node number) words.now (seat.old, gate.old) (seat.new, gate.new) }
    ensures filled { IsFilled seat.new.known (a_node number) words.now }
    ensures steps { seat.new.known.steps ≤ seat.old.known.steps + NODE_FIELDS }
{
    let node = table.locate(Rec::Node(number));
    store_group(table, seat, gate, node, words, 0);
    store_group(table, seat, gate, node, words, GROUP);
    store_group(table, seat, gate, node, words, 2 * GROUP);
    store_group(table, seat, gate, node, words, 3 * GROUP);
    store_group(table, seat, gate, node, words, 4 * GROUP);
    store_group(table, seat, gate, node, words, 5 * GROUP);
    store_group(table, seat, gate, node, words, 6 * GROUP);
    let offset = NODE_FIELDS as u8;
    store_word(table, seat, gate, node, offset, words[NODE_FIELDS - 1]);
}

/// Stores `GROUP` of `words` in the claimed node record `node`, from index `first` on, counted from 0 behind the state. The words at these
/// indexes stand in it then, and those stored before stay. Inline, so that offsets are known when it is compiled.
#[inline(always)]
fn store_group<G: Gate>(
    table: &HotTable,
    seat: &mut TableSeat,
    gate: &mut G,
    node: RecordAt,
    words: &[u64; NODE_FIELDS],
    first: usize,
)
    requires own { IsSeatOf table.now seat.old }
    requires node { IsNodeRecordAt table.now.layout node }
    requires held { IsClaimed seat.old.known node.rec }
    requires range { first + GROUP ≤ NODE_FIELDS }
    ensures { SetsMore table.now G.becomes node.rec words.now first GROUP (seat.old, gate.old) (seat.new, gate.new) }
{
    for place in 0..GROUP {
        let index = first + place;
        let offset = index as u8 + FIELDS_OFFSET;
        store_word(table, seat, gate, node, offset, words[index]);
    }
}

/// Stores `word` at `offset` of the claimed record `at`. The offset is counted in words from the state at 0, and is not 0.
#[inline(always)]
fn store_word<G: Gate>(
    table: &HotTable,
    seat: &mut TableSeat,
    gate: &mut G,
    at: RecordAt,
    offset: u8,
    word: u64,
)
    requires own { IsSeatOf table.now seat.old }
    requires start { IsStartOf table.now.layout at.rec at.start }
    requires held { IsClaimed seat.old.known at.rec }
    requires range { IsOffset at.rec offset × HasWord table.now.layout at.rec offset }
    ensures { Steps table.now G.becomes (Fill at.rec offset word) (seat.old, gate.old) (seat.new, gate.new) }
{
    table.fill_at(seat, gate, at, offset, word);
}

/// Makes the claimed record `rec` ready: one step stores that it is live. Its words are those of a node, or of a leaf for whose key it has
/// room. From then on the pass may link it.
pub fn make_ready<G: Gate>(table: &HotTable, seat: &mut TableSeat, gate: &mut G, rec: Rec)
    requires own { IsSeatOf table.now seat.old }
    requires range { HasRecord table.now.layout rec }
    requires filled { (words : List ℕ) × IsFilled seat.old.known rec words × FitsIn table.now.layout rec words }
    ensures { Readies table.now G.becomes rec (seat.old, gate.old) (seat.new, gate.new) }
{
    table.ready(seat, gate, rec);
}
