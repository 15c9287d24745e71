//! Records written into the words of a table that nobody shares yet.

ghost use Rattle.std.specs.Prelude.{ℕ, ◌≡◌, ◌⊎◌, ◌+◌, ◌<◌, ◌≤◌, ◌^◌, get_or, length, set};
ghost use Rattle.bulk_load.specs.Tables.{IsPut};
ghost use Rattle.rowex_core.specs.Cores.{fields_in};
ghost use Rattle.record_words.specs.declared.TheConstants.{FIRST_UNCOMMITTED, KEY_WORDS, RECORD_KINDS, ROOT_WORD};
ghost use Rattle.record_words.specs.Entry.{HasEntryWord, entry_word};
ghost use Rattle.record_words.specs.Layout.{leaf_size, word_count};
ghost use Rattle.record_words.specs.Leaf.{HasLeafWords, key_word, leaf_words, up_to_key, words_for};
ghost use Rattle.record_words.specs.Node.{HasNodeWords, node_words};
ghost use Rattle.record_words.specs.State.{state_word};
ghost use Rattle.record_words.specs.declared.state.Tag.TheVariants.{Live as LiveTag};
ghost use Rattle.record_words.specs.declared.records.Rec.TheVariants.{Leaf as a_leaf, Node as a_node};

use compound_node::{Entry, Node};
use key_bits::Key;
use record_words::{
    FIRST_UNCOMMITTED, KEY_OFFSET, LENGTH_OFFSET, Layout, NODE_FIELDS, RECORD_KINDS, ROOT_WORD,
    Tag, VALUE_OFFSET, count_key_words, key_word_at, pack_entry, pack_node, pack_state,
};

/// Writes the state of a live record to the word `start` of `words`, and the first `count` of `fields` to the words behind it. All other
/// words stay.
fn put_record(words: &mut [u64], start: usize, fields: &[u64], count: usize)
    requires room { start + 1 + count ≤ length words.old }
    requires few { count ≤ length fields.now }
    ensures state { get_or words.new start 0 ≡ state_word LiveTag }
    ensures fields { (i : ℕ) → i < count → get_or words.new (start + (1 + i)) 0 ≡ get_or fields.now i 0 }
    ensures others { (k : ℕ) → (k < start) ⊎ (start + 1 + count ≤ k) → get_or words.new k 0 ≡ get_or words.old k 0 }
{
    words[start] = pack_state(Tag::Live);
    words[start + 1..start + 1 + count].copy_from_slice(&fields[..count]);
}

/// Writes `node` into the node record `number`, which is live then. All other words stay.
pub(crate) fn put_node(words: &mut [u64], layout: &Layout, number: u32, node: &Node)
    requires size { length words.old ≡ word_count layout.now }
    requires number { number < layout.now.nodes }
    ensures put { IsPut layout.now words.old words.new (a_node number) }
    ensures fields { fields_in layout.now words.new (a_node number) ≡ node_words node.now }
    ensures small { (i : ℕ) → get_or words.new i 0 < 2 ^ 64 }
    ensures fits { HasNodeWords node.now }
{
    put_record(words, layout.node(number), &pack_node(node), NODE_FIELDS);
}

/// Writes `key` with `value` into the leaf record `number`, which has room for them, and is live then. All words outside the record stay,
/// and so do those of the record behind the key.
pub(crate) fn put_leaf(words: &mut [u64], layout: &Layout, number: u32, key: &Key, value: u64)
    requires size { length words.old ≡ word_count layout.now }
    requires number { number < layout.now.leaves }
    requires room { words_for (length key.now) ≤ leaf_size layout.now number }
    ensures put { IsPut layout.now words.old words.new (a_leaf number) }
    ensures fields { leaf_words (key.now, value) ≡ up_to_key (fields_in layout.now words.new (a_leaf number)) }
    ensures fits { HasLeafWords (key.now, value) }
{
    let start = layout.leaf(number);
    let length = key.as_bytes().len() as u64;
    words[start] = pack_state(Tag::Live);
    words[start + VALUE_OFFSET as usize] = value;
    words[start + LENGTH_OFFSET as usize] = length;
    let count = count_key_words(length);
    put_key(words, start + KEY_OFFSET as usize, key, count);
}

/// Writes the first `count` words of `key` to `words`, from index `start` on. All other words stay.
fn put_key(words: &mut [u64], start: usize, key: &Key, count: usize)
    requires room { start + count ≤ length words.old }
    requires few { count ≤ KEY_WORDS }
    ensures size { length words.new ≡ length words.old }
    ensures key { (i : ℕ) → i < count → get_or words.new (start + i) 0 ≡ key_word key.now i }
    ensures others { (k : ℕ) → (k < start) ⊎ (start + count ≤ k) → get_or words.new k 0 ≡ get_or words.old k 0 }
{
    for j in 0..count {
        words[start + j] = key_word_at(key, j);
    }
}

/// Writes the word of `entry` as the root's entry. All other words stay.
pub(crate) fn put_root(words: &mut [u64], entry: Option<Entry>)
    requires room { ROOT_WORD < length words.old }
    requires entry { HasEntryWord entry }
    ensures put { words.new ≡ set words.old ROOT_WORD (entry_word entry) }
    ensures small { (i : ℕ) → get_or words.new i 0 < 2 ^ 64 }
{
    words[ROOT_WORD] = pack_entry(entry);
}

/// Writes to its word how many records of each kind are uncommitted. All other words stay.
pub(crate) fn put_uncommitted(words: &mut [u64], counts: &[u32; RECORD_KINDS])
    requires room { FIRST_UNCOMMITTED + RECORD_KINDS ≤ length words.old }
    ensures size { length words.new ≡ length words.old }
    ensures counts { (kind : ℕ) → kind < RECORD_KINDS → get_or words.new (FIRST_UNCOMMITTED + kind) 0 ≡ get_or counts.now kind 0 }
    ensures others { (k : ℕ) → (k < FIRST_UNCOMMITTED) ⊎ (FIRST_UNCOMMITTED + RECORD_KINDS ≤ k) → get_or words.new k 0 ≡ get_or words.old k 0 }
    ensures small { (i : ℕ) → get_or words.new i 0 < 2 ^ 64 }
{
    for kind in 0..RECORD_KINDS {
        words[FIRST_UNCOMMITTED + kind] = u64::from(counts[kind]);
    }
}
