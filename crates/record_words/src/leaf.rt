//! The words of a leaf record.

ghost use Rattle.std.specs.Prelude.{ℕ, ◌≡◌, ◌≢◌, ◌<◌, ◌≤◌, slice_index, length};
ghost use Rattle.key_bits.specs.declared.TheConstants.{MAX_BYTES};
ghost use Rattle.record_words.specs.declared.TheConstants.{KEY_WORDS, LEAF_WORDS};
ghost use Rattle.record_words.specs.Leaf.{HasLeafWords, key_word, leaf_words, words_for, words_of_key};

use crate::{FIRST_KEY_WORD, KEY_OFFSET, KEY_WORDS, LEAF_FIELDS, LENGTH_INDEX, VALUE_INDEX};
use key_bits::{Key, MAX_BYTES};

/// Returns how many words the bytes of a key of `length` bytes take in a leaf: 0 to `KEY_WORDS`.
pub fn count_key_words(length: u64) -> usize
    requires { length ≤ MAX_BYTES }
    ensures { result ≡ words_of_key length }
{
    (length as usize + 7) / 8
}

/// Returns how many words a leaf record needs for `key`: those of the state, the value and the length, and the key's own.
pub fn count_leaf_words(key: &Key) -> usize
    ensures words { result ≡ words_for (length key.now) }
    ensures few { result ≤ LEAF_WORDS }
{
    KEY_OFFSET as usize + count_key_words(key.as_bytes().len() as u64)
}

/// Returns word `j` of `key`, counted from 0: its eight bytes from byte `8 * j` on, the first in the highest bits. Bytes past the key's end
/// are 0.
pub fn key_word_at(key: &Key, j: usize) -> u64
    requires { j < KEY_WORDS }
    ensures { result ≡ key_word key.now j }
{
    let mut eight = [0; 8];
    eight.copy_from_slice(&key.padded_bytes()[8 * j..8 * j + 8]);
    u64::from_be_bytes(eight)
}

/// Returns the words of a leaf record from offset 1 on: `value`, the length of `key` in bytes and its bytes, and 0 behind these.
pub fn pack_leaf(key: &Key, value: u64) -> [u64; LEAF_FIELDS]
    ensures words { result ≡ leaf_words (key.now, value) }
    ensures fits { HasLeafWords (key.now, value) }
{
    let length = key.as_bytes().len() as u64;
    let mut words = [0; LEAF_FIELDS];
    words[VALUE_INDEX] = value;
    words[LENGTH_INDEX] = length;
    for j in 0..count_key_words(length) {
        words[FIRST_KEY_WORD + j] = key_word_at(key, j);
    }
    words
}

/// Writes `word`, which is word `j` of a key, counted from 0, to `bytes`. Its eight bytes go from byte `8 * j` on, the highest first. All
/// other bytes stay.
pub fn write_key_word(bytes: &mut [u8; MAX_BYTES], j: usize, word: u64)
    requires { j < KEY_WORDS }
    ensures written { key_word bytes.new j ≡ word }
    ensures others { (k : ℕ) → k ≢ j → key_word bytes.new k ≡ key_word bytes.old k }
    ensures small { (i : ℕ) → slice_index bytes.new i < 256 }
{
    bytes[8 * j..8 * j + 8].copy_from_slice(&word.to_be_bytes());
}
