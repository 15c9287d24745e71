//! A leaf of its words.

ghost use Rattle.std.specs.Prelude.{◌≡◌, ◌≤◌, ◌↔◌, slice_index, take, drop, IsTrue, EachIndex};
ghost use Rattle.key_bits.specs.declared.TheConstants.{MAX_BYTES};
ghost use Rattle.record_words.specs.declared.TheConstants.{KEY_WORDS};
ghost use Rattle.record_words.specs.Leaf.{HasLeafWords, IsBytesOf, leaf_words, up_to_key};
ghost use Rattle.record_words.specs.Reading.{IsReading};

use key_bits::{Key, MAX_BYTES};
use record_words::{LEAF_FIELDS, WordFault, count_key_words, write_key_word};

/// Returns the key and the value of a leaf record with `words` from offset 1 on. `WordFault::Bad` if the key's length is above 240, or if a
/// byte behind the key in its last word isn't 0. The words behind that one may be any.
pub fn unpack_leaf(words: &[u64; LEAF_FIELDS]) -> Result<(Key, u64), WordFault>
    ensures { IsReading HasLeafWords leaf_words (up_to_key words.now) result }
{
    if words[1] > MAX_BYTES as u64 {
        return Err(WordFault::Bad);
    }
    unpack_leaf_with_bytes(words, &unpack_key_bytes(words))
}

/// Returns the key and the value of a leaf record with `words` from offset 1 on, whose key's length is at most 240. `bytes` are those of
/// the key's words, and 0 behind these. `WordFault::Bad` if a byte behind the key isn't 0.
fn unpack_leaf_with_bytes(words: &[u64; LEAF_FIELDS], bytes: &[u8]) -> Result<(Key, u64), WordFault>
    requires short { slice_index words.now 1 ≤ MAX_BYTES }
    requires spelled { IsBytesOf bytes.now (take KEY_WORDS (drop 2 (up_to_key words.now))) }
    ensures { IsReading HasLeafWords leaf_words (up_to_key words.now) result }
{
    let (key, unused) = bytes.split_at(words[1] as usize);
    if !are_zero_bytes(unused) {
        return Err(WordFault::Bad);
    }
    match Key::from_bytes(key) {
        Ok(key) => Ok((key, words[0])),
        Err(_) => Err(WordFault::Bad),
    }
}

/// Returns whether all of `bytes` are 0.
fn are_zero_bytes(bytes: &[u8]) -> bool
    ensures { IsTrue result ↔ EachIndex bytes.now (λ i. slice_index bytes.now i ≡ 0) }
{
    bytes.iter().all(|byte| *byte == 0)
}

/// Returns the bytes of the key in `words`, a leaf's from offset 1 on. They go to the end of the key's last word, and are 0 behind it. The
/// key's length is at most 240.
fn unpack_key_bytes(words: &[u64; LEAF_FIELDS]) -> [u8; MAX_BYTES]
    requires { slice_index words.now 1 ≤ MAX_BYTES }
    ensures { IsBytesOf result (take KEY_WORDS (drop 2 (up_to_key words.now))) }
{
    let mut bytes = [0; MAX_BYTES];
    for j in 0..count_key_words(words[1]) {
        write_key_word(&mut bytes, j, words[2 + j]);
    }
    bytes
}
