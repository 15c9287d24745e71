//! The words of a line that stand for keys and numbers.

ghost use Rattle.std.specs.Prelude.{◌≡◌, ◌≤◌, length};
ghost use Rattle.std.specs.List.{list_all};
ghost use Rattle.std.specs.Char.{is_ascii_digit};
ghost use Rattle.hot_scripts.specs.Grammar.{parsed_key, is_number, number_of, parsed_value, limit_of};

use crate::command::Version;
use crate::fault::Reason;
use key_bits::{Key, MAX_BYTES};
use std::str;

/// The most decimal digits that a number in a script may have.
const MAX_DIGITS: usize = 20;

/// The greatest number of pairs that a scan may ask for.
const MAX_LIMIT: u64 = 1_000_000;

/// Returns the key that `word` stands for: two hexadecimal digits for each byte, or a dash for the empty key. The error is `Reason::Key` if
/// `word` is neither, or has too many digits for `version`.
pub fn parse_key(version: Version, word: &[u8]) -> Result<Key, Reason>
    ensures { result ≡ parsed_key version word.now }
{
    if word == b"-".as_slice() {
        return make_key(&[]);
    }
    if word.len() < 2 || version.most_digits() < word.len() {
        return Err(Reason::Key);
    }
    let mut room = [0u8; MAX_BYTES];
    let bytes = &mut room[..word.len() / 2];
    match hex::decode_to_slice(word, bytes) {
        Ok(()) => make_key(bytes),
        Err(_) => Err(Reason::Key),
    }
}

/// Returns the key of `bytes`, which must be `MAX_BYTES` at most. There is never an error: the result is one because the callers return
/// one.
fn make_key(bytes: &[u8]) -> Result<Key, Reason>
    requires { length bytes.now ≤ MAX_BYTES }
    ensures { result ≡ Ok bytes.now }
{
    match Key::from_bytes(bytes) {
        Ok(key) => Ok(key),
        Err(_) => Err(Reason::Key),
    }
}

/// Returns whether `word` is 1 to `MAX_DIGITS` decimal digits.
fn is_number(word: &[u8]) -> bool
    ensures { result ≡ is_number word.now }
{
    !word.is_empty() && word.len() <= MAX_DIGITS && are_digits(word)
}

/// Returns whether each byte of `word` is a decimal digit.
fn are_digits(word: &[u8]) -> bool
    ensures { result ≡ list_all is_ascii_digit word.now }
{
    word.iter().all(|byte| byte.is_ascii_digit())
}

/// Returns the number that `word` stands for. `None` if `word` is no number, or stands for one above 2^64 - 1.
fn parse_number(word: &[u8]) -> Option<u64>
    ensures { result ≡ number_of word.now }
{
    if !is_number(word) {
        return None;
    }
    match str::from_utf8(word) {
        Ok(text) => text.parse().ok(),
        Err(_) => None,
    }
}

/// Returns the value that `word` stands for. The error is `Reason::Value` if `word` is no number, or stands for one above 2^64 - 1.
pub fn parse_value(word: &[u8]) -> Result<u64, Reason>
    ensures { result ≡ parsed_value word.now }
{
    parse_number(word).ok_or(Reason::Value)
}

/// Returns the limit that `word` stands for. The error is `Reason::Limit` if `word` is no number from 1 to `MAX_LIMIT`.
pub fn parse_limit(word: &[u8]) -> Result<usize, Reason>
    ensures { result ≡ limit_of word.now }
{
    match parse_number(word) {
        Some(n) if 1 <= n && n <= MAX_LIMIT => Ok(n as usize),
        _ => Err(Reason::Limit),
    }
}
