//! Ranges of keys: which key comes next, and which keys begin with a prefix.
//!
//! # What carries the proof
//!
//! `next_key` and `previous_key` are the keys beside one. The keys with a prefix are a range (`laws::prefix_is_a_range`).
#![tactic(auto)]

ghost use Rattle.std.specs.Prelude.{◌≡◌, ◌<◌, ◌++◌, ◌∷◌, [], IfSome, None, length};
ghost use Rattle.key_bits.specs.Key.{IsKey};
ghost use Rattle.key_ranges.specs.Ranges.{IsNextKey, IsPreviousKey, NoKeyAbove, last_with};

pub mod laws;

use key_bits::{Key, MAX_BYTES};

/// Returns the least key above `key`; `None` if `key` is the greatest one, `MAX_BYTES` bytes of 255.
pub fn next_key(key: &Key) -> Option<Key>
    ensures some { IfSome result (IsNextKey key.now) }
    ensures none { result ≡ None → NoKeyAbove key.now }
{
    let mut rest = key.as_bytes();
    if rest.len() < MAX_BYTES {
        return Some(key_with_last_byte(rest, 0));
    }
    // No byte has room behind these, so one of them is greater in the next key, and those behind it are gone.
    while let Some((last, front)) = rest.split_last() {
        if *last < u8::MAX {
            return Some(key_with_last_byte(front, *last + 1));
        }
        rest = front;
    }
    None
}

/// Returns the greatest key below `key`; `None` if `key` is the empty one.
pub fn previous_key(key: &Key) -> Option<Key>
    ensures some { IfSome result (IsPreviousKey key.now) }
    ensures none { result ≡ None → key.now ≡ [] }
{
    let (last, front) = key.as_bytes().split_last()?;
    if *last > 0 {
        return Some(last_with_prefix(&key_with_last_byte(front, *last - 1)));
    }
    // Between a key and the same with a byte of 0 behind it there is none.
    Some(key_from_bytes(front))
}

/// Returns the key of the bytes `front`, at most `MAX_BYTES`.
fn key_from_bytes(front: &[u8]) -> Key
    requires { IsKey front.now }
    ensures { result ≡ front.now }
{
    let mut places = [0; MAX_BYTES];
    places[..front.len()].copy_from_slice(front);
    Key::from_padded(places, front.len())
}

/// Returns the key of the bytes `front`, which has room for one more, and `last` behind them.
fn key_with_last_byte(front: &[u8], last: u8) -> Key
    requires key { IsKey front.now }
    requires room { length front.now < MAX_BYTES }
    ensures { result ≡ front.now ++ last ∷ [] }
{
    let mut places = [0; MAX_BYTES];
    places[..front.len()].copy_from_slice(front);
    places[front.len()] = last;
    Key::from_padded(places, front.len() + 1)
}

/// Returns the greatest key that begins with `prefix`. Behind the prefix it has bytes of 255, and `MAX_BYTES` bytes in all.
pub fn last_with_prefix(prefix: &Key) -> Key
    ensures { result ≡ last_with prefix.now }
{
    let bytes = prefix.as_bytes();
    let mut places = [u8::MAX; MAX_BYTES];
    places[..bytes.len()].copy_from_slice(bytes);
    Key::from_padded(places, MAX_BYTES)
}
