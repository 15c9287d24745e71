//! The keys around a key, for programs in C: where a scan goes on after it, or before it.

ghost use Rattle.hot_c.specs.Around.{IsKeyTold, TellsAfter, TellsBefore};

use crate::status::{ABSENT, DONE, KEY_TOO_LONG};
use hot_index::{next_key, previous_key};
use key_bits::{Key, MAX_BYTES};

/// Room for a key of C's.
#[repr(C)]
pub struct KeyRoom {
    pub bytes: [u8; MAX_BYTES],
}

/// Writes the least possible key above `key` to `next`, and its length to `length`, and returns `DONE`. What stands in `next` behind the
/// key isn't said. Else nothing is written. It returns `ABSENT` if `key` is 240 bytes 255, the greatest key, and `KEY_TOO_LONG` if `key`
/// has more than 240 bytes.
#[unsafe(no_mangle)]
pub extern "C" fn hot_after(key: &[u8], next: &mut KeyRoom, length: &mut usize) -> u32
    ensures { TellsAfter key.now next.old length.old next.new length.new result }
{
    match Key::from_bytes(key) {
        Ok(key) => write_key(next_key(&key), next, length),
        Err(_) => KEY_TOO_LONG,
    }
}

/// Writes the greatest possible key below `key` to `previous`, and its length to `length`, and returns `DONE`. What stands in `previous`
/// behind the key isn't said. Else nothing is written. It returns `ABSENT` if `key` is the empty one, and `KEY_TOO_LONG` if `key` has more
/// than 240 bytes.
#[unsafe(no_mangle)]
pub extern "C" fn hot_before(key: &[u8], previous: &mut KeyRoom, length: &mut usize) -> u32
    ensures { TellsBefore key.now previous.old length.old previous.new length.new result }
{
    match Key::from_bytes(key) {
        Ok(key) => write_key(previous_key(&key), previous, length),
        Err(_) => KEY_TOO_LONG,
    }
}

/// Writes the bytes of `found` to the front of `key`, and their number to `length`, and returns `DONE`. For `None` it returns `ABSENT`, and
/// nothing is written.
fn write_key(found: Option<Key>, key: &mut KeyRoom, length: &mut usize) -> u32
    ensures { IsKeyTold found key.old length.old key.new length.new result }
{
    let Some(found) = found else {
        return ABSENT;
    };
    let bytes = found.as_bytes();
    key.bytes[..bytes.len()].copy_from_slice(bytes);
    *length = bytes.len();
    DONE
}
