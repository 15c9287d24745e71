//! What a scan asks for, what its walk reads, and what becomes of it at a pair.

ghost use Rattle.std.specs.Prelude.{◌≡◌, ◌≤◌, IsTrue, false, length};
ghost use Rattle.key_bits.specs.Key.{IsKey};
ghost use Rattle.record_words.specs.Leaf.{key_word};
ghost use Rattle.rowex_scanning.specs.Scanning.{first_key_of, last_key_of};
ghost use Rattle.version_laws.specs.Directions.{IsEarlier, IsNoLater};

use crate::direction::is_key_before;
use key_bits::{Key, MAX_BYTES};
use packed_pairs::Direction;
use record_words::{Origins, key_word_at};
use rowex_table::HotTable;

/// What a scan asks for.
#[derive(Drop)]
pub struct Range<'a> {
    /// The first key of the range, which belongs to it.
    pub from: &'a Key,
    /// The last key of the range, which belongs to it. Where it is before the first one, the range is empty.
    pub upto: &'a Key,
    /// Whether the scan goes from the first key upwards, or from the last one downwards.
    pub direction: Direction,
    /// How many pairs the scan gives at most.
    pub limit: usize,
}

/// What the walk of a scan reads, and what it asks for.
#[derive(Drop)]
pub(crate) struct Scan<'a> {
    /// The table that it reads.
    pub table: &'a HotTable,
    /// Where the table's records begin.
    pub origins: &'a Origins,
    /// The range of keys.
    pub range: &'a Range<'a>,
}

/// Room for what is read of leaves that come together.
#[derive(Drop)]
pub(crate) struct Places {
    /// For the key of the last one, which is read first.
    pub last: [u8; MAX_BYTES],
    /// For the key of one of the others.
    pub next: [u8; MAX_BYTES],
}

/// What becomes of a scan at a pair, or at several leaves.
#[derive(Clone, Copy)]
pub(crate) enum Verdict {
    /// The scan goes on.
    Further,
    /// The key is past the range.
    Past,
    /// The pair belongs to the range, and the limit is reached.
    Full,
}

/// Returns the key of `range` that comes first in its direction: `range.from` upwards, `range.upto` downwards.
#[inline(always)]
pub(crate) fn first_key<'a>(range: &'a Range) -> &'a Key
    ensures { result.now ≡ first_key_of range.now }
{
    match range.direction {
        Direction::Upwards => range.from,
        Direction::Downwards => range.upto,
    }
}

/// Returns whether the key with the bytes `key` is past the last key of `range` in its direction. In a scan upwards the first eight bytes
/// of both, compared as numbers, mostly tell that it is not.
#[inline(always)]
pub(crate) fn is_past_range(range: &Range, key: &[u8]) -> bool
    requires key { IsKey key.now }
    ensures past { IsTrue result → IsEarlier range.now.direction (last_key_of range.now) key.now }
    ensures inside { result ≡ false → IsNoLater range.now.direction key.now (last_key_of range.now) }
{
    match range.direction {
        Direction::Upwards => {
            let upto = range.upto.as_bytes();
            if key.len() >= 8 && first_word(key) < key_word_at(range.upto, 0) {
                return false;
            }
            is_key_before(upto, key)
        }
        Direction::Downwards => is_key_before(key, range.from.as_bytes()),
    }
}

/// Returns the first eight bytes of `key` as a number, of which the first byte is the highest. So the order of the numbers is that of the
/// bytes. The key has at least eight.
#[inline(always)]
fn first_word(key: &[u8]) -> u64
    requires { 8 ≤ length key.now }
    ensures { result ≡ key_word key.now 0 }
{
    let mut eight = [0; 8];
    eight.copy_from_slice(&key[..8]);
    u64::from_be_bytes(eight)
}
