//! Bits of a key gathered by vectors.

ghost use Rattle.std.specs.Prelude.{[], ◌∷◌, ◌++◌, ◌≡◌, ◌%◌, ◌*◌, ◌+◌, ◌-◌, ◌<◌, ◌≤◌, ◌⊎◌, IsTrue, ℕ, eqb, length, map, min, slice_index, take};
ghost use Rattle.key_bits.specs.Bits.{bit_of};
ghost use Rattle.key_bits.specs.Gather.{gathered};
ghost use Rattle.key_bits.specs.Key.{with_zeros};
ghost use Rattle.partial_keys.specs.Columns.{AreColumnLanes};
ghost use Rattle.partial_keys.specs.Rows.{dense_of};
ghost use Rattle.partial_keys.specs.Windows.{bit_within, byte_lane, mask_lane, missed_lane};

use crate::MAX_COLUMNS;
use key_bits::{Key, MAX_BYTES};
use std::simd::prelude::*;

/// The bit of a position in its byte, at the index `position % 9 * 16 / 9`; 0 for the first of the nine bits.
const MASKS: [u8; 16] = [0, 128, 0, 64, 0, 32, 0, 16, 8, 8, 4, 0, 2, 0, 1, 0];

/// Returns for each of `positions` the index of the byte of a key that has its bit. Where no key has such a byte, the index is at least
/// `MAX_BYTES`. The bit of a position p is in byte p/9. As long as p is below 9 * 3640, as all positions of keys are, p*7282/65536 is p/9.
#[inline(always)]
fn bytes_at(positions: u16x32) -> u8x32
    ensures { result ≡ map byte_lane positions }
{
    let products = positions.cast::<u32>() * u32x32::splat(7282);
    let bytes = (products >> u32x32::splat(16)).cast::<u16>();
    bytes.simd_min(u16x32::splat(255)).cast::<u8>()
}

/// Returns for each of `positions` a mask of its bit in its byte; 0 for the first of a byte's nine bits.
#[inline(always)]
fn masks_at(positions: u16x32) -> u8x32
    ensures { result ≡ map mask_lane positions }
{
    // Products wrap at 2^16. So their highest four bits are `position % 9 * 16 / 9`, the index into `MASKS`.
    let parts = (positions * u16x32::splat(7282)) >> u16x32::splat(12);
    repeat_lanes(u8x16::from_array(MASKS)).swizzle_dyn_within::<16>(parts.cast::<u8>())
}

/// Returns the sixteen lanes `lanes`, twice.
#[inline(always)]
fn repeat_lanes(lanes: u8x16) -> u8x32
    ensures { (i : ℕ) → i < 32 → slice_index result i ≡ slice_index lanes (i % 16) }
{
    lanes.swizzle::<32>([
        0, 1, 2, 3, 4, 5, 6, 7, 8, 9, 10, 11, 12, 13, 14, 15, 0, 1, 2, 3, 4, 5, 6, 7, 8, 9, 10, 11,
        12, 13, 14, 15,
    ])
}

/// Returns the sixteen bytes of `key` from byte `first` on, twice. Behind the key's end they are 0.
#[inline(always)]
fn window_at(key: &Key, first: usize) -> u8x32
    requires { first + 16 ≤ MAX_BYTES }
    ensures { (i : ℕ) → i < 32 → slice_index result i ≡ slice_index (with_zeros key.now) (first + i % 16) }
{
    repeat_lanes(u8x16::from_slice(&key.padded_bytes()[first..]))
}

/// Returns for each lane the bits of its mask in `masks` that its byte lacks; not 0 if that byte is behind byte `last`. `bytes` has the
/// index of each lane's byte, and `window` the sixteen bytes from byte `first` on.
#[inline(always)]
fn find_missing_bits(bytes: u8x32, masks: u8x32, window: u8x32, first: u8, last: u8) -> u8x32
    requires lanes { (length bytes ≡ 32) × (length masks ≡ 32) × (length window ≡ 32) }
    ensures whole { length result ≡ 32 }
    ensures each { (i : ℕ) → i < 32 → slice_index result i ≡ missed_lane window first last i (slice_index bytes i) (slice_index masks i) }
{
    let indexes = (bytes - u8x32::splat(first)) & u8x32::splat(15);
    let key_bytes = window.swizzle_dyn_within::<16>(indexes);
    masks & !key_bytes | bytes.saturating_sub(u8x32::splat(last))
}

/// Returns a mask whose bit 31-i is set exactly if lane i is 0.
#[inline(always)]
fn mark_zeros(lanes: u8x32) -> u32
    requires { length lanes ≡ 32 }
    ensures { result ≡ gathered (λ x. eqb x 0) lanes }
{
    lanes.reverse().simd_eq(u8x32::splat(0)).to_bitmask() as u32
}

/// Returns the dense key of `key` for the columns in the first `count` of `lanes`: bit 31-j has the key's bit at column j, and all other
/// bits are 0. The lanes behind these are 65,535. Mostly the bits at all columns are in sixteen bytes, which are read at once.
#[inline(always)]
pub fn extract_dense_key_by_lanes(lanes: u16x32, count: u8, key: &Key) -> u32
    requires { AreColumnLanes lanes count }
    ensures { result ≡ dense_of (take count lanes) (bit_of key.now) }
{
    let first = lanes.to_array()[0] as usize / 9;
    let key_length = key.as_bytes().len();
    let bytes = bytes_at(lanes);
    if window_has_all_bits(bytes, first, key_length) {
        let (masks, window) = (masks_at(lanes), window_at(key, first));
        mark_zeros(find_missing_bits(bytes, masks, window, first as u8, (key_length - 1) as u8))
    } else {
        extract_by_windows(lanes, count, key)
    }
}

/// Returns `true` only if the sixteen bytes from byte `first` on have all bits at columns that a key of `key_length` bytes has. The key is
/// not empty then, and the sixteen bytes end within `MAX_BYTES`. `bytes` says in which byte each column has its bit. `false` promises
/// nothing, since it leads to a slower way that is always right.
#[inline(always)]
fn window_has_all_bits(bytes: u8x32, first: usize, key_length: usize) -> bool
    requires lanes { length bytes ≡ 32 }
    requires short { key_length ≤ MAX_BYTES }
    ensures near { IsTrue result → (1 ≤ key_length) × (first + 16 ≤ MAX_BYTES) ×
        ((i : ℕ) → i < 32 → (slice_index bytes i < first + 16) ⊎ (key_length ≤ slice_index bytes i)) }
{
    key_length > 0
        && first <= MAX_BYTES - 16
        && (key_length <= first + 16
            || has_no_byte_between(bytes, first as u8 + 16, key_length as u8))
}

/// Returns `true` only if each of `bytes` is below `from`, or not below `to`.
#[inline(always)]
fn has_no_byte_between(bytes: u8x32, from: u8, to: u8) -> bool
    requires lanes { length bytes ≡ 32 }
    requires order { from ≤ to }
    ensures none { IsTrue result → (i : ℕ) → i < 32 → (slice_index bytes i < from) ⊎ (to ≤ slice_index bytes i) }
{
    (bytes - u8x32::splat(from))
        .simd_lt(u8x32::splat(to - from))
        .to_bitmask()
        == 0
}

/// Returns the dense key of `key` for the columns in the first `count` of `lanes`, as `extract_dense_key_by_lanes` does. It reads sixteen
/// bytes of the key at a time. Never inline: so the lanes go into memory only where columns are far apart.
#[inline(never)]
fn extract_by_windows(lanes: u16x32, count: u8, key: &Key) -> u32
    requires { AreColumnLanes lanes count }
    ensures { result ≡ dense_of (take count lanes) (bit_of key.now) }
{
    let first = lanes.to_array()[0] as usize / 9;
    let parts = (key.as_bytes().len().saturating_sub(first) + 15) / 16;
    let mut missing = u8x32::splat(255);
    for part in 0..parts {
        missing = missing.simd_min(find_missing_bits_from(lanes, first + 16 * part, key));
    }
    mark_zeros(missing)
}

/// Returns a lane of 0 exactly where `key` has a 1 at the position in that lane of `lanes`, within a window of sixteen bytes. The window
/// begins at `from`, or at `MAX_BYTES - 16` if that is less.
#[inline(always)]
fn find_missing_bits_from(lanes: u16x32, from: usize, key: &Key) -> u8x32
    requires lanes { length lanes ≡ 32 }
    requires some { from < length key.now }
    ensures whole { length result ≡ 32 }
    ensures each { (i : ℕ) → i < 32 → eqb (slice_index result i) 0 ≡ bit_within (min from (MAX_BYTES - 16)) key.now (slice_index lanes i) }
{
    let first = from.min(MAX_BYTES - 16);
    let last = (first + 15).min(key.as_bytes().len() - 1);
    let bytes = bytes_at(lanes);
    let missed = find_missing_bits(
        bytes,
        masks_at(lanes),
        window_at(key, first),
        first as u8,
        last as u8,
    );
    // A byte before the window counts as missed.
    missed | distances_below(bytes, first as u8)
}

/// Returns for each of `bytes` by how much it is below `first`; 0 if it isn't below.
#[inline(always)]
fn distances_below(bytes: u8x32, first: u8) -> u8x32
    requires { length bytes ≡ 32 }
    ensures whole { length result ≡ 32 }
    ensures each { (i : ℕ) → i < 32 → slice_index result i ≡ first - slice_index bytes i }
{
    u8x32::splat(first).saturating_sub(bytes)
}

/// Returns the 31 `positions` as lanes, and 65,535 in the last lane.
#[inline(always)]
pub(crate) fn lanes_of(positions: &[u16; MAX_COLUMNS]) -> u16x32
    ensures { result ≡ positions.now ++ 65535 ∷ [] }
{
    let low = u16x16::from_slice(positions);
    let high = u16x16::from_slice(&positions[15..]);
    let ends = u16x16::splat(u16::MAX);
    let high = high.shuffle::<16>(
        ends,
        [1, 2, 3, 4, 5, 6, 7, 8, 9, 10, 11, 12, 13, 14, 15, 16],
    );
    low.shuffle::<32>(
        high,
        [
            0, 1, 2, 3, 4, 5, 6, 7, 8, 9, 10, 11, 12, 13, 14, 15, 16, 17, 18, 19, 20, 21, 22, 23,
            24, 25, 26, 27, 28, 29, 30, 31,
        ],
    )
}
