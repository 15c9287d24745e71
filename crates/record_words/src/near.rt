//! Near columns: lanes of bytes with the index of each column's byte and with a mask of its bit, made and read.

ghost use Rattle.std.specs.Prelude.{ℕ, ◌≡◌, ◌-◌, ◌^◌, ◌<◌, [], ◌∷◌, List, length, slice_index};
ghost use Rattle.key_bits.specs.Bits.{bit_of};
ghost use Rattle.partial_keys.specs.Rows.{dense_of};
ghost use Rattle.record_words.specs.Kinds.{AreNearLanes, HasNearLanes, distance_from, index_lanes, lane_words, mask_lanes, with_free_to_16};

use key_bits::Key;
use std::simd::prelude::*;

/// The mask of each of the nine bits of a byte, by the bit's number. Bit 0, which says that there is a byte, has none. The last seven only
/// fill a vector.
const MASKS: [u8; 16] = [0, 128, 64, 32, 16, 8, 4, 2, 1, 0, 0, 0, 0, 0, 0, 0];

/// Which of the nine bits has this mask, if the mask is in the byte's lower half; 0 for a number that is no mask.
const BIT_OF_LOW_MASK: [u8; 16] = [0, 8, 7, 0, 6, 0, 0, 0, 5, 0, 0, 0, 0, 0, 0, 0];

/// Which of the nine bits has 16 times this mask, which is in the byte's upper half; 0 for a number that is no mask.
const BIT_OF_HIGH_MASK: [u8; 16] = [0, 4, 3, 0, 2, 0, 0, 0, 1, 0, 0, 0, 0, 0, 0, 0];

/// Returns the bytes of two words, those of `low` first, the lowest byte of each first.
#[inline(always)]
pub(crate) fn bytes_of_words(low: u64, high: u64) -> u8x16
    ensures whole { length result ≡ 16 }
    ensures words { (lanes : List ℕ) → length lanes ≡ 16 → ((i : ℕ) → slice_index lanes i < 2 ^ 8) →
        (lane_words 8 2 lanes ≡ low ∷ high ∷ []) → result ≡ lanes }
{
    u64x2::from_array([low, high]).to_le_bytes()
}

/// Returns two words of the sixteen bytes `lanes`, the first eight in the first word, each word from its lowest bits up.
#[inline(always)]
pub(crate) fn words_of_bytes(lanes: u8x16) -> u64x2
    ensures { result ≡ lane_words 8 2 lanes }
{
    u64x2::from_le_bytes(lanes)
}

/// Returns how far each of `positions` is behind the first position of byte `first`, modulo 65,536. Lane 15-i has the distance of column i,
/// and 0 for 65,535, which stands for no column. `first` is below 7,282, so that 9 times `first` fits 16 bits.
#[inline(always)]
fn distances_of(positions: u16x16, first: u16) -> u16x16
    requires { first < 7282 }
    ensures whole { length result ≡ 16 }
    ensures each { (i : ℕ) → i < 16 → slice_index result i ≡ distance_from first (slice_index positions (15 - i)) }
{
    let distances = positions - u16x16::splat(9 * first);
    positions
        .simd_eq(u16x16::splat(u16::MAX))
        .select(u16x16::splat(0), distances)
        .reverse()
}

/// Returns the lanes of near columns: the indexes of their bytes, counted from the first column's, and the masks of their bits. `positions`
/// are those of the columns, and 65,535 behind them.
#[inline(always)]
pub(crate) fn near_lanes_of(positions: u16x16) -> (u8x16, u8x16)
    requires { (columns : List ℕ) × HasNearLanes columns × (positions ≡ with_free_to_16 columns) }
    ensures { (columns : List ℕ) → HasNearLanes columns → positions ≡ with_free_to_16 columns → (result.0 ≡ index_lanes columns) × (result.1 ≡ mask_lanes columns) }
{
    let first = positions.to_array()[0] / 9;
    let distances = distances_of(positions, first);
    // A distance is below 144. There 57 / 512 of it, rounded down, is a ninth of it.
    let indexes = (distances * u16x16::splat(57)) >> u16x16::splat(9);
    let bits = distances - indexes * u16x16::splat(9);
    let masks = u8x16::from_array(MASKS).swizzle_dyn_within::<16>(bits.cast::<u8>());
    (indexes.cast::<u8>(), masks)
}

/// Returns the positions of near columns, and 65,535 behind them up to 16 lanes. `indexes` and `masks` are the columns' lanes, and `first`
/// is the byte with the first column's bit.
#[inline(always)]
pub(crate) fn near_positions(indexes: u8x16, masks: u8x16, first: u8) -> u16x16
    ensures { (columns : List ℕ) → AreNearLanes columns indexes masks first → result ≡ with_free_to_16 columns }
{
    let bytes = indexes.cast::<u16>() + u16x16::splat(first as u16);
    let low = u8x16::from_array(BIT_OF_LOW_MASK).swizzle_dyn_within::<16>(masks & u8x16::splat(15));
    let high = u8x16::from_array(BIT_OF_HIGH_MASK).swizzle_dyn_within::<16>(
        masks >> u8x16::splat(4),
    );
    let positions = bytes * u16x16::splat(9) + (low + high).cast::<u16>();
    masks
        .cast::<u16>()
        .simd_eq(u16x16::splat(0))
        .select(u16x16::splat(u16::MAX), positions)
        .reverse()
}

/// Returns the dense key of `key` for near columns: bit 31-j has the key's bit at column j. `indexes` and `masks` are the columns' lanes,
/// and `first` is the byte with the first column's bit. Sixteen bytes of the key are read at once, from `first` on. Those behind the key's
/// end are 0, as its bits are there.
#[inline(always)]
pub(crate) fn extract_near(indexes: u8x16, masks: u8x16, first: u8, key: &Key) -> u32
    requires { (columns : List ℕ) × AreNearLanes columns indexes masks first }
    ensures { (columns : List ℕ) → AreNearLanes columns indexes masks first → result ≡ dense_of columns (bit_of key.now) }
{
    let window = u8x16::from_slice(&key.padded_bytes()[first as usize..]);
    let there = window.swizzle_dyn_within::<16>(indexes) & masks;
    (there.simd_ne(u8x16::splat(0)).to_bitmask() as u32) << 16
}
