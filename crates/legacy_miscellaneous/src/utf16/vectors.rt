//! Units read by vectors of bytes. In a loop over bytes the compiler would load them one by one.
// Functions that run for each block are always inlined. A call would pass vectors through memory, and
// keep the destination's place there.
ghost use Rattle.std.specs.{Prelude.{◌≡◌, ◌<◌, ◌≤◌, ℕ, length, slice_index}, Char.IsScalar};
ghost use Rattle.legacy_miscellaneous.specs.Utf16Decoder.{unit_at};

use std::simd::prelude::*;

/// Returns the first eight units.
#[inline(always)]
pub fn eight_units(big_endian: bool, src: &[u8]) -> u16x8
    requires { 16 ≤ length src.now }
    ensures { (k : ℕ) → k < 8 → slice_index result k ≡ unit_at big_endian src.now k }
{
    let bytes = u8x16::from_slice(src);
    if !big_endian {
        return u16x8::from_le_bytes(bytes);
    }
    let swapped = bytes.swizzle([1, 0, 3, 2, 5, 4, 7, 6, 9, 8, 11, 10, 13, 12, 15, 14]);
    u16x8::from_le_bytes(swapped)
}

/// Returns the first sixteen units.
#[inline(always)]
pub fn sixteen_units(big_endian: bool, src: &[u8]) -> u16x16
    requires { 32 ≤ length src.now }
    ensures { (k : ℕ) → k < 16 → slice_index result k ≡ unit_at big_endian src.now k }
{
    let bytes = u8x32::from_slice(src);
    if !big_endian {
        return u16x16::from_le_bytes(bytes);
    }
    let swapped = bytes.swizzle([
        1, 0, 3, 2, 5, 4, 7, 6, 9, 8, 11, 10, 13, 12, 15, 14, 17, 16, 19, 18, 21, 20, 23, 22, 25,
        24, 27, 26, 29, 28, 31, 30,
    ]);
    u16x16::from_le_bytes(swapped)
}

/// Returns the number of units before the first surrogate.
#[inline(always)]
pub fn scalar_count(units: u16x8) -> usize
    ensures most { result ≤ 8 }
    ensures scalars { (k : ℕ) → k < result → IsScalar (slice_index units k) }
{
    let past = units - u16x8::splat(0xD800);
    let surrogates = past.simd_lt(u16x8::splat(0x800)).to_bitmask();
    if surrogates == 0 {
        return 8;
    }
    (surrogates.trailing_zeros() as usize).min(8)
}
