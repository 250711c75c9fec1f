//! Blocks of single bytes as UTF-16 code units.
// The functions are always inlined, because they run for each block.
ghost use Rattle.std.specs.Prelude.{◌≡◌, ℕ, ◌+◌, ◌≤◌, ◌++◌, length, take};
ghost use Rattle.legacy_text.specs.ByteUnits.{AreByteScalars, HaveScalars, scalars_of};

use crate::past_ascii::past_ascii;
use std::simd::prelude::*;

/// Stores the first 64 bytes as code units from the place `at` on.
#[inline(always)]
pub(crate) fn store_bytes(dst: &mut [u16], at: usize, bytes: &[u8])
    requires block { 64 ≤ length bytes.now }
    requires room { at + 64 ≤ length dst.old }
    ensures { (k : ℕ) → k ≤ 64 → take (at + k) dst.new ≡ take at dst.old ++ take k bytes.now }
{
    u8x64::from_slice(bytes)
        .cast::<u16>()
        .copy_to_slice(&mut dst[at..]);
}

/// Stores the scalars of the first 64 bytes from the place `at` on, up to a byte that has none.
///
/// Returns the number of bytes before that one, and at most `most`.
// The whole block is stored as if it were ASCII, and then each byte past ASCII at its place.
#[inline(always)]
#[tactic(auto, using(crate::proofs::ByteUnits::store_steps))]
pub(crate) fn store_scalars(
    dst: &mut [u16],
    at: usize,
    bytes: &[u8],
    entries: &[u16],
    most: usize,
) -> usize
    requires block { 64 ≤ length bytes.now }
    requires entries { AreByteScalars entries.now }
    requires room { at + 64 ≤ length dst.old }
    ensures most { result ≤ most }
    ensures read { result ≤ 64 }
    ensures have { HaveScalars entries.now (take result bytes.now) }
    ensures stored { take (at + result) dst.new ≡ take at dst.old ++ scalars_of entries.now (take result bytes.now) }
{
    let end = most.min(64);
    let mut past = past_ascii(u8x64::from_slice(bytes));
    store_bytes(dst, at, bytes);
    while past != 0 {
        let place = past.trailing_zeros() as usize;
        let entry = entries[usize::from(bytes[place])];
        if entry == 0 {
            return place.min(end);
        }
        dst[at + place] = entry;
        past &= past - 1;
    }
    end
}
