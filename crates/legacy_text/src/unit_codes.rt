//! Encodes UTF-16 code units that have one byte each, sixteen at a time.
// Functions that run for each block are always inlined, because a call would pass the vector through memory.
ghost use Rattle.std.specs.Prelude.{◌≡◌, ℕ, ◌+◌, ◌-◌, ◌<◌, ◌≤◌, length, take, slice_index, true};
ghost use Rattle.legacy_text.specs.UnitCodes.{IsNoSurrogate, WritesCodes};

use crate::blocks::ascii_count;
use crate::eight_units::store;
use std::simd::prelude::*;

/// The bytes of code units in a codec whose common scalars have one byte.
pub trait UnitCodes {
    /// The scalar may be written as the byte.
    ghost gives: { Self → ℕ → ℕ → Type 0 };

    /// Returns the byte of a code unit, and whether it has one.
    ///
    /// Without one, the byte has no meaning. Any code unit may have none.
    fn byte_of(&self, unit: u16) -> (u8, bool)
        ensures { result.1 ≡ true → IsNoSurrogate unit × gives self.now unit result.0 };
}

/// Returns the bytes of sixteen code units, and marks.
///
/// A mark is ASCII if the code unit has a byte.
#[inline(always)]
fn code_block<C: UnitCodes>(codes: &C, units: &[u16]) -> ([u8; 16], [u8; 16])
    requires { 16 ≤ length units.now }
    ensures bytes { length result.0 ≡ 16 }
    ensures marks { length result.1 ≡ 16 }
    ensures codes { (k : ℕ) → k < 16 → slice_index result.1 k < 0x80 →
        IsNoSurrogate (slice_index units.now k)
        × C.gives codes.now (slice_index units.now k) (slice_index result.0 k) }
{
    let mut bytes = [0u8; 16];
    let mut marks = [0u8; 16];
    let mut k = 0;
    while k < 16 {
        let (byte, is_known) = codes.byte_of(units[k]);
        bytes[k] = byte;
        marks[k] = if is_known { 0 } else { 0xFF };
        k += 1;
    }
    (bytes, marks)
}

/// Writes the bytes of code units from the front to the place `at` on, by blocks.
///
/// Returns their number, and whether all code units of all blocks have a byte.
#[inline(always)]
fn copy_code_blocks<C: UnitCodes>(
    codes: &C,
    units: &[u16],
    dst: &mut [u8],
    at: usize,
) -> (usize, bool)
    requires { at ≤ length dst.old }
    ensures read { result.0 ≤ length units.now }
    ensures fits { at + result.0 ≤ length dst.old }
    ensures bmp { (k : ℕ) → k < result.0 → IsNoSurrogate (slice_index units.now k) }
    ensures writes { WritesCodes (C.gives codes.now) units.now result.0 (take at dst.old)
        (take (at + result.0) dst.new) }
{
    let most = dst.len() - at;
    let mut copied = 0;
    while units.len() - copied >= 16 && most - copied >= 16 {
        let (bytes, marks) = code_block(codes, &units[copied..]);
        store(dst, at + copied, u8x16::from_array(bytes));
        let count = ascii_count(u8x16::from_array(marks));
        copied += count;
        if count < 16 {
            return (copied, false);
        }
    }
    (copied, true)
}

/// Writes the bytes of code units from the front to the place `at` on, and returns their number.
///
/// It works in blocks, up to the first code unit without a byte. The last block may overlap the one before.
#[inline]
pub(crate) fn copy_unit_codes<C: UnitCodes>(
    codes: &C,
    units: &[u16],
    dst: &mut [u8],
    at: usize,
) -> usize
    requires { at ≤ length dst.old }
    ensures read { result ≤ length units.now }
    ensures fits { at + result ≤ length dst.old }
    ensures bmp { (k : ℕ) → k < result → IsNoSurrogate (slice_index units.now k) }
    ensures writes { WritesCodes (C.gives codes.now) units.now result (take at dst.old)
        (take (at + result) dst.new) }
{
    let (copied, are_known) = copy_code_blocks(codes, units, dst, at);
    let end = units.len().min(dst.len() - at);
    if !are_known || end < 16 || end == copied {
        return copied;
    }
    let back = (end - 16).min(copied);
    let (bytes, marks) = code_block(codes, &units[back..]);
    store(dst, at + back, u8x16::from_array(bytes));
    back + ascii_count(u8x16::from_array(marks))
}
