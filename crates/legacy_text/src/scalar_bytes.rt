//! Writes one scalar value as UTF-8.
// The functions take the output as a slice. So its address is loaded once for a scalar, and not again after each byte.
ghost use Rattle.std.specs.Prelude.{◌≡◌, ℕ, ◌+◌, ◌<◌, ◌≤◌, ◌∷◌, [], ◌++◌, length, take, encode_utf8};
ghost use Rattle.legacy_text.specs.UnitBytes.{IsUtf8Entry};

use std::simd::prelude::*;

/// Stores a byte at the place.
#[inline(always)]
pub(crate) fn put_byte(dst: &mut [u8], at: usize, byte: u8)
    requires { at < length dst.old }
    ensures written { take (at + 1) dst.new ≡ take at dst.old ++ byte ∷ [] }
    ensures kept { take at dst.new ≡ take at dst.old }
{
    dst[at] = byte;
}

/// Stores the bytes of a scalar from the place `at` on, and returns the place after them.
// Most scalars past ASCII take three bytes: that case is tested first. The last of one or two bytes is stored after a
// lead, or over it if there is none: so there is no branch, which no pattern in text would predict.
#[inline(always)]
pub(crate) fn put_scalar(dst: &mut [u8], at: usize, c: char) -> usize
    requires room { at + length (encode_utf8 c) ≤ length dst.old }
    ensures place { result ≡ at + length (encode_utf8 c) }
    ensures written { take result dst.new ≡ take at dst.old ++ encode_utf8 c }
{
    let scalar = c as u32;
    if scalar >= 0x800 && scalar < 0x1_0000 {
        put_byte(dst, at, (0xE0 + scalar / 0x1000) as u8);
        put_byte(dst, at + 1, (0x80 + scalar / 0x40 % 0x40) as u8);
        put_byte(dst, at + 2, (0x80 + scalar % 0x40) as u8);
        return at + 3;
    }
    if scalar < 0x800 {
        let (leads, last) = if scalar < 0x80 {
            (0, scalar)
        } else {
            (1, 0x80 + scalar % 0x40)
        };
        put_byte(dst, at, (0xC0 + scalar / 0x40) as u8);
        put_byte(dst, at + leads, last as u8);
        return at + leads + 1;
    }
    put_byte(dst, at, (0xF0 + scalar / 0x4_0000) as u8);
    put_byte(dst, at + 1, (0x80 + scalar / 0x1000 % 0x40) as u8);
    put_byte(dst, at + 2, (0x80 + scalar / 0x40 % 0x40) as u8);
    put_byte(dst, at + 3, (0x80 + scalar % 0x40) as u8);
    at + 4
}

/// Returns the entry of a scalar up to U+FFFF: its bytes from the lowest one on, and as the highest byte their number.
pub fn utf8_entry(c: char) -> u32
    requires { c < 0x1_0000 }
    ensures { IsUtf8Entry c result }
{
    let scalar = c as u32;
    let last = 0x80 + scalar % 0x40;
    if scalar < 0x80 {
        0x100_0000 + scalar
    } else if scalar < 0x800 {
        0x200_0000 + 0x100 * last + 0xC0 + scalar / 0x40
    } else {
        0x300_0000
            + 0x1_0000 * last
            + 0x100 * (0x80 + scalar / 0x40 % 0x40)
            + 0xE0
            + scalar / 0x1000
    }
}

/// Stores four bytes from the place `at` on.
#[inline(always)]
#[tactic(auto, using(crate::proofs::Ascii::put_front))]
pub(crate) fn store_four(dst: &mut [u8], at: usize, bytes: [u8; 4])
    requires { at + 4 ≤ length dst.old }
    ensures { (k : ℕ) → k ≤ 4 → take (at + k) dst.new ≡ take at dst.old ++ take k bytes }
{
    u8x4::from_array(bytes).copy_to_slice(&mut dst[at..]);
}
