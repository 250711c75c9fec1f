//! Encodes scalars of one and two bytes of UTF-8 as one byte each, eight at a time.
//!
//! There is no branch between the scalars.
// In text whose letters have two bytes, no pattern predicts where a one-byte scalar comes, so the code does not branch
// on it.
ghost use Rattle.std.specs.Prelude.{◌≡◌, ◌+◌, ◌<◌, ◌≤◌, length, take, drop, true, slice_index, MatchOption, ⊤};
ghost use Rattle.{std.specs.Str.is_utf8, legacy_text.specs.ShortScalars.{ReadsScalar, WritesScalars}};

use crate::unit_codes::UnitCodes;

/// Returns the scalar at a place and the number of its bytes, if it has one or two.
///
/// If the scalar is longer or does not begin at the place, the result has no meaning.
// Both bytes are loaded at once. Otherwise the compiler puts a branch before the second load.
#[inline(always)]
fn short_scalar(bytes: &[u8], place: usize) -> (u16, usize)
    requires { place + 2 ≤ length bytes.now }
    ensures scalar { is_utf8 (drop place bytes.now) ≡ true → slice_index bytes.now place < 0xE0 →
        ReadsScalar bytes.now place result.0 (place + result.1) }
    ensures some { 1 ≤ result.1 }
    ensures few { result.1 ≤ 2 }
{
    let both = u16::from_le_bytes([bytes[place], bytes[place + 1]]);
    let first = both % 0x100;
    let pair = (first * 64 + both / 0x100).wrapping_sub(0x3080);
    let scalar = if first < 0x80 { first } else { pair };
    (scalar, 1 + usize::from(first / 0x80))
}

/// Writes one byte for each of eight scalars of at most two bytes, from the place `at` on.
///
/// Returns the place after the scalars, or `None` if one of them has no such byte or is longer.
#[inline(always)]
fn put_turn<C: UnitCodes>(
    codes: &C,
    bytes: &[u8],
    start: usize,
    dst: &mut [u8],
    at: usize,
) -> Option<usize>
    requires text { is_utf8 (drop start bytes.now) ≡ true }
    requires read { start + 16 ≤ length bytes.now }
    requires room { at + 8 ≤ length dst.old }
    ensures before { take at dst.new ≡ take at dst.old }
    ensures turn { MatchOption result ⊤ (λ past. WritesScalars (C.gives codes.now) bytes.now start 8
        past (take at dst.old) (take (at + 8) dst.new)) }
{
    let mut place = start;
    let mut is_known = true;
    let mut k = 0;
    while k < 8 {
        let is_short = bytes[place] < 0xE0;
        let (scalar, count) = short_scalar(bytes, place);
        let (byte, has_byte) = codes.byte_of(scalar);
        is_known = is_known & is_short & has_byte;
        dst[at + k] = byte;
        place += count;
        k += 1;
    }
    if is_known { Some(place) } else { None }
}

/// Writes one byte for each scalar of at most two bytes, from the places `start` and `at` on.
///
/// It works in turns of eight, as long as each scalar has a byte. A turn of ASCII is the last one.
/// Returns the number of scalars, and the place after them.
#[inline]
pub(crate) fn copy_short_scalars<C: UnitCodes>(
    codes: &C,
    bytes: &[u8],
    start: usize,
    dst: &mut [u8],
    at: usize,
) -> (usize, usize)
    requires text { is_utf8 (drop start bytes.now) ≡ true }
    requires place { start ≤ length bytes.now }
    requires room { at ≤ length dst.old }
    ensures fits { at + result.0 ≤ length dst.old }
    ensures writes { WritesScalars (C.gives codes.now) bytes.now start result.0 result.1
        (take at dst.old) (take (at + result.0) dst.new) }
{
    let mut place = start;
    let mut copied = 0;
    while bytes.len() - place >= 16 && dst.len() - at - copied >= 8 {
        let Some(past) = put_turn(codes, bytes, place, dst, at + copied) else {
            return (copied, place);
        };
        let is_ascii = past - place == 8;
        copied += 8;
        place = past;
        if is_ascii {
            return (copied, place);
        }
    }
    (copied, place)
}
