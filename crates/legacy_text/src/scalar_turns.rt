//! Reads ten scalars of UTF-8 at once, without a branch between them.
//!
//! Vectors make the scalar that may begin at each of 32 places. Bits say where scalars begin.
// In text with spaces, no pattern predicts where a one-byte scalar comes, so the code does not branch on it.
// Functions that run for each turn are always inlined, because a call would pass vectors through memory.
ghost use Rattle.std.specs.Prelude.{◌≡◌, ◌↔◌, ℕ, ◌+◌, ◌*◌, ◌%◌, ◌<◌, ◌≤◌, length, drop, true, slice_index, MatchOption, ⊤};
ghost use Rattle.std.specs.{Int.bit_at, Str.is_utf8};
ghost use Rattle.legacy_text.specs.ScalarTurns.{IsStart, IsUnitOf, IsUnitAt, ReadsUnits};

use std::simd::prelude::*;

/// Returns the low and the high byte of a scalar of one or three bytes, or of a surrogate.
///
/// The arguments are the bytes of the scalar, the first one with its highest bit inverted. For other
/// bytes the result is a surrogate.
#[inline(always)]
fn unit_parts(turned: u8, second: u8, third: u8) -> (u8, u8)
    ensures { IsUnitOf ((turned + 128) % 256) second third (result.0 + 256 * result.1) }
{
    let low = second % 4 * 64 + third % 64;
    let high = turned % 16 * 16 + second / 4 % 16;
    let marked = if turned / 16 == 6 { high } else { 0xD8 };
    if turned >= 0x80 {
        (turned - 0x80, 0)
    } else {
        (low, marked)
    }
}

/// Returns sixteen bytes from a place on, each with its highest bit inverted.
// This is a vector operation: the compiler makes single loads of overlapping bytes that are loaded unchanged.
#[inline(always)]
fn turned_at(bytes: &[u8], place: usize) -> [u8; 16]
    requires { place + 16 ≤ length bytes.now }
    ensures { (k : ℕ) → k < 16 → slice_index result k ≡ (slice_index bytes.now (place + k) + 128) % 256 }
{
    (u8x16::from_slice(&bytes[place..]) + u8x16::splat(0x80)).to_array()
}

/// Returns the low six bits of sixteen bytes from a place on, which continue a scalar.
#[inline(always)]
fn tails_at(bytes: &[u8], place: usize) -> [u8; 16]
    requires { place + 16 ≤ length bytes.now }
    ensures { (k : ℕ) → k < 16 → slice_index result k ≡ slice_index bytes.now (place + k) % 64 }
{
    (u8x16::from_slice(&bytes[place..]) & u8x16::splat(0x3F)).to_array()
}

/// Returns the low and the high bytes of the code units of sixteen places.
#[inline(always)]
fn parts_at(bytes: &[u8], place: usize) -> ([u8; 16], [u8; 16])
    requires { place + 18 ≤ length bytes.now }
    ensures low { length result.0 ≡ 16 }
    ensures high { length result.1 ≡ 16 }
    ensures units { (k : ℕ) → k < 16 → IsUnitAt bytes.now (place + k)
        (slice_index result.0 k + 256 * slice_index result.1 k) }
{
    let firsts = turned_at(bytes, place);
    let seconds = tails_at(bytes, place + 1);
    let thirds = tails_at(bytes, place + 2);
    let mut lows = [0u8; 16];
    let mut highs = [0u8; 16];
    let mut k = 0;
    while k < 16 {
        let (low, high) = unit_parts(firsts[k], seconds[k], thirds[k]);
        lows[k] = low;
        highs[k] = high;
        k += 1;
    }
    (lows, highs)
}

/// Joins sixteen low bytes and sixteen high bytes into code units.
#[inline(always)]
fn joined(lows: u8x16, highs: u8x16) -> (u16x8, u16x8)
    ensures front { length result.0 ≡ 8 }
    ensures back { length result.1 ≡ 8 }
    ensures first { (k : ℕ) → k < 8 → slice_index result.0 k
        ≡ slice_index lows k + 256 * slice_index highs k }
    ensures others { (k : ℕ) → k < 8 → slice_index result.1 k
        ≡ slice_index lows (8 + k) + 256 * slice_index highs (8 + k) }
{
    let (front, back) = lows.interleave(highs);
    (u16x8::from_le_bytes(front), u16x8::from_le_bytes(back))
}

/// Puts the code units of sixteen places into a list, from the place `at` on.
#[inline(always)]
#[tactic(auto, using(crate::proofs::ScalarTurns::store_steps))]
fn put_units(bytes: &[u8], place: usize, all: &mut [u16], at: usize)
    requires read { place + 18 ≤ length bytes.now }
    requires room { at + 16 ≤ length all.old }
    ensures before { (k : ℕ) → k < at → slice_index all.new k ≡ slice_index all.old k }
    ensures units { (k : ℕ) → k < 16 → IsUnitAt bytes.now (place + k) (slice_index all.new (at + k)) }
{
    let (lows, highs) = parts_at(bytes, place);
    let (front, back) = joined(u8x16::from_array(lows), u8x16::from_array(highs));
    front.copy_to_slice(&mut all[at..]);
    back.copy_to_slice(&mut all[at + 8..]);
}

/// Returns the places among the next 32 at which scalars begin, as bits.
#[inline(always)]
#[tactic(auto, using(crate::proofs::ScalarTurns::starts_here))]
fn starts_at(bytes: &[u8], place: usize) -> u32
    requires { place + 32 ≤ length bytes.now }
    ensures { (k : ℕ) → k < 32 → (bit_at result k ≡ 1) ↔ IsStart (slice_index bytes.now (place + k)) }
{
    let block = u8x32::from_slice(&bytes[place..]);
    let past = block.simd_ge(u8x32::splat(0x80)).to_bitmask() as u32;
    let leads = block.simd_ge(u8x32::splat(0xC0)).to_bitmask() as u32;
    !past | leads
}

/// Returns the next ten scalars of a text as code units, and the place after them.
///
/// A scalar of two or four bytes is replaced with a surrogate. Returns `None` if fewer than 34
/// bytes are left, or if the next 32 do not show where the ten scalars end.
#[inline(always)]
pub(crate) fn ten_scalars(bytes: &[u8], start: usize) -> Option<([u16; 10], usize)>
    requires place { start ≤ length bytes.now }
    requires text { is_utf8 (drop start bytes.now) ≡ true }
    ensures { MatchOption result ⊤ (λ read. ReadsUnits bytes.now start read.0 read.1) }
{
    if bytes.len() - start < 34 {
        return None;
    }
    // The code units of 32 places, and one more entry without meaning.
    let mut all = [0u16; 33];
    put_units(bytes, start, &mut all, 0);
    put_units(bytes, start + 16, &mut all, 16);
    let mut bits = starts_at(bytes, start);
    let mut units = [0u16; 10];
    let mut k = 0;
    while k < 10 {
        units[k] = all[bits.trailing_zeros() as usize];
        // The lowest bit that is set is cleared.
        bits &= bits.wrapping_sub(1);
        k += 1;
    }
    if bits == 0 {
        return None;
    }
    Some((units, start + bits.trailing_zeros() as usize))
}
