//! Writes eight UTF-16 code units, none of them a surrogate, as UTF-8 by vectors.
//!
//! Lanes make four bytes of each code unit, or two if all are below U+0800, and a shuffle keeps those of its text.
// Functions that run for each vector are always inlined, because a call would pass the vectors through memory.
ghost use Rattle.std.specs.Prelude.{◌≡◌, ◌↔◌, ℕ, ◌+◌, ◌-◌, ◌<◌, ◌≤◌, ◌++◌, List, All, length, map, take, drop, get_or, replicate, true};
ghost use Rattle.{std.specs.List.range_with_len, legacy_text.specs.UnitBytes.{last_byte, front_bytes, lanes, pattern, places, utf8_bytes}};
ghost use Rattle.legacy_text.specs.UnitBytes.{short_lanes, short_pattern, AreShort};

use crate::unit_rows::{COUNTS, SHORT_WRITTEN, WRITTEN};
use std::simd::prelude::*;

/// Returns the last byte of each code unit's text.
#[inline(always)]
#[tactic(auto, using(crate::proofs::UnitLanes::vector_last))]
fn last_bytes(units: u16x8) -> u16x8
    ensures { result ≡ map last_byte units }
{
    let past = (units & u16x8::splat(0x3F)) + u16x8::splat(0x80);
    units.simd_lt(u16x8::splat(0x80)).select(units, past)
}

/// Returns the bytes before the last one of each code unit's text.
#[inline(always)]
#[tactic(auto, using(crate::proofs::UnitLanes::vector_front))]
fn bytes_before(units: u16x8) -> u16x8
    ensures { result ≡ map front_bytes units }
{
    let middle = (units << u16x8::splat(2)) & u16x8::splat(0x3F00);
    let mark = units
        .simd_lt(u16x8::splat(0x800))
        .select(u16x8::splat(0xC000), u16x8::splat(0x8000));
    (units >> u16x8::splat(12)) + u16x8::splat(0xE0) + middle + mark
}

/// Returns four bytes of each code unit: of the first four code units, and of the others.
#[inline(always)]
fn unit_lanes(units: u16x8) -> (u8x16, u8x16)
    ensures front { result.0 ≡ lanes (take 4 units) }
    ensures back { result.1 ≡ lanes (drop 4 units) }
{
    let (front, back) = last_bytes(units).interleave(bytes_before(units));
    (front.to_le_bytes(), back.to_le_bytes())
}

/// Returns the number of bytes of each code unit, in two bits, for each four code units.
#[inline(always)]
fn patterns(units: u16x8) -> (usize, usize)
    ensures front { result.0 ≡ pattern (take 4 units) }
    ensures back { result.1 ≡ pattern (drop 4 units) }
    ensures front_within { result.0 < 256 }
    ensures back_within { result.1 < 256 }
{
    let zero = u16x8::splat(0);
    let one = units
        .simd_lt(u16x8::splat(0x80))
        .select(u16x8::splat(0x00FF), zero);
    let two = units
        .simd_lt(u16x8::splat(0x800))
        .select(u16x8::splat(0xFF00), zero);
    let bits = (one + two)
        .to_le_bytes()
        .simd_ge(u8x16::splat(0x80))
        .to_bitmask();
    ((bits % 256) as usize, (bits / 256) as usize)
}

/// Returns a row of a table of places.
#[inline(always)]
pub fn row_of(rows: &[[u8; 16]; 256], pattern: usize) -> u8x16
    requires { pattern < 256 }
    ensures { (rule : ℕ → List ℕ) → rows.now ≡ map rule (range_with_len 0 256) → result ≡ rule pattern }
{
    u8x16::from_array(rows[pattern])
}

/// Stores a vector from the place `at` on.
#[inline(always)]
#[tactic(auto, using(crate::proofs::Ascii::put_front))]
pub(crate) fn store(dst: &mut [u8], at: usize, block: u8x16)
    requires { at + 16 ≤ length dst.old }
    ensures { (k : ℕ) → k ≤ 16 → take (at + k) dst.new ≡ take at dst.old ++ take k block }
{
    block.copy_to_slice(&mut dst[at..]);
}

/// Stores the text of four code units from the place `at` on, with other bytes after it.
///
/// Returns the place after the text.
#[inline(always)]
fn put_four(dst: &mut [u8], at: usize, lanes: u8x16, pattern: usize) -> usize
    requires room { at + 16 ≤ length dst.old }
    requires within { pattern < 256 }
    ensures most { result ≤ at + 12 }
    ensures written { take result dst.new ≡ take at dst.old ++ map (λ k. get_or lanes k 0) (places 0 4 pattern) }
{
    let row = row_of(&WRITTEN, pattern);
    store(dst, at, lanes.swizzle_dyn(row));
    at + usize::from(COUNTS[pattern])
}

/// Stores the text of eight code units from the place `at` on, with other bytes after it.
///
/// Returns the place after the text.
#[inline(always)]
pub(crate) fn put_eight_units(dst: &mut [u8], at: usize, units: u16x8) -> usize
    requires room { at + 32 ≤ length dst.old }
    ensures most { result ≤ at + 24 }
    ensures written { take result dst.new ≡ take at dst.old ++ utf8_bytes units }
{
    let (front, back) = unit_lanes(units);
    let (first, second) = patterns(units);
    let middle = put_four(dst, at, front, first);
    put_four(dst, middle, back, second)
}

/// Returns the first `count` of eight code units, and 0 in place of each of the others.
#[inline(always)]
#[tactic(auto, using(crate::proofs::UnitLanes::first_are))]
pub fn first_units(units: u16x8, count: usize) -> u16x8
    requires { count ≤ 8 }
    ensures { result ≡ take count units ++ replicate (8 - count) 0 }
{
    u16x8::from_array([0, 1, 2, 3, 4, 5, 6, 7])
        .simd_lt(u16x8::splat(count as u16))
        .select(units, u16x8::splat(0))
}

/// Returns two bytes of each code unit.
#[inline(always)]
#[tactic(auto, using(crate::proofs::UnitLanes::vector_short_lanes))]
fn short_unit_lanes(units: u16x8) -> u8x16
    ensures { result ≡ short_lanes units }
{
    let first = ((units >> u16x8::splat(6)) & u16x8::splat(0x1F)) + u16x8::splat(0xC0);
    let second = ((units & u16x8::splat(0x3F)) + u16x8::splat(0x80)) << u16x8::splat(8);
    units
        .simd_lt(u16x8::splat(0x80))
        .select(units, first + second)
        .to_le_bytes()
}

/// Returns which code units have one byte, as one bit for each.
#[inline(always)]
fn short_bits(units: u16x8) -> usize
    ensures bits { result ≡ short_pattern units }
    ensures within { result < 256 }
{
    units.simd_lt(u16x8::splat(0x80)).to_bitmask() as usize
}

/// Stores the text of eight code units below U+0800 from the place `at` on.
///
/// Other bytes may follow it. Returns the place after the text.
#[inline(always)]
pub(crate) fn put_short_units(dst: &mut [u8], at: usize, units: u16x8) -> usize
    requires room { at + 16 ≤ length dst.old }
    requires short { AreShort units }
    ensures most { result ≤ at + 16 }
    ensures written { take result dst.new ≡ take at dst.old ++ utf8_bytes units }
{
    let ones = short_bits(units);
    let row = row_of(&SHORT_WRITTEN, ones);
    store(dst, at, short_unit_lanes(units).swizzle_dyn(row));
    at + 16 - ones.count_ones() as usize
}

/// Checks whether each code unit is below the bound.
#[inline(always)]
pub fn are_all_below(units: u16x8, bound: u16) -> bool
    ensures { (result ≡ true) ↔ All (λ u. u < bound) units }
{
    units.simd_lt(u16x8::splat(bound)).all()
}
