//! Decodes blocks of x-user-defined: ASCII with single bytes past it, or eight bytes at a time.
// Functions that run for each block are always inlined. A call would pass vectors through memory, and
// keep the destination's place there.
ghost use Rattle.std.specs.Prelude.{◌≡◌, ◌<◌, ◌≤◌, ℕ, length, slice_index};
ghost use Rattle.{legacy_miscellaneous.specs.UserDefinedMachine.unit_of_byte, legacy_decoder_engine.specs.ReadAhead.ReadsAhead};
ghost use Rattle.legacy_base.specs.{Grammar.user_defined, States.new_state};

use legacy_base::Destination;
use legacy_decoder_engine::read_ahead::{BlockReader, SLACK, read_blocks};
use legacy_text::past_ascii::has_past_ascii;
use std::simd::prelude::*;

/// Returns the code unit of any byte: ASCII for ASCII, and a private-use scalar for any other.
// Copies bit 7 into all higher bits and clears bit 11: the compiler makes vectors of it, without a branch.
#[inline(always)]
#[tactic(auto, using(crate::proofs::UserDefinedAhead::bits_are))]
fn unit_of(byte: u8) -> u16
    ensures { result ≡ unit_of_byte byte }
{
    (u16::from(byte) ^ 0x80).wrapping_sub(0x80) & 0xF7FF
}

/// Returns the scalar of any byte.
#[inline(always)]
#[tactic(auto, using(crate::proofs::UserDefinedAhead::unit_scalar))]
pub fn scalar_of(byte: u8) -> char
    ensures { result ≡ unit_of_byte byte }
{
    unsafe { char::from_u32_unchecked(u32::from(unit_of(byte))) }
}

/// Returns the code units of the first eight bytes.
#[inline(always)]
fn units_of(src: &[u8]) -> [u16; 8]
    requires { 8 ≤ length src.now }
    ensures count { length result ≡ 8 }
    ensures same { (k : ℕ) → k < 8 → slice_index result k ≡ unit_of_byte (slice_index src.now k) }
{
    let mut units = [0u16; 8];
    let mut at = 0;
    while at < 8 {
        units[at] = unit_of(src[at]);
        at += 1;
    }
    units
}

/// Decodes eight bytes at a time, and leaves three units free. Returns the number of bytes read.
///
/// With `is_mixed` it stops before eight bytes of ASCII.
#[inline(always)]
fn read_eights<T: Destination>(src: &[u8], dst: &mut T, is_mixed: bool) -> usize
    ensures { ReadsAhead T.Destination (new_state user_defined) src.now result dst.old dst.new }
{
    let mut at = 0;
    while src.len() - at >= 8 && dst.free() >= 32 + SLACK {
        let part = &src[at..];
        if is_mixed && !has_past_ascii(part) {
            return at;
        }
        dst.put_eight(u16x8::from_array(units_of(part)));
        at += 8;
    }
    at
}

/// Decodes bytes one by one, and leaves three units free. Returns the number of bytes read.
#[inline(always)]
pub fn read_few<T: Destination>(src: &[u8], dst: &mut T) -> usize
    ensures { ReadsAhead T.Destination (new_state user_defined) src.now result dst.old dst.new }
{
    let most = src
        .len()
        .min(dst.free().saturating_sub(SLACK) / T::narrow());
    let mut at = 0;
    while at < most {
        dst.put(scalar_of(src[at]));
        at += 1;
    }
    at
}

/// Any text but the last 64 bytes.
#[derive(Drop)]
struct Mixed {}

impl BlockReader for Mixed {
    ghost grammar = { λ _. user_defined };

    /// Reads the ASCII of the first 64 bytes, and the byte after it or eights if the next one is past ASCII too.
    #[inline(always)]
    fn read_block<T: Destination>(&self, src: &[u8], dst: &mut T) -> (usize, bool) {
        if src.len() <= 64 || dst.free() < 64 + 3 + SLACK {
            return (0, false);
        }
        let count = dst.put_front(src);
        if count == 64 {
            return (count, true);
        }
        if src[count + 1] < 0x80 {
            dst.put(scalar_of(src[count]));
            return (count + 1, true);
        }
        let read = read_eights(&src[count..], dst, true);
        (count + read, read > 0)
    }
}

/// Reads 64 bytes if all of them are ASCII. Returns the number of bytes read.
#[inline(always)]
fn read_ascii_block<T: Destination>(src: &[u8], dst: &mut T) -> usize
    ensures { ReadsAhead T.Destination (new_state user_defined) src.now result dst.old dst.new }
{
    if src.len() < 64 || dst.free() < 64 + SLACK {
        return 0;
    }
    let past = u8x64::from_slice(src).simd_ge(u8x64::splat(0x80));
    if past.to_bitmask() != 0 {
        return 0;
    }
    dst.put_front(src)
}

/// Decodes text, and stops if few code units are free. Returns the number of bytes read.
#[inline(always)]
pub fn read_text<T: Destination>(src: &[u8], dst: &mut T) -> usize
    ensures { ReadsAhead T.Destination (new_state user_defined) src.now result dst.old dst.new }
{
    let at = read_blocks(&Mixed {}, src, dst);
    let ascii = at + read_ascii_block(&src[at..], dst);
    let eights = ascii + read_eights(&src[ascii..], dst, false);
    eights + read_few(&src[eights..], dst)
}
