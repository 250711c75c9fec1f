//! Blocks of ASCII: the length of a block's ASCII front, and copies that stop after it.
// Functions that run for each block are always inlined, because a call would pass the vector through memory.
ghost use Rattle.std.specs.Prelude.{◌≡◌, ℕ, ◌+◌, ◌-◌, ◌<◌, ◌≤◌, ◌++◌, length, take, slice_index, IsAscii};

use crate::ascii_tail::{copy_last_bytes, copy_last_units};
use crate::eight_units::store;
use crate::past_ascii::past_ascii;
use std::simd::prelude::*;

/// Returns the number of ASCII bytes at the front of a block.
#[inline(always)]
pub(crate) fn ascii_count(block: u8x16) -> usize
    ensures most { result ≤ 16 }
    ensures ascii { IsAscii (take result block) }
    ensures stops { result < 16 → 128 ≤ slice_index block result }
{
    let past = block.simd_ge(u8x16::splat(0x80)).to_bitmask();
    if past == 0 {
        return 16;
    }
    // `min` changes nothing, but shows the compiler that the count is below 16. Without it the loop
    // over blocks would wait for the count of each.
    (past.trailing_zeros() as usize).min(15)
}

/// Returns the number of ASCII bytes at the front of the first 64 bytes.
// Two halves are joined first: their bitmask takes a quarter of the work of that of 64 bytes.
#[inline(always)]
#[tactic(auto, using(crate::proofs::Ascii::wide_front))]
pub(crate) fn wide_ascii_count(bytes: &[u8]) -> usize
    requires { 64 ≤ length bytes.now }
    ensures most { result ≤ 64 }
    ensures ascii { IsAscii (take result bytes.now) }
{
    let joined = u8x32::from_slice(bytes) | u8x32::from_slice(&bytes[32..]);
    let any = joined.simd_ge(u8x32::splat(0x80)).to_bitmask();
    if any == 0 {
        return 64;
    }
    let past = past_ascii(u8x64::from_slice(bytes));
    (past.trailing_zeros() as usize).min(63)
}

/// Stores the first 64 bytes from the place `at` on.
#[inline(always)]
pub(crate) fn store_wide(dst: &mut [u8], at: usize, bytes: &[u8])
    requires block { 64 ≤ length bytes.now }
    requires room { at + 64 ≤ length dst.old }
    ensures { (k : ℕ) → k ≤ 64 → take (at + k) dst.new ≡ take at dst.old ++ take k bytes.now }
{
    u8x64::from_slice(bytes).copy_to_slice(&mut dst[at..]);
}

/// Returns the number of ASCII bytes at the front of eight bytes.
#[inline(always)]
fn eight_ascii_count(block: u8x8) -> usize
    ensures most { result ≤ 8 }
    ensures ascii { IsAscii (take result block) }
{
    let past = block.simd_ge(u8x8::splat(0x80)).to_bitmask();
    if past == 0 {
        return 8;
    }
    (past.trailing_zeros() as usize).min(7)
}

/// Stores the first eight bytes from the place `at` on, and returns the number of ASCII bytes at their front.
#[inline(always)]
pub(crate) fn store_eight(bytes: &[u8], dst: &mut [u8], at: usize) -> usize
    requires block { 8 ≤ length bytes.now }
    requires room { at + 8 ≤ length dst.old }
    ensures count { result ≤ 8 }
    ensures ascii { IsAscii (take result bytes.now) }
    ensures stored { take (at + result) dst.new ≡ take at dst.old ++ take result bytes.now }
{
    let block = u8x8::from_slice(bytes);
    block.copy_to_slice(&mut dst[at..]);
    eight_ascii_count(block)
}

/// Stores a block of the front of these bytes from the place `at` on: 64, 16 or 8 of them, by the width.
///
/// Returns the number of ASCII bytes at the block's front.
#[inline(always)]
pub(crate) fn store_front(bytes: &[u8], dst: &mut [u8], at: usize, width: usize) -> usize
    requires least { 8 ≤ width }
    requires block { width ≤ length bytes.now }
    requires room { at + width ≤ length dst.old }
    ensures count { result ≤ width }
    ensures ascii { IsAscii (take result bytes.now) }
    ensures stored { take (at + result) dst.new ≡ take at dst.old ++ take result bytes.now }
{
    if width >= 64 {
        store_wide(dst, at, bytes);
        return wide_ascii_count(bytes);
    }
    if width < 16 {
        return store_eight(bytes, dst, at);
    }
    let block = u8x16::from_slice(bytes);
    store(dst, at, block);
    ascii_count(block)
}

/// Copies ASCII bytes from the front to the place `at` on, by blocks of one width: 64, 16 or 8.
///
/// The last block reaches back over bytes that are copied already. Returns the number of bytes copied, and whether all
/// blocks were ASCII. It copies none if fewer bytes than the width are there, or fit.
#[inline(always)]
pub(crate) fn copy_blocks(bytes: &[u8], dst: &mut [u8], at: usize, width: usize) -> (usize, bool)
    requires within { at ≤ length dst.old }
    requires least { 8 ≤ width }
    ensures read { result.0 ≤ length bytes.now }
    ensures ascii { IsAscii (take result.0 bytes.now) }
    ensures fits { at + result.0 ≤ length dst.old }
    ensures stored { take (at + result.0) dst.new ≡ take at dst.old ++ take result.0 bytes.now }
{
    let most = bytes.len().min(dst.len() - at);
    if most < width {
        return (0, true);
    }
    let mut copied = 0;
    while copied < most {
        let from = copied.min(most - width);
        let count = store_front(&bytes[from..], dst, at + from, width);
        copied = from + count;
        if count < width {
            return (copied, false);
        }
    }
    (copied, true)
}

/// Copies ASCII bytes from the front to the place `at` on, by short blocks, and returns their number.
#[inline(always)]
pub(crate) fn copy_short_blocks(bytes: &[u8], dst: &mut [u8], at: usize) -> usize
    requires { at ≤ length dst.old }
    ensures read { result ≤ length bytes.now }
    ensures ascii { IsAscii (take result bytes.now) }
    ensures fits { at + result ≤ length dst.old }
    ensures stored { take (at + result) dst.new ≡ take at dst.old ++ take result bytes.now }
{
    if bytes.len() < 16 {
        return copy_blocks(bytes, dst, at, 8).0;
    }
    copy_blocks(bytes, dst, at, 16).0
}

/// Copies ASCII bytes from the front to the place `at` on, and returns their number.
// Wide blocks come first: in text with a letter past ASCII in most lines, it is easier to predict whether
// the next 64 bytes have one than whether the next 16 have.
#[inline]
#[tactic(auto, using(crate::proofs::Ascii::copy_steps))]
pub(crate) fn copy_ascii_bytes(bytes: &[u8], dst: &mut [u8], at: usize) -> usize
    requires { at ≤ length dst.old }
    ensures read { result ≤ length bytes.now }
    ensures ascii { IsAscii (take result bytes.now) }
    ensures fits { at + result ≤ length dst.old }
    ensures stored { take (at + result) dst.new ≡ take at dst.old ++ take result bytes.now }
{
    let (front, are_ascii) = copy_blocks(bytes, dst, at, 64);
    if !are_ascii {
        return front;
    }
    let (rest, are_ascii) = copy_blocks(&bytes[front..], dst, at + front, 16);
    if !are_ascii {
        return front + rest;
    }
    copy_last_bytes(bytes, dst, at, front + rest)
}

/// Stores sixteen code units as bytes from the place `at` on, and returns the number of ASCII ones at their front.
// A byte past ASCII stands for any code unit that is not ASCII.
#[inline(always)]
#[tactic(auto, using(crate::proofs::Ascii::units_front))]
pub(crate) fn store_narrow(units: &[u16], dst: &mut [u8], at: usize) -> usize
    requires block { 16 ≤ length units.now }
    requires room { at + 16 ≤ length dst.old }
    ensures count { result ≤ 16 }
    ensures ascii { IsAscii (take result units.now) }
    ensures stored { take (at + result) dst.new ≡ take at dst.old ++ take result units.now }
{
    let mut narrow = [0u8; 16];
    let mut k = 0;
    while k < 16 {
        narrow[k] = units[k].min(0xFF) as u8;
        k += 1;
    }
    let block = u8x16::from_array(narrow);
    store(dst, at, block);
    ascii_count(block)
}

/// Copies ASCII code units from the front as bytes to the place `at` on, by blocks of sixteen.
///
/// Returns their number, and whether all blocks were ASCII.
#[inline(always)]
#[tactic(auto, using(crate::proofs::Ascii::copy_steps))]
fn copy_unit_blocks(units: &[u16], dst: &mut [u8], at: usize) -> (usize, bool)
    requires within { at ≤ length dst.old }
    ensures read { result.0 ≤ length units.now }
    ensures ascii { IsAscii (take result.0 units.now) }
    ensures fits { at + result.0 ≤ length dst.old }
    ensures stored { take (at + result.0) dst.new ≡ take at dst.old ++ take result.0 units.now }
{
    let most = dst.len() - at;
    let mut copied = 0;
    while units.len() - copied >= 16 && most - copied >= 16 {
        let count = store_narrow(&units[copied..], dst, at + copied);
        copied += count;
        if count < 16 {
            return (copied, false);
        }
    }
    (copied, true)
}

/// Copies ASCII code units from the front as bytes to the place `at` on, and returns their number.
#[inline]
pub(crate) fn copy_ascii_units(units: &[u16], dst: &mut [u8], at: usize) -> usize
    requires { at ≤ length dst.old }
    ensures read { result ≤ length units.now }
    ensures ascii { IsAscii (take result units.now) }
    ensures fits { at + result ≤ length dst.old }
    ensures stored { take (at + result) dst.new ≡ take at dst.old ++ take result units.now }
{
    let (copied, are_ascii) = copy_unit_blocks(units, dst, at);
    if !are_ascii {
        return copied;
    }
    copy_last_units(units, dst, at, copied)
}

/// Stores the first sixteen bytes as code units from the place `at` on, and returns the number of ASCII bytes at their front.
#[inline(always)]
fn widen_sixteen(bytes: &[u8], dst: &mut [u16], at: usize) -> usize
    requires block { 16 ≤ length bytes.now }
    requires room { at + 16 ≤ length dst.old }
    ensures count { result ≤ 16 }
    ensures ascii { IsAscii (take result bytes.now) }
    ensures stored { take (at + result) dst.new ≡ take at dst.old ++ take result bytes.now }
{
    let block = u8x16::from_slice(bytes);
    block.cast::<u16>().copy_to_slice(&mut dst[at..]);
    ascii_count(block)
}

/// Stores the first eight bytes as code units from the place `at` on, and returns the number of ASCII bytes at their front.
#[inline(always)]
fn widen_eight(bytes: &[u8], dst: &mut [u16], at: usize) -> usize
    requires block { 8 ≤ length bytes.now }
    requires room { at + 8 ≤ length dst.old }
    ensures count { result ≤ 8 }
    ensures ascii { IsAscii (take result bytes.now) }
    ensures stored { take (at + result) dst.new ≡ take at dst.old ++ take result bytes.now }
{
    let block = u8x8::from_slice(bytes);
    block.cast::<u16>().copy_to_slice(&mut dst[at..]);
    eight_ascii_count(block)
}

/// Stores 16 or 8 bytes of the front as code units, by the width, and returns the number of ASCII bytes at their front.
#[inline(always)]
fn widen_front(bytes: &[u8], dst: &mut [u16], at: usize, width: usize) -> usize
    requires least { 8 ≤ width }
    requires block { width ≤ length bytes.now }
    requires room { at + width ≤ length dst.old }
    ensures count { result ≤ width }
    ensures ascii { IsAscii (take result bytes.now) }
    ensures stored { take (at + result) dst.new ≡ take at dst.old ++ take result bytes.now }
{
    if width < 16 {
        return widen_eight(bytes, dst, at);
    }
    widen_sixteen(bytes, dst, at)
}

/// Copies ASCII bytes from the front as code units to the place `at` on, by blocks of 16 or 8, and returns their number.
///
/// The last block reaches back over bytes that are copied already. It copies none if fewer than `width` are there, or fit.
#[inline(always)]
pub(crate) fn widen_blocks(bytes: &[u8], dst: &mut [u16], at: usize, width: usize) -> usize
    requires within { at ≤ length dst.old }
    requires least { 8 ≤ width }
    requires most { width ≤ 16 }
    ensures read { result ≤ length bytes.now }
    ensures ascii { IsAscii (take result bytes.now) }
    ensures fits { at + result ≤ length dst.old }
    ensures stored { take (at + result) dst.new ≡ take at dst.old ++ take result bytes.now }
{
    let most = bytes.len().min(dst.len() - at);
    if most < width {
        return 0;
    }
    let mut copied = 0;
    while copied < most {
        let from = copied.min(most - width);
        let count = widen_front(&bytes[from..], dst, at + from, width);
        copied = from + count;
        if count < width {
            return copied;
        }
    }
    copied
}

/// Copies ASCII bytes from the front as code units to the place `at` on, by short blocks, and returns their number.
#[inline(always)]
pub(crate) fn widen_short_blocks(bytes: &[u8], dst: &mut [u16], at: usize) -> usize
    requires { at ≤ length dst.old }
    ensures read { result ≤ length bytes.now }
    ensures ascii { IsAscii (take result bytes.now) }
    ensures fits { at + result ≤ length dst.old }
    ensures stored { take (at + result) dst.new ≡ take at dst.old ++ take result bytes.now }
{
    if bytes.len() < 16 {
        return widen_blocks(bytes, dst, at, 8);
    }
    widen_blocks(bytes, dst, at, 16)
}
