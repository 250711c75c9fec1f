//! The last ASCII of a text, fewer code units than a block has, by two blocks that overlap.
// Functions that run for each block are always inlined, because a call would pass the vector through memory.
ghost use Rattle.std.specs.Prelude.{◌≡◌, ℕ, List, ◌+◌, ◌*◌, ◌<◌, ◌≤◌, ◌++◌, length, take, IsAscii};

use crate::blocks::{store_eight, store_front, store_narrow};
use std::simd::prelude::*;

/// Stores the first four bytes from the place `at` on, and returns the number of ASCII ones at their front.
#[inline(always)]
fn store_four(bytes: &[u8], dst: &mut [u8], at: usize) -> usize
    requires block { 4 ≤ length bytes.now }
    requires room { at + 4 ≤ length dst.old }
    ensures count { result ≤ 4 }
    ensures ascii { IsAscii (take result bytes.now) }
    ensures stored { take (at + result) dst.new ≡ take at dst.old ++ take result bytes.now }
{
    let block = u8x4::from_slice(bytes);
    block.copy_to_slice(&mut dst[at..]);
    let past = block.simd_ge(u8x4::splat(0x80)).to_bitmask();
    if past == 0 {
        return 4;
    }
    (past.trailing_zeros() as usize).min(3)
}

/// Copies ASCII bytes from the front of eight to sixteen bytes to the place `at` on, and returns their number.
#[inline(always)]
#[tactic(auto, using(crate::proofs::AsciiTail::tail_steps))]
fn copy_eights(bytes: &[u8], dst: &mut [u8], at: usize, end: usize) -> usize
    requires least { 8 ≤ end }
    requires most { end ≤ 16 }
    requires read { end ≤ length bytes.now }
    requires room { at + end ≤ length dst.old }
    ensures count { result ≤ end }
    ensures ascii { IsAscii (take result bytes.now) }
    ensures stored { take (at + result) dst.new ≡ take at dst.old ++ take result bytes.now }
{
    let count = store_eight(bytes, dst, at);
    if count < 8 {
        return count;
    }
    let back = end - 8;
    back + store_eight(&bytes[back..], dst, at + back)
}

/// Copies ASCII bytes from the front of four to eight bytes to the place `at` on, and returns their number.
#[inline(always)]
#[tactic(auto, using(crate::proofs::AsciiTail::tail_steps))]
fn copy_fours(bytes: &[u8], dst: &mut [u8], at: usize, end: usize) -> usize
    requires least { 4 ≤ end }
    requires most { end ≤ 8 }
    requires read { end ≤ length bytes.now }
    requires room { at + end ≤ length dst.old }
    ensures count { result ≤ end }
    ensures ascii { IsAscii (take result bytes.now) }
    ensures stored { take (at + result) dst.new ≡ take at dst.old ++ take result bytes.now }
{
    let count = store_four(bytes, dst, at);
    if count < 4 {
        return count;
    }
    let back = end - 4;
    back + store_four(&bytes[back..], dst, at + back)
}

/// Copies ASCII bytes to the place `at` on, the first `copied` of which were copied before. Returns the number of all.
// The last block begins before the bytes that are left, and stores some bytes once more.
#[inline(always)]
#[tactic(auto, using(crate::proofs::AsciiTail::tail_steps))]
pub(crate) fn copy_last_bytes(bytes: &[u8], dst: &mut [u8], at: usize, copied: usize) -> usize
    requires read { copied ≤ length bytes.now }
    requires fits { at + copied ≤ length dst.old }
    requires ascii { IsAscii (take copied bytes.now) }
    ensures read { result ≤ length bytes.now }
    ensures fits { at + result ≤ length dst.old }
    ensures ascii { IsAscii (take result bytes.now) }
    ensures stored { (old : List ℕ) → length old ≡ length dst.old →
        take (at + copied) dst.old ≡ take at old ++ take copied bytes.now →
        take (at + result) dst.new ≡ take at old ++ take result bytes.now }
{
    let end = bytes.len().min(dst.len() - at);
    if end == copied {
        return copied;
    }
    if end >= 16 {
        let back = (end - 16).min(copied);
        return back + store_front(&bytes[back..], dst, at + back, 16);
    }
    if copied > 0 || end < 4 {
        return copied;
    }
    if end >= 8 {
        copy_eights(bytes, dst, at, end)
    } else {
        copy_fours(bytes, dst, at, end)
    }
}

/// Stores eight code units as bytes from the place `at` on, and returns the number of ASCII ones at their front.
// A byte past ASCII stands for any code unit that is not ASCII.
#[inline(always)]
fn store_eight_units(units: &[u16], dst: &mut [u8], at: usize) -> usize
    requires block { 8 ≤ length units.now }
    requires room { at + 8 ≤ length dst.old }
    ensures count { result ≤ 8 }
    ensures ascii { IsAscii (take result units.now) }
    ensures stored { take (at + result) dst.new ≡ take at dst.old ++ take result units.now }
{
    let mut narrow = [0u8; 8];
    let mut k = 0;
    while k < 8 {
        narrow[k] = units[k].min(0xFF) as u8;
        k += 1;
    }
    store_eight(&narrow, dst, at)
}

/// Copies ASCII code units from the front of eight to sixteen as bytes to the place `at` on, and returns their number.
#[inline(always)]
#[tactic(auto, using(crate::proofs::AsciiTail::tail_steps))]
fn copy_eight_units(units: &[u16], dst: &mut [u8], at: usize, end: usize) -> usize
    requires least { 8 ≤ end }
    requires most { end ≤ 16 }
    requires read { end ≤ length units.now }
    requires room { at + end ≤ length dst.old }
    ensures count { result ≤ end }
    ensures ascii { IsAscii (take result units.now) }
    ensures stored { take (at + result) dst.new ≡ take at dst.old ++ take result units.now }
{
    let count = store_eight_units(units, dst, at);
    if count < 8 {
        return count;
    }
    let back = end - 8;
    back + store_eight_units(&units[back..], dst, at + back)
}

/// Copies ASCII code units as bytes, as `copy_last_bytes` copies bytes.
#[inline(always)]
#[tactic(auto, using(crate::proofs::AsciiTail::tail_steps))]
pub(crate) fn copy_last_units(units: &[u16], dst: &mut [u8], at: usize, copied: usize) -> usize
    requires read { copied ≤ length units.now }
    requires fits { at + copied ≤ length dst.old }
    requires ascii { IsAscii (take copied units.now) }
    ensures read { result ≤ length units.now }
    ensures fits { at + result ≤ length dst.old }
    ensures ascii { IsAscii (take result units.now) }
    ensures stored { (old : List ℕ) → length old ≡ length dst.old →
        take (at + copied) dst.old ≡ take at old ++ take copied units.now →
        take (at + result) dst.new ≡ take at old ++ take result units.now }
{
    let end = units.len().min(dst.len() - at);
    if end == copied {
        return copied;
    }
    if end >= 16 {
        let back = (end - 16).min(copied);
        return back + store_narrow(&units[back..], dst, at + back);
    }
    if copied > 0 || end < 8 {
        return copied;
    }
    copy_eight_units(units, dst, at, end)
}
