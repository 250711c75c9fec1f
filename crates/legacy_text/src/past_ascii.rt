//! Which bytes of a vector are past ASCII.
// The functions are always inlined: a call would pass the vector through memory.
ghost use Rattle.std.specs.Prelude.{◌≡◌, ◌↔◌, ℕ, ◌+◌, ◌<◌, ◌≤◌, List, length, get_or, false};
ghost use Rattle.legacy_text.specs.PastAscii.{ArePast, ArePastFrom};

use std::simd::prelude::*;

/// Checks whether one of the first eight bytes is past ASCII.
#[inline(always)]
pub fn has_past_ascii(src: &[u8]) -> bool
    requires { 8 ≤ length src.now }
    ensures { result ≡ false ↔ ((k : ℕ) → k < 8 → get_or src.now k 0 < 0x80) }
{
    let past = u8x8::from_slice(src).simd_ge(u8x8::splat(0x80));
    past.to_bitmask() != 0
}

/// Returns the bits of the bytes past ASCII.
#[inline(always)]
pub fn past_ascii(block: u8x64) -> u64
    ensures { ArePast result block }
{
    block.simd_ge(u8x64::splat(0x80)).to_bitmask()
}

/// Returns the number of ASCII bytes at the front, given the bits of those past ASCII from there on.
///
/// They are the bytes of a block from any place on. The number is 64 if no bit is set.
#[inline(always)]
#[tactic(auto, using(crate::proofs::PastAscii::ascii_before, crate::proofs::PastAscii::past_at))]
pub fn ascii_front(past: u64) -> usize
    ensures most { result ≤ 64 }
    ensures ascii { (bytes : List ℕ) (at : ℕ) → ArePastFrom past bytes at → (k : ℕ) → k < result → at + k < 64 →
        get_or bytes (at + k) 0 < 0x80 }
    ensures stops { (bytes : List ℕ) (at : ℕ) → ArePastFrom past bytes at → result < 64 → at + result < 64 →
        0x80 ≤ get_or bytes (at + result) 0 }
{
    past.trailing_zeros() as usize
}

/// Returns the bits of the bytes after the first `count` and one more.
#[inline(always)]
#[tactic(auto, using(crate::proofs::PastAscii::past_next))]
pub fn past_after(past: u64, count: usize) -> u64
    requires { count < 64 }
    ensures { (bytes : List ℕ) (at : ℕ) → ArePastFrom past bytes at → ArePastFrom result bytes (at + count + 1) }
{
    past >> count >> 1
}
