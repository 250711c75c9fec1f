//! Decodes units near surrogates: those before one by a vector, and its pair; at the end of the input one by one.
// Functions that run for each scalar are always inlined. A call would keep the destination's place in memory.
ghost use Rattle.std.specs.{Prelude.{◌≡◌, ◌+◌, ◌*◌, ◌<◌, ◌≤◌, ℕ, length, true, slice_index}, Char.IsScalar};
ghost use Rattle.{legacy_base.specs.{Grammar.utf16, States.new_state}, legacy_decoder_engine.specs.ReadAhead.ReadsAhead};
ghost use Rattle.legacy_miscellaneous.specs.Utf16Decoder.{unit_at};

use super::held_bytes::HighSurrogate;
use super::unit_blocks::Units;
use super::unit_steps::{is_pair, pair, unit};
use super::vectors::{eight_units, scalar_count};
use legacy_base::Destination;
use legacy_decoder_engine::read_ahead::{BlockReader, SLACK, read_blocks};
use legacy_text::first_units;
use std::simd::prelude::*;

/// The number of windows without a surrogate that are read after one with a surrogate. A window is eight units.
// Behind a surrogate there are often more, and vectors of many units would stop at each of them.
const CLEAR_WINDOWS: usize = 4;

/// The most units that are put one by one before a surrogate, if a scalar may be several code units.
const FEW: usize = 2;

/// Returns the number of windows without a surrogate that may be read after one with this number of units before its first.
#[inline(always)]
fn clear_after(clear: usize, count: usize) -> usize {
    if count < 8 {
        CLEAR_WINDOWS
    } else {
        clear.saturating_sub(1)
    }
}

impl Units {
    /// Decodes the pair of surrogates at the front, if there is one. Returns the number of bytes read, 4 or 0.
    #[inline(always)]
    fn read_pair<T: Destination>(&self, src: &[u8], dst: &mut T) -> usize
        requires room { 7 ≤ T.room dst.old }
        ensures { ReadsAhead T.Destination (new_state (utf16 self.now.big_endian)) src.now result dst.old dst.new }
    {
        if src.len() < 4 {
            return 0;
        }
        let high = unit(self.big_endian, src[0], src[1]);
        let low = unit(self.big_endian, src[2], src[3]);
        if is_pair(high, low) {
            dst.put(pair(HighSurrogate { unit: high }, low));
            return 4;
        }
        0
    }

    /// Decodes the scalar at the front, if there is one. Returns the number of bytes read.
    #[inline(always)]
    fn read_scalar<T: Destination>(&self, src: &[u8], dst: &mut T) -> usize
        requires source { 2 ≤ length src.now }
        requires room { 7 ≤ T.room dst.old }
        ensures { ReadsAhead T.Destination (new_state (utf16 self.now.big_endian)) src.now result dst.old dst.new }
    {
        let unit = unit(self.big_endian, src[0], src[1]);
        match char::from_u32(u32::from(unit)) {
            Some(scalar) => {
                dst.put(scalar);
                2
            }
            None => self.read_pair(src, dst),
        }
    }

    /// Decodes at most `most` scalars one by one, up to an unpaired surrogate. Returns the number of bytes read.
    #[inline(always)]
    fn read_singly<T: Destination>(&self, src: &[u8], most: usize, dst: &mut T) -> usize
        ensures { ReadsAhead T.Destination (new_state (utf16 self.now.big_endian)) src.now result dst.old dst.new }
    {
        let mut left = most;
        let mut at = 0;
        while left > 0 && src.len() - at >= 2 && dst.free() >= 4 + SLACK {
            let read = self.read_scalar(&src[at..], dst);
            at += read;
            if read == 0 {
                return at;
            }
            left -= 1;
        }
        at
    }

    /// Decodes the first `count` units one by one, none of which is a surrogate. Returns the number of bytes read.
    #[inline(always)]
    fn read_few<T: Destination>(&self, src: &[u8], count: usize, dst: &mut T) -> usize
        requires source { 16 ≤ length src.now }
        requires count { count ≤ 8 }
        requires scalars { (k : ℕ) → k < count → IsScalar (unit_at self.now.big_endian src.now k) }
        requires room { 39 ≤ T.room dst.old }
        ensures all { result ≡ 2 * count }
        ensures room { T.room dst.old ≤ T.room dst.new + 24 }
        ensures ahead { ReadsAhead T.Destination (new_state (utf16 self.now.big_endian)) src.now result dst.old dst.new }
    {
        let mut at = 0;
        while at < count {
            let unit = unit(self.big_endian, src[2 * at], src[2 * at + 1]);
            dst.put(unsafe { char::from_u32_unchecked(u32::from(unit)) });
            at += 1;
        }
        2 * count
    }

    /// Decodes the first `count` of eight units by a vector, none of which is a surrogate. Returns the number of bytes read.
    #[inline(always)]
    fn read_many<T: Destination>(&self, src: &[u8], count: usize, dst: &mut T) -> usize
        requires source { 16 ≤ length src.now }
        requires count { count ≤ 8 }
        requires scalars { (k : ℕ) → k < count → IsScalar (unit_at self.now.big_endian src.now k) }
        requires room { 39 ≤ T.room dst.old }
        ensures all { result ≡ 2 * count }
        ensures room { T.room dst.old ≤ T.room dst.new + 24 }
        ensures ahead { ReadsAhead T.Destination (new_state (utf16 self.now.big_endian)) src.now result dst.old dst.new }
    {
        let units = eight_units(self.big_endian, src);
        dst.put_first(first_units(units, count), count);
        2 * count
    }

    /// Decodes the first `count` of eight units, none of which is a surrogate. Returns the number of bytes read.
    // In UTF-8 a vector takes as long as four units one by one.
    #[inline(always)]
    fn read_first<T: Destination>(&self, src: &[u8], count: usize, dst: &mut T) -> usize
        requires source { 16 ≤ length src.now }
        requires count { count ≤ 8 }
        requires scalars { (k : ℕ) → k < count → IsScalar (unit_at self.now.big_endian src.now k) }
        requires room { 39 ≤ T.room dst.old }
        ensures all { result ≡ 2 * count }
        ensures room { T.room dst.old ≤ T.room dst.new + 24 }
        ensures ahead { ReadsAhead T.Destination (new_state (utf16 self.now.big_endian)) src.now result dst.old dst.new }
    {
        if T::narrow() > 1 && count <= FEW {
            self.read_few(src, count, dst)
        } else {
            self.read_many(src, count, dst)
        }
    }

    /// Returns the number of units before the first surrogate of eight.
    #[inline(always)]
    fn front_count(&self, src: &[u8]) -> usize
        requires { 16 ≤ length src.now }
        ensures most { result ≤ 8 }
        ensures scalars { (k : ℕ) → k < result → IsScalar (unit_at self.now.big_endian src.now k) }
    {
        scalar_count(eight_units(self.big_endian, src))
    }

    /// Decodes the first `count` units, which are no surrogates, and the pair after them if there are less than eight.
    ///
    /// Returns the number of bytes read, and whether more may follow: no unpaired surrogate does.
    #[inline(always)]
    fn read_window<T: Destination>(&self, src: &[u8], count: usize, dst: &mut T) -> (usize, bool)
        requires source { 16 ≤ length src.now }
        requires count { count ≤ 8 }
        requires scalars { (k : ℕ) → k < count → IsScalar (unit_at self.now.big_endian src.now k) }
        requires room { 39 ≤ T.room dst.old }
        ensures ahead { ReadsAhead T.Destination (new_state (utf16 self.now.big_endian)) src.now result.0 dst.old dst.new }
        ensures goes_on { result.1 ≡ true → 0 < result.0 }
    {
        let front = self.read_first(src, count, dst);
        if count == 8 {
            return (front, true);
        }
        let read = self.read_pair(&src[front..], dst);
        (front + read, read > 0)
    }

    /// Decodes units near surrogates, and pairs of surrogates.
    ///
    /// It stops before an unpaired surrogate, at the end, if few code units are free, and before eight units without
    /// a surrogate that are not right after one. Returns the number of bytes read, and whether such units come next.
    #[inline(always)]
    fn read_near_surrogates<T: Destination>(&self, src: &[u8], dst: &mut T) -> (usize, bool)
        ensures ahead { ReadsAhead T.Destination (new_state (utf16 self.now.big_endian)) src.now result.0 dst.old dst.new }
    {
        let mut clear = 0;
        let mut at = 0;
        while src.len() - at >= 18 && dst.free() >= 36 + SLACK {
            let rest = &src[at..];
            let count = self.front_count(rest);
            if count == 8 && clear == 0 {
                return (at, true);
            }
            clear = clear_after(clear, count);
            let (read, goes_on) = self.read_window(rest, count, dst);
            at += read;
            if !goes_on {
                return (at, false);
            }
        }
        (at, false)
    }

    /// Decodes by vectors if the first eight units are clear of surrogates, and otherwise, or if no vector can be read, one by one.
    ///
    /// Returns the number of bytes read, and whether it read vectors.
    #[inline(always)]
    fn read_rest<T: Destination>(&self, src: &[u8], is_clear: bool, dst: &mut T) -> (usize, bool)
        ensures ahead { ReadsAhead T.Destination (new_state (utf16 self.now.big_endian)) src.now result.0 dst.old dst.new }
        ensures goes_on { result.1 ≡ true → 0 < result.0 }
    {
        if is_clear {
            let read = read_blocks(self, src, dst);
            if read > 0 {
                return (read, true);
            }
            return (self.read_singly(src, src.len(), dst), false);
        }
        (self.read_singly(src, src.len(), dst), false)
    }
}

/// Text of any units.
#[derive(Drop)]
pub struct UnitText {
    pub units: Units,
}

impl BlockReader for UnitText {
    ghost grammar = { λ text. utf16 text.units.big_endian };

    /// Decodes units near surrogates, and then those by vectors.
    ///
    /// No other part follows an unpaired surrogate, the last units, and those for which few code units are free.
    #[inline(always)]
    fn read_block<T: Destination>(&self, src: &[u8], dst: &mut T) -> (usize, bool) {
        let (near, is_clear) = self.units.read_near_surrogates(src, dst);
        let (read, goes_on) = self.units.read_rest(&src[near..], is_clear, dst);
        (near + read, goes_on)
    }
}

/// Decodes text from the front, up to an unpaired surrogate. Returns the number of bytes read.
#[inline(always)]
pub fn read_text<T: Destination>(units: Units, src: &[u8], dst: &mut T) -> usize
    ensures { ReadsAhead T.Destination (new_state (utf16 units.big_endian)) src.now result dst.old dst.new }
{
    read_blocks(&UnitText { units }, src, dst)
}
