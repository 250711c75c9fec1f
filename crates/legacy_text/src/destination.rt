//! The outputs of a decoder.
ghost use Rattle.std.specs.Prelude.{◌≡◌, ℕ, ◌+◌, ◌-◌, ◌<◌, ◌≤◌, List, [], ◌∷◌, ◌++◌, length, take, IsAscii, All, MatchOption};
ghost use Rattle.std.specs.{Borrow.GName, Char.IsScalar};
ghost use Rattle.legacy_text.specs.EncodingForm.{EncodingForm, Utf8, Utf16, code_units, unit_count, all_code_units, total_unit_count, bmp_need, wide_need};
ghost use Rattle.legacy_text.specs.ByteUnits.{AreByteScalars, HaveScalars, scalars_of};
ghost use Rattle.legacy_text.specs.UnitBytes.{AreShort, IsUtf8Entry};

use crate::blocks::{copy_short_blocks, store_wide, wide_ascii_count, widen_short_blocks};
use crate::byte_units::{store_bytes, store_scalars};
use crate::eight_units::{first_units, put_eight_units, put_short_units};
use crate::scalar_bytes::{put_byte, put_scalar, store_four};
use std::simd::prelude::*;

/// Text in UTF-8 that a function of its own writes to a buffer.
pub trait FillsBuffer {
    /// What a call does: the number of bytes of its input that it reads and the bytes that it writes, given the number of
    /// bytes of the buffer.
    ghost fills: { Self → ℕ → ℕ → List ℕ → Type 0 };

    /// Writes text to the beginning of the buffer. Returns the numbers of bytes read and written.
    fn fill(&self, buffer: &mut [u8]) -> (usize, usize)
        ensures written { result.1 ≤ length buffer.old }
        ensures fills { fills self.now (length buffer.old) result.0 (take result.1 buffer.new) };
}

/// An output of UTF-8 bytes or UTF-16 code units, to which a decoder writes scalars.
///
/// Each type has one of the two forms. Your own destination needs the two constants, `free`,
/// `written`, `put`, `narrow` and `wide`. `docs/USING.md` names an example, `CharacterList`.
pub trait Destination {
    /// The encoding form of the type.
    ghost form: { EncodingForm };

    /// The code units that were written.
    ghost contents: { Self → List ℕ };

    /// The number of free code units.
    ghost room: { Self → ℕ };

    /// The caller's buffer that is lent, by the name of its loan.
    ghost loan: { Self → GName };

    /// The code units of the longest scalar up to U+FFFF: 3 in UTF-8, 1 in UTF-16.
    const BMP_ROOM: usize;

    /// The code units of the longest scalar: 4 in UTF-8, 2 in UTF-16.
    const WIDE_ROOM: usize;

    /// Returns the number of free code units.
    fn free(&self) -> usize
        ensures { result ≡ room self.now };

    /// Returns `BMP_ROOM`, with a clause on its value: a constant cannot have one.
    fn narrow() -> usize
        ensures { result ≡ bmp_need form };

    /// Returns `WIDE_ROOM`, with a clause on its value: a constant cannot have one.
    fn wide() -> usize
        ensures { result ≡ wide_need form };

    /// Returns the number of code units that were written.
    fn written(&self) -> usize
        ensures { result ≡ length (contents self.now) };

    /// Writes the code units of the scalar after those that were written.
    ///
    /// They must fit into the free ones: 1 to 4 in UTF-8, 1 or 2 in UTF-16.
    fn put(&mut self, c: char)
        requires { unit_count form c ≤ room self.old }
        ensures contents { contents self.new ≡ contents self.old ++ code_units form c }
        ensures room { room self.new + unit_count form c ≡ room self.old }
        ensures loan { loan self.new ≡ loan self.old };

    /// Writes a scalar up to U+FFFF of which the bytes in UTF-8 are known, by `utf8_entry`.
    ///
    /// Four code units must be free: a destination may store four bytes, and later output overwrites
    /// those that do not count.
    #[inline(always)]
    #[tactic(auto, using(crate::proofs::VectorUnits::first_steps))]
    fn put_entry(&mut self, c: char, entry: u32)
        requires below { c < 0x1_0000 }
        requires entry { IsUtf8Entry c entry }
        requires room { 4 ≤ room self.old }
        ensures contents { contents self.new ≡ contents self.old ++ code_units form c }
        ensures room { room self.new + unit_count form c ≡ room self.old }
        ensures loan { loan self.new ≡ loan self.old }
    {
        let _ = entry;
        self.put(c);
    }

    /// Lends the free bytes to a call that fills them, and returns the number of bytes that the call read.
    ///
    /// Returns `None` without a call if the destination has no free bytes of UTF-8 to lend, as provided.
    // The destination's place stays in a register: only the free bytes are passed to the call.
    #[inline(always)]
    fn lend<F: FillsBuffer>(&mut self, filling: &F) -> Option<usize>
        ensures { MatchOption result (self.new ≡ self.old) (λ count. (form ≡ Utf8) × (loan self.new ≡ loan self.old)
            × ((bytes : List ℕ) × F.fills filling.now (room self.old) count bytes
            × (contents self.new ≡ contents self.old ++ bytes) × (room self.new + length bytes ≡ room self.old))) }
    {
        let _ = filling;
        None
    }

    /// Writes any number of ASCII bytes from the front of the slice, and returns the number.
    ///
    /// It writes blocks, of which the last may reach back and a part may be written. As provided it writes none.
    fn copy_ascii(&mut self, bytes: &[u8]) -> usize
        ensures read { result ≤ length bytes.now }
        ensures ascii { IsAscii (take result bytes.now) }
        ensures contents { contents self.new ≡ contents self.old ++ take result bytes.now }
        ensures room { room self.new + result ≡ room self.old }
        ensures loan { loan self.new ≡ loan self.old }
    {
        let _ = bytes;
        0
    }

    /// Writes the byte if it is ASCII, and returns the number of bytes written: 1 or 0.
    ///
    /// One code unit must be free: a destination may store any byte, and later output overwrites one
    /// that does not count.
    #[inline(always)]
    fn put_ascii(&mut self, byte: u8) -> usize
        requires { 1 ≤ room self.old }
        ensures read { result ≤ 1 }
        ensures all { byte < 0x80 → result ≡ 1 }
        ensures ascii { IsAscii (take result (byte ∷ [])) }
        ensures contents { contents self.new ≡ contents self.old ++ take result (byte ∷ []) }
        ensures room { room self.new + result ≡ room self.old }
        ensures loan { loan self.new ≡ loan self.old }
    {
        if byte >= 0x80 {
            return 0;
        }
        self.put(char::from(byte));
        1
    }

    /// Writes the first `count` bytes of a block of 64, which must be ASCII.
    ///
    /// The slice must have at least 64 bytes, and as many code units must be free: a destination may
    /// store all of them, and later output overwrites those that do not count.
    #[inline(always)]
    #[tactic(auto, using(crate::proofs::VectorUnits::ascii_steps))]
    fn put_block(&mut self, bytes: &[u8], count: usize)
        requires block { 64 ≤ length bytes.now }
        requires count { count ≤ 64 }
        requires ascii { IsAscii (take count bytes.now) }
        requires room { 64 ≤ room self.old }
        ensures contents { contents self.new ≡ contents self.old ++ take count bytes.now }
        ensures room { room self.new + count ≡ room self.old }
        ensures loan { loan self.new ≡ loan self.old }
    {
        for at in 0..count {
            self.put(char::from(bytes[at]));
        }
    }

    /// Writes any number of ASCII bytes from the front of a block of 64, and returns the number.
    ///
    /// The slice must have at least 64 bytes, and as many code units must be free, as for `put_block`.
    #[inline(always)]
    fn put_front(&mut self, bytes: &[u8]) -> usize
        requires block { 64 ≤ length bytes.now }
        requires room { 64 ≤ room self.old }
        ensures read { result ≤ 64 }
        ensures ascii { IsAscii (take result bytes.now) }
        ensures contents { contents self.new ≡ contents self.old ++ take result bytes.now }
        ensures room { room self.new + result ≡ room self.old }
        ensures loan { loan self.new ≡ loan self.old }
    {
        let count = wide_ascii_count(bytes);
        self.put_block(bytes, count);
        count
    }

    /// Writes the scalars of any number of single bytes from the front of a block of 64, and at most `most`.
    ///
    /// Returns the number. `entries` has the scalar of each byte, and 0 for a byte past ASCII that has none: it stops
    /// there. The slice must have at least 64 bytes, and 64 code units must be free: a destination may store as many,
    /// and later output overwrites those that do not count. As provided it writes none.
    #[inline(always)]
    fn put_bytes(&mut self, bytes: &[u8], entries: &[u16], most: usize) -> usize
        requires block { 64 ≤ length bytes.now }
        requires entries { AreByteScalars entries.now }
        requires room { 64 ≤ room self.old }
        ensures most { result ≤ most }
        ensures read { result ≤ 64 }
        ensures have { HaveScalars entries.now (take result bytes.now) }
        ensures contents { contents self.new ≡ contents self.old ++ all_code_units form (scalars_of entries.now (take result bytes.now)) }
        ensures room { room self.new + total_unit_count form (scalars_of entries.now (take result bytes.now)) ≡ room self.old }
        ensures loan { loan self.new ≡ loan self.old }
    {
        let _ = (bytes.len(), entries.len(), most);
        0
    }

    /// Writes the code units of the first `count` of eight scalar values up to U+FFFF.
    ///
    /// At least 32 code units must be free: a destination may store the code units of all eight,
    /// and later output overwrites those that do not count.
    #[inline(always)]
    #[tactic(auto, using(crate::proofs::VectorUnits::first_steps))]
    fn put_first(&mut self, units: u16x8, count: usize)
        requires count { count ≤ 8 }
        requires scalars { All IsScalar units }
        requires room { 32 ≤ room self.old }
        ensures contents { contents self.new ≡ contents self.old ++ all_code_units form (take count units) }
        ensures room { room self.new + total_unit_count form (take count units) ≡ room self.old }
        ensures loan { loan self.new ≡ loan self.old }
    {
        let scalars = units.to_array();
        for at in 0..count {
            self.put(unsafe { char::from_u32_unchecked(u32::from(scalars[at])) });
        }
    }

    /// Writes the code units of eight scalar values up to U+FFFF. At least 32 code units must be free.
    #[inline(always)]
    #[tactic(auto, using(crate::proofs::VectorUnits::whole_steps))]
    fn put_eight(&mut self, units: u16x8)
        requires scalars { All IsScalar units }
        requires room { 32 ≤ room self.old }
        ensures contents { contents self.new ≡ contents self.old ++ all_code_units form units }
        ensures room { room self.new + total_unit_count form units ≡ room self.old }
        ensures loan { loan self.new ≡ loan self.old }
    {
        self.put_first(units, 8);
    }

    /// Writes the code units of eight scalar values below U+0800. At least 32 code units must be free.
    #[inline(always)]
    fn put_eight_short(&mut self, units: u16x8)
        requires scalars { All IsScalar units }
        requires short { AreShort units }
        requires room { 32 ≤ room self.old }
        ensures contents { contents self.new ≡ contents self.old ++ all_code_units form units }
        ensures room { room self.new + total_unit_count form units ≡ room self.old }
        ensures loan { loan self.new ≡ loan self.old }
    {
        self.put_eight(units);
    }
}

/// A destination that writes UTF-8 to a slice of bytes, from its beginning on.
#[derive(Drop)]
pub struct Utf8Destination<'a> {
    buffer: &'a mut [u8],
    filled: usize,
    ghost in_range: { filled ≤ length buffer.now },
}

impl<'a> Utf8Destination<'a> {
    ghost use Rattle.legacy_text.specs.Destinations.{utf8_written, utf8_free, utf8_loan, utf8_buffer};

    /// Returns a destination that has written nothing, with the whole slice free.
    pub fn new(buffer: &'a mut [u8]) -> Utf8Destination<'a>
        ensures loan { utf8_loan result ≡ buffer.entry.ghost_name }
        ensures written { utf8_written result ≡ [] }
        ensures free { utf8_free result ≡ length buffer.old }
        ensures same { utf8_buffer result ≡ buffer.old }
    {
        Utf8Destination { buffer, filled: 0 }
    }
}

impl Destination for Utf8Destination<'_> {
    ghost use Rattle.legacy_text.specs.Destinations.{utf8_written, utf8_free, utf8_loan};

    ghost form = { Utf8 };

    ghost contents = { utf8_written };

    ghost room = { utf8_free };

    ghost loan = { utf8_loan };

    const BMP_ROOM: usize = 3;

    const WIDE_ROOM: usize = 4;

    fn narrow() -> usize
        ensures { result ≡ 3 }
    {
        Self::BMP_ROOM
    }

    fn wide() -> usize
        ensures { result ≡ 4 }
    {
        Self::WIDE_ROOM
    }

    #[inline]
    fn free(&self) -> usize {
        self.buffer.len() - self.filled
    }

    #[inline]
    fn written(&self) -> usize {
        self.filled
    }

    #[inline]
    fn put(&mut self, c: char) {
        self.filled = put_scalar(self.buffer, self.filled, c);
    }

    #[inline(always)]
    fn put_entry(&mut self, c: char, entry: u32) {
        let _ = c;
        let bytes = entry.to_le_bytes();
        store_four(self.buffer, self.filled, bytes);
        self.filled += usize::from(bytes[3]);
    }

    #[inline(always)]
    fn lend<F: FillsBuffer>(&mut self, filling: &F) -> Option<usize> {
        let (count, written) = filling.fill(&mut self.buffer[self.filled..]);
        self.filled += written;
        Some(count)
    }

    #[inline]
    fn copy_ascii(&mut self, bytes: &[u8]) -> usize {
        let count = copy_short_blocks(bytes, self.buffer, self.filled);
        self.filled += count;
        count
    }

    #[inline(always)]
    fn put_ascii(&mut self, byte: u8) -> usize {
        let count = usize::from(byte < 0x80);
        put_byte(self.buffer, self.filled, byte);
        self.filled += count;
        count
    }

    #[inline(always)]
    fn put_block(&mut self, bytes: &[u8], count: usize) {
        store_wide(self.buffer, self.filled, bytes);
        self.filled += count;
    }

    // 0 stands for each of the other code units, and its text is one byte.
    #[inline(always)]
    #[tactic(auto, using(crate::proofs::UnitLanes::first_steps))]
    fn put_first(&mut self, units: u16x8, count: usize) {
        let end = put_eight_units(self.buffer, self.filled, first_units(units, count));
        self.filled = end - (8 - count);
    }

    #[inline(always)]
    #[tactic(auto, using(crate::proofs::VectorUnits::room_steps))]
    fn put_eight(&mut self, units: u16x8) {
        self.filled = put_eight_units(self.buffer, self.filled, units);
    }

    #[inline(always)]
    #[tactic(auto, using(crate::proofs::VectorUnits::room_steps))]
    fn put_eight_short(&mut self, units: u16x8) {
        self.filled = put_short_units(self.buffer, self.filled, units);
    }
}

/// Stores eight code units from the place `at` on.
// It takes the output as a slice. So its address is loaded once, and not again for each code unit.
#[inline(always)]
#[tactic(auto, using(crate::proofs::Ascii::put_front))]
fn store_units(dst: &mut [u16], at: usize, units: u16x8)
    requires { at + 8 ≤ length dst.old }
    ensures { (k : ℕ) → k ≤ 8 → take (at + k) dst.new ≡ take at dst.old ++ take k units }
{
    units.copy_to_slice(&mut dst[at..]);
}

/// A destination that writes UTF-16 to a slice of code units, from its beginning on.
#[derive(Drop)]
pub struct Utf16Destination<'a> {
    buffer: &'a mut [u16],
    filled: usize,
    ghost in_range: { filled ≤ length buffer.now },
}

impl<'a> Utf16Destination<'a> {
    ghost use Rattle.legacy_text.specs.Destinations.{utf16_written, utf16_free, utf16_loan, utf16_buffer};

    /// Returns a destination that has written nothing, with the whole slice free.
    pub fn new(buffer: &'a mut [u16]) -> Utf16Destination<'a>
        ensures loan { utf16_loan result ≡ buffer.entry.ghost_name }
        ensures written { utf16_written result ≡ [] }
        ensures free { utf16_free result ≡ length buffer.old }
        ensures same { utf16_buffer result ≡ buffer.old }
    {
        Utf16Destination { buffer, filled: 0 }
    }

    #[inline]
    fn push(&mut self, unit: u16)
        requires { 0 < utf16_free self.old }
        ensures written { utf16_written self.new ≡ utf16_written self.old ++ unit ∷ [] }
        ensures free { utf16_free self.new + 1 ≡ utf16_free self.old }
        ensures loan { utf16_loan self.new ≡ utf16_loan self.old }
    {
        let at = self.filled;
        self.buffer[at] = unit;
        self.filled = at + 1;
    }
}

impl Destination for Utf16Destination<'_> {
    ghost use Rattle.legacy_text.specs.Destinations.{utf16_written, utf16_free, utf16_loan};

    ghost form = { Utf16 };

    ghost contents = { utf16_written };

    ghost room = { utf16_free };

    ghost loan = { utf16_loan };

    const BMP_ROOM: usize = 1;

    const WIDE_ROOM: usize = 2;

    fn narrow() -> usize
        ensures { result ≡ 1 }
    {
        Self::BMP_ROOM
    }

    fn wide() -> usize
        ensures { result ≡ 2 }
    {
        Self::WIDE_ROOM
    }

    #[inline]
    fn free(&self) -> usize {
        self.buffer.len() - self.filled
    }

    #[inline]
    fn written(&self) -> usize {
        self.filled
    }

    #[inline]
    #[tactic(auto, using(crate::proofs::CodeUnits::encoding_utf16))]
    fn put(&mut self, c: char) {
        let scalar = c as u32;
        if scalar < 0x1_0000 {
            self.push(scalar as u16);
        } else {
            let over = scalar - 0x1_0000;
            self.push((0xD800 + over / 0x400) as u16);
            self.push((0xDC00 + over % 0x400) as u16);
        }
    }

    #[inline(always)]
    #[tactic(auto, using(crate::proofs::CodeUnits::encoding_utf16))]
    fn put_entry(&mut self, c: char, entry: u32) {
        let _ = entry;
        self.push(c as u16);
    }

    #[inline]
    fn copy_ascii(&mut self, bytes: &[u8]) -> usize {
        let count = widen_short_blocks(bytes, self.buffer, self.filled);
        self.filled += count;
        count
    }

    #[inline(always)]
    fn put_ascii(&mut self, byte: u8) -> usize {
        let count = usize::from(byte < 0x80);
        let at = self.filled;
        self.buffer[at] = u16::from(byte);
        self.filled = at + count;
        count
    }

    #[inline(always)]
    fn put_block(&mut self, bytes: &[u8], count: usize) {
        store_bytes(self.buffer, self.filled, bytes);
        self.filled += count;
    }

    #[inline(always)]
    #[tactic(auto, using(crate::proofs::ByteUnits::scalar_steps))]
    fn put_bytes(&mut self, bytes: &[u8], entries: &[u16], most: usize) -> usize {
        let count = store_scalars(self.buffer, self.filled, bytes, entries, most);
        self.filled += count;
        count
    }

    #[inline(always)]
    #[tactic(auto, using(crate::proofs::VectorUnits::whole_steps))]
    fn put_first(&mut self, units: u16x8, count: usize) {
        store_units(self.buffer, self.filled, units);
        self.filled += count;
    }
}
