//! The sources of an encoder.
ghost use Rattle.std.specs.Prelude.{◌≡◌, ℕ, ◌+◌, ◌-◌, ◌^◌, ◌<◌, ◌≤◌, List, ◌∷◌, length, take, drop, true, slice_get, slice_index};
ghost use Rattle.std.specs.{Char.IsScalar, Str.{chars, is_utf8}};
ghost use Rattle.legacy_text.specs.EncodingForm.{EncodingForm, Utf8, Utf16, unit_count, total_unit_count};
ghost use Rattle.legacy_text.specs.{NextScalars.{IsNext, StandsAt}, Texts.unit_scalars};

use crate::blocks::{copy_ascii_bytes, copy_ascii_units};
use crate::scalar_turns::ten_scalars;
use crate::short_scalars::copy_short_scalars;
use crate::text_cursor::{Next, ReadingLoop, TextCursor};
use crate::unit_codes::{UnitCodes, copy_unit_codes};

/// A text in UTF-8 or UTF-16 whose scalars an encoder reads one after another.
///
/// Each type has one of the two forms. Your own source needs `peek`, `advance` and `consumed`. It
/// may read from anything, and returns scalar values. `docs/USING.md` has an example, `Beginning`.
pub trait Source {
    /// The encoding form of the type.
    ghost form: { EncodingForm };

    /// The scalars that are left.
    ghost left: { Self → List ℕ };

    /// The number of code units that were passed.
    ghost passed: { Self → ℕ };

    /// Returns the next scalar, or `None` at the end. The source does not move.
    fn peek(&self) -> Option<char>
        ensures { result ≡ slice_get (left self.now) 0 };

    /// Moves past the next scalar. The source must not be at the end (`peek` returns `None` there).
    fn advance(&mut self)
        requires { 0 < length (left self.old) }
        ensures left { left self.new ≡ drop 1 (left self.old) }
        ensures passed { passed self.new
            ≡ passed self.old + unit_count form (slice_index (left self.old) 0) };

    /// Returns the number of code units that the source has passed.
    fn consumed(&self) -> usize
        ensures { result ≡ passed self.now };

    /// Lends a cursor to a loop that reads any number of scalars ahead and writes bytes for them.
    ///
    /// The bytes are written to `dst` from the place `start` on. Returns the place after them,
    /// which is `start` if nothing was read. The bytes of `dst` after it may change.
    // As provided it reads nothing, and `peek` and `advance` read each scalar. A source with a fast cursor
    // lends a copy of it, to which nothing else refers: so the compiler keeps the cursor's place in a
    // register, and does not store and load it again after each byte.
    #[inline(always)]
    fn read_by<L: ReadingLoop>(&mut self, reading: &L, dst: &mut [u8], start: usize) -> usize
        requires { start ≤ length dst.old }
        ensures keeps { L.keeps reading.now (length dst.old) (left self.old) (take start dst.old)
            (left self.new) (take result dst.new) }
        ensures start { start ≤ result }
        ensures end { result ≤ length dst.old }
        ensures passed { passed self.new + total_unit_count form (left self.new)
            ≡ passed self.old + total_unit_count form (left self.old) }
    {
        let _ = (self.consumed(), dst.len());
        start
    }
}

/// A source of the scalars of a text in UTF-8.
#[derive(Clone, Copy)]
pub struct Utf8Source<'a> {
    text: &'a str,
    place: usize,
    ghost in_range: { place ≤ length text.now },
    ghost is_text: { is_utf8 (drop place text.now) ≡ true },
}

/// Returns the scalar at a place of a text, or `None` at its end.
#[inline]
#[tactic(auto, using(crate::proofs::Texts::text_steps))]
fn scalar_at(text: &str, place: usize) -> Option<char>
    requires in_range { place ≤ length text.now }
    requires is_text { is_utf8 (drop place text.now) ≡ true }
    ensures { result ≡ slice_get (chars (drop place text.now)) 0 }
{
    text[place..].chars().next()
}

/// Returns the scalar of a number, which must be one.
// There is no test of what is already known: it would be one more branch for each scalar.
#[inline(always)]
fn scalar_of(number: u32) -> char
    requires { IsScalar number }
    ensures { result ≡ number }
{
    unsafe { char::from_u32_unchecked(number) }
}

/// Returns a scalar whose bytes are at a place, by their number, which the first byte gives.
// That byte was tested when the scalar was read, so no test is left here. Scalars of two and of three
// bytes are made here: so the compiler knows that they are below U+0800 or U+10000, and their quotient by
// 64, by which they are looked up.
#[inline(always)]
#[tactic(auto, using(crate::proofs::Texts::by_bytes_steps))]
fn by_bytes(bytes: &[u8], place: usize, c: char) -> Next
    requires within { place < length bytes.now }
    requires stands { StandsAt bytes.now place c }
    ensures { (left : List ℕ) → left ≡ c ∷ drop 1 left → IsNext Utf8 left result }
{
    let first = u32::from(bytes[place]);
    if first < 0x80 {
        Next::One(c)
    } else if first < 0xE0 {
        let second = u32::from(bytes[place + 1]);
        Next::Two(scalar_of(first % 0x20 * 0x40 + second % 0x40))
    } else if first < 0xF0 {
        let second = u32::from(bytes[place + 1]);
        let third = u32::from(bytes[place + 2]);
        Next::Three(scalar_of(first % 0x10 * 0x1000 + second % 0x40 * 0x40 + third % 0x40))
    } else {
        Next::Four(c)
    }
}

impl<'a> Utf8Source<'a> {
    ghost use Rattle.legacy_text.specs.TextSources.{utf8_text, utf8_place};

    /// Returns a source before the first scalar of the text.
    #[tactic(auto, using(crate::proofs::Texts::text_steps))]
    pub fn new(text: &'a str) -> Utf8Source<'a>
        ensures text { utf8_text result ≡ text.now }
        ensures place { utf8_place result ≡ 0 }
    {
        Utf8Source { text, place: 0 }
    }
}

impl Source for Utf8Source<'_> {
    ghost use Rattle.legacy_text.specs.TextSources.{utf8_left, utf8_place};

    ghost form = { Utf8 };

    ghost left = { utf8_left };

    ghost passed = { utf8_place };

    #[inline]
    fn peek(&self) -> Option<char> {
        scalar_at(self.text, self.place)
    }

    #[inline]
    fn advance(&mut self) {
        if let Some(c) = scalar_at(self.text, self.place) {
            self.place += c.len_utf8();
        }
    }

    #[inline]
    fn consumed(&self) -> usize {
        self.place
    }

    #[inline(always)]
    fn read_by<L: ReadingLoop>(&mut self, reading: &L, dst: &mut [u8], start: usize) -> usize {
        let mut own = *self;
        let end = reading.read(&mut own, dst, start);
        *self = own;
        end
    }
}

impl TextCursor for Utf8Source<'_> {
    ghost use Rattle.legacy_text.specs.TextSources.{utf8_left, utf8_place};

    ghost form = { Utf8 };

    ghost left = { utf8_left };

    ghost passed = { utf8_place };

    #[inline(always)]
    #[tactic(auto, using(crate::proofs::Texts::next_steps))]
    fn front(&self) -> Next {
        match scalar_at(self.text, self.place) {
            None => Next::End,
            Some(c) => by_bytes(self.text.as_bytes(), self.place, c),
        }
    }

    #[inline(always)]
    #[tactic(auto, using(crate::proofs::Texts::utf8_next))]
    fn pass(&mut self, count: usize) {
        let len = self.text.len();
        self.place = len - (len - self.place - count);
    }

    // It tests four bytes. Two would be enough for French text. But Russian has two ASCII bytes after many words, and a
    // block gains nothing there.
    #[inline(always)]
    fn is_in_ascii(&self) -> bool {
        let [a, b, c, d, ..] = &self.text.as_bytes()[self.place..] else {
            return false;
        };
        u32::from_le_bytes([*a, *b, *c, *d]) & 0x8080_8080 == 0
    }

    #[inline(always)]
    #[tactic(auto, using(crate::proofs::Texts::ascii_steps))]
    fn copy_ascii(&mut self, dst: &mut [u8], at: usize) -> usize {
        let count = copy_ascii_bytes(&self.text.as_bytes()[self.place..], dst, at);
        self.place += count;
        count
    }

    #[inline(always)]
    fn has_tens(&self, before: char) -> bool {
        (before as u32) < 0x80
    }

    #[inline(always)]
    fn take_ten(&mut self) -> Option<[u16; 10]> {
        let (units, past) = ten_scalars(self.text.as_bytes(), self.place)?;
        self.place = past;
        Some(units)
    }

    #[inline(always)]
    fn has_turns(&self) -> bool {
        let bytes = self.text.as_bytes();
        bytes.len() - self.place >= 16 && bytes[self.place] >= 0x80
    }

    #[inline(always)]
    fn copy_codes<C: UnitCodes>(&mut self, codes: &C, dst: &mut [u8], at: usize) -> usize {
        let (count, past) = copy_short_scalars(codes, self.text.as_bytes(), self.place, dst, at);
        self.place = past;
        count
    }
}

/// A source of the scalars of UTF-16 code units, with U+FFFD for each unpaired surrogate.
#[derive(Clone, Copy)]
pub struct Utf16Source<'a> {
    units: &'a [u16],
    place: usize,
    ghost are_units: { (k : ℕ) → slice_index units.now k < 2 ^ 16 },
    ghost in_range: { place ≤ length units.now },
}

/// Returns the scalar at a place of the code units, or `None` at their end.
#[inline]
fn unit_scalar_at(units: &[u16], place: usize) -> Option<char>
    requires { place ≤ length units.now }
    ensures { result ≡ slice_get (unit_scalars (drop place units.now)) 0 }
{
    if place == units.len() {
        return None;
    }
    let high = u32::from(units[place]);
    if high < 0xD800 || high >= 0xE000 {
        return Some(scalar_of(high));
    }
    if high >= 0xDC00 || units.len() - place < 2 {
        return Some(char::REPLACEMENT_CHARACTER);
    }
    let low = u32::from(units[place + 1]);
    if low < 0xDC00 || low >= 0xE000 {
        return Some(char::REPLACEMENT_CHARACTER);
    }
    Some(scalar_of(0x1_0000 + (high - 0xD800) * 0x400 + (low - 0xDC00)))
}

/// Returns ten code units from a place on.
#[inline(always)]
fn ten_at(units: &[u16], place: usize) -> [u16; 10]
    requires { place + 10 ≤ length units.now }
    ensures { result ≡ take 10 (drop place units.now) }
{
    [
        units[place],
        units[place + 1],
        units[place + 2],
        units[place + 3],
        units[place + 4],
        units[place + 5],
        units[place + 6],
        units[place + 7],
        units[place + 8],
        units[place + 9],
    ]
}

impl<'a> Utf16Source<'a> {
    ghost use Rattle.legacy_text.specs.TextSources.{utf16_units, utf16_place};

    /// Returns a source before the first scalar of the code units.
    pub fn new(units: &'a [u16]) -> Utf16Source<'a>
        ensures units { utf16_units result ≡ units.now }
        ensures place { utf16_place result ≡ 0 }
    {
        Utf16Source { units, place: 0 }
    }
}

impl Source for Utf16Source<'_> {
    ghost use Rattle.legacy_text.specs.TextSources.{utf16_left, utf16_place};

    ghost form = { Utf16 };

    ghost left = { utf16_left };

    ghost passed = { utf16_place };

    #[inline]
    fn peek(&self) -> Option<char> {
        unit_scalar_at(self.units, self.place)
    }

    #[inline]
    fn advance(&mut self) {
        if let Some(c) = unit_scalar_at(self.units, self.place) {
            self.place += c.len_utf16();
        }
    }

    #[inline]
    fn consumed(&self) -> usize {
        self.place
    }

    #[inline(always)]
    fn read_by<L: ReadingLoop>(&mut self, reading: &L, dst: &mut [u8], start: usize) -> usize {
        let mut own = *self;
        let end = reading.read(&mut own, dst, start);
        *self = own;
        end
    }
}

impl TextCursor for Utf16Source<'_> {
    ghost use Rattle.legacy_text.specs.TextSources.{utf16_left, utf16_place};

    ghost form = { Utf16 };

    ghost left = { utf16_left };

    ghost passed = { utf16_place };

    #[inline(always)]
    #[tactic(auto, using(crate::proofs::Texts::next_steps, crate::proofs::CodeUnits::encoding_utf16))]
    fn front(&self) -> Next {
        match unit_scalar_at(self.units, self.place) {
            None => Next::End,
            Some(c) if (c as u32) < 0x1_0000 => Next::One(c),
            Some(c) => Next::Two(c),
        }
    }

    #[inline(always)]
    #[tactic(auto, using(crate::proofs::Texts::utf16_next))]
    fn pass(&mut self, count: usize) {
        self.place += count;
    }

    #[inline(always)]
    fn is_in_ascii(&self) -> bool {
        let units = self.units;
        units.len() - self.place >= 8 && (units[self.place] | units[self.place + 1]) < 0x80
    }

    #[inline(always)]
    #[tactic(auto, using(crate::proofs::Texts::ascii_steps))]
    fn copy_ascii(&mut self, dst: &mut [u8], at: usize) -> usize {
        let count = copy_ascii_units(&self.units[self.place..], dst, at);
        self.place += count;
        count
    }

    #[inline(always)]
    fn has_tens(&self, before: char) -> bool {
        (before as u32) >= 0x80
    }

    #[inline(always)]
    #[tactic(auto, using(crate::proofs::Texts::takes_units))]
    fn take_ten(&mut self) -> Option<[u16; 10]> {
        if self.units.len() - self.place < 10 {
            return None;
        }
        let units = ten_at(self.units, self.place);
        self.place += 10;
        Some(units)
    }

    #[inline(always)]
    fn has_blocks(&self) -> bool {
        self.units.len() - self.place >= 16
    }

    #[inline(always)]
    fn copy_codes<C: UnitCodes>(&mut self, codes: &C, dst: &mut [u8], at: usize) -> usize {
        let count = copy_unit_codes(codes, &self.units[self.place..], dst, at);
        self.place += count;
        count
    }
}
