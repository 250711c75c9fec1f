//! The lines for events.
ghost use Rattle.std.specs.Prelude.{◌≡◌, ℕ, ◌+◌, ◌*◌, ◌-◌, ◌^◌, ◌<◌, ◌≤◌, List, [], ◌++◌, length, take, drop, map, decimal, true, OnOk, OnErr};
ghost use Rattle.std.specs.Fmt.{digit_glyph};
ghost use Rattle.std.specs.List.{range_with_len};
ghost use Rattle.std.specs.Io.KnownBytes.{Appends};
ghost use Rattle.legacy_text.specs.Texts.{unit_scalars};
ghost use Rattle.legacy_streams.specs.Lines.{event_line, event_lines, malformed_events};

use crate::line_parts::{HEADS, TAILS};
use crate::pieces::{rest_of, write_whole};
use legacy_codecs::{DecodeEvent, Source, Utf16Source};
use std::io::{self, Write};

/// The maximum number of UTF-16 code units that one call of a decoder writes.
pub const BATCH: usize = 1024;

/// The maximum number of bytes of a scalar's line.
pub const SCALAR_LINE: usize = 9;

/// The number of bytes of the line of a scalar of one code unit.
const FOUR_DIGIT_LINE: usize = 7;

/// The maximum number of bytes of a malformed sequence's line.
pub const MALFORMED_LINE: usize = 46;

/// The maximum number of decimal digits of a place or a length.
const DIGITS: usize = 20;

/// The maximum number of bytes of the lines of one decoder call.
pub const CALL_LINES: usize = BATCH * SCALAR_LINE + MALFORMED_LINE;

/// The maximum number of malformed sequences of one byte each whose lines are made at once.
pub const MALFORMED_BATCH: usize = 256;

/// The maximum number of bytes of lines made between two writes.
///
/// These are the lines of `MALFORMED_BATCH` malformed sequences and of one call.
pub const TURN_LINES: usize = MALFORMED_BATCH * MALFORMED_LINE + CALL_LINES;

/// The number of bytes of the array.
///
/// It has room for the lines of a call without a malformed sequence and for those of one more turn.
pub const CAPACITY: usize = 28672;

/// The decimal digits of a number, at the beginning of an array.
#[derive(Drop)]
struct Decimal {
    number: usize,
    digits: [u8; DIGITS],
    count: usize,
    ghost within: { count ≤ length digits },
    ghost front: { take count digits ≡ decimal number },
}

/// Lines that are collected in an array and written together.
///
/// Malformed sequences are usually near one another. The buffer keeps the digits of the last place
/// except its last two. The next line copies them if its place has the same ones.
#[derive(Drop)]
pub struct LineBuffer {
    bytes: [u8; CAPACITY],
    filled: usize,
    hundreds: Decimal,
    ghost in_range: { filled ≤ length bytes },
}

/// Returns the entry of a byte in a table of all bytes.
// Always inlined, so that the table is a constant at each use.
#[inline(always)]
fn entry(table: &[u64; 256], byte: u16) -> u64
    requires { byte < 256 }
    ensures { (number : ℕ → ℕ) → table.now ≡ map number (range_with_len 0 256) → result ≡ number byte }
{
    table[usize::from(byte)]
}

/// Returns the line of a scalar of one code unit, followed by one byte of 0.
#[inline(always)]
fn four_digit_line(unit: u16) -> [u8; 8]
    ensures { take FOUR_DIGIT_LINE result ≡ event_line (DecodeEvent.Scalar unit) }
{
    let head = entry(&HEADS, unit / 256);
    let tail = entry(&TAILS, unit % 256);
    (head + tail).to_le_bytes()
}

/// Stores a line and the byte after it, from the place `at` on.
#[inline(always)]
fn store_line(bytes: &mut [u8], at: usize, line: [u8; 8])
    requires { at + 8 ≤ length bytes.old }
    ensures { take (at + FOUR_DIGIT_LINE) bytes.new ≡ take at bytes.old ++ take FOUR_DIGIT_LINE line }
{
    bytes[at..at + 8].copy_from_slice(&line);
}

/// Returns the units from the place on.
#[inline]
fn units_from(units: &[u16], place: usize) -> &[u16]
    requires { place ≤ length units.now }
    ensures { result.now ≡ drop place units.now }
{
    &units[place..]
}

/// Stores the lines of the units before the first surrogate, from the place `at` on.
///
/// Returns the number of these units.
// The place of a line is a product, so that no line waits for the one before it.
#[inline]
fn put_four_digit_lines(bytes: &mut [u8], at: usize, units: &[u16]) -> usize
    requires { at + length units.now * SCALAR_LINE ≤ length bytes.old }
    ensures count { result ≤ length units.now }
    ensures text { take (at + result * FOUR_DIGIT_LINE) bytes.new ≡ take at bytes.old
        ++ event_lines (map DecodeEvent.Scalar (take result units.now)) }
    ensures scalars { unit_scalars units.now
        ≡ take result units.now ++ unit_scalars (drop result units.now) }
{
    let mut count = 0;
    'lines: while count < units.len() {
        let unit = units[count];
        if unit >= 0xD800 && unit < 0xE000 {
            return count;
        }
        store_line(bytes, at + count * FOUR_DIGIT_LINE, four_digit_line(unit));
        count += 1;
    }
    count
}

/// Returns the digit of a number below 16: `0` to `9`, or `A` to `F`.
#[inline]
fn hex_digit_of(number: u32) -> u8
    requires { number < 16 }
    ensures { result ≡ digit_glyph true number }
{
    if number < 10 {
        b'0' + number as u8
    } else {
        b'A' + (number as u8 - 10)
    }
}

/// Puts the digits of the number at the end of the array, and returns the place of the first.
#[tactic(auto, using(crate::proofs::EventLines::decimal_lengths))]
fn put_digits(digits: &mut [u8; DIGITS], number: usize) -> usize
    ensures place { result ≤ DIGITS }
    ensures digits { drop result digits.new ≡ decimal number }
{
    let mut rest = number;
    let mut place = DIGITS;
    'digits: while rest >= 10 {
        place -= 1;
        digits[place] = b'0' + (rest % 10) as u8;
        rest /= 10;
    }
    place -= 1;
    digits[place] = b'0' + rest as u8;
    place
}

/// Stores a whole array of digits from the place `at` on.
#[inline(always)]
fn store_digits(bytes: &mut [u8], at: usize, digits: [u8; DIGITS])
    requires { at + DIGITS ≤ length bytes.old }
    ensures { (n : ℕ) → n ≤ DIGITS → take (at + n) bytes.new ≡ take at bytes.old ++ take n digits }
{
    bytes[at..at + DIGITS].copy_from_slice(&digits);
}

/// Returns an array that begins with the digits.
fn at_front(digits: &[u8]) -> [u8; DIGITS]
    requires { length digits.now ≤ DIGITS }
    ensures { take (length digits.now) result ≡ digits.now }
{
    let mut front = [b'0'; DIGITS];
    front[..digits.len()].copy_from_slice(digits);
    front
}

/// Stores bytes from the place `at` on.
#[inline(always)]
fn store_part(bytes: &mut [u8], at: usize, part: &[u8])
    requires { at + length part.now ≤ length bytes.old }
    ensures { take (at + length part.now) bytes.new ≡ take at bytes.old ++ part.now }
{
    bytes[at..at + part.len()].copy_from_slice(part);
}

/// Stores the line of a malformed sequence of one byte from the place `at` on.
///
/// The digits of its place are those of `hundreds` and the two of `rest`. Returns the end of the
/// line.
// No place is read back from the array, so no line waits for an earlier store.
#[inline(always)]
#[tactic(auto, using(crate::proofs::EventLines::malformed_byte_line))]
fn put_malformed_line(bytes: &mut [u8], at: usize, hundreds: &Decimal, rest: usize) -> usize
    requires room { at + MALFORMED_LINE ≤ length bytes.old }
    requires some { 1 ≤ hundreds.now.number }
    requires rest { rest < 100 }
    requires place { hundreds.now.number * 100 + rest < 2 ^ 64 }
    ensures line { take result bytes.new ≡ take at bytes.old
        ++ event_line (DecodeEvent.Bad (hundreds.now.number * 100 + rest) 1) }
    ensures end { result ≤ at + MALFORMED_LINE }
{
    store_part(bytes, at, b"bad ");
    store_digits(bytes, at + 4, hundreds.digits);
    let end = at + 4 + hundreds.count;
    let (tens, ones) = (b'0' + (rest / 10) as u8, b'0' + (rest % 10) as u8);
    store_part(bytes, end, &[tens, ones, b' ', b'1', b'\n']);
    end + 5
}

/// Stores the lines of consecutive malformed sequences of one byte each, from `start` on.
///
/// The digits of their places are those of `hundreds` and two more: `rest` for the first sequence,
/// and one more for each after it. Returns the end of the lines.
fn put_malformed_lines(
    bytes: &mut [u8],
    start: usize,
    hundreds: &Decimal,
    rest: usize,
    count: usize,
) -> usize
    requires room { start + count * MALFORMED_LINE ≤ length bytes.old }
    requires some { 1 ≤ hundreds.now.number }
    requires rest { rest + count ≤ 100 }
    requires place { hundreds.now.number * 100 + rest + count ≤ 2 ^ 64 }
    ensures lines { take result bytes.new ≡ take start bytes.old
        ++ event_lines (malformed_events (hundreds.now.number * 100 + rest) count) }
    ensures end { result ≤ start + count * MALFORMED_LINE }
{
    let mut end = start;
    let mut done = 0;
    'lines: while done < count {
        end = put_malformed_line(bytes, end, hundreds, rest + done);
        done += 1;
    }
    end
}

impl Decimal {
    /// Returns the digits of the number.
    fn new(number: usize) -> Decimal
        ensures { result.number ≡ number }
    {
        let mut digits = [b'0'; DIGITS];
        let place = put_digits(&mut digits, number);
        let all = rest_of(&digits, place);
        Decimal {
            number,
            digits: at_front(all),
            count: all.len(),
        }
    }
}

impl LineBuffer {
    ghost use Rattle.legacy_streams.specs.LineBuffers.{line_bytes, line_room};

    /// Returns an empty buffer.
    pub fn new() -> LineBuffer
        ensures { line_bytes result ≡ [] }
    {
        LineBuffer {
            bytes: [0; CAPACITY],
            filled: 0,
            hundreds: Decimal::new(0),
        }
    }

    /// Returns the bytes of the lines.
    fn bytes(&self) -> &[u8]
        ensures { result.now ≡ line_bytes self.now }
    {
        &self.bytes[..self.filled]
    }

    /// Writes the lines and empties the buffer.
    ///
    /// If an error is returned, a front of their bytes was written.
    pub fn write_to<W: Write>(&mut self, output: &mut W) -> io::Result<()>
        ensures written { OnOk result (Appends
            (W.contents output.old) (W.contents output.new) (line_bytes self.old)) }
        ensures text { OnOk result (line_bytes self.new ≡ []) }
        ensures room { OnOk result (line_room self.new ≡ CAPACITY) }
        ensures err { OnErr result ((count : ℕ) × Appends
            (W.contents output.old) (W.contents output.new) (take count (line_bytes self.old))) }
    {
        write_whole(output, self.bytes())?;
        self.filled = 0;
        Ok(())
    }

    /// Writes the lines and empties the buffer if the lines of one more turn may not fit.
    ///
    /// If an error is returned, a front of their bytes was written.
    #[inline]
    pub fn make_room<W: Write>(&mut self, output: &mut W) -> io::Result<()>
        ensures written { OnOk result ((sent : List ℕ)
            × Appends (W.contents output.old) (W.contents output.new) sent
            × (line_bytes self.old ≡ sent ++ line_bytes self.new)) }
        ensures room { OnOk result (TURN_LINES ≤ line_room self.new) }
        ensures err { OnErr result ((count : ℕ) × Appends
            (W.contents output.old) (W.contents output.new) (take count (line_bytes self.old))) }
    {
        if CAPACITY - self.filled >= TURN_LINES {
            return Ok(());
        }
        self.write_to(output)
    }

    /// Appends the bytes.
    #[inline]
    fn push_all(&mut self, bytes: &[u8])
        requires { length bytes.now ≤ line_room self.old }
        ensures text { line_bytes self.new ≡ line_bytes self.old ++ bytes.now }
        ensures room { line_room self.new + length bytes.now ≡ line_room self.old }
    {
        let end = self.filled + bytes.len();
        self.bytes[self.filled..end].copy_from_slice(bytes);
        self.filled = end;
    }

    /// Appends the decimal digits of the number.
    fn push_decimal(&mut self, number: usize)
        requires { length (decimal number) ≤ line_room self.old }
        ensures text { line_bytes self.new ≡ line_bytes self.old ++ decimal number }
        ensures room { line_room self.new + length (decimal number) ≡ line_room self.old }
    {
        if number < 10 {
            return self.push_all(&[b'0' + number as u8]);
        }
        let mut digits = [b'0'; DIGITS];
        let first = put_digits(&mut digits, number);
        self.push_all(&digits[first..]);
    }

    /// Keeps the digits of the number, unless they are already kept.
    #[inline]
    fn keep_hundreds(&mut self, number: usize)
        ensures number { self.new.hundreds.number ≡ number }
        ensures text { line_bytes self.new ≡ line_bytes self.old }
        ensures room { line_room self.new ≡ line_room self.old }
    {
        if self.hundreds.number == number {
            return;
        }
        self.hundreds = Decimal::new(number);
    }

    /// Appends the kept digits.
    // Stores the whole array, because its length is a constant.
    #[inline]
    fn push_hundreds(&mut self)
        requires { DIGITS ≤ line_room self.old }
        ensures text { line_bytes self.new ≡ line_bytes self.old ++ decimal self.old.hundreds.number }
        ensures room { line_room self.new + length (decimal self.old.hundreds.number) ≡ line_room self.old }
    {
        store_digits(&mut self.bytes, self.filled, self.hundreds.digits);
        self.filled += self.hundreds.count;
    }

    /// Appends the decimal digits of a place.
    #[inline]
    #[tactic(auto, using(crate::proofs::EventLines::decimal_lengths))]
    fn push_place(&mut self, place: usize)
        requires { DIGITS + 2 ≤ line_room self.old }
        ensures text { line_bytes self.new ≡ line_bytes self.old ++ decimal place }
        ensures room { line_room self.new + length (decimal place) ≡ line_room self.old }
    {
        if place < 100 {
            return self.push_decimal(place);
        }
        self.keep_hundreds(place / 100);
        self.push_hundreds();
        let rest = place % 100;
        self.push_all(&[b'0' + (rest / 10) as u8, b'0' + (rest % 10) as u8]);
    }

    /// Appends the line of a scalar.
    #[tactic(auto, using(crate::proofs::EventLines::line_of_four, crate::proofs::EventLines::line_of_five, crate::proofs::EventLines::line_of_six))]
    pub fn push_scalar(&mut self, scalar: char)
        requires { SCALAR_LINE ≤ line_room self.old }
        ensures text { line_bytes self.new ≡ line_bytes self.old
            ++ event_line (DecodeEvent.Scalar scalar) }
        ensures room { line_room self.old ≤ line_room self.new + SCALAR_LINE }
    {
        let number = scalar as u32;
        let d = hex_digit_of(number / 0x1000 % 16);
        let e = hex_digit_of(number / 0x100 % 16);
        let f = hex_digit_of(number / 0x10 % 16);
        let g = hex_digit_of(number % 16);
        if number < 0x1_0000 {
            return self.push_all(&[b'U', b'+', d, e, f, g, b'\n']);
        }
        let b = hex_digit_of(number / 0x1_0000 % 16);
        if number < 0x10_0000 {
            return self.push_all(&[b'U', b'+', b, d, e, f, g, b'\n']);
        }
        let a = hex_digit_of(number / 0x10_0000 % 16);
        self.push_all(&[b'U', b'+', a, b, d, e, f, g, b'\n']);
    }

    /// Appends the lines of the units before the first surrogate, and returns their number.
    #[inline]
    fn push_four_digit_lines(&mut self, units: &[u16]) -> usize
        requires { length units.now * SCALAR_LINE ≤ line_room self.old }
        ensures count { result ≤ length units.now }
        ensures text { line_bytes self.new ≡ line_bytes self.old
            ++ event_lines (map DecodeEvent.Scalar (take result units.now)) }
        ensures room { line_room self.old ≤ line_room self.new + result * SCALAR_LINE }
        ensures scalars { unit_scalars units.now
            ≡ take result units.now ++ unit_scalars (drop result units.now) }
    {
        let count = put_four_digit_lines(&mut self.bytes, self.filled, units);
        self.filled += count * FOUR_DIGIT_LINE;
        count
    }

    /// Appends the line of the first scalar, and returns the number of its code units.
    fn push_first(&mut self, units: &[u16]) -> usize
        requires some { 0 < length units.now }
        requires room { SCALAR_LINE ≤ line_room self.old }
        ensures count { (0 < result) × (result ≤ length units.now) }
        ensures text { line_bytes self.new
            ++ event_lines (map DecodeEvent.Scalar (unit_scalars (drop result units.now)))
            ≡ line_bytes self.old ++ event_lines (map DecodeEvent.Scalar (unit_scalars units.now)) }
        ensures room { line_room self.old ≤ line_room self.new + SCALAR_LINE }
    {
        let Some(scalar) = Utf16Source::new(units).peek() else {
            return units.len();
        };
        self.push_scalar(scalar);
        scalar.len_utf16()
    }

    /// Appends the lines of the scalars of UTF-16 code units.
    pub fn push_units(&mut self, units: &[u16])
        requires { length units.now * SCALAR_LINE ≤ line_room self.old }
        ensures text { line_bytes self.new ≡ line_bytes self.old
            ++ event_lines (map DecodeEvent.Scalar (unit_scalars units.now)) }
        ensures room { line_room self.old ≤ line_room self.new + length units.now * SCALAR_LINE }
    {
        let mut place = self.push_four_digit_lines(units);
        'surrogates: while place < units.len() {
            place += self.push_first(units_from(units, place));
            place += self.push_four_digit_lines(units_from(units, place));
        }
    }

    /// Appends the line of a malformed sequence.
    #[inline]
    #[tactic(auto, using(crate::proofs::EventLines::malformed_line, crate::proofs::EventLines::decimal_lengths))]
    pub fn push_malformed(&mut self, place: usize, length_in_bytes: usize)
        requires { MALFORMED_LINE ≤ line_room self.old }
        ensures text { line_bytes self.new ≡ line_bytes self.old
            ++ event_line (DecodeEvent.Bad place length_in_bytes) }
        ensures room { line_room self.old ≤ line_room self.new + MALFORMED_LINE }
    {
        self.push_all(b"bad ");
        self.push_place(place);
        self.push_all(b" ");
        self.push_decimal(length_in_bytes);
        self.push_all(b"\n");
    }

    /// Appends lines of consecutive malformed sequences of one byte each, the first at `place`.
    ///
    /// Appends at most `most`: those whose places have the same digits except the last two. Returns
    /// their number.
    #[inline]
    #[tactic(auto, using(crate::proofs::EventLines::one_malformed_line))]
    fn push_malformed_hundred(&mut self, place: usize, most: usize) -> usize
        requires some { 0 < most }
        requires place { place + most ≤ 2 ^ 64 }
        requires room { most * MALFORMED_LINE ≤ line_room self.old }
        ensures count { (0 < result) × (result ≤ most) }
        ensures text { line_bytes self.new ≡ line_bytes self.old
            ++ event_lines (malformed_events place result) }
        ensures room { line_room self.old ≤ line_room self.new + result * MALFORMED_LINE }
    {
        if place < 100 {
            self.push_malformed(place, 1);
            return 1;
        }
        self.keep_hundreds(place / 100);
        let rest = place % 100;
        let count = most.min(100 - rest);
        self.filled = put_malformed_lines(
            &mut self.bytes,
            self.filled,
            &self.hundreds,
            rest,
            count,
        );
        count
    }

    /// Appends the lines of `count` malformed sequences of one byte each, the first at `place`.
    pub fn push_malformed_bytes(&mut self, place: usize, count: usize)
        requires place { place + count ≤ 2 ^ 64 }
        requires room { count * MALFORMED_LINE ≤ line_room self.old }
        ensures text { line_bytes self.new ≡ line_bytes self.old
            ++ event_lines (malformed_events place count) }
        ensures room { line_room self.old ≤ line_room self.new + count * MALFORMED_LINE }
    {
        let mut done = 0;
        'hundreds: while done < count {
            done += self.push_malformed_hundred(place + done, count - done);
        }
    }
}
