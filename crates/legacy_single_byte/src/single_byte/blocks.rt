//! Decodes blocks of single-byte text: ASCII with single bytes past it, or eight bytes at a time.
// Functions that run for each block are always inlined. A call would pass vectors through memory,
// and keep the destination's place there.
#![tactic(auto, using(crate::proofs::SingleByteAhead::steps))]

ghost use Rattle.std.specs.{Prelude.{◌≡◌, ◌+◌, ◌*◌, ◌<◌, ◌≤◌, ◌++◌, [], ◌∷◌, All, true, false, length, take}, Char.IsScalar};
ghost use Rattle.{legacy_base.specs.{Grammar.{Grammar, single_byte}, States.new_state}, legacy_decoder_engine.specs.ReadAhead.{ReadsAhead, Writes}};
ghost use Rattle.legacy_text.specs.{EncodingForm.{all_code_units, bmp_need, total_unit_count}, PastAscii.ArePastFrom};

use super::scalars::ByteScalars;
use legacy_base::Destination;
use legacy_decoder_engine::lanes::are_known;
use legacy_decoder_engine::read_ahead::SLACK;
use legacy_text::are_all_below;
use legacy_text::past_ascii::{ascii_front, has_past_ascii, past_after, past_ascii};
use std::simd::prelude::*;

/// Writes eight scalars up to U+FFFF.
// In one script most eights are below U+0800, or most are not.
#[inline(always)]
fn put_units<T: Destination>(dst: &mut T, units: u16x8)
    requires scalars { All IsScalar units }
    requires room { 32 ≤ T.room dst.old }
    ensures contents { T.contents dst.new ≡ T.contents dst.old ++ all_code_units T.form units }
    ensures room { T.room dst.new + total_unit_count T.form units ≡ T.room dst.old }
    ensures loan { T.loan dst.new ≡ T.loan dst.old }
{
    if are_all_below(units, 0x800) {
        dst.put_eight_short(units);
    } else {
        dst.put_eight(units);
    }
}

/// A kind of part that a text consists of, one after another.
trait Parts {
    /// The grammar.
    ghost grammar: { Self → Grammar };

    /// Reads the part at the front, or nothing, and at most `most` bytes.
    ///
    /// `src` is longer than 64 bytes, so that whole vectors can be loaded. Returns the number of
    /// bytes read, and whether another part may follow.
    fn read_part<T: Destination>(&self, src: &[u8], most: usize, dst: &mut T) -> (usize, bool)
        requires source { 64 < length src.now }
        requires room { 70 ≤ T.room dst.old }
        ensures most { result.0 ≤ most }
        ensures ahead { ReadsAhead T.Destination (new_state (grammar self.now)) src.now result.0 dst.old dst.new }
        ensures goes_on { result.1 ≡ true → 0 < result.0 };
}

/// Reads parts from the front, at most `most` bytes, and returns the number of bytes read.
///
/// It ends at a part that no other may follow, or if at most 64 bytes are left.
#[inline(always)]
fn read_parts<P: Parts, T: Destination>(parts: &P, src: &[u8], most: usize, dst: &mut T) -> usize
    ensures most { result ≤ most }
    ensures ahead { ReadsAhead T.Destination (new_state (P.grammar parts.now)) src.now result dst.old dst.new }
{
    let mut at = 0;
    while at < most && src.len() - at > 64 && dst.free() >= 64 + 3 + SLACK {
        let (read, goes_on) = parts.read_part(&src[at..], most - at, dst);
        at += read;
        if !goes_on {
            return at;
        }
    }
    at
}

/// Returns the number of bytes read of a part of `end` bytes, and whether another part may follow.
#[inline(always)]
fn ended(read: usize, end: usize) -> (usize, bool)
    ensures read { result.0 ≡ read }
    ensures goes_on { result.1 ≡ true → 0 < read }
{
    (read, read > 0 && read == end)
}

/// The greatest number of bytes past ASCII in a block that is stored whole.
// In French text one byte of twenty is past ASCII.
const MANY: u32 = 16;

/// Writes the scalar of a byte past ASCII, if it has one, and returns whether it has.
#[inline(always)]
fn put_past<T: Destination>(scalars: &ByteScalars, byte: u8, dst: &mut T) -> bool
    requires past { 0x80 ≤ byte }
    requires room { 4 ≤ T.room dst.old }
    ensures some { result ≡ true →
        Writes T.Destination (single_byte scalars.now.table.now.entries) (byte ∷ []) dst.old dst.new × (T.room dst.old ≤ T.room dst.new + 3) }
    ensures none { result ≡ false → dst.new ≡ dst.old }
{
    match scalars.scalar(byte) {
        Some(scalar) => {
            dst.put_entry(scalar, scalars.utf8_entry(byte));
            true
        }
        None => false,
    }
}

/// Reads up to `end` bytes, given the bits of the bytes past ASCII.
///
/// It stops before two bytes past ASCII beside each other. Returns the number of bytes read, and whether another part may
/// follow.
#[inline(always)]
fn read_mostly_ascii<T: Destination>(
    scalars: &ByteScalars,
    src: &[u8],
    bits: u64,
    end: usize,
    dst: &mut T,
) -> (usize, bool)
    requires source { 64 < length src.now }
    requires bits { ArePastFrom bits src.now 0 }
    requires end { end ≤ 64 }
    requires room { 70 ≤ T.room dst.old }
    ensures most { result.0 ≤ end }
    ensures ahead { ReadsAhead T.Destination (new_state (single_byte scalars.now.table.now.entries)) src.now result.0
        dst.old dst.new }
    ensures goes_on { result.1 ≡ true → 0 < result.0 }
{
    let mut past = bits;
    let mut at = 0;
    loop {
        let count = ascii_front(past).min(end - at);
        dst.put_block(&src[at..], count);
        at += count;
        if at == end || src[at + 1] >= 0x80 {
            return ended(at, end);
        }
        if !put_past(scalars, src[at], dst) {
            return (at, false);
        }
        at += 1;
        if at == end || src.len() - at < 64 || dst.free() < 64 + 3 + SLACK {
            return (at, true);
        }
        past = past_after(past, count);
    }
}

/// Few bytes past ASCII, among ASCII.
// If a scalar may be several code units, a whole block is stored after each byte past ASCII, and the output after the
// next ASCII bytes is overwritten. So no branch depends on the place of the next byte past ASCII, which no processor
// predicts.
#[derive(Drop)]
struct MostlyAscii<'a> {
    scalars: &'a ByteScalars<'a>,
}

impl Parts for MostlyAscii<'_> {
    ghost grammar = { λ mostly_ascii. single_byte mostly_ascii.scalars.now.table.now.entries };

    /// Reads up to 64 bytes, or nothing if many are past ASCII.
    ///
    /// If a scalar may be several code units, it stops before two bytes past ASCII beside each other.
    #[inline(always)]
    fn read_part<T: Destination>(&self, src: &[u8], most: usize, dst: &mut T) -> (usize, bool) {
        let past = past_ascii(u8x64::from_slice(src));
        if past.count_ones() > MANY {
            return (0, false);
        }
        let end = most.min(64);
        if T::narrow() == 1 {
            return ended(dst.put_bytes(src, self.scalars.entries(), end), end);
        }
        read_mostly_ascii(self.scalars, src, past, end, dst)
    }
}

/// Decodes at most `most` bytes one by one, up to one that has no scalar. Returns the number of bytes read.
#[inline(always)]
fn read_singly<T: Destination>(scalars: &ByteScalars, src: &[u8], most: usize, dst: &mut T) -> usize
    requires source { most ≤ length src.now }
    requires room { 0 < most → 3 * most + 3 ≤ T.room dst.old }
    ensures most { result ≤ most }
    ensures units { bmp_need T.form ≡ 1 → T.room dst.old ≤ T.room dst.new + result }
    ensures ahead { ReadsAhead T.Destination (new_state (single_byte scalars.now.table.now.entries))
        src.now result dst.old dst.new }
{
    let mut at = 0;
    while at < most {
        match scalars.scalar(src[at]) {
            Some(scalar) => dst.put(scalar),
            None => return at,
        }
        at += 1;
    }
    at
}

/// Decodes eight bytes at a time, if each scalar is one code unit.
///
/// Returns the number of bytes read, and whether another part may follow: it read eights to the end of its count, and one
/// of the next eight bytes is past ASCII.
// Eight puts are faster than a vector of entries. A byte takes one code unit, but `read_singly` asks for three for each of
// its eight, and leaves three.
#[inline(always)]
fn read_eights<T: Destination>(
    scalars: &ByteScalars,
    src: &[u8],
    most: usize,
    dst: &mut T,
) -> (usize, bool)
    requires form { bmp_need T.form ≡ 1 }
    requires source { 64 < length src.now }
    requires room { 70 ≤ T.room dst.old }
    ensures most { result.0 ≤ most }
    ensures ahead { ReadsAhead T.Destination (new_state (single_byte scalars.now.table.now.entries)) src.now result.0
        dst.old dst.new }
    ensures goes_on { result.1 ≡ true → 0 < result.0 }
{
    let mut left = most.min(src.len() - 64).min(dst.free() - 24) / 8;
    let mut at = 0;
    while left > 0 {
        let read = read_singly(scalars, &src[at..], 8, dst);
        at += read;
        if read < 8 || !has_past_ascii(&src[at..]) {
            return (at, false);
        }
        left -= 1;
    }
    (at, at > 0)
}

/// Eight bytes at a time, of any kind.
#[derive(Drop)]
struct AnyBytes<'a> {
    scalars: &'a ByteScalars<'a>,
}

impl Parts for AnyBytes<'_> {
    ghost grammar = { λ any_bytes. single_byte any_bytes.scalars.now.table.now.entries };

    /// Decodes up to a byte that has no scalar.
    ///
    /// Another part may follow if one of the next eight bytes is past ASCII.
    #[inline(always)]
    fn read_part<T: Destination>(&self, src: &[u8], most: usize, dst: &mut T) -> (usize, bool) {
        if most < 8 {
            return (read_singly(self.scalars, src, most, dst), false);
        }
        if T::narrow() == 1 {
            return read_eights(self.scalars, src, most, dst);
        }
        let units = self.scalars.units(src);
        if !are_known(units) {
            return (read_singly(self.scalars, src, 8, dst), false);
        }
        put_units(dst, units);
        (8, has_past_ascii(&src[8..]))
    }
}

impl Parts for ByteScalars<'_> {
    ghost grammar = { λ scalars. single_byte scalars.table.now.entries };

    /// Reads ASCII with single bytes past it, and then eights with more of them.
    #[inline(always)]
    fn read_part<T: Destination>(&self, src: &[u8], most: usize, dst: &mut T) -> (usize, bool) {
        let front = read_parts(&MostlyAscii { scalars: self }, src, most, dst);
        let read = read_parts(
            &AnyBytes { scalars: self },
            &src[front..],
            most - front,
            dst,
        );
        (front + read, read > 0)
    }
}

/// Copies at most 64 bytes to the beginning of a text.
// The compiler copies 64 bytes by vectors, and any other number by a call.
#[inline(always)]
fn copy_last(src: &[u8], text: &mut [u8])
    requires most { length src.now ≤ 64 }
    requires room { 64 ≤ length text.old }
    ensures { take (length src.now) text.new ≡ src.now }
{
    if src.len() == 64 {
        text[..64].copy_from_slice(src);
    } else {
        text[..src.len()].copy_from_slice(src);
    }
}

/// Decodes the last 64 bytes of an input by parts, and nothing if there are more. Returns the number of bytes read.
// They are copied into an array with as many bytes after them: this makes short pieces fast.
#[inline(always)]
fn read_last<T: Destination>(scalars: &ByteScalars, src: &[u8], dst: &mut T) -> usize
    ensures { ReadsAhead T.Destination (new_state (single_byte scalars.now.table.now.entries)) src.now result dst.old dst.new }
{
    if src.len() > 64 {
        return 0;
    }
    let mut text = [0u8; 128];
    copy_last(src, &mut text);
    read_parts(scalars, &text, src.len(), dst)
}

/// Decodes text from the front, and returns the number of bytes read.
///
/// It stops before a byte that has no scalar, and if few code units are free.
#[inline(always)]
pub fn read_text<T: Destination>(scalars: &ByteScalars, src: &[u8], dst: &mut T) -> usize
    ensures { ReadsAhead T.Destination (new_state (single_byte scalars.now.table.now.entries)) src.now result dst.old dst.new }
{
    // Bytes without a scalar are often followed by more.
    if src.len() < 2 || scalars.scalar(src[0]).is_none() || scalars.scalar(src[1]).is_none() {
        return 0;
    }
    let at = read_parts(scalars, src, src.len(), dst);
    let end = at + read_last(scalars, &src[at..], dst);
    let most = (src.len() - end).min(dst.free().saturating_sub(SLACK) / 3);
    end + read_singly(scalars, &src[end..], most, dst)
}
