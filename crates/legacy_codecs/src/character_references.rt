//! Calls of an encoder that write a numeric character reference for each unmappable scalar.
ghost use Rattle.std.specs.Prelude.{◌≡◌, ℕ, ◌+◌, ◌-◌, ◌^◌, ◌<◌, ◌≤◌, List, ◌++◌, length, drop, take, decimal};
ghost use Rattle.std.specs.Str.{chars, IsCharBoundary};
ghost use Rattle.legacy_text.specs.EncodingForm.{total_unit_count};
ghost use Rattle.legacy_text.specs.Texts.{unit_scalars, IsUnitBoundary};
ghost use Rattle.legacy_base.specs.EncoderCalls.{EncoderCall};
ghost use Rattle.legacy_codecs.specs.References.{reference, ReplacingEncoderCall};

use crate::results::CoderResult;
use legacy_base::{EncoderResult, RawEncoder, Source, Utf8Source, Utf16Source};

/// The length in bytes of the longest reference, `&#1114111;`.
const REFERENCE_NEED: usize = 10;

/// The greatest number of digits of a scalar's number.
const DIGITS: usize = 7;

/// Writes the digits of the number into the array, so that they end at `end`.
///
/// Returns the place of the first digit.
#[tactic(auto, using(crate::proofs::ReferenceTexts::decimal_lengths))]
fn put_digits(text: &mut [u8; REFERENCE_NEED], end: usize, number: u32) -> usize
    requires end { end ≤ REFERENCE_NEED }
    requires room { DIGITS ≤ end }
    requires number { number < 10 ^ 7 }
    ensures place { end ≤ result + DIGITS }
    ensures within { result ≤ end }
    ensures digits { drop result text.new ≡ decimal number ++ drop end text.old }
{
    let mut rest = number;
    let mut place = end;
    'digits: while rest >= 10 {
        place -= 1;
        text[place] = b'0' + (rest % 10) as u8;
        rest /= 10;
    }
    place -= 1;
    text[place] = b'0' + rest as u8;
    place
}

/// Writes the reference of the scalar at the end of the array, and returns where it begins.
fn make_reference(text: &mut [u8; REFERENCE_NEED], c: char) -> usize
    ensures place { result ≤ REFERENCE_NEED }
    ensures reference { drop result text.new ≡ reference c }
{
    text[REFERENCE_NEED - 1] = b';';
    let digits = put_digits(text, REFERENCE_NEED - 1, c as u32);
    text[digits - 1] = b'#';
    text[digits - 2] = b'&';
    digits - 2
}

/// Writes the reference of the scalar at a place, and returns the place after it.
fn put_reference(dst: &mut [u8], at: usize, c: char) -> usize
    requires { at + REFERENCE_NEED ≤ length dst.old }
    ensures end { result ≡ at + length (reference c) }
    ensures within { result ≤ length dst.new }
    ensures bytes { take result dst.new ≡ take at dst.old ++ reference c }
{
    let mut text = [0; REFERENCE_NEED];
    let start = make_reference(&mut text, c);
    let end = at + (REFERENCE_NEED - start);
    dst[at..end].copy_from_slice(&text[start..]);
    end
}

/// Makes one call of the encoder into the output from a place on, without the last ten bytes.
///
/// Returns its result, and the place after the bytes that it wrote.
fn encode_from<E: RawEncoder, S: Source>(
    encoder: &mut E,
    src: &mut S,
    dst: &mut [u8],
    at: usize,
    last: bool,
) -> (EncoderResult, usize)
    requires { at + REFERENCE_NEED ≤ length dst.old }
    ensures call { (bytes : List ℕ) × EncoderCall (E.state encoder.old) (S.left src.old) last
        (length dst.old - REFERENCE_NEED - at) (E.state encoder.new) result.0 (S.left src.new) bytes
        × (take result.1 dst.new ≡ take at dst.old ++ bytes)
        × (result.1 ≡ at + length bytes) }
    ensures room { result.1 + REFERENCE_NEED ≤ length dst.new }
    ensures passed { S.passed src.new + total_unit_count S.form (S.left src.new)
        ≡ S.passed src.old + total_unit_count S.form (S.left src.old) }
{
    let end = dst.len() - REFERENCE_NEED;
    let (answer, written) = encoder.step(src, &mut dst[at..end], last);
    (answer, at + written)
}

/// Calls the encoder, and writes a reference after each result `Unmappable`.
///
/// It ends at any other result. It stops earlier if a reference has no room. Returns the result,
/// the number of bytes written, and whether a reference was written.
fn encode_replacing<E: RawEncoder, S: Source>(
    encoder: &mut E,
    src: &mut S,
    dst: &mut [u8],
    last: bool,
) -> (CoderResult, usize, bool)
    ensures call { ReplacingEncoderCall (E.state encoder.old) (S.left src.old) last (length dst.old)
        (E.state encoder.new) result.0 (S.left src.new) (take result.1 dst.new) result.2 }
    ensures written { result.1 ≤ length dst.new }
    ensures passed { S.passed src.new + total_unit_count S.form (S.left src.new)
        ≡ S.passed src.old + total_unit_count S.form (S.left src.old) }
{
    let mut written: usize = 0;
    let mut replaced = false;
    'calls: while dst.len() - written >= REFERENCE_NEED {
        let (answer, end) = encode_from(encoder, src, dst, written, last);
        written = end;
        match answer {
            EncoderResult::InputEmpty => return (CoderResult::InputEmpty, written, replaced),
            EncoderResult::OutputFull => return (CoderResult::OutputFull, written, replaced),
            EncoderResult::Unmappable(c) => {
                written = put_reference(dst, written, c);
                replaced = true;
            }
        }
    }
    if src.peek().is_some() {
        return (CoderResult::OutputFull, written, replaced);
    }
    // No scalar is left to report: the call shows whether the end has something to write.
    match encoder.step(src, &mut [], last).0 {
        EncoderResult::InputEmpty => (CoderResult::InputEmpty, written, replaced),
        EncoderResult::OutputFull | EncoderResult::Unmappable(_) => {
            (CoderResult::OutputFull, written, replaced)
        }
    }
}

/// Encodes text in UTF-8, with a numeric character reference for each unmappable scalar.
///
/// The text is read from the start of `src`, and a reference is written as `&#128169;` (Encoding
/// Standard, error mode "html"). Returns the result, the number of bytes read, the number of bytes
/// written to the start of `dst`, and whether a reference was written. What is read ends between
/// two characters. The bytes of `dst` after those written may change.
///
/// - `InputEmpty`: the whole of `src` was read. If `last` is set, the end of the text is written
///   too.
/// - `OutputFull`: the free bytes of `dst` are fewer than the encoder's next act and a reference
///   need, which is at most 14. If that is so when the call begins, nothing is read or written and
///   the encoder is unchanged.
///
/// Let `dst` be at least 10 bytes longer than the result of
/// `max_buffer_length_from_utf8_without_replacement` for the length of `src` or more. Then
/// `OutputFull` is only returned after a reference was written. After either result the encoder
/// continues from its state. The body of a loop over a text, with an output of at least 14 bytes:
///
/// ```text
/// let (result, read, written, _) = encode_replacing_utf8(encoder, text, &mut output, true);
/// bytes.extend_from_slice(&output[..written])?;
/// text = &text[read..];
/// if result == CoderResult::InputEmpty {
///     break;
/// }
/// ```
pub fn encode_replacing_utf8<E: RawEncoder>(
    encoder: &mut E,
    src: &str,
    dst: &mut [u8],
    last: bool,
) -> (CoderResult, usize, usize, bool)
    ensures call { ReplacingEncoderCall (E.state encoder.old) (chars src.now) last (length dst.old)
        (E.state encoder.new) result.0 (chars (drop result.1 src.now)) (take result.2 dst.new)
        result.3 }
    ensures boundary { IsCharBoundary src.now result.1 }
    ensures written { result.2 ≤ length dst.new }
{
    let mut source = Utf8Source::new(src);
    let (answer, written, replaced) = encode_replacing(encoder, &mut source, dst, last);
    (answer, source.consumed(), written, replaced)
}

/// Encodes text in UTF-16, with a numeric character reference for each unmappable scalar.
///
/// An unpaired surrogate is read as U+FFFD. It does what `encode_replacing_utf8` does, but reads
/// code units of UTF-16 and splits no pair of surrogates. The length is that of
/// `max_buffer_length_from_utf16_without_replacement`.
pub fn encode_replacing_utf16<E: RawEncoder>(
    encoder: &mut E,
    src: &[u16],
    dst: &mut [u8],
    last: bool,
) -> (CoderResult, usize, usize, bool)
    ensures call { ReplacingEncoderCall (E.state encoder.old) (unit_scalars src.now) last
        (length dst.old) (E.state encoder.new) result.0 (unit_scalars (drop result.1 src.now))
        (take result.2 dst.new) result.3 }
    ensures boundary { IsUnitBoundary src.now result.1 }
    ensures written { result.2 ≤ length dst.new }
{
    let mut source = Utf16Source::new(src);
    let (answer, written, replaced) = encode_replacing(encoder, &mut source, dst, last);
    (answer, source.consumed(), written, replaced)
}
