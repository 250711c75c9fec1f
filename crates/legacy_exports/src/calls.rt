//! The two kinds of calls: raw ones, and those with replacement.
ghost use Rattle.std.specs.Prelude.{◌≡◌, ℕ, Bool, ◌+◌, ◌≤◌, List, [], ◌∷◌, ◌++◌, length, take, MatchOption};
ghost use Rattle.legacy_base.specs.States.{DecoderState};
ghost use Rattle.legacy_base.specs.Encoders.{EncoderState};
ghost use Rattle.legacy_base.specs.Calls.{IsDecoderCall};
ghost use Rattle.legacy_base.specs.EncoderCalls.{EncoderCall};
ghost use Rattle.legacy_exports.specs.Decoding.{DecoderKind, raw_calls, replacing_calls, DecodingCall, end_of};
ghost use Rattle.legacy_exports.specs.Encoding.{EncodingCall, Replacement, question_mark, numeric_reference};

use crate::source_texts::Text;
use crate::unit::CodeUnit;
use legacy_base::{DecoderResult, EncoderResult, RawDecoder, RawEncoder};
use legacy_codecs::{
    CoderResult, decode_replacing_utf8, decode_replacing_utf16, encode_replacing_utf8,
    encode_replacing_utf16,
};

/// How a call ended, after what it reported was replaced.
#[derive(Clone, Copy)]
pub enum CallEnd {
    /// All that was passed is read.
    Read,
    /// The output is full.
    Full,
    /// Something was replaced, and more may be left.
    Replaced,
}

/// A kind of calls of a decoder, with outputs of these code units.
pub trait DecoderCalls<U: CodeUnit>: Copy {
    /// The kind of the calls.
    ghost kind: { DecoderKind };

    /// Calls a decoder, with U+FFFD for each malformed sequence.
    ///
    /// Returns how the call ended, the number of bytes read, and the number of code units written.
    fn decode<D: RawDecoder>(
        self,
        decoder: &mut D,
        source: &[u8],
        output: &mut [U],
        last: bool,
    ) -> (CallEnd, usize, usize)
        ensures call { DecodingCall kind U.form (D.state decoder.old) source.now last (length output.old)
            (D.state decoder.new) result.0 result.1 (U.units (take result.2 output.new)) }
        ensures read { result.1 ≤ length source.now }
        ensures written { result.2 ≤ length output.new };
}

/// A kind of calls of an encoder, with texts of this type.
pub trait EncoderCalls<T: Text>: Copy {
    /// What replaces an unmappable scalar.
    ghost kind: { Replacement };

    /// Calls an encoder, with a replacement for each unmappable scalar.
    ///
    /// Returns how the call ended, the text that is left, and the number of bytes written.
    fn encode<E: RawEncoder>(
        self,
        encoder: &mut E,
        text: T,
        output: &mut [u8],
        last: bool,
    ) -> (CallEnd, T, usize)
        ensures call { EncodingCall kind (E.state encoder.old) (T.scalars text) last
            (length output.old) (E.state encoder.new) result.0 (T.scalars result.1)
            (take result.2 output.new) }
        ensures written { result.2 ≤ length output.new };
}

/// Raw calls, which report what is to be replaced.
///
/// U+FFFD is written for a malformed sequence, and a question mark for an unmappable scalar.
#[derive(Clone, Copy)]
pub struct Raw;

/// Calls with replacement, which write U+FFFD and references.
#[derive(Clone, Copy)]
pub struct Replacing;

/// Writes U+FFFD after a raw call, if it reported a malformed sequence.
///
/// Returns how the call ended then, and the number of code units written.
#[inline(always)]
fn replace_malformed<U: CodeUnit>(
    answer: DecoderResult,
    output: &mut [U],
    written: usize,
) -> (CallEnd, usize)
    requires { written ≤ length output.old }
    ensures call { (before : DecoderState) (source : List ℕ) (last : Bool) (after : DecoderState) (read : ℕ)
        → IsDecoderCall U.form before source last (length output.old) after answer read []
        (U.units (take written output.old))
        → DecodingCall raw_calls U.form before source last (length output.old) after result.0 read
        (U.units (take result.1 output.new)) }
    ensures written { result.1 ≤ length output.new }
{
    match answer {
        DecoderResult::InputEmpty => (CallEnd::Read, written),
        DecoderResult::OutputFull => (CallEnd::Full, written),
        DecoderResult::Malformed(_, _) => match U::replace(output, written) {
            Some(end) => (CallEnd::Replaced, end),
            None => (CallEnd::Full, written),
        },
    }
}

/// Writes a question mark at a place, and returns the place after it, or `None` if it has no room.
fn put_question_mark(output: &mut [u8], at: usize) -> Option<usize>
    ensures room { MatchOption result (length output.old ≤ at)
        (λ end. (end ≡ at + 1) × (end ≤ length output.new)) }
    ensures bytes { MatchOption result (output.new ≡ output.old)
        (λ end. take end output.new ≡ take at output.old ++ 0x3F ∷ []) }
{
    if at >= output.len() {
        return None;
    }
    output[at] = 0x3F;
    Some(at + 1)
}

/// Writes a question mark after a raw call, if it reported an unmappable scalar.
///
/// Returns how the call ended then, and the number of bytes written.
#[inline(always)]
fn replace_unmappable(answer: EncoderResult, output: &mut [u8], written: usize) -> (CallEnd, usize)
    requires { written ≤ length output.old }
    ensures call { (before : EncoderState) (text : List ℕ) (last : Bool) (after : EncoderState) (left : List ℕ)
        → EncoderCall before text last (length output.old) after answer left
        (take written output.old)
        → EncodingCall question_mark before text last (length output.old) after result.0 left
        (take result.1 output.new) }
    ensures written { result.1 ≤ length output.new }
{
    match answer {
        EncoderResult::InputEmpty => (CallEnd::Read, written),
        EncoderResult::OutputFull => (CallEnd::Full, written),
        EncoderResult::Unmappable(_) => match put_question_mark(output, written) {
            Some(after) => (CallEnd::Replaced, after),
            None => (CallEnd::Full, written),
        },
    }
}

/// Returns how a call with replacement ended.
fn end_of(answer: CoderResult) -> CallEnd
    ensures { result ≡ end_of answer }
{
    match answer {
        CoderResult::InputEmpty => CallEnd::Read,
        CoderResult::OutputFull => CallEnd::Full,
    }
}

impl DecoderCalls<u8> for Raw {
    ghost kind = { raw_calls };

    #[inline(always)]
    fn decode<D: RawDecoder>(
        self,
        decoder: &mut D,
        source: &[u8],
        output: &mut [u8],
        last: bool,
    ) -> (CallEnd, usize, usize) {
        let (answer, read, written) = decoder.decode_to_utf8_raw(source, output, last);
        let (end, count) = replace_malformed(answer, output, written);
        (end, read, count)
    }
}

impl DecoderCalls<u16> for Raw {
    ghost kind = { raw_calls };

    #[inline(always)]
    fn decode<D: RawDecoder>(
        self,
        decoder: &mut D,
        source: &[u8],
        output: &mut [u16],
        last: bool,
    ) -> (CallEnd, usize, usize) {
        let (answer, read, written) = decoder.decode_to_utf16_raw(source, output, last);
        let (end, count) = replace_malformed(answer, output, written);
        (end, read, count)
    }
}

impl<'a> EncoderCalls<&'a str> for Raw {
    ghost kind = { question_mark };

    #[inline(always)]
    fn encode<E: RawEncoder>(
        self,
        encoder: &mut E,
        text: &'a str,
        output: &mut [u8],
        last: bool,
    ) -> (CallEnd, &'a str, usize) {
        let (answer, read, written) = encoder.encode_from_utf8_raw(text, output, last);
        let (end, count) = replace_unmappable(answer, output, written);
        (end, &text[read..], count)
    }
}

impl<'a> EncoderCalls<&'a [u16]> for Raw {
    ghost kind = { question_mark };

    #[inline(always)]
    fn encode<E: RawEncoder>(
        self,
        encoder: &mut E,
        text: &'a [u16],
        output: &mut [u8],
        last: bool,
    ) -> (CallEnd, &'a [u16], usize) {
        let (answer, read, written) = encoder.encode_from_utf16_raw(text, output, last);
        let (end, count) = replace_unmappable(answer, output, written);
        (end, &text[read..], count)
    }
}

impl DecoderCalls<u8> for Replacing {
    ghost kind = { replacing_calls };

    #[inline(always)]
    fn decode<D: RawDecoder>(
        self,
        decoder: &mut D,
        source: &[u8],
        output: &mut [u8],
        last: bool,
    ) -> (CallEnd, usize, usize) {
        let (answer, read, written, _) = decode_replacing_utf8(decoder, source, output, last);
        (end_of(answer), read, written)
    }
}

impl DecoderCalls<u16> for Replacing {
    ghost kind = { replacing_calls };

    #[inline(always)]
    fn decode<D: RawDecoder>(
        self,
        decoder: &mut D,
        source: &[u8],
        output: &mut [u16],
        last: bool,
    ) -> (CallEnd, usize, usize) {
        let (answer, read, written, _) = decode_replacing_utf16(decoder, source, output, last);
        (end_of(answer), read, written)
    }
}

impl<'a> EncoderCalls<&'a str> for Replacing {
    ghost kind = { numeric_reference };

    #[inline(always)]
    fn encode<E: RawEncoder>(
        self,
        encoder: &mut E,
        text: &'a str,
        output: &mut [u8],
        last: bool,
    ) -> (CallEnd, &'a str, usize) {
        let (answer, read, written, _) = encode_replacing_utf8(encoder, text, output, last);
        (end_of(answer), &text[read..], written)
    }
}

impl<'a> EncoderCalls<&'a [u16]> for Replacing {
    ghost kind = { numeric_reference };

    #[inline(always)]
    fn encode<E: RawEncoder>(
        self,
        encoder: &mut E,
        text: &'a [u16],
        output: &mut [u8],
        last: bool,
    ) -> (CallEnd, &'a [u16], usize) {
        let (answer, read, written, _) = encode_replacing_utf16(encoder, text, output, last);
        (end_of(answer), &text[read..], written)
    }
}
