//! What is done with a decoder that is made of its numbers.
ghost use Rattle.std.specs.Prelude.{◌≡◌, ◌≤◌, ℕ, [], List, Bool, length, take};
ghost use Rattle.legacy_base.specs.States.{DecoderState};
ghost use Rattle.legacy_text.specs.EncodingForm.{Utf8, Utf16};
ghost use Rattle.legacy_c.specs.DecoderCalls.{Reads, RawCall, ReplacingCall, raw_answer, replacing_answer};
ghost use Rattle.legacy_c.specs.Queries.{decoder_query};
ghost use Rattle.legacy_base.specs.Lengths.{query_answer};

use crate::saved::DecoderAnswer;
use legacy_base::{DecoderResult, RawDecoder};
use legacy_codecs::{CoderResult, decode_replacing_utf8, decode_replacing_utf16};

/// What is done with a decoder, over an output of code units `U`, with a result `R`.
pub trait DecoderTask<U, R> {
    /// What holds of the state and the output before, and of the state, the result and the output after.
    ghost gives: { Self → DecoderState → List U → DecoderState → R → List U → Type 0 };

    /// The bytes that it reads.
    ghost bytes: { Self → List ℕ };

    /// Returns the bytes that it reads.
    fn source(&self) -> &[u8]
        ensures { result.now ≡ bytes self.now };

    /// Does the task. Returns its result, and the number of bytes read.
    fn run<D: RawDecoder>(&self, decoder: &mut D, output: &mut [U]) -> (R, usize)
        ensures gives { gives self.now (D.state decoder.old) output.old (D.state decoder.new) result.0 output.new }
        ensures reads { Reads (D.state decoder.old) (bytes self.now) result.1 (D.state decoder.new) };
}

/// A raw call.
#[derive(Clone, Copy)]
pub struct Raw<'a> {
    /// The bytes.
    pub source: &'a [u8],
    /// Whether no bytes follow.
    pub last: bool,
}

/// A call with replacement.
#[derive(Clone, Copy)]
pub struct Replacing<'a> {
    /// The bytes.
    pub source: &'a [u8],
    /// Whether no bytes follow.
    pub last: bool,
}

/// The result of a refused call.
pub const REFUSED: DecoderAnswer = DecoderAnswer {
    status: 3,
    length: 0,
    back: 0,
    replaced: false,
    read: 0,
    written: 0,
};

/// Returns the numbers of the result of a raw call.
fn raw_numbers(ended: DecoderResult, read: usize, written: usize) -> DecoderAnswer
    ensures { result ≡ raw_answer ended read written }
{
    let (status, length, back) = match ended {
        DecoderResult::InputEmpty => (0, 0, 0),
        DecoderResult::OutputFull => (1, 0, 0),
        DecoderResult::Malformed(length, back) => (2, length, back),
    };
    DecoderAnswer {
        status,
        length,
        back,
        replaced: false,
        read,
        written,
    }
}

/// Returns the numbers of the result of a call with replacement.
fn replacing_numbers(
    ended: CoderResult,
    replaced: bool,
    read: usize,
    written: usize,
) -> DecoderAnswer
    ensures { result ≡ replacing_answer ended replaced read written }
{
    let status = match ended {
        CoderResult::InputEmpty => 0,
        CoderResult::OutputFull => 1,
    };
    DecoderAnswer {
        status,
        length: 0,
        back: 0,
        replaced,
        read,
        written,
    }
}

impl DecoderTask<u8, DecoderAnswer> for Raw<'_> {
    ghost gives = { λ task before old after answer new. RawCall Utf8 task.source.now task.last (length old)
        before after answer (take answer.written new) × (answer.written ≤ length new) };

    ghost bytes = { λ task. task.source.now };

    fn source(&self) -> &[u8] {
        self.source
    }

    #[inline]
    fn run<D: RawDecoder>(&self, decoder: &mut D, output: &mut [u8]) -> (DecoderAnswer, usize) {
        let (ended, read, written) = decoder.decode_to_utf8_raw(self.source, output, self.last);
        (raw_numbers(ended, read, written), read)
    }
}

impl DecoderTask<u16, DecoderAnswer> for Raw<'_> {
    ghost gives = { λ task before old after answer new. RawCall Utf16 task.source.now task.last (length old)
        before after answer (take answer.written new) × (answer.written ≤ length new) };

    ghost bytes = { λ task. task.source.now };

    fn source(&self) -> &[u8] {
        self.source
    }

    #[inline]
    fn run<D: RawDecoder>(&self, decoder: &mut D, output: &mut [u16]) -> (DecoderAnswer, usize) {
        let (ended, read, written) = decoder.decode_to_utf16_raw(self.source, output, self.last);
        (raw_numbers(ended, read, written), read)
    }
}

impl DecoderTask<u8, DecoderAnswer> for Replacing<'_> {
    ghost gives = { λ task before old after answer new. ReplacingCall Utf8 task.source.now task.last (length old)
        before after answer (take answer.written new) × (answer.written ≤ length new) };

    ghost bytes = { λ task. task.source.now };

    fn source(&self) -> &[u8] {
        self.source
    }

    #[inline]
    fn run<D: RawDecoder>(&self, decoder: &mut D, output: &mut [u8]) -> (DecoderAnswer, usize) {
        let (ended, read, written, replaced) = decode_replacing_utf8(
            decoder,
            self.source,
            output,
            self.last,
        );
        (replacing_numbers(ended, replaced, read, written), read)
    }
}

impl DecoderTask<u16, DecoderAnswer> for Replacing<'_> {
    ghost gives = { λ task before old after answer new. ReplacingCall Utf16 task.source.now task.last (length old)
        before after answer (take answer.written new) × (answer.written ≤ length new) };

    ghost bytes = { λ task. task.source.now };

    fn source(&self) -> &[u8] {
        self.source
    }

    #[inline]
    fn run<D: RawDecoder>(&self, decoder: &mut D, output: &mut [u16]) -> (DecoderAnswer, usize) {
        let (ended, read, written, replaced) = decode_replacing_utf16(
            decoder,
            self.source,
            output,
            self.last,
        );
        (replacing_numbers(ended, replaced, read, written), read)
    }
}

/// A length query.
#[derive(Clone, Copy)]
pub enum Query {
    /// `max_utf8_buffer_length`.
    Utf8,
    /// `max_utf8_buffer_length_without_replacement`.
    Utf8WithoutReplacement,
    /// `max_utf16_buffer_length`.
    Utf16,
}

/// A length query for a number of bytes.
#[derive(Clone, Copy)]
pub struct Ask {
    /// The query.
    pub query: Query,
    /// The number of bytes.
    pub byte_length: usize,
}

impl DecoderTask<u8, Option<usize>> for Ask {
    ghost gives = { λ task before old after answer new.
        (answer ≡ query_answer (decoder_query task.query) before task.byte_length) × (after ≡ before) };

    ghost bytes = { λ task. [] };

    fn source(&self) -> &[u8] {
        &[]
    }

    fn run<D: RawDecoder>(&self, decoder: &mut D, output: &mut [u8]) -> (Option<usize>, usize) {
        let length = match self.query {
            Query::Utf8 => decoder.max_utf8_buffer_length(self.byte_length),
            Query::Utf8WithoutReplacement => {
                decoder.max_utf8_buffer_length_without_replacement(self.byte_length)
            }
            Query::Utf16 => decoder.max_utf16_buffer_length(self.byte_length),
        };
        (length, 0)
    }
}
