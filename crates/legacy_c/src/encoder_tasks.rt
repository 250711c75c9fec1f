//! What is done with an encoder that is made of its numbers.
ghost use Rattle.std.specs.Prelude.{◌≡◌, ◌≤◌, ℕ, List, length, take};
ghost use Rattle.legacy_base.specs.Encoders.{EncoderState, encoder_answer};
ghost use Rattle.legacy_c.specs.EncoderCalls.{RawUtf8Call, RawUtf16Call, ReplacingUtf8Call, ReplacingUtf16Call};
ghost use Rattle.legacy_c.specs.EncoderCalls.{raw_encoder_numbers, replacing_encoder_numbers};
ghost use Rattle.legacy_c.specs.EncoderQueries.{text_form};

use crate::saved::EncoderAnswer;
use crate::text_beginning::{read_beginning, with_rest};
use legacy_base::{EncoderResult, RawEncoder};
use legacy_codecs::{CoderResult, encode_replacing_utf8, encode_replacing_utf16};

/// What is done with an encoder, with a result `R`.
pub trait EncoderTask<R> {
    /// What holds of the state and the output before, and of the state, the result and the output after.
    ghost gives: { Self → EncoderState → List ℕ → EncoderState → R → List ℕ → Type 0 };

    /// Does the task, and returns its result.
    fn run<E: RawEncoder>(&self, encoder: &mut E, output: &mut [u8]) -> R
        ensures gives { gives self.now (E.state encoder.old) output.old (E.state encoder.new) result output.new }
        ensures codec { (E.state encoder.new).codec ≡ (E.state encoder.old).codec };
}

/// A raw call, by a text in UTF-8.
#[derive(Clone, Copy)]
pub struct RawUtf8<'a> {
    /// The text, which may be malformed.
    pub source: &'a [u8],
    /// Whether no text follows.
    pub last: bool,
}

/// A call with replacement, by a text in UTF-8.
#[derive(Clone, Copy)]
pub struct ReplacingUtf8<'a> {
    /// The text, which may be malformed.
    pub source: &'a [u8],
    /// Whether no text follows.
    pub last: bool,
}

/// A raw call, by a text in UTF-16.
#[derive(Clone, Copy)]
pub struct RawUtf16<'a> {
    /// The text.
    pub source: &'a [u16],
    /// Whether no text follows.
    pub last: bool,
}

/// A call with replacement, by a text in UTF-16.
#[derive(Clone, Copy)]
pub struct ReplacingUtf16<'a> {
    /// The text.
    pub source: &'a [u16],
    /// Whether no text follows.
    pub last: bool,
}

/// The result of a refused call of an encoder.
pub const REFUSED: EncoderAnswer = EncoderAnswer {
    status: 3,
    scalar: 0,
    length: 0,
    read: 0,
    written: 0,
    replaced: false,
};

/// Returns the numbers of the result of a raw call.
fn raw_numbers(ended: EncoderResult, read: usize, written: usize) -> EncoderAnswer
    ensures { result ≡ raw_encoder_numbers ended read written }
{
    let (status, scalar) = match ended {
        EncoderResult::InputEmpty => (0, 0),
        EncoderResult::OutputFull => (1, 0),
        EncoderResult::Unmappable(scalar) => (2, scalar as u32),
    };
    EncoderAnswer {
        status,
        scalar,
        length: 0,
        read,
        written,
        replaced: false,
    }
}

/// Returns the numbers of the result of a call with replacement.
fn replacing_numbers(
    ended: CoderResult,
    replaced: bool,
    read: usize,
    written: usize,
) -> EncoderAnswer
    ensures { result ≡ replacing_encoder_numbers ended replaced read written }
{
    let status = match ended {
        CoderResult::InputEmpty => 0,
        CoderResult::OutputFull => 1,
    };
    EncoderAnswer {
        status,
        scalar: 0,
        length: 0,
        read,
        written,
        replaced,
    }
}

impl EncoderTask<EncoderAnswer> for RawUtf8<'_> {
    ghost gives = { λ task before old after answer new. RawUtf8Call task.source.now task.last (length old)
        before after answer (take answer.written new) × (answer.written ≤ length new) };

    #[inline]
    fn run<E: RawEncoder>(&self, encoder: &mut E, output: &mut [u8]) -> EncoderAnswer {
        let begun = read_beginning(self.source);
        let last = self.last && begun.is_whole;
        let (ended, read, written) = encoder.encode_from_utf8_raw(begun.text, output, last);
        let answer = raw_numbers(ended, read, written);
        with_rest(self.source, &begun, self.last, answer)
    }
}

impl EncoderTask<EncoderAnswer> for ReplacingUtf8<'_> {
    ghost gives = { λ task before old after answer new. ReplacingUtf8Call task.source.now task.last (length old)
        before after answer (take answer.written new) × (answer.written ≤ length new) };

    #[inline]
    fn run<E: RawEncoder>(&self, encoder: &mut E, output: &mut [u8]) -> EncoderAnswer {
        let begun = read_beginning(self.source);
        let last = self.last && begun.is_whole;
        let (ended, read, written, replaced) = encode_replacing_utf8(
            encoder, begun.text, output, last,
        );
        let answer = replacing_numbers(ended, replaced, read, written);
        with_rest(self.source, &begun, self.last, answer)
    }
}

impl EncoderTask<EncoderAnswer> for RawUtf16<'_> {
    ghost gives = { λ task before old after answer new. RawUtf16Call task.source.now task.last (length old)
        before after answer (take answer.written new) × (answer.written ≤ length new) };

    #[inline]
    fn run<E: RawEncoder>(&self, encoder: &mut E, output: &mut [u8]) -> EncoderAnswer {
        let (ended, read, written) = encoder.encode_from_utf16_raw(self.source, output, self.last);
        raw_numbers(ended, read, written)
    }
}

impl EncoderTask<EncoderAnswer> for ReplacingUtf16<'_> {
    ghost gives = { λ task before old after answer new. ReplacingUtf16Call task.source.now task.last (length old)
        before after answer (take answer.written new) × (answer.written ≤ length new) };

    #[inline]
    fn run<E: RawEncoder>(&self, encoder: &mut E, output: &mut [u8]) -> EncoderAnswer {
        let (ended, read, written, replaced) = encode_replacing_utf16(
            encoder,
            self.source,
            output,
            self.last,
        );
        replacing_numbers(ended, replaced, read, written)
    }
}

/// The form of a text that an encoder is asked about.
#[derive(Clone, Copy)]
pub enum TextForm {
    /// UTF-8.
    Utf8,
    /// UTF-16.
    Utf16,
}

/// A length query for a number of code units.
#[derive(Clone, Copy)]
pub struct AskEncoder {
    /// The form of the text.
    pub form: TextForm,
    /// The number of code units.
    pub units: usize,
}

impl EncoderTask<Option<usize>> for AskEncoder {
    ghost gives = { λ task before old after answer new.
        (answer ≡ encoder_answer (text_form task.form) before task.units) × (after ≡ before) };

    fn run<E: RawEncoder>(&self, encoder: &mut E, output: &mut [u8]) -> Option<usize> {
        match self.form {
            TextForm::Utf8 => encoder.max_buffer_length_from_utf8_without_replacement(self.units),
            TextForm::Utf16 => encoder.max_buffer_length_from_utf16_without_replacement(self.units),
        }
    }
}
