//! The calls of an encoder.
ghost use Rattle.std.specs.Prelude.{◌≡◌, ◌+◌, ◌≤◌, length, take, drop};
ghost use Rattle.std.specs.Str.{chars, IsCharBoundary};
ghost use Rattle.legacy_text.specs.EncodingForm.{Utf8, Utf16, total_unit_count};
ghost use Rattle.legacy_text.specs.Texts.{unit_scalars, IsUnitBoundary};
ghost use Rattle.legacy_base.specs.Encoders.{EncoderState, encoder_answer};
ghost use Rattle.legacy_base.specs.EncoderCalls.{EncoderCall};

use crate::results::EncoderResult;
use legacy_text::{Source, Utf8Source, Utf16Source};

/// A streaming encoder of the Encoding Standard.
///
/// Text goes in as it arrives, in pieces of any length. Bytes come out, into an output of any
/// length. The bytes and the unmappable scalars together are the events that the codec gives for
/// the whole text. They do not depend on how the text is split, nor on the lengths of the outputs.
/// The caller passes the unread rest of a piece again before the next piece. It sets `last` on the
/// calls with the final piece and on no others.
pub trait RawEncoder {
    /// The codec with its lists, and the encoder's mode.
    ghost state: { Self → EncoderState };

    /// Encodes scalars from what `src` has left into `dst`, and returns the result and a length.
    ///
    /// The length is the number of bytes written to the beginning of `dst`. The bytes of `dst` after
    /// them may change. The source keeps the place up to which it was read. The call ends at the
    /// first unmappable scalar (Encoding Standard, "process a queue").
    ///
    /// - `InputEmpty`: all of `src` was read. If `last` is set, the end is written too.
    /// - `OutputFull`: the encoder's next act needs more bytes than are free. If this holds when
    ///   the call begins, nothing is read or written and the encoder is unchanged.
    /// - `Unmappable`: the scalar was read, and has no bytes in the encoding.
    ///
    /// After any result the encoder continues from its state, also after a last `InputEmpty`.
    fn step<S: Source>(&mut self, src: &mut S, dst: &mut [u8], last: bool) -> (EncoderResult, usize)
        ensures call { EncoderCall (state self.old) (S.left src.old) last (length dst.old)
            (state self.new) result.0 (S.left src.new) (take result.1 dst.new) }
        ensures written { result.1 ≤ length dst.new }
        ensures passed { S.passed src.new + total_unit_count S.form (S.left src.new)
            ≡ S.passed src.old + total_unit_count S.form (S.left src.old) };

    /// Encodes a text in UTF-8, up to the first unmappable scalar.
    ///
    /// Returns the result of `step`, the number of bytes read and the number of bytes written to
    /// the beginning of `dst`. The bytes of `dst` after them may change. Reading stops between two
    /// characters. The body of a loop over a text, with an output of at least 4 bytes:
    ///
    /// ```text
    /// let (result, read, written) = encoder.encode_from_utf8_raw(text, &mut output, true);
    /// bytes.extend_from_slice(&output[..written])?;
    /// text = &text[read..];
    /// match result {
    ///     EncoderResult::InputEmpty => break,
    ///     EncoderResult::OutputFull => continue,
    ///     EncoderResult::Unmappable(scalar) => report(scalar),
    /// }
    /// ```
    fn encode_from_utf8_raw(
        &mut self,
        src: &str,
        dst: &mut [u8],
        last: bool,
    ) -> (EncoderResult, usize, usize)
        ensures call { EncoderCall (state self.old) (chars src.now) last (length dst.old)
            (state self.new) result.0 (chars (drop result.1 src.now)) (take result.2 dst.new) }
        ensures boundary { IsCharBoundary src.now result.1 }
        ensures written { result.2 ≤ length dst.new }
    {
        let mut source = Utf8Source::new(src);
        let (answer, written) = self.step(&mut source, dst, last);
        let read = source.consumed();
        (answer, read, written)
    }

    /// Encodes UTF-16 code units, up to the first unmappable scalar.
    ///
    /// An unpaired surrogate is read as U+FFFD. Returns the result of `step`, the number of code
    /// units read and the number of bytes written to the beginning of `dst`. The bytes of `dst`
    /// after them may change. Reading does not stop inside a surrogate pair. The body of a loop over
    /// a text, with an output of at least 4 bytes:
    ///
    /// ```text
    /// let (result, read, written) = encoder.encode_from_utf16_raw(units, &mut output, true);
    /// bytes.extend_from_slice(&output[..written])?;
    /// units = &units[read..];
    /// match result {
    ///     EncoderResult::InputEmpty => break,
    ///     EncoderResult::OutputFull => continue,
    ///     EncoderResult::Unmappable(_) => bytes.push(b'?')?,
    /// }
    /// ```
    fn encode_from_utf16_raw(
        &mut self,
        src: &[u16],
        dst: &mut [u8],
        last: bool,
    ) -> (EncoderResult, usize, usize)
        ensures call { EncoderCall (state self.old) (unit_scalars src.now) last (length dst.old)
            (state self.new) result.0 (unit_scalars (drop result.1 src.now)) (take result.2 dst.new) }
        ensures boundary { IsUnitBoundary src.now result.1 }
        ensures written { result.2 ≤ length dst.new }
    {
        let mut source = Utf16Source::new(src);
        let (answer, written) = self.step(&mut source, dst, last);
        let read = source.consumed();
        (answer, read, written)
    }

    /// Returns a number of bytes that is enough for at most `u16_length` more UTF-16 code units.
    ///
    /// It is enough for the next call with at most that many code units, and for several calls with
    /// that many together. It includes nothing for unmappable scalars. Returns `None` exactly if a
    /// step of the formula exceeds `usize::MAX`.
    fn max_buffer_length_from_utf16_without_replacement(&self, u16_length: usize) -> Option<usize>
        ensures { result ≡ encoder_answer Utf16 (state self.now) u16_length };

    /// Returns a number of bytes that is enough for at most `byte_length` more bytes of UTF-8.
    ///
    /// It is enough for the next call with at most that many bytes, and for several calls with that
    /// many together. It includes nothing for unmappable scalars. Returns `None` exactly if a step
    /// of the formula exceeds `usize::MAX`.
    fn max_buffer_length_from_utf8_without_replacement(&self, byte_length: usize) -> Option<usize>
        ensures { result ≡ encoder_answer Utf8 (state self.now) byte_length };
}
