//! The calls of a decoder.
ghost use Rattle.std.specs.Prelude.{◌≡◌, ℕ, ◌+◌, ◌<◌, ◌≤◌, [], length, take, slice_index};
ghost use Rattle.legacy_text.specs.EncodingForm.{Utf8, Utf16};
ghost use Rattle.legacy_base.specs.States.{DecoderState};
ghost use Rattle.legacy_base.specs.Lengths.{query_answer, to_utf16, to_utf8};
ghost use Rattle.legacy_base.specs.Lengths.{to_utf8_without_replacement};
ghost use Rattle.legacy_base.specs.Calls.{IsDecoderCall, IsMalformedByte};

use crate::results::DecoderResult;
use legacy_text::{Destination, Utf8Destination, Utf16Destination};

/// A streaming decoder of the Encoding Standard.
///
/// Bytes go in as they arrive, in slices of any length. Scalar values come out in UTF-8 or UTF-16,
/// into an output of any length. The scalars and malformed sequences together are the events that
/// the codec's grammar gives for the whole input. They do not depend on how the bytes are split,
/// nor on the lengths of the outputs. The caller passes the unread rest of a slice again before the
/// next slice. It sets `last` on the calls with the final slice and on no others.
pub trait RawDecoder {
    /// The grammar, and the held-back bytes.
    ghost state: { Self → DecoderState };

    /// Decodes bytes of `src` into `dst`, and returns the result and the number of bytes read.
    ///
    /// It reads `src` from its beginning, and ends at the first malformed sequence (Encoding
    /// Standard, "process a queue").
    ///
    /// - `InputEmpty`: all of `src` was read and no scalar is held back. If `last` is set, nothing
    ///   is left to report.
    /// - `OutputFull`: the decoder's next act needs more code units than are free. If this holds
    ///   when the call begins, nothing is read or written and the decoder is unchanged.
    /// - `Malformed`: the scalars before the malformed sequence were written (see the variant).
    ///
    /// After any result the decoder continues from its state, also after a last `InputEmpty`.
    fn step<T: Destination>(
        &mut self,
        src: &[u8],
        dst: &mut T,
        last: bool,
    ) -> (DecoderResult, usize)
        ensures call { IsDecoderCall T.form (state self.old) src.now last (T.room dst.old)
            (state self.new) result.0 result.1 (T.contents dst.old) (T.contents dst.new) }
        ensures room { T.room dst.new + length (T.contents dst.new)
            ≡ T.room dst.old + length (T.contents dst.old) }
        ensures loan { T.loan dst.new ≡ T.loan dst.old };

    /// Decodes bytes to UTF-8, up to the first malformed sequence.
    ///
    /// Returns the result of `step`, the number of bytes read and the number of bytes written to
    /// the beginning of `dst`. Only whole scalars are written. The bytes of `dst` after them may
    /// change. The body of a loop over an input in memory, with an output of at least 4 bytes:
    ///
    /// ```text
    /// let (result, read, written) = decoder.decode_to_utf8_raw(input, &mut output, true);
    /// text.extend_from_slice(&output[..written])?;
    /// input = &input[read..];
    /// match result {
    ///     DecoderResult::InputEmpty => break,
    ///     DecoderResult::OutputFull => continue,
    ///     DecoderResult::Malformed(length, back) => report(length, back),
    /// }
    /// ```
    fn decode_to_utf8_raw(
        &mut self,
        src: &[u8],
        dst: &mut [u8],
        last: bool,
    ) -> (DecoderResult, usize, usize)
        ensures call { IsDecoderCall Utf8 (state self.old) src.now last (length dst.old)
            (state self.new) result.0 result.1 [] (take result.2 dst.new) }
        ensures written { result.2 ≤ length dst.new }
    {
        let mut destination = Utf8Destination::new(dst);
        let (answer, read) = self.step(src, &mut destination, last);
        let written = destination.written();
        (answer, read, written)
    }

    /// Decodes bytes to UTF-16, up to the first malformed sequence.
    ///
    /// Returns the result of `step`, the number of bytes read and the number of code units written
    /// to the beginning of `dst`. Only whole scalars are written. The code units of `dst` after them
    /// may change. The body of a loop over one piece of several, with an output of at least 2 code
    /// units:
    ///
    /// ```text
    /// let (result, read, written) = decoder.decode_to_utf16_raw(piece, &mut output, false);
    /// text.extend_from_slice(&output[..written])?;
    /// piece = &piece[read..];
    /// match result {
    ///     DecoderResult::InputEmpty => break,
    ///     DecoderResult::OutputFull => continue,
    ///     DecoderResult::Malformed(_, _) => text.push(0xFFFD)?,
    /// }
    /// ```
    fn decode_to_utf16_raw(
        &mut self,
        src: &[u8],
        dst: &mut [u16],
        last: bool,
    ) -> (DecoderResult, usize, usize)
        ensures call { IsDecoderCall Utf16 (state self.old) src.now last (length dst.old)
            (state self.new) result.0 result.1 [] (take result.2 dst.new) }
        ensures written { result.2 ≤ length dst.new }
    {
        let mut destination = Utf16Destination::new(dst);
        let (answer, read) = self.step(src, &mut destination, last);
        let written = destination.written();
        (answer, read, written)
    }

    /// Returns a number of bytes at the beginning of `src` that are malformed one by one.
    ///
    /// Each of them is a malformed sequence by itself, whatever bytes follow, if nothing is held
    /// back. Reading one reports that sequence of one byte and leaves the decoder unchanged. A
    /// caller that reports them itself can therefore skip them without a call. The number may be
    /// less than there are, and may be 0. Nothing changes.
    fn malformed_bytes(&self, src: &[u8]) -> usize
        ensures count { result ≤ length src.now }
        ensures malformed_byte { (k : ℕ) → k < result
            → IsMalformedByte (state self.now) (slice_index src.now k) }
    {
        let _ = src.len();
        0
    }

    /// Returns a number of UTF-16 code units that is enough for at most `byte_length` more bytes.
    ///
    /// It is enough for the next call with at most that many bytes, and for several calls with that
    /// many bytes together. It includes U+FFFD for each malformed sequence. Returns `None` exactly
    /// if a step of the formula exceeds `usize::MAX`.
    fn max_utf16_buffer_length(&self, byte_length: usize) -> Option<usize>
        ensures { result ≡ query_answer to_utf16 (state self.now) byte_length };

    /// Returns a number of UTF-8 bytes that is enough for at most `byte_length` more bytes.
    ///
    /// It is enough for the next call with at most that many bytes, and for several calls with that
    /// many bytes together. It includes nothing for malformed sequences. Returns `None` exactly if
    /// a step of the formula exceeds `usize::MAX`.
    fn max_utf8_buffer_length_without_replacement(&self, byte_length: usize) -> Option<usize>
        ensures { result ≡ query_answer to_utf8_without_replacement (state self.now) byte_length };

    /// Returns a number of UTF-8 bytes that is enough for at most `byte_length` more bytes.
    ///
    /// It is enough for the next call with at most that many bytes, and for several calls with that
    /// many bytes together. It includes U+FFFD for each malformed sequence. Returns `None` exactly
    /// if a step of the formula exceeds `usize::MAX`.
    fn max_utf8_buffer_length(&self, byte_length: usize) -> Option<usize>
        ensures { result ≡ query_answer to_utf8 (state self.now) byte_length };
}
