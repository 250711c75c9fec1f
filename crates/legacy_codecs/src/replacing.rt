//! Calls of a decoder that write U+FFFD for each malformed sequence.
ghost use Rattle.std.specs.Prelude.{◌≡◌, ℕ, ◌+◌, ◌≤◌, List, ◌++◌, length, drop, take};
ghost use Rattle.legacy_text.specs.EncodingForm.{Utf8, Utf16, code_units, unit_count};
ghost use Rattle.legacy_codecs.specs.Replacing.{ReplacingDecoderCall};

use crate::results::CoderResult;
use legacy_base::{DecoderResult, Destination, RawDecoder, Utf8Destination, Utf16Destination};

/// Returns the bytes from the offset on.
#[inline]
pub(crate) fn rest_of(bytes: &[u8], offset: usize) -> &[u8]
    requires { offset ≤ length bytes.now }
    ensures { result.now ≡ drop offset bytes.now }
{
    &bytes[offset..]
}

/// Writes U+FFFD to the destination, which must have room for it.
#[inline(always)]
fn put_replacement<T: Destination>(dst: &mut T)
    requires { unit_count T.form 0xFFFD ≤ T.room dst.old }
    ensures contents { T.contents dst.new ≡ T.contents dst.old ++ code_units T.form 0xFFFD }
    ensures room { T.room dst.new + unit_count T.form 0xFFFD ≡ T.room dst.old }
    ensures loan { T.loan dst.new ≡ T.loan dst.old }
{
    dst.put(char::REPLACEMENT_CHARACTER);
}

/// Calls the decoder, and writes U+FFFD after each result `Malformed`.
///
/// It ends at any other result. Returns the result of the last call, the number of bytes read, and
/// whether U+FFFD was written for a malformed sequence.
#[inline(always)]
fn decode_replacing<D: RawDecoder, T: Destination>(
    decoder: &mut D,
    src: &[u8],
    dst: &mut T,
    last: bool,
) -> (CoderResult, usize, bool)
    ensures call { (written : List ℕ)
        × ReplacingDecoderCall T.form (D.state decoder.old) src.now last (T.room dst.old)
        (D.state decoder.new) result.0 result.1 written result.2
        × (T.contents dst.new ≡ T.contents dst.old ++ written) }
    ensures loan { T.loan dst.new ≡ T.loan dst.old }
{
    let mut read: usize = 0;
    let mut replaced = false;
    'calls: loop {
        let (answer, count) = decoder.step(rest_of(src, read), dst, last);
        read += count;
        match answer {
            DecoderResult::InputEmpty => return (CoderResult::InputEmpty, read, replaced),
            DecoderResult::OutputFull => return (CoderResult::OutputFull, read, replaced),
            DecoderResult::Malformed(_, _) => {
                put_replacement(dst);
                replaced = true;
            }
        }
    }
}

/// Decodes bytes to UTF-8, with U+FFFD for each malformed sequence.
///
/// It reads from the start of `src` and writes to the start of `dst` (Encoding Standard, error mode
/// "replacement"). Returns the result, the numbers of bytes read and written, and whether U+FFFD
/// was written for a malformed sequence. The bytes of `dst` after those written may change.
///
/// - `InputEmpty`: the whole of `src` was read and no scalar is held back. If `last` is set,
///   nothing is left to report.
/// - `OutputFull`: the decoder's next act needs more bytes than are free in `dst`. If that is so
///   when the call begins, nothing is read or written and the decoder is unchanged.
///
/// If `dst` is at least as long as the result of `max_utf8_buffer_length` for at least the length
/// of `src`, the result is `InputEmpty`. After either result the decoder continues from its state.
/// The body of a loop over an input in memory, with an output of at least 4 bytes:
///
/// ```text
/// let (result, read, written, _) = decode_replacing_utf8(decoder, input, &mut output, true);
/// text.extend_from_slice(&output[..written])?;
/// input = &input[read..];
/// if result == CoderResult::InputEmpty {
///     break;
/// }
/// ```
#[inline(never)]
pub fn decode_replacing_utf8<D: RawDecoder>(
    decoder: &mut D,
    src: &[u8],
    dst: &mut [u8],
    last: bool,
) -> (CoderResult, usize, usize, bool)
    ensures call { ReplacingDecoderCall Utf8 (D.state decoder.old) src.now last (length dst.old)
        (D.state decoder.new) result.0 result.1 (take result.2 dst.new) result.3 }
    ensures written { result.2 ≤ length dst.new }
{
    let mut destination = Utf8Destination::new(dst);
    let (answer, read, replaced) = decode_replacing(decoder, src, &mut destination, last);
    (answer, read, destination.written(), replaced)
}

/// Decodes bytes to UTF-16, with U+FFFD for each malformed sequence.
///
/// It does what `decode_replacing_utf8` does, but writes and counts code units of UTF-16. The
/// result is `InputEmpty` if `dst` is at least as long as the result of `max_utf16_buffer_length`
/// for at least the length of `src`.
#[inline(never)]
pub fn decode_replacing_utf16<D: RawDecoder>(
    decoder: &mut D,
    src: &[u8],
    dst: &mut [u16],
    last: bool,
) -> (CoderResult, usize, usize, bool)
    ensures call { ReplacingDecoderCall Utf16 (D.state decoder.old) src.now last (length dst.old)
        (D.state decoder.new) result.0 result.1 (take result.2 dst.new) result.3 }
    ensures written { result.2 ≤ length dst.new }
{
    let mut destination = Utf16Destination::new(dst);
    let (answer, read, replaced) = decode_replacing(decoder, src, &mut destination, last);
    (answer, read, destination.written(), replaced)
}
