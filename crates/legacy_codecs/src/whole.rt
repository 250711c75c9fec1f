//! Calls for whole inputs and whole texts, which allocate their output, and for pieces of an input.
ghost use Rattle.std.specs.Prelude.{◌≡◌, ◌↔◌, ℕ, ◌≤◌, [], length, take, string_bytes, IfOk, OnErr, Err, Some, None, IsTrue, true};
ghost use Rattle.std.specs.Str.{chars};
ghost use Rattle.legacy_text.specs.EncodingForm.{Utf8};
ghost use Rattle.legacy_base.specs.Encoders.{encoded, end_bytes};
ghost use Rattle.legacy_base.specs.Lengths.{query_answer, to_utf8};
ghost use Rattle.legacy_codecs.specs.References.{referenced_bytes};
ghost use Rattle.legacy_codecs.specs.WholeTexts.{text_of, IsReadWhole, IsSettled, TextGoesOn};

use crate::character_references::encode_replacing_utf8;
use crate::replacing::decode_replacing_utf8;
use crate::results::CoderResult;
use legacy_base::{RawDecoder, RawEncoder};
use std::alloc::{AllocError, Global};
use thiserror::Error;

/// Why a call for a whole input returned no result.
#[derive(Clone, Copy, Debug, PartialEq, Eq, Error)]
pub enum SizedError {
    /// The length of the buffer exceeds `usize::MAX`.
    #[error("input is too long")]
    TooLong,
    /// Allocation failed.
    #[error("memory")]
    Memory,
}

impl From<AllocError> for SizedError {
    ghost use Rattle.legacy_codecs.specs.declared.whole.SizedError.TheVariants.{Memory};

    ghost from_gives = { λ _ error. error ≡ Memory };

    fn from(_: AllocError) -> SizedError {
        SizedError::Memory
    }
}

/// Decodes a whole input and returns its text, with U+FFFD for each malformed sequence.
///
/// The result has the characters of the bytes that the decoder held back and of all of `input`,
/// whose end is the end of the input (Encoding Standard, error mode "replacement"). Then nothing is
/// left to write. Take a new decoder for the next input. The text of a new decoder is that of the
/// Standard's decoder (`laws::texts_are_the_standards`).
///
/// - `TooLong`: exactly if `max_utf8_buffer_length` returns `None` for the length of `input`.
/// - `Memory`: the allocation of that many bytes failed.
///
/// After either error the decoder is unchanged. `docs/USING.md` has a longer example,
/// `decode_by_file`.
///
/// ```text
/// let mut decoder = EucKrDecoder::new(&tables);
/// let text = decode_whole(alloc, &mut decoder, input)?;
/// ```
pub fn decode_whole<D: RawDecoder>(
    alloc: Global,
    decoder: &mut D,
    input: &[u8],
) -> Result<String, SizedError>
    ensures text { IfOk result (λ text.
        chars (string_bytes text) ≡ text_of (D.state decoder.old) input.now) }
    ensures end { IfOk result (λ text. text_of (D.state decoder.new) [] ≡ []) }
    ensures call { IfOk result (λ text. (free : ℕ) × IsReadWhole Utf8 true free
        (D.state decoder.old) input.now (D.state decoder.new) (string_bytes text)) }
    ensures too_long { (result ≡ Err SizedError.TooLong)
        ↔ query_answer to_utf8 (D.state decoder.old) (length input.now) ≡ None }
    ensures unchanged { OnErr result (decoder.new ≡ decoder.old) }
{
    let Some(length) = decoder.max_utf8_buffer_length(input.len()) else {
        return Err(SizedError::TooLong);
    };
    let Ok(mut text) = vec![in alloc; 0; length] else {
        return Err(SizedError::Memory);
    };
    let (_, _, written, _) = decode_replacing_utf8(decoder, input, text.as_mut_slice(), true);
    text.truncate(written);
    Ok(String::from_utf8(text).unwrap())
}

/// Decodes the next piece of an input to UTF-8, with U+FFFD for each malformed sequence.
///
/// Returns the number of bytes written to the beginning of `output`. The whole piece is read: pass
/// the next piece in the next call. If the piece ends inside a sequence, the decoder holds its
/// bytes back, and never a whole character. Set `last` for the final piece and for no other. After
/// it nothing is left to write. The bytes of `output` after those written may change.
///
/// `output` must be at least as long as the result of `max_utf8_buffer_length` for the length of
/// `piece` or more, queried after the previous piece. `docs/USING.md` has an example, `show_piece`.
pub fn decode_piece<D: RawDecoder>(
    decoder: &mut D,
    piece: &[u8],
    output: &mut [u8],
    last: bool,
) -> usize
    requires { (bytes : ℕ) × (need : ℕ) × (length piece.now ≤ bytes)
        × (query_answer to_utf8 (D.state decoder.old) bytes ≡ Some need)
        × (need ≤ length output.old) }
    ensures within { result ≤ length output.new }
    ensures text { TextGoesOn Utf8 last (D.state decoder.old) piece.now (D.state decoder.new)
        (take result output.new) }
    ensures settled { IsSettled (D.state decoder.new) }
    ensures end { IsTrue last → text_of (D.state decoder.new) [] ≡ [] }
    ensures call { IsReadWhole Utf8 last (length output.old) (D.state decoder.old) piece.now
        (D.state decoder.new) (take result output.new) }
{
    let (_, _, written, _) = decode_replacing_utf8(decoder, piece, output, last);
    written
}

/// Encodes a whole text, with a numeric character reference for each unmappable character.
///
/// The result has the bytes of all of `text` and of its end, for ISO-2022-JP with the escape back
/// to ASCII. A reference is written as `&#128169;` (Encoding Standard, error mode "html"). Then
/// the encoder can take another. The bytes of a new encoder are those of the Standard's encoder,
/// with tables as in `laws::texts_are_the_standards`.
///
/// If an allocation fails, the result is `AllocError`. The encoder may then have read a part of the
/// text: take a new one.
///
/// ```text
/// let mut encoder = EucKrEncoder::new(&tables);
/// let bytes = encode_whole(alloc, &mut encoder, text)?;
/// ```
pub fn encode_whole<E: RawEncoder>(
    alloc: Global,
    encoder: &mut E,
    text: &str,
) -> Result<Vec<u8>, AllocError>
    ensures bytes { IfOk result (λ bytes. bytes.items
        ≡ referenced_bytes (encoded (E.state encoder.old) (chars text.now) true)) }
    ensures end { IfOk result (λ bytes. end_bytes (E.state encoder.new) ≡ []) }
    ensures codec { IfOk result (λ bytes. (E.state encoder.new).codec ≡ (E.state encoder.old).codec) }
{
    let mut bytes = Vec::new(alloc);
    let mut rest = text;
    let mut output = [0; 64];
    'calls: loop {
        let (answer, read, written, _) = encode_replacing_utf8(encoder, rest, &mut output, true);
        bytes.extend_from_slice(&output[..written])?;
        match answer {
            CoderResult::InputEmpty => return Ok(bytes),
            CoderResult::OutputFull => rest = &rest[read..],
        }
    }
}

/// Decodes a whole input by one coder and encodes its text by another.
///
/// A malformed sequence becomes U+FFFD, as in `decode_whole`. Each character that the new encoding
/// lacks becomes a numeric character reference, as in `encode_whole`; U+FFFD may be one of them.
/// Then nothing is left in either coder.
///
/// It makes no list of pairs. For a long input pass an encoder that has one, such as
/// `CachedEncoder`.
///
/// - `TooLong`: exactly if `max_utf8_buffer_length` returns `None` for the length of `input`.
/// - `Memory`: an allocation failed.
///
/// After an error take new coders.
///
/// ```text
/// let mut decoder = ShiftJisDecoder::new(&tables);
/// let mut encoder = EucJpEncoder::new(&tables);
/// let bytes = transcode(alloc, &mut decoder, &mut encoder, input)?;
/// ```
pub fn transcode<D: RawDecoder, E: RawEncoder>(
    alloc: Global,
    decoder: &mut D,
    encoder: &mut E,
    input: &[u8],
) -> Result<Vec<u8>, SizedError>
    ensures bytes { IfOk result (λ bytes. let text = text_of (D.state decoder.old) input.now in
        bytes.items ≡ referenced_bytes (encoded (E.state encoder.old) text true)) }
    ensures end { IfOk result (λ bytes. (text_of (D.state decoder.new) [] ≡ [])
        × (end_bytes (E.state encoder.new) ≡ [])) }
    ensures codec { IfOk result (λ bytes. (E.state encoder.new).codec ≡ (E.state encoder.old).codec) }
    ensures too_long { (result ≡ Err SizedError.TooLong)
        ↔ query_answer to_utf8 (D.state decoder.old) (length input.now) ≡ None }
{
    let text = decode_whole(alloc, decoder, input)?;
    Ok(encode_whole(alloc, encoder, text.as_str())?)
}
