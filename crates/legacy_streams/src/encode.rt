//! Encodes a stream of text in UTF-8 to bytes of an encoding.
ghost use Rattle.std.specs.Prelude.{◌≡◌, ◌≢◌, not, is_some, ℕ, List, [], ◌+◌, ◌-◌, ◌^◌, ◌<◌, ◌≤◌, ◌⊎◌, ◌++◌, length, take, drop, false, true, IsTrue, None, Err, IfOk, IfSome, IfNone, OnOk, OnErr, MatchOption};
ghost use Rattle.std.specs.Str.{chars, IsValidUpTo};
ghost use Rattle.std.specs.Str.Lossy.{utf8_error_len};
ghost use Rattle.std.specs.Io.KnownBytes.{Consumes, IsAtEnd, Keeps};
ghost use Rattle.legacy_streams.specs.TextEncoding.{EncodesText, EncodesFront, EncodesPiece, EncodesPieceFront};
ghost use Rattle.legacy_streams.specs.TextEncoding.{EncodesAll, EncodesBeginning, EncodesPartly, end_scalars};
ghost use Rattle.legacy_streams.specs.Utf8Texts.{IsChunk};
ghost use Rattle.legacy_streams.specs.Waiting.{waiting_bytes};

use crate::encoded::EncodedBytes;
use crate::pieces::{PIECE, read_piece, rest_of};
use crate::recode::RecodeError;
use legacy_codecs::{CoderResult, RawEncoder};
use std::io::{self, Read, Write};

/// The text that replaces a malformed sequence.
const REPLACEMENT: &str = "\u{FFFD}";

/// Encodes a text, and the encoder's end if `last` is set.
///
/// The bytes wait in `encoded`, which is written when it is full. Returns the error of a failed
/// write.
fn push_text<E: RawEncoder, W: Write>(
    encoder: &mut E,
    text: &str,
    last: bool,
    encoded: &mut EncodedBytes,
    output: &mut W,
) -> io::Result<()>
    ensures text { OnOk result (EncodesText
        (E.state encoder.old) (chars text.now) last (E.state encoder.new)
        (waiting_bytes encoded.old) (waiting_bytes encoded.new)
        (W.contents output.old) (W.contents output.new)) }
    ensures err { OnErr result (EncodesFront
        (E.state encoder.old) (chars text.now) last (E.state encoder.new)
        (waiting_bytes encoded.old) (W.contents output.old) (W.contents output.new)) }
{
    let mut rest = text;
    'calls: loop {
        encoded.make_room(output)?;
        let (answer, read) = encoded.encode(encoder, rest, last);
        match answer {
            CoderResult::InputEmpty => return Ok(()),
            CoderResult::OutputFull => rest = &rest[read..],
        }
    }
}

/// Checks whether more bytes could complete a character that these bytes begin.
fn is_cut(invalid: &[u8]) -> bool
    requires { IsValidUpTo invalid.now 0 }
    ensures none { result ≡ not (is_some (utf8_error_len invalid.now)) }
    ensures short { IsTrue result → length invalid.now < 4 }
{
    match str::from_utf8(invalid) {
        Ok(_) => false,
        Err(error) => error.error_len().is_none(),
    }
}

/// Checks whether the bytes after a chunk's text are held back: they end the piece, and are cut.
fn is_held(invalid: &[u8], at_end: bool) -> bool
    requires { IsTrue at_end → IsValidUpTo invalid.now 0 }
    ensures held { IsTrue result → IsTrue at_end × (utf8_error_len invalid.now ≡ None) × (length invalid.now < 4) }
    ensures malformed_sequence { result ≡ false → (at_end ≡ false) ⊎ (utf8_error_len invalid.now ≢ None) }
{
    at_end && is_cut(invalid)
}

/// Returns the longest text at the beginning of the bytes, and what is malformed or cut after it.
///
/// Returns `None` if there are no bytes.
fn first_chunk(bytes: &[u8]) -> Option<(&str, &[u8])>
    ensures { MatchOption result (length bytes.now ≡ 0)
        (λ chunk. IsChunk bytes.now chunk.0.now chunk.1.now) }
{
    match bytes.utf8_chunks().next() {
        Some(chunk) => Some((chunk.valid(), chunk.invalid())),
        None => None,
    }
}

/// Encodes the text of a piece.
///
/// The bytes wait in `encoded`, which is written when it is full. Returns the number of bytes at
/// the end of the piece that may begin a character, and are not encoded, or the error of a failed
/// write.
fn push_piece<E: RawEncoder, W: Write>(
    encoder: &mut E,
    piece: &[u8],
    encoded: &mut EncodedBytes,
    output: &mut W,
) -> io::Result<usize>
    requires { waiting_bytes encoded.old ≡ [] }
    ensures piece { IfOk result (λ held. EncodesPiece
        (E.state encoder.old) piece.now held (E.state encoder.new)
        (waiting_bytes encoded.new) (W.contents output.old) (W.contents output.new)) }
    ensures err { OnErr result (EncodesPieceFront
        (E.state encoder.old) piece.now (E.state encoder.new)
        (W.contents output.old) (W.contents output.new)) }
{
    let mut passed: usize = 0;
    'chunks: loop {
        let Some((text, invalid)) = first_chunk(rest_of(piece, passed)) else {
            return Ok(0);
        };
        push_text(encoder, text, false, encoded, output)?;
        passed += text.len() + invalid.len();
        if invalid.is_empty() {
            return Ok(0);
        }
        if is_held(invalid, passed == piece.len()) {
            return Ok(invalid.len());
        }
        push_text(encoder, REPLACEMENT, false, encoded, output)?;
    }
}

/// Reads a piece into the buffer, after the `held` bytes at its front.
///
/// Returns the number of bytes read, which is 0 at the end of the input. With the `total` bytes
/// before the piece it does not exceed `usize::MAX`. Returns `None` if a read fails or `total` is
/// `usize::MAX`.
#[tactic(auto, using(legacy_codecs::proofs::ReferenceTexts::front_of_part))]
fn read_after<R: Read>(input: &mut R, buffer: &mut [u8], held: usize, total: usize) -> Option<usize>
    requires { held < length buffer.old }
    ensures count { IfSome result (λ n. (held + n ≤ length buffer.new) × (total + n < 2 ^ 64)) }
    ensures bytes { IfSome result (λ n. (piece : List ℕ)
        × Consumes (R.remaining input.old) (R.remaining input.new) piece
        × (take (held + n) buffer.new ≡ take held buffer.old ++ piece)
        × (n ≡ 0 → IsAtEnd (R.remaining input.new))) }
    ensures kept { IfNone result (Keeps (R.remaining input.old) (R.remaining input.new)) }
{
    read_piece(input, &mut buffer[held..], total)
}

/// Returns the text left at the end of the input: U+FFFD if bytes are held back, else none.
#[tactic(auto, using(crate::proofs::EncodingUnderWay::end_of_none, crate::proofs::EncodingUnderWay::end_of_some))]
fn end_text(held: usize) -> &'static str
    ensures { chars result.now ≡ end_scalars held }
{
    if held == 0 {
        return "";
    }
    REPLACEMENT
}

/// Writes U+FFFD if the end of the input cuts a character, and the encoder's end.
///
/// Returns the error of a failed write. `encoded` is empty before the call.
fn write_end<E: RawEncoder, W: Write>(
    encoder: &mut E,
    held: usize,
    encoded: &mut EncodedBytes,
    output: &mut W,
) -> io::Result<()>
    requires { waiting_bytes encoded.old ≡ [] }
    ensures text { OnOk result (EncodesText
        (E.state encoder.old) (end_scalars held) true (E.state encoder.new)
        [] [] (W.contents output.old) (W.contents output.new)) }
    ensures err { OnErr result (EncodesFront
        (E.state encoder.old) (end_scalars held) true (E.state encoder.new)
        [] (W.contents output.old) (W.contents output.new)) }
{
    push_text(encoder, end_text(held), true, encoded, output)?;
    encoded.write_to(output)
}

/// Moves the last `left` of the first `filled` bytes to the front of the buffer.
#[tactic(auto, using(crate::proofs::EncodingUnderWay::kept_end))]
fn keep_end(buffer: &mut [u8], filled: usize, left: usize)
    requires left { left ≤ filled }
    requires filled { filled ≤ length buffer.old }
    ensures { take left buffer.new ≡ drop (filled - left) (take filled buffer.old) }
{
    buffer.copy_within(filled - left..filled, 0);
}

/// Encodes the input, a text in UTF-8, to its end, and writes its bytes.
///
/// Writes a decimal numeric character reference for each scalar that the encoding lacks. Each
/// malformed sequence of the input is U+FFFD, by the Standard's UTF-8 decoder, however the input is
/// split.
///
/// The input is read in pieces of up to 4096 bytes. The bytes of a piece are written before the
/// next one is read, except for up to three bytes at its end that begin a character. An empty read
/// is the end. If an error is returned, the bytes written before it remain. A failed write may end
/// inside a sequence of the encoding. The encoder continues after the scalars that were encoded.
pub fn encode_text<E: RawEncoder, R: Read, W: Write>(
    encoder: &mut E,
    input: &mut R,
    output: &mut W,
) -> Result<(), RecodeError>
    // The whole input was read. The bytes and references of all events of its text were written.
    ensures ok { OnOk result (EncodesAll (E.state encoder.old) (E.state encoder.new)
        (R.remaining input.old) (R.remaining input.new)
        (W.contents output.old) (W.contents output.new)) }
    // The bytes and references of the first events were written.
    ensures read { result ≡ Err RecodeError.Read → EncodesBeginning
        (E.state encoder.old) (E.state encoder.new)
        (R.remaining input.old) (R.remaining input.new)
        (W.contents output.old) (W.contents output.new) }
    // The bytes and references of the first events were written, and perhaps a part of those of the
    // next ones.
    ensures write { result ≡ Err RecodeError.Write → EncodesPartly
        (E.state encoder.old) (E.state encoder.new)
        (R.remaining input.old) (R.remaining input.new)
        (W.contents output.old) (W.contents output.new) }
{
    let mut buffer = [0u8; PIECE];
    let mut encoded = EncodedBytes::new();
    let mut held: usize = 0;
    let mut total: usize = 0;
    'pieces: loop {
        let Some(count) = read_after(input, &mut buffer, held, total) else {
            return Err(RecodeError::Read);
        };
        if count == 0 {
            return match write_end(encoder, held, &mut encoded, output) {
                Ok(()) => Ok(()),
                Err(_) => Err(RecodeError::Write),
            };
        }
        let filled = held + count;
        let Ok(left) = push_piece(encoder, &buffer[..filled], &mut encoded, output) else {
            return Err(RecodeError::Write);
        };
        let Ok(()) = encoded.write_to(output) else {
            return Err(RecodeError::Write);
        };
        keep_end(&mut buffer, filled, left);
        held = left;
        total += count;
    }
}
