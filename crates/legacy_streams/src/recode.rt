//! Decodes a stream of bytes to lines of events.
ghost use Rattle.std.specs.Prelude.{◌≡◌, ℕ, ◌+◌, ◌*◌, ◌-◌, ◌^◌, ◌<◌, ◌≤◌, List, [], ◌++◌, length, map, slice_index, OnOk, OnErr};
ghost use Rattle.legacy_text.specs.EncodingForm.{Utf16};
ghost use Rattle.legacy_text.specs.Texts.{unit_scalars};
ghost use Rattle.legacy_base.specs.Calls.{DecoderCall, IsMalformedByte};
ghost use Rattle.legacy_streams.specs.Lines.{event_lines, malformed_events};
ghost use Rattle.legacy_streams.specs.LineBuffers.{line_bytes, line_room};
ghost use Rattle.legacy_base.specs.Calls.{reported_events};
ghost use Rattle.legacy_streams.specs.Recoding.{RecodesPiece, RecodesFront, RecodesAll, RecodesBeginning, RecodesPartly};

use crate::lines::{
    BATCH, CALL_LINES, LineBuffer, MALFORMED_BATCH, MALFORMED_LINE, SCALAR_LINE, TURN_LINES,
};
use crate::pieces::{PIECE, read_piece, rest_of};
use legacy_codecs::{DecodeEvent, DecoderResult, RawDecoder};
use std::io::{self, Read, Write};
use thiserror::Error;

/// The reason why recoding stopped.
#[derive(Debug, PartialEq, Eq, Drop, Error)]
pub enum RecodeError {
    /// A read failed, or the number of bytes exceeds `usize::MAX`.
    #[error("input: cannot be read")]
    Read,
    /// A write failed.
    #[error("output: cannot be written")]
    Write,
}

/// Appends the lines of the units that a call wrote, and then the line of what it reports.
///
/// `read` bytes of the input were read, this call included.
#[inline]
fn push_events(lines: &mut LineBuffer, units: &[u16], answer: DecoderResult, read: usize)
    requires { length units.now * SCALAR_LINE + MALFORMED_LINE ≤ line_room lines.old }
    ensures { line_bytes lines.new ≡ line_bytes lines.old
        ++ event_lines (map DecodeEvent.Scalar (unit_scalars units.now) ++ reported_events read answer) }
{
    lines.push_units(units);
    let DecoderResult::Malformed(sequence, back) = answer else {
        return;
    };
    let distance = usize::from(sequence) + usize::from(back);
    lines.push_malformed(read.saturating_sub(distance), usize::from(sequence));
}

/// Makes one call of the decoder on the `unread` bytes, and appends the lines of its events.
///
/// `total` bytes of the input come before them. Returns the call's result and the number of bytes
/// read. The contents of `batch` are lost.
fn lines_of_one_call<D: RawDecoder>(
    decoder: &mut D,
    unread: &[u8],
    last: bool,
    total: usize,
    batch: &mut [u16; BATCH],
    lines: &mut LineBuffer,
) -> (DecoderResult, usize)
    requires room { CALL_LINES ≤ line_room lines.old }
    requires total { total + length unread.now < 2 ^ 64 }
    ensures { (given : List ℕ)
        × DecoderCall Utf16 (D.state decoder.old) unread.now last BATCH (D.state decoder.new)
        result.0 result.1 given
        × (line_bytes lines.new ≡ line_bytes lines.old
        ++ event_lines (map DecodeEvent.Scalar given
        ++ reported_events (total + result.1) result.0)) }
{
    let (answer, read, written) = decoder.decode_to_utf16_raw(unread, batch, last);
    push_events(lines, &batch[..written], answer, total + read);
    (answer, read)
}

/// Appends the lines of bytes at the beginning that are each malformed by themselves.
///
/// `total` bytes of the input come before them.
/// Returns their number.
#[inline]
fn lines_of_malformed_bytes<D: RawDecoder>(
    decoder: &D,
    unread: &[u8],
    total: usize,
    lines: &mut LineBuffer,
) -> usize
    requires room { TURN_LINES ≤ line_room lines.old }
    requires total { total + length unread.now < 2 ^ 64 }
    ensures count { result ≤ length unread.now }
    ensures malformed_byte { (k : ℕ) → k < result
        → IsMalformedByte (D.state decoder.now) (slice_index unread.now k) }
    ensures text { line_bytes lines.new ≡ line_bytes lines.old
        ++ event_lines (malformed_events total result) }
    ensures room { CALL_LINES ≤ line_room lines.new }
{
    let most = unread.len().min(MALFORMED_BATCH);
    let count = decoder.malformed_bytes(&unread[..most]);
    lines.push_malformed_bytes(total, count);
    count
}

/// Decodes a whole piece, and writes the lines of its events.
///
/// `total` bytes of the input come before it. Returns the error of a failed write. The contents of
/// `batch` are lost. `lines` is empty before the call, and after it unless a write fails.
fn recode_piece<D: RawDecoder, W: Write>(
    decoder: &mut D,
    piece: &[u8],
    last: bool,
    total: usize,
    batch: &mut [u16; BATCH],
    lines: &mut LineBuffer,
    output: &mut W,
) -> io::Result<()>
    requires empty { line_bytes lines.old ≡ [] }
    requires total { total + length piece.now < 2 ^ 64 }
    ensures piece { OnOk result (RecodesPiece
        (D.state decoder.old) piece.now last total (D.state decoder.new)
        (W.contents output.old) (W.contents output.new)) }
    ensures empty { OnOk result (line_bytes lines.new ≡ []) }
    ensures err { OnErr result (RecodesFront
        (D.state decoder.old) piece.now last total (D.state decoder.new)
        (W.contents output.old) (W.contents output.new)) }
{
    let mut offset: usize = 0;
    'calls: loop {
        lines.make_room(output)?;
        offset += lines_of_malformed_bytes(decoder, rest_of(piece, offset), total + offset, lines);
        let unread = rest_of(piece, offset);
        let (answer, read) = lines_of_one_call(decoder, unread, last, total + offset, batch, lines);
        offset += read;
        if let DecoderResult::InputEmpty = answer {
            return lines.write_to(output);
        }
    }
}

/// Decodes the input to its end, and writes a line for each event.
///
/// The line is `U+0041` for a scalar, or `bad 3 1` for a malformed sequence with its place and its
/// length in bytes. A place counts from the first byte read here. A place before it, in bytes that
/// the decoder held back, is 0.
///
/// The input is read in pieces of up to 4096 bytes, and the lines of a piece are written before the
/// next one is read. An empty read is the end. If an error is returned, the lines written before it
/// remain. A failed write may end inside a line. The decoder continues after the bytes that were
/// decoded.
pub fn recode<D: RawDecoder, R: Read, W: Write>(
    decoder: &mut D,
    input: &mut R,
    output: &mut W,
) -> Result<(), RecodeError>
    // The whole input was read. The lines of all events of the held-back and read bytes were written.
    ensures ok { OnOk result (RecodesAll (D.state decoder.old) (D.state decoder.new)
        (R.remaining input.old) (R.remaining input.new)
        (W.contents output.old) (W.contents output.new)) }
    // The lines of the first events were written.
    ensures read { result ≡ Err RecodeError.Read → RecodesBeginning
        (D.state decoder.old) (D.state decoder.new)
        (R.remaining input.old) (R.remaining input.new)
        (W.contents output.old) (W.contents output.new) }
    // The lines of the first events were written, and perhaps a part of the lines of the next ones.
    ensures write { result ≡ Err RecodeError.Write → RecodesPartly
        (D.state decoder.old) (D.state decoder.new)
        (R.remaining input.old) (R.remaining input.new)
        (W.contents output.old) (W.contents output.new) }
{
    let mut buffer = [0u8; PIECE];
    let mut batch = [0u16; BATCH];
    let mut lines = LineBuffer::new();
    let mut total: usize = 0;
    'pieces: loop {
        let Some(count) = read_piece(input, &mut buffer, total) else {
            return Err(RecodeError::Read);
        };
        let last = count == 0;
        let piece = &buffer[..count];
        let Ok(()) = recode_piece(decoder, piece, last, total, &mut batch, &mut lines, output)
        else {
            return Err(RecodeError::Write);
        };
        if last {
            return Ok(());
        }
        total += count;
    }
}
