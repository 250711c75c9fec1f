//! Decodes a stream of bytes to text in UTF-8.
ghost use Rattle.std.specs.Prelude.{◌≡◌, ◌≤◌, length, IfOk, OnErr};
ghost use Rattle.legacy_streams.specs.Text.{WritesPiece, WritesFront, WritesAll, WritesBeginning, WritesPartly};

use crate::pieces::{PIECE, read_piece, rest_of, write_whole};
use crate::recode::RecodeError;
use legacy_codecs::{CoderResult, RawDecoder, decode_replacing_utf8};
use std::io::{self, Read, Write};

/// The maximum number of bytes of text before a write: for a piece and the bytes held back before.
const TEXT: usize = 3 * PIECE + 32;

/// Decodes a whole piece, and writes its text.
///
/// Returns whether the text contains U+FFFD for a malformed sequence, or the error of a failed
/// write. The contents of `text` are lost.
fn write_piece<D: RawDecoder, W: Write>(
    decoder: &mut D,
    piece: &[u8],
    last: bool,
    text: &mut [u8],
    output: &mut W,
) -> io::Result<bool>
    requires { 4 ≤ length text.old }
    ensures piece { IfOk result (λ found. WritesPiece
        (D.state decoder.old) piece.now last (D.state decoder.new) found
        (W.contents output.old) (W.contents output.new)) }
    ensures err { OnErr result (WritesFront
        (D.state decoder.old) piece.now last (D.state decoder.new)
        (W.contents output.old) (W.contents output.new)) }
{
    let mut offset: usize = 0;
    let mut replaced = false;
    'calls: loop {
        let unread = rest_of(piece, offset);
        let (answer, read, written, found) = decode_replacing_utf8(decoder, unread, text, last);
        write_whole(output, &text[..written])?;
        offset += read;
        replaced |= found;
        if let CoderResult::InputEmpty = answer {
            return Ok(replaced);
        }
    }
}

/// Decodes the input to its end, and writes its text as UTF-8.
///
/// Writes U+FFFD for each malformed sequence, and returns whether there was one.
///
/// The input is read in pieces of up to 4096 bytes, and the text of a piece is written before the
/// next one is read. An empty read is the end. If an error is returned, the text written before it
/// remains. A failed write may end inside a scalar. The decoder continues after the bytes that were
/// decoded.
pub fn recode_text<D: RawDecoder, R: Read, W: Write>(
    decoder: &mut D,
    input: &mut R,
    output: &mut W,
) -> Result<bool, RecodeError>
    // The whole input was read. The text of all events of the held-back and read bytes was written.
    ensures ok { IfOk result (λ found. WritesAll (D.state decoder.old) (D.state decoder.new) found
        (R.remaining input.old) (R.remaining input.new)
        (W.contents output.old) (W.contents output.new)) }
    // The text of the first events was written.
    ensures read { result ≡ Err RecodeError.Read → WritesBeginning
        (D.state decoder.old) (D.state decoder.new)
        (R.remaining input.old) (R.remaining input.new)
        (W.contents output.old) (W.contents output.new) }
    // The text of the first events was written, and perhaps a part of the text of the next ones.
    ensures write { result ≡ Err RecodeError.Write → WritesPartly
        (D.state decoder.old) (D.state decoder.new)
        (R.remaining input.old) (R.remaining input.new)
        (W.contents output.old) (W.contents output.new) }
{
    let mut buffer = [0u8; PIECE];
    let mut text = [0u8; TEXT];
    let mut total: usize = 0;
    let mut any_replaced = false;
    'pieces: loop {
        let Some(count) = read_piece(input, &mut buffer, total) else {
            return Err(RecodeError::Read);
        };
        let last = count == 0;
        let Ok(found) = write_piece(decoder, &buffer[..count], last, &mut text, output) else {
            return Err(RecodeError::Write);
        };
        any_replaced |= found;
        if last {
            return Ok(any_replaced);
        }
        total += count;
    }
}
