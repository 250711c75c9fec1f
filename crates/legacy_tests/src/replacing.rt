//! Calls with replacement, and the functions that follow their rows.
use crate::compared::{Place, is_answer};
use crate::rows::Row::{Pieces, Text};
use crate::rows::{Row, TestedDecoder};
use crate::units::{Form, Output, Units};
use legacy_base::DecoderResult::InputEmpty;
use legacy_base::RawDecoder;
use std::process::Abort;

/// Decodes the input by calls with `room` code units free, and compares its text with the wanted one.
fn has_text<D: RawDecoder>(
    rt: &impl Abort,
    place: Place,
    decoder: &mut D,
    (input, room): (&[u8], usize),
    text: Units,
) {
    let form = text.form();
    let mut output = Output::new(form);
    let mut unread = input;
    for _call in 0..64 {
        let (answer, read, _) = output.decode(decoder, (unread, room, true), true);
        unread = &unread[read.min(unread.len())..];
        if answer == InputEmpty {
            break;
        }
    }
    is_answer(rt, place, form.name(), output.written(), text);
}

/// Follows the row of a text: makes calls with small outputs, and compares their text with the wanted one.
pub(crate) fn follow_text<D: TestedDecoder>(rt: &impl Abort, place: Place, of: D::Of, row: &Row) {
    if let Text(input, text, units) = row {
        for room in 4..16 {
            let wanted = Units::Utf8(text.as_bytes());
            has_text(rt, place, &mut D::made(rt, of), (input, room), wanted);
        }
        for room in 2..8 {
            let wanted = Units::Utf16(units);
            has_text(rt, place, &mut D::made(rt, of), (input, room), wanted);
        }
    }
}

/// Decodes a piece that is not the last one into an output of the queried length.
///
/// All of the piece must be read, and nothing replaced.
fn is_read<D: RawDecoder>(rt: &impl Abort, place: Place, decoder: &mut D, piece: &[u8]) {
    let length = decoder.max_utf16_buffer_length(piece.len()).unwrap_or(0);
    let mut output = Output::new(Form::Utf16);
    let came = output.decode(decoder, (piece, length, false), true);
    is_answer(rt, place, "a piece", came, (InputEmpty, piece.len(), false));
}

/// Follows the row of pieces: compares the result for each with the wanted one.
pub(crate) fn follow_pieces<D: RawDecoder>(
    rt: &impl Abort,
    place: Place,
    decoder: &mut D,
    row: &Row,
) {
    if let Pieces(input, size) = row {
        for piece in input.chunks((*size).max(1)) {
            is_read(rt, place, decoder, piece);
        }
    }
}
