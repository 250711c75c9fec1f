//! Rows of an encoder, and the function that follows them.
//!
//! A row is a call, a query or a run, with its wanted result.
use crate::codecs::Over;
use crate::compared::{Place, is_answer, is_refusal};
use crate::cuts::{small_lengths, spaced, text_pieces, unit_pieces};
use crate::encode_events::{Wanted, events_of};
use crate::source_texts::{Text, TextPieces};
use legacy_base::{EncodeEvent, EncoderResult, RawEncoder};
use legacy_codecs::RunError;
use legacy_coders::AnyEncoder;
use legacy_index_files::Codec;
use std::process::Abort;

/// A call, a query or a run of an encoder, with its wanted result.
#[derive(Drop)]
pub(crate) enum EncoderRow<'a> {
    /// A new encoder, and the name of the case that begins with it.
    Encoder(&'a str),
    /// A call from UTF-8.
    ///
    /// It has the text, the number of free bytes, whether it is the last call, the result, the
    /// number of bytes read, and the written bytes.
    FromUtf8(&'a str, usize, bool, EncoderResult, usize, &'a [u8]),
    /// A call from UTF-16: the same, but code units are read.
    FromUtf16(&'a [u16], usize, bool, EncoderResult, usize, &'a [u8]),
    /// A last call from UTF-8 with so few free bytes that it reads and writes nothing.
    Full(&'a str, usize),
    /// The queried length for a number of bytes of UTF-8.
    Utf8Length(usize, Option<usize>),
    /// The queried length for a number of UTF-16 code units.
    Utf16Length(usize, Option<usize>),
    /// The wanted result of the query for a pending state.
    Pending(bool),
    /// The events of runs of new encoders over the text, from UTF-8 and from UTF-16.
    ///
    /// One run has large outputs and the whole text. Others have outputs of 0 to 4 bytes and the
    /// text whole, scalar by scalar, and with an empty piece after each. A run with five outputs of
    /// 0 writes nothing and ends before the text does.
    Encodes(&'a str, &'a [Wanted<'a>]),
    /// A run from either form.
    ///
    /// It has the pieces, the lengths of the outputs, the events, the number of calls, and whether
    /// it is finished.
    RunFrom(TextPieces<'a, 'a>, &'a [usize], &'a [Wanted<'a>], usize, bool),
    /// A call from UTF-8 with references: the same as without, and whether a reference was written.
    ReplacedFromUtf8(&'a str, usize, bool, EncoderResult, usize, &'a [u8], bool),
    /// A call from UTF-16 with references.
    ReplacedFromUtf16(&'a [u16], usize, bool, EncoderResult, usize, &'a [u8], bool),
    /// The last call of a new encoder over all of a text, in which something is replaced, and the bytes.
    Replaced(Text<'a>, &'a [u8]),
    /// Refused runs over `a` with one output of this length, from either form, and their error.
    RefusedRuns(usize, &'a RunError),
}

/// An encoder, the data that it is made of, and a query that only one encoder has.
pub(crate) trait TestedEncoder: RawEncoder + Drop {
    /// The data that the encoder is made of.
    type Of: Copy;

    fn made(rt: &impl Abort, of: Self::Of) -> Self;

    fn pending(&self) -> Option<bool>;
}

impl<'a> TestedEncoder for AnyEncoder<'a> {
    type Of = Over<'a>;

    fn made(rt: &impl Abort, of: Over<'a>) -> AnyEncoder<'a> {
        if of.codec == Codec::SingleByte {
            return of.single_byte_encoder(rt);
        }
        match AnyEncoder::new(of.codec, of.tables, None) {
            Some(encoder) => encoder,
            None => panic!(rt; "no encoder"),
        }
    }

    fn pending(&self) -> Option<bool> {
        match self {
            AnyEncoder::Iso2022Jp(encoder) => Some(encoder.has_pending_state()),
            _ => None,
        }
    }
}

/// A text, the number of free bytes, whether the call is the last, and whether it writes references.
type Call<'a> = (Text<'a>, usize, bool, bool);

/// Makes a call, and compares its result with the wanted one.
fn encodes<E: RawEncoder>(
    rt: &impl Abort,
    place: Place,
    encoder: &mut E,
    (text, room, last, replaces): Call,
    wanted: (EncoderResult, usize, &[u8], bool),
) {
    let mut output = [0u8; 96];
    let free = &mut output[..room.min(96)];
    let (answer, read, written, replaced) = text.encode(encoder, free, last, replaces);
    let came = (answer, read, &output[..written.min(96)], replaced);
    is_answer(rt, place, text.form(), came, wanted);
}

/// The wanted result of a run.
///
/// It is the events, the number of calls if that is stated, and whether the run is finished.
type Ends<'a> = (&'a [EncodeEvent], Option<usize>, bool);

/// Makes a run, and compares its result with the wanted one.
fn goes<E: RawEncoder>(
    rt: &(impl AllocGlobal + Abort),
    place: Place,
    encoder: &mut E,
    (pieces, lengths): (TextPieces, &[usize]),
    (events, calls, finished): Ends,
) {
    let run = pieces.run(rt.alloc(), encoder, lengths);
    is_refusal(rt, place, pieces.form(), run.as_ref().err(), None);
    if let Ok(run) = run {
        let came = (run.events.as_slice(), run.finished);
        is_answer(rt, place, pieces.form(), came, (events, finished));
        if let Some(wanted) = calls {
            is_answer(rt, place, "the number of calls", run.calls, wanted);
        }
    }
}

/// Makes a run of a new encoder, and compares its result with the wanted one.
fn runs<E: TestedEncoder>(
    rt: &(impl AllocGlobal + Abort),
    place: Place,
    of: E::Of,
    input: (TextPieces, &[usize]),
    wanted: Ends,
) {
    goes(rt, place, &mut E::made(rt, of), input, wanted);
}

/// Returns the first 96 code units of the text, and their number.
fn units_of(text: &str) -> ([u16; 96], usize) {
    let mut units = [0u16; 96];
    let mut count = 0usize;
    for unit in text.encode_utf16() {
        if count < 96 {
            units[count] = unit;
            count += 1;
        }
    }
    (units, count)
}

/// Makes a run over these pieces with outputs of 0 to 4 bytes.
fn encodes_pieces<E: TestedEncoder>(
    rt: &(impl AllocGlobal + Abort),
    place: Place,
    of: E::Of,
    pieces: TextPieces,
    wanted: &[EncodeEvent],
) {
    let lengths = small_lengths();
    runs::<E>(rt, place, of, (pieces, &lengths), (wanted, None, true));
}

/// Makes runs over these pieces of a text in either form, and over these with an empty one after each.
fn encodes_in_both<E: TestedEncoder>(
    rt: &(impl AllocGlobal + Abort),
    place: Place,
    of: E::Of,
    (texts, units): (&[&str], &[&[u16]]),
    wanted: &[EncodeEvent],
) {
    encodes_pieces::<E>(rt, place, of, TextPieces::Utf8(texts), wanted);
    encodes_pieces::<E>(rt, place, of, TextPieces::Utf16(units), wanted);
    let all = spaced(texts, "");
    let pieces = TextPieces::Utf8(all.as_slice());
    encodes_pieces::<E>(rt, place, of, pieces, wanted);
    let all = spaced(units, &[]);
    let pieces = TextPieces::Utf16(all.as_slice());
    encodes_pieces::<E>(rt, place, of, pieces, wanted);
}

/// Makes a run that must be refused, and compares the error with the wanted one.
fn refuses<E: RawEncoder>(
    rt: &(impl AllocGlobal + Abort),
    place: Place,
    encoder: &mut E,
    (pieces, length): (TextPieces, usize),
    wanted: &RunError,
) {
    let run = pieces.run(rt.alloc(), encoder, &[length]);
    is_refusal(rt, place, pieces.form(), run.as_ref().err(), Some(wanted));
}

/// Follows the row of a query: compares the result with the wanted one.
fn follow_query<E: TestedEncoder>(rt: &impl Abort, place: Place, encoder: &E, row: &EncoderRow) {
    let (came, wanted) = match row {
        EncoderRow::Utf8Length(bytes, length) => (
            encoder.max_buffer_length_from_utf8_without_replacement(*bytes),
            *length,
        ),
        EncoderRow::Utf16Length(units, length) => (
            encoder.max_buffer_length_from_utf16_without_replacement(*units),
            *length,
        ),
        EncoderRow::Pending(is_pending) => {
            let came = encoder.pending();
            return is_answer(rt, place, "has_pending_state", came, Some(*is_pending));
        }
        _ => return,
    };
    is_answer(rt, place, "the length", came, wanted);
}

/// Follows the row of a run: makes it, and compares its result with the wanted one.
fn follow_run<E: RawEncoder>(
    rt: &(impl AllocGlobal + Abort),
    place: Place,
    encoder: &mut E,
    row: &EncoderRow,
) {
    match row {
        EncoderRow::RunFrom(pieces, lengths, events, calls, finished) => {
            let wanted = events_of(events);
            let ends = (wanted.as_slice(), Some(*calls), *finished);
            goes(rt, place, encoder, (*pieces, lengths), ends);
        }
        EncoderRow::RefusedRuns(length, error) => {
            let text = TextPieces::Utf8(&["a"]);
            refuses(rt, place, encoder, (text, *length), error);
            let units = TextPieces::Utf16(&[&[0x61]]);
            refuses(rt, place, encoder, (units, *length), error);
        }
        _ => {}
    }
}

/// Follows the row of a call: makes it, and compares its result with the wanted one.
fn follow_call<E: RawEncoder>(rt: &impl Abort, place: Place, encoder: &mut E, row: &EncoderRow) {
    let (call, wanted) = match row {
        EncoderRow::FromUtf8(text, room, last, answer, read, bytes) => (
            (Text::Utf8(*text), *room, *last, false),
            (*answer, *read, *bytes, false),
        ),
        EncoderRow::FromUtf16(units, room, last, answer, read, bytes) => (
            (Text::Utf16(*units), *room, *last, false),
            (*answer, *read, *bytes, false),
        ),
        EncoderRow::Full(text, room) => (
            (Text::Utf8(*text), *room, true, false),
            (EncoderResult::OutputFull, 0, [].as_slice(), false),
        ),
        EncoderRow::ReplacedFromUtf8(text, room, last, answer, read, bytes, replaced) => (
            (Text::Utf8(*text), *room, *last, true),
            (*answer, *read, *bytes, *replaced),
        ),
        EncoderRow::ReplacedFromUtf16(units, room, last, answer, read, bytes, replaced) => (
            (Text::Utf16(*units), *room, *last, true),
            (*answer, *read, *bytes, *replaced),
        ),
        _ => return,
    };
    encodes(rt, place, encoder, call, wanted);
}

/// Follows the row of a text that is replaced: makes a call of a new encoder.
fn follow_replaced<E: TestedEncoder>(rt: &impl Abort, place: Place, of: E::Of, row: &EncoderRow) {
    let (text, bytes) = match row {
        EncoderRow::Replaced(text, bytes) => (*text, *bytes),
        _ => return,
    };
    let wanted = (EncoderResult::InputEmpty, text.len(), bytes, true);
    encodes(
        rt,
        place,
        &mut E::made(rt, of),
        (text, 96, true, true),
        wanted,
    );
}

/// Makes the runs over a text, and over the same in code units of UTF-16: whole, and scalar by scalar.
fn encodes_in_cuts<E: TestedEncoder>(
    rt: &(impl AllocGlobal + Abort),
    place: Place,
    of: E::Of,
    (text, units): (&str, &[u16]),
    wanted: &[EncodeEvent],
) {
    let (texts, whole) = ([text], [units]);
    let (utf8, utf16) = (TextPieces::Utf8(&texts), TextPieces::Utf16(&whole));
    runs::<E>(rt, place, of, (utf8, &[48; 8]), (wanted, None, true));
    runs::<E>(rt, place, of, (utf16, &[48; 8]), (wanted, None, true));
    runs::<E>(rt, place, of, (utf8, &[0; 5]), (&[], Some(5), false));
    runs::<E>(rt, place, of, (utf16, &[0; 5]), (&[], Some(5), false));
    encodes_in_both::<E>(rt, place, of, (&texts, &whole), wanted);
    let texts = text_pieces(text);
    let units = unit_pieces(text, units);
    let scalars = (texts.as_slice(), units.as_slice());
    encodes_in_both::<E>(rt, place, of, scalars, wanted);
}

/// Follows the row of a text in all cuts.
fn follow_text<E: TestedEncoder>(
    rt: &(impl AllocGlobal + Abort),
    place: Place,
    of: E::Of,
    row: &EncoderRow,
) {
    if let EncoderRow::Encodes(text, wanted) = row {
        let wanted = events_of(wanted);
        let (units, count) = units_of(text);
        let input = (*text, &units[..count.min(96)]);
        encodes_in_cuts::<E>(rt, place, of, input, wanted.as_slice());
    }
}

/// Follows the rows in turn, each in one of these ways.
pub(crate) fn follow_encoder<E: TestedEncoder>(
    rt: &(impl AllocGlobal + Abort),
    of: E::Of,
    rows: &[EncoderRow],
) {
    let mut case = "";
    let mut encoder = E::made(rt, of);
    for (at, row) in rows.iter().enumerate() {
        if let EncoderRow::Encoder(name) = row {
            case = name;
            encoder = E::made(rt, of);
        }
        follow_call(rt, (case, at), &mut encoder, row);
        follow_run(rt, (case, at), &mut encoder, row);
        follow_query(rt, (case, at), &encoder, row);
        follow_text::<E>(rt, (case, at), of, row);
        follow_replaced::<E>(rt, (case, at), of, row);
    }
}
