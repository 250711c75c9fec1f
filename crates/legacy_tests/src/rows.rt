//! Rows of a decoder, and the function that follows them.
//!
//! A row is a call, a query or a run, with its wanted result.
use crate::codecs::Over;
use crate::compared::{Place, is_answer, is_refusal};
use crate::cuts::{byte_pieces, small_lengths, spaced};
use crate::events::{bad, events, events_of};
use crate::replacing::{follow_pieces, follow_text};
use crate::units::{Call, Form, Output, Units};
use legacy_base::{DecodeEvent, DecoderResult, RawDecoder};
use legacy_codecs::RunError;
use legacy_coders::AnyDecoder;
use std::process::Abort;

/// A call, a query or a run of a decoder, with its wanted result.
#[derive(Drop)]
pub(crate) enum Row<'a> {
    /// A new decoder, and the name of the case that begins with it.
    Decoder(&'a str),
    /// A call into UTF-8.
    ///
    /// It has the bytes, the number of free bytes, whether these bytes are the last, the result,
    /// the number of bytes read, and the written text.
    ToUtf8(&'a [u8], usize, bool, DecoderResult, usize, &'a str),
    /// A call into UTF-16: the same, but code units are free and written.
    ToUtf16(&'a [u8], usize, bool, DecoderResult, usize, &'a [u16]),
    /// A call into UTF-8 with 16 free bytes that reads all these bytes, which are not the last, and writes nothing.
    HeldBack(&'a [u8]),
    /// A last call into UTF-8 with so few free bytes that it reads and writes nothing.
    FullUtf8(&'a [u8], usize),
    /// A last call into UTF-16: the same, but code units are free.
    FullUtf16(&'a [u8], usize),
    /// A last call into UTF-8 with 16 free bytes, to which all these bytes are one malformed sequence.
    ///
    /// It is also their only event.
    OneMalformed(&'a [u8]),
    /// The queried length in UTF-16 for a number of bytes.
    Utf16Length(usize, Option<usize>),
    /// The queried length in UTF-8 for a number of bytes.
    Utf8Length(usize, Option<usize>),
    /// The queried length in UTF-8 for a number of bytes, without replacement.
    BareLength(usize, Option<usize>),
    /// The three queried lengths for a number of bytes: in UTF-16, without replacement, and in UTF-8.
    Lengths(usize, Option<usize>, Option<usize>, Option<usize>),
    /// The wanted result of the query for the neutral state.
    Neutral(bool),
    /// The number of first bytes that the decoder counts as malformed by themselves.
    Lone(&'a [u8], usize),
    /// The number that the decoder adds to the lengths.
    Additional(usize),
    /// The events that new decoders find in these bytes by calls, in UTF-8 and in UTF-16.
    ///
    /// They are the scalars of a text in which each U+FFFD is a malformed sequence, whose place and length follow.
    /// Calls get all bytes with large outputs, or one byte with the smallest output.
    Events(&'a [u8], &'a str, &'a [(usize, usize)]),
    /// The same events as a list.
    EventList(&'a [u8], &'a [DecodeEvent]),
    /// The same events, and those that runs of new decoders find, in UTF-8 and in UTF-16.
    ///
    /// The outputs of the runs have 0 to 4 code units. The input comes whole, byte by byte, and with an empty
    /// piece after each. A run with five outputs of 0 finds none and ends before the input does.
    Cut(&'a [u8], &'a str, &'a [(usize, usize)]),
    /// A run into a form.
    ///
    /// It has the form, the pieces, the lengths of the outputs, the events, the number of calls, and whether
    /// it is finished.
    RunTo(Form, &'a [&'a [u8]], &'a [usize], &'a [DecodeEvent], usize, bool),
    /// A call into UTF-8 with replacement: the same as without, and whether something was replaced.
    ReplacedToUtf8(&'a [u8], usize, bool, DecoderResult, usize, &'a str, bool),
    /// A call into UTF-16 with replacement.
    ReplacedToUtf16(&'a [u8], usize, bool, DecoderResult, usize, &'a [u16], bool),
    /// A last call into UTF-8 in which something is replaced: all its bytes, and the written text.
    Replaced(&'a [u8], &'a str),
    /// The text that new decoders write for the bytes, the last ones, with replacement.
    ///
    /// All outputs have one length: from 4 to 15 bytes, or from 2 to 7 code units.
    Text(&'a [u8], &'a str, &'a [u16]),
    /// The bytes in pieces of this length, none of them the last.
    ///
    /// Each piece fits into the UTF-16 length that the decoder returns for it, and nothing is
    /// replaced.
    Pieces(&'a [u8], usize),
    /// Refused runs over a piece with one output of this length, in either form, and their error.
    RefusedRuns(&'a [u8], usize, &'a RunError),
}

/// The rows of any decoder for an empty input.
pub(crate) const NO_INPUT: &[Row] = &[
    Row::Decoder("empty input gives nothing"),
    Row::ToUtf8(b"", 16, true, DecoderResult::InputEmpty, 0, ""),
    Row::Events(b"", "", &[]),
];

/// A decoder, the data that it is made of, and two queries that only some decoders have.
pub(crate) trait TestedDecoder: RawDecoder + Drop {
    /// The data that the decoder is made of.
    type Of: Copy;

    fn made(rt: &impl Abort, of: Self::Of) -> Self;

    /// Returns whether the decoder is in its neutral state, if it has that query.
    fn neutral(&self) -> Option<bool>;

    /// Returns the number that the decoder adds to the lengths, if it has that query.
    fn additional(&self) -> Option<usize>;
}

impl<'a> TestedDecoder for AnyDecoder<'a> {
    type Of = Over<'a>;

    fn made(rt: &impl Abort, of: Over<'a>) -> AnyDecoder<'a> {
        match AnyDecoder::new(of.codec, of.tables, Some(of.single_byte)) {
            Some(decoder) => decoder,
            None => panic!(rt; "no decoder"),
        }
    }

    fn neutral(&self) -> Option<bool> {
        match self {
            AnyDecoder::Gb18030(decoder) => Some(decoder.in_neutral_state()),
            AnyDecoder::Big5(decoder) => Some(decoder.in_neutral_state()),
            AnyDecoder::EucJp(decoder) => Some(decoder.in_neutral_state()),
            AnyDecoder::Iso2022Jp(decoder) => Some(decoder.in_neutral_state()),
            AnyDecoder::ShiftJis(decoder) => Some(decoder.in_neutral_state()),
            AnyDecoder::EucKr(decoder) => Some(decoder.in_neutral_state()),
            _ => None,
        }
    }

    fn additional(&self) -> Option<usize> {
        match self {
            AnyDecoder::Utf16(decoder) => Some(decoder.additional_from_state()),
            _ => None,
        }
    }
}

/// A call with or without replacement, and its wanted result, with whether something is replaced.
type Called<'a> = (Call<'a>, bool, (DecoderResult, usize, Units<'a>, bool));

/// Returns a call that reads and writes nothing, because its output is full.
fn full<'a>(call: Call<'a>, nothing: Units<'a>) -> Called<'a> {
    (call, false, (DecoderResult::OutputFull, 0, nothing, false))
}

/// Returns a call into UTF-8 with 16 free bytes that reads all these bytes and writes nothing.
fn silent<'a>(source: &'a [u8], last: bool, answer: DecoderResult) -> Called<'a> {
    let wanted = (answer, source.len(), Units::Utf8(b""), false);
    ((source, 16, last), false, wanted)
}

/// Returns the result of a call to which all these bytes are one malformed sequence.
fn malformed(bytes: &[u8]) -> DecoderResult {
    match u8::try_from(bytes.len()) {
        Ok(length) => DecoderResult::Malformed(length, 0),
        Err(_) => DecoderResult::InputEmpty,
    }
}

/// Returns the call of a row.
fn call_of<'a>(row: &Row<'a>) -> Option<Called<'a>> {
    match row {
        Row::ToUtf8(source, room, last, answer, read, text) => {
            let wanted = (*answer, *read, Units::Utf8(text.as_bytes()), false);
            Some(((*source, *room, *last), false, wanted))
        }
        Row::ToUtf16(source, room, last, answer, read, units) => {
            let wanted = (*answer, *read, Units::Utf16(*units), false);
            Some(((*source, *room, *last), false, wanted))
        }
        Row::HeldBack(source) => Some(silent(*source, false, DecoderResult::InputEmpty)),
        Row::OneMalformed(source) => Some(silent(*source, true, malformed(*source))),
        Row::FullUtf8(source, room) => Some(full((*source, *room, true), Units::Utf8(b""))),
        Row::FullUtf16(source, room) => Some(full((*source, *room, true), Units::Utf16(&[]))),
        Row::ReplacedToUtf8(source, room, last, answer, read, text, replaced) => {
            let wanted = (*answer, *read, Units::Utf8(text.as_bytes()), *replaced);
            Some(((*source, *room, *last), true, wanted))
        }
        Row::ReplacedToUtf16(source, room, last, answer, read, units, replaced) => {
            let wanted = (*answer, *read, Units::Utf16(*units), *replaced);
            Some(((*source, *room, *last), true, wanted))
        }
        Row::Replaced(source, text) => {
            let written = Units::Utf8(text.as_bytes());
            let wanted = (DecoderResult::InputEmpty, source.len(), written, true);
            Some(((*source, 96, true), true, wanted))
        }
        _ => None,
    }
}

/// Follows the row of a call: makes it, and compares its result with the wanted one.
fn follow_call<D: RawDecoder>(rt: &impl Abort, place: Place, decoder: &mut D, row: &Row) {
    if let Some((call, replaces, wanted)) = call_of(row) {
        let form = wanted.2.form();
        let mut output = Output::new(form);
        let (answer, read, replaced) = output.decode(decoder, call, replaces);
        let came = (answer, read, output.written(), replaced);
        is_answer(rt, place, form.name(), came, wanted);
    }
}

/// Finds the events in calls of limited length, and compares them with the wanted ones.
fn finds<D: TestedDecoder>(
    rt: &impl Abort,
    place: Place,
    of: D::Of,
    form: Form,
    limits: (usize, usize),
    (input, wanted): (&[u8], &[DecodeEvent]),
) {
    let found = events(&mut D::made(rt, of), input, form, limits);
    is_answer(rt, place, form.name(), found.as_slice(), wanted);
}

/// Finds the events in one call and byte by byte, and compares them with the wanted ones.
fn finds_by_calls<D: TestedDecoder>(
    rt: &impl Abort,
    place: Place,
    of: D::Of,
    input: &[u8],
    wanted: &[DecodeEvent],
) {
    let length = input.len();
    finds::<D>(rt, place, of, Form::Utf8, (length, 48), (input, wanted));
    finds::<D>(rt, place, of, Form::Utf16, (length, 96), (input, wanted));
    finds::<D>(rt, place, of, Form::Utf8, (1, 4), (input, wanted));
    finds::<D>(rt, place, of, Form::Utf16, (1, 2), (input, wanted));
}

/// The wanted result of a run.
///
/// It is the events, the number of calls if that is stated, and whether the run is finished.
type Wanted<'a> = (&'a [DecodeEvent], Option<usize>, bool);

/// Makes a run, and compares its result with the wanted one.
fn runs<D: RawDecoder>(
    rt: &(impl AllocGlobal + Abort),
    place: Place,
    decoder: &mut D,
    form: Form,
    (pieces, lengths): (&[&[u8]], &[usize]),
    (events, calls, finished): Wanted,
) {
    let run = form.run(rt.alloc(), decoder, pieces, lengths);
    is_refusal(rt, place, form.name(), run.as_ref().err(), None);
    if let Ok(run) = run {
        let came = (run.events.as_slice(), run.finished);
        is_answer(rt, place, form.name(), came, (events, finished));
        if let Some(wanted) = calls {
            is_answer(rt, place, "the number of calls", run.calls, wanted);
        }
    }
}

/// Makes a run of a new decoder into UTF-8 and one into UTF-16, and compares their results.
fn runs_in_both<D: TestedDecoder>(
    rt: &(impl AllocGlobal + Abort),
    place: Place,
    of: D::Of,
    input: (&[&[u8]], &[usize]),
    wanted: Wanted,
) {
    for form in [Form::Utf8, Form::Utf16] {
        runs(rt, place, &mut D::made(rt, of), form, input, wanted);
    }
}

/// Makes runs over these pieces with small outputs, and over these with an empty one after each.
fn finds_in_both<D: TestedDecoder>(
    rt: &(impl AllocGlobal + Abort),
    place: Place,
    of: D::Of,
    pieces: &[&[u8]],
    wanted: &[DecodeEvent],
) {
    let (lengths, ends) = (small_lengths(), (wanted, None, true));
    runs_in_both::<D>(rt, place, of, (pieces, &lengths), ends);
    let all = spaced(pieces, b"");
    runs_in_both::<D>(rt, place, of, (all.as_slice(), &lengths), ends);
}

/// Makes runs over the input in all cuts, and compares their results.
fn finds_in_cuts<D: TestedDecoder>(
    rt: &(impl AllocGlobal + Abort),
    place: Place,
    of: D::Of,
    input: &[u8],
    wanted: &[DecodeEvent],
) {
    let whole = [input];
    finds_in_both::<D>(rt, place, of, &whole, wanted);
    runs_in_both::<D>(rt, place, of, (&whole, &[0; 5]), (&[], Some(5), false));
    let bytes = byte_pieces(input);
    finds_in_both::<D>(rt, place, of, bytes.as_slice(), wanted);
}

/// Makes runs that must be refused, in either form, and compares the error with the wanted one.
fn refuses<D: RawDecoder>(
    rt: &(impl AllocGlobal + Abort),
    place: Place,
    decoder: &mut D,
    (piece, length): (&[u8], usize),
    wanted: &RunError,
) {
    for form in [Form::Utf8, Form::Utf16] {
        let run = form.run(rt.alloc(), decoder, &[piece], &[length]);
        is_refusal(rt, place, form.name(), run.as_ref().err(), Some(wanted));
    }
}

/// Follows the row of queried lengths: compares those that it states.
fn follow_lengths<D: RawDecoder>(rt: &impl Abort, place: Place, decoder: &D, row: &Row) {
    let (bytes, utf16, bare, utf8) = match row {
        Row::Utf16Length(bytes, length) => (*bytes, Some(*length), None, None),
        Row::BareLength(bytes, length) => (*bytes, None, Some(*length), None),
        Row::Utf8Length(bytes, length) => (*bytes, None, None, Some(*length)),
        Row::Lengths(bytes, utf16, bare, utf8) => {
            (*bytes, Some(*utf16), Some(*bare), Some(*utf8))
        }
        _ => return,
    };
    let came = decoder.max_utf16_buffer_length(bytes);
    is_length(rt, place, "the length in UTF-16", came, utf16);
    let came = decoder.max_utf8_buffer_length_without_replacement(bytes);
    is_length(rt, place, "the length without U+FFFD", came, bare);
    let came = decoder.max_utf8_buffer_length(bytes);
    is_length(rt, place, "the length in UTF-8", came, utf8);
}

/// Compares a queried length with the one that a row states, if it does.
fn is_length(
    rt: &impl Abort,
    place: Place,
    question: &str,
    came: Option<usize>,
    stated: Option<Option<usize>>,
) {
    if let Some(wanted) = stated {
        is_answer(rt, place, question, came, wanted);
    }
}

/// Follows the row of another query, which only some decoders have or where few bytes count.
fn follow_query<D: TestedDecoder>(rt: &impl Abort, place: Place, decoder: &D, row: &Row) {
    match row {
        Row::Lone(bytes, count) => {
            let came = decoder.malformed_bytes(bytes);
            is_answer(rt, place, "malformed_bytes", came, *count);
        }
        Row::Neutral(is_neutral) => {
            let came = decoder.neutral();
            is_answer(rt, place, "in_neutral_state", came, Some(*is_neutral));
        }
        Row::Additional(more) => {
            let came = decoder.additional();
            is_answer(rt, place, "additional_from_state", came, Some(*more));
        }
        _ => {}
    }
}

/// Follows the row of a text's events, and compares what is found with what is wanted.
fn follow_events<D: TestedDecoder>(
    rt: &(impl AllocGlobal + Abort),
    place: Place,
    of: D::Of,
    row: &Row,
) {
    let (input, text, places, is_cut) = match row {
        Row::Events(input, text, places) => (*input, *text, *places, false),
        Row::Cut(input, text, places) => (*input, *text, *places, true),
        _ => return,
    };
    let events = events_of(text, places);
    finds_by_calls::<D>(rt, place, of, input, events.as_slice());
    if is_cut {
        finds_in_cuts::<D>(rt, place, of, input, events.as_slice());
    }
}

/// Follows the row of listed events, and compares what is found with what is wanted.
fn follow_list<D: TestedDecoder>(rt: &impl Abort, place: Place, of: D::Of, row: &Row) {
    match row {
        Row::EventList(input, events) => finds_by_calls::<D>(rt, place, of, input, events),
        Row::OneMalformed(input) => {
            let events = [bad!(0, input.len())];
            finds_by_calls::<D>(rt, place, of, input, &events);
        }
        _ => {}
    }
}

/// Follows the row of a run, and compares its result with the wanted one.
fn follow_run<D: RawDecoder>(
    rt: &(impl AllocGlobal + Abort),
    place: Place,
    decoder: &mut D,
    row: &Row,
) {
    match row {
        Row::RunTo(form, pieces, lengths, events, calls, finished) => {
            let wanted = (*events, Some(*calls), *finished);
            runs(rt, place, decoder, *form, (pieces, lengths), wanted);
        }
        Row::RefusedRuns(piece, length, error) => {
            refuses(rt, place, decoder, (piece, *length), error);
        }
        _ => {}
    }
}

/// Follows one row, in one of these ways.
fn follow_row<D: TestedDecoder>(
    rt: &(impl AllocGlobal + Abort),
    place: Place,
    of: D::Of,
    decoder: &mut D,
    row: &Row,
) {
    follow_call(rt, place, decoder, row);
    follow_events::<D>(rt, place, of, row);
    follow_list::<D>(rt, place, of, row);
    follow_run(rt, place, decoder, row);
    follow_lengths(rt, place, decoder, row);
    follow_query(rt, place, decoder, row);
    follow_pieces(rt, place, decoder, row);
    follow_text::<D>(rt, place, of, row);
}

/// Follows the rows in turn.
pub(crate) fn follow<D: TestedDecoder>(rt: &(impl AllocGlobal + Abort), of: D::Of, rows: &[Row]) {
    let mut case = "";
    let mut decoder = D::made(rt, of);
    for (at, row) in rows.iter().enumerate() {
        if let Row::Decoder(name) = row {
            case = name;
            decoder = D::made(rt, of);
        }
        follow_row::<D>(rt, (case, at), of, &mut decoder, row);
    }
}
