//! Runs of decoders over pieces, and buffers of scalars.
pub(crate) mod encoders;

use crate::compared::prints;
use crate::events::bad;
use crate::rows::Row;
use crate::rows::Row::{Decoder, RefusedRuns, RunTo, ToUtf8};
use crate::units::Form::{Utf8, Utf16};
use legacy_base::DecodeEvent::Scalar;
use legacy_base::DecoderResult::{InputEmpty, OutputFull};
use legacy_base::{DecoderResult, Destination, RawDecoder};
use legacy_codecs::{OutputForm, RunError, ScalarBuffer, UserDefinedDecoder, Utf8Form, Utf16Form};
use std::process::Abort;

/// Runs with small outputs, and refused runs.
pub(crate) const OF_BIG5: &[Row] = &[
    Decoder("three bytes are no room for two scalars"),
    RunTo(Utf8, &[b"\x88\x62\x88"], &[3, 3, 3, 3, 3], &[], 5, false),
    Decoder("a run that is refused leaves the lead that is held back"),
    ToUtf8(b"\x88", 8, false, InputEmpty, 1, ""),
    RefusedRuns(b"\x62", usize::MAX - 1, &RunError::Memory),
    RefusedRuns(b"\x62", usize::MAX, &RunError::TooLong),
    ToUtf8(b"\x62", 8, true, InputEmpty, 1, "\u{CA}\u{304}"),
];

pub(crate) const OF_UTF_16LE: &[Row] = &[
    Decoder("an unpaired high surrogate at a piece's end is malformed at its place"),
    RunTo(
        Utf16,
        &[b"\x41\x00\x3D\xD8", b"\x42\x00"],
        &[8, 8, 8],
        &[Scalar('A'), bad!(2, 2), Scalar('B')],
        3,
        true,
    ),
];

/// Runs with small outputs, a refused run, and runs without pieces or lengths.
pub(crate) const OF_USER_DEFINED: &[Row] = &[
    Decoder("a small output is followed by the next"),
    RunTo(Utf8, &[b"\x80"], &[2, 3], &[Scalar('\u{F780}')], 2, true),
    Decoder("a small output of UTF-16 is followed by the next"),
    RunTo(Utf16, &[b"\x80"], &[0, 1], &[Scalar('\u{F780}')], 2, true),
    Decoder("without room the run is not finished"),
    RunTo(Utf8, &[b"\x80"], &[2], &[], 1, false),
    Decoder("without room in UTF-16 the run is not finished"),
    RunTo(Utf16, &[b"\x80"], &[0], &[], 1, false),
    Decoder("no pieces are one empty piece"),
    RunTo(Utf8, &[], &[0], &[], 1, true),
    Decoder("no pieces are one empty piece in UTF-16 too"),
    RunTo(Utf16, &[], &[0], &[], 1, true),
    Decoder("without lengths there is no call"),
    RunTo(Utf8, &[b"a"], &[], &[], 0, false),
    Decoder("lengths that have no sum are refused"),
    RefusedRuns(b"\x80", usize::MAX, &RunError::TooLong),
];

#[test]
fn the_errors_print_their_texts(rt: HostRuntime) {
    prints(&rt, ("errors of runs", 0), &RunError::Memory, "memory");
    prints(
        &rt,
        ("errors of runs", 1),
        &RunError::TooLong,
        "run is too long",
    );
}

/// Checks the result and the number of code units of a call into a buffer with room for four.
///
/// The scalars are those of the bytes 61, 80 and 80 of x-user-defined.
fn takes<F: OutputForm>(rt: &impl Abort, answer: (DecoderResult, usize), units: usize) {
    let mut places = ['\0'; 4];
    let mut buffer = ScalarBuffer::<F>::new(&mut places, 4);
    let came = UserDefinedDecoder::new().step(b"\x61\x80\x80", &mut buffer, true);
    let wanted = ['\u{61}', '\u{F780}', '\u{F780}'];
    let has_scalars = buffer.scalars() == &wanted[..answer.1.min(3)];
    assert!(rt; came == answer && buffer.written() == units && has_scalars);
}

#[test]
fn a_buffer_of_scalars_counts_their_code_units(rt: HostRuntime) {
    takes::<Utf8Form>(&rt, (OutputFull, 2), 4);
    takes::<Utf16Form>(&rt, (InputEmpty, 3), 3);
}
