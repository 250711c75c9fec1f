//! The encoders of the single-byte codecs.
use crate::compared::{is_answer, prints};
use crate::encode_events::Wanted::{Bytes, Report};
use crate::encoder_rows::EncoderRow;
use crate::encoder_rows::EncoderRow::{
    Encoder, Encodes, FromUtf8, FromUtf16, Replaced, ReplacedFromUtf16, Utf8Length, Utf16Length,
};
use crate::indexes::{Flat, byte_table_of, entries_of, flat};
use crate::source_texts::Text;
use legacy_base::EncoderResult::{InputEmpty, OutputFull, Unmappable};
use legacy_codecs::SingleByteRunError::{RunMismatch, RunPastEnd, RunStart};
use legacy_codecs::{SingleByteEncoder, SingleByteRunError};

pub(crate) const GREEK: &[EncoderRow] = &[
    Encoder("a scalar is the byte of its place, and a pair of surrogates is one scalar"),
    FromUtf16(
        &[0x391, 0xD83D, 0xDCA9, 0x3C4],
        2,
        true,
        Unmappable('\u{1F4A9}'),
        3,
        b"\xC1",
    ),
    FromUtf16(&[0x3C4], 2, true, InputEmpty, 1, b"\xF4"),
    Encoder("an unpaired surrogate is U+FFFD, which no table has"),
    FromUtf16(&[0xDC00, 0xDEDE], 2, true, Unmappable('\u{FFFD}'), 1, b""),
    FromUtf16(&[0xDEDE], 2, true, Unmappable('\u{FFFD}'), 1, b""),
    FromUtf16(&[], 2, true, InputEmpty, 0, b""),
    Encoder("a high surrogate at the end of a piece is unpaired, whatever comes next"),
    FromUtf16(
        &[0x391, 0xD83D],
        4,
        false,
        Unmappable('\u{FFFD}'),
        2,
        b"\xC1",
    ),
    FromUtf16(&[0xDCA9], 4, true, Unmappable('\u{FFFD}'), 1, b""),
    Encoder("a pair is not parted where the output ends"),
    FromUtf16(&[0x391, 0xD83D, 0xDCA9], 1, true, OutputFull, 1, b"\xC1"),
    FromUtf16(&[0xD83D, 0xDCA9], 1, true, Unmappable('\u{1F4A9}'), 2, b""),
    Encoder("a scalar that the table lacks is reported"),
    Encodes(
        "\u{391}\u{392}\u{3C4}",
        &[Bytes(b"\xC1"), Report('\u{392}'), Bytes(b"\xF4")],
    ),
    Encoder("U+0000 is the byte 00, though entries without a scalar are 0"),
    Encodes("\0a\u{391}", &[Bytes(b"\0a\xC1")]),
    Encoder("each scalar needs one byte"),
    FromUtf8("a\u{391}", 1, true, OutputFull, 1, b"a"),
    FromUtf8("\u{391}", 1, true, InputEmpty, 2, b"\xC1"),
    Utf8Length(9, Some(9)),
    Utf16Length(usize::MAX, Some(usize::MAX)),
    Encoder("ten bytes are kept free for a reference"),
    ReplacedFromUtf16(
        &[0x391, 0xD83D, 0xDCA9, 0x3C4],
        11,
        true,
        OutputFull,
        1,
        b"\xC1",
        false,
    ),
    ReplacedFromUtf16(
        &[0xD83D, 0xDCA9, 0x3C4],
        11,
        true,
        OutputFull,
        2,
        b"&#128169;",
        true,
    ),
    ReplacedFromUtf16(&[0x3C4], 11, true, InputEmpty, 1, b"\xF4", false),
    Encoder("no scalar is written into the ten bytes that are kept free"),
    ReplacedFromUtf16(&[0x391, 0x391], 11, true, OutputFull, 1, b"\xC1", false),
    ReplacedFromUtf16(&[0x391], 11, true, InputEmpty, 1, b"\xC1", false),
    Encoder("an unpaired low surrogate has the reference of U+FFFD"),
    Replaced(Text::Utf16(&[0x391, 0xDCA9, 0x3C4]), b"\xC1&#65533;\xF4"),
    Encoder("so has an unpaired high surrogate at the end"),
    Replaced(Text::Utf16(&[0x391, 0x3C4, 0xD83D]), b"\xC1\xF4&#65533;"),
];

pub(crate) const WITHOUT_SCALARS: &[EncoderRow] = &[
    Encoder("a run over places without a scalar leaves U+0000 the byte 00"),
    Encodes("\0a", &[Bytes(b"\0a")]),
    Encodes("\u{A0}", &[Report('\u{A0}')]),
];

/// U+0391 and U+03C4 at their places in ISO-8859-7.
pub(crate) const TWO_LETTERS: &[(usize, u16)] = &[(65, 0x391), (116, 0x3C4)];

/// The same, with a run of the first letter.
pub(crate) const WITH_RUN: &Flat = &flat!(single_byte: TWO_LETTERS, run: (0x391, 65, 1));

pub(crate) const WITHOUT_RUN: &Flat = &flat!(single_byte: TWO_LETTERS);

/// A run over a place without a scalar.
pub(crate) const RUN_ALONE: &Flat = &flat!(run: (0, 32, 1));

/// Runs by their first scalar, first place and length, and their errors.
///
/// The table has only U+0391 at place 65.
const RUNS: &[((u16, u8, u8), Option<SingleByteRunError>)] = &[
    ((0x391, 31, 1), Some(RunStart)),
    ((0x391, 31, 200), Some(RunStart)),
    ((0x391, 127, 2), Some(RunPastEnd)),
    ((0x391, 200, 0), Some(RunPastEnd)),
    ((0x391, 65, 2), Some(RunMismatch(66))),
    ((0x391, 64, 1), Some(RunMismatch(64))),
    ((0x391, 65, 1), None),
    ((0x391, 128, 0), None),
    ((0x391, 32, 0), None),
    // Place 32 has the entry 0.
    ((0, 32, 1), None),
];

#[test]
fn refuses_runs_that_the_table_does_not_have(rt: HostRuntime) {
    let table = byte_table_of(&rt, &entries_of(&[(65, 0x391)]));
    for (at, ((scalar, start, count), wanted)) in RUNS.iter().enumerate() {
        let came = SingleByteEncoder::new(&table, *scalar, *start, *count).err();
        is_answer(&rt, ("runs", at), "why", came.as_ref(), wanted.as_ref());
    }
}

#[test]
fn says_why_a_run_is_refused(rt: HostRuntime) {
    prints(&rt, ("why", 0), &RunStart, "run starts before 32");
    prints(&rt, ("why", 1), &RunPastEnd, "run passes 128");
    prints(&rt, ("why", 2), &RunMismatch(70), "run differs at 70");
}
