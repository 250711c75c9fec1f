//! Runs of encoders, whole and in every cut, into outputs of every small length.
//!
//! The rows are followed over tables with U+AC02 at pointer 0 of index EUC-KR and the private-use
//! rows of the Standard, those of single-byte codecs with U+0391 at place 65.
use crate::encode_events::Wanted::{Bytes, Report};
use crate::encoder_rows::EncoderRow;
use crate::encoder_rows::EncoderRow::{Encoder, Encodes, FromUtf8, Pending, RefusedRuns, RunFrom};
use crate::source_texts::TextPieces::{Utf8, Utf16};
use legacy_base::EncoderResult::InputEmpty;
use legacy_codecs::RunError;
use legacy_index_files::Codec;

pub(crate) const OF_ISO_2022_JP: &[EncoderRow] = &[
    Encoder("ASCII, the yen sign, and a reverse solidus"),
    Encodes("a\u{A5}\x5C", &[Bytes(b"a\x1B(J\x5C\x1B(B\x5C")]),
    Encoder("two bytes are no room for any act"),
    RunFrom(Utf8(&["a\u{A5}\x5C"]), &[2, 2, 2, 2, 2], &[], 5, false),
    Encoder("nor are they from UTF-16"),
    RunFrom(
        Utf16(&[&[0x61, 0xA5, 0x5C]]),
        &[2, 2, 2, 2, 2],
        &[],
        5,
        false,
    ),
    Encoder("the mode goes on from one piece to the next"),
    RunFrom(
        Utf8(&["a", "\u{A5}"]),
        &[3, 8],
        &[Bytes(b"a\x1B(J\x5C\x1B(B")],
        2,
        true,
    ),
    Encoder("a run that ends before the last escape is not finished"),
    RunFrom(
        Utf8(&["a", "\u{A5}"]),
        &[3, 5, 3],
        &[Bytes(b"a\x1B(J\x5C")],
        3,
        false,
    ),
    Encoder("a run that is refused leaves the mode"),
    FromUtf8("\u{A5}", 8, false, InputEmpty, 2, b"\x1B(J\x5C"),
    RefusedRuns(usize::MAX - 1, &RunError::Memory),
    RefusedRuns(usize::MAX, &RunError::TooLong),
    Pending(true),
    FromUtf8("", 8, true, InputEmpty, 0, b"\x1B(B"),
];

pub(crate) const OF_GB18030: &[EncoderRow] = &[
    Encoder("a private-use row, and a scalar past U+FFFF"),
    Encodes("\u{E843}\u{1F4A9}", &[Bytes(b"\xFE\x7E\x94\x39\xDA\x33")]),
    Encoder("each piece of UTF-16 is read by itself"),
    RunFrom(
        Utf16(&[&[0xD83D], &[0xDCA9]]),
        &[4, 4, 4, 4],
        &[Report('\u{FFFD}'), Report('\u{FFFD}')],
        4,
        true,
    ),
    Encoder("a pair in one piece is one scalar"),
    RunFrom(
        Utf16(&[&[0xD83D, 0xDCA9]]),
        &[4, 4, 4, 4],
        &[Bytes(b"\x94\x39\xDA\x33")],
        1,
        true,
    ),
];

/// The codecs whose encoders write pairs, with their rows.
pub(crate) const OF_PAIRS: &[(Codec, &[EncoderRow])] = &[
    (
        Codec::EucJp,
        &[
            Encoder("a half-width katakana, and the overline"),
            Encodes("\u{FF61}\u{203E}", &[Bytes(b"\x8E\xA1\x7E")]),
        ],
    ),
    (
        Codec::ShiftJis,
        &[
            Encoder("a control, and a half-width katakana"),
            Encodes("\u{80}\u{FF9F}", &[Bytes(b"\x80\xDF")]),
        ],
    ),
    (
        Codec::Big5,
        &[
            Encoder("a scalar that the index lacks"),
            Encodes("\u{4E00}", &[Report('\u{4E00}')]),
        ],
    ),
    (
        Codec::EucKr,
        &[
            Encoder("a scalar of the index"),
            Encodes("\u{AC02}", &[Bytes(b"\x81\x41")]),
        ],
    ),
];

pub(crate) const OF_USER_DEFINED: &[EncoderRow] = &[
    Encoder("a byte past ASCII, and a scalar that has none"),
    Encodes("\u{F7FF}\u{80}", &[Bytes(b"\xFF"), Report('\u{80}')]),
    Encoder("what is unread goes in again, and a small output is followed by the next"),
    RunFrom(
        Utf8(&["\u{F780}a"]),
        &[0, 1, 1],
        &[Bytes(b"\x80a")],
        3,
        true,
    ),
    Encoder("the same from UTF-16"),
    RunFrom(
        Utf16(&[&[0xF780, 0x61]]),
        &[0, 1, 1],
        &[Bytes(b"\x80a")],
        3,
        true,
    ),
    Encoder("without room the run is not finished"),
    RunFrom(Utf8(&["\u{F780}"]), &[0], &[], 1, false),
    Encoder("a scalar that has no byte ends its call"),
    RunFrom(
        Utf8(&["a\u{80}b"]),
        &[4, 4],
        &[Bytes(b"a"), Report('\u{80}'), Bytes(b"b")],
        2,
        true,
    ),
    Encoder("without lengths there is no call"),
    RunFrom(Utf8(&["a"]), &[], &[], 0, false),
    Encoder("no pieces are one empty piece"),
    RunFrom(Utf8(&[]), &[0], &[], 1, true),
    Encoder("no pieces are one empty piece of UTF-16 too"),
    RunFrom(Utf16(&[]), &[0], &[], 1, true),
    Encoder("lengths that have no sum are refused"),
    RefusedRuns(usize::MAX, &RunError::TooLong),
];

pub(crate) const OF_SINGLE_BYTE: &[EncoderRow] = &[
    Encoder("a scalar of the table"),
    Encodes("\u{391}", &[Bytes(b"\xC1")]),
];
