//! x-user-defined.
pub(crate) mod encoder;

use crate::rows::Row;
use crate::rows::Row::{Cut, Decoder, Events, FullUtf8, Lengths, ToUtf8, ToUtf16, Utf8Length};
use legacy_base::DecoderResult::{InputEmpty, OutputFull};

pub(crate) const ROWS: &[Row] = &[
    Decoder("80 to FF are U+F780 to U+F7FF"),
    ToUtf8(
        b"\x61\x80\xFF",
        16,
        true,
        InputEmpty,
        3,
        "a\u{F780}\u{F7FF}",
    ),
    ToUtf16(
        b"\x61\x80\xFF",
        16,
        true,
        InputEmpty,
        3,
        &[0x61, 0xF780, 0xF7FF],
    ),
    Cut(b"\x7F\x80", "\u{7F}\u{F780}", &[]),
    Events(b"\xFF\x00", "\u{F7FF}\0", &[]),
    Events(b"\x61\x80\xC3\xFF\x62", "a\u{F780}\u{F7C3}\u{F7FF}b", &[]),
    Events(b"\xE4", "\u{F7E4}", &[]),
    Decoder("a byte needs three bytes or one unit"),
    FullUtf8(b"\x80", 2),
    ToUtf8(b"\x80", 3, true, InputEmpty, 1, "\u{F780}"),
    Decoder("the lengths are one unit and three bytes for each byte"),
    Lengths(3, Some(3), Some(9), Some(9)),
    Utf8Length(usize::MAX / 3, Some(usize::MAX)),
    Utf8Length(usize::MAX / 3 + 1, None),
    Decoder("forty bytes fill forty units"),
    ToUtf16(
        b"\x61\x80\xFF\x7F\x20\xC1\xC2\xC3\x62\x63\x64\x81\x00\xFE\xDF\xE0\x41\xA0\x42\xA1\x43\xA2\x44\x9F\x90\x8F\x88\x7E\x01\xF7\xF8\xBF\xC0\x30\x31\x32\xD7\xD8\x80\xFF",
        40,
        true,
        InputEmpty,
        40,
        &[
            0x61, 0xF780, 0xF7FF, 0x7F, 0x20, 0xF7C1, 0xF7C2, 0xF7C3, 0x62, 0x63, 0x64, 0xF781,
            0x00, 0xF7FE, 0xF7DF, 0xF7E0, 0x41, 0xF7A0, 0x42, 0xF7A1, 0x43, 0xF7A2, 0x44, 0xF79F,
            0xF790, 0xF78F, 0xF788, 0x7E, 0x01, 0xF7F7, 0xF7F8, 0xF7BF, 0xF7C0, 0x30, 0x31, 0x32,
            0xF7D7, 0xF7D8, 0xF780, 0xF7FF,
        ],
    ),
    Decoder("the first seventeen of them fill seventeen units, and the rest 23"),
    ToUtf16(
        b"\x61\x80\xFF\x7F\x20\xC1\xC2\xC3\x62\x63\x64\x81\x00\xFE\xDF\xE0\x41\xA0\x42\xA1\x43\xA2\x44\x9F\x90\x8F\x88\x7E\x01\xF7\xF8\xBF\xC0\x30\x31\x32\xD7\xD8\x80\xFF",
        17,
        true,
        OutputFull,
        17,
        &[
            0x61, 0xF780, 0xF7FF, 0x7F, 0x20, 0xF7C1, 0xF7C2, 0xF7C3, 0x62, 0x63, 0x64, 0xF781,
            0x00, 0xF7FE, 0xF7DF, 0xF7E0, 0x41,
        ],
    ),
    ToUtf16(
        b"\xA0\x42\xA1\x43\xA2\x44\x9F\x90\x8F\x88\x7E\x01\xF7\xF8\xBF\xC0\x30\x31\x32\xD7\xD8\x80\xFF",
        23,
        true,
        InputEmpty,
        23,
        &[
            0xF7A0, 0x42, 0xF7A1, 0x43, 0xF7A2, 0x44, 0xF79F, 0xF790, 0xF78F, 0xF788, 0x7E, 0x01,
            0xF7F7, 0xF7F8, 0xF7BF, 0xF7C0, 0x30, 0x31, 0x32, 0xF7D7, 0xF7D8, 0xF780, 0xF7FF,
        ],
    ),
];
