//! EUC-JP.
pub(crate) mod encoder;

use crate::indexes::{Flat, flat};
use crate::rows::Row;
use crate::rows::Row::{
    BareLength, Cut, Decoder, Events, FullUtf8, Lengths, Neutral, ToUtf8, ToUtf16, Utf8Length,
    Utf16Length,
};
use legacy_base::DecoderResult::{InputEmpty, Malformed, OutputFull};

pub(crate) const WITHOUT_ENTRIES: &[Row] = &[
    Decoder("an ASCII byte after 8F and a lead is read again"),
    ToUtf8(b"\x8F\xA2\x41", 8, true, Malformed(2, 0), 2, ""),
    Neutral(true),
    ToUtf8(b"\x41", 8, true, InputEmpty, 1, "A"),
    Decoder("a form of three bytes that the end cuts off is malformed as a whole"),
    ToUtf8(b"\x8F\xA2", 3, true, Malformed(2, 0), 2, ""),
    Decoder("a form of two bytes that the end cuts off is malformed as a whole"),
    ToUtf8(b"\x8E", 3, true, Malformed(1, 0), 1, ""),
    Decoder("a form that began counts as one byte in the lengths"),
    Utf16Length(usize::MAX, Some(usize::MAX)),
    Utf8Length(usize::MAX / 3, Some(usize::MAX)),
    BareLength(0, Some(2)),
    BareLength(3, Some(7)),
    BareLength(usize::MAX, None),
    ToUtf8(b"\x8F\xA2", 4, false, InputEmpty, 2, ""),
    Neutral(false),
    Lengths(0, Some(1), Some(4), Some(3)),
    Utf16Length(usize::MAX, None),
    Decoder("after 8E come A1 to DF, which are U+FF61 to U+FF9F, and after 8F a lead"),
    Events(
        b"\x8E\xA1\x8E\xE0\x8F\x41\x8F\x80",
        "\u{FF61}\u{FFFD}\u{FFFD}A\u{FFFD}",
        &[(2, 2), (4, 1), (6, 2)],
    ),
    Cut(b"\x8F\xA2\x41\x8F", "\u{FFFD}A\u{FFFD}", &[(0, 2), (3, 1)]),
    Events(
        b"\x80\xA1\x7F\x8E\x30",
        "\u{FFFD}\u{FFFD}\u{7F}\u{FFFD}0",
        &[(0, 1), (1, 1), (3, 1)],
    ),
    Decoder("a byte past ASCII needs three bytes or one unit"),
    ToUtf8(b"\x61\x8E", 3, false, OutputFull, 1, "a"),
    ToUtf16(b"\x8E", 0, false, OutputFull, 0, &[]),
    ToUtf16(b"\x8E", 1, false, InputEmpty, 1, &[]),
    FullUtf8(b"\xA1", 2),
    ToUtf8(b"\xA1", 3, true, InputEmpty, 1, "\u{FF61}"),
    Decoder("a lead at the end is reported where there is room for U+FFFD"),
    ToUtf8(b"\xA1", 3, false, InputEmpty, 1, ""),
    FullUtf8(b"", 2),
    ToUtf8(b"", 3, true, Malformed(1, 0), 0, ""),
];

pub(crate) const PAIRS: &[Row] = &[
    Decoder("pairs go by index jis0208, and after 8F by index jis0212"),
    ToUtf16(
        b"\xA1\xA1\xA1\xDD\x8F\xA2\xAF\x8E\xDF",
        8,
        true,
        InputEmpty,
        9,
        &[0x3000, 0xFF0D, 0x02D8, 0xFF9F],
    ),
    Decoder("what is encoded of U+2212 decodes to U+FF0D"),
    Events(b"\xA1\xDD", "\u{FF0D}", &[]),
    Decoder("a pointer that index jis0208 lacks"),
    ToUtf16(b"\xA2\xAF", 8, true, Malformed(2, 0), 2, &[]),
    Decoder("a pointer that index jis0212 lacks"),
    ToUtf16(b"\x8F\xA1\xA1", 8, true, Malformed(3, 0), 3, &[]),
];

/// U+3000 and U+FF0D in index jis0208, and U+02D8 in index jis0212.
pub(crate) const ENTRIES: &Flat =
    &flat!(jis0208: (109, &[(0, 0x3000), (60, 0xFF0D)]), jis0212: (109, &[(108, 0x02D8)]));
