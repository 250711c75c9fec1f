//! Shift_JIS.
pub(crate) mod encoder;

use crate::rows::Row;
use crate::rows::Row::{
    Cut, Decoder, Events, HeldBack, Lengths, Neutral, OneMalformed, ToUtf8, Utf16Length,
};
use legacy_base::DecoderResult::{InputEmpty, Malformed, OutputFull};

pub(crate) const WITHOUT_ENTRIES: &[Row] = &[
    Decoder("pointers 8836 to 10715 are U+E000 to U+E757"),
    ToUtf8(b"\xF0\x40", 16, true, InputEmpty, 2, "\u{E000}"),
    ToUtf8(b"\xF9\xFC", 16, true, InputEmpty, 2, "\u{E757}"),
    OneMalformed(b"\xEF\xFC"),
    Events(b"\xF0\x40", "\u{E000}", &[]),
    Events(b"\xF9\xFC", "\u{E757}", &[]),
    Decoder("80 is U+0080, A1 to DF are U+FF61 to U+FF9F, and A0 is malformed"),
    ToUtf8(
        b"\x80\xA1\xDF\xA0",
        16,
        true,
        Malformed(1, 0),
        4,
        "\u{80}\u{FF61}\u{FF9F}",
    ),
    Neutral(true),
    Events(
        b"\x80\xA1\xDF\xA0",
        "\u{80}\u{FF61}\u{FF9F}\u{FFFD}",
        &[(3, 1)],
    ),
    Decoder("a lead as trail is malformed with the lead before it"),
    Cut(b"\xA1\xE0\xF0\x40", "\u{FF61}\u{FFFD}@", &[(1, 2)]),
    Decoder("a byte past ASCII needs three bytes"),
    ToUtf8(b"\x61\xA1", 3, true, OutputFull, 1, "a"),
    Decoder("a lead that is held back counts in the lengths"),
    Lengths(5, Some(5), Some(15), Some(15)),
    HeldBack(b"\xE0"),
    Neutral(false),
    Lengths(5, Some(6), Some(18), Some(18)),
    Utf16Length(usize::MAX, None),
];
