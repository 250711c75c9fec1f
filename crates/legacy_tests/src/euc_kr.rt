//! EUC-KR.
pub(crate) mod encoder;

use crate::indexes::{Flat, flat};
use crate::rows::Row;
use crate::rows::Row::{
    BareLength, Cut, Decoder, Events, HeldBack, Lengths, Neutral, OneMalformed, ToUtf8, ToUtf16,
    Utf8Length, Utf16Length,
};
use legacy_base::DecoderResult::{InputEmpty, Malformed, OutputFull};

/// The rows with U+AC02 at pointer 0, and no other scalar.
pub(crate) const ROWS: &[Row] = &[
    Decoder("a lead and a byte past ASCII without a scalar are malformed together"),
    OneMalformed(b"\x81\xFF"),
    Decoder("a lead before an ASCII byte without a scalar is malformed alone"),
    ToUtf8(
        b"\x81\x41\x81\x5B",
        16,
        true,
        Malformed(1, 0),
        3,
        "\u{AC02}",
    ),
    ToUtf8(b"\x5B", 16, true, InputEmpty, 1, "["),
    Events(b"\x81\x41\x81\x5B", "\u{AC02}\u{FFFD}[", &[(2, 1)]),
    Decoder("a lead at the end is malformed"),
    Neutral(true),
    HeldBack(b"\x81"),
    Neutral(false),
    ToUtf8(b"", 16, true, Malformed(1, 0), 0, ""),
    Neutral(true),
    ToUtf8(b"", 16, true, InputEmpty, 0, ""),
    Events(b"\x81", "\u{FFFD}", &[(0, 1)]),
    Cut(b"\x81\x41\x81", "\u{AC02}\u{FFFD}", &[(2, 1)]),
    Decoder("a lead that is held back counts in the lengths"),
    Utf16Length(usize::MAX, Some(usize::MAX)),
    Utf16Length(5, Some(5)),
    BareLength(5, Some(10)),
    BareLength(usize::MAX, None),
    Utf8Length(5, Some(15)),
    HeldBack(b"\x81"),
    Utf16Length(usize::MAX, None),
    Lengths(5, Some(6), Some(11), Some(18)),
    Decoder("a byte past ASCII needs three bytes or one unit, an ASCII byte one"),
    ToUtf8(b"\x61\x81\x41", 3, true, OutputFull, 1, "a"),
    ToUtf8(b"\x61\x81\x41", 4, true, InputEmpty, 3, "a\u{AC02}"),
    ToUtf16(b"\x61\x81\x41", 1, true, OutputFull, 1, &[0x61]),
];

/// U+AC02 at pointer 0, and no other entry.
pub(crate) const ONE_ENTRY: &Flat = &flat!(euc_kr: (1, &[(0, 0xAC02)]));
