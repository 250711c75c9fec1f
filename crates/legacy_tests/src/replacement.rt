//! The replacement codec.
use crate::rows::Row;
use crate::rows::Row::{Cut, Decoder, Events, FullUtf8, FullUtf16, Lengths, ToUtf8, ToUtf16};
use legacy_base::DecoderResult::{InputEmpty, Malformed};

pub(crate) const ROWS: &[Row] = &[
    Decoder("the first byte is malformed, once, and the rest is swallowed"),
    ToUtf8(b"\x41\x42", 16, true, Malformed(1, 0), 1, ""),
    ToUtf8(b"\x42", 16, true, InputEmpty, 1, ""),
    Cut(b"\x41\x42", "\u{FFFD}", &[(0, 1)]),
    Events(b"\xFF", "\u{FFFD}", &[(0, 1)]),
    Events(b"\x00\x1B\x80", "\u{FFFD}", &[(0, 1)]),
    Events(b"\x80\x81\x30\x81\x30", "\u{FFFD}", &[(0, 1)]),
    Decoder("the malformed byte needs three bytes or one unit, and swallowing needs none"),
    FullUtf8(b"\x41", 2),
    FullUtf16(b"\x41", 0),
    ToUtf16(b"\x41", 1, true, Malformed(1, 0), 1, &[]),
    ToUtf8(b"\x41\x42", 0, true, InputEmpty, 2, ""),
    Decoder("the lengths are those of one U+FFFD"),
    Lengths(usize::MAX, Some(1), Some(3), Some(3)),
];
