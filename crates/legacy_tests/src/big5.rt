//! Big5.
pub(crate) mod encoder;

use crate::indexes::{Flat, flat};
use crate::rows::Row;
use crate::rows::Row::{
    Cut, Decoder, Events, FullUtf16, HeldBack, Lengths, Lone, Neutral, ToUtf8, ToUtf16, Utf16Length,
};
use legacy_base::DecoderResult::{InputEmpty, Malformed, OutputFull};

pub(crate) const WITHOUT_ENTRIES: &[Row] = &[
    Decoder("pointers 1133, 1135, 1164 and 1166 are a letter and a mark"),
    ToUtf8(b"\x88\x62", 16, true, InputEmpty, 2, "\u{CA}\u{304}"),
    FullUtf16(b"\x88\x62", 1),
    ToUtf16(b"\x88\x62", 2, true, InputEmpty, 2, &[0xCA, 0x304]),
    Events(b"\x88\x62", "\u{CA}\u{304}", &[]),
    ToUtf8(
        b"\x88\xA3\x88\xA5",
        16,
        true,
        InputEmpty,
        4,
        "\u{EA}\u{304}\u{EA}\u{30C}",
    ),
    Events(b"\x88\xA3\x88\xA5", "\u{EA}\u{304}\u{EA}\u{30C}", &[]),
    Decoder("a lead is held back until its trail comes"),
    Neutral(true),
    HeldBack(b"\x88"),
    Neutral(false),
    ToUtf8(b"\x62", 16, true, InputEmpty, 1, "\u{CA}\u{304}"),
    Neutral(true),
    Decoder("an ASCII trail without a scalar is read again"),
    ToUtf8(b"\x87\x66", 16, true, Malformed(1, 0), 1, ""),
    ToUtf8(b"\x66", 16, true, InputEmpty, 1, "f"),
    Events(b"\x87\x66", "\u{FFFD}f", &[(0, 1)]),
    Decoder("80 and FF are malformed by themselves, but not after a lead"),
    Lone(b"\xFF\x80\xFF\x61\xFF", 3),
    Lone(b"\x61\xFF", 0),
    Lone(b"\x81\xFF", 0),
    Lone(b"", 0),
    HeldBack(b"\x88"),
    Lone(b"\xFF\xFF", 0),
    ToUtf8(b"\xFF\xFF", 16, false, Malformed(2, 0), 1, ""),
    Lone(b"\xFF", 1),
    Decoder("a lead at the end is malformed"),
    Cut(b"\x88\x62\x88", "\u{CA}\u{304}\u{FFFD}", &[(2, 1)]),
    Decoder("a lead that is held back counts in the lengths"),
    Utf16Length(usize::MAX - 1, Some(usize::MAX)),
    Utf16Length(usize::MAX, None),
    Lengths(5, Some(6), Some(12), Some(18)),
    HeldBack(b"\x88"),
    Lengths(5, Some(7), Some(14), Some(21)),
    Utf16Length(usize::MAX - 1, None),
    Decoder("a byte past ASCII needs four bytes or two units, an ASCII byte one"),
    ToUtf8(b"\x61\x88\x62", 4, true, OutputFull, 1, "a"),
    ToUtf8(b"\x88\x61", 4, false, Malformed(1, 0), 1, ""),
    ToUtf8(b"\x61", 1, true, InputEmpty, 1, "a"),
    ToUtf16(b"\x61\x88", 2, true, OutputFull, 1, &[0x61]),
];

pub(crate) const THE_LAST_POINTER: &[Row] = &[
    Decoder("the last pointer's scalar is past U+FFFF"),
    ToUtf8(b"\xFE\xFD", 16, true, InputEmpty, 2, "\u{2910D}"),
    ToUtf16(b"\xFE\xFD", 2, true, InputEmpty, 2, &[0xD864, 0xDD0D]),
    Events(
        b"\x61\xFE\xFD\xFE\xFD\x87\xFE",
        "a\u{2910D}\u{2910D}\u{FFFD}",
        &[(5, 2)],
    ),
];

/// U+2910D at the last pointer, 19780.
pub(crate) const LAST: &Flat = &flat!(big5: (19781, &[(19780, 0x2_910D)]));
