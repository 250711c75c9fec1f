//! ISO-2022-JP.
pub(crate) mod encoder;

use crate::indexes::{Flat, flat};
use crate::rows::Row;
use crate::rows::Row::{
    Cut, Decoder, Events, FullUtf8, HeldBack, Lengths, Neutral, Replaced, ReplacedToUtf16, Text,
    ToUtf8, ToUtf16, Utf8Length, Utf16Length,
};
use legacy_base::DecoderResult::{InputEmpty, Malformed};

pub(crate) const WITHOUT_ENTRIES: &[Row] = &[
    Decoder("an escape directly after an escape makes the first one malformed"),
    ToUtf8(b"\x1B(B\x1B(J", 16, true, Malformed(3, 3), 6, ""),
    ToUtf8(b"", 16, true, InputEmpty, 0, ""),
    Events(b"\x1B(B\x1B(J", "\u{FFFD}", &[(0, 3)]),
    Decoder("an escape directly after an escape, byte by byte"),
    HeldBack(b"\x1B"),
    HeldBack(b"("),
    HeldBack(b"B"),
    HeldBack(b"\x1B"),
    HeldBack(b"("),
    ToUtf8(b"J", 16, true, Malformed(3, 3), 1, ""),
    Decoder("a lead before 1B is malformed, and so is a 1B that begins no escape"),
    ToUtf8(b"\x1B$B9\x1B$", 16, true, Malformed(1, 1), 5, ""),
    ToUtf8(b"$", 16, true, Malformed(1, 1), 1, ""),
    ToUtf8(b"", 16, true, Malformed(1, 0), 0, ""),
    ToUtf8(b"", 16, true, InputEmpty, 0, ""),
    Events(
        b"\x1B$B9\x1B$",
        "\u{FFFD}\u{FFFD}\u{FFFD}",
        &[(3, 1), (4, 1), (5, 1)],
    ),
    Cut(
        b"\x1B(B\x1B(J\x5C\x1B$B9\x1B$",
        "\u{FFFD}\u{A5}\u{FFFD}\u{FFFD}\u{FFFD}",
        &[(0, 3), (10, 1), (11, 1), (12, 1)],
    ),
    Decoder("katakana mode lasts into the next call"),
    HeldBack(b"\x1B(I"),
    Utf8Length(1, Some(6)),
    ToUtf8(b"!", 16, true, InputEmpty, 1, "\u{FF61}"),
    Events(b"\x1B(I!", "\u{FF61}", &[]),
    Decoder("what follows a 1B that begins no escape is read in the old mode"),
    ToUtf8(b"\x1B(B\x1B(A", 16, true, Malformed(1, 1), 5, ""),
    ToUtf8(b"A", 16, true, InputEmpty, 1, "(A"),
    Events(b"\x1B(B\x1B(A", "\u{FFFD}(A", &[(3, 1)]),
    Decoder("an escape after a lead takes effect"),
    ToUtf8(b"\x1B$B9\x1B(B", 16, true, Malformed(1, 1), 5, ""),
    ToUtf8(b"(B", 16, true, InputEmpty, 2, ""),
    Events(b"\x1B$B9\x1B(B", "\u{FFFD}", &[(3, 1)]),
    Decoder("an escape with nothing after it is held back and gives no event"),
    Neutral(true),
    ToUtf8(b"\x1B(B", 16, true, InputEmpty, 3, ""),
    Neutral(false),
    Events(b"\x1B(B", "", &[]),
];

/// Also without entries: the end of an input, lengths, and small outputs.
pub(crate) const ENDS_AND_LENGTHS: &[Row] = &[
    Decoder("an escape byte alone at the end takes the escape before it away"),
    ToUtf8(b"\x1B(B\x1B", 16, true, Malformed(1, 0), 4, ""),
    Neutral(true),
    HeldBack(b"\x1B(J"),
    Decoder("the mode lasts into a call after the last one"),
    ToUtf8(b"\x1B(J\x5C", 16, true, InputEmpty, 4, "\u{A5}"),
    ToUtf8(b"\x5C", 16, true, InputEmpty, 1, "\u{A5}"),
    Decoder("an escape that is held back at the end takes effect in a call after the last one"),
    ToUtf8(b"\x1B(J", 16, true, InputEmpty, 3, ""),
    ToUtf8(b"\x5C", 16, true, InputEmpty, 1, "\u{A5}"),
    Decoder("an escape counts as one byte in the lengths, what else is held back as it is"),
    HeldBack(b"\x1B(I\x1B$"),
    Lengths(1, Some(4), Some(12), Some(12)),
    ToUtf8(b"!", 12, true, Malformed(1, 1), 0, ""),
    ToUtf8(b"!", 12, true, InputEmpty, 1, "\u{FF64}\u{FF61}"),
    Events(b"\x1B(I\x1B$!", "\u{FFFD}\u{FF64}\u{FF61}", &[(3, 1)]),
    Decoder("what is encoded of U+0061 U+00A5 U+0062 U+005C decodes to it"),
    Events(b"a\x1B(J\x5Cb\x1B(B\x5C", "a\u{A5}b\u{5C}", &[]),
    Decoder("any byte needs three bytes or one unit, and a short output leaves all as it was"),
    FullUtf8(b"\x1B", 2),
    Neutral(true),
    ToUtf16(b"\x1B", 1, true, Malformed(1, 0), 1, &[]),
    Decoder("the queried length is enough after an escape that is held back"),
    ReplacedToUtf16(b"\x1B", 2, false, InputEmpty, 1, &[], false),
    Utf16Length(1, Some(2)),
    ReplacedToUtf16(b"A", 2, true, InputEmpty, 1, &[0xFFFD, 0x41], true),
    Decoder("any small output gives the same text"),
    Text(
        b"\x1B$B9\x1B$",
        "\u{FFFD}\u{FFFD}\u{FFFD}",
        &[0xFFFD, 0xFFFD, 0xFFFD],
    ),
    Text(b"\x1B$B9\x1B", "\u{FFFD}\u{FFFD}", &[0xFFFD, 0xFFFD]),
    Text(
        b"\x1B$B9\x1B(",
        "\u{FFFD}\u{FFFD}\u{FFFD}",
        &[0xFFFD, 0xFFFD, 0xFFFD],
    ),
    Text(b"\x80\x1B$", "\u{FFFD}\u{FFFD}$", &[0xFFFD, 0xFFFD, 0x24]),
    Text(b"a\x1B$B9", "a\u{FFFD}", &[0x61, 0xFFFD]),
];

/// The rows with pointers 0, 95, 671 and 4861 of index jis0208.
pub(crate) const PAIRS: &[Row] = &[
    Decoder("in two-byte mode the byte after a single 1B is a lead"),
    ToUtf8(b"\x1B$B\x1B(.", 16, true, Malformed(1, 1), 5, ""),
    ToUtf8(b".", 16, true, InputEmpty, 1, "\u{250F}"),
    Events(b"\x1B$B\x1B(.", "\u{FFFD}\u{250F}", &[(3, 1)]),
    Decoder(
        "a run of ASCII with 0E and 80 in it, of pairs of which one has no scalar, Roman, katakana",
    ),
    Events(
        b"abcdefghijklmnopqrs\x0Eabc\x80de\x1B$B!!\"\"(.!!!~!!\"\"!!\x1B(J\\~\x1B(I!_\x1B$@!!!\x1B(Bxyz\x0F",
        "abcdefghijklmnopqrs\u{FFFD}abc\u{FFFD}de\u{3000}\u{2225}\u{250F}\u{3000}\u{FFFD}\u{3000}\u{2225}\u{3000}\u{A5}\u{203E}\u{FF61}\u{FF9F}\u{3000}\u{FFFD}xyz\u{FFFD}",
        &[(19, 1), (23, 1), (37, 2), (60, 1), (67, 1)],
    ),
    Decoder(
        "of what is encoded beside a scalar without bytes, an escape after an escape is malformed",
    ),
    Events(
        b"\x1B$BTd\x1B(B\x1B$BTd\x1B(B",
        "\u{58FA}\u{FFFD}\u{58FA}",
        &[(5, 3)],
    ),
    Decoder("the mode of an escape after a run lasts into the next call"),
    ToUtf8(b"ab\x1B$B!!", 64, false, InputEmpty, 7, "ab\u{3000}"),
    Neutral(false),
    ToUtf8(b"!!", 64, true, InputEmpty, 2, "\u{3000}"),
    Decoder("the same back to ASCII, into UTF-16"),
    ToUtf16(
        b"\x1B$B!!\x1B(Ba\x1B$@!!\x1B(Bbc",
        64,
        true,
        InputEmpty,
        19,
        &[0x3000, 0x61, 0x3000, 0x62, 0x63],
    ),
    Neutral(true),
    Decoder("an escape after a run is held back if nothing follows it"),
    ToUtf8(b"\x1B$B!!\x1B(B", 64, false, InputEmpty, 8, "\u{3000}"),
    Neutral(false),
    Utf8Length(1, Some(6)),
    ToUtf8(b"a", 64, true, InputEmpty, 1, "a"),
    Neutral(true),
    Decoder("an escape after a run is malformed if the next follows directly"),
    ToUtf8(b"a\x1B$B\x1B(Bb", 64, true, Malformed(3, 3), 7, "a"),
    ToUtf8(b"b", 64, true, InputEmpty, 1, "b"),
    Decoder("an escape after a run takes effect if no form follows it"),
    ToUtf8(b"a\x1B$B\x80", 64, false, Malformed(1, 0), 5, "a"),
    Neutral(false),
    ToUtf8(b"!!", 64, true, InputEmpty, 2, "\u{3000}"),
    Decoder("an escape after a run takes effect if the output is small"),
    ToUtf8(b"a\x1B$B!!", 6, false, InputEmpty, 6, "a\u{3000}"),
    Neutral(false),
    Decoder("a byte that is no lead is replaced in two-byte mode, which stays"),
    Replaced(b"\x1B$@\x80Td", "\u{FFFD}\u{58FA}"),
    Decoder("of an escape that is none only the first byte is replaced"),
    Replaced(b"\x1B$(D", "\u{FFFD}$(D"),
];

/// Scalars at pointers 0, 95, 671 and 4861 of index jis0208.
pub(crate) const ENTRIES: &Flat =
    &flat!(jis0208: (4862, &[(0, 0x3000), (95, 0x2225), (671, 0x250F), (4861, 0x58FA)]));
