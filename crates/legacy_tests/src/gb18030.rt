//! gb18030.
pub(crate) mod encoder;

use crate::indexes::{Flat, flat};
use crate::rows::Row;
use crate::rows::Row::{
    Cut, Decoder, Events, FullUtf8, FullUtf16, Lengths, Neutral, Replaced, ToUtf8, ToUtf16,
    Utf8Length, Utf16Length,
};
use legacy_base::DecoderResult::{InputEmpty, Malformed, OutputFull};

pub(crate) const WITHOUT_ENTRIES: &[Row] = &[
    Decoder("a fourth byte that does not fit gives the second and third back"),
    ToUtf8(b"\xE3\x32\x9A\x00", 8, true, Malformed(1, 2), 3, ""),
    Neutral(false),
    ToUtf8(b"\x00", 8, true, Malformed(1, 0), 0, "2"),
    Neutral(true),
    ToUtf8(b"\x00", 8, true, InputEmpty, 1, "\0"),
    Events(
        b"\xE3\x32\x9A\x00",
        "\u{FFFD}2\u{FFFD}\0",
        &[(0, 1), (2, 1)],
    ),
    Decoder("the lead after a digit begins a form"),
    ToUtf8(b"\x81\x30\x82\x40", 8, true, Malformed(1, 2), 3, ""),
    ToUtf8(b"\x40", 8, true, Malformed(1, 0), 0, "0"),
    ToUtf8(b"\x40", 8, true, InputEmpty, 1, "@"),
    Events(b"\x81\x30\x82\x40", "\u{FFFD}0\u{FFFD}@", &[(0, 1), (2, 1)]),
    Decoder("a digit that was put back is written first"),
    ToUtf8(b"\x81\x30\x41", 8, true, Malformed(1, 1), 2, ""),
    Neutral(false),
    ToUtf8(b"\x41", 8, true, InputEmpty, 1, "0A"),
    Neutral(true),
    Decoder("a digit that was put back waits for its room"),
    ToUtf8(b"\x81\x30\x41", 8, true, Malformed(1, 1), 2, ""),
    FullUtf8(b"\x41", 3),
    Neutral(false),
    Decoder("a digit is written also where no byte comes"),
    ToUtf16(b"\x81\x39\x41", 2, false, Malformed(1, 1), 2, &[]),
    ToUtf16(b"", 1, false, OutputFull, 0, &[]),
    ToUtf16(b"", 2, false, InputEmpty, 0, &[0x39]),
    Neutral(true),
    Decoder("pointer 1237575 is the last scalar"),
    ToUtf8(b"\xE3\x32\x9A\x35", 4, true, InputEmpty, 4, "\u{10FFFF}"),
    Decoder("pointer 1237575 is the last scalar, in UTF-16"),
    ToUtf16(
        b"\xE3\x32\x9A\x35",
        2,
        true,
        InputEmpty,
        4,
        &[0xDBFF, 0xDFFF],
    ),
    Decoder("pointer 1237576 has no scalar"),
    ToUtf8(b"\xE3\x32\x9A\x36", 4, true, Malformed(4, 0), 4, ""),
    Decoder("pointer 7457 is U+E7C7 whatever the ranges"),
    ToUtf16(b"\x81\x35\xF4\x37", 2, true, InputEmpty, 4, &[0xE7C7]),
];

/// Also without entries: lengths, needs, and malformed forms.
pub(crate) const LENGTHS_AND_FORMS: &[Row] = &[
    Decoder("each byte that is held back counts in the lengths"),
    Utf8Length(4, Some(13)),
    Utf16Length(usize::MAX, None),
    Utf16Length(usize::MAX - 1, Some(usize::MAX)),
    Utf8Length(usize::MAX / 3, None),
    Utf8Length(usize::MAX / 3 - 1, Some(usize::MAX - 2)),
    ToUtf8(b"\xE3\x32\x9A", 4, false, InputEmpty, 3, ""),
    Lengths(0, Some(4), Some(10), Some(10)),
    Decoder("a byte past ASCII needs four bytes or two units"),
    ToUtf8(b"\x61\x80", 4, true, OutputFull, 1, "a"),
    FullUtf16(b"\x80", 1),
    ToUtf8(b"\x80", 4, true, InputEmpty, 1, "\u{20AC}"),
    ToUtf8(b"\x81\x30\x81", 4, false, InputEmpty, 3, ""),
    FullUtf8(b"", 3),
    ToUtf8(b"", 4, true, Malformed(3, 0), 0, ""),
    Decoder("13 bytes, the length for 4, are enough with U+FFFD for each malformed sequence"),
    Utf8Length(4, Some(13)),
    ToUtf8(b"\xE3\x32\x9A\x00", 13, true, Malformed(1, 2), 3, ""),
    ToUtf8(b"\x00", 10, true, Malformed(1, 0), 0, "2"),
    ToUtf8(b"\x00", 6, true, InputEmpty, 1, "\0"),
    Decoder("13 bytes are enough also byte by byte"),
    ToUtf8(b"\xE3", 13, false, InputEmpty, 1, ""),
    ToUtf8(b"\x32", 13, false, InputEmpty, 1, ""),
    ToUtf8(b"\x9A", 13, false, InputEmpty, 1, ""),
    ToUtf8(b"\x00", 13, true, Malformed(1, 2), 0, ""),
    ToUtf8(b"\x00", 10, true, Malformed(1, 0), 0, "2"),
    ToUtf8(b"\x00", 6, true, InputEmpty, 1, "\0"),
    Decoder("malformed forms"),
    Events(b"\xE3\xFF\x9A\x33", "\u{FFFD}\u{FFFD}", &[(0, 2), (2, 2)]),
    Events(
        b"\xE3\xFF\x9A\x33\x00",
        "\u{FFFD}\u{FFFD}3\0",
        &[(0, 2), (2, 1)],
    ),
    Cut(
        b"\xE3\x32\x9A\x00\x81\x30\x81",
        "\u{FFFD}2\u{FFFD}\0\u{FFFD}",
        &[(0, 1), (2, 1), (4, 3)],
    ),
    Events(
        b"\xE3\x32\x9A\x36\x81\x30",
        "\u{FFFD}\u{FFFD}",
        &[(0, 4), (4, 2)],
    ),
    Events(
        b"\xFF\x32\x9A\x33\x00",
        "\u{FFFD}2\u{FFFD}3\0",
        &[(0, 1), (2, 1)],
    ),
    Events(b"\x80\x81", "\u{20AC}\u{FFFD}", &[(1, 1)]),
    Decoder("four bytes that are no form, and two at the end"),
    Replaced(b"\xE3\x32\x9A\x36\x81\x30", "\u{FFFD}\u{FFFD}"),
    Decoder("the digits after a byte that is no lead stay"),
    Replaced(b"\xFF\x32\x9A\x33\0", "\u{FFFD}2\u{FFFD}3\0"),
];

pub(crate) const PAIRS: &[Row] = &[
    Decoder("trails are 40 to 7E and 80 to FE, and 80 alone is U+20AC"),
    ToUtf16(
        b"\x81\x40\x81\x7E\x81\x80\x81\xFE\x82\x40\x80",
        8,
        true,
        InputEmpty,
        11,
        &[0x4E02, 0x4E79, 0x4E85, 0x4F22, 0x4F23, 0x20AC],
    ),
];

/// The rows with the ranges from pointer 0 and U+0080, and from pointer 36 and U+00A5.
pub(crate) const RANGES: &[Row] = &[
    Decoder("forms of four bytes go by the ranges"),
    Events(b"\x81\x30\x81\x30\x94\x39\xDA\x33", "\u{80}\u{1F4A9}", &[]),
    Decoder(
        "pointers 0, 1 and 36, U+1F4A9, the last scalar, the pointer after it, and three bytes",
    ),
    Events(
        b"\x81\x30\x81\x30\x61\x81\x30\x81\x31\x81\x30\x84\x36\x94\x39\xDA\x33\x62\x63\xE3\x32\x9A\x35\xE3\x32\x9A\x36\x81\x30\x81\x30\x81\x30\x81",
        "\u{80}a\u{81}\u{A5}\u{1F4A9}bc\u{10FFFF}\u{FFFD}\u{80}\u{FFFD}",
        &[(23, 4), (31, 3)],
    ),
    Decoder("words of four-byte sequences in one range, a malformed one, and then the other range"),
    Events(
        b"\x81\x30\x84\x36\x81\x30\x88\x33\x20\x81\x30\x8C\x30\x81\x30\x8F\x37\x81\x30\x93\x34\x20\
        \x81\x30\x97\x31\x2C\x20\x81\x30\x9A\x38\x81\x30\x9E\x35\x81\x30\xA2\x32\x81\x30\xA5\x39\
        \x81\x30\xA9\x36\x20\x81\x30\xAD\x33\x81\x30\xB1\x30\x81\x30\xB4\x37\x81\x30\xB8\x34\x0A\
        \x81\x30\xBC\x31\x81\x30\xBF\x38\x20\x81\x30\xC3\x35\x81\x30\xC7\x32\x81\x30\xCA\x39\x2E\
        \x20\x81\x30\xCE\x36\x81\x30\xD2\x33\x81\x30\xD6\x30\x81\x30\xD9\x37\x81\x30\xDD\x34\x81\
        \x30\xE1\x31\x20\x81\x30\xFF\x81\x30\xE4\x38\x81\x30\xE8\x35\x20\x81\x30\xEC\x32\x81\x30\
        \xEF\x39\x81\x30\xF3\x36\x81\x30\xF7\x33\x20\x81\x30\xFB\x30\x81\x30\xFE\x37\x81\x31\x84\
        \x34\x20\x81\x31\x88\x31\x81\x31\x8B\x38\x81\x31\x8F\x35\x81\x31\x93\x32\x81\x31\x96\x39\
        \x20\x81\x31\x9A\x36\x81\x31\x9E\x33\x61\x81\x30\x81\x30\x81\x30\x84\x35\x81\x30\x85\x30\
        \x81\x30\x86\x31\x81\x30\x87\x32\x81\x30\x88\x33\x81\x30\x89\x34\x81\x30\x8A\x35\x81\x30\
        \x8B\x36\x81\x30\x8C\x37\x81\x30\x8D\x38\x81\x30\x8E\x39\x81\x30\x90\x30\x81\x30\x91\x31\
        \x81\x30\x92\x32\x81\x30\x93\x33",
        "\u{00A5}\u{00CA} \u{00EF}\u{0114}\u{0139} \u{015E}, \u{0183}\u{01A8}\u{01CD}\u{01F2}\
        \u{0217} \u{023C}\u{0261}\u{0286}\u{02AB}\n\u{02D0}\u{02F5} \u{031A}\u{033F}\u{0364}. \
        \u{0389}\u{03AE}\u{03D3}\u{03F8}\u{041D}\u{0442} \u{FFFD}0\u{FFFD}\u{0467}\u{048C} \
        \u{04B1}\u{04D6}\u{04FB}\u{0520} \u{0545}\u{056A}\u{058F} \u{05B4}\u{05D9}\u{05FE}\u{0623}\
        \u{0648} \u{066D}\u{0692}a\u{0080}\u{00A3}\u{00A9}\u{00B4}\u{00BF}\u{00CA}\u{00D5}\u{00E0}\
        \u{00EB}\u{00F6}\u{0101}\u{010C}\u{0117}\u{0122}\u{012D}\u{0138}",
        &[(114, 1), (116, 1)],
    ),
];

/// Scalars at pointers whose trails are on both sides of 7F.
pub(crate) const BESIDE_7F: &Flat =
    &flat!(gb18030: (192, &[(0, 0x4E02), (62, 0x4E79), (63, 0x4E85), (189, 0x4F22), (190, 0x4F23)]));

pub(crate) const TWO_RANGES: &Flat = &flat!(ranges: &[(0, 0x0080), (36, 0x00A5)]);

/// The rows with U+9FB4 at pointer 23775.
pub(crate) const DECODED: &[Row] = &[
    Decoder("the bytes of a row decode to the scalar that the index has there"),
    ToUtf8(b"\xFE\x59", 16, true, InputEmpty, 2, "\u{9FB4}"),
];
