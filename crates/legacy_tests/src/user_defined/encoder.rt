//! The encoder of x-user-defined.
use crate::encode_events::Wanted::{Bytes, Report};
use crate::encoder_rows::EncoderRow;
use crate::encoder_rows::EncoderRow::{
    Encoder, Encodes, FromUtf8, FromUtf16, Full, Replaced, Utf8Length, Utf16Length,
};
use crate::source_texts::Text;
use legacy_base::EncoderResult::{InputEmpty, OutputFull, Unmappable};

pub(crate) const ROWS: &[EncoderRow] = &[
    Encoder("U+F780 to U+F7FF are 80 to FF, and no other scalar past ASCII has a byte"),
    FromUtf8(
        "\u{F780}\u{F7FF}\u{F77F}",
        16,
        true,
        Unmappable('\u{F77F}'),
        9,
        b"\x80\xFF",
    ),
    FromUtf8("", 16, true, InputEmpty, 0, b""),
    FromUtf16(
        &[0xF780, 0xF7FF, 0xF77F],
        16,
        true,
        Unmappable('\u{F77F}'),
        3,
        b"\x80\xFF",
    ),
    Encodes(
        "\u{F780}\u{F7FF}\u{F77F}",
        &[Bytes(b"\x80\xFF"), Report('\u{F77F}')],
    ),
    Encodes("\u{F7FF}\u{80}", &[Bytes(b"\xFF"), Report('\u{80}')]),
    Encodes(
        "a\u{F77F}\u{F800}",
        &[Bytes(b"a"), Report('\u{F77F}'), Report('\u{F800}')],
    ),
    Encoder("each scalar needs one byte, also one that is reported"),
    FromUtf8("a\u{F780}", 1, true, OutputFull, 1, b"a"),
    Full("\u{80}", 0),
    FromUtf8("\u{80}", 1, true, Unmappable('\u{80}'), 2, b""),
    FromUtf8("", 0, true, InputEmpty, 0, b""),
    Encoder("the lengths are one byte for each code unit"),
    Utf8Length(7, Some(7)),
    Utf16Length(usize::MAX, Some(usize::MAX)),
    Encoder("the scalars before and after those of the bytes past ASCII"),
    Replaced(Text::Utf8("\u{F77F}\u{F800}"), b"&#63359;&#63488;"),
    Replaced(Text::Utf16(&[0xF77F, 0xF800]), b"&#63359;&#63488;"),
];
