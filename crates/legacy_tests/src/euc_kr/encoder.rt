//! The encoder of EUC-KR.
use crate::encode_events::Wanted::{Bytes, Report};
use crate::encoder_rows::EncoderRow;
use crate::encoder_rows::EncoderRow::{Encoder, Encodes, FromUtf8, FromUtf16, Full, Replaced};
use crate::indexes::{Filled, Flat, flat, tables_of};
use crate::listed_pairs::{encode_listed, pair_room};
use crate::source_texts::Text;
use legacy_base::EncoderResult::{InputEmpty, OutputFull, Unmappable};
use legacy_codecs::EucKrEncoder;
use std::process::Abort;

/// The rows with U+AC02 at pointer 0, and no other scalar.
pub(crate) const ROWS: &[EncoderRow] = &[
    Encoder("a scalar of the index is a lead and a trail"),
    Encodes("\u{AC02}", &[Bytes(b"\x81\x41")]),
    Encodes(
        "a\u{AC03}\u{AC02}",
        &[Bytes(b"a"), Report('\u{AC03}'), Bytes(b"\x81\x41")],
    ),
    Encoder("a scalar past ASCII needs two bytes, an ASCII scalar one"),
    FromUtf8("a\u{AC02}", 2, true, OutputFull, 1, b"a"),
    FromUtf8("\u{AC02}", 2, true, InputEmpty, 3, b"\x81\x41"),
    Full("\u{AC03}", 1),
    FromUtf8("\u{AC03}", 2, true, Unmappable('\u{AC03}'), 3, b""),
    FromUtf8("a", 1, true, InputEmpty, 1, b"a"),
    Encoder("an unpaired surrogate is U+FFFD"),
    FromUtf16(&[0xDC00, 0xDEDE], 40, true, Unmappable('\u{FFFD}'), 1, b""),
    Encoder("each unpaired surrogate has a reference of its own"),
    Replaced(Text::Utf16(&[0xDC00, 0xDEDE]), b"&#65533;&#65533;"),
];

pub(crate) const LAST: &[EncoderRow] = &[
    Encoder("the last pointer is FE FE"),
    Encodes("\u{8A70}", &[Bytes(b"\xFE\xFE")]),
    FromUtf16(&[0x8A70], 2, true, InputEmpty, 1, b"\xFE\xFE"),
];

/// U+8A70 at the last pointer, 23939.
pub(crate) const LAST_ENTRY: &Flat = &flat!(euc_kr: (23940, &[(23939, 0x8A70)]));

/// The first sixteen scalars of the Standard's index.
const SIXTEEN: &Flat =
    &flat!(euc_kr: (16, &[(0, 0xAC02), (1, 0xAC03), (2, 0xAC05), (3, 0xAC06), (4, 0xAC0B), (5, 0xAC0C), (6, 0xAC0D), (7, 0xAC0E), (8, 0xAC0F), (9, 0xAC18), (10, 0xAC1E), (11, 0xAC1F), (12, 0xAC21), (13, 0xAC22), (14, 0xAC23), (15, 0xAC25)]));

/// The rows with the first sixteen scalars of the Standard's index, and no other scalar.
const WORDS: &[EncoderRow] = &[
    Encoder("words with spaces between them"),
    FromUtf8(
        "a\u{AC02}\u{AC05} \u{AC22}\u{AC25}\u{AC02} \u{AC05}\u{AC22}, \u{AC25}\u{AC02}\u{AC05}\u{AC22}. \u{AC02}\u{AC25} x",
        96,
        true,
        InputEmpty,
        48,
        b"a\x81A\x81C \x81N\x81P\x81A \x81C\x81N, \x81P\x81A\x81C\x81N. \x81A\x81P x",
    ),
    FromUtf8(
        "\u{AC02} \u{AC02} \u{AC02} \u{AC02} \u{AC02} \u{AC02} \u{AC02} \u{AC02} \u{AC02} \u{AC02} \u{AC02} \u{AC02} ",
        96,
        true,
        InputEmpty,
        48,
        b"\x81A \x81A \x81A \x81A \x81A \x81A \x81A \x81A \x81A \x81A \x81A \x81A ",
    ),
    Encoder("letters alone after a space"),
    FromUtf8(
        " \u{AC02}\u{AC05}\u{AC22}\u{AC25}\u{AC02}\u{AC05}\u{AC22}\u{AC25}\u{AC02}\u{AC05}\u{AC22}\u{AC25}\u{AC02}\u{AC05}\u{AC22}\u{AC25}",
        96,
        true,
        InputEmpty,
        49,
        b" \x81A\x81C\x81N\x81P\x81A\x81C\x81N\x81P\x81A\x81C\x81N\x81P\x81A\x81C\x81N\x81P",
    ),
    Encoder(
        "what has no bytes, or another number of bytes of UTF-8, among eight scalars after a space",
    ),
    FromUtf8(
        " \u{AC02}\u{AC05}\u{AC22}\u{AC04}\u{AC02}\u{AC05} \u{AC22}\u{AC25}\u{AC02} \u{AC05}\u{AC22}, \u{AC25}\u{AC02}\u{AC05}\u{AC22}. \u{AC02}\u{AC25} x",
        96,
        true,
        Unmappable('\u{AC04}'),
        13,
        b" \x81A\x81C\x81N",
    ),
    FromUtf8(
        " \u{AC02}\u{AC05}\u{AC22}\u{E9}\u{AC02}\u{AC05} \u{AC22}\u{AC25}\u{AC02} \u{AC05}\u{AC22}, \u{AC25}\u{AC02}\u{AC05}\u{AC22}. \u{AC02}\u{AC25} x",
        96,
        true,
        Unmappable('\u{E9}'),
        12,
        b" \x81A\x81C\x81N",
    ),
    FromUtf8(
        " \u{AC02}\u{AC05} \u{AC22}\u{AC25}\u{AC02}\u{AC05}\u{1F4A9}\u{AC02}\u{AC05} \u{AC22}\u{AC25}\u{AC02} \u{AC05}\u{AC22}, \u{AC25}\u{AC02}\u{AC05}\u{AC22}. \u{AC02}\u{AC25} x",
        96,
        true,
        Unmappable('\u{1F4A9}'),
        24,
        b" \x81A\x81C \x81N\x81P\x81A\x81C",
    ),
    Encoder("a text that ends within eight scalars, or some bytes after them"),
    FromUtf8(
        " \u{AC02}\u{AC05}\u{AC22} \u{AC02}\u{AC05}\u{AC22} \u{AC02}\u{AC05}\u{AC22} \u{AC02}",
        96,
        true,
        InputEmpty,
        34,
        b" \x81A\x81C\x81N \x81A\x81C\x81N \x81A\x81C\x81N \x81A",
    ),
    FromUtf8(
        " \u{AC02}\u{AC05}\u{AC22} \u{AC02}\u{AC05}\u{AC22} \u{AC02}\u{AC05}\u{AC22} \u{AC02} ",
        96,
        true,
        InputEmpty,
        35,
        b" \x81A\x81C\x81N \x81A\x81C\x81N \x81A\x81C\x81N \x81A ",
    ),
    FromUtf8(
        " \u{AC02}\u{AC05}\u{AC22} \u{AC02}\u{AC05}\u{AC22} \u{AC02}\u{AC05}\u{AC22} \u{AC02}  ",
        96,
        true,
        InputEmpty,
        36,
        b" \x81A\x81C\x81N \x81A\x81C\x81N \x81A\x81C\x81N \x81A  ",
    ),
    FromUtf8(
        " \u{AC02}\u{AC05}\u{AC22} \u{AC02}\u{AC05}\u{AC22} \u{AC02}\u{AC05}\u{AC22} \u{AC02}\u{AC05}",
        96,
        true,
        InputEmpty,
        37,
        b" \x81A\x81C\x81N \x81A\x81C\x81N \x81A\x81C\x81N \x81A\x81C",
    ),
    FromUtf8(
        " \u{AC02}\u{AC05}\u{AC22}\u{AC25}\u{AC02}\u{AC05}\u{AC22}\u{AC25}\u{AC02}\u{AC05}\u{AC22}\u{AC25}",
        96,
        true,
        InputEmpty,
        37,
        b" \x81A\x81C\x81N\x81P\x81A\x81C\x81N\x81P\x81A\x81C\x81N\x81P",
    ),
];

/// Follows the rows of words with pairs listed in `room`.
///
/// Returns `false` without that if `room` is too short.
fn encode_in(rt: &(impl AllocGlobal + Abort), room: &mut [u16]) -> bool {
    let filled = Filled::of(SIXTEEN);
    let tables = tables_of(rt, &filled.indexes(SIXTEEN));
    let encoder = EucKrEncoder::new(&tables);
    encode_listed::<EucKrEncoder>(rt, &encoder, room, WORDS)
}

#[test]
fn encodes_words_with_pairs_looked_up_ahead(rt: HostRuntime) {
    let mut room = pair_room(&rt, 0);
    assert!(rt; encode_in(&rt, room.as_mut_slice()));
}
