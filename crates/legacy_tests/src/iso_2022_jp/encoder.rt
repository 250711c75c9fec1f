//! The encoder of ISO-2022-JP.
use crate::codecs::follow_rows;
use crate::encode_events::Wanted::{Bytes, Report};
use crate::encoder_rows::EncoderRow::{
    Encoder, Encodes, FromUtf8, FromUtf16, Full, Pending, Replaced, ReplacedFromUtf8, Utf8Length,
    Utf16Length,
};
use crate::encoder_rows::{EncoderRow, TestedEncoder, follow_encoder};
use crate::indexes::{EMPTY, Filled, Flat, flat, packed_of, packed_tables_of, tables_of};
use crate::listed_pairs::pair_room;
use crate::source_texts::Text;
use legacy_base::EncoderResult::{InputEmpty, OutputFull, Unmappable};
use legacy_codecs::{CachedIso2022JpEncoder, Iso2022JpEncoder};
use legacy_index_files::Codec;
use std::process::Abort;

impl<'a, 'b> TestedEncoder for CachedIso2022JpEncoder<'a, 'b> {
    type Of = CachedIso2022JpEncoder<'a, 'b>;

    fn made(_rt: &impl Abort, of: Self::Of) -> Self {
        of
    }

    fn pending(&self) -> Option<bool> {
        Some(self.has_pending_state())
    }
}

/// Follows the rows over packed tables, with an encoder that lists pairs in `room`.
// Over flat tables, filling the cache would search the index for 65,536 scalars.
fn encode_listed<'a>(
    rt: &(impl AllocGlobal + Abort),
    room: &mut [u16],
    flat: &'a Flat<'a>,
    rows: &[EncoderRow],
) {
    let filled = Filled::of(flat);
    let indexes = filled.indexes(flat);
    let packed = packed_of(rt, &indexes);
    let tables = packed_tables_of(rt, &indexes, &packed.packed());
    let encoder = Iso2022JpEncoder::new(&tables);
    match CachedIso2022JpEncoder::new(&encoder, room) {
        Some(cached) => follow_encoder::<CachedIso2022JpEncoder>(rt, cached, rows),
        None => panic!(rt; "the room is refused"),
    }
}

/// Follows the rows over flat tables, over packed ones, and over these with cached pairs.
fn encode_in_all_ways<'a>(
    rt: &(impl AllocGlobal + Abort),
    flat: &'a Flat<'a>,
    rows: &[EncoderRow],
) {
    follow_rows(rt, &[Codec::Iso2022Jp], flat, rows);
    let mut room = pair_room(rt, 0xFFFF);
    encode_listed(rt, room.as_mut_slice(), flat, rows);
}

#[test]
fn takes_no_room_that_is_too_small(rt: HostRuntime) {
    let filled = Filled::of(EMPTY);
    let tables = tables_of(&rt, &filled.indexes(EMPTY));
    let encoder = Iso2022JpEncoder::new(&tables);
    assert!(rt; CachedIso2022JpEncoder::new(&encoder, &mut [0; 8]).is_none());
}

const WITHOUT_ENTRIES: &[EncoderRow] = &[
    Encoder("the yen sign switches to Roman mode, and a reverse solidus and the end back to ASCII"),
    FromUtf8(
        "a\u{A5}b\x5C",
        64,
        true,
        InputEmpty,
        5,
        b"a\x1B(J\x5Cb\x1B(B\x5C",
    ),
    Encodes("a\u{A5}b\x5C", &[Bytes(b"a\x1B(J\x5Cb\x1B(B\x5C")]),
    Encodes("a\u{A5}\x5C", &[Bytes(b"a\x1B(J\x5C\x1B(B\x5C")]),
    Encodes("\u{203E}~", &[Bytes(b"\x1B(J~\x1B(B~")]),
    Encodes("\u{A5}", &[Bytes(b"\x1B(J\x5C\x1B(B")]),
    Encoder("the mode stays at the end of a piece that is not the last"),
    Pending(false),
    FromUtf8("a\u{A5}", 64, false, InputEmpty, 3, b"a\x1B(J\x5C"),
    Pending(true),
    FromUtf8("b", 64, false, InputEmpty, 1, b"b"),
    Pending(true),
    Full("", 2),
    Pending(true),
    FromUtf8("", 3, true, InputEmpty, 0, b"\x1B(B"),
    Pending(false),
    Encoder("controls that switch modes are reported as U+FFFD"),
    Encodes(
        "a\x0Eb\x0F\x1B",
        &[
            Bytes(b"a"),
            Report('\u{FFFD}'),
            Bytes(b"b"),
            Report('\u{FFFD}'),
            Report('\u{FFFD}'),
        ],
    ),
    Encoder("in Roman mode what has no bytes changes nothing"),
    Encodes(
        "\u{A5}\u{2212}",
        &[Bytes(b"\x1B(J\x5C"), Report('\u{2212}'), Bytes(b"\x1B(B")],
    ),
    Encoder("each act needs three bytes"),
    Full("a", 2),
    FromUtf8("a\u{A5}", 3, true, OutputFull, 1, b"a"),
    FromUtf8("\u{A5}", 5, true, OutputFull, 0, b"\x1B(J"),
    Pending(true),
    FromUtf8("\u{A5}", 3, true, OutputFull, 2, b"\x5C"),
    FromUtf8("", 3, true, InputEmpty, 0, b"\x1B(B"),
    Encoder("the lengths of a new encoder"),
    Utf8Length(5, Some(18)),
    Utf16Length(1, Some(8)),
    Utf16Length(3, Some(17)),
    Utf8Length(usize::MAX / 3, None),
];

#[test]
fn encodes_without_entries(rt: HostRuntime) {
    encode_in_all_ways(&rt, EMPTY, WITHOUT_ENTRIES);
}

/// The rows with U+58FA at pointer 4861.
const PAIRS: &[EncoderRow] = &[
    Encoder("two-byte mode ends before what has no bytes"),
    FromUtf8(
        "\u{58FA}\u{1F4A9}",
        64,
        true,
        Unmappable('\u{1F4A9}'),
        7,
        b"\x1B$BTd\x1B(B",
    ),
    Pending(false),
    Encodes(
        "\u{58FA}\u{1F4A9}",
        &[Bytes(b"\x1B$BTd\x1B(B"), Report('\u{1F4A9}')],
    ),
    Encodes(
        "\u{58FA}\u{1F4A9}\u{58FA}",
        &[
            Bytes(b"\x1B$BTd\x1B(B"),
            Report('\u{1F4A9}'),
            Bytes(b"\x1B$BTd\x1B(B"),
        ],
    ),
    Encoder("the escape before what has no bytes is an act of its own"),
    FromUtf8("\u{58FA}", 64, false, InputEmpty, 3, b"\x1B$BTd"),
    Full("\u{1F4A9}", 2),
    FromUtf8("\u{1F4A9}", 5, true, OutputFull, 0, b"\x1B(B"),
    Pending(false),
    FromUtf8("\u{1F4A9}", 3, true, Unmappable('\u{1F4A9}'), 4, b""),
    Encoder("the queried length of UTF-16 is enough for one call"),
    Utf16Length(1, Some(8)),
    FromUtf16(&[0x58FA], 8, true, InputEmpty, 1, b"\x1B$BTd\x1B(B"),
    Encoder("the queried length of UTF-16 is enough for three calls"),
    Utf16Length(3, Some(17)),
    FromUtf16(&[0x58FA], 17, false, InputEmpty, 1, b"\x1B$BTd"),
    FromUtf16(&[0x61], 12, false, InputEmpty, 1, b"\x1B(Ba"),
    FromUtf16(&[0x58FA], 8, true, InputEmpty, 1, b"\x1B$BTd\x1B(B"),
    Encoder("eight pairs are followed by two, and a letter stands before the last ones"),
    FromUtf16(
        &[
            0x58FA, 0x58FA, 0x58FA, 0x58FA, 0x58FA, 0x58FA, 0x58FA, 0x58FA, 0x58FA, 0x58FA, 0x61,
            0x58FA, 0x58FA, 0x58FA, 0x58FA, 0x58FA,
        ],
        96,
        true,
        InputEmpty,
        16,
        b"\x1B$BTdTdTdTdTdTdTdTdTdTd\x1B(Ba\x1B$BTdTdTdTdTd\x1B(B",
    ),
    Encoder("among eight code units is an unpaired surrogate"),
    FromUtf16(
        &[
            0x58FA, 0x58FA, 0x58FA, 0x58FA, 0x58FA, 0x58FA, 0x58FA, 0xD800, 0x58FA,
        ],
        96,
        true,
        Unmappable('\u{FFFD}'),
        8,
        b"\x1B$BTdTdTdTdTdTdTd\x1B(B",
    ),
    Encoder("without room for a reference nothing is read"),
    ReplacedFromUtf8("a", 9, true, OutputFull, 0, b"", false),
    Encoder("the end needs its own room and that of a reference"),
    ReplacedFromUtf8("\u{A5}", 96, false, InputEmpty, 2, b"\x1B(J\x5C", false),
    ReplacedFromUtf8("", 12, true, OutputFull, 0, b"", false),
    ReplacedFromUtf8("", 13, true, InputEmpty, 0, b"\x1B(B", false),
    Encoder("a reference in Roman mode leaves the mode"),
    Replaced(Text::Utf8("\u{A5}\u{1F4A9}"), b"\x1B(J\x5C&#128169;\x1B(B"),
];

/// U+58FA at pointer 4861 of index jis0208.
pub(crate) const ONE_PAIR: &Flat = &flat!(jis0208: (4862, &[(4861, 0x58FA)]));

#[test]
fn encodes_pairs(rt: HostRuntime) {
    encode_in_all_ways(&rt, ONE_PAIR, PAIRS);
}

const KATAKANA: &[EncoderRow] = &[
    Encoder(
        "half-width katakana are written as the katakana index says, where index jis0208 has that",
    ),
    FromUtf8(
        "\u{FF61}\u{FF62}",
        64,
        true,
        Unmappable('\u{FF62}'),
        6,
        b"\x1B$B!#\x1B(B",
    ),
    Pending(false),
    Encodes(
        "\u{FF61}\u{FF62}",
        &[Bytes(b"\x1B$B!#\x1B(B"), Report('\u{FF62}')],
    ),
];

/// U+3002 and U+300C in the katakana index, of which index jis0208 has only the first.
const TWO_KATAKANA: &Flat =
    &flat!(jis0208: (3, &[(2, 0x3002)]), katakana: (63, &[(0, 0x3002), (1, 0x300C)]));

#[test]
fn encodes_katakana(rt: HostRuntime) {
    encode_in_all_ways(&rt, TWO_KATAKANA, KATAKANA);
}
