//! The encoders of gb18030 and GBK.
use crate::encode_events::Wanted::{Bytes, Report};
use crate::encoder_rows::EncoderRow;
use crate::encoder_rows::EncoderRow::{
    Encoder, Encodes, FromUtf8, FromUtf16, Full, ReplacedFromUtf8, Utf8Length, Utf16Length,
};
use crate::indexes::{EMPTY, Filled, Flat, flat, tables_of};
use crate::listed_pairs::{encode_listed, pair_room};
use legacy_base::EncoderResult::{InputEmpty, OutputFull, Unmappable};
use legacy_codecs::Gb18030Encoder;
use std::process::Abort;

/// The rows of gb18030 without entries, but with the private-use rows of the Standard.
pub(crate) const WITHOUT_ENTRIES: &[EncoderRow] = &[
    Encoder("the scalars from U+10000 on have four bytes without an index"),
    Encodes("\u{10000}", &[Bytes(b"\x90\x30\x81\x30")]),
    Encodes("\u{10FFFF}", &[Bytes(b"\xE3\x32\x9A\x35")]),
    Encodes("\u{E7C7}", &[Bytes(b"\x81\x35\xF4\x37")]),
    Encoder("a scalar of the private-use rows has the bytes of its row"),
    Encodes("\u{E843}", &[Bytes(b"\xFE\x7E")]),
    Encodes("\u{E78D}\u{E864}", &[Bytes(b"\xA6\xD9\xFE\xA0")]),
    Encodes("\u{E843}\u{1F4A9}", &[Bytes(b"\xFE\x7E\x94\x39\xDA\x33")]),
    Encoder("U+E5E5 has no bytes, and without entries the euro sign has none"),
    Encodes("\u{E5E5}", &[Report('\u{E5E5}')]),
    Encodes("\u{20AC}", &[Report('\u{20AC}')]),
    Encoder("a scalar past ASCII needs four bytes, an ASCII scalar one"),
    FromUtf8("a\u{E843}", 4, true, OutputFull, 1, b"a"),
    Full("\u{E843}", 3),
    FromUtf8("\u{E843}", 4, true, InputEmpty, 3, b"\xFE\x7E"),
    Encoder("the lengths are four bytes for a unit, and two for a byte and two more"),
    Utf16Length(5, Some(20)),
    Utf8Length(5, Some(12)),
    Utf8Length(usize::MAX / 2, None),
];

/// The rows of GBK with the same tables.
pub(crate) const GBK_WITHOUT_ENTRIES: &[EncoderRow] = &[
    Encoder("the euro sign is 80, and nothing has four bytes"),
    Encodes("\u{20AC}", &[Bytes(b"\x80")]),
    Encodes(
        "\u{10000}\u{E7C7}",
        &[Report('\u{10000}'), Report('\u{E7C7}')],
    ),
    Encodes("\u{E843}", &[Bytes(b"\xFE\x7E")]),
    Encodes("\u{E5E5}", &[Report('\u{E5E5}')]),
    Encoder("a scalar past ASCII needs four bytes"),
    Full("\u{20AC}", 3),
    FromUtf8("\u{20AC}", 4, true, InputEmpty, 3, b"\x80"),
    Encoder("a reference needs ten bytes more, of which those it leaves free do not matter"),
    ReplacedFromUtf8("\u{1F4A9}", 13, true, OutputFull, 0, b"", false),
    ReplacedFromUtf8("\u{1F4A9}", 14, true, InputEmpty, 4, b"&#128169;", true),
    Encoder(
        "the lengths are two bytes more than for two bytes a unit, and three more than the bytes",
    ),
    Utf8Length(usize::MAX - 3, Some(usize::MAX)),
    Utf8Length(usize::MAX - 2, None),
    Utf16Length(5, Some(12)),
    Utf16Length(usize::MAX / 2, None),
];

/// Follows the rows without entries with pairs listed in `room`.
///
/// Returns `false` without that if `room` is too short.
fn encode_in(rt: &(impl AllocGlobal + Abort), room: &mut [u16]) -> bool {
    let filled = Filled::of(EMPTY);
    let tables = tables_of(rt, &filled.indexes(EMPTY));
    let encoder = Gb18030Encoder::new(&tables, true);
    encode_listed::<Gb18030Encoder>(rt, &encoder, room, WITHOUT_ENTRIES)
}

#[test]
fn encodes_with_pairs_looked_up_ahead(rt: HostRuntime) {
    let mut room = pair_room(&rt, 0xFFFF);
    assert!(rt; encode_in(&rt, room.as_mut_slice()));
}

#[test]
fn takes_no_room_that_is_too_small(rt: HostRuntime) {
    assert!(rt; !encode_in(&rt, &mut [0; 8]));
}

pub(crate) const WITH_RANGE: &[EncoderRow] = &[
    Encoder("an unpaired surrogate is U+FFFD, which the range has"),
    FromUtf16(&[0xDC00], 16, true, InputEmpty, 1, b"\x84\x31\xA4\x37"),
    FromUtf16(
        &[0xDC00, 0xD800],
        16,
        true,
        InputEmpty,
        2,
        b"\x84\x31\xA4\x37\x84\x31\xA4\x37",
    ),
];

pub(crate) const GBK_WITH_RANGE: &[EncoderRow] = &[
    Encoder("in GBK a scalar of the ranges has no bytes"),
    FromUtf16(&[0xDC00], 16, true, Unmappable('\u{FFFD}'), 1, b""),
];

pub(crate) const BESIDE_7457: &[EncoderRow] = &[
    Encoder("pointer 7457 is that of U+E7C7 alone"),
    Encodes("\u{3000}", &[Report('\u{3000}')]),
    Encodes(
        "\u{3001}\u{E7C7}",
        &[Bytes(b"\x81\x35\xF4\x38\x81\x35\xF4\x37")],
    ),
];

pub(crate) const OTHER_ROW: &[EncoderRow] = &[
    Encoder("a row that is handed in gives its bytes"),
    Encodes("\u{E000}", &[Bytes(b"\xA6\xD9")]),
];

pub(crate) const NO_ROWS: &[EncoderRow] = &[
    Encoder("without rows such a scalar has no bytes, where no index has it"),
    Encodes("\u{E78D}", &[Report('\u{E78D}')]),
];

pub(crate) const IN_THE_INDEX: &[EncoderRow] = &[
    Encoder("without rows such a scalar has the pointer of the index"),
    Encodes("\u{E81E}", &[Bytes(b"\xFE\x59")]),
];

pub(crate) const BOTH: &[EncoderRow] = &[
    Encoder("a scalar of a row and the scalar that the index has there have the same bytes"),
    Encodes("\u{E81E}\u{9FB4}", &[Bytes(b"\xFE\x59\xFE\x59")]),
];

/// The range of the last pointers.
pub(crate) const LAST_RANGE: &Flat = &flat!(ranges: &[(39394, 0xFFE6)]);

/// A range from pointer 7457 on.
pub(crate) const RANGE_FROM_7457: &Flat = &flat!(ranges: &[(7457, 0x3000)]);

/// A private-use row that the Standard does not have.
pub(crate) const ROW_OF_E000: &Flat = &flat!(gb18030_pua: &[(0xE000, 0xA6, 0xD9)]);

pub(crate) const WITHOUT_ROWS: &Flat = &flat!(gb18030_pua: &[]);

/// U+E81E in the index, without private-use rows.
pub(crate) const PRIVATE_USE: &Flat =
    &flat!(gb18030: (23776, &[(23775, 0xE81E)]), gb18030_pua: &[]);

/// U+9FB4 in the index, at the pointer whose bytes a private-use row has.
pub(crate) const ROW_AND_ENTRY: &Flat = &flat!(gb18030: (23776, &[(23775, 0x9FB4)]));
