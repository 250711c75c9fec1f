//! UTF-16.
use crate::codecs::follow_rows;
use crate::events::{Found, bad};
use crate::indexes::{EMPTY, fill};
use crate::rows::Row;
use crate::rows::Row::{
    Additional, BareLength, Cut, Decoder, EventList, Events, FullUtf16, HeldBack, OneMalformed,
    Pieces, Replaced, ReplacedToUtf8, ToUtf8, ToUtf16, Utf16Length,
};
use legacy_base::DecodeEvent;
use legacy_base::DecodeEvent::Scalar;
use legacy_base::DecoderResult::{InputEmpty, Malformed, OutputFull};
use legacy_index_files::Codec;
use std::process::Abort;

pub(crate) const LITTLE_ENDIAN: &[Row] = &[
    Decoder("the unit after an unpaired high surrogate is held back"),
    HeldBack(b"\x00\xD8"),
    ToUtf8(
        b"\x00\x00\x00\x4E\x00\x4E",
        16,
        false,
        Malformed(2, 2),
        2,
        "",
    ),
    BareLength(4, Some(10)),
    Additional(3),
    ToUtf8(
        b"\x00\x4E\x00\x4E",
        10,
        true,
        InputEmpty,
        4,
        "\0\u{4E00}\u{4E00}",
    ),
    Decoder("the byte order lasts into calls after the last one"),
    ToUtf16(b"\x41\x00", 8, true, InputEmpty, 2, &[0x41]),
    ToUtf16(b"\x42\x00", 8, true, InputEmpty, 2, &[0x42]),
    ToUtf16(b"\x3D\xD8", 8, true, Malformed(2, 0), 2, &[]),
    ToUtf16(b"\x42\x00", 8, true, InputEmpty, 2, &[0x42]),
    Decoder("a byte needs four bytes or two units"),
    ToUtf8(b"\x03", 4, false, InputEmpty, 1, ""),
    ToUtf8(b"\x26\x03\x26", 4, false, OutputFull, 1, "\u{2603}"),
    Decoder("the unit held back is written by the next call"),
    ToUtf16(b"\x41\x00\x3D\xD8", 8, false, InputEmpty, 4, &[0x41]),
    ToUtf16(b"\x42\x00", 8, true, Malformed(2, 2), 2, &[]),
    ToUtf16(b"", 8, true, InputEmpty, 0, &[0x42]),
    Decoder("the unit held back waits for its room"),
    ToUtf16(b"\x3D\xD8\x42\x00", 8, true, Malformed(2, 2), 4, &[]),
    FullUtf16(b"", 0),
    Additional(3),
    Decoder("a high surrogate and an odd byte at the end are one malformed sequence"),
    OneMalformed(b"\x3D\xD8\xA9"),
    Decoder("a high and a low surrogate are one scalar"),
    ToUtf8(b"\x3D\xD8\xA9\xDC", 16, true, InputEmpty, 4, "\u{1F4A9}"),
];

/// Also little-endian: units that are cut, and malformed ones.
pub(crate) const CUT_UNITS: &[Row] = &[
    Decoder("an odd byte adds one to the lengths, a unit held back two"),
    Additional(1),
    HeldBack(b"\x3D"),
    Additional(2),
    HeldBack(b"\xD8"),
    Additional(3),
    HeldBack(b"\xA9"),
    Additional(4),
    Decoder("an odd byte waits for the next call"),
    HeldBack(b"\xFF"),
    ToUtf8(b"\xFD", 16, true, InputEmpty, 1, "\u{FDFF}"),
    Decoder("an odd byte at the end is malformed"),
    OneMalformed(b"\xFF"),
    Decoder("a run stops where a unit lacks the room of any scalar"),
    ToUtf16(
        b"\x41\x00\x42\x00\x43\x00\x44\x00\x45\x00\x46\x00",
        6,
        true,
        OutputFull,
        10,
        &[0x41, 0x42, 0x43, 0x44, 0x45],
    ),
    Decoder("a surrogate without its other half is malformed"),
    Cut(
        b"\x00\xD8\x00\x00\x3D\xD8\xA9",
        "\u{FFFD}\0\u{FFFD}",
        &[(0, 2), (4, 3)],
    ),
    Events(b"\x41\x00\x3D\xD8\x42\x00", "A\u{FFFD}B", &[(2, 2)]),
    Events(
        b"\x00\xD8\x00\x00\x00\x4E\x00\x4E",
        "\u{FFFD}\0\u{4E00}\u{4E00}",
        &[(0, 2)],
    ),
    Decoder("unpaired surrogates are replaced, also at the end"),
    Replaced(
        b"\0\0\0\0\0\0\0\0\x3D\xD8\xA9\xDC\0\0\0\0\0\0\0\0\x3D\xD8\0\0\0\0\0\0\0\0\xA9\xDC\0\0\0\0\0\0\0\0\0\0\0\0\0\0\0\0\x3D\xD8",
        "\0\0\0\0\u{1F4A9}\0\0\0\0\u{FFFD}\0\0\0\0\u{FFFD}\0\0\0\0\0\0\0\0\u{FFFD}",
    ),
    Decoder("a unit may be cut"),
    ReplacedToUtf8(b"\xFF", 96, false, InputEmpty, 1, "", false),
    ReplacedToUtf8(b"\xFD", 96, true, InputEmpty, 1, "\u{FDFF}", false),
    Decoder("half a unit at the end is replaced"),
    Replaced(b"\xFF", "\u{FFFD}"),
];

pub(crate) const BIG_ENDIAN: &[Row] = &[
    Decoder("a high and a low surrogate are one scalar"),
    ToUtf8(b"\xD8\x3D\xDC\xA9", 16, true, InputEmpty, 4, "\u{1F4A9}"),
    Events(
        b"\x00\x61\x00\xE4\x26\x03\xD8\x3D\xDC\xA9",
        "a\u{E4}\u{2603}\u{1F4A9}",
        &[],
    ),
    Decoder("the length in UTF-16 is one more than the units"),
    Utf16Length(usize::MAX - 1, Some(usize::MAX / 2 + 1)),
    Utf16Length(usize::MAX, None),
    Decoder("each byte fits into the queried length"),
    Pieces(b"\x00\x61\x00\xE4\x26\x03\xD8\x3D\xDC\xA9", 1),
    Decoder("so do three bytes at a time"),
    Pieces(b"\x00\xE4\x26\x03\xD8\x3D\xDC\xA9\x00\x61\x00\xE4", 3),
];

/// Compares the events of these units, and of an odd byte if there is one, in either byte order.
fn in_either_order(
    rt: &(impl AllocGlobal + Abort),
    units: &[u16],
    odd: &[u8],
    events: &[DecodeEvent],
) {
    for big_endian in [false, true] {
        let mut bytes = Vec::new(rt.alloc());
        for unit in units {
            let pair = if big_endian {
                unit.to_be_bytes()
            } else {
                unit.to_le_bytes()
            };
            bytes.extend_from_slice(&pair).expect(rt, "no memory");
        }
        bytes.extend_from_slice(odd).expect(rt, "no memory");
        let codec = if big_endian {
            Codec::Utf16Be
        } else {
            Codec::Utf16Le
        };
        follow_rows(rt, &[codec], EMPTY, &[EventList(&bytes, events)]);
    }
}

#[test]
fn decodes_surrogates_among_zeros(rt: HostRuntime) {
    let mut units = [0u16; 25];
    let halves = [(4, 0xD83D), (5, 0xDCA9), (10, 0xD83D), (15, 0xDCA9)];
    fill(&mut units, &halves);
    units[24] = 0xD83D;
    let mut events = [Scalar('\0'); 24];
    events[4] = Scalar('\u{1F4A9}');
    fill(
        &mut events,
        &[(9, bad!(20, 2)), (14, bad!(30, 2)), (23, bad!(48, 2))],
    );
    in_either_order(&rt, &units, b"", &events);
}

/// Places, units that are no ASCII, and their scalars.
const WIDER: &[(usize, u16, char)] = &[
    (20, 0x0141, '\u{141}'),
    (47, 0x0080, '\u{80}'),
    (63, 0x4100, '\u{4100}'),
];

#[test]
fn decodes_ascii_among_which_units_are_wider(rt: HostRuntime) {
    let mut units = [0x41u16; 80];
    let mut events = [Scalar('A'); 80];
    for (place, unit, scalar) in WIDER {
        fill(&mut units, &[(*place, *unit)]);
        fill(&mut events, &[(*place, Scalar(*scalar))]);
    }
    in_either_order(&rt, &units, b"", &events);
}

/// A run, a pair, a run, a low surrogate, a run, a high surrogate, and a run before an odd byte.
const RUNS: &[u16] = &[
    0x41, 0x2603, 0xE4, 0x41, 0xD7FF, 0xE000, 0xFFFF, 0xD83D, 0xDCA9, 0x42, 0x2603, 0x42, 0x2603,
    0xDFFF, 0x43, 0x4E00, 0x43, 0x4E00, 0xD800, 0x44, 0x44, 0x2603, 0x44, 0x2603,
];

/// Units of one, two and three bytes in UTF-8 in turn.
///
/// A surrogate pair is at 19 and 20, and an unpaired surrogate at 39.
const UNITS: &[u16] = &[
    0x41, 0xE9, 0x4E00, 0x41, 0xE9, 0x4E00, 0x41, 0xE9, 0x4E00, 0x41, 0xE9, 0x4E00, 0x41, 0xE9,
    0x4E00, 0x41, 0xE9, 0x4E00, 0x41, 0xD83D, 0xDCA9, 0x41, 0xE9, 0x4E00, 0x41, 0xE9, 0x4E00, 0x41,
    0xE9, 0x4E00, 0x41, 0xE9, 0x4E00, 0x41, 0xE9, 0x4E00, 0x41, 0xE9, 0x4E00, 0xD83D,
];

#[test]
fn decodes_units_of_any_length_in_either_order(rt: HostRuntime) {
    let mut events = Found::new();
    events.push_utf16(RUNS);
    events.push(bad!(48, 1));
    in_either_order(&rt, RUNS, b"\x41", events.as_slice());
    let mut events = Found::new();
    events.push_utf16(UNITS);
    in_either_order(&rt, UNITS, b"", events.as_slice());
}
