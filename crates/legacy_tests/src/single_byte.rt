//! The single-byte codecs.
pub(crate) mod encoder;

use crate::codecs::follow_rows;
use crate::compared::is_answer;
use crate::events::Found;
use crate::indexes::{Flat, byte_table_of, entries_of, flat};
use crate::rows::Row;
use crate::rows::Row::{
    BareLength, Cut, Decoder, EventList, Events, FullUtf8, ToUtf8, Utf8Length, Utf16Length,
};
use legacy_base::DecodeEvent;
use legacy_base::DecodeEvent::{Bad, Scalar};
use legacy_base::DecoderResult::{InputEmpty, Malformed};
use legacy_codecs::SingleByteDecoder;
use legacy_index_files::Codec;

pub(crate) const WITHOUT_ENTRIES: &[Row] = &[
    Decoder("an ASCII byte needs one byte, any other three"),
    ToUtf8(b"\x41", 1, true, InputEmpty, 1, "A"),
    FullUtf8(b"\x80", 2),
    ToUtf8(b"\x80", 3, true, Malformed(1, 0), 1, ""),
    Cut(b"\x41\x80", "A\u{FFFD}", &[(1, 1)]),
    Decoder("the lengths are one unit and three bytes for each byte"),
    Utf16Length(usize::MAX, Some(usize::MAX)),
    Utf8Length(7, Some(21)),
    BareLength(7, Some(21)),
];

pub(crate) const GREEK: &[Row] = &[
    Decoder("a byte without an entry is malformed"),
    ToUtf8(
        b"\xC1\xF5\xD2\xF4\xFC",
        16,
        true,
        Malformed(1, 0),
        3,
        "\u{391}\u{3C5}",
    ),
    ToUtf8(b"\xF4\xFC", 16, true, InputEmpty, 2, "\u{3C4}\u{3CC}"),
    Events(
        b"\xC1\xF5\xD2\xF4\xFC",
        "\u{391}\u{3C5}\u{FFFD}\u{3C4}\u{3CC}",
        &[(2, 1)],
    ),
];

/// Four letters at their places in ISO-8859-7.
pub(crate) const LETTERS: &Flat =
    &flat!(single_byte: &[(65, 0x391), (117, 0x3C5), (116, 0x3C4), (124, 0x3CC)]);

/// The entry of byte 85, bytes, and the number of bytes before the first that is another scalar.
const FRONTS: &[(u16, &[u8], usize)] = &[
    (0, b"abc", 3),
    (0, b"\x61\x80", 1),
    (0, b"", 0),
    (0x85, b"\x61\x85\x62\x86", 3),
];

#[test]
fn the_front_of_latin_1_ends_at_another_scalar(rt: HostRuntime) {
    for (at, (entry, bytes, front)) in FRONTS.iter().enumerate() {
        let table = byte_table_of(&rt, &entries_of(&[(5, *entry)]));
        let came = SingleByteDecoder::new(&table).latin1_byte_compatible_up_to(bytes);
        is_answer(&rt, ("fronts", at), "the front", came, *front);
    }
}

/// Returns letters of ISO-8859-7 and their places.
///
/// The bytes C1 to FE are the scalars from U+0391 on, but D2 has no scalar.
fn letters() -> [(usize, u16); 62] {
    let mut letters = [(0usize, 0u16); 62];
    let mut scalar = 0x391;
    for at in 0..62 {
        letters[at] = (65 + at, if at == 17 { 0 } else { scalar });
        scalar = scalar.saturating_add(1);
    }
    letters
}

/// Returns the event of a byte at a place, by these letters.
fn event_of(place: usize, byte: u8) -> DecodeEvent {
    if byte < 0x80 {
        return Scalar(char::from(byte));
    }
    match char::from_u32(0x2D0 + u32::from(byte)) {
        Some(letter) if byte != 0xD2 => Scalar(letter),
        _ => Bad { place, length: 1 },
    }
}

#[test]
fn decodes_words_of_letters_and_ascii(rt: HostRuntime) {
    // Three words, ASCII, a word with a byte that has no entry, ASCII, single letters, and the byte 00 among letters.
    let input =
        b"\xC1\xE8\xDE\xED\xE1 \xEA\xE1\xE9 \xD0\xE5\xE9\xF1\xE1\xE9\xDC\xF2, ab\x7F \xD3\xF5\xED\xD2\xFE\xC1 in 1 2 or 30 steps: \xE1 \xE2 \xE3 a\xE4b\xE5c\xE6d \xF9\xFA\x00\xFB\xFE in the last sixteen";
    let mut events = Found::new();
    for (place, byte) in input.iter().enumerate() {
        events.push(event_of(place, *byte));
    }
    let letters = letters();
    let rows = [EventList(input, events.as_slice())];
    let flat = flat!(single_byte: &letters);
    follow_rows(&rt, &[Codec::SingleByte], &flat, &rows);
}
