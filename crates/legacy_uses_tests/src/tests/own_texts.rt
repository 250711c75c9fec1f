//! Tests of a user's own source and destination, with EUC-KR (U+AC02 at pointer 0) and with UTF-16.
use crate::beginning::encode_beginning;
use crate::character_list::decode_to_characters;
use crate::tests::callers::tables_of;
use legacy_codecs::{
    DecoderResult, EncoderResult, EucKrDecoder, EucKrEncoder, RawDecoder, Utf16Decoder,
};
use std::process::Abort;

const TEXT: &str = "a\u{AC02}b\u{AC03}";

/// Encodes at most `most` characters of a text into `free` bytes, as a last call.
///
/// Compares the result, the number of bytes read and the written bytes with the wanted ones.
fn beginning_is(
    rt: &impl Abort,
    (text, most, free): (&str, usize, usize),
    wanted: (EncoderResult, usize),
    bytes: &[u8],
) {
    let tables = tables_of(rt);
    let mut encoder = EucKrEncoder::new(&tables);
    let mut output = [0xAA; 8];
    let free = &mut output[..free.min(8)];
    let (answer, read, written) = encode_beginning(&mut encoder, text, most, free, true);
    assert!(rt; (answer, read) == wanted && &output[..written.min(8)] == bytes);
}

const READ: EncoderResult = EncoderResult::InputEmpty;

const LACKING: EncoderResult = EncoderResult::Unmappable('\u{AC03}');

/// The greatest number of characters and the free bytes, the result and the number of bytes read, and the bytes.
type Begun<'a> = ((usize, usize), (EncoderResult, usize), &'a [u8]);

/// Beginnings of the text of U+0061, U+AC02, U+0062 and U+AC03.
const BEGUN: &[Begun] = &[
    ((0, 8), (READ, 0), b""),
    ((1, 8), (READ, 1), b"a"),
    ((2, 8), (READ, 4), b"a\x81\x41"),
    ((3, 8), (READ, 5), b"a\x81\x41b"),
    ((4, 8), (LACKING, 8), b"a\x81\x41b"),
    ((9, 8), (LACKING, 8), b"a\x81\x41b"),
    ((2, 2), (EncoderResult::OutputFull, 1), b"a"),
];

#[test]
fn the_beginning_of_a_text_is_encoded(rt: HostRuntime) {
    for ((most, free), wanted, bytes) in BEGUN {
        beginning_is(&rt, (TEXT, *most, *free), *wanted, *bytes);
    }
}

/// Decodes bytes into a list with this number of places, as a last call.
///
/// Compares the result, the number of bytes read and the characters with the wanted ones.
fn list_is<D: RawDecoder>(
    rt: &impl Abort,
    decoder: &mut D,
    (bytes, free): (&[u8], usize),
    wanted: (DecoderResult, usize),
    characters: &[char],
) {
    let mut output = ['\u{AAAA}'; 8];
    let free = &mut output[..free.min(8)];
    let (answer, read, written) = decode_to_characters(decoder, bytes, free, true);
    assert!(rt; (answer, read) == wanted && &output[..written.min(8)] == characters);
}

#[test]
fn bytes_are_decoded_to_a_list_of_characters(rt: HostRuntime) {
    let tables = tables_of(&rt);
    let bytes = b"a\x81\x41\xFFb".as_slice();
    let malformed = DecoderResult::Malformed(1, 0);
    let mut decoder = EucKrDecoder::new(&tables);
    list_is(
        &rt,
        &mut decoder,
        (bytes, 8),
        (malformed, 4),
        &['a', '\u{AC02}'],
    );
    let rest = (&bytes[4..], 8);
    list_is(
        &rt,
        &mut decoder,
        rest,
        (DecoderResult::InputEmpty, 1),
        &['b'],
    );
}

#[test]
fn a_surrogate_pair_is_one_character_and_two_units(rt: HostRuntime) {
    let bytes = b"\xD8\x3D\xDC\xA9\x00\x41".as_slice();
    let text = ['\u{1F4A9}', 'A'];
    let mut decoder = Utf16Decoder::new(true);
    list_is(
        &rt,
        &mut decoder,
        (bytes, 4),
        (DecoderResult::InputEmpty, 6),
        &text,
    );
    let pair = (&bytes[..4], 2);
    list_is(
        &rt,
        &mut decoder,
        pair,
        (DecoderResult::InputEmpty, 4),
        &text[..1],
    );
}
