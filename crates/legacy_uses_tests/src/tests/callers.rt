//! Calls each caller once, for EUC-KR with U+AC02 at pointer 0 and no other scalar.
use crate::tests::compared::holds;
use crate::tests::packing::no_entries;
use legacy_codecs::{
    CachedEncoder, EncodesPairs, EucKrDecoder, EucKrEncoder, MalformedSequence, PAIR_ROOM,
    RawDecoder, RawEncoder, SingleByteRun, SingleByteTable, Tables, UserDefinedEncoder,
    decode_piece, decode_whole, encode_whole, malformed_sequences, transcode,
};
use legacy_encodings::{
    Coders, Encoded, OutputEncoding, Registry, RegistryError, TranscodeError, Transcoded,
};
use legacy_index_files::{Encoding, FileIndex};
use legacy_uses::browser::show_piece;
use legacy_uses::checker::is_well_formed;
use legacy_uses::code_pages::{TwoFiles, decode_by_file, decode_two};
use legacy_uses::mail::malformed_in_message;
use legacy_uses::transcoder::transcode_file;
use std::alloc::Global;
use std::process::Abort;

/// Returns the tables of that index.
pub(crate) fn tables_of<'a>(rt: &impl Abort) -> Tables<'a> {
    let mut indexes = no_entries();
    indexes.euc_kr = &[0xAC02];
    match Tables::new(&indexes) {
        Ok(tables) => tables,
        Err(fault) => panic!(rt; "{fault}"),
    }
}

// The functions that call a caller and return a flag have no clauses: the prover would search the clauses of the call at
// each later statement.

/// Checks whether the input is decoded to the text.
fn is_decoded(alloc: Global, decoder: &mut impl RawDecoder, input: &[u8], text: &str) -> bool {
    decode_whole(alloc, decoder, input).as_deref() == Ok(text)
}

#[test]
fn a_whole_input_is_decoded(rt: HostRuntime) {
    let tables = tables_of(&rt);
    let mut decoder = EucKrDecoder::new(&tables);
    let input = b"a\x81\x41\xFF";
    assert!(rt; is_decoded(rt.alloc(), &mut decoder, input, "a\u{AC02}\u{FFFD}"));
}

/// Checks whether the next piece, in a buffer of the queried length, gives these bytes.
fn piece_gives<D: RawDecoder>(
    alloc: Global,
    decoder: &mut D,
    piece: &[u8],
    last: bool,
    wanted: &str,
) -> bool {
    let Some(need) = decoder.max_utf8_buffer_length(piece.len()) else {
        return false;
    };
    let Ok(mut output) = vec![in alloc; 0; need] else {
        return false;
    };
    let written = decode_piece(decoder, piece, output.as_mut_slice(), last);
    output.truncate(written);
    output.as_slice() == wanted.as_bytes()
}

#[test]
fn a_sequence_that_a_piece_cuts_is_whole(rt: HostRuntime) {
    let tables = tables_of(&rt);
    let mut decoder = EucKrDecoder::new(&tables);
    let first = piece_gives(rt.alloc(), &mut decoder, b"a\x81", false, "a");
    assert!(rt; first);
    let second = piece_gives(
        rt.alloc(),
        &mut decoder,
        b"\x41\x81",
        true,
        "\u{AC02}\u{FFFD}",
    );
    assert!(rt; second);
}

/// Checks whether these are the malformed sequences of the input.
fn are_malformed(
    alloc: Global,
    decoder: &mut impl RawDecoder,
    input: &[u8],
    wanted: &[MalformedSequence],
) -> bool {
    malformed_sequences(alloc, decoder, input).as_deref() == Ok(wanted)
}

/// The malformed sequences of the input below: the byte FF, and a lead at the end.
const MALFORMED: &[MalformedSequence] = &[
    MalformedSequence {
        place: 1,
        length: 1,
    },
    MalformedSequence {
        place: 4,
        length: 1,
    },
];

#[test]
fn malformed_sequences_have_their_places(rt: HostRuntime) {
    let tables = tables_of(&rt);
    let mut decoder = EucKrDecoder::new(&tables);
    let input = b"a\xFF\x81\x41\x81";
    assert!(rt; are_malformed(rt.alloc(), &mut decoder, input, MALFORMED));
}

/// Checks whether the input is transcoded to these bytes.
fn is_transcoded(
    alloc: Global,
    decoder: &mut impl RawDecoder,
    encoder: &mut impl RawEncoder,
    input: &[u8],
    wanted: &[u8],
) -> bool {
    transcode(alloc, decoder, encoder, input).as_deref() == Ok(wanted)
}

#[test]
fn references_stand_for_what_is_lacking(rt: HostRuntime) {
    let tables = tables_of(&rt);
    let mut decoder = EucKrDecoder::new(&tables);
    let mut encoder = UserDefinedEncoder::new();
    let (input, wanted) = (b"a\x81\x41\xFFb", b"a&#44034;&#65533;b");
    assert!(rt; is_transcoded(rt.alloc(), &mut decoder, &mut encoder, input, wanted));
}

/// Checks whether the text is encoded to these bytes, with pairs looked up ahead.
fn is_encoded_ahead(
    rt: &(impl AllocGlobal + Abort),
    encoder: &impl EncodesPairs,
    text: &str,
    wanted: &[u8],
) -> bool {
    let Ok(mut room) = vec![in rt.alloc(); 0xFFFF; PAIR_ROOM] else {
        panic!(rt; "memory");
    };
    let Some(mut cached) = CachedEncoder::new(encoder, room.as_mut_slice()) else {
        panic!(rt; "room");
    };
    encode_whole(rt.alloc(), &mut cached, text).as_deref() == Ok(wanted)
}

#[test]
fn a_long_text_is_encoded_with_its_pairs_looked_up_ahead(rt: HostRuntime) {
    let tables = tables_of(&rt);
    let encoder = EucKrEncoder::new(&tables);
    let (text, wanted) = ("a\u{AC02}\u{1F4A9}b", b"a\x81\x41&#128169;b");
    assert!(rt; is_encoded_ahead(&rt, &encoder, text, wanted));
}

/// Checks whether the input is decoded to the text by an index file of EUC-KR.
fn is_decoded_by_file(alloc: Global, file: &[u8], input: &[u8], text: &str) -> bool {
    decode_by_file(alloc, file, input).as_deref() == Ok(text)
}

#[test]
fn an_index_file_is_decoded_by(rt: HostRuntime) {
    let (file, input) = (b"0\t0xAC02\n", b"a\x81\x41\xFF");
    assert!(rt; is_decoded_by_file(rt.alloc(), file, input, "a\u{AC02}\u{FFFD}"));
}

/// Decodes two inputs by two files.
fn texts_of(alloc: Global, files: &TwoFiles, inputs: (&[u8], &[u8])) -> Option<(String, String)> {
    decode_two(alloc, files, inputs.0, inputs.1).ok()
}

#[test]
fn two_encodings_are_decoded_by_their_files(rt: HostRuntime) {
    let files = TwoFiles {
        euc_kr: b"0\t0xAC02\n",
        windows_1252: b"0\t0x20AC\n",
    };
    let texts = texts_of(rt.alloc(), &files, (b"a\x81\x41\xFF", b"a\x80\x81"));
    let Some((korean, western)) = texts else {
        panic!(rt; "two files");
    };
    assert_eq!(rt; korean.as_str(), "a\u{AC02}\u{FFFD}");
    assert_eq!(rt; western.as_str(), "a\u{20AC}\u{FFFD}");
}

/// Reads a file of an index into the indexes of a registry.
fn read(
    registry: &mut Registry,
    alloc: Global,
    index: FileIndex,
    file: &[u8],
) -> Result<(), RegistryError> {
    registry.read_index(alloc, index, file)
}

/// Returns a registry with the first line of index EUC-KR and with windows-1252.
///
/// The table of windows-1252 has the euro sign at pointer 0.
fn registry_of(alloc: Global) -> Result<Registry, RegistryError> {
    let mut registry = Registry::new(alloc);
    read(&mut registry, alloc, FileIndex::EucKr, b"0\t0xAC02\n")?;
    registry.read_single_byte(alloc, Encoding::Windows1252, b"0\t0x20AC\n")?;
    Ok(registry)
}

/// Encodes a text.
fn encoded(alloc: Global, coders: &Coders, name: &str, text: &str) -> Option<Encoded> {
    coders.encode(alloc, name, text).ok()
}

/// Checks whether the text is encoded to the bytes.
fn is_encoded(alloc: Global, coders: &Coders, name: &str, text: &str, bytes: &[u8]) -> bool {
    match encoded(alloc, coders, name, text) {
        Some(encoded) => encoded.bytes.as_slice() == bytes,
        None => false,
    }
}

/// Checks whether the bytes are decoded to the text, and whether U+FFFD was written for one of them.
fn is_decoded_by_name(
    alloc: Global,
    coders: &Coders,
    name: &str,
    bytes: &[u8],
    (text, replaced): (&str, bool),
) -> bool {
    match coders.decode(alloc, name, bytes) {
        Ok(decoded) => decoded.text.as_str() == text && decoded.replaced == replaced,
        Err(_) => false,
    }
}

/// Checks whether the bytes are decoded to the text, and the text encoded to the bytes.
fn goes_both_ways(alloc: Global, coders: &Coders, name: &str, bytes: &[u8], text: &str) -> bool {
    is_decoded_by_name(alloc, coders, name, bytes, (text, false))
        && is_encoded(alloc, coders, name, text, bytes)
}

/// Returns the error of decoding no bytes by this name, if there is one.
fn refusal(alloc: Global, coders: &Coders, name: &str) -> Option<RegistryError> {
    coders.decode(alloc, name, b"").err()
}

/// The name of an encoding, bytes in it, and their text.
type Both<'a> = (&'a str, &'a [u8], &'a str);

const BOTH: &[Both] = &[
    ("EUC-KR", b"a\x81\x41", "a\u{AC02}"),
    // By labels.
    (" Korean\n", b"a\x81\x41", "a\u{AC02}"),
    ("latin1", b"a\x80", "a\u{20AC}"),
    ("windows-1252", b"a\x80", "a\u{20AC}"),
    ("x-user-defined", b"a\x80", "a\u{F780}"),
];

/// Encodings of which that registry lacks an index.
const LACKING: &[&str] = &["windows-1251", "Big5", "GBK", "EUC-JP", "ISO-2022-JP"];

#[test]
fn a_registry_goes_by_names(rt: HostRuntime) {
    let registry = registry_of(rt.alloc()).expect(&rt, "registry");
    let coders = registry.coders().expect(&rt, "coders");
    for (name, bytes, text) in BOTH {
        let is_so = goes_both_ways(rt.alloc(), &coders, *name, *bytes, *text);
        holds(&rt, *name, is_so);
    }
    let unknown = refusal(rt.alloc(), &coders, "latin");
    holds(&rt, "latin", unknown == Some(RegistryError::Unknown));
    let unknown = refusal(rt.alloc(), &coders, "utf-8");
    holds(&rt, "utf-8", unknown == Some(RegistryError::Unknown));
    for name in LACKING {
        let lacking = refusal(rt.alloc(), &coders, *name);
        holds(&rt, *name, lacking == Some(RegistryError::NoIndex));
    }
}

#[test]
fn the_letters_of_windows_1251_are_its_run(rt: HostRuntime) {
    let mut entries = [0; 128];
    // In KOI8-R fifteen lines and boxes follow each other, but the letters do not.
    for place in 36..51 {
        entries[place] = 0x2553 + place as u16 - 36;
    }
    assert!(rt; runs(&entries, 0, 32, 1));
    // In windows-1251 the letters from U+0410 to U+044F are the bytes C0 to FF.
    for place in 64..128 {
        entries[place] = 0x0410 + place as u16 - 64;
    }
    assert!(rt; runs(&entries, 0x0410, 64, 64));
}

/// Checks whether this is the run of a table of the entries.
fn runs(entries: &[u16; 128], scalar: u16, start: u8, count: u8) -> bool {
    match SingleByteTable::new(entries) {
        Ok(table) => {
            SingleByteRun::longest(&table)
                == SingleByteRun {
                    scalar,
                    start,
                    count,
                }
        }
        Err(_) => false,
    }
}

/// Returns a registry with few entries of index jis0208 and of the katakana index.
///
/// Index jis0208 has the ideographic full stop at pointer 2. Of the 63 half-width katakana two have
/// an entry: the full stop, and the corner bracket, which index jis0208 lacks.
fn japanese(alloc: Global) -> Result<Registry, RegistryError> {
    let mut registry = Registry::new(alloc);
    read(&mut registry, alloc, FileIndex::Jis0208, b"2 0x3002\n")?;
    registry.read_katakana(alloc, b"0 0x3002\n1 0x300C\n62 0x0\n")?;
    Ok(registry)
}

#[test]
fn half_width_katakana_are_written_by_their_file(rt: HostRuntime) {
    let registry = japanese(rt.alloc()).expect(&rt, "registry");
    let coders = registry.coders().expect(&rt, "coders");
    let bytes = b"\x1B$B!#\x1B(B&#65378;";
    assert!(rt;
        is_encoded(
            rt.alloc(),
            &coders,
            "ISO-2022-JP",
            "\u{FF61}\u{FF62}",
            bytes
        )
    );
}

/// Checks whether the next piece makes the page this one.
fn page_is(
    decoder: &mut impl RawDecoder,
    piece: &[u8],
    last: bool,
    page: &mut Vec<u8>,
    wanted: &[u8],
) -> bool {
    show_piece(decoder, piece, last, page) == Ok(()) && page.as_slice() == wanted
}

#[test]
fn a_page_grows_by_its_pieces(rt: HostRuntime) {
    let tables = tables_of(&rt);
    let mut decoder = EucKrDecoder::new(&tables);
    let mut page = Vec::new(rt.alloc());
    let first = page_is(&mut decoder, b"a\x81", false, &mut page, b"a");
    assert!(rt; first);
    let whole = "a\u{AC02}\u{FFFD}".as_bytes();
    let last = page_is(&mut decoder, b"\x41\xFF", true, &mut page, whole);
    assert!(rt; last);
}

/// Returns the number of malformed sequences in a message, and whether it is well-formed.
fn places(alloc: Global, coders: &Coders, message: &[u8]) -> Option<(usize, bool)> {
    let found = malformed_in_message(alloc, coders, "EUC-KR", message).ok()?;
    let is_so = is_well_formed(alloc, coders, "EUC-KR", message).ok()?;
    Some((found.len(), is_so))
}

/// Transcodes an input.
fn transcoded(
    alloc: Global,
    coders: &Coders,
    (from, to): (&str, &str),
    input: &[u8],
) -> Result<Transcoded, TranscodeError> {
    transcode_file(alloc, coders, from, to, input)
}

/// Checks whether the input gives these bytes, and whether it was malformed and its text unmappable.
fn transcodes(
    alloc: Global,
    coders: &Coders,
    names: (&str, &str),
    input: &[u8],
    (wanted, malformed, unmappable): (&[u8], bool, bool),
) -> bool {
    match transcoded(alloc, coders, names, input) {
        Ok(came) => {
            came.bytes.as_slice() == wanted
                && came.malformed == malformed
                && came.unmappable == unmappable
        }
        Err(_) => false,
    }
}

/// The labels of two encodings, bytes in the first one, and bytes in the second one.
///
/// Beside them is whether the input is malformed, and whether its text is unmappable.
type FromTo<'a> = ((&'a str, &'a str), &'a [u8], (&'a [u8], bool, bool));

const TRANSCODED: &[FromTo] = &[
    (
        ("windows-1252", "EUC-KR"),
        b"a\x80",
        (b"a&#8364;", false, true),
    ),
    (
        ("EUC-KR", "x-user-defined"),
        b"\x81\x41\xFF",
        (b"&#44034;&#65533;", true, true),
    ),
    (
        ("korean", "EUC-KR"),
        b"\x81\x41",
        (b"\x81\x41", false, false),
    ),
];

/// The labels of two encodings, and the error of transcoding from the first one to the second one.
type Untranscoded<'a> = ((&'a str, &'a str), TranscodeError);

const UNTRANSCODED: &[Untranscoded] = &[
    (("x-user-defined", "UTF-16LE"), TranscodeError::NoEncoder),
    (("x-user-defined", "replacement"), TranscodeError::NoEncoder),
    (
        ("latin", "EUC-KR"),
        TranscodeError::From(RegistryError::Unknown),
    ),
    (
        ("EUC-KR", "latin"),
        TranscodeError::To(RegistryError::Unknown),
    ),
    (
        ("Big5", "EUC-KR"),
        TranscodeError::From(RegistryError::NoIndex),
    ),
    (
        ("EUC-KR", "Big5"),
        TranscodeError::To(RegistryError::NoIndex),
    ),
];

#[test]
fn an_error_says_which_encoding_it_means(rt: HostRuntime) {
    let registry = registry_of(rt.alloc()).expect(&rt, "registry");
    let coders = registry.coders().expect(&rt, "coders");
    for (names, error) in UNTRANSCODED {
        let came = transcoded(rt.alloc(), &coders, *names, b"a").err();
        holds(&rt, names.0, came.as_ref() == Some(error));
    }
}

/// Checks whether the text is encoded to the bytes, in this output encoding, with a reference or not.
fn gives(
    alloc: Global,
    coders: &Coders,
    name: &str,
    text: &str,
    (bytes, encoding, replaced): (&[u8], OutputEncoding, bool),
) -> bool {
    match encoded(alloc, coders, name, text) {
        Some(encoded) => {
            encoded.bytes.as_slice() == bytes
                && encoded.encoding == encoding
                && encoded.replaced == replaced
        }
        None => false,
    }
}

/// The label of an encoding, a text, its bytes, their encoding, and whether a reference is among them.
type Told<'a> = (&'a str, &'a str, (&'a [u8], OutputEncoding, bool));

const TOLD: &[Told] = &[
    (
        "EUC-KR",
        "a\u{AC02}",
        (b"a\x81\x41", OutputEncoding::Legacy(Encoding::EucKr), false),
    ),
    (
        "EUC-KR",
        "\u{AC03}",
        (b"&#44035;", OutputEncoding::Legacy(Encoding::EucKr), true),
    ),
    // The output encoding of UTF-16 is UTF-8.
    (
        "UTF-16LE",
        "\u{AC02}",
        (b"\xEA\xB0\x82", OutputEncoding::Utf8, false),
    ),
];

#[test]
fn what_was_replaced_is_told(rt: HostRuntime) {
    let registry = registry_of(rt.alloc()).expect(&rt, "registry");
    let coders = registry.coders().expect(&rt, "coders");
    for (name, text, wanted) in TOLD {
        holds(
            &rt,
            *text,
            gives(rt.alloc(), &coders, *name, *text, *wanted),
        );
    }
    let wanted = ("\u{FFFD}", true);
    let is_so = is_decoded_by_name(rt.alloc(), &coders, "EUC-KR", b"\xFF", wanted);
    holds(&rt, "a malformed sequence", is_so);
}

/// Reads a file of a single-byte encoding, and tells the error.
fn refusal_of_table(alloc: Global, encoding: Encoding) -> Option<RegistryError> {
    let mut registry = Registry::new(alloc);
    registry
        .read_single_byte(alloc, encoding, b"0\t0x20AC\n")
        .err()
}

/// Reads a file as an index, and tells the error.
fn refusal_of_index(alloc: Global, index: FileIndex) -> Option<RegistryError> {
    let mut registry = Registry::new(alloc);
    read(&mut registry, alloc, index, b"0\t0x20AC\n").err()
}

#[test]
fn a_file_of_another_kind_is_refused(rt: HostRuntime) {
    let of_pairs = refusal_of_table(rt.alloc(), Encoding::EucKr);
    holds(&rt, "EUC-KR", of_pairs == Some(RegistryError::WrongKind));
    let of_one = refusal_of_index(rt.alloc(), FileIndex::SingleByte);
    holds(&rt, "single-byte", of_one == Some(RegistryError::WrongKind));
    holds(
        &rt,
        "jis0208",
        refusal_of_index(rt.alloc(), FileIndex::Jis0208) == None,
    );
}

/// Reads an empty index of EUC-KR, and tells the error of decoding by it.
fn refusal_by_empty_index(alloc: Global) -> Option<RegistryError> {
    let mut registry = Registry::new(alloc);
    if let Err(error) = read(&mut registry, alloc, FileIndex::EucKr, b"") {
        return Some(error);
    }
    match registry.coders() {
        Ok(coders) => refusal(alloc, &coders, "EUC-KR"),
        Err(fault) => Some(RegistryError::Tables(fault)),
    }
}

#[test]
fn an_index_may_be_empty_on_purpose(rt: HostRuntime) {
    holds(&rt, "EUC-KR", refusal_by_empty_index(rt.alloc()) == None);
}

#[test]
fn messages_are_checked_and_files_transcoded(rt: HostRuntime) {
    let registry = registry_of(rt.alloc()).expect(&rt, "registry");
    let coders = registry.coders().expect(&rt, "coders");
    assert!(rt; places(rt.alloc(), &coders, b"a\x81\x41") == Some((0, true)));
    assert!(rt; places(rt.alloc(), &coders, b"a\xFF\x81") == Some((2, false)));
    for (names, bytes, wanted) in TRANSCODED {
        let is_so = transcodes(rt.alloc(), &coders, *names, *bytes, *wanted);
        holds(&rt, names.0, is_so);
    }
}
