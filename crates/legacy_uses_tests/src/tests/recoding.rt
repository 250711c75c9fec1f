//! Recoding: the output before a read or a write fails, and the state from piece to piece.
use crate::tests::packing::no_entries;
use crate::tests::streams::{BYTES, FailingReader, FailingWriter, TEXT};
use legacy_codecs::{EucKrDecoder, RawDecoder, Tables, UserDefinedDecoder, Utf16Decoder};
use legacy_streams::recode::{RecodeError, recode};
use legacy_streams::text::recode_text;
use std::alloc::Global;
use std::process::Abort;

/// The result of recoding. Recoding to lines returns what text without a malformed sequence does.
type Recoded = Result<bool, RecodeError>;

/// Recodes to text, or to lines.
fn recodes(
    is_text: bool,
    decoder: &mut impl RawDecoder,
    input: &mut FailingReader,
    output: &mut FailingWriter,
) -> Recoded {
    if is_text {
        return recode_text(decoder, input, output);
    }
    match recode(decoder, input, output) {
        Ok(()) => Ok(false),
        Err(error) => Err(error),
    }
}

/// A flag for text output, two pairs of limits, the result, and the output.
///
/// The limits are bytes a read, and reads; and bytes a write, and writes.
type Recoding<'a> = (bool, (usize, usize), (usize, usize), Recoded, &'a [u8]);

const READ: Recoded = Err(RecodeError::Read);

const WRITE: Recoded = Err(RecodeError::Write);

const CLEAN: Recoded = Ok(false);

/// Asserts the result of recoding the bytes, and what it writes.
fn recodes_as(
    rt: &(impl AllocGlobal + Abort),
    decoder: &mut impl RawDecoder,
    bytes: &[u8],
    (is_text, read, written, answer, wanted): &Recoding,
) {
    let mut input = FailingReader {
        bytes,
        most: read.0,
        reads: read.1,
    };
    let mut output = FailingWriter {
        written: Vec::new(rt.alloc()),
        most: written.0,
        writes: written.1,
        flushes: true,
    };
    let came = recodes(*is_text, decoder, &mut input, &mut output);
    assert!(rt;
        came == *answer && output.written.as_slice() == *wanted,
        "{is_text} {read:?} {written:?}"
    );
}

/// Asserts the result of recoding bytes of x-user-defined, and what it writes.
fn recodes_user_defined(rt: &(impl AllocGlobal + Abort), bytes: &[u8], row: &Recoding) {
    recodes_as(rt, &mut UserDefinedDecoder::new(), bytes, row);
}

/// The lines of the three bytes.
const LINES: &[u8] = b"U+0061\nU+F780\nU+F7FF\n";

/// Returns the whole text or all lines, up to a length.
fn first(is_text: bool, length: usize) -> &'static [u8] {
    let all = if is_text { TEXT } else { LINES };
    &all[..length.min(all.len())]
}

const RECODINGS: &[Recoding] = &[
    // A read of all three bytes makes one piece.
    (false, (9, 9), (99, 99), CLEAN, LINES),
    // A write that takes nothing fails.
    (false, (1, 4), (0, 9), WRITE, b""),
    (true, (9, 9), (0, 9), WRITE, b""),
];

/// A flag for text output, and how many bytes are written before the first read fails, the second, and so on.
///
/// Each read gives one byte. One more read tells that the input ends.
const READS: &[(bool, &[usize])] = &[(false, &[0, 7, 14, 21]), (true, &[0, 1, 4, 7])];

#[test]
fn a_failed_read_keeps_what_stands_before_it(rt: HostRuntime) {
    for row in RECODINGS {
        recodes_user_defined(&rt, BYTES, row);
    }
    for (is_text, lengths) in READS {
        for (reads, length) in lengths.iter().enumerate() {
            let output = first(*is_text, *length);
            let row = (*is_text, (1, reads), (99, 99), READ, output);
            recodes_user_defined(&rt, BYTES, &row);
        }
        let all = first(*is_text, usize::MAX);
        let row = (*is_text, (1, lengths.len()), (99, 99), CLEAN, all);
        recodes_user_defined(&rt, BYTES, &row);
    }
    let row = (false, (1, 1), (99, 99), READ, b"U+F780\n".as_slice());
    recodes_user_defined(&rt, b"\x80", &row);
}

/// A flag for text output, the limits of reads, the bytes of a write, and how many bytes are written before the first
/// write fails, the second, and so on.
///
/// One more write writes the rest.
type Writes<'a> = (bool, (usize, usize), usize, &'a [usize]);

// A read of all three bytes makes one piece, whose lines or text are written at once. A read of each byte makes three
// pieces.
const WRITES: &[Writes] = &[
    (false, (1, 4), 7, &[0, 7, 14]),
    (false, (1, 4), 4, &[0, 4, 7, 11, 14, 18]),
    (false, (9, 9), 10, &[0, 10, 20]),
    (false, (9, 9), 21, &[0]),
    (true, (1, 4), 3, &[0, 1, 4]),
    (true, (1, 4), 2, &[0, 1, 3, 4, 6]),
    (true, (9, 9), 7, &[0]),
    (true, (9, 9), 4, &[0, 4]),
];

#[test]
fn a_failed_write_keeps_what_stands_before_it(rt: HostRuntime) {
    for (is_text, read, most, lengths) in WRITES {
        for (writes, length) in lengths.iter().enumerate() {
            let output = first(*is_text, *length);
            let row = (*is_text, *read, (*most, writes), WRITE, output);
            recodes_user_defined(&rt, BYTES, &row);
        }
        let (written, all) = ((*most, lengths.len()), first(*is_text, usize::MAX));
        recodes_user_defined(&rt, BYTES, &(*is_text, *read, written, CLEAN, all));
    }
}

/// Returns these bytes, `times` times.
fn repeated(alloc: Global, bytes: &[u8], times: usize) -> Option<Vec<u8>> {
    let mut all = Vec::new(alloc);
    for _ in 0..times {
        let Ok(()) = all.extend_from_slice(bytes) else {
            return None;
        };
    }
    Some(all)
}

#[test]
fn recodes_more_than_a_piece(rt: HostRuntime) {
    let bytes = [b'A'; 5000];
    let Some(lines) = repeated(rt.alloc(), b"U+0041\n", 5000) else {
        assert!(rt; false);
        return;
    };
    let (read, written) = ((5000, 9), (usize::MAX, usize::MAX));
    let lines = lines.as_slice();
    recodes_user_defined(&rt, &bytes, &(false, read, written, CLEAN, lines));
    recodes_user_defined(&rt, &bytes, &(true, read, written, CLEAN, &bytes));
}

// The malformed sequence begins in one piece, and no later piece has one.
#[test]
fn tells_of_a_replacement_in_any_piece(rt: HostRuntime) {
    let mut decoder = Utf16Decoder::new(false);
    let text = b"\x41\xEF\xBF\xBD\x42";
    let row = (true, (1, 7), (99, 99), Ok(true), text.as_slice());
    recodes_as(&rt, &mut decoder, b"\x41\x00\x00\xD8\x42\x00", &row);
}

/// Returns a decoder that holds back a lead.
fn after_a_lead<'a>(tables: &'a Tables<'a>) -> EucKrDecoder<'a> {
    let mut decoder = EucKrDecoder::new(tables);
    decoder.decode_to_utf8_raw(b"\x81", &mut [0; 4], false);
    decoder
}

#[test]
fn places_count_after_what_was_held_back(rt: HostRuntime) {
    let Ok(tables) = Tables::new(&no_entries()) else {
        assert!(rt; false);
        return;
    };
    let mut decoder = after_a_lead(&tables);
    let lines = b"bad 0 1\nU+0020\nbad 1 1\n";
    let row = (false, (9, 9), (99, 99), CLEAN, lines.as_slice());
    recodes_as(&rt, &mut decoder, b"\x20\x81", &row);
}
