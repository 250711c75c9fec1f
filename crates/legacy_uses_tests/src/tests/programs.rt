//! Runs of the two programs: their words, files and streams, and the wanted status and output.
use crate::tests::compared::holds;
use crate::tests::streams::{FailingReader, FailingWriter};
use crate::tests::words::words_in;
use crate::tests::{encode_program, program};
use legacy_command::host::{Program, run_program};
use std::alloc::Global;
use std::process::Abort;

/// The word of a codec without indexes.
pub(crate) const USER: &str = "x-user-defined";

/// U+AC02 at pointer 0 of index EUC-KR.
pub(crate) const KR_FILE: &[Option<&[u8]>] = &[Some(b"0 0xAC02\n")];

/// Three ranges of gb18030, from U+0080, U+00A5 and U+10000.
pub(crate) const RANGES_FILE: &[Option<&[u8]>] = &[Some(b"0 0x0080\n36 0x00A5\n189000 0x10000\n")];

/// The words of ISO-2022-JP with a file.
pub(crate) const JIS: &str = "iso-2022-jp jis0208 FILE";

/// U+58FA at pointer 4861 of index jis0208.
pub(crate) const JIS_FILE: &[Option<&[u8]>] = &[Some(b"4861 0x58FA\n")];

pub(crate) const UNREAD: &[u8] = b"input: cannot be read\n";

pub(crate) const UNWRITTEN: &[u8] = b"output: cannot be written\n";

/// Words, files, an input, and what is written.
pub(crate) type Request<'a> = (&'a str, &'a [Option<&'a [u8]>], &'a [u8], &'a [u8]);

/// Refused words, or words with refused files; the files; the status and the error.
pub(crate) type Refused<'a> = (&'a str, &'a [Option<&'a [u8]>], u8, &'a [u8]);

/// Words; numbers of reads of one byte, of writes, and of writes of errors; the status, the output and the error.
///
/// The number of writes has a flag beside it: whether a flush succeeds.
pub(crate) type Failure<'a> = (&'a str, usize, (usize, bool), usize, u8, &'a [u8], &'a [u8]);

/// The words as a line, the contents of the files, and the input.
type Given<'a> = (&'a str, &'a [Option<&'a [u8]>], &'a [u8]);

/// The limits after which the streams of a run fail.
#[derive(Drop)]
struct Streams {
    /// The greatest number of bytes of a read, and the number of reads.
    read: (usize, usize),
    /// The greatest number of bytes of a write, the number of writes, and whether a flush succeeds.
    written: (usize, usize, bool),
    /// The number of writes of errors.
    errors: usize,
}

/// The status, the output and the error.
type Wanted<'a> = (u8, &'a [u8], &'a [u8]);

/// Returns a writer with these limits.
fn writer(alloc: Global, (most, writes, flushes): (usize, usize, bool)) -> FailingWriter {
    FailingWriter {
        written: Vec::new(alloc),
        most,
        writes,
        flushes,
    }
}

/// Checks what a run over such streams returns and writes.
fn gives(
    alloc: Global,
    program: Program,
    (line, files, bytes): Given,
    streams: &Streams,
    (status, output, error): Wanted,
) -> bool {
    let Some(words) = words_in(alloc, line) else {
        return false;
    };
    let (most, reads) = streams.read;
    let mut input = FailingReader { bytes, most, reads };
    let mut out = writer(alloc, streams.written);
    let mut errors = writer(alloc, (99, streams.errors, true));
    let words = words.as_slice();
    let came = run_program(
        alloc,
        program,
        words,
        files,
        &mut input,
        &mut out,
        &mut errors,
    );
    came == status && out.written.as_slice() == output && errors.written.as_slice() == error
}

/// Asserts what a run returns and writes, if a read gives at most one, two, three or 9999 bytes.
// A read of one, two or three bytes cuts each sequence at each of its places.
fn is_so(rt: &(impl AllocGlobal + Abort), program: Program, given: Given, wanted: Wanted) {
    for most in [1, 2, 3, 9999] {
        let streams = Streams {
            read: (most, 9999),
            written: (9999, 9999, true),
            errors: 9999,
        };
        holds(
            rt,
            given.0,
            gives(rt.alloc(), program, given, &streams, wanted),
        );
    }
}

/// Asserts that the program writes what is requested.
pub(crate) fn answers(rt: &(impl AllocGlobal + Abort), program: Program, requests: &[Request]) {
    for (line, files, input, output) in requests {
        is_so(rt, program, (*line, *files, *input), (0, *output, b""));
    }
}

/// Asserts that the program refuses words and files, and writes nothing.
fn refuses(rt: &(impl AllocGlobal + Abort), program: Program, refused: &[Refused]) {
    for (line, files, status, error) in refused {
        is_so(rt, program, (*line, *files, b"A"), (*status, b"", *error));
    }
}

#[test]
fn the_programs_do_as_the_words_ask_however_the_input_is_cut(rt: HostRuntime) {
    answers(&rt, Program::Recode, program::REQUESTS);
    answers(&rt, Program::Encode, encode_program::REQUESTS);
}

#[test]
fn the_programs_refuse_words_and_files(rt: HostRuntime) {
    refuses(&rt, Program::Recode, program::REFUSED);
    refuses(&rt, Program::Encode, encode_program::REFUSED);
}

/// Asserts what the program returns and writes if streams fail.
///
/// A write takes at most `most` bytes of the output.
pub(crate) fn fails(
    rt: &(impl AllocGlobal + Abort),
    program: Program,
    (input, most): (&[u8], usize),
    failures: &[Failure],
) {
    for (line, reads, (writes, flushes), errors, status, output, error) in failures {
        let streams = Streams {
            read: (1, *reads),
            written: (most, *writes, *flushes),
            errors: *errors,
        };
        let given = (*line, [].as_slice(), input);
        let wanted = (*status, *output, *error);
        holds(
            rt,
            *line,
            gives(rt.alloc(), program, given, &streams, wanted),
        );
    }
}

/// Asserts that one write is enough for the program if one read gives the whole input.
pub(crate) fn writes_once(
    rt: &(impl AllocGlobal + Abort),
    program: Program,
    (line, input): (&str, &[u8]),
    output: &[u8],
) {
    let streams = Streams {
        read: (9999, 2),
        written: (9999, 1, true),
        errors: 0,
    };
    let given = (line, [].as_slice(), input);
    holds(
        rt,
        line,
        gives(rt.alloc(), program, given, &streams, (0, output, b"")),
    );
}

/// Returns the status of a run for EUC-KR with a file, and what it wrote.
///
/// The output has room for `N` bytes, and errors have room for seven.
fn ran_without_memory<const N: usize>(
    alloc: Global,
    program: Program,
    mut input: &[u8],
) -> (u8, [u8; N], [u8; 7]) {
    let (mut bytes, mut line) = ([0u8; N], [0u8; 7]);
    let mut output: &mut [u8] = &mut bytes;
    let mut errors: &mut [u8] = &mut line;
    let words = ["euc-kr", "euc-kr", "FILE"];
    let file: &[u8] = b"0 0xAC02\n";
    let files = [Some(file)];
    let status = run_program(
        alloc,
        program,
        &words,
        &files,
        &mut input,
        &mut output,
        &mut errors,
    );
    (status, bytes, line)
}

/// Asserts that a run that lacks memory says so, and that another writes these bytes.
// If one allocation is refused in a run, the program says so if it asked for it.
pub(crate) fn lacks_memory<const N: usize>(
    rt: &(impl AllocGlobal + Abort),
    program: Program,
    input: &[u8],
    wanted: &[u8; N],
) {
    let (status, bytes, line) = ran_without_memory::<N>(rt.alloc(), program, input);
    if status == 0 {
        assert!(rt; bytes.as_slice() == wanted.as_slice());
    } else {
        assert!(rt; status == 1 && line.as_slice() == b"memory\n".as_slice());
    }
}
