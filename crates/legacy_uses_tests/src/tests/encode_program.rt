//! The program that encodes: its statuses and bytes, also for an input that is cut or malformed, and its errors if a
//! stream or memory fails.
use crate::tests::programs::{
    Failure, JIS, JIS_FILE, KR_FILE, RANGES_FILE, Refused, Request, UNREAD, UNWRITTEN, USER,
    answers, fails, lacks_memory, writes_once,
};
use legacy_command::host::Program;

const USAGE: &[u8] = b"usage: legacy_encode CODEC [INDEX FILE]...\n";

pub(crate) const REQUESTS: &[Request] = &[
    // without files
    (USER, &[], b"", b""),
    (USER, &[], b"a\xEF\x9E\x80\xE3\x81\x82z", b"a\x80&#12354;z"),
    ("big5", &[], b"\xC2\xA5\xF0\x9F\x92\xA9", b"&#165;&#128169;"),
    // with files
    (
        "euc-kr euc-kr FILE",
        KR_FILE,
        b"\xEA\xB0\x82[\xEA\xB0\x83",
        b"\x81\x41[&#44035;",
    ),
    (
        "single-byte single-byte FILE",
        &[Some(b"65 0x0391\n116 0x03C4\n")],
        b"\xCE\x91\xCF\x84\xCE\x92",
        b"\xC1\xF4&#914;",
    ),
    (
        "gb18030 ranges FILE",
        RANGES_FILE,
        b"\xC2\x80\xF0\x9F\x92\xA9",
        b"\x81\x30\x81\x30\x94\x39\xDA\x33",
    ),
    ("gbk ranges FILE", RANGES_FILE, b"\xC2\x80", b"&#128;"),
    // ISO-2022-JP ends in ASCII, and writes a reference in it.
    (JIS, JIS_FILE, b"", b""),
    (JIS, JIS_FILE, b"\xE5\xA3\xBA", b"\x1B$BTd\x1B(B"),
    (
        JIS,
        JIS_FILE,
        b"\xE5\xA3\xBA\xC2\xA5A\xF0\x9F\x92\xA9",
        b"\x1B$BTd\x1B(J\\A&#128169;\x1B(B",
    ),
    // A beginning of a character at the end of the input is U+FFFD.
    (
        JIS,
        JIS_FILE,
        b"\xE5\xA3\xBA\xE5\xA3",
        b"\x1B$BTd\x1B(B&#65533;",
    ),
];

/// Inputs that are not UTF-8, and the bytes of x-user-defined with references.
const MALFORMED: &[(&[u8], &[u8])] = &[
    // A malformed sequence is U+FFFD. Each byte counts alone if it continues nothing, or is in an overlong form, a
    // surrogate or a number past the last scalar. A beginning of a character counts once.
    (b"x\x80y", b"x&#65533;y"),
    (b"\xC0\xAF", b"&#65533;&#65533;"),
    (b"\xE0\x80\xAF", b"&#65533;&#65533;&#65533;"),
    (b"\xED\xA0\x80", b"&#65533;&#65533;&#65533;"),
    (b"\xF4\x90\x80\x80", b"&#65533;&#65533;&#65533;&#65533;"),
    (b"\xE3\x81a", b"&#65533;a"),
    (b"\xF0\x9F\x92a", b"&#65533;a"),
    (b"\xF0\x9F\xE3\x81\x82", b"&#65533;&#12354;"),
    // A beginning of a character at the end of the input is U+FFFD too.
    (b"a\xC2", b"a&#65533;"),
    (b"a\xE3\x81", b"a&#65533;"),
    (b"a\xF0\x9F\x92", b"a&#65533;"),
];

#[test]
fn writes_a_reference_for_each_malformed_sequence(rt: HostRuntime) {
    for (input, output) in MALFORMED {
        answers(&rt, Program::Encode, &[(USER, &[], *input, *output)]);
    }
}

pub(crate) const REFUSED: &[Refused] = &[
    // Words that do not have the program's form are refused, and codecs without an encoder.
    ("", &[], 2, USAGE),
    ("latin", &[], 2, USAGE),
    ("--text big5", &[], 2, USAGE),
    ("big5 big5", &[], 2, USAGE),
    ("replacement", &[], 2, USAGE),
    ("utf-16le", &[], 2, USAGE),
    ("utf-16be", &[], 2, USAGE),
    // The error says what is wrong with the files.
    ("big5 big5 FILE", &[None], 1, b"FILE: cannot be read\n"),
    ("big5 big5 FILE", &[Some(b"1\n")], 1, b"FILE: line 1\n"),
    (
        "euc-kr euc-kr KR single-byte SB",
        &[Some(b""), Some(b"3 0x007F\n")],
        1,
        b"tables: single-byte entry 3 is bad\n",
    ),
];

// The text is read one byte at a time, and a write takes at most three bytes.
const FAILURES: &[Failure] = &[
    (USER, 9, (9, true), 99, 0, b"a\x80&#165;", b""),
    // After a failed read the characters before it are kept, but not one that it cuts.
    (USER, 0, (9, true), 99, 1, b"", UNREAD),
    (USER, 1, (9, true), 99, 1, b"a", UNREAD),
    (USER, 3, (9, true), 99, 1, b"a", UNREAD),
    (USER, 4, (9, true), 99, 1, b"a\x80", UNREAD),
    (USER, 6, (9, true), 99, 1, b"a\x80&#165;", UNREAD),
    // After a failed write the bytes before it are kept.
    (USER, 9, (0, true), 99, 1, b"", UNWRITTEN),
    (USER, 9, (1, true), 99, 1, b"a", UNWRITTEN),
    (USER, 9, (3, true), 99, 1, b"a\x80&#1", UNWRITTEN),
    (USER, 9, (9, false), 99, 1, b"a\x80&#165;", UNWRITTEN),
];

#[test]
fn tells_that_a_stream_fails_while_it_encodes(rt: HostRuntime) {
    fails(
        &rt,
        Program::Encode,
        (b"a\xEF\x9E\x80\xC2\xA5", 3),
        FAILURES,
    );
}

// The bytes of a piece are written together, however many malformed sequences it has.
#[test]
fn writes_malformed_sequences_together(rt: HostRuntime) {
    writes_once(
        &rt,
        Program::Encode,
        (USER, b"\xFFa\xE3\x81\xFF"),
        b"&#65533;a&#65533;&#65533;",
    );
}

#[test]
fn tells_that_memory_is_refused_to_an_encoder(rt: HostRuntime) {
    lacks_memory(&rt, Program::Encode, b"\xEA\xB0\x82", b"\x81\x41");
}
