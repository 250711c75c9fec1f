//! The program: its statuses and texts, and its errors if a stream or memory fails or a word is not UTF-8 text.
use crate::tests::programs::{
    Failure, JIS, JIS_FILE, KR_FILE, RANGES_FILE, Refused, Request, UNREAD, UNWRITTEN, USER,
    answers, fails, lacks_memory,
};
use crate::tests::streams::{BYTES, TEXT};
use legacy_command::arguments::{ArgumentsError, arguments, status_of};
use legacy_command::host::Program;
use legacy_command::program::Fault;
use std::alloc::Global;
use std::env::{Env, FillError};
use std::fmt::Display;
use std::io::Write;
use std::test::Fail;

const USAGE: &[u8] = b"usage: legacy_recode [--text] CODEC [INDEX FILE]...\n";

// These are more lines than are written at once, and their places have one to four digits.
#[test]
fn tells_each_malformed_byte(rt: HostRuntime) -> Result<(), Fail> {
    let bytes = [0xFF; 1200];
    let mut lines = Vec::new(rt.alloc());
    for place in 0..1200 {
        writeln!(lines, "bad {place} 1")?;
    }
    answers(
        &rt,
        Program::Recode,
        &[("big5", &[], &bytes, lines.as_slice())],
    );
    Ok(())
}

pub(crate) const REQUESTS: &[Request] = &[
    // Without files.
    (USER, &[], BYTES, b"U+0061\nU+F780\nU+F7FF\n"),
    ("replacement", &[], b"AB", b"bad 0 1\n"),
    ("replacement", &[], b"", b""),
    (
        "shift_jis",
        &[],
        b"\x80\xA1\xDF\xA0\xF0\x40",
        b"U+0080\nU+FF61\nU+FF9F\nbad 3 1\nU+E000\n",
    ),
    (
        "euc-jp",
        &[],
        b"\x8F\xA2\x41\x8F",
        b"bad 0 2\nU+0041\nbad 3 1\n",
    ),
    (
        "utf-16le",
        &[],
        b"\x41\x00\x3D\xD8\x42",
        b"U+0041\nbad 2 3\n",
    ),
    (
        "utf-16be",
        &[],
        b"\x00\x0A\xD7\xFF\xD8\x00\xDC\x00\xD8\x3D\xDC\xA9\xDB\xBF\xDF\xFF\xDB\xFF\xDF\xFF",
        b"U+000A\nU+D7FF\nU+10000\nU+1F4A9\nU+FFFFF\nU+10FFFF\n",
    ),
    (
        "euc-kr",
        &[],
        b"aaaaaaaaa\x80a\x80\x81",
        b"U+0061\nU+0061\nU+0061\nU+0061\nU+0061\nU+0061\nU+0061\nU+0061\nU+0061\nbad 9 1\nU+0061\nbad 11 1\nbad 12 1\n",
    ),
    // With files.
    (
        "euc-kr euc-kr FILE",
        KR_FILE,
        b"\x81\x41\x81\x5B",
        b"U+AC02\nbad 2 1\nU+005B\n",
    ),
    (
        "big5 big5 FILE",
        &[Some(b"19780 0x2910D\n")],
        b"\xFE\xFD\x88\x62",
        b"U+2910D\nU+00CA\nU+0304\n",
    ),
    (
        JIS,
        JIS_FILE,
        b"\x1B\x24\x42\x54\x64\x1B\x28\x42A",
        b"U+58FA\nU+0041\n",
    ),
    (
        "gb18030 ranges FILE",
        RANGES_FILE,
        b"\x81\x30\x81\x30\x94\x39\xDA\x33",
        b"U+0080\nU+1F4A9\n",
    ),
    (
        "gbk ranges FILE",
        RANGES_FILE,
        b"\x81\x30\x81\x30\x94\x39\xDA\x33",
        b"U+0080\nU+1F4A9\n",
    ),
    (
        "single-byte single-byte FILE euc-kr FILE",
        &[Some(b"65 0x0391\n116 0x03C4\n"), Some(b"0 0xAC02\n")],
        b"\xC1\xF4\x80",
        b"U+0391\nU+03C4\nbad 2 1\n",
    ),
    // To text.
    (
        "--text gb18030",
        &[],
        b"\xE3\x32\x9A\x00",
        b"\xEF\xBF\xBD\x32\xEF\xBF\xBD\x00",
    ),
    ("--text x-user-defined", &[], BYTES, TEXT),
    ("--text x-user-defined", &[], b"", b""),
    ("--text replacement", &[], b"AB", b"\xEF\xBF\xBD"),
    (
        "--text euc-kr euc-kr FILE",
        KR_FILE,
        b"\x81\x41\x81\x5B",
        b"\xEA\xB0\x82\xEF\xBF\xBD\x5B",
    ),
];

const TWO_FILES: &str = "euc-kr euc-kr KR single-byte SB";

pub(crate) const REFUSED: &[Refused] = &[
    // The error says what is wrong with the files.
    (TWO_FILES, &[None, None], 1, b"KR: cannot be read\n"),
    (TWO_FILES, &[Some(b""), None], 1, b"SB: cannot be read\n"),
    (TWO_FILES, &[Some(b"# x\n1\n"), None], 1, b"KR: line 2\n"),
    (
        TWO_FILES,
        &[None, Some(b"# x\n1\n")],
        1,
        b"KR: cannot be read\n",
    ),
    (
        TWO_FILES,
        &[Some(b"0 0xD800\n"), Some(b"3 0x007F\n")],
        1,
        b"tables: index euc-kr has a bad entry at 0\n",
    ),
    (
        TWO_FILES,
        &[Some(b""), Some(b"3 0x007F\n")],
        1,
        b"tables: single-byte entry 3 is bad\n",
    ),
    (TWO_FILES, &[], 1, b"KR: cannot be read\n"),
    (
        "gb18030 ranges R",
        &[Some(b"0 0x0080\n0 0x0100\n")],
        1,
        b"tables: ranges are out of order at 1\n",
    ),
    // Words that do not have the program's form are refused.
    ("", &[], 2, USAGE),
    ("--text", &[], 2, USAGE),
    ("--text latin", &[], 2, USAGE),
    ("--text --text big5", &[], 2, USAGE),
    ("big5 --text", &[], 2, USAGE),
    ("big5 --text FILE", &[], 2, USAGE),
    ("latin", &[], 2, USAGE),
    ("Big5", &[], 2, USAGE),
    ("big5 big5", &[], 2, USAGE),
    ("big5 latin FILE", &[], 2, USAGE),
    ("big5 katakana FILE", &[], 2, USAGE),
    ("big5 big5 FILE ranges", &[], 2, USAGE),
    ("big5 big5 FILE big5 FILE", &[], 2, USAGE),
    ("big5 big5 FILE ranges FILE big5 FILE", &[], 2, USAGE),
];

/// An environment with these words, of which the first is the program's name, and nothing else.
#[derive(Drop)]
struct Words<'a> {
    words: &'a [&'a [u8]],
}

impl Env for Words<'_> {
    fn arg(&self, i: usize, buf: &mut [u8]) -> Result<usize, FillError> {
        if i >= self.words.len() {
            return Err(FillError::NotPresent);
        }
        let word = self.words[i];
        if word.len() > buf.len() {
            return Err(FillError::TooLong);
        }
        buf[..word.len()].copy_from_slice(word);
        Ok(word.len())
    }

    fn var(&self, _name: &str, _buf: &mut [u8]) -> Result<usize, FillError> {
        Err(FillError::NotPresent)
    }

    fn var_at(&self, _i: usize, _buf: &mut [u8]) -> Result<usize, FillError> {
        Err(FillError::NotPresent)
    }
}

/// Returns the words after the first one.
fn taken(alloc: Global, words: &[&[u8]]) -> Result<Vec<String>, ArgumentsError> {
    arguments(&(Words { words }, alloc))
}

// If one allocation is refused in a run, the call that asked for it returns that error.
#[test]
fn takes_words_that_are_text(rt: HostRuntime) {
    let named: [&[u8]; 3] = [b"legacy_recode", b"big5", b"\xEA\xB0\x82"];
    assert!(rt;
        match taken(rt.alloc(), &named) {
            Ok(words) => {
                words.len() == 2 && words[0].as_str() == "big5" && words[1].as_str() == "\u{AC02}"
            }
            Err(error) => error == ArgumentsError::Memory,
        }
    );
}

// If one allocation is refused in a run, the call that asked for it returns that error.
#[test]
fn refuses_words_that_are_no_text(rt: HostRuntime) {
    let no_text: [&[u8]; 2] = [b"legacy_recode", b"\xFF"];
    assert!(rt;
        match taken(rt.alloc(), &no_text) {
            Ok(_) => false,
            Err(error) => error == ArgumentsError::NotText || error == ArgumentsError::Memory,
        }
    );
    assert_eq!(rt; status_of(&ArgumentsError::NotText), 2);
    assert_eq!(rt; status_of(&ArgumentsError::Unread), 1);
    assert_eq!(rt; status_of(&ArgumentsError::Memory), 1);
}

/// Checks whether the fault prints this text.
fn says(alloc: Global, fault: &impl Display, text: &str) -> bool {
    match format!(in alloc; "{fault}") {
        Ok(found) => found.as_str() == text,
        Err(_) => false,
    }
}

#[test]
fn the_faults_print_their_texts(rt: HostRuntime) {
    assert!(rt; says(rt.alloc(), &Fault::Memory, "memory"));
    assert!(rt; says(rt.alloc(), &Fault::Line("KR", 3), "KR: line 3"));
    let refused = "arguments: not UTF-8";
    assert!(rt; says(rt.alloc(), &ArgumentsError::NotText, refused));
    let unread = "arguments: cannot be read";
    assert!(rt; says(rt.alloc(), &ArgumentsError::Unread, unread));
    assert!(rt; says(rt.alloc(), &ArgumentsError::Memory, "memory"));
}

const FAILURES: &[Failure] = &[
    (USER, 2, (2, true), 99, 1, b"U+0061\nU+F780\n", UNREAD),
    (USER, 4, (0, true), 99, 1, b"", UNWRITTEN),
    (
        USER,
        4,
        (9, false),
        99,
        1,
        b"U+0061\nU+F780\nU+F7FF\n",
        UNWRITTEN,
    ),
    (USER, 0, (6, false), 99, 1, b"", UNREAD),
    // If the line of an error cannot be written, the status is the same.
    ("latin", 4, (9, true), 0, 2, b"", b""),
    ("big5 big5 FILE", 4, (9, true), 0, 1, b"", b""),
];

#[test]
fn tells_that_a_stream_fails(rt: HostRuntime) {
    fails(&rt, Program::Recode, (BYTES, 7), FAILURES);
}

#[test]
fn tells_that_memory_is_refused(rt: HostRuntime) {
    lacks_memory(&rt, Program::Recode, b"\x81\x41", b"U+AC02\n");
}
