//! The programs on a host of the tests' own, whose files can be read or not.
use crate::tests::compared::holds;
use crate::tests::streams::FailingWriter;
use legacy_command::host::{Program, exit_status};
use std::alloc::{Allocator, Global};
use std::env::{Env, FillError};
use std::fs::{Files, Metadata, OpenFile, OpenOptions};
use std::io::{self, Error, ErrorKind, Read, Seek, SeekFrom, Write};

/// An open file with these bytes, after which a read fails if an error is given.
#[derive(Drop)]
struct Opened {
    bytes: &'static [u8],
    fault: Option<ErrorKind>,
}

impl Read for Opened {
    fn read(&mut self, buf: &mut [u8]) -> io::Result<usize> {
        if self.bytes.is_empty() {
            return match self.fault {
                Some(kind) => Err(Error::from(kind)),
                None => Ok(0),
            };
        }
        let count = self.bytes.len().min(buf.len());
        buf[..count].copy_from_slice(&self.bytes[..count]);
        self.bytes = &self.bytes[count..];
        Ok(count)
    }
}

impl Write for Opened {
    fn write(&mut self, _buf: &[u8]) -> io::Result<usize> {
        Err(Error::from(ErrorKind::Unsupported))
    }

    fn flush(&mut self) -> io::Result<()> {
        Ok(())
    }
}

impl Seek for Opened {
    fn seek(&mut self, _pos: SeekFrom) -> io::Result<u64> {
        Err(Error::from(ErrorKind::Unsupported))
    }
}

impl OpenFile for Opened {
    fn metadata(&self) -> io::Result<Metadata> {
        Err(Error::from(ErrorKind::Unsupported))
    }

    fn set_len(&self, _size: u64) -> io::Result<()> {
        Err(Error::from(ErrorKind::Unsupported))
    }

    fn sync_all(&self) -> io::Result<()> {
        Err(Error::from(ErrorKind::Unsupported))
    }

    fn sync_data(&self) -> io::Result<()> {
        Err(Error::from(ErrorKind::Unsupported))
    }
}

/// A host with these words, of which the first is the program's name, and with a few files.
#[derive(Drop)]
struct Host<'a> {
    words: &'a [&'a [u8]],
}

impl Env for Host<'_> {
    fn arg(&self, i: usize, buf: &mut [u8]) -> Result<usize, FillError> {
        if i >= self.words.len() {
            return Err(FillError::NotPresent);
        }
        let word = self.words[i];
        if word.len() > buf.len() {
            return Err(FillError::TooLong);
        }
        buf[..word.len()].copy_from_slice(word);
        Ok(word.len())
    }

    fn var(&self, _name: &str, _buf: &mut [u8]) -> Result<usize, FillError> {
        Err(FillError::NotPresent)
    }

    fn var_at(&self, _i: usize, _buf: &mut [u8]) -> Result<usize, FillError> {
        Err(FillError::NotPresent)
    }
}

impl Files for Host<'_> {
    type File = Opened;

    type Dir = Opened;

    fn open_file(&self, _how: &OpenOptions, path: &str) -> io::Result<Opened> {
        let bytes: &'static [u8] = b"0 0xAC02\n";
        match path {
            "KR" => Ok(Opened { bytes, fault: None }),
            // A folder can be opened, and its read fails.
            "FOLDER" => Ok(Opened {
                bytes: b"",
                fault: Some(ErrorKind::IsADirectory),
            }),
            "BROKEN" => Ok(Opened {
                bytes,
                fault: Some(ErrorKind::Other),
            }),
            "LARGE" => Ok(Opened {
                bytes,
                fault: Some(ErrorKind::OutOfMemory),
            }),
            "REFUSED" => Err(Error::from(ErrorKind::PermissionDenied)),
            _ => Err(Error::from(ErrorKind::NotFound)),
        }
    }

    fn open_dir(&self, _path: &str) -> io::Result<Opened> {
        Err(Error::from(ErrorKind::Unsupported))
    }

    fn metadata(&self, _path: &str) -> io::Result<Metadata> {
        Err(Error::from(ErrorKind::Unsupported))
    }

    fn symlink_metadata(&self, _path: &str) -> io::Result<Metadata> {
        Err(Error::from(ErrorKind::Unsupported))
    }

    fn copy(&self, _from: &str, _to: &str) -> io::Result<u64> {
        Err(Error::from(ErrorKind::Unsupported))
    }

    fn rename(&self, _from: &str, _to: &str) -> io::Result<()> {
        Err(Error::from(ErrorKind::Unsupported))
    }

    fn remove_file(&self, _path: &str) -> io::Result<()> {
        Err(Error::from(ErrorKind::Unsupported))
    }

    fn create_dir(&self, _path: &str) -> io::Result<()> {
        Err(Error::from(ErrorKind::Unsupported))
    }

    fn remove_dir(&self, _path: &str) -> io::Result<()> {
        Err(Error::from(ErrorKind::Unsupported))
    }

    fn remove_dir_all<B: Allocator>(&self, _alloc: B, _path: &str) -> io::Result<()> {
        Err(Error::from(ErrorKind::Unsupported))
    }
}

/// Returns a writer that takes all.
fn writer(alloc: Global) -> FailingWriter {
    FailingWriter {
        written: Vec::new(alloc),
        most: 9999,
        writes: 9999,
        flushes: true,
    }
}

/// Checks the status of a program on the host, what it writes, and its error.
fn ends(
    alloc: Global,
    program: Program,
    words: &[&[u8]],
    mut input: &[u8],
    (status, output, error): (u8, &[u8], &[u8]),
) -> bool {
    let host = (Host { words }, alloc);
    let mut out = writer(alloc);
    let mut errors = writer(alloc);
    let came = exit_status(&host, alloc, program, &mut input, &mut out, &mut errors);
    came == status && out.written.as_slice() == output && errors.written.as_slice() == error
}

/// The name of a file of index EUC-KR, and the status, the output and the error with it.
type File<'a> = (&'a [u8], u8, &'a [u8], &'a [u8]);

const FILES: &[File] = &[
    (b"KR", 0, b"U+AC02\n", b""),
    (b"MISSING", 1, b"", b"MISSING: cannot be read\n"),
    (b"FOLDER", 1, b"", b"FOLDER: cannot be read\n"),
    (b"BROKEN", 1, b"", b"BROKEN: cannot be read\n"),
    (b"REFUSED", 1, b"", b"REFUSED: cannot be read\n"),
    (b"LARGE", 1, b"", b"memory\n"),
];

#[test]
fn a_file_that_cannot_be_read_ends_the_program(rt: HostRuntime) {
    for (file, status, output, error) in FILES {
        let words: [&[u8]; 4] = [b"legacy_recode", b"euc-kr", b"euc-kr", *file];
        let wanted = (*status, *output, *error);
        let is_so = ends(rt.alloc(), Program::Recode, &words, b"\x81\x41", wanted);
        holds(&rt, "a file", is_so);
    }
}

#[test]
fn words_are_those_of_the_host(rt: HostRuntime) {
    let usage = b"usage: legacy_encode CODEC [INDEX FILE]...\n";
    let words: [&[u8]; 2] = [b"legacy_encode", b"utf-16le"];
    let is_so = ends(rt.alloc(), Program::Encode, &words, b"a", (2, b"", usage));
    holds(&rt, "no encoder", is_so);
    let words: [&[u8]; 2] = [b"legacy_encode", b"\xFF"];
    let refused = b"arguments: not UTF-8\n";
    let is_so = ends(rt.alloc(), Program::Encode, &words, b"a", (2, b"", refused));
    holds(&rt, "no text", is_so);
    let words: [&[u8]; 2] = [b"legacy_encode", b"x-user-defined"];
    let is_so = ends(rt.alloc(), Program::Encode, &words, b"a", (0, b"a", b""));
    holds(&rt, "words", is_so);
}
