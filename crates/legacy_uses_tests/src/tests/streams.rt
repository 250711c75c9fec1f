//! Readers and writers that fail, with an input and the wanted output.
use std::io::{self, Error, ErrorKind, Read, Write};

/// Three bytes, an input of x-user-defined.
pub const BYTES: &[u8] = b"\x61\x80\xFF";

/// The text of those bytes.
pub const TEXT: &[u8] = b"\x61\xEF\x9E\x80\xEF\x9F\xBF";

/// A reader that reads at most `most` bytes at once, and fails after `reads` reads.
#[derive(Drop)]
pub struct FailingReader<'a> {
    pub bytes: &'a [u8],
    pub most: usize,
    pub reads: usize,
}

impl Read for FailingReader<'_> {
    fn read(&mut self, buf: &mut [u8]) -> io::Result<usize> {
        if self.reads == 0 {
            return Err(Error::from(ErrorKind::Other));
        }
        self.reads -= 1;
        let given = self.bytes.len().min(self.most).min(buf.len());
        buf[..given].copy_from_slice(&self.bytes[..given]);
        self.bytes = &self.bytes[given..];
        Ok(given)
    }
}

/// A writer that takes at most `most` bytes at once.
///
/// It fails after `writes` writes, and at a flush if `flushes` is not set.
#[derive(Drop)]
pub struct FailingWriter {
    pub written: Vec<u8>,
    pub most: usize,
    pub writes: usize,
    pub flushes: bool,
}

impl Write for FailingWriter {
    fn write(&mut self, buf: &[u8]) -> io::Result<usize> {
        if self.writes == 0 {
            return Err(Error::from(ErrorKind::Other));
        }
        self.writes -= 1;
        let taken = buf.len().min(self.most);
        self.written.extend_from_slice(&buf[..taken])?;
        Ok(taken)
    }

    fn flush(&mut self) -> io::Result<()> {
        if self.flushes {
            return Ok(());
        }
        Err(Error::from(ErrorKind::Other))
    }
}
