//! Encoded bytes that wait to be written.
ghost use Rattle.std.specs.Prelude.{◌≡◌, ℕ, ◌≤◌, List, [], ◌++◌, length, drop, Bool, OnOk, OnErr};
ghost use Rattle.std.specs.Str.{chars, IsCharBoundary};
ghost use Rattle.legacy_codecs.specs.References.{ReplacingEncoderCall};
ghost use Rattle.legacy_streams.specs.TextEncoding.{Sends};

use crate::pieces::{PIECE, write_whole};
use legacy_codecs::{CoderResult, RawEncoder, encode_replacing_utf8};
use std::io::{self, Write};

/// The number of bytes of the array.
const CAPACITY: usize = 2 * PIECE;

/// The number of free bytes with which each call of an encoder makes progress.
const CALL_BYTES: usize = 14;

/// Encoded bytes that are collected in an array and written together.
#[derive(Drop)]
pub struct EncodedBytes {
    bytes: [u8; CAPACITY],
    filled: usize,
    ghost in_range: { filled ≤ length bytes },
}

impl EncodedBytes {
    ghost use Rattle.legacy_streams.specs.Waiting.{waiting_bytes, free_count};

    /// Returns a buffer in which no bytes wait.
    pub fn new() -> EncodedBytes
        ensures { waiting_bytes result ≡ [] }
    {
        EncodedBytes {
            bytes: [0; CAPACITY],
            filled: 0,
        }
    }

    /// Writes the bytes that wait.
    ///
    /// If an error is returned, a front of them was written.
    pub fn write_to<W: Write>(&mut self, output: &mut W) -> io::Result<()>
        ensures sends { OnOk result (Sends (waiting_bytes self.old) [] []
            (W.contents output.old) (W.contents output.new)) }
        ensures empty { OnOk result (waiting_bytes self.new ≡ []) }
        ensures room { OnOk result (CALL_BYTES ≤ free_count self.new) }
        ensures err { OnErr result ((unsent : List ℕ) × Sends (waiting_bytes self.old) [] unsent
            (W.contents output.old) (W.contents output.new)) }
    {
        write_whole(output, &self.bytes[..self.filled])?;
        self.filled = 0;
        Ok(())
    }

    /// Writes the bytes that wait if a call of an encoder may need more than is free.
    ///
    /// If an error is returned, a front of them was written.
    pub fn make_room<W: Write>(&mut self, output: &mut W) -> io::Result<()>
        ensures sends { OnOk result (Sends (waiting_bytes self.old) [] (waiting_bytes self.new)
            (W.contents output.old) (W.contents output.new)) }
        ensures room { OnOk result (CALL_BYTES ≤ free_count self.new) }
        ensures err { OnErr result ((unsent : List ℕ) × Sends (waiting_bytes self.old) [] unsent
            (W.contents output.old) (W.contents output.new)) }
    {
        if CAPACITY - self.filled >= CALL_BYTES {
            return Ok(());
        }
        self.write_to(output)
    }

    /// Makes one call of the encoder. Its bytes wait after those that wait already.
    ///
    /// Returns the call's result and the number of bytes of the text that it read.
    pub fn encode<E: RawEncoder>(
        &mut self,
        encoder: &mut E,
        text: &str,
        last: bool,
    ) -> (CoderResult, usize)
        ensures call { (bytes : List ℕ) × (found : Bool)
            × ReplacingEncoderCall (E.state encoder.old) (chars text.now) last (free_count self.old)
            (E.state encoder.new) result.0 (chars (drop result.1 text.now)) bytes found
            × (waiting_bytes self.new ≡ waiting_bytes self.old ++ bytes) }
        ensures boundary { IsCharBoundary text.now result.1 }
    {
        let free = &mut self.bytes[self.filled..];
        let (answer, read, written, _) = encode_replacing_utf8(encoder, text, free, last);
        self.filled += written;
        (answer, read)
    }
}
