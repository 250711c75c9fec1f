//! Whole sources, piece by piece.
ghost use Rattle.std.specs.Prelude.{◌≡◌, ◌<◌, ◌≤◌, ◌+◌, ◌-◌, length, min, take};
ghost use Rattle.legacy_exports.specs.Decoding.{DecodesSource};

use crate::calls::{CallEnd, DecoderCalls};
use crate::unit::CodeUnit;
use legacy_base::RawDecoder;

/// How a source is read: by which calls, in pieces of what length, and how often.
#[derive(Clone, Copy)]
pub struct Reading<C: Copy, S: Copy> {
    /// The kind of calls.
    pub calls: C,
    /// The bytes of a decoder, or the text of an encoder.
    pub source: S,
    /// The length of a piece in code units; 0: all in one piece.
    pub piece: usize,
    /// The number of times.
    pub times: usize,
}

impl<C: Copy, S: Copy> Reading<C, S> {
    /// Reads the source by these calls, in pieces of this length, and this number of times.
    pub fn new(calls: C, source: S, piece: usize, times: usize) -> Reading<C, S>
        ensures { result ≡ record { calls = calls; source = source; piece = piece; times = times } }
    {
        Reading {
            calls,
            source,
            piece,
            times,
        }
    }
}

/// Returns the end of a piece of `piece` bytes, or of all that is left if `piece` is 0.
pub fn piece_end(read: usize, len: usize, piece: usize) -> usize
    requires { read ≤ len }
    ensures most { result ≤ len }
    ensures least { read ≤ result }
    ensures goes_on { read < len → read < result }
    ensures all { piece ≡ 0 → result ≡ len }
    ensures piece { 0 < piece → result ≡ read + min piece (len - read) }
{
    if piece == 0 {
        len
    } else {
        read + piece.min(len - read)
    }
}

/// Decodes the source once, and returns the number of code units written.
///
/// It stops if the output is full.
#[inline(always)]
pub fn decode_once<C: DecoderCalls<U>, U: CodeUnit, D: RawDecoder>(
    decoder: &mut D,
    reading: &Reading<C, &[u8]>,
    output: &mut [U],
) -> usize
    ensures text { DecodesSource C.kind U.form reading.now.source.now (length output.old)
        (D.state decoder.old) (D.state decoder.new) (U.units (take result output.new)) }
    ensures within { result ≤ length output.new }
{
    let mut read = 0;
    let mut written = 0;
    let mut end = piece_end(0, reading.source.len(), reading.piece);
    'pieces: loop {
        let last = end == reading.source.len();
        let (answer, more, units) = reading.calls.decode(
            decoder,
            &reading.source[read..end],
            &mut output[written..],
            last,
        );
        read += more;
        written += units;
        match answer {
            CallEnd::Read => {
                if last {
                    return written;
                }
                end = piece_end(read, reading.source.len(), reading.piece);
            }
            CallEnd::Full => return written,
            CallEnd::Replaced => {}
        }
    }
}
