//! The decoder of the single-byte encodings.
ghost use Rattle.std.specs.Prelude.{◌≡◌, ◌≤◌, length, take, IsAscii};
ghost use Rattle.legacy_base.specs.{Grammar.single_byte, Latin1.{is_latin1_byte, latin1_front}, States.new_state};
ghost use Rattle.legacy_single_byte.specs.SingleByteDecoder.{single_byte_entries, single_byte_state};

mod resume;

use super::blocks::read_text;
use super::scalars::ByteScalars;
use legacy_base::{DecoderStep, Destination, RawDecoder, SingleByteTable};
use legacy_decoder_engine::drive::drive_decoder;
use legacy_decoder_engine::lead_and_trail::malformed_through;
use legacy_decoder_engine::moves::{DecoderMoves, Fed, Need};
use std::simd::prelude::*;

/// The decoder of a single-byte encoding (Encoding Standard, "single-byte decoder").
///
/// An ASCII byte decodes to itself, and byte 0x80 + `p` to the scalar at place `p` of the table. A
/// byte without a scalar is a malformed sequence. No byte is held back.
#[derive(Drop)]
pub struct SingleByteDecoder<'a> {
    scalars: ByteScalars<'a>,
}

/// Checks whether the byte decodes to the scalar of the same number.
#[inline]
fn is_latin1(table: &SingleByteTable, byte: u8) -> bool
    ensures { result ≡ is_latin1_byte table.now.entries byte }
{
    byte < 0x80 || table.scalar(usize::from(byte - 0x80)) == Some(char::from(byte))
}

/// Returns the number of bytes at the front that are in whole blocks of 16 ASCII bytes.
#[inline]
#[tactic(auto, using(crate::proofs::Latin1Fronts::steps))]
fn ascii_blocks(bytes: &[u8]) -> usize
    ensures within { result ≤ length bytes.now }
    ensures ascii { IsAscii (take result bytes.now) }
{
    let mut count = 0;
    while bytes.len() - count >= 16 {
        let block = u8x16::from_slice(&bytes[count..]);
        if block.simd_ge(u8x16::splat(0x80)).to_bitmask() != 0 {
            return count;
        }
        count += 16;
    }
    count
}

impl<'a> SingleByteDecoder<'a> {
    /// Returns a decoder before its first byte, which reads bytes from 0x80 on by the table.
    pub fn new(table: &'a SingleByteTable) -> SingleByteDecoder<'a>
        ensures state { single_byte_state result ≡ new_state (single_byte table.now.entries) }
        ensures entries { single_byte_entries result ≡ table.now.entries }
    {
        SingleByteDecoder {
            scalars: ByteScalars::new(table),
        }
    }

    /// Returns the number of bytes at the front of `bytes` that decode as in Latin-1.
    ///
    /// Each of them decodes to the scalar of the same number, as every ASCII byte does. The result
    /// is `bytes.len()` if all bytes do. The decoder is unchanged.
    #[tactic(auto, using(crate::proofs::Latin1Fronts::steps))]
    pub fn latin1_byte_compatible_up_to(&self, bytes: &[u8]) -> usize
        ensures { result ≡ length (latin1_front (single_byte_entries self.now) bytes.now) }
    {
        let mut count = ascii_blocks(bytes);
        while count < bytes.len() && is_latin1(self.scalars.table, bytes[count]) {
            count += 1;
        }
        count
    }
}

impl DecoderMoves for SingleByteDecoder<'_> {
    ghost state = { single_byte_state };

    #[inline]
    fn rests(&self) -> bool {
        true
    }

    #[inline]
    fn reading_need(&self, byte: u8) -> Need {
        if byte < 0x80 {
            Need::Unit
        } else {
            Need::Narrow
        }
    }

    #[inline]
    fn release_need(&self) -> Need {
        Need::Narrow
    }

    fn release(&mut self) -> Option<char> {
        None
    }

    #[inline]
    #[tactic(auto, using(crate::proofs::SingleByteShown::feeds))]
    fn feed(&mut self, byte: u8) -> Fed {
        if byte < 0x80 {
            return Fed::One(char::from(byte));
        }
        match self.scalars.table.scalar(usize::from(byte - 0x80)) {
            Some(scalar) => Fed::One(scalar),
            None => malformed_through(1),
        }
    }

    #[inline]
    #[tactic(auto, using(crate::proofs::SingleByteShown::ends_none))]
    fn has_report(&self) -> bool {
        false
    }

    #[tactic(auto, using(crate::proofs::SingleByteShown::ends_none))]
    fn report(&mut self) -> Option<(u8, u8)> {
        None
    }

    #[inline(always)]
    fn read_common<T: Destination>(&mut self, src: &[u8], dst: &mut T) -> usize {
        read_text(&self.scalars, src, dst)
    }
}

impl RawDecoder for SingleByteDecoder<'_> {
    ghost state = { single_byte_state };

    #[inline(always)]
    fn step<T: Destination>(&mut self, src: &[u8], dst: &mut T, last: bool) -> DecoderStep {
        drive_decoder(self, src, dst, last)
    }

    fn max_utf16_buffer_length(&self, byte_length: usize) -> Option<usize> {
        Some(byte_length)
    }

    fn max_utf8_buffer_length_without_replacement(&self, byte_length: usize) -> Option<usize> {
        byte_length.checked_mul(3)
    }

    fn max_utf8_buffer_length(&self, byte_length: usize) -> Option<usize> {
        byte_length.checked_mul(3)
    }
}
