//! The decoder of UTF-16.
ghost use Rattle.std.specs.Prelude.{◌≡◌, length};
ghost use Rattle.legacy_base.specs.{Grammar.utf16, States.{additional_from_state, is_neutral, new_state}, Lengths.{answer, most_code_units}};
ghost use Rattle.legacy_miscellaneous.specs.Utf16Decoder.{utf16_state};

mod resume;

use super::held_bytes::Held;
use super::near_surrogates::read_text;
use super::unit_blocks::Units;
use super::unit_steps::read_byte;
use legacy_base::{DecoderStep, Destination, RawDecoder};
use legacy_decoder_engine::drive::drive_decoder;
use legacy_decoder_engine::moves::{DecoderMoves, Fed, Need};

/// The decoder of UTF-16 in either byte order (Encoding Standard, "shared UTF-16 decoder").
///
/// It is also the "UTF-16BE decoder" and the "UTF-16LE decoder" of the Standard. Two bytes are a
/// code unit. A high surrogate (D800 to DBFF) with a low one after it (DC00 to DFFF) is one scalar.
/// So is any unit that is not a surrogate. A byte order mark is a scalar like any other.
///
/// An unpaired surrogate is a malformed sequence of two bytes. At the end of the input an odd byte
/// is malformed: alone, or as the third byte of a sequence that begins with a high surrogate.
///
/// The unit after an unpaired high surrogate is read and held back, so the result is `Malformed(2,
/// 2)`.
///
/// Each byte is read only if 4 bytes, or 2 code units of UTF-16, are free. So 84 5C A5 85 in little
/// endian order, to an output of 2 code units of UTF-16, gives `OutputFull` after 2 bytes, although
/// its text has 2 code units. An output of 3 bytes, or 1 code unit, more than the text is enough.
#[derive(Drop)]
pub struct Utf16Decoder {
    big_endian: bool,
    held: Held,
}

impl Utf16Decoder {
    /// Returns a decoder before its first byte.
    ///
    /// If `big_endian` is set, the first byte of a unit is the high one. Otherwise the second is.
    pub fn new(big_endian: bool) -> Utf16Decoder
        ensures { utf16_state result ≡ new_state (utf16 big_endian) }
    {
        Utf16Decoder {
            big_endian,
            held: Held::Nothing,
        }
    }

    /// Returns 1 plus the number of held-back bytes: 1 for an odd byte, 2 for a unit.
    ///
    /// The length queries add it to the number of bytes to come.
    pub fn additional_from_state(&self) -> usize
        ensures { result ≡ additional_from_state (utf16_state self.now) }
    {
        match self.held {
            Held::Nothing => 1,
            Held::Odd(_) => 2,
            Held::High(_) | Held::Pending(_) => 3,
            Held::HighOdd(_, _) => 4,
        }
    }

    /// Checks whether no byte is held back.
    #[inline]
    pub fn in_neutral_state(&self) -> bool
        ensures { result ≡ is_neutral (utf16_state self.now) }
    {
        matches!(self.held, Held::Nothing)
    }

    /// Returns the number of held-back bytes, at most 3.
    #[inline]
    pub fn held_count(&self) -> usize
        ensures { result ≡ length (utf16_state self.now).held }
    {
        self.additional_from_state() - 1
    }

    /// Returns the most code units of `byte_length` more bytes and those held back.
    ///
    /// Returns `None` if the number of bytes exceeds `usize::MAX`.
    fn unit_limit(&self, byte_length: usize) -> Option<usize>
        ensures { result ≡ answer (most_code_units (utf16_state self.now) byte_length) }
    {
        let bytes = byte_length.checked_add(self.additional_from_state())?;
        Some(bytes / 2)
    }
}

impl DecoderMoves for Utf16Decoder {
    ghost state = { utf16_state };

    #[inline]
    fn rests(&self) -> bool {
        !matches!(self.held, Held::Pending(_))
    }

    #[inline]
    fn reading_need(&self, _byte: u8) -> Need {
        Need::Wide
    }

    #[inline]
    fn release_need(&self) -> Need {
        Need::Narrow
    }

    #[tactic(auto, using(crate::proofs::Utf16Held::releases))]
    fn release(&mut self) -> Option<char> {
        let Held::Pending(pending) = self.held else {
            return None;
        };
        self.held = Held::Nothing;
        Some(pending.scalar)
    }

    #[inline(always)]
    #[tactic(auto, using(crate::proofs::Utf16Held::feeds))]
    fn feed(&mut self, byte: u8) -> Fed {
        let (fed, held) = read_byte(self.big_endian, self.held, byte);
        self.held = held;
        fed
    }

    #[inline]
    #[tactic(auto, using(crate::proofs::Utf16Held::ends_none, crate::proofs::Utf16Held::ends_some))]
    fn has_report(&self) -> bool {
        !matches!(self.held, Held::Nothing)
    }

    #[tactic(auto, using(crate::proofs::Utf16Held::ends_none))]
    fn report(&mut self) -> Option<(u8, u8)> {
        let length = match self.held {
            Held::Nothing => return None,
            Held::Odd(_) => 1,
            Held::High(_) => 2,
            Held::HighOdd(_, _) => 3,
            Held::Pending(_) => unreachable!(),
        };
        self.held = Held::Nothing;
        Some((length, 0))
    }

    // The byte order is decided here, and not at each unit.
    #[inline(always)]
    fn read_common<T: Destination>(&mut self, src: &[u8], dst: &mut T) -> usize {
        if !matches!(self.held, Held::Nothing) {
            0
        } else if self.big_endian {
            read_text(Units { big_endian: true }, src, dst)
        } else {
            read_text(Units { big_endian: false }, src, dst)
        }
    }
}

impl RawDecoder for Utf16Decoder {
    ghost state = { utf16_state };

    #[inline(always)]
    fn step<T: Destination>(&mut self, src: &[u8], dst: &mut T, last: bool) -> DecoderStep {
        drive_decoder(self, src, dst, last)
    }

    fn max_utf16_buffer_length(&self, byte_length: usize) -> Option<usize> {
        self.unit_limit(byte_length)?.checked_add(1)
    }

    fn max_utf8_buffer_length_without_replacement(&self, byte_length: usize) -> Option<usize> {
        self.max_utf8_buffer_length(byte_length)
    }

    fn max_utf8_buffer_length(&self, byte_length: usize) -> Option<usize> {
        let units = self.unit_limit(byte_length)?;
        units.checked_mul(3)?.checked_add(1)
    }
}
