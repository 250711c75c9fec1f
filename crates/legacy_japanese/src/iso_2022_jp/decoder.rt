//! The decoder of ISO-2022-JP.
ghost use Rattle.std.specs.Prelude.{◌≡◌, true, length};
ghost use Rattle.{legacy_base.specs.{Grammar.iso_2022_jp, declared.modes.DecoderMode.TheVariants.Ascii, States.{is_neutral, new_state}}, legacy_japanese.specs.Iso2022JpMachine.is_held};

mod resume;

use super::bytes::{Held, NOTHING, Start, finish, read, single_scalar};
use super::read_ahead::{front_escape, read_modes};
use legacy_base::{DecoderMode, DecoderStep, Destination, RawDecoder, Tables};
use legacy_decoder_engine::drive::drive_decoder;
use legacy_decoder_engine::moves::{DecoderMoves, Fed, Need};

/// The decoder of ISO-2022-JP (Encoding Standard, "ISO-2022-JP decoder").
///
/// An escape of three bytes switches to ASCII, JIS X 0201 Roman, half-width katakana or the pairs
/// of JIS X 0208. The mode is kept between calls. The decoder holds back at most five bytes: a whole
/// escape, and two bytes. It holds back a whole escape until a byte follows that is not part of an
/// escape.
///
/// Malformed sequences:
///
/// - an escape byte 1B that begins no valid escape (1 byte);
/// - a valid escape directly before another one (3 bytes);
/// - in ASCII and Roman mode the bytes 0E, 0F and 80 to FF, in katakana mode a byte outside 21 to
///   5F, and in two-byte mode a byte outside 21 to 7E at the beginning of a pair (1 byte);
/// - in two-byte mode a lead before 1B or at the end of the input (1 byte), or with another byte
///   that gives no scalar with it (2 bytes).
///
/// The Standard's handler returns some of these errors later (`docs/PROOF.md`).
#[derive(Drop)]
pub struct Iso2022JpDecoder<'a> {
    tables: &'a Tables<'a>,
    mode: DecoderMode,
    held: Held,
    ghost sound: { is_held mode held ≡ true },
}

impl<'a> Iso2022JpDecoder<'a> {
    ghost use Rattle.legacy_japanese.specs.Iso2022JpDecoder.{iso_2022_jp_state};

    /// Returns a new decoder, in ASCII mode and with nothing held back.
    ///
    /// It looks up pairs in index jis0208 of the tables, which it borrows.
    pub fn new(tables: &'a Tables<'a>) -> Iso2022JpDecoder<'a>
        ensures { iso_2022_jp_state result ≡ new_state (iso_2022_jp tables.now.flat.jis0208 Ascii) }
    {
        Iso2022JpDecoder {
            tables,
            mode: DecoderMode::Ascii,
            held: NOTHING,
        }
    }

    /// Checks whether no byte is held back and the mode is ASCII, as in a new decoder.
    ///
    /// An escape with nothing after it is held back. The result is therefore false after an escape
    /// to ASCII mode alone.
    #[tactic(auto, using(std::proofs::lemmas::Grind::common_steps))]
    pub fn in_neutral_state(&self) -> bool
        ensures { result ≡ is_neutral (iso_2022_jp_state self.now) }
    {
        matches!(self.mode, DecoderMode::Ascii) && self.held.is_nothing()
    }

    /// Returns the number of held-back bytes, at most 5. An escape with nothing after it is held back.
    pub fn held_count(&self) -> usize
        ensures { result ≡ length (iso_2022_jp_state self.now).held }
    {
        usize::from(self.held.count())
    }
}

impl<'a> DecoderMoves for Iso2022JpDecoder<'a> {
    ghost use Rattle.legacy_japanese.specs.Iso2022JpDecoder.{iso_2022_jp_state};

    ghost state = { iso_2022_jp_state };

    #[inline]
    fn rests(&self) -> bool {
        matches!(self.mode, DecoderMode::TwoByte) || matches!(self.held, Held::Begun(..))
    }

    #[inline]
    fn reading_need(&self, _byte: u8) -> Need {
        Need::Narrow
    }

    #[inline]
    fn release_need(&self) -> Need {
        Need::Narrow
    }

    #[tactic(auto, using(crate::proofs::Iso2022JpEnding::released))]
    fn release(&mut self) -> Option<char> {
        // Outside two-byte mode a byte alone is `24` or `28`.
        let Held::Byte(byte) = self.held else {
            return None;
        };
        let scalar = single_scalar(self.mode, byte)?;
        self.held = NOTHING;
        Some(scalar)
    }

    #[inline(always)]
    fn feed(&mut self, byte: u8) -> Fed {
        let (fed, mode, held) = read(self.tables, self.mode, self.held, byte);
        self.mode = mode;
        self.held = held;
        fed
    }

    #[tactic(auto, using(crate::proofs::Iso2022JpEnding::rest_known))]
    fn has_report(&self) -> bool {
        finish(self.mode, self.held).is_some()
    }

    #[tactic(auto, using(crate::proofs::Iso2022JpEnding::ends_none))]
    fn report(&mut self) -> Option<(u8, u8)> {
        let (mode, held) = finish(self.mode, self.held)?;
        self.mode = mode;
        self.held = held;
        Some((1, held.count()))
    }

    #[inline(always)]
    #[tactic(auto, using(crate::proofs::Iso2022JpFeeding::malformed_byte))]
    fn is_malformed_byte(&self, byte: u8) -> bool {
        byte >= 0x80 && self.held.is_nothing()
    }

    #[inline(always)]
    fn read_common<T: Destination>(&mut self, src: &[u8], dst: &mut T) -> usize {
        if !self.held.is_nothing() {
            return 0;
        }
        let (mode, read) = read_modes(self.tables, self.mode, src, dst);
        self.mode = mode;
        read
    }

    // Holds back an escape that no text of its mode follows. Byte by byte it takes three turns of the loop.
    #[inline(always)]
    #[tactic(auto, using(crate::proofs::Iso2022JpFeeding::holds_escape))]
    fn hold_back<T: Destination>(&mut self, src: &[u8], dst: &T) -> usize {
        if !self.held.is_nothing() || dst.free() < T::narrow() {
            return 0;
        }
        let Some(escape) = front_escape(src) else {
            return 0;
        };
        self.held = Held::Begun(Some(escape), Start::Nothing);
        3
    }
}

impl<'a> RawDecoder for Iso2022JpDecoder<'a> {
    ghost use Rattle.legacy_japanese.specs.Iso2022JpDecoder.{iso_2022_jp_state};

    ghost state = { iso_2022_jp_state };

    #[inline(always)]
    fn step<T: Destination>(&mut self, src: &[u8], dst: &mut T, last: bool) -> DecoderStep {
        drive_decoder(self, src, dst, last)
    }

    fn max_utf16_buffer_length(&self, byte_length: usize) -> Option<usize> {
        byte_length.checked_add(self.held.weight())
    }

    fn max_utf8_buffer_length_without_replacement(&self, byte_length: usize) -> Option<usize> {
        byte_length.checked_add(self.held.weight())?.checked_mul(3)
    }

    fn max_utf8_buffer_length(&self, byte_length: usize) -> Option<usize> {
        self.max_utf8_buffer_length_without_replacement(byte_length)
    }
}
