//! The codecs without modes: the code of a scalar does not depend on others.
ghost use Rattle.std.specs.Prelude.{◌≡◌, ◌≤◌, ℕ, [], ◌∷◌, true, Some, IfSome};
ghost use Rattle.legacy_text.specs.UnitCodes.{IsNoSurrogate};
ghost use Rattle.legacy_base.specs.Encoders.{Codec, encoder_profile};
ghost use Rattle.legacy_encoder_engine.specs.Moves.{IsCode};
ghost use Rattle.legacy_encoder_engine.specs.Guesses.{IsGuess};
ghost use Rattle.legacy_encoder_engine.specs.PlainCodecs.{IsPlainCodec, HasByte};
ghost use Rattle.legacy_encoder_engine.specs.WrittenUnits.{HasUnitCode};

use crate::moves::EncoderMove;
use legacy_tables::RangePart;

/// The codes of a codec without modes: the parts in which these codecs differ. ASCII is itself.
pub trait PlainCodes: Copy {
    /// The codec with its lists.
    ghost codec: { Self → Codec };

    /// The number of free bytes that a scalar past ASCII needs, mapped or not.
    ghost past: { ℕ };

    /// It is a codec without modes.
    ghost plain: { (encoder : Self) → IsPlainCodec (codec encoder) past };

    /// Returns the number of free bytes that a scalar past ASCII needs, mapped or not.
    ///
    /// ASCII needs one.
    fn past_need(&self) -> usize
        ensures { result ≡ past };

    /// Returns the bytes of a scalar, or the scalar itself as unmappable.
    fn code_of(&self, c: char) -> EncoderMove
        ensures { IsCode ((encoder_profile (codec self.now)).code c) c result };

    /// Returns the lead and the trail of a scalar past ASCII.
    ///
    /// The result may be `None` for any scalar: `code_of` has all codes.
    #[inline(always)]
    fn pair_of(&self, c: char) -> Option<(u8, u8)>
        requires { 0x80 ≤ c }
        ensures { IfSome result (λ pair.
            (encoder_profile (codec self.now)).code c ≡ Some (pair.0 ∷ pair.1 ∷ [])) }
    {
        let _ = c;
        None
    }

    /// Returns the four bytes of a scalar past ASCII. It is called after `pair_of`.
    ///
    /// The result may be `None` for any scalar: `code_of` has all codes. `guess` may change.
    #[inline(always)]
    fn four_of(&self, guess: &mut RangePart, c: char) -> Option<(u8, u8, u8, u8)>
        requires past { 0x80 ≤ c }
        requires guess { IsGuess (codec self.now) guess.old }
        ensures code { IfSome result (λ four. (encoder_profile (codec self.now)).code c
            ≡ Some (four.0 ∷ four.1 ∷ four.2 ∷ four.3 ∷ [])) }
        ensures guess { IsGuess (codec self.now) guess.new }
    {
        let _ = *guess;
        let _ = c;
        None
    }

    /// Whether the fast loop also makes codes other than pairs and four bytes.
    ///
    /// It does if such scalars past ASCII are common. It is a hint: any value is right.
    const GOES_PAST_PAIRS: bool = false;

    /// Whether `unit_code` is worth calling by turns of ten, from UTF-8 or UTF-16.
    ///
    /// It is a hint: any value is right.
    const GOES_BY_TENS: bool = false;

    /// Returns the bytes of a UTF-16 code unit as one number, and whether it has them.
    ///
    /// The first byte is the low one. ASCII has one byte, other code units have two. Any code unit
    /// may have none, and is then read as a scalar.
    #[inline(always)]
    fn unit_code(&self, unit: u16) -> (u16, bool)
        ensures { result.1 ≡ true →
            IsNoSurrogate unit × HasUnitCode (codec self.now) unit result.0 }
    {
        let _ = unit;
        (0, false)
    }

    /// Whether `byte_of` is worth calling by blocks of UTF-16 and turns of UTF-8.
    ///
    /// It is a hint: any value is right.
    const GOES_BY_UNITS: bool = false;

    /// Returns the byte of a UTF-16 code unit, and whether it has one.
    ///
    /// If one has, each scalar of the codec needs one byte. Any code unit may have none, and is
    /// then read as a scalar.
    #[inline(always)]
    fn byte_of(&self, unit: u16) -> (u8, bool)
        ensures { result.1 ≡ true →
            IsNoSurrogate unit × HasByte (codec self.now) past unit result.0 }
    {
        let _ = unit;
        (0, false)
    }
}
