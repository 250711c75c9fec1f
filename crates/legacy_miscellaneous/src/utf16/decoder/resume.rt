//! A decoder that continues from held-back bytes.
ghost use Rattle.std.specs.{Prelude.{◌≡◌, [], ◌∷◌, true, false, Bool, IfNone, IfSome}, Char.Utf16.is_low_surrogate};
ghost use Rattle.legacy_base.specs.{Grammar.utf16, States.{may_hold, state_of}};
ghost use Rattle.legacy_miscellaneous.specs.Utf16Decoder.{first_byte, second_byte, held_bytes, utf16_state};

use super::super::held_bytes::{HighSurrogate, OddByte};
use super::super::unit_steps::{hold_unit, is_high, is_low, unit};
use super::{Held, Utf16Decoder};

/// Holds back a unit, or returns `None` if it is a low surrogate.
fn held_unit(unit: u16) -> Option<Held>
    ensures held { (big_endian : Bool) → IfSome result (λ held.
        held_bytes big_endian held ≡ first_byte big_endian unit ∷ second_byte big_endian unit ∷ []) }
    ensures low { IfNone result (is_low_surrogate unit ≡ true) }
    ensures taken { IfSome result (λ _. is_low_surrogate unit ≡ false) }
{
    if is_low(unit) {
        return None;
    }
    Some(hold_unit(unit))
}

impl Utf16Decoder {
    /// Returns a decoder that holds back these bytes.
    ///
    /// The result is `None` exactly if no decoder of the byte order may hold them back.
    #[tactic(auto, using(crate::proofs::Utf16Held::unit_bytes))]
    pub fn resume(big_endian: bool, held: &[u8]) -> Option<Utf16Decoder>
        ensures state { IfSome result (λ d. utf16_state d ≡ state_of (utf16 big_endian) held.now) }
        ensures none { IfNone result (may_hold (utf16 big_endian) held.now ≡ false) }
        ensures taken { IfSome result (λ _. may_hold (utf16 big_endian) held.now ≡ true) }
    {
        let kept = match held {
            [] => Held::Nothing,
            [byte] => Held::Odd(OddByte { byte: *byte }),
            [first, second] => held_unit(unit(big_endian, *first, *second))?,
            [first, second, byte] => {
                let unit = unit(big_endian, *first, *second);
                if !is_high(unit) {
                    return None;
                }
                Held::HighOdd(HighSurrogate { unit }, OddByte { byte: *byte })
            }
            _ => return None,
        };
        let mut decoder = Utf16Decoder::new(big_endian);
        decoder.held = kept;
        Some(decoder)
    }
}
