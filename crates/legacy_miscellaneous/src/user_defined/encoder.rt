//! The encoder of x-user-defined.
ghost use Rattle.std.specs.Prelude.{◌≡◌};
ghost use Rattle.legacy_base.specs.Encoders.{user_defined, new_encoder};
ghost use Rattle.legacy_miscellaneous.specs.UserDefinedCodes.{user_defined_encoder_state, user_defined_plain};

use legacy_base::{EncoderStep, RawEncoder, Source};
use legacy_encoder_engine::drive::drive_encoder;
use legacy_encoder_engine::moves::EncoderMove;
use legacy_encoder_engine::plain_codes::PlainCodes;

/// The encoder of x-user-defined (Encoding Standard, "x-user-defined encoder").
///
/// ASCII is itself, and the private-use scalars U+F780 to U+F7FF are the bytes 80 to FF. All other
/// scalars are unmappable.
#[derive(Clone, Copy)]
pub struct UserDefinedEncoder {
    _made_by_new: (),
}

impl UserDefinedEncoder {
    /// Returns an encoder before its first scalar.
    pub fn new() -> UserDefinedEncoder
        ensures { user_defined_encoder_state result ≡ new_encoder user_defined }
    {
        UserDefinedEncoder { _made_by_new: () }
    }
}

impl PlainCodes for UserDefinedEncoder {
    ghost codec = { λ _. user_defined };

    ghost past = { 1 };

    ghost plain = { λ _. user_defined_plain };

    #[inline]
    fn past_need(&self) -> usize {
        1
    }

    #[inline(always)]
    #[tactic(auto, unfolding(legacy_base::specs::UserDefined::user_defined_code))]
    fn code_of(&self, c: char) -> EncoderMove {
        let scalar = c as u32;
        if scalar < 0x80 {
            EncoderMove::One(scalar as u8)
        } else if scalar >= 0xF780 && scalar <= 0xF7FF {
            EncoderMove::One((0x80 + (scalar - 0xF780)) as u8)
        } else {
            EncoderMove::Unmappable(c)
        }
    }

    const GOES_PAST_PAIRS: bool = true;

    const GOES_BY_UNITS: bool = true;

    #[inline(always)]
    #[tactic(auto, unfolding(legacy_base::specs::UserDefined::user_defined_code))]
    fn byte_of(&self, unit: u16) -> (u8, bool) {
        if unit < 0x80 {
            (unit as u8, true)
        } else if unit >= 0xF780 && unit <= 0xF7FF {
            ((0x80 + (unit - 0xF780)) as u8, true)
        } else {
            (0, false)
        }
    }
}

impl RawEncoder for UserDefinedEncoder {
    ghost state = { user_defined_encoder_state };

    fn step<S: Source>(&mut self, src: &mut S, dst: &mut [u8], last: bool) -> EncoderStep {
        drive_encoder(self, src, dst, last)
    }

    fn max_buffer_length_from_utf16_without_replacement(&self, u16_length: usize) -> Option<usize> {
        Some(u16_length)
    }

    fn max_buffer_length_from_utf8_without_replacement(&self, byte_length: usize) -> Option<usize> {
        Some(byte_length)
    }
}
