//! The decoder of x-user-defined.
ghost use Rattle.std.specs.Prelude.{◌≡◌};
ghost use Rattle.{legacy_base.specs.{Grammar.user_defined, States.new_state}, legacy_miscellaneous.specs.UserDefinedDecoder.user_defined_state};

mod resume;

use super::blocks::{read_few, read_text, scalar_of};
use legacy_base::{DecoderStep, Destination, RawDecoder};
use legacy_decoder_engine::drive::drive_decoder;
use legacy_decoder_engine::moves::{DecoderMoves, Fed, Need};

/// The decoder of x-user-defined (Encoding Standard, "x-user-defined decoder").
///
/// ASCII bytes are themselves, and the bytes 80 to FF are the private-use scalars U+F780 to U+F7FF.
/// No byte is malformed, and none is held back.
#[derive(Drop)]
pub struct UserDefinedDecoder {
    _made_by_new: (),
}

impl UserDefinedDecoder {
    /// Returns a decoder before its first byte.
    pub fn new() -> UserDefinedDecoder
        ensures { user_defined_state result ≡ new_state user_defined }
    {
        UserDefinedDecoder { _made_by_new: () }
    }
}

impl DecoderMoves for UserDefinedDecoder {
    ghost state = { user_defined_state };

    #[inline]
    fn rests(&self) -> bool {
        true
    }

    #[inline]
    #[tactic(auto, using(crate::proofs::UserDefinedShown::covered))]
    fn reading_need(&self, _byte: u8) -> Need {
        Need::Narrow
    }

    #[inline]
    #[tactic(auto, using(crate::proofs::UserDefinedShown::covered))]
    fn release_need(&self) -> Need {
        Need::Narrow
    }

    fn release(&mut self) -> Option<char> {
        None
    }

    #[inline]
    #[tactic(auto, using(crate::proofs::UserDefinedAhead::feeds))]
    fn feed(&mut self, byte: u8) -> Fed {
        Fed::One(scalar_of(byte))
    }

    #[inline]
    #[tactic(auto, using(crate::proofs::UserDefinedShown::ends_none))]
    fn has_report(&self) -> bool {
        false
    }

    #[tactic(auto, using(crate::proofs::UserDefinedShown::ends_none))]
    fn report(&mut self) -> Option<(u8, u8)> {
        None
    }

    #[inline(always)]
    fn read_common<T: Destination>(&mut self, src: &[u8], dst: &mut T) -> usize {
        if T::narrow() == 1 {
            read_few(src, dst)
        } else {
            read_text(src, dst)
        }
    }
}

impl RawDecoder for UserDefinedDecoder {
    ghost state = { user_defined_state };

    #[inline(always)]
    fn step<T: Destination>(&mut self, src: &[u8], dst: &mut T, last: bool) -> DecoderStep {
        drive_decoder(self, src, dst, last)
    }

    fn max_utf16_buffer_length(&self, byte_length: usize) -> Option<usize> {
        Some(byte_length)
    }

    fn max_utf8_buffer_length_without_replacement(&self, byte_length: usize) -> Option<usize> {
        self.max_utf8_buffer_length(byte_length)
    }

    fn max_utf8_buffer_length(&self, byte_length: usize) -> Option<usize> {
        byte_length.checked_mul(3)
    }
}
