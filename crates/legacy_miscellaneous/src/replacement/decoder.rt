//! The replacement decoder.
ghost use Rattle.std.specs.Prelude.{◌≡◌, false};
ghost use Rattle.{legacy_base.specs.{Grammar.replacement, States.new_state}, legacy_miscellaneous.specs.ReplacementDecoder.replacement_state};

mod resume;

use legacy_base::{DecoderStep, Destination, RawDecoder};
use legacy_decoder_engine::drive::drive_decoder;
use legacy_decoder_engine::lead_and_trail::malformed_through;
use legacy_decoder_engine::moves::{DecoderMoves, Fed, Need};

/// The replacement decoder (Encoding Standard, "replacement decoder").
///
/// The first byte is a malformed sequence, and every later byte is dropped. No scalar is ever
/// written, and no byte is held back.
#[derive(Drop)]
pub struct ReplacementDecoder {
    has_reported: bool,
}

impl ReplacementDecoder {
    /// Returns a decoder before its first byte.
    pub fn new() -> ReplacementDecoder
        ensures { replacement_state result ≡ new_state (replacement false) }
    {
        ReplacementDecoder {
            has_reported: false,
        }
    }
}

impl DecoderMoves for ReplacementDecoder {
    ghost state = { replacement_state };

    #[inline]
    fn rests(&self) -> bool {
        true
    }

    #[inline]
    #[tactic(auto, using(crate::proofs::ReplacementSteps::covered))]
    fn reading_need(&self, _byte: u8) -> Need {
        if self.has_reported {
            Need::Nothing
        } else {
            Need::Narrow
        }
    }

    #[inline]
    #[tactic(auto, using(crate::proofs::ReplacementSteps::covered))]
    fn release_need(&self) -> Need {
        Need::Narrow
    }

    fn release(&mut self) -> Option<char> {
        None
    }

    #[inline]
    #[tactic(auto, using(crate::proofs::ReplacementSteps::feeds))]
    fn feed(&mut self, _byte: u8) -> Fed {
        if self.has_reported {
            return Fed::Nothing;
        }
        self.has_reported = true;
        malformed_through(1)
    }

    #[inline]
    #[tactic(auto, using(crate::proofs::ReplacementSteps::ends_none))]
    fn has_report(&self) -> bool {
        false
    }

    #[tactic(auto, using(crate::proofs::ReplacementSteps::ends_none))]
    fn report(&mut self) -> Option<(u8, u8)> {
        None
    }
}

impl RawDecoder for ReplacementDecoder {
    ghost state = { replacement_state };

    fn step<T: Destination>(&mut self, src: &[u8], dst: &mut T, last: bool) -> DecoderStep {
        drive_decoder(self, src, dst, last)
    }

    fn max_utf16_buffer_length(&self, _byte_length: usize) -> Option<usize> {
        Some(1)
    }

    fn max_utf8_buffer_length_without_replacement(&self, _byte_length: usize) -> Option<usize> {
        Some(3)
    }

    fn max_utf8_buffer_length(&self, _byte_length: usize) -> Option<usize> {
        Some(3)
    }
}
