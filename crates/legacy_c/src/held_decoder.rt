//! What a decoder holds back, as numbers.
ghost use Rattle.std.specs.Prelude.{◌≡◌, length};
ghost use Rattle.legacy_c.specs.Saved.{grammar_mode};

use legacy_base::{DecoderMode, RawDecoder};
use legacy_chinese::Gb18030Decoder;
use legacy_decoder_engine::lead_decoder::{LeadCodec, LeadDecoder};
use legacy_japanese::{EucJpDecoder, Iso2022JpDecoder};
use legacy_miscellaneous::{ReplacementDecoder, UserDefinedDecoder, Utf16Decoder};
use legacy_single_byte::SingleByteDecoder;

/// A decoder whose state can be kept as numbers.
pub trait HeldDecoder: RawDecoder {
    /// Returns the number of held-back bytes.
    fn held_count(&self) -> usize
        ensures { result ≡ length (Self.state self.now).held };

    /// Returns the number of its mode.
    fn mode_number(&self) -> u8
        ensures { result ≡ grammar_mode (Self.state self.now).grammar };
}

impl HeldDecoder for SingleByteDecoder<'_> {
    fn held_count(&self) -> usize {
        SingleByteDecoder::held_count(self)
    }

    fn mode_number(&self) -> u8 {
        0
    }
}

impl HeldDecoder for Gb18030Decoder<'_> {
    fn held_count(&self) -> usize {
        Gb18030Decoder::held_count(self)
    }

    fn mode_number(&self) -> u8 {
        0
    }
}

impl HeldDecoder for EucJpDecoder<'_> {
    fn held_count(&self) -> usize {
        EucJpDecoder::held_count(self)
    }

    fn mode_number(&self) -> u8 {
        0
    }
}

impl HeldDecoder for Utf16Decoder {
    fn held_count(&self) -> usize {
        Utf16Decoder::held_count(self)
    }

    fn mode_number(&self) -> u8 {
        0
    }
}

impl HeldDecoder for UserDefinedDecoder {
    fn held_count(&self) -> usize {
        UserDefinedDecoder::held_count(self)
    }

    fn mode_number(&self) -> u8 {
        0
    }
}

impl<'a, C: LeadCodec> HeldDecoder for LeadDecoder<'a, C> {
    fn held_count(&self) -> usize {
        LeadDecoder::held_count(self)
    }

    #[tactic(auto, using(crate::proofs::SavedStates::mode_zero))]
    fn mode_number(&self) -> u8 {
        0
    }
}

impl HeldDecoder for Iso2022JpDecoder<'_> {
    fn held_count(&self) -> usize {
        Iso2022JpDecoder::held_count(self)
    }

    fn mode_number(&self) -> u8 {
        match self.mode() {
            DecoderMode::Ascii => 0,
            DecoderMode::Roman => 1,
            DecoderMode::Katakana => 2,
            DecoderMode::TwoByte => 3,
        }
    }
}

impl HeldDecoder for ReplacementDecoder {
    fn held_count(&self) -> usize {
        ReplacementDecoder::held_count(self)
    }

    fn mode_number(&self) -> u8 {
        u8::from(self.has_reported())
    }
}
