//! The mode of an encoder, as a number.
ghost use Rattle.std.specs.Prelude.{◌≡◌, false};
ghost use Rattle.legacy_c.specs.SavedEncoder.{encoder_mode_number, has_modes};

use legacy_base::{EncoderMode, RawEncoder};
use legacy_chinese::Gb18030Encoder;
use legacy_encoder_engine::pair_encoder::{PairCodec, PairEncoder};
use legacy_japanese::Iso2022JpEncoder;
use legacy_miscellaneous::UserDefinedEncoder;
use legacy_single_byte::SingleByteEncoder;

/// An encoder whose state can be kept as numbers.
pub trait KeptEncoder: RawEncoder {
    /// Returns the number of its mode, which is 0 if its codec has none.
    fn mode_number(&self) -> u8
        ensures number { result ≡ encoder_mode_number (Self.state self.now).mode }
        ensures plain { has_modes (Self.state self.now).codec ≡ false → result ≡ 0 };
}

impl KeptEncoder for SingleByteEncoder<'_> {
    fn mode_number(&self) -> u8 {
        0
    }
}

impl KeptEncoder for Gb18030Encoder<'_> {
    fn mode_number(&self) -> u8 {
        0
    }
}

impl<'a, C: PairCodec> KeptEncoder for PairEncoder<'a, C> {
    fn mode_number(&self) -> u8 {
        0
    }
}

impl KeptEncoder for UserDefinedEncoder {
    fn mode_number(&self) -> u8 {
        0
    }
}

impl KeptEncoder for Iso2022JpEncoder<'_> {
    fn mode_number(&self) -> u8 {
        match self.mode() {
            EncoderMode::Ascii => 0,
            EncoderMode::Roman => 1,
            EncoderMode::TwoByte => 2,
        }
    }
}
