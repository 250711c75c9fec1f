//! An encoder that continues from a mode.
ghost use Rattle.std.specs.Prelude.{◌≡◌};
ghost use Rattle.legacy_japanese.specs.Iso2022JpEncoder.{state_in};

use super::{EncoderBy, Iso2022JpEncoder, TablePairs};
use legacy_base::{EncoderMode, Tables};

impl<'a> EncoderBy<TablePairs<'a>> {
    /// Returns an encoder that is in the mode.
    pub fn resume(tables: &'a Tables<'a>, mode: EncoderMode) -> Iso2022JpEncoder<'a>
        ensures { state_in result.pairs.tables.now.flat result.mode ≡ state_in tables.now.flat mode }
    {
        let mut encoder = Iso2022JpEncoder::new(tables);
        encoder.mode = mode;
        encoder
    }
}

impl<P> EncoderBy<P> {
    /// Returns the encoder's mode.
    #[inline]
    pub fn mode(&self) -> EncoderMode
        ensures { result ≡ self.now.mode }
    {
        self.mode
    }
}
