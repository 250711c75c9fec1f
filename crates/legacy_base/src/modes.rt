//! The modes of ISO-2022-JP (Encoding Standard, "ISO-2022-JP").
ghost use Rattle.std.specs.Prelude.{◌≡◌};
ghost use Rattle.legacy_base.specs.EncoderProfile.{differs};

/// The mode of a decoder: how it reads the bytes after an escape.
#[derive(Clone, Copy)]
pub enum DecoderMode {
    Ascii,
    Roman,
    Katakana,
    TwoByte,
}

/// The mode of an encoder: how the bytes after its last escape are read.
///
/// Encoders of other encodings stay in ASCII mode.
#[derive(Clone, Copy)]
pub enum EncoderMode {
    Ascii,
    Roman,
    TwoByte,
}

impl EncoderMode {
    /// Checks whether this is another mode.
    #[inline]
    pub fn differs(self, other: EncoderMode) -> bool
        ensures { result ≡ differs self other }
    {
        self as u8 != other as u8
    }
}
