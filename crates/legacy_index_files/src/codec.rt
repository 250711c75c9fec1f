//! The codecs of the Standard.
ghost use Rattle.std.specs.Prelude.{◌≡◌};
ghost use Rattle.legacy_index_files.specs.Encodings.{has_encoder};

/// A codec, which decodes and encodes an encoding.
#[derive(Clone, Copy, Debug, PartialEq, Eq)]
pub enum Codec {
    /// `SingleByteDecoder` and `SingleByteEncoder`, with the encoding's own table.
    SingleByte,
    /// `Gb18030Decoder`, and `Gb18030Encoder` without four-byte sequences.
    Gbk,
    /// `Gb18030Decoder`, and `Gb18030Encoder` with four-byte sequences.
    Gb18030,
    /// `Big5Decoder` and `Big5Encoder`.
    Big5,
    /// `EucJpDecoder` and `EucJpEncoder`.
    EucJp,
    /// `Iso2022JpDecoder` and `Iso2022JpEncoder`.
    Iso2022Jp,
    /// `ShiftJisDecoder` and `ShiftJisEncoder`.
    ShiftJis,
    /// `EucKrDecoder` and `EucKrEncoder`.
    EucKr,
    /// `ReplacementDecoder`. Its output encoding is UTF-8.
    Replacement,
    /// `Utf16Decoder` in big-endian byte order. Its output encoding is UTF-8.
    Utf16Be,
    /// `Utf16Decoder` in little-endian byte order. Its output encoding is UTF-8.
    Utf16Le,
    /// `UserDefinedDecoder` and `UserDefinedEncoder`.
    UserDefined,
}

impl Codec {
    /// Checks whether the codec has an encoder.
    ///
    /// The others' output encoding is UTF-8 ("get an output encoding").
    pub fn has_encoder(self) -> bool
        ensures { result ≡ has_encoder self }
    {
        !matches!(self, Codec::Replacement | Codec::Utf16Be | Codec::Utf16Le)
    }
}
