//! The encodings of the Standard that this crate lists: their names, codecs and index files.
ghost use Rattle.std.specs.Prelude.{◌≡◌, ◌↔◌, Some, find, bytes_eq};
ghost use Rattle.std.specs.Option.{option_map};
ghost use Rattle.legacy_index_files.specs.Encodings.{encoding_name, codec_of, indexes_of};
ghost use Rattle.legacy_index_files.specs.Encodings.{encoder_indexes_of};
ghost use Rattle.legacy_index_files.specs.Encodings.{single_byte_file, file_name_of};

use crate::codec::Codec;
use crate::index_file::{EncoderIndex, FileIndex};

/// An encoding of the Standard ("Names and labels"), except UTF-8.
#[derive(Clone, Copy, Debug, PartialEq, Eq)]
pub enum Encoding {
    /// `IBM866`
    Ibm866,
    /// `ISO-8859-2`
    Iso8859_2,
    /// `ISO-8859-3`
    Iso8859_3,
    /// `ISO-8859-4`
    Iso8859_4,
    /// `ISO-8859-5`
    Iso8859_5,
    /// `ISO-8859-6`
    Iso8859_6,
    /// `ISO-8859-7`
    Iso8859_7,
    /// `ISO-8859-8`
    Iso8859_8,
    /// `ISO-8859-8-I`
    Iso8859_8I,
    /// `ISO-8859-10`
    Iso8859_10,
    /// `ISO-8859-13`
    Iso8859_13,
    /// `ISO-8859-14`
    Iso8859_14,
    /// `ISO-8859-15`
    Iso8859_15,
    /// `ISO-8859-16`
    Iso8859_16,
    /// `KOI8-R`
    Koi8R,
    /// `KOI8-U`
    Koi8U,
    /// `macintosh`
    Macintosh,
    /// `windows-874`
    Windows874,
    /// `windows-1250`
    Windows1250,
    /// `windows-1251`
    Windows1251,
    /// `windows-1252`
    Windows1252,
    /// `windows-1253`
    Windows1253,
    /// `windows-1254`
    Windows1254,
    /// `windows-1255`
    Windows1255,
    /// `windows-1256`
    Windows1256,
    /// `windows-1257`
    Windows1257,
    /// `windows-1258`
    Windows1258,
    /// `x-mac-cyrillic`
    MacCyrillic,
    /// `GBK`
    Gbk,
    /// `gb18030`
    Gb18030,
    /// `Big5`
    Big5,
    /// `EUC-JP`
    EucJp,
    /// `ISO-2022-JP`
    Iso2022Jp,
    /// `Shift_JIS`
    ShiftJis,
    /// `EUC-KR`
    EucKr,
    /// `replacement`
    Replacement,
    /// `UTF-16BE`
    Utf16Be,
    /// `UTF-16LE`
    Utf16Le,
    /// `x-user-defined`
    UserDefined,
}

/// All encodings: single-byte, then multi-byte Chinese, Japanese and Korean, then miscellaneous.
pub const ENCODINGS: [Encoding; 39] = [
    Encoding::Ibm866,
    Encoding::Iso8859_2,
    Encoding::Iso8859_3,
    Encoding::Iso8859_4,
    Encoding::Iso8859_5,
    Encoding::Iso8859_6,
    Encoding::Iso8859_7,
    Encoding::Iso8859_8,
    Encoding::Iso8859_8I,
    Encoding::Iso8859_10,
    Encoding::Iso8859_13,
    Encoding::Iso8859_14,
    Encoding::Iso8859_15,
    Encoding::Iso8859_16,
    Encoding::Koi8R,
    Encoding::Koi8U,
    Encoding::Macintosh,
    Encoding::Windows874,
    Encoding::Windows1250,
    Encoding::Windows1251,
    Encoding::Windows1252,
    Encoding::Windows1253,
    Encoding::Windows1254,
    Encoding::Windows1255,
    Encoding::Windows1256,
    Encoding::Windows1257,
    Encoding::Windows1258,
    Encoding::MacCyrillic,
    Encoding::Gbk,
    Encoding::Gb18030,
    Encoding::Big5,
    Encoding::EucJp,
    Encoding::Iso2022Jp,
    Encoding::ShiftJis,
    Encoding::EucKr,
    Encoding::Replacement,
    Encoding::Utf16Be,
    Encoding::Utf16Le,
    Encoding::UserDefined,
];

/// Checks whether the encoding has this name.
fn has_name(encoding: &Encoding, name: &str) -> bool
    ensures { result ≡ bytes_eq (encoding_name encoding.now) name.now }
{
    encoding.name() == name
}

/// Returns the first encoding with this name.
fn first_named(name: &str) -> Option<Encoding>
    ensures { result ≡ find (λ e. bytes_eq (encoding_name e) name.now) ENCODINGS }
{
    ENCODINGS
        .iter()
        .copied()
        .find(|encoding| has_name(encoding, name))
}

impl Encoding {
    /// Returns the encoding with this name, or `None`.
    ///
    /// Names are compared byte for byte. Labels are not names: the Standard's table ("Names and
    /// labels") maps labels to names.
    pub fn by_name(name: &str) -> Option<Encoding>
        ensures { (encoding : Encoding) →
            (result ≡ Some encoding) ↔ (encoding_name encoding ≡ name.now) }
    {
        first_named(name)
    }

    /// Returns the encoding's name ("Names and labels").
    pub fn name(self) -> &'static str
        ensures { result.now ≡ encoding_name self }
    {
        match self {
            Encoding::Gbk => "GBK",
            Encoding::Gb18030 => "gb18030",
            Encoding::Big5 => "Big5",
            Encoding::EucJp => "EUC-JP",
            Encoding::Iso2022Jp => "ISO-2022-JP",
            Encoding::ShiftJis => "Shift_JIS",
            Encoding::EucKr => "EUC-KR",
            Encoding::Replacement => "replacement",
            Encoding::Utf16Be => "UTF-16BE",
            Encoding::Utf16Le => "UTF-16LE",
            Encoding::UserDefined => "x-user-defined",
            _ => self.single_byte_name(),
        }
    }

    /// Returns the name of a single-byte encoding.
    fn single_byte_name(self) -> &'static str
        ensures { codec_of self ≡ Codec.SingleByte → result.now ≡ encoding_name self }
    {
        match self {
            Encoding::Ibm866 => "IBM866",
            Encoding::Iso8859_2 => "ISO-8859-2",
            Encoding::Iso8859_3 => "ISO-8859-3",
            Encoding::Iso8859_4 => "ISO-8859-4",
            Encoding::Iso8859_5 => "ISO-8859-5",
            Encoding::Iso8859_6 => "ISO-8859-6",
            Encoding::Iso8859_7 => "ISO-8859-7",
            Encoding::Iso8859_8 => "ISO-8859-8",
            Encoding::Iso8859_8I => "ISO-8859-8-I",
            Encoding::Iso8859_10 => "ISO-8859-10",
            Encoding::Iso8859_13 => "ISO-8859-13",
            Encoding::Iso8859_14 => "ISO-8859-14",
            Encoding::Iso8859_15 => "ISO-8859-15",
            Encoding::Iso8859_16 => "ISO-8859-16",
            Encoding::Koi8R => "KOI8-R",
            Encoding::Koi8U => "KOI8-U",
            Encoding::Macintosh => "macintosh",
            Encoding::Windows874 => "windows-874",
            Encoding::Windows1250 => "windows-1250",
            Encoding::Windows1251 => "windows-1251",
            Encoding::Windows1252 => "windows-1252",
            Encoding::Windows1253 => "windows-1253",
            Encoding::Windows1254 => "windows-1254",
            Encoding::Windows1255 => "windows-1255",
            Encoding::Windows1256 => "windows-1256",
            Encoding::Windows1257 => "windows-1257",
            Encoding::Windows1258 => "windows-1258",
            Encoding::MacCyrillic => "x-mac-cyrillic",
            _ => "",
        }
    }

    /// Returns the encoding's codec.
    pub fn codec(self) -> Codec
        ensures { result ≡ codec_of self }
    {
        match self {
            Encoding::Gbk => Codec::Gbk,
            Encoding::Gb18030 => Codec::Gb18030,
            Encoding::Big5 => Codec::Big5,
            Encoding::EucJp => Codec::EucJp,
            Encoding::Iso2022Jp => Codec::Iso2022Jp,
            Encoding::ShiftJis => Codec::ShiftJis,
            Encoding::EucKr => Codec::EucKr,
            Encoding::Replacement => Codec::Replacement,
            Encoding::Utf16Be => Codec::Utf16Be,
            Encoding::Utf16Le => Codec::Utf16Le,
            Encoding::UserDefined => Codec::UserDefined,
            _ => Codec::SingleByte,
        }
    }

    /// Returns the indexes that the encoding's decoder uses.
    ///
    /// There are none for replacement, UTF-16 and x-user-defined.
    pub fn indexes(self) -> &'static [FileIndex]
        ensures { result.now ≡ indexes_of (codec_of self) }
    {
        match self.codec() {
            Codec::SingleByte => &[FileIndex::SingleByte],
            Codec::Gbk | Codec::Gb18030 => &[FileIndex::Gb18030, FileIndex::Ranges],
            Codec::Big5 => &[FileIndex::Big5],
            Codec::EucJp => &[FileIndex::Jis0208, FileIndex::Jis0212],
            Codec::Iso2022Jp | Codec::ShiftJis => &[FileIndex::Jis0208],
            Codec::EucKr => &[FileIndex::EucKr],
            Codec::Replacement | Codec::Utf16Be | Codec::Utf16Le | Codec::UserDefined => &[],
        }
    }

    /// Returns the indexes that the encoding's encoder uses.
    ///
    /// These are the indexes of its decoder, but for three encodings: EUC-JP's encoder does not use
    /// index jis0212, GBK's does not use the ranges, and that of ISO-2022-JP also uses index
    /// ISO-2022-JP katakana. There are none for x-user-defined, nor for replacement and UTF-16,
    /// which have no encoder.
    pub fn encoder_indexes(self) -> &'static [EncoderIndex]
        ensures { result.now ≡ encoder_indexes_of (codec_of self) }
    {
        match self.codec() {
            Codec::SingleByte => &[EncoderIndex::Of(FileIndex::SingleByte)],
            Codec::Gbk => &[EncoderIndex::Of(FileIndex::Gb18030)],
            Codec::Gb18030 => {
                &[
                    EncoderIndex::Of(FileIndex::Gb18030),
                    EncoderIndex::Of(FileIndex::Ranges),
                ]
            }
            Codec::Big5 => &[EncoderIndex::Of(FileIndex::Big5)],
            Codec::Iso2022Jp => { &[EncoderIndex::Of(FileIndex::Jis0208), EncoderIndex::Katakana] }
            Codec::EucJp | Codec::ShiftJis => &[EncoderIndex::Of(FileIndex::Jis0208)],
            Codec::EucKr => &[EncoderIndex::Of(FileIndex::EucKr)],
            Codec::Replacement | Codec::Utf16Be | Codec::Utf16Le | Codec::UserDefined => &[],
        }
    }

    /// Returns the name of the file that the Standard publishes for an index of the encoding.
    ///
    /// The file is at `https://encoding.spec.whatwg.org/` followed by the name. Returns `None`
    /// exactly if the index is `FileIndex::SingleByte` and the encoding is not a single-byte
    /// encoding.
    pub fn file_name(self, index: FileIndex) -> Option<&'static str>
        ensures { option_map (λ name. name.now) result ≡ file_name_of self index }
    {
        match index {
            FileIndex::Big5 => Some("index-big5.txt"),
            FileIndex::EucKr => Some("index-euc-kr.txt"),
            FileIndex::Jis0208 => Some("index-jis0208.txt"),
            FileIndex::Jis0212 => Some("index-jis0212.txt"),
            FileIndex::Gb18030 => Some("index-gb18030.txt"),
            FileIndex::Ranges => Some("index-gb18030-ranges.txt"),
            FileIndex::SingleByte => self.single_byte_file(),
        }
    }

    /// Returns the file name of a single-byte encoding; ISO-8859-8-I has that of ISO-8859-8.
    fn single_byte_file(self) -> Option<&'static str>
        ensures { option_map (λ name. name.now) result ≡ single_byte_file self }
    {
        match self {
            Encoding::Ibm866 => Some("index-ibm866.txt"),
            Encoding::Iso8859_2 => Some("index-iso-8859-2.txt"),
            Encoding::Iso8859_3 => Some("index-iso-8859-3.txt"),
            Encoding::Iso8859_4 => Some("index-iso-8859-4.txt"),
            Encoding::Iso8859_5 => Some("index-iso-8859-5.txt"),
            Encoding::Iso8859_6 => Some("index-iso-8859-6.txt"),
            Encoding::Iso8859_7 => Some("index-iso-8859-7.txt"),
            Encoding::Iso8859_8 | Encoding::Iso8859_8I => Some("index-iso-8859-8.txt"),
            Encoding::Iso8859_10 => Some("index-iso-8859-10.txt"),
            Encoding::Iso8859_13 => Some("index-iso-8859-13.txt"),
            Encoding::Iso8859_14 => Some("index-iso-8859-14.txt"),
            Encoding::Iso8859_15 => Some("index-iso-8859-15.txt"),
            Encoding::Iso8859_16 => Some("index-iso-8859-16.txt"),
            Encoding::Koi8R => Some("index-koi8-r.txt"),
            Encoding::Koi8U => Some("index-koi8-u.txt"),
            Encoding::Macintosh => Some("index-macintosh.txt"),
            Encoding::Windows874 => Some("index-windows-874.txt"),
            Encoding::Windows1250 => Some("index-windows-1250.txt"),
            Encoding::Windows1251 => Some("index-windows-1251.txt"),
            Encoding::Windows1252 => Some("index-windows-1252.txt"),
            Encoding::Windows1253 => Some("index-windows-1253.txt"),
            Encoding::Windows1254 => Some("index-windows-1254.txt"),
            Encoding::Windows1255 => Some("index-windows-1255.txt"),
            Encoding::Windows1256 => Some("index-windows-1256.txt"),
            Encoding::Windows1257 => Some("index-windows-1257.txt"),
            Encoding::Windows1258 => Some("index-windows-1258.txt"),
            Encoding::MacCyrillic => Some("index-x-mac-cyrillic.txt"),
            _ => None,
        }
    }
}
