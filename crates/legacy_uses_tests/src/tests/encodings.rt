//! Compares the encodings with rows of the Standard.
use crate::tests::compared::holds;
use crate::tests::words::words_in;
use legacy_index_files::{Codec, ENCODINGS, EncoderIndex, Encoding, FileIndex};
use std::alloc::Global;

/// Returns the codec of the encoding with this name.
fn codec_of(name: &str) -> Option<Codec> {
    Some(Encoding::by_name(name)?.codec())
}

/// Returns the name of the file that the encoding with this name has for this index.
fn file_name_of(name: &str, index: FileIndex) -> Option<Option<&'static str>> {
    Some(Encoding::by_name(name)?.file_name(index))
}

/// A name, and the codec of the encoding with that name, if there is one.
type Name<'a> = (&'a str, Option<Codec>);

const NAMES: &[Name] = &[
    ("IBM866", Some(Codec::SingleByte)),
    ("ISO-8859-8-I", Some(Codec::SingleByte)),
    ("x-mac-cyrillic", Some(Codec::SingleByte)),
    ("GBK", Some(Codec::Gbk)),
    ("gb18030", Some(Codec::Gb18030)),
    ("Big5", Some(Codec::Big5)),
    ("EUC-JP", Some(Codec::EucJp)),
    ("ISO-2022-JP", Some(Codec::Iso2022Jp)),
    ("Shift_JIS", Some(Codec::ShiftJis)),
    ("EUC-KR", Some(Codec::EucKr)),
    ("replacement", Some(Codec::Replacement)),
    ("UTF-16BE", Some(Codec::Utf16Be)),
    ("UTF-16LE", Some(Codec::Utf16Le)),
    ("x-user-defined", Some(Codec::UserDefined)),
    ("windows-1259", None),
    ("gbk", None),
];

#[test]
fn encodings_are_known_by_their_names(rt: HostRuntime) {
    for (name, codec) in NAMES {
        holds(&rt, *name, codec_of(*name) == *codec);
    }
}

/// The name of an encoding, an index, and the name of its file, if the encoding has one for it.
type File<'a> = (&'a str, FileIndex, Option<&'a str>);

const FILES: &[File] = &[
    (
        "ISO-8859-8-I",
        FileIndex::SingleByte,
        Some("index-iso-8859-8.txt"),
    ),
    (
        "windows-1252",
        FileIndex::SingleByte,
        Some("index-windows-1252.txt"),
    ),
    ("KOI8-U", FileIndex::SingleByte, Some("index-koi8-u.txt")),
    ("EUC-JP", FileIndex::Jis0212, Some("index-jis0212.txt")),
    ("GBK", FileIndex::Ranges, Some("index-gb18030-ranges.txt")),
    ("Shift_JIS", FileIndex::SingleByte, None),
    ("Big5", FileIndex::Big5, Some("index-big5.txt")),
];

#[test]
fn index_files_have_their_published_names(rt: HostRuntime) {
    for (name, index, file) in FILES {
        holds(&rt, *name, file_name_of(*name, *index) == Some(*file));
    }
    holds(&rt, "single-byte encodings", single_byte_count() == 28);
}

/// Returns the number of single-byte encodings.
fn single_byte_count() -> usize {
    ENCODINGS
        .iter()
        .filter(|encoding| encoding.codec() == Codec::SingleByte)
        .count()
}

/// The name of an encoding, and the indexes that its encoder looks up.
type Encoders<'a> = (&'a str, &'a [EncoderIndex]);

const ENCODERS: &[Encoders] = &[
    (
        "ISO-2022-JP",
        &[EncoderIndex::Of(FileIndex::Jis0208), EncoderIndex::Katakana],
    ),
    ("Shift_JIS", &[EncoderIndex::Of(FileIndex::Jis0208)]),
    // Only EUC-JP's decoder uses index jis0212.
    ("EUC-JP", &[EncoderIndex::Of(FileIndex::Jis0208)]),
    // GBK's encoder writes no sequence of four bytes.
    ("GBK", &[EncoderIndex::Of(FileIndex::Gb18030)]),
    (
        "gb18030",
        &[
            EncoderIndex::Of(FileIndex::Gb18030),
            EncoderIndex::Of(FileIndex::Ranges),
        ],
    ),
    ("UTF-16LE", &[]),
];

/// Returns the indexes of the encoder of the encoding with this name.
fn encoder_indexes_of(name: &str) -> Option<&'static [EncoderIndex]> {
    Some(Encoding::by_name(name)?.encoder_indexes())
}

#[test]
fn encoders_look_up_their_own_indexes(rt: HostRuntime) {
    for (name, indexes) in ENCODERS {
        holds(&rt, *name, encoder_indexes_of(*name) == Some(*indexes));
    }
}

/// An encoding, and its labels.
type Labelled<'a> = (Encoding, &'a str);

/// The table "Names and labels" of the Standard, without UTF-8.
const LABELLED: &[Labelled] = &[
    (Encoding::Ibm866, "866 cp866 csibm866 ibm866"),
    (
        Encoding::Iso8859_2,
        "csisolatin2 iso-8859-2 iso-ir-101 iso8859-2 iso88592 iso_8859-2 iso_8859-2:1987 l2 latin2",
    ),
    (
        Encoding::Iso8859_3,
        "csisolatin3 iso-8859-3 iso-ir-109 iso8859-3 iso88593 iso_8859-3 iso_8859-3:1988 l3 latin3",
    ),
    (
        Encoding::Iso8859_4,
        "csisolatin4 iso-8859-4 iso-ir-110 iso8859-4 iso88594 iso_8859-4 iso_8859-4:1988 l4 latin4",
    ),
    (
        Encoding::Iso8859_5,
        "csisolatincyrillic cyrillic iso-8859-5 iso-ir-144 iso8859-5 iso88595 iso_8859-5 iso_8859-5:1988",
    ),
    (
        Encoding::Iso8859_6,
        "arabic asmo-708 csiso88596e csiso88596i csisolatinarabic ecma-114 iso-8859-6 iso-8859-6-e iso-8859-6-i iso-ir-127 iso8859-6 iso88596 iso_8859-6 iso_8859-6:1987",
    ),
    (
        Encoding::Iso8859_7,
        "csisolatingreek ecma-118 elot_928 greek greek8 iso-8859-7 iso-ir-126 iso8859-7 iso88597 iso_8859-7 iso_8859-7:1987 sun_eu_greek",
    ),
    (
        Encoding::Iso8859_8,
        "csiso88598e csisolatinhebrew hebrew iso-8859-8 iso-8859-8-e iso-ir-138 iso8859-8 iso88598 iso_8859-8 iso_8859-8:1988 visual",
    ),
    (Encoding::Iso8859_8I, "csiso88598i iso-8859-8-i logical"),
    (
        Encoding::Iso8859_10,
        "csisolatin6 iso-8859-10 iso-ir-157 iso8859-10 iso885910 l6 latin6",
    ),
    (Encoding::Iso8859_13, "iso-8859-13 iso8859-13 iso885913"),
    (Encoding::Iso8859_14, "iso-8859-14 iso8859-14 iso885914"),
    (
        Encoding::Iso8859_15,
        "csisolatin9 iso-8859-15 iso8859-15 iso885915 iso_8859-15 l9",
    ),
    (Encoding::Iso8859_16, "iso-8859-16"),
    (Encoding::Koi8R, "cskoi8r koi koi8 koi8-r koi8_r"),
    (Encoding::Koi8U, "koi8-ru koi8-u"),
    (Encoding::Macintosh, "csmacintosh mac macintosh x-mac-roman"),
    (
        Encoding::Windows874,
        "dos-874 iso-8859-11 iso8859-11 iso885911 tis-620 windows-874",
    ),
    (Encoding::Windows1250, "cp1250 windows-1250 x-cp1250"),
    (Encoding::Windows1251, "cp1251 windows-1251 x-cp1251"),
    (
        Encoding::Windows1252,
        "ansi_x3.4-1968 ascii cp1252 cp819 csisolatin1 ibm819 iso-8859-1 iso-ir-100 iso8859-1 iso88591 iso_8859-1 iso_8859-1:1987 l1 latin1 us-ascii windows-1252 x-cp1252",
    ),
    (Encoding::Windows1253, "cp1253 windows-1253 x-cp1253"),
    (
        Encoding::Windows1254,
        "cp1254 csisolatin5 iso-8859-9 iso-ir-148 iso8859-9 iso88599 iso_8859-9 iso_8859-9:1989 l5 latin5 windows-1254 x-cp1254",
    ),
    (Encoding::Windows1255, "cp1255 windows-1255 x-cp1255"),
    (Encoding::Windows1256, "cp1256 windows-1256 x-cp1256"),
    (Encoding::Windows1257, "cp1257 windows-1257 x-cp1257"),
    (Encoding::Windows1258, "cp1258 windows-1258 x-cp1258"),
    (Encoding::MacCyrillic, "x-mac-cyrillic x-mac-ukrainian"),
    (
        Encoding::Gbk,
        "chinese csgb2312 csiso58gb231280 gb2312 gb_2312 gb_2312-80 gbk iso-ir-58 x-gbk",
    ),
    (Encoding::Gb18030, "gb18030"),
    (Encoding::Big5, "big5 big5-hkscs cn-big5 csbig5 x-x-big5"),
    (Encoding::EucJp, "cseucpkdfmtjapanese euc-jp x-euc-jp"),
    (Encoding::Iso2022Jp, "csiso2022jp iso-2022-jp"),
    (
        Encoding::ShiftJis,
        "csshiftjis ms932 ms_kanji shift-jis shift_jis sjis windows-31j x-sjis",
    ),
    (
        Encoding::EucKr,
        "cseuckr csksc56011987 euc-kr iso-ir-149 korean ks_c_5601-1987 ks_c_5601-1989 ksc5601 ksc_5601 windows-949",
    ),
    (
        Encoding::Replacement,
        "csiso2022kr hz-gb-2312 iso-2022-cn iso-2022-cn-ext iso-2022-kr replacement",
    ),
    (Encoding::Utf16Be, "unicodefffe utf-16be"),
    (
        Encoding::Utf16Le,
        "csunicode iso-10646-ucs-2 ucs-2 unicode unicodefeff utf-16 utf-16le",
    ),
    (Encoding::UserDefined, "x-user-defined"),
];

/// Checks whether each of the labels names the encoding, as written, and counts them.
fn count_labels(alloc: Global, encoding: Encoding, labels: &str) -> Option<usize> {
    let words = words_in(alloc, labels)?;
    for label in words.as_slice() {
        if Encoding::for_label(*label) != Some(encoding) {
            return None;
        }
    }
    Some(words.len())
}

#[test]
fn each_label_of_the_standard_names_its_encoding(rt: HostRuntime) {
    let mut count = 0usize;
    for (encoding, labels) in LABELLED {
        match count_labels(rt.alloc(), *encoding, *labels) {
            Some(found) => count = count.saturating_add(found),
            None => holds(&rt, *labels, false),
        }
    }
    // Six of the 228 labels are those of UTF-8.
    holds(&rt, "222 labels", count == 222);
}

/// A text, and the encoding of which it is a label, if there is one.
type Label<'a> = (&'a str, Option<Encoding>);

const LABELS: &[Label] = &[
    ("\t\n\x0C\r Shift_JIS \t\n\x0C\r", Some(Encoding::ShiftJis)),
    ("SJIS", Some(Encoding::ShiftJis)),
    ("iSo-8859-1", Some(Encoding::Windows1252)),
    // Other spaces are not trimmed, and K has the Kelvin sign in no case of ASCII.
    ("\u{A0}sjis", None),
    ("\x0Bsjis", None),
    ("\u{212A}OI8-R", None),
    ("shift jis", None),
    ("", None),
    (" ", None),
    ("utf-8", None),
    ("unicode-1-1-utf-8", None),
    ("866 cp866", None),
];

#[test]
fn labels_are_trimmed_and_without_case(rt: HostRuntime) {
    for (label, encoding) in LABELS {
        holds(&rt, *label, Encoding::for_label(*label) == *encoding);
    }
}
