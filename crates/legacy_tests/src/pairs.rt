//! Rows that several encoders of pairs share.
use crate::encode_events::Wanted::{Bytes, Report};
use crate::encoder_rows::EncoderRow;
use crate::encoder_rows::EncoderRow::{
    Encoder, Encodes, FromUtf8, Full, ReplacedFromUtf8, Utf8Length, Utf16Length,
};
use legacy_base::EncoderResult::{InputEmpty, Unmappable};

/// The rows of Big5, EUC-JP, EUC-KR and Shift_JIS without entries.
pub(crate) const WITHOUT_ENTRIES: &[EncoderRow] = &[
    Encoder("without entries only ASCII has bytes"),
    Encodes("a\u{4E00}", &[Bytes(b"a"), Report('\u{4E00}')]),
    Encoder("a scalar past ASCII needs two bytes"),
    Full("\u{4E00}", 1),
    FromUtf8("\u{4E00}", 2, true, Unmappable('\u{4E00}'), 3, b""),
    Encoder("the lengths are one byte more than those of UTF-8, and twice those of UTF-16"),
    Utf8Length(5, Some(6)),
    Utf8Length(usize::MAX, None),
    Utf16Length(5, Some(10)),
    Utf16Length(usize::MAX / 2 + 1, None),
    Encoder("with nothing left to do an output without room for a reference is not full"),
    ReplacedFromUtf8("", 5, true, InputEmpty, 0, b"", false),
    ReplacedFromUtf8("\u{1F4A9}", 12, true, InputEmpty, 4, b"&#128169;", true),
];

/// The rows of EUC-JP and Shift_JIS without entries.
pub(crate) const JAPANESE: &[EncoderRow] = &[
    Encoder("the minus sign is that of the index, which lacks it"),
    Encodes("\u{2212}", &[Report('\u{2212}')]),
    Encoder("the yen sign needs two bytes"),
    Full("\u{A5}", 1),
    FromUtf8("\u{A5}", 2, true, InputEmpty, 2, b"\x5C"),
];
