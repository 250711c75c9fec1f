//! The encoder of EUC-JP.
use crate::encode_events::Wanted::{Bytes, Report};
use crate::encoder_rows::EncoderRow;
use crate::encoder_rows::EncoderRow::{Encoder, Encodes};
use crate::indexes::{Flat, flat};

pub(crate) const WITHOUT_ENTRIES: &[EncoderRow] = &[
    Encoder("half-width katakana have two bytes, the yen sign and the overline one"),
    Encodes("\u{FF61}\u{203E}", &[Bytes(b"\x8E\xA1\x7E")]),
    Encodes("\u{A5}\u{FF9F}", &[Bytes(b"\x5C\x8E\xDF")]),
];

pub(crate) const WITH_ENTRIES: &[EncoderRow] = &[
    Encoder("the minus sign is written as U+FF0D"),
    Encodes("\u{2212}", &[Bytes(b"\xA1\xDD")]),
    Encoder("of two pointers the first is written"),
    Encodes("\u{FF02}", &[Bytes(b"\xFC\xFE")]),
    Encoder("pointers from 8836 on are not written"),
    Encodes("\u{3001}", &[Report('\u{3001}')]),
];

/// U+FF0D, U+FF02 at two pointers of which the first is used, and U+3001 at one that never is.
pub(crate) const FIRST_OF_TWO: &Flat =
    &flat!(jis0208: (10740, &[(60, 0xFF0D), (8647, 0xFF02), (10738, 0x3001), (10739, 0xFF02)]));
