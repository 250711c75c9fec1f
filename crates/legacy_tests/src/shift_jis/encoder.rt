//! The encoder of Shift_JIS.
use crate::encode_events::Wanted::{Bytes, Report};
use crate::encoder_rows::EncoderRow;
use crate::encoder_rows::EncoderRow::{Encoder, Encodes, FromUtf8, Full};
use crate::indexes::{Flat, flat};
use legacy_base::EncoderResult::InputEmpty;

pub(crate) const WITHOUT_ENTRIES: &[EncoderRow] = &[
    Encoder("U+0080, the yen sign, the overline and half-width katakana are one byte"),
    Encodes("\u{80}\u{FF9F}", &[Bytes(b"\x80\xDF")]),
    Encodes("\u{A5}\u{203E}\u{FF61}", &[Bytes(b"\x5C\x7E\xA1")]),
    Encoder("a scalar past ASCII needs two bytes"),
    Full("\u{80}", 1),
    FromUtf8("\u{80}", 2, true, InputEmpty, 2, b"\x80"),
];

pub(crate) const WITH_ENTRIES: &[EncoderRow] = &[
    Encoder("the minus sign is written as U+FF0D"),
    Encodes("\u{2212}\u{FF0D}", &[Bytes(b"\x81\x7C\x81\x7C")]),
    Encoder("a pointer of the range that has duplicates is not written"),
    Encodes("\u{FF02}", &[Bytes(b"\xFA\x57")]),
];

pub(crate) const ONLY_THERE: &[EncoderRow] = &[
    Encoder("a scalar that has no other pointer has no bytes"),
    Encodes("\u{FF02}", &[Report('\u{FF02}')]),
];

/// U+FF0D, and U+FF02 at two pointers of which the second is used.
pub(crate) const SECOND_OF_TWO: &Flat =
    &flat!(jis0208: (11280, &[(60, 0xFF0D), (8647, 0xFF02), (10739, 0xFF02)]));

pub(crate) const A_DUPLICATE: &Flat = &flat!(jis0208: (11280, &[(8647, 0xFF02)]));
