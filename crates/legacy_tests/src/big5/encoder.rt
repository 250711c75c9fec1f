//! The encoder of Big5.
use crate::encode_events::Wanted::{Bytes, Report};
use crate::encoder_rows::EncoderRow;
use crate::encoder_rows::EncoderRow::{Encoder, Encodes};
use crate::indexes::{Flat, flat};

pub(crate) const WITH_ENTRIES: &[EncoderRow] = &[
    Encoder("of U+2550 the last pointer is taken, and of U+2551 the first"),
    Encodes("\u{2550}", &[Bytes(b"\xF9\xF9")]),
    Encodes("\u{2551}", &[Bytes(b"\xA1\x40")]),
    Encoder("pointers below 5024 are not written"),
    Encodes("\u{3001}", &[Report('\u{3001}')]),
];

pub(crate) const FIRST_POINTERS: &[EncoderRow] = &[
    Encoder("the first pointer that is written is A1 40"),
    Encodes(
        "\u{3000}\u{3001}",
        &[Bytes(b"\xA1\x40"), Report('\u{3001}')],
    ),
];

/// U+2550 and U+2551 at two used pointers each, and U+3001 at a pointer that is never used.
pub(crate) const TWICE: &Flat =
    &flat!(big5: (18992, &[(5023, 0x3001), (5024, 0x2551), (5247, 0x2550), (18990, 0x2551), (18991, 0x2550)]));

/// U+3000 at the first pointer that is used, and U+3001 at the one before.
pub(crate) const FIRST: &Flat = &flat!(big5: (5025, &[(5023, 0x3001), (5024, 0x3000)]));
