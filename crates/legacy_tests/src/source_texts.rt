//! Texts in UTF-8 and in UTF-16: calls and runs of encoders from either.
// The promises of a call stay inside these functions: their callers do not state them, and are fast to prove.
use crate::called::{Called, raw, replacing};
use legacy_base::EncoderResult::{InputEmpty, OutputFull};
use legacy_base::{EncoderResult, RawEncoder};
use legacy_codecs::{
    EncodeRun, RunError, encode_replacing_utf8, encode_replacing_utf16, encode_run_utf8,
    encode_run_utf16,
};
use std::alloc::Global;

/// A text in UTF-8 or in UTF-16.
#[derive(Clone, Copy)]
pub(crate) enum Text<'a> {
    Utf8(&'a str),
    Utf16(&'a [u16]),
}

impl Text<'_> {
    pub(crate) fn form(self) -> &'static str {
        match self {
            Text::Utf8(_) => "from UTF-8",
            Text::Utf16(_) => "from UTF-16",
        }
    }

    /// Returns the number of bytes or of code units.
    pub(crate) fn len(self) -> usize {
        match self {
            Text::Utf8(text) => text.len(),
            Text::Utf16(units) => units.len(),
        }
    }

    /// Makes a call, with references if `replaces` is set.
    ///
    /// Returns its result, the numbers of units read and of bytes written, and whether a reference was written.
    pub(crate) fn encode<E: RawEncoder>(
        self,
        encoder: &mut E,
        output: &mut [u8],
        last: bool,
        replaces: bool,
    ) -> Called<EncoderResult> {
        match (self, replaces) {
            (Text::Utf8(text), false) => raw(encoder.encode_from_utf8_raw(text, output, last)),
            (Text::Utf16(units), false) => {
                raw(encoder.encode_from_utf16_raw(units, output, last))
            }
            (Text::Utf8(text), true) => {
                let call = encode_replacing_utf8(encoder, text, output, last);
                replacing(call, InputEmpty, OutputFull)
            }
            (Text::Utf16(units), true) => {
                let call = encode_replacing_utf16(encoder, units, output, last);
                replacing(call, InputEmpty, OutputFull)
            }
        }
    }
}

/// Pieces of a text in UTF-8 or in UTF-16.
#[derive(Clone, Copy)]
pub(crate) enum TextPieces<'a, 'b> {
    Utf8(&'a [&'b str]),
    Utf16(&'a [&'b [u16]]),
}

impl TextPieces<'_, '_> {
    pub(crate) fn form(self) -> &'static str {
        match self {
            TextPieces::Utf8(_) => "from UTF-8",
            TextPieces::Utf16(_) => "from UTF-16",
        }
    }

    /// Makes a run over the pieces.
    pub(crate) fn run<E: RawEncoder>(
        self,
        alloc: Global,
        encoder: &mut E,
        lengths: &[usize],
    ) -> Result<EncodeRun, RunError> {
        match self {
            TextPieces::Utf8(texts) => encode_run_utf8(alloc, encoder, texts, lengths),
            TextPieces::Utf16(texts) => encode_run_utf16(alloc, encoder, texts, lengths),
        }
    }
}
