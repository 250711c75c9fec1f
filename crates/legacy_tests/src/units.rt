//! UTF-8 and UTF-16: calls and runs of decoders into either.
// The promises of a call stay inside these functions: their callers do not state them, and are fast to prove.
use crate::called::{raw, replacing};
use crate::events::Found;
use legacy_base::DecoderResult::{InputEmpty, OutputFull};
use legacy_base::{DecoderResult, RawDecoder};
use legacy_codecs::{
    DecodeRun, RunError, decode_replacing_utf8, decode_replacing_utf16, decode_run_utf8,
    decode_run_utf16,
};
use std::alloc::Global;

/// An encoding form that decoders write.
#[derive(Clone, Copy)]
pub(crate) enum Form {
    Utf8,
    Utf16,
}

impl Form {
    pub(crate) fn name(self) -> &'static str {
        match self {
            Form::Utf8 => "into UTF-8",
            Form::Utf16 => "into UTF-16",
        }
    }

    /// Makes a run over the pieces.
    pub(crate) fn run<D: RawDecoder>(
        self,
        alloc: Global,
        decoder: &mut D,
        pieces: &[&[u8]],
        lengths: &[usize],
    ) -> Result<DecodeRun, RunError> {
        match self {
            Form::Utf8 => decode_run_utf8(alloc, decoder, pieces, lengths),
            Form::Utf16 => decode_run_utf16(alloc, decoder, pieces, lengths),
        }
    }
}

/// Code units that a decoder wrote, or that a row wants.
#[derive(Clone, Copy, Debug, PartialEq)]
pub(crate) enum Units<'a> {
    Utf8(&'a [u8]),
    Utf16(&'a [u16]),
}

impl Units<'_> {
    pub(crate) fn form(self) -> Form {
        match self {
            Units::Utf8(_) => Form::Utf8,
            Units::Utf16(_) => Form::Utf16,
        }
    }
}

/// The greatest number of code units of an output.
const MOST: usize = 96;

/// An output in one form, with those of its 96 code units that are written.
#[derive(Drop)]
pub(crate) struct Output {
    form: Form,
    bytes: [u8; MOST],
    units: [u16; MOST],
    end: usize,
}

/// The bytes of a call, the number of free code units, and whether these bytes are the last.
pub(crate) type Call<'a> = (&'a [u8], usize, bool);

impl Output {
    pub(crate) fn new(form: Form) -> Output {
        Output {
            form,
            bytes: [0; MOST],
            units: [0; MOST],
            end: 0,
        }
    }

    /// Makes a call that writes after what is written, with replacement if `replaces` is set.
    ///
    /// Returns its result, the number of bytes read, and whether something was replaced.
    pub(crate) fn decode<D: RawDecoder>(
        &mut self,
        decoder: &mut D,
        (source, room, last): Call,
        replaces: bool,
    ) -> (DecoderResult, usize, bool) {
        let start = self.end.min(MOST);
        let stop = start.saturating_add(room).min(MOST);
        let (bytes, units) = (&mut self.bytes[start..stop], &mut self.units[start..stop]);
        let (answer, read, written, replaced) = match (self.form, replaces) {
            (Form::Utf8, false) => raw(decoder.decode_to_utf8_raw(source, bytes, last)),
            (Form::Utf16, false) => raw(decoder.decode_to_utf16_raw(source, units, last)),
            (Form::Utf8, true) => {
                let call = decode_replacing_utf8(decoder, source, bytes, last);
                replacing(call, InputEmpty, OutputFull)
            }
            (Form::Utf16, true) => {
                let call = decode_replacing_utf16(decoder, source, units, last);
                replacing(call, InputEmpty, OutputFull)
            }
        };
        self.end = start.saturating_add(written);
        (answer, read, replaced)
    }

    /// Returns the code units that were written.
    pub(crate) fn written(&self) -> Units {
        let end = self.end.min(MOST);
        match self.form {
            Form::Utf8 => Units::Utf8(&self.bytes[..end]),
            Form::Utf16 => Units::Utf16(&self.units[..end]),
        }
    }

    /// Adds the scalars of the written code units to what was found.
    pub(crate) fn push_scalars(&self, found: &mut Found) {
        match self.written() {
            Units::Utf8(bytes) => found.push_utf8(bytes),
            Units::Utf16(units) => found.push_utf16(units),
        }
    }
}
