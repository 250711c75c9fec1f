//! Calls for whole inputs and texts that tell whether something was replaced.
ghost use Rattle.std.specs.Prelude.{◌≡◌, ◌↔◌, ◌++◌, length, string_bytes, IfOk, Err, None, true};
ghost use Rattle.std.specs.Str.{chars};
ghost use Rattle.legacy_base.specs.Grammar.{events_of};
ghost use Rattle.legacy_base.specs.Encoders.{encoded};
ghost use Rattle.legacy_base.specs.Lengths.{query_answer, to_utf8};
ghost use Rattle.legacy_codecs.specs.References.{referenced_bytes, has_unmappable};
ghost use Rattle.legacy_codecs.specs.Replacing.{has_malformed};
ghost use Rattle.legacy_codecs.specs.WholeTexts.{text_of};

use legacy_codecs::{
    CoderResult, RawDecoder, RawEncoder, SizedError, decode_replacing_utf8, encode_replacing_utf8,
};
use std::alloc::{AllocError, Global};

/// Decodes a whole input as `decode_whole` does, and tells whether a sequence was malformed.
pub(crate) fn decode_told<D: RawDecoder>(
    alloc: Global,
    decoder: &mut D,
    input: &[u8],
) -> Result<(String, bool), SizedError>
    ensures text { IfOk result (λ told.
        chars (string_bytes told.0) ≡ text_of (D.state decoder.old) input.now) }
    ensures told { IfOk result (λ told. told.1 ≡ has_malformed
        (events_of (D.state decoder.old).grammar ((D.state decoder.old).held ++ input.now))) }
    ensures too_long { (result ≡ Err SizedError.TooLong)
        ↔ query_answer to_utf8 (D.state decoder.old) (length input.now) ≡ None }
{
    let Some(length) = decoder.max_utf8_buffer_length(input.len()) else {
        return Err(SizedError::TooLong);
    };
    let Ok(mut text) = vec![in alloc; 0; length] else {
        return Err(SizedError::Memory);
    };
    let (_, _, written, replaced) = decode_replacing_utf8(
        decoder,
        input,
        text.as_mut_slice(),
        true,
    );
    text.truncate(written);
    Ok((String::from_utf8(text).unwrap(), replaced))
}

/// Encodes a whole text as `encode_whole` does, and tells whether a character was unmappable.
pub(crate) fn encode_told<E: RawEncoder>(
    alloc: Global,
    encoder: &mut E,
    text: &str,
) -> Result<(Vec<u8>, bool), AllocError>
    ensures bytes { IfOk result (λ told. told.0.items
        ≡ referenced_bytes (encoded (E.state encoder.old) (chars text.now) true)) }
    ensures told { IfOk result (λ told. told.1
        ≡ has_unmappable (encoded (E.state encoder.old) (chars text.now) true)) }
{
    let mut bytes = Vec::new(alloc);
    let mut rest = text;
    let mut output = [0; 64];
    let mut replaced = false;
    'calls: loop {
        let (answer, read, written, found) = encode_replacing_utf8(
            encoder,
            rest,
            &mut output,
            true,
        );
        bytes.extend_from_slice(&output[..written])?;
        replaced |= found;
        match answer {
            CoderResult::InputEmpty => return Ok((bytes, replaced)),
            CoderResult::OutputFull => rest = &rest[read..],
        }
    }
}
