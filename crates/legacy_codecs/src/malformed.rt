//! The malformed sequences of an input, with their places.
ghost use Rattle.std.specs.Prelude.{◌≡◌, ◌↔◌, ◌+◌, ◌-◌, [], ◌++◌, length, Err, IfOk, None};
ghost use Rattle.legacy_base.specs.Grammar.{events_of};
ghost use Rattle.legacy_base.specs.Lengths.{query_answer, to_utf8_without_replacement};
ghost use Rattle.legacy_codecs.specs.MalformedSequences.{malformed_of};

use crate::replacing::rest_of;
use crate::whole::SizedError;
use legacy_base::{DecoderResult, RawDecoder};
use std::alloc::Global;

/// A malformed sequence of an input.
#[derive(Clone, Copy, Debug, PartialEq, Eq)]
pub struct MalformedSequence {
    /// The number of bytes of the input before it, or 0 if it began in held-back bytes.
    pub place: usize,
    /// The number of its bytes, 1 to 4.
    pub length: usize,
}

/// Returns the sequence of `length` bytes before the last `back` of the `read` bytes.
fn sequence_at(read: usize, length: u8, back: u8) -> MalformedSequence
    ensures place { result.place ≡ read - (length + back) }
    ensures length { result.length ≡ length }
{
    let distance = usize::from(length) + usize::from(back);
    MalformedSequence {
        place: read.saturating_sub(distance),
        length: usize::from(length),
    }
}

/// Finds every malformed sequence of a whole input, in order.
///
/// The sequences are those of the bytes that the decoder held back and all of `input`, whose end is
/// the end of the input. A place counts bytes of `input` from 0. The text is not kept, and no event
/// is left. Those of a new decoder are the Standard's errors (`laws::texts_are_the_standards`).
///
/// - `TooLong`: exactly if `max_utf8_buffer_length_without_replacement` returns `None` for the
///   length of `input`.
/// - `Memory`: an allocation failed.
///
/// After an error take a new decoder.
///
/// `docs/USING.md` has an example, `malformed_in_message`.
pub fn malformed_sequences<D: RawDecoder>(
    alloc: Global,
    decoder: &mut D,
    input: &[u8],
) -> Result<Vec<MalformedSequence>, SizedError>
    ensures found { IfOk result (λ found. let before = D.state decoder.old in
        found.items ≡ malformed_of (length before.held)
        (events_of before.grammar (before.held ++ input.now))) }
    ensures end { IfOk result (λ found. let after = D.state decoder.new in
        events_of after.grammar after.held ≡ []) }
    ensures too_long { (result ≡ Err SizedError.TooLong)
        ↔ query_answer to_utf8_without_replacement (D.state decoder.old) (length input.now) ≡ None }
{
    let Some(need) = decoder.max_utf8_buffer_length_without_replacement(input.len()) else {
        return Err(SizedError::TooLong);
    };
    let Ok(mut text) = vec![in alloc; 0; need] else {
        return Err(SizedError::Memory);
    };
    let mut found = Vec::new(alloc);
    let mut rest = input;
    let mut read: usize = 0;
    'calls: loop {
        let (answer, count, _) = decoder.decode_to_utf8_raw(rest, text.as_mut_slice(), true);
        let DecoderResult::Malformed(length, back) = answer else {
            return Ok(found);
        };
        rest = rest_of(rest, count);
        read += count;
        let Ok(()) = found.push(sequence_at(read, length, back)) else {
            return Err(SizedError::Memory);
        };
    }
}
