//! Runs of an encoder over a text in pieces, with outputs of given lengths.
ghost use Rattle.std.specs.Prelude.{◌≡◌, ℕ, ◌↔◌, ◌+◌, ◌<◌, ◌≤◌, List, [], ◌++◌, length, sum, map, vec_len, vec_capacity, All, IfOk, OnErr};
ghost use Rattle.legacy_base.specs.declared.results.EncodeEvent.TheVariants.{Byte};
ghost use Rattle.legacy_base.specs.EncoderCalls.{EncoderCall, reported};
ghost use Rattle.legacy_codecs.specs.Pieces.{contents_of, joined, place_before, IsTooLong};
ghost use Rattle.legacy_codecs.specs.EncodeRuns.{chars_of, unit_scalars_of, is_input_empty, IsEncodeRun};
ghost use Rattle.legacy_codecs.specs.RunResults.{RunEncodes};

use crate::shared_by_runs::{RunError, push_items, push_within, room_for_run, split_pieces};
use crate::source_texts::Text;
use legacy_base::{EncodeEvent, EncoderResult, RawEncoder, Source};
use std::alloc::Global;

/// The result of a run of an encoder.
#[derive(Debug, PartialEq, Eq, Drop)]
pub struct EncodeRun {
    /// The bytes and the unmappable scalars, in the order of the text.
    pub events: Vec<EncodeEvent>,
    /// The number of calls of the encoder, each with one of the lengths.
    pub calls: usize,
    /// Whether the whole text and its end were encoded. If not, the lengths were used up first.
    pub finished: bool,
}

/// Adds the scalar that a call reported, and returns whether the result was `InputEmpty`.
fn push_report(events: &mut Vec<EncodeEvent>, answer: EncoderResult) -> bool
    requires { vec_len events.old < vec_capacity events.old }
    ensures empty { result ≡ is_input_empty answer }
    ensures items { events.new.items ≡ events.old.items ++ reported answer }
    ensures len { vec_len events.new ≤ vec_len events.old + 1 }
    ensures capacity { vec_capacity events.old ≤ vec_capacity events.new }
{
    match answer {
        EncoderResult::InputEmpty => true,
        EncoderResult::OutputFull => false,
        EncoderResult::Unmappable(scalar) => {
            push_within(events, EncodeEvent::Unmappable(scalar));
            false
        }
    }
}

/// Makes one call into the first `free` bytes, and adds its events.
///
/// Returns whether the result was `InputEmpty`.
fn call_once<E: RawEncoder, S: Source>(
    encoder: &mut E,
    source: &mut S,
    last: bool,
    free: usize,
    output: &mut [u8],
    events: &mut Vec<EncodeEvent>,
) -> bool
    requires output { free ≤ length output.old }
    requires room { vec_len events.old + (free + 1) ≤ vec_capacity events.old }
    ensures call { (answer : EncoderResult) × (bytes : List ℕ)
        × EncoderCall (E.state encoder.old) (S.left source.old) last free (E.state encoder.new)
        answer (S.left source.new) bytes
        × (result ≡ is_input_empty answer)
        × (events.new.items ≡ events.old.items ++ (map Byte bytes ++ reported answer)) }
    ensures len { vec_len events.new ≤ vec_len events.old + (free + 1) }
    ensures capacity { vec_capacity events.old ≤ vec_capacity events.new }
{
    let output = &mut output[..free];
    let (answer, written) = encoder.step(source, output, last);
    push_items(events, &output[..written]);
    push_report(events, answer)
}

/// Makes the calls of a run.
fn run_calls<E: RawEncoder, T: Text>(
    encoder: &mut E,
    pieces: &[T],
    lengths: &[usize],
    mut events: Vec<EncodeEvent>,
    output: &mut [u8],
) -> EncodeRun
    requires output { All (λ n. n ≤ length output.old) lengths.now }
    requires empty { events.items ≡ [] }
    requires room { sum lengths.now + length lengths.now ≤ vec_capacity events }
    ensures { let from = place_before (E.state encoder.old) (map T.items pieces.now) in
        IsEncodeRun from lengths.now result.calls result.finished result.events.items
        (E.state encoder.new) }
{
    let (first, mut later) = split_pieces(pieces, T::empty());
    let mut unread = first.cursor();
    for (calls, length) in lengths.iter().enumerate() {
        let last = later.is_empty();
        if call_once(encoder, &mut unread, last, *length, output, &mut events) {
            if last {
                return EncodeRun {
                    events,
                    calls: calls + 1,
                    finished: true,
                };
            }
            let (next, rest) = split_pieces(later, T::empty());
            unread = next.cursor();
            later = rest;
        }
    }
    EncodeRun {
        events,
        calls: lengths.len(),
        finished: false,
    }
}

/// Allocates the memory of a run and makes it.
fn encode_run<E: RawEncoder, T: Text>(
    alloc: Global,
    encoder: &mut E,
    pieces: &[T],
    lengths: &[usize],
) -> Result<EncodeRun, RunError>
    ensures run { IfOk result (λ run.
        let from = place_before (E.state encoder.old) (map T.items pieces.now) in
        All T.is_item (joined (map T.items pieces.now))
        × IsEncodeRun from lengths.now run.calls run.finished run.events.items
        (E.state encoder.new)) }
    ensures too_long { (result ≡ Err RunError.TooLong)
        ↔ IsTooLong (map T.units pieces.now) lengths.now }
    ensures unchanged { OnErr result (encoder.new ≡ encoder.old) }
{
    let (events, mut output) = room_for_run(alloc, pieces, lengths, 0_u8)?;
    let output = output.as_mut_slice();
    Ok(run_calls(encoder, pieces, lengths, events, output))
}

/// Encodes a text in pieces of UTF-8, and returns the events.
///
/// Each call of the encoder has an output of as many bytes as the next of `lengths`. If a call
/// leaves some of a piece unread, the rest is passed again, alone, until a call returns
/// `InputEmpty`. Then the next piece follows. `last` is set for the final piece and for no other,
/// and no pieces count as one empty piece. The run is finished at an `InputEmpty` on the final
/// piece. Otherwise it ends with the lengths.
///
/// The events are a prefix of those that the codec gives from the encoder's mode for the scalars of
/// all pieces and the end of the text. If the run is finished they are all of them, and the encoder
/// then has no end left to write. The encoder can be used further after the run.
///
/// A run is always finished if each length is at least 4 and there are enough of them: as many as
/// the whole text has events and pieces together, or more.
///
/// If the encoder was new, the events of a finished run are those of the Standard's encoder: the
/// bytes and errors of its handler for the text of all pieces together. In Shift_JIS, EUC-JP,
/// ISO-2022-JP and GB18030 the tables need the pointers that the Standard's indexes have
/// (`laws::runs_are_the_standards`).
///
/// The output of a new encoder and a finished run decodes, with the same encoding and tables, as
/// follows. A fold is a scalar that the encoding writes with the bytes of another one.
///
/// - If no scalar of the text is unmappable or a fold, the bytes decode to the scalars of the text.
/// - Otherwise a fold decodes to that other scalar, and nothing is malformed, with two exceptions.
///   In ISO-2022-JP two escapes may meet around unmappable scalars. In GB18030 and GBK the tables
///   may have a private-use row whose bytes index gb18030 lacks.
///
/// Returns `TooLong` exactly if the sum of the pieces' lengths, or the sum of `lengths` and their
/// number, exceeds `usize::MAX`. Returns `Memory` if allocation fails. After either error no call
/// was made, and the encoder is unchanged.
pub fn encode_run_utf8<E: RawEncoder>(
    alloc: Global,
    encoder: &mut E,
    pieces: &[&str],
    lengths: &[usize],
) -> Result<EncodeRun, RunError>
    ensures run { IfOk result (λ run. RunEncodes (E.state encoder.old) (chars_of pieces.now)
        lengths.now run (E.state encoder.new)) }
    ensures too_long { (result ≡ Err RunError.TooLong)
        ↔ IsTooLong (contents_of pieces.now) lengths.now }
    ensures unchanged { OnErr result (encoder.new ≡ encoder.old) }
{
    encode_run(alloc, encoder, pieces, lengths)
}

/// Encodes a text in pieces of UTF-16, and returns the events.
///
/// It does what `encode_run_utf8` does. Each piece is read alone: a surrogate without its other
/// half in the same piece is the scalar U+FFFD.
pub fn encode_run_utf16<E: RawEncoder>(
    alloc: Global,
    encoder: &mut E,
    pieces: &[&[u16]],
    lengths: &[usize],
) -> Result<EncodeRun, RunError>
    ensures run { IfOk result (λ run. RunEncodes (E.state encoder.old) (unit_scalars_of pieces.now)
        lengths.now run (E.state encoder.new)) }
    ensures too_long { (result ≡ Err RunError.TooLong)
        ↔ IsTooLong (contents_of pieces.now) lengths.now }
    ensures unchanged { OnErr result (encoder.new ≡ encoder.old) }
{
    encode_run(alloc, encoder, pieces, lengths)
}
