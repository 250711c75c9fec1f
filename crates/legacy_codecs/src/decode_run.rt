//! Runs of a decoder over an input in pieces, with outputs of given lengths.
ghost use Rattle.std.specs.Prelude.{◌≡◌, ◌↔◌, ℕ, ◌+◌, ◌-◌, ◌^◌, ◌<◌, ◌≤◌, List, [], ◌++◌, length, sum, sum_by, vec_len, vec_capacity, All, IfOk, OnErr};
ghost use Rattle.legacy_tables.specs.Unicode.{AreBytes};
ghost use Rattle.legacy_text.specs.EncodingForm.{Utf8, Utf16};
ghost use Rattle.legacy_base.specs.Calls.{DecoderCall, reported_events, out_events};
ghost use Rattle.legacy_codecs.specs.Pieces.{contents_of, joined, place_before, IsTooLong};
ghost use Rattle.legacy_codecs.specs.RunResults.{RunDecodes};
ghost use Rattle.legacy_codecs.specs.Runs.{is_input_empty, IsRun};

use crate::replacing::rest_of;
use crate::scalar_buffer::{OutputForm, ScalarBuffer, Utf8Form, Utf16Form};
use crate::shared_by_runs::{RunError, push_items, push_within, room_for_run, split_pieces};
use legacy_base::{DecodeEvent, DecoderResult, RawDecoder};
use std::alloc::Global;

/// The result of a run of a decoder.
#[derive(Debug, PartialEq, Eq, Drop)]
pub struct DecodeRun {
    /// The scalars and malformed sequences in the order of the input.
    ///
    /// A place is a number of bytes from the run's first byte. It is 0 if the sequence began in
    /// bytes that were held back before the run.
    pub events: Vec<DecodeEvent>,
    /// The number of calls of the decoder, each with one of the lengths.
    pub calls: usize,
    /// Whether the whole input was decoded. If not, the lengths were used up first.
    pub finished: bool,
}

/// Returns a malformed sequence that ends `back` bytes before the end of `total` bytes.
///
/// Its place is 0 if it began before the first of them.
fn malformed_event(total: usize, length: u8, back: u8) -> DecodeEvent
    ensures { result ≡ DecodeEvent.Bad (total - (length + back)) length }
{
    let distance = usize::from(length) + usize::from(back);
    DecodeEvent::Bad {
        place: total.saturating_sub(distance),
        length: usize::from(length),
    }
}

/// Adds the malformed sequence that a call reported after `total` bytes of the input.
///
/// Returns whether the result was `InputEmpty`.
fn push_report(events: &mut Vec<DecodeEvent>, answer: DecoderResult, total: usize) -> bool
    requires { vec_len events.old < vec_capacity events.old }
    ensures empty { result ≡ is_input_empty answer }
    ensures items { events.new.items ≡ events.old.items ++ reported_events total answer }
    ensures len { vec_len events.new ≤ vec_len events.old + 1 }
    ensures capacity { vec_capacity events.old ≤ vec_capacity events.new }
{
    match answer {
        DecoderResult::InputEmpty => true,
        DecoderResult::OutputFull => false,
        DecoderResult::Malformed(length, back) => {
            push_within(events, malformed_event(total, length, back));
            false
        }
    }
}

/// Makes one call with an output of `free` code units, and adds its events.
///
/// `total` bytes of the input come before the unread ones. Returns whether the result was
/// `InputEmpty`, and the number of bytes read.
fn call_once<D: RawDecoder, F: OutputForm>(
    decoder: &mut D,
    unread: &[u8],
    last: bool,
    free: usize,
    total: usize,
    buffer: &mut [char],
    events: &mut Vec<DecodeEvent>,
) -> (bool, usize)
    requires buffer { free ≤ length buffer.old }
    requires total { total + length unread.now < 2 ^ 64 }
    requires room { vec_len events.old + (free + 1) ≤ vec_capacity events.old }
    ensures call { (answer : DecoderResult) × (scalars : List ℕ)
        × DecoderCall F.form (D.state decoder.old) unread.now last free (D.state decoder.new)
        answer result.1 scalars
        × (result.0 ≡ is_input_empty answer)
        × (events.new.items ≡ events.old.items ++ out_events (total + result.1) scalars answer) }
    ensures len { vec_len events.new ≤ vec_len events.old + (free + 1) }
    ensures capacity { vec_capacity events.old ≤ vec_capacity events.new }
{
    let mut kept = ScalarBuffer::<F>::new(buffer, free);
    let (answer, read) = decoder.step(unread, &mut kept, last);
    push_items(events, kept.scalars());
    (push_report(events, answer, total + read), read)
}

/// Makes the calls of a run.
fn run_calls<D: RawDecoder, F: OutputForm>(
    decoder: &mut D,
    pieces: &[&[u8]],
    lengths: &[usize],
    mut events: Vec<DecodeEvent>,
    buffer: &mut [char],
) -> DecodeRun
    requires buffer { All (λ n. n ≤ length buffer.old) lengths.now }
    requires empty { events.items ≡ [] }
    requires room { sum lengths.now + length lengths.now ≤ vec_capacity events }
    requires total { sum_by length (contents_of pieces.now) < 2 ^ 64 }
    ensures { let from = place_before (D.state decoder.old) (contents_of pieces.now) in
        IsRun F.form from lengths.now result.calls result.finished result.events.items
        (D.state decoder.new) }
{
    let empty: &[u8] = &[];
    let (mut unread, mut later) = split_pieces(pieces, empty);
    let mut total: usize = 0;
    for (calls, length) in lengths.iter().enumerate() {
        let last = later.is_empty();
        let (all, read) = call_once::<D, F>(
            decoder,
            unread,
            last,
            *length,
            total,
            buffer,
            &mut events,
        );
        total += read;
        unread = rest_of(unread, read);
        if all {
            if last {
                return DecodeRun {
                    events,
                    calls: calls + 1,
                    finished: true,
                };
            }
            let (next, rest) = split_pieces(later, empty);
            unread = next;
            later = rest;
        }
    }
    DecodeRun {
        events,
        calls: lengths.len(),
        finished: false,
    }
}

/// Allocates the memory of a run and makes it.
fn decode_run<D: RawDecoder, F: OutputForm>(
    alloc: Global,
    decoder: &mut D,
    pieces: &[&[u8]],
    lengths: &[usize],
) -> Result<DecodeRun, RunError>
    ensures run { IfOk result (λ run.
        let from = place_before (D.state decoder.old) (contents_of pieces.now) in
        AreBytes (joined (contents_of pieces.now))
        × IsRun F.form from lengths.now run.calls run.finished run.events.items
        (D.state decoder.new)) }
    ensures too_long { (result ≡ Err RunError.TooLong)
        ↔ IsTooLong (contents_of pieces.now) lengths.now }
    ensures unchanged { OnErr result (decoder.new ≡ decoder.old) }
{
    let (events, mut buffer) = room_for_run(alloc, pieces, lengths, '\0')?;
    let buffer = buffer.as_mut_slice();
    Ok(run_calls::<D, F>(decoder, pieces, lengths, events, buffer))
}

/// Decodes an input in pieces by calls with outputs of UTF-8, and returns the events.
///
/// Each call of the decoder has an output of as many bytes as the next of `lengths`. If a call
/// leaves some of a piece unread, the rest is passed again, alone, until a call returns
/// `InputEmpty`. Then the next piece follows. `last` is set for the final piece and for no other,
/// and no pieces count as one empty piece. The run is finished at an `InputEmpty` on the final
/// piece. Otherwise it ends with the lengths.
///
/// The events are a prefix of those that the decoder's grammar gives for the held-back bytes and
/// all pieces. If the run is finished they are all of them, and the decoder then holds back nothing
/// that has an event. The decoder can be used further after the run.
///
/// If the decoder was new, the events of a finished run are those of the Standard's decoder: the
/// code points and errors of its handler for all pieces together, with the place and length of each
/// error.
///
/// A run is always finished if each length is at least 4 and there are enough of them: as many as
/// the whole input has events and pieces together, or more.
///
/// Returns `TooLong` exactly if the sum of the pieces' lengths, or the sum of `lengths` and their
/// number, exceeds `usize::MAX`. Returns `Memory` if allocation fails. After either error no call
/// was made, and the decoder is unchanged.
pub fn decode_run_utf8<D: RawDecoder>(
    alloc: Global,
    decoder: &mut D,
    pieces: &[&[u8]],
    lengths: &[usize],
) -> Result<DecodeRun, RunError>
    ensures run { IfOk result (λ run. RunDecodes Utf8 (D.state decoder.old)
        (contents_of pieces.now) lengths.now run (D.state decoder.new)) }
    ensures too_long { (result ≡ Err RunError.TooLong)
        ↔ IsTooLong (contents_of pieces.now) lengths.now }
    ensures unchanged { OnErr result (decoder.new ≡ decoder.old) }
{
    decode_run::<D, Utf8Form>(alloc, decoder, pieces, lengths)
}

/// Decodes an input in pieces by calls with outputs of UTF-16, and returns the events.
///
/// It does what `decode_run_utf8` does, but `lengths` count UTF-16 code units, of which a scalar
/// has at most 2. A run is always finished if there are enough lengths, each at least 2.
pub fn decode_run_utf16<D: RawDecoder>(
    alloc: Global,
    decoder: &mut D,
    pieces: &[&[u8]],
    lengths: &[usize],
) -> Result<DecodeRun, RunError>
    ensures run { IfOk result (λ run. RunDecodes Utf16 (D.state decoder.old)
        (contents_of pieces.now) lengths.now run (D.state decoder.new)) }
    ensures too_long { (result ≡ Err RunError.TooLong)
        ↔ IsTooLong (contents_of pieces.now) lengths.now }
    ensures unchanged { OnErr result (decoder.new ≡ decoder.old) }
{
    decode_run::<D, Utf16Form>(alloc, decoder, pieces, lengths)
}
