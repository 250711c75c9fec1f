//! Common parts of the runs of decoders and encoders: pieces, lengths of outputs, and events.
ghost use Rattle.std.specs.Prelude.{◌≡◌, ℕ, ◌↔◌, ◌+◌, ◌^◌, ◌<◌, ◌≤◌, List, [], ◌∷◌, ◌++◌, length, drop, map, sum, sum_by, slice_index_or, vec_len, vec_capacity, All, IfOk, IfSome, SomeIff};
ghost use Rattle.std.specs.Char.{IsScalar};
ghost use Rattle.std.specs.Str.{chars};
ghost use Rattle.legacy_base.specs.declared.results.DecodeEvent.TheVariants.{Scalar};
ghost use Rattle.legacy_base.specs.declared.results.EncodeEvent.TheVariants.{Byte};
ghost use Rattle.legacy_tables.specs.Unicode.{IsByte};
ghost use Rattle.legacy_text.specs.Texts.{unit_scalars};
ghost use Rattle.legacy_codecs.specs.Pieces.{joined, IsTooLong};

use legacy_base::{DecodeEvent, EncodeEvent};
use std::alloc::Global;
use thiserror::Error;

/// Why a run was not made. No call of the decoder or the encoder was made.
#[derive(Debug, PartialEq, Eq, Drop, Error)]
pub enum RunError {
    /// Allocation failed. A run allocates all its memory before its first call.
    #[error("memory")]
    Memory,
    /// A sum exceeds `usize::MAX`: the pieces' lengths, or the outputs' lengths and their number.
    #[error("run is too long")]
    TooLong,
}

/// A piece of an input: bytes, or a text in UTF-8 or UTF-16.
pub(crate) trait Piece: Copy {
    /// Its code units.
    ghost units: { Self → List ℕ };
    /// What a run reads of it: its bytes, or the scalars of its text.
    ghost items: { Self → List ℕ };
    /// What each of these is: a byte, or a Unicode scalar value.
    ghost is_item: { ℕ → Type 0 };

    /// Returns its number of code units.
    fn count(self) -> usize
        ensures length { result ≡ length (units self) }
        ensures sound { All is_item (items self) };
}

impl Piece for &[u8] {
    ghost units = { λ piece. piece.now };

    ghost items = { λ piece. piece.now };

    ghost is_item = { IsByte };

    fn count(self) -> usize {
        self.len()
    }
}

impl Piece for &str {
    ghost units = { λ piece. piece.now };

    ghost items = { λ piece. chars piece.now };

    ghost is_item = { IsScalar };

    fn count(self) -> usize {
        self.len()
    }
}

impl Piece for &[u16] {
    ghost units = { λ piece. piece.now };

    ghost items = { λ piece. unit_scalars piece.now };

    ghost is_item = { IsScalar };

    fn count(self) -> usize {
        self.len()
    }
}

/// Returns the sum of the pieces' lengths, or `None` if it exceeds `usize::MAX`.
///
/// It reads each piece, so a sum shows what all pieces are.
fn total_length<P: Piece>(pieces: &[P]) -> Option<usize>
    ensures total { SomeIff result (sum_by length (map P.units pieces.now) < 2 ^ 64)
        (sum_by length (map P.units pieces.now)) }
    ensures sound { IfSome result (λ total. All P.is_item (joined (map P.items pieces.now))) }
{
    let mut total: usize = 0;
    for piece in pieces {
        total = total.checked_add(piece.count())?;
    }
    Some(total)
}

/// Returns the sum of the lengths and their number, or `None` if it exceeds `usize::MAX`.
fn event_capacity(lengths: &[usize]) -> Option<usize>
    ensures { SomeIff result (sum lengths.now + length lengths.now < 2 ^ 64)
        (sum lengths.now + length lengths.now) }
{
    let mut total: usize = 0;
    for length in lengths {
        total = total.checked_add(*length)?;
    }
    total.checked_add(lengths.len())
}

/// Allocates the memory of a run over the pieces: for its events, and for outputs of these lengths.
///
/// Each code unit of an output is at most one event, and so is the report of each call.
pub(crate) fn room_for_run<P: Piece, T: Copy, U: Copy>(
    alloc: Global,
    pieces: &[P],
    lengths: &[usize],
    unit: U,
) -> Result<(Vec<T>, Vec<U>), RunError>
    ensures empty { IfOk result (λ room. room.0.items ≡ []) }
    ensures room { IfOk result (λ room.
        sum lengths.now + length lengths.now ≤ vec_capacity room.0) }
    ensures output { IfOk result (λ room. All (λ n. n ≤ vec_len room.1) lengths.now) }
    ensures total { IfOk result (λ room. sum_by length (map P.units pieces.now) < 2 ^ 64) }
    ensures sound { IfOk result (λ room. All P.is_item (joined (map P.items pieces.now))) }
    ensures too_long { (result ≡ Err RunError.TooLong)
        ↔ IsTooLong (map P.units pieces.now) lengths.now }
{
    if total_length(pieces).is_none() {
        return Err(RunError::TooLong);
    }
    let Some(capacity) = event_capacity(lengths) else {
        return Err(RunError::TooLong);
    };
    let Ok(events) = Vec::with_capacity(alloc, capacity) else {
        return Err(RunError::Memory);
    };
    let Ok(output) = vec![in alloc; unit; longest(lengths)] else {
        return Err(RunError::Memory);
    };
    Ok((events, output))
}

/// Returns the greatest of the lengths, or 0 if there is none.
fn longest(lengths: &[usize]) -> usize
    ensures { All (λ n. n ≤ result) lengths.now }
{
    lengths.iter().copied().max().unwrap_or(0)
}

/// Returns the first piece and those after it, or `empty` and no pieces if there are none.
pub(crate) fn split_pieces<P: Copy>(pieces: &[P], empty: P) -> (P, &[P])
    ensures first { result.0 ≡ slice_index_or pieces.now 0 empty }
    ensures later { result.1.now ≡ drop 1 pieces.now }
{
    if pieces.is_empty() {
        return (empty, pieces);
    }
    (pieces[0], &pieces[1..])
}

/// Adds an event. The list must have room for it.
pub(crate) fn push_within<T: Copy>(events: &mut Vec<T>, event: T)
    requires { vec_len events.old < vec_capacity events.old }
    ensures items { events.new.items ≡ events.old.items ++ event ∷ [] }
    ensures len { vec_len events.new ≡ vec_len events.old + 1 }
    ensures capacity { vec_capacity events.old ≤ vec_capacity events.new }
{
    let _ = events.push(event);
}

/// An event that describes one item of an output.
pub(crate) trait EventOf<T>: Copy {
    /// The event of an item.
    ghost event: { T → Self };

    /// Returns the event of an item.
    fn event_of(item: T) -> Self
        ensures { result ≡ event item };
}

impl EventOf<char> for DecodeEvent {
    ghost event = { λ scalar. Scalar scalar };

    fn event_of(scalar: char) -> DecodeEvent {
        DecodeEvent::Scalar(scalar)
    }
}

impl EventOf<u8> for EncodeEvent {
    ghost event = { λ byte. Byte byte };

    fn event_of(byte: u8) -> EncodeEvent {
        EncodeEvent::Byte(byte)
    }
}

/// Adds the items as events.
pub(crate) fn push_items<T: Copy, E: EventOf<T>>(events: &mut Vec<E>, items: &[T])
    requires { vec_len events.old + length items.now ≤ vec_capacity events.old }
    ensures items { events.new.items ≡ events.old.items ++ map E.event items.now }
    ensures len { vec_len events.new ≡ vec_len events.old + length items.now }
    ensures capacity { vec_capacity events.old ≤ vec_capacity events.new }
{
    for item in items {
        push_within(events, E::event_of(*item));
    }
}
