//! The loop of all encoders, over the small moves that each encoder makes.
ghost use Rattle.std.specs.Prelude.{◌≡◌, ◌+◌, ◌<◌, ◌≤◌, ℕ, List, [], ◌∷◌, ◌++◌, length, take, true};
ghost use Rattle.legacy_text.specs.EncodingForm.{total_unit_count};
ghost use Rattle.legacy_base.specs.{EncoderCalls.EncoderCall, Encoders.{EncoderState, encoder_profile, is_pending}};
ghost use Rattle.legacy_encoder_engine.specs.{Moves.move_bytes, ProfileSuffices.Serves, UnfinishedCall.Underway};

use crate::moves::{EncoderMove, EncoderMoves};
use legacy_base::{EncoderResult, Source};

/// Writes a byte at a place.
#[inline]
fn put(dst: &mut [u8], at: usize, byte: u8)
    requires { at < length dst.old }
    ensures { take (at + 1) dst.new ≡ take at dst.old ++ byte ∷ [] }
{
    dst[at] = byte;
}

/// Writes two bytes from a place on.
#[inline(always)]
pub fn put_two(dst: &mut [u8], at: usize, first: u8, second: u8)
    requires { at + 2 ≤ length dst.old }
    ensures { take (at + 2) dst.new ≡ take at dst.old ++ first ∷ second ∷ [] }
{
    put(dst, at, first);
    put(dst, at + 1, second);
}

/// Writes four bytes from a place on.
#[inline(always)]
pub fn put_four(dst: &mut [u8], at: usize, bytes: (u8, u8, u8, u8))
    requires { at + 4 ≤ length dst.old }
    ensures { take (at + 4) dst.new
        ≡ take at dst.old ++ bytes.0 ∷ bytes.1 ∷ bytes.2 ∷ bytes.3 ∷ [] }
{
    put_two(dst, at, bytes.0, bytes.1);
    put_two(dst, at + 2, bytes.2, bytes.3);
}

/// Writes the bytes of a move from a place on, and returns the place after them.
#[inline]
pub fn put_move(dst: &mut [u8], at: usize, step: EncoderMove) -> usize
    requires { at + length (move_bytes step) ≤ length dst.old }
    ensures bytes { take result dst.new ≡ take at dst.old ++ move_bytes step }
    ensures end { result ≡ at + length (move_bytes step) }
{
    match step {
        EncoderMove::One(a) => {
            put(dst, at, a);
            at + 1
        }
        EncoderMove::Two(a, b) => {
            put_two(dst, at, a, b);
            at + 2
        }
        EncoderMove::Four(a, b, c, d) => {
            put_four(dst, at, (a, b, c, d));
            at + 4
        }
        EncoderMove::Escape(a, b) => {
            put(dst, at, 0x1B);
            put_two(dst, at + 1, a, b);
            at + 3
        }
        EncoderMove::Unmappable(_) => at,
    }
}

/// Writes the escape to ASCII at the end of the text from a place on, or returns that it does not fit.
#[inline]
fn write_end<E: EncoderMoves>(
    encoder: &mut E,
    dst: &mut [u8],
    written: usize,
) -> (EncoderResult, usize)
    requires pending { is_pending (E.state encoder.old) ≡ true }
    requires serves { Serves (encoder_profile (E.state encoder.old).codec) }
    requires within { written ≤ length dst.old }
    ensures call { (before : EncoderState) (source : List ℕ) →
        Underway before source true (length dst.old) (E.state encoder.old) [] (take written dst.old) →
        EncoderCall before source true (length dst.old) (E.state encoder.new) result.0 [] (take result.1 dst.new) }
    ensures written { result.1 ≤ length dst.new }
{
    if dst.len() - written < 3 {
        return (EncoderResult::OutputFull, written);
    }
    encoder.finish();
    let end = put_move(dst, written, EncoderMove::TO_ASCII);
    (EncoderResult::InputEmpty, end)
}

/// Runs one call of an encoder.
///
/// The encoder makes its moves until the source is read, the output lacks room, or a scalar is
/// unmappable. The result says which, with the number of bytes written to the front of `dst`. With
/// `last`, no text follows the source, and the end is written. Common scalars are read ahead of the
/// moves.
#[inline]
pub fn drive_encoder<E: EncoderMoves, S: Source>(
    encoder: &mut E,
    src: &mut S,
    dst: &mut [u8],
    last: bool,
) -> (EncoderResult, usize)
    ensures call { EncoderCall (E.state encoder.old) (S.left src.old) last (length dst.old)
        (E.state encoder.new) result.0 (S.left src.new) (take result.1 dst.new) }
    ensures written { result.1 ≤ length dst.new }
    ensures passed { S.passed src.new + total_unit_count S.form (S.left src.new)
        ≡ S.passed src.old + total_unit_count S.form (S.left src.old) }
{
    let mut written = 0;
    loop {
        written = encoder.read_ahead(src, dst, written);
        let Some(c) = src.peek() else { break };
        if dst.len() - written < encoder.need(c) {
            return (EncoderResult::OutputFull, written);
        }
        let step = encoder.next(c);
        if let EncoderMove::Unmappable(reported) = step {
            src.advance();
            return (EncoderResult::Unmappable(reported), written);
        }
        written = put_move(dst, written, step);
        if let EncoderMove::Escape(_, _) = step {
            continue;
        }
        src.advance();
    }
    if encoder.is_pending() && last {
        return write_end(encoder, dst, written);
    }
    (EncoderResult::InputEmpty, written)
}
