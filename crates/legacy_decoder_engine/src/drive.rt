//! The loop of all decoders, over the small moves that each decoder makes.
ghost use Rattle.std.specs.Prelude.{◌≡◌, ℕ, ◌+◌, ◌<◌, ◌≤◌, ◌++◌, length, slice_index, true, false, MatchOption};
ghost use Rattle.legacy_text.specs.EncodingForm.{all_code_units, total_unit_count};
ghost use Rattle.legacy_base.specs.{States.rests, Calls.{IsDecoderCall, IsMalformedByte}};
ghost use Rattle.legacy_decoder_engine.specs.ReadAhead.{ReadsTo};
ghost use Rattle.legacy_decoder_engine.specs.Moves.{need_units, fed_scalars, FeedsMalformedByte, HasMalformedByte, WritesFed, EndsAt, Finishes};

use crate::moves::{DecoderMoves, Fed, Need};
use legacy_base::{DecoderResult, Destination};

/// Returns whether the output has room for this need.
#[inline(always)]
fn has_room<T: Destination>(dst: &T, need: Need) -> bool
    ensures some { result ≡ true → need_units T.form need ≤ T.room dst.now }
    ensures none { result ≡ false → T.room dst.now < need_units T.form need }
{
    match need {
        Need::Nothing => true,
        Need::Unit => dst.free() >= 1,
        Need::Narrow => dst.free() >= T::narrow(),
        Need::Wide => dst.free() >= T::wide(),
    }
}

/// Writes the scalars of a result of reading a byte, if it has any.
#[inline(always)]
fn put_fed<T: Destination>(dst: &mut T, fed: Fed)
    requires { total_unit_count T.form (fed_scalars fed) ≤ T.room dst.old }
    ensures contents { T.contents dst.new ≡ T.contents dst.old ++ all_code_units T.form (fed_scalars fed) }
    ensures room { T.room dst.new + total_unit_count T.form (fed_scalars fed) ≡ T.room dst.old }
    ensures loan { T.loan dst.new ≡ T.loan dst.old }
{
    match fed {
        Fed::One(c) => dst.put(c),
        Fed::Two(c, d) => {
            dst.put(c);
            dst.put(d);
        }
        Fed::Nothing | Fed::MalformedSequence { .. } => {}
    }
}

/// Reads a byte, which is not held back yet, and writes what it gives.
///
/// Returns `None` if the call goes on, and otherwise its result with the number of bytes read, which is 0 or 1.
#[inline(always)]
fn read_byte<D: DecoderMoves, T: Destination>(
    decoder: &mut D,
    byte: u8,
    dst: &mut T,
) -> Option<(DecoderResult, usize)>
    requires { rests (D.state decoder.old).grammar (D.state decoder.old).held ≡ true }
    ensures { MatchOption result
        (WritesFed T.Destination (D.state decoder.old) byte (D.state decoder.new) dst.old dst.new)
        (λ ended. EndsAt T.form (T.room dst.old) (D.state decoder.old) byte (D.state decoder.new) ended.0 ended.1 × (dst.new ≡ dst.old)) }
{
    if !has_room(dst, decoder.reading_need(byte)) {
        return Some((DecoderResult::OutputFull, 0));
    }
    let fed = decoder.feed(byte);
    if let Fed::MalformedSequence {
        length,
        back,
        unread,
    } = fed
    {
        decoder.after_malformed();
        return Some((DecoderResult::Malformed(length, back), usize::from(!unread)));
    }
    put_fed(dst, fed);
    None
}

/// Returns whether the first byte is known to be malformed by itself.
#[inline(always)]
fn begins_malformed<D: DecoderMoves>(decoder: &D, src: &[u8]) -> bool
    ensures { result ≡ true → HasMalformedByte (D.state decoder.now) src.now 0 }
{
    !src.is_empty() && decoder.is_malformed_byte(src[0])
}

/// Reads common sequences from the front, but nothing if the byte there is known to be malformed.
///
/// Returns the number of bytes read, and whether the byte after them is known to be malformed.
// Malformed bytes often follow one another. None of them costs a test for a block.
#[inline(always)]
fn read_ahead<D: DecoderMoves, T: Destination>(
    decoder: &mut D,
    src: &[u8],
    dst: &mut T,
) -> (usize, bool)
    ensures read { ReadsTo T.Destination (D.state decoder.old) (D.state decoder.new) src.now result.0 dst.old dst.new }
    ensures malformed { result.1 ≡ true → HasMalformedByte (D.state decoder.new) src.now result.0 }
{
    if begins_malformed(decoder, src) {
        return (0, true);
    }
    let read = decoder.read_common(src, dst);
    // If nothing was read, the byte there was tested above.
    (read, read > 0 && begins_malformed(decoder, &src[read..]))
}

/// Reports a byte that is known to be malformed by itself.
///
/// Returns the result of the call, and the number of bytes read, which is 0 without room and otherwise 1.
#[inline(always)]
fn report_malformed<D: DecoderMoves, T: Destination>(
    decoder: &mut D,
    byte: u8,
    dst: &T,
) -> (DecoderResult, usize)
    requires { FeedsMalformedByte (D.state decoder.old) byte }
    ensures { EndsAt T.form (T.room dst.now) (D.state decoder.old) byte (D.state decoder.new) result.0 result.1 }
{
    if !has_room(dst, decoder.reading_need(byte)) {
        return (DecoderResult::OutputFull, 0);
    }
    decoder.after_malformed();
    (DecoderResult::Malformed(1, 0), 1)
}

/// Ends a call after its input: on the last call, reports the held-back bytes.
#[inline(always)]
fn finish<D: DecoderMoves, T: Destination>(decoder: &mut D, dst: &T, last: bool) -> DecoderResult
    requires { rests (D.state decoder.old).grammar (D.state decoder.old).held ≡ true }
    ensures { Finishes T.form (D.state decoder.old) last (T.room dst.now) (D.state decoder.new) result }
{
    if !last || !decoder.has_report() {
        return DecoderResult::InputEmpty;
    }
    if !has_room(dst, decoder.release_need()) {
        return DecoderResult::OutputFull;
    }
    match decoder.report() {
        Some((length, back)) => DecoderResult::Malformed(length, back),
        None => unreachable!(),
    }
}

/// Runs one call of a decoder.
///
/// The decoder makes its moves until the input is read, the output lacks room, or a malformed
/// sequence is to be reported. The result says which, with the number of bytes read from `src`. The
/// scalars are in `dst`, after its earlier contents. With `last`, no input follows `src`. A
/// held-back scalar that is to be written exists only at the beginning of a call. Common sequences
/// are read ahead of the moves.
#[inline(always)]
pub fn drive_decoder<D: DecoderMoves, T: Destination>(
    decoder: &mut D,
    src: &[u8],
    dst: &mut T,
    last: bool,
) -> (DecoderResult, usize)
    ensures call { IsDecoderCall T.form (D.state decoder.old) src.now last (T.room dst.old) (D.state decoder.new)
        result.0 result.1 (T.contents dst.old) (T.contents dst.new) }
    ensures room { T.room dst.new + length (T.contents dst.new) ≡ T.room dst.old + length (T.contents dst.old) }
    ensures loan { T.loan dst.new ≡ T.loan dst.old }
{
    if !decoder.rests() {
        if !has_room(dst, decoder.release_need()) {
            return (DecoderResult::OutputFull, 0);
        }
        let Some(scalar) = decoder.release() else {
            unreachable!()
        };
        dst.put(scalar);
    }
    let mut read = 0;
    loop {
        let (count, is_malformed) = read_ahead(decoder, &src[read..], dst);
        read += count;
        if is_malformed {
            let (result, count) = report_malformed(decoder, src[read], dst);
            return (result, read + count);
        }
        read += decoder.hold_back(&src[read..], dst);
        if read == src.len() {
            break;
        }
        if let Some((result, count)) = read_byte(decoder, src[read], dst) {
            return (result, read + count);
        }
        read += 1;
    }
    (finish(decoder, dst, last), src.len())
}

/// Returns the number of bytes at the front that are each malformed by itself.
#[inline]
pub fn count_malformed_bytes<D: DecoderMoves>(decoder: &D, src: &[u8]) -> usize
    ensures count { result ≤ length src.now }
    ensures malformed_byte { (k : ℕ) → k < result → IsMalformedByte (D.state decoder.now) (slice_index src.now k) }
{
    let mut count = 0;
    while count < src.len() {
        if !decoder.is_malformed_byte(src[count]) {
            return count;
        }
        count += 1;
    }
    count
}
