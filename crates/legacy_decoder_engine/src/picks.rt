//! The forms of blocks of bytes, picked out by shuffles: their starts, and the code of each.
// The functions are always inlined: a call would pass the vectors through memory.
ghost use Rattle.std.specs.Prelude.{◌≡◌, ◌+◌, ◌*◌, ◌<◌, ◌≤◌, ◌++◌, IfSome, length, map, take};
ghost use Rattle.legacy_decoder_engine.specs.PickedForms.{places, code_at, forms_of, AreStarts, IsEnd};
ghost use Rattle.legacy_text.specs.PastAscii.{ArePast};

use crate::lane_codec::LaneCodec;
use legacy_text::past_ascii::past_ascii;
use legacy_text::{row_of, row_table};
use std::simd::prelude::*;

/// The bit of every second byte.
const ODD: u64 = 0xAAAA_AAAA_AAAA_AAAA;

/// The bits of all bytes but the last.
const ALL_BUT_LAST: u64 = 0x7FFF_FFFF_FFFF_FFFF;

/// Returns the bits of the bytes at which forms start, if each byte past ASCII that starts one is the first of two, or `None`.
// In a row of bytes past ASCII every second one starts a form: one subtraction carries through all rows at once, and
// gives the parity of each. The bits are checked after it, so the proof needs no facts about carries.
#[inline(always)]
pub fn form_starts(past: u64) -> Option<u64>
    ensures { IfSome result (λ starts. AreStarts past starts) }
{
    let seconds = (((past << 1) | ODD).wrapping_sub(past)) ^ ODD ^ past;
    let starts = !seconds | 1;
    if ((starts >> 1) ^ (starts & past)) & ALL_BUT_LAST == ALL_BUT_LAST {
        Some(starts)
    } else {
        None
    }
}

/// For each set of places, each of them and the place after it, in order, and then places without meaning.
pub static PICKED: [[u8; 16]; 256] = row_table!([0 1];
    [[] [0 1] [1 2] [0 1 1 2]] [[] [2 3] [3 4] [2 3 3 4]] [[] [4 5] [5 6] [4 5 5 6]] [[] [6 7] [7 8] [6 7 7 8]]);

/// Returns the codes of two bytes, the first one low, at those of the first eight places that are starts.
///
/// Codes without meaning fill the rest of the eight.
#[inline(always)]
fn codes_at(bytes: u8x16, starts: u8) -> u16x8
    ensures long { length result ≡ 8 }
    ensures codes { take (length (places 0 8 starts)) result ≡ map (code_at bytes) (places 0 8 starts) }
{
    let row = row_of(&PICKED, usize::from(starts));
    u16x8::from_le_bytes(bytes.swizzle_dyn(row))
}

/// Stores the codes at those of eight places of a block that are starts, from place `at` of a list on.
///
/// Codes without meaning fill the rest of the eight. Returns the place after the codes at starts.
#[inline(always)]
#[tactic(auto, using(crate::proofs::Picking::codes_stored))]
fn store_codes(block: &[u8], from: usize, starts: u8, codes: &mut [u16], at: usize) -> usize
    requires read { from + 16 ≤ length block.now }
    requires room { at + 8 ≤ length codes.old }
    ensures most { result ≤ at + 8 }
    ensures written { take result codes.new ≡ take at codes.old ++ map (code_at block.now) (places from 8 starts) }
{
    let found = codes_at(u8x16::from_slice(&block[from..]), starts);
    found.copy_to_slice(&mut codes[at..]);
    at + usize::from(starts).count_ones() as usize
}

/// Stores the codes at those of the first 64 places of a block that are starts, from place `count` of a list on.
///
/// Returns the place after them.
#[inline(always)]
#[tactic(auto, using(crate::proofs::Picking::no_more))]
pub fn pick(block: &[u8], starts: u64, codes: &mut [u16], count: usize) -> usize
    requires read { 72 ≤ length block.now }
    requires room { count + 64 ≤ length codes.old }
    ensures most { result ≤ count + 64 }
    ensures written { take result codes.new ≡ take count codes.old ++ map (code_at block.now) (places 0 64 starts) }
{
    let mut at = count;
    let mut left = starts;
    for group in 0..8 {
        at = store_codes(block, 8 * group, (left % 256) as u8, codes, at);
        left /= 256;
    }
    at
}

/// Returns the number of bytes of the forms that end in the first `limit` bytes, given the starts of all forms.
// A form that starts at the last of these bytes may have another byte after them.
#[inline(always)]
fn whole_forms(past: u64, starts: u64, limit: usize) -> usize
    requires some { 0 < limit }
    requires most { limit ≤ 64 }
    requires starts { AreStarts past starts }
    ensures most { result ≤ limit }
    ensures end { IsEnd past starts result }
{
    limit - ((starts & past) >> (limit - 1) & 1) as usize
}

/// Stores the codes of the forms that end in the first `limit` bytes of a block, from place `count` of a list on.
///
/// It is given the bits of the bytes past ASCII and of the starts of forms. Returns the place after the codes, and the
/// number of bytes of the forms.
#[inline(always)]
pub fn pick_forms(
    block: &[u8],
    past: u64,
    starts: u64,
    limit: usize,
    codes: &mut [u16],
    count: usize,
) -> (usize, usize)
    requires read { 72 ≤ length block.now }
    requires past { ArePast past block.now }
    requires starts { AreStarts past starts }
    requires most { limit ≤ 64 }
    requires room { count + 64 ≤ length codes.old }
    ensures most { result.0 ≤ count + 64 }
    ensures limit { result.1 ≤ limit }
    ensures forms { forms_of (take result.0 codes.new) ≡ forms_of (take count codes.old) ++ take result.1 block.now }
{
    if limit == 0 {
        return (count, 0);
    }
    let end = whole_forms(past, starts, limit);
    if end == 0 {
        return (count, 0);
    }
    (
        pick(block, starts & (u64::MAX >> (64 - end)), codes, count),
        end,
    )
}

/// Stores the codes of the forms in a block with many bytes past ASCII, from place `count` of a list on.
///
/// Leaves out long ASCII at the end. Returns the place after the codes, and the number of bytes of the forms, which is at
/// most `limit`. It is 0 if few of the first `limit` bytes are past ASCII, if forms of one byte past ASCII are among them,
/// if the starts are not those of pairs, or if a longer form is first.
// Half as many as `begins_many` asks for are enough. Eight bytes after the block are read too, because the codes of its
// last eight bytes are picked from sixteen.
#[inline(always)]
fn pick_block<C: LaneCodec>(
    block: &[u8],
    limit: usize,
    codes: &mut [u16],
    count: usize,
) -> (usize, usize)
    requires block { 72 ≤ length block.now }
    requires some { 0 < limit }
    requires most { limit ≤ 64 }
    requires room { count + 64 ≤ length codes.old }
    ensures most { result.0 ≤ count + 64 }
    ensures limit { result.1 ≤ limit }
    ensures forms { forms_of (take result.0 codes.new) ≡ forms_of (take count codes.old) ++ take result.1 block.now }
{
    let bytes = u8x64::from_slice(block);
    let past = past_ascii(bytes);
    if !C::are_many(past.count_ones(), limit / 2) || C::has_singles(bytes) {
        return (count, 0);
    }
    let ascii = past.leading_zeros() as usize;
    let end = if ascii < 8 { 64 } else { 64 - ascii };
    match form_starts(past) {
        Some(starts) => { pick_forms(block, past, starts, end.min(limit), codes, count) }
        None => (count, 0),
    }
}

/// Copies sixteen bytes from the place `at` on to the same place, after those before it.
#[inline(always)]
fn copy_sixteen(src: &[u8], at: usize, padded: &mut [u8])
    requires source { at + 16 ≤ length src.now }
    requires room { at + 16 ≤ length padded.old }
    requires before { take at padded.old ≡ take at src.now }
    ensures { take (at + 16) padded.new ≡ take (at + 16) src.now }
{
    u8x16::from_slice(&src[at..]).copy_to_slice(&mut padded[at..]);
}

/// Copies 16 to 64 bytes to the front of an array.
// Copies of sixteen bytes may overlap. One copy of any number of bytes would be a call, and the compiler turns a loop into
// such a call.
#[inline(always)]
fn copy_front(src: &[u8], padded: &mut [u8; 72])
    requires some { 16 ≤ length src.now }
    requires most { length src.now ≤ 64 }
    ensures { take (length src.now) padded.new ≡ src.now }
{
    let last = src.len() - 16;
    copy_sixteen(src, 0, padded);
    copy_sixteen(src, last.min(16), padded);
    copy_sixteen(src, last.min(32), padded);
    copy_sixteen(src, last, padded);
}

/// Stores the codes of the forms in blocks with many bytes past ASCII at the front, a block for each 64 codes of room.
///
/// It copies the last bytes of the input to an array with zeros after them. Returns the number of codes, and the number
/// of bytes of their forms.
#[inline(always)]
pub(crate) fn pick_blocks<C: LaneCodec>(src: &[u8], codes: &mut [u16]) -> (usize, usize)
    ensures most { result.0 ≤ length codes.old }
    ensures read { result.1 ≤ length src.now }
    ensures forms { forms_of (take result.0 codes.new) ≡ take result.1 src.now }
{
    let mut count = 0;
    let mut at = 0;
    let mut left = codes.len() / 64;
    while left > 0 && src.len() - at >= 16 {
        let rest = &src[at..];
        let (next, bytes) = if rest.len() >= 72 {
            pick_block::<C>(rest, 64, codes, count)
        } else {
            let most = rest.len().min(64);
            let mut padded = [0u8; 72];
            copy_front(&rest[..most], &mut padded);
            pick_block::<C>(&padded, most, codes, count)
        };
        count = next;
        at += bytes;
        if bytes == 0 {
            break;
        }
        left -= 1;
    }
    (count, at)
}
