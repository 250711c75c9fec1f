//! Blocks with many bytes past ASCII, whose forms are picked out and looked up by lanes, and the text between such blocks.
// The functions that run for each block are always inlined: a call would pass vectors through memory, and would store
// the destination's place there for each block.
#![tactic(auto, using(crate::proofs::WrittenReads::no_bytes))]

ghost use Rattle.std.specs.Prelude.{◌≡◌, ◌%◌, ◌<◌, true, length};
ghost use Rattle.legacy_base.specs.{States.new_state};
ghost use Rattle.legacy_decoder_engine.specs.ReadAhead.{ReadsAhead, ReadsInto};

use crate::forms::{Forms, read_all};
use crate::lane_codec::LaneCodec;
use crate::lanes::{byte_total, put_codes};
use crate::pace::Pace;
use crate::picks::pick_blocks;
use crate::read_ahead::read_ascii;
use legacy_base::{Destination, Tables, Utf8Destination};
use legacy_tables::{DecoderTables, FlatTables};
use legacy_text::FillsBuffer;
use legacy_text::past_ascii::past_ascii;
use std::cell::Cell;
use std::simd::prelude::*;

/// Reads forms in blocks with many bytes past ASCII from the front, up to an uncommon one, or to the end of the room.
///
/// Returns the number of bytes read, and whether another block may follow.
#[inline(always)]
#[tactic(auto, using(crate::proofs::JoinedReads::reads_front, crate::proofs::LaneUnits::front_forms))]
fn read_front<C: LaneCodec, T: Destination>(
    tables: &FlatTables<'_>,
    src: &[u8],
    codes: &mut [u16],
    places: &mut [u32],
    dst: &mut T,
) -> (usize, bool)
    requires eights { length codes.old % 8 ≡ 0 }
    requires places { length places.old ≡ length codes.old }
    ensures ahead { ReadsAhead T.Destination (new_state (C.grammar tables.now.flat)) src.now result.0 dst.old dst.new }
    ensures goes_on { result.1 ≡ true → 0 < result.0 }
{
    let (count, bytes) = pick_blocks::<C>(src, codes);
    let done = put_codes::<C, T>(tables, codes, places, count, dst);
    if done < count {
        return (byte_total(codes, done), false);
    }
    (bytes, bytes > 0)
}

/// The least number of bytes that are read by lanes.
const LEAST: usize = 32;

/// Returns whether many of the first 64 bytes are past ASCII, or of the first 16 if there are fewer than 64.
///
/// Returns false if there are fewer than `LEAST` bytes, or if the 64 have forms of one byte past ASCII.
// Four bytes tell most ASCII apart, before many are counted.
#[inline(always)]
fn begins_many<C: LaneCodec>(src: &[u8]) -> bool {
    if src.len() < LEAST || (src[0] | src[1] | src[14] | src[15]) < 0x80 {
        return false;
    }
    if src.len() >= 64 {
        let block = u8x64::from_slice(src);
        return C::are_many(past_ascii(block).count_ones(), 64) && !C::has_singles(block);
    }
    let past = u8x16::from_slice(src).simd_ge(u8x16::splat(0x80));
    past.to_bitmask().count_ones() > 6
}

/// Reads blocks with many bytes past ASCII from the front, four at a time, and returns the number of bytes read.
// A load of codes that were stored in parts waits for these stores. All of four blocks are stored before it.
#[inline(always)]
#[tactic(auto)]
fn read_long<C: LaneCodec, T: Destination>(
    tables: &FlatTables<'_>,
    src: &[u8],
    dst: &mut T,
) -> usize
    ensures { ReadsAhead T.Destination (new_state (C.grammar tables.now.flat)) src.now result dst.old dst.new }
{
    let mut codes = [0; 256];
    let mut places = [0; 256];
    let mut at = 0;
    loop {
        let (read, goes_on) = read_front::<C, T>(tables, &src[at..], &mut codes, &mut places, dst);
        at += read;
        if !goes_on {
            return at;
        }
    }
}

/// Reads blocks with many bytes past ASCII from the front, and returns the number of bytes read, which may be 0.
// Most rows of such blocks between tags are short: the larger arrays are made after a few blocks.
#[inline(always)]
#[tactic(auto)]
fn read_short<C: LaneCodec, T: Destination>(
    tables: &FlatTables<'_>,
    src: &[u8],
    dst: &mut T,
) -> usize
    ensures { ReadsAhead T.Destination (new_state (C.grammar tables.now.flat)) src.now result dst.old dst.new }
{
    let mut codes = [0; 64];
    let mut places = [0; 64];
    let mut at = 0;
    loop {
        let (read, goes_on) = read_front::<C, T>(tables, &src[at..], &mut codes, &mut places, dst);
        at += read;
        if !goes_on || src.len() - at < 16 {
            return at;
        }
        if at >= 256 && src.len() - at >= 512 && begins_many::<C>(&src[at..]) {
            return at + read_long::<C, T>(tables, &src[at..], dst);
        }
    }
}

/// Reads blocks with many bytes past ASCII from the front, if lanes may be tried, and returns the number of bytes read.
// The test is a function of its own, so that it is inlined also if the compiler does not inline the loop.
#[inline(always)]
fn read_lanes<C: LaneCodec, T: Destination>(
    forms: &Forms<'_, '_, C>,
    pace: &Pace,
    src: &[u8],
    dst: &mut T,
) -> usize
    ensures { ReadsAhead T.Destination (new_state (C.grammar forms.now.tables.flat)) src.now result dst.old dst.new }
{
    if pace.left() > 0 {
        return 0;
    }
    if !begins_many::<C>(src) {
        pace.after_few();
        return 0;
    }
    let read = read_short::<C, T>(&forms.tables, src, dst);
    pace.after_lanes(read);
    read
}

/// Reads text from the front, up to a malformed or incomplete form or to the end of the room.
///
/// Returns the number of bytes read, which may be 0.
#[inline(always)]
#[tactic(auto)]
fn read_text<C: LaneCodec, T: Destination>(
    forms: &Forms<'_, '_, C>,
    pace: &Pace,
    src: &[u8],
    dst: &mut T,
) -> usize
    ensures { ReadsAhead T.Destination (new_state (C.grammar forms.now.tables.flat)) src.now result dst.old dst.new }
{
    let mut at = 0;
    loop {
        at += read_lanes(forms, pace, &src[at..], dst);
        let (read, goes_on) = read_all(forms, pace, &src[at..], dst);
        at += read;
        if !goes_on {
            return at;
        }
    }
}

/// Text, and what reads it.
#[derive(Drop)]
struct TextAhead<'x, 'a, 'b, C: LaneCodec> {
    forms: &'x Forms<'a, 'b, C>,
    pace: &'x Pace,
    src: &'x [u8],
}

impl<C: LaneCodec> FillsBuffer for TextAhead<'_, '_, '_, C> {
    ghost fills = { λ ahead. ReadsInto (C.grammar ahead.forms.now.tables.flat) ahead.src.now };

    /// Reads text from the front, and returns the numbers of bytes read and written.
    // It is a function of its own, so that its vectors and places leave the registers of a call that reads none.
    #[inline(never)]
    fn fill(&self, buffer: &mut [u8]) -> (usize, usize) {
        let forms = Forms::<C>::new(&self.forms.tables, self.forms.guess);
        let mut dst = Utf8Destination::new(buffer);
        let read = read_text(&forms, self.pace, self.src, &mut dst);
        (read, dst.written())
    }
}

/// Reads text from the front near a malformed sequence, and short text, without lanes.
///
/// Returns the number of bytes read, which may be 0, and whether lanes may be tried.
#[inline(always)]
fn read_nearby<C: LaneCodec, T: Destination>(
    forms: &Forms<'_, '_, C>,
    pace: &Pace,
    src: &[u8],
    dst: &mut T,
) -> (usize, bool)
    ensures { ReadsAhead T.Destination (new_state (C.grammar forms.now.tables.flat)) src.now result.0 dst.old dst.new }
{
    if src.len() < LEAST {
        pace.after_few();
    }
    if pace.left() == 0 {
        return (0, true);
    }
    read_all(forms, pace, src, dst)
}

/// Reads text from the front, in a call of its own if it is written as UTF-8, and returns the number of bytes read.
#[inline(always)]
fn read_lent<C: LaneCodec, T: Destination>(
    forms: &Forms<'_, '_, C>,
    pace: &Pace,
    src: &[u8],
    dst: &mut T,
) -> usize
    ensures { ReadsAhead T.Destination (new_state (C.grammar forms.now.tables.flat)) src.now result dst.old dst.new }
{
    match dst.lend(&TextAhead { forms, pace, src }) {
        Some(read) => read,
        None => read_text(forms, pace, src, dst),
    }
}

/// Reads text of a codec from the front over flat tables, and returns the number of bytes read, which may be 0.
#[inline(always)]
#[tactic(auto)]
fn read_flat<C: LaneCodec, T: Destination>(
    tables: &FlatTables<'_>,
    guess: &Cell<usize>,
    pace: &Pace,
    src: &[u8],
    dst: &mut T,
) -> usize
    ensures { ReadsAhead T.Destination (new_state (C.grammar tables.now.flat)) src.now result dst.old dst.new }
{
    let forms = Forms::<C>::new(tables, guess);
    let (read, goes_on) = read_nearby(&forms, pace, src, dst);
    if !goes_on {
        return read;
    }
    read + read_lent(&forms, pace, &src[read..], dst)
}

/// Reads text of a codec from the front, up to a malformed or incomplete form or to the end of the room.
///
/// Over packed tables it reads only ASCII. Returns the number of bytes read, which may be 0. If it reads any, three code
/// units stay free. `guess` is what the codec keeps from one form of four bytes to the next.
// ASCII at the front is read before anything is made ready for other text.
#[inline(always)]
#[tactic(auto)]
pub fn read_by_tables<C: LaneCodec, T: Destination>(
    tables: &Tables<'_>,
    guess: &Cell<usize>,
    pace: &Pace,
    src: &[u8],
    dst: &mut T,
) -> usize
    ensures { ReadsAhead T.Destination (new_state (C.grammar tables.now.flat)) src.now result dst.old dst.new }
{
    let ascii = read_ascii(src, dst);
    if ascii == src.len() {
        return ascii;
    }
    let Some(flat) = tables.flat() else {
        return ascii;
    };
    pace.after_ascii(ascii);
    ascii + read_flat::<C, T>(flat, guess, pace, &src[ascii..], dst)
}
