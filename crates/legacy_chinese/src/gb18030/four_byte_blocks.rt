//! What GB18030 reads ahead: the euro sign's byte, pairs, also by lanes, and sequences of four bytes.
// Functions that run for each sequence are always inlined. A call would keep the destination's place in memory.
ghost use Rattle.std.specs.{Prelude.{◌*◌, ◌≡◌, ◌<◌, [], Some, IfSome, option_to_list, if◌then◌else◌}, Char.IsScalar};
ghost use Rattle.{legacy_tables.specs.{Indexes.range, RangeParts.IsRangePart}, legacy_base.specs.{Gb18030.gb18030_scalars, Grammar.gb18030, States.is_lead}};
ghost use Rattle.legacy_chinese.specs.{Gb18030Shown.ascii, PairPlaces.pair_place};
ghost use Rattle.legacy_decoder_engine.specs.ReadAhead.{IsFrontForm};

use super::four_places::four_pointer;
use super::pair_places::TRAILS;
use legacy_base::IndexName;
use legacy_decoder_engine::forms::Form;
use legacy_decoder_engine::lane_codec::LaneCodec;
use legacy_decoder_engine::lane_places::{lead_places, place_sums, trail_places};
use legacy_decoder_engine::places::{ROWS_OF_190, pair_pointer};
use legacy_tables::{DecoderTables, FlatTables, Ranges};
use std::cell::Cell;
use std::simd::prelude::*;

/// The last pointer that a range may have.
const LAST_RANGE_POINTER: usize = 39419;

/// Returns the scalar of a pointer that is not in the range at the guess, by a search.
///
/// The place of the pointer's range becomes the guess.
// Cold, so that the loop that calls it keeps its values in registers.
#[cold]
#[inline(never)]
fn far_scalar(ranges: Ranges<'_>, guess: &Cell<usize>, pointer: usize) -> Option<char>
    requires { pointer < 0x1_0000_0000 }
    ensures { result ≡ range ranges.entry.list.now pointer }
{
    let place = ranges.place_of(pointer);
    match ranges.scalar_in(ranges.part_at(place), pointer) {
        Some(scalar) => {
            guess.set(place);
            Some(scalar)
        }
        None => ranges.scalar(pointer),
    }
}

/// Returns the scalar of a pointer, or `None` if it has none. It tries the range at the guess first.
#[inline]
pub(super) fn guessed_scalar(
    ranges: Ranges<'_>,
    guess: &Cell<usize>,
    pointer: usize,
) -> Option<char>
    requires { pointer < 0x1_0000_0000 }
    ensures { result ≡ range ranges.entry.list.now pointer }
{
    if let Some(scalar) = ranges.scalar_in(ranges.part_at(guess.get()), pointer) {
        return Some(scalar);
    }
    if pointer > LAST_RANGE_POINTER {
        return ranges.scalar(pointer);
    }
    far_scalar(ranges, guess, pointer)
}

/// Returns the scalar of two bytes, or `None` if they are not a lead and a trail with an entry.
#[inline]
pub(super) fn form_scalar<V: DecoderTables>(tables: &V, lead: u8, trail: u8) -> Option<char>
    ensures value { option_to_list result ≡ (if is_lead lead
        then gb18030_scalars (V.indexes tables.now).flat.gb18030 lead trail
        else []) }
    ensures scalar { IfSome result IsScalar }
{
    tables.idx(
        IndexName::Gb18030,
        pair_pointer(&ROWS_OF_190, &TRAILS, lead, trail),
    )
}

/// Returns the form of four bytes, or no form.
#[inline(always)]
fn four_form(
    tables: &FlatTables<'_>,
    guess: &Cell<usize>,
    first: u8,
    second: u8,
    third: u8,
    fourth: u8,
) -> Form
    ensures { IsFrontForm (gb18030 tables.now.flat.gb18030 tables.now.flat.ranges) first second third fourth result }
{
    let pointer = four_pointer(first, second, third, fourth);
    match guessed_scalar(tables.ranges(), guess, pointer) {
        Some(scalar) => Form::Four(scalar),
        None => Form::Other,
    }
}

/// The codec of GB18030 and GBK as its blocks are read.
///
/// The place of the last range that was used is the guess for the next sequence of four bytes.
pub(super) struct Gb18030;

impl LaneCodec for Gb18030 {
    ghost grammar = { λ flat. gb18030 flat.gb18030 flat.ranges };

    ghost entries = { λ flat. flat.gb18030 };

    ghost place = { pair_place 190 0x80 };

    ghost pointers = { 126 * 190 };

    ghost ascii = { ascii };

    #[inline(always)]
    #[tactic(auto, using(crate::proofs::Gb18030Held::pair_read))]
    fn form_at(
        tables: &FlatTables<'_>,
        guess: &Cell<usize>,
        first: u8,
        second: u8,
        third: u8,
        fourth: u8,
    ) -> Form {
        if let Some(scalar) = form_scalar(tables, first, second) {
            return Form::Pair(scalar);
        }
        if first == 0x80 {
            return Form::Single('\u{20AC}');
        }
        four_form(tables, guess, first, second, third, fourth)
    }

    #[inline(always)]
    fn index() -> IndexName {
        IndexName::Gb18030
    }

    #[inline(always)]
    fn pointer_count() -> usize {
        126 * 190
    }

    #[inline(always)]
    fn places(codes: u16x8) -> u16x8 {
        place_sums(
            lead_places(codes, 0x81, 190),
            trail_places(codes, 0x80, 0xFE),
        )
    }
}
