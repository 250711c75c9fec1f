//! The decoder of Big5.
ghost use Rattle.std.specs.Prelude.{◌*◌, ℕ, [], ◌∷◌};
ghost use Rattle.legacy_base.specs.{Big5.big5_scalars, Grammar.big5, States.is_lead};
ghost use Rattle.legacy_decoder_engine.{specs.{Feeding.Took, LeadMachines.lead_first, Steps.trail_step}, proofs.{LeadHeld.ascii, TwoByteMeets.is_lead-in}};
ghost use Rattle.legacy_chinese.specs.{Big5Forms.IsMarkedForm, Big5Shown.{big5_codec, big5_pair_scalars}, PairPlaces.pair_place};

use super::places::{ROWS_OF_157, TRAILS};
use legacy_base::{IndexName, Tables};
use legacy_decoder_engine::forms::Form;
use legacy_decoder_engine::held_lead::Lead;
use legacy_decoder_engine::lane_codec::LaneCodec;
use legacy_decoder_engine::lane_places::{lead_places, place_sums, trail_places};
use legacy_decoder_engine::lead_and_trail::{read_first, read_trail};
use legacy_decoder_engine::lead_decoder::{LeadCodec, LeadDecoder};
use legacy_decoder_engine::moves::{Fed, Need};
use legacy_decoder_engine::places::pair_pointer;
use legacy_tables::{DecoderTables, FlatTables};
use std::cell::Cell;
use std::simd::prelude::*;

/// The codec of Big5.
pub struct Big5;

/// The decoder of Big5 (Encoding Standard, "Big5 decoder").
///
/// ASCII bytes are themselves. A lead is 81 to FE, and a trail is 40 to 7E or A1 to FE. They give
/// the scalar of their pointer in index Big5. The pointers 1133, 1135, 1164 and 1166 give a letter
/// and a combining mark.
///
/// Malformed sequences:
///
/// - the bytes 80 and FF at the beginning of a sequence (1 byte);
/// - a lead at the end of the input (1 byte);
/// - a lead with a byte that gives no scalar with it (2 bytes); if that byte is ASCII, only the
///   lead (1 byte), and the ASCII byte is read again.
pub type Big5Decoder<'a> = LeadDecoder<'a, Big5>;

/// Reads a trail that has this pointer with its lead.
///
/// Four pointers give a letter and a combining mark, and the others give their entry.
#[inline]
#[tactic(auto, using(std::proofs::lemmas::Grind::common_steps))]
fn read_pointer(tables: &Tables<'_>, pointer: usize, trail: u8) -> Fed
    ensures { (lead : ℕ) → Took (trail_step 1 (big5_scalars tables.now.flat.big5 pointer) trail) (lead ∷ []) trail result [] }
{
    match pointer {
        1133 => Fed::Two('\u{CA}', '\u{304}'),
        1135 => Fed::Two('\u{CA}', '\u{30C}'),
        1164 => Fed::Two('\u{EA}', '\u{304}'),
        1166 => Fed::Two('\u{EA}', '\u{30C}'),
        _ => read_trail(tables.idx(IndexName::Big5, pointer), trail),
    }
}

/// Returns the letter and the combining mark of a pointer, or no form.
#[inline(always)]
fn marked_form(pointer: usize) -> Form
    ensures { IsMarkedForm pointer result }
{
    match pointer {
        1133 => Form::Marked('\u{CA}', '\u{304}'),
        1135 => Form::Marked('\u{CA}', '\u{30C}'),
        1164 => Form::Marked('\u{EA}', '\u{304}'),
        1166 => Form::Marked('\u{EA}', '\u{30C}'),
        _ => Form::Other,
    }
}

impl LaneCodec for Big5 {
    ghost grammar = { λ flat. big5 flat.big5 };

    ghost entries = { λ flat. flat.big5 };

    ghost place = { pair_place 157 0xA1 };

    ghost pointers = { 126 * 157 };

    ghost ascii = { ascii big5_codec };

    #[inline(always)]
    fn form_at(
        tables: &FlatTables<'_>,
        guess: &Cell<usize>,
        first: u8,
        second: u8,
        third: u8,
        fourth: u8,
    ) -> Form {
        let _ = (guess.get(), third, fourth);
        let pointer = pair_pointer(&ROWS_OF_157, &TRAILS, first, second);
        match tables.idx(IndexName::Big5, pointer) {
            Some(scalar) => Form::Pair(scalar),
            None => marked_form(pointer),
        }
    }

    #[inline(always)]
    fn index() -> IndexName {
        IndexName::Big5
    }

    // Two in five trails of common text are ASCII.
    #[inline(always)]
    fn are_many(past: u32, bytes: usize) -> bool {
        8 * past as usize > 3 * bytes
    }

    #[inline(always)]
    fn pointer_count() -> usize {
        126 * 157
    }

    #[inline(always)]
    fn places(codes: u16x8) -> u16x8 {
        place_sums(
            lead_places(codes, 0x81, 157),
            trail_places(codes, 0xA1, 0xFE),
        )
    }
}

impl LeadCodec for Big5 {
    type Lead = Lead;

    ghost is_lead = { is_lead };

    ghost byte_of = { λ lead. lead.byte };

    ghost first = { lead_first is_lead };

    ghost scalars = { λ flat. big5_pair_scalars flat.big5 };

    ghost codec = { big5_codec };

    ghost leads = { λ lead. is_lead-in lead.byte lead.low lead.high };

    #[inline]
    fn read_first(byte: u8) -> (Fed, Option<Lead>) {
        read_first(byte)
    }

    #[inline]
    fn read_pair(tables: &Tables<'_>, lead: Lead, trail: u8) -> Fed {
        let pointer = pair_pointer(&ROWS_OF_157, &TRAILS, lead.byte, trail);
        read_pointer(tables, pointer, trail)
    }

    #[inline]
    fn need() -> Need {
        Need::Wide
    }

    fn utf16_length(byte_length: usize, held: usize) -> Option<usize> {
        byte_length.checked_add(held)?.checked_add(1)
    }

    fn utf8_length_without_replacement(byte_length: usize, held: usize) -> Option<usize> {
        let twice = byte_length.checked_add(held)?.checked_mul(2)?;
        twice.checked_add(2)
    }

    fn utf8_length(byte_length: usize, held: usize) -> Option<usize> {
        let thrice = byte_length.checked_add(held)?.checked_mul(3)?;
        thrice.checked_add(3)
    }
}
