//! The decoder of Shift_JIS.
ghost use Rattle.std.specs.{Prelude.{ℕ, ◌*◌, ◌≡◌, ◌≤◌, [], option_to_list, IfSome, if◌then◌else◌}, Char.IsScalar};
ghost use Rattle.{legacy_tables.specs.Unicode.katakana_of, legacy_base.specs.{ShiftJis.{is_shift_jis_lead, shift_jis_scalars}, Grammar.shift_jis}};
ghost use Rattle.legacy_japanese.specs.{ShiftJisPlaces.shift_jis_place, ShiftJisShown.{shift_jis_codec, shift_jis_first, shift_jis_pair_scalars}};
ghost use Rattle.legacy_decoder_engine.{proofs.LeadHeld.ascii, specs.{Feeding.Took, LeadCodecs.held_bytes, ReadAhead.IsFrontForm}};
ghost use Rattle.legacy_tables.specs.AcceptedTables.{AcceptedIndexes};

use super::held_lead::ShiftJisLead;
use super::places::{LEADS, TRAILS};
use legacy_base::{IndexName, Tables};
use legacy_decoder_engine::forms::Form;
use legacy_decoder_engine::lane_codec::LaneCodec;
use legacy_decoder_engine::lane_places::{lead_places, place_sums, trail_places};
use legacy_decoder_engine::lead_and_trail::{malformed_through, read_trail};
use legacy_decoder_engine::lead_decoder::{LeadCodec, LeadDecoder};
use legacy_decoder_engine::moves::{Fed, Need};
use legacy_decoder_engine::places::pair_pointer;
use legacy_tables::{DecoderTables, FlatTables};
use std::cell::Cell;
use std::simd::prelude::*;

/// The codec of Shift_JIS.
pub struct ShiftJis;

/// The decoder of Shift_JIS (Encoding Standard, "Shift_JIS decoder").
///
/// ASCII bytes and the byte 80 are themselves, and the bytes A1 to DF are the half-width katakana
/// U+FF61 to U+FF9F. A lead is 81 to 9F or E0 to FC, and a trail is 40 to 7E or 80 to FC. They give
/// the scalar of their pointer in index jis0208. The pointers 8836 to 10715 give the private-use
/// scalars U+E000 to U+E757.
///
/// Malformed sequences:
///
/// - the bytes A0 and FD to FF at the beginning of a sequence (1 byte);
/// - a lead at the end of the input (1 byte);
/// - a lead with a byte that gives no scalar with it (2 bytes); if that byte is ASCII, only the
///   lead (1 byte), and the ASCII byte is read again.
pub type ShiftJisDecoder<'a> = LeadDecoder<'a, ShiftJis>;

/// Reads the first byte of a sequence.
// In a function of its own the bytes FF take a tenth fewer instructions.
#[inline]
fn first_byte(byte: u8) -> (Fed, Option<ShiftJisLead>)
    ensures { Took (shift_jis_first byte) [] byte result.0 (held_bytes (λ l. l.byte) result.1) }
{
    if byte <= 0x80 {
        return (Fed::One(char::from(byte)), None);
    }
    if byte >= 0xA1 && byte <= 0xDF {
        return (Fed::One(katakana(byte)), None);
    }
    match ShiftJisLead::new(byte) {
        Some(lead) => (Fed::Nothing, Some(lead)),
        None => (malformed_through(1), None),
    }
}

/// Returns the half-width katakana of a byte from A1 to DF.
#[inline]
pub(crate) fn katakana(byte: u8) -> char
    requires low { 0xA1 ≤ byte }
    requires high { byte ≤ 0xDF }
    ensures { result ≡ katakana_of byte }
{
    match char::from_u32(0xFF61 + u32::from(byte - 0xA1)) {
        Some(scalar) => scalar,
        None => unreachable!(),
    }
}

/// Returns the scalar of a pointer, or `None`; the pointers 8836 to 10715 are for private use.
// No entry is at such a pointer. So the index is asked first, as nearly all text needs nothing else.
#[inline]
fn pointer_scalar<V: DecoderTables>(tables: &V, pointer: usize) -> Option<char>
    ensures { option_to_list result ≡ shift_jis_scalars (V.indexes tables.now).flat.jis0208 pointer }
{
    if let Some(scalar) = tables.idx(IndexName::Jis0208, pointer) {
        return Some(scalar);
    }
    if pointer >= 8836 && pointer <= 10715 {
        char::from_u32(0xE000 + (pointer - 8836) as u32)
    } else {
        None
    }
}

/// Returns the scalar of two bytes, or `None` if they are not a lead and a trail with a scalar.
#[inline]
fn form_scalar<V: DecoderTables>(tables: &V, lead: u8, trail: u8) -> Option<char>
    ensures value { option_to_list result
        ≡ (if is_shift_jis_lead lead
        then shift_jis_pair_scalars (V.indexes tables.now).flat.jis0208 lead trail
        else []) }
    ensures scalar { IfSome result IsScalar }
{
    pointer_scalar(tables, pair_pointer(&LEADS, &TRAILS, lead, trail))
}

/// Returns the form of a byte past ASCII that has a scalar by itself, or no form.
#[inline(always)]
fn single_form(byte: u8) -> Form
    ensures { (tables : AcceptedIndexes) (second third fourth : ℕ) → IsFrontForm (shift_jis tables.flat.jis0208) byte second third fourth result }
{
    if byte >= 0xA1 && byte <= 0xDF {
        Form::Single(katakana(byte))
    } else if byte == 0x80 {
        Form::Single('\u{80}')
    } else {
        Form::Other
    }
}

impl LaneCodec for ShiftJis {
    ghost grammar = { λ flat. shift_jis flat.jis0208 };

    ghost entries = { λ flat. flat.jis0208 };

    ghost place = { shift_jis_place };

    ghost pointers = { 47 * 188 };

    ghost ascii = { ascii shift_jis_codec };

    #[inline(always)]
    #[tactic(auto, using(crate::proofs::ShiftJisPlaces::pair_read))]
    fn form_at(
        tables: &FlatTables<'_>,
        guess: &Cell<usize>,
        first: u8,
        second: u8,
        third: u8,
        fourth: u8,
    ) -> Form {
        let _ = (guess.get(), third, fourth);
        match form_scalar(tables, first, second) {
            Some(scalar) => Form::Pair(scalar),
            None => single_form(first),
        }
    }

    #[inline(always)]
    fn index() -> IndexName {
        IndexName::Jis0208
    }

    #[inline(always)]
    fn pointer_count() -> usize {
        47 * 188
    }

    // The leads 81 to 9F and E0 to EF are 21 to 4F with two bits changed.
    #[inline(always)]
    fn places(codes: u16x8) -> u16x8 {
        place_sums(
            lead_places(codes ^ u16x8::splat(0xA0), 0x21, 188),
            trail_places(codes, 0x80, 0xFC),
        )
    }

    // A third of the trails of common text are ASCII.
    #[inline(always)]
    fn are_many(past: u32, bytes: usize) -> bool {
        5 * past as usize > 2 * bytes
    }

    // Two bytes of half-width katakana in a row are not both parts of pairs.
    #[inline(always)]
    fn has_singles(block: u8x64) -> bool {
        let katakana = (block - u8x64::splat(0xA1)).simd_le(u8x64::splat(0x3E));
        let bits = katakana.to_bitmask();
        bits & (bits >> 1) != 0
    }
}

impl LeadCodec for ShiftJis {
    type Lead = ShiftJisLead;

    ghost is_lead = { is_shift_jis_lead };

    ghost byte_of = { λ lead. lead.byte };

    ghost first = { shift_jis_first };

    ghost scalars = { λ flat. shift_jis_pair_scalars flat.jis0208 };

    ghost codec = { shift_jis_codec };

    ghost leads = { λ lead. lead.lead };

    #[inline]
    fn read_first(byte: u8) -> (Fed, Option<ShiftJisLead>) {
        first_byte(byte)
    }

    #[inline]
    fn read_pair(tables: &Tables<'_>, lead: ShiftJisLead, trail: u8) -> Fed {
        read_trail(form_scalar(tables, lead.byte, trail), trail)
    }

    #[inline]
    fn need() -> Need {
        Need::Narrow
    }

    fn utf16_length(byte_length: usize, held: usize) -> Option<usize> {
        byte_length.checked_add(held)
    }

    fn utf8_length_without_replacement(byte_length: usize, held: usize) -> Option<usize> {
        byte_length.checked_add(held)?.checked_mul(3)
    }

    fn utf8_length(byte_length: usize, held: usize) -> Option<usize> {
        ShiftJis::utf8_length_without_replacement(byte_length, held)
    }
}
