//! The decoder of EUC-KR.
ghost use Rattle.std.specs.{Prelude.{◌*◌, ◌≡◌, [], option_to_list, IfSome, if◌then◌else◌}, Char.IsScalar};
ghost use Rattle.legacy_base.specs.{EucKr.{euc_kr, euc_kr_pointer}, LeadForms.pair_scalars, Profile.is_lead};
ghost use Rattle.legacy_decoder_engine.{specs.{LanePlaces.row_place, LeadMachines.lead_first}, proofs.{LeadHeld.ascii, TwoByteMeets.is_lead-in}};
ghost use Rattle.legacy_korean.specs.EucKrShown.{euc_kr_codec};

use super::places::TRAILS;
use legacy_base::{IndexName, Tables};
use legacy_decoder_engine::forms::Form;
use legacy_decoder_engine::held_lead::Lead;
use legacy_decoder_engine::lane_codec::LaneCodec;
use legacy_decoder_engine::lane_places::{late_places, lead_places, place_sums};
use legacy_decoder_engine::lead_and_trail::{read_first, read_trail};
use legacy_decoder_engine::lead_decoder::{LeadCodec, LeadDecoder};
use legacy_decoder_engine::moves::{Fed, Need};
use legacy_decoder_engine::places::{ROWS_OF_190, pair_pointer};
use legacy_tables::{DecoderTables, FlatTables};
use std::cell::Cell;
use std::simd::prelude::*;

/// The codec of EUC-KR.
pub struct EucKr;

/// The decoder of EUC-KR (Encoding Standard, "EUC-KR decoder").
///
/// ASCII bytes are themselves. A lead is 81 to FE, and a trail is 41 to FE. They give the scalar of
/// their pointer in index EUC-KR.
///
/// Malformed sequences:
///
/// - the bytes 80 and FF at the beginning of a sequence (1 byte);
/// - a lead at the end of the input (1 byte);
/// - a lead with a byte that gives no scalar with it (2 bytes); if that byte is ASCII, only the
///   lead (1 byte), and the ASCII byte is read again.
pub type EucKrDecoder<'a> = LeadDecoder<'a, EucKr>;

/// Returns the scalar of two bytes, or `None` if they are not a lead and a trail with a scalar.
#[inline]
fn form_scalar<V: DecoderTables>(tables: &V, lead: u8, trail: u8) -> Option<char>
    ensures value { option_to_list result ≡ (if is_lead lead
        then pair_scalars euc_kr_pointer (V.indexes tables.now).flat.euc_kr lead trail
        else []) }
    ensures scalar { IfSome result IsScalar }
{
    tables.idx(
        IndexName::EucKr,
        pair_pointer(&ROWS_OF_190, &TRAILS, lead, trail),
    )
}

impl LaneCodec for EucKr {
    ghost grammar = { λ flat. euc_kr flat.euc_kr };

    ghost entries = { λ flat. flat.euc_kr };

    ghost place = { row_place 0x81 0x7D 190 0x41 };

    ghost pointers = { 126 * 190 };

    ghost ascii = { ascii euc_kr_codec };

    #[inline(always)]
    #[tactic(auto, using(crate::proofs::EucKrPlaces::pair_read, legacy_decoder_engine::proofs::FrontForms::pair_is))]
    fn form_at(
        tables: &FlatTables<'_>,
        guess: &Cell<usize>,
        first: u8,
        second: u8,
        third: u8,
        fourth: u8,
    ) -> Form {
        let _ = (guess.get(), third, fourth);
        Form::of_pair(form_scalar(tables, first, second))
    }

    #[inline(always)]
    fn index() -> IndexName {
        IndexName::EucKr
    }

    #[inline(always)]
    fn pointer_count() -> usize {
        126 * 190
    }

    #[inline(always)]
    fn places(codes: u16x8) -> u16x8 {
        place_sums(lead_places(codes, 0x81, 190), late_places(codes, 0x41))
    }
}

impl LeadCodec for EucKr {
    type Lead = Lead;

    ghost is_lead = { is_lead };

    ghost byte_of = { λ lead. lead.byte };

    ghost first = { lead_first is_lead };

    ghost scalars = { λ flat. pair_scalars euc_kr_pointer flat.euc_kr };

    ghost codec = { euc_kr_codec };

    ghost leads = { λ lead. is_lead-in lead.byte lead.low lead.high };

    #[inline]
    fn read_first(byte: u8) -> (Fed, Option<Lead>) {
        read_first(byte)
    }

    #[inline]
    fn read_pair(tables: &Tables<'_>, lead: Lead, trail: u8) -> Fed {
        read_trail(form_scalar(tables, lead.byte, trail), trail)
    }

    #[inline]
    fn need() -> Need {
        Need::Narrow
    }

    fn utf16_length(byte_length: usize, held: usize) -> Option<usize> {
        byte_length.checked_add(held)
    }

    fn utf8_length_without_replacement(byte_length: usize, held: usize) -> Option<usize> {
        let weighted = byte_length.checked_add(held)?;
        weighted.checked_add(weighted.div_ceil(2))?.checked_add(2)
    }

    fn utf8_length(byte_length: usize, held: usize) -> Option<usize> {
        byte_length.checked_add(held)?.checked_mul(3)
    }
}
