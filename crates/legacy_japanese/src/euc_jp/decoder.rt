//! The decoder of EUC-JP.
ghost use Rattle.std.specs.{Prelude.{ℕ, ◌+◌, ◌*◌, ◌/◌, ◌^◌, ◌≡◌, ◌≤◌, [], length, option_to_list, IfSome, MatchOption}, Char.IsScalar};
ghost use Rattle.legacy_base.specs.{EucJp.euc_jp_scalars, Grammar.euc_jp, States.{is_neutral, new_state}};
ghost use Rattle.legacy_tables.specs.Tables.{index_list};
ghost use Rattle.legacy_decoder_engine.specs.{Feeding.Took, LanePlaces.row_place, ReadAhead.IsFrontForm};
ghost use Rattle.legacy_japanese.specs.{EucJpShown.ascii, EucJpMachine.euc_jp_step, EucJpDecoder.{euc_jp_state, held_bytes}};

mod resume;

use super::held_lead::EucJpLead;
use crate::shift_jis::decoder::katakana;
use legacy_base::{DecoderStep, Destination, IndexName, RawDecoder, Tables};
use legacy_decoder_engine::drive::{count_malformed_bytes, drive_decoder};
use legacy_decoder_engine::forms::Form;
use legacy_decoder_engine::lane_blocks::read_by_tables;
use legacy_decoder_engine::lane_codec::LaneCodec;
use legacy_decoder_engine::lane_places::{late_places, lead_places, place_sums};
use legacy_decoder_engine::lead_and_trail::{malformed_through, read_trail, unmapped};
use legacy_decoder_engine::moves::{DecoderMoves, Fed, Need};
use legacy_decoder_engine::pace::Pace;
use legacy_tables::{DecoderTables, FlatTables};
use std::cell::Cell;
use std::simd::prelude::*;

/// The held-back bytes: the first bytes of a sequence.
#[derive(Clone, Copy)]
enum Held {
    Nothing,
    /// 8E, before a byte of half-width katakana.
    Katakana,
    /// 8F, before a pair of JIS X 0212.
    Jis0212,
    /// The lead of a pair of JIS X 0208.
    Lead(EucJpLead),
    /// 8F and the lead of a pair of JIS X 0212.
    Jis0212Lead(EucJpLead),
}

/// The decoder of EUC-JP (Encoding Standard, "EUC-JP decoder").
///
/// ASCII bytes are themselves. 8E and a byte A1 to DF are the half-width katakana U+FF61 to U+FF9F.
/// 8F, a lead A1 to FE and a trail A1 to FE are looked up in index jis0212. A lead and a trail
/// alone are looked up in index jis0208.
///
/// Malformed sequences:
///
/// - another byte from 80 on (1 byte);
/// - 8E, 8F or a lead with a byte that does not continue or map (2 bytes); if that byte is ASCII,
///   only the first one (1 byte), and the ASCII byte is read again;
/// - 8F, a lead and a byte that does not map (3 bytes); if that byte is ASCII, only the first two
///   (2 bytes), and the ASCII byte is read again;
/// - an incomplete sequence at the end of the input (1 or 2 bytes).
#[derive(Drop)]
pub struct EucJpDecoder<'a> {
    tables: &'a Tables<'a>,
    held: Held,
    pace: Pace,
}

/// Returns the scalar of a lead and a trail in the index, or `None`.
#[inline]
fn pair_scalar<V: DecoderTables>(
    tables: &V,
    name: IndexName,
    lead: EucJpLead,
    trail: u8,
) -> Option<char>
    ensures value { option_to_list result ≡ euc_jp_scalars (index_list (V.indexes tables.now).flat name) lead.byte trail }
    ensures scalar { IfSome result IsScalar }
{
    if trail < 0xA1 || trail > 0xFE {
        return None;
    }
    let row = usize::from(lead.byte - 0xA1) * 94;
    tables.idx(name, row + usize::from(trail - 0xA1))
}

/// Returns what a byte leads to if nothing is held back.
#[inline(always)]
fn read_first(byte: u8) -> (Fed, Held)
    ensures { Took (euc_jp_step [] [] [] byte) [] byte result.0 (held_bytes result.1) }
{
    match byte {
        0..=0x7F => (Fed::One(char::from(byte)), Held::Nothing),
        0x8E => (Fed::Nothing, Held::Katakana),
        0x8F => (Fed::Nothing, Held::Jis0212),
        0xA1..=0xFE => (Fed::Nothing, Held::Lead(EucJpLead { byte })),
        _ => (malformed_through(1), Held::Nothing),
    }
}

/// Returns what a byte leads to after held-back bytes, and what is held back after it.
// Only the first byte is read without a call: few bytes come here, but for malformed ones.
#[inline(never)]
#[tactic(auto, using(std::proofs::lemmas::Grind::common_steps))]
fn read_next(tables: &Tables, held: Held, byte: u8) -> (Fed, Held)
    ensures { Took
        (euc_jp_step tables.now.flat.jis0208 tables.now.flat.jis0212 (held_bytes held) byte)
        (held_bytes held) byte result.0 (held_bytes result.1) }
{
    match held {
        Held::Nothing => read_first(byte),
        Held::Katakana if byte >= 0xA1 && byte <= 0xDF => (Fed::One(katakana(byte)), Held::Nothing),
        Held::Katakana => (unmapped(1, byte), Held::Nothing),
        Held::Jis0212 => match EucJpLead::new(byte) {
            Some(lead) => (Fed::Nothing, Held::Jis0212Lead(lead)),
            None => (unmapped(1, byte), Held::Nothing),
        },
        Held::Lead(lead) => {
            let scalar = pair_scalar(tables, IndexName::Jis0208, lead, byte);
            (read_trail(scalar, byte), Held::Nothing)
        }
        Held::Jis0212Lead(lead) => match pair_scalar(tables, IndexName::Jis0212, lead, byte) {
            Some(scalar) => (Fed::One(scalar), Held::Nothing),
            None => (unmapped(2, byte), Held::Nothing),
        },
    }
}

/// Returns the number of held-back bytes.
#[inline]
fn held_length(held: Held) -> u8
    ensures { result ≡ length (held_bytes held) }
{
    match held {
        Held::Nothing => 0,
        Held::Katakana | Held::Jis0212 | Held::Lead(_) => 1,
        Held::Jis0212Lead(_) => 2,
    }
}

/// Returns the length, half of it rounded up, and two more, or `None` if that overflows.
fn half_more(length: usize) -> Option<usize>
    ensures { MatchOption result (2 ^ 64 ≤ length + (length + 1) / 2 + 2) (λ n. n ≡ length + (length + 1) / 2 + 2) }
{
    let half = length / 2 + length % 2;
    length.checked_add(half)?.checked_add(2)
}

impl<'a> EucJpDecoder<'a> {
    ghost use Rattle.legacy_base.specs.Lengths.{answer, weighted};

    /// Returns a decoder before its first byte, which uses indexes jis0208 and jis0212 of the tables.
    pub fn new(tables: &'a Tables<'a>) -> EucJpDecoder<'a>
        ensures { euc_jp_state result ≡ new_state (euc_jp tables.now.flat.jis0208 tables.now.flat.jis0212) }
    {
        EucJpDecoder {
            tables,
            held: Held::Nothing,
            pace: Pace::new(),
        }
    }

    /// Checks whether no byte is held back.
    #[inline]
    pub fn in_neutral_state(&self) -> bool
        ensures { result ≡ is_neutral (euc_jp_state self.now) }
    {
        matches!(self.held, Held::Nothing)
    }

    /// Returns the number of held-back bytes, at most 2.
    #[inline]
    pub fn held_count(&self) -> usize
        ensures { result ≡ length (euc_jp_state self.now).held }
    {
        match self.held {
            Held::Nothing => 0,
            Held::Katakana | Held::Jis0212 | Held::Lead(_) => 1,
            Held::Jis0212Lead(_) => 2,
        }
    }

    /// Returns the number of bytes, plus one if bytes are held back, or `None` if that overflows.
    fn weighted_length(&self, byte_length: usize) -> Option<usize>
        ensures { result ≡ answer (weighted (euc_jp_state self.now) byte_length) }
    {
        byte_length.checked_add(usize::from(!matches!(self.held, Held::Nothing)))
    }
}

impl DecoderMoves for EucJpDecoder<'_> {
    ghost state = { euc_jp_state };

    #[inline]
    fn rests(&self) -> bool {
        true
    }

    #[inline]
    fn reading_need(&self, byte: u8) -> Need {
        if byte < 0x80 && matches!(self.held, Held::Nothing) {
            Need::Unit
        } else {
            Need::Narrow
        }
    }

    #[inline]
    fn release_need(&self) -> Need {
        Need::Narrow
    }

    fn release(&mut self) -> Option<char> {
        None
    }

    #[inline(always)]
    #[tactic(auto, using(crate::proofs::EucJpHeld::feeds))]
    fn feed(&mut self, byte: u8) -> Fed {
        let (fed, held) = match self.held {
            Held::Nothing => read_first(byte),
            held => read_next(self.tables, held, byte),
        };
        self.held = held;
        fed
    }

    #[inline(always)]
    fn after_malformed(&mut self) {
        self.pace.after_malformed();
    }

    #[inline]
    #[tactic(auto, using(crate::proofs::EucJpHeld::ends_none, crate::proofs::EucJpHeld::ends_some))]
    fn has_report(&self) -> bool {
        !matches!(self.held, Held::Nothing)
    }

    fn report(&mut self) -> Option<(u8, u8)> {
        let length = held_length(self.held);
        if length == 0 {
            return None;
        }
        self.held = Held::Nothing;
        Some((length, 0))
    }

    #[inline(always)]
    #[tactic(auto, using(crate::proofs::EucJpHeld::malformed_byte))]
    fn is_malformed_byte(&self, byte: u8) -> bool {
        matches!(self.held, Held::Nothing)
            && byte >= 0x80
            && byte != 0x8E
            && byte != 0x8F
            && (byte < 0xA1 || byte > 0xFE)
    }

    #[inline(always)]
    fn read_common<T: Destination>(&mut self, src: &[u8], dst: &mut T) -> usize {
        match self.held {
            Held::Nothing => {
                let guess = Cell::new(0);
                read_by_tables::<EucJp, T>(self.tables, &guess, &self.pace, src, dst)
            }
            _ => 0,
        }
    }
}

/// The codec of EUC-JP.
pub struct EucJp;

/// Returns the form that begins with 8E or 8F, or no form.
#[inline(always)]
fn shifted_form(tables: &FlatTables<'_>, first: u8, second: u8, third: u8) -> Form
    ensures { (fourth : ℕ) → IsFrontForm (euc_jp tables.now.flat.jis0208 tables.now.flat.jis0212) first second third fourth result }
{
    if first == 0x8E && second >= 0xA1 && second <= 0xDF {
        return Form::Pair(katakana(second));
    }
    if first != 0x8F {
        return Form::Other;
    }
    let Some(lead) = EucJpLead::new(second) else {
        return Form::Other;
    };
    match pair_scalar(tables, IndexName::Jis0212, lead, third) {
        Some(scalar) => Form::Triple(scalar),
        None => Form::Other,
    }
}

impl LaneCodec for EucJp {
    ghost grammar = { λ flat. euc_jp flat.jis0208 flat.jis0212 };

    ghost entries = { λ flat. flat.jis0208 };

    ghost place = { row_place 0xA1 0x5D 94 0xA1 };

    ghost pointers = { 94 * 94 };

    ghost ascii = { ascii };

    #[inline(always)]
    #[tactic(auto, using(crate::proofs::EucJpHeld::pair_read, legacy_decoder_engine::proofs::FrontForms::pair_is))]
    fn form_at(
        tables: &FlatTables<'_>,
        guess: &Cell<usize>,
        first: u8,
        second: u8,
        third: u8,
        fourth: u8,
    ) -> Form {
        let _ = (guess.get(), fourth);
        match EucJpLead::new(first) {
            Some(lead) => Form::of_pair(pair_scalar(tables, IndexName::Jis0208, lead, second)),
            None => shifted_form(tables, first, second, third),
        }
    }

    #[inline(always)]
    fn index() -> IndexName {
        IndexName::Jis0208
    }

    #[inline(always)]
    fn pointer_count() -> usize {
        94 * 94
    }

    #[inline(always)]
    fn places(codes: u16x8) -> u16x8 {
        place_sums(lead_places(codes, 0xA1, 94), late_places(codes, 0xA1))
    }
}

impl RawDecoder for EucJpDecoder<'_> {
    ghost state = { euc_jp_state };

    #[inline(always)]
    fn step<T: Destination>(&mut self, src: &[u8], dst: &mut T, last: bool) -> DecoderStep {
        drive_decoder(self, src, dst, last)
    }

    fn malformed_bytes(&self, src: &[u8]) -> usize {
        count_malformed_bytes(self, src)
    }

    fn max_utf16_buffer_length(&self, byte_length: usize) -> Option<usize> {
        self.weighted_length(byte_length)
    }

    fn max_utf8_buffer_length_without_replacement(&self, byte_length: usize) -> Option<usize> {
        half_more(self.weighted_length(byte_length)?)
    }

    fn max_utf8_buffer_length(&self, byte_length: usize) -> Option<usize> {
        self.weighted_length(byte_length)?.checked_mul(3)
    }
}
