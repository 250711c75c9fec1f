//! The one decoder of the codecs whose forms have one byte, or a lead and a trail.
#![tactic(auto, using(crate::proofs::LeadHeld::moves))]

ghost use Rattle.std.specs.Prelude.{◌≡◌, ℕ, List, [], ◌∷◌, Bool, true, length};
ghost use Rattle.legacy_tables.specs.Indexes.{FlatIndexes};
ghost use Rattle.legacy_text.specs.EncodingForm.{EncodingForm};
ghost use Rattle.legacy_base.specs.{States.{is_neutral, new_state}, DecoderActs.{full_need_in, release_need_in}, Formulas.{Formula, number, ◌⊕◌}};
ghost use Rattle.legacy_base.specs.{Lengths.{answer, utf16_formula, utf8_formula, utf8_without_replacement_formula}, Fronts.malformed};
ghost use Rattle.legacy_decoder_engine.specs.{Steps.{Step, finish, trail_step}, LeadMachines.two_byte_step, Moves.need_units, Feeding.Took};
ghost use Rattle.legacy_decoder_engine.specs.LeadCodecs.{IsLeadCodec, held_bytes, lead_state};

mod resume;

use crate::drive::{count_malformed_bytes, drive_decoder};
use crate::lane_blocks::read_by_tables;
use crate::lane_codec::LaneCodec;
use crate::moves::{DecoderMoves, Fed, Need};
use crate::pace::Pace;
use legacy_base::{DecoderStep, Destination, RawDecoder, Tables};
use std::cell::Cell;

/// A codec whose forms have one byte, or a lead and a trail: the parts that it does not share with the others.
pub trait LeadCodec: LaneCodec {
    /// A byte that begins a form of two bytes and is held back.
    type Lead: Copy;

    /// Which bytes are leads.
    ghost is_lead: { ℕ → Bool };

    /// The byte of a lead.
    ghost byte_of: { Self.Lead → ℕ };

    /// The step at the first byte of a form.
    ghost first: { ℕ → Step };

    /// The scalars of a lead and a trail.
    ghost scalars: { FlatIndexes → ℕ → ℕ → List ℕ };

    /// Reads the first byte of a form.
    fn read_first(byte: u8) -> (Fed, Option<Self::Lead>)
        ensures { Took (first byte) [] byte result.0 (held_bytes byte_of result.1) };

    /// Reads the byte after a lead.
    fn read_pair(tables: &Tables<'_>, lead: Self::Lead, trail: u8) -> Fed
        ensures { Took (trail_step 1 (scalars tables.now.flat (byte_of lead) trail) trail) (byte_of lead ∷ []) trail result [] };

    /// Returns the need of every act except reading ASCII with nothing held back.
    fn need() -> Need
        ensures reads { (form : EncodingForm) (flat : FlatIndexes) → need_units form result ≡ full_need_in form (Self.grammar flat) }
        ensures writes { (form : EncodingForm) (flat : FlatIndexes) → need_units form result ≡ release_need_in form (Self.grammar flat) };

    /// Returns `max_utf16_buffer_length` if `held` bytes are held back.
    fn utf16_length(byte_length: usize, held: usize) -> Option<usize>
        ensures { (flat : FlatIndexes) (units : Formula) → result ≡ answer (utf16_formula (Self.grammar flat) (number byte_length)
            (number byte_length ⊕ number held) units) };

    /// Returns `max_utf8_buffer_length_without_replacement` if `held` bytes are held back.
    fn utf8_length_without_replacement(byte_length: usize, held: usize) -> Option<usize>
        ensures { (flat : FlatIndexes) (units : Formula) →
            result ≡ answer (utf8_without_replacement_formula (Self.grammar flat) (number byte_length)
            (number byte_length ⊕ number held) units) };

    /// Returns `max_utf8_buffer_length` if `held` bytes are held back.
    fn utf8_length(byte_length: usize, held: usize) -> Option<usize>
        ensures { (flat : FlatIndexes) (units : Formula) → result ≡ answer (utf8_formula (Self.grammar flat) (number byte_length)
            (number byte_length ⊕ number held) units) };

    ghost codec: { IsLeadCodec Self.grammar is_lead first scalars };

    ghost leads: { (lead : Self.Lead) → is_lead (byte_of lead) ≡ true };
}

/// Returns what a byte leads to, and the lead that is held back after it.
#[inline(always)]
fn read<C: LeadCodec>(
    tables: &Tables<'_>,
    held: Option<C::Lead>,
    byte: u8,
) -> (Fed, Option<C::Lead>)
    ensures { Took (two_byte_step C.first (C.scalars tables.now.flat) (held_bytes C.byte_of held) byte)
        (held_bytes C.byte_of held) byte result.0 (held_bytes C.byte_of result.1) }
{
    match held {
        Some(lead) => (C::read_pair(tables, lead, byte), None),
        None => C::read_first(byte),
    }
}

/// Returns true only if the byte is malformed by itself at the beginning of a form.
#[inline(always)]
fn is_malformed<C: LeadCodec>(byte: u8) -> bool
    ensures { result ≡ true → C.first byte ≡ finish (malformed 1) }
{
    matches!(
        C::read_first(byte).0,
        Fed::MalformedSequence {
            length: 1,
            back: 0,
            unread: false
        }
    )
}

/// The decoder of a `LeadCodec`. It holds back a lead, or nothing.
#[derive(Drop)]
pub struct LeadDecoder<'a, C: LeadCodec> {
    tables: &'a Tables<'a>,
    held: Option<C::Lead>,
    pace: Pace,
}

impl<'a, C: LeadCodec> LeadDecoder<'a, C> {
    /// Returns a decoder before its first byte, which uses the codec's index of the tables.
    pub fn new(tables: &'a Tables<'a>) -> LeadDecoder<'a, C>
        ensures { lead_state C.grammar C.byte_of result.tables.now result.held ≡ new_state (C.grammar tables.now.flat) }
    {
        LeadDecoder {
            tables,
            held: None,
            pace: Pace::new(),
        }
    }

    /// Checks whether no lead is held back.
    pub fn in_neutral_state(&self) -> bool
        ensures { result ≡ is_neutral (lead_state C.grammar C.byte_of self.now.tables.now self.now.held) }
    {
        self.held.is_none()
    }

    /// Returns the number of held-back bytes: 1 for a lead, otherwise 0.
    #[inline]
    pub fn held_count(&self) -> usize
        ensures { result ≡ length (held_bytes C.byte_of self.now.held) }
    {
        usize::from(self.held.is_some())
    }
}

impl<'a, C: LeadCodec> DecoderMoves for LeadDecoder<'a, C> {
    ghost state = { λ d. lead_state C.grammar C.byte_of d.tables.now d.held };

    #[inline]
    fn rests(&self) -> bool {
        true
    }

    #[inline]
    fn reading_need(&self, byte: u8) -> Need {
        if byte < 0x80 && self.held.is_none() {
            return Need::Unit;
        }
        C::need()
    }

    #[inline]
    fn release_need(&self) -> Need {
        C::need()
    }

    #[inline]
    fn release(&mut self) -> Option<char> {
        None
    }

    #[inline(always)]
    fn feed(&mut self, byte: u8) -> Fed {
        let (fed, held) = read::<C>(self.tables, self.held, byte);
        self.held = held;
        fed
    }

    #[inline(always)]
    fn after_malformed(&mut self) {
        self.pace.after_malformed();
    }

    #[inline]
    fn has_report(&self) -> bool {
        self.held.is_some()
    }

    #[inline]
    fn report(&mut self) -> Option<(u8, u8)> {
        match self.held {
            Some(_) => {
                self.held = None;
                Some((1, 0))
            }
            None => None,
        }
    }

    #[inline(always)]
    fn is_malformed_byte(&self, byte: u8) -> bool {
        match self.held {
            Some(_) => false,
            None => is_malformed::<C>(byte),
        }
    }

    #[inline(always)]
    fn read_common<T: Destination>(&mut self, src: &[u8], dst: &mut T) -> usize {
        if self.held.is_some() {
            return 0;
        }
        let guess = Cell::new(0);
        read_by_tables::<C, T>(self.tables, &guess, &self.pace, src, dst)
    }
}

impl<'a, C: LeadCodec> RawDecoder for LeadDecoder<'a, C> {
    ghost state = { λ d. lead_state C.grammar C.byte_of d.tables.now d.held };

    #[inline(always)]
    fn step<T: Destination>(&mut self, src: &[u8], dst: &mut T, last: bool) -> DecoderStep {
        drive_decoder(self, src, dst, last)
    }

    fn malformed_bytes(&self, src: &[u8]) -> usize {
        count_malformed_bytes(self, src)
    }

    fn max_utf16_buffer_length(&self, byte_length: usize) -> Option<usize> {
        C::utf16_length(byte_length, self.held_count())
    }

    fn max_utf8_buffer_length_without_replacement(&self, byte_length: usize) -> Option<usize> {
        C::utf8_length_without_replacement(byte_length, self.held_count())
    }

    fn max_utf8_buffer_length(&self, byte_length: usize) -> Option<usize> {
        C::utf8_length(byte_length, self.held_count())
    }
}
