//! The common steps of codecs whose sequences are a lead and a trail.
ghost use Rattle.std.specs.{Prelude.{◌≡◌, ℕ, ◌+◌, ◌<◌, [], ◌∷◌, true, false, if◌then◌else◌, option_to_list}, Char.is_ascii};
ghost use Rattle.legacy_decoder_engine.specs.{Steps.trail_step, LeadMachines.lead_first, Feeding.Took, LeadCodecs.held_bytes};
ghost use Rattle.legacy_base.specs.States.{is_lead};

use crate::held_lead::Lead;
use crate::moves::Fed;

/// Returns a malformed sequence that ends with the byte, with nothing held back after it.
#[inline]
pub fn malformed_through(length: u8) -> Fed
    ensures { result ≡ Fed.MalformedSequence length 0 false }
{
    Fed::MalformedSequence {
        length,
        back: 0,
        unread: false,
    }
}

/// Returns the result of a byte that ends a sequence of `before` bytes without a scalar.
///
/// An ASCII byte is left unread after the malformed sequence. Any other byte is its last one.
#[inline]
pub fn unmapped(before: u8, byte: u8) -> Fed
    requires { before < 4 }
    ensures { result ≡ (if is_ascii byte then Fed.MalformedSequence before 0 true else Fed.MalformedSequence (before + 1) 0 false) }
{
    if byte < 0x80 {
        return Fed::MalformedSequence {
            length: before,
            back: 0,
            unread: true,
        };
    }
    malformed_through(before + 1)
}

/// Reads the first byte of a sequence.
///
/// ASCII is its own scalar, a lead is held back, and any other byte is malformed.
#[inline]
pub fn read_first(byte: u8) -> (Fed, Option<Lead>)
    ensures { Took (lead_first is_lead byte) [] byte result.0 (held_bytes (λ lead. lead.byte) result.1) }
{
    if byte < 0x80 {
        return (Fed::One(char::from(byte)), None);
    }
    match Lead::new(byte) {
        Some(lead) => (Fed::Nothing, Some(lead)),
        None => (malformed_through(1), None),
    }
}

/// Reads the trail after a lead, given the scalar of the pair or `None`.
///
/// If the pair has no scalar, an ASCII trail is left unread and the lead alone is malformed. If the
/// trail is not ASCII, both are malformed.
#[inline]
pub fn read_trail(scalar: Option<char>, trail: u8) -> Fed
    ensures { (lead : ℕ) → Took (trail_step 1 (option_to_list scalar) trail) (lead ∷ []) trail result [] }
{
    match scalar {
        Some(scalar) => Fed::One(scalar),
        None => unmapped(1, trail),
    }
}
