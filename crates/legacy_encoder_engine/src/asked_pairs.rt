//! Entries of scalars whose codes are looked up ahead, one by one.
ghost use Rattle.std.specs.Prelude.{◌≡◌, ◌<◌, ◌≤◌, ℕ, length, slice_index};
ghost use Rattle.std.specs.Char.{IsScalar};
ghost use Rattle.legacy_encoder_engine.specs.CachedPairs.{IsOutside, IsRightEntry};

use crate::moves::EncoderMove;
use crate::plain_codes::PlainCodes;

/// The entries of a list of pairs, one for each scalar below U+10000.
pub trait PairEntries {
    /// The property of the entry of a scalar.
    ghost right: { Self → ℕ → ℕ → Type 0 };

    /// Returns the entry of a scalar.
    fn pair_entry(&self, c: char) -> u16
        ensures { right self.now c result };

    /// A number that is not a scalar value has the entry 0.
    ghost others: { (entries : Self) → (number : ℕ) → (IsScalar number → ⊥) →
        right entries number 0 };
}

// The entry of an ASCII scalar is its byte. Past ASCII it has the lead in the low byte and the trail
// in the high byte.
impl<C: PlainCodes> PairEntries for C {
    ghost use Rattle.std.proofs.Common.{refl};

    ghost right = { λ codes. IsRightEntry (C.codec codes) };

    fn pair_entry(&self, c: char) -> u16 {
        match self.code_of(c) {
            EncoderMove::One(byte) if (c as u32) < 0x80 => u16::from(byte),
            EncoderMove::Two(lead, trail) if (c as u32) >= 0x80 => {
                u16::from(lead) + 256 * u16::from(trail)
            }
            _ => 0,
        }
    }

    ghost others = { λ _ _ never. record {
      told = λ n. absurd (n refl);
      whole = λ scalar. absurd (never scalar);
    } };
}

/// Returns the entry of a number, which is 0 if it is not a scalar value.
fn entry_at<E: PairEntries>(entries: &E, number: u32) -> u16
    ensures { E.right entries.now number result }
{
    match char::from_u32(number) {
        Some(c) => entries.pair_entry(c),
        None => 0,
    }
}

/// Looks up the entries of the scalars from `first` to before `end`, and writes them.
pub fn ask_pairs<E: PairEntries>(entries: &E, pairs: &mut [u16], first: u32, end: u32)
    requires rising { first ≤ end }
    requires within { end ≤ length pairs.old }
    ensures inside { (c : ℕ) → first ≤ c → c < end →
        E.right entries.now c (slice_index pairs.new c) }
    ensures outside { (c : ℕ) → IsOutside first end c →
        slice_index pairs.new c ≡ slice_index pairs.old c }
{
    let mut number = first;
    while number < end {
        pairs[number as usize] = entry_at(entries, number);
        number += 1;
    }
}
