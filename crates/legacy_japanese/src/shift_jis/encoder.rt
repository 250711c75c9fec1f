//! The encoder of Shift_JIS.
ghost use Rattle.std.specs.Prelude.{◌≡◌, ℕ, List, [], ◌∷◌, Some, None, IfSome, option_map};
ghost use Rattle.legacy_tables.specs.Pointers.{shift_jis_pointer_of, minus_as_hyphen};
ghost use Rattle.legacy_base.specs.{ShiftJis.{shift_jis_bytes, shift_jis_code}, Encoders.shift_jis};
ghost use Rattle.legacy_japanese.specs.ShiftJisCodes.{shift_jis_pairs, shift_jis_lead_of, shift_jis_trail_of, shift_jis_mark, shift_jis_mark-some};

use super::decoder::ShiftJis;
use crate::asked_scalars::ask_others;
use crate::folded_scalars::{is_by_index, minus_as_hyphen};
use legacy_encoder_engine::moves::EncoderMove;
use legacy_encoder_engine::pair_encoder::{FillsPairs, PairCodec, PairEncoder};
use legacy_tables::{EncoderTables, Marks, PackedPart, Tables};

/// The encoder of Shift_JIS (Encoding Standard, "Shift_JIS encoder").
///
/// ASCII and U+0080 are themselves, U+00A5 is 5C and U+203E is 7E. The half-width katakana U+FF61
/// to U+FF9F are the bytes A1 to DF. Another scalar of index jis0208 is the lead and the trail of
/// its first pointer there, except the pointers 8272 to 8835. The minus sign U+2212 is encoded as
/// U+FF0D. All other scalars are unmappable.
pub type ShiftJisEncoder<'a> = PairEncoder<'a, ShiftJis>;

/// Returns the lead of a pointer.
#[inline(always)]
fn lead_of(pointer: usize) -> usize
    ensures { result ≡ shift_jis_lead_of pointer }
{
    let row = pointer / 188;
    if row < 0x1F { row + 0x81 } else { row + 0xC1 }
}

/// Returns the trail of a pointer.
#[inline(always)]
fn trail_of(pointer: usize) -> usize
    ensures { result ≡ shift_jis_trail_of pointer }
{
    let column = pointer % 188;
    if column < 0x3F {
        column + 0x40
    } else {
        column + 0x41
    }
}

/// Returns the lead and the trail of a scalar in index jis0208, or `None`.
#[inline(always)]
fn pair(tables: &Tables<'_>, c: char) -> Option<(u8, u8)>
    ensures { option_map (λ pair. pair.0 ∷ pair.1 ∷ []) result ≡ option_map shift_jis_bytes
        (shift_jis_pointer_of tables.now.flat.jis0208 (minus_as_hyphen c)) }
{
    if c > '\u{FFFF}' {
        return None;
    }
    let p = tables.shift_jis_pointer(minus_as_hyphen(c))?;
    Some((lead_of(p) as u8, trail_of(p) as u8))
}

/// Returns the byte of a scalar that has a single byte, whatever the index is.
#[inline(always)]
#[tactic(auto, unfolding(legacy_base::specs::ShiftJis::shift_jis_code))]
fn byte_of(c: char) -> Option<u8>
    ensures byte { (index : List ℕ) → IfSome result (λ byte. shift_jis_code index c ≡ Some (byte ∷ [])) }
    ensures none { (index : List ℕ) → result ≡ None → shift_jis_code index c
        ≡ option_map shift_jis_bytes (shift_jis_pointer_of index (minus_as_hyphen c)) }
{
    let scalar = c as u32;
    match scalar {
        0..=0x80 => Some(scalar as u8),
        0xA5 => Some(0x5C),
        0x203E => Some(0x7E),
        0xFF61..=0xFF9F => Some((0xA1 + (scalar - 0xFF61)) as u8),
        _ => None,
    }
}

// The lead and the trail of a pointer, as one number.
impl Marks for ShiftJis {
    ghost mark = { shift_jis_mark };

    #[inline(always)]
    fn mark(&self, pointer: usize) -> u16 {
        lead_of(pointer) as u16 + 256 * trail_of(pointer) as u16
    }

    ghost some = { shift_jis_mark-some };
}

impl PairCodec for ShiftJis {
    ghost codec = { λ flat. shift_jis flat.jis0208 };

    ghost pairs = { λ flat. shift_jis_pairs flat.jis0208 };

    // Half-width katakana are not among the scalars that are looked up first.
    const GOES_PAST_PAIRS: bool = true;

    #[inline]
    #[tactic(auto, unfolding(legacy_base::specs::ShiftJis::shift_jis_code))]
    fn code_of(tables: &Tables<'_>, c: char) -> EncoderMove {
        match byte_of(c) {
            Some(byte) => EncoderMove::One(byte),
            None => EncoderMove::of_pair(pair(tables, c), c),
        }
    }

    #[inline(always)]
    #[tactic(auto, unfolding(legacy_base::specs::ShiftJis::shift_jis_code))]
    fn pair_of(tables: &Tables<'_>, c: char) -> Option<(u8, u8)> {
        if !is_by_index(c) {
            return None;
        }
        pair(tables, c)
    }

    #[inline(always)]
    #[tactic(auto, unfolding(legacy_base::specs::ShiftJis::shift_jis_code))]
    fn code_past_pairs(c: char) -> EncoderMove {
        match byte_of(c) {
            Some(byte) => EncoderMove::One(byte),
            None => EncoderMove::Unmappable(c),
        }
    }
}

impl FillsPairs for ShiftJis {
    fn fill(encoder: &PairEncoder<'_, Self>, entries: &mut [u16]) {
        encoder
            .tables
            .fill(PackedPart::ShiftJisOrder, &ShiftJis, entries);
        ask_others(encoder, entries);
    }
}
