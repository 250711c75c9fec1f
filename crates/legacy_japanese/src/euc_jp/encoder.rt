//! The encoder of EUC-JP.
ghost use Rattle.std.specs.Prelude.{◌≡◌, [], ◌∷◌, option_map};
ghost use Rattle.legacy_tables.specs.Pointers.{euc_jp_pointer_of, minus_as_hyphen};
ghost use Rattle.legacy_base.specs.{EucJp.euc_jp_bytes, Encoders.euc_jp};
ghost use Rattle.legacy_japanese.specs.EucJpCodes.{euc_jp_pairs, euc_jp_mark, euc_jp_mark-some};

use super::decoder::EucJp;
use crate::asked_scalars::ask_others;
use crate::folded_scalars::{is_by_index, minus_as_hyphen};
use legacy_encoder_engine::moves::EncoderMove;
use legacy_encoder_engine::pair_encoder::{FillsPairs, PairCodec, PairEncoder};
use legacy_tables::{EncoderTables, Marks, PackedPart, Tables};

/// The encoder of EUC-JP (Encoding Standard, "EUC-JP encoder").
///
/// ASCII is itself, U+00A5 is 5C and U+203E is 7E. The half-width katakana U+FF61 to U+FF9F are 8E
/// and a byte A1 to DF. Another scalar of index jis0208 is the lead and the trail of its first
/// pointer below 8836. The minus sign U+2212 is encoded as U+FF0D. All other scalars are
/// unmappable: the encoder does not use index jis0212.
pub type EucJpEncoder<'a> = PairEncoder<'a, EucJp>;

/// Returns the lead and the trail of a scalar in index jis0208, or `None`.
#[inline(always)]
fn pair(tables: &Tables<'_>, c: char) -> Option<(u8, u8)>
    ensures { option_map (λ pair. pair.0 ∷ pair.1 ∷ []) result ≡ option_map euc_jp_bytes
        (euc_jp_pointer_of tables.now.flat.jis0208 (minus_as_hyphen c)) }
{
    if c > '\u{FFFF}' {
        return None;
    }
    let p = tables.euc_jp_pointer(minus_as_hyphen(c))?;
    Some(((p / 94 + 0xA1) as u8, (p % 94 + 0xA1) as u8))
}

// The lead and the trail of a pointer, as one number.
impl Marks for EucJp {
    ghost mark = { euc_jp_mark };

    #[inline(always)]
    fn mark(&self, pointer: usize) -> u16 {
        (pointer / 94 + 0xA1) as u16 + 256 * (pointer % 94 + 0xA1) as u16
    }

    ghost some = { euc_jp_mark-some };
}

impl PairCodec for EucJp {
    ghost codec = { λ flat. euc_jp flat.jis0208 flat.jis0212 };

    ghost pairs = { λ flat. euc_jp_pairs flat.jis0208 flat.jis0212 };

    // Half-width katakana are not among the scalars that are looked up first.
    const GOES_PAST_PAIRS: bool = true;

    #[inline]
    #[tactic(auto, unfolding(legacy_base::specs::EucJp::euc_jp_code))]
    fn code_of(tables: &Tables<'_>, c: char) -> EncoderMove {
        let scalar = c as u32;
        if scalar < 0x80 {
            EncoderMove::One(scalar as u8)
        } else if scalar == 0xA5 {
            EncoderMove::One(0x5C)
        } else if scalar == 0x203E {
            EncoderMove::One(0x7E)
        } else if scalar >= 0xFF61 && scalar <= 0xFF9F {
            EncoderMove::Two(0x8E, (0xA1 + (scalar - 0xFF61)) as u8)
        } else {
            EncoderMove::of_pair(pair(tables, c), c)
        }
    }

    #[inline(always)]
    #[tactic(auto, unfolding(legacy_base::specs::EucJp::euc_jp_code))]
    fn pair_of(tables: &Tables<'_>, c: char) -> Option<(u8, u8)> {
        if !is_by_index(c) {
            return None;
        }
        pair(tables, c)
    }

    // Half-width katakana have a lead and a trail.
    #[inline(always)]
    #[tactic(auto, unfolding(legacy_base::specs::EucJp::euc_jp_code))]
    fn code_past_pairs(c: char) -> EncoderMove {
        match c {
            '\u{A5}' => EncoderMove::One(0x5C),
            '\u{203E}' => EncoderMove::One(0x7E),
            _ => EncoderMove::Unmappable(c),
        }
    }
}

impl FillsPairs for EucJp {
    fn fill(encoder: &PairEncoder<'_, Self>, entries: &mut [u16]) {
        encoder.tables.fill(PackedPart::EucJpOrder, &EucJp, entries);
        ask_others(encoder, entries);
    }
}
