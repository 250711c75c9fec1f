//! The encoder of Big5.
ghost use Rattle.std.specs.Prelude.{◌≡◌, [], ◌∷◌, option_map};
ghost use Rattle.{legacy_base.specs.{Big5.big5_bytes, Encoders.big5}, legacy_tables.specs.Pointers.big5_pointer_of};
ghost use Rattle.legacy_chinese.specs.Big5Codes.{big5_pairs, big5_mark, big5_mark-some};

use super::decoder::Big5;
use legacy_encoder_engine::asked_pairs::ask_pairs;
use legacy_encoder_engine::moves::EncoderMove;
use legacy_encoder_engine::pair_encoder::{FillsPairs, PairCodec, PairEncoder};
use legacy_tables::{EncoderTables, Marks, PackedPart, Tables};

/// The encoder of Big5 (Encoding Standard, "Big5 encoder").
///
/// ASCII is itself. A scalar of index Big5 from pointer 5024 on is the lead and the trail of a
/// pointer there; the pointers below 5024 belong to the Hong Kong supplement. For U+2550, U+255E,
/// U+2561, U+256A, U+5341 and U+5345 it is the last such pointer, and for all others the first. All
/// other scalars are unmappable.
pub type Big5Encoder<'a> = PairEncoder<'a, Big5>;

/// Returns the lead and the trail of a scalar in index Big5, or `None`.
#[inline(always)]
#[tactic(auto, using(crate::proofs::AbsentScalars::big5_absent))]
fn pair(tables: &Tables<'_>, c: char) -> Option<(u8, u8)>
    ensures { option_map (λ pair. pair.0 ∷ pair.1 ∷ []) result ≡ option_map big5_bytes
        (big5_pointer_of tables.now.flat.big5 c) }
{
    if c > '\u{FFFF}' && c < '\u{20000}' {
        return None;
    }
    let p = tables.big5_pointer(c)?;
    let offset = if p % 157 < 0x3F { 0x40 } else { 0x62 };
    Some(((p / 157 + 0x81) as u8, (p % 157 + offset) as u8))
}

// The lead and the trail of a pointer, as one number.
impl Marks for Big5 {
    ghost mark = { big5_mark };

    #[inline(always)]
    fn mark(&self, pointer: usize) -> u16 {
        let offset = if pointer % 157 < 0x3F { 0x40 } else { 0x62 };
        (pointer / 157 + 0x81) as u16 + 256 * (pointer % 157 + offset) as u16
    }

    ghost some = { big5_mark-some };
}

impl PairCodec for Big5 {
    ghost codec = { λ flat. big5 flat.big5 };

    ghost pairs = { λ flat. big5_pairs flat.big5 };

    #[inline]
    #[tactic(auto, unfolding(legacy_base::specs::Big5::big5_code))]
    fn code_of(tables: &Tables<'_>, c: char) -> EncoderMove {
        let scalar = c as u32;
        if scalar < 0x80 {
            return EncoderMove::One(scalar as u8);
        }
        EncoderMove::of_pair(pair(tables, c), c)
    }

    #[inline(always)]
    #[tactic(auto, unfolding(legacy_base::specs::Big5::big5_code))]
    fn pair_of(tables: &Tables<'_>, c: char) -> Option<(u8, u8)> {
        pair(tables, c)
    }

    #[inline(always)]
    #[tactic(auto, unfolding(legacy_base::specs::Big5::big5_code))]
    fn code_past_pairs(c: char) -> EncoderMove {
        EncoderMove::Unmappable(c)
    }
}

impl FillsPairs for Big5 {
    fn fill(encoder: &PairEncoder<'_, Self>, entries: &mut [u16]) {
        encoder.tables.fill(PackedPart::Big5Order, &Big5, entries);
        ask_pairs(encoder, entries, 0, 0x80);
    }
}
