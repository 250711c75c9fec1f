//! The encoder of EUC-KR.
ghost use Rattle.std.specs.Prelude.{◌≡◌, [], ◌∷◌, option_map};
ghost use Rattle.legacy_base.specs.EucKr.{euc_kr_bytes};
ghost use Rattle.legacy_base.specs.Encoders.{euc_kr};
ghost use Rattle.legacy_tables.specs.Pointers.{index_pointer_of};
ghost use Rattle.legacy_korean.specs.EucKrCodes.{euc_kr_pairs, euc_kr_mark, euc_kr_mark-some};

use super::decoder::EucKr;
use legacy_encoder_engine::asked_pairs::ask_pairs;
use legacy_encoder_engine::moves::EncoderMove;
use legacy_encoder_engine::pair_encoder::{FillsPairs, PairCodec, PairEncoder};
use legacy_tables::{EncoderTables, Marks, PackedPart, Tables};

/// The encoder of EUC-KR (Encoding Standard, "EUC-KR encoder").
///
/// ASCII is itself. A scalar of index EUC-KR is the lead and the trail of its first pointer. All
/// other scalars are unmappable.
pub type EucKrEncoder<'a> = PairEncoder<'a, EucKr>;

/// Returns the lead and the trail of a scalar in index EUC-KR, or `None`.
#[inline(always)]
#[tactic(auto, using(std::proofs::lemmas::Grind::common_steps))]
fn pair(tables: &Tables<'_>, c: char) -> Option<(u8, u8)>
    ensures { option_map (λ pair. pair.0 ∷ pair.1 ∷ []) result ≡ option_map euc_kr_bytes
        (index_pointer_of tables.now.flat.euc_kr c) }
{
    if c > '\u{FFFF}' {
        return None;
    }
    let p = tables.euc_kr_pointer(c)?;
    Some(((p / 190 + 0x81) as u8, (p % 190 + 0x41) as u8))
}

// The lead and the trail of a pointer as one number.
impl Marks for EucKr {
    ghost mark = { euc_kr_mark };

    #[inline(always)]
    fn mark(&self, pointer: usize) -> u16 {
        (pointer / 190 + 0x81) as u16 + 256 * (pointer % 190 + 0x41) as u16
    }

    ghost some = { euc_kr_mark-some };
}

impl PairCodec for EucKr {
    ghost codec = { λ flat. euc_kr flat.euc_kr };

    ghost pairs = { λ flat. euc_kr_pairs flat.euc_kr };

    #[inline]
    #[tactic(auto, unfolding(legacy_base::specs::EucKr::euc_kr_code))]
    fn code_of(tables: &Tables<'_>, c: char) -> EncoderMove {
        let scalar = c as u32;
        if scalar < 0x80 {
            return EncoderMove::One(scalar as u8);
        }
        EncoderMove::of_pair(pair(tables, c), c)
    }

    #[inline(always)]
    #[tactic(auto, unfolding(legacy_base::specs::EucKr::euc_kr_code))]
    fn pair_of(tables: &Tables<'_>, c: char) -> Option<(u8, u8)> {
        pair(tables, c)
    }

    #[inline(always)]
    #[tactic(auto, unfolding(legacy_base::specs::EucKr::euc_kr_code))]
    fn code_past_pairs(c: char) -> EncoderMove {
        EncoderMove::Unmappable(c)
    }
}

impl FillsPairs for EucKr {
    fn fill(encoder: &PairEncoder<'_, Self>, entries: &mut [u16]) {
        encoder.tables.fill(PackedPart::EucKrOrder, &EucKr, entries);
        ask_pairs(encoder, entries, 0, 0x80);
    }
}
