//! The list of the pairs of GB18030 and GBK: a walk over the index, and look-ups of other scalars.
//!
//! The look-ups are of the scalars that have another code than that of their pointer.
ghost use Rattle.std.specs.Prelude.{◌≡◌, ℕ, length, slice_index, true, false};
ghost use Rattle.legacy_chinese.specs.Gb18030List.{gb18030_mark, gb18030_mark-some, is_in_rows};

use super::four_byte_blocks::Gb18030;
use legacy_encoder_engine::asked_pairs::{PairEntries, ask_pairs};
use legacy_tables::Marks;

// The lead and the trail of a pointer, as one number.
impl Marks for Gb18030 {
    ghost mark = { gb18030_mark };

    #[inline(always)]
    fn mark(&self, pointer: usize) -> u16 {
        let offset = if pointer % 190 < 0x3F { 0x40 } else { 0x41 };
        (pointer / 190 + 0x81) as u16 + 256 * (pointer % 190 + offset) as u16
    }

    ghost some = { gb18030_mark-some };
}

/// Looks up the entries of the scalars of private-use rows, and writes them.
pub(super) fn ask_rows<E: PairEntries>(entries: &E, rows: &[(u16, u8, u8)], pairs: &mut [u16])
    requires { length pairs.old ≡ 65536 }
    ensures inside { (c : ℕ) → is_in_rows rows.now c ≡ true → E.right entries.now c (slice_index pairs.new c) }
    ensures outside { (c : ℕ) → is_in_rows rows.now c ≡ false → slice_index pairs.new c ≡ slice_index pairs.old c }
{
    for row in rows {
        let scalar = u32::from(row.0);
        ask_pairs(entries, pairs, scalar, scalar + 1);
    }
}
