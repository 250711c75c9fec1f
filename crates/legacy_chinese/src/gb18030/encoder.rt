//! The encoder of GB18030 and GBK.
ghost use Rattle.std.specs.Prelude.{◌≡◌, ◌≢◌, ℕ, ◌+◌, ◌*◌, ◌/◌, ◌%◌, ◌<◌, ◌≤◌, [], ◌∷◌, length, true, false, Some, IfSome, option_map};
ghost use Rattle.legacy_tables.specs.{Pointers.range_pointer_of, RangeParts.IsRangePart};
ghost use Rattle.legacy_base.specs.Gb18030.{gb18030_pair_code, gb18030_range_bytes, gb18030_code, gbk_code};
ghost use Rattle.legacy_base.specs.{Encoders.{encoder_profile, new_encoder}, Lengths.{answer, number, ◌⊕◌, ◌⊗◌}};
ghost use Rattle.legacy_encoder_engine.specs.{CachedPairs.IsNoPair, Moves.IsCode};
ghost use Rattle.legacy_chinese.specs.{Gb18030Codec.{gb18030_codec, gb18030_encoder_state}, Gb18030Codes.gb18030_plain};

use super::four_byte_blocks::Gb18030;
use super::list::ask_rows;
use legacy_base::{EncoderStep, PackedPart, RawEncoder, Source, Tables};
use legacy_encoder_engine::asked_pairs::ask_pairs;
use legacy_encoder_engine::cached::EncodesPairs;
use legacy_encoder_engine::drive::drive_encoder;
use legacy_encoder_engine::moves::EncoderMove;
use legacy_encoder_engine::plain_codes::PlainCodes;
use legacy_tables::{DecoderTables, EncoderTables, RangePart};

/// The encoder of GB18030 or of GBK (Encoding Standard, "gb18030 encoder").
///
/// ASCII is itself. A scalar of a private-use row is the row's lead and trail, and a scalar of
/// index gb18030 is the lead and the trail of its first pointer. In GB18030 any other scalar with a
/// range pointer is its four bytes. In GBK these are unmappable, and U+20AC is 80. U+E5E5 is
/// unmappable in both.
#[derive(Clone, Copy)]
pub struct Gb18030Encoder<'a> {
    tables: &'a Tables<'a>,
    extended_range: bool,
}

impl<'a> Gb18030Encoder<'a> {
    /// Returns an encoder before its first scalar, of GB18030 if `extended_range` is set or of GBK.
    ///
    /// It writes by index gb18030, the ranges and the private-use rows of the tables.
    pub fn new(tables: &'a Tables<'a>, extended_range: bool) -> Gb18030Encoder<'a>
        ensures { gb18030_encoder_state result
            ≡ new_encoder (gb18030_codec tables.now.flat extended_range) }
    {
        Gb18030Encoder {
            tables,
            extended_range,
        }
    }
}

/// Returns the lead and the trail of a scalar past ASCII, if it has them.
#[inline(always)]
#[tactic(auto, using(crate::proofs::AbsentScalars::gb18030_absent))]
fn pair_of(tables: &Tables<'_>, c: char) -> Option<(u8, u8)>
    ensures { option_map (λ pair. pair.0 ∷ pair.1 ∷ []) result
        ≡ gb18030_pair_code tables.now.flat.gb18030_pua
        tables.now.flat.gb18030 c }
{
    if let Some(row) = tables.gb18030_pua_bytes(c) {
        return Some(row);
    }
    if c > '\u{FFFF}' {
        return None;
    }
    let p = tables.gb18030_pointer(c)?;
    let offset = if p % 190 < 0x3F { 0x40 } else { 0x41 };
    Some(((p / 190 + 0x81) as u8, (p % 190 + offset) as u8))
}

/// Checks whether a scalar is for private use, as those of the rows are.
// The look-up of rows makes the same test, so the compiler leaves out one of them.
#[inline(always)]
fn is_private_use(c: char) -> bool
    ensures { result ≡ false → (c ≢ 0xE5E5) × (c ≢ 0xE7C7) }
{
    matches!(u32::from(c), 0xE000..=0xF8FF)
}

/// Returns the lead and the digit of a number, with the lead in the low byte.
// One quotient is enough: the digit is the rest after ten times it.
#[inline(always)]
fn lead_and_digit(number: u32) -> u32
    requires { number < 1260 }
    ensures { result ≡ number / 10 + 0x81 + 256 * (number % 10 + 0x30) }
{
    256 * number - 2559 * (number / 10) + 0x3081
}

/// Returns the four bytes of a range pointer.
// They are made as one number, so that one store writes them.
#[inline(always)]
fn range_bytes(pointer: usize) -> (u8, u8, u8, u8)
    requires { pointer < 1237576 }
    ensures { result.0 ∷ result.1 ∷ result.2 ∷ result.3 ∷ [] ≡ gb18030_range_bytes pointer }
{
    let pointer = pointer as u32;
    let all = lead_and_digit(pointer / 1260) + 65536 * lead_and_digit(pointer % 1260);
    (
        (all % 256) as u8,
        (all / 256 % 256) as u8,
        (all / 65536 % 256) as u8,
        (all / 16777216) as u8,
    )
}

/// Returns the pointer of a scalar outside the range of `guess`, and sets `guess` to its range.
#[tactic(auto, using(crate::proofs::Gb18030Walk::pointer_bound))]
fn far_pointer(tables: &Tables<'_>, guess: &mut RangePart, c: char) -> Option<usize>
    requires { c ≢ 0xE7C7 }
    ensures pointer { result ≡ range_pointer_of tables.now.flat.ranges c }
    ensures within { IfSome result (λ p. p < 1237576) }
    ensures guess { IsRangePart tables.now.flat.ranges guess.new }
{
    let ranges = tables.ranges();
    *guess = ranges.part_with(c);
    match ranges.pointer_in(*guess, c) {
        Some(pointer) => Some(pointer),
        None => ranges.pointer(c),
    }
}

/// Returns the four bytes of a scalar that has no lead and trail in index gb18030.
///
/// The index is not searched. The result may be `None` for any scalar. `guess` keeps the range.
#[inline(always)]
#[tactic(auto, using(crate::proofs::Gb18030Walk::pointer_bound), unfolding(legacy_base::specs::Gb18030::gb18030_code))]
fn four_past_pairs_of(
    tables: &Tables<'_>,
    guess: &mut RangePart,
    c: char,
) -> Option<(u8, u8, u8, u8)>
    requires past { 0x80 ≤ c }
    requires none { (lead trail : ℕ) → gb18030_code tables.now.flat.gb18030
        tables.now.flat.ranges tables.now.flat.gb18030_pua c
        ≡ Some (lead ∷ trail ∷ []) → lead + trail ≡ 0 }
    requires guess { IsRangePart tables.now.flat.ranges guess.old }
    ensures code { IfSome result (λ four. gb18030_code tables.now.flat.gb18030
        tables.now.flat.ranges tables.now.flat.gb18030_pua c
        ≡ Some (four.0 ∷ four.1 ∷ four.2 ∷ four.3 ∷ [])) }
    ensures guess { IsRangePart tables.now.flat.ranges guess.new }
{
    if is_private_use(c) || tables.gb18030_pua_bytes(c).is_some() {
        return None;
    }
    if let Some(pointer) = tables.ranges().pointer_in(*guess, c) {
        return Some(range_bytes(pointer));
    }
    let pointer = far_pointer(tables, guess, c)?;
    Some(range_bytes(pointer))
}

/// Returns the four bytes of a scalar past ASCII, or the scalar as unmappable.
#[inline(always)]
#[tactic(auto, using(std::proofs::lemmas::Grind::common_steps))]
fn four_or_unmappable(tables: &Tables<'_>, c: char) -> EncoderMove
    ensures { IsCode (option_map gb18030_range_bytes
        (range_pointer_of tables.now.flat.ranges c)) c result }
{
    match tables.ranges().pointer(c) {
        Some(pointer) => {
            let (first, second, third, fourth) = range_bytes(pointer);
            EncoderMove::Four(first, second, third, fourth)
        }
        None => EncoderMove::Unmappable(c),
    }
}

/// Returns what GB18030 or GBK writes for a scalar.
#[inline(always)]
#[tactic(auto, using(std::proofs::lemmas::Grind::common_steps), unfolding(legacy_base::specs::Gb18030::gb18030_code, legacy_base::specs::Gb18030::gbk_code))]
fn any_code_of(tables: &Tables<'_>, extended_range: bool, c: char) -> EncoderMove
    ensures { IsCode ((encoder_profile (gb18030_codec tables.now.flat
        extended_range)).code c) c result }
{
    let scalar = c as u32;
    if scalar < 0x80 {
        return EncoderMove::One(scalar as u8);
    }
    if scalar == 0xE5E5 {
        return EncoderMove::Unmappable(c);
    }
    if extended_range {
        return match pair_of(tables, c) {
            Some((lead, trail)) => EncoderMove::Two(lead, trail),
            None => four_or_unmappable(tables, c),
        };
    }
    if scalar == 0x20AC {
        return EncoderMove::One(0x80);
    }
    EncoderMove::of_pair(pair_of(tables, c), c)
}

/// Returns what GB18030 or GBK writes for a scalar past ASCII that has no lead and trail in index gb18030.
#[inline(always)]
#[tactic(auto, using(std::proofs::lemmas::Grind::common_steps), unfolding(legacy_base::specs::Gb18030::gb18030_code, legacy_base::specs::Gb18030::gbk_code))]
fn code_without_pair(tables: &Tables<'_>, extended_range: bool, c: char) -> EncoderMove
    requires past { 0x80 ≤ c }
    requires none { IsNoPair (gb18030_codec tables.now.flat extended_range) c }
    ensures { IsCode ((encoder_profile (gb18030_codec tables.now.flat
        extended_range)).code c) c result }
{
    if c == '\u{E5E5}' {
        return EncoderMove::Unmappable(c);
    }
    if !extended_range && c == '\u{20AC}' {
        return EncoderMove::One(0x80);
    }
    if let Some((lead, trail)) = tables.gb18030_pua_bytes(c) {
        return EncoderMove::Two(lead, trail);
    }
    if extended_range {
        return four_or_unmappable(tables, c);
    }
    EncoderMove::Unmappable(c)
}

/// Returns two more than twice the length.
fn two_and_twice(length: usize) -> Option<usize>
    ensures { result ≡ answer (number 2 ⊕ number 2 ⊗ number length) }
{
    length.checked_mul(2)?.checked_add(2)
}

impl PlainCodes for Gb18030Encoder<'_> {
    ghost codec = { λ e. gb18030_codec e.tables.now.flat e.extended_range };

    ghost past = { 4 };

    ghost plain = { λ e. gb18030_plain e.tables.now.flat e.extended_range };

    #[inline]
    fn past_need(&self) -> usize {
        4
    }

    #[inline]
    fn code_of(&self, c: char) -> EncoderMove {
        any_code_of(self.tables, self.extended_range, c)
    }

    const GOES_PAST_PAIRS: bool = true;
}

impl EncodesPairs for Gb18030Encoder<'_> {
    ghost use Rattle.std.proofs.Common.{refl};

    ghost same = { λ e. refl };

    #[inline(always)]
    fn four_past_pairs(&self, guess: &mut RangePart, c: char) -> Option<(u8, u8, u8, u8)> {
        if !self.extended_range {
            return None;
        }
        four_past_pairs_of(self.tables, guess, c)
    }

    #[inline(always)]
    fn code_past_pairs(&self, c: char) -> EncoderMove {
        code_without_pair(self.tables, self.extended_range, c)
    }

    // The codes of four bytes are made above, and others than pairs are uncommon.
    const HAS_UNLISTED: bool = false;

    fn fill_pairs(&self, pairs: &mut [u16]) {
        self.tables.fill(PackedPart::Gb18030Order, &Gb18030, pairs);
        ask_pairs(self, pairs, 0, 0x80);
        ask_pairs(self, pairs, 0x20AC, 0x20AD);
        ask_pairs(self, pairs, 0xE5E5, 0xE5E6);
        ask_rows(self, self.tables.gb18030_rows(), pairs);
    }
}

impl RawEncoder for Gb18030Encoder<'_> {
    ghost state = { gb18030_encoder_state };

    fn step<S: Source>(&mut self, src: &mut S, dst: &mut [u8], last: bool) -> EncoderStep {
        drive_encoder(self, src, dst, last)
    }

    fn max_buffer_length_from_utf16_without_replacement(&self, u16_length: usize) -> Option<usize> {
        if self.extended_range {
            u16_length.checked_mul(4)
        } else {
            two_and_twice(u16_length)
        }
    }

    fn max_buffer_length_from_utf8_without_replacement(&self, byte_length: usize) -> Option<usize> {
        if self.extended_range {
            two_and_twice(byte_length)
        } else {
            byte_length.checked_add(3)
        }
    }
}
