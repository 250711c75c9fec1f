//! The pointer of four bytes of GB18030, by two tables of the parts of their bytes.
//!
//! A byte that is not allowed there has a part past all pointers. So one test of the pointer tests all four bytes.
ghost use Rattle.std.specs.Prelude.{◌≡◌, ◌<◌};
ghost use Rattle.legacy_chinese.specs.FourForms.{four_place};

use legacy_decoder_engine::place_table;

/// The parts of the leads 81 to FE.
static LEADS: [u32; 256] = place_table!(1_240_000, 10, 0x81 to 0xFE);

/// The parts of the digits 30 to 39.
static DIGITS: [u32; 256] = place_table!(1_240_000, 1, 0x30 to 0x39);

/// Returns the pointer of four bytes, or a number past all pointers if one of them is not allowed there.
#[inline(always)]
pub fn four_pointer(first: u8, second: u8, third: u8, fourth: u8) -> usize
    ensures place { result ≡ four_place first second third fourth }
    ensures small { result < 0x1_0000_0000 }
{
    let high = LEADS[usize::from(first)] as usize + DIGITS[usize::from(second)] as usize;
    let low = LEADS[usize::from(third)] as usize + DIGITS[usize::from(fourth)] as usize;
    1260 * high + low
}
