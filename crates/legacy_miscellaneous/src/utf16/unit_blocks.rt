//! Blocks of UTF-16 code units: by vectors, to UTF-8 64, 32 or eight and to UTF-16 sixteen or eight at a time, near
//! surrogates eight at a time with the pair after them, and at the end of the input one scalar after the other.
// Functions that run for each block are always inlined. A call would pass vectors through memory, and
// keep the destination's place there.
ghost use Rattle.std.specs.{Prelude.{◌≡◌, ◌+◌, ◌*◌, ◌%◌, ◌<◌, ◌≤◌, ℕ, length, true, false, slice_index}, Char.IsScalar};
ghost use Rattle.{legacy_text.specs.EncodingForm.bmp_need, legacy_base.specs.{Grammar.utf16, States.new_state}};
ghost use Rattle.{legacy_decoder_engine.specs.ReadAhead.ReadsAhead, legacy_miscellaneous.specs.Utf16Decoder.{HasAsciiUnits, KeepsAscii, AreUnitsBelow}};

use super::vectors::{eight_units, sixteen_units};
use legacy_base::Destination;
use legacy_decoder_engine::read_ahead::{BlockReader, SLACK, read_blocks};
use legacy_text::are_all_below;

/// The code units of a byte order.
#[derive(Drop)]
pub struct Units {
    pub big_endian: bool,
}

/// Checks whether any of the units is a surrogate.
#[inline(always)]
fn has_surrogate(units: &[u16]) -> bool
    ensures { result ≡ false → (k : ℕ) → k < length units.now → IsScalar (slice_index units.now k) }
{
    let mut found = false;
    let mut at = 0;
    while at < units.len() {
        found = found || (units[at] >= 0xD800 && units[at] <= 0xDFFF);
        at += 1;
    }
    found
}

/// Stores sixteen units as bytes from the place `at` on: a unit below 0x100 as it is, and 0xFF for others.
// The compiler makes two vector operations of this.
#[inline(always)]
fn put_narrow(units: &[u16], block: &mut [u8], at: usize)
    requires units { 16 ≤ length units.now }
    requires room { at + 16 ≤ length block.old }
    ensures before { (k : ℕ) → k < at → slice_index block.new k ≡ slice_index block.old k }
    ensures narrow { (k : ℕ) → k < 16 → KeepsAscii (slice_index units.now k) (slice_index block.new (at + k)) }
{
    let mut unit = 0;
    while unit < 16 {
        block[at + unit] = units[unit].min(0xFF) as u8;
        unit += 1;
    }
}

/// Blocks of ASCII, 64 units at a time, or sixteen.
#[derive(Drop)]
struct AsciiUnits<'a> {
    units: &'a Units,
}

impl AsciiUnits<'_> {
    /// Decodes the first 64 units if all are ASCII. Returns the number of bytes read, and whether any were.
    // In text with tags the first letter past ASCII comes at any place, so its block is read whole by `read_groups`.
    #[inline(always)]
    fn read_whole<T: Destination>(&self, src: &[u8], dst: &mut T) -> (usize, bool)
        requires source { 128 ≤ length src.now }
        requires room { 64 + SLACK ≤ T.room dst.old }
        ensures ahead { ReadsAhead T.Destination (new_state (utf16 self.now.units.now.big_endian)) src.now result.0 dst.old dst.new }
        ensures goes_on { result.1 ≡ true → 0 < result.0 }
    {
        if !self.units.are_below(src, 8, 0x80) {
            return (0, false);
        }
        let mut block = [0; 64];
        self.units.narrow(src, &mut block);
        dst.put_block(&block, 64);
        (128, true)
    }
}

impl BlockReader for AsciiUnits<'_> {
    ghost grammar = { λ blocks. utf16 blocks.units.now.big_endian };

    /// Decodes 64 units if all are ASCII. If fewer are left, it decodes the ASCII at the start of sixteen.
    #[inline(always)]
    fn read_block<T: Destination>(&self, src: &[u8], dst: &mut T) -> (usize, bool) {
        if src.len() >= 128 && dst.free() >= 64 + SLACK {
            return self.read_whole(src, dst);
        }
        if src.len() < 32 || dst.free() < 16 + SLACK {
            return (0, false);
        }
        let mut block = [0; 16];
        self.units.narrow(src, &mut block);
        let count = dst.copy_ascii(&block);
        (2 * count, count >= 16)
    }
}

impl Units {
    /// Stores the first units as bytes, sixteen at a time: a unit below 0x100 as it is, and 0xFF for others.
    #[inline(always)]
    fn narrow(&self, src: &[u8], block: &mut [u8])
        requires sixteens { length block.old % 16 ≡ 0 }
        requires source { 2 * length block.old ≤ length src.now }
        ensures { HasAsciiUnits self.now.big_endian src.now block.new (length block.new) }
    {
        let mut at = 0;
        while at < block.len() {
            let units = sixteen_units(self.big_endian, &src[2 * at..]);
            put_narrow(&units.to_array(), block, at);
            at += 16;
        }
    }

    /// Checks whether the units of the first groups of eight are below the bound.
    #[inline(always)]
    fn are_below(&self, src: &[u8], eights: usize, bound: u16) -> bool
        requires some { 0 < eights }
        requires source { 16 * eights ≤ length src.now }
        ensures { result ≡ true → AreUnitsBelow self.now.big_endian src.now (8 * eights) bound }
    {
        let mut greatest = eight_units(self.big_endian, src);
        let mut group = 1;
        while group < eights {
            greatest = greatest.simd_max(eight_units(self.big_endian, &src[16 * group..]));
            group += 1;
        }
        are_all_below(greatest, bound)
    }

    /// Decodes groups of eight units by the longest scalar in UTF-8, up to the first group with a surrogate.
    ///
    /// Returns the number of bytes read.
    // The length of the scalars is tested once for all groups. In text with letters past ASCII that is predicted
    // better than a test for each eight.
    #[inline(always)]
    fn read_groups<T: Destination>(&self, src: &[u8], dst: &mut T, eights: usize) -> usize
        requires some { 0 < eights }
        requires source { 16 * eights ≤ length src.now }
        requires room { 24 * eights + 11 ≤ T.room dst.old }
        ensures { ReadsAhead T.Destination (new_state (utf16 self.now.big_endian)) src.now result dst.old dst.new }
    {
        if self.are_below(src, eights, 0x80) {
            return read_blocks(&AsciiUnits { units: self }, src, dst);
        }
        if self.are_below(src, eights, 0x800) {
            return self.read_eights(src, dst, eights, true);
        }
        self.read_eights(src, dst, eights, false)
    }

    /// Decodes groups of eight units, up to the first group with a surrogate.
    ///
    /// With `is_short` all are below U+0800. Returns the number of bytes read.
    #[inline(always)]
    fn read_eights<T: Destination>(
        &self,
        src: &[u8],
        dst: &mut T,
        eights: usize,
        is_short: bool,
    ) -> usize
        requires source { 16 * eights ≤ length src.now }
        requires short { is_short ≡ true → AreUnitsBelow self.now.big_endian src.now (8 * eights) 0x800 }
        requires room { 0 < eights → 24 * eights + 11 ≤ T.room dst.old }
        ensures { ReadsAhead T.Destination (new_state (utf16 self.now.big_endian)) src.now result dst.old dst.new }
    {
        let mut group = 0;
        while group < eights {
            let units = eight_units(self.big_endian, &src[16 * group..]);
            if is_short {
                dst.put_eight_short(units);
            } else {
                if has_surrogate(&units.to_array()) {
                    return 16 * group;
                }
                dst.put_eight(units);
            }
            group += 1;
        }
        16 * eights
    }

    /// Decodes eight units, or none if one of them is a surrogate. Returns the number of bytes read.
    #[inline(always)]
    fn read_eight<T: Destination>(&self, src: &[u8], dst: &mut T) -> usize
        ensures { ReadsAhead T.Destination (new_state (utf16 self.now.big_endian)) src.now result dst.old dst.new }
    {
        if src.len() < 16 || dst.free() < 32 + SLACK {
            return 0;
        }
        let is_short = self.are_below(src, 1, 0x800);
        self.read_eights(src, dst, 1, is_short)
    }

    /// Decodes sixteen units, or none if one of them is a surrogate. Returns the number of bytes read.
    ///
    /// Each unit is written as one code unit.
    // No turn ends early and the units are those of a vector, so the compiler stores the vector as it is.
    #[inline(always)]
    fn read_sixteen<T: Destination>(&self, src: &[u8], dst: &mut T) -> usize
        requires form { bmp_need T.form ≡ 1 }
        requires source { 32 ≤ length src.now }
        requires room { 16 + SLACK ≤ T.room dst.old }
        ensures most { result ≤ 32 }
        ensures room { T.room dst.old ≤ T.room dst.new + 16 }
        ensures ahead { ReadsAhead T.Destination (new_state (utf16 self.now.big_endian)) src.now result dst.old dst.new }
    {
        let units = sixteen_units(self.big_endian, src).to_array();
        if has_surrogate(&units) {
            return 0;
        }
        let mut at = 0;
        while at < 16 {
            dst.put(unsafe { char::from_u32_unchecked(u32::from(units[at])) });
            at += 1;
        }
        32
    }

    /// Decodes units for UTF-16 output, sixteen at a time. Returns the number of bytes read.
    ///
    /// It stops before sixteen units with a surrogate, and if fewer are left or few code units are free.
    #[inline(always)]
    fn read_sixteens<T: Destination>(&self, src: &[u8], dst: &mut T) -> usize
        requires { bmp_need T.form ≡ 1 }
        ensures { ReadsAhead T.Destination (new_state (utf16 self.now.big_endian)) src.now result dst.old dst.new }
    {
        let mut left = (src.len() / 32).min(dst.free().saturating_sub(SLACK) / 16);
        let mut at = 0;
        while left > 0 {
            let read = self.read_sixteen(&src[at..], dst);
            at += read;
            if read == 0 {
                return at;
            }
            left -= 1;
        }
        at
    }

    /// Decodes units from the front by vectors, up to eight with a surrogate. Returns the number of bytes read.
    // The numbers of groups are constants, so that the compiler unrolls the loops over them.
    #[inline(always)]
    fn read_vectors<T: Destination>(&self, src: &[u8], dst: &mut T) -> usize
        ensures { ReadsAhead T.Destination (new_state (utf16 self.now.big_endian)) src.now result dst.old dst.new }
    {
        if T::narrow() == 1 {
            let read = self.read_sixteens(src, dst);
            return if read > 0 {
                read
            } else {
                self.read_eight(src, dst)
            };
        }
        let eights = (src.len() / 16).min(dst.free().saturating_sub(8 + SLACK) / 24);
        if eights >= 8 {
            self.read_groups(src, dst, 8)
        } else if eights >= 4 {
            self.read_groups(src, dst, 4)
        } else {
            self.read_eight(src, dst)
        }
    }
}

impl BlockReader for Units {
    ghost grammar = { λ units. utf16 units.big_endian };

    /// Decodes units by vectors.
    #[inline(always)]
    fn read_block<T: Destination>(&self, src: &[u8], dst: &mut T) -> (usize, bool) {
        let read = self.read_vectors(src, dst);
        (read, read > 0)
    }
}
