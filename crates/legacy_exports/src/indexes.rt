//! The indexes as a caller in another language passes them.
ghost use Rattle.std.specs.Prelude.{◌≡◌, ◌≤◌, ◌↔◌, length, map, take, IfSome, IsSome};
ghost use Rattle.legacy_tables.specs.Tables.{flat_indexes};
ghost use Rattle.legacy_exports.specs.AcceptedIndexes.{indexes_with, range_pair};
ghost use Rattle.legacy_exports.specs.AcceptedIndexes.{AreTablesOfSlices, AreTakenIndexes, IsTakenTable};

use legacy_base::{GB18030_2022_PUA, Indexes, Packed, SingleByteTable, Tables};

/// A range of index gb18030 ranges: its first pointer and its first scalar.
#[repr(C)]
pub struct IndexRange {
    /// The pointer.
    pub pointer: u16,
    /// The scalar.
    pub scalar: u16,
}

/// Flat indexes that are not checked yet: entry `p` is the scalar of pointer `p`, or 0 for none.
///
/// Indexes that a codec does not read may be empty.
#[repr(C)]
pub struct IndexSlices<'a> {
    /// Index Big5.
    pub big5: &'a [u32],
    /// Index EUC-KR.
    pub euc_kr: &'a [u16],
    /// Index jis0208.
    pub jis0208: &'a [u16],
    /// Index jis0212.
    pub jis0212: &'a [u16],
    /// Index gb18030.
    pub gb18030: &'a [u16],
    /// Index ISO-2022-JP katakana.
    pub katakana: &'a [u16],
    /// Index gb18030 ranges, by rising pointers.
    pub ranges: &'a [IndexRange],
    /// The index of a single-byte encoding: the scalars of the bytes from 0x80.
    pub single_byte: &'a [u16],
    /// Whether the tables are packed ones.
    pub is_packed: bool,
    /// The runs and orders of packed tables. Flat tables do not read them.
    pub packed: Packed<'a>,
}

/// The greatest number of ranges that is accepted.
pub const RANGE_LIMIT: usize = 256;

/// Returns the ranges as pairs, at the start of the array.
pub fn range_pairs(ranges: &[IndexRange]) -> [(u16, u16); RANGE_LIMIT]
    requires { length ranges.now ≤ 256 }
    ensures count { length result ≡ 256 }
    ensures same { take (length ranges.now) result ≡ map range_pair ranges.now }
{
    let mut pairs = [(0u16, 0u16); RANGE_LIMIT];
    let mut place = 0;
    while place < ranges.len() {
        pairs[place] = (ranges[place].pointer, ranges[place].scalar);
        place += 1;
    }
    pairs
}

/// Returns the indexes of pointers, with these ranges and the private-use rows of GB18030-2022.
fn with_ranges<'a: 'r, 'r>(slices: &IndexSlices<'a>, ranges: &'r [(u16, u16)]) -> Indexes<'r>
    ensures { flat_indexes result ≡ indexes_with slices.now ranges.now }
{
    Indexes {
        big5: slices.big5,
        euc_kr: slices.euc_kr,
        jis0208: slices.jis0208,
        jis0212: slices.jis0212,
        gb18030: slices.gb18030,
        katakana: slices.katakana,
        ranges,
        gb18030_pua: &GB18030_2022_PUA,
    }
}

/// Returns the tables of the indexes with these ranges, or `None` if they are refused.
///
/// The tables are packed ones if the caller asks for that.
#[inline(always)]
pub fn tables_with<'a: 'r, 'r>(
    slices: &IndexSlices<'a>,
    ranges: &'r [(u16, u16)],
) -> Option<Tables<'r>>
    ensures taken { IsSome result ↔ AreTakenIndexes slices.now ranges.now }
    ensures same { IfSome result (λ tables. AreTablesOfSlices slices.now ranges.now tables.flat) }
{
    let flat = with_ranges(slices, ranges);
    if slices.is_packed {
        Tables::packed_of(&flat, &slices.packed).ok()
    } else {
        Tables::new(&flat).ok()
    }
}

/// Returns the table of these entries, if there are 128 and they are accepted.
pub fn single_byte_table(entries: &[u16]) -> Option<SingleByteTable>
    ensures taken { IsSome result ↔ IsTakenTable entries.now }
    ensures same { IfSome result (λ table. table.entries ≡ entries.now) }
{
    if entries.len() != 128 {
        return None;
    }
    let mut all = [0u16; 128];
    all.copy_from_slice(entries);
    SingleByteTable::new(&all).ok()
}
