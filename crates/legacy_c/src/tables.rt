//! Checks of a caller's indexes, and the tables of those that were checked.
ghost use Rattle.std.specs.Prelude.{◌≡◌, ◌≢◌, ◌≤◌, [], None, length, map, take, IfNone, IfSome};
ghost use Rattle.legacy_tables.specs.Tables.{flat_indexes};
ghost use Rattle.legacy_tables.specs.AcceptedTables.{flat_lists};
ghost use Rattle.legacy_c.specs.Lists.{range_pair};
ghost use Rattle.legacy_c.specs.Faults.{SameIndexes, indexes_fault, indexes_of, table_fault_numbers};

use crate::fault::{Fault, fault_numbers};
use crate::index_range::IndexRange;
use crate::index_tables::IndexTables;
use legacy_base::{GB18030_2022_PUA, Indexes, SingleByteTable, Tables};

/// The greatest number of ranges.
pub const RANGE_LIMIT: usize = 256;

/// The ranges as pairs, and then pairs without meaning.
pub type RangePairs = [(u16, u16); RANGE_LIMIT];

/// Returns the ranges as pairs, at the start of the array.
pub fn range_pairs(ranges: &[IndexRange]) -> RangePairs
    requires { length ranges.now ≤ 256 }
    ensures count { length result ≡ 256 }
    ensures same { take (length ranges.now) result ≡ map range_pair ranges.now }
{
    let mut pairs = [(0u16, 0u16); RANGE_LIMIT];
    let mut place = 0;
    while place < ranges.len() {
        pairs[place] = (ranges[place].pointer, ranges[place].scalar);
        place += 1;
    }
    pairs
}

/// Returns the indexes with these ranges, as those of the library.
#[inline]
fn indexes_with<'a: 'r, 'r>(tables: &IndexTables<'a>, ranges: &'r [(u16, u16)]) -> Indexes<'r>
    ensures { flat_indexes result ≡ record (indexes_of tables.now) { ranges = ranges.now } }
{
    Indexes {
        big5: tables.big5,
        euc_kr: tables.euc_kr,
        jis0208: tables.jis0208,
        jis0212: tables.jis0212,
        gb18030: tables.gb18030,
        katakana: tables.katakana,
        ranges,
        gb18030_pua: &GB18030_2022_PUA,
    }
}

/// Returns the first fault of the seven indexes.
fn find_fault(tables: &IndexTables) -> Fault
    ensures { result ≡ indexes_fault tables.now }
{
    let count = tables.ranges.len();
    if count > RANGE_LIMIT {
        return Fault::of(9, 7, 256);
    }
    let pairs = range_pairs(tables.ranges);
    match Tables::new(&indexes_with(tables, &pairs[..count])) {
        Ok(_) => Fault::NONE,
        Err(error) => fault_numbers(error),
    }
}

/// Returns the first fault of the index of a single-byte encoding.
fn find_table_fault(tables: &IndexTables) -> Fault
    ensures { result ≡ table_fault_numbers tables.now }
{
    if tables.single_byte.len() != 128 {
        return Fault::of(10, 8, 0);
    }
    let mut entries = [0u16; 128];
    entries.copy_from_slice(tables.single_byte);
    match SingleByteTable::new(&entries) {
        Ok(_) => Fault::NONE,
        Err(error) => fault_numbers(error),
    }
}

/// Checks the seven indexes, and notes whether they are accepted. Returns the first fault.
pub fn check_indexes<'a>(tables: &mut IndexTables<'a>) -> Fault
    ensures fault { result ≡ indexes_fault tables.old }
    ensures accepted { result.kind ≡ 0 → tables.new.checked ≡ 1 }
    ensures refused { result.kind ≢ 0 → tables.new.checked ≡ 0 }
    ensures same { SameIndexes tables.old tables.new }
    ensures other { tables.new.single_byte_checked ≡ tables.old.single_byte_checked }
{
    let fault = find_fault(tables);
    tables.checked = u32::from(fault.kind == 0);
    fault
}

/// Checks the index of a single-byte encoding, and notes whether it is accepted. Returns the first fault.
pub fn check_table<'a>(tables: &mut IndexTables<'a>) -> Fault
    ensures fault { result ≡ table_fault_numbers tables.old }
    ensures accepted { result.kind ≡ 0 → tables.new.single_byte_checked ≡ 1 }
    ensures refused { result.kind ≢ 0 → tables.new.single_byte_checked ≡ 0 }
    ensures same { SameIndexes tables.old tables.new }
    ensures other { tables.new.checked ≡ tables.old.checked }
{
    let fault = find_table_fault(tables);
    tables.single_byte_checked = u32::from(fault.kind == 0);
    fault
}

/// Returns the tables of indexes that were checked, without the ranges.
#[inline]
pub fn tables_of<'a>(tables: &IndexTables<'a>) -> Option<Tables<'a>>
    ensures some { IfSome result (λ t. t.flat ≡ record (indexes_of tables.now) { ranges = [] }) }
    ensures none { IfNone result (tables.now.checked ≢ 1) }
{
    if tables.checked != 1 {
        return None;
    }
    Some(Tables::of_checked(&indexes_with(tables, &[])))
}

/// Returns the ranges of indexes that were checked, as pairs.
#[inline]
pub fn pairs_of(tables: &IndexTables) -> Option<RangePairs>
    ensures some { IfSome result (λ pairs. (tables.now.checked ≡ 1) × (length pairs ≡ 256)
        × (take (length tables.now.ranges.now) pairs ≡ map range_pair tables.now.ranges.now)) }
    ensures none { IfNone result (tables.now.checked ≢ 1) }
{
    if tables.checked != 1 {
        return None;
    }
    Some(range_pairs(tables.ranges))
}

/// Returns the tables of indexes that were checked, with their ranges as pairs.
#[inline]
pub fn tables_with<'a: 'r, 'r>(tables: &IndexTables<'a>, pairs: &'r RangePairs) -> Tables<'r>
    requires checked { tables.now.checked ≡ 1 }
    requires pairs { take (length tables.now.ranges.now) pairs.now ≡ map range_pair tables.now.ranges.now }
    ensures { result.flat ≡ indexes_of tables.now }
{
    Tables::of_checked(&indexes_with(tables, &pairs[..tables.ranges.len()]))
}

/// Returns the table of the index of a single-byte encoding that was checked.
#[inline]
pub fn table_of(tables: &IndexTables) -> Option<SingleByteTable>
    ensures some { IfSome result (λ t. t.entries ≡ tables.now.single_byte.now) }
    ensures none { IfNone result (tables.now.single_byte_checked ≢ 1) }
{
    if tables.single_byte_checked != 1 {
        return None;
    }
    let mut entries = [0u16; 128];
    entries.copy_from_slice(tables.single_byte);
    Some(SingleByteTable::of_checked(&entries))
}
