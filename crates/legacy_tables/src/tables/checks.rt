//! The checks of indexes. Each returns the first fault that it finds.
ghost use Rattle.std.specs.Prelude.{◌≡◌, ℕ, ◌+◌, ◌<◌, length, drop};
ghost use Rattle.std.specs.Prelude.{MatchResult, Some, None, nat_le, ◌&&◌};
ghost use Rattle.std.specs.Option.{option_or};
ghost use Rattle.legacy_tables.specs.TableChecks.{is_narrow_entry, is_entry, must_be_empty};
ghost use Rattle.legacy_tables.specs.TableChecks.{entry_fault, index_fault, katakana_fault};
ghost use Rattle.legacy_tables.specs.TableChecks.{entries_fault, follows_range, range_order_fault};
ghost use Rattle.legacy_tables.specs.TableChecks.{next_pointer, has_range_scalars, range_value_fault};
ghost use Rattle.legacy_tables.specs.TableChecks.{rows_fault, table_fault};
ghost use Rattle.legacy_tables.specs.Tables.{flat_indexes};

use super::limits::{
    BIG5_POINTERS, EUC_KR_POINTERS, GB18030_POINTERS, JIS0208_POINTERS, JIS0212_POINTERS,
    LAST_RANGE_POINTER,
};
use super::numbers::Numbers;
use super::private_use::check_rows;
use super::{IndexName, Indexes, TableError};

/// Checks whether the entry is a scalar of the Basic Multilingual Plane past ASCII.
pub(crate) fn is_narrow(entry: usize) -> bool
    ensures { result ≡ is_narrow_entry entry }
{
    matches!(entry, 0x80..=0xD7FF | 0xE000..=0xFFFF)
}

/// Checks whether the index may contain the entry.
fn is_allowed(name: IndexName, entry: usize) -> bool
    ensures { result ≡ is_entry name entry }
{
    match name {
        IndexName::Big5 => is_narrow(entry) || matches!(entry, 0x2_0000..=0x2_FFFF),
        _ => is_narrow(entry),
    }
}

/// Checks whether the entry of the pointer must be 0, because the decoder does not look it up.
fn stays_empty(name: IndexName, pointer: usize) -> bool
    ensures { result ≡ must_be_empty name pointer }
{
    match name {
        IndexName::Big5 => matches!(pointer, 1133 | 1135 | 1164 | 1166),
        IndexName::Jis0208 => matches!(pointer, 8836..=10715),
        _ => false,
    }
}

/// Checks the entry of a pointer.
fn check_entry(name: IndexName, pointer: usize, entry: usize) -> Result<(), TableError>
    ensures { MatchResult result
        (λ _. entry_fault name pointer entry ≡ None)
        (λ fault. entry_fault name pointer entry ≡ Some fault) }
{
    if entry == 0 {
        return Ok(());
    }
    if !is_allowed(name, entry) {
        return Err(TableError::BadEntry(name, pointer));
    }
    if stays_empty(name, pointer) {
        return Err(TableError::NotEmpty(name, pointer));
    }
    Ok(())
}

/// Checks the entries of an index.
#[tactic(auto, using(crate::proofs::TableLoops::entries_steps))]
fn check_entries<N: Numbers>(name: IndexName, index: &N) -> Result<(), TableError>
    ensures { let found = entries_fault name 0 (N.numbers index.now) in
        MatchResult result (λ _. found ≡ None) (λ fault. found ≡ Some fault) }
{
    for pointer in 0..index.count() {
        check_entry(name, pointer, index.number(pointer))?;
    }
    Ok(())
}

/// Checks the length of an index, which is at most `limit`, and its entries.
fn check_index<N: Numbers>(name: IndexName, limit: usize, index: &N) -> Result<(), TableError>
    ensures { let found = index_fault name limit (N.numbers index.now) in
        MatchResult result (λ _. found ≡ None) (λ fault. found ≡ Some fault) }
{
    if index.count() > limit {
        return Err(TableError::TooLong(name));
    }
    check_entries(name, index)
}

/// Checks the length and the entries of the katakana index.
pub(super) fn check_katakana(index: &[u16]) -> Result<(), TableError>
    ensures { let found = katakana_fault index.now in
        MatchResult result (λ _. found ≡ None) (λ fault. found ≡ Some fault) }
{
    if index.len() != 0 && index.len() != 63 {
        return Err(TableError::KatakanaLength);
    }
    check_entries(IndexName::Katakana, &index)
}

/// Checks whether the range may follow the one before it, and does not start past the last pointer.
fn is_in_order(before: Option<(u16, u16)>, range: (u16, u16)) -> bool
    ensures { result ≡ (nat_le range.0 39419 && follows_range before range) }
{
    if range.0 > LAST_RANGE_POINTER {
        return false;
    }
    match before {
        None => true,
        Some((pointer, scalar)) => {
            pointer < range.0
                && u32::from(scalar) + u32::from(range.0 - pointer) <= u32::from(range.1)
        }
    }
}

/// Checks that pointers and scalars rise from range to range, and that no range starts past the last pointer.
pub(super) fn check_range_order(ranges: &[(u16, u16)]) -> Result<(), TableError>
    ensures { let found = range_order_fault 0 None ranges.now in
        MatchResult result (λ _. found ≡ None) (λ fault. found ≡ Some fault) }
{
    let mut before = None;
    for (place, range) in ranges.iter().enumerate() {
        if !is_in_order(before, *range) {
            return Err(TableError::RangeOrder(place));
        }
        before = Some(*range);
    }
    Ok(())
}

/// Checks whether the range, which ends before `end`, has only scalars from U+0080 to U+FFFF.
fn has_scalars(range: (u16, u16), end: u16) -> bool
    ensures { result ≡ has_range_scalars range end }
{
    let past = u32::from(range.1) + u32::from(end.saturating_sub(range.0));
    range.1 >= 0x80 && (past <= 0xD800 || (range.1 >= 0xE000 && past <= 0x1_0000))
}

/// Returns the pointer after the range at a place: that of the next range, or the one past the last pointer.
pub(super) fn end_of(ranges: &[(u16, u16)], place: usize) -> u16
    requires { place < length ranges.now }
    ensures { result ≡ next_pointer (drop (place + 1) ranges.now) }
{
    if place + 1 < ranges.len() {
        ranges[place + 1].0
    } else {
        LAST_RANGE_POINTER + 1
    }
}

/// Checks the scalars of each range.
pub(super) fn check_range_scalars(ranges: &[(u16, u16)]) -> Result<(), TableError>
    ensures { let found = range_value_fault 0 ranges.now in
        MatchResult result (λ _. found ≡ None) (λ fault. found ≡ Some fault) }
{
    for (place, range) in ranges.iter().enumerate() {
        if !has_scalars(*range, end_of(ranges, place)) {
            return Err(TableError::RangeValue(place));
        }
    }
    Ok(())
}

/// Checks the katakana index, the ranges and the private-use rows, and returns the first fault.
fn check_short_lists(indexes: &Indexes<'_>) -> Result<(), TableError>
    ensures { let flat = flat_indexes indexes.now in
        let found = option_or (katakana_fault flat.katakana)
        (option_or (range_order_fault 0 None flat.ranges)
        (option_or (range_value_fault 0 flat.ranges) (rows_fault 0 None flat.gb18030_pua))) in
        MatchResult result (λ _. found ≡ None) (λ fault. found ≡ Some fault) }
{
    check_katakana(indexes.katakana)?;
    check_range_order(indexes.ranges)?;
    check_range_scalars(indexes.ranges)?;
    check_rows(indexes.gb18030_pua)
}

/// Checks indexes in the order of the fields, and returns the first fault.
pub(super) fn check_indexes(indexes: &Indexes<'_>) -> Result<(), TableError>
    ensures { let found = table_fault (flat_indexes indexes.now) in
        MatchResult result (λ _. found ≡ None) (λ fault. found ≡ Some fault) }
{
    check_index(IndexName::Big5, BIG5_POINTERS, &indexes.big5)?;
    check_index(IndexName::EucKr, EUC_KR_POINTERS, &indexes.euc_kr)?;
    check_index(IndexName::Jis0208, JIS0208_POINTERS, &indexes.jis0208)?;
    check_index(IndexName::Jis0212, JIS0212_POINTERS, &indexes.jis0212)?;
    check_index(IndexName::Gb18030, GB18030_POINTERS, &indexes.gb18030)?;
    check_short_lists(indexes)
}
