//! The tables of the single-byte codecs.
ghost use Rattle.std.specs.Prelude.{◌≡◌, ◌↔◌, ℕ, MatchResult, Some, None, length, ◌==◌, position};
ghost use Rattle.std.specs.List.{list_any};
ghost use Rattle.legacy_tables.specs.TableChecks.{IsAcceptedTable, is_byte_entry, byte_entry_fault};
ghost use Rattle.legacy_tables.specs.TableChecks.{single_byte_fault};
ghost use Rattle.legacy_tables.specs.Indexes.{idx};

mod accepted;

use crate::tables::TableError;
use crate::tables::checks::is_narrow;
use crate::tables::lookups::scalar_in;
use std::marker::Model;

/// A checked table of the scalar values of the bytes from 0x80 on (Encoding Standard, "single-byte indexes").
///
/// Its value is its 128 entries. Entry `p` is the scalar value of byte 0x80 + `p`, or 0 if the byte has none.
#[derive(Drop)]
pub struct SingleByteTable {
    entries: [u16; 128],
    ghost entry_count: { length entries ≡ 128 },
    ghost accepted: { IsAcceptedTable entries },
}

impl Model for SingleByteTable {
    ghost use Rattle.legacy_tables.specs.AcceptedTables.{AcceptedTable};
    ghost use Rattle.legacy_tables.specs.StoredTables.{coded_table};

    ghost Value = { AcceptedTable };

    ghost coded = { coded_table };

    ghost view = { λ t. record {
      entries = t.entries;
      entry_count = t.entry_count;
      accepted = t.accepted;
    } };
}

/// Checks whether the entry is a scalar from U+0080 to U+FFFF, but not U+FFFD.
fn is_allowed(entry: u16) -> bool
    ensures { result ≡ is_byte_entry entry }
{
    entry != 0xFFFD && is_narrow(usize::from(entry))
}

/// Checks whether the entry is one of the earlier ones.
fn stands_among(earlier: &[u16], entry: u16) -> bool
    ensures { result ≡ list_any (λ e. e == entry) earlier.now }
{
    earlier.iter().any(|e| *e == entry)
}

/// Checks the entry at a place, given the entries before it.
fn check_entry(place: usize, before: &[u16], entry: u16) -> Result<(), TableError>
    ensures { let found = byte_entry_fault place before.now entry in
        MatchResult result (λ _. found ≡ None) (λ fault. found ≡ Some fault) }
{
    if entry == 0 {
        return Ok(());
    }
    if !is_allowed(entry) {
        return Err(TableError::BadByteEntry(place));
    }
    if stands_among(before, entry) {
        return Err(TableError::Repeated(place));
    }
    Ok(())
}

/// Checks all entries.
#[tactic(auto, using(crate::proofs::TableLoops::bytes_steps))]
fn check_entries(entries: &[u16]) -> Result<(), TableError>
    ensures { let found = single_byte_fault entries.now in
        MatchResult result (λ _. found ≡ None) (λ fault. found ≡ Some fault) }
{
    for (place, entry) in entries.iter().enumerate() {
        check_entry(place, &entries[..place], *entry)?;
    }
    Ok(())
}

/// Returns the first place of an entry.
fn place_of(entries: &[u16], scalar: u32) -> Option<usize>
    ensures { result ≡ position (λ e. e == scalar) entries.now }
{
    entries.iter().position(|e| u32::from(*e) == scalar)
}

impl SingleByteTable {
    /// Returns the table of 128 entries, or the first fault by rising places.
    ///
    /// An entry that is not 0 is a fault if it is below 0x80, a surrogate or 0xFFFD, or if an earlier entry is
    /// equal to it. No memory is allocated.
    pub fn new(entries: &[u16; 128]) -> Result<SingleByteTable, TableError>
        ensures { MatchResult result
            (λ table. table.entries ≡ entries.now)
            (λ fault. single_byte_fault entries.now ≡ Some fault) }
    {
        check_entries(entries)?;
        Ok(SingleByteTable { entries: *entries })
    }

    /// Returns the scalar value of byte 0x80 + `place`.
    ///
    /// Returns `None` if the byte has none, or if the place is at least 128.
    #[inline]
    #[tactic(auto, using(crate::proofs::AcceptedTable::accepted_table))]
    pub fn scalar(&self, place: usize) -> Option<char>
        ensures { result ≡ idx self.now.entries place }
    {
        let entries: &[u16] = &self.entries;
        scalar_in(&entries, place)
    }

    /// Returns the only place of the scalar value, or `None` (Encoding Standard, "index pointer").
    ///
    /// U+0000 has no place.
    pub fn place(&self, c: char) -> Option<usize>
        ensures { (place : ℕ) → (result ≡ Some place) ↔ (idx self.now.entries place ≡ Some c) }
    {
        if c == '\0' {
            return None;
        }
        place_of(&self.entries, u32::from(c))
    }
}
