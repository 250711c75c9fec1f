//! The scalars of all bytes by a single-byte table: one load for each byte, ASCII or not.
// There is no branch between ASCII and other bytes: in text with letters past ASCII none is predicted.
// Functions that run for each block are always inlined. A call would pass vectors through memory,
// and keep the destination's place there.
ghost use Rattle.std.specs.Prelude.{◌≡◌, ◌<◌, ◌≤◌, ℕ, length, slice_index, IfSome};
ghost use Rattle.{legacy_single_byte.specs.ByteEntries.{IsByteEntry, AreByteEntries, AreUtf8Entries}, legacy_decoder_engine.specs.ReadAhead.IsSingle};
ghost use Rattle.{legacy_text.specs.{ByteUnits.AreByteScalars, UnitBytes.IsUtf8Entry}, legacy_base.specs.Grammar.single_byte};

use legacy_base::SingleByteTable;
use legacy_text::utf8_entry;
use std::simd::prelude::*;

/// A checked table, and the entry of each byte: its scalar, or 0 if it has none.
///
/// Bytes past ASCII also have an entry in UTF-8, so that the bytes of a scalar are stored at once.
#[derive(Drop)]
pub struct ByteScalars<'a> {
    pub table: &'a SingleByteTable,
    entries: [u16; 256],
    utf8_entries: [u32; 128],
    ghost entry_count: { length entries ≡ 256 },
    ghost same: { AreByteEntries table.now.entries entries 256 },
    ghost utf8_entry_count: { length utf8_entries ≡ 128 },
    ghost same_utf8: { AreUtf8Entries table.now.entries utf8_entries 128 },
}

/// Returns the entry of a byte.
#[tactic(auto, using(crate::proofs::SingleByteAhead::place_below))]
fn entry_of(table: &SingleByteTable, byte: usize) -> u16
    requires { byte < 0x100 }
    ensures { IsByteEntry table.now.entries byte result }
{
    if byte < 0x80 {
        return byte as u16;
    }
    match table.scalar(byte - 0x80) {
        Some(scalar) => scalar as u16,
        None => 0,
    }
}

/// Returns the entries of all bytes.
fn byte_entries(table: &SingleByteTable) -> [u16; 256]
    ensures count { length result ≡ 256 }
    ensures same { AreByteEntries table.now.entries result 256 }
{
    let mut entries = [0u16; 256];
    for byte in 0..256 {
        entries[byte] = entry_of(table, byte);
    }
    entries
}

/// Returns the entries in UTF-8 of the bytes past ASCII.
#[tactic(auto, using(crate::proofs::SingleByteAhead::place_below))]
fn utf8_entries_of(table: &SingleByteTable) -> [u32; 128]
    ensures count { length result ≡ 128 }
    ensures same { AreUtf8Entries table.now.entries result 128 }
{
    let mut entries = [0u32; 128];
    for place in 0..128 {
        entries[place] = utf8_entry(table.scalar(place).unwrap_or('\0'));
    }
    entries
}

impl<'a> ByteScalars<'a> {
    /// Returns the scalars of all bytes by the table.
    pub fn new(table: &'a SingleByteTable) -> ByteScalars<'a>
        ensures { result.table.now ≡ table.now }
    {
        ByteScalars {
            table,
            entries: byte_entries(table),
            utf8_entries: utf8_entries_of(table),
        }
    }

    /// Returns the scalar of a byte, or `None` if it has none, and for the byte 00.
    #[inline(always)]
    #[tactic(auto, using(crate::proofs::SingleByteAhead::entry_below))]
    pub fn scalar(&self, byte: u8) -> Option<char>
        ensures single { IfSome result (λ c. IsSingle (single_byte self.now.table.now.entries) byte c) }
        ensures entry { IfSome result (λ c. IsByteEntry self.now.table.now.entries byte c) }
    {
        let entry = self.entries[usize::from(byte)];
        if entry == 0 {
            return None;
        }
        Some(unsafe { char::from_u32_unchecked(u32::from(entry)) })
    }

    /// Returns the entries of all bytes.
    #[inline(always)]
    pub fn entries(&self) -> &[u16]
        ensures all { AreByteScalars result.now }
        ensures same { AreByteEntries self.now.table.now.entries result.now 256 }
    {
        &self.entries
    }

    /// Returns the entry in UTF-8 of a byte past ASCII.
    #[inline(always)]
    pub fn utf8_entry(&self, byte: u8) -> u32
        requires { 0x80 ≤ byte }
        ensures { (c : ℕ) → IsByteEntry self.now.table.now.entries byte c → IsUtf8Entry c result }
    {
        self.utf8_entries[usize::from(byte - 0x80)]
    }

    /// Returns the code units of the first eight bytes: 0 for a byte that has no scalar, and for the byte 00.
    #[inline(always)]
    pub fn units(&self, src: &[u8]) -> u16x8
        requires { 8 ≤ length src.now }
        ensures count { length result ≡ 8 }
        ensures same { (k : ℕ) → k < 8 → IsByteEntry self.now.table.now.entries (slice_index src.now k) (slice_index result k) }
    {
        let mut units = [0u16; 8];
        let mut at = 0;
        while at < 8 {
            units[at] = self.entries[usize::from(src[at])];
            at += 1;
        }
        u16x8::from_array(units)
    }
}
