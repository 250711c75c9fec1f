//! The table of the lines of an index file.
ghost use Rattle.std.specs.Prelude.{◌≡◌, ℕ, ◌<◌, ◌≤◌, ◌+◌, Some, None, Ok, Err, IfOk, MatchResult, length, slice_index};
ghost use Rattle.std.specs.Option.{unwrap_or};
ghost use Rattle.legacy_index_files.specs.IndexLine.{lines};
ghost use Rattle.legacy_index_files.specs.IndexTable.{greatest_length, greatest_value, kind_within, says, malformed_line, file_entries};
ghost use Rattle.legacy_index_files.specs.IndexTable.{entries_of, table_length, last_value, IsIndexOf, IsSingleByteIndexOf, IsInRange};

use crate::index_file::{EncoderIndex, FileIndex};
use crate::index_line::{LineKind, parse_line, split_line};
use legacy_tables::Entry;
use std::alloc::{AllocError, Global};

/// Returns the length of the lines' table, or the number of the first malformed line.
pub(crate) fn check_lines(name: EncoderIndex, text: &[u8]) -> Result<usize, usize>
    ensures sound { MatchResult result
        (λ _. malformed_line name 1 (lines text.now) ≡ None)
        (λ n. malformed_line name 1 (lines text.now) ≡ Some n) }
    ensures length { IfOk result (λ n. n ≡ table_length (file_entries name (lines text.now))) }
    ensures bound { IfOk result (λ n. n ≤ greatest_length name) }
{
    let mut rest = text;
    let mut number = 0;
    let mut length = 0;
    while !rest.is_empty() {
        let (line, after) = split_line(rest);
        number += 1;
        match read_line(name, line) {
            LineKind::Skipped => {}
            LineKind::Entry(pointer, _) => length = length.max(pointer as usize + 1),
            LineKind::Malformed => return Err(number),
        }
        rest = after;
    }
    Ok(length)
}

/// Returns the table of index Big5, from a text without malformed lines.
pub(crate) fn read_wide(
    alloc: Global,
    name: EncoderIndex,
    length: usize,
    text: &[u8],
) -> Result<Vec<u32>, AllocError>
    requires len { length ≡ table_length (file_entries name (lines text.now)) }
    ensures { IfOk result (λ v. IsIndexOf (file_entries name (lines text.now)) v.items) }
{
    let mut values = vec![in alloc; 0; length]?;
    fill(&mut values, name, text);
    Ok(values)
}

/// Returns the table of another index by pointer, from a text without malformed lines.
pub(crate) fn read_narrow(
    alloc: Global,
    name: EncoderIndex,
    length: usize,
    text: &[u8],
) -> Result<Vec<u16>, AllocError>
    requires narrow { greatest_value name ≡ 0xFFFF }
    requires len { length ≡ table_length (file_entries name (lines text.now)) }
    ensures { IfOk result (λ v. IsIndexOf (file_entries name (lines text.now)) v.items) }
{
    let mut values = vec![in alloc; 0; length]?;
    fill(&mut values, name, text);
    Ok(values)
}

/// Returns the table of a single-byte encoding, from a text without malformed lines.
pub(crate) fn read_single_byte(text: &[u8]) -> [u16; 128]
    requires { table_length (entries_of FileIndex.SingleByte (lines text.now)) ≤ 128 }
    ensures { IsSingleByteIndexOf (entries_of FileIndex.SingleByte (lines text.now)) result }
{
    let mut values = [0; 128];
    fill(&mut values, EncoderIndex::Of(FileIndex::SingleByte), text);
    values
}

/// Returns the lines of index gb18030 ranges, from a text without malformed lines.
pub(crate) fn read_ranges(alloc: Global, text: &[u8]) -> Result<Vec<(u16, u16)>, AllocError>
    ensures { IfOk result (λ v. v.items ≡ entries_of FileIndex.Ranges (lines text.now)) }
{
    let mut ranges = Vec::new(alloc);
    let mut rest = text;
    while !rest.is_empty() {
        let (line, after) = split_line(rest);
        if let LineKind::Entry(pointer, value) = read_line(
            EncoderIndex::Of(FileIndex::Ranges),
            line,
        ) {
            ranges.push((pointer as u16, value as u16))?;
        }
        rest = after;
    }
    Ok(ranges)
}

/// Writes the value of each line to the place of its pointer, in order.
fn fill<E: Entry>(values: &mut [E], name: EncoderIndex, text: &[u8])
    requires small { greatest_value name < E.limit }
    requires room { table_length (file_entries name (lines text.now)) ≤ length values.old }
    ensures { (p : ℕ) → p < length values.old → slice_index (E.numbers values.new) p
        ≡ unwrap_or (last_value (file_entries name (lines text.now)) p)
        (slice_index (E.numbers values.old) p) }
{
    let mut rest = text;
    while !rest.is_empty() {
        let (line, after) = split_line(rest);
        if let LineKind::Entry(pointer, value) = read_line(name, line) {
            E::put(values, pointer as usize, value as usize);
        }
        rest = after;
    }
}

/// Returns the kind of a line in a file of the index.
fn read_line(name: EncoderIndex, line: &[u8]) -> LineKind
    ensures says { result ≡ says name line.now }
    ensures in_range { IsInRange name result }
{
    match parse_line(line) {
        LineKind::Entry(pointer, value) => kind_in_range(name, pointer, value),
        other => other,
    }
}

/// Returns the kind of an entry line in a file of the index.
fn kind_in_range(name: EncoderIndex, pointer: u32, value: u32) -> LineKind
    ensures says { result ≡ kind_within name (LineKind.Entry pointer value) }
    ensures in_range { IsInRange name result }
{
    if name == EncoderIndex::Of(FileIndex::Ranges) && pointer == 189000 && value == 0x1_0000 {
        LineKind::Skipped
    } else if pointer < pointer_limit(name) && value <= value_limit(name) {
        LineKind::Entry(pointer, value)
    } else {
        LineKind::Malformed
    }
}

/// Returns the greatest length of the index; its pointers are less.
fn pointer_limit(name: EncoderIndex) -> u32
    ensures { result ≡ greatest_length name }
{
    match name {
        EncoderIndex::Of(FileIndex::Big5) => 19782,
        EncoderIndex::Of(FileIndex::EucKr | FileIndex::Gb18030) => 23940,
        EncoderIndex::Of(FileIndex::Jis0208) => 11280,
        EncoderIndex::Of(FileIndex::Jis0212) => 8836,
        EncoderIndex::Of(FileIndex::Ranges) => 65536,
        EncoderIndex::Of(FileIndex::SingleByte) => 128,
        EncoderIndex::Katakana => 63,
    }
}

/// Returns the greatest value of the index.
fn value_limit(name: EncoderIndex) -> u32
    ensures { result ≡ greatest_value name }
{
    match name {
        EncoderIndex::Of(FileIndex::Big5) => 0x10_FFFF,
        _ => 0xFFFF,
    }
}
