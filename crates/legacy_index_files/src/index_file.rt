//! The reader of an index file.
ghost use Rattle.std.specs.Prelude.{◌≡◌, ◌≢◌, ℕ, ◌↔◌, List, Some, Err, IfOk};
ghost use Rattle.legacy_index_files.specs.IndexLine.{lines, line_kind};
ghost use Rattle.legacy_index_files.specs.IndexGrammar.{IsOfKind};
ghost use Rattle.legacy_index_files.specs.IndexTable.{first_malformed, entries_of, IsTableOf};
ghost use Rattle.legacy_index_files.specs.IndexTable.{malformed_line, file_entries, IsIndexOf};
ghost use Rattle.legacy_index_files.specs.declared.index_file.EncoderIndex.TheVariants.{Katakana};

use crate::index_table::{check_lines, read_narrow, read_ranges, read_single_byte, read_wide};
use std::alloc::Global;
use thiserror::Error;

/// An index of the WHATWG Encoding Standard ("Indexes") that `read_index` reads.
#[derive(Clone, Copy, Debug, PartialEq, Eq)]
pub enum FileIndex {
    /// Index Big5: pointers below 19782, values up to 10FFFF.
    Big5,
    /// Index EUC-KR: pointers below 23940, values up to FFFF.
    EucKr,
    /// Index jis0208: pointers below 11280, values up to FFFF.
    Jis0208,
    /// Index jis0212: pointers below 8836, values up to FFFF.
    Jis0212,
    /// Index gb18030: pointers below 23940, values up to FFFF.
    Gb18030,
    /// Index gb18030 ranges: pointers up to 65535, values up to FFFF.
    Ranges,
    /// An index of a single-byte encoding: pointers below 128, values up to FFFF.
    SingleByte,
}

/// An index that an encoder uses.
#[derive(Clone, Copy, Debug, PartialEq, Eq)]
pub enum EncoderIndex {
    /// An index that the decoder uses too.
    Of(FileIndex),
    /// Index ISO-2022-JP katakana: pointers below 63, values up to FFFF (`KATAKANA_FILE`).
    Katakana,
}

/// The name of the file that the Standard publishes for index ISO-2022-JP katakana.
pub const KATAKANA_FILE: &str = "index-iso-2022-jp-katakana.txt";

/// The table of an index file.
#[derive(Debug, PartialEq, Eq, Drop)]
pub enum FileTable {
    /// Index Big5: the value of each pointer up to the greatest in the file.
    ///
    /// A pointer without a value has 0.
    Wide(Vec<u32>),
    /// The other indexes by pointer: the value of each pointer up to the greatest in the file.
    ///
    /// A pointer without a value has 0.
    Narrow(Vec<u16>),
    /// Index gb18030 ranges: the pointer and value of each line, in order.
    Ranges(Vec<(u16, u16)>),
    /// An index of a single-byte encoding: the value of each pointer, 0 for those without one.
    Bytes([u16; 128]),
}

/// The reason why an index file was not read.
#[derive(Debug, PartialEq, Eq, Drop, Error)]
pub enum IndexFileError {
    /// The number of the first malformed line, counted from 1.
    ///
    /// A line whose pointer or value is out of range counts as malformed.
    #[error("line {0}")]
    Line(usize),
    /// Memory for the table was refused.
    #[error("memory")]
    Memory,
}

/// Reads the text of an index file (WHATWG Encoding Standard, "Indexes").
///
/// The text consists of lines that end with 0A, which the last one may lack. Blanks are 20 and 09.
/// A line is skipped if it has only blanks (and perhaps a 0D at its end), or if its first byte
/// after blanks is `#`. Any other line has the parts, in this order:
///
/// - any number of blanks;
/// - 1 to 6 decimal digits, the pointer;
/// - at least one blank, and `0x`;
/// - 1 to 6 hexadecimal digits of either case, the value;
/// - the end of the line, or a byte that is no hexadecimal digit and any bytes after it.
///
/// The pointer and the value must be in the index's range. In the ranges, the line with pointer
/// 189000 and value 10000 is skipped too.
///
/// Returns the table of the lines. If a pointer occurs twice, the later value counts; the ranges
/// keep both lines. Returns `Line` for the first line that does not have this form, and `Memory`
/// only if there is no such line. A single-byte index allocates nothing, so it never gives `Memory`.
pub fn read_index(alloc: Global, name: FileIndex, text: &[u8]) -> Result<FileTable, IndexFileError>
    ensures table { IfOk result (λ table. IsTableOf name (entries_of name (lines text.now)) table) }
    ensures line { (n : ℕ) → (result ≡ Err (IndexFileError.Line n))
        ↔ (first_malformed name 1 (lines text.now) ≡ Some n) }
    ensures memory { name ≡ FileIndex.SingleByte → result ≢ Err IndexFileError.Memory }
    ensures grammar { (line : List ℕ) → IsOfKind line (line_kind line) }
{
    let length = match check_lines(EncoderIndex::Of(name), text) {
        Ok(length) => length,
        Err(number) => return Err(IndexFileError::Line(number)),
    };
    let table = match name {
        FileIndex::Big5 => read_wide(alloc, EncoderIndex::Of(name), length, text).map(
            FileTable::Wide,
        ),
        FileIndex::Ranges => read_ranges(alloc, text).map(FileTable::Ranges),
        FileIndex::SingleByte => Ok(FileTable::Bytes(read_single_byte(text))),
        _ => read_narrow(alloc, EncoderIndex::Of(name), length, text).map(FileTable::Narrow),
    };
    table.map_err(|_| IndexFileError::Memory)
}

/// Reads the text of the file of index ISO-2022-JP katakana.
///
/// The encoder of ISO-2022-JP uses this index for half-width katakana. The text is read as by
/// `read_index`, with the same errors. Returns the value of each pointer up to the greatest in the
/// file, 0 for those without one. The Standard's file has all 63.
pub fn read_katakana(alloc: Global, text: &[u8]) -> Result<Vec<u16>, IndexFileError>
    ensures table { IfOk result (λ values.
        IsIndexOf (file_entries Katakana (lines text.now)) values.items) }
    ensures line { (n : ℕ) → (result ≡ Err (IndexFileError.Line n))
        ↔ (malformed_line Katakana 1 (lines text.now) ≡ Some n) }
{
    let length = match check_lines(EncoderIndex::Katakana, text) {
        Ok(length) => length,
        Err(line) => return Err(IndexFileError::Line(line)),
    };
    read_narrow(alloc, EncoderIndex::Katakana, length, text).map_err(|_| IndexFileError::Memory)
}
