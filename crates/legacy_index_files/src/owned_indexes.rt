//! An owning set of indexes, read from index files, which lends its tables.
ghost use Rattle.std.specs.Prelude.{◌≡◌, ◌≢◌, ℕ, ◌↔◌, List, [], Some, Err, IfOk, OnErr, MatchResult};
ghost use Rattle.legacy_tables.specs.Tables.{flat_indexes};
ghost use Rattle.legacy_tables.specs.TableChecks.{table_fault, single_byte_fault};
ghost use Rattle.legacy_index_files.specs.IndexLine.{lines};
ghost use Rattle.legacy_index_files.specs.IndexTable.{first_malformed, entries_of, IsTableOf};
ghost use Rattle.legacy_index_files.specs.IndexTable.{malformed_line};
ghost use Rattle.legacy_index_files.specs.declared.index_file.EncoderIndex.TheVariants.{Katakana};
ghost use Rattle.legacy_index_files.specs.IndexTexts.{no_text, with_text};
ghost use Rattle.legacy_index_files.specs.OwnedIndexes.{HoldsTexts, IsUnallocated, HoldsFile, HoldsKatakana, with_table, owned_lists};

use crate::index_file::{FileIndex, FileTable, IndexFileError, read_index, read_katakana};
use legacy_tables::{GB18030_2022_PUA, Indexes, SingleByteTable, TableError, Tables};
use std::alloc::Global;

/// The values of all indexes, owned.
///
/// An index without a file is empty, and the single-byte index is all zero. If `text` is the bytes
/// of the file `index-euc-kr.txt`, three lines make tables of its index:
///
///     let mut owned = OwnedIndexes::new(alloc);
///     owned.read(alloc, FileIndex::EucKr, text)?;
///     let tables = owned.tables()?;
///
/// The tables borrow the set. Decoders and encoders borrow the tables.
#[derive(Drop)]
pub struct OwnedIndexes {
    /// Index Big5.
    pub big5: Vec<u32>,
    /// Index EUC-KR.
    pub euc_kr: Vec<u16>,
    /// Index jis0208.
    pub jis0208: Vec<u16>,
    /// Index jis0212.
    pub jis0212: Vec<u16>,
    /// Index gb18030.
    pub gb18030: Vec<u16>,
    /// Index ISO-2022-JP katakana, with 63 entries or none (`read_katakana`).
    ///
    /// ISO-2022-JP encodes half-width katakana with it.
    pub katakana: Vec<u16>,
    /// Index gb18030 ranges.
    pub ranges: Vec<(u16, u16)>,
    /// The index of one single-byte encoding.
    pub single_byte: [u16; 128],
}

impl OwnedIndexes {
    /// Makes a set with empty indexes and an all-zero single-byte index. It allocates no memory.
    pub fn new(alloc: Global) -> OwnedIndexes
        ensures empty { HoldsTexts no_text result }
        ensures katakana { result.katakana.items ≡ [] }
        ensures unallocated { IsUnallocated result }
    {
        OwnedIndexes {
            big5: Vec::new(alloc),
            euc_kr: Vec::new(alloc),
            jis0208: Vec::new(alloc),
            jis0212: Vec::new(alloc),
            gb18030: Vec::new(alloc),
            katakana: Vec::new(alloc),
            ranges: Vec::new(alloc),
            single_byte: [0; 128],
        }
    }

    /// Replaces the table of an index with one from `read_index`. The other indexes do not change.
    ///
    /// A table of the wrong kind for the index changes nothing; `read_index` returns no such table.
    pub fn set(&mut self, name: FileIndex, table: FileTable)
        ensures place { self.new ≡ with_table self.old name table }
        ensures texts { (texts : FileIndex → List ℕ) (text : List ℕ) → HoldsTexts texts self.old
            → IsTableOf name (entries_of name (lines text)) table
            → HoldsTexts (with_text texts name text) self.new }
        ensures katakana { self.new.katakana ≡ self.old.katakana }
    {
        match table {
            FileTable::Narrow(values) => self.set_narrow(name, values),
            FileTable::Wide(values) => {
                if name == FileIndex::Big5 {
                    self.big5 = values;
                }
            }
            FileTable::Ranges(ranges) => {
                if name == FileIndex::Ranges {
                    self.ranges = ranges;
                }
            }
            FileTable::Bytes(values) => {
                if name == FileIndex::SingleByte {
                    self.single_byte = values;
                }
            }
        }
    }

    /// Replaces the values of an index with narrow entries. For other indexes nothing changes.
    fn set_narrow(&mut self, name: FileIndex, values: Vec<u16>)
        ensures { self.new ≡ with_table self.old name (FileTable.Narrow values) }
    {
        match name {
            FileIndex::EucKr => self.euc_kr = values,
            FileIndex::Jis0208 => self.jis0208 = values,
            FileIndex::Jis0212 => self.jis0212 = values,
            FileIndex::Gb18030 => self.gb18030 = values,
            _ => {}
        }
    }

    /// Reads the text of an index file with `read_index`, and replaces the table of that index.
    ///
    /// The errors are those of `read_index`. After an error the set is unchanged.
    pub fn read(
        &mut self,
        alloc: Global,
        name: FileIndex,
        text: &[u8],
    ) -> Result<(), IndexFileError>
        ensures table { IfOk result (λ _. HoldsFile name text.now self.old self.new) }
        ensures texts { (texts : FileIndex → List ℕ) → HoldsTexts texts self.old
            → IfOk result (λ _. HoldsTexts (with_text texts name text.now) self.new) }
        ensures line { (n : ℕ) → (result ≡ Err (IndexFileError.Line n))
            ↔ (first_malformed name 1 (lines text.now) ≡ Some n) }
        ensures memory { name ≡ FileIndex.SingleByte → result ≢ Err IndexFileError.Memory }
        ensures unchanged { OnErr result (self.new ≡ self.old) }
    {
        match read_index(alloc, name, text) {
            Ok(table) => {
                self.set(name, table);
                Ok(())
            }
            Err(fault) => Err(fault),
        }
    }

    /// Reads the text of the katakana index's file, and replaces the values of that index.
    ///
    /// The errors are those of the function `read_katakana`. After an error the set is unchanged.
    /// If the file has neither 63 values nor none, `tables` returns a fault.
    pub fn read_katakana(&mut self, alloc: Global, text: &[u8]) -> Result<(), IndexFileError>
        ensures values { IfOk result (λ _. HoldsKatakana text.now self.old self.new) }
        ensures texts { (texts : FileIndex → List ℕ) → HoldsTexts texts self.old
            → HoldsTexts texts self.new }
        ensures line { (n : ℕ) → (result ≡ Err (IndexFileError.Line n))
            ↔ (malformed_line Katakana 1 (lines text.now) ≡ Some n) }
        ensures unchanged { OnErr result (self.new ≡ self.old) }
    {
        match read_katakana(alloc, text) {
            Ok(values) => {
                self.katakana = values;
                Ok(())
            }
            Err(fault) => Err(fault),
        }
    }

    /// Returns all indexes, borrowed and not yet checked, with GB18030's private-use rows.
    pub fn indexes(&self) -> Indexes<'_>
        ensures { flat_indexes result ≡ owned_lists self.now }
    {
        Indexes {
            big5: &self.big5,
            euc_kr: &self.euc_kr,
            jis0208: &self.jis0208,
            jis0212: &self.jis0212,
            gb18030: &self.gb18030,
            katakana: &self.katakana,
            ranges: &self.ranges,
            gb18030_pua: &GB18030_2022_PUA,
        }
    }

    /// Checks the indexes, and returns their tables or the first fault (`Tables::new`).
    ///
    /// The tables borrow the set and allocate no memory.
    pub fn tables(&self) -> Result<Tables<'_>, TableError>
        ensures { MatchResult result
            (λ tables. tables.flat ≡ owned_lists self.now)
            (λ fault. table_fault (owned_lists self.now) ≡ Some fault) }
    {
        Tables::new(&self.indexes())
    }

    /// Checks the single-byte index, and returns its table or the first fault.
    ///
    /// The checks are those of `SingleByteTable::new`. The table borrows nothing, so it stays valid
    /// when the next file is read.
    pub fn single_byte_table(&self) -> Result<SingleByteTable, TableError>
        ensures { MatchResult result
            (λ table. table.entries ≡ self.now.single_byte)
            (λ fault. single_byte_fault self.now.single_byte ≡ Some fault) }
    {
        SingleByteTable::new(&self.single_byte)
    }
}
