//! An owning set of indexes, from the text of a file to the scalars of tables.
use crate::tests::compared::{holds, is_error, is_scalar};
use legacy_index_files::{FileIndex, IndexFileError, OwnedIndexes};
use legacy_tables::{IndexName, SingleByteTable, TableError, Tables};
use std::alloc::Global;
use std::process::Abort;

// The functions up to the first test have no clauses: the prover would search the clauses of their calls at each later
// statement.

/// Reads a file into a set.
fn read(
    owned: &mut OwnedIndexes,
    alloc: Global,
    index: FileIndex,
    text: &[u8],
) -> Result<(), IndexFileError> {
    owned.read(alloc, index, text)
}

/// Returns the tables of a set.
fn tables_of(owned: &OwnedIndexes) -> Result<Tables<'_>, TableError> {
    owned.tables()
}

/// Returns the single-byte table of a set.
fn single_byte_table_of(owned: &OwnedIndexes) -> Result<SingleByteTable, TableError> {
    owned.single_byte_table()
}

/// Returns the scalar of a pointer.
fn scalar_of(tables: &Tables, index: IndexName, pointer: usize) -> Option<char> {
    tables.idx(index, pointer)
}

/// Asserts that tables are those of the files below.
fn have_what_files_say(rt: &impl Abort, tables: &Tables) {
    let scalar = scalar_of(tables, IndexName::EucKr, 1);
    is_scalar(rt, "EUC-KR", scalar, Some('\u{AC03}'));
    is_scalar(
        rt,
        "jis0208",
        scalar_of(tables, IndexName::Jis0208, 0),
        None,
    );
    is_scalar(rt, "ranges", tables.range(37), Some('\u{A6}'));
    let bytes = tables.gb18030_pua_bytes('\u{E78D}');
    holds(rt, "a private-use row", bytes == Some((0xA6, 0xD9)));
}

/// A file of an index, and the first malformed line, if it has one.
type File = (FileIndex, &'static [u8], Option<IndexFileError>);

const FILES: &[File] = &[
    (FileIndex::EucKr, b"0 0xAC02\n1 0xAC03\n", None),
    (FileIndex::Ranges, b"0 0x0080\n36 0x00A5\n", None),
    (
        FileIndex::EucKr,
        b"0 0xAC05\n0xAC06\n",
        Some(IndexFileError::Line(2)),
    ),
];

#[test]
fn tables_are_borrowed_of_what_files_say(rt: HostRuntime) {
    let mut owned = OwnedIndexes::new(rt.alloc());
    for (index, text, refusal) in FILES {
        let answer = read(&mut owned, rt.alloc(), *index, *text);
        is_error(&rt, "a file", answer.as_ref().err(), refusal.as_ref());
    }
    match tables_of(&owned) {
        Ok(tables) => have_what_files_say(&rt, &tables),
        Err(_) => holds(&rt, "tables", false),
    }
}

/// Reads a file of index ISO-2022-JP katakana into a set.
fn read_katakana(
    owned: &mut OwnedIndexes,
    alloc: Global,
    text: &[u8],
) -> Result<(), IndexFileError> {
    owned.read_katakana(alloc, text)
}

/// A file of index ISO-2022-JP katakana, and its error.
type Katakana<'a> = (&'a [u8], Option<IndexFileError>);

const KATAKANA: &[Katakana] = &[
    (b"62 0xFFFF\n", None),
    (b"0 0x3002\n63 0x309C\n", Some(IndexFileError::Line(2))),
    (b"0 0x10000\n", Some(IndexFileError::Line(1))),
    (b"", None),
];

#[test]
fn katakana_are_63_or_none(rt: HostRuntime) {
    let mut owned = OwnedIndexes::new(rt.alloc());
    for (text, refusal) in KATAKANA {
        let answer = read_katakana(&mut owned, rt.alloc(), *text);
        is_error(&rt, "katakana", answer.as_ref().err(), refusal.as_ref());
        holds(&rt, "tables of them", tables_of(&owned).is_ok());
    }
}

/// Asserts that a set has the euro sign at pointer 0 of a single-byte index, as in windows-1252.
fn has_the_euro_sign(rt: &impl Abort, owned: &OwnedIndexes) {
    match single_byte_table_of(owned) {
        Ok(table) => is_scalar(rt, "a single-byte index", table.scalar(0), Some('\u{20AC}')),
        Err(_) => holds(rt, "a single-byte table", false),
    }
}

#[test]
fn the_first_fault_of_a_set_is_told(rt: HostRuntime) {
    let mut owned = OwnedIndexes::new(rt.alloc());
    let answer = read(&mut owned, rt.alloc(), FileIndex::SingleByte, b"0 0x20AC\n");
    is_error(&rt, "a file", answer.as_ref().err(), None);
    has_the_euro_sign(&rt, &owned);
    // The ideographic full stop is at pointer 0 of index ISO-2022-JP katakana, which has 63 pointers.
    let answer = read_katakana(&mut owned, rt.alloc(), b"0 0x3002\n");
    is_error(&rt, "a katakana", answer.as_ref().err(), None);
    let fault = tables_of(&owned).err();
    is_error(
        &rt,
        "katakana",
        fault.as_ref(),
        Some(&TableError::KatakanaLength),
    );
}
