use crate::tests::compared::{holds, is_error, prints};
use legacy_index_files::{FileIndex, FileTable, IndexFileError, read_index};
use std::alloc::{AllocError, Global};
use std::process::Abort;
use std::test::Fail;

const EUC_KR: FileIndex = FileIndex::EucKr;

/// Reads a file of an index.
// It has no clauses: the prover would search those of `read_index` at each statement after a call.
fn read(alloc: Global, index: FileIndex, text: &[u8]) -> Result<FileTable, IndexFileError> {
    read_index(alloc, index, text)
}

/// Checks whether a file of index EUC-KR gives these values.
fn gives(alloc: Global, text: &[u8], values: &[u16]) -> bool {
    match read(alloc, EUC_KR, text) {
        Ok(FileTable::Narrow(found)) => found.as_slice() == values,
        _ => false,
    }
}

/// Asserts the number of a file's first malformed line.
fn refuses(rt: &impl Abort, alloc: Global, name: FileIndex, text: &[u8], number: usize) {
    let answer = read(alloc, name, text);
    let wanted = IndexFileError::Line(number);
    is_error(rt, "a malformed line", answer.as_ref().err(), Some(&wanted));
}

/// The name of a case, a file of index EUC-KR, and its values.
type Entries<'a> = (&'a str, &'a [u8], &'a [u16]);

// Rows are constants, because those of an array in a test are compiled there one by one.
const ENTRIES: &[Entries] = &[
    ("comments, empty lines", b"# x\n\n1 0xAC02g\n", &[0, 0xAC02]),
    ("blanks", b" \t\n\r\n \t\r\n\t# 1 0x41\n##\n0 0x41", &[0x41]),
    (
        "the published form",
        b"# For details on index-jis0212.txt see the Encoding Standard\n\n    0\t0x4E02\t\xE4\xB8\x82 (<CJK Ideograph>)\n    1\t0x02D8\t\xCB\x98 (BREVE)\n",
        &[0x4E02, 0x02D8],
    ),
    ("carriage returns", b"0 0x41\r\n1 0x42\r\n", &[0x41, 0x42]),
    (
        "a last line without its end",
        b"# x\r\n\r\n0\t0x0041\tA\r\n2\t0x0043",
        &[0x41, 0, 0x43],
    ),
    (
        "digits of either case, up to six",
        b"000002\t \t0x00aBcD(name)\n1 0x000001",
        &[0, 1, 0xABCD],
    ),
    (
        "a pointer's later value",
        b"1 0x41\n0 0x42\n1 0x43\n",
        &[0x42, 0x43],
    ),
    ("a later value 0", b"1 0x41\n1 0x0\n", &[0, 0]),
];

#[test]
fn reads_entries(rt: HostRuntime) {
    for (what, text, values) in ENTRIES {
        holds(&rt, *what, gives(rt.alloc(), *text, *values));
    }
}

/// An index, a file of it, and the number of its first malformed line.
type Malformed<'a> = (FileIndex, &'a [u8], usize);

const MALFORMED: &[Malformed] = &[
    (EUC_KR, b"1 0x", 1),
    (EUC_KR, b"1 0x1234567", 1),
    (EUC_KR, b"23940 0xAC02", 1),
    (EUC_KR, b"1 0x10000", 1),
    (EUC_KR, b"1 0X41", 1),
    (EUC_KR, b"1 41", 1),
    (EUC_KR, b"10x41", 1),
    (EUC_KR, b"1 0 x41", 1),
    (EUC_KR, b"1 0xg", 1),
    (EUC_KR, b"0000001 0x41", 1),
    (EUC_KR, b"a 0x41", 1),
    (EUC_KR, b"-1 0x41", 1),
    (EUC_KR, b"1", 1),
    (EUC_KR, b"\r\r", 1),
    (EUC_KR, b"0 0x41\n\nx\n1 0x42\ny\n", 3),
    (EUC_KR, b"189000 0x10000", 1),
    (FileIndex::Big5, b"# x\r\n0 0x41\r\n1", 3),
    (FileIndex::Big5, b"0 0x110000", 1),
    (FileIndex::Ranges, b"0 0x0080\n189000 0x10001", 2),
    (FileIndex::Ranges, b"189001 0x10000", 1),
];

#[test]
fn answers_the_first_malformed_line(rt: HostRuntime) {
    for (name, text, number) in MALFORMED {
        refuses(&rt, rt.alloc(), *name, *text, *number);
    }
}

/// Checks whether a file of ranges gives these.
fn gives_ranges(alloc: Global, text: &[u8], ranges: &[(u16, u16)]) -> bool {
    match read(alloc, FileIndex::Ranges, text) {
        Ok(FileTable::Ranges(found)) => found.as_slice() == ranges,
        _ => false,
    }
}

/// The name of a case, a file of ranges, and its ranges.
type Ranges<'a> = (&'a str, &'a [u8], &'a [(u16, u16)]);

const RANGES: &[Ranges] = &[
    (
        "in their order",
        b"36 0xA5\n0 0x80\n36 0xA9\n65535 0xFFFF\n",
        &[(36, 0xA5), (0, 0x80), (36, 0xA9), (65535, 0xFFFF)],
    ),
    (
        "without that of the supplementary planes",
        b"0 0x0080\n189000 0x10000\n1 0x0081\n",
        &[(0, 0x80), (1, 0x81)],
    ),
];

#[test]
fn reads_ranges(rt: HostRuntime) {
    for (what, text, ranges) in RANGES {
        holds(&rt, *what, gives_ranges(rt.alloc(), *text, *ranges));
    }
}

/// Checks whether a file of index Big5 gives these values.
fn gives_wide(alloc: Global, text: &[u8], values: &[u32]) -> bool {
    match read(alloc, FileIndex::Big5, text) {
        Ok(FileTable::Wide(found)) => found.as_slice() == values,
        _ => false,
    }
}

#[test]
fn reads_wide_values_of_big5_alone(rt: HostRuntime) {
    let is_so = gives_wide(rt.alloc(), b"0 0x43F0\n1 0x10FFFF", &[0x43F0, 0x10FFFF]);
    holds(&rt, "wide values", is_so);
}

/// Checks whether a file of a single-byte index gives a first value, a last one, and no other.
fn gives_ends(alloc: Global, text: &[u8], (first, last): (u16, u16)) -> bool {
    match read(alloc, FileIndex::SingleByte, text) {
        Ok(FileTable::Bytes(found)) => {
            let others_are_none = found[1..127].iter().all(|value| *value == 0);
            found[0] == first && found[127] == last && others_are_none
        }
        _ => false,
    }
}

#[test]
fn reads_a_single_byte_index(rt: HostRuntime) {
    let two = b"  0\t0x20AC\n127\t0x02D9\n";
    holds(
        &rt,
        "two entries",
        gives_ends(rt.alloc(), two, (0x20AC, 0x02D9)),
    );
    holds(&rt, "no entry", gives_ends(rt.alloc(), b"", (0, 0)));
}

/// An index, a line with its last pointer, and a line with the pointer after it.
type Ends<'a> = (FileIndex, &'a [u8], &'a [u8]);

const ENDS: &[Ends] = &[
    (FileIndex::Big5, b"19781 0x1", b"19782 0x1"),
    (FileIndex::EucKr, b"23939 0x1", b"23940 0x1"),
    (FileIndex::Jis0208, b"11279 0x1", b"11280 0x1"),
    (FileIndex::Jis0212, b"8835 0x1", b"8836 0x1"),
    (FileIndex::Gb18030, b"23939 0x1", b"23940 0x1"),
    (FileIndex::Ranges, b"65535 0x1", b"65536 0x1"),
    (FileIndex::SingleByte, b"127 0x1", b"128 0x1"),
];

#[test]
fn reads_pointers_below_the_greatest_length(rt: HostRuntime) {
    for (name, last, past) in ENDS {
        let is_read = read(rt.alloc(), *name, *last).is_ok();
        holds(&rt, "the last pointer", is_read);
        refuses(&rt, rt.alloc(), *name, *past, 1);
    }
}

/// Returns a file with an entry for each pointer below 23940, and its values.
///
/// Each value is its pointer plus seven.
fn each_pointer(alloc: Global) -> Result<(String, Vec<u16>), AllocError> {
    let mut text = String::new(alloc);
    let mut values = Vec::new(alloc);
    for pointer in 0..23940u16 {
        let line = format!(in alloc; "{pointer:5}\t0x{:04X}\tname\n", pointer + 7)?;
        text.push_str(&line)?;
        values.push(pointer + 7)?;
    }
    Ok((text, values))
}

#[test]
fn reads_an_index_of_each_pointer(rt: HostRuntime) -> Result<(), Fail> {
    let (text, values) = each_pointer(rt.alloc())?;
    let is_so = gives(rt.alloc(), text.as_bytes(), &values);
    holds(&rt, "an entry a pointer", is_so);
    Ok(())
}

#[test]
fn shows_its_faults(rt: HostRuntime) {
    prints(&rt, &IndexFileError::Line(3), "line 3");
    prints(&rt, &IndexFileError::Memory, "memory");
}

const NINE: &[u8] = b"0 0x1\n1 0x2\n2 0x3\n3 0x4\n4 0x5\n5 0x6\n6 0x7\n7 0x8\n8 0x9";

/// Checks whether a table has nine entries, from 1 to 9, or nine ranges.
fn has_nine(table: &FileTable) -> bool {
    match table {
        FileTable::Wide(values) => values.as_slice() == [1, 2, 3, 4, 5, 6, 7, 8, 9].as_slice(),
        FileTable::Narrow(values) => values.as_slice() == [1, 2, 3, 4, 5, 6, 7, 8, 9].as_slice(),
        FileTable::Ranges(ranges) => ranges.len() == 9,
        FileTable::Bytes(_) => false,
    }
}

// If one allocation is refused in a run, the call that asked for it returns `Memory`. Every other call returns its
// table.
#[test]
fn answers_memory_only_where_a_growth_is_refused(rt: HostRuntime) {
    let mut refused = false;
    for name in [FileIndex::Big5, FileIndex::Jis0208, FileIndex::Ranges] {
        match read(rt.alloc(), name, NINE) {
            Ok(table) => holds(&rt, "nine entries", has_nine(&table)),
            Err(fault) => {
                is_error(
                    &rt,
                    "nine entries",
                    Some(&fault),
                    Some(&IndexFileError::Memory),
                );
                holds(&rt, "one refusal", !refused);
                refused = true;
            }
        }
        refuses(&rt, rt.alloc(), name, b"0 0x1\nx", 2);
    }
}
