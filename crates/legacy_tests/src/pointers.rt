//! Look-ups of the scalars of pointers, and of the pointers and bytes that encoders use.
use self::Row::{Pointer, PrivateUse, Range, Scalar};
use crate::compared::{is_answer, is_pointer, is_scalar};
use crate::gb18030::encoder::{LAST_RANGE, RANGE_FROM_7457};
use crate::indexes::{EMPTY, Filled, Flat, flat, packed_of, packed_tables_of, tables_of};
use legacy_base::IndexName::{Big5, EucKr, Gb18030, Jis0208, Jis0212, Katakana};
use legacy_base::{IndexName, Tables};
use std::process::Abort;

/// A look-up of a pointer.
#[derive(Clone, Copy)]
enum LookUp {
    Big5,
    EucKr,
    ShiftJis,
    EucJp,
    Gb18030,
    Ranges,
}

/// Returns the pointer that the tables have for the scalar.
fn pointer_of(tables: &Tables, look_up: LookUp, scalar: char) -> Option<usize> {
    match look_up {
        LookUp::Big5 => tables.big5_pointer(scalar),
        LookUp::EucKr => tables.euc_kr_pointer(scalar),
        LookUp::ShiftJis => tables.shift_jis_pointer(scalar),
        LookUp::EucJp => tables.euc_jp_pointer(scalar),
        LookUp::Gb18030 => tables.gb18030_pointer(scalar),
        LookUp::Ranges => tables.range_pointer(scalar),
    }
}

/// A look-up, and its wanted result.
#[derive(Drop)]
enum Row {
    /// An index, a pointer, and its scalar.
    Scalar(IndexName, usize, Option<char>),
    /// A pointer of four bytes, and its scalar.
    Range(usize, Option<char>),
    /// A scalar, and its pointer.
    Pointer(LookUp, char, Option<usize>),
    /// A scalar of the private-use rows of GB18030, and its bytes.
    PrivateUse(char, Option<(u8, u8)>),
}

/// The name of a case, its indexes, and look-ups in their tables.
type Case<'a> = (&'a str, &'a Flat<'a>, &'a [Row]);

/// Compares the results of look-ups in these tables with the wanted ones.
fn answer(rt: &impl Abort, tables: &Tables, case: &str, rows: &[Row]) {
    for (at, row) in rows.iter().enumerate() {
        match row {
            Scalar(name, pointer, wanted) => {
                is_scalar(rt, (case, at), tables.idx(*name, *pointer), *wanted);
            }
            Range(pointer, wanted) => {
                is_scalar(rt, (case, at), tables.range(*pointer), *wanted);
            }
            Pointer(look_up, scalar, wanted) => {
                let came = pointer_of(tables, *look_up, *scalar);
                is_pointer(rt, (case, at), came, *wanted);
            }
            PrivateUse(scalar, wanted) => {
                let came = tables.gb18030_pua_bytes(*scalar);
                is_answer(rt, (case, at), "the bytes", came, *wanted);
            }
        }
    }
}

/// Looks up in flat tables of the indexes, and in packed ones.
fn answer_in_both(rt: &(impl AllocGlobal + Abort), (case, flat, rows): Case) {
    let filled = Filled::of(flat);
    let indexes = filled.indexes(flat);
    answer(rt, &tables_of(rt, &indexes), case, rows);
    let packed = packed_of(rt, &indexes);
    let tables = packed_tables_of(rt, &indexes, &packed.packed());
    answer(rt, &tables, case, rows);
}

/// Looks up in the tables of each case.
fn answer_in_each(rt: &(impl AllocGlobal + Abort), cases: &[Case]) {
    for case in cases {
        answer_in_both(rt, *case);
    }
}

const ENTRIES: Case = (
    "entries",
    &flat!(big5: (1, &[(0, 0x2_008A)]), euc_kr: (2, &[(0, 0xAC02)]), jis0208: (1, &[(0, 0x3000)]), jis0212: (1, &[(0, 0x4E02)]), gb18030: (2, &[(0, 0x4E02), (1, 0x4E04)]), gb18030_pua: &[]),
    &[
        Scalar(Big5, 0, Some('\u{2008A}')),
        Scalar(EucKr, 0, Some('\u{AC02}')),
        // An entry 0.
        Scalar(EucKr, 1, None),
        // Past the end.
        Scalar(EucKr, 2, None),
        Scalar(Jis0208, 0, Some('\u{3000}')),
        Scalar(Jis0212, 0, Some('\u{4E02}')),
        Scalar(Gb18030, 1, Some('\u{4E04}')),
        Scalar(Katakana, 0, None),
        Scalar(IndexName::Ranges, 0, None),
    ],
);

const RUNS: Case = (
    "runs",
    &flat!(big5: (1, &[(0, 0x2_008A)]), euc_kr: (66, &[(63, 0xAC02), (64, 0xAC03)]), jis0208: (1, &[(0, 0x3000)]), jis0212: (1, &[(0, 0x4E02)]), gb18030: (2, &[(0, 0x4E02), (1, 0x4E04)])),
    &[
        Scalar(Big5, 0, Some('\u{2008A}')),
        Scalar(EucKr, 63, Some('\u{AC02}')),
        Scalar(EucKr, 64, Some('\u{AC03}')),
        // After a run, and past the end.
        Scalar(EucKr, 65, None),
        Scalar(EucKr, 23940, None),
        Scalar(EucKr, 65535, None),
        Scalar(EucKr, usize::MAX, None),
        // Before all runs.
        Scalar(EucKr, 62, None),
        Scalar(Jis0208, 0, Some('\u{3000}')),
        Scalar(Jis0212, 0, Some('\u{4E02}')),
        Scalar(Gb18030, 1, Some('\u{4E04}')),
        Scalar(Gb18030, 2, None),
        Scalar(Katakana, 0, None),
        Scalar(IndexName::Ranges, 0, None),
    ],
);

const THREE_RANGES: Case = (
    "three ranges",
    &flat!(ranges: &[(0, 0x80), (36, 0xA5), (38, 0xA9)]),
    &[
        Range(0, Some('\u{80}')),
        Range(35, Some('\u{A3}')),
        Range(36, Some('\u{A5}')),
        Range(37, Some('\u{A6}')),
        Range(38, Some('\u{A9}')),
        Range(7457, Some('\u{E7C7}')),
        Range(39420, None),
        Range(188999, None),
        Range(189000, Some('\u{10000}')),
        Range(1237575, Some('\u{10FFFF}')),
        Range(1237576, None),
    ],
);

const FIRST_POINTERS: Case = (
    "first pointers",
    &flat!(euc_kr: (23940, &[(23939, 0x8A70)]), gb18030: (3, &[(1, 0x4E02), (2, 0x4E02)])),
    &[
        Pointer(LookUp::EucKr, '\u{8A70}', Some(23939)),
        // An entry 0 is no scalar.
        Pointer(LookUp::EucKr, '\0', None),
        Pointer(LookUp::EucKr, '\u{AC02}', None),
        // Narrow indexes have no scalar of another plane.
        Pointer(LookUp::EucKr, '\u{18A70}', None),
        Pointer(LookUp::Gb18030, '\u{4E02}', Some(1)),
    ],
);

const BIG5: Case = (
    "Big5",
    &flat!(big5: (18992, &[(5023, 0x3001), (5024, 0x3000), (5247, 0x2550), (18991, 0x2550)])),
    &[
        // The last of two pointers.
        Pointer(LookUp::Big5, '\u{2550}', Some(18991)),
        // Only pointers from 5024 on.
        Pointer(LookUp::Big5, '\u{3000}', Some(5024)),
        Pointer(LookUp::Big5, '\u{3001}', None),
    ],
);

const TWICE_IN_BIG5: Case = (
    "twice in Big5",
    &flat!(big5: (18992, &[(5247, 0x2550), (18991, 0x2550)])),
    &[Pointer(LookUp::Big5, '\u{2550}', Some(18991))],
);

/// U+FF02 at a pointer that NEC's selection repeats, and at the one that Shift_JIS's encoder uses.
const TWICE_IN_JIS0208: Case = (
    "twice in jis0208",
    &flat!(jis0208: (10740, &[(8647, 0xFF02), (10739, 0xFF02)])),
    &[
        Pointer(LookUp::ShiftJis, '\u{FF02}', Some(10739)),
        Pointer(LookUp::EucJp, '\u{FF02}', Some(8647)),
        Pointer(LookUp::ShiftJis, '\u{FF03}', None),
    ],
);

/// U+FF02 at the first of these pointers alone, which is the index's last.
const ONCE_IN_JIS0208: Case = (
    "once in jis0208",
    &flat!(jis0208: (8648, &[(8647, 0xFF02)])),
    &[Pointer(LookUp::ShiftJis, '\u{FF02}', None)],
);

const BY_THE_LAST_RANGE: Case = (
    "the last range",
    LAST_RANGE,
    &[
        // A pointer before all ranges has no scalar.
        Range(39393, None),
        Range(39417, Some('\u{FFFD}')),
        Pointer(LookUp::Ranges, '\u{FFFD}', Some(39417)),
        Pointer(LookUp::Ranges, '\u{E7C7}', Some(7457)),
        Pointer(LookUp::Ranges, '\u{10FFFF}', Some(1237575)),
    ],
);

const AROUND_7457: Case = (
    "around 7457",
    RANGE_FROM_7457,
    &[
        // Pointer 7457 belongs to U+E7C7, whatever the range says.
        Pointer(LookUp::Ranges, '\u{3000}', None),
        Pointer(LookUp::Ranges, '\u{3001}', Some(7458)),
        Pointer(LookUp::Ranges, '\u{E7C7}', Some(7457)),
    ],
);

/// Ranges from pointer 0 and U+0080, and from pointer 200 and U+3000.
const BY_PAGES: Case = (
    "pages of 256 scalars",
    &flat!(ranges: &[(0, 0x80), (200, 0x3000)]),
    &[
        // The first range ends inside a page.
        Pointer(LookUp::Ranges, '\u{100}', Some(128)),
        Pointer(LookUp::Ranges, '\u{147}', Some(199)),
        Pointer(LookUp::Ranges, '\u{148}', None),
        // Pages that a range fills.
        Pointer(LookUp::Ranges, '\u{3000}', Some(200)),
        Pointer(LookUp::Ranges, '\u{30FF}', Some(455)),
        Pointer(LookUp::Ranges, '\u{31FF}', Some(711)),
        // A page in which pointer 7457 belongs to U+E7C7.
        Pointer(LookUp::Ranges, '\u{4C58}', Some(7456)),
        Pointer(LookUp::Ranges, '\u{4C59}', None),
        Pointer(LookUp::Ranges, '\u{4C5A}', Some(7458)),
    ],
);

const AROUND_E7C7: Case = (
    "around U+E7C7",
    &flat!(ranges: &[(31228, 0xE000)]),
    &[
        Pointer(LookUp::Ranges, '\u{E6FF}', Some(33019)),
        Pointer(LookUp::Ranges, '\u{E7C6}', Some(33218)),
        Pointer(LookUp::Ranges, '\u{E7C7}', Some(7457)),
        Pointer(LookUp::Ranges, '\u{E7C8}', Some(33220)),
        Pointer(LookUp::Ranges, '\u{E800}', Some(33276)),
        Pointer(LookUp::Ranges, '\u{FFFF}', Some(39419)),
    ],
);

#[test]
fn a_pointer_has_the_scalar_of_its_index_or_range(rt: HostRuntime) {
    answer_in_each(&rt, &[ENTRIES, RUNS, THREE_RANGES]);
}

#[test]
fn the_first_pointer_is_taken_but_of_six_scalars_the_last(rt: HostRuntime) {
    answer_in_each(&rt, &[FIRST_POINTERS, BIG5, TWICE_IN_BIG5]);
}

#[test]
fn shift_jis_takes_no_pointer_that_nec_repeats(rt: HostRuntime) {
    answer_in_each(&rt, &[TWICE_IN_JIS0208, ONCE_IN_JIS0208]);
}

#[test]
fn four_bytes_go_by_the_ranges(rt: HostRuntime) {
    answer_in_each(&rt, &[BY_THE_LAST_RANGE, AROUND_7457]);
    answer_in_each(&rt, &[BY_PAGES, AROUND_E7C7]);
}

const PRIVATE_USE: Case = (
    "private use",
    EMPTY,
    &[
        PrivateUse('\u{E843}', Some((0xFE, 0x7E))),
        PrivateUse('\u{E844}', None),
    ],
);

#[test]
fn a_private_use_row_gives_its_bytes(rt: HostRuntime) {
    answer_in_both(&rt, PRIVATE_USE);
}
