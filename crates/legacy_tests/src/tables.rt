//! The checks of the tables, the texts of their faults, and single-byte tables.
use crate::compared::{is_fault, is_pointer, is_scalar, prints};
use crate::indexes::{Filled, Flat, byte_table_of, entries_of, flat};
use crate::single_byte::encoder::TWO_LETTERS;
use legacy_base::IndexName::{Big5, EucKr, Gb18030, Jis0208, Jis0212, Katakana};
use legacy_base::TableError::{
    BadByteEntry, BadEntry, KatakanaLength, NotEmpty, PackedDiffers, PackedOrder, PuaBytes,
    PuaOrder, PuaScalar, RangeOrder, RangeValue, Repeated, TooLong,
};
use legacy_base::{IndexName, PackedPart, SingleByteTable, TableError, Tables};
use std::process::Abort;

/// Indexes, and their fault.
type Faulty<'a> = (Flat<'a>, Option<TableError>);

/// Compares the fault of the indexes of each row with the wanted one.
fn have_faults(rt: &impl Abort, case: &str, rows: &[Faulty]) {
    for (at, (flat, wanted)) in rows.iter().enumerate() {
        let filled = Filled::of(flat);
        let came = Tables::new(&filled.indexes(flat)).err();
        is_fault(rt, (case, at), &came, wanted);
    }
}

const ENTRIES_OF_BIG5: &[Faulty] = &[
    (flat!(big5: (0, &[])), None),
    // The length is checked before the entries.
    (flat!(big5: (19783, &[(0, 0x7F)])), Some(TooLong(Big5))),
    (flat!(big5: (19782, &[(0, 0x80)])), None),
    // Only scalars of two planes are accepted.
    (flat!(big5: (6, &[(5, 0x1_0000)])), Some(BadEntry(Big5, 5))),
    (flat!(big5: (6, &[(5, 0x3_0000)])), Some(BadEntry(Big5, 5))),
    (flat!(big5: (6, &[(5, 0x2_FFFF)])), None),
    // A bad entry is reported before one that must be empty.
    (
        flat!(big5: (1134, &[(1133, 0x7F)])),
        Some(BadEntry(Big5, 1133)),
    ),
    (
        flat!(big5: (1134, &[(1133, 0x3000)])),
        Some(NotEmpty(Big5, 1133)),
    ),
];

const ENTRIES_OF_OTHERS: &[Faulty] = &[
    // Each index has a greatest length.
    (flat!(euc_kr: (23941, &[])), Some(TooLong(EucKr))),
    (flat!(euc_kr: (23940, &[])), None),
    (flat!(jis0208: (11281, &[])), Some(TooLong(Jis0208))),
    (flat!(jis0208: (11280, &[])), None),
    (flat!(jis0212: (8837, &[])), Some(TooLong(Jis0212))),
    (flat!(jis0212: (8836, &[])), None),
    (flat!(gb18030: (23941, &[])), Some(TooLong(Gb18030))),
    (flat!(gb18030: (23940, &[])), None),
    // No entry is a surrogate.
    (flat!(euc_kr: (3, &[(2, 0xD800)])), Some(BadEntry(EucKr, 2))),
    // Index jis0208 has no entry for user-defined characters.
    (
        flat!(jis0208: (8837, &[(8836, 0x3000)])),
        Some(NotEmpty(Jis0208, 8836)),
    ),
    // Katakana has all its entries or none.
    (flat!(katakana: (62, &[])), Some(KatakanaLength)),
    (flat!(katakana: (63, &[])), None),
];

/// Ranges alone.
const RANGES: &[Faulty] = &[
    (flat!(ranges: &[(0, 0x80), (36, 0xA3)]), Some(RangeOrder(1))),
    (flat!(ranges: &[(39420, 0x80)]), Some(RangeOrder(0))),
    (flat!(ranges: &[(0, 0x7F), (0, 0x100)]), Some(RangeOrder(1))),
    (flat!(ranges: &[(0, 0x7F)]), Some(RangeValue(0))),
    (flat!(ranges: &[(39394, 0xFFE7)]), Some(RangeValue(0))),
    (flat!(ranges: &[(39000, 0xD7FF)]), Some(RangeValue(0))),
    (flat!(ranges: &[(39419, 0xFFFF)]), None),
];

/// Private-use rows alone.
const PRIVATE_USE: &[Faulty] = &[
    (
        flat!(gb18030_pua: &[(0xE78E, 0xA6, 0xDA), (0xE78D, 0xA6, 0xD9)]),
        Some(PuaOrder(1)),
    ),
    (
        flat!(gb18030_pua: &[(0xE5E5, 0xA6, 0xD9)]),
        Some(PuaScalar(0)),
    ),
    (
        flat!(gb18030_pua: &[(0xE000, 0xA6, 0x7F)]),
        Some(PuaBytes(0)),
    ),
    // At one place the order is checked first, then the scalar.
    (
        flat!(gb18030_pua: &[(0xE000, 0xA6, 0xD9), (0xDFFF, 0xA6, 0x7F)]),
        Some(PuaOrder(1)),
    ),
    (
        flat!(gb18030_pua: &[(0xDFFF, 0xA6, 0x7F)]),
        Some(PuaScalar(0)),
    ),
    (
        flat!(gb18030_pua: &[(0xE000, 0x81, 0x40), (0xF8FF, 0xFE, 0xFE)]),
        None,
    ),
];

#[test]
fn entries_ranges_and_private_use_rows_are_checked(rt: HostRuntime) {
    have_faults(&rt, "entries of Big5", ENTRIES_OF_BIG5);
    have_faults(&rt, "entries of the other indexes", ENTRIES_OF_OTHERS);
    have_faults(&rt, "ranges", RANGES);
    have_faults(&rt, "private-use rows", PRIVATE_USE);
}

const WORDS: &[(TableError, &str)] = &[
    (TooLong(Big5), "index big5 is too long"),
    (BadEntry(EucKr, 5), "index euc-kr has a bad entry at 5"),
    (
        NotEmpty(Jis0208, 1133),
        "index jis0208 must be empty at 1133",
    ),
    (TooLong(Jis0212), "index jis0212 is too long"),
    (TooLong(Gb18030), "index gb18030 is too long"),
    (TooLong(Katakana), "index katakana is too long"),
    (TooLong(IndexName::Ranges), "index ranges is too long"),
    (KatakanaLength, "index katakana must have 0 or 63 entries"),
    (RangeOrder(1), "ranges are out of order at 1"),
    (RangeValue(0), "range 0 has a bad scalar"),
    (PuaOrder(1), "private-use row 1 is out of order"),
    (PuaScalar(0), "private-use row 0 has a bad scalar"),
    (PuaBytes(0), "private-use row 0 has bad bytes"),
    (BadByteEntry(3), "single-byte entry 3 is bad"),
    (Repeated(4), "single-byte entry 4 is repeated"),
    (
        PackedOrder(PackedPart::Big5, 5),
        "packed big5 is out of order at 5",
    ),
    (
        PackedDiffers(PackedPart::Big5, 5),
        "packed big5 differs at 5",
    ),
    (
        PackedOrder(PackedPart::EucKr, 5),
        "packed euc-kr is out of order at 5",
    ),
    (
        PackedDiffers(PackedPart::EucKr, 5),
        "packed euc-kr differs at 5",
    ),
    (
        PackedOrder(PackedPart::Jis0208, 5),
        "packed jis0208 is out of order at 5",
    ),
    (
        PackedDiffers(PackedPart::Jis0208, 5),
        "packed jis0208 differs at 5",
    ),
    (
        PackedOrder(PackedPart::Jis0212, 5),
        "packed jis0212 is out of order at 5",
    ),
    (
        PackedDiffers(PackedPart::Jis0212, 5),
        "packed jis0212 differs at 5",
    ),
    (
        PackedOrder(PackedPart::Gb18030, 5),
        "packed gb18030 is out of order at 5",
    ),
    (
        PackedDiffers(PackedPart::Gb18030, 5),
        "packed gb18030 differs at 5",
    ),
    (
        PackedOrder(PackedPart::Big5Order, 5),
        "packed big5-order is out of order at 5",
    ),
    (
        PackedDiffers(PackedPart::Big5Order, 5),
        "packed big5-order differs at 5",
    ),
    (
        PackedOrder(PackedPart::EucKrOrder, 5),
        "packed euc-kr-order is out of order at 5",
    ),
    (
        PackedDiffers(PackedPart::EucKrOrder, 5),
        "packed euc-kr-order differs at 5",
    ),
    (
        PackedOrder(PackedPart::ShiftJisOrder, 5),
        "packed shift-jis-order is out of order at 5",
    ),
    (
        PackedDiffers(PackedPart::ShiftJisOrder, 5),
        "packed shift-jis-order differs at 5",
    ),
    (
        PackedOrder(PackedPart::EucJpOrder, 5),
        "packed euc-jp-order is out of order at 5",
    ),
    (
        PackedDiffers(PackedPart::EucJpOrder, 5),
        "packed euc-jp-order differs at 5",
    ),
    (
        PackedOrder(PackedPart::Gb18030Order, 5),
        "packed gb18030-order is out of order at 5",
    ),
    (
        PackedDiffers(PackedPart::Gb18030Order, 5),
        "packed gb18030-order differs at 5",
    ),
];

#[test]
fn the_words_of_faults_indexes_and_parts(rt: HostRuntime) {
    for (at, (fault, wanted)) in WORDS.iter().enumerate() {
        prints(&rt, ("words", at), fault, wanted);
    }
}

/// Entries of a single-byte table by their places, and the fault of the table.
const ENTRIES_OF_BYTES: &[(&[(usize, u16)], Option<TableError>)] = &[
    (&[], None),
    (&[(3, 0x7F)], Some(BadByteEntry(3))),
    (&[(4, 0x391), (9, 0x391), (10, 0xFFFD)], Some(Repeated(9))),
];

#[test]
fn a_single_byte_table_is_checked_from_its_first_place(rt: HostRuntime) {
    for (at, (some, wanted)) in ENTRIES_OF_BYTES.iter().enumerate() {
        let came = SingleByteTable::new(&entries_of(some)).err();
        is_fault(&rt, ("entries of bytes", at), &came, wanted);
    }
}

/// The entries of a single-byte table, a place and its scalar, and a scalar and its place.
type Belonging<'a> = (&'a [(usize, u16)], usize, Option<char>, char, Option<usize>);

const BELONGING: &[Belonging] = &[
    (TWO_LETTERS, 65, Some('\u{391}'), '\u{3C4}', Some(116)),
    (TWO_LETTERS, 66, None, '\u{1F4A9}', None),
    (TWO_LETTERS, 128, None, '\0', None),
    (&[], 0, None, '\0', None),
];

#[test]
fn a_scalar_and_its_place_belong_together(rt: HostRuntime) {
    for (at, (some, place, its_scalar, scalar, its_place)) in BELONGING.iter().enumerate() {
        let table = byte_table_of(&rt, &entries_of(some));
        is_scalar(&rt, ("places", at), table.scalar(*place), *its_scalar);
        is_pointer(&rt, ("places", at), table.place(*scalar), *its_place);
    }
}
