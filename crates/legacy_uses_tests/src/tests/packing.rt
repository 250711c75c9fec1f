use crate::tests::compared::{are_pointers, holds, is_error, is_scalar};
use legacy_index_files::{FileIndex, OwnedIndexes, OwnedPacked, PackedIndexes, pack};
use legacy_tables::TableError::{BadEntry, TooLong};
use legacy_tables::{DecoderTables, IndexName, Indexes, Packed, Run, TableError, Tables};
use std::process::Abort;
use std::test::Fail;

/// Returns indexes without an entry.
pub(crate) fn no_entries<'a>() -> Indexes<'a> {
    Indexes {
        big5: &[],
        euc_kr: &[],
        jis0208: &[],
        jis0212: &[],
        gb18030: &[],
        katakana: &[],
        ranges: &[],
        gb18030_pua: &[],
    }
}

/// Returns indexes with these entries of index jis0208 alone.
fn only_jis0208<'a>(jis0208: &'a [u16]) -> Indexes<'a> {
    Indexes {
        jis0208,
        ..no_entries()
    }
}

// The next two functions have no clauses: the prover would search the clauses of their calls at each later statement.

/// Returns the first fault of indexes with these packed parts.
fn fault_with<'a>(indexes: &Indexes<'a>, packed: &Packed<'a>) -> Option<TableError> {
    Tables::packed_of(indexes, packed).err()
}

/// Packs indexes.
fn packed_of(rt: &(impl AllocGlobal + Abort), indexes: &Indexes) -> OwnedPacked {
    pack(rt.alloc(), indexes).expect(rt, "no memory")
}

/// Asserts that packed indexes have this fault of their indexes, or none: none is of the packed parts.
fn has_no_own_fault<'a>(
    rt: &impl Abort,
    indexes: &Indexes<'a>,
    packed: &Packed<'a>,
    wanted: Option<&TableError>,
) {
    let came = fault_with(indexes, packed);
    is_error(rt, "packed", came.as_ref(), wanted);
}

/// Puts each entry at its pointer.
fn fill<T: Copy>(index: &mut [T], entries: &[(usize, T)]) {
    for (pointer, entry) in entries {
        if *pointer < index.len() {
            index[*pointer] = *entry;
        }
    }
}

/// Entries of index EUC-KR, their runs, and the pointers by scalar values.
type Row<'a> = (&'a [u16], &'a [(u16, u32, u16)], &'a [u16]);

const ROWS: &[Row] = &[
    (&[], &[], &[]),
    (&[0, 0], &[], &[]),
    (
        &[0xAC02, 0xAC03, 0, 0xAC05],
        &[(0, 0xAC02, 2), (3, 0xAC05, 1)],
        &[0, 1, 3],
    ),
    // No pointer is after the last one that has a scalar.
    (&[0, 0xAC02, 0], &[(1, 0xAC02, 1)], &[1]),
    // Scalars that fall, and one that occurs twice.
    (
        &[0xAC05, 0xAC04, 0xAC05],
        &[(0, 0xAC05, 1), (1, 0xAC04, 2)],
        &[1, 0],
    ),
    // One scalar several times.
    (
        &[0xAC02, 0xAC02, 0xAC02],
        &[(0, 0xAC02, 1), (1, 0xAC02, 1), (2, 0xAC02, 1)],
        &[0],
    ),
    // No run continues over the surrogates, or past U+FFFF.
    (
        &[0xFFFF, 0xD7FF, 0xE000, 0xE001],
        &[(0, 0xFFFF, 1), (1, 0xD7FF, 1), (2, 0xE000, 2)],
        &[1, 2, 3, 0],
    ),
];

/// Checks whether these runs were made.
fn are_runs(came: &[Run], wanted: &[(u16, u32, u16)]) -> bool {
    if came.len() != wanted.len() {
        return false;
    }
    for (run, wanted) in came.iter().zip(wanted) {
        if (run.pointer, run.scalar, run.length) != *wanted {
            return false;
        }
    }
    true
}

/// Returns the entries up to the last run: packed, an index ends with its last scalar.
fn packed_entries<'a>(entries: &'a [u16], runs: &[(u16, u32, u16)]) -> &'a [u16] {
    let end = match runs.last() {
        Some((pointer, _, length)) => usize::from(*pointer) + usize::from(*length),
        None => 0,
    };
    entries.get(..end).unwrap_or(&[])
}

/// Asserts that packed tables write these entries of index EUC-KR into room, and refuse less room.
fn unpacks<'a>(rt: &impl Abort, indexes: &Indexes<'a>, packed: &Packed<'a>, entries: &[u16]) {
    let tables = Tables::packed_of(indexes, packed).expect(rt, "refused");
    let mut room = [0xFFFF; 8];
    let came = tables.unpack(IndexName::EucKr, &mut room);
    are_pointers(rt, "unpacked", came.unwrap_or(&[1]), entries);
    let less = entries.len().saturating_sub(1).min(8);
    let refused = tables.unpack(IndexName::EucKr, &mut room[..less]).is_none();
    holds(rt, "too little room", refused == (less < entries.len()));
}

#[test]
fn an_index_is_packed_to_runs_and_an_order_and_unpacked(rt: HostRuntime) {
    for (entries, runs, order) in ROWS {
        let indexes = Indexes {
            euc_kr: entries,
            ..no_entries()
        };
        let made = packed_of(&rt, &indexes);
        has_no_own_fault(&rt, &indexes, &made.packed(), None);
        holds(&rt, "the runs of EUC-KR", are_runs(&made.euc_kr, *runs));
        are_pointers(&rt, "EUC-KR", &made.euc_kr_order, *order);
        let flat = packed_entries(*entries, *runs);
        unpacks(&rt, &indexes, &made.packed(), flat);
    }
}

/// Entries of index jis0208 by their pointers, and the pointers that Shift_JIS and EUC-JP use.
type Jis<'a> = (&'a [(usize, u16)], &'a [u16], &'a [u16]);

const JIS: &[Jis] = &[
    (&[(8647, 0xFF02), (10739, 0xFF02)], &[10739], &[8647]),
    // NEC's selection is from 8272 to 8835.
    (&[(8271, 0xFF02)], &[8271], &[8271]),
    (&[(8272, 0xFF02)], &[], &[8272]),
    (&[(8835, 0xFF02)], &[], &[8835]),
    // EUC-JP's forms end before 8836.
    (&[(10716, 0xFF02)], &[10716], &[]),
];

#[test]
fn two_orders_of_jis0208(rt: HostRuntime) {
    for (places, shift_jis, euc_jp) in JIS {
        let mut entries = [0u16; 11280];
        fill(&mut entries, *places);
        let indexes = only_jis0208(&entries);
        let made = packed_of(&rt, &indexes);
        has_no_own_fault(&rt, &indexes, &made.packed(), None);
        let count = made.jis0208.len();
        holds(&rt, "a run for each place", count == places.len());
        are_pointers(&rt, "Shift_JIS", &made.shift_jis_order, *shift_jis);
        are_pointers(&rt, "EUC-JP", &made.euc_jp_order, *euc_jp);
    }
}

/// Entries of index Big5 by their pointers, and the pointers that Big5 uses.
type Big5<'a> = (&'a [(usize, u32)], &'a [u16]);

const BIG5: &[Big5] = &[
    // Of six scalars the last pointer, of others the first.
    (&[(5247, 0x2550), (18991, 0x2550)], &[18991]),
    (&[(5247, 0x2551), (18991, 0x2551)], &[5247]),
    (&[(5247, 0x5345), (18991, 0x5345)], &[18991]),
    // No pointer below 5024.
    (&[(5023, 0x4E00)], &[]),
    (&[(5023, 0x2550), (5024, 0x2550)], &[5024]),
    // Scalars past U+FFFF.
    (
        &[(5024, 0x2_FFFF), (5026, 0x2_008A), (5028, 0x4E00)],
        &[5028, 5026, 5024],
    ),
];

#[test]
fn an_order_of_big5(rt: HostRuntime) {
    for (places, order) in BIG5 {
        let mut entries = [0u32; 19782];
        fill(&mut entries, *places);
        let indexes = Indexes {
            big5: &entries,
            ..no_entries()
        };
        let made = packed_of(&rt, &indexes);
        has_no_own_fault(&rt, &indexes, &made.packed(), None);
        are_pointers(&rt, "Big5", &made.big5_order, *order);
    }
}

/// Entries of index Big5 that are refused but can be packed, and their first fault.
type Refused<'a> = (&'a [u32], TableError);

const REFUSED: &[Refused] = &[
    (&[0x41], BadEntry(IndexName::Big5, 0)),
    (&[0x4E00, 0xD800, 0xD801], BadEntry(IndexName::Big5, 1)),
    (&[0, 0, 0x11_0000], BadEntry(IndexName::Big5, 2)),
    (
        &[u32::MAX - 1, u32::MAX, 0, u32::MAX],
        BadEntry(IndexName::Big5, 0),
    ),
    // The length is checked before the entries.
    (&[0x41; 65537], TooLong(IndexName::Big5)),
];

#[test]
fn indexes_that_are_refused_are_packed_too(rt: HostRuntime) {
    for (entries, fault) in REFUSED {
        let indexes = Indexes {
            big5: entries,
            ..no_entries()
        };
        let made = packed_of(&rt, &indexes);
        has_no_own_fault(&rt, &indexes, &made.packed(), Some(fault));
    }
}

/// Asserts that tables are packed ones of the entries below.
fn are_packed_of_three(rt: &impl Abort, tables: &Tables) {
    let is_packed = tables.flat().is_none();
    holds(rt, "packed", is_packed);
    let scalar = tables.idx(IndexName::EucKr, 1);
    is_scalar(rt, "pointer 1", scalar, Some('\u{AC03}'));
    is_scalar(rt, "pointer 2", tables.idx(IndexName::EucKr, 2), None);
    let pointer = tables.euc_kr_pointer('\u{AC05}');
    holds(rt, "the pointer of U+AC05", pointer == Some(3));
}

#[test]
fn an_owning_set_makes_packed_tables(rt: HostRuntime) -> Result<(), Fail> {
    let text = b"0 0xAC02\n1 0xAC03\n3 0xAC05\n";
    let mut owned = OwnedIndexes::new(rt.alloc());
    owned.read(rt.alloc(), FileIndex::EucKr, text)?;
    let packed = PackedIndexes::new(rt.alloc(), owned)?;
    let tables = packed.tables()?;
    are_packed_of_three(&rt, &tables);
    Ok(())
}

// If one allocation is refused in a run, the call that asked for it returns that error. Every other call returns its
// result.
#[test]
fn answers_memory_only_where_a_growth_is_refused(rt: HostRuntime) {
    let mut refused = false;
    for _ in 0..3 {
        let mut indexes = no_entries();
        indexes.euc_kr = &[0xAC02, 0, 0xAC05];
        match pack(rt.alloc(), &indexes) {
            Ok(made) => {
                let is_so = made.euc_kr.len() == 2 && made.euc_kr_order.len() == 2;
                holds(&rt, "two runs and two pointers", is_so);
            }
            Err(_) => {
                holds(&rt, "one refusal", !refused);
                refused = true;
            }
        }
    }
}

#[test]
fn a_run_shows_its_pointer_first(rt: HostRuntime) {
    let run = Run {
        pointer: 1,
        scalar: 0xAC03,
        length: 2,
    };
    let shown = format!(in rt.alloc(); "{run:?}").expect(&rt, "no memory");
    let wanted = "Run { pointer: 1, scalar: 44035, length: 2 }";
    holds(&rt, "the run", shown.as_str() == wanted);
}
