//! The check of packed indexes.
use crate::compared::is_fault;
use crate::indexes::{Filled, Flat, NO_ENTRIES, flat};
use legacy_base::IndexName::Gb18030;
use legacy_base::TableError::{BadEntry, PackedDiffers, PackedOrder};
use legacy_base::{Packed, PackedPart, Run, TableError, Tables};
use std::process::Abort;

/// A run of packed indexes: its first pointer, the scalar of that pointer, and its length.
macro_rules! run {
    ($pointer:expr, $scalar:expr, $length:expr) => {
        Run {
            pointer: $pointer,
            scalar: $scalar,
            length: $length,
        }
    };
}

/// Packed indexes without a run and without a pointer.
const NO_PARTS: Packed = Packed {
    big5: &[],
    euc_kr: &[],
    jis0208: &[],
    jis0212: &[],
    gb18030: &[],
    big5_order: &[],
    euc_kr_order: &[],
    shift_jis_order: &[],
    euc_jp_order: &[],
    gb18030_order: &[],
};

/// Packed parts, and the fault of indexes with them.
type Faulty<'a> = (Packed<'a>, Option<TableError>);

/// Compares the fault of the indexes with the parts of each row with the wanted one.
fn have_faults<'a>(rt: &impl Abort, case: &str, flat: &'a Flat<'a>, rows: &'a [Faulty<'a>]) {
    let filled = Filled::of(flat);
    let indexes = filled.indexes(flat);
    for (at, (packed, wanted)) in rows.iter().enumerate() {
        let came = Tables::packed_of(&indexes, packed).err();
        is_fault(rt, (case, at), &came, wanted);
    }
}

/// Index EUC-KR with U+AC02, U+AC03, none and U+AC05.
const FOUR_ENTRIES: &Flat = &flat!(euc_kr: (4, &[(0, 0xAC02), (1, 0xAC03), (3, 0xAC05)]));

/// These runs of that index, and its order.
macro_rules! of_euc_kr {
    ($runs:expr) => {
        Packed {
            euc_kr: $runs,
            euc_kr_order: &[0, 1, 3],
            ..NO_PARTS
        }
    };
}

const RUNS: &[Faulty] = &[
    (of_euc_kr!(&[run!(0, 0xAC02, 2), run!(3, 0xAC05, 1)]), None),
    // A pointer that the index lacks.
    (
        of_euc_kr!(&[run!(0, 0xAC02, 4)]),
        Some(PackedDiffers(PackedPart::EucKr, 2)),
    ),
    // A pointer that the runs lack.
    (
        of_euc_kr!(&[run!(0, 0xAC02, 2)]),
        Some(PackedDiffers(PackedPart::EucKr, 3)),
    ),
    // Runs must rise.
    (
        of_euc_kr!(&[run!(1, 0xAC03, 1), run!(0, 0xAC02, 1)]),
        Some(PackedOrder(PackedPart::EucKr, 1)),
    ),
    // No run may be empty, or pass the last pointer or the last scalar.
    (
        of_euc_kr!(&[run!(0, 0xAC02, 0)]),
        Some(PackedOrder(PackedPart::EucKr, 0)),
    ),
    (
        of_euc_kr!(&[run!(23939, 0xAC02, 2)]),
        Some(PackedOrder(PackedPart::EucKr, 0)),
    ),
    (
        of_euc_kr!(&[run!(0, 0x10_FFFF, 2)]),
        Some(PackedOrder(PackedPart::EucKr, 0)),
    ),
    // U+0000 is not an empty entry, and a surrogate is not a scalar.
    (
        of_euc_kr!(&[run!(0, 0xAC02, 2), run!(2, 0, 1), run!(3, 0xAC05, 1)]),
        Some(PackedDiffers(PackedPart::EucKr, 2)),
    ),
    (
        of_euc_kr!(&[run!(0, 0xAC02, 2), run!(2, 0xD800, 1), run!(3, 0xAC05, 1)]),
        Some(PackedDiffers(PackedPart::EucKr, 2)),
    ),
];

/// Two parts with a fault each.
const TWO_PARTS: Packed = Packed {
    euc_kr: &[run!(0, 0xAC02, 2)],
    jis0208: &[run!(0, 0x3000, 0)],
    ..NO_PARTS
};

const OF_TWO_PARTS: &[Faulty] = &[(TWO_PARTS, Some(PackedDiffers(PackedPart::EucKr, 3)))];

/// The same index beside one with a fault.
const BAD_ENTRY: &Flat = &Flat {
    euc_kr: (4, &[(0, 0xAC02), (1, 0xAC03), (3, 0xAC05)]),
    gb18030: (1, &[(0, 0x7F)]),
    ..NO_ENTRIES
};

const OF_BAD_ENTRY: &[Faulty] = &[(TWO_PARTS, Some(BadEntry(Gb18030, 0)))];

/// U+FF02 at two pointers of index jis0208.
const FF02: &Flat = &flat!(jis0208: (10740, &[(8647, 0xFF02), (10739, 0xFF02)]));

/// Runs of that index, and these orders of Shift_JIS and of EUC-JP.
macro_rules! of_ff02 {
    ($shift_jis:expr, $euc_jp:expr) => {
        Packed {
            jis0208: &[run!(8647, 0xFF02, 1), run!(10739, 0xFF02, 1)],
            shift_jis_order: $shift_jis,
            euc_jp_order: $euc_jp,
            ..NO_PARTS
        }
    };
}

const ORDERS: &[Faulty] = &[
    (of_ff02!(&[10739], &[8647]), None),
    // Shift_JIS uses no pointer of NEC's selection.
    (
        of_ff02!(&[8647], &[8647]),
        Some(PackedOrder(PackedPart::ShiftJisOrder, 0)),
    ),
    (
        of_ff02!(&[], &[8647]),
        Some(PackedDiffers(PackedPart::ShiftJisOrder, 10739)),
    ),
    // EUC-JP uses no pointer past its forms.
    (
        of_ff02!(&[10739], &[10739]),
        Some(PackedOrder(PackedPart::EucJpOrder, 0)),
    ),
];

const U_2550: &Flat = &flat!(big5: (18992, &[(5247, 0x2550), (18991, 0x2550)]));

// Big5's encoder uses the last pointer of six scalars.
const ORDER_OF_BIG5: &[Faulty] = &[(
    Packed {
        big5: &[run!(5247, 0x2550, 1), run!(18991, 0x2550, 1)],
        big5_order: &[5247],
        ..NO_PARTS
    },
    Some(PackedDiffers(PackedPart::Big5Order, 5247)),
)];

#[test]
fn indexes_come_first_and_then_the_parts_in_their_order(rt: HostRuntime) {
    have_faults(&rt, "runs", FOUR_ENTRIES, RUNS);
    have_faults(&rt, "two parts", FOUR_ENTRIES, OF_TWO_PARTS);
    have_faults(&rt, "two parts beside a bad entry", BAD_ENTRY, OF_BAD_ENTRY);
    have_faults(&rt, "orders of jis0208", FF02, ORDERS);
    have_faults(&rt, "an order of Big5", U_2550, ORDER_OF_BIG5);
}
