//! Indexes as rows state them, and the tables made of them.
use legacy_base::{GB18030_2022_PUA, Indexes, Packed, SingleByteTable, Tables};
use legacy_index_files::{OwnedPacked, pack};
use std::process::Abort;

/// The number of entries of an index, and those that are not 0, by their pointers.
pub(crate) type Entries<'a, T> = (usize, &'a [(usize, T)]);

/// Indexes, and the table of a single-byte encoding.
#[derive(Drop)]
pub(crate) struct Flat<'a> {
    pub(crate) big5: Entries<'a, u32>,
    pub(crate) euc_kr: Entries<'a, u16>,
    pub(crate) jis0208: Entries<'a, u16>,
    pub(crate) jis0212: Entries<'a, u16>,
    pub(crate) gb18030: Entries<'a, u16>,
    pub(crate) katakana: Entries<'a, u16>,
    pub(crate) ranges: &'a [(u16, u16)],
    pub(crate) gb18030_pua: &'a [(u16, u8, u8)],
    /// The entries of the single-byte table, by their places.
    pub(crate) single_byte: &'a [(usize, u16)],
    /// The run of the single-byte encoder: its first scalar, its first place and its length.
    pub(crate) run: (u16, u8, u8),
}

/// Indexes without an entry, and the private-use rows of GB18030-2022.
pub(crate) const NO_ENTRIES: Flat = Flat {
    big5: (0, &[]),
    euc_kr: (0, &[]),
    jis0208: (0, &[]),
    jis0212: (0, &[]),
    gb18030: (0, &[]),
    katakana: (0, &[]),
    ranges: &[],
    gb18030_pua: &GB18030_2022_PUA,
    single_byte: &[],
    run: (0, 32, 0),
};

/// No entries.
pub(crate) const EMPTY: &Flat = &NO_ENTRIES;

/// Flat indexes with these entries, of which the others are empty.
macro_rules! flat {
    ($($index:ident: $entries:expr),*) => {
        crate::indexes::Flat {
            $($index: $entries,)*
            ..crate::indexes::NO_ENTRIES
        }
    };
}

pub(crate) use flat;

/// The entries of flat indexes by their pointers, with room for one more than an index may have.
#[derive(Drop)]
pub(crate) struct Filled {
    big5: [u32; 19783],
    euc_kr: [u16; 23941],
    jis0208: [u16; 11281],
    jis0212: [u16; 8837],
    gb18030: [u16; 23941],
    katakana: [u16; 63],
}

/// Puts each entry at its place, which is its pointer in an index.
pub(crate) fn fill<T: Copy>(index: &mut [T], entries: &[(usize, T)]) {
    for (pointer, entry) in entries {
        if *pointer < index.len() {
            index[*pointer] = *entry;
        }
    }
}

/// Returns the first `length` entries of an index.
fn front<T>(index: &[T], length: usize) -> &[T] {
    &index[..length.min(index.len())]
}

impl Filled {
    pub(crate) fn of(flat: &Flat) -> Filled {
        let mut filled = Filled {
            big5: [0; 19783],
            euc_kr: [0; 23941],
            jis0208: [0; 11281],
            jis0212: [0; 8837],
            gb18030: [0; 23941],
            katakana: [0; 63],
        };
        fill(&mut filled.big5, flat.big5.1);
        fill(&mut filled.euc_kr, flat.euc_kr.1);
        fill(&mut filled.jis0208, flat.jis0208.1);
        fill(&mut filled.jis0212, flat.jis0212.1);
        fill(&mut filled.gb18030, flat.gb18030.1);
        fill(&mut filled.katakana, flat.katakana.1);
        filled
    }

    /// Returns these entries as indexes, with the stated ranges and private-use rows.
    pub(crate) fn indexes<'a>(&'a self, flat: &Flat<'a>) -> Indexes<'a> {
        Indexes {
            big5: front(&self.big5, flat.big5.0),
            euc_kr: front(&self.euc_kr, flat.euc_kr.0),
            jis0208: front(&self.jis0208, flat.jis0208.0),
            jis0212: front(&self.jis0212, flat.jis0212.0),
            gb18030: front(&self.gb18030, flat.gb18030.0),
            katakana: front(&self.katakana, flat.katakana.0),
            ranges: flat.ranges,
            gb18030_pua: flat.gb18030_pua,
        }
    }
}

/// Returns the entries of a single-byte table: these, by their places, and no others.
pub(crate) fn entries_of(some: &[(usize, u16)]) -> [u16; 128] {
    let mut entries = [0u16; 128];
    fill(&mut entries, some);
    entries
}

/// Returns tables of these indexes.
pub(crate) fn tables_of<'a>(rt: &impl Abort, indexes: &Indexes<'a>) -> Tables<'a> {
    match Tables::new(indexes) {
        Ok(tables) => tables,
        Err(fault) => panic!(rt; "{fault}"),
    }
}

/// Packs indexes.
pub(crate) fn packed_of(rt: &(impl AllocGlobal + Abort), indexes: &Indexes) -> OwnedPacked {
    pack(rt.alloc(), indexes).expect(rt, "no memory")
}

/// Returns packed tables of these indexes.
pub(crate) fn packed_tables_of<'a>(
    rt: &impl Abort,
    indexes: &Indexes<'a>,
    packed: &Packed<'a>,
) -> Tables<'a> {
    match Tables::packed_of(indexes, packed) {
        Ok(tables) => tables,
        Err(fault) => panic!(rt; "{fault}"),
    }
}

/// Returns the single-byte table of these entries.
pub(crate) fn byte_table_of(rt: &impl Abort, entries: &[u16; 128]) -> SingleByteTable {
    match SingleByteTable::new(entries) {
        Ok(table) => table,
        Err(fault) => panic!(rt; "{fault}"),
    }
}
