//! The coders of all codecs, and rows that are followed with them.
use crate::encoder_rows::{EncoderRow, follow_encoder};
use crate::indexes::{
    Filled, Flat, byte_table_of, entries_of, packed_of, packed_tables_of, tables_of,
};
use crate::rows::{Row, follow};
use legacy_codecs::{SingleByteEncoder, SingleByteTable, Tables};
use legacy_coders::{AnyDecoder, AnyEncoder};
use legacy_index_files::Codec;
use std::process::Abort;

/// A codec over tables, with the run of a single-byte encoder: its first scalar, its first place and its length.
#[derive(Clone, Copy)]
pub(crate) struct Over<'a> {
    pub(crate) codec: Codec,
    pub(crate) tables: &'a Tables<'a>,
    pub(crate) single_byte: &'a SingleByteTable,
    run: (u16, u8, u8),
}

impl<'a> Over<'a> {
    /// Returns the single-byte encoder with the run.
    pub(crate) fn single_byte_encoder(self, rt: &impl Abort) -> AnyEncoder<'a> {
        let (scalar, start, count) = self.run;
        match SingleByteEncoder::new(self.single_byte, scalar, start, count) {
            Ok(encoder) => AnyEncoder::SingleByte(encoder),
            Err(fault) => panic!(rt; "{fault}"),
        }
    }
}

/// Rows of a coder.
pub(crate) trait Followed {
    /// Follows the rows in turn.
    fn follow(rt: &(impl AllocGlobal + Abort), over: Over, rows: &[Self]);
}

impl Followed for Row<'_> {
    fn follow(rt: &(impl AllocGlobal + Abort), over: Over, rows: &[Self]) {
        follow::<AnyDecoder>(rt, over, rows);
    }
}

impl Followed for EncoderRow<'_> {
    fn follow(rt: &(impl AllocGlobal + Abort), over: Over, rows: &[Self]) {
        follow_encoder::<AnyEncoder>(rt, over, rows);
    }
}

/// Follows the rows with a codec over these tables.
fn follow_over<R: Followed>(
    rt: &(impl AllocGlobal + Abort),
    codec: Codec,
    flat: &Flat,
    tables: &Tables,
    rows: &[R],
) {
    let single_byte = byte_table_of(rt, &entries_of(flat.single_byte));
    let over = Over {
        codec,
        tables,
        single_byte: &single_byte,
        run: flat.run,
    };
    R::follow(rt, over, rows);
}

/// Follows the rows with each codec, over flat tables of these indexes and over packed ones.
pub(crate) fn follow_rows<'a, R: Followed>(
    rt: &(impl AllocGlobal + Abort),
    codecs: &[Codec],
    flat: &'a Flat<'a>,
    rows: &[R],
) {
    let filled = Filled::of(flat);
    let indexes = filled.indexes(flat);
    let tables = tables_of(rt, &indexes);
    let packed = packed_of(rt, &indexes);
    let packed_tables = packed_tables_of(rt, &indexes, &packed.packed());
    for codec in codecs {
        follow_over(rt, *codec, flat, &tables, rows);
        follow_over(rt, *codec, flat, &packed_tables, rows);
    }
}
