//! The indexes of the WHATWG Encoding Standard, flat or packed, and the tables made of checked indexes.
//!
//! Tables return the scalar value of a pointer, and the pointer of a scalar value.
#![tactic(auto)]

mod single_byte_table;
mod tables;

pub use single_byte_table::SingleByteTable;
pub use tables::{
    DecoderTables, EncoderTables, Entry, FlatTables, GB18030_2022_PUA, IndexName, Indexes, Marks,
    Packed, PackedPart, RangePart, Ranges, Run, TableError, Tables,
};
