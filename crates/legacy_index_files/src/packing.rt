//! Packs flat indexes: makes their runs, and the orders of the pointers that encoders use.
ghost use Rattle.std.specs.Prelude.{IfOk};
ghost use Rattle.legacy_tables.specs.Tables.{flat_indexes};
ghost use Rattle.legacy_index_files.specs.Packing.{HasParts, IsPackOf};

pub(crate) mod orders;
pub(crate) mod pointer_runs;

use legacy_tables::{Indexes, Packed, Run};
use orders::add_orders;
use pointer_runs::add_runs;
use std::alloc::{AllocError, Global};

/// Packed indexes with their memory, one field for each part of `legacy_tables::Packed`.
///
/// They are not checked: `Tables::packed_of` takes the result of `packed` and checks it.
#[derive(Debug, Drop)]
pub struct OwnedPacked {
    /// The runs of index Big5.
    pub big5: Vec<Run>,
    /// The runs of index EUC-KR.
    pub euc_kr: Vec<Run>,
    /// The runs of index jis0208.
    pub jis0208: Vec<Run>,
    /// The runs of index jis0212.
    pub jis0212: Vec<Run>,
    /// The runs of index gb18030.
    pub gb18030: Vec<Run>,
    /// The pointers of Big5's encoder.
    pub big5_order: Vec<u16>,
    /// The pointers of EUC-KR's encoder.
    pub euc_kr_order: Vec<u16>,
    /// The pointers of Shift_JIS's encoder.
    pub shift_jis_order: Vec<u16>,
    /// The pointers of the encoders of EUC-JP and ISO-2022-JP.
    pub euc_jp_order: Vec<u16>,
    /// The pointers of GB18030's encoder.
    pub gb18030_order: Vec<u16>,
}

impl OwnedPacked {
    /// Returns empty parts. It allocates no memory.
    fn new(alloc: Global) -> OwnedPacked {
        OwnedPacked {
            big5: Vec::new(alloc),
            euc_kr: Vec::new(alloc),
            jis0208: Vec::new(alloc),
            jis0212: Vec::new(alloc),
            gb18030: Vec::new(alloc),
            big5_order: Vec::new(alloc),
            euc_kr_order: Vec::new(alloc),
            shift_jis_order: Vec::new(alloc),
            euc_jp_order: Vec::new(alloc),
            gb18030_order: Vec::new(alloc),
        }
    }

    /// Returns the ten parts, borrowed. It allocates no memory.
    pub fn packed(&self) -> Packed<'_>
        ensures { HasParts self.now result }
    {
        Packed {
            big5: &self.big5,
            euc_kr: &self.euc_kr,
            jis0208: &self.jis0208,
            jis0212: &self.jis0212,
            gb18030: &self.gb18030,
            big5_order: &self.big5_order,
            euc_kr_order: &self.euc_kr_order,
            shift_jis_order: &self.shift_jis_order,
            euc_jp_order: &self.euc_jp_order,
            gb18030_order: &self.gb18030_order,
        }
    }
}

/// Packs flat indexes (Encoding Standard, "Indexes").
///
/// Returns the runs of five indexes, and for five codecs the pointers that their encoders use, in
/// the order of their scalar values. Each run is as long as possible. It ends before the first
/// pointer that is unmapped, or whose scalar value is not one more than the previous one. The only
/// error is that memory is refused.
///
/// If `Tables::new` accepts the indexes, `Tables::packed_of` accepts them with the result.
/// Otherwise both return the same fault, because `packed_of` checks the flat indexes first.
///
/// Refused indexes are packed in the same way, with these limits:
///
/// - If an index is too long, its runs contain only as many entries as it may have.
/// - Big5's order contains only scalar values below U+30000.
/// - The orders of an index with more than 23940 entries are unspecified.
///
/// The time is near linear. Runs need one pass over each index. An order needs one pass over its
/// index and one over all scalar values up to U+FFFF (U+2FFFF for Big5). While an order is made, a
/// list has 2 bytes for each of these scalar values.
pub fn pack(alloc: Global, indexes: &Indexes<'_>) -> Result<OwnedPacked, AllocError>
    ensures { IfOk result (IsPackOf (flat_indexes indexes.now)) }
{
    let mut packed = OwnedPacked::new(alloc);
    add_runs(indexes, &mut packed)?;
    add_orders(alloc, indexes, &mut packed)?;
    Ok(packed)
}
