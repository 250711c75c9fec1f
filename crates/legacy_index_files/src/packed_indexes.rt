//! An owning set of indexes and their packed parts, which lends packed tables.
ghost use Rattle.std.specs.Prelude.{◌≡◌, Some, MatchResult};
ghost use Rattle.legacy_tables.specs.TableChecks.{table_fault};
ghost use Rattle.legacy_index_files.specs.OwnedIndexes.{owned_lists};
ghost use Rattle.legacy_index_files.specs.Packing.{IsPackOf, AreTablesOf};

use crate::owned_indexes::OwnedIndexes;
use crate::packing::{OwnedPacked, pack};
use legacy_tables::{TableError, Tables};
use std::alloc::{AllocFailed, Global};

/// The values of all indexes and their packed parts, owned.
///
/// With an `OwnedIndexes`, two lines make packed tables:
///
///     let packed = PackedIndexes::new(alloc, owned)?;
///     let tables = packed.tables()?;
///
/// The tables borrow the set. Decoders and encoders borrow the tables.
#[derive(Drop)]
pub struct PackedIndexes {
    /// The flat indexes.
    pub indexes: OwnedIndexes,
    /// The packed parts.
    pub parts: OwnedPacked,
    ghost made: { IsPackOf (owned_lists indexes) parts },
}

impl PackedIndexes {
    /// Packs the indexes, or returns them unchanged if memory is refused.
    pub fn new(
        alloc: Global,
        indexes: OwnedIndexes,
    ) -> Result<PackedIndexes, AllocFailed<OwnedIndexes>>
        ensures { MatchResult result
            (λ packed. packed.indexes ≡ indexes)
            (λ refused. refused.value ≡ indexes) }
    {
        match pack(alloc, &indexes.indexes()) {
            Ok(parts) => Ok(PackedIndexes { indexes, parts }),
            Err(_) => Err(AllocFailed { value: indexes }),
        }
    }

    /// Checks the indexes, and returns their packed tables or the first fault.
    ///
    /// The fault is one of the indexes (`Tables::packed_of`); the packed parts have none of their
    /// own. The tables borrow the indexes and the parts, and allocate no memory.
    pub fn tables(&self) -> Result<Tables<'_>, TableError>
        ensures { MatchResult result
            (λ tables. AreTablesOf (owned_lists self.now.indexes) self.now.parts tables.flat)
            (λ fault. table_fault (owned_lists self.now.indexes) ≡ Some fault) }
    {
        Tables::packed_of(&self.indexes.indexes(), &self.parts.packed())
    }
}
