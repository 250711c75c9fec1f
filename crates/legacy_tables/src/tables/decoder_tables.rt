//! The look-ups of decoders in tables.
ghost use Rattle.std.specs.Prelude.{◌≡◌, IfSome};
ghost use Rattle.legacy_tables.specs.AcceptedTables.{AcceptedIndexes};
ghost use Rattle.legacy_tables.specs.Indexes.{idx};
ghost use Rattle.legacy_tables.specs.Tables.{index_list};

use super::{FlatTables, IndexName, Ranges};

/// The look-ups of a decoder in tables, flat or packed.
// Code that runs for each sequence is generic over this, so that a look-up in flat tables does not test their form.
pub trait DecoderTables {
    /// The flat lists that are the value of the tables.
    ghost indexes: { Self → AcceptedIndexes };

    /// Returns what `Tables::idx` does.
    fn idx(&self, name: IndexName, pointer: usize) -> Option<char>
        ensures { result ≡ idx (index_list (indexes self.now).flat name) pointer };

    /// Returns the ranges.
    fn ranges(&self) -> Ranges<'_>
        ensures { result.list.now ≡ (indexes self.now).flat.ranges };

    /// Returns the same tables if they look pointers up in flat indexes, without a search, or else `None`.
    // Code that runs for each sequence calls this once in a run of sequences.
    #[inline(always)]
    fn flat(&self) -> Option<&FlatTables<'_>>
        ensures { IfSome result (λ flat. flat.now ≡ indexes self.now) }
    {
        None
    }
}
