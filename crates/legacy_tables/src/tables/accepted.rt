//! Tables of indexes that passed the check before.
ghost use Rattle.std.specs.Prelude.{◌≡◌, None};
ghost use Rattle.legacy_tables.specs.Tables.{flat_indexes};
ghost use Rattle.legacy_tables.specs.TableChecks.{table_fault};

use super::{FlatTables, Indexes, KeptTables, Tables};

impl<'a> Tables<'a> {
    /// Returns the tables of indexes that passed the check of `new` before. Nothing is checked again.
    #[inline]
    pub fn of_checked(indexes: &Indexes<'a>) -> Tables<'a>
        requires { table_fault (flat_indexes indexes.now) ≡ None }
        ensures { result.flat ≡ flat_indexes indexes.now }
    {
        Tables {
            kept: KeptTables::Flat(FlatTables::of(indexes)),
        }
    }
}
