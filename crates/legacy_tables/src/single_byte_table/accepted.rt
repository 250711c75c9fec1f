//! Tables of entries that passed the check before.
ghost use Rattle.std.specs.Prelude.{◌≡◌};
ghost use Rattle.legacy_tables.specs.TableChecks.{IsAcceptedTable};

use super::SingleByteTable;

impl SingleByteTable {
    /// Returns the table of entries that passed the check of `new` before. Nothing is checked again.
    #[inline]
    pub fn of_checked(entries: &[u16; 128]) -> SingleByteTable
        requires { IsAcceptedTable entries.now }
        ensures { result.entries ≡ entries.now }
    {
        SingleByteTable { entries: *entries }
    }
}
