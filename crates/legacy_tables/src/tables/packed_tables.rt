//! Tables in the form of runs and orders.
ghost use Rattle.std.specs.Prelude.{◌≡◌, MatchResult, Some, None};
ghost use Rattle.legacy_tables.specs.Tables.{flat_indexes};
ghost use Rattle.legacy_tables.specs.Packed.{packed_fault};
ghost use Rattle.legacy_tables.specs.TableChecks.{AreAccepted};
ghost use Rattle.legacy_tables.specs.PackedTables.{lists_of_runs, AnswerPointersOf};

use super::checks::check_indexes;
use super::numbers::number_at;
use super::order::pointer_in_order;
use super::order_checks::{CheckedOrders, check_all_orders};
use super::packed::Packed;
use super::packed_checks::{CheckedRuns, check_all_runs};
use super::private_use::row_bytes;
use super::unpacking::unpack;
use super::walks::walk;
use super::{
    DecoderTables, EncoderTables, IndexName, Indexes, Marks, PackedPart, Ranges, TableError,
    lookups,
};
use std::marker::Model;

/// Indexes that passed the check, in the form of runs and orders.
///
/// Their value is the flat lists that the runs give.
// The five flat indexes are not kept, because no look-up reads them.
#[derive(Drop)]
pub(super) struct PackedTables<'a> {
    runs: CheckedRuns<'a>,
    orders: CheckedOrders<'a>,
    katakana: &'a [u16],
    ranges: &'a [(u16, u16)],
    gb18030_pua: &'a [(u16, u8, u8)],
    ghost accepted: { AreAccepted (lists_of_runs runs katakana.now ranges.now gb18030_pua.now) },
    ghost ordered: { AnswerPointersOf orders
        (lists_of_runs runs katakana.now ranges.now gb18030_pua.now) },
}

impl<'a> Model for PackedTables<'a> {
    ghost use Rattle.legacy_tables.specs.AcceptedTables.{AcceptedIndexes};
    ghost use Rattle.legacy_tables.specs.StoredTables.{coded_indexes};

    ghost Value = { AcceptedIndexes };

    ghost coded = { coded_indexes };

    ghost use Rattle.legacy_tables.specs.PackedTables.{lists_of_runs};

    ghost view = { λ t. record {
      flat = lists_of_runs t.runs t.katakana.now t.ranges.now t.gb18030_pua.now;
      accepted = t.accepted;
    } };
}

/// Checks the flat indexes, then the runs, and then the orders, and returns the first fault.
#[tactic(auto, using(crate::proofs::TableLoops::fault_steps))]
pub(super) fn check_packed(indexes: &Indexes<'_>, packed: &Packed<'_>) -> Result<(), TableError>
    ensures { let found = packed_fault (flat_indexes indexes.now) packed.now in
        MatchResult result (λ _. found ≡ None) (λ fault. found ≡ Some fault) }
{
    check_indexes(indexes)?;
    check_all_runs(indexes, packed)?;
    check_all_orders(indexes, packed)
}

impl<'a> PackedTables<'a> {
    ghost use Rattle.legacy_tables.specs.Tables.{index_list, is_narrow_index};
    ghost use Rattle.std.specs.Prelude.{◌<◌, ◌≤◌, length, slice_index, true, MatchOption};
    ghost use Rattle.legacy_tables.specs.Packed.{ArePackedTables};

    /// Returns the tables of indexes that passed the check.
    pub(super) fn of(indexes: &Indexes<'a>, packed: &Packed<'a>) -> PackedTables<'a>
        requires { packed_fault (flat_indexes indexes.now) packed.now ≡ None }
        ensures { ArePackedTables (flat_indexes indexes.now) packed.now result.flat }
    {
        PackedTables {
            runs: CheckedRuns::of(packed),
            orders: CheckedOrders::of(packed),
            katakana: indexes.katakana,
            ranges: indexes.ranges,
            gb18030_pua: indexes.gb18030_pua,
        }
    }

    /// Returns what `Tables::unpack_big5` does.
    pub(super) fn unpack_big5<'b>(&self, room: &'b mut [u32]) -> Option<&'b [u32]>
        ensures { MatchOption result (length room.old < length self.now.flat.big5)
            (λ flat. (flat.now ≡ self.now.flat.big5) × (length self.now.flat.big5 ≤ length room.old)) }
    {
        unpack(&self.runs.big5, room)
    }

    /// Returns what `Tables::unpack` does.
    pub(super) fn unpack_narrow<'b>(
        &self,
        name: IndexName,
        room: &'b mut [u16],
    ) -> Option<&'b [u16]>
        requires { is_narrow_index name ≡ true }
        ensures { MatchOption result (length room.old < length (index_list self.now.flat name))
            (λ flat. (flat.now ≡ index_list self.now.flat name)
            × (length (index_list self.now.flat name) ≤ length room.old)) }
    {
        match name {
            IndexName::EucKr => unpack(&self.runs.euc_kr, room),
            IndexName::Jis0208 => unpack(&self.runs.jis0208, room),
            IndexName::Jis0212 => unpack(&self.runs.jis0212, room),
            IndexName::Gb18030 => unpack(&self.runs.gb18030, room),
            _ => None,
        }
    }

    /// Returns the entry of a pointer in the named index, or 0 past the index's end.
    #[inline(always)]
    fn entry(&self, name: IndexName, pointer: usize) -> usize
        ensures { result ≡ slice_index (index_list self.now.flat name) pointer }
    {
        match name {
            IndexName::Big5 => number_at(&self.runs.big5, pointer),
            IndexName::EucKr => number_at(&self.runs.euc_kr, pointer),
            IndexName::Jis0208 => number_at(&self.runs.jis0208, pointer),
            IndexName::Jis0212 => number_at(&self.runs.jis0212, pointer),
            IndexName::Gb18030 => number_at(&self.runs.gb18030, pointer),
            IndexName::Katakana => number_at(&self.katakana, pointer),
            IndexName::Ranges => 0,
        }
    }
}

impl<'a> DecoderTables for PackedTables<'a> {
    ghost indexes = { λ t. t };

    #[tactic(auto, using(crate::proofs::PackedAccepted::entry_scalars))]
    #[inline]
    fn idx(&self, name: IndexName, pointer: usize) -> Option<char> {
        lookups::scalar_of(self.entry(name, pointer))
    }

    #[inline(always)]
    fn ranges(&self) -> Ranges<'_> {
        Ranges::new(self.ranges)
    }
}

impl<'a> EncoderTables for PackedTables<'a> {
    #[inline]
    fn big5_pointer(&self, scalar: char) -> Option<usize> {
        pointer_in_order(&self.runs.big5, self.orders.big5, scalar as usize)
    }

    #[inline]
    fn euc_kr_pointer(&self, scalar: char) -> Option<usize> {
        pointer_in_order(&self.runs.euc_kr, self.orders.euc_kr, scalar as usize)
    }

    #[inline]
    fn shift_jis_pointer(&self, scalar: char) -> Option<usize> {
        pointer_in_order(&self.runs.jis0208, self.orders.shift_jis, scalar as usize)
    }

    #[inline]
    fn euc_jp_pointer(&self, scalar: char) -> Option<usize> {
        pointer_in_order(&self.runs.jis0208, self.orders.euc_jp, scalar as usize)
    }

    #[inline]
    fn gb18030_pointer(&self, scalar: char) -> Option<usize> {
        pointer_in_order(&self.runs.gb18030, self.orders.gb18030, scalar as usize)
    }

    #[inline]
    fn gb18030_pua_bytes(&self, scalar: char) -> Option<(u8, u8)> {
        row_bytes(self.gb18030_pua, scalar)
    }

    #[inline]
    fn gb18030_rows(&self) -> &[(u16, u8, u8)] {
        self.gb18030_pua
    }

    // Inlined, so that a walk contains no code of another codec.
    #[inline(always)]
    fn fill<M: Marks>(&self, part: PackedPart, marks: &M, entries: &mut [u16]) {
        match part {
            PackedPart::Big5 | PackedPart::Big5Order => {
                walk(part, marks, &self.runs.big5, entries)
            }
            PackedPart::EucKr | PackedPart::EucKrOrder => {
                walk(part, marks, &self.runs.euc_kr, entries)
            }
            PackedPart::Jis0208 | PackedPart::ShiftJisOrder | PackedPart::EucJpOrder => {
                walk(part, marks, &self.runs.jis0208, entries)
            }
            PackedPart::Jis0212 => walk(part, marks, &self.runs.jis0212, entries),
            PackedPart::Gb18030 | PackedPart::Gb18030Order => {
                walk(part, marks, &self.runs.gb18030, entries)
            }
        }
    }
}
