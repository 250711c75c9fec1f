//! Tables in the form of flat indexes.
ghost use Rattle.std.specs.Prelude.{◌≡◌, None};
ghost use Rattle.legacy_tables.specs.Tables.{flat_indexes};
ghost use Rattle.legacy_tables.specs.TableChecks.{AreAccepted};

use super::numbers::number_at;
use super::private_use::row_bytes;
use super::{
    DecoderTables, EncoderTables, IndexName, Indexes, Marks, PackedPart, Ranges, lookups, pointers,
};
use std::marker::Model;

/// Indexes that passed the check, in the form of the flat lists that the caller passed.
#[derive(Drop)]
pub struct FlatTables<'a> {
    given: Indexes<'a>,
    ghost accepted: { AreAccepted (flat_indexes given) },
}

impl<'a> Model for FlatTables<'a> {
    ghost use Rattle.legacy_tables.specs.AcceptedTables.{AcceptedIndexes};
    ghost use Rattle.legacy_tables.specs.StoredTables.{coded_indexes};
    ghost use Rattle.legacy_tables.specs.Tables.{flat_indexes};

    ghost Value = { AcceptedIndexes };

    ghost coded = { coded_indexes };

    ghost view = { λ t. record { flat = flat_indexes t.given; accepted = t.accepted } };
}

impl<'a> FlatTables<'a> {
    ghost use Rattle.legacy_tables.specs.TableChecks.{table_fault};
    ghost use Rattle.legacy_tables.specs.Tables.{flat_indexes, index_list, is_narrow_index};
    ghost use Rattle.std.specs.Prelude.{true, false, length, slice_index};

    /// Returns the tables of indexes that passed the check.
    pub(super) fn of(indexes: &Indexes<'a>) -> FlatTables<'a>
        requires { table_fault (flat_indexes indexes.now) ≡ None }
        ensures { result.flat ≡ flat_indexes indexes.now }
    {
        FlatTables { given: *indexes }
    }

    /// Returns a copy of these tables. It borrows the same indexes.
    // A loop keeps the parts of a copy in registers, and loads those of borrowed tables for each pair.
    #[inline(always)]
    pub fn copied(&self) -> FlatTables<'a>
        ensures { result.flat ≡ self.now.flat }
    {
        FlatTables { given: self.given }
    }

    /// Returns the index of the name, if it is one of pairs with entries of 16 bits.
    ///
    /// For other names it returns an empty list.
    #[inline]
    pub fn narrow(&self, name: IndexName) -> &[u16]
        ensures list { is_narrow_index name ≡ true → result.now ≡ index_list self.now.flat name }
        ensures other { is_narrow_index name ≡ false → length result.now ≡ 0 }
    {
        match name {
            IndexName::EucKr => self.given.euc_kr,
            IndexName::Jis0208 => self.given.jis0208,
            IndexName::Jis0212 => self.given.jis0212,
            IndexName::Gb18030 => self.given.gb18030,
            _ => &[],
        }
    }

    /// Returns index Big5, whose entries are 32 bits wide.
    #[inline]
    pub fn wide(&self) -> &[u32]
        ensures { result.now ≡ self.now.flat.big5 }
    {
        self.given.big5
    }

    /// Returns the entry of a pointer in the named index, or 0 past the index's end.
    #[inline(always)]
    fn entry(&self, name: IndexName, pointer: usize) -> usize
        ensures { result ≡ slice_index (index_list self.now.flat name) pointer }
    {
        match name {
            IndexName::Big5 => number_at(&self.given.big5, pointer),
            IndexName::EucKr => number_at(&self.given.euc_kr, pointer),
            IndexName::Jis0208 => number_at(&self.given.jis0208, pointer),
            IndexName::Jis0212 => number_at(&self.given.jis0212, pointer),
            IndexName::Gb18030 => number_at(&self.given.gb18030, pointer),
            IndexName::Katakana => number_at(&self.given.katakana, pointer),
            IndexName::Ranges => 0,
        }
    }
}

impl<'a> DecoderTables for FlatTables<'a> {
    ghost indexes = { λ t. t };

    #[tactic(auto, using(crate::proofs::PackedAccepted::entry_scalars))]
    #[inline]
    fn idx(&self, name: IndexName, pointer: usize) -> Option<char> {
        lookups::scalar_of(self.entry(name, pointer))
    }

    #[inline(always)]
    fn ranges(&self) -> Ranges<'_> {
        Ranges::new(self.given.ranges)
    }

    #[inline(always)]
    fn flat(&self) -> Option<&FlatTables<'_>> {
        Some(self)
    }
}

// Each search is a separate call, so that code for packed tables does not contain it.
impl<'a> EncoderTables for FlatTables<'a> {
    #[inline(never)]
    fn big5_pointer(&self, scalar: char) -> Option<usize> {
        pointers::big5_pointer(self.given.big5, scalar)
    }

    #[inline(never)]
    fn euc_kr_pointer(&self, scalar: char) -> Option<usize> {
        pointers::first(self.given.euc_kr, scalar)
    }

    #[inline(never)]
    fn shift_jis_pointer(&self, scalar: char) -> Option<usize> {
        pointers::shift_jis_pointer(self.given.jis0208, scalar)
    }

    #[inline(never)]
    #[tactic(auto, using(crate::proofs::PointerBounds::bounds))]
    fn euc_jp_pointer(&self, scalar: char) -> Option<usize> {
        pointers::euc_jp_pointer(self.given.jis0208, scalar)
    }

    #[inline(never)]
    fn gb18030_pointer(&self, scalar: char) -> Option<usize> {
        pointers::first(self.given.gb18030, scalar)
    }

    #[inline]
    fn gb18030_pua_bytes(&self, scalar: char) -> Option<(u8, u8)> {
        row_bytes(self.given.gb18030_pua, scalar)
    }

    #[inline]
    fn gb18030_rows(&self) -> &[(u16, u8, u8)] {
        self.given.gb18030_pua
    }

    // Inlined, so that a walk contains no code of another codec.
    #[inline(always)]
    fn fill<M: Marks>(&self, part: PackedPart, marks: &M, entries: &mut [u16]) {
        self.given.fill(part, marks, entries)
    }
}
