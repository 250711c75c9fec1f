//! Indexes, and the tables made of checked indexes.
ghost use Rattle.std.specs.Prelude.{◌≡◌, MatchResult, Some};

mod accepted;
pub(crate) mod checks;
pub(crate) mod decoder_tables;
pub(crate) mod encoder_tables;
pub(crate) mod entries;
pub(crate) mod flat;
pub(crate) mod limits;
pub(crate) mod lookups;
pub(crate) mod numbers;
pub(crate) mod order;
pub(crate) mod order_checks;
pub(crate) mod packed;
pub(crate) mod packed_checks;
pub(crate) mod packed_tables;
pub(crate) mod pointer_runs;
pub(crate) mod pointer_set;
pub(crate) mod pointers;
pub(crate) mod private_use;
pub(crate) mod ranges;
pub(crate) mod unpacking;
pub(crate) mod walks;

use checks::check_indexes;
pub use decoder_tables::DecoderTables;
pub use encoder_tables::EncoderTables;
pub use entries::Entry;
pub use flat::FlatTables;
pub use packed::{Packed, PackedPart, Run};
use packed_tables::{PackedTables, check_packed};
pub use private_use::GB18030_2022_PUA;
pub use ranges::{RangePart, Ranges};
use std::fmt;
use std::marker::Model;
use unpacking::unpack;
pub use walks::Marks;
use walks::{shortened, walk};

/// The names of the indexes (Encoding Standard, "Indexes").
#[derive(Clone, Copy, Debug, PartialEq, Eq)]
pub enum IndexName {
    /// Index Big5.
    Big5,
    /// Index EUC-KR.
    EucKr,
    /// Index jis0208.
    Jis0208,
    /// Index jis0212.
    Jis0212,
    /// Index gb18030.
    Gb18030,
    /// Index ISO-2022-JP katakana.
    Katakana,
    /// Index gb18030 ranges.
    Ranges,
}

impl IndexName {
    /// Returns the name of the index for messages.
    // In `fmt`, each name would be a separate path through the call.
    fn word(self) -> &'static str {
        match self {
            IndexName::Big5 => "big5",
            IndexName::EucKr => "euc-kr",
            IndexName::Jis0208 => "jis0208",
            IndexName::Jis0212 => "jis0212",
            IndexName::Gb18030 => "gb18030",
            IndexName::Katakana => "katakana",
            IndexName::Ranges => "ranges",
        }
    }
}

/// Writes the name of the index for messages.
impl fmt::Display for IndexName {
    fn fmt<W: fmt::Write>(&self, f: &mut fmt::Formatter<W>) -> fmt::Result {
        f.write_str(self.word())
    }
}

/// The reason why indexes or a single-byte table are refused.
#[derive(Drop, PartialEq, Eq)]
pub enum TableError {
    /// The index has more entries than pointers.
    TooLong(IndexName),
    /// The entry is not 0, and is not a scalar that the index may contain.
    BadEntry(IndexName, usize),
    /// The entry is not 0, though the decoder does not look it up.
    NotEmpty(IndexName, usize),
    /// The katakana index has neither 0 nor 63 entries.
    KatakanaLength,
    /// The range at the place starts past the last pointer, or too low for the range before it.
    RangeOrder(usize),
    /// The range at the place has a scalar below U+0080, past U+FFFF, or a surrogate.
    RangeValue(usize),
    /// The scalar of the private-use row at the place is not above that of the row before.
    PuaOrder(usize),
    /// The scalar of the private-use row at the place is outside U+E000 to U+F8FF, or is U+E5E5.
    PuaScalar(usize),
    /// The bytes of the private-use row at the place are no lead and trail of GB18030.
    ///
    /// The lead is outside 81 to FE, or the trail is outside 40 to 7E and 80 to FE.
    PuaBytes(usize),
    /// The run or the pointer at the place of the packed part is not in order.
    PackedOrder(PackedPart, usize),
    /// The packed part and the flat index give different results for the pointer.
    ///
    /// A run may contain U+0000 or the number of a surrogate, which no flat index gives.
    PackedDiffers(PackedPart, usize),
    /// The entry at the place is not 0, and is not a scalar that a single-byte table may contain.
    BadByteEntry(usize),
    /// The entry at the place is not 0, and is equal to an earlier entry.
    Repeated(usize),
}

impl TableError {
    /// Returns the name of the index or of the packed part, or nothing.
    fn name(&self) -> &'static str {
        match self {
            TableError::TooLong(name)
            | TableError::BadEntry(name, _)
            | TableError::NotEmpty(name, _) => name.word(),
            TableError::PackedOrder(part, _) | TableError::PackedDiffers(part, _) => part.word(),
            _ => "",
        }
    }

    /// Returns the place, if the message has one.
    fn place(&self) -> Option<usize> {
        match self {
            TableError::TooLong(_) | TableError::KatakanaLength => None,
            TableError::BadEntry(_, at) | TableError::NotEmpty(_, at) => Some(*at),
            TableError::PackedOrder(_, at) | TableError::PackedDiffers(_, at) => Some(*at),
            TableError::RangeOrder(at) | TableError::RangeValue(at) => Some(*at),
            TableError::PuaOrder(at) | TableError::PuaScalar(at) | TableError::PuaBytes(at) => Some(
                *at,
            ),
            TableError::BadByteEntry(at) | TableError::Repeated(at) => Some(*at),
        }
    }

    /// Returns the words before the name.
    fn first(&self) -> &'static str {
        match self {
            TableError::TooLong(_) | TableError::BadEntry(_, _) | TableError::NotEmpty(_, _) =>
                "index ",
            TableError::KatakanaLength => "index katakana must have 0 or 63 entries",
            TableError::RangeOrder(_) => "ranges are out of order at ",
            TableError::RangeValue(_) => "range ",
            TableError::PuaOrder(_) | TableError::PuaScalar(_) | TableError::PuaBytes(_) =>
                "private-use row ",
            TableError::PackedOrder(_, _) | TableError::PackedDiffers(_, _) => "packed ",
            TableError::BadByteEntry(_) | TableError::Repeated(_) => "single-byte entry ",
        }
    }

    /// Returns the words between the name and the place.
    fn middle(&self) -> &'static str {
        match self {
            TableError::TooLong(_) => " is too long",
            TableError::BadEntry(_, _) => " has a bad entry at ",
            TableError::NotEmpty(_, _) => " must be empty at ",
            TableError::PackedOrder(_, _) => " is out of order at ",
            TableError::PackedDiffers(_, _) => " differs at ",
            _ => "",
        }
    }

    /// Returns the words after the place.
    fn last(&self) -> &'static str {
        match self {
            TableError::RangeValue(_) | TableError::PuaScalar(_) => " has a bad scalar",
            TableError::PuaOrder(_) => " is out of order",
            TableError::PuaBytes(_) => " has bad bytes",
            TableError::BadByteEntry(_) => " is bad",
            TableError::Repeated(_) => " is repeated",
            _ => "",
        }
    }
}

/// Writes the message.
impl fmt::Display for TableError {
    // Here, each variant would be a separate path through every write.
    fn fmt<W: fmt::Write>(&self, f: &mut fmt::Formatter<W>) -> fmt::Result {
        f.write_str(self.first())?;
        f.write_str(self.name())?;
        f.write_str(self.middle())?;
        if let Some(place) = self.place() {
            write!(f, "{place}")?;
        }
        f.write_str(self.last())
    }
}

/// Writes the message.
impl fmt::Debug for TableError {
    fn fmt<W: fmt::Write>(&self, f: &mut fmt::Formatter<W>) -> fmt::Result {
        fmt::Display::fmt(self, f)
    }
}

impl std::error::Error for TableError {}

/// Flat indexes, not checked yet.
///
/// In each of the first six, entry `p` is the scalar value of pointer `p`, or 0 if the pointer has none. Pointers past
/// the end have none.
#[derive(Clone, Copy)]
pub struct Indexes<'a> {
    /// Index Big5, of at most 19782 entries.
    ///
    /// The entries of pointers 1133, 1135, 1164 and 1166 must be 0, because the decoder returns a letter and a
    /// combining mark for each.
    pub big5: &'a [u32],
    /// Index EUC-KR, of at most 23940 entries.
    pub euc_kr: &'a [u16],
    /// Index jis0208, of at most 11280 entries.
    ///
    /// The entries of pointers 8836 to 10715 must be 0, because they are U+E000 to U+E757 in Shift_JIS.
    pub jis0208: &'a [u16],
    /// Index jis0212, of at most 8836 entries.
    pub jis0212: &'a [u16],
    /// Index gb18030, of at most 23940 entries.
    pub gb18030: &'a [u16],
    /// Index ISO-2022-JP katakana, of 63 entries or none.
    pub katakana: &'a [u16],
    /// Index gb18030 ranges, by rising pointers.
    ///
    /// `(p, s)` gives pointer `p` the scalar value `s`, `p + 1` the scalar value `s + 1`, and so on, up to the
    /// pointer before the next range, or up to 39419. The list omits the range from 189000 on, which tables always
    /// have.
    pub ranges: &'a [(u16, u16)],
    /// The private-use rows of GB18030's encoder, by rising scalars.
    ///
    /// `(s, lead, trail)` gives the scalar value `s` these two bytes. `GB18030_2022_PUA` has the Standard's rows. No
    /// decoder reads them.
    pub gb18030_pua: &'a [(u16, u8, u8)],
}

impl Indexes<'_> {
    ghost use Rattle.legacy_tables.specs.Tables.{flat_indexes};
    ghost use Rattle.legacy_tables.specs.Walks.{IsFilled, order_index};
    ghost use Rattle.std.specs.Prelude.{◌≤◌, ◌≢◌, length};

    /// Fills a list with an entry for each scalar value, in one walk over an index of at most 23940 entries.
    ///
    /// The entry is the mark of the pointer that the order's codec uses for the scalar value, or 0 if it uses none.
    /// If the part is no order, the entry is the mark of the first pointer in the part's index.
    // Inlined, so that a walk contains no code of another codec.
    #[inline(always)]
    pub fn fill<M: Marks>(&self, part: PackedPart, marks: &M, entries: &mut [u16])
        ensures { let index = order_index (flat_indexes self.now) part in
            length index ≤ 23940 → IsFilled part M.mark index entries.new }
    {
        match part {
            PackedPart::Big5 | PackedPart::Big5Order => {
                walk(part, marks, &shortened(self.big5), entries)
            }
            _ => walk(part, marks, &shortened(self.narrow(part)), entries),
        }
    }

    /// Returns the index of a part, which is none of Big5's.
    #[inline(always)]
    fn narrow(&self, part: PackedPart) -> &[u16]
        ensures { part ≢ PackedPart.Big5 → part ≢ PackedPart.Big5Order →
            result.now ≡ order_index (flat_indexes self.now) part }
    {
        match part {
            PackedPart::EucKr | PackedPart::EucKrOrder => self.euc_kr,
            PackedPart::Jis0212 => self.jis0212,
            PackedPart::Gb18030 | PackedPart::Gb18030Order => self.gb18030,
            _ => self.jis0208,
        }
    }
}

/// Indexes that passed the check, in either form.
#[derive(Drop)]
enum KeptTables<'a> {
    /// Flat indexes.
    Flat(FlatTables<'a>),
    /// Runs and orders.
    Packed(PackedTables<'a>),
}

/// Indexes that passed the check.
///
/// In either form, their value is flat lists: those that the caller passed, or those that the runs give.
#[derive(Drop)]
pub struct Tables<'a> {
    kept: KeptTables<'a>,
}

/// Evaluates an expression with the tables in the form in which they are kept.
macro_rules! match_kept {
    ($tables:expr, $kept:ident => $value:expr) => {
        match &$tables.kept {
            KeptTables::Flat($kept) => $value,
            KeptTables::Packed($kept) => $value,
        }
    };
}

impl<'a> Model for Tables<'a> {
    ghost use Rattle.legacy_tables.specs.AcceptedTables.{AcceptedIndexes};
    ghost use Rattle.legacy_tables.specs.StoredTables.{coded_indexes};

    ghost Value = { AcceptedIndexes };

    ghost coded = { coded_indexes };

    ghost use Rattle.legacy_tables.specs.KeptTables.{kept_indexes};

    ghost view = { λ t. kept_indexes t.kept };
}

impl<'a> Tables<'a> {
    ghost use Rattle.legacy_tables.specs.Indexes.{idx, range, gb18030_pua_of};
    ghost use Rattle.legacy_tables.specs.TableChecks.{table_fault};
    ghost use Rattle.legacy_tables.specs.Tables.{flat_indexes, index_list, is_narrow_index};
    ghost use Rattle.legacy_tables.specs.Pointers.{big5_pointer_of, index_pointer_of};
    ghost use Rattle.legacy_tables.specs.Pointers.{shift_jis_pointer_of, euc_jp_pointer_of};
    ghost use Rattle.legacy_tables.specs.Pointers.{range_pointer_of};
    ghost use Rattle.std.specs.Option.{IfSome};
    ghost use Rattle.std.specs.Prelude.{◌<◌, ◌≤◌, length, true, MatchOption};
    ghost use Rattle.legacy_tables.specs.Packed.{packed_fault, ArePackedTables};

    /// Returns the tables of the indexes, or the first fault.
    ///
    /// The indexes are checked in the order of the fields:
    ///
    /// - of each index, first the length, then the entries by rising pointers;
    /// - of the ranges, first their order, then their scalars;
    /// - of the private-use rows, one row after the other: its order, its scalar and its bytes.
    ///
    /// Empty indexes are accepted. No memory is allocated, and the slices stay borrowed.
    pub fn new(indexes: &Indexes<'a>) -> Result<Tables<'a>, TableError>
        ensures { MatchResult result
            (λ tables. tables.flat ≡ flat_indexes indexes.now)
            (λ fault. table_fault (flat_indexes indexes.now) ≡ Some fault) }
    {
        check_indexes(indexes)?;
        Ok(Tables {
            kept: KeptTables::Flat(FlatTables::of(indexes)),
        })
    }

    /// Returns the tables of packed indexes that agree with the flat indexes, or the first fault.
    ///
    /// The flat indexes are checked first, as by `new`. Then the ten packed parts are checked in the order of their
    /// fields, each first for its order. No memory is allocated, and all slices stay borrowed.
    pub fn packed_of(indexes: &Indexes<'a>, packed: &Packed<'a>) -> Result<Tables<'a>, TableError>
        ensures { MatchResult result
            (λ tables. ArePackedTables (flat_indexes indexes.now) packed.now tables.flat)
            (λ fault. packed_fault (flat_indexes indexes.now) packed.now ≡ Some fault) }
    {
        check_packed(indexes, packed)?;
        Ok(Tables {
            kept: KeptTables::Packed(PackedTables::of(indexes, packed)),
        })
    }

    /// Writes index Big5 as a flat index into `room`, and returns it. Other entries of `room` may change.
    ///
    /// Returns `None` exactly if `room` is shorter than the index. Tables made of flat indexes look pointers up
    /// without a search.
    #[tactic(auto, using(crate::proofs::PackedAccepted::entry_bounds))]
    pub fn unpack_big5<'b>(&self, room: &'b mut [u32]) -> Option<&'b [u32]>
        ensures { MatchOption result (length room.old < length self.now.flat.big5)
            (λ flat. (flat.now ≡ self.now.flat.big5) × (length self.now.flat.big5 ≤ length room.old)) }
    {
        match &self.kept {
            KeptTables::Flat(tables) => unpack(&tables.wide(), room),
            KeptTables::Packed(tables) => tables.unpack_big5(room),
        }
    }

    /// Writes the named index as a flat index into `room`, and returns it. Other entries of `room` may change.
    ///
    /// The name must be `EucKr`, `Jis0208`, `Jis0212` or `Gb18030`. Returns `None` exactly if `room` is shorter than the
    /// index.
    #[tactic(auto, using(crate::proofs::PackedAccepted::entry_bounds))]
    pub fn unpack<'b>(&self, name: IndexName, room: &'b mut [u16]) -> Option<&'b [u16]>
        requires { is_narrow_index name ≡ true }
        ensures { MatchOption result (length room.old < length (index_list self.now.flat name))
            (λ flat. (flat.now ≡ index_list self.now.flat name)
            × (length (index_list self.now.flat name) ≤ length room.old)) }
    {
        match &self.kept {
            KeptTables::Flat(tables) => unpack(&tables.narrow(name), room),
            KeptTables::Packed(tables) => tables.unpack_narrow(name, room),
        }
    }

    /// Returns the scalar value of a pointer in the named index (Encoding Standard, "index code point").
    ///
    /// Returns `None` if the entry is 0, or if the pointer is past the index's end. Always returns `None` for
    /// `Ranges`, whose pointers `range` looks up.
    #[inline]
    pub fn idx(&self, name: IndexName, pointer: usize) -> Option<char>
        ensures { result ≡ idx (index_list self.now.flat name) pointer }
    {
        match_kept!(self, tables => tables.idx(name, pointer))
    }

    /// Returns the scalar value of a pointer of four bytes, or `None` if it has none.
    ///
    /// 7457 gives U+E7C7, and 189000 to 1237575 give U+10000 to U+10FFFF. The other pointers up to 39419 use the
    /// last range that starts at or before them (Encoding Standard, "index gb18030 ranges code point").
    pub fn range(&self, pointer: usize) -> Option<char>
        ensures { result ≡ range self.now.flat.ranges pointer }
    {
        self.ranges().scalar(pointer)
    }

    /// Returns the pointer that the Big5 encoder uses for the scalar value, or `None`.
    ///
    /// It is at least 5024. For U+2550, U+255E, U+2561, U+256A, U+5341 and U+5345 it is the last such pointer, and
    /// for other scalar values the first one (Encoding Standard, "index Big5 pointer"). Returns `None` if there is no
    /// such pointer. Flat tables search the index from 5024 on.
    #[inline]
    pub fn big5_pointer(&self, scalar: char) -> Option<usize>
        ensures pointer { result ≡ big5_pointer_of self.now.flat.big5 scalar }
        ensures within { IfSome result (λ p. p < 19782) }
    {
        match_kept!(self, tables => tables.big5_pointer(scalar))
    }

    /// Returns the first pointer of the scalar value in index EUC-KR, or `None` if it has none.
    ///
    /// Flat tables search the index (Encoding Standard, "index pointer").
    #[inline]
    pub fn euc_kr_pointer(&self, scalar: char) -> Option<usize>
        ensures pointer { result ≡ index_pointer_of self.now.flat.euc_kr scalar }
        ensures within { IfSome result (λ p. p < 23940) }
    {
        match_kept!(self, tables => tables.euc_kr_pointer(scalar))
    }

    /// Returns the pointer that the Shift_JIS encoder uses for the scalar value, or `None`.
    ///
    /// It is the first pointer in index jis0208 outside 8272 to 8835 (Encoding Standard, "index Shift_JIS pointer").
    /// Returns `None` if there is no such pointer. Flat tables search the index.
    #[inline]
    pub fn shift_jis_pointer(&self, scalar: char) -> Option<usize>
        ensures pointer { result ≡ shift_jis_pointer_of self.now.flat.jis0208 scalar }
        ensures within { IfSome result (λ p. p < 11280) }
    {
        match_kept!(self, tables => tables.shift_jis_pointer(scalar))
    }

    /// Returns the pointer that the EUC-JP and ISO-2022-JP encoders use for the scalar value, or `None`.
    ///
    /// It is the first pointer in index jis0208 (Encoding Standard, "index pointer"). Returns `None` if there is no
    /// pointer below 8836, because the sequences of these encodings reach no other pointer. Flat tables search the
    /// index.
    #[inline]
    pub fn euc_jp_pointer(&self, scalar: char) -> Option<usize>
        ensures pointer { result ≡ euc_jp_pointer_of self.now.flat.jis0208 scalar }
        ensures within { IfSome result (λ p. p < 8836) }
    {
        match_kept!(self, tables => tables.euc_jp_pointer(scalar))
    }

    /// Returns the first pointer of the scalar value in index gb18030, or `None` if it has none.
    ///
    /// Flat tables search the index (Encoding Standard, "index pointer").
    #[inline]
    pub fn gb18030_pointer(&self, scalar: char) -> Option<usize>
        ensures pointer { result ≡ index_pointer_of self.now.flat.gb18030 scalar }
        ensures within { IfSome result (λ p. p < 23940) }
    {
        match_kept!(self, tables => tables.gb18030_pointer(scalar))
    }

    /// Returns the pointer of four bytes that has the scalar value, or `None` if there is none.
    ///
    /// It is 7457 for U+E7C7, and 189000 to 1237575 for U+10000 to U+10FFFF. For other scalar values a binary search
    /// finds the last range whose scalars begin at or before the scalar value (Encoding Standard, "index gb18030
    /// ranges pointer").
    #[inline]
    pub fn range_pointer(&self, scalar: char) -> Option<usize>
        ensures pointer { result ≡ range_pointer_of self.now.flat.ranges scalar }
        ensures within { IfSome result (λ p. p < 1237576) }
    {
        self.ranges().pointer(scalar)
    }

    /// Returns the lead and the trail that a private-use row gives the scalar value.
    ///
    /// Returns `None` if no row has the scalar value (Encoding Standard, "gb18030 encoder"). The rows are searched
    /// by a binary search.
    #[inline]
    pub fn gb18030_pua_bytes(&self, scalar: char) -> Option<(u8, u8)>
        ensures { result ≡ gb18030_pua_of self.now.flat.gb18030_pua scalar }
    {
        match_kept!(self, tables => tables.gb18030_pua_bytes(scalar))
    }
}

impl<'a> DecoderTables for Tables<'a> {
    ghost indexes = { λ t. t };

    #[inline]
    fn idx(&self, name: IndexName, pointer: usize) -> Option<char> {
        Tables::idx(self, name, pointer)
    }

    #[inline]
    fn ranges(&self) -> Ranges<'_> {
        match_kept!(self, tables => tables.ranges())
    }

    #[inline]
    fn flat(&self) -> Option<&FlatTables<'_>> {
        match &self.kept {
            KeptTables::Flat(tables) => Some(tables),
            KeptTables::Packed(_) => None,
        }
    }
}

impl<'a> EncoderTables for Tables<'a> {
    #[inline]
    fn big5_pointer(&self, scalar: char) -> Option<usize> {
        Tables::big5_pointer(self, scalar)
    }

    #[inline]
    fn euc_kr_pointer(&self, scalar: char) -> Option<usize> {
        Tables::euc_kr_pointer(self, scalar)
    }

    #[inline]
    fn shift_jis_pointer(&self, scalar: char) -> Option<usize> {
        Tables::shift_jis_pointer(self, scalar)
    }

    #[inline]
    fn euc_jp_pointer(&self, scalar: char) -> Option<usize> {
        Tables::euc_jp_pointer(self, scalar)
    }

    #[inline]
    fn gb18030_pointer(&self, scalar: char) -> Option<usize> {
        Tables::gb18030_pointer(self, scalar)
    }

    #[inline]
    fn gb18030_pua_bytes(&self, scalar: char) -> Option<(u8, u8)> {
        Tables::gb18030_pua_bytes(self, scalar)
    }

    fn gb18030_rows(&self) -> &[(u16, u8, u8)] {
        match_kept!(self, tables => tables.gb18030_rows())
    }

    #[inline(always)]
    fn fill<M: Marks>(&self, part: PackedPart, marks: &M, entries: &mut [u16]) {
        match_kept!(self, tables => tables.fill(part, marks, entries))
    }
}
