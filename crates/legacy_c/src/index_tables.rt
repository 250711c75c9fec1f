//! The indexes of a C caller, and whether they were checked.
ghost use Rattle.std.specs.Prelude.{◌≡◌};
ghost use Rattle.legacy_c.specs.Lists.{AreChecked, IsCheckedTable};

use crate::index_range::IndexRange;

/// The indexes, and whether they were checked.
///
/// The caller sets both flags to 0. Only `legacy_tables_check` sets `checked` to 1, and only
/// `legacy_single_byte_check` sets `single_byte_checked` to 1. After that nothing changes.
#[repr(C)]
#[derive(Drop)]
pub struct IndexTables<'a> {
    /// Index Big5.
    pub big5: &'a [u32],
    /// Index EUC-KR.
    pub euc_kr: &'a [u16],
    /// Index jis0208.
    pub jis0208: &'a [u16],
    /// Index jis0212.
    pub jis0212: &'a [u16],
    /// Index gb18030.
    pub gb18030: &'a [u16],
    /// Index ISO-2022-JP katakana.
    pub katakana: &'a [u16],
    /// Index gb18030 ranges, by rising pointers.
    pub ranges: &'a [IndexRange],
    /// The index of a single-byte encoding.
    pub single_byte: &'a [u16],
    /// 1 if the first seven indexes were checked and accepted.
    pub checked: u32,
    /// 1 if the index of a single-byte encoding was checked and accepted.
    pub single_byte_checked: u32,
    ghost accepted: { checked ≡ 1 → AreChecked big5.now euc_kr.now jis0208.now jis0212.now gb18030.now katakana.now ranges.now },
    ghost accepted_table: { single_byte_checked ≡ 1 → IsCheckedTable single_byte.now },
}
