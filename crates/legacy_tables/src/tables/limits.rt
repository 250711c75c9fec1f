//! The lengths of the indexes, and the pointers that are compared with in more than one place.

/// The number of pointers of index Big5.
pub(super) const BIG5_POINTERS: usize = 19782;

/// The number of pointers of index EUC-KR.
pub(super) const EUC_KR_POINTERS: usize = 23940;

/// The number of pointers of index jis0208.
pub(super) const JIS0208_POINTERS: usize = 11280;

/// The number of pointers of index jis0212.
pub(super) const JIS0212_POINTERS: usize = 8836;

/// The number of pointers of index gb18030. No index of pairs has more.
pub(super) const GB18030_POINTERS: usize = 23940;

/// The first pointer that Big5's encoder may use.
pub(super) const FIRST_BIG5_ENCODER_POINTER: usize = 5024;

/// The first pointer of index jis0208 that Shift_JIS's encoder never uses.
pub(super) const FIRST_SKIPPED_POINTER: usize = 8272;

/// The last pointer of index jis0208 that Shift_JIS's encoder never uses.
pub(super) const LAST_SKIPPED_POINTER: usize = 8835;

/// The number of pointers of index jis0208 that sequences of EUC-JP and ISO-2022-JP reach: 94 rows of 94.
pub(super) const EUC_JP_POINTERS: usize = 8836;

/// The greatest pointer of the ranges.
pub(super) const LAST_RANGE_POINTER: u16 = 39419;

/// The pointer of four bytes of U+E7C7, whatever the ranges say.
pub(super) const E7C7_POINTER: usize = 7457;

/// The pointer of four bytes of U+10000.
pub(super) const FIRST_SUPPLEMENTARY_POINTER: usize = 189000;

/// The pointer of four bytes of U+10FFFF, the greatest that has a scalar.
pub(super) const LAST_POINTER: usize = 1237575;
