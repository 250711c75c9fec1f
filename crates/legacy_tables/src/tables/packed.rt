//! Indexes as runs, orders of their pointers, and the names of these parts.

use std::fmt;

/// Consecutive pointers with consecutive scalar values.
// It has the layout of C, so that a caller in C can lend runs.
#[repr(C)]
#[derive(Clone, Copy, Debug, PartialEq, Eq)]
pub struct Run {
    /// The first pointer.
    pub pointer: u16,
    /// The scalar value of the first pointer. The next pointer has the next scalar value, and so on.
    pub scalar: u32,
    /// The number of pointers.
    pub length: u16,
}

/// Packed indexes, not checked yet.
///
/// They are the runs of the indexes and, for each codec, the pointers that its encoder uses, in the order of their
/// scalar values.
// It has the layout of C, so that a caller in C can lend them.
#[repr(C)]
#[derive(Drop)]
pub struct Packed<'a> {
    /// Index Big5.
    pub big5: &'a [Run],
    /// Index EUC-KR.
    pub euc_kr: &'a [Run],
    /// Index jis0208.
    pub jis0208: &'a [Run],
    /// Index jis0212.
    pub jis0212: &'a [Run],
    /// Index gb18030.
    pub gb18030: &'a [Run],
    /// The pointers of Big5's encoder, which are at least 5024.
    ///
    /// They are the last pointers of U+2550, U+255E, U+2561, U+256A, U+5341 and U+5345, and the first pointers of
    /// the other scalars.
    pub big5_order: &'a [u16],
    /// The pointers of EUC-KR's encoder: the first one of each scalar.
    pub euc_kr_order: &'a [u16],
    /// The pointers of Shift_JIS's encoder: the first one of each scalar in jis0208 outside 8272 to 8835.
    pub shift_jis_order: &'a [u16],
    /// The pointers of EUC-JP's and ISO-2022-JP's encoders: the first one of each scalar in jis0208 below 8836.
    pub euc_jp_order: &'a [u16],
    /// The pointers of GB18030's encoder: the first one of each scalar.
    pub gb18030_order: &'a [u16],
}

/// The names of the parts of packed indexes.
#[derive(Clone, Copy, Debug, PartialEq, Eq)]
pub enum PackedPart {
    /// The runs of index Big5.
    Big5,
    /// The runs of index EUC-KR.
    EucKr,
    /// The runs of index jis0208.
    Jis0208,
    /// The runs of index jis0212.
    Jis0212,
    /// The runs of index gb18030.
    Gb18030,
    /// The pointers of Big5's encoder.
    Big5Order,
    /// The pointers of EUC-KR's encoder.
    EucKrOrder,
    /// The pointers of Shift_JIS's encoder.
    ShiftJisOrder,
    /// The pointers of the encoders of EUC-JP and ISO-2022-JP.
    EucJpOrder,
    /// The pointers of GB18030's encoder.
    Gb18030Order,
}

impl PackedPart {
    /// Returns the name of the part for messages.
    // In `fmt`, each name would be a separate path through the call.
    pub(crate) fn word(self) -> &'static str {
        match self {
            PackedPart::Big5 => "big5",
            PackedPart::EucKr => "euc-kr",
            PackedPart::Jis0208 => "jis0208",
            PackedPart::Jis0212 => "jis0212",
            PackedPart::Gb18030 => "gb18030",
            PackedPart::Big5Order => "big5-order",
            PackedPart::EucKrOrder => "euc-kr-order",
            PackedPart::ShiftJisOrder => "shift-jis-order",
            PackedPart::EucJpOrder => "euc-jp-order",
            PackedPart::Gb18030Order => "gb18030-order",
        }
    }
}

/// Writes the name of the part for messages.
impl fmt::Display for PackedPart {
    fn fmt<W: fmt::Write>(&self, f: &mut fmt::Formatter<W>) -> fmt::Result {
        f.write_str(self.word())
    }
}
