//! A range of index gb18030 ranges.

/// The first pointer of a range, and its scalar value.
#[repr(C)]
#[derive(Clone, Copy)]
pub struct IndexRange {
    /// The pointer.
    pub pointer: u16,
    /// The scalar value.
    pub scalar: u16,
}
