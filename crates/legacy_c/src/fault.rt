//! The faults of indexes, as numbers.
ghost use Rattle.std.specs.Prelude.{◌≡◌};
ghost use Rattle.legacy_c.specs.Faults as faults;

use legacy_base::{IndexName, TableError};

/// The first fault of indexes.
#[repr(C)]
#[derive(Clone, Copy)]
pub struct Fault {
    /// 0: there is none. The header has the other numbers.
    pub kind: u32,
    /// The number of the index, or 0.
    pub index: u32,
    /// The place in the index, or 0.
    pub place: usize,
}

impl Fault {
    /// No fault.
    pub const NONE: Fault = Fault {
        kind: 0,
        index: 0,
        place: 0,
    };

    /// Returns the fault of these numbers.
    pub fn of(kind: u32, index: u32, place: usize) -> Fault
        ensures { result ≡ faults.fault kind index place }
    {
        Fault { kind, index, place }
    }
}

/// Returns the number of an index.
fn index_number(name: IndexName) -> u32
    ensures { result ≡ faults.index_number name }
{
    match name {
        IndexName::Big5 => 1,
        IndexName::EucKr => 2,
        IndexName::Jis0208 => 3,
        IndexName::Jis0212 => 4,
        IndexName::Gb18030 => 5,
        IndexName::Katakana => 6,
        IndexName::Ranges => 7,
    }
}

/// Returns the numbers of a fault.
pub fn fault_numbers(error: TableError) -> Fault
    ensures { result ≡ faults.fault_numbers error }
{
    match error {
        TableError::TooLong(name) => Fault::of(1, index_number(name), 0),
        TableError::BadEntry(name, place) => Fault::of(2, index_number(name), place),
        TableError::NotEmpty(name, place) => Fault::of(3, index_number(name), place),
        TableError::KatakanaLength => Fault::of(4, 6, 0),
        TableError::RangeOrder(place) => Fault::of(5, 7, place),
        TableError::RangeValue(place) => Fault::of(6, 7, place),
        TableError::BadByteEntry(place) => Fault::of(7, 8, place),
        TableError::Repeated(place) => Fault::of(8, 8, place),
        TableError::PuaOrder(place)
        | TableError::PuaScalar(place)
        | TableError::PuaBytes(place)
        | TableError::PackedOrder(_, place)
        | TableError::PackedDiffers(_, place) => Fault::of(11, 0, place),
    }
}
