//! Walks over the pointers of an index, which fill a list of entries by scalar.
//!
//! One pass over the index finds the pointers of all scalars, without a search.
ghost use Rattle.std.specs.Prelude.{◌≡◌, ◌≢◌, ℕ, ◌==◌, ◌+◌, ◌<◌, ◌≤◌, List, length, slice_index};
ghost use Rattle.legacy_tables.specs.Walks.{is_preferred, marked_then};
ghost use Rattle.legacy_tables.specs.Walks.{IsFilledBelow, IsFilled};

use super::limits::GB18030_POINTERS;
use super::numbers::{Numbers, Row};
use super::order_checks::{is_usable, takes_last_of};
use super::packed::PackedPart;

/// Marks of pointers. A mark is a number other than 0, which a list contains for the pointer.
pub trait Marks {
    ghost mark: { ℕ → ℕ };

    /// Returns the mark of the pointer.
    fn mark(&self, pointer: usize) -> u16
        requires { pointer < 23940 }
        ensures { result ≡ mark pointer };

    /// No mark is 0.
    ghost some: { (p : ℕ) → mark p ≢ 0 };
}

/// Checks whether the codec prefers the pointer to the earlier ones of its scalar. With `free` it uses none of these.
#[inline(always)]
fn is_taken(part: PackedPart, scalar: usize, free: bool, pointer: usize) -> bool
    ensures { result ≡ is_preferred part scalar free pointer }
{
    scalar != 0 && is_usable(part, pointer) && (free || takes_last_of(part, scalar))
}

/// Writes the mark of a pointer into the list if the codec prefers it to the earlier ones.
#[inline(always)]
fn take_pointer<M: Marks>(
    part: PackedPart,
    marks: &M,
    entries: &mut [u16],
    scalar: usize,
    pointer: usize,
)
    requires { pointer < 23940 }
    ensures { (c : ℕ) → c < length entries.old → slice_index entries.new c
        ≡ marked_then part M.mark scalar pointer c (slice_index entries.old c) }
{
    if scalar < entries.len() && is_taken(part, scalar, entries[scalar] == 0, pointer) {
        entries[scalar] = marks.mark(pointer);
    }
}

/// Writes the marks of consecutive pointers with consecutive scalars, each as `take_pointer` does.
#[inline(always)]
fn take_row<M: Marks>(part: PackedPart, marks: &M, entries: &mut [u16], row: Row)
    requires within { row.pointer + row.count ≤ 23940 }
    requires small { row.scalar + row.count ≤ 0x1_0000_0000 }
    ensures { (index : List ℕ) →
        ((k : ℕ) → k < row.count → slice_index index (row.pointer + k) ≡ row.scalar + k) →
        IsFilledBelow part M.mark index row.pointer entries.old →
        IsFilledBelow part M.mark index (row.pointer + row.count) entries.new }
{
    for at in 0..row.count {
        take_pointer(part, marks, entries, row.scalar + at, row.pointer + at);
    }
}

/// Returns the entries of the pointers below 23940.
#[inline(always)]
pub(super) fn shortened<T>(index: &[T]) -> &[T]
    ensures few { length result.now ≤ 23940 }
    ensures all { length index.now ≤ 23940 → result.now ≡ index.now }
{
    &index[..index.len().min(GB18030_POINTERS)]
}

/// Fills a list with the marks of the pointers that the codec uses in an index.
#[inline(always)]
pub(super) fn walk<N: Numbers, M: Marks>(
    part: PackedPart,
    marks: &M,
    index: &N,
    entries: &mut [u16],
)
    requires { length (N.numbers index.now) ≤ 23940 }
    ensures { IsFilled part M.mark (N.numbers index.now) entries.new }
{
    entries.fill(0);
    let mut place = 0;
    let mut pointer = 0;
    let end = index.count();
    while pointer < end {
        let row = index.row(place, pointer);
        take_row(part, marks, entries, row);
        pointer = row.pointer + row.count;
        place = row.next;
    }
}
