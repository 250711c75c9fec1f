//! The ranges of gb18030, and the pointers of one range, which a run of four-byte sequences keeps.
ghost use Rattle.std.specs.Prelude.{◌≡◌, ◌≢◌, ℕ, ◌+◌, ◌-◌, ◌<◌, ◌≤◌, None, IfSome};
ghost use Rattle.std.specs.Prelude.{length, slice_index_or};
ghost use Rattle.legacy_tables.specs.Indexes.{range};
ghost use Rattle.legacy_tables.specs.Pointers.{range_pointer_of};
ghost use Rattle.legacy_tables.specs.RangeParts.{IsRangePart, IsPartAt, IsPartWith};
ghost use Rattle.legacy_tables.specs.TableChecks.{range_order_fault, range_value_fault};

use super::checks::end_of;
use super::limits::E7C7_POINTER;
use super::lookups::{range_scalar, started_count};
use super::pointers::{range_pointer, ranges_up_to};

/// Consecutive pointers of four bytes with consecutive scalar values.
///
/// Pointer 7457 is an exception: its scalar value is U+E7C7.
#[derive(Clone, Copy)]
pub struct RangePart {
    /// The first pointer.
    pub first: u32,
    /// The number of pointers.
    pub count: u32,
    /// The scalar value of the first pointer.
    pub scalar: u32,
}

impl RangePart {
    /// Returns a part without pointers.
    #[inline(always)]
    pub fn none() -> RangePart
        ensures first { result.first ≡ 0 }
        ensures count { result.count ≡ 0 }
        ensures scalar { result.scalar ≡ 0 }
    {
        RangePart {
            first: 0,
            count: 0,
            scalar: 0,
        }
    }
}

/// Returns the offset of a number among `count` consecutive numbers from `first` on, or `None` if it is not among them.
// One comparison tests both bounds.
#[inline(always)]
fn offset(first: u32, number: u32, count: u32) -> Option<u32>
    requires { first + count ≤ 0x1_0000_0000 }
    ensures among { IfSome result (λ at. (first + at ≡ number) × (at < count)) }
    ensures outside { result ≡ None → first ≤ number → first + count ≤ number }
{
    let at = number.wrapping_sub(first);
    if at < count { Some(at) } else { None }
}

/// The ranges of checked tables.
#[derive(Clone, Copy)]
pub struct Ranges<'a> {
    list: &'a [(u16, u16)],
    ghost ordered: { range_order_fault 0 None list.now ≡ None },
    ghost valued: { range_value_fault 0 list.now ≡ None },
}

impl<'a> Ranges<'a> {
    /// Makes the ranges of a list that passed the check.
    #[inline(always)]
    pub(super) fn new(list: &'a [(u16, u16)]) -> Ranges<'a>
        requires ordered { range_order_fault 0 None list.now ≡ None }
        requires valued { range_value_fault 0 list.now ≡ None }
        ensures { result.list.now ≡ list.now }
    {
        Ranges { list }
    }

    /// Returns what `Tables::range` does.
    #[inline]
    pub fn scalar(&self, pointer: usize) -> Option<char>
        ensures { result ≡ range self.now.list.now pointer }
    {
        range_scalar(self.list, pointer)
    }

    /// Returns what `Tables::range_pointer` does.
    #[inline]
    #[tactic(auto, using(crate::proofs::PointerBounds::bounds))]
    pub fn pointer(&self, scalar: char) -> Option<usize>
        ensures pointer { result ≡ range_pointer_of self.now.list.now scalar }
        ensures within { IfSome result (λ p. p < 1237576) }
    {
        range_pointer(self.list, scalar)
    }

    /// Returns the pointers of the range at a place, or no pointers past the last range.
    #[inline(always)]
    pub fn part_at(&self, place: usize) -> RangePart
        ensures part { IsRangePart self.now.list.now result }
        ensures at { IsPartAt self.now.list.now place result }
    {
        if place >= self.list.len() {
            return RangePart::none();
        }
        let (first, scalar) = self.list[place];
        let count = u32::from(end_of(self.list, place)) - u32::from(first);
        RangePart {
            first: u32::from(first),
            count,
            scalar: u32::from(scalar),
        }
    }

    /// Returns the place of the last range that starts at or before a pointer, or 0 if there is none.
    #[inline]
    pub fn place_of(&self, pointer: usize) -> usize
        ensures within { 0 < result → result < length self.now.list.now }
        ensures started { 0 < result → (slice_index_or self.now.list.now result (0, 0)).0 ≤ pointer }
        ensures ahead { (k : ℕ) → result < k → k < length self.now.list.now →
            pointer < (slice_index_or self.now.list.now k (0, 0)).0 }
    {
        started_count(self.list, pointer).saturating_sub(1)
    }

    /// Returns the pointers of the last range whose scalar values begin at or before the given one.
    ///
    /// If there is no such range, it returns the pointers of the first range.
    #[inline]
    pub fn part_with(&self, scalar: char) -> RangePart
        ensures part { IsRangePart self.now.list.now result }
        ensures with_scalar { IsPartWith self.now.list.now scalar result }
    {
        self.part_at(ranges_up_to(self.list, u32::from(scalar) as usize).saturating_sub(1))
    }

    /// Returns the scalar value of a pointer, or `None` if the part does not have it or it is 7457.
    #[inline(always)]
    pub fn scalar_in(&self, part: RangePart, pointer: usize) -> Option<char>
        requires part { IsRangePart self.now.list.now part }
        requires small { pointer < 0x1_0000_0000 }
        ensures given { IfSome result (λ c. range self.now.list.now pointer ≡ Some c) }
        ensures within { IfSome result (λ c. (part.first ≤ pointer) × (pointer < part.first + part.count)
            × (pointer ≢ 7457)) }
        ensures outside { result ≡ None → part.first ≤ pointer → pointer < part.first + part.count →
            pointer ≡ 7457 }
    {
        let at = offset(part.first, pointer as u32, part.count)?;
        if pointer == E7C7_POINTER {
            return None;
        }
        let unit = (part.scalar + at) as u16;
        Some(unsafe { char::from_u32_unchecked(u32::from(unit)) })
    }

    /// Returns the pointer of a scalar value other than U+E7C7, or `None` if no pointer of the part has it.
    #[inline(always)]
    pub fn pointer_in(&self, part: RangePart, scalar: char) -> Option<usize>
        requires part { IsRangePart self.now.list.now part }
        requires free { scalar ≢ 0xE7C7 }
        ensures given { IfSome result (λ p. range_pointer_of self.now.list.now scalar ≡ Some p) }
        ensures within { IfSome result (λ p. (part.first ≤ p) × (p < part.first + part.count) × (p ≢ 7457)) }
        ensures outside { result ≡ None → part.scalar ≤ scalar → scalar < part.scalar + part.count →
            part.first + (scalar - part.scalar) ≡ 7457 }
    {
        let at = offset(part.scalar, u32::from(scalar), part.count)?;
        let pointer = part.first + at;
        if pointer == E7C7_POINTER as u32 {
            return None;
        }
        Some(pointer as usize)
    }
}
