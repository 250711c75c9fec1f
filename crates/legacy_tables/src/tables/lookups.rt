//! Look-ups in checked indexes.
ghost use Rattle.std.specs.Prelude.{◌≡◌, ℕ, ◌<◌, ◌≤◌, None, length};
ghost use Rattle.std.specs.Prelude.{slice_index_or};
ghost use Rattle.std.specs.Char.{IsScalar};
ghost use Rattle.legacy_tables.specs.Unicode.{AreScalars};
ghost use Rattle.legacy_tables.specs.Indexes.{entry_scalar, idx, last_range_scalar, range};
ghost use Rattle.legacy_tables.specs.TableChecks.{range_order_fault, range_value_fault};

use super::limits::{E7C7_POINTER, FIRST_SUPPLEMENTARY_POINTER, LAST_POINTER, LAST_RANGE_POINTER};
use super::numbers::{Numbers, number_at};

/// Returns the scalar of an entry, or `None` if the entry is 0.
// The check of the tables has shown that entries are scalars. To test it again would be a branch in each look-up.
#[inline]
pub(super) fn scalar_of(entry: usize) -> Option<char>
    requires { IsScalar entry }
    ensures { result ≡ entry_scalar entry }
{
    if entry == 0 {
        return None;
    }
    Some(unsafe { char::from_u32_unchecked(entry as u32) })
}

/// Returns the scalar of a pointer in an index.
#[tactic(auto, using(crate::proofs::PackedAccepted::entry_scalars))]
#[inline]
pub(crate) fn scalar_in<N: Numbers>(index: &N, pointer: usize) -> Option<char>
    requires { AreScalars (N.numbers index.now) }
    ensures { result ≡ idx (N.numbers index.now) pointer }
{
    scalar_of(number_at(index, pointer))
}

/// Returns the number of ranges that start at or before a pointer. Ranges rise, so these are the first ones.
#[inline]
pub(super) fn started_count(ranges: &[(u16, u16)], pointer: usize) -> usize
    requires { range_order_fault 0 None ranges.now ≡ None }
    ensures within { result ≤ length ranges.now }
    ensures started { (k : ℕ) → k < result → (slice_index_or ranges.now k (0, 0)).0 ≤ pointer }
    ensures ahead { (k : ℕ) → result ≤ k → k < length ranges.now →
        pointer < (slice_index_or ranges.now k (0, 0)).0 }
{
    ranges.partition_point(|range| usize::from(range.0) <= pointer)
}

/// Returns the scalar that the last range that starts at or before a pointer gives it.
// It is computed in 16 bits, so that the code that writes it needs no test for scalars past U+FFFF.
#[inline]
fn last_range(ranges: &[(u16, u16)], pointer: usize) -> Option<char>
    requires reached { pointer ≤ 39419 }
    requires ordered { range_order_fault 0 None ranges.now ≡ None }
    requires valued { range_value_fault 0 ranges.now ≡ None }
    ensures { result ≡ last_range_scalar ranges.now pointer }
{
    let count = started_count(ranges, pointer);
    if count == 0 {
        return None;
    }
    let (first, scalar) = ranges[count - 1];
    let unit = scalar + (pointer - usize::from(first)) as u16;
    Some(unsafe { char::from_u32_unchecked(u32::from(unit)) })
}

/// Returns the scalar of a pointer of four bytes.
#[inline]
#[tactic(auto, unfolding(crate::specs::Indexes::range))]
pub(super) fn range_scalar(ranges: &[(u16, u16)], pointer: usize) -> Option<char>
    requires ordered { range_order_fault 0 None ranges.now ≡ None }
    requires valued { range_value_fault 0 ranges.now ≡ None }
    ensures { result ≡ range ranges.now pointer }
{
    if pointer == E7C7_POINTER {
        return Some('\u{E7C7}');
    }
    if pointer <= usize::from(LAST_RANGE_POINTER) {
        return last_range(ranges, pointer);
    }
    if pointer >= FIRST_SUPPLEMENTARY_POINTER && pointer <= LAST_POINTER {
        return char::from_u32(0x1_0000 + (pointer - FIRST_SUPPLEMENTARY_POINTER) as u32);
    }
    None
}
