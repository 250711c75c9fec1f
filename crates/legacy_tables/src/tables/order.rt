//! Orders of pointers by their scalar values, and the look-up of a scalar in them.
//!
//! The look-up is a binary search, with a look-up in the index at each step.
ghost use Rattle.std.specs.Prelude.{◌≡◌, ℕ, ◌<◌, ◌≤◌, length, slice_index};
ghost use Rattle.legacy_tables.specs.Orders.{RisesBy, order_pointer};

use super::numbers::{Numbers, number_at};

/// Returns the number of pointers in an order whose scalars are below the given one.
#[inline]
fn count_below<N: Numbers>(index: &N, order: &[u16], scalar: usize) -> usize
    requires { RisesBy (N.numbers index.now) order.now }
    ensures within { result ≤ length order.now }
    ensures below { (k : ℕ) → k < result →
        slice_index (N.numbers index.now) (slice_index order.now k) < scalar }
    ensures from { (k : ℕ) → result ≤ k → k < length order.now →
        scalar ≤ slice_index (N.numbers index.now) (slice_index order.now k) }
{
    order.partition_point(|pointer| number_at(index, usize::from(*pointer)) < scalar)
}

/// Returns the pointer that an order has for a scalar value.
#[inline]
pub(super) fn pointer_in_order<N: Numbers>(index: &N, order: &[u16], scalar: usize) -> Option<usize>
    requires { RisesBy (N.numbers index.now) order.now }
    ensures { result ≡ order_pointer (N.numbers index.now) order.now scalar }
{
    let place = count_below(index, order, scalar);
    if place == order.len() {
        return None;
    }
    let pointer = usize::from(order[place]);
    if number_at(index, pointer) != scalar {
        return None;
    }
    Some(pointer)
}
