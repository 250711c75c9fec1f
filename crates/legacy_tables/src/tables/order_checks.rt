//! The checks of orders against the flat indexes.
ghost use Rattle.std.specs.Prelude.{◌≡◌, ℕ, ◌+◌, ◌≤◌, ◌<◌, List, slice_index};
ghost use Rattle.std.specs.Prelude.{MatchResult, Some, None, true, false};
ghost use Rattle.legacy_tables.specs.declared.tables.packed.PackedPart.{PackedPart};
ghost use Rattle.legacy_tables.specs.Packed.{is_pointer_in_order, order_fault, is_lacking};
ghost use Rattle.legacy_tables.specs.Packed.{order_difference, pointers_fault, pointer_of};
ghost use Rattle.legacy_tables.specs.Packed.{all_orders_fault, may_use, takes_last};
ghost use Rattle.legacy_tables.specs.PackedTables.{AreOrdersOf, AreLastPointers};
ghost use Rattle.legacy_tables.specs.Tables.{flat_indexes};
ghost use Rattle.legacy_tables.specs.PointerSets.{HasOnly};
ghost use Rattle.legacy_tables.specs.Orders.{IsLookup, RisesBy, order_pointer};

use super::entries::Entry;
use super::limits::{
    EUC_JP_POINTERS, FIRST_BIG5_ENCODER_POINTER, FIRST_SKIPPED_POINTER, LAST_SKIPPED_POINTER,
};
use super::numbers::{Numbers, number_at};
use super::order::pointer_in_order;
use super::packed::{Packed, PackedPart};
use super::pointer_set::PointerSet;
use super::pointers::{last_from, takes_last};
use super::{Indexes, TableError};

/// Checks whether the codec of an order may use the pointer.
pub(super) fn is_usable(part: PackedPart, pointer: usize) -> bool
    ensures { result ≡ may_use part pointer }
{
    match part {
        PackedPart::Big5Order => pointer >= FIRST_BIG5_ENCODER_POINTER,
        PackedPart::ShiftJisOrder => !(FIRST_SKIPPED_POINTER..=LAST_SKIPPED_POINTER).contains(
            &pointer,
        ),
        PackedPart::EucJpOrder => pointer < EUC_JP_POINTERS,
        _ => true,
    }
}

/// Checks whether the codec of an order uses the last of the scalar's pointers.
pub(super) fn takes_last_of(part: PackedPart, scalar: usize) -> bool
    ensures { result ≡ takes_last part scalar }
{
    match part {
        PackedPart::Big5Order => takes_last(scalar),
        _ => false,
    }
}

/// Checks whether the codec may use the pointer, and its scalar is above `above`.
fn is_in_order<N: Numbers>(part: PackedPart, index: &N, above: usize, pointer: usize) -> bool
    ensures { result ≡ is_pointer_in_order part (N.numbers index.now) above pointer }
{
    is_usable(part, pointer) && number_at(index, pointer) > above
}

/// Returns the first place of a pointer that is not in order.
#[tactic(auto, using(crate::proofs::Orders::pointers_next, crate::proofs::Orders::pointers_end))]
fn first_out_of_order<N: Numbers>(part: PackedPart, index: &N, order: &[u16]) -> Option<usize>
    ensures { result ≡ order_fault part (N.numbers index.now) order.now }
{
    let mut above = 0;
    for (place, pointer) in order.iter().enumerate() {
        if !is_in_order(part, index, above, usize::from(*pointer)) {
            return Some(place);
        }
        above = number_at(index, usize::from(*pointer));
    }
    None
}

/// The pointers of the six scalars for which Big5 uses the last pointer.
// They are found once. With a search at each of their pointers, the time would be quadratic if all entries of the index
// were one of these scalars.
#[derive(Drop)]
pub(super) struct LastPointers {
    of_2550: Option<usize>,
    of_255e: Option<usize>,
    of_2561: Option<usize>,
    of_256a: Option<usize>,
    of_5341: Option<usize>,
    of_5345: Option<usize>,
}

/// Returns the last pointer of a scalar that Big5's encoder may use, or `None` for other encoders.
fn last_taken<E: Entry>(part: PackedPart, index: &[E], scalar: usize) -> Option<usize>
    ensures { takes_last part scalar ≡ true →
        pointer_of part (E.numbers index.now) scalar ≡ result }
{
    match part {
        PackedPart::Big5Order => last_from(index, FIRST_BIG5_ENCODER_POINTER, scalar),
        _ => None,
    }
}

/// Returns the last pointers of the six scalars in an index.
fn last_pointers<E: Entry>(part: PackedPart, index: &[E]) -> LastPointers
    ensures { AreLastPointers part (E.numbers index.now) result }
{
    LastPointers {
        of_2550: last_taken(part, index, 0x2550),
        of_255e: last_taken(part, index, 0x255E),
        of_2561: last_taken(part, index, 0x2561),
        of_256a: last_taken(part, index, 0x256A),
        of_5341: last_taken(part, index, 0x5341),
        of_5345: last_taken(part, index, 0x5345),
    }
}

/// Returns the last pointer of a scalar, if it is one of the six.
fn last_of(lasts: &LastPointers, scalar: usize) -> Option<usize>
    ensures { (part : PackedPart) (index : List ℕ) → AreLastPointers part index lasts.now →
        takes_last part scalar ≡ true → pointer_of part index scalar ≡ result }
{
    match scalar {
        0x2550 => lasts.of_2550,
        0x255E => lasts.of_255e,
        0x2561 => lasts.of_2561,
        0x256A => lasts.of_256a,
        0x5341 => lasts.of_5341,
        0x5345 => lasts.of_5345,
        _ => None,
    }
}

/// Returns the pointer that an order has for the scalar of a pointer.
// A pointer in the order needs no search. Only few pointers are not in it: those that the codec does not use.
#[inline(always)]
fn held_pointer<N: Numbers>(
    part: PackedPart,
    index: &N,
    order: &[u16],
    held: &PointerSet,
    pointer: usize,
) -> Option<usize>
    requires held { HasOnly held.now.blocks order.now }
    requires rises { RisesBy (N.numbers index.now) order.now }
    requires lookup { IsLookup part (N.numbers index.now) order.now
        (order_pointer (N.numbers index.now) order.now) }
    ensures { result ≡ order_pointer (N.numbers index.now) order.now
        (slice_index (N.numbers index.now) pointer) }
{
    if held.contains(pointer) {
        return Some(pointer);
    }
    pointer_in_order(index, order, number_at(index, pointer))
}

/// Checks whether the order lacks the scalar of a pointer, if it lacks that of no earlier pointer.
// Except for Big5's six scalars, the codec uses the first pointer. So the order is wrong if its pointer is a later one.
fn lacks<N: Numbers>(
    part: PackedPart,
    index: &N,
    order: &[u16],
    held: &PointerSet,
    lasts: &LastPointers,
    pointer: usize,
) -> bool
    requires held { HasOnly held.now.blocks order.now }
    requires lasts { AreLastPointers part (N.numbers index.now) lasts.now }
    requires rises { RisesBy (N.numbers index.now) order.now }
    requires lookup { IsLookup part (N.numbers index.now) order.now
        (order_pointer (N.numbers index.now) order.now) }
    requires passed { (k : ℕ) → k < pointer →
        is_lacking part (N.numbers index.now) order.now k ≡ false }
    ensures { result ≡ is_lacking part (N.numbers index.now) order.now pointer }
{
    let scalar = number_at(index, pointer);
    if scalar == 0 {
        return false;
    }
    if !is_usable(part, pointer) {
        return false;
    }
    match held_pointer(part, index, order, held, pointer) {
        None => true,
        Some(taken) => {
            if takes_last_of(part, scalar) {
                last_of(lasts, scalar) != Some(taken)
            } else {
                taken > pointer
            }
        }
    }
}

/// Returns the least pointer whose scalar the order lacks.
fn first_difference<E: Entry>(part: PackedPart, index: &[E], order: &[u16]) -> Option<usize>
    requires rises { RisesBy (E.numbers index.now) order.now }
    requires lookup { IsLookup part (E.numbers index.now) order.now
        (order_pointer (E.numbers index.now) order.now) }
    ensures { result ≡ order_difference part (E.numbers index.now) order.now }
{
    let held = PointerSet::of(order);
    let lasts = last_pointers(part, index);
    for pointer in 0..index.len() {
        if lacks(part, &index, order, &held, &lasts, pointer) {
            return Some(pointer);
        }
    }
    None
}

/// Checks that an order is in order, and has the pointer that the codec uses for each scalar.
fn check_order<E: Entry>(part: PackedPart, order: &[u16], index: &[E]) -> Result<(), TableError>
    ensures { let found = pointers_fault part (E.numbers index.now) order.now in
        MatchResult result (λ _. found ≡ None) (λ fault. found ≡ Some fault) }
{
    if let Some(at) = first_out_of_order(part, &index, order) {
        return Err(TableError::PackedOrder(part, at));
    }
    match first_difference(part, index, order) {
        Some(at) => Err(TableError::PackedDiffers(part, at)),
        None => Ok(()),
    }
}

/// The orders of the five codecs.
#[derive(Drop)]
pub(super) struct CheckedOrders<'a> {
    pub(super) big5: &'a [u16],
    pub(super) euc_kr: &'a [u16],
    pub(super) shift_jis: &'a [u16],
    pub(super) euc_jp: &'a [u16],
    pub(super) gb18030: &'a [u16],
}

impl<'a> CheckedOrders<'a> {
    /// Returns the orders of packed indexes.
    pub(super) fn of(packed: &Packed<'a>) -> CheckedOrders<'a>
        ensures { AreOrdersOf result packed.now }
    {
        CheckedOrders {
            big5: packed.big5_order,
            euc_kr: packed.euc_kr_order,
            shift_jis: packed.shift_jis_order,
            euc_jp: packed.euc_jp_order,
            gb18030: packed.gb18030_order,
        }
    }
}

/// Checks the orders of the five codecs, and returns the first fault.
pub(super) fn check_all_orders(indexes: &Indexes<'_>, packed: &Packed<'_>) -> Result<(), TableError>
    ensures { let found = all_orders_fault (flat_indexes indexes.now) packed.now in
        MatchResult result (λ _. found ≡ None) (λ fault. found ≡ Some fault) }
{
    check_order(PackedPart::Big5Order, packed.big5_order, indexes.big5)?;
    check_order(PackedPart::EucKrOrder, packed.euc_kr_order, indexes.euc_kr)?;
    check_order(
        PackedPart::ShiftJisOrder,
        packed.shift_jis_order,
        indexes.jis0208,
    )?;
    check_order(PackedPart::EucJpOrder, packed.euc_jp_order, indexes.jis0208)?;
    check_order(
        PackedPart::Gb18030Order,
        packed.gb18030_order,
        indexes.gb18030,
    )
}
