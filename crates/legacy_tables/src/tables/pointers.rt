//! Look-ups of the pointer that an encoder uses for a scalar.
ghost use Rattle.std.specs.Prelude.{◌≡◌, ◌≢◌, ℕ, ◌+◌, ◌<◌, ◌≤◌, ◌&&◌, nat_le, nat_lt, length};
ghost use Rattle.std.specs.Prelude.{Some, None, slice_index, slice_index_or};
ghost use Rattle.legacy_tables.specs.Pointers.{every_pointer, first_pointer, last_pointer};
ghost use Rattle.legacy_tables.specs.Pointers.{big5_pointer_of, takes_last_big5_pointer};
ghost use Rattle.legacy_tables.specs.Pointers.{shift_jis_pointer_of, euc_jp_pointer_of};
ghost use Rattle.legacy_tables.specs.Pointers.{range_pointer_of};
ghost use Rattle.legacy_tables.specs.TableChecks.{range_order_fault, range_value_fault};

use super::checks::end_of;
use super::entries::Entry;
use super::limits::{
    E7C7_POINTER, EUC_JP_POINTERS, FIRST_BIG5_ENCODER_POINTER, FIRST_SKIPPED_POINTER,
    FIRST_SUPPLEMENTARY_POINTER, LAST_SKIPPED_POINTER,
};

/// Returns the start of the first block from `start` on that has the entry.
///
/// If no whole block before `end` has it, it returns the end of the last such block. No pointer from `start` up to the
/// result has the entry.
fn first_block<E: Entry>(index: &[E], start: usize, end: usize, entry: usize) -> usize
    requires { end ≤ length (E.numbers index.now) }
    ensures from { start ≤ result }
    ensures none { (k : ℕ) → start ≤ k → k < result → slice_index (E.numbers index.now) k ≢ entry }
{
    let mut pointer = start;
    let mut blocks = end.saturating_sub(start) / 32;
    while blocks > 0 && E::lacks(index, pointer, entry) {
        pointer += 32;
        blocks -= 1;
    }
    pointer
}

/// Returns the first pointer from `start` on and before `end` that has the scalar.
#[tactic(auto, unfolding(crate::specs::Pointers::first_pointer))]
fn first_between<E: Entry>(index: &[E], start: usize, end: usize, scalar: char) -> Option<usize>
    requires { end ≤ length (E.numbers index.now) }
    ensures { result
        ≡ first_pointer (λ p. nat_le start p && nat_lt p end) (E.numbers index.now) scalar }
{
    let entry = scalar as usize;
    if entry == 0 {
        return None;
    }
    let mut pointer = first_block(index, start, end, entry);
    while pointer < end {
        if E::number(index, pointer) == entry {
            return Some(pointer);
        }
        pointer += 1;
    }
    None
}

/// Returns the pointer after the last block that has the entry. Blocks are counted from the index's end.
///
/// If no whole block from `start` on has it, the result is less than a block after `start`. No pointer from the result
/// on has the entry.
fn last_block<E: Entry>(index: &[E], start: usize, entry: usize) -> usize
    ensures within { result ≤ length (E.numbers index.now) }
    ensures none { (k : ℕ) → result ≤ k → k < length (E.numbers index.now) →
        slice_index (E.numbers index.now) k ≢ entry }
{
    let mut past = index.len();
    let mut blocks = past.saturating_sub(start) / 32;
    while blocks > 0 && E::lacks(index, past - 32, entry) {
        past -= 32;
        blocks -= 1;
    }
    past
}

/// Returns the last pointer from `start` on that has the entry.
#[tactic(auto, using(crate::proofs::Pointers::from_end), unfolding(crate::specs::Pointers::last_pointer))]
pub(super) fn last_from<E: Entry>(index: &[E], start: usize, entry: usize) -> Option<usize>
    ensures { result ≡ last_pointer (nat_le start) (E.numbers index.now) entry }
{
    if entry == 0 {
        return None;
    }
    let mut past = last_block(index, start, entry);
    while past > start {
        past -= 1;
        if E::number(index, past) == entry {
            return Some(past);
        }
    }
    None
}

/// Checks whether Big5 uses the last of the scalar's pointers.
pub(super) fn takes_last(scalar: usize) -> bool
    ensures { result ≡ takes_last_big5_pointer scalar }
{
    matches!(scalar, 0x2550 | 0x255E | 0x2561 | 0x256A | 0x5341 | 0x5345)
}

/// Returns the pointer that Big5's encoder uses for a scalar.
#[tactic(auto, using(crate::proofs::Pointers::alike))]
pub(super) fn big5_pointer(index: &[u32], scalar: char) -> Option<usize>
    ensures { result ≡ big5_pointer_of index.now scalar }
{
    if takes_last(scalar as usize) {
        last_from(index, FIRST_BIG5_ENCODER_POINTER, scalar as usize)
    } else {
        first_between(index, FIRST_BIG5_ENCODER_POINTER, index.len(), scalar)
    }
}

/// Returns the first pointer of a scalar.
#[tactic(auto, using(crate::proofs::Pointers::alike))]
pub(super) fn first(index: &[u16], scalar: char) -> Option<usize>
    ensures { result ≡ first_pointer every_pointer index.now scalar }
{
    first_between(index, 0, index.len(), scalar)
}

/// Returns the pointer that Shift_JIS's encoder uses for a scalar.
pub(super) fn shift_jis_pointer(jis0208: &[u16], scalar: char) -> Option<usize>
    ensures { result ≡ shift_jis_pointer_of jis0208.now scalar }
{
    match first_between(jis0208, 0, jis0208.len().min(FIRST_SKIPPED_POINTER), scalar) {
        Some(pointer) => Some(pointer),
        None => first_between(jis0208, LAST_SKIPPED_POINTER + 1, jis0208.len(), scalar),
    }
}

/// Returns the pointer that the encoders of EUC-JP and ISO-2022-JP use for a scalar.
#[tactic(auto, using(crate::proofs::Pointers::alike))]
pub(super) fn euc_jp_pointer(jis0208: &[u16], scalar: char) -> Option<usize>
    ensures { result ≡ euc_jp_pointer_of jis0208.now scalar }
{
    first_between(jis0208, 0, jis0208.len().min(EUC_JP_POINTERS), scalar)
}

/// Returns the number of ranges whose first scalar is at most `scalar`. Ranges rise, so these are the first ones.
pub(super) fn ranges_up_to(ranges: &[(u16, u16)], scalar: usize) -> usize
    requires { range_order_fault 0 None ranges.now ≡ None }
    ensures within { result ≤ length ranges.now }
    ensures reached { (k : ℕ) → k < result → (slice_index_or ranges.now k (0, 0)).1 ≤ scalar }
    ensures ahead { (k : ℕ) → result ≤ k → k < length ranges.now →
        scalar < (slice_index_or ranges.now k (0, 0)).1 }
{
    ranges.partition_point(|range| usize::from(range.1) <= scalar)
}

/// Returns the pointer of four bytes of a scalar of the Basic Multilingual Plane other than U+E7C7.
#[inline]
fn pointer_in_ranges(ranges: &[(u16, u16)], scalar: usize) -> Option<usize>
    requires ordered { range_order_fault 0 None ranges.now ≡ None }
    requires narrow { scalar < 0x1_0000 }
    requires free { scalar ≢ 0xE7C7 }
    ensures { result ≡ range_pointer_of ranges.now scalar }
{
    let count = ranges_up_to(ranges, scalar);
    if count == 0 {
        return None;
    }
    let (first, lowest) = ranges[count - 1];
    let pointer = usize::from(first) + (scalar - usize::from(lowest));
    if pointer >= usize::from(end_of(ranges, count - 1)) {
        return None;
    }
    if pointer == E7C7_POINTER {
        return None;
    }
    Some(pointer)
}

/// Returns the pointer of four bytes of a scalar.
#[tactic(auto, using(crate::proofs::RangePointers::range_pointers))]
#[inline]
pub(super) fn range_pointer(ranges: &[(u16, u16)], scalar: char) -> Option<usize>
    requires ordered { range_order_fault 0 None ranges.now ≡ None }
    requires valued { range_value_fault 0 ranges.now ≡ None }
    ensures { result ≡ range_pointer_of ranges.now scalar }
{
    let number = u32::from(scalar) as usize;
    if number >= 0x1_0000 {
        return Some(FIRST_SUPPLEMENTARY_POINTER + (number - 0x1_0000));
    }
    if scalar == '\u{E7C7}' {
        return Some(E7C7_POINTER);
    }
    pointer_in_ranges(ranges, number)
}
