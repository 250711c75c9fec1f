//! Writes flat indexes into memory that the caller lends.
ghost use Rattle.std.specs.Prelude.{◌≡◌, ℕ, ◌+◌, ◌<◌, ◌≤◌, length, slice_index, MatchOption};

use super::entries::Entry;
use super::numbers::{Numbers, Row};

/// Writes consecutive numbers.
// Most rows have one number, which is written without a loop.
#[inline(always)]
fn write_row<E: Entry>(entries: &mut [E], row: Row)
    requires some { 0 < row.count }
    requires within { row.pointer + row.count ≤ length entries.old }
    requires small { row.scalar + row.count ≤ E.limit }
    requires wide { row.scalar + row.count ≤ 0x1_0000_0000 }
    ensures row { (k : ℕ) → k < row.count →
        slice_index (E.numbers entries.new) (row.pointer + k) ≡ row.scalar + k }
    ensures before { (k : ℕ) → k < row.pointer →
        slice_index (E.numbers entries.new) k ≡ slice_index (E.numbers entries.old) k }
    ensures after { (k : ℕ) → row.pointer + row.count ≤ k →
        slice_index (E.numbers entries.new) k ≡ slice_index (E.numbers entries.old) k }
{
    E::put(entries, row.pointer, row.scalar);
    for at in 1..row.count {
        E::put(entries, row.pointer + at, row.scalar + at);
    }
}

/// Writes the numbers of a list.
fn write<N: Numbers, E: Entry>(index: &N, entries: &mut [E])
    requires all { length entries.old ≡ length (N.numbers index.now) }
    requires small { (p : ℕ) → slice_index (N.numbers index.now) p < E.limit }
    ensures { E.numbers entries.new ≡ N.numbers index.now }
{
    E::clear(entries);
    let mut place = 0;
    let mut pointer = 0;
    let end = index.count();
    while pointer < end {
        let row = index.row(place, pointer);
        write_row(entries, row);
        pointer = row.pointer + row.count;
        place = row.next;
    }
}

/// Writes an index to the start of `room`, and returns it.
///
/// Returns `None` exactly if `room` is too short.
pub(super) fn unpack<'b, N: Numbers, E: Entry>(index: &N, room: &'b mut [E]) -> Option<&'b [E]>
    requires { (p : ℕ) → slice_index (N.numbers index.now) p < E.limit }
    ensures { MatchOption result
        (length room.old < length (N.numbers index.now))
        (λ flat. (E.numbers flat.now ≡ N.numbers index.now)
        × (length (N.numbers index.now) ≤ length room.old)) }
{
    let count = index.count();
    if room.len() < count {
        return None;
    }
    let entries = &mut room[..count];
    write(index, entries);
    Some(entries)
}
