//! Eight codes at a time: what is kept of each, the place of its pair, its entry, and the unit that is written.
// The functions that run for each block are always inlined: a call would pass vectors through memory, and would store
// the destination's place there for each block.
#![tactic(auto, using(crate::proofs::WrittenReads::no_bytes))]

ghost use Rattle.std.specs.Prelude.{◌≡◌, ◌≢◌, ℕ, ◌+◌, ◌*◌, ◌/◌, ◌<◌, ◌≤◌, ◌++◌, All, true, length, take, get_or, min};
ghost use Rattle.std.specs.Char.{IsScalar};
ghost use Rattle.legacy_text.specs.EncodingForm.{all_code_units, total_unit_count};
ghost use Rattle.legacy_decoder_engine.specs.LaneCodes.{ascii_count, unit_at, ArePairs, AreLanes, AreForms, AreWritten};

use crate::lane_codec::LaneCodec;
use legacy_base::Destination;
use legacy_tables::{FlatTables, IndexName};
use legacy_text::first_units;
use std::simd::prelude::*;

/// Returns what is kept of each of eight codes, and its place in an index whose last place is `last`.
///
/// Kept is its first byte, or 0 if that is past ASCII and the index has no such place. The place is at most `last`.
#[inline(always)]
pub(crate) fn kept_and_places<C: LaneCodec>(codes: u16x8, last: u16) -> (u16x8, u16x8)
    requires { last < C.pointers }
    ensures { AreLanes C.place last 8 codes result.0 result.1 }
{
    let first = codes & u16x8::splat(0xFF);
    let found = C::places(codes);
    let end = u16x8::splat(last);
    let known = first.simd_lt(u16x8::splat(0x80)) | found.simd_le(end);
    (known.select(first, u16x8::splat(0)), found.simd_min(end))
}

/// Stores what is kept of each of the codes over it, and the places of their entries.
///
/// It splits the codes in the first `groups` groups of eight, in an index whose last place is `last`.
// This loop runs before the loop of the look-ups: to take a place out of a vector costs more than to load it. A place has
// 32 bits, as the compiler joins loads of eight places of 16 bits into a vector, and takes each place out of it again.
#[inline(always)]
fn split_codes<C: LaneCodec>(codes: &mut [u16], places: &mut [u32], groups: usize, last: u16)
    requires codes { 8 * groups ≤ length codes.old }
    requires places { 8 * groups ≤ length places.old }
    requires pointers { last < C.pointers }
    ensures { AreLanes C.place last (8 * groups) codes.old codes.new places.new }
{
    for group in 0..groups {
        let at = 8 * group;
        let (kept, found) = kept_and_places::<C>(u16x8::from_slice(&codes[at..]), last);
        kept.copy_to_slice(&mut codes[at..]);
        found.cast::<u32>().copy_to_slice(&mut places[at..]);
    }
}

/// Returns the number of entries of the codec's index that have a lead and a trail.
#[inline(always)]
pub(crate) fn entry_count<C: LaneCodec>(tables: &FlatTables<'_>) -> usize
    ensures count { result ≡ min (length (C.entries tables.now.flat)) C.pointers }
    ensures small { C.pointers < 0x1_0000 }
{
    let entries = match C::index() {
        IndexName::Big5 => tables.wide().len(),
        name => tables.narrow(name).len(),
    };
    entries.min(C::pointer_count())
}

/// Returns the entries of the codec's index at eight places, with 0 for an entry past U+FFFF.
#[inline(always)]
pub(crate) fn entries_at<C: LaneCodec>(tables: &FlatTables<'_>, places: &[u32]) -> u16x8
    requires eight { 8 ≤ length places.now }
    requires within { (k : ℕ) → k < 8 → get_or places.now k 0 < length (C.entries tables.now.flat) }
    ensures pairs { ArePairs (C.grammar tables.now.flat) (C.entries tables.now.flat) C.place }
    ensures are { (k : ℕ) → k < 8 → get_or result k 0 ≢ 0 → get_or result k 0 ≡ get_or (C.entries tables.now.flat) (get_or places.now k 0) 0 }
{
    match C::index() {
        IndexName::Big5 => wide_entries(tables.wide(), places),
        name => narrow_entries(tables.narrow(name), places),
    }
}

/// Returns the entries at eight places of an index of scalars up to U+FFFF.
#[inline(always)]
fn narrow_entries(index: &[u16], places: &[u32]) -> u16x8
    requires eight { 8 ≤ length places.now }
    requires within { (k : ℕ) → k < 8 → get_or places.now k 0 < length index.now }
    ensures { (k : ℕ) → k < 8 → get_or result k 0 ≡ get_or index.now (get_or places.now k 0) 0 }
{
    u16x8::from_array([
        index[places[0] as usize],
        index[places[1] as usize],
        index[places[2] as usize],
        index[places[3] as usize],
        index[places[4] as usize],
        index[places[5] as usize],
        index[places[6] as usize],
        index[places[7] as usize],
    ])
}

/// Returns the entries at eight places, or only zeros if one of them is past U+FFFF.
#[inline(always)]
fn wide_entries(index: &[u32], places: &[u32]) -> u16x8
    requires eight { 8 ≤ length places.now }
    requires within { (k : ℕ) → k < 8 → get_or places.now k 0 < length index.now }
    ensures { (k : ℕ) → k < 8 → get_or result k 0 ≢ 0 → get_or result k 0 ≡ get_or index.now (get_or places.now k 0) 0 }
{
    let a = index[places[0] as usize];
    let b = index[places[1] as usize];
    let c = index[places[2] as usize];
    let d = index[places[3] as usize];
    let e = index[places[4] as usize];
    let f = index[places[5] as usize];
    let g = index[places[6] as usize];
    let h = index[places[7] as usize];
    if a >= 0x1_0000
        || b >= 0x1_0000
        || c >= 0x1_0000
        || d >= 0x1_0000
        || e >= 0x1_0000
        || f >= 0x1_0000
        || g >= 0x1_0000
        || h >= 0x1_0000
    {
        return u16x8::splat(0);
    }
    u16x8::from_array([
        a as u16, b as u16, c as u16, d as u16, e as u16, f as u16, g as u16, h as u16,
    ])
}

/// Returns what is kept if it is ASCII, and otherwise the entry, for each of eight codes.
#[inline(always)]
pub fn chosen(kept: u16x8, entries: u16x8) -> u16x8
    ensures lanes { (k : ℕ) → k < 8 → get_or result k 0 ≡ unit_at (get_or kept k 0) (get_or entries k 0) }
    ensures small { (k : ℕ) → k < 8 → get_or result k 0 < 0x1_0000 }
{
    kept.simd_lt(u16x8::splat(0x80)).select(kept, entries)
}

/// Returns whether none of eight units is 0.
#[inline(always)]
pub fn are_known(units: u16x8) -> bool
    ensures { result ≡ true → (k : ℕ) → k < 8 → get_or units k 0 ≢ 0 }
{
    units.simd_eq(u16x8::splat(0)).to_bitmask() == 0
}

/// Returns the number of units before the first that is 0.
#[inline(always)]
pub fn known_count(units: u16x8) -> usize
    ensures most { result ≤ 8 }
    ensures known { (k : ℕ) → k < result → get_or units k 0 ≢ 0 }
{
    let zeros = units.simd_eq(u16x8::splat(0)).to_bitmask();
    if zeros == 0 {
        return 8;
    }
    (zeros.trailing_zeros() as usize).min(8)
}

/// Returns the units of eight codes, with 0 for an uncommon code.
///
/// It is given what is kept of the codes, and the places of their entries.
#[inline(always)]
fn units_of<C: LaneCodec>(tables: &FlatTables<'_>, kept: &[u16], places: &[u32]) -> u16x8
    requires kept { 8 ≤ length kept.now }
    requires places { 8 ≤ length places.now }
    requires within { (k : ℕ) → k < 8 → get_or places.now k 0 < length (C.entries tables.now.flat) }
    ensures small { (k : ℕ) → k < 8 → get_or result k 0 < 0x1_0000 }
    ensures forms { AreForms (C.grammar tables.now.flat) C.place kept.now places.now result }
{
    let entries = entries_at::<C>(tables, places);
    chosen(u16x8::from_slice(kept), entries)
}

/// Returns the number of groups of eight among `most` codes for which `free` code units are enough, with 32 for each.
#[inline(always)]
fn group_count(most: usize, free: usize) -> usize
    ensures most { result ≤ most / 8 }
    ensures room { 32 * result ≤ free }
{
    (most / 8).min(free / 32)
}

/// Writes the first `most` of eight units, up to one that is 0, and returns their number. At least 32 code units must be free.
#[inline(always)]
pub(crate) fn put_known<T: Destination>(dst: &mut T, units: u16x8, most: usize) -> usize
    requires scalars { All IsScalar units }
    requires room { 32 ≤ T.room dst.old }
    ensures most { result ≤ most }
    ensures eight { result ≤ 8 }
    ensures known { (k : ℕ) → k < result → get_or units k 0 ≢ 0 }
    ensures contents { T.contents dst.new ≡ T.contents dst.old ++ all_code_units T.form (take result units) }
    ensures room { T.room dst.new + total_unit_count T.form (take result units) ≡ T.room dst.old }
    ensures loan { T.loan dst.new ≡ T.loan dst.old }
{
    let few = known_count(units).min(most);
    dst.put_first(units, few);
    few
}

/// Writes the first `most` codes, up to one that is uncommon, and returns the number of codes written.
///
/// Stops before a group of eight if fewer than 32 code units are free. Stores what is kept of the codes over them.
#[inline(always)]
#[tactic(auto)]
pub(crate) fn put_codes<C: LaneCodec, T: Destination>(
    tables: &FlatTables<'_>,
    codes: &mut [u16],
    places: &mut [u32],
    most: usize,
    dst: &mut T,
) -> usize
    requires codes { 8 * ((most + 7) / 8) ≤ length codes.old }
    requires places { 8 * ((most + 7) / 8) ≤ length places.old }
    ensures most { result ≤ most }
    ensures writes { AreWritten T.Destination (C.grammar tables.now.flat) codes.old codes.new result dst.old dst.new }
    ensures slack { 0 < result → 3 ≤ T.room dst.new }
    ensures had { 0 < result → 4 ≤ T.room dst.old }
{
    let entries = entry_count::<C>(tables);
    if entries == 0 {
        return 0;
    }
    split_codes::<C>(codes, places, (most + 7) / 8, (entries - 1) as u16);
    let groups = group_count(most, dst.free());
    let mut group = 0;
    while group < groups {
        let at = 8 * group;
        let units = units_of::<C>(tables, &codes[at..], &places[at..]);
        if !are_known(units) {
            break;
        }
        dst.put_eight(units);
        group += 1;
    }
    let at = 8 * group;
    if at == most || dst.free() < 32 {
        return at;
    }
    let units = units_of::<C>(tables, &codes[at..], &places[at..]);
    let few = put_known(dst, units, most - at);
    at + few
}

/// Returns the number of bytes of the forms of eight codes, given what is kept of each.
#[inline(always)]
fn byte_count(kept: u16x8) -> usize
    ensures { result + ascii_count kept ≡ 16 }
{
    16 - kept.simd_lt(u16x8::splat(0x80)).to_bitmask().count_ones() as usize
}

/// Returns the number of bytes of the forms of the first `count` codes, given what is kept of the codes.
// Never inlined, because few blocks have an uncommon code.
#[inline(never)]
pub(crate) fn byte_total(kept: &[u16], count: usize) -> usize
    requires { 8 * (count / 8) + 8 ≤ length kept.now }
    ensures { result + ascii_count (take count kept.now) ≡ 2 * count }
{
    let mut bytes = 0;
    let mut group = 0;
    while group < count / 8 {
        bytes += byte_count(u16x8::from_slice(&kept[8 * group..]));
        group += 1;
    }
    let rest = count % 8;
    let last = first_units(u16x8::from_slice(&kept[8 * group..]), rest);
    bytes + byte_count(last) - (8 - rest)
}
