//! The places of eight leads and of eight trails by lanes. Their saturating sums are the pointers.
//!
//! A place is exact below a limit. From the limit on it says only that there is no pair.
// Always inlined: a call would pass the vectors through memory.
ghost use Rattle.std.specs.Prelude.{◌+◌, ◌*◌, ◌<◌, ◌≤◌, ℕ, List, min};
ghost use Rattle.legacy_decoder_engine.specs.LaneCodes.{ArePlaces};
ghost use Rattle.legacy_decoder_engine.specs.LanePlaces.{lead_place_of, late_place_of, trail_place_of};

use std::simd::prelude::*;

/// Returns the places of the leads of eight codes, the lead low, in an index whose rows have `width` entries.
///
/// They are exact up to the end of the rows of the leads from `lead` on.
// No lead is tested. The product of another byte wraps to a number past the rows.
#[inline(always)]
pub fn lead_places(codes: u16x8, lead: u16, width: u16) -> u16x8
    requires lead { lead < 0x100 }
    requires width { width < 0x100 }
    requires some { 0 < width }
    ensures { (leads : ℕ) → lead + leads < 0x100 → (lead + leads + 1) * width ≤ 0x1_0000 →
        ArePlaces ((leads + 1) * width) (lead_place_of lead leads width) codes result }
{
    let row = (codes & u16x8::splat(0xFF)) - u16x8::splat(lead);
    row * u16x8::splat(width)
}

/// Returns the places of the trails of eight codes, the trail high, if trails are `first` to FE.
///
/// They are exact up to FF00.
// The difference of a lower byte wraps to a number past that.
#[inline(always)]
pub fn late_places(codes: u16x8, first: u16) -> u16x8
    requires { first < 0x100 }
    ensures { (limit : ℕ) → limit ≤ 0xFF00 → ArePlaces limit (late_place_of first) codes result }
{
    let column = (codes >> u16x8::splat(8)) - u16x8::splat(first);
    codes
        .simd_ge(u16x8::splat(0xFF00))
        .select(u16x8::splat(0xFFFF), column)
}

/// Returns the places of the trails of eight codes, the trail high.
///
/// Trails are 40 to 7E and `second` to `last`. The place of any other byte is 65535.
#[inline(always)]
pub fn trail_places(codes: u16x8, second: u16, last: u16) -> u16x8
    requires gap { 0x80 ≤ second }
    requires some { second ≤ last }
    requires byte { last < 0x100 }
    ensures { (limit : ℕ) → ArePlaces limit (trail_place_of second last) codes result }
{
    let gap = second - 0x3F;
    let end = last - gap + 1;
    let trail = codes >> u16x8::splat(8);
    let is_low = trail.simd_lt(u16x8::splat(second));
    let moved = is_low.select(u16x8::splat(gap - 0x40), u16x8::splat(0));
    let column = trail - u16x8::splat(gap) + moved;
    let end = is_low.select(u16x8::splat(0x3F), u16x8::splat(end));
    column.simd_ge(end).select(u16x8::splat(0xFFFF), column)
}

/// Returns the saturating sums of the places of the leads and the trails of eight codes.
#[inline(always)]
pub fn place_sums(leads: u16x8, trails: u16x8) -> u16x8
    ensures { (limit : ℕ) (lead trail : ℕ → ℕ) (codes : List ℕ) → limit < 0x1_0000 →
        ArePlaces limit lead codes leads → ArePlaces limit trail codes trails →
        ArePlaces limit (λ code. min (lead code + trail code) 65535) codes result }
{
    leads.saturating_add(trails)
}
