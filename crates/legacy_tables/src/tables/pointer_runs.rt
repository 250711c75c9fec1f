//! Runs that are in order, and the look-up of a pointer in them.
ghost use Rattle.std.specs.Prelude.{◌≡◌, ℕ, ◌+◌, ◌<◌, ◌≤◌, None, length};
ghost use Rattle.legacy_tables.specs.PointerRuns.{runs_scalar, runs_list, run_fault, is_run_in_order, run_at};
ghost use Rattle.legacy_tables.specs.RunOrder.{AreInOrder, IsFirstAfter, IsBetween, between-first};

use super::numbers::{Numbers, Row};
use super::packed::Run;

/// Runs in order, with pointers below a limit.
#[derive(Drop)]
pub(crate) struct PointerRuns<'a, const POINTERS: usize> {
    pub(super) runs: &'a [Run],
    ghost ordered: { AreInOrder POINTERS runs.now },
}

/// Checks whether a run is in order.
///
/// It has pointers, begins at or after `before`, ends within the limit, and has no number past U+10FFFF.
fn is_in_order(before: usize, limit: usize, run: Run) -> bool
    requires { before ≤ 65536 }
    ensures { result ≡ is_run_in_order before limit run }
{
    run.length > 0
        && usize::from(run.pointer) >= before
        && usize::from(run.pointer) + usize::from(run.length) <= limit
        && u64::from(run.scalar) + u64::from(run.length) <= 0x11_0000
}

/// Returns the first place of a run that is not in order.
#[tactic(auto, using(crate::proofs::PackedRuns::runs_next, crate::proofs::PackedRuns::runs_over, crate::proofs::PackedRuns::in_order))]
pub(super) fn first_out_of_order(limit: usize, runs: &[Run]) -> Option<usize>
    requires { limit ≤ 65536 }
    ensures { result ≡ run_fault limit runs.now }
{
    let mut before = 0;
    for (place, run) in runs.iter().enumerate() {
        if !is_in_order(before, limit, *run) {
            return Some(place);
        }
        before = usize::from(run.pointer) + usize::from(run.length);
    }
    None
}

/// Returns the number of runs that start at or before a pointer. Runs rise, so these are the first ones.
#[inline]
fn started_count<const POINTERS: usize>(runs: &[Run], pointer: usize) -> usize
    requires { AreInOrder POINTERS runs.now }
    ensures within { result ≤ length runs.now }
    ensures started { (k : ℕ) → k < result → (run_at runs.now k).pointer ≤ pointer }
    ensures ahead { (k : ℕ) → result ≤ k → k < length runs.now →
        pointer < (run_at runs.now k).pointer }
{
    runs.partition_point(|run| usize::from(run.pointer) <= pointer)
}

impl<'a, const POINTERS: usize> PointerRuns<'a, POINTERS> {
    /// Makes the runs of a list that is in order.
    #[tactic(auto, using(crate::proofs::PackedRuns::are_in_order))]
    pub(super) fn new(runs: &'a [Run]) -> PointerRuns<'a, POINTERS>
        requires { run_fault POINTERS runs.now ≡ None }
        ensures { result.runs.now ≡ runs.now }
    {
        PointerRuns { runs }
    }

    /// Returns the pointer after all runs.
    #[inline(always)]
    pub(super) fn end(&self) -> usize
        ensures { result ≡ length (runs_list self.now.runs.now) }
    {
        let count = self.runs.len();
        if count == 0 {
            return 0;
        }
        let run = self.runs[count - 1];
        usize::from(run.pointer) + usize::from(run.length)
    }

    /// Returns the number that the runs give a pointer, given the place of the first run that ends after it.
    #[inline(always)]
    pub(super) fn scalar_at(&self, place: usize, pointer: usize) -> Option<u32>
        requires { IsFirstAfter self.now.runs.now place pointer }
        ensures { result ≡ runs_scalar self.now.runs.now pointer }
    {
        if place == self.runs.len() {
            return None;
        }
        let run = &self.runs[place];
        if pointer < usize::from(run.pointer) {
            return None;
        }
        Some(run.scalar + (pointer - usize::from(run.pointer)) as u32)
    }

    /// Returns the place of the first run that ends after the next pointer, given that of the pointer.
    #[inline(always)]
    pub(super) fn next_place(&self, place: usize, pointer: usize) -> usize
        requires { IsFirstAfter self.now.runs.now place pointer }
        ensures { IsFirstAfter self.now.runs.now result (pointer + 1) }
    {
        if place == self.runs.len() {
            return place;
        }
        let run = &self.runs[place];
        if usize::from(run.pointer) + usize::from(run.length) == pointer + 1 {
            place + 1
        } else {
            place
        }
    }

    /// Returns the number that the runs give a pointer.
    #[inline(always)]
    pub(super) fn scalar(&self, pointer: usize) -> Option<u32>
        ensures { result ≡ runs_scalar self.now.runs.now pointer }
    {
        let count = started_count::<POINTERS>(self.runs, pointer);
        if count == 0 {
            return None;
        }
        let run = &self.runs[count - 1];
        let at = pointer - usize::from(run.pointer);
        if at >= usize::from(run.length) {
            return None;
        }
        Some(run.scalar + at as u32)
    }
}

impl<'a, const POINTERS: usize> Numbers for PointerRuns<'a, POINTERS> {
    ghost numbers = { λ r. runs_list r.runs.now };

    ghost is_at = { λ r place pointer. IsBetween r.runs.now place pointer };

    ghost begins = { λ r. between-first r.runs.now };

    #[inline(always)]
    fn count(&self) -> usize {
        self.end()
    }

    #[inline(always)]
    fn number(&self, at: usize) -> usize {
        match self.scalar(at) {
            Some(scalar) => scalar as usize,
            None => 0,
        }
    }

    #[tactic(auto, using(crate::proofs::RunWalks::next_row))]
    #[inline(always)]
    fn row(&self, place: usize, _at: usize) -> Row {
        let run = &self.runs[place];
        Row {
            pointer: usize::from(run.pointer),
            scalar: run.scalar as usize,
            count: usize::from(run.length),
            next: place + 1,
        }
    }
}
