//! The runs of consecutive scalars in single-byte tables: their check, and the longest one.
ghost use Rattle.std.specs.Prelude.{◌≡◌, ℕ, ◌+◌, ◌<◌, ◌≤◌, MatchResult, Some, None, slice_index};
ghost use Rattle.legacy_single_byte.specs.{SingleByteRun.{IsSingleByteRun, first_mismatch, single_byte_run_fault}, LongestRun.LongestToThe};

use legacy_base::SingleByteTable;
use thiserror::Error;

/// A run of a single-byte table: places whose scalar values are consecutive.
#[derive(Clone, Copy, Debug, PartialEq, Eq)]
pub struct SingleByteRun {
    /// The scalar value at the first place. The next place has the next scalar value, and so on.
    pub scalar: u16,
    /// The first place, counted from 0 for byte 0x80.
    pub start: u8,
    /// The number of places.
    pub count: u8,
}

/// Why the run of a single-byte encoder is refused.
#[derive(Debug, Drop, PartialEq, Eq, Error)]
pub enum SingleByteRunError {
    /// The run starts before place 32.
    #[error("run starts before 32")]
    RunStart,
    /// The run ends past place 128.
    #[error("run passes 128")]
    RunPastEnd,
    /// The table has another value at the place than the run.
    #[error("run differs at {0}")]
    RunMismatch(usize),
}

/// Returns the entry at a place, or 0 if it has no scalar.
fn entry(table: &SingleByteTable, place: usize) -> usize
    ensures { result ≡ slice_index table.now.entries place }
{
    table.scalar(place).unwrap_or('\0') as usize
}

/// Returns how far after `start` the table first differs from the scalars from `scalar` upwards.
#[tactic(auto, using(crate::proofs::EncoderRuns::mismatch_at, crate::proofs::EncoderRuns::no_mismatch))]
fn first_mismatch(
    table: &SingleByteTable,
    scalar: usize,
    start: usize,
    count: usize,
) -> Option<usize>
    requires scalar { scalar + count ≤ 0x2_0000 }
    requires start { start + count ≤ 128 }
    ensures { result ≡ first_mismatch table.now.entries scalar start count }
{
    for k in 0..count {
        if entry(table, start + k) != scalar + k {
            return Some(k);
        }
    }
    None
}

/// Checks that `count` places from `start` on contain the scalars from `scalar` upwards.
#[tactic(auto, using(crate::proofs::EncoderRuns::run_steps))]
pub(super) fn check_run(
    table: &SingleByteTable,
    scalar: u16,
    start: u8,
    count: u8,
) -> Result<(), SingleByteRunError>
    ensures fault { let found = single_byte_run_fault table.now.entries scalar start count in
        MatchResult result (λ _. found ≡ None) (λ e. found ≡ Some e) }
    ensures is_run { MatchResult result (λ _. IsSingleByteRun table.now.entries scalar start count) (λ _. Unit {0}) }
    ensures within { MatchResult result (λ _. start + count ≤ 128) (λ _. Unit {0}) }
    ensures in_plane { MatchResult result (λ _. scalar + count ≤ 0x1_0000) (λ _. Unit {0}) }
{
    if start < 32 {
        return Err(SingleByteRunError::RunStart);
    }
    let first = usize::from(start);
    let length = usize::from(count);
    if first + length > 128 {
        return Err(SingleByteRunError::RunPastEnd);
    }
    match first_mismatch(table, usize::from(scalar), first, length) {
        Some(k) => Err(SingleByteRunError::RunMismatch(first + k)),
        None => Ok(()),
    }
}

/// The end of the scalar values among which runs are sought.
// The letters of the single-byte encodings are below it. Above it are lines and boxes, which are uncommon
// in text, and of which KOI8-R has a longer run.
const LETTERS_END: usize = 0x2000;

/// Returns the longest run of letters that ends with the place, given the one that ends before it.
fn run_to(table: &SingleByteTable, before: SingleByteRun, place: u8) -> SingleByteRun
    requires place { place < 128 }
    requires before { LongestToThe table.now.entries before.scalar before.start before.count place }
    ensures { LongestToThe table.now.entries result.scalar result.start result.count (place + 1) }
{
    let scalar = entry(table, usize::from(place));
    if scalar >= LETTERS_END {
        return SingleByteRun {
            scalar: 0,
            start: place + 1,
            count: 0,
        };
    }
    if scalar != usize::from(before.scalar) + usize::from(before.count) {
        return SingleByteRun {
            scalar: scalar as u16,
            start: place,
            count: 1,
        };
    }
    SingleByteRun {
        count: before.count + 1,
        ..before
    }
}

impl SingleByteRun {
    /// Returns a longest run of the table among its scalar values below U+2000.
    ///
    /// `SingleByteEncoder::new` never refuses it. All letters of the Standard's single-byte
    /// encodings are below U+2000. The search takes 96 steps.
    #[tactic(auto, using(crate::proofs::LongestRuns::not_refused))]
    pub fn longest(table: &SingleByteTable) -> SingleByteRun
        ensures accepted { single_byte_run_fault table.now.entries result.scalar result.start result.count ≡ None }
        ensures letters { result.scalar + result.count ≤ 0x2000 }
        ensures longest { (scalar start count : ℕ) →
            single_byte_run_fault table.now.entries scalar start count ≡ None →
            scalar + count ≤ 0x2000 → count ≤ result.count }
        ensures is_run { IsSingleByteRun table.now.entries result.scalar result.start result.count }
        ensures within { result.start + result.count ≤ 128 }
    {
        let mut run = SingleByteRun {
            scalar: 0,
            start: 32,
            count: 0,
        };
        let mut best = run;
        for place in 32..128 {
            run = run_to(table, run, place);
            if run.count > best.count {
                best = run;
            }
        }
        best
    }
}
