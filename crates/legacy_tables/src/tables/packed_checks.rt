//! The checks of packed indexes against the flat ones. Each returns the first fault that it finds.
ghost use Rattle.std.specs.Prelude.{◌≡◌, ◌≤◌, ◌==◌, not, MatchResult};
ghost use Rattle.std.specs.Prelude.{Some, None};
ghost use Rattle.std.specs.Option.{option_eq};
ghost use Rattle.legacy_tables.specs.Indexes.{idx};
ghost use Rattle.legacy_tables.specs.Packed.{run_difference, runs_fault, all_runs_fault};
ghost use Rattle.legacy_tables.specs.PackedTables.{AreRunsInOrder, AreRunsOf};
ghost use Rattle.legacy_tables.specs.Tables.{flat_indexes};

use super::limits::{
    BIG5_POINTERS, EUC_KR_POINTERS, GB18030_POINTERS, JIS0208_POINTERS, JIS0212_POINTERS,
};
use super::numbers::Numbers;
use super::packed::{Packed, PackedPart, Run};
use super::pointer_runs::{PointerRuns, first_out_of_order};
use super::{Indexes, TableError};

/// Returns the number that a flat index has for a pointer.
fn flat_scalar<N: Numbers>(index: &N, pointer: usize) -> Option<usize>
    ensures { result ≡ idx (N.numbers index.now) pointer }
{
    if pointer >= index.count() {
        return None;
    }
    let entry = index.number(pointer);
    if entry == 0 { None } else { Some(entry) }
}

/// Checks whether a flat index and runs give a pointer different scalars.
fn differ(entry: Option<usize>, scalar: Option<u32>) -> bool
    ensures { result ≡ not (option_eq (λ x y. x == y) entry scalar) }
{
    match (entry, scalar) {
        (None, None) => false,
        (Some(entry), Some(scalar)) => entry != scalar as usize,
        _ => true,
    }
}

/// Returns the least pointer below the limit for which the runs and the flat index give different scalars.
fn first_difference<N: Numbers, const POINTERS: usize>(
    limit: usize,
    runs: &PointerRuns<'_, POINTERS>,
    index: &N,
) -> Option<usize>
    ensures { result ≡ run_difference limit runs.now.runs.now (N.numbers index.now) }
{
    let end = index.count().max(runs.end()).min(limit);
    let mut place = 0;
    for pointer in 0..end {
        if differ(flat_scalar(index, pointer), runs.scalar_at(place, pointer)) {
            return Some(pointer);
        }
        place = runs.next_place(place, pointer);
    }
    None
}

/// Checks that runs are in order, and do not differ from the flat index.
fn check_runs<N: Numbers, const POINTERS: usize>(
    part: PackedPart,
    runs: &[Run],
    index: &N,
) -> Result<(), TableError>
    requires { POINTERS ≤ 23940 }
    ensures { let found = runs_fault part POINTERS runs.now (N.numbers index.now) in
        MatchResult result (λ _. found ≡ None) (λ fault. found ≡ Some fault) }
{
    if let Some(at) = first_out_of_order(POINTERS, runs) {
        return Err(TableError::PackedOrder(part, at));
    }
    let checked = PointerRuns::<POINTERS>::new(runs);
    match first_difference(POINTERS, &checked, index) {
        Some(at) => Err(TableError::PackedDiffers(part, at)),
        None => Ok(()),
    }
}

/// The runs of the five indexes.
#[derive(Drop)]
pub(super) struct CheckedRuns<'a> {
    pub(super) big5: PointerRuns<'a, BIG5_POINTERS>,
    pub(super) euc_kr: PointerRuns<'a, EUC_KR_POINTERS>,
    pub(super) jis0208: PointerRuns<'a, JIS0208_POINTERS>,
    pub(super) jis0212: PointerRuns<'a, JIS0212_POINTERS>,
    pub(super) gb18030: PointerRuns<'a, GB18030_POINTERS>,
}

impl<'a> CheckedRuns<'a> {
    /// Returns the runs of packed indexes that passed the check.
    pub(super) fn of(packed: &Packed<'a>) -> CheckedRuns<'a>
        requires { AreRunsInOrder packed.now }
        ensures { AreRunsOf result packed.now }
    {
        CheckedRuns {
            big5: PointerRuns::new(packed.big5),
            euc_kr: PointerRuns::new(packed.euc_kr),
            jis0208: PointerRuns::new(packed.jis0208),
            jis0212: PointerRuns::new(packed.jis0212),
            gb18030: PointerRuns::new(packed.gb18030),
        }
    }
}

/// Checks the runs of the five indexes, and returns the first fault.
pub(super) fn check_all_runs(indexes: &Indexes<'_>, packed: &Packed<'_>) -> Result<(), TableError>
    ensures { let found = all_runs_fault (flat_indexes indexes.now) packed.now in
        MatchResult result (λ _. found ≡ None) (λ fault. found ≡ Some fault) }
{
    check_runs::<_, BIG5_POINTERS>(PackedPart::Big5, packed.big5, &indexes.big5)?;
    check_runs::<_, EUC_KR_POINTERS>(PackedPart::EucKr, packed.euc_kr, &indexes.euc_kr)?;
    check_runs::<_, JIS0208_POINTERS>(PackedPart::Jis0208, packed.jis0208, &indexes.jis0208)?;
    check_runs::<_, JIS0212_POINTERS>(PackedPart::Jis0212, packed.jis0212, &indexes.jis0212)?;
    check_runs::<_, GB18030_POINTERS>(PackedPart::Gb18030, packed.gb18030, &indexes.gb18030)
}
