//! The runs of a flat index.
ghost use Rattle.std.specs.Prelude.{◌≡◌, ◌≢◌, ℕ, ◌+◌, ◌<◌, ◌≤◌, IfOk, length, slice_index};
ghost use Rattle.legacy_tables.specs.Tables.{flat_indexes};
ghost use Rattle.legacy_index_files.specs.Packing.{GivesIndex, GiveRuns};

use super::OwnedPacked;
use legacy_tables::{Entry, Indexes, Run};
use std::alloc::AllocError;

/// Returns the number of pointers, from the given one to `end`, with consecutive scalar values.
fn run_length<E: Entry>(index: &[E], pointer: usize, end: usize) -> usize
    requires starts { pointer < end }
    requires within { end ≤ length (E.numbers index.now) }
    requires few { end < 65536 }
    ensures some { 0 < result }
    ensures within { pointer + result ≤ end }
    ensures row { (k : ℕ) → k < result → slice_index (E.numbers index.now) (pointer + k)
        ≡ slice_index (E.numbers index.now) pointer + k }
    ensures longest { pointer + result < end →
        slice_index (E.numbers index.now) (pointer + result)
        ≢ slice_index (E.numbers index.now) pointer + result }
{
    let scalar = E::number(index, pointer);
    for next in pointer + 1..end {
        if E::number(index, next) != scalar + (next - pointer) {
            return next - pointer;
        }
    }
    end - pointer
}

/// Replaces the runs with the longest ones of the first `limit` entries of an index.
fn fill_runs<E: Entry>(limit: usize, index: &[E], runs: &mut Vec<Run>) -> Result<(), AllocError>
    requires { limit ≤ 23940 }
    ensures { IfOk result (λ _. GivesIndex limit (E.numbers index.now) runs.new.items) }
{
    runs.clear();
    let mut pointer = 0;
    let end = index.len().min(limit);
    while pointer < end {
        let scalar = E::number(index, pointer);
        if scalar == 0 {
            pointer += 1;
        } else {
            let length = run_length(index, pointer, end);
            runs.push(Run {
                pointer: pointer as u16,
                scalar: scalar as u32,
                length: length as u16,
            })?;
            pointer += length;
        }
    }
    Ok(())
}

/// Makes the longest runs of the five indexes.
pub(super) fn add_runs(indexes: &Indexes<'_>, packed: &mut OwnedPacked) -> Result<(), AllocError>
    ensures { IfOk result (λ _. GiveRuns (flat_indexes indexes.now) packed.new) }
{
    fill_runs(19782, indexes.big5, &mut packed.big5)?;
    fill_runs(23940, indexes.euc_kr, &mut packed.euc_kr)?;
    fill_runs(11280, indexes.jis0208, &mut packed.jis0208)?;
    fill_runs(8836, indexes.jis0212, &mut packed.jis0212)?;
    fill_runs(23940, indexes.gb18030, &mut packed.gb18030)?;
    Ok(())
}
