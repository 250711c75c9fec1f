//! The results of calls with and without replacement, as one type.
use legacy_codecs::CoderResult;

/// The result of a call, the numbers of units read and written, and whether something was replaced.
pub(crate) type Called<R> = (R, usize, usize, bool);

/// Returns the result of a call without replacement, in which nothing is replaced.
pub(crate) fn raw<R: Copy>((answer, read, written): (R, usize, usize)) -> Called<R> {
    (answer, read, written, false)
}

/// Returns the result of a call with replacement, as the result of a call without it.
///
/// `input_empty` and `output_full` are the results that a call without it has in place of these.
pub(crate) fn replacing<R: Copy>(
    (answer, read, written, replaced): (CoderResult, usize, usize, bool),
    input_empty: R,
    output_full: R,
) -> Called<R> {
    let answer = match answer {
        CoderResult::InputEmpty => input_empty,
        CoderResult::OutputFull => output_full,
    };
    (answer, read, written, replaced)
}
