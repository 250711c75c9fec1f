//! Functions that compare the result of a call with the wanted one.
use legacy_base::TableError;
use legacy_codecs::RunError;
use std::fmt::{Debug, Display};
use std::process::Abort;

/// The place of a row: the name of its case, and its index among all rows.
pub(crate) type Place<'a> = (&'a str, usize);

/// Compares the result of a call, a query or a run with the wanted one.
pub(crate) fn is_answer<T: Copy + PartialEq + Debug>(
    rt: &impl Abort,
    (case, row): Place,
    question: &str,
    came: T,
    wanted: T,
) {
    assert!(rt;
        came == wanted,
        "\"{case}\", row {row}: {question}\n  came:   {came:?}\n  wanted: {wanted:?}"
    );
}

/// Compares the fault of indexes or of a table with the wanted one.
pub(crate) fn is_fault(
    rt: &impl Abort,
    place: Place,
    came: &Option<TableError>,
    wanted: &Option<TableError>,
) {
    is_answer(rt, place, "the fault", came.as_ref(), wanted.as_ref());
}

/// Compares the error of a run, if it was refused, with the wanted one.
pub(crate) fn is_refusal(
    rt: &impl Abort,
    place: Place,
    form: &str,
    came: Option<&RunError>,
    wanted: Option<&RunError>,
) {
    is_answer(rt, place, form, came, wanted);
}

/// Compares the scalar of a pointer, or of a place, with the wanted one.
pub(crate) fn is_scalar(rt: &impl Abort, place: Place, came: Option<char>, wanted: Option<char>) {
    is_answer(rt, place, "the scalar", came, wanted);
}

/// Compares the pointer of a scalar, or its place, with the wanted one.
pub(crate) fn is_pointer(
    rt: &impl Abort,
    place: Place,
    came: Option<usize>,
    wanted: Option<usize>,
) {
    is_answer(rt, place, "the pointer", came, wanted);
}

/// Compares the printed text with the wanted one.
pub(crate) fn prints<T: Display>(
    rt: &(impl AllocGlobal + Abort),
    place: Place,
    what: &T,
    wanted: &str,
) {
    let came = what.to_string(rt.alloc()).expect(rt, "no memory");
    is_answer(rt, place, "the text", came.as_str(), wanted);
}
