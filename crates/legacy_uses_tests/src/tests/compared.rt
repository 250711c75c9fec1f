//! Functions that compare the result of a call with the wanted one.
// Each is a function of its own, because an `assert!` with a message is proved again at each place of use.
use std::fmt::{Debug, Display};
use std::process::Abort;

/// Compares the result of a case with the wanted one.
pub(crate) fn is<T: Copy + PartialEq + Debug>(rt: &impl Abort, case: &str, came: T, wanted: T) {
    assert!(rt; came == wanted, "{case}: came {came:?}, wanted {wanted:?}");
}

/// Asserts a condition of a case.
pub(crate) fn holds(rt: &impl Abort, case: &str, is_so: bool) {
    assert!(rt; is_so, "{case}");
}

/// Compares a scalar with the wanted one.
pub(crate) fn is_scalar(rt: &impl Abort, case: &str, came: Option<char>, wanted: Option<char>) {
    is(rt, case, came, wanted);
}

/// Compares pointers with the wanted ones.
pub(crate) fn are_pointers(rt: &impl Abort, case: &str, came: &[u16], wanted: &[u16]) {
    is(rt, case, came, wanted);
}

/// Compares the error of a file or the first fault of indexes, if there is one, with the wanted one.
pub(crate) fn is_error<E: PartialEq + Debug>(
    rt: &impl Abort,
    case: &str,
    came: Option<&E>,
    wanted: Option<&E>,
) {
    is(rt, case, came, wanted);
}

/// Compares the printed text with the wanted one.
pub(crate) fn prints<T: Display>(rt: &(impl AllocGlobal + Abort), what: &T, wanted: &str) {
    let came = what.to_string(rt.alloc()).expect(rt, "no memory");
    is(rt, "the text", came.as_str(), wanted);
}
