//! How the tests compare. A call of a function here costs a caller's proof less than what an assertion writes out
//! there.

use std::alloc::AllocGlobal;
use std::fmt::Debug;
use std::process::Abort;

/// The two are one value, or the test ends and names the case.
pub(crate) fn same<T: PartialEq + Debug + Drop>(rt: &impl Abort, case: &str, found: T, wanted: T) {
    assert_eq!(rt; found, wanted, "{case}");
}

/// The same in a test that goes over sizes of memory.
pub(crate) fn same_at<T: PartialEq + Debug + Drop>(
    rt: &impl Abort,
    size: usize,
    found: T,
    wanted: T,
) {
    assert_eq!(rt; found, wanted, "at {size}");
}

/// The value is shown as this text, or the test ends and names the case.
// What is wanted stands in a table as a text, since a constant table of an enum's values costs the proof minutes.
pub(crate) fn shows<R: Abort + AllocGlobal, T: Debug>(rt: &R, case: &str, found: &T, wanted: &str) {
    let shown = format!(in rt.alloc(); "{found:?}").expect(rt, "memory");
    same(rt, case, shown.as_str(), wanted);
}

/// The same of a step of a case, which are both named.
pub(crate) fn comes<R: Abort + AllocGlobal, T: Debug>(
    rt: &R,
    case: &str,
    step: &str,
    found: &T,
    wanted: &str,
) {
    let shown = format!(in rt.alloc(); "{found:?}").expect(rt, "memory");
    assert_eq!(rt; shown.as_str(), wanted, "{case}, {step}");
}

/// It is so, or the test ends and names the case.
pub(crate) fn holds(rt: &impl Abort, case: &str, is_so: bool) {
    assert!(rt; is_so, "{case}");
}

/// Each of these is so.
pub(crate) fn all_hold(rt: &impl Abort, cases: &[(&str, bool)]) {
    for &(case, is_so) in cases {
        holds(rt, case, is_so);
    }
}
