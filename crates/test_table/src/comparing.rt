//! How the tests compare. A call of a function here costs a caller's proof less than what an assertion writes out
//! there.

ghost use Rattle.std.specs.Prelude.{◌≡◌};

use std::fmt::Debug;
use std::process::Abort;

/// A call has found this number, and its caller may rely on it; or the test ends.
pub(crate) fn is(rt: &impl Abort, found: u64, wanted: u64)
    ensures same { found ≡ wanted }
{
    assert_eq!(rt; found, wanted);
}

/// The two are one value, or the test ends and names the case.
pub(crate) fn same<T: PartialEq + Debug + Drop>(rt: &impl Abort, case: &str, found: T, wanted: T) {
    assert_eq!(rt; found, wanted, "{case}");
}

/// It is so, or the test ends and names the case.
pub(crate) fn holds(rt: &impl Abort, case: &str, is_so: bool) {
    assert!(rt; is_so, "{case}");
}
