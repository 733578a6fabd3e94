//! How the tests compare. A call of a function here costs a caller's proof less than what an assertion writes out
//! there.

use std::fmt::Debug;
use std::process::Abort;

/// The two are one value, or the test ends. A caller's proof doesn't know of it.
pub(super) fn same<T: PartialEq + Debug + Drop>(rt: &impl Abort, found: T, wanted: T) {
    assert_eq!(rt; found, wanted);
}
