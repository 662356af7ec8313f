//! Comparisons for tests. As functions of their own they are proved once, and not at each place of
//! a test.

use std::fmt::Debug;
use std::process::Abort;

// The call returns this number.
pub(crate) fn answers<R: Abort>(rt: &R, found: u32, wanted: u32) {
    assert_eq!(rt; found, wanted);
}

// The two are equal.
pub(crate) fn same<R: Abort, T: PartialEq + Debug + Drop>(rt: &R, found: T, wanted: T) {
    assert_eq!(rt; found, wanted);
}
