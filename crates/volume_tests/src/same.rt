// What tests assert.

use std::fmt::Debug;
use std::process::Abort;

/// Asserts that what is found is what is wanted. How two values are compared, and printed where they
/// differ, is proved here, once, and not at each place that asserts.
pub(crate) fn same<R: Abort, T: PartialEq + Debug + Copy>(rt: &R, found: T, wanted: T) {
    assert_eq!(rt; found, wanted);
}
