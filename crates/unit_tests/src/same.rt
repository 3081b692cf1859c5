// What tests assert.

use std::alloc::AllocError;
use std::fmt::Debug;
use std::process::Abort;

/// Asserts that what is found is what is wanted. How two values are compared, and printed where they
/// differ, is proved here, once, and not at each place that asserts.
pub(crate) fn same<R: Abort, T: PartialEq + Debug + Copy>(rt: &R, found: T, wanted: T) {
    assert_eq!(rt; found, wanted);
}

/// Asserts that bytes could be made, and are these.
pub(crate) fn same_bytes<R: Abort>(rt: &R, made: Result<Vec<u8>, AllocError>, wanted: &[u8]) {
    match made {
        Ok(bytes) => same(rt, bytes.as_slice(), wanted),
        Err(AllocError) => assert!(rt; false, "no memory"),
    }
}
