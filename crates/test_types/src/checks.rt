// The ends of tests. A call costs the proof less than an assertion does.
use std::alloc::Global;
use std::fmt::Debug;
use std::process::Abort;
use test_support::shows;

/// Stops the test if the two are not the same.
pub fn same<T: PartialEq + Debug + Drop>(rt: &impl Abort, one: T, other: T) {
    assert!(rt; one == other, "{one:?} is not {other:?}");
}

/// Stops the test if the condition is false.
pub fn holds(rt: &impl Abort, is_so: bool) {
    assert!(rt; is_so);
}

/// Returns whether `{:?}` prints this text for a value.
pub fn is_shown<T: Debug>(alloc: Global, value: &T, text: &str) -> bool {
    shows(alloc, value, text) == Ok(true)
}
