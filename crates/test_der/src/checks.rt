// The ends of tests. A call costs the proof less than an assertion does.
use std::fmt::Debug;
use std::process::Abort;

/// Stops the test if the two are not the same.
pub fn same<T: PartialEq + Debug + Drop>(rt: &impl Abort, one: T, other: T) {
    assert!(rt; one == other, "{one:?} is not {other:?}");
}

/// Stops the test if the condition is false.
pub fn holds(rt: &impl Abort, is_so: bool) {
    assert!(rt; is_so);
}
