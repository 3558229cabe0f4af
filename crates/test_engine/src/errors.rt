//! The errors of a run as errors of std.
use lines_engine::device::DeviceFault;
use lines_engine::error::RunError;
use std::alloc::Global;
use std::error::Error;
use test_support::prints;

/// Passes an error on by `?`.
fn pass_on<E: Error>(ended: Result<(), E>) -> anyhow::Result<()> {
    ended?;
    Ok(())
}

/// Returns whether the `anyhow::Error` that `?` makes of an error prints this text.
fn is_passed_on<E: Error>(alloc: Global, error: E, text: &str) -> bool {
    match pass_on(Err(error)) {
        Ok(()) => false,
        Err(error) => prints(alloc, &error, text) == Ok(true),
    }
}

#[test]
fn errors_are_passed_on_into_anyhow(rt: HostRuntime) {
    assert!(rt; is_passed_on(rt.alloc(), RunError::Read, "read failed"));
    assert!(rt; is_passed_on(rt.alloc(), RunError::Write, "write failed"));
    assert!(rt; is_passed_on(rt.alloc(), RunError::Memory, "out of memory"));
    assert!(rt; is_passed_on(rt.alloc(), DeviceFault, "device failed"));
}
