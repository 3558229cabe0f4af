//! A check that a call leaves its operands unchanged, with any result.
use std::alloc::{AllocError, Allocator};

/// Returns the answer of a call if its operands are unchanged, and else a text that says that they are not.
///
/// Returns `AllocError` if the call or the comparison ran out of memory.
pub fn kept<A: Allocator + Copy>(
    alloc: A,
    found: Result<String<A>, AllocError>,
    is_kept: Result<bool, AllocError>,
) -> Result<String<A>, AllocError> {
    match is_kept {
        Ok(true) => found,
        Ok(false) => String::from_str(alloc, "the operands were not kept"),
        Err(error) => Err(error),
    }
}
