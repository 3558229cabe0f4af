//! Checks of a value of any type, and of a run that is refused memory.
use crate::{Outcome, Refusing, refuse_in_turn};
use std::alloc::{AllocError, Allocator, Global};
use std::fmt;
use std::hash::{FoldHasher, Hash, Hasher};

/// Returns the hash of a value.
pub fn hash_of<T: Hash>(value: &T) -> u64 {
    let mut hasher = FoldHasher::default();
    value.hash(&mut hasher);
    hasher.finish()
}

/// Returns whether `{}` prints this text for a value, or `AllocError` if memory runs out.
pub fn prints<A: Allocator, T: fmt::Display>(
    alloc: A,
    value: &T,
    text: &str,
) -> Result<bool, AllocError> {
    let printed = format!(in alloc; "{value}")?;
    Ok(printed.as_str() == text)
}

/// Returns whether `{:?}` prints this text for a value, or `AllocError` if memory runs out.
pub fn shows<A: Allocator, T: fmt::Debug>(
    alloc: A,
    value: &T,
    text: &str,
) -> Result<bool, AllocError> {
    let shown = format!(in alloc; "{value:?}")?;
    Ok(shown.as_str() == text)
}

/// Returns whether `{}` prints for each value the text of its row, or `AllocError` if memory runs out.
pub fn all_print<A: Allocator + Copy, T: fmt::Display>(
    alloc: A,
    rows: &[(T, &str)],
) -> Result<bool, AllocError> {
    for (value, text) in rows {
        if !prints(alloc, value, text)? {
            return Ok(false);
        }
    }
    Ok(true)
}

/// Returns whether a run returns true if no request is refused, and `AllocError` for each request that is refused in
/// turn.
///
/// It also returns false if the run makes no request.
///
/// # Preconditions
///
/// `run` can be called at any time.
pub fn holds_where_refused<F: Fn(&Refusing) -> Result<bool, AllocError>>(
    alloc: Global,
    run: F,
) -> bool
    requires { F.IsAlwaysCallable run }
{
    let refused = refuse_in_turn(alloc, 1000, |refusing: &Refusing| outcome(run(refusing)));
    matches!(refused, Ok(number) if number > 0)
}

fn outcome(answer: Result<bool, AllocError>) -> Outcome {
    match answer {
        Ok(true) => Outcome::Expected,
        Ok(false) => Outcome::Unexpected,
        Err(_) => Outcome::OutOfMemory,
    }
}
