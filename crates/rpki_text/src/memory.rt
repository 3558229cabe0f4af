//! The error of a call that also allocates.
ghost use Rattle.std.specs.Prelude.{◌≡◌, MatchResult};
ghost use Rattle.std.specs.Result.{IsErrAnd};
ghost use Rattle.rpki_text.specs.Memory.{ForRefused, IsMemory, IsRefusedAnd, MatchOrMemory};

use std::alloc::{AllocError, AllocFailed};
use std::error::Error;
use std::fmt;

/// The reason why a call that also allocates returned no value.
#[derive(Clone, Copy, Debug, PartialEq, Eq, Drop)]
pub enum OrMemory<E> {
    /// The call refuses its input, for this reason.
    Refused(E),
    /// Out of memory: an allocation failed. The error carries no information about the input.
    Memory(AllocError),
}

impl<E> OrMemory<E> {
    /// Returns the error with the result of `f` in place of the error of a refusal.
    ///
    /// An out-of-memory error is unchanged. The call runs `f` only for a refusal.
    ///
    /// # Preconditions
    ///
    /// The error of a refusal satisfies the precondition of `f`.
    pub fn map_refused<D, F: FnOnce(E) -> D>(self, f: F) -> OrMemory<D>
        requires { ForRefused self (F.pre f) }
        ensures { MatchOrMemory self (λ fault. IsRefusedAnd result (F.post f fault))
            (IsMemory result) }
    {
        match self {
            OrMemory::Refused(fault) => OrMemory::Refused(f(fault)),
            OrMemory::Memory(error) => OrMemory::Memory(error),
        }
    }
}

/// Returns `answer` with the result of `f` in place of the error of a refusal.
///
/// A value and an out-of-memory error are unchanged. The call runs `f` only for a refusal.
///
/// # Preconditions
///
/// The error of a refusal satisfies the precondition of `f`.
pub fn refused_as<T, E, D, F: FnOnce(E) -> D>(
    answer: Result<T, OrMemory<E>>,
    f: F,
) -> Result<T, OrMemory<D>>
    requires { (error : _) → answer ≡ Err error → ForRefused error (F.pre f) }
    ensures { MatchResult answer (λ value. result ≡ Ok value)
        (λ error. IsErrAnd result (λ outcome. MatchOrMemory error
        (λ fault. IsRefusedAnd outcome (F.post f fault)) (IsMemory outcome))) }
{
    match answer {
        Ok(value) => Ok(value),
        Err(error) => Err(error.map_refused(f)),
    }
}

impl<E> From<AllocError> for OrMemory<E> {
    ghost use Rattle.rpki_text.specs.Memory.{IsMemory};

    ghost from_gives = { λ _ error. IsMemory error };

    fn from(error: AllocError) -> OrMemory<E> {
        OrMemory::Memory(error)
    }
}

impl<E, T: Drop> From<AllocFailed<T>> for OrMemory<E> {
    ghost use Rattle.rpki_text.specs.Memory.{IsMemory};

    ghost from_gives = { λ _ error. IsMemory error };

    fn from(failed: AllocFailed<T>) -> OrMemory<E> {
        OrMemory::Memory(AllocError::from(failed))
    }
}

/// Prints a refusal in its own form, and an out-of-memory error as `out of memory`.
impl<E: fmt::Display> fmt::Display for OrMemory<E> {
    ghost use Rattle.rpki_text.specs.Memory.{or_memory_text};

    ghost output = { or_memory_text E.output };

    fn fmt<W: fmt::Write>(&self, f: &mut fmt::Formatter<W>) -> fmt::Result {
        match self {
            OrMemory::Refused(fault) => fault.fmt(f),
            OrMemory::Memory(_) => f.write_str("out of memory"),
        }
    }
}

impl<E: Error> Error for OrMemory<E> {}
