//! The answers to lines in steps, as a parameter of an engine.
ghost use Rattle.std.specs.Prelude.{ℕ, List, OnOk};
ghost use Rattle.std.specs.String.{string_bytes};

use crate::answers::Answers;
use std::alloc::{AllocError, Allocator};

/// A type that answers a line in steps.
///
/// An engine begins the answers to several lines. Then it takes the first step for each of them, then the second step
/// for each, and so on. The reads of memory for one line then don't wait for the reads for another line.
///
/// [`OneByOne`] implements this trait for a type that answers a line by one call.
pub trait Steps: Answers {
    /// Holds what is known about the answer to a line, between two steps.
    type Begun: Drop;

    // Whether a value is what is known of the answer to a line, after any number of steps. The arguments are `self`,
    // the value, and the line.
    ghost is_begun: { Self → Self.Begun → List ℕ → Type 0 };

    /// Begins the answer to `line`, which has no end of line.
    fn begin(&self, line: &[u8]) -> Self::Begun
        ensures { is_begun self.now result line.now };

    /// Takes the next step, if one is left. Returns whether another step is left.
    ///
    /// An engine may take any number of steps for a line, or none. The answer is the same. An engine that takes all
    /// steps side by side stops when none is left.
    fn advance(&self, begun: &mut Self::Begun) -> bool
        ensures { (line : List ℕ) → is_begun self.now begun.old line → is_begun self.now begun.new line };

    /// Replaces the content of `text` by the answer to `line`.
    ///
    /// The call does what the steps that are left would do. An engine passes the line without its end, and writes an
    /// end of line after the answer. It may pass the same `text` for several lines.
    ///
    /// # Preconditions
    ///
    /// `begun` is the value that [`begin`](Steps::begin) returned for `line`, maybe some steps later.
    ///
    /// # Errors
    ///
    /// [`AllocError`] if an allocation fails. The content of `text` is unspecified then.
    fn end<A: Allocator + Copy>(
        &self,
        alloc: A,
        line: &[u8],
        begun: &Self::Begun,
        text: &mut String<A>,
    ) -> Result<(), AllocError>
        requires { is_begun self.now begun.now line.now }
        ensures { OnOk result (Self.is_answer self.now line.now (string_bytes text.new)) };
}

/// Answers lines without steps, each by one call of [`Answers::answer`].
#[derive(Drop)]
pub struct OneByOne<'a, L>(pub &'a L);

impl<L: Answers> Answers for OneByOne<'_, L> {
    ghost is_answer = { λ lines line text. L.is_answer lines.0.now line text };

    fn answer<A: Allocator + Copy>(
        &self,
        alloc: A,
        line: &[u8],
        text: &mut String<A>,
    ) -> Result<(), AllocError> {
        self.0.answer(alloc, line, text)
    }
}

impl<L: Answers> Steps for OneByOne<'_, L> {
    type Begun = ();

    ghost is_begun = { λ _ _ _. Unit {0} };

    fn begin(&self, _line: &[u8]) {}

    fn advance(&self, _begun: &mut ()) -> bool {
        false
    }

    fn end<A: Allocator + Copy>(
        &self,
        alloc: A,
        line: &[u8],
        _begun: &(),
        text: &mut String<A>,
    ) -> Result<(), AllocError> {
        self.answer(alloc, line, text)
    }
}
