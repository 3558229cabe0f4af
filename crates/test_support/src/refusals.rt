//! Calls with each request for memory refused in turn.
use crate::{Outcome, Refusing, refuse_in_turn};
use std::alloc::{AllocError, Allocator, Global};

/// A line that is a call.
pub trait Call: Drop {
    /// Returns the line.
    fn text(&self) -> &str;

    /// Returns the answer to the line, or `AllocError` if memory runs out.
    fn answer<A: Allocator + Copy>(&self, alloc: A) -> Result<String<A>, AllocError>;
}

/// Returns the answer to a line, or the first of its runs that went wrong.
pub fn answer<C: Call>(alloc: Global, line: &C) -> Result<String, AllocError> {
    match line.answer(alloc) {
        Ok(answer) => answer_where_refused(alloc, line, answer),
        Err(AllocError) => String::from_str(alloc, "out of memory"),
    }
}

/// Returns the answer if each run that is refused memory reports only that.
fn answer_where_refused<C: Call>(
    alloc: Global,
    line: &C,
    answer: String,
) -> Result<String, AllocError> {
    let text = answer.as_str();
    let refused = refuse_in_turn(alloc, limit(line), |refusing: &Refusing| {
        outcome(refusing, line, text)
    });
    match refused {
        Ok(_) => Ok(answer),
        Err(number) => format!(in alloc; "wrong where request {number} is refused: {answer}"),
    }
}

/// Returns the maximum number of requests for memory of a line.
fn limit<C: Call>(line: &C) -> u64 {
    64 + line.text().len() as u64
}

fn outcome<C: Call>(refusing: &Refusing, line: &C, expected: &str) -> Outcome {
    match line.answer(refusing) {
        Ok(answer) => compared(answer.as_str() == expected),
        Err(AllocError) => Outcome::OutOfMemory,
    }
}

fn compared(is_expected: bool) -> Outcome {
    if is_expected {
        Outcome::Expected
    } else {
        Outcome::Unexpected
    }
}
