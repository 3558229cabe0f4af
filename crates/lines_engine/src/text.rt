//! The answers to the lines of a text in memory, without devices.
ghost use Rattle.std.specs.Prelude.{[], IfOk, Some};
ghost use Rattle.lines_engine.specs.Run.{AnswersAll};

use crate::adapters::IntoWrite;
use crate::answers::Answers;
use crate::engine::answer_lines;
use std::alloc::{AllocError, Allocator};

/// Returns the answers to all lines of a text, in order, each as one line.
///
/// The last line may lack its end. The octets are those that a run writes for this input.
///
/// # Errors
///
/// [`AllocError`] if an allocation fails.
pub fn answer_text<A: Allocator + Copy, L: Answers>(
    alloc: A,
    answers: &L,
    input: &[u8],
) -> Result<Vec<u8, A>, AllocError>
    ensures { IfOk result (λ written. AnswersAll (L.is_answer answers.now) (Some []) (Some written.items) input.now) }
{
    let mut sink = IntoWrite::new(Vec::new(alloc));
    // A write to a vector fails only if an allocation does.
    answer_lines(alloc, answers, input, &mut sink).map_err(|_| AllocError)?;
    Ok(sink.into_inner())
}
