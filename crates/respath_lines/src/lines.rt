//! A run of `respath`: the input's lines, each answered by its command.
ghost use Rattle.std.specs.Prelude.{◌≡◌, [], true, false, IfOk, IfSome, OnOk, IsErrOf, Some};
ghost use Rattle.std.specs.Io.KnownBytes.{IsAtEnd};
ghost use Rattle.lines_engine.specs.Run.{AnswersAll, AnswersFirst, BeginsAnswers};
ghost use Rattle.respath_lines.specs.Answer.{IsAnswer};

use crate::put_answer;
use lines_engine::answers::Answers;
use lines_engine::device::{Sink, Source};
use lines_engine::error::RunError;
use lines_engine::{engine, text};
use std::alloc::{AllocError, Allocator};

/// The commands of `respath`, for an engine that takes any [`Answers`].
#[derive(Clone, Copy, Debug, PartialEq, Eq)]
pub struct Commands;

impl Answers for Commands {
    ghost is_answer = { λ _ line text. IsAnswer line text };

    fn answer<A: Allocator + Copy>(
        &self,
        alloc: A,
        line: &[u8],
        text: &mut String<A>,
    ) -> Result<(), AllocError> {
        put_answer(alloc, line, text)
    }
}

/// Reads `reader` to its end, then writes to `writer` the answer to each line, in order, as one line.
///
/// - `alloc`: the allocator for the input and the answers.
/// - `reader`: the input. The last line may lack its end.
/// - `writer`: the output. The run flushes it after the last answer, and after an empty input.
///
/// The run never repeats a call that failed.
///
/// # Preconditions
///
/// No call of `reader` or `writer` has failed, and no write has taken nothing. A new
/// [`FromRead`](lines_engine::adapters::FromRead) and a new [`IntoWrite`](lines_engine::adapters::IntoWrite) meet this
/// precondition.
///
/// # Errors
///
/// - [`RunError::Read`]: a read failed. The run wrote nothing.
/// - [`RunError::Write`]: a write or the flush failed, or a write took nothing. A beginning of the answers was written.
/// - [`RunError::Memory`]: an allocation failed. The answers to some first lines were written whole, and nothing else.
///   They are not the answers to all lines, unless the input is empty.
pub fn run<A: Allocator + Copy, R: Source, W: Sink>(
    alloc: A,
    reader: &mut R,
    writer: &mut W,
) -> Result<(), RunError>
    // No call of either has failed.
    requires reader_clear { R.mark reader.old ≡ false }
    requires writer_clear { W.mark writer.old ≡ false }

    // Ok: no call failed, the input was read to its end, each answer was written whole, and the writer is flushed.
    ensures unmarked { OnOk result ((R.mark reader.new ≡ R.mark reader.old)
        × (W.mark writer.new ≡ W.mark writer.old)) }
    ensures read_whole { OnOk result (IsAtEnd (R.left reader.new)) }
    ensures answered { OnOk result (IfSome (R.left reader.old)
        (AnswersAll IsAnswer (W.written writer.old) (W.written writer.new))) }
    ensures flushed { OnOk result (W.flushed writer.new ≡ true) }

    // Read: a read failed, and nothing was written.
    ensures read { IsErrOf result RunError.Read → R.mark reader.new ≡ true }
    ensures nothing_written { IsErrOf result RunError.Read → writer.new ≡ writer.old }

    // Memory: no call failed. The answers to some first lines were written whole, and nothing else. They are not the
    // answers to all lines, unless the input has no lines.
    ensures memory_unmarked { IsErrOf result RunError.Memory →
        (R.mark reader.new ≡ R.mark reader.old) × (W.mark writer.new ≡ W.mark writer.old) }
    ensures some_answered { IsErrOf result RunError.Memory → IfSome (R.left reader.old)
        (AnswersFirst IsAnswer (W.written writer.old) (W.written writer.new)) }

    // Write: a write or the flush failed, or a write took nothing, and no read failed. A beginning of the answers was
    // written.
    ensures write { IsErrOf result RunError.Write → W.mark writer.new ≡ true }
    ensures no_read_failed { IsErrOf result RunError.Write → R.mark reader.new ≡ R.mark reader.old }
    ensures some_written { IsErrOf result RunError.Write → IfSome (R.left reader.old)
        (BeginsAnswers IsAnswer (W.written writer.old) (W.written writer.new)) }
{
    engine::run(alloc, &Commands, reader, writer)
}

/// Returns the answers to all lines of a text, in order, each as one line.
///
/// The last line may lack its end. The octets are those that [`run`] writes for this input. The call needs no device.
///
/// # Errors
///
/// [`AllocError`] if an allocation fails.
pub fn answer_text<A: Allocator + Copy>(alloc: A, input: &[u8]) -> Result<Vec<u8, A>, AllocError>
    ensures { IfOk result (λ written. AnswersAll IsAnswer (Some []) (Some written.items) input.now) }
{
    text::answer_text(alloc, &Commands, input)
}
