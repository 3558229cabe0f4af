//! The engine that reads the whole input before it answers a line, and the steps that both engines share.
ghost use Rattle.std.specs.Prelude.{◌≡◌, ◌<◌, [], ◌∷◌, ℕ, true, false, vec_len, IfOk, IfErr, IfSome, OnOk, OnErr, IsErrOf, List};
ghost use Rattle.rpki_text.specs.Lines.{lines_of};
ghost use Rattle.std.specs.Io.KnownBytes.{IsAtEnd, Keeps};
ghost use Rattle.std.specs.String.{string_bytes};
ghost use Rattle.lines_engine.specs.Run.{AreAnswered, HasWritten, IsLineWritten, IsRun, MarksWriter};

use crate::answers::Answers;
use crate::device::{DeviceFault, Sink, Source};
use crate::error::RunError;
use rpki_text::line::cut_at_line_end;
use std::alloc::{AllocError, Allocator};

/// The number of bytes that one read requests at most.
const PIECE: usize = 64 * 1024;

/// Allocates the buffer for the reads of a run. On the stack it would take half of a program's stack.
pub(crate) fn read_buffer<A: Allocator>(alloc: A) -> Result<Vec<u8, A>, AllocError>
    ensures { IfOk result (λ buffer. 0 < vec_len buffer) }
{
    vec![in alloc; 0; PIECE]
}

/// Reads `reader` to its end, then writes to `writer` the answer of `answers` to each line, in order, as one line.
///
/// The run flushes `writer` after the last answer, and after an empty input. It never repeats a call that failed.
///
/// # Preconditions
///
/// No call of `reader` or `writer` has failed, and each write of bytes has taken at least one.
///
/// # Errors
///
/// - [`RunError::Read`]: a read failed. The run wrote nothing.
/// - [`RunError::Write`]: a write or the flush failed, or a write took no byte. A beginning of the answers was written.
/// - [`RunError::Memory`]: an allocation failed. The answers to some first lines were written whole, and nothing else.
///   They are not the answers to all lines, unless the input is empty.
#[tactic(auto, using(crate::proofs::RunLemmas::unanswered, crate::proofs::RunLemmas::run_failed, crate::proofs::RunLemmas::run_flushed))]
pub fn run<A: Allocator + Copy, L: Answers, R: Source, W: Sink>(
    alloc: A,
    answers: &L,
    reader: &mut R,
    writer: &mut W,
) -> Result<(), RunError>
    requires reader_clear { R.mark reader.old ≡ false }
    requires writer_clear { W.mark writer.old ≡ false }
    ensures { IsRun R.mark R.left W.mark W.written W.flushed (L.is_answer answers.now) (writer.new ≡ writer.old)
        reader.old reader.new writer.old writer.new result }
{
    let input = read_to_end(alloc, reader)?;
    answer_lines(alloc, answers, &input, writer)?;
    flush_all(writer)
}

/// Reads `reader` to its end and returns its bytes. The call allocates its buffer before the first read.
///
/// # Preconditions
///
/// No call of `reader` has failed.
///
/// # Errors
///
/// After an error, the bytes that were read are lost.
///
/// - [`RunError::Read`]: a read failed. The call doesn't repeat it.
/// - [`RunError::Memory`]: an allocation failed.
pub fn read_to_end<A: Allocator + Copy, R: Source>(
    alloc: A,
    reader: &mut R,
) -> Result<Vec<u8, A>, RunError>
    requires clear { R.mark reader.old ≡ false }
    ensures unmarked { OnOk result (R.mark reader.new ≡ R.mark reader.old) }
    ensures whole { OnOk result (IsAtEnd (R.left reader.new)) }
    ensures bytes { IfOk result (λ input. IfSome (R.left reader.old)
        (λ bytes. input.items ≡ bytes)) }
    ensures read { IsErrOf result RunError.Read → R.mark reader.new ≡ true }
    ensures memory { IsErrOf result RunError.Memory → R.mark reader.new ≡ R.mark reader.old }
    ensures not_write { IsErrOf result RunError.Write → ⊥ }
{
    let mut piece = read_buffer(alloc)?;
    let mut input = Vec::new(alloc);
    loop {
        let count = match reader.read(&mut piece) {
            Ok(count) => count,
            Err(DeviceFault) => return Err(RunError::Read),
        };
        if count == 0 {
            return Ok(input);
        }
        input.extend_from_slice(&piece[..count])?;
    }
}

/// Writes to `writer` the answer to each line of `text`, in order, as one line.
#[tactic(auto, using(crate::proofs::RunLemmas::answered_none, crate::proofs::RunLemmas::answered_then, crate::proofs::RunLemmas::then_are))]
pub(crate) fn answer_lines<A: Allocator + Copy, L: Answers, W: Sink>(
    alloc: A,
    answers: &L,
    text: &[u8],
    writer: &mut W,
) -> Result<(), RunError>
    requires clear { W.mark writer.old ≡ false }
    ensures marked { MarksWriter (W.mark writer.old) (W.mark writer.new) result }
    ensures answered { AreAnswered (L.is_answer answers.now) (W.written writer.old) (W.written writer.new)
        (lines_of text.now) [] result }
{
    let mut answer = String::new(alloc);
    let mut rest = text;
    while !rest.is_empty() {
        let (line, after) = cut_at_line_end(rest);
        answer_line(alloc, answers, line, &mut answer, writer)?;
        rest = after;
    }
    Ok(())
}

/// Writes the answer to `line` to `writer`, as one line.
#[tactic(auto, using(crate::proofs::RunLemmas::line_are, crate::proofs::RunLemmas::none_are))]
pub(crate) fn answer_line<A: Allocator + Copy, L: Answers, W: Sink>(
    alloc: A,
    answers: &L,
    line: &[u8],
    text: &mut String<A>,
    writer: &mut W,
) -> Result<(), RunError>
    requires clear { W.mark writer.old ≡ false }
    ensures marked { MarksWriter (W.mark writer.old) (W.mark writer.new) result }
    ensures answered { (rest : List (List ℕ)) → AreAnswered (L.is_answer answers.now) (W.written writer.old)
        (W.written writer.new) (line.now ∷ rest) rest result }
{
    answers.answer(alloc, line, text)?;
    write_line(text, writer)
}

/// Appends an end of line to `text`, and then writes it to `writer`.
#[tactic(auto, using(crate::proofs::RunLemmas::written_line))]
pub(crate) fn write_line<A: Allocator, W: Sink>(
    text: &mut String<A>,
    writer: &mut W,
) -> Result<(), RunError>
    requires clear { W.mark writer.old ≡ false }
    ensures marked { MarksWriter (W.mark writer.old) (W.mark writer.new) result }
    ensures written { IsLineWritten (W.written writer.old) (W.written writer.new) (string_bytes text.old) result }
{
    text.push('\n')?;
    write_all(writer, text.as_bytes()).map_err(|_| RunError::Write)
}

/// Writes all of `piece` to `writer`. The call flushes nothing.
///
/// # Preconditions
///
/// No call of `writer` has failed, and each write of bytes has taken at least one.
///
/// # Errors
///
/// [`DeviceFault`]: a write failed or took no byte. The call doesn't repeat it. A beginning of `piece` was written.
#[tactic(auto, using(std::proofs::lemmas::Grind::common_steps, crate::proofs::RunLemmas::written_more))]
pub fn write_all<W: Sink>(writer: &mut W, piece: &[u8]) -> Result<(), DeviceFault>
    requires clear { W.mark writer.old ≡ false }
    ensures unmarked { OnOk result (W.mark writer.new ≡ W.mark writer.old) }
    ensures whole { OnOk result (HasWritten (W.written writer.old) (W.written writer.new) piece.now
        []) }
    ensures mark { OnErr result (W.mark writer.new ≡ true) }
    ensures some_written { OnErr result ((unwritten : List ℕ)
        × HasWritten (W.written writer.old) (W.written writer.new) piece.now unwritten) }
{
    let mut rest = piece;
    while !rest.is_empty() {
        let count = writer.write(rest)?;
        if count == 0 {
            return Err(DeviceFault);
        }
        rest = &rest[count..];
    }
    Ok(())
}

/// Flushes `writer`. The written bytes are unchanged.
///
/// # Preconditions
///
/// No call of `writer` has failed, and each write of bytes has taken at least one.
///
/// # Errors
///
/// [`RunError::Write`]: the flush failed. The call doesn't repeat it.
pub fn flush_all<W: Sink>(writer: &mut W) -> Result<(), RunError>
    requires clear { W.mark writer.old ≡ false }
    ensures unmarked { OnOk result (W.mark writer.new ≡ W.mark writer.old) }
    ensures flushed { OnOk result (W.flushed writer.new ≡ true) }
    ensures write { IfErr result (λ error. (error ≡ RunError.Write) × (W.mark writer.new ≡ true)) }
    ensures kept { Keeps (W.written writer.old) (W.written writer.new) }
{
    writer.flush().map_err(|_| RunError::Write)
}
