//! The engine that answers each line as soon as it has read its end.
ghost use Rattle.std.specs.Prelude.{◌≡◌, ◌<◌, ◌++◌, length, ℕ, List, false, IfErr, OnOk};
ghost use Rattle.rpki_text.specs.Cuts.{HasNo};
ghost use Rattle.rpki_text.specs.Lines.{lines_of};
ghost use Rattle.lines_engine.specs.Run.{AreAnswered, IsStreamRun, MarksWriter};

use crate::device::{DeviceFault, Sink, Source};
use crate::engine::{answer_line, answer_lines, flush_all, read_buffer};
use crate::error::RunError;
use crate::group::{answer_groups, split_at_newline};
use crate::steps::Steps;
use std::alloc::Allocator;

/// Writes to `writer` the answer of `answers` to each line of `reader`, in order, as one line.
///
/// The run answers a line as soon as it has read its end. It takes the steps for up to 12 lines of one read side by
/// side ([`Steps`]). It keeps only the bytes after the last end, so its memory grows with the longest line, not with
/// the input. It flushes `writer` once, after the last answer, and after an empty input. It never repeats a call that
/// failed.
///
/// # Preconditions
///
/// No call of `reader` or `writer` has failed, and each write of bytes has taken at least one.
///
/// # Errors
///
/// - [`RunError::Read`]: a read failed. The answers to the lines whose ends were read were written whole, and nothing
///   else.
/// - [`RunError::Write`]: a write or the flush failed, or a write took no byte. A beginning of the answers was written.
/// - [`RunError::Memory`]: an allocation failed, or the input has 2^64 bytes. The answers to some first lines were
///   written whole, and nothing else. They are not the answers to all lines, unless the input is empty.
#[tactic(auto, using(std::proofs::lemmas::Grind::common_steps, crate::proofs::RunLemmas::unanswered, crate::proofs::RunLemmas::run_failed, crate::proofs::RunLemmas::run_flushed, crate::proofs::StreamLemmas::but_none, crate::proofs::StreamLemmas::but_more))]
pub fn answer_as_read<A: Allocator + Copy, L: Steps, R: Source, W: Sink>(
    alloc: A,
    answers: &L,
    reader: &mut R,
    writer: &mut W,
) -> Result<(), RunError>
    requires reader_clear { R.mark reader.old ≡ false }
    requires writer_clear { W.mark writer.old ≡ false }
    ensures { IsStreamRun R.mark R.left W.mark W.written W.flushed (L.is_answer answers.now) reader.old reader.new
        writer.old writer.new result }
{
    let mut piece = read_buffer(alloc)?;
    let mut part = Vec::new(alloc);
    let mut text = String::new(alloc);
    let mut total: usize = 0;
    loop {
        let count = match reader.read(&mut piece) {
            Ok(count) => count,
            Err(DeviceFault) => return Err(RunError::Read),
        };
        if count == 0 {
            answer_lines(alloc, answers, &part, writer)?;
            return flush_all(writer);
        }
        total = match total.checked_add(count) {
            Some(total) => total,
            None => return Err(RunError::Memory),
        };
        answer_piece(
            alloc,
            answers,
            &mut part,
            &piece[..count],
            &mut text,
            writer,
        )?;
    }
}

/// Answers each line that ends in `piece`. The first of these lines begins with `part`.
///
/// Afterwards `part` is the start of the line whose end wasn't read.
#[tactic(auto, using(std::proofs::lemmas::Grind::common_steps, crate::proofs::GroupLemmas::cut_shorter, crate::proofs::StreamLemmas::left_are, crate::proofs::StreamLemmas::kept_are))]
fn answer_piece<A: Allocator + Copy, L: Steps, W: Sink>(
    alloc: A,
    answers: &L,
    part: &mut Vec<u8, A>,
    piece: &[u8],
    text: &mut String<A>,
    writer: &mut W,
) -> Result<(), RunError>
    requires clear { W.mark writer.old ≡ false }
    requires unended { HasNo 10 part.old.items }
    ensures unended { OnOk result (HasNo 10 part.new.items) }
    ensures marked { MarksWriter (W.mark writer.old) (W.mark writer.new) result }
    ensures answered { (more : List ℕ) → AreAnswered (L.is_answer answers.now) (W.written writer.old)
        (W.written writer.new) (lines_of (part.old.items ++ (piece.now ++ more))) (lines_of (part.new.items ++ more))
        result }
{
    if part.as_slice().is_empty() {
        return answer_groups(alloc, answers, part, piece, text, writer);
    }
    match split_at_newline(piece) {
        Some((line, behind)) => {
            part.extend_from_slice(line)?;
            answer_line(alloc, answers, part.as_slice(), text, writer)?;
            part.clear();
            answer_groups(alloc, answers, part, behind, text, writer)
        }
        None => keep(part, piece),
    }
}

/// Appends `rest`, the bytes of a line whose end wasn't read, to `part`. The call allocates nothing if `rest` is empty.
pub(crate) fn keep<A: Allocator>(part: &mut Vec<u8, A>, rest: &[u8]) -> Result<(), RunError>
    ensures kept { OnOk result (part.new.items ≡ part.old.items ++ rest.now) }
    ensures memory { IfErr result (λ error. (error ≡ RunError.Memory) × (0 < length rest.now)) }
{
    if !rest.is_empty() {
        part.extend_from_slice(rest)?;
    }
    Ok(())
}
