//! Groups of lines. The answers to the lines of a group are made side by side, and written in order.
ghost use Rattle.std.specs.Prelude.{◌≡◌, ◌<◌, ◌≤◌, ◌+◌, ◌++◌, length, ℕ, List, [], false, vec_len, IfOk, MatchOption, OnErr, OnOk};
ghost use Rattle.rpki_text.specs.Cuts.{HasNo, IsCutAt};
ghost use Rattle.rpki_text.specs.Lines.{lines_of};
ghost use Rattle.lines_engine.specs.Groups.{AnswersAreBegun, group_lines};
ghost use Rattle.lines_engine.specs.Run.{AreAnswered, MarksWriter};

use crate::device::Sink;
use crate::engine::write_line;
use crate::error::RunError;
use crate::steps::Steps;
use crate::stream::keep;
use memchr::memchr;
use std::alloc::{AllocError, Allocator};

/// The number of lines in a group at most.
const GROUP: usize = 12;

/// The number of steps that are taken side by side for each line of a group at most.
///
/// A step of a binary search halves what is left, so 8 steps end a search among up to 255 items. The call that ends an
/// answer takes the steps that are left.
const ROUNDS: usize = 8;

/// A line, and what is known of its answer.
#[derive(Drop)]
struct BegunLine<'t, B> {
    line: &'t [u8],
    begun: B,
}

/// Returns the first line of a text without its end, and the text after that end, if the text has an end of line.
pub(crate) fn split_at_newline(text: &[u8]) -> Option<(&[u8], &[u8])>
    ensures { MatchOption result (HasNo 10 text.now) (λ cut. IsCutAt 10 text.now cut.0.now cut.1.now) }
{
    let at = memchr(b'\n', text)?;
    Some((&text[..at], &text[at + 1..]))
}

/// Answers each line that ends in `piece`, in groups. `part` is empty before the call. Afterwards it is the start of
/// the line whose end wasn't read.
#[tactic(auto, using(std::proofs::lemmas::Grind::common_steps, crate::proofs::RunLemmas::answered_none))]
pub(crate) fn answer_groups<A: Allocator + Copy, L: Steps, W: Sink>(
    alloc: A,
    answers: &L,
    part: &mut Vec<u8, A>,
    piece: &[u8],
    text: &mut String<A>,
    writer: &mut W,
) -> Result<(), RunError>
    requires clear { W.mark writer.old ≡ false }
    requires empty { part.old.items ≡ [] }
    ensures unended { OnOk result (HasNo 10 part.new.items) }
    ensures marked { MarksWriter (W.mark writer.old) (W.mark writer.new) result }
    ensures answered { (more : List ℕ) → AreAnswered (L.is_answer answers.now) (W.written writer.old)
        (W.written writer.new) (lines_of (piece.now ++ more)) (lines_of (part.new.items ++ more)) result }
{
    if piece.is_empty() {
        return Ok(());
    }
    let mut group = Vec::with_capacity(alloc, GROUP)?;
    let mut unanswered = piece;
    loop {
        let behind = begin_lines(answers, unanswered, &mut group)?;
        end_lines(alloc, answers, &mut group, text, writer)?;
        if group.len() < GROUP {
            return keep(part, behind);
        }
        group.clear();
        unanswered = behind;
    }
}

/// Begins the answers to the first lines that end in `text`, at most [`GROUP`], and appends them to `group`. Returns
/// the text after these lines.
#[tactic(auto, using(crate::proofs::GroupLemmas::cut_shorter, crate::proofs::GroupLemmas::lines_begun))]
fn begin_lines<'t, A: Allocator, L: Steps>(
    answers: &L,
    text: &'t [u8],
    group: &mut Vec<BegunLine<'t, L::Begun>, A>,
) -> Result<&'t [u8], AllocError>
    requires { group.old.items ≡ [] }
    ensures begun { AnswersAreBegun (L.is_begun answers.now) group.new.items }
    ensures lines { IfOk result (λ rest. (more : List ℕ) → lines_of (text.now ++ more) ≡
        group_lines group.new.items ++ lines_of (rest.now ++ more)) }
    ensures all { IfOk result (λ rest. vec_len group.new < 12 → HasNo 10 rest.now) }
    ensures shorter { IfOk result (λ rest. vec_len group.new + length rest.now ≤ length text.now) }
    ensures some { OnErr result (0 < length text.now) }
{
    let mut rest = text;
    while group.len() < GROUP {
        let Some((line, behind)) = split_at_newline(rest) else {
            return Ok(rest);
        };
        let begun = answers.begin(line);
        group.push(BegunLine { line, begun })?;
        rest = behind;
    }
    Ok(rest)
}

/// Takes the next steps for each line of `group`, side by side, until no step is left or [`ROUNDS`] are taken.
#[tactic(auto, using(std::proofs::lemmas::Grind::common_steps, crate::proofs::GroupLemmas::element_set))]
fn advance_lines<L: Steps>(answers: &L, group: &mut [BegunLine<'_, L::Begun>])
    requires { AnswersAreBegun (L.is_begun answers.now) group.old }
    ensures begun { AnswersAreBegun (L.is_begun answers.now) group.new }
    ensures lines { group_lines group.new ≡ group_lines group.old }
{
    for _ in 0..ROUNDS {
        let mut is_step_left = false;
        for asked in group.iter_mut() {
            is_step_left |= answers.advance(&mut asked.begun);
        }
        if !is_step_left {
            return;
        }
    }
}

/// Takes steps for the lines of `group`, and writes their answers to `writer`, in order, each as one line.
#[tactic(auto, using(crate::proofs::RunLemmas::answered_none))]
fn end_lines<A: Allocator + Copy, L: Steps, W: Sink>(
    alloc: A,
    answers: &L,
    group: &mut [BegunLine<'_, L::Begun>],
    text: &mut String<A>,
    writer: &mut W,
) -> Result<(), RunError>
    requires clear { W.mark writer.old ≡ false }
    requires begun { AnswersAreBegun (L.is_begun answers.now) group.old }
    ensures marked { MarksWriter (W.mark writer.old) (W.mark writer.new) result }
    ensures answered { AreAnswered (L.is_answer answers.now) (W.written writer.old) (W.written writer.new)
        (group_lines group.old) [] result }
{
    advance_lines(answers, group);
    let group: &[_] = group;
    for asked in group {
        answers.end(alloc, asked.line, &asked.begun, text)?;
        write_line(text, writer)?;
    }
    Ok(())
}
