//! The parts of a path: the first list, and the steps.
ghost use Rattle.std.specs.Prelude.{◌≢◌, codes, MatchOption, MatchResult};
ghost use Rattle.rpki_text.specs.Lists.{HaveValues, HasFirstFault};
ghost use Rattle.rpki_text.specs.Memory.{IfRefused};
ghost use Rattle.respath_lines.specs.Path.{ArePath, HasRootFault, HasStepFault, HavePathFault, IsMode, IsStepText, parts_of};

use crate::command::cut_at_space;
use crate::lists::Lists;
use rpki_base::memory::{OrMemory, refused_as};
use rpki_chain::path::{Overclaim, Step};
use std::alloc::Allocator;

/// The fault of a part of a path.
#[derive(Drop)]
pub(crate) enum PartFault<E> {
    /// The part is not a step.
    UnknownStep,
    /// The list of the part has this fault.
    BadList(E),
}

/// Returns the set of a path's first list and the steps, or the fault of the first invalid part.
///
/// The path is separated by `|`. Its first part is the first list, and the others are the steps.
pub(crate) fn read_path<A: Allocator + Copy, L: Lists<A>>(
    alloc: A,
    lists: &L,
    path: &str,
) -> Result<(L::Set, Vec<Step<L::Resources>, A>), OrMemory<PartFault<L::Fault>>>
    ensures { MatchResult result
        (λ read. ArePath L.claim (L.writes lists.now) (parts_of path.now) (L.runs read.0)
        read.1.items)
        (IfRefused (HavePathFault (L.fails lists.now) L.claim (L.writes lists.now)
        (parts_of path.now))) }
{
    let Some((list, steps)) = path.split_once('|') else {
        let root = read_root(alloc, lists, path)?;
        return Ok((root, Vec::new(alloc)));
    };
    let root = read_root(alloc, lists, list)?;
    let steps = read_steps(alloc, lists, steps)?;
    Ok((root, steps))
}

/// Returns the set of the first list.
fn read_root<A: Allocator + Copy, L: Lists<A>>(
    alloc: A,
    lists: &L,
    list: &str,
) -> Result<L::Set, OrMemory<PartFault<L::Fault>>>
    ensures { MatchResult result (λ set. L.writes lists.now list.now (L.runs set))
        (IfRefused (HasRootFault (L.fails lists.now) list.now)) }
{
    refused_as(lists.read(alloc, list), |fault| PartFault::BadList(fault))
}

/// Returns the steps in a text, which `|` separates, or the fault of the first part that is not a step.
fn read_steps<A: Allocator + Copy, L: Lists<A>>(
    alloc: A,
    lists: &L,
    text: &str,
) -> Result<Vec<Step<L::Resources>, A>, OrMemory<PartFault<L::Fault>>>
    ensures { MatchResult result
        (λ steps. HaveValues (IsStepText L.claim (L.writes lists.now)) (parts_of text.now)
        steps.items)
        (IfRefused (HasFirstFault (IsStepText L.claim (L.writes lists.now))
        (HasStepFault (L.fails lists.now)) (parts_of text.now))) }
{
    let mut steps = Vec::new(alloc);
    for part in text.split('|') {
        match read_step(alloc, lists, part) {
            Ok(step) => steps.push(step)?,
            Err(fault) => return Err(fault),
        }
    }
    Ok(steps)
}

/// Returns the step in a part, without the white space at its ends.
///
/// A step is `inherit` or `missing` alone, or a mode, a space and the list of claimed resources. The mode says what
/// happens to overclaimed resources.
fn read_step<A: Allocator + Copy, L: Lists<A>>(
    alloc: A,
    lists: &L,
    part: &str,
) -> Result<Step<L::Resources>, OrMemory<PartFault<L::Fault>>>
    ensures { MatchResult result (IsStepText L.claim (L.writes lists.now) part.now)
        (IfRefused (HasStepFault (L.fails lists.now) part.now)) }
{
    let text = part.trim();
    if text == "inherit" {
        return Ok(Step {
            claim: L::inherited(),
            mode: Overclaim::Refuse,
        });
    }
    if text == "missing" {
        return Ok(Step {
            claim: L::missing(),
            mode: Overclaim::Refuse,
        });
    }
    let (word, list) = cut_at_space(text);
    let Some(mode) = mode_named(word) else {
        return Err(OrMemory::Refused(PartFault::UnknownStep));
    };
    match lists.read(alloc, list) {
        Ok(set) => Ok(Step {
            claim: L::listed(set),
            mode,
        }),
        Err(OrMemory::Refused(fault)) => Err(OrMemory::Refused(PartFault::BadList(fault))),
        Err(OrMemory::Memory(error)) => Err(OrMemory::Memory(error)),
    }
}

/// Returns the mode with the name `refuse` or `trim`, or None for any other word.
pub fn mode_named(word: &str) -> Option<Overclaim>
    ensures { MatchOption result ((word.now ≢ codes "refuse") × (word.now ≢ codes "trim"))
        (IsMode word.now) }
{
    match word {
        "refuse" => Some(Overclaim::Refuse),
        "trim" => Some(Overclaim::Trim),
        _ => None,
    }
}
