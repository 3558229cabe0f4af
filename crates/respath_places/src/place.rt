//! The place of a fault or a refusal in a line, how it is found, and its printed text.
ghost use Rattle.std.specs.Prelude.{◌≡◌, ◌↔◌, ◌++◌, ◌∷◌, false, IfSome, IsTrue, MatchOption, OnOk};
ghost use Rattle.std.specs.String.{string_bytes};
ghost use Rattle.respath_places.specs.Places.{IsElement, IsFirstWrong, IsList, IsPart, IsWrongList, IsWrongPart, IsWrongPath, place_text, shown_text};

use respath_lines::command::cut_at_space;
use respath_lines::kind::Kind;
use respath_lines::steps::mode_named;
use rpki_as_block::block::AsBlock;
use rpki_block::block::Block;
use rpki_chain::set::BlockSet;
use rpki_ip_block::block::IpBlock;
use rpki_text::list::read_list;
use rpki_text::memory::OrMemory;
use std::alloc::{AllocError, Allocator};
use std::str::FromStr;

/// The place of a fault. The parts of a path have the numbers from 0: its first list, and then its steps.
#[derive(Clone, Copy, Debug)]
pub(crate) enum Place<'t> {
    /// A faulty element: the part of the path with its list, or None if the list is the argument, its index in the
    /// list, from 0, and its text.
    Element(Option<usize>, usize, &'t str),
    /// A part of a path that is an invalid step: its number and its text.
    NoStep(usize, &'t str),
}

/// Returns whether the text between two commas of a list is empty or a block, without white space at its ends.
#[tactic(auto, using(crate::proofs::AnswerLemmas::read_ok))]
fn is_element(kind: Kind, text: &str) -> bool
    ensures { IsTrue result ↔ IsElement kind text.now }
{
    let element = text.trim();
    element.is_empty()
        || match kind {
            Kind::As => AsBlock::from_str(element).is_ok(),
            Kind::V4 => IpBlock::from_v4_str(element).is_ok(),
            Kind::V6 => IpBlock::from_v6_str(element).is_ok(),
        }
}

/// Returns the index and the text of the first wrong element of a list.
fn first_wrong(kind: Kind, list: &str) -> Option<(usize, &str)>
    ensures { MatchOption result (IsList kind list.now) (λ found. IsFirstWrong kind list.now (found.0, found.1.now)) }
{
    list.split(',')
        .enumerate()
        .find(|found| !is_element(kind, found.1))
}

/// Returns the place of the first wrong element of a list, which is the argument or in a part of a path.
pub(crate) fn wrong_in_list<'t>(kind: Kind, part: Option<usize>, list: &'t str) -> Option<Place<'t>>
    ensures { MatchOption result (IsList kind list.now) (IsWrongList kind part list.now) }
{
    first_wrong(kind, list).map(|found| Place::Element(part, found.0, found.1))
}

/// Returns the place of the first wrong element in a part of a path, or of a part that is an invalid step.
#[tactic(auto, using(crate::proofs::AnswerLemmas::in_step))]
fn wrong_in_part<'t>(kind: Kind, part: usize, text: &'t str) -> Option<Place<'t>>
    ensures { MatchOption result (IsPart kind (part, text.now)) (IsWrongPart kind (part, text.now)) }
{
    if part == 0 {
        return wrong_in_list(kind, Some(part), text);
    }
    let step = text.trim();
    if step == "inherit" || step == "missing" {
        return None;
    }
    let (word, list) = cut_at_space(step);
    match mode_named(word) {
        Some(_) => wrong_in_list(kind, Some(part), list),
        None => Some(Place::NoStep(part, text)),
    }
}

/// Returns whether a part of a path has a wrong element, or is an invalid step.
fn is_wrong_part(kind: Kind, part: usize, text: &str) -> bool
    ensures { result ≡ false → IsPart kind (part, text.now) }
{
    wrong_in_part(kind, part, text).is_some()
}

/// Returns the place of the first wrong element of a path, or of its first part that is an invalid step.
pub(crate) fn wrong_in_path<'t>(kind: Kind, path: &'t str) -> Option<Place<'t>>
    ensures { IfSome result (IsWrongPath kind path.now) }
{
    let found = path
        .split('|')
        .enumerate()
        .find(|found| is_wrong_part(kind, found.0, found.1))?;
    wrong_in_part(kind, found.0, found.1)
}

/// Returns the number of the part of a path that an answer refuses, and the list of the overclaimed resources.
fn refused_part(answer: &str) -> Option<(usize, &str)> {
    let (step, text) = answer.strip_prefix("refused at step ")?.split_once(": ")?;
    let (_, overclaimed) = text.split_once(": ")?;
    Some((step.parse::<usize>().ok()?.checked_add(1)?, overclaimed))
}

/// Returns the index and the text of the first element of a list that has some of the overclaimed blocks.
fn first_overclaimed<'l, T: Block + FromStr + Drop, A: Allocator + Copy>(
    alloc: A,
    overclaimed: &str,
    list: &'l str,
) -> Result<Option<(usize, &'l str)>, AllocError>
where
    T::Err: Drop,
{
    let overclaimed = match read_list::<T, A>(alloc, overclaimed) {
        Ok(blocks) => BlockSet::from_vec(alloc, blocks)?,
        Err(OrMemory::Refused(_)) => return Ok(None),
        Err(OrMemory::Memory(error)) => return Err(error),
    };
    let found = list.split(',').enumerate().find(|found| {
        T::from_str(found.1.trim()).is_ok_and(|block| overclaimed.intersects_block(&block))
    });
    Ok(found)
}

/// Returns the place of the first element of the refused step of a path that has some of the overclaimed resources.
pub(crate) fn overclaimed_in_path<'l, A: Allocator + Copy>(
    alloc: A,
    kind: Kind,
    path: &'l str,
    answer: &str,
) -> Result<Option<Place<'l>>, AllocError> {
    let Some((part, text)) = refused_part(answer) else {
        return Ok(None);
    };
    let (_, list) = cut_at_space(path.split('|').nth(part).unwrap_or("").trim());
    let found = match kind {
        Kind::As => first_overclaimed::<AsBlock, A>(alloc, text, list)?,
        Kind::V4 | Kind::V6 => first_overclaimed::<IpBlock, A>(alloc, text, list)?,
    };
    Ok(found.map(|found| Place::Element(Some(part), found.0, found.1)))
}

/// Appends a text, with `?` in place of each control character, which could control a terminal.
fn push_shown<A: Allocator>(text: &str, answer: &mut String<A>) -> Result<(), AllocError>
    ensures { OnOk result (string_bytes answer.new ≡ string_bytes answer.old ++ shown_text text.now) }
{
    answer.extend(text.chars().map(|c| if c.is_control() { '?' } else { c }))
}

/// Appends a tab and a place to an answer.
pub(crate) fn push_place<A: Allocator>(
    place: Place<'_>,
    answer: &mut String<A>,
) -> Result<(), AllocError>
    ensures { OnOk result (string_bytes answer.new ≡ string_bytes answer.old ++ 9 ∷ place_text place.entry) }
{
    answer.push('\t')?;
    match place {
        Place::Element(part, index, text) => {
            match part {
                None => {}
                Some(0) => answer.push_str("root, ")?,
                Some(part) => write!(answer, "step {}, ", part - 1)?,
            }
            write!(answer, "element {}: ", index as u128 + 1)?;
            push_shown(text.trim(), answer)
        }
        Place::NoStep(part, text) => {
            write!(answer, "step {}: ", part.saturating_sub(1))?;
            push_shown(text.trim(), answer)
        }
    }
}
