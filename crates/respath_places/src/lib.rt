//! The commands of `respath`, with the places of errors and refusals ([`CommandsWithPlaces`]).
//!
//! [`check::Seen`] looks for errors and refusals in written answers. The program `respath` runs the commands by
//! `engine::run(rt.alloc(), &CommandsWithPlaces, &mut reader, writer)`.
#![tactic(auto)]

ghost use Rattle.std.specs.Prelude.{IfOk, IfSome};
ghost use Rattle.respath_places.specs.Places.{IsAnswerWithPlace, IsPlace};

pub mod check;
mod place;

use crate::place::{Place, overclaimed_in_path, push_place, wrong_in_list, wrong_in_path};
use lines_engine::answers::Answers;
use respath_lines::command::cut_at_space;
use respath_lines::kind::kind_named;
use respath_lines::put_answer;
use std::alloc::{AllocError, Allocator};

/// The commands of `respath`, with a tab and a place after an error or a refusal that has one, for any engine.
///
/// The place of an error in a list is the first element that is neither empty nor a block. In a path it can also be the
/// first part that is not a step. The place of a refusal is the first element of the refused step that has overclaimed
/// resources. Elements are counted from 1, empty ones included, and steps from 0.
///
/// - `element 3: AS7-AS3` is the third element of a list.
/// - `root, element 2: x` is the second element of the first list of a path.
/// - `step 0, element 2: AS12` is the second element of the list of the first step.
/// - `step 1: trimm 4` is a part of the path that is not a step.
///
/// The text after the colon has no white space at its ends, and `?` in place of each control character. No clause says
/// that each such answer has a place, or which element of a refused step is named.
#[derive(Clone, Copy, Debug, PartialEq, Eq)]
pub struct CommandsWithPlaces;

impl Answers for CommandsWithPlaces {
    ghost is_answer = { λ _ line text. IsAnswerWithPlace line text };

    fn answer<A: Allocator + Copy>(
        &self,
        alloc: A,
        line: &[u8],
        text: &mut String<A>,
    ) -> Result<(), AllocError> {
        put_answer(alloc, line, text)?;
        match place_of(alloc, line, text.as_str())? {
            Some(place) => push_place(place, text),
            None => Ok(()),
        }
    }
}

/// Returns the place of what an answer reports of its line. Only the argument of `read` is neither a path nor a list.
#[tactic(auto, using(crate::proofs::AnswerLemmas::list_place, crate::proofs::AnswerLemmas::path_place))]
fn place_of<'l, A: Allocator + Copy>(
    alloc: A,
    line: &'l [u8],
    answer: &str,
) -> Result<Option<Place<'l>>, AllocError>
    ensures { IfOk result (λ found. IfSome found (IsPlace line.now answer.now)) }
{
    let Ok(text) = str::from_utf8(line) else {
        return Ok(None);
    };
    let (command, rest) = cut_at_space(text);
    let (kind, argument) = cut_at_space(rest);
    let Some(kind) = kind_named(kind) else {
        return Ok(None);
    };
    if !answer.starts_with("error: ") {
        return overclaimed_in_path(alloc, kind, argument, answer);
    }
    if answer == "error: unknown command" || answer == "error: unknown kind" {
        return Ok(None);
    }
    match command {
        "read" => Ok(None),
        "path" => Ok(wrong_in_path(kind, argument)),
        _ => Ok(wrong_in_list(kind, None, argument)),
    }
}
