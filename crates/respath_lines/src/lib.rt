//! The lines of `respath`: the answer to one line ([`answer`]), and a run over an input ([`run`]).
//!
//! The first word of a line is its command, and its answer is one line of text. The program `respath` is a run over the
//! standard streams:
//!
//! ```rust
//! let ended = run(rt.alloc(), &mut reader, &mut writer);
//! ```
#![tactic(auto)]

ghost use Rattle.std.specs.Prelude.{IfOk, OnOk};
ghost use Rattle.std.specs.String.{string_bytes};
ghost use Rattle.respath_lines.specs.Answer.{IsAnswer};

pub mod command;
mod cover;
mod der;
pub mod kind;
pub mod laws;
pub mod lines;
mod lists;
mod norm;
mod path;
mod read;
pub mod steps;
mod write_answer;

use command::cut_at_space;
use cover::cover;
use der::der;
pub use lines::{answer_text, run};
use norm::norm;
use path::path;
use read::read;
use std::alloc::{AllocError, Allocator};
use write_answer::write_text;

/// The initial capacity of an answer in bytes. A short answer is not moved when it grows.
const ROOM: usize = 64;

/// Returns the answer to `line`. Neither text has the end of a line.
///
/// The answer is an error message if the line isn't UTF-8, if it doesn't begin with a command and a kind, or if the
/// command refuses its argument.
///
/// # Errors
///
/// [`AllocError`] if an allocation fails.
pub fn answer<A: Allocator + Copy>(alloc: A, line: &[u8]) -> Result<String<A>, AllocError>
    ensures { IfOk result (λ text. IsAnswer line.now (string_bytes text)) }
{
    let mut text = String::with_capacity(alloc, ROOM)?;
    put_answer(alloc, line, &mut text)?;
    Ok(text)
}

/// Replaces the text of `answer` by the answer to `line`, which is the text that [`answer`](fn@answer) returns.
///
/// # Errors
///
/// [`AllocError`] if an allocation fails. The text of `answer` is unspecified then.
pub fn put_answer<A: Allocator + Copy>(
    alloc: A,
    line: &[u8],
    answer: &mut String<A>,
) -> Result<(), AllocError>
    ensures { OnOk result (IsAnswer line.now (string_bytes answer.new)) }
{
    let Ok(text) = str::from_utf8(line) else {
        return write_text(answer, "error: not UTF-8");
    };
    let (command, rest) = cut_at_space(text);
    let (kind, argument) = cut_at_space(rest);
    match command {
        "norm" => norm(alloc, kind, argument, answer),
        "der" => der(alloc, kind, argument, answer),
        "read" => read(alloc, kind, argument, answer),
        "cover" => cover(alloc, kind, argument, answer),
        "path" => path(alloc, kind, argument, answer),
        _ => write_text(answer, "error: unknown command"),
    }
}
