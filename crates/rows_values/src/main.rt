//! The program `rows_values`.
//!
//! Each line of the standard input is a call of the libraries. The call reads one value from a text or from octets,
//! orders prefixes, or covers a range with prefixes. The answer is one line on the standard output.
//!
//! The program repeats each call with each of its requests for memory refused. If such a run does anything except
//! report out of memory, the line's answer says so.
#![tactic(auto)]

mod altered;
mod claims;
mod covers;
mod line;
mod modes;
mod orders;
mod requests;
mod takes;
mod texts;
mod values;

use line::Line;
use modes::Mode;
use std::alloc::{AllocError, Global};
use std::io;
use test_support::print::cut_at;
use test_support::refusals;

fn main(rt: HostRuntime) -> io::Result<()> {
    for line in rt.lines(rt.alloc()) {
        let answer = answer(rt.alloc(), line?.as_str())?;
        println!(rt; "{answer}")?;
    }
    Ok(())
}

/// Answers a line.
///
/// `altered` and `alteredstrict` read many values, and refuse memory for each. `requests` counts the requests of a
/// call, and refuses none.
fn answer(alloc: Global, line: &str) -> Result<String, AllocError> {
    match cut_at(line, ' ') {
        ("altered", operands) => altered::answer(alloc, Mode::Lenient, operands),
        ("requests", operands) => requests::answer(alloc, operands),
        ("alteredstrict", operands) => altered::answer(alloc, Mode::Strict, operands),
        _ => refusals::answer(alloc, &Line(line)),
    }
}
