//! The program `rows_sets`.
//!
//! Each line of the standard input is a call of the libraries that makes chains or sets and reads them, or is a line of
//! `respath`. The answer is one line on the standard output.
//!
//! The program repeats each call with each of its requests for memory refused. If such a run does anything except
//! report out of memory, the line's answer says so.
#![tactic(auto)]

mod as_sets;
mod ip_sets;
mod line;
mod long;
mod question;
mod requests;

use line::Line;
use std::alloc::{AllocError, Global};
use std::io;
use test_support::print::cut_at;
use test_support::refusals;

fn main(rt: HostRuntime) -> io::Result<()> {
    for line in rt.lines(rt.alloc()) {
        let answer = answer(rt.alloc(), line?.as_str())?;
        println!(rt; "{answer}")?;
    }
    Ok(())
}

/// Answers a line. `requests` counts the requests of a call, and refuses none.
fn answer(alloc: Global, line: &str) -> Result<String, AllocError> {
    match cut_at(line, ' ') {
        ("requests", operands) => requests::answer(alloc, operands),
        _ => refusals::answer(alloc, &Line(line)),
    }
}
