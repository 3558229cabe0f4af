//! The program `rows_claims`.
//!
//! Each line of the standard input is a call of the libraries. The answer is one line on the standard output. The calls
//! are about these:
//!
//! - the resources that claims list and leave
//! - the extensions of certificates, and the resources that a path of them leaves
//! - sets of the three kinds
//! - the validity of a route, and the answer to its line
//! - the first prefix that a set of resources does not have
//! - a VRP file, with or without its expired VRPs, and VRPs after a SLURM file
//! - the changes between two tables of VRPs
//!
//! The program repeats each call with each of its requests for memory refused. If such a run does anything except
//! report out of memory, the line's answer says so.
#![tactic(auto)]

mod certificates;
mod claims;
mod elements;
mod line;
mod long;
mod outside;
mod requests;
mod route_lines;
mod routes;
mod sent;
mod slurm;
mod triples;
mod unexpired;
mod vrps;

use line::Line;
use std::alloc::{AllocError, Global};
use std::io;
use test_support::print::cut_at;
use test_support::refusals;

fn main(rt: HostRuntime) -> io::Result<()> {
    for line in rt.lines(rt.alloc()) {
        let answer = answer(rt.alloc(), line?.as_str())?;
        println!(rt; "{answer}")?;
    }
    Ok(())
}

/// Answers a line. `requests` counts the requests of a call, and refuses none.
fn answer(alloc: Global, line: &str) -> Result<String, AllocError> {
    match cut_at(line, ' ') {
        ("requests", operands) => requests::answer(alloc, operands),
        _ => refusals::answer(alloc, &Line(line)),
    }
}
