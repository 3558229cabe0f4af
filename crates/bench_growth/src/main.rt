//! Measures how calls grow with their input. Results go to the standard output, and times to standard error.
//!
//! For each argument that is a number N the program makes and measures:
//!
//! - two sets of N blocks of AS numbers that interleave: each block of one overlaps a block of the other, and no two
//!   touch;
//! - two such sets of addresses, whose blocks are disjoint;
//! - N blocks of AS numbers and N blocks of addresses: read from an unordered SEQUENCE and written as a set, and read
//!   in either mode from an ascending SEQUENCE.
//!
//! The blocks of these sets are ranges. After the word `mixed` they are as in certificates: three of four are a single
//! AS number, or a prefix. After the word `ranges` they are ranges again.
//!
//! After the word `path` the numbers are pairs: how many blocks the sets on a path have, and a period. The path has ten
//! steps. In each step one block of a period differs from what remains. The program prints how many these are.
//!
//! After the word `origins` the numbers are pairs: how many VRPs a table has, and for how many routes the program looks
//! up the origin. VRPs are made like those of a full table: four of five are of IPv4, most of them of 24 bits. Half of
//! the routes are those of VRPs, some of them longer or by another AS. The same numbers give the same VRPs and routes.
//!
//! After the words `one` and `chain` each number is how many VRPs a table has. With `one` they have one prefix, each
//! with another AS. With `chain` they have prefixes of all lengths, each inside the next shorter one. The program looks
//! up three routes, a thousand times each.
#![tactic(auto)]

mod asn;
mod ip;
mod lists;
mod made_routes;
mod measure;
mod origins;
mod paths;
mod worst;

use lists::{Kind, Path};
use measure::{Measured, measure_der, measure_modes, measure_operations};
use rpki_as::blocks::AsBlocks;
use rpki_ipres::blocks::IpBlocks;
use std::{env, io};
use worst::Lengths;

fn main(rt: HostRuntime) -> io::Result<()> {
    let mut lists = Kind::Ranges;
    let mut asked = Asked::Sets;
    for word in env::args(&rt)?.skip(1) {
        if let Some(kind) = Kind::named(word.as_str()) {
            lists = kind;
            asked = Asked::Sets;
        } else {
            asked = asked_next(&rt, lists, asked, word.as_str())?;
        }
    }
    Ok(())
}

/// Measures for a word that is a number, and returns the meaning of the next number.
fn asked_next(rt: &HostRuntime, lists: Kind, asked: Asked, word: &str) -> io::Result<Asked> {
    match word.parse::<usize>() {
        Ok(count) => measure_asked(rt, lists, asked, count),
        Err(_) => Ok(Asked::named(word)),
    }
}

/// The meaning of the next number.
#[derive(Clone, Copy)]
enum Asked {
    /// The number of blocks.
    Sets,
    /// The number of VRPs.
    Origins,
    /// The number of routes, for a table with this many VRPs.
    Routes(usize),
    /// The number of blocks of each set on a path.
    Paths,
    /// The period of a path, whose sets have this many blocks.
    Period(usize),
    /// The number of VRPs, with prefixes of these lengths.
    Worst(Lengths),
}

impl Asked {
    /// Returns the meaning of the numbers after a word.
    fn named(word: &str) -> Asked {
        match word {
            "path" => Asked::Paths,
            "one" => Asked::Worst(Lengths::ONE),
            "chain" => Asked::Worst(Lengths::ALL),
            _ => Asked::Origins,
        }
    }
}

/// Measures for a number, and returns the meaning of the next one.
fn measure_asked(rt: &HostRuntime, lists: Kind, asked: Asked, count: usize) -> io::Result<Asked> {
    match asked {
        Asked::Sets => {
            measure_count(rt, lists, count)?;
            Ok(Asked::Sets)
        }
        Asked::Origins => Ok(Asked::Routes(count)),
        Asked::Routes(vrps) => {
            origins::measure(rt, vrps, count)?;
            Ok(Asked::Origins)
        }
        Asked::Paths => Ok(Asked::Period(count)),
        Asked::Period(blocks) => {
            measure_paths(rt, lists, blocks, count)?;
            Ok(Asked::Paths)
        }
        Asked::Worst(lengths) => {
            worst::measure(rt, lengths, count)?;
            Ok(asked)
        }
    }
}

/// Returns the subjects of measurements of AS numbers and of addresses.
fn subjects(rt: &HostRuntime, lists: Kind, count: usize) -> (Measured<'_>, Measured<'_>) {
    let kind = match lists {
        Kind::Ranges => ("as-", "ip-"),
        Kind::Mixed => ("mixed-as-", "mixed-ip-"),
    };
    let asn = Measured {
        rt,
        kind: kind.0,
        lists,
        count,
    };
    (
        asn,
        Measured {
            kind: kind.1,
            ..asn
        },
    )
}

fn measure_count(rt: &HostRuntime, lists: Kind, count: usize) -> io::Result<()> {
    let (asn, ip) = subjects(rt, lists, count);
    measure_operations::<AsBlocks>(asn)?;
    measure_operations::<IpBlocks>(ip)?;
    measure_der::<AsBlocks>(asn)?;
    measure_der::<IpBlocks>(ip)?;
    measure_modes::<AsBlocks>(asn)?;
    measure_modes::<IpBlocks>(ip)
}

fn measure_paths(rt: &HostRuntime, lists: Kind, count: usize, period: usize) -> io::Result<()> {
    let (asn, ip) = subjects(rt, lists, count);
    let period = u32::try_from(period).unwrap_or(u32::MAX);
    paths::measure::<AsBlocks>(asn, Path { period })?;
    paths::measure::<IpBlocks>(ip, Path { period })
}
