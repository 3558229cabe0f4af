//! The program `example_holdings`: a certification authority compares what a resource holder had with what it gets.
//!
//! The first line of the standard input is what the holder had, and the second is what it gets. Each line has three
//! lists, separated by semicolons: AS numbers, IPv4 addresses and IPv6 addresses. The program prints the changes. It
//! also prints the octets of AS numbers and of addresses for the new certificate, or `missing` if it has none. For any
//! other input the program reports the fault, and exits with status 1.
#![tactic(auto)]

mod changes;
mod input;
mod octets;

use input::{Input, Lists, read_input};
use octets::Octets;
use rpki_resources::OrMemory;
use rpki_resources::repository::resources::ResourceSet;
use rpki_resources::repository::resources::set::FromStrError;
use std::alloc::{AllocError, Global};
use std::io;

fn main(rt: HostRuntime) -> anyhow::Result<()> {
    let text = io::read_to_string(rt.alloc(), rt.stdin())?;
    let input = read_input(rt.alloc(), &text)?;
    compare(&rt, input)
}

/// Compares the resources of two lines. Each call from here on holds one more set, so that each function owns few
/// values.
fn compare(rt: &HostRuntime, input: Input<'_>) -> anyhow::Result<()> {
    let had = set_of(rt.alloc(), input.had)?;
    compare_with(rt, &had, input.gets)
}

/// Compares a set with the resources of a line.
fn compare_with(rt: &HostRuntime, had: &ResourceSet, gets: Lists<'_>) -> anyhow::Result<()> {
    let gets = set_of(rt.alloc(), gets)?;
    print(rt, had, &gets)
}

/// Returns the set of three lists.
fn set_of(alloc: Global, lists: Lists<'_>) -> Result<ResourceSet, OrMemory<FromStrError>> {
    ResourceSet::from_strs(alloc, lists.asn, lists.ipv4, lists.ipv6)
}

/// Prints the changes from `had` to `gets`, and the octets of `gets`.
fn print(rt: &HostRuntime, had: &ResourceSet, gets: &ResourceSet) -> anyhow::Result<()> {
    print_line(rt, "", changes::printed(rt.alloc(), had, gets))?;
    print_line(
        rt,
        "asn: ",
        hexadecimal(rt.alloc(), octets::of_asn(rt.alloc(), gets)),
    )?;
    print_line(
        rt,
        "addresses: ",
        hexadecimal(rt.alloc(), octets::of_addresses(rt.alloc(), gets)),
    )
}

/// Prints a text after its name.
fn print_line(
    rt: &HostRuntime,
    kind: &str,
    text: Result<String, AllocError>,
) -> anyhow::Result<()> {
    let text = text?;
    println!(rt; "{kind}{text}")?;
    Ok(())
}

/// Returns the octets in hexadecimal, or `missing` without octets.
fn hexadecimal(alloc: Global, octets: Octets<Global>) -> Result<String, AllocError> {
    match octets? {
        Some(octets) => hex::encode(alloc, octets.as_slice()),
        None => String::from_str(alloc, "missing"),
    }
}
