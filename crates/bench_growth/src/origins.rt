//! Measurements of a table.
use crate::made_routes::{self, Numbers};
use roa_origin::{OriginTable, Validity, Vrp};
use rpki_base::Asn;
use rpki_prefix::Prefix;
use std::io;
use std::time::Instant;

/// The seed of the numbers.
const SEED: u64 = 6811;

/// How many VRPs are announced, and at most withdrawn.
const CHANGED: usize = 150;

/// Makes VRPs, their table and routes, looks up each route, and changes the table.
pub fn measure(rt: &HostRuntime, vrps: usize, routes: usize) -> io::Result<()> {
    let mut numbers = Numbers::after(SEED);
    let listed = made_routes::vrps(rt.alloc(), &mut numbers, vrps)?;
    let asked = made_routes::routes(rt.alloc(), &mut numbers, &listed, routes)?;
    measure_table(rt, &mut numbers, &listed, &asked)
}

fn measure_table(
    rt: &HostRuntime,
    numbers: &mut Numbers,
    listed: &[Vrp],
    asked: &[(Prefix, Asn)],
) -> io::Result<()> {
    let table = measure_building(rt, listed)?;
    measure_routes(rt, &table, asked)?;
    measure_changes(rt, &table, numbers, listed)
}

fn measure_building(rt: &HostRuntime, listed: &[Vrp]) -> io::Result<OriginTable> {
    let start = Instant::now(rt)?;
    let table = OriginTable::new(rt.alloc(), listed)?;
    report(rt, "VRPs", listed.len(), start)?;
    Ok(table)
}

/// Announces VRPs to the table, and withdraws the first of those that it was made of.
fn measure_changes(
    rt: &HostRuntime,
    table: &OriginTable,
    numbers: &mut Numbers,
    listed: &[Vrp],
) -> io::Result<()> {
    let announced = made_routes::vrps(rt.alloc(), numbers, CHANGED)?;
    measure_next(rt, table, &announced, listed.get(..CHANGED).unwrap_or(&[]))
}

/// Makes the next table from changes.
fn measure_next(
    rt: &HostRuntime,
    table: &OriginTable,
    announced: &[Vrp],
    withdrawn: &[Vrp],
) -> io::Result<()> {
    let start = Instant::now(rt)?;
    match table.with_changes(rt.alloc(), announced, withdrawn) {
        Ok(next) => report(rt, "changed", next.len(), start),
        Err(fault) => eprintln!(rt; "{fault}"),
    }
}

/// Looks up each route in the table.
pub fn measure_routes(
    rt: &HostRuntime,
    table: &OriginTable,
    routes: &[(Prefix, Asn)],
) -> io::Result<()> {
    let start = Instant::now(rt)?;
    let counts = Counts::of(table, routes);
    report(rt, "routes", routes.len(), start)?;
    println!(rt;
        "{} routes: {} Valid, {} Invalid, {} NotFound, mark {}",
        routes.len(),
        counts.valid,
        counts.invalid,
        counts.not_found,
        counts.mark
    )
}

/// How many routes have each validity, and a mark that distinguishes lists of results with equal counts.
#[derive(Drop)]
struct Counts {
    valid: u64,
    invalid: u64,
    not_found: u64,
    mark: u64,
}

impl Counts {
    /// Returns the counts of the table's results for the routes.
    fn of(table: &OriginTable, routes: &[(Prefix, Asn)]) -> Counts {
        let mut counts = Counts {
            valid: 0,
            invalid: 0,
            not_found: 0,
            mark: 0,
        };
        for (route, asn) in routes {
            counts.add(table.origin(*route, *asn));
        }
        counts
    }

    fn add(&mut self, validity: Validity) {
        let digit = match validity {
            Validity::Valid => {
                self.valid = self.valid.wrapping_add(1);
                1
            }
            Validity::Invalid => {
                self.invalid = self.invalid.wrapping_add(1);
                2
            }
            Validity::NotFound => {
                self.not_found = self.not_found.wrapping_add(1);
                3
            }
        };
        self.mark = self.mark.wrapping_mul(31).wrapping_add(digit);
    }
}

/// Prints the time since the start.
fn report(rt: &HostRuntime, name: &str, count: usize, start: Instant) -> io::Result<()> {
    let micros = start.elapsed(rt)?.as_micros();
    eprintln!(rt; "{name} {count} {micros}")
}
