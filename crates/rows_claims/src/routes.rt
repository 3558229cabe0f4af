//! The validity of a route by a list of VRPs and by a table of them; a table after changes; the routes that change.
use crate::elements::{self, Element};
use roa_check::{Validity, origin};
use roa_origin::{OriginTable, Vrp};
use rpki_base::Asn;
use rpki_prefix::Prefix;
use std::alloc::{AllocError, Allocator};
use test_support::print::{self, cut_at};

/// Answers `origin ROUTE AS | PREFIX[-MAX] AS | ..`.
pub fn answer<A: Allocator + Copy>(alloc: A, operands: &str) -> Result<String<A>, AllocError> {
    let (route, list) = cut_at(operands, '|');
    let Some((prefix, asn)) = <(Prefix, Asn)>::read(route.trim()) else {
        return String::from_str(alloc, "no such route");
    };
    match elements::read::<Vrp, A>(alloc, list)? {
        Some(vrps) => by_list_and_table(alloc, prefix, asn, &vrps),
        None => String::from_str(alloc, "no such VRP"),
    }
}

/// Prints the validity by the list, and by a table of it if that differs.
fn by_list_and_table<A: Allocator + Copy>(
    alloc: A,
    route: Prefix,
    asn: Asn,
    vrps: &[Vrp],
) -> Result<String<A>, AllocError> {
    let by_list = origin(route, asn, vrps);
    let by_table = by_table(alloc, route, asn, vrps)?;
    if by_list == by_table {
        format!(in alloc; "{by_list:?}")
    } else {
        format!(in alloc; "{by_list:?} by the list, {by_table:?} by the table")
    }
}

fn by_table<A: Allocator + Copy>(
    alloc: A,
    route: Prefix,
    asn: Asn,
    vrps: &[Vrp],
) -> Result<Validity, AllocError> {
    let table = OriginTable::new(alloc, vrps)?;
    Ok(table.origin(route, asn))
}

/// Answers `changes PREFIX[-MAX] AS | .. ; ANNOUNCED | .. ; WITHDRAWN | ..`.
///
/// It prints the VRPs of the table of the first list after the changes.
pub fn changes<A: Allocator + Copy>(alloc: A, operands: &str) -> Result<String<A>, AllocError> {
    let (listed, changes) = cut_at(operands, ';');
    match elements::read::<Vrp, A>(alloc, listed)? {
        Some(vrps) => changes_of(alloc, &vrps, changes),
        None => String::from_str(alloc, "no such VRP"),
    }
}

fn changes_of<A: Allocator + Copy>(
    alloc: A,
    vrps: &[Vrp],
    changes: &str,
) -> Result<String<A>, AllocError> {
    let (announced, withdrawn) = cut_at(changes, ';');
    match elements::read::<Vrp, A>(alloc, announced)? {
        Some(announced) => after_changes(alloc, vrps, &announced, withdrawn),
        None => String::from_str(alloc, "no such announcement"),
    }
}

fn after_changes<A: Allocator + Copy>(
    alloc: A,
    vrps: &[Vrp],
    announced: &[Vrp],
    withdrawn: &str,
) -> Result<String<A>, AllocError> {
    match elements::read::<Vrp, A>(alloc, withdrawn)? {
        Some(withdrawn) => changed_table(alloc, vrps, announced, &withdrawn),
        None => String::from_str(alloc, "no such withdrawal"),
    }
}

fn changed_table<A: Allocator + Copy>(
    alloc: A,
    vrps: &[Vrp],
    announced: &[Vrp],
    withdrawn: &[Vrp],
) -> Result<String<A>, AllocError> {
    let table = OriginTable::new(alloc, vrps)?;
    match table.with_changes(alloc, announced, withdrawn) {
        Ok(next) => listed(alloc, &next),
        Err(fault) => print::refused(alloc, fault),
    }
}

/// Prints the VRPs of a table.
fn listed<A: Allocator + Copy>(alloc: A, table: &OriginTable<A>) -> Result<String<A>, AllocError> {
    let mut text = String::new(alloc);
    for (prefix, asn) in table.vrps() {
        print::append(&mut text, " | ", prefix)?;
        print::append(&mut text, " ", asn)?;
    }
    Ok(text)
}

/// Answers `changed PREFIX[-MAX] AS | .. ; PREFIX[-MAX] AS | .. ; ROUTE AS | ..`.
///
/// It prints the indexes of the routes whose validity differs between tables of the two lists.
pub fn changed<A: Allocator + Copy>(alloc: A, operands: &str) -> Result<String<A>, AllocError> {
    let (listed, others) = cut_at(operands, ';');
    match elements::read::<Vrp, A>(alloc, listed)? {
        Some(vrps) => changed_from(alloc, &vrps, others),
        None => String::from_str(alloc, "no such VRP"),
    }
}

fn changed_from<A: Allocator + Copy>(
    alloc: A,
    vrps: &[Vrp],
    others: &str,
) -> Result<String<A>, AllocError> {
    let (listed, routes) = cut_at(others, ';');
    match elements::read::<Vrp, A>(alloc, listed)? {
        Some(next) => changed_between(alloc, vrps, &next, routes),
        None => String::from_str(alloc, "no such VRP"),
    }
}

fn changed_between<A: Allocator + Copy>(
    alloc: A,
    vrps: &[Vrp],
    next: &[Vrp],
    routes: &str,
) -> Result<String<A>, AllocError> {
    match elements::read::<(Prefix, Asn), A>(alloc, routes)? {
        Some(routes) => changed_routes(alloc, vrps, next, &routes),
        None => String::from_str(alloc, "no such route"),
    }
}

fn changed_routes<A: Allocator + Copy>(
    alloc: A,
    vrps: &[Vrp],
    next: &[Vrp],
    routes: &[(Prefix, Asn)],
) -> Result<String<A>, AllocError> {
    let old = OriginTable::new(alloc, vrps)?;
    changed_by(alloc, &old, next, routes)
}

fn changed_by<A: Allocator + Copy>(
    alloc: A,
    old: &OriginTable<A>,
    next: &[Vrp],
    routes: &[(Prefix, Asn)],
) -> Result<String<A>, AllocError> {
    let new = OriginTable::new(alloc, next)?;
    indexes_or_error(alloc, roa_origin::changed_routes(alloc, old, &new, routes))
}

fn indexes_or_error<A: Allocator + Copy>(
    alloc: A,
    places: Result<Vec<usize, A>, AllocError>,
) -> Result<String<A>, AllocError> {
    match places {
        Ok(places) => indexes_text(alloc, &places),
        Err(error) => Err(error),
    }
}

/// Prints the indexes, or `none` if there are no indexes.
fn indexes_text<A: Allocator + Copy>(alloc: A, places: &[usize]) -> Result<String<A>, AllocError> {
    if places.is_empty() {
        return String::from_str(alloc, "none");
    }
    let mut text = String::new(alloc);
    for place in places {
        print::append(&mut text, " ", *place)?;
    }
    Ok(text)
}
