//! Lists of many VRPs and routes. The first has each fourth IPv4 address from 0.0.0.0 on, the second the addresses
//! greater by 2.
use roa_origin::{OriginTable, Vrp, VrpChanges, VrpTable, changed_routes};
use rpki_base::Asn;
use rpki_base::addr::{IpAddr, Ipv4Addr};
use rpki_base::number::parse_u32;
use rpki_prefix::{MaxLenPrefix, Prefix};
use std::alloc::{AllocError, Allocator};
use test_support::print;

/// Answers `long changes N` and `long changed N`.
///
/// - `long changes N` prints how many VRPs are announced and withdrawn from one list of N to the other.
/// - `long changed N` prints how many of N routes have another validity by the other list.
pub fn answer<A: Allocator + Copy>(
    alloc: A,
    question: &str,
    count: &str,
) -> Result<String<A>, AllocError> {
    let count = match parse_u32(count) {
        Ok(count) => count,
        Err(fault) => return print::error(alloc, fault),
    };
    match question {
        "changes" => changes(alloc, count),
        "changed" => count_changed_routes(alloc, count),
        _ => String::from_str(alloc, "no such command"),
    }
}

fn changes<A: Allocator + Copy>(alloc: A, count: u32) -> Result<String<A>, AllocError> {
    let table = vrp_table(alloc, count, 0)?;
    changes_from(alloc, &table, count)
}

fn changes_from<A: Allocator + Copy>(
    alloc: A,
    table: &VrpTable<A>,
    count: u32,
) -> Result<String<A>, AllocError> {
    let next = vrp_table(alloc, count, 2)?;
    changes_text(alloc, table.changes_to(alloc, &next))
}

fn changes_text<A: Allocator + Copy>(
    alloc: A,
    changes: Result<VrpChanges<A>, AllocError>,
) -> Result<String<A>, AllocError> {
    let changes = changes?;
    let announced = changes.announced.as_slice().len();
    let withdrawn = changes.withdrawn.as_slice().len();
    format!(in alloc; "{announced} announced, {withdrawn} withdrawn")
}

fn vrp_table<A: Allocator + Copy>(
    alloc: A,
    count: u32,
    first: u32,
) -> Result<VrpTable<A>, AllocError> {
    let vrps = every_fourth(alloc, count, first)?;
    VrpTable::new(alloc, &vrps)
}

fn count_changed_routes<A: Allocator + Copy>(
    alloc: A,
    count: u32,
) -> Result<String<A>, AllocError> {
    let vrps = every_fourth(alloc, count, 0)?;
    changed_from(alloc, &vrps, count)
}

fn changed_from<A: Allocator + Copy>(
    alloc: A,
    vrps: &[Vrp],
    count: u32,
) -> Result<String<A>, AllocError> {
    let table = OriginTable::new(alloc, vrps)?;
    changed_by(alloc, &table, vrps, count)
}

/// Prints how many routes of VRPs have another validity by the table of the other addresses.
fn changed_by<A: Allocator + Copy>(
    alloc: A,
    table: &OriginTable<A>,
    vrps: &[Vrp],
    count: u32,
) -> Result<String<A>, AllocError> {
    let next = origin_table(alloc, count, 2)?;
    changed_between(alloc, table, &next, vrps)
}

fn changed_between<A: Allocator + Copy>(
    alloc: A,
    table: &OriginTable<A>,
    next: &OriginTable<A>,
    vrps: &[Vrp],
) -> Result<String<A>, AllocError> {
    let routes = routes_of(alloc, vrps)?;
    let places = changed_routes(alloc, table, next, &routes)?;
    format!(in alloc; "{} changed", places.len())
}

fn origin_table<A: Allocator + Copy>(
    alloc: A,
    count: u32,
    first: u32,
) -> Result<OriginTable<A>, AllocError> {
    let vrps = every_fourth(alloc, count, first)?;
    OriginTable::new(alloc, &vrps)
}

/// Returns the route of each VRP.
fn routes_of<A: Allocator + Copy>(
    alloc: A,
    vrps: &[Vrp],
) -> Result<Vec<(Prefix, Asn), A>, AllocError> {
    let mut routes = Vec::with_capacity(alloc, vrps.len())?;
    for (prefix, asn) in vrps {
        routes.push((prefix.prefix(), *asn))?;
    }
    Ok(routes)
}

/// Returns VRPs of single addresses, with AS numbers from 0 on.
pub fn every_fourth<A: Allocator + Copy>(
    alloc: A,
    count: u32,
    first: u32,
) -> Result<Vec<Vrp, A>, AllocError> {
    let mut vrps = Vec::with_capacity(alloc, count as usize)?;
    for at in 0..count {
        if let Some(prefix) = fourth(at, first) {
            vrps.push((prefix, Asn::from_u32(at)))?;
        }
    }
    Ok(vrps)
}

/// Returns the single address `first` + 4 * `at`, as a prefix.
fn fourth(at: u32, first: u32) -> Option<MaxLenPrefix> {
    let address = Ipv4Addr::from_bits(at.saturating_mul(4).saturating_add(first));
    let prefix = Prefix::new(IpAddr::V4(address), 32).ok()?;
    Some(MaxLenPrefix::saturating_new(prefix, None))
}
