//! The validity of routes by several tables at once, without an allocation.
//!
//! A cache has a table of its own, and a router has several caches (RFC 8210, 10). The validity of a route is that by
//! the VRPs of all tables together (RFC 6811, 2).
ghost use Rattle.std.specs.Prelude.{◌≡◌, ◌++◌, ◌≤◌, ℕ, List, MatchOption, length, take};
ghost use Rattle.rpki_prefix.specs.Values.{FamilyPrefix};
ghost use Rattle.roa_origin.specs.Vrps.{Vrp};
ghost use Rattle.pigyelund_routes.specs.Origins.{AreEach, AreRoutes, IsOrigin};
ghost use Rattle.pigyelund_routes.specs.Reasons.{HasReason};
ghost use Rattle.pigyelund_routes.specs.Routes.{IsRoute};
ghost use Rattle.pigyelund_routes.specs.SeveralTables.{AreOriginsByTablesReturned, AreThere, IsFirstNull, IsFound, all_vrps, joined_validity};

use crate::origin::check_routes;
use crate::route::Route;
use crate::status;
use crate::table_handle::TableRef;
use crate::validities::put_found;
use roa_origin::{Validity, ValidityAndAsn};
use rpki_base::Asn;
use rpki_prefix::Prefix;

/// Returns the index of the first null handle, or `None` if no handle is null.
fn first_null(tables: &[TableRef]) -> Option<usize>
    ensures { MatchOption result (AreThere tables.now) (IsFirstNull tables.now) }
{
    for (at, table) in tables.iter().enumerate() {
        match table.lent() {
            Some(_) => {}
            None => return Some(at),
        }
    }
    None
}

/// Returns the validity of a route by two lists of VRPs together. `one` is its validity by the first list, and `other`
/// that by the second list.
fn joined_validity(one: Validity, other: Validity) -> Validity
    ensures { result ≡ joined_validity one other }
{
    match one {
        Validity::Valid => Validity::Valid,
        Validity::NotFound => other,
        Validity::Invalid => match other {
            Validity::Valid => Validity::Valid,
            Validity::NotFound | Validity::Invalid => Validity::Invalid,
        },
    }
}

/// Returns what two lists of VRPs find together. `one` is what the first list finds, and `other` what the second finds.
fn joined(one: ValidityAndAsn, other: ValidityAndAsn) -> ValidityAndAsn
    ensures { (route : FamilyPrefix) (asn : ℕ) (vrps others : List Vrp) → IsFound route asn vrps one
        → IsFound route asn others other → IsFound route asn (vrps ++ others) result }
{
    ValidityAndAsn {
        validity: joined_validity(one.validity, other.validity),
        has_covering_asn: one.has_covering_asn || other.has_covering_asn,
    }
}

/// Returns what the VRPs of all tables find for the route to `route` from `asn`.
///
/// # Preconditions
///
/// No handle is null.
fn found_by(tables: &[TableRef], route: Prefix, asn: Asn) -> ValidityAndAsn
    requires { AreThere tables.now }
    ensures { IsFound route asn (all_vrps tables.now) result }
{
    let mut found = ValidityAndAsn {
        validity: Validity::NotFound,
        has_covering_asn: false,
    };
    for table in tables {
        match table.lent() {
            Some(table) => found = joined(found, table.lookup(route, asn).validity_and_asn()),
            None => unreachable!(),
        }
    }
    found
}

/// Returns what the VRPs of all tables find for a valid route.
///
/// # Preconditions
///
/// No handle is null, and the route is valid.
fn found_for(tables: &[TableRef], route: &Route) -> ValidityAndAsn
    requires tables { AreThere tables.now }
    requires route { (prefix : FamilyPrefix) × IsRoute route.now prefix }
    ensures { (prefix : FamilyPrefix) × IsRoute route.now prefix
        × IsFound prefix route.now.asn (all_vrps tables.now) result }
{
    match route.prefix() {
        Ok(prefix) => found_by(tables, prefix, Asn::from_u32(route.asn)),
        Err(_) => unreachable!(),
    }
}

/// Writes the validity of each route to `octets`, and the reason of each route to `reasons` as far as it is long
/// enough.
///
/// # Preconditions
///
/// No handle is null, and all routes are valid. `octets` has one octet for each route, and `reasons` has at most as
/// many.
fn write_each(tables: &[TableRef], routes: &[Route], octets: &mut [u8], reasons: &mut [u8])
    requires tables { AreThere tables.now }
    requires valid { AreRoutes routes.now }
    requires octets { length octets.old ≡ length routes.now }
    requires reasons { length reasons.old ≤ length routes.now }
    ensures octets { AreEach (IsOrigin (all_vrps tables.now)) routes.now octets.new }
    ensures reasons { AreEach (HasReason (all_vrps tables.now)) (take (length reasons.old) routes.now)
        reasons.new }
{
    for (at, route) in routes.iter().enumerate() {
        put_found(found_for(tables, route), at, octets, reasons);
    }
}

/// Writes the validity of each route by the VRPs of all tables to `out`, and returns the status.
///
/// `reasons`, `len` and `index` receive what [`crate::validities::validate_routes`] writes. If a handle is null, the
/// status is `NO_HANDLE`, `index` receives the index of the first such handle, and `len` is 0.
pub fn validate_by_tables(
    tables: &[TableRef],
    routes: &[Route],
    out: &mut [u8],
    reasons: &mut [u8],
    len: &mut usize,
    index: &mut usize,
) -> u32
    ensures { AreOriginsByTablesReturned tables.now routes.now out.old out.new reasons.old reasons.new
        len.new index.new result }
{
    *len = 0;
    *index = 0;
    if let Some(at) = first_null(tables) {
        *index = at;
        return status::NO_HANDLE;
    }
    if let Err(first) = check_routes(routes) {
        *index = first.at;
        return first.reason.route_status();
    }
    let count = routes.len();
    *len = count;
    let reasons_count = reasons.len().min(count);
    if out.len() < count || (0 < reasons_count && reasons_count < count) {
        return status::TOO_SMALL;
    }
    write_each(
        tables,
        routes,
        &mut out[..count],
        &mut reasons[..reasons_count],
    );
    status::OK
}
