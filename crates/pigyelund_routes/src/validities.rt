//! The validity of many routes by a table, without an allocation.
ghost use Rattle.std.specs.Prelude.{◌≡◌, ◌+◌, ◌<◌, ◌≤◌, length, slice_set, take};
ghost use Rattle.pigyelund_routes.specs.Lookups.{AreAppended, IsReasonFound, IsValidityFound};
ghost use Rattle.pigyelund_routes.specs.Origins.{AreEach, AreRoutes, IsOrigin, validity_number};
ghost use Rattle.pigyelund_routes.specs.Reasons.{HasReason, reason_number};
ghost use Rattle.pigyelund_routes.specs.Validities.{AreOriginsReturned, AreRoutesValidated};

use crate::interleaved::{BESIDE, advance, begin};
use crate::origin::{check_routes, number_of, table_of};
use crate::route::{RawVrp, Route};
use crate::status;
use crate::validate::reason_number;
use roa_origin::{Lookup, OriginTable, ValidityAndAsn};
use rpki_text::memory::OrMemory;
use std::alloc::Global;

/// Writes a validity to `octets[at]`, and its reason to `reasons[at]` if `reasons` is long enough.
pub(crate) fn put_found(found: ValidityAndAsn, at: usize, octets: &mut [u8], reasons: &mut [u8])
    requires { at < length octets.old }
    ensures octets { octets.new ≡ slice_set octets.old at (validity_number found.validity) }
    ensures reasons { reasons.new ≡ slice_set reasons.old at
        (reason_number found.validity found.has_covering_asn) }
{
    octets[at] = number_of(found.validity);
    if at < reasons.len() {
        reasons[at] = reason_number(found);
    }
}

/// Writes what the first `count` lookups find, from index `at` on: validities to `octets`, and reasons to `reasons` as
/// far as it is long enough.
fn end(
    lookups: &[Lookup<'_>; BESIDE],
    count: usize,
    at: usize,
    octets: &mut [u8],
    reasons: &mut [u8],
)
    requires count { count ≤ BESIDE }
    requires octets { at + count ≤ length octets.old }
    ensures octets { AreAppended (IsValidityFound lookups.now) at count octets.old octets.new }
    ensures reasons { AreAppended (IsReasonFound lookups.now) at count reasons.old reasons.new }
{
    for offset in 0..count {
        let found = lookups[offset].validity_and_asn();
        put_found(found, at + offset, octets, reasons);
    }
}

/// Writes the validity of each route to `octets`, and the reason of each route to `reasons` as far as it is long
/// enough.
///
/// # Preconditions
///
/// All routes are valid. `octets` has one octet for each route, and `reasons` has at most as many.
fn write_validities(
    table: &OriginTable<Global>,
    routes: &[Route],
    octets: &mut [u8],
    reasons: &mut [u8],
)
    requires valid { AreRoutes routes.now }
    requires octets { length octets.old ≡ length routes.now }
    requires reasons { length reasons.old ≤ length routes.now }
    ensures octets { AreEach (IsOrigin table.now) routes.now octets.new }
    ensures reasons { AreEach (HasReason table.now) (take (length reasons.old) routes.now)
        reasons.new }
{
    let mut at = 0;
    while at < routes.len() {
        let count = (routes.len() - at).min(BESIDE);
        let mut lookups = begin(table, routes, at);
        advance(&mut lookups, count);
        end(&lookups, count, at, octets, reasons);
        at += count;
    }
}

/// Writes the validity of each route by a table to `out` (RFC 6811, 2; RFC 8097, 2), and returns the status.
///
/// `reasons` receives the reason of each route, unless it is empty. `len` receives the number of routes. If a route is
/// invalid, the status is its own, `index` receives its index, and `len` is 0. Otherwise `index` is 0. If `out` is too
/// short, or `reasons` is too short and not empty, the status is `TOO_SMALL`. Both are unchanged with any status except
/// `OK`.
pub fn validate_routes(
    table: &OriginTable<Global>,
    routes: &[Route],
    out: &mut [u8],
    reasons: &mut [u8],
    len: &mut usize,
    index: &mut usize,
) -> u32
    ensures { AreRoutesValidated table.now routes.now out.old out.new reasons.old reasons.new len.new
        index.new result }
{
    *len = 0;
    *index = 0;
    if let Err(first) = check_routes(routes) {
        *index = first.at;
        return first.reason.route_status();
    }
    let count = routes.len();
    *len = count;
    let reasons_count = reasons.len().min(count);
    if out.len() < count || (0 < reasons_count && reasons_count < count) {
        return status::TOO_SMALL;
    }
    write_validities(
        table,
        routes,
        &mut out[..count],
        &mut reasons[..reasons_count],
    );
    status::OK
}

/// Writes the validity of each route by VRPs to `out`, and returns the status.
///
/// The call makes a table of the VRPs first. `len` receives the number of routes. The status and `index` belong to the
/// first invalid VRP, or else to the first invalid route, and `len` is 0 then. Otherwise `index` is 0. If `out` is too
/// short, the status is `TOO_SMALL`. If the call is out of memory for the VRPs or the table, the status is `MEMORY`,
/// and `len` is 0. `out` is unchanged with any status except `OK`.
pub fn validate_by_vrps(
    alloc: Global,
    vrps: &[RawVrp],
    routes: &[Route],
    out: &mut [u8],
    len: &mut usize,
    index: &mut usize,
) -> u32
    ensures { AreOriginsReturned vrps.now routes.now out.old out.new len.new index.new result }
{
    *len = 0;
    *index = 0;
    match table_of(alloc, vrps) {
        Ok(table) => validate_routes(&table, routes, out, &mut [], len, index),
        Err(OrMemory::Refused(first)) => {
            *index = first.at;
            first.reason.status()
        }
        Err(OrMemory::Memory(_)) => status::MEMORY,
    }
}
