//! The routes whose validity differs between two tables (RFC 6811, 4), without an allocation.
ghost use Rattle.std.specs.Prelude.{◌≡◌, ◌+◌, ◌≤◌, length};
ghost use Rattle.pigyelund_routes.specs.Lookups.{AreAppended};
ghost use Rattle.pigyelund_routes.specs.Origins.{AreEach, AreRoutes};
ghost use Rattle.pigyelund_routes.specs.RouteChanges.{AreRoutesCompared, IsChangeFound, IsRouteChange, change_mark};

use crate::interleaved::{BESIDE, advance, begin};
use crate::origin::{check_routes, number_of};
use crate::route::Route;
use crate::status;
use roa_origin::{Lookup, OriginTable};
use std::alloc::Global;

/// Returns 0 for equal numbers, and 1 for others.
fn mark(one: u8, other: u8) -> u8
    ensures { result ≡ change_mark one other }
{
    if one == other { 0 } else { 1 }
}

/// Writes the marks of what the first `count` lookups in two tables find, from index `at` on.
fn end_marks(
    befores: &[Lookup<'_>; BESIDE],
    afters: &[Lookup<'_>; BESIDE],
    count: usize,
    at: usize,
    octets: &mut [u8],
)
    requires count { count ≤ BESIDE }
    requires octets { at + count ≤ length octets.old }
    ensures { AreAppended (IsChangeFound befores.now afters.now) at count octets.old octets.new }
{
    for offset in 0..count {
        let before = befores[offset].validity();
        let after = afters[offset].validity();
        octets[at + offset] = mark(number_of(before), number_of(after));
    }
}

/// Writes the mark of each route to `octets`.
///
/// # Preconditions
///
/// All routes are valid. `octets` has one octet for each route.
fn write_marks(
    old: &OriginTable<Global>,
    next: &OriginTable<Global>,
    routes: &[Route],
    octets: &mut [u8],
)
    requires valid { AreRoutes routes.now }
    requires octets { length octets.old ≡ length routes.now }
    ensures { AreEach (IsRouteChange old.now next.now) routes.now octets.new }
{
    let mut at = 0;
    while at < routes.len() {
        let count = (routes.len() - at).min(BESIDE);
        let mut befores = begin(old, routes, at);
        let mut afters = begin(next, routes, at);
        advance(&mut befores, count);
        advance(&mut afters, count);
        end_marks(&befores, &afters, count, at, octets);
        at += count;
    }
}

/// Writes 1 to `out` for each route whose validity differs between two tables, and 0 for each other route, and returns
/// the status.
///
/// `len` receives the number of routes. If a route is invalid, the status is its own, `index` receives its index, and
/// `len` is 0. Otherwise `index` is 0. If `out` is too short, the status is `TOO_SMALL`. `out` is unchanged with any
/// status except `OK`.
pub fn route_changes(
    old: &OriginTable<Global>,
    next: &OriginTable<Global>,
    routes: &[Route],
    out: &mut [u8],
    len: &mut usize,
    index: &mut usize,
) -> u32
    ensures { AreRoutesCompared old.now next.now routes.now out.old out.new len.new index.new result }
{
    *len = 0;
    *index = 0;
    if let Err(first) = check_routes(routes) {
        *index = first.at;
        return first.reason.route_status();
    }
    let count = routes.len();
    *len = count;
    if out.len() < count {
        return status::TOO_SMALL;
    }
    write_marks(old, next, routes, &mut out[..count]);
    status::OK
}
