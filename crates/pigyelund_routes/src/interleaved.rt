//! Lookups of several routes in a table at the same time, so that their memory reads overlap.
ghost use Rattle.std.specs.Prelude.{◌≡◌, ◌+◌, ◌<◌, ◌≤◌, length, slice_index_or};
ghost use Rattle.rpki_prefix.specs.Values.{FamilyPrefix};
ghost use Rattle.pigyelund_routes.specs.Lookups.{AreBegun, IsLookupIn};
ghost use Rattle.pigyelund_routes.specs.Origins.{AreRoutes};
ghost use Rattle.pigyelund_routes.specs.Routes.{IsRoute};
ghost use Rattle.pigyelund_routes.specs.declared.route.Route.{Route};

use crate::route::Route;
use roa_origin::{Lookup, OriginTable};
use rpki_base::Asn;
use std::alloc::Global;

/// The number of routes that are looked up at the same time.
pub(crate) const BESIDE: usize = 12;

/// Starts a lookup of a valid route.
fn lookup_of<'a>(table: &'a OriginTable<Global>, route: &Route) -> Lookup<'a>
    requires { (prefix : FamilyPrefix) × IsRoute route.now prefix }
    ensures { IsLookupIn table.now route.now result }
{
    match route.prefix() {
        Ok(prefix) => table.lookup(prefix, Asn::from_u32(route.asn)),
        Err(_) => unreachable!(),
    }
}

/// Starts a lookup of the route `offset` routes after index `at`, or of the last route if there are fewer routes.
fn lookup_at<'a>(
    table: &'a OriginTable<Global>,
    routes: &[Route],
    at: usize,
    offset: usize,
) -> Lookup<'a>
    requires at { at < length routes.now }
    requires valid { AreRoutes routes.now }
    ensures { (r : Route) → at + offset < length routes.now
        → IsLookupIn table.now (slice_index_or routes.now (at + offset) r) result }
{
    let last = routes.len() - 1 - at;
    lookup_of(table, &routes[at + offset.min(last)])
}

/// Starts lookups of the routes from index `at` on. If there are too few routes, the last route is looked up again.
pub(crate) fn begin<'a>(
    table: &'a OriginTable<Global>,
    routes: &[Route],
    at: usize,
) -> [Lookup<'a>; BESIDE]
    requires at { at < length routes.now }
    requires valid { AreRoutes routes.now }
    ensures { AreBegun table.now routes.now at BESIDE result }
{
    [
        lookup_at(table, routes, at, 0),
        lookup_at(table, routes, at, 1),
        lookup_at(table, routes, at, 2),
        lookup_at(table, routes, at, 3),
        lookup_at(table, routes, at, 4),
        lookup_at(table, routes, at, 5),
        lookup_at(table, routes, at, 6),
        lookup_at(table, routes, at, 7),
        lookup_at(table, routes, at, 8),
        lookup_at(table, routes, at, 9),
        lookup_at(table, routes, at, 10),
        lookup_at(table, routes, at, 11),
    ]
}

/// Takes the next step for each of the first `count` lookups.
pub(crate) fn advance(lookups: &mut [Lookup<'_>; BESIDE], count: usize)
    requires { count ≤ BESIDE }
    ensures { lookups.new ≡ lookups.old }
{
    for at in 0..count {
        lookups[at].advance();
    }
}
