//! Validates route origins by VRPs, and compares an authorization with the resources of its certificate (RFC 6811; RFC
//! 9582).
ghost use Rattle.std.specs.Prelude.{All, IfOk, MatchOption};
ghost use Rattle.roa_check.specs.Inside.{IsPrefixInside};
ghost use Rattle.roa_origin.specs.Validities.{IsValidity};
ghost use Rattle.example_calls.specs.Routes.{IsCountOfInvalid, IsFirstExcess};

use roa_check::{Validity, outside};
use roa_origin::{OriginTable, Vrp};
use rpki_resources::repository::resources::ResourceSet;
use rpki_resources::resources::addr::{MaxLenPrefix, Prefix};
use rpki_resources::resources::asn::Asn;
use std::alloc::{AllocError, Allocator};

/// Returns the validity of the route to a prefix that an AS originates, by a table of a list of VRPs.
///
/// A router makes such a table once, and uses it for many routes.
///
/// # Errors
///
/// [`AllocError`] if an allocation fails.
pub fn by_table<A: Allocator + Copy>(
    alloc: A,
    route: Prefix,
    asn: Asn,
    vrps: &[Vrp],
) -> Result<Validity, AllocError>
    ensures { IfOk result (IsValidity route asn vrps.now) }
{
    roa_origin::laws::laws_of_validities(); // so that the proof sees that the table's order doesn't matter
    let table = OriginTable::new(alloc, vrps)?;
    Ok(table.origin(route, asn))
}

/// Returns how many of the routes are invalid by a table: a VRP covers the route, and none matches it (RFC 6811, 2).
pub fn count_invalid<A: Allocator>(table: &OriginTable<A>, routes: &[(Prefix, Asn)]) -> usize
    ensures { IsCountOfInvalid table.now routes.now result }
{
    let mut count = 0;
    for (route, asn) in routes {
        if table.origin(*route, *asn) == Validity::Invalid {
            count += 1;
        }
    }
    count
}

/// Returns the first prefix of an authorization that isn't inside the resources of its certificate.
///
/// The call returns None if each prefix is inside: the certificate then has all addresses of the authorization (RFC
/// 9582, 5).
pub fn excess<A: Allocator>(
    resources: &ResourceSet<A>,
    prefixes: &[MaxLenPrefix],
) -> Option<MaxLenPrefix>
    ensures { MatchOption result (All (λ prefix. IsPrefixInside resources.now prefix.prefix) prefixes.now)
        (IsFirstExcess resources.now prefixes.now) }
{
    match outside(resources, prefixes) {
        Some(at) => Some(prefixes[at]),
        None => None,
    }
}
