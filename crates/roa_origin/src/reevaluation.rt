//! The routes that a router evaluates again after its table changes (RFC 6811, 4).
ghost use Rattle.std.specs.Prelude.{◌≢◌, ◌↔◌, IfOk, IsTrue};
ghost use Rattle.roa_origin.specs.Reevaluations.{AreChanged};

use crate::table::OriginTable;
use crate::validation::Validity;
use rpki_base::Asn;
use rpki_prefix::Prefix;
use std::alloc::{AllocError, Allocator};

/// Returns the indices of the routes whose validity differs between `old` and `new`, ascending and counted from 0.
///
/// `routes` has a prefix and an origin AS for each route. A router evaluates the returned routes again when it replaces
/// `old` by `new`. All other routes keep their validity (RFC 6811, 4).
///
/// This call compares the validity of routes. [`crate::VrpTable::changes_to`] compares the VRPs of two tables.
///
/// # Errors
///
/// [`AllocError`] if an allocation for the list fails.
pub fn changed_routes<A: Allocator>(
    alloc: A,
    old: &OriginTable<A>,
    new: &OriginTable<A>,
    routes: &[(Prefix, Asn)],
) -> Result<Vec<usize, A>, AllocError>
    ensures { IfOk result (λ places. AreChanged old.now new.now routes.now places.items) }
{
    let mut places = Vec::new(alloc);
    for (place, (route, asn)) in routes.iter().enumerate() {
        if differ(old.origin(*route, *asn), new.origin(*route, *asn)) {
            places.push(place)?;
        }
    }
    Ok(places)
}

/// Returns whether two validities differ.
fn differ(one: Validity, other: Validity) -> bool
    ensures { IsTrue result ↔ (one ≢ other) }
{
    one != other
}
