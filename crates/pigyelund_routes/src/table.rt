//! Tables that stay between calls: they are made of VRPs that a caller passes.
//!
//! The calls return the VRPs that cover a route, and all VRPs. `crate::validities` returns the validity of routes.
ghost use Rattle.std.specs.Prelude.{◌≡◌, IfOk, MatchResult, map};
ghost use Rattle.rpki_text.specs.Memory.{IfRefused};
ghost use Rattle.pigyelund_routes.specs.Origins.{IsFirstElementError};
ghost use Rattle.pigyelund_routes.specs.Tables.{IsTableOfHanded};
ghost use Rattle.pigyelund_routes.specs.Routes.{IsNoRoute, IsNoVrp, IsVrp};
ghost use Rattle.pigyelund_routes.specs.ReturnedVrps.{AreCoveringsOf, AreCoveringsTo, handed_of};

use crate::origin::{ElementError, table_of};
use crate::route::{Covering, RawVrp, Route, RouteError};
use box_pointer::BoxPointer;
use roa_origin::OriginTable;
use rpki_base::Asn;
use rpki_prefix::Prefix;
use rpki_text::memory::OrMemory;
use std::alloc::{AllocError, Global};

/// Returns the boxed table of VRPs. Duplicates are kept.
///
/// # Errors
///
/// - `Refused`: the first invalid VRP.
/// - `Memory`: out of memory for the VRPs, the table or its box.
pub fn made_table(
    alloc: Global,
    vrps: &[RawVrp],
) -> Result<BoxPointer<OriginTable<Global>, Global>, OrMemory<ElementError>>
    ensures { MatchResult result (λ parts. IsTableOfHanded vrps.now parts.value)
        (IfRefused (IsFirstElementError IsVrp IsNoVrp vrps.now)) }
{
    let table = table_of(alloc, vrps)?;
    match Box::new(alloc, table) {
        Ok(boxed) => Ok(BoxPointer::of(boxed)),
        Err(_) => Err(OrMemory::Memory(AllocError)),
    }
}

/// Returns the VRPs of a table that cover the route to `route` from `asn`, each with its mismatch.
///
/// # Errors
///
/// [`AllocError`] if out of memory for them.
fn coverings_to(
    alloc: Global,
    table: &OriginTable<Global>,
    route: Prefix,
    asn: Asn,
) -> Result<Vec<Covering, Global>, AllocError>
    ensures { IfOk result (λ list. AreCoveringsTo table.now route asn list.items) }
{
    let mut list = Vec::new(alloc);
    for vrp in table.covering(route) {
        list.push(Covering::of(route, asn, &vrp))?;
    }
    Ok(list)
}

/// Returns the VRPs of a table that cover a route, each with its mismatch (RFC 6811, 2).
///
/// The longest prefix comes first, then the least AS number, then the longest maximum length.
///
/// # Errors
///
/// - `Refused`: the route is invalid.
/// - `Memory`: out of memory for the VRPs.
pub fn coverings(
    alloc: Global,
    table: &OriginTable<Global>,
    route: &Route,
) -> Result<Vec<Covering, Global>, OrMemory<RouteError>>
    ensures { MatchResult result (λ list. AreCoveringsOf table.now route.now list.items)
        (IfRefused (IsNoRoute route.now)) }
{
    let prefix = match route.prefix() {
        Ok(prefix) => prefix,
        Err(reason) => return Err(OrMemory::Refused(reason)),
    };
    let list = coverings_to(alloc, table, prefix, Asn::from_u32(route.asn))?;
    Ok(list)
}

/// Returns all VRPs of a table, in its order.
///
/// # Errors
///
/// [`AllocError`] if out of memory for them.
pub fn all_vrps(
    alloc: Global,
    table: &OriginTable<Global>,
) -> Result<Vec<RawVrp, Global>, AllocError>
    ensures { IfOk result (λ list. list.items ≡ map handed_of table.now) }
{
    let mut list = Vec::with_capacity(alloc, table.len())?;
    for vrp in table.vrps() {
        list.push(RawVrp::of(&vrp))?;
    }
    Ok(list)
}
