//! The validity of one route by a table, without an allocation.
ghost use Rattle.std.specs.Prelude.{◌≡◌, MatchResult};
ghost use Rattle.pigyelund_routes.specs.Reasons.{IsValidated, reason_number};
ghost use Rattle.pigyelund_routes.specs.Routes.{IsNoRoute};

use crate::origin::number_of;
use crate::route::{Route, RouteError};
use roa_origin::{OriginTable, Validity, ValidityAndAsn};
use rpki_base::Asn;
use std::alloc::Global;

/// The number of a single validity after an error. No validity has it.
pub const NO_VALIDITY: u8 = 255;

/// The validity of a route and the reason why it is invalid, as numbers for C.
#[derive(Clone, Copy)]
pub struct Validated {
    /// The validity: 0 valid, 1 not found, 2 invalid (RFC 8097, 2).
    pub validity: u8,
    /// 0 for a route that is not invalid. Otherwise 2 if a VRP that covers the route has its AS, and 1 if none has.
    pub reason: u8,
}

/// Returns the number of the reason why a route is invalid, or 0 for any other validity.
pub(crate) fn reason_number(found: ValidityAndAsn) -> u8
    ensures { result ≡ reason_number found.validity found.has_covering_asn }
{
    match found.validity {
        Validity::Valid | Validity::NotFound => 0,
        Validity::Invalid => { if found.has_covering_asn { 2 } else { 1 } }
    }
}

/// Returns the validity of a route by a table, and the reason why it is invalid (RFC 6811, 2).
///
/// # Errors
///
/// The reason why the route is malformed.
pub fn validate_route(table: &OriginTable<Global>, route: &Route) -> Result<Validated, RouteError>
    ensures { MatchResult result
        (λ found. IsValidated table.now route.now found.validity found.reason)
        (IsNoRoute route.now) }
{
    let prefix = match route.prefix() {
        Ok(prefix) => prefix,
        Err(reason) => return Err(reason),
    };
    let found = table
        .lookup(prefix, Asn::from_u32(route.asn))
        .validity_and_asn();
    Ok(Validated {
        validity: number_of(found.validity),
        reason: reason_number(found),
    })
}
