//! The validity of a route's origin by a list of VRPs (RFC 6811, 2).
ghost use Rattle.std.specs.Prelude.{◌↔◌, IsTrue};
ghost use Rattle.roa_origin.specs.Validities.{IsValidity};
ghost use Rattle.roa_origin.specs.Vrps.{CoversRoute, Matches};

use crate::vrp::Vrp;
use rpki_base::Asn;
use rpki_prefix::Prefix;

/// The validity of a route's origin (RFC 6811, 2).
#[derive(Debug, Clone, Copy, PartialEq, Eq)]
pub enum Validity {
    /// A VRP matches the route.
    Valid,
    /// A VRP covers the route, and none matches it.
    Invalid,
    /// No VRP covers the route.
    NotFound,
}

/// The validity of a route's origin, and whether a VRP that covers the route has the route's AS.
#[derive(Debug, Clone, Copy, PartialEq, Eq)]
pub struct ValidityAndAsn {
    /// The validity.
    pub validity: Validity,
    /// Whether a VRP that covers the route has its AS, and that AS is not AS0. If the route is invalid, it is too long
    /// for each such VRP.
    pub has_covering_asn: bool,
}

/// Returns whether a VRP covers a route: its prefix covers the route's, so both are of one family (RFC 6811, 2).
pub(crate) fn covers(vrp: &Vrp, route: Prefix) -> bool
    ensures { IsTrue result ↔ CoversRoute route vrp.now }
{
    vrp.0.prefix().covers(route)
}

/// Returns whether a VRP matches a route that an AS originates (RFC 6811, 2; RFC 9582, 4.3.2).
///
/// It matches if all of these hold:
///
/// - Its prefix covers the route's.
/// - The route is no longer than its maximum length.
/// - Its AS is the route's, and is not AS0.
pub(crate) fn matches(vrp: &Vrp, route: Prefix, asn: Asn) -> bool
    ensures { IsTrue result ↔ Matches route asn vrp.now }
{
    asn != Asn::MIN && vrp.1 == asn && route.len() <= vrp.0.resolved_max_len() && covers(vrp, route)
}

/// Returns the validity of the route to `route` that `asn` originates, by a list of VRPs (RFC 6811, 2).
///
/// The call looks at each VRP at most once, and allocates nothing. If a path has no single origin (`NONE` in the RFC,
/// for example if it ends in an AS_SET), pass AS0 as `asn`: no VRP matches it.
pub fn origin(route: Prefix, asn: Asn, vrps: &[Vrp]) -> Validity
    ensures { IsValidity route asn vrps.now result }
{
    let mut validity = Validity::NotFound;
    for vrp in vrps {
        if covers(vrp, route) {
            if matches(vrp, route, asn) {
                return Validity::Valid;
            }
            validity = Validity::Invalid;
        }
    }
    validity
}
