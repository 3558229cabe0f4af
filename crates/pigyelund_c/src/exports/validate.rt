//! The export of route origin validation.
ghost use Rattle.pigyelund_routes.specs.Validities.{AreOriginsReturned};

use pigyelund_routes::route::{RawVrp, Route};
use pigyelund_routes::validities::validate_by_vrps;
use std::alloc::Global;

/// Validates routes by VRPs (RFC 6811, 2).
///
/// The call writes one octet for each route: 0 valid, 1 not found, 2 invalid (RFC 8097, 2). VRPs may be in any order,
/// with duplicates. Each call makes a table of them once. Pass many routes to one call, or use `pigy_table_new`. `len`
/// receives the length in octets, written or required. `index` receives the index of the first invalid VRP or route,
/// counted from 0, and 0 otherwise.
///
/// If the path of a route has no single origin ("NONE" in RFC 6811, 2), pass AS0. No VRP matches AS0.
///
/// Returns the first status that applies:
///
/// - `PIGY_BAD_FAMILY`, `PIGY_BAD_PREFIX`, `PIGY_BAD_MAX_LEN`: the first invalid VRP.
/// - `PIGY_SECOND` + `PIGY_BAD_FAMILY`, `PIGY_SECOND` + `PIGY_BAD_PREFIX`: the first invalid route.
/// - `PIGY_TOO_SMALL`, then `PIGY_OK`.
///
/// The call can return `PIGY_MEMORY` instead of any other status. `len` is 0 for an error other than `PIGY_TOO_SMALL`.
/// For any error `out` is unchanged.
#[unsafe(no_mangle)]
pub extern "C" fn pigy_validate(
    alloc: Global,
    vrps: &[RawVrp],
    routes: &[Route],
    out: &mut [u8],
    len: &mut usize,
    index: &mut usize,
) -> u32
    ensures { AreOriginsReturned vrps.now routes.now out.old out.new len.new index.new result }
{
    validate_by_vrps(alloc, vrps, routes, out, len, index)
}
