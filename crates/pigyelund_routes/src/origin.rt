//! Arrays of VRPs and routes that a caller passes, and the numbers of validities.
ghost use Rattle.std.specs.Prelude.{◌≡◌, MatchResult};
ghost use Rattle.rpki_text.specs.Memory.{IfRefused};
ghost use Rattle.pigyelund_routes.specs.Origins.{AreEach, AreRoutes, IsFirstElementError, IsFirstRouteError, validity_number};
ghost use Rattle.pigyelund_routes.specs.Routes.{IsNoVrp, IsVrp};
ghost use Rattle.pigyelund_routes.specs.Tables.{IsTableOfHanded};

use crate::route::{RawVrp, Route, RouteError};
use roa_origin::{OriginTable, Validity, Vrp};
use rpki_text::memory::OrMemory;
use std::alloc::Global;

/// The first invalid element of an array, and the reason why it is invalid.
#[derive(Clone, Copy)]
pub struct ElementError {
    /// The index of the element, counted from 0.
    pub at: usize,
    /// The reason why the element is invalid.
    pub reason: RouteError,
}

/// Returns the number of a validity: 0 valid, 1 not found, 2 invalid (RFC 8097, 2).
pub(crate) fn number_of(validity: Validity) -> u8
    ensures { result ≡ validity_number validity }
{
    match validity {
        Validity::Valid => 0,
        Validity::NotFound => 1,
        Validity::Invalid => 2,
    }
}

/// Returns the checked VRPs of an array, in its order.
///
/// # Errors
///
/// - `Refused`: the first invalid VRP.
/// - `Memory`: out of memory for the VRPs.
pub fn vrps_of(alloc: Global, vrps: &[RawVrp]) -> Result<Vec<Vrp, Global>, OrMemory<ElementError>>
    ensures { MatchResult result (λ read. AreEach IsVrp vrps.now read.items)
        (IfRefused (IsFirstElementError IsVrp IsNoVrp vrps.now)) }
{
    let mut read = Vec::with_capacity(alloc, vrps.len())?;
    for (at, vrp) in vrps.iter().enumerate() {
        match vrp.read() {
            Ok(vrp) => read.push(vrp)?,
            Err(reason) => return Err(OrMemory::Refused(ElementError { at, reason })),
        }
    }
    Ok(read)
}

/// Returns the table of the VRPs of an array. Duplicates are kept.
///
/// # Errors
///
/// - `Refused`: the first invalid VRP.
/// - `Memory`: out of memory for the VRPs or the table.
pub fn table_of(
    alloc: Global,
    vrps: &[RawVrp],
) -> Result<OriginTable<Global>, OrMemory<ElementError>>
    ensures { MatchResult result (IsTableOfHanded vrps.now)
        (IfRefused (IsFirstElementError IsVrp IsNoVrp vrps.now)) }
{
    let read = vrps_of(alloc, vrps)?;
    let table = OriginTable::new(alloc, read.as_slice())?;
    Ok(table)
}

/// Checks that each route is valid.
///
/// # Errors
///
/// The first invalid route.
pub(crate) fn check_routes(routes: &[Route]) -> Result<(), ElementError>
    ensures { MatchResult result (λ _. AreRoutes routes.now) (IsFirstRouteError routes.now) }
{
    for (at, route) in routes.iter().enumerate() {
        match route.check() {
            Ok(()) => {}
            Err(reason) => return Err(ElementError { at, reason }),
        }
    }
    Ok(())
}
