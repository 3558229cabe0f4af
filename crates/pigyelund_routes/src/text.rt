//! The texts of VRPs and routes. No call here takes memory.
ghost use Rattle.pigyelund_routes.specs.RouteTexts.{IsRouteTextRead, IsRouteTextWritten, IsVrpTextRead, IsVrpTextWritten, route_fault_number};
ghost use Rattle.std.specs.Prelude.{◌≡◌};

use crate::file_fault::vrp_fault_number;
use crate::route::{RawVrp, Route};
use crate::status;
use crate::write::write_items;
use roa_routes::buffer::{MAX_ROUTE, MAX_VRP, put_route, put_vrp};
use roa_routes::{RouteFault, read_route_text, read_vrp_text};
use rpki_base::Asn;

/// Returns the number of the fault of a line with a route, or of the text of a route.
pub(crate) fn route_fault_number(fault: RouteFault) -> u32
    ensures { result ≡ route_fault_number fault }
{
    match fault {
        RouteFault::NotUtf8 => 1,
        RouteFault::TooFewFields => 2,
        RouteFault::CommaForSpace => 3,
        RouteFault::OtherWord => 4,
        RouteFault::Prefix(_) => 5,
        RouteFault::Asn(_) => 6,
    }
}

/// Stores the VRP of a text in the form for C, and returns the status.
///
/// If the text is invalid, all members are 0, and the status is `BAD_LINE` with the number of the first fault.
pub fn read_vrp(text: &[u8], out: &mut RawVrp) -> u32
    ensures { IsVrpTextRead text.now out.new result }
{
    match read_vrp_text(text) {
        Ok(vrp) => {
            *out = RawVrp::of(&vrp);
            status::OK
        }
        Err(fault) => {
            *out = RawVrp::NONE;
            status::BAD_LINE + vrp_fault_number(fault)
        }
    }
}

/// Writes the text of a VRP to `out` if the VRP is valid and the text fits, and returns the status.
///
/// `len` receives the length in octets, written or required, at most 61. It is 0 for an invalid VRP. With any status
/// but `OK` the buffer is unchanged.
pub fn write_vrp(vrp: &RawVrp, out: &mut [u8], len: &mut usize) -> u32
    ensures { IsVrpTextWritten vrp.now out.old out.new len.new result }
{
    *len = 0;
    match vrp.read() {
        Ok(vrp) => {
            let mut text = [0; MAX_VRP];
            let end = put_vrp(&mut text, 0, &vrp);
            write_items(&text[..end], out, len)
        }
        Err(reason) => reason.status(),
    }
}

/// Stores the route of a text in the form for C, and returns the status.
///
/// If the text is invalid, all members are 0, and the status is `BAD_ROUTE` with the number of the first fault.
pub fn read_route(text: &[u8], out: &mut Route) -> u32
    ensures { IsRouteTextRead text.now out.new result }
{
    match read_route_text(text) {
        Ok(route) => {
            *out = Route::of(&route);
            status::OK
        }
        Err(fault) => {
            *out = Route::NONE;
            status::BAD_ROUTE + route_fault_number(fault)
        }
    }
}

/// Writes the text of a route to `out` if the route is valid and the text fits, and returns the status.
///
/// `len` receives the length in octets, written or required, at most 57. It is 0 for an invalid route. With any status
/// but `OK` the buffer is unchanged.
pub fn write_route(route: &Route, out: &mut [u8], len: &mut usize) -> u32
    ensures { IsRouteTextWritten route.now out.old out.new len.new result }
{
    *len = 0;
    match route.prefix() {
        Ok(prefix) => {
            let mut text = [0; MAX_ROUTE];
            let end = put_route(&mut text, 0, prefix, Asn::from_u32(route.asn));
            write_items(&text[..end], out, len)
        }
        Err(reason) => reason.status(),
    }
}
