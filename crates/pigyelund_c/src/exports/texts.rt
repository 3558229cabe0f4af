//! The exports of sets that are passed as text, and of the texts of VRPs and routes.
ghost use Rattle.std.specs.Prelude.{MatchResult, Result};
ghost use Rattle.rpki_text.specs.Memory.{IfRefused};
ghost use Rattle.rpki_text.specs.declared.memory.OrMemory.{OrMemory as Refusing};
ghost use Rattle.rpki_resources.specs.Triples.{Triple};
ghost use Rattle.pigyelund_routes.specs.RouteTexts.{IsRouteTextRead, IsRouteTextWritten, IsVrpTextRead, IsVrpTextWritten};
ghost use Rattle.pigyelund_c.specs.Sets.{IsSetReturned};
ghost use Rattle.pigyelund_c.specs.Texts.{IsNoTextSet, IsTextSet, text_set, text_status};
ghost use Rattle.pigyelund_c.specs.declared.text.TextError.{TextError};

use crate::text::{set_of_text, status_and_text_set};
use crate::write::write_set;
use pigyelund_routes::route::{RawVrp, Route};
use pigyelund_routes::text::{read_route, read_vrp, write_route, write_vrp};
use std::alloc::Global;

/// Reads a list of AS numbers or of addresses, and writes the set of these resources.
///
/// `kind` is 5 for AS numbers, 4 for IPv4 and 6 for IPv6. The elements of the list are separated by commas, and may
/// have white space at their ends. Each is an AS number, an address, a prefix or a range. Elements may be in any order
/// and may overlap. `as_len` and `ip_len` receive lengths in octets, written or required. A list of AS numbers has
/// no addresses, and a list of addresses has no AS numbers: that length is 0.
///
/// Returns the first status that applies:
///
/// - `PIGY_BAD_KIND`.
/// - `PIGY_BAD_TEXT` + 1: the text is not UTF-8. `PIGY_BAD_TEXT` + n: the first invalid element.
/// - `PIGY_TOO_SMALL`, then `PIGY_OK`.
///
/// The call can return `PIGY_MEMORY` instead of any other status. Both lengths are 0 for an error other than
/// `PIGY_TOO_SMALL`. For any error the buffers are unchanged.
#[unsafe(no_mangle)]
pub extern "C" fn pigy_set_from_text(
    alloc: Global,
    text: &[u8],
    kind: u32,
    as_out: &mut [u8],
    ip_out: &mut [u8],
    as_len: &mut usize,
    ip_len: &mut usize,
) -> u32
    ensures { (outcome : Result Triple (Refusing TextError))
        × MatchResult outcome (IsTextSet kind text.now) (IfRefused (IsNoTextSet kind text.now))
        × IsSetReturned (text_status outcome) (text_set outcome) as_out.old ip_out.old as_out.new
        ip_out.new as_len.new ip_len.new result }
{
    let outcome = set_of_text(alloc, kind, text);
    let (status, set) = status_and_text_set(outcome);
    write_set(alloc, status, &set, as_out, ip_out, as_len, ip_len)
}

/// Reads the text of a VRP: a prefix, perhaps a dash and a maximum length, a space and an AS number.
///
/// White space may precede or follow the two words. Without a maximum length it is the prefix length. `out` receives
/// the VRP. For any error all its members are 0.
///
/// Returns `PIGY_BAD_LINE` + n for the first fault of an invalid text, and otherwise `PIGY_OK`. The call allocates
/// nothing.
#[unsafe(no_mangle)]
pub extern "C" fn pigy_vrp_from_text(text: &[u8], out: &mut RawVrp) -> u32
    ensures { IsVrpTextRead text.now out.new result }
{
    read_vrp(text, out)
}

/// Writes the text of a VRP: its prefix, a dash and the maximum length, a space and its AS number.
///
/// `len` receives the length in octets, written or required, at most 61.
///
/// Returns the first status that applies:
///
/// - `PIGY_BAD_FAMILY`, `PIGY_BAD_PREFIX`, `PIGY_BAD_MAX_LEN`: the VRP is invalid.
/// - `PIGY_TOO_SMALL`, then `PIGY_OK`.
///
/// The call allocates nothing. `len` is 0 for an error other than `PIGY_TOO_SMALL`. For any error `out` is unchanged.
#[unsafe(no_mangle)]
pub extern "C" fn pigy_vrp_text(vrp: &RawVrp, out: &mut [u8], len: &mut usize) -> u32
    ensures { IsVrpTextWritten vrp.now out.old out.new len.new result }
{
    write_vrp(vrp, out, len)
}

/// Reads the text of a route: a prefix, a space and an AS number.
///
/// White space may precede or follow the two words. `out` receives the route. For any error all its members are 0.
///
/// Returns `PIGY_BAD_ROUTE` + n for the first fault of an invalid text, and otherwise `PIGY_OK`. The call allocates
/// nothing.
#[unsafe(no_mangle)]
pub extern "C" fn pigy_route_from_text(text: &[u8], out: &mut Route) -> u32
    ensures { IsRouteTextRead text.now out.new result }
{
    read_route(text, out)
}

/// Writes the text of a route: its prefix, a space and its AS number.
///
/// `len` receives the length in octets, written or required, at most 57.
///
/// Returns the first status that applies:
///
/// - `PIGY_BAD_FAMILY`, `PIGY_BAD_PREFIX`: the route is invalid.
/// - `PIGY_TOO_SMALL`, then `PIGY_OK`.
///
/// The call allocates nothing. `len` is 0 for an error other than `PIGY_TOO_SMALL`. For any error `out` is unchanged.
#[unsafe(no_mangle)]
pub extern "C" fn pigy_route_text(route: &Route, out: &mut [u8], len: &mut usize) -> u32
    ensures { IsRouteTextWritten route.now out.old out.new len.new result }
{
    write_route(route, out, len)
}
