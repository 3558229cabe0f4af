//! Reads lines with a route in the usual form, in one pass.
//!
//! A line of the usual form is a prefix, one space and an AS number. It has no other white space and no plus sign. The
//! call returns None for a line of another form, even for one that [`crate::route::read_route`] accepts.
ghost use Rattle.std.specs.Prelude.{IfSome};
ghost use Rattle.roa_routes.specs.Routes.{IsRouteLine};

use crate::route::Route;
use roa_vrps::front::{strip_byte, take_asn, take_prefix};
use rpki_base::Asn;
use rpki_prefix::Prefix;

/// Returns the route of a line of the usual form, or None if the line has another form.
pub(crate) fn usual_route(line: &[u8]) -> Option<Route>
    ensures { IfSome result (IsRouteLine line.now) }
{
    let Some((addr, len, after)) = take_prefix(line) else {
        return None;
    };
    let word = strip_byte(b' ', after)?;
    let (asn, rest) = take_asn(word)?;
    if !rest.is_empty() {
        return None;
    }
    match Prefix::new(addr, len) {
        Ok(prefix) => Some(Route {
            prefix,
            origin: Some(Asn::from_u32(asn)),
        }),
        Err(_) => None,
    }
}
