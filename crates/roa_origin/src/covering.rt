//! The VRPs that cover a route: they explain its validity (RFC 6811, 2).
ghost use Rattle.std.specs.Iterator.{YieldsFirst, item_count};

use crate::links::Link;
use crate::packed_vrp::PackedVrp;
use crate::route_key::RouteKey;
use crate::vrp::Vrp;
use std::fmt;
use std::marker::Model;

/// An iterator over the VRPs of a table that cover a route, the longest prefix first.
///
/// In contracts its value is the list of the VRPs that are left. `pigyelund_routes::route::Covering` is one such VRP
/// for C.
#[derive(Drop)]
pub struct Covering<'a> {
    pub(crate) vrps: &'a [PackedVrp],
    pub(crate) links: &'a [Link],
    pub(crate) at: usize,
    pub(crate) route: RouteKey,
}

impl<'a> Model for Covering<'a> {
    ghost use Rattle.std.specs.Prelude.{List};
    ghost use Rattle.roa_origin.specs.Coverings.{IsCoveringWalk, covering_before};
    ghost use Rattle.roa_origin.specs.Vrps.{Vrp};

    ghost Value = { List Vrp };

    ghost view = { λ c. covering_before c.route.0 c.vrps.now c.at };

    ghost invariant = { λ c. IsCoveringWalk c.vrps.now c.links.now c.at c.route.0 };
}

/// Prints the route's prefix, and not the VRPs that are left.
impl fmt::Debug for Covering<'_> {
    fn fmt<W: fmt::Write>(&self, f: &mut fmt::Formatter<W>) -> fmt::Result {
        f.debug_struct("Covering")
            .field("route", &self.route.prefix())
            .finish_non_exhaustive()
    }
}

impl Iterator for Covering<'_> {
    type Item = Vrp;

    ghost next_gives = { YieldsFirst (λ vrps. vrps) };

    ghost remaining = { item_count (λ vrps. vrps) };

    /// Returns the next VRP. The VRP before it is next if it has the same prefix, and otherwise the one that its link
    /// leads to.
    fn next(&mut self) -> Option<Vrp> {
        if self.at == 0 {
            return None;
        }
        let last = self.at - 1;
        let Link { first, back } = self.links[last];
        self.at = if (first as usize) < last {
            last
        } else {
            back as usize
        };
        Some(self.vrps[last].vrp())
    }
}
