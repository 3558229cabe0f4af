//! A lookup of a route in a table, step by step.
ghost use Rattle.std.specs.Prelude.{◌≡◌, ◌-◌, ◌<◌, ◌≤◌, ◌↔◌, IsTrue, length, nat_le, reverse, slice_index_or};
ghost use Rattle.std.specs.List.Sorted.{IsNonDecreasingBy};
ghost use Rattle.rpki_prefix.specs.Values.{IsFamilyPrefix};
ghost use Rattle.roa_origin.specs.Coverings.{AreThose};
ghost use Rattle.roa_origin.specs.Links.{AreLater, AreUpTo, IsBetween, IsTable, NoneCovers};
ghost use Rattle.roa_origin.specs.Places.{place, table_place, vrp_place};
ghost use Rattle.roa_origin.specs.Starts.{AreStarts};
ghost use Rattle.roa_origin.specs.Validities.{HasCoveringAsn, IsValidity};
ghost use Rattle.roa_origin.specs.Vrps.{CoversRoute, Vrp, prefix_len};

use crate::covering::Covering;
use crate::links::{Link, nearest};
use crate::packed_vrp::PackedVrp;
use crate::route_key::RouteKey;
use crate::table::validity_by;
use crate::validation::{Validity, ValidityAndAsn};
use std::fmt;
use std::marker::Model;

/// A lookup of a route in a table.
///
/// Each step reads one more VRP of the table. For many routes, take a step for several of them before the next step for
/// the first one. Then the reads for one route don't wait for the reads for another. In contracts its value is the
/// table's VRPs, the route's prefix and its AS.
#[derive(Drop)]
pub struct Lookup<'a> {
    vrps: &'a [PackedVrp],
    links: &'a [Link],
    from: usize,
    to: usize,
    route: RouteKey,
    /// Whether the search has ended, and the VRP before `from` was read.
    is_ended: bool,
    /// Whether the search has ended, and the VRP before `from` covers the route.
    covers: bool,
    /// The link of this VRP, if it covers the route.
    link: Link,
}

impl<'a> Model for Lookup<'a> {
    ghost use Rattle.roa_origin.specs.Lookups.{IsLookupBetween, RouteLookup};

    ghost Value = { RouteLookup };

    ghost view = { λ s. record {
      vrps = s.vrps.now;
      route = s.route.0;
      asn = s.route.1;
    } };

    ghost invariant = { λ s. IsLookupBetween s.vrps.now s.links.now s.from s.to s.route.0 s.covers s.link };
}

impl<'a> Lookup<'a> {
    /// Starts a lookup. The starts give the two indices between which it searches.
    ///
    /// # Preconditions
    ///
    /// `links` and `starts` are those of `vrps`, for the first `bits` bits.
    #[tactic(auto, using(crate::proofs::FirstBits::between_starts))]
    pub(crate) fn of(
        vrps: &'a [PackedVrp],
        links: &'a [Link],
        starts: &[u32],
        bits: u8,
        route: RouteKey,
    ) -> Lookup<'a>
        requires table { IsTable vrps.now links.now }
        requires is_prefix { IsFamilyPrefix route.0 }
        requires starts { AreStarts bits vrps.now starts.now }
        ensures vrps { result.vrps ≡ vrps.now }
        ensures route { result.route ≡ route.0 }
        ensures asn { result.asn ≡ route.1 }
    {
        let number = route.first_bits(bits);
        let from = starts[number] as usize;
        let to = starts[number + 1] as usize;
        Lookup {
            vrps,
            links,
            from,
            to,
            route,
            is_ended: false,
            covers: false,
            link: Link { first: 0, back: 0 },
        }
    }

    /// Takes the next step: reads the VRP in the middle of the range that is left, and halves the range.
    ///
    /// If no range is left, the step reads the VRP before the found index, and its link. The lookup remembers both, and
    /// no step is left. The step changes only how much a later call has to read. The results of the lookup stay the
    /// same.
    ///
    /// Returns whether another step is left.
    pub fn advance(&mut self) -> bool
        ensures { self.new ≡ self.old }
    {
        if self.from == self.to {
            if !self.is_ended {
                let end = self.from;
                self.end_at(end);
            }
            return false;
        }
        let middle = self.from + (self.to - self.from) / 2;
        if self.vrps[middle].comes_by(&self.route) {
            self.from = middle + 1;
        } else {
            self.to = middle;
        }
        true
    }

    /// Takes all steps that are left.
    ///
    /// Later calls don't search again: they begin where the search ended. Call it before you ask a lookup for more than
    /// one result. The results of the lookup stay the same.
    pub fn advance_to_end(&mut self)
        ensures { self.new ≡ self.old }
    {
        let end = self.count();
        self.end_at(end);
    }

    /// Ends the search at index `end`: reads the VRP before it, and its link, and remembers both.
    fn end_at(&mut self, end: usize)
        requires { IsBetween self.old.vrps end end self.old.route }
        ensures { self.new ≡ self.old }
    {
        self.from = end;
        self.to = end;
        self.is_ended = true;
        if end == 0 {
            self.covers = false;
            return;
        }
        self.covers = self.vrps[end - 1].covers(&self.route);
        self.link = self.links[end - 1];
    }

    /// Returns how many VRPs come no later than the route's prefix in the table's order, by a binary search between the
    /// two indices.
    fn count(&self) -> usize
        ensures within { result ≤ length self.now.vrps }
        ensures up_to { AreUpTo self.now.vrps result self.now.route }
        ensures later { AreLater self.now.vrps result self.now.route }
    {
        let route = &self.route;
        self.from
            + self.vrps[self.from..self.to].partition_point(
                |vrp: &PackedVrp| -> bool
                    ensures { result ≡ nat_le (vrp_place vrp.now) (place route.entry.now.0) }
                { vrp.comes_by(route) },
            )
    }

    /// Returns how many VRPs there are up to the last one that covers the route, or 0 if none covers it.
    fn count_to_nearest(&self) -> usize
        ensures within { result ≤ length self.now.vrps }
        ensures up_to { AreUpTo self.now.vrps result self.now.route }
        ensures none { NoneCovers self.now.vrps self.now.route result (length self.now.vrps) }
        ensures found { (d : Vrp) → 0 < result →
            CoversRoute self.now.route (slice_index_or self.now.vrps (result - 1) d) }
    {
        if self.covers {
            return self.from;
        }
        nearest(self.vrps, self.links, self.count(), &self.route)
    }

    /// Returns the validity of the route by the VRPs of the table, and whether a VRP that covers the route has its AS
    /// (RFC 6811, 2).
    ///
    /// The call finds both in one pass over the VRPs that cover the route.
    #[tactic(auto, using(crate::proofs::CoveringVrps::near_found, crate::proofs::LinkWalks::read_link))]
    pub fn validity_and_asn(&self) -> ValidityAndAsn
        ensures validity { IsValidity self.now.route self.now.asn self.now.vrps result.validity }
        ensures asn { IsTrue result.has_covering_asn
            ↔ HasCoveringAsn self.now.route self.now.asn self.now.vrps }
    {
        if self.covers {
            return validity_by(self.vrps, self.links, self.from, self.link, &self.route);
        }
        let at = self.count_to_nearest();
        if at == 0 {
            return ValidityAndAsn {
                validity: Validity::NotFound,
                has_covering_asn: false,
            };
        }
        validity_by(self.vrps, self.links, at, self.links[at - 1], &self.route)
    }

    /// Returns the validity of the route by the VRPs of the table (RFC 6811, 2).
    pub fn validity(&self) -> Validity
        ensures { IsValidity self.now.route self.now.asn self.now.vrps result }
    {
        self.validity_and_asn().validity
    }

    /// Returns whether a VRP of the table that covers the route has its AS, and that AS is not AS0.
    pub fn has_covering_asn(&self) -> bool
        ensures { IsTrue result ↔ HasCoveringAsn self.now.route self.now.asn self.now.vrps }
    {
        self.validity_and_asn().has_covering_asn
    }

    /// Returns an iterator over the VRPs of the table that cover the route (RFC 6811, 2).
    ///
    /// The order is that of [`OriginTable::covering`](crate::OriginTable::covering). The call allocates nothing.
    pub fn covering(&self) -> Covering<'a>
        ensures covering { AreThose (CoversRoute self.now.route) self.now.vrps (reverse result) }
        ensures longest_first { IsNonDecreasingBy prefix_len (reverse result) }
        ensures order { IsNonDecreasingBy table_place (reverse result) }
    {
        Covering {
            vrps: self.vrps,
            links: self.links,
            at: self.count_to_nearest(),
            route: self.route,
        }
    }
}

/// Prints the route, and not the table's VRPs.
impl fmt::Debug for Lookup<'_> {
    fn fmt<W: fmt::Write>(&self, f: &mut fmt::Formatter<W>) -> fmt::Result {
        f.debug_struct("Lookup")
            .field("route", &self.route.prefix())
            .field("asn", &self.route.asn)
            .finish_non_exhaustive()
    }
}
