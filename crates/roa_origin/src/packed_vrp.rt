//! VRPs as a table stores them: in 32 octets each.
ghost use Rattle.std.specs.Prelude.{◌+◌, ◌-◌, ◌^◌, ◌<◌, ◌≡◌, ◌↔◌, ◌≤◌, IsTrue, nat_le, nat_lt};
ghost use Rattle.std.specs.Ordering.{nat_cmp};
ghost use Rattle.rpki_prefix.specs.Values.{IsFamilyPrefix, is_v6, width};
ghost use Rattle.roa_origin.specs.Vrps.{CoversRoute, HasAs, IsCoveringLimit, IsLawfulVrp, Matches, longest, prefix_len};
ghost use Rattle.roa_origin.specs.Places.{place, vrp_place, rank, sent_place, sent_rank, table_place, max_len_flag};

use crate::route_key::RouteKey;
use crate::vrp::Vrp;
use rpki_base::Asn;
use rpki_prefix::MaxLenPrefix;
use std::cmp::Ordering;
use std::marker::Model;

/// The fields of a VRP, without the padding of their types. In contracts its value is the VRP.
#[derive(Clone, Copy)]
pub(crate) struct PackedVrp {
    bits: u128,
    asn: Asn,
    len: u8,
    max_len: Option<u8>,
    is_v6: bool,
}

impl Model for PackedVrp {
    ghost use Rattle.std.specs.Prelude.{◌^◌, ◌<◌};
    ghost use Rattle.rpki_prefix.specs.MaxLen.{IsMaxLenOf};
    ghost use Rattle.rpki_prefix.specs.Values.{IsFamilyPrefix};
    ghost use Rattle.roa_origin.specs.PackedVrps.{address_bits, is_of_v6, vrp_of};
    ghost use Rattle.roa_origin.specs.Vrps.{Vrp};

    ghost Value = { Vrp };

    ghost view = { λ e. vrp_of e.is_v6 e.bits e.len e.max_len e.asn };

    ghost invariant = { λ e. IsFamilyPrefix (vrp_of e.is_v6 e.bits e.len e.max_len e.asn).0.prefix
        × IsMaxLenOf (vrp_of e.is_v6 e.bits e.len e.max_len e.asn).0.prefix e.max_len
        × (e.asn < 2 ^ 32) };

    ghost inverse = { λ p. record {
      bits = address_bits p.0.prefix;
      asn = p.1;
      len = p.0.prefix.len;
      max_len = p.0.max_len;
      is_v6 = is_of_v6 p.0.prefix;
    } };
}

impl PackedVrp {
    /// Returns the packed form of a VRP.
    pub(crate) fn new(vrp: Vrp) -> PackedVrp
        ensures value { result ≡ vrp }
        ensures vrp { IsLawfulVrp vrp }
    {
        let (prefix, asn) = vrp;
        asn.recall_invariant();
        let key = RouteKey::new(prefix.prefix(), asn);
        PackedVrp {
            bits: key.bits,
            asn,
            len: key.len,
            max_len: prefix.max_len(),
            is_v6: key.is_v6,
        }
    }

    /// Returns the VRP.
    pub(crate) fn vrp(&self) -> Vrp
        ensures { result ≡ self.now }
    {
        match MaxLenPrefix::new(self.route_key().prefix(), self.max_len) {
            Ok(prefix) => (prefix, self.asn),
            Err(_) => unreachable!(),
        }
    }

    /// Returns the key of the route to the VRP's prefix that the VRP's AS originates.
    pub(crate) fn route_key(&self) -> RouteKey
        ensures route { result.0 ≡ self.now.0.prefix }
        ensures asn { result.1 ≡ self.now.1 }
        ensures prefix { IsFamilyPrefix self.now.0.prefix }
    {
        RouteKey {
            bits: self.bits,
            asn: self.asn,
            len: self.len,
            is_v6: self.is_v6,
        }
    }

    /// Returns the length of the longest route that the VRP allows: its maximum length, or its prefix length if it has
    /// none.
    fn longest(&self) -> u8
        ensures { result ≡ longest self.now }
    {
        self.max_len.unwrap_or(self.len)
    }

    /// Returns 1 if the VRP has a maximum length, and 0 otherwise.
    fn max_len_flag(&self) -> u64
        ensures value { result ≡ max_len_flag self.now.0.max_len }
        ensures few { result ≤ 1 }
    {
        match self.max_len {
            Some(_) => 1,
            None => 0,
        }
    }

    /// Returns the sort key of VRPs of one prefix as they are sent: descending by AS number, then ascending by longest
    /// route.
    fn sent_rank(&self) -> u64
        ensures value { result ≡ sent_rank self.now }
        ensures small { result < 2 ^ 42 }
    {
        let below_greatest = u64::from(u32::MAX - self.asn.into_u32());
        below_greatest * 512 + u64::from(self.longest()) * 2
    }

    /// Returns the sort key of VRPs of one prefix. If all else is equal, a VRP without a maximum length comes first.
    fn rank(&self) -> u64
        ensures { result ≡ rank self.now }
    {
        self.sent_rank() + self.max_len_flag()
    }

    /// Compares the ranks of two VRPs as they are sent.
    fn cmp_sent_rank(&self, other: &PackedVrp) -> Ordering
        ensures { result ≡ nat_cmp (sent_rank self.now) (sent_rank other.now) }
    {
        self.sent_rank().cmp(&other.sent_rank())
    }

    /// Compares the ranks of two VRPs.
    fn cmp_rank(&self, other: &PackedVrp) -> Ordering
        ensures { result ≡ nat_cmp (rank self.now) (rank other.now) }
    {
        self.rank().cmp(&other.rank())
    }

    /// Compares the prefixes of two VRPs in a table's order.
    #[tactic(auto, using(crate::proofs::OrderNumbers::fields_cmp))]
    fn cmp_prefix(&self, other: &PackedVrp) -> Ordering
        ensures order { result ≡ nat_cmp (vrp_place self.now) (vrp_place other.now) }
        ensures vrps { IsLawfulVrp self.now × IsLawfulVrp other.now }
    {
        let by_family = self.is_v6.cmp(&other.is_v6);
        by_family
            .then(self.bits.cmp(&other.bits))
            .then(self.len.cmp(&other.len))
    }

    /// Compares two VRPs in a table's order.
    pub(crate) fn cmp_place(&self, other: &PackedVrp) -> Ordering
        ensures { result ≡ nat_cmp (table_place self.now) (table_place other.now) }
    {
        match self.cmp_prefix(other) {
            Ordering::Equal => self.cmp_rank(other),
            by_prefix => by_prefix,
        }
    }

    /// Returns whether the VRP comes no later than `other` in a table's order.
    pub(crate) fn is_up_to(&self, other: &PackedVrp) -> bool
        ensures { result ≡ nat_le (table_place self.now) (table_place other.now) }
    {
        self.cmp_place(other).is_le()
    }

    /// Compares two VRPs as they are sent, in a table's order.
    pub(crate) fn cmp_sent(&self, other: &PackedVrp) -> Ordering
        ensures order { result ≡ nat_cmp (sent_place self.now) (sent_place other.now) }
        ensures vrps { IsLawfulVrp self.now × IsLawfulVrp other.now }
    {
        match self.cmp_prefix(other) {
            Ordering::Equal => self.cmp_sent_rank(other),
            by_prefix => by_prefix,
        }
    }

    /// Returns whether the VRP, as it is sent, comes before `other` in a table's order.
    pub(crate) fn is_sent_before(&self, other: &PackedVrp) -> bool
        ensures { result ≡ nat_lt (sent_place self.now) (sent_place other.now) }
    {
        self.cmp_sent(other).is_lt()
    }

    /// Returns whether the two VRPs are sent alike.
    pub(crate) fn is_sent_as(&self, other: &PackedVrp) -> bool
        ensures same { IsTrue result ↔ (sent_place self.now ≡ sent_place other.now) }
        ensures vrps { IsLawfulVrp self.now × IsLawfulVrp other.now }
    {
        self.cmp_sent(other).is_eq()
    }

    /// Returns whether the VRP's prefix comes no later than the route's prefix in a table's order.
    pub(crate) fn comes_by(&self, route: &RouteKey) -> bool
        ensures { IsTrue result ↔ (vrp_place self.now ≤ place route.now.0) }
    {
        if self.is_v6 != route.is_v6 {
            return route.is_v6;
        }
        self.bits < route.bits || (self.bits == route.bits && self.len <= route.len)
    }

    /// Returns whether both VRPs have the same prefix.
    pub(crate) fn has_prefix_of(&self, other: &PackedVrp) -> bool
        ensures { IsTrue result ↔ (self.now.0.prefix ≡ other.now.0.prefix) }
    {
        self.cmp_prefix(other).is_eq()
    }

    /// Returns how many of 128 bits the prefix fixes. An IPv4 address is in the last 32 bits.
    fn fixed_bits(&self) -> u8
        ensures { result + (width self.now.0.prefix.addr - prefix_len self.now) ≡ 128 }
    {
        if self.is_v6 { self.len } else { self.len + 96 }
    }

    /// Returns the number of addresses of the prefix, minus one.
    fn addresses_after(&self) -> u128
        ensures { result + 1 ≡ 2 ^ (width self.now.0.prefix.addr - prefix_len self.now) }
    {
        let fixed = self.fixed_bits();
        if fixed == 128 { 0 } else { u128::MAX >> fixed }
    }

    /// Returns whether the VRP and the route are of the same address family.
    fn has_family_of(&self, route: &RouteKey) -> bool
        ensures { IsTrue result ↔ (is_v6 self.now.0.prefix.addr ≡ is_v6 route.now.0.addr) }
    {
        self.is_v6 == route.is_v6
    }

    /// Returns whether the VRP covers the route (RFC 6811, 2).
    #[tactic(auto, using(crate::proofs::NestedRoutes::starts_by, crate::proofs::OrderNumbers::covers_len))]
    pub(crate) fn covers(&self, route: &RouteKey) -> bool
        ensures { IsTrue result ↔ CoversRoute route.now.0 self.now }
    {
        if !self.has_family_of(route) {
            return false;
        }
        if route.len < self.len {
            return false;
        }
        if route.bits < self.bits {
            return false;
        }
        route.bits - self.bits <= self.addresses_after()
    }

    /// Returns how many first bits the addresses of the VRP and of the route have in common, at most the route's
    /// length. Both are of one address family.
    fn shared_len(&self, route: &RouteKey) -> u8
        requires { is_v6 self.now.0.prefix.addr ≡ is_v6 route.now.0.addr }
        ensures few { result ≤ 128 }
        ensures limit { IsCoveringLimit self.now.0.prefix route.now.0 (result + 1) }
    {
        let shared = (self.bits ^ route.bits).leading_zeros() as u8;
        if self.is_v6 {
            shared.min(route.len)
        } else {
            (shared - 96).min(route.len)
        }
    }

    /// Returns the length from which on a prefix that covers the VRP's prefix doesn't cover the route. Shorter ones do.
    ///
    /// One call replaces the comparison of each such prefix with the route.
    pub(crate) fn covering_limit(&self, route: &RouteKey) -> u8
        ensures { IsCoveringLimit self.now.0.prefix route.now.0 result }
    {
        if !self.has_family_of(route) {
            return 0;
        }
        self.shared_len(route) + 1
    }

    /// Returns whether the VRP's prefix is shorter than `limit`.
    pub(crate) fn is_shorter_than(&self, limit: u8) -> bool
        ensures { IsTrue result ↔ (prefix_len self.now < limit) }
    {
        self.len < limit
    }

    /// Returns whether the VRP's AS number is not below the route's.
    pub(crate) fn has_asn_from(&self, route: &RouteKey) -> bool
        ensures { result ≡ nat_le route.now.1 self.now.1 }
    {
        route.asn.into_u32() <= self.asn.into_u32()
    }

    /// Returns whether the VRP's AS is the route's, and is not AS0.
    pub(crate) fn has_as_of(&self, route: &RouteKey) -> bool
        ensures { IsTrue result ↔ HasAs route.now.1 self.now }
    {
        route.asn != Asn::MIN && self.asn == route.asn
    }

    /// Returns whether the VRP matches a route that it covers (RFC 6811, 2; RFC 9582, 4.3.2).
    pub(crate) fn allows(&self, route: &RouteKey) -> bool
        requires { CoversRoute route.now.0 self.now }
        ensures { IsTrue result ↔ Matches route.now.0 route.now.1 self.now }
    {
        self.has_as_of(route) && route.len <= self.longest()
    }
}
