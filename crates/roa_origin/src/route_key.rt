//! Routes as a table looks them up.
ghost use Rattle.std.specs.Prelude.{◌*◌, ◌^◌, ◌<◌, ◌≡◌, ◌≤◌};
ghost use Rattle.rpki_prefix.specs.Values.{IsFamilyPrefix};
ghost use Rattle.roa_origin.specs.Starts.{first_bits};

use rpki_base::Asn;
use rpki_base::addr::{IpAddr, Ipv4Addr, Ipv6Addr};
use rpki_prefix::Prefix;
use std::marker::Model;

/// The fields of a route, without the padding of their types. A lookup makes them once.
///
/// In contracts its value is the pair of the route's prefix and its AS number.
#[derive(Clone, Copy)]
pub(crate) struct RouteKey {
    pub(crate) bits: u128,
    pub(crate) asn: Asn,
    pub(crate) len: u8,
    pub(crate) is_v6: bool,
}

impl Model for RouteKey {
    ghost use Rattle.std.specs.Prelude.{ℕ, ◌^◌, ◌<◌};
    ghost use Rattle.rpki_prefix.specs.Values.{FamilyPrefix, IsFamilyPrefix};
    ghost use Rattle.roa_origin.specs.PackedVrps.{address_bits, is_of_v6, route_of};

    ghost Value = { FamilyPrefix × ℕ };

    ghost view = { λ e. route_of e.is_v6 e.bits e.len e.asn };

    ghost invariant = { λ e. IsFamilyPrefix (route_of e.is_v6 e.bits e.len e.asn).0 × (e.asn < 2 ^ 32) };

    ghost inverse = { λ r. record {
      bits = address_bits r.0;
      asn = r.1;
      len = r.0.len;
      is_v6 = is_of_v6 r.0;
    } };
}

impl RouteKey {
    /// Returns the key of the route to `route` that `asn` originates.
    pub(crate) fn new(route: Prefix, asn: Asn) -> RouteKey
        ensures route { result.0 ≡ route }
        ensures asn { result.1 ≡ asn }
        ensures prefix { IsFamilyPrefix route }
    {
        asn.recall_invariant();
        let len = route.len();
        match route.addr() {
            IpAddr::V4(addr) => RouteKey {
                bits: u128::from(addr.to_bits()),
                asn,
                len,
                is_v6: false,
            },
            IpAddr::V6(addr) => RouteKey {
                bits: addr.to_bits(),
                asn,
                len,
                is_v6: true,
            },
        }
    }

    /// Returns the route's prefix.
    pub(crate) fn prefix(&self) -> Prefix
        ensures { result ≡ self.now.0 }
    {
        let addr = if self.is_v6 {
            IpAddr::V6(Ipv6Addr::from_bits(self.bits))
        } else {
            IpAddr::V4(Ipv4Addr::from_bits(self.bits as u32))
        };
        match Prefix::new(addr, self.len) {
            Ok(prefix) => prefix,
            Err(_) => unreachable!(),
        }
    }

    /// Returns the number that the first `count` bits of the prefix's address write, plus 2^`count` for IPv6.
    #[tactic(auto, using(crate::proofs::FirstBits::few_numbers, crate::proofs::FirstBits::first_part))]
    pub(crate) fn first_bits(&self, count: u8) -> usize
        requires some { 1 ≤ count }
        requires few { count ≤ 20 }
        ensures value { result ≡ first_bits count self.now.0 }
        ensures below { result < 2 * 2 ^ count }
    {
        if self.is_v6 {
            (1 << count) + (self.bits >> (128 - count)) as usize
        } else {
            (self.bits >> (32 - count)) as usize
        }
    }
}
