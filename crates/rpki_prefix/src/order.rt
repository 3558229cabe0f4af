//! The order of prefixes: IPv4 before IPv6, then by the highest address, then the longer prefix first.
//!
//! In this order, no prefix is before a prefix that it covers.
ghost use Rattle.std.specs.Prelude.{◌≡◌, ◌↔◌, IsTrue, false, refl};
ghost use Rattle.std.proofs.Common.{rules};
ghost use Rattle.std.specs.Cmp.{partial_order_from_own_ties};
ghost use Rattle.std.specs.Cmp.Rules.{comparing};
ghost use Rattle.std.specs.Ordering.{as_partial_cmp, is_lt};
ghost use Rattle.rpki_prefix.specs.Order.{prefix_cmp};
ghost use Rattle.rpki_prefix.specs.OrderLaws.{prefix_ties};
ghost use Rattle.rpki_prefix.specs.Values.{CoversPrefix, address_number};

use crate::prefix::Prefix;
use rpki_addr::addr::IpAddr;
use std::cmp::Ordering;

impl Prefix {
    /// Returns whether both prefixes are of one family, and each address of `other` is an address of `self`.
    ///
    /// In the order of prefixes, no prefix is before a prefix that it covers.
    #[tactic(auto, using(crate::proofs::PrefixCovering::covering))]
    pub fn covers(self, other: Prefix) -> bool
        ensures value { IsTrue result ↔ CoversPrefix self other }
        ensures order { IsTrue result → is_lt (prefix_cmp self other) ≡ false }
    {
        self.is_v6() == other.is_v6()
            && number(&self.min_addr()) <= number(&other.min_addr())
            && number(&other.max_addr()) <= number(&self.max_addr())
    }
}

/// Returns the bits of an address as a number.
fn number(addr: &IpAddr) -> u128
    ensures { result ≡ address_number addr.now }
{
    match addr {
        IpAddr::V4(addr) => u128::from(addr.to_bits()),
        IpAddr::V6(addr) => addr.to_bits(),
    }
}

/// Orders IPv4 before IPv6, then by the highest address, then the longer prefix first.
impl Ord for Prefix {
    ghost cmp = { prefix_cmp };

    ghost total = { Prim.search (comparing, rules) depth 9 };

    ghost matches_partial_cmp = { Prim.search (comparing, rules) };

    ghost matches_eq = { prefix_ties ⟦<IpAddr as PartialEq>⟧.eq
        (record {
          of_v4 = λ m n. refl;
          of_v6 = λ m n. refl;
          v4_v6 = λ m n. refl;
          v6_v4 = λ m n. refl;
        }) };

    fn cmp(&self, other: &Prefix) -> Ordering {
        let by_address = self.max_addr().cmp(&other.max_addr());
        by_address.then(other.len().cmp(&self.len()))
    }
}

impl PartialOrd for Prefix {
    ghost partial_cmp = { as_partial_cmp prefix_cmp };

    ghost laws = { partial_order_from_own_ties (Prim.search (comparing, rules) depth 9)
        (prefix_ties ⟦<IpAddr as PartialEq>⟧.eq
        (record {
          of_v4 = λ m n. refl;
          of_v6 = λ m n. refl;
          v4_v6 = λ m n. refl;
          v6_v4 = λ m n. refl;
        })) };

    fn partial_cmp(&self, other: &Prefix) -> Option<Ordering> {
        Some(self.cmp(other))
    }
}
