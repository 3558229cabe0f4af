//! Lemmas for callers about several calls. Each is the contract of a function that does nothing when it runs.
ghost use Rattle.std.specs.Prelude.{◌≡◌, ◌↔◌, ℕ, ◌<◌, ◌^◌, List, IsTrue};
ghost use Rattle.std.specs.Ordering.{nat_cmp};
ghost use Rattle.rpki_addr.specs.Orders.{ip_cmp};
ghost use Rattle.rpki_addr.specs.PrintedAddress.{IsPrintedIpv6, ipv6_text};
ghost use Rattle.rpki_addr.specs.declared.addr.IpAddr.{IpAddr as EitherAddr};

use crate::addr::{IpAddr, Ipv4Addr, Ipv6Addr};

/// The printed text of an IPv6 address is the one that RFC 5952, section 4, requires. For an IPv4-mapped address it is
/// the one of section 5.
pub fn ipv6_is_printed_so()
    ensures { (n : ℕ) → n < 2 ^ 128 → (text : List ℕ)
        → (IsPrintedIpv6 n text) ↔ (text ≡ ipv6_text n) }
{}

/// Addresses compare equal if and only if they are the same: the same number, and for [`IpAddr`] also the same
/// family.
pub fn equal_where_the_same()
    ensures ipv4 { (a b : ℕ) → IsTrue (⟦<Ipv4Addr as PartialEq>⟧.eq a b) ↔ (a ≡ b) }
    ensures ipv6 { (a b : ℕ) → IsTrue (⟦<Ipv6Addr as PartialEq>⟧.eq a b) ↔ (a ≡ b) }
    ensures either { (a b : EitherAddr) → IsTrue (⟦<IpAddr as PartialEq>⟧.eq a b) ↔ (a ≡ b) }
{}

/// Addresses sort as their numbers, and IPv4 addresses are before IPv6 addresses.
pub fn orders_are_of_numbers()
    ensures ipv4 { (a b : ℕ) → ⟦<Ipv4Addr as Ord>⟧.cmp a b ≡ nat_cmp a b }
    ensures ipv6 { (a b : ℕ) → ⟦<Ipv6Addr as Ord>⟧.cmp a b ≡ nat_cmp a b }
    ensures either { (a b : EitherAddr) → ⟦<IpAddr as Ord>⟧.cmp a b ≡ ip_cmp a b }
{}
