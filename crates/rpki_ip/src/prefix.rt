//! Prefixes of addresses.
ghost use Rattle.std.specs.Prelude.{◌≡◌, ◌/◌, ◌^◌, ◌≤◌};
ghost use Rattle.rpki_cover.specs.Bits.{cleared};
ghost use Rattle.rpki_cover.specs.Prefixes.{IsPrefix, last_of};

use crate::addr::Addr;
use rpki_addr::addr::{Ipv4Addr, Ipv6Addr};
use std::marker::Model;

/// The addresses that begin with the same bits (RFC 3779, 2.2.3.8).
///
/// The length is 0 to 128. The bits of the prefix's address after the length are zero.
#[derive(Clone, Copy, Debug, PartialEq, Eq, Hash)]
pub struct Prefix {
    addr: Addr,
    len: u8,
}

impl Model for Prefix {
    ghost use Rattle.rpki_cover.specs.Prefixes.{PrefixValue, IsPrefix};

    ghost Value = { PrefixValue };

    ghost view = { λ p. record { first = p.addr; len = p.len } };

    ghost invariant = { λ p. IsPrefix 128 (record { first = p.addr; len = p.len }) };

    ghost inverse = { λ p. record { addr = p.first; len = p.len } };
}

impl Prefix {
    /// Returns the prefix of the first `len` bits of `addr`. The other bits are cleared.
    ///
    /// # Preconditions
    ///
    /// `len` is at most 128.
    pub fn new(addr: Addr, len: u8) -> Prefix
        requires { len ≤ 128 }
        ensures value { result ≡ record { first = cleared 128 addr len; len = len } }
        ensures prefix { IsPrefix 128 result }
    {
        Prefix {
            addr: addr.to_min(len),
            len,
        }
    }

    /// Returns the prefix of an address and a length that already form a prefix.
    pub(crate) fn from_parts_unchecked(addr: Addr, len: u8) -> Prefix
        requires { IsPrefix 128 (record { first = addr; len = len }) }
        ensures value { result ≡ record { first = addr; len = len } }
        ensures prefix { IsPrefix 128 result }
    {
        Prefix { addr, len }
    }

    /// Returns the prefix of all addresses, with length 0.
    pub fn all() -> Prefix
        ensures { result ≡ record { first = 0; len = 0 } }
    {
        Prefix::new(Addr::from_bits(0), 0)
    }

    /// Returns the prefix's address, which is its least address.
    pub fn addr(self) -> Addr
        ensures value { result ≡ self.first }
        ensures prefix { IsPrefix 128 self }
    {
        self.addr
    }

    /// Returns the prefix length: the number of bits that the addresses have in common.
    pub fn addr_len(self) -> u8
        ensures value { result ≡ self.len }
        ensures prefix { IsPrefix 128 self }
    {
        self.len
    }

    /// Returns the first 32 bits of the prefix's address as an IPv4 address.
    pub fn to_v4(self) -> Ipv4Addr
        ensures { result ≡ self.first / 2 ^ 96 }
    {
        self.addr.to_v4()
    }

    /// Returns the prefix's address as an IPv6 address.
    pub fn to_v6(self) -> Ipv6Addr
        ensures { result ≡ self.first }
    {
        self.addr.to_v6()
    }

    /// Returns the least and the greatest address.
    pub fn range(self) -> (Addr, Addr)
        ensures min { result.0 ≡ self.first }
        ensures max { result.1 ≡ last_of 128 self }
        ensures prefix { IsPrefix 128 self }
    {
        (self.min(), self.max())
    }

    /// Returns the least address.
    pub fn min(self) -> Addr
        ensures value { result ≡ self.first }
        ensures prefix { IsPrefix 128 self }
    {
        self.addr
    }

    /// Returns the greatest address.
    pub fn max(self) -> Addr
        ensures value { result ≡ last_of 128 self }
        ensures prefix { IsPrefix 128 self }
    {
        self.addr.to_max(self.len)
    }
}
