//! IP addresses: IPv4, IPv6, and either.
ghost use Rattle.std.specs.Prelude.{◌≡◌, ◌↔◌, IsTrue, Some};
ghost use Rattle.rpki_text.specs.Digits.{octets_of, groups_of};
ghost use Rattle.rpki_addr.specs.FromStrResults.{address_fault_text};
ghost use Rattle.rpki_addr.specs.declared.addr.IpAddr.TheVariants.{V4 as the_v4, V6 as the_v6};

pub mod front;
mod groups;
pub mod print;
mod read;
mod text;
mod usual;

use groups::split_groups;
use std::error::Error;
use std::fmt;
use std::marker::Model;

/// An IPv4 address: 32 bits (RFC 791).
///
/// Addresses compare and sort as their numbers.
#[derive(Clone, Copy, Debug, PartialEq, Eq, PartialOrd, Ord, Hash)]
pub struct Ipv4Addr(u32);

impl Model for Ipv4Addr {
    ghost use Rattle.std.specs.Prelude.{ℕ, ◌<◌, ◌^◌};

    ghost Value = { ℕ };

    ghost view = { λ address. address.0 };

    ghost invariant = { λ address. address.0 < 2 ^ 32 };

    ghost inverse = { λ n. record { 0 = n } };
}

impl Ipv4Addr {
    /// Returns the address with these bits.
    pub fn from_bits(bits: u32) -> Ipv4Addr
        ensures { result ≡ bits }
    {
        Ipv4Addr(bits)
    }

    /// Returns the bits of the address.
    pub fn to_bits(self) -> u32
        ensures { result ≡ self }
    {
        self.0
    }

    /// Returns the four octets, the highest first.
    pub fn octets(self) -> [u8; 4]
        ensures { result ≡ octets_of self }
    {
        self.0.to_be_bytes()
    }
}

impl From<u32> for Ipv4Addr {
    ghost from_gives = { λ bits address. address ≡ bits };

    fn from(bits: u32) -> Ipv4Addr {
        Ipv4Addr(bits)
    }
}

impl From<Ipv4Addr> for u32 {
    ghost from_gives = { λ address bits. bits ≡ address };

    fn from(address: Ipv4Addr) -> u32 {
        address.0
    }
}

/// An IPv6 address: 128 bits (RFC 4291).
///
/// Addresses compare and sort as their numbers.
#[derive(Clone, Copy, Debug, PartialEq, Eq, PartialOrd, Ord, Hash)]
pub struct Ipv6Addr(u128);

impl Model for Ipv6Addr {
    ghost use Rattle.std.specs.Prelude.{ℕ, ◌<◌, ◌^◌};

    ghost Value = { ℕ };

    ghost view = { λ address. address.0 };

    ghost invariant = { λ address. address.0 < 2 ^ 128 };

    ghost inverse = { λ n. record { 0 = n } };
}

impl Ipv6Addr {
    /// Returns the address with these bits.
    pub fn from_bits(bits: u128) -> Ipv6Addr
        ensures { result ≡ bits }
    {
        Ipv6Addr(bits)
    }

    /// Returns the bits of the address.
    pub fn to_bits(self) -> u128
        ensures { result ≡ self }
    {
        self.0
    }

    /// Returns the eight groups of 16 bits, the highest first.
    pub fn segments(self) -> [u16; 8]
        ensures { result ≡ groups_of self }
    {
        split_groups(self.0)
    }
}

impl From<u128> for Ipv6Addr {
    ghost from_gives = { λ bits address. address ≡ bits };

    fn from(bits: u128) -> Ipv6Addr {
        Ipv6Addr(bits)
    }
}

impl From<Ipv6Addr> for u128 {
    ghost from_gives = { λ address bits. bits ≡ address };

    fn from(address: Ipv6Addr) -> u128 {
        address.0
    }
}

/// An address of either family.
///
/// Every IPv4 address is before every IPv6 address. Within a family, addresses sort as their numbers.
#[derive(Clone, Copy, Debug, PartialEq, Eq, PartialOrd, Ord, Hash)]
pub enum IpAddr {
    /// An IPv4 address.
    V4(Ipv4Addr),
    /// An IPv6 address.
    V6(Ipv6Addr),
}

impl IpAddr {
    ghost use Rattle.rpki_addr.specs.Widths.{width};
    ghost use Rattle.rpki_addr.specs.FromStrResults.{IsV4};

    /// Returns whether this is an IPv4 address.
    pub fn is_ipv4(&self) -> bool
        ensures { IsTrue result ↔ IsV4 self.now }
    {
        matches!(self, IpAddr::V4(_))
    }

    /// Returns the number of bits of the address, which is the longest prefix length of its family: 32 or 128.
    pub fn width(&self) -> u8
        ensures { result ≡ width self.now }
    {
        match self {
            IpAddr::V4(_) => 32,
            IpAddr::V6(_) => 128,
        }
    }
}

impl From<Ipv4Addr> for IpAddr {
    ghost from_gives = { λ address ip. ip ≡ the_v4 address };

    fn from(address: Ipv4Addr) -> IpAddr {
        IpAddr::V4(address)
    }
}

impl From<Ipv6Addr> for IpAddr {
    ghost from_gives = { λ address ip. ip ≡ the_v6 address };

    fn from(address: Ipv6Addr) -> IpAddr {
        IpAddr::V6(address)
    }
}

/// The error for a text that is not an address of the expected kind.
#[derive(Clone, Copy, Debug, PartialEq, Eq)]
pub enum AddrParseError {
    /// The text is not an IPv4 address.
    Ipv4,
    /// The text is not an IPv6 address.
    Ipv6,
    /// The text is not an address of either family.
    Ip,
}

impl fmt::Display for AddrParseError {
    ghost output = { λ fault. Some (address_fault_text fault) };

    fn fmt<W: fmt::Write>(&self, f: &mut fmt::Formatter<W>) -> fmt::Result {
        f.write_str(match self {
            AddrParseError::Ipv4 => "invalid IPv4 address syntax",
            AddrParseError::Ipv6 => "invalid IPv6 address syntax",
            AddrParseError::Ip => "invalid IP address syntax",
        })
    }
}

impl Error for AddrParseError {}
