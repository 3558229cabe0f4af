//! The two address families.
ghost use Rattle.std.specs.Prelude.{◌≡◌};
ghost use Rattle.rpki_der.specs.Families.{bits_of};

mod der;
mod error;

pub use error::DecodeFamilyError;

/// An address family (RFC 3779, 2.2.3.3).
#[derive(Clone, Copy, Debug, PartialEq, Eq, Hash)]
pub enum AddressFamily {
    /// IPv4, with addresses of 32 bits.
    Ipv4,
    /// IPv6, with addresses of 128 bits.
    Ipv6,
}

impl AddressFamily {
    /// Returns the number of bits of an address of the family, which is the longest prefix length: 32 or 128.
    pub fn max_addr_len(self) -> u8
        ensures { result ≡ bits_of self }
    {
        match self {
            AddressFamily::Ipv4 => 32,
            AddressFamily::Ipv6 => 128,
        }
    }
}

/// A type that stands for an address family: [`Ipv4Family`] or [`Ipv6Family`].
pub trait Family {
    ghost use Rattle.rpki_der.specs.declared.family.AddressFamily.{AddressFamily};

    ghost FAMILY: { AddressFamily };

    /// The family.
    const FAMILY: AddressFamily;
}

/// IPv4, as the type parameter of blocks, sets and errors.
pub enum Ipv4Family {}

impl Family for Ipv4Family {
    ghost use Rattle.rpki_der.specs.declared.family.AddressFamily.TheVariants.{Ipv4};

    ghost FAMILY = { Ipv4 };

    const FAMILY: AddressFamily = AddressFamily::Ipv4;
}

/// IPv6, as the type parameter of blocks, sets and errors.
pub enum Ipv6Family {}

impl Family for Ipv6Family {
    ghost use Rattle.rpki_der.specs.declared.family.AddressFamily.TheVariants.{Ipv6};

    ghost FAMILY = { Ipv6 };

    const FAMILY: AddressFamily = AddressFamily::Ipv6;
}
