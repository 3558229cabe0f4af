//! Addresses of either family, as numbers of 128 bits.
ghost use Rattle.std.specs.Prelude.{◌≡◌, ◌<◌, ◌+◌, ◌-◌, ◌*◌, ◌/◌, ◌^◌};
ghost use Rattle.std.specs.Fmt.{WritesOnOk};
ghost use Rattle.std.specs.Int.{to_be_bytes, w128};
ghost use Rattle.rpki_addr.specs.PrintedAddress.{ipv4_text, ipv6_text};
ghost use Rattle.rpki_ip.specs.AddrText.{first_of, ReadsIpv4Addr, ReadsIpv6Addr, ReadsAddr};
ghost use Rattle.rpki_cover.specs.Bits.{cleared};

use rpki_addr::addr::{AddrParseError, IpAddr, Ipv4Addr, Ipv6Addr};
use std::fmt;
use std::marker::Model;
use std::str::FromStr;

/// An address of either family, as a number of 128 bits.
///
/// An IPv6 address is its number. An IPv4 address is its 32 bits followed by 96 other bits. These bits are zeros in the
/// least address of a prefix or range, and ones in the greatest. The type doesn't record the family.
#[derive(Clone, Copy, Debug, PartialEq, Eq, PartialOrd, Ord, Hash)]
pub struct Addr(u128);

impl Model for Addr {
    ghost use Rattle.std.specs.Prelude.{ℕ, ◌<◌, ◌^◌};

    ghost Value = { ℕ };

    ghost view = { λ addr. addr.0 };

    ghost invariant = { λ addr. addr.0 < 2 ^ 128 };

    ghost inverse = { λ n. record { 0 = n } };
}

impl Addr {
    /// Returns the address with the number `bits`.
    pub fn from_bits(bits: u128) -> Addr
        ensures { result ≡ bits }
    {
        Addr(bits)
    }

    /// Returns the least address of an IPv4 address: its 32 bits, followed by zeros.
    pub fn from_v4(addr: Ipv4Addr) -> Addr
        ensures { result ≡ addr * 2 ^ 96 }
    {
        Addr(u128::from(addr.to_bits()) << 96)
    }

    /// Returns an IPv6 address as a number.
    pub fn from_v6(addr: Ipv6Addr) -> Addr
        ensures { result ≡ addr }
    {
        Addr(addr.to_bits())
    }

    /// Parses an IPv4 address and returns its least address.
    ///
    /// # Errors
    ///
    /// [`AddrParseError::Ipv4`] if the text isn't an IPv4 address.
    pub fn from_v4_str(text: &str) -> Result<Addr, AddrParseError>
        ensures { ReadsIpv4Addr text.now result }
    {
        Ok(Addr::from_v4(Ipv4Addr::from_str(text)?))
    }

    /// Parses an IPv6 address.
    ///
    /// # Errors
    ///
    /// [`AddrParseError::Ipv6`] if the text isn't an IPv6 address.
    pub fn from_v6_str(text: &str) -> Result<Addr, AddrParseError>
        ensures { ReadsIpv6Addr text.now result }
    {
        Ok(Addr::from_v6(Ipv6Addr::from_str(text)?))
    }

    /// States an invariant for the proofs of callers: the number of the address has 128 bits.
    ///
    /// The call checks nothing when it runs, and returns nothing.
    #[doc(hidden)]
    pub fn recall_invariant(self)
        ensures { self < 2 ^ 128 }
    {
        let _number = self.0;
    }

    /// Returns the number of the address.
    pub fn to_bits(self) -> u128
        ensures { result ≡ self }
    {
        self.0
    }

    /// Returns the first 32 bits as an IPv4 address.
    pub fn to_v4(self) -> Ipv4Addr
        ensures { result ≡ self / 2 ^ 96 }
    {
        Ipv4Addr::from_bits((self.0 >> 96) as u32)
    }

    /// Returns the bits as an IPv6 address.
    pub fn to_v6(self) -> Ipv6Addr
        ensures { result ≡ self }
    {
        Ipv6Addr::from_bits(self.0)
    }

    /// Returns the sixteen octets of the address, the most significant first.
    pub fn to_bytes(self) -> [u8; 16]
        ensures { result ≡ to_be_bytes w128 self }
    {
        self.0.to_be_bytes()
    }

    /// Returns the least address with the same first `len` bits: the other bits are cleared.
    ///
    /// If `len` is 128 or more, the result is the address itself.
    #[tactic(auto, using(crate::proofs::AddressMasks::least_by))]
    pub fn to_min(self, len: u8) -> Addr
        ensures { result ≡ cleared 128 self len }
    {
        if len >= 128 {
            self
        } else {
            Addr(self.0 & !(u128::MAX >> len))
        }
    }

    /// Returns the greatest address with the same first `len` bits: the other bits are set.
    ///
    /// If `len` is 128 or more, the result is the address itself.
    #[tactic(auto, using(crate::proofs::AddressMasks::greatest_by, crate::proofs::AddressMasks::greatest_fits))]
    pub fn to_max(self, len: u8) -> Addr
        ensures { result + 1 ≡ cleared 128 self len + 2 ^ (128 - len) }
    {
        if len >= 128 {
            self
        } else {
            Addr(self.0 | (u128::MAX >> len))
        }
    }

    /// Prints the first 32 bits as an IPv4 address.
    ///
    /// # Errors
    ///
    /// `fmt::Error` if the writer fails. It may have a part of the text then.
    pub fn fmt_v4<W: fmt::Write>(self, f: &mut fmt::Formatter<W>) -> fmt::Result
        ensures { WritesOnOk W.write_str_gives f.old result (ipv4_text (self / 2 ^ 96)) f.new }
    {
        let addr = self.to_v4();
        write!(f, "{addr}")
    }

    /// Prints the address as an IPv6 address.
    ///
    /// # Errors
    ///
    /// `fmt::Error` if the writer fails. It may have a part of the text then.
    pub fn fmt_v6<W: fmt::Write>(self, f: &mut fmt::Formatter<W>) -> fmt::Result
        ensures { WritesOnOk W.write_str_gives f.old result (ipv6_text self) f.new }
    {
        let addr = self.to_v6();
        write!(f, "{addr}")
    }
}

impl From<u128> for Addr {
    ghost from_gives = { λ bits addr. addr ≡ bits };

    fn from(bits: u128) -> Addr {
        Addr(bits)
    }
}

impl From<Addr> for u128 {
    ghost from_gives = { λ addr bits. bits ≡ addr };

    fn from(addr: Addr) -> u128 {
        addr.0
    }
}

impl From<Ipv4Addr> for Addr {
    ghost from_gives = { λ ipv4 addr. addr ≡ ipv4 * 2 ^ 96 };

    fn from(addr: Ipv4Addr) -> Addr {
        Addr::from_v4(addr)
    }
}

impl From<Ipv6Addr> for Addr {
    ghost from_gives = { λ ipv6 addr. addr ≡ ipv6 };

    fn from(addr: Ipv6Addr) -> Addr {
        Addr::from_v6(addr)
    }
}

/// Returns the least address of an address of either family.
impl From<IpAddr> for Addr {
    ghost from_gives = { λ ip addr. addr ≡ first_of ip };

    fn from(addr: IpAddr) -> Addr {
        match &addr {
            IpAddr::V4(addr) => Addr::from_v4(*addr),
            IpAddr::V6(addr) => Addr::from_v6(*addr),
        }
    }
}

impl From<Addr> for Ipv4Addr {
    ghost from_gives = { λ addr ipv4. ipv4 ≡ addr / 2 ^ 96 };

    fn from(addr: Addr) -> Ipv4Addr {
        addr.to_v4()
    }
}

impl From<Addr> for Ipv6Addr {
    ghost from_gives = { λ addr ipv6. ipv6 ≡ addr };

    fn from(addr: Addr) -> Ipv6Addr {
        addr.to_v6()
    }
}

/// Parses an address of either family and returns its least address.
///
/// The error for any other text is [`AddrParseError::Ip`].
impl FromStr for Addr {
    type Err = AddrParseError;

    ghost from_str_gives = { ReadsAddr };

    fn from_str(text: &str) -> Result<Addr, AddrParseError> {
        Ok(Addr::from(IpAddr::from_str(text)?))
    }
}
