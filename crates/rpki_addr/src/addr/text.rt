//! Parses and prints addresses.
ghost use Rattle.std.specs.Prelude.{Some};
ghost use Rattle.rpki_addr.specs.PrintedAddress.{ipv4_text, ipv6_text, ip_text};
ghost use Rattle.rpki_addr.specs.FromStrResults.{ReadsIpv4, ReadsIpv6, ReadsIp};

use super::print::{IP_ROOM, IPV4_ROOM, put_ipv4, put_ipv6, write_front};
use super::read::{ipv4_of, ipv6_of};
use super::{AddrParseError, IpAddr, Ipv4Addr, Ipv6Addr};
use std::fmt;
use std::str::FromStr;

/// Parses four decimals with dots between them, each 0 to 255 without leading zeros (RFC 4291, 2.2).
///
/// # Errors
///
/// [`AddrParseError::Ipv4`]: any other text.
impl FromStr for Ipv4Addr {
    type Err = AddrParseError;

    ghost from_str_gives = { ReadsIpv4 };

    fn from_str(text: &str) -> Result<Ipv4Addr, AddrParseError> {
        match ipv4_of(text.as_bytes()) {
            Some(bits) => Ok(Ipv4Addr(bits)),
            None => Err(AddrParseError::Ipv4),
        }
    }
}

/// Parses the forms of RFC 4291, 2.2: eight groups of one to four hexadecimal digits, or fewer with one `::`.
///
/// The `::` stands for at least one zero group. The last two groups may be an IPv4 address.
///
/// # Errors
///
/// [`AddrParseError::Ipv6`]: any other text.
impl FromStr for Ipv6Addr {
    type Err = AddrParseError;

    ghost from_str_gives = { ReadsIpv6 };

    fn from_str(text: &str) -> Result<Ipv6Addr, AddrParseError> {
        match ipv6_of(text.as_bytes()) {
            Some(bits) => Ok(Ipv6Addr(bits)),
            None => Err(AddrParseError::Ipv6),
        }
    }
}

/// Parses an IPv4 address or an IPv6 address.
///
/// # Errors
///
/// [`AddrParseError::Ip`]: any other text.
impl FromStr for IpAddr {
    type Err = AddrParseError;

    ghost from_str_gives = { ReadsIp };

    fn from_str(text: &str) -> Result<IpAddr, AddrParseError> {
        if let Ok(address) = Ipv4Addr::from_str(text) {
            return Ok(IpAddr::V4(address));
        }
        match Ipv6Addr::from_str(text) {
            Ok(address) => Ok(IpAddr::V6(address)),
            Err(_) => Err(AddrParseError::Ip),
        }
    }
}

/// Prints four decimals with dots between them.
impl fmt::Display for Ipv4Addr {
    ghost output = { λ address. Some (ipv4_text address) };

    fn fmt<W: fmt::Write>(&self, f: &mut fmt::Formatter<W>) -> fmt::Result {
        let mut out = [0; IPV4_ROOM];
        let end = put_ipv4(&mut out, 0, self.octets());
        write_front(&out, end, f)
    }
}

/// Prints the form of RFC 5952, 4: lower-case groups, with the first longest run of two or more zero groups as `::`.
///
/// An IPv4-mapped address is printed in the form of RFC 5952, 5: `::ffff:` and its IPv4 address.
impl fmt::Display for Ipv6Addr {
    ghost output = { λ address. Some (ipv6_text address) };

    fn fmt<W: fmt::Write>(&self, f: &mut fmt::Formatter<W>) -> fmt::Result {
        let mut out = [0; IP_ROOM];
        let end = put_ipv6(&mut out, 0, self.0);
        write_front(&out, end, f)
    }
}

/// Prints the address in the form of its family.
impl fmt::Display for IpAddr {
    ghost output = { λ address. Some (ip_text address) };

    fn fmt<W: fmt::Write>(&self, f: &mut fmt::Formatter<W>) -> fmt::Result {
        match self {
            IpAddr::V4(address) => write!(f, "{address}"),
            IpAddr::V6(address) => write!(f, "{address}"),
        }
    }
}
