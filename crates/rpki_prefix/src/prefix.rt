//! Prefixes of addresses of one family.
ghost use Rattle.std.specs.Prelude.{◌≡◌, ◌+◌, ◌^◌, ◌<◌, ◌≤◌, MatchResult, not};
ghost use Rattle.rpki_addr.specs.declared.addr.IpAddr.TheVariants.{V4, V6};
ghost use Rattle.rpki_prefix.specs.Values.{IsPrefixOf, IsRelaxedPrefixOf, HasPrefixError, HasRelaxedPrefixError, IsFamilyPrefix, address_number, width, is_v6, cleared_addr, filled_addr, last_addr};

use crate::error::PrefixError;
use rpki_addr::addr::{IpAddr, Ipv4Addr, Ipv6Addr};
use std::marker::Model;

/// The addresses of one family that begin with the same bits (RFC 4632, 3.1; RFC 4291, 2.3).
///
/// The length is 0 to 32 for IPv4 and 0 to 128 for IPv6. The bits after it, the host bits, are zero in the address of
/// the prefix.
#[derive(Clone, Copy, Debug, PartialEq, Eq, Hash)]
pub struct Prefix {
    addr: IpAddr,
    len: u8,
}

impl Model for Prefix {
    ghost use Rattle.rpki_prefix.specs.Values.{FamilyPrefix, IsFamilyPrefix};

    ghost Value = { FamilyPrefix };

    ghost view = { λ p. record { addr = p.addr; len = p.len } };

    ghost invariant = { λ p. IsFamilyPrefix (record { addr = p.addr; len = p.len }) };

    ghost inverse = { λ p. record { addr = p.addr; len = p.len } };
}

/// Returns the number whose last `count` bits are ones, and all others zeros.
fn host_mask(count: u8) -> u128
    requires { count ≤ 128 }
    ensures { result + 1 ≡ 2 ^ count }
{
    if count == 0 {
        0
    } else {
        u128::MAX >> (128 - count)
    }
}

/// Returns the address with the bits after the first `len` cleared.
fn clear_host(addr: &IpAddr, len: u8) -> IpAddr
    requires { len ≤ width addr.now }
    ensures value { result ≡ cleared_addr addr.now len }
    ensures below { address_number addr.now < 2 ^ width addr.now }
{
    let mask = host_mask(addr.width() - len);
    match addr {
        IpAddr::V4(addr) => IpAddr::V4(Ipv4Addr::from_bits(addr.to_bits() & !(mask as u32))),
        IpAddr::V6(addr) => IpAddr::V6(Ipv6Addr::from_bits(addr.to_bits() & !mask)),
    }
}

/// Returns the address with the bits after the first `len` set.
#[tactic(auto, using(crate::proofs::HostBits::filled_by))]
fn set_host(addr: &IpAddr, len: u8) -> IpAddr
    requires { len ≤ width addr.now }
    ensures { result ≡ filled_addr addr.now len }
{
    let mask = host_mask(addr.width() - len);
    match addr {
        IpAddr::V4(addr) => IpAddr::V4(Ipv4Addr::from_bits(addr.to_bits() | mask as u32)),
        IpAddr::V6(addr) => IpAddr::V6(Ipv6Addr::from_bits(addr.to_bits() | mask)),
    }
}

impl Prefix {
    /// Returns the prefix with this address and length.
    ///
    /// # Errors
    ///
    /// - [`PrefixError::LenOverflow`]: the length is above 32 for IPv4 or above 128 for IPv6. This is checked first.
    /// - [`PrefixError::NonZeroHost`]: a host bit of the address is set.
    pub fn new(addr: IpAddr, len: u8) -> Result<Prefix, PrefixError>
        ensures { MatchResult result (IsPrefixOf addr len) (HasPrefixError addr len) }
    {
        let prefix = Prefix::new_relaxed(addr, len)?;
        if prefix.addr != addr {
            return Err(PrefixError::NonZeroHost);
        }
        Ok(prefix)
    }

    /// Returns the IPv4 prefix with this address and length.
    ///
    /// # Errors
    ///
    /// The errors of [`Prefix::new`].
    pub fn new_v4(addr: Ipv4Addr, len: u8) -> Result<Prefix, PrefixError>
        ensures { MatchResult result (IsPrefixOf (V4 addr) len) (HasPrefixError (V4 addr) len) }
    {
        Prefix::new(IpAddr::V4(addr), len)
    }

    /// Returns the IPv6 prefix with this address and length.
    ///
    /// # Errors
    ///
    /// The errors of [`Prefix::new`].
    pub fn new_v6(addr: Ipv6Addr, len: u8) -> Result<Prefix, PrefixError>
        ensures { MatchResult result (IsPrefixOf (V6 addr) len) (HasPrefixError (V6 addr) len) }
    {
        Prefix::new(IpAddr::V6(addr), len)
    }

    /// Returns the prefix of the first `len` bits of an address. Host bits that are set are cleared.
    ///
    /// # Errors
    ///
    /// [`PrefixError::LenOverflow`]: the length is above 32 for IPv4 or above 128 for IPv6. There is no other error.
    #[tactic(auto, using(crate::proofs::HostBits::relaxed_prefix))]
    pub fn new_relaxed(addr: IpAddr, len: u8) -> Result<Prefix, PrefixError>
        ensures { MatchResult result (IsRelaxedPrefixOf addr len) (HasRelaxedPrefixError addr len) }
    {
        if len > addr.width() {
            return Err(PrefixError::LenOverflow);
        }
        Ok(Prefix {
            addr: clear_host(&addr, len),
            len,
        })
    }

    /// Returns the IPv4 prefix of the first `len` bits of an address. Host bits that are set are cleared.
    ///
    /// # Errors
    ///
    /// The errors of [`Prefix::new_relaxed`].
    pub fn new_v4_relaxed(addr: Ipv4Addr, len: u8) -> Result<Prefix, PrefixError>
        ensures { MatchResult result (IsRelaxedPrefixOf (V4 addr) len)
            (HasRelaxedPrefixError (V4 addr) len) }
    {
        Prefix::new_relaxed(IpAddr::V4(addr), len)
    }

    /// Returns the IPv6 prefix of the first `len` bits of an address. Host bits that are set are cleared.
    ///
    /// # Errors
    ///
    /// The errors of [`Prefix::new_relaxed`].
    pub fn new_v6_relaxed(addr: Ipv6Addr, len: u8) -> Result<Prefix, PrefixError>
        ensures { MatchResult result (IsRelaxedPrefixOf (V6 addr) len)
            (HasRelaxedPrefixError (V6 addr) len) }
    {
        Prefix::new_relaxed(IpAddr::V6(addr), len)
    }

    /// Returns whether this is an IPv4 prefix.
    pub fn is_v4(self) -> bool
        ensures { result ≡ not (is_v6 self.addr) }
    {
        match self.addr {
            IpAddr::V4(_) => true,
            IpAddr::V6(_) => false,
        }
    }

    /// Returns whether this is an IPv6 prefix.
    pub fn is_v6(self) -> bool
        ensures { result ≡ is_v6 self.addr }
    {
        !self.is_v4()
    }

    /// Returns the address of the prefix, which is its lowest one.
    pub fn addr(self) -> IpAddr
        ensures value { result ≡ self.addr }
        ensures prefix { IsFamilyPrefix self }
    {
        self.addr
    }

    /// States an invariant for the proofs of callers: the value is a prefix of its family.
    ///
    /// This call is no test. It does nothing and returns nothing.
    #[doc(hidden)]
    pub fn recall_invariant(self)
        ensures { IsFamilyPrefix self }
    {
        let _len = self.len;
    }

    /// Returns the prefix length, which is the number of leading bits that all its addresses share.
    pub fn len(self) -> u8
        ensures value { result ≡ self.len }
        ensures prefix { IsFamilyPrefix self }
    {
        self.len
    }

    /// Returns the longest prefix length of the family: 32 or 128.
    pub(crate) fn greatest_len(self) -> u8
        ensures value { result ≡ width self.addr }
        ensures prefix { IsFamilyPrefix self }
    {
        self.addr.width()
    }

    /// Returns the address and the length of the prefix.
    pub fn addr_and_len(self) -> (IpAddr, u8)
        ensures addr { result.0 ≡ self.addr }
        ensures len { result.1 ≡ self.len }
    {
        (self.addr, self.len)
    }

    /// Returns the lowest address.
    pub fn min_addr(self) -> IpAddr
        ensures value { result ≡ self.addr }
        ensures prefix { IsFamilyPrefix self }
    {
        self.addr
    }

    /// Returns the highest address.
    pub fn max_addr(self) -> IpAddr
        ensures value { result ≡ last_addr self }
        ensures prefix { IsFamilyPrefix self }
    {
        set_host(&self.addr, self.len)
    }
}
