//! VRPs and routes as a caller passes them (RFC 6811, 2).
ghost use Rattle.std.specs.Prelude.{◌≡◌, slice_range, IsTrue, MatchResult};
ghost use Rattle.std.specs.Int.{from_be_bytes, w32};
ghost use Rattle.rpki_der.specs.declared.family.AddressFamily.TheVariants.{Ipv4};
ghost use Rattle.rpki_prefix.specs.Values.{FamilyPrefix};
ghost use Rattle.pigyelund_routes.specs.Routes.{IsNoPrefixPassed, IsNoVrp, IsNoRoute, IsPrefixPassed, IsVrp, IsRoute, HasNoPrefix, HasPrefix, address_in, route_error_status};
ghost use Rattle.pigyelund_routes.specs.RouteTexts.{passed_of};
ghost use Rattle.pigyelund_routes.specs.ReturnedVrps.{IsCovering, IsMismatch, address_family, address_octets, handed_of, route_status};

use crate::family::family_of;
use crate::status;
use roa_origin::Vrp;
use rpki_base::{Asn, IpAddr, Ipv4Addr, Ipv6Addr};
use rpki_der::family::AddressFamily;
use rpki_prefix::{MaxLenPrefix, Prefix};

/// The reason why octets and numbers are not a VRP or a route.
#[derive(Clone, Copy)]
pub enum RouteError {
    /// The number of the family is unknown.
    NoFamily,
    /// The length is above the family's number of bits, or bits of the address after it are set.
    NoPrefix,
    /// The maximum length is below the prefix length, or above the family's number of bits. A route never has this
    /// error.
    NoMaxLen,
}

impl RouteError {
    /// Returns the status of this reason for a VRP.
    pub fn status(self) -> u32
        ensures { result ≡ route_error_status self }
    {
        match self {
            RouteError::NoFamily => status::BAD_FAMILY,
            RouteError::NoPrefix => status::BAD_PREFIX,
            RouteError::NoMaxLen => status::BAD_MAX_LEN,
        }
    }

    /// Returns the status of this reason for a route.
    pub fn route_status(self) -> u32
        ensures { result ≡ route_status self }
    {
        status::SECOND + self.status()
    }
}

/// A VRP: a prefix with a maximum length, and the AS that may originate routes to it.
///
/// This is a struct for C, with numbers that are not checked yet.
#[repr(C)]
#[derive(Clone, Copy)]
pub struct RawVrp {
    /// The octets of the prefix's address, the highest first. An IPv4 address is the first four.
    pub address: [u8; 16],
    /// The AS number.
    pub asn: u32,
    /// The number of the family: 4 for IPv4, 6 for IPv6.
    pub family: u8,
    /// The length of the prefix, in bits.
    pub len: u8,
    /// The maximum length, in bits.
    pub max_len: u8,
}

/// A prefix. This is a struct for C, with numbers that are not checked yet.
#[repr(C)]
#[derive(Clone, Copy)]
pub struct RawPrefix {
    /// The octets of the address, the highest first. An IPv4 address is the first four.
    pub address: [u8; 16],
    /// The number of the family: 4 for IPv4, 6 for IPv6.
    pub family: u8,
    /// The length, in bits.
    pub len: u8,
}

/// A route: its prefix, and the AS that originates it.
///
/// This is a struct for C, with numbers that are not checked yet. `roa_routes::Route` is a route in a line of text.
#[repr(C)]
#[derive(Clone, Copy)]
pub struct Route {
    /// The octets of the prefix's address, the highest first. An IPv4 address is the first four.
    pub address: [u8; 16],
    /// The AS number.
    pub asn: u32,
    /// The number of the family: 4 for IPv4, 6 for IPv6.
    pub family: u8,
    /// The length of the prefix, in bits.
    pub len: u8,
}

/// A VRP that covers a route, and the reason why it does not match the route.
///
/// This is a struct for C. `roa_origin::Covering` is an iterator over such VRPs.
#[repr(C)]
#[derive(Clone, Copy)]
pub struct Covering {
    /// The VRP.
    pub vrp: RawVrp,
    /// The reason why the VRP does not match the route, or 0 if it matches.
    ///
    /// The number is 1 if its AS is not the route's or is AS0, 2 if the route is too long, and 3 for both.
    pub mismatch: u32,
}

/// Returns the number that the first four octets write, the most significant first.
fn first_four(octets: [u8; 16]) -> u32
    ensures { result ≡ from_be_bytes w32 (slice_range octets 0 4) }
{
    u32::from_be_bytes([octets[0], octets[1], octets[2], octets[3]])
}

/// Returns the address of a family with these octets, the most significant first.
fn address_of(family: AddressFamily, octets: [u8; 16]) -> IpAddr
    ensures { result ≡ address_in family octets }
{
    match family {
        AddressFamily::Ipv4 => IpAddr::V4(Ipv4Addr::from_bits(first_four(octets))),
        AddressFamily::Ipv6 => IpAddr::V6(Ipv6Addr::from_bits(u128::from_be_bytes(octets))),
    }
}

/// Returns whether these numbers and octets are an IPv4 prefix.
fn is_v4_prefix(family: u8, address: [u8; 16], len: u8) -> bool
    ensures { IsTrue result → HasPrefix family address len
        (record { addr = address_in Ipv4 address; len = len }) }
{
    if family != 4 || len > 32 {
        return false;
    }
    let host_bits = 0xFFFF_FFFF_u64 >> len;
    u64::from(first_four(address)) & host_bits == 0
}

/// Returns the prefix with these numbers and octets, or the reason why they are not a prefix.
fn prefix_of(family: u8, address: [u8; 16], len: u8) -> Result<Prefix, RouteError>
    ensures { MatchResult result (HasPrefix family address len) (HasNoPrefix family address len) }
{
    let Some(family) = family_of(u32::from(family)) else {
        return Err(RouteError::NoFamily);
    };
    match Prefix::new(address_of(family, address), len) {
        Ok(prefix) => Ok(prefix),
        Err(_) => Err(RouteError::NoPrefix),
    }
}

/// Returns the octets of an address, the most significant first. The last twelve of an IPv4 address are 0.
fn octets_of(addr: IpAddr) -> [u8; 16]
    ensures { result ≡ address_octets addr }
{
    match addr {
        IpAddr::V4(addr) => {
            let [a, b, c, d] = addr.octets();
            [a, b, c, d, 0, 0, 0, 0, 0, 0, 0, 0, 0, 0, 0, 0]
        }
        IpAddr::V6(addr) => addr.to_bits().to_be_bytes(),
    }
}

/// Returns the number of an address's family: 4 for IPv4, 6 for IPv6.
fn family_number(addr: IpAddr) -> u8
    ensures { result ≡ address_family addr }
{
    match addr {
        IpAddr::V4(_) => 4,
        IpAddr::V6(_) => 6,
    }
}

/// Returns the reason why a VRP that covers a route does not match it, or 0 if it does. The numbers are those of
/// [`Covering::mismatch`].
fn mismatch(route: Prefix, asn: Asn, vrp: &Vrp) -> u32
    ensures { IsMismatch route asn vrp.now result }
{
    let is_allowed = route.len() <= vrp.0.resolved_max_len();
    let has_as = asn != Asn::MIN && vrp.1 == asn;
    if is_allowed {
        if has_as { 0 } else { 1 }
    } else if has_as {
        2
    } else {
        3
    }
}

impl RawPrefix {
    /// Returns the checked prefix.
    ///
    /// # Errors
    ///
    /// The first reason why it is invalid: [`RouteError::NoFamily`] or [`RouteError::NoPrefix`].
    pub fn read(&self) -> Result<Prefix, RouteError>
        ensures { MatchResult result (IsPrefixPassed self.now) (IsNoPrefixPassed self.now) }
    {
        prefix_of(self.family, self.address, self.len)
    }
}

impl RawVrp {
    /// The VRP whose members are 0. It is invalid.
    pub const NONE: RawVrp = RawVrp {
        address: [0; 16],
        asn: 0,
        family: 0,
        len: 0,
        max_len: 0,
    };

    /// Returns the VRP in the form for C. `max_len` is the length of the prefix if the VRP has no maximum length.
    pub fn of(vrp: &Vrp) -> RawVrp
        ensures { result ≡ handed_of vrp.now }
    {
        let (prefix, asn) = *vrp;
        RawVrp {
            address: octets_of(prefix.addr()),
            asn: asn.into_u32(),
            family: family_number(prefix.addr()),
            len: prefix.prefix_len(),
            max_len: prefix.resolved_max_len(),
        }
    }

    /// Returns the checked VRP.
    ///
    /// # Errors
    ///
    /// The first reason why it is invalid. The family is checked first, then the prefix, then the maximum length.
    pub fn read(&self) -> Result<Vrp, RouteError>
        ensures { MatchResult result (IsVrp self.now) (IsNoVrp self.now) }
    {
        let prefix = prefix_of(self.family, self.address, self.len)?;
        match MaxLenPrefix::new(prefix, Some(self.max_len)) {
            Ok(prefix) => Ok((prefix, Asn::from_u32(self.asn))),
            Err(_) => Err(RouteError::NoMaxLen),
        }
    }
}

impl Route {
    /// The route whose members are 0. It is invalid.
    pub const NONE: Route = Route {
        address: [0; 16],
        asn: 0,
        family: 0,
        len: 0,
    };

    /// Returns the route of a line in the form for C. If its origin is unknown, the AS is AS0, which no VRP matches.
    pub fn of(route: &roa_routes::Route) -> Route
        ensures { result ≡ passed_of route.now }
    {
        Route {
            address: octets_of(route.prefix.addr()),
            asn: route.origin.unwrap_or(Asn::MIN).into_u32(),
            family: family_number(route.prefix.addr()),
            len: route.prefix.len(),
        }
    }

    /// Returns the prefix of the route.
    ///
    /// # Errors
    ///
    /// The first reason why it is invalid: [`RouteError::NoFamily`] or [`RouteError::NoPrefix`].
    pub fn prefix(&self) -> Result<Prefix, RouteError>
        ensures { MatchResult result (IsRoute self.now) (IsNoRoute self.now) }
    {
        prefix_of(self.family, self.address, self.len)
    }

    /// Checks that the route is valid. For an IPv4 route this takes fewer instructions than [`Route::prefix`].
    ///
    /// # Errors
    ///
    /// Those of [`Route::prefix`].
    pub(crate) fn check(&self) -> Result<(), RouteError>
        ensures { MatchResult result (λ _. (prefix : FamilyPrefix) × IsRoute self.now prefix)
            (IsNoRoute self.now) }
    {
        if is_v4_prefix(self.family, self.address, self.len) {
            return Ok(());
        }
        match self.prefix() {
            Ok(_prefix) => Ok(()),
            Err(reason) => Err(reason),
        }
    }
}

impl Covering {
    /// Returns the form for C of a VRP that covers the route to `route` from `asn`, with the mismatch.
    pub fn of(route: Prefix, asn: Asn, vrp: &Vrp) -> Covering
        ensures { IsCovering route asn vrp.now result }
    {
        Covering {
            vrp: RawVrp::of(vrp),
            mismatch: mismatch(route, asn, vrp),
        }
    }
}
