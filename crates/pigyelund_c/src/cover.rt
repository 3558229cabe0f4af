//! The shortest cover of a set's addresses of one family: the fewest prefixes that have exactly these addresses.
ghost use Rattle.std.specs.Prelude.{◌≡◌, [], IfOk, MatchResult};
ghost use Rattle.rpki_text.specs.Memory.{IfRefused};
ghost use Rattle.rpki_resources.specs.Triples.{set_of_family};
ghost use Rattle.pigyelund_routes.specs.Families.{family_number};
ghost use Rattle.pigyelund_c.specs.Covers.{ArePrefixesOf, IsCover, IsCoverIn, IsNoCover, cover_error_status, raw_prefix};
ghost use Rattle.pigyelund_c.specs.Sets.{IsNoSet};

use crate::encodings::encoding_of;
use crate::ranges::bound_octets;
use crate::read::set_of;
use crate::refusal::{ArgumentError, ReadSetError};
use pigyelund_routes::family::family_of;
use pigyelund_routes::route::RawPrefix;
use rpki_extensions::encoding::Encoding;
use rpki_family::blocks::FamilyBlocks;
use rpki_family::family::Family;
use rpki_resources::OrMemory;
use rpki_resources::repository::resources::{AddressFamily, Prefix, ResourceSet};
use std::alloc::{AllocError, Global};

/// The reason why there is no cover.
#[derive(Drop)]
pub(crate) enum CoverError {
    /// A number that the caller passed is invalid.
    Asked(ArgumentError),
    /// The octets list no set.
    Unread(ReadSetError),
}

impl CoverError {
    /// Returns the status of this reason.
    pub(crate) fn status(&self) -> u32
        ensures { result ≡ cover_error_status self.now }
    {
        match self {
            CoverError::Asked(reason) => reason.status(),
            CoverError::Unread(reason) => reason.status(),
        }
    }
}

/// Returns the number of a family as an octet: 4 for IPv4, 6 for IPv6.
fn family_octet(family: AddressFamily) -> u8
    ensures { result ≡ family_number family }
{
    match family {
        AddressFamily::Ipv4 => 4,
        AddressFamily::Ipv6 => 6,
    }
}

/// Returns a prefix of a family in the form for C.
fn raw_prefix(family: AddressFamily, prefix: Prefix) -> RawPrefix
    ensures { result ≡ raw_prefix family prefix }
{
    RawPrefix {
        address: bound_octets(family, prefix.addr()),
        family: family_octet(family),
        len: prefix.addr_len(),
    }
}

/// Returns the prefixes of the shortest cover of a set of addresses of one family.
///
/// # Errors
///
/// [`AllocError`] if an allocation fails.
fn family_prefixes<F: Family>(
    alloc: Global,
    set: &FamilyBlocks<F>,
) -> Result<Vec<RawPrefix, Global>, AllocError>
    ensures { IfOk result (λ list. ArePrefixesOf F.FAMILY set.now list.items) }
{
    let mut list = Vec::new(alloc);
    for prefix in set.prefixes() {
        list.push(raw_prefix(F::FAMILY, prefix))?;
    }
    Ok(list)
}

/// Returns the prefixes of the shortest cover of a set's addresses of a family.
///
/// # Errors
///
/// [`AllocError`] if an allocation fails.
pub(crate) fn set_prefixes(
    alloc: Global,
    family: AddressFamily,
    set: &ResourceSet,
) -> Result<Vec<RawPrefix, Global>, AllocError>
    ensures { IfOk result (λ list. ArePrefixesOf family (set_of_family family set.now) list.items) }
{
    match family {
        AddressFamily::Ipv4 => family_prefixes(alloc, set.ipv4()),
        AddressFamily::Ipv6 => family_prefixes(alloc, set.ipv6()),
    }
}

/// Returns the cover of one family of the set that IP address blocks list.
///
/// # Errors
///
/// - `Refused` with the first reason why the octets list no set.
/// - `Memory` if an allocation fails.
fn prefixes_in(
    alloc: Global,
    addresses: &[u8],
    encoding: Encoding,
    family: AddressFamily,
) -> Result<Vec<RawPrefix, Global>, OrMemory<ReadSetError>>
    ensures { MatchResult result
        (λ list. IsCoverIn encoding family addresses.now list.items)
        (IfRefused (IsNoSet encoding [] addresses.now)) }
{
    let set = set_of(alloc, &[], addresses, encoding)?;
    let list = set_prefixes(alloc, family, &set)?;
    Ok(list)
}

/// Returns the cover of one family of the set that IP address blocks list. `encoding` and `family` are numbers.
///
/// # Errors
///
/// - `Refused` with the first of these: an unknown encoding, an unknown family, the reason why the octets list no set.
/// - `Memory` if an allocation fails.
pub(crate) fn prefixes(
    alloc: Global,
    addresses: &[u8],
    encoding: u32,
    family: u32,
) -> Result<Vec<RawPrefix, Global>, OrMemory<CoverError>>
    ensures { MatchResult result (λ list. IsCover addresses.now encoding family list.items)
        (IfRefused (IsNoCover addresses.now encoding family)) }
{
    let Some(encoding) = encoding_of(encoding) else {
        return Err(OrMemory::Refused(CoverError::Asked(ArgumentError::NoEncoding)));
    };
    let Some(family) = family_of(family) else {
        return Err(OrMemory::Refused(CoverError::Asked(ArgumentError::NoFamily)));
    };
    match prefixes_in(alloc, addresses, encoding, family) {
        Ok(list) => Ok(list),
        Err(OrMemory::Refused(reason)) => Err(OrMemory::Refused(CoverError::Unread(reason))),
        Err(OrMemory::Memory(error)) => Err(OrMemory::Memory(error)),
    }
}
