//! The runs of a set, as pairs of numbers.
ghost use Rattle.std.specs.Prelude.{◌≡◌, IfOk, MatchResult, map};
ghost use Rattle.rpki_text.specs.Memory.{IfRefused};
ghost use Rattle.rpki_resources.specs.Triples.{set_of_family};
ghost use Rattle.pigyelund_c.specs.Covers.{IsNoCover};
ghost use Rattle.pigyelund_c.specs.Ranges.{AreAsRanges, AreIpRanges, HaveNoAsRanges, as_range, bound_octets, ip_range};

use crate::cover::CoverError;
use crate::encodings::encoding_of;
use crate::read::set_of;
use crate::refusal::ArgumentError;
use pigyelund_routes::family::family_of;
use rpki_resources::OrMemory;
use rpki_resources::repository::resources::{Addr, AddressFamily, AsBlocks, IpBlocks, ResourceSet};
use std::alloc::{AllocError, Global};

/// A run of AS numbers. This is a struct for C.
#[repr(C)]
#[derive(Clone, Copy)]
pub struct RawAsRange {
    /// The least number.
    pub min: u32,
    /// The greatest number.
    pub max: u32,
}

/// A run of addresses of one family. This is a struct for C.
///
/// The octets of an address are the highest first. An IPv4 address is the first four, and the others are 0.
#[repr(C)]
#[derive(Clone, Copy)]
pub struct RawIpRange {
    /// The lowest address.
    pub min: [u8; 16],
    /// The highest address.
    pub max: [u8; 16],
}

/// Returns the runs of a set of AS numbers, ascending.
///
/// # Errors
///
/// [`AllocError`] if an allocation fails.
pub(crate) fn as_runs(alloc: Global, set: &AsBlocks) -> Result<Vec<RawAsRange, Global>, AllocError>
    ensures { IfOk result (λ list. list.items ≡ map as_range set.now) }
{
    let mut list = Vec::new(alloc);
    for block in set.iter() {
        let min = block.min().into_u32();
        let max = block.max().into_u32();
        list.push(RawAsRange { min, max })?;
    }
    Ok(list)
}

/// Returns the octets of an address of a family.
pub(crate) fn bound_octets(family: AddressFamily, addr: Addr) -> [u8; 16]
    ensures { result ≡ bound_octets family addr }
{
    match family {
        AddressFamily::Ipv4 => {
            let [a, b, c, d] = addr.to_v4().octets();
            [a, b, c, d, 0, 0, 0, 0, 0, 0, 0, 0, 0, 0, 0, 0]
        }
        AddressFamily::Ipv6 => addr.to_bytes(),
    }
}

/// Returns the runs of a set of addresses of a family, ascending.
///
/// # Errors
///
/// [`AllocError`] if an allocation fails.
fn ip_runs(
    alloc: Global,
    family: AddressFamily,
    set: &IpBlocks,
) -> Result<Vec<RawIpRange, Global>, AllocError>
    ensures { IfOk result (λ list. list.items ≡ map (ip_range family) set.now) }
{
    let mut list = Vec::new(alloc);
    for block in set.iter() {
        let min = bound_octets(family, block.min());
        let max = bound_octets(family, block.max());
        list.push(RawIpRange { min, max })?;
    }
    Ok(list)
}

/// Returns the runs of a set's addresses of a family, ascending.
///
/// # Errors
///
/// [`AllocError`] if an allocation fails.
pub(crate) fn runs_of_family(
    alloc: Global,
    family: AddressFamily,
    set: &ResourceSet,
) -> Result<Vec<RawIpRange, Global>, AllocError>
    ensures { IfOk result (λ list. list.items ≡ map (ip_range family) (set_of_family family set.now)) }
{
    match family {
        AddressFamily::Ipv4 => ip_runs(alloc, family, set.ipv4().ip_blocks()),
        AddressFamily::Ipv6 => ip_runs(alloc, family, set.ipv6().ip_blocks()),
    }
}

/// Returns the runs of the AS numbers that AS identifiers list. `encoding` is a number.
///
/// # Errors
///
/// - `Refused` with the first of these: an unknown encoding, the reason why the octets list no set.
/// - `Memory` if an allocation fails.
pub(crate) fn as_ranges(
    alloc: Global,
    numbers: &[u8],
    encoding: u32,
) -> Result<Vec<RawAsRange, Global>, OrMemory<CoverError>>
    ensures { MatchResult result (λ list. AreAsRanges numbers.now encoding list.items)
        (IfRefused (HaveNoAsRanges numbers.now encoding)) }
{
    let Some(encoding) = encoding_of(encoding) else {
        return Err(OrMemory::Refused(CoverError::Asked(ArgumentError::NoEncoding)));
    };
    let set = match set_of(alloc, numbers, &[], encoding) {
        Ok(set) => set,
        Err(OrMemory::Refused(reason)) => return Err(OrMemory::Refused(CoverError::Unread(reason))),
        Err(OrMemory::Memory(error)) => return Err(OrMemory::Memory(error)),
    };
    match as_runs(alloc, set.asn()) {
        Ok(list) => Ok(list),
        Err(error) => Err(OrMemory::Memory(error)),
    }
}

/// Returns the runs of the addresses of one family that IP address blocks list. `encoding` and `family` are numbers.
///
/// # Errors
///
/// - `Refused` with the first of these: an unknown encoding, an unknown family, the reason why the octets list no set.
/// - `Memory` if an allocation fails.
pub(crate) fn ip_ranges(
    alloc: Global,
    addresses: &[u8],
    encoding: u32,
    family: u32,
) -> Result<Vec<RawIpRange, Global>, OrMemory<CoverError>>
    ensures { MatchResult result (λ list. AreIpRanges addresses.now encoding family list.items)
        (IfRefused (IsNoCover addresses.now encoding family)) }
{
    let Some(encoding) = encoding_of(encoding) else {
        return Err(OrMemory::Refused(CoverError::Asked(ArgumentError::NoEncoding)));
    };
    let Some(family) = family_of(family) else {
        return Err(OrMemory::Refused(CoverError::Asked(ArgumentError::NoFamily)));
    };
    let set = match set_of(alloc, &[], addresses, encoding) {
        Ok(set) => set,
        Err(OrMemory::Refused(reason)) => return Err(OrMemory::Refused(CoverError::Unread(reason))),
        Err(OrMemory::Memory(error)) => return Err(OrMemory::Memory(error)),
    };
    match runs_of_family(alloc, family, &set) {
        Ok(list) => Ok(list),
        Err(error) => Err(OrMemory::Memory(error)),
    }
}
