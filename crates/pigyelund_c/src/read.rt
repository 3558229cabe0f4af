//! Reading of sets from the octets of extensions.
ghost use Rattle.std.specs.Prelude.{IfOk, MatchResult};
ghost use Rattle.rpki_text.specs.Memory.{IfRefused};
ghost use Rattle.rpki_ipres.specs.Resources.{IsWholeClaim};
ghost use Rattle.rpki_extensions.specs.Claims.{AreAddressClaims, HasAddressesFault, HasNumbersFault, IsNumbersClaim};
ghost use Rattle.pigyelund_c.specs.Sets.{IsNoSet, IsSet, some_octets};

use crate::refusal::ReadSetError;
use rpki_der::DerError;
use rpki_extensions::encoding::Encoding;
use rpki_extensions::read::{read_as_claim, read_ip_claims};
use rpki_resources::OrMemory;
use rpki_resources::repository::resources::{AsResources, IpResources, ResourceSet};
use std::alloc::Global;

/// Returns the claim on AS numbers that octets make. No octets make a missing claim.
///
/// # Errors
///
/// - `Refused` with the first fault of the octets.
/// - `Memory` if an allocation fails.
fn as_claim(
    alloc: Global,
    octets: &[u8],
    encoding: Encoding,
) -> Result<AsResources, OrMemory<DerError>>
    ensures { MatchResult result (IsNumbersClaim encoding (some_octets octets.now))
        (IfRefused (HasNumbersFault encoding (some_octets octets.now))) }
{
    if octets.is_empty() {
        return Ok(AsResources::missing());
    }
    read_as_claim(alloc, octets, encoding)
}

/// Returns the claims on IPv4 and on IPv6 that octets make. No octets make missing claims.
///
/// # Errors
///
/// - `Refused` with the first fault of the octets.
/// - `Memory` if an allocation fails.
fn ip_claims(
    alloc: Global,
    octets: &[u8],
    encoding: Encoding,
) -> Result<(IpResources, IpResources), OrMemory<DerError>>
    ensures claims { MatchResult result (AreAddressClaims encoding (some_octets octets.now))
        (IfRefused (HasAddressesFault encoding (some_octets octets.now))) }
    ensures whole { IfOk result (λ claims. IsWholeClaim claims.0) }
{
    if octets.is_empty() {
        return Ok((IpResources::missing(), IpResources::missing()));
    }
    read_ip_claims(alloc, octets, encoding)
}

/// Returns the set that the octets of both extensions list.
///
/// # Errors
///
/// - `Refused` with the first reason why they list no set.
/// - `Memory` if an allocation fails.
pub(crate) fn set_of(
    alloc: Global,
    numbers: &[u8],
    addresses: &[u8],
    encoding: Encoding,
) -> Result<ResourceSet, OrMemory<ReadSetError>>
    ensures { MatchResult result (IsSet encoding numbers.now addresses.now)
        (IfRefused (IsNoSet encoding numbers.now addresses.now)) }
{
    let asn = match as_claim(alloc, numbers, encoding) {
        Ok(asn) => asn,
        Err(OrMemory::Refused(fault)) => return Err(OrMemory::Refused(ReadSetError::Numbers(
            fault,
        ))),
        Err(OrMemory::Memory(error)) => return Err(OrMemory::Memory(error)),
    };
    let (v4, v6) = match ip_claims(alloc, addresses, encoding) {
        Ok(claims) => claims,
        Err(OrMemory::Refused(fault)) => return Err(OrMemory::Refused(ReadSetError::Addresses(
            fault,
        ))),
        Err(OrMemory::Memory(error)) => return Err(OrMemory::Memory(error)),
    };
    match ResourceSet::from_resources(&asn, &v4, &v6) {
        Ok(set) => Ok(set),
        Err(OrMemory::Refused(_)) => Err(OrMemory::Refused(ReadSetError::Inherited)),
        Err(OrMemory::Memory(error)) => Err(OrMemory::Memory(error)),
    }
}
