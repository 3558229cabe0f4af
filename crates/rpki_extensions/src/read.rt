//! Readers for the value of each extension.
ghost use Rattle.std.specs.Prelude.{◌≡◌, IfOk, IfSome, MatchResult, option_map};
ghost use Rattle.rpki_text.specs.Memory.{IfRefused};
ghost use Rattle.rpki_ipres.specs.Resources.{IsWholeClaim};
ghost use Rattle.rpki_extensions.specs.Claims.{AreAddressClaims, AreClaimed, HasAddressesFault, HasNumbersFault};
ghost use Rattle.rpki_extensions.specs.Claims.{IsNumbersClaim, claim_or_missing};
ghost use Rattle.rpki_extensions.specs.Encodings.{HasAddressValueFault, HasAsFault, IsAddressValue, IsAsValue};

use crate::encoding::Encoding;
use rpki_der::DerError;
use rpki_resources::OrMemory;
use rpki_resources::repository::resources::{AsResources, IpResources};
use std::alloc::Allocator;

/// Reads the AS resources from the value of the AS identifiers extension (RFC 3779, 3.2).
///
/// No octets may follow them. [`read_optional_as_claim`] also accepts an absent extension.
///
/// # Errors
///
/// - `Refused` with the first fault of the octets.
/// - `Memory` if an allocation fails.
pub fn read_as_claim<A: Allocator + Copy>(
    alloc: A,
    octets: &[u8],
    encoding: Encoding,
) -> Result<AsResources<A>, OrMemory<DerError>>
    ensures { MatchResult result (IsAsValue encoding octets.now)
        (IfRefused (HasAsFault encoding octets.now)) }
{
    let mut cursor = encoding.cursor(octets);
    let resources = AsResources::take_from(alloc, &mut cursor)?;
    cursor.finish()?;
    Ok(resources)
}

/// Reads the IPv4 and the IPv6 resources from the value of the IP address blocks extension (RFC 3779, 2.2).
///
/// No octets may follow them. The call returns None for a family that isn't in the value. [`read_ip_claims`] returns
/// missing resources instead.
///
/// # Errors
///
/// - `Refused` with the first fault of the octets.
/// - `Memory` if an allocation fails.
pub fn read_ip_families<A: Allocator + Copy>(
    alloc: A,
    octets: &[u8],
    encoding: Encoding,
) -> Result<(Option<IpResources<A>>, Option<IpResources<A>>), OrMemory<DerError>>
    ensures claims { MatchResult result (IsAddressValue encoding octets.now)
        (IfRefused (HasAddressValueFault encoding octets.now)) }
    ensures whole { IfOk result (λ found. IfSome found.0 IsWholeClaim) }
{
    let mut cursor = encoding.cursor(octets);
    let families = IpResources::take_families_from(alloc, &mut cursor)?;
    cursor.finish()?;
    Ok(families)
}

/// Reads the claims on IPv4 and on IPv6 from the value of the IP address blocks extension (RFC 3779, 2.2).
///
/// No octets may follow them. A family that isn't in the value claims missing resources. [`read_ip_families`] returns
/// None instead, and [`read_optional_ip_claims`] also accepts an absent extension.
///
/// # Errors
///
/// - `Refused` with the first fault of the octets.
/// - `Memory` if an allocation fails.
pub fn read_ip_claims<A: Allocator + Copy>(
    alloc: A,
    octets: &[u8],
    encoding: Encoding,
) -> Result<(IpResources<A>, IpResources<A>), OrMemory<DerError>>
    ensures claims { MatchResult result (AreClaimed encoding octets.now)
        (IfRefused (HasAddressValueFault encoding octets.now)) }
    ensures whole { IfOk result (λ claims. IsWholeClaim claims.0) }
{
    match read_ip_families(alloc, octets, encoding) {
        Ok(found) => Ok(each_or_missing(found)),
        Err(error) => Err(error),
    }
}

/// Reads the claim on AS numbers from the AS identifiers extension, which may be absent (RFC 3779, 3.2).
///
/// `octets` is None for an absent extension, which claims missing resources. [`read_as_claim`] reads one that is
/// present.
///
/// # Errors
///
/// - `Refused` with the first fault of the octets.
/// - `Memory` if an allocation fails.
pub fn read_optional_as_claim<A: Allocator + Copy>(
    alloc: A,
    octets: Option<&[u8]>,
    encoding: Encoding,
) -> Result<AsResources<A>, OrMemory<DerError>>
    ensures { MatchResult result
        (IsNumbersClaim encoding (option_map (λ octets. octets.now) octets.entry))
        (IfRefused (HasNumbersFault encoding (option_map (λ octets. octets.now) octets.entry))) }
{
    match octets {
        None => Ok(AsResources::missing()),
        Some(octets) => read_as_claim(alloc, octets, encoding),
    }
}

/// Reads the claims on IPv4 and on IPv6 from the IP address blocks extension, which may be absent (RFC 3779, 2.2).
///
/// `octets` is None for an absent extension, which claims missing resources of both families. [`read_ip_claims`] reads
/// one that is present.
///
/// # Errors
///
/// - `Refused` with the first fault of the octets.
/// - `Memory` if an allocation fails.
pub fn read_optional_ip_claims<A: Allocator + Copy>(
    alloc: A,
    octets: Option<&[u8]>,
    encoding: Encoding,
) -> Result<(IpResources<A>, IpResources<A>), OrMemory<DerError>>
    ensures claims { MatchResult result
        (AreAddressClaims encoding (option_map (λ octets. octets.now) octets.entry))
        (IfRefused (HasAddressesFault encoding (option_map (λ octets. octets.now) octets.entry))) }
    ensures whole { IfOk result (λ claims. IsWholeClaim claims.0) }
{
    match octets {
        None => Ok((IpResources::missing(), IpResources::missing())),
        Some(octets) => read_ip_claims(alloc, octets, encoding),
    }
}

/// Returns the claims of both families. A family that isn't in the value claims missing resources.
fn each_or_missing<A: Allocator>(
    found: (Option<IpResources<A>>, Option<IpResources<A>>),
) -> (IpResources<A>, IpResources<A>)
    ensures value { result ≡ (claim_or_missing found.0, claim_or_missing found.1) }
    ensures whole { IfSome found.0 IsWholeClaim → IsWholeClaim result.0 }
{
    let (v4, v6) = found;
    (or_missing(v4), or_missing(v6))
}

/// Returns the resources of a family, or missing resources if the family isn't in the value.
fn or_missing<A: Allocator>(found: Option<IpResources<A>>) -> IpResources<A>
    ensures value { result ≡ claim_or_missing found }
    ensures whole { IfSome found IsWholeClaim → IsWholeClaim result }
{
    match found {
        Some(resources) => resources,
        None => IpResources::missing(),
    }
}
