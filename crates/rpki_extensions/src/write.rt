//! Writers for the values of both extensions, from claims or from a set.
ghost use Rattle.std.specs.Prelude.{◌≡◌, IfOk, option_map};
ghost use Rattle.rpki_chain.specs.Claims.{claim_of};
ghost use Rattle.rpki_ipres.specs.Resources.{IsWholeClaim};
ghost use Rattle.rpki_extensions.specs.Claims.{AreAddressClaims, IsNumbersClaim};
ghost use Rattle.rpki_extensions.specs.Written.{claimed_addresses, claimed_numbers, written_addresses, written_numbers};
ghost use Rattle.rpki_extensions.specs.declared.encoding.Encoding.{Encoding};

use rpki_resources::repository::resources::{AsResources, IpResources, ResourceSet};
use std::alloc::{AllocError, Allocator};

/// Returns the canonical value of the AS identifiers extension for a claim (RFC 3779, 3.2.3).
///
/// The call returns None for a missing claim: the extension is then absent. The value is read back in either encoding.
///
/// # Errors
///
/// [`AllocError`] if an allocation fails.
#[tactic(auto, using(rpki_as::proofs::AsResourcesDer::resources_written))]
pub fn write_as_claim<A: Allocator>(
    alloc: A,
    claim: &AsResources<A>,
) -> Result<Option<Vec<u8, A>>, AllocError>
    ensures octets { IfOk result (λ value.
        option_map (λ octets. octets.items) value ≡ claimed_numbers claim.now) }
    ensures reads_back { IfOk result (λ value. (encoding : Encoding) →
        IsNumbersClaim encoding (option_map (λ octets. octets.items) value) claim.now) }
{
    if claim.is_missing() {
        return Ok(None);
    }
    let mut octets = Vec::new(alloc);
    claim.encode(&mut octets)?;
    Ok(Some(octets))
}

/// Returns the canonical value of the IP address blocks extension for claims on IPv4 and IPv6 (RFC 3779, 2.2.3).
///
/// The call returns None if both claims are missing: the extension is then absent. The value is read back in either
/// encoding, if a list in `v4` consists of whole IPv4 addresses.
///
/// # Errors
///
/// [`AllocError`] if an allocation fails.
#[tactic(auto, using(crate::proofs::WrittenClaimLemmas::is_written))]
pub fn write_ip_claims<A: Allocator>(
    alloc: A,
    v4: &IpResources<A>,
    v6: &IpResources<A>,
) -> Result<Option<Vec<u8, A>>, AllocError>
    ensures octets { IfOk result (λ value. option_map (λ octets. octets.items) value
        ≡ claimed_addresses v4.now v6.now) }
    ensures reads_back { IsWholeClaim v4.now → IfOk result (λ value. (encoding : Encoding) →
        AreAddressClaims encoding (option_map (λ octets. octets.items) value) (v4.now, v6.now)) }
{
    if v4.is_missing() && v6.is_missing() {
        return Ok(None);
    }
    let mut octets = Vec::new(alloc);
    IpResources::encode_families(v4, v6, &mut octets)?;
    let _len = octets.len(); // read so that the proof sees that the octets are fewer than 2^64
    Ok(Some(octets))
}

/// Returns the value of the AS identifiers extension that lists the AS numbers of a set, as by [`write_as_claim`].
///
/// The call returns None if the set has no AS numbers: the extension is then absent.
///
/// # Errors
///
/// [`AllocError`] if an allocation fails, or if `std` refuses an additional reference to the set.
pub fn write_as_extension<A: Allocator + Copy>(
    alloc: A,
    set: &ResourceSet<A>,
) -> Result<Option<Vec<u8, A>>, AllocError>
    ensures octets { IfOk result (λ value.
        option_map (λ octets. octets.items) value ≡ written_numbers set.now.asn) }
    ensures reads_back { IfOk result (λ value. (encoding : Encoding) →
        IsNumbersClaim encoding (option_map (λ octets. octets.items) value)
        (claim_of set.now.asn)) }
{
    let claim = set.to_as_resources()?;
    write_as_claim(alloc, &claim)
}

/// Returns the value of the IP address blocks extension that lists a set's addresses, as by [`write_ip_claims`].
///
/// The call returns None if the set has no addresses: the extension is then absent.
///
/// # Errors
///
/// [`AllocError`] if an allocation fails, or if `std` refuses an additional reference to the set.
pub fn write_ip_extension<A: Allocator + Copy>(
    alloc: A,
    set: &ResourceSet<A>,
) -> Result<Option<Vec<u8, A>>, AllocError>
    ensures octets { IfOk result (λ value. option_map (λ octets. octets.items) value
        ≡ written_addresses set.now.ipv4 set.now.ipv6) }
    ensures reads_back { IfOk result (λ value. (encoding : Encoding) →
        AreAddressClaims encoding (option_map (λ octets. octets.items) value)
        (claim_of set.now.ipv4, claim_of set.now.ipv6)) }
{
    let v4 = set.to_ip_resources_v4()?;
    let v6 = set.to_ip_resources_v6()?;
    write_ip_claims(alloc, &v4, &v6)
}
