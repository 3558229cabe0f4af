//! The octets of the resources in a certificate (RFC 3779, 2.2.3 and 3.2.3).
ghost use Rattle.std.specs.Prelude.{◌≡◌, [], IfOk, MatchOption};
ghost use Rattle.rpki_resources.specs.Claims.{claim_of};
ghost use Rattle.rpki_resources.specs.ResourcesChoice.TheVariants.{Missing};
ghost use Rattle.rpki_resources.specs.AsDer.{as_resources_octets};
ghost use Rattle.rpki_resources.specs.ResourcesDer.{ip_families_der};

use rpki_resources::repository::resources::{AsResources, IpResources, ResourceSet};
use std::alloc::{AllocError, Allocator};

/// The octets of resources, None if no resources are listed, or [`AllocError`] if an allocation fails.
pub type Octets<A> = Result<Option<Vec<u8, A>>, AllocError>;

/// Returns the octets of AS resources that list the AS numbers of a set, or None if it has no AS numbers.
pub fn of_asn<A: Allocator>(alloc: A, set: &ResourceSet<A>) -> Octets<A>
    ensures { IfOk result (λ found. MatchOption found (set.now.asn ≡ [])
        (λ octets. octets.items ≡ as_resources_octets (claim_of set.now.asn))) }
{
    let resources = set.to_as_resources()?;
    of_as_resources(alloc, &resources)
}

/// Returns the octets of AS resources, or None if they are missing.
fn of_as_resources<A: Allocator>(alloc: A, resources: &AsResources<A>) -> Octets<A>
    ensures { IfOk result (λ found. MatchOption found (resources.now ≡ Missing)
        (λ octets. octets.items ≡ as_resources_octets resources.now)) }
{
    if resources.is_missing() {
        return Ok(None);
    }
    let mut octets = Vec::new(alloc);
    resources.encode(&mut octets)?;
    Ok(Some(octets))
}

/// Returns the octets of the families that list the addresses of a set, or None if it has no addresses.
pub fn of_addresses<A: Allocator>(alloc: A, set: &ResourceSet<A>) -> Octets<A>
    ensures { IfOk result (λ found. MatchOption found ((set.now.ipv4 ≡ []) × (set.now.ipv6 ≡ []))
        (λ octets. octets.items ≡ ip_families_der (claim_of set.now.ipv4)
        (claim_of set.now.ipv6))) }
{
    let v4 = set.to_ip_resources_v4()?;
    let v6 = set.to_ip_resources_v6()?;
    of_families(alloc, &v4, &v6)
}

/// Returns the octets of the families of resources, or None if both are missing.
fn of_families<A: Allocator>(alloc: A, v4: &IpResources<A>, v6: &IpResources<A>) -> Octets<A>
    ensures { IfOk result (λ found. MatchOption found ((v4.now ≡ Missing) × (v6.now ≡ Missing))
        (λ octets. octets.items ≡ ip_families_der v4.now v6.now)) }
{
    if v4.is_missing() && v6.is_missing() {
        return Ok(None);
    }
    let mut octets = Vec::new(alloc);
    IpResources::encode_families(v4, v6, &mut octets)?;
    Ok(Some(octets))
}
