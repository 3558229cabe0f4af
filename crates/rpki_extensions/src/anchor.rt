//! The resources of a trust anchor, which has no issuer.
ghost use Rattle.std.specs.Prelude.{◌≡◌, MatchResult};
ghost use Rattle.rpki_text.specs.Memory.{IfRefused};
ghost use Rattle.rpki_ipres.specs.Resources.{IsWholeClaim};
ghost use Rattle.rpki_resources.specs.Triples.{AreListed, IsOneInherited};
ghost use Rattle.rpki_extensions.specs.Anchors.{IsAnchorSet, IsNoAnchor};
ghost use Rattle.rpki_extensions.specs.declared.error.VerifyError.TheVariants.{Inherited};

use crate::error::VerifyError;
use crate::extensions::{Claims, Extensions};
use rpki_resources::OrMemory;
use rpki_resources::repository::resources::ResourceSet;
use std::alloc::Allocator;

/// Returns the set that the extensions of a trust anchor list (RFC 6487, 4.8.10 and 4.8.11; RFC 8630, 2.3).
///
/// Missing resources of a kind give an empty set. The call ignores the mode of `certificate`, because a trust anchor
/// has no issuer.
///
/// # Errors
///
/// - `Refused` with an error of [`Extensions::claims`] if that call refuses the certificate.
/// - `Refused` with [`VerifyError::Inherited`] if resources of some kind are inherited.
/// - `Memory` if an allocation fails.
pub fn anchor_set<A: Allocator + Copy>(
    alloc: A,
    certificate: &Extensions<'_>,
) -> Result<ResourceSet<A>, OrMemory<VerifyError<A>>>
    ensures { MatchResult result (IsAnchorSet certificate.now)
        (IfRefused (IsNoAnchor certificate.now)) }
{
    match certificate.claims(alloc) {
        Ok(claims) => listed_by(&claims),
        Err(error) => Err(error),
    }
}

/// Returns the set that claims list, or [`VerifyError::Inherited`] if one of them is inherited.
fn listed_by<A: Allocator>(claims: &Claims<A>) -> Result<ResourceSet<A>, OrMemory<VerifyError<A>>>
    requires { IsWholeClaim claims.now.ipv4 }
    ensures { MatchResult result (AreListed claims.now.asn claims.now.ipv4 claims.now.ipv6)
        (IfRefused (λ reason. (reason ≡ Inherited)
        × IsOneInherited claims.now.asn claims.now.ipv4 claims.now.ipv6)) }
{
    match ResourceSet::from_resources(&claims.asn, &claims.ipv4, &claims.ipv6) {
        Ok(set) => Ok(set),
        Err(OrMemory::Refused(_)) => Err(OrMemory::Refused(VerifyError::Inherited)),
        Err(OrMemory::Memory(error)) => Err(OrMemory::Memory(error)),
    }
}
