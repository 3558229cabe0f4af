//! Certificates: what remains of an issuer's resources, and what an accepted certificate lists.
ghost use Rattle.std.specs.Prelude.{◌≡◌, ℕ, ◌+◌, ◌<◌, List, IfOk, IfErr, length, slice_index_or, take};
ghost use Rattle.rpki_text.specs.Memory.{IfRefused};
ghost use Rattle.rpki_chain.specs.Paths.{IsLeft, Lists};
ghost use Rattle.rpki_chain.specs.Runs.{Holds};
ghost use Rattle.rpki_chain.specs.declared.path.Overclaim.TheVariants.{Refuse};
ghost use Rattle.rpki_chain.specs.declared.path.Step.{Step};
ghost use Rattle.rpki_resources.specs.Triples.{HasEachOf, Triple};
ghost use Rattle.rpki_extensions.specs.Anchors.{IsAnchorSet};
ghost use Rattle.rpki_extensions.specs.Below.{IsLeftBelow, IsVerifyBelowError, LiesInAnchor};
ghost use Rattle.rpki_extensions.specs.Issued.{GetsClaimed, HasVerifyError};
ghost use Rattle.rpki_extensions.specs.Kinds.{AreSteps, ClaimTriple, IsFirstOfEach, IsResultOfEach, NamesExcess};
ghost use Rattle.rpki_extensions.specs.Paths.{IsFirstVerifyError, IsVerifiedPath};
ghost use Rattle.rpki_extensions.specs.declared.extensions.Extensions.{Extensions};

use rpki_extensions::laws::{kinds_of_paths, sets_of_certificates};
use rpki_extensions::{
    Extensions, VerifyBelowError, VerifyError, VerifyPathError, verified_below, verified_octets,
    verified_path,
};
use rpki_resources::ResourceSet;
use rpki_text::memory::OrMemory;
use std::alloc::Allocator;

/// Returns the part of the issuer's resources that a certificate claims.
///
/// # Errors
///
/// - `Refused`: the certificate has no extension, or an invalid one, or it overclaims in mode Refuse.
/// - `Memory`: out of memory.
pub fn issued<A: Allocator + Copy>(
    alloc: A,
    issuer: &ResourceSet<A>,
    certificate: &Extensions<'_>,
) -> Result<ResourceSet<A>, OrMemory<VerifyError<A>>>
    ensures inside { IfOk result (HasEachOf issuer.now) }
    ensures claimed { IfOk result (GetsClaimed issuer.now certificate.now) }
    ensures refused { IfErr result (IfRefused (HasVerifyError issuer.now certificate.now)) }
{
    sets_of_certificates(); // so that the proof sees which numbers a verified certificate gets
    verified_octets(alloc, issuer, certificate)
}

/// Returns the part of the anchor's resources that a path of certificates leaves.
///
/// # Errors
///
/// - `Refused`: the first certificate that has no extension, or an invalid one, or that overclaims in mode Refuse.
/// - `Memory`: out of memory.
pub fn path<A: Allocator + Copy>(
    alloc: A,
    anchor: &ResourceSet<A>,
    certificates: &[Extensions<'_>],
) -> Result<ResourceSet<A>, OrMemory<VerifyPathError<A>>>
    ensures inside { IfOk result (HasEachOf anchor.now) }
    ensures left { IfOk result (λ set. (steps : List (Step ClaimTriple))
        × AreSteps certificates.now steps × IsResultOfEach anchor.now steps set
        × ((at n : ℕ) (step : Step ClaimTriple) → at < length steps
        → slice_index_or steps at step ≡ step → step.mode ≡ Refuse
        → (Lists step.claim.asn n
        → IsLeft (λ claims. claims.asn) (Holds anchor.now.asn) (take at steps) n)
        × (Lists step.claim.ipv4 n
        → IsLeft (λ claims. claims.ipv4) (Holds anchor.now.ipv4) (take at steps) n)
        × (Lists step.claim.ipv6 n
        → IsLeft (λ claims. claims.ipv6) (Holds anchor.now.ipv6) (take at steps) n))) }
    ensures refused { IfErr result (IfRefused (IsFirstVerifyError anchor.now certificates.now)) }
    ensures excess { IfErr result (IfRefused (λ refusal. NamesExcess refusal.reason
        → (steps : List (Step ClaimTriple))
        × AreSteps (take (refusal.step + 1) certificates.now) steps
        × IsFirstOfEach anchor.now steps refusal.step refusal.reason)) }
{
    kinds_of_paths::<A>(); // so that the proof sees that the path is one of claims, kind by kind
    anchor.recall_invariant();
    verified_path(alloc, anchor, certificates)
}

/// Returns the part of a trust anchor's resources that certificates leave, with the anchor as a certificate too.
///
/// # Errors
///
/// - `Refused`: the anchor lists no set, or the first certificate that isn't verified.
/// - `Memory`: out of memory.
pub fn below<A: Allocator + Copy>(
    alloc: A,
    anchor: &Extensions<'_>,
    certificates: &[Extensions<'_>],
) -> Result<ResourceSet<A>, OrMemory<VerifyBelowError<A>>>
    ensures inside { IfOk result (LiesInAnchor anchor.now) }
    ensures left { IfOk result (IsLeftBelow anchor.now certificates.now) }
    ensures accepted { IfOk result (λ set. (root : Triple) × IsAnchorSet anchor.now root
        × IsVerifiedPath root certificates.now set × ((at : ℕ) (certificate : Extensions)
        → at < length certificates.now
        → slice_index_or certificates.now at certificate ≡ certificate
        → (issuer : Triple) × (next : Triple)
        × IsVerifiedPath root (take at certificates.now) issuer
        × IsVerifiedPath root (take (at + 1) certificates.now) next
        × GetsClaimed issuer certificate next)) }
    ensures refused { IfErr result (IfRefused (IsVerifyBelowError anchor.now certificates.now)) }
{
    sets_of_certificates(); // so that the proof sees which numbers each certificate gets
    verified_below(alloc, anchor, certificates)
}
