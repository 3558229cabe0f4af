//! A path of certificates, from a trust anchor down.
ghost use Rattle.std.specs.Prelude.{◌≡◌, IfOk, MatchResult};
ghost use Rattle.rpki_text.specs.Memory.{IfRefused};
ghost use Rattle.rpki_resources.specs.Triples.{HasEachOf};
ghost use Rattle.rpki_extensions.specs.Issued.{HasVerifyError, IsVerified};
ghost use Rattle.rpki_extensions.specs.Below.{IsLeftBelow, IsVerifyBelowError, IsVerifyBelowErrorOfRoot, LiesInAnchor};
ghost use Rattle.rpki_extensions.specs.Paths.{IsFirstVerifyError, IsVerifiedPath};

use crate::anchor::anchor_set;
use crate::error::{VerifyBelowError, VerifyPathError};
use crate::extensions::Extensions;
use crate::issued::verified_octets;
use rpki_resources::OrMemory;
use rpki_resources::repository::resources::ResourceSet;
use std::alloc::Allocator;

/// Returns the part of a trust anchor's resources that the certificates on a path leave (RFC 6487, 7.2; RFC 8360, 4).
///
/// The claims of the first certificate are compared with the anchor's resources. The claims of each later certificate
/// are compared with the part that the certificates before it leave. Without certificates the result is the anchor's
/// resources.
///
/// # Errors
///
/// - `Refused` with the index, counted from 0, of the first certificate that isn't verified, and the reason.
/// - `Memory` if an allocation fails, or if `std` refuses an additional reference to the anchor's sets.
pub fn verified_path<A: Allocator + Copy>(
    alloc: A,
    anchor: &ResourceSet<A>,
    certificates: &[Extensions<'_>],
) -> Result<ResourceSet<A>, OrMemory<VerifyPathError<A>>>
    ensures path { MatchResult result (IsVerifiedPath anchor.now certificates.now)
        (IfRefused (IsFirstVerifyError anchor.now certificates.now)) }
    ensures inside { IfOk result (HasEachOf anchor.now) }
{
    let mut issuer = anchor.clone()?;
    for (at, certificate) in certificates.iter().enumerate() {
        match verified_at(alloc, &issuer, at, certificate) {
            Ok(set) => issuer = set,
            Err(error) => return Err(error),
        }
    }
    Ok(issuer)
}

/// Returns the part of an issuer's resources that a certificate leaves, or its index `step` and the reason.
fn verified_at<A: Allocator + Copy>(
    alloc: A,
    issuer: &ResourceSet<A>,
    step: usize,
    certificate: &Extensions<'_>,
) -> Result<ResourceSet<A>, OrMemory<VerifyPathError<A>>>
    ensures { MatchResult result (IsVerified issuer.now certificate.now)
        (IfRefused (λ refusal. (refusal.step ≡ step)
        × HasVerifyError issuer.now certificate.now refusal.reason)) }
{
    match verified_octets(alloc, issuer, certificate) {
        Ok(set) => Ok(set),
        Err(OrMemory::Refused(reason)) => {
            Err(OrMemory::Refused(VerifyPathError { step, reason }))
        }
        Err(OrMemory::Memory(error)) => Err(OrMemory::Memory(error)),
    }
}

/// Returns the part of a trust anchor's set that the certificates on a path leave (RFC 6487, 7.2; RFC 8360, 4).
///
/// The anchor's set is the one that its extensions list. [`verified_path`] says how the certificates are verified.
///
/// # Errors
///
/// - `Refused` with [`VerifyBelowError::Anchor`] and the reason if the anchor lists no set.
/// - `Refused` with [`VerifyBelowError::Certificate`], and the index and reason of the first certificate that isn't
///   verified.
/// - `Memory` if an allocation fails.
pub fn verified_below<A: Allocator + Copy>(
    alloc: A,
    anchor: &Extensions<'_>,
    certificates: &[Extensions<'_>],
) -> Result<ResourceSet<A>, OrMemory<VerifyBelowError<A>>>
    ensures below { MatchResult result (IsLeftBelow anchor.now certificates.now)
        (IfRefused (IsVerifyBelowError anchor.now certificates.now)) }
    ensures inside { IfOk result (LiesInAnchor anchor.now) }
{
    match anchor_set(alloc, anchor) {
        Ok(root) => below_root(alloc, &root, certificates),
        Err(OrMemory::Refused(reason)) => Err(OrMemory::Refused(VerifyBelowError::Anchor(reason))),
        Err(OrMemory::Memory(error)) => Err(OrMemory::Memory(error)),
    }
}

/// Returns the part of a trust anchor's set that the certificates on a path leave.
fn below_root<A: Allocator + Copy>(
    alloc: A,
    root: &ResourceSet<A>,
    certificates: &[Extensions<'_>],
) -> Result<ResourceSet<A>, OrMemory<VerifyBelowError<A>>>
    ensures path { MatchResult result (IsVerifiedPath root.now certificates.now)
        (IfRefused (IsVerifyBelowErrorOfRoot root.now certificates.now)) }
    ensures inside { IfOk result (HasEachOf root.now) }
{
    match verified_path(alloc, root, certificates) {
        Ok(set) => Ok(set),
        Err(OrMemory::Refused(refusal)) => {
            Err(OrMemory::Refused(VerifyBelowError::Certificate(refusal)))
        }
        Err(OrMemory::Memory(error)) => Err(OrMemory::Memory(error)),
    }
}
