//! A path of certificates, from the set of a trust anchor down.
ghost use Rattle.std.specs.Prelude.{◌≡◌, length, MatchResult};
ghost use Rattle.rpki_text.specs.Memory.{IfRefused};
ghost use Rattle.rpki_extensions.specs.Issued.{IsVerified};
ghost use Rattle.pigyelund_c.specs.Verified.{IsVerifyRefusal};
ghost use Rattle.pigyelund_c.specs.Paths.{IsFirstRefused, IsLeftOnPath, IsNoPathOutcome, IsNoPathOutcomeIn, IsPathOutcome, IsPathOutcomeIn, IsNoCertificateStep, IsCertificateStep, outcome_alone, verified_count};

use crate::certificate::Certificate;
use crate::encodings::encoding_of;
use crate::read::set_of;
use crate::refusal::{ArgumentError, Refusal};
use rpki_extensions::encoding::Encoding;
use rpki_extensions::extensions::Extensions;
use rpki_extensions::issued::verified_octets;
use rpki_resources::OrMemory;
use rpki_resources::repository::resources::ResourceSet;
use std::alloc::Global;

/// The reason why a path is not verified.
#[derive(Drop)]
pub(crate) struct PathError {
    /// The number of verified certificates: the next one is not verified.
    pub(crate) verified: usize,
    /// The reason why the next certificate is not verified.
    pub(crate) reason: Refusal,
}

impl PathError {
    /// Returns the error for a reason that comes before the first certificate.
    pub(crate) fn at_first(reason: Refusal) -> PathError
        ensures { result ≡ record { verified = 0; reason = reason } }
    {
        PathError {
            verified: 0,
            reason,
        }
    }
}

/// Returns the part of an issuer's set that a certificate's extensions claim.
///
/// # Errors
///
/// - `Refused` if the extensions are no claims, or with the first overclaimed resources.
/// - `Memory` if an allocation fails.
pub(crate) fn verified(
    alloc: Global,
    issuer: &ResourceSet,
    certificate: &Extensions<'_>,
) -> Result<ResourceSet, OrMemory<Refusal>>
    ensures { MatchResult result (IsVerified issuer.now certificate.now)
        (IfRefused (IsVerifyRefusal issuer.now certificate.now)) }
{
    match verified_octets(alloc, issuer, certificate) {
        Ok(set) => Ok(set),
        Err(OrMemory::Refused(reason)) => Err(OrMemory::Refused(Refusal::Unverified(reason))),
        Err(OrMemory::Memory(error)) => Err(OrMemory::Memory(error)),
    }
}

/// Returns the part of an issuer's set that one certificate claims.
///
/// # Errors
///
/// - `Refused` with the first invalid range or number of the certificate, or else as [`verified`] does.
/// - `Memory` if an allocation fails.
fn step(
    alloc: Global,
    issuer: &ResourceSet,
    run: &[u8],
    encoding: Encoding,
    certificate: &Certificate,
) -> Result<ResourceSet, OrMemory<Refusal>>
    ensures { MatchResult result (IsCertificateStep run.now encoding issuer.now certificate.now)
        (IfRefused (IsNoCertificateStep run.now encoding issuer.now certificate.now)) }
{
    match certificate.extensions(run, encoding) {
        Ok(extensions) => verified(alloc, issuer, &extensions),
        Err(reason) => Err(OrMemory::Refused(Refusal::Asked(reason))),
    }
}

/// Returns the part of an anchor's set that the certificates leave.
///
/// The claims of each certificate are compared with the part of the set that the certificates before it leave.
///
/// # Errors
///
/// - `Refused` with the index of the first certificate that is not verified, and the reason.
/// - `Memory` if an allocation fails.
pub(crate) fn left_on_path(
    alloc: Global,
    anchor: ResourceSet,
    run: &[u8],
    encoding: Encoding,
    certificates: &[Certificate],
) -> Result<ResourceSet, OrMemory<PathError>>
    ensures { MatchResult result (IsLeftOnPath run.now encoding anchor certificates.now)
        (IfRefused (IsFirstRefused run.now encoding anchor certificates.now)) }
{
    let mut issuer = anchor;
    for (at, certificate) in certificates.iter().enumerate() {
        match step(alloc, &issuer, run, encoding, certificate) {
            Ok(set) => issuer = set,
            Err(OrMemory::Refused(reason)) => {
                return Err(OrMemory::Refused(PathError {
                    verified: at,
                    reason,
                }));
            }
            Err(OrMemory::Memory(error)) => return Err(OrMemory::Memory(error)),
        }
    }
    Ok(issuer)
}

/// Returns the part that the certificates leave of an anchor's set, which is read from octets.
///
/// # Errors
///
/// - `Refused` with the reason why the anchor's octets list no set, or else as [`left_on_path`] does.
/// - `Memory` if an allocation fails.
fn path_answered_in(
    alloc: Global,
    anchor_as: &[u8],
    anchor_ip: &[u8],
    run: &[u8],
    encoding: Encoding,
    certificates: &[Certificate],
) -> Result<ResourceSet, OrMemory<PathError>>
    ensures { MatchResult result
        (IsPathOutcomeIn anchor_as.now anchor_ip.now run.now certificates.now encoding)
        (IfRefused
        (IsNoPathOutcomeIn anchor_as.now anchor_ip.now run.now certificates.now encoding)) }
{
    match set_of(alloc, anchor_as, anchor_ip, encoding) {
        Ok(anchor) => left_on_path(alloc, anchor, run, encoding, certificates),
        Err(OrMemory::Refused(reason)) => {
            Err(OrMemory::Refused(PathError::at_first(Refusal::Issuer(reason))))
        }
        Err(OrMemory::Memory(error)) => Err(OrMemory::Memory(error)),
    }
}

/// Returns the part that the certificates leave of an anchor's set, which is read from octets. `encoding` is a number.
///
/// # Errors
///
/// - `Refused` with `NoEncoding` if the encoding is unknown, and otherwise as [`path_answered_in`] does.
/// - `Memory` if an allocation fails.
pub(crate) fn path_answered(
    alloc: Global,
    anchor_as: &[u8],
    anchor_ip: &[u8],
    run: &[u8],
    encoding: u32,
    certificates: &[Certificate],
) -> Result<ResourceSet, OrMemory<PathError>>
    ensures { MatchResult result
        (IsPathOutcome anchor_as.now anchor_ip.now run.now certificates.now encoding)
        (IfRefused
        (IsNoPathOutcome anchor_as.now anchor_ip.now run.now certificates.now encoding)) }
{
    match encoding_of(encoding) {
        Some(encoding) => path_answered_in(
            alloc,
            anchor_as,
            anchor_ip,
            run,
            encoding,
            certificates,
        ),
        None => Err(OrMemory::Refused(PathError::at_first(Refusal::Asked(
            ArgumentError::NoEncoding,
        )))),
    }
}

/// Returns the number of verified certificates of a path, and the outcome without this number.
///
/// The number is 0 if the outcome is out of memory.
pub(crate) fn counted(
    certificates: &[Certificate],
    outcome: Result<ResourceSet, OrMemory<PathError>>,
) -> (usize, Result<ResourceSet, OrMemory<Refusal>>)
    ensures { result ≡ (verified_count (length certificates.now) outcome, outcome_alone outcome) }
{
    match outcome {
        Ok(set) => (certificates.len(), Ok(set)),
        Err(OrMemory::Refused(error)) => { (error.verified, Err(OrMemory::Refused(error.reason))) }
        Err(OrMemory::Memory(error)) => (0, Err(OrMemory::Memory(error))),
    }
}
