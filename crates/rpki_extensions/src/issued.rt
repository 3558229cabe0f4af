//! A certificate's extensions, checked against the resources of its issuer.
ghost use Rattle.std.specs.Prelude.{◌≡◌, IfOk, MatchResult};
ghost use Rattle.rpki_text.specs.Memory.{IfRefused};
ghost use Rattle.rpki_der.specs.declared.family.AddressFamily.TheVariants.{Ipv4};
ghost use Rattle.rpki_ipres.specs.Families.{IsWholeIn};
ghost use Rattle.rpki_ipres.specs.Resources.{IsWholeClaim};
ghost use Rattle.rpki_resources.specs.Triples.{HasEachOf};
ghost use Rattle.rpki_extensions.specs.Issued.{HasVerifyError, IsIssuedOfEach, IsNotIssuedOfEach, IsVerified};
ghost use Rattle.rpki_extensions.specs.declared.error.VerifyError.TheVariants.{Ipv6 as OverclaimedIpv6};

use crate::error::VerifyError;
use crate::extensions::{Claims, Extensions};
use rpki_resources::repository::resources::{Ipv4Blocks, Ipv6Blocks, Overclaim, ResourceSet};
use rpki_resources::{OrMemory, refused_as};
use std::alloc::Allocator;

/// Returns the part of an issuer's resources that a certificate's extensions claim (RFC 6487, 7.2; RFC 8360, 4).
///
/// An absent extension and an absent family claim nothing.
///
/// # Errors
///
/// - `Refused` with an error of [`Extensions::claims`] if that call refuses the certificate.
/// - `Refused` with the overclaimed resources of the first kind that has any. AS numbers come before IPv4, and IPv4
///   before IPv6. With [`Overclaim::Trim`] no resources are overclaimed.
/// - `Memory` if an allocation fails.
pub fn verified_octets<A: Allocator + Copy>(
    alloc: A,
    issuer: &ResourceSet<A>,
    certificate: &Extensions<'_>,
) -> Result<ResourceSet<A>, OrMemory<VerifyError<A>>>
    ensures verified { MatchResult result (IsVerified issuer.now certificate.now)
        (IfRefused (HasVerifyError issuer.now certificate.now)) }
    ensures inside { IfOk result (HasEachOf issuer.now) }
{
    match certificate.claims(alloc) {
        Ok(claims) => issued(alloc, issuer, &claims, certificate.mode),
        Err(error) => Err(error),
    }
}

/// Returns the part of an issuer's resources that the claims of a certificate leave.
fn issued<A: Allocator + Copy>(
    alloc: A,
    issuer: &ResourceSet<A>,
    claims: &Claims<A>,
    mode: Overclaim,
) -> Result<ResourceSet<A>, OrMemory<VerifyError<A>>>
    requires { IsWholeClaim claims.now.ipv4 }
    ensures { MatchResult result
        (IsIssuedOfEach issuer.now claims.now.asn claims.now.ipv4 claims.now.ipv6 mode)
        (IfRefused
        (IsNotIssuedOfEach issuer.now claims.now.asn claims.now.ipv4 claims.now.ipv6 mode)) }
{
    let asn = refused_as(
        issuer.asn().verify_issued(alloc, &claims.asn, mode),
        |excess| VerifyError::Asn(excess),
    )?;
    let ipv4 = refused_as(
        issuer
            .ipv4()
            .ip_blocks()
            .verify_issued(alloc, &claims.ipv4, mode),
        |excess|
            requires { IsWholeIn Ipv4 excess }
        { VerifyError::Ipv4(excess.v4()) },
    )?;
    let ipv6 = refused_as(
        issuer
            .ipv6()
            .ip_blocks()
            .verify_issued(alloc, &claims.ipv6, mode),
        |excess|
            ensures { result ≡ OverclaimedIpv6 excess }
        { VerifyError::Ipv6(excess.v6()) },
    )?;
    Ok(ResourceSet::new(
        asn,
        Ipv4Blocks::from_ip_blocks(ipv4),
        Ipv6Blocks::from_ip_blocks(ipv6),
    ))
}
