//! The two resource extensions of a certificate, and its claims.
ghost use Rattle.std.specs.Prelude.{◌≡◌, Err, IfOk, MatchResult};
ghost use Rattle.rpki_text.specs.Memory.{IfRefused};
ghost use Rattle.rpki_text.specs.declared.memory.OrMemory.TheVariants.{Refused};
ghost use Rattle.rpki_ipres.specs.Resources.{IsWholeClaim};
ghost use Rattle.rpki_extensions.specs.Claims.{AreAbsent, AreClaims, AreNoClaims};
ghost use Rattle.rpki_extensions.specs.declared.error.VerifyError.TheVariants.{Absent};

use crate::encoding::Encoding;
use crate::error::VerifyError;
use crate::read::{read_optional_as_claim, read_optional_ip_claims};
use rpki_resources::repository::resources::{AsResources, IpResources, Overclaim};
use rpki_resources::{OrMemory, refused_as};
use std::alloc::{Allocator, Global};

/// The values of a certificate's two resource extensions, and how to read them.
#[derive(Clone, Copy, Debug)]
pub struct Extensions<'a> {
    /// The value of the AS identifiers extension (RFC 3779, 3.2.3), or None if the extension is absent.
    pub numbers: Option<&'a [u8]>,
    /// The value of the IP address blocks extension (RFC 3779, 2.2.3), or None if the extension is absent.
    pub addresses: Option<&'a [u8]>,
    /// The accepted encodings of both values.
    pub encoding: Encoding,
    /// The mode for overclaims, from the certificate's policy (RFC 8360, 4).
    pub mode: Overclaim,
}

/// The claims of a certificate: missing, inherited or listed resources of each kind.
///
/// This is a struct of three claims. `rpki_chain::path::BlockClaim` is the trait that each claim of one kind has.
#[derive(Drop)]
#[derive_where(Debug)]
pub struct Claims<A: Allocator = Global> {
    /// The claim on AS numbers.
    pub asn: AsResources<A>,
    /// The claim on IPv4 addresses.
    pub ipv4: IpResources<A>,
    /// The claim on IPv6 addresses.
    pub ipv6: IpResources<A>,
}

impl Extensions<'_> {
    /// Returns the claims of the certificate. An absent extension and an absent family claim missing resources.
    ///
    /// # Errors
    ///
    /// - `Refused` with [`VerifyError::Absent`] if both extensions are absent. It is returned even if out of memory.
    /// - `Refused` with [`VerifyError::AsOctets`] and the first fault of the AS identifiers extension.
    /// - `Refused` with [`VerifyError::AddressOctets`] and the first fault of the IP address blocks extension, if the
    ///   AS identifiers have no fault.
    /// - `Memory` if an allocation fails.
    pub fn claims<A: Allocator + Copy>(
        &self,
        alloc: A,
    ) -> Result<Claims<A>, OrMemory<VerifyError<A>>>
        ensures claims { MatchResult result
            (λ claims. AreClaims self.now claims.asn claims.ipv4 claims.ipv6)
            (IfRefused (AreNoClaims self.now)) }
        ensures absent { AreAbsent self.now → result ≡ Err (Refused Absent) }
        ensures whole { IfOk result (λ claims. IsWholeClaim claims.ipv4) }
    {
        if self.numbers.is_none() && self.addresses.is_none() {
            return Err(OrMemory::Refused(VerifyError::Absent));
        }
        let asn = refused_as(
            read_optional_as_claim(alloc, self.numbers, self.encoding),
            |fault| VerifyError::AsOctets(fault),
        )?;
        let (ipv4, ipv6) = refused_as(
            read_optional_ip_claims(alloc, self.addresses, self.encoding),
            |fault| VerifyError::AddressOctets(fault),
        )?;
        Ok(Claims { asn, ipv4, ipv6 })
    }
}
