//! The reasons why a certificate's extensions aren't verified.
ghost use Rattle.std.specs.Prelude.{Some};
ghost use Rattle.rpki_extensions.specs.Texts.{below_text, certificate_text, verify_error_text};

use rpki_der::DerError;
use rpki_resources::repository::resources::{
    OverclaimedAsResources, OverclaimedIpv4Resources, OverclaimedIpv6Resources,
};
use std::alloc::{Allocator, Global};
use std::error::Error;
use std::fmt;

/// The reason why an issuer doesn't verify a certificate's extensions, or why they aren't those of a trust anchor.
///
/// It is printed as one line.
#[derive(Drop)]
pub enum VerifyError<A: Allocator = Global> {
    /// The certificate has neither extension. At least one is required (RFC 6487, 4.8.10 and 4.8.11).
    Absent,
    /// The value of the AS identifiers extension is invalid. The field is its first fault.
    AsOctets(DerError),
    /// The value of the IP address blocks extension is invalid. The field is its first fault.
    AddressOctets(DerError),
    /// A trust anchor inherits resources, although it has no issuer.
    Inherited,
    /// The certificate overclaims AS numbers. The field has exactly those that the issuer doesn't have.
    Asn(OverclaimedAsResources<A>),
    /// The certificate overclaims IPv4 addresses. The field has exactly those that the issuer doesn't have.
    Ipv4(OverclaimedIpv4Resources<A>),
    /// The certificate overclaims IPv6 addresses. The field has exactly those that the issuer doesn't have.
    Ipv6(OverclaimedIpv6Resources<A>),
}

impl<A: Allocator> fmt::Display for VerifyError<A> {
    ghost output = { λ reason. Some (verify_error_text reason) };

    fn fmt<W: fmt::Write>(&self, f: &mut fmt::Formatter<W>) -> fmt::Result {
        match self {
            VerifyError::Absent => f.write_str("neither AS identifiers nor IP address blocks"),
            VerifyError::AsOctets(fault) => write!(f, "AS identifiers: {fault}"),
            VerifyError::AddressOctets(fault) => write!(f, "IP address blocks: {fault}"),
            VerifyError::Inherited => f.write_str("a trust anchor inherits resources"),
            VerifyError::Asn(excess) => write!(f, "{excess}"),
            VerifyError::Ipv4(excess) => write!(f, "{excess}"),
            VerifyError::Ipv6(excess) => write!(f, "{excess}"),
        }
    }
}

/// Prints as `Display` does.
impl<A: Allocator> fmt::Debug for VerifyError<A> {
    fn fmt<W: fmt::Write>(&self, f: &mut fmt::Formatter<W>) -> fmt::Result {
        fmt::Display::fmt(self, f)
    }
}

impl<A: Allocator> Error for VerifyError<A> {}

/// The first certificate of a path that isn't verified. It is printed as one line: the index and the reason.
#[derive(Drop)]
pub struct VerifyPathError<A: Allocator = Global> {
    /// The index of the certificate on the path, counted from 0 below the trust anchor.
    pub step: usize,
    /// The reason why the certificate isn't verified by the resources that the certificates before it leave.
    pub reason: VerifyError<A>,
}

impl<A: Allocator> fmt::Display for VerifyPathError<A> {
    ghost output = { λ refusal. Some (certificate_text refusal) };

    fn fmt<W: fmt::Write>(&self, f: &mut fmt::Formatter<W>) -> fmt::Result {
        let step = self.step;
        let reason = &self.reason;
        write!(f, "certificate {step}: {reason}")
    }
}

/// Prints as `Display` does.
impl<A: Allocator> fmt::Debug for VerifyPathError<A> {
    fn fmt<W: fmt::Write>(&self, f: &mut fmt::Formatter<W>) -> fmt::Result {
        fmt::Display::fmt(self, f)
    }
}

impl<A: Allocator> Error for VerifyPathError<A> {}

/// The reason why nothing is verified below a trust anchor. It is printed as one line.
#[derive(Drop)]
pub enum VerifyBelowError<A: Allocator = Global> {
    /// The extensions of the trust anchor list no set. The field is the reason.
    Anchor(VerifyError<A>),
    /// A certificate on the path isn't verified. The field has its index and the reason.
    Certificate(VerifyPathError<A>),
}

impl<A: Allocator> fmt::Display for VerifyBelowError<A> {
    ghost output = { λ reason. Some (below_text reason) };

    fn fmt<W: fmt::Write>(&self, f: &mut fmt::Formatter<W>) -> fmt::Result {
        match self {
            VerifyBelowError::Anchor(reason) => write!(f, "{reason}"),
            VerifyBelowError::Certificate(refusal) => write!(f, "{refusal}"),
        }
    }
}

/// Prints as `Display` does.
impl<A: Allocator> fmt::Debug for VerifyBelowError<A> {
    fn fmt<W: fmt::Write>(&self, f: &mut fmt::Formatter<W>) -> fmt::Result {
        fmt::Display::fmt(self, f)
    }
}

impl<A: Allocator> Error for VerifyBelowError<A> {}
