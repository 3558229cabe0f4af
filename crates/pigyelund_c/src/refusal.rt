//! The reasons why a call does not return the requested set, the status of each, and the set that it returns instead.
ghost use Rattle.std.specs.Prelude.{◌≡◌, ◌<◌, IfOk};
ghost use Rattle.pigyelund_c.specs.Statuses.{argument_error_status, excess_of, overclaimed, read_set_error_status, refusal_status};
ghost use Rattle.pigyelund_c.specs.VerifyErrors.{verify_error_excess, verify_error_overclaimed, verify_error_status};

use pigyelund_routes::status;
use rpki_der::DerError;
use rpki_extensions::error::VerifyError;
use rpki_resources::repository::resources::{AsBlocks, Ipv4Blocks, Ipv6Blocks, ResourceSet};
use std::alloc::AllocError;

/// The argument that is invalid.
#[derive(Clone, Copy)]
pub(crate) enum ArgumentError {
    /// The number of the encoding is unknown.
    NoEncoding,
    /// The number of the mode is unknown.
    NoMode,
    /// The number of the extensions that are present is above 3.
    NoPresence,
    /// The number of the family is unknown.
    NoFamily,
    /// The range of an extension does not lie in the run of octets.
    Outside,
}

impl ArgumentError {
    /// Returns the status of this reason.
    pub(crate) fn status(self) -> u32
        ensures { result ≡ argument_error_status self }
    {
        match self {
            ArgumentError::NoEncoding => status::BAD_ENCODING,
            ArgumentError::NoMode => status::BAD_MODE,
            ArgumentError::NoPresence => status::BAD_PRESENT,
            ArgumentError::NoFamily => status::BAD_FAMILY,
            ArgumentError::Outside => status::OUTSIDE,
        }
    }
}

/// The reason why the octets of both extensions list no set.
#[derive(Drop)]
pub(crate) enum ReadSetError {
    /// The AS identifiers are invalid. The field is their first fault.
    Numbers(DerError),
    /// The IP address blocks are invalid. The field is their first fault.
    Addresses(DerError),
    /// Some resources are inherited.
    Inherited,
}

impl ReadSetError {
    /// Returns the status of this reason, below 16777216.
    pub(crate) fn status(&self) -> u32
        ensures value { result ≡ read_set_error_status self.now }
        ensures small { result < 16777216 }
    {
        match self {
            ReadSetError::Numbers(fault) => status::BAD_AS + u32::from(fault.number()),
            ReadSetError::Addresses(fault) => status::BAD_IP + u32::from(fault.number()),
            ReadSetError::Inherited => status::INHERITED,
        }
    }
}

/// Returns the status of the reason why an issuer does not verify a certificate's extensions.
fn verify_error_status(reason: &VerifyError) -> u32
    ensures { result ≡ verify_error_status reason.now }
{
    match reason {
        VerifyError::Absent => status::ABSENT,
        VerifyError::AsOctets(fault) => status::SECOND + status::BAD_AS + u32::from(fault.number()),
        VerifyError::AddressOctets(fault) => {
            status::SECOND + status::BAD_IP + u32::from(fault.number())
        }
        VerifyError::Inherited => status::SECOND + status::INHERITED,
        VerifyError::Asn(_) => status::OVERCLAIM_AS,
        VerifyError::Ipv4(_) => status::OVERCLAIM_V4,
        VerifyError::Ipv6(_) => status::OVERCLAIM_V6,
    }
}

/// Returns the overclaimed resources as a set. The set is empty for any other reason.
///
/// # Errors
///
/// [`AllocError`] if std refuses an additional reference to them.
fn verify_error_excess(reason: &VerifyError) -> Result<ResourceSet, AllocError>
    ensures { IfOk result (λ set. set ≡ verify_error_excess reason.now) }
{
    match reason {
        VerifyError::Asn(fault) => {
            let asn = fault.excess().clone()?;
            Ok(ResourceSet::new(asn, Ipv4Blocks::empty(), Ipv6Blocks::empty()))
        }
        VerifyError::Ipv4(fault) => {
            let ipv4 = Ipv4Blocks::from_excess(fault)?;
            Ok(ResourceSet::new(AsBlocks::empty(), ipv4, Ipv6Blocks::empty()))
        }
        VerifyError::Ipv6(fault) => {
            let ipv6 = Ipv6Blocks::from_excess(fault)?;
            Ok(ResourceSet::new(AsBlocks::empty(), Ipv4Blocks::empty(), ipv6))
        }
        _ => Ok(ResourceSet::empty()),
    }
}

/// Returns the overclaimed resources as a set, or `None` for any other reason.
///
/// # Errors
///
/// [`AllocError`] as in `verify_error_excess`.
fn verify_error_overclaimed(reason: &VerifyError) -> Result<Option<ResourceSet>, AllocError>
    ensures { IfOk result (λ set. set ≡ verify_error_overclaimed reason.now) }
{
    match reason {
        VerifyError::Absent
        | VerifyError::AsOctets(_)
        | VerifyError::AddressOctets(_)
        | VerifyError::Inherited => Ok(None),
        VerifyError::Asn(_) | VerifyError::Ipv4(_) | VerifyError::Ipv6(_) => {
            let excess = verify_error_excess(reason)?;
            Ok(Some(excess))
        }
    }
}

/// The reason why an issuer does not verify a certificate.
#[derive(Drop)]
pub(crate) enum Refusal {
    /// An argument is invalid.
    Asked(ArgumentError),
    /// The issuer's octets list no set.
    Issuer(ReadSetError),
    /// The issuer's set does not verify the certificate's extensions.
    Unverified(VerifyError),
}

impl Refusal {
    /// Returns the status of this reason.
    pub(crate) fn status(&self) -> u32
        ensures { result ≡ refusal_status self.now }
    {
        match self {
            Refusal::Asked(reason) => reason.status(),
            Refusal::Issuer(reason) => reason.status(),
            Refusal::Unverified(reason) => verify_error_status(reason),
        }
    }

    /// Returns the overclaimed resources as a set. The set is empty for any other reason.
    ///
    /// # Errors
    ///
    /// [`AllocError`] as in `verify_error_excess`.
    pub(crate) fn excess(&self) -> Result<ResourceSet, AllocError>
        ensures { IfOk result (λ set. set ≡ excess_of self.now) }
    {
        match self {
            Refusal::Unverified(reason) => verify_error_excess(reason),
            _ => Ok(ResourceSet::empty()),
        }
    }

    /// Returns the overclaimed resources as a set, or `None` for any other reason.
    ///
    /// # Errors
    ///
    /// [`AllocError`] as in `verify_error_excess`.
    pub(crate) fn overclaimed(&self) -> Result<Option<ResourceSet>, AllocError>
        ensures { IfOk result (λ set. set ≡ overclaimed self.now) }
    {
        match self {
            Refusal::Unverified(reason) => verify_error_overclaimed(reason),
            _ => Ok(None),
        }
    }
}
