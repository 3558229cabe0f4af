//! Errors of parsing the lists of a set, and of making a set of claims.
use thiserror::Error;

/// The reason why the three lists of a set can't be parsed: the first invalid list, and its fault.
#[derive(Clone, Copy, Debug, PartialEq, Eq, Error)]
pub enum FromStrError {
    /// The list of AS numbers is invalid. The field is its fault.
    #[error("cannot parse ASN resources: {0}")]
    Asn(rpki_as::error::FromStrError),
    /// The list of IPv4 addresses is invalid. The field is its fault.
    #[error("cannot parse IPv4 resources: {0}")]
    Ipv4(rpki_ip::error::FromStrError),
    /// The list of IPv6 addresses is invalid. The field is its fault.
    #[error("cannot parse IPv6 resources: {0}")]
    Ipv6(rpki_ip::error::FromStrError),
}

/// The error for an inherited claim, which gives no set without its issuer.
#[derive(Clone, Copy, Debug, PartialEq, Eq, Error)]
#[error("cannot determine resources for certificate using inherit")]
pub struct InheritError;
