//! Faults of the content of a DER value that was already read.
use thiserror::Error;

/// The error for a bit string that is too long for a prefix: it has more than sixteen octets.
#[derive(Clone, Copy, Debug, PartialEq, Eq, Error)]
#[error("invalid prefix in IP resources")]
pub struct DecodePrefixError;
