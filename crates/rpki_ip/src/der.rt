//! Families, prefixes and ranges of addresses in DER (RFC 3779, 2.2.3).
mod error;
pub mod laws;
mod prefix;
mod range;
pub mod usual;

pub use error::DecodePrefixError;
pub use rpki_der::family::DecodeFamilyError;
