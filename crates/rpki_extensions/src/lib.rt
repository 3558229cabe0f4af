//! Reads, verifies and writes the two resource extensions of a certificate (RFC 3779; RFC 6487, 4.8.10 and 4.8.11).
//!
//! The crate checks their claims against the resources of an issuer, and follows a path of certificates down from a
//! trust anchor. Either extension may be absent. A certificate with neither extension is refused.
//!
//! Pass the values of both to `verified_octets`, with the accepted encoding (`Encoding`) and the mode for overclaims
//! (`Overclaim`), as in the program `example_verified_set`:
//!
//! ```rust
//! let certificate = Extensions {
//!     numbers: Some(&numbers),
//!     addresses: Some(&addresses),
//!     encoding,
//!     mode,
//! };
//! ```
#![tactic(auto)]

pub mod anchor;
pub mod encoding;
pub mod error;
pub mod extensions;
pub mod issued;
pub mod laws;
pub mod path;
pub mod read;
pub mod write;

pub use anchor::anchor_set;
pub use encoding::Encoding;
pub use error::{VerifyBelowError, VerifyError, VerifyPathError};
pub use extensions::{Claims, Extensions};
pub use issued::verified_octets;
pub use path::{verified_below, verified_path};
pub use read::{
    read_as_claim, read_ip_claims, read_ip_families, read_optional_as_claim,
    read_optional_ip_claims,
};
pub use write::{write_as_claim, write_as_extension, write_ip_claims, write_ip_extension};
