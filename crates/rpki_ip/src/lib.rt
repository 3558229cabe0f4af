//! Addresses of both families as numbers, prefixes and ranges of addresses (RFC 3779, 2), and their texts.
//!
//! This code of the program `rows_values` parses a range and makes the fewest prefixes of it:
//!
//! ```rust
//! match AddressRange::from_v6_str(text) {
//!     Ok(range) if kind == "v4" => list(alloc, AddressFamily::Ipv4, range.to_v4_prefixes()),
//!     Ok(range) => list(alloc, AddressFamily::Ipv6, range.to_v6_prefixes()),
//!     Err(fault) => print::error(alloc, fault),
//! }
//! ```
#![tactic(auto)]

pub mod addr;
pub mod cover;
pub mod der;
pub mod error;
pub mod front;
pub mod laws;
pub mod prefix;
pub mod range;
pub mod text;

pub use addr::Addr;
pub use cover::{V4Prefixes, V6Prefixes};
pub use error::FromStrError;
pub use prefix::Prefix;
pub use range::AddressRange;

/// Address families, re-exported from `rpki_der`. That crate has them because claims are also listed by family.
pub use rpki_der::family;
pub use rpki_der::family::AddressFamily;
