//! Prefixes of IPv4 and IPv6 addresses, with an optional maximum length, as in routing and in route origin
//! validation.
//!
//! This example, in `example_calls::cache::covering`, finds the prefixes of a table that cover a route:
//!
//! ```rust
//! for prefix in table {
//!     if prefix.covers(route) {
//!         found.push(*prefix)?;
//!     }
//! }
//! ```
#![tactic(auto)]

pub mod error;
pub mod laws;
pub mod max_len;
mod order;
pub mod prefix;
mod text;

pub use error::{MaxLenError, ParseMaxLenPrefixError, ParsePrefixError, PrefixError};
pub use max_len::MaxLenPrefix;
pub use prefix::Prefix;
