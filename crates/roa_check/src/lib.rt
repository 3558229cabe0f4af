//! Checks of ROAs against the resources of their certificate, and of routes against VRPs (RFC 6811; RFC 9582).
//!
//! [`outside`] finds the first prefix that a ROA lists and its certificate doesn't have, as in
//! `example_calls::routes::excess`:
//!
//! ```rust
//! match outside(resources, prefixes) {
//!     Some(at) => Some(prefixes[at]),
//!     None => None,
//! }
//! ```
//!
//! [`origin`] returns the validity of a route by a list of VRPs. For many routes, make an `OriginTable` (crate
//! `roa_origin`).
#![tactic(auto)]

pub mod roa_prefixes;

pub use roa_origin::{Validity, origin};
pub use roa_prefixes::outside;
