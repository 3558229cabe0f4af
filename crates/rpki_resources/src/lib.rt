//! Sets of the three kinds of resources of RFC 3779, and public paths for the types of the crates that it depends on.
//!
//! [`resources::addr`], [`resources::asn`] and [`repository::resources`] have each type where a user of the Rust crate
//! `rpki` looks for it.
//!
//! Read a set from three lists, as in the program `rows_claims`:
//!
//! ```rust
//! let (asn, addresses) = cut_at(lists, ';');
//! let (ipv4, ipv6) = cut_at(addresses, ';');
//! ResourceSet::from_strs(alloc, asn, ipv4, ipv6)
//! ```
#![tactic(auto)]

mod claims;
mod diff;
mod error;
pub mod laws;
pub mod repository;
pub mod resources;
mod set;
mod texts;

pub use diff::ResourceDiff;
pub use error::{FromStrError, InheritError};
pub use set::ResourceSet;

/// The error type of calls that allocate, and a call that maps its refusals.
pub use rpki_base::memory::{OrMemory, refused_as};
