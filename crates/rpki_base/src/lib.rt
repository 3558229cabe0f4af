//! Basic values that other crates share.
//!
//! - [`asn`] has AS numbers, and [`small_set`] has small sets of them.
//! - Other crates provide addresses, number texts, lists of texts, and the error of a call that may run out of
//!   memory. This crate re-exports them.
//!
//! [`Asn::add`] requires that the sum is an AS number. This example, in `example_calls::conditions::behind`, checks it:
//!
//! ```rust
//! if asn == Asn::MAX {
//!     return None;
//! }
//! Some(asn.add(1))
//! ```
#![tactic(auto)]

pub mod asn;
pub mod laws;
pub mod small_set;

pub use addr::{AddrParseError, IpAddr, Ipv4Addr, Ipv6Addr};
pub use asn::{Asn, ParseAsnError};
pub use memory::{OrMemory, refused_as};
pub use number::ParseIntError;
pub use small_set::SmallAsnSet;

/// Texts, re-exported from the crate `rpki_text`.
pub use rpki_text::{list, memory, number};

/// Addresses, re-exported from the crate `rpki_addr`.
pub use rpki_addr::addr;
