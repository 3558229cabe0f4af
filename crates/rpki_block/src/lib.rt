//! The trait that each kind of block implements: a range of items, as of AS numbers or of addresses (RFC 3779, 2 and
//! 3).
//!
//! AS numbers are such a kind. An item is a number, from the first to the last. This example is in
//! `rpki_as_block::block`:
//!
//! ```rust
//! type Item = Asn;
//!
//! ghost first = { 0 };
//!
//! ghost last = { 4294967295 };
//! ```
#![tactic(auto)]

pub mod block;

pub use block::Block;
