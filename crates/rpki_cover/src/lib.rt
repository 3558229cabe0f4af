//! Shortest covers of ranges of numbers by prefixes.
//!
//! The iterator over the prefixes of an address set uses this crate. This example is in
//! `example_calls::filters::v4_filter`:
//!
//! ```rust
//! for prefix in set.prefixes() {
//!     list.push(prefix)?;
//! }
//! ```
#![tactic(auto)]

pub mod cover;
pub mod laws;
