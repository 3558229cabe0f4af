//! The theorem as clauses: what the public calls of the libraries do, in the words of their definitions.
//!
//! Each public function is a sentence of the theorem. Its body makes the public calls that the sentence is about, and
//! returns their results. Its clauses say what the results are. They cite only definitions of the crates below.
//! `docs/AUDIT.md` has the theorem, an order in which to read it, and what is not in this crate.
//!
//! This sentence is in `routes`:
//!
//! ```rust
//! let listed = origin(route, asn, vrps);
//! match OriginTable::new(alloc, vrps) {
//!     Ok(table) => {
//!         let found = table.origin(route, asn);
//!         (listed, Ok((table, found)))
//!     }
//!     Err(error) => (listed, Err(error)),
//! }
//! ```
#![tactic(auto)]

pub mod addresses;
pub mod certificates;
pub mod claims;
pub mod numbers;
#[cfg(test)]
mod premises;
pub mod reads;
pub mod resources;
pub mod routes;
pub mod runs;
pub mod sets;
