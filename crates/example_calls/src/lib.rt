//! Proved examples of callers, each a short function with a contract of its own.
//!
//! The heads of the libraries and `docs/CALLING.md` show them. Their proofs use only the contracts of public calls.
#![tactic(auto)]

pub mod builders;
pub mod cache;
pub mod conditions;
pub mod errors;
pub mod filters;
pub mod routes;
pub mod sets;
