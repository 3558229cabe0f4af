//! Sets of numbers of any kind, resources that list them, and their DER (RFC 3779, 2 and 3). The crate also computes
//! what remains of a set after claims and paths of claims. It re-exports the blocks and chains of `rpki_chain_core`.
//!
//! A kind of number must provide only a type that implements [`block::Block`]. The contracts of this crate are proved
//! once, for every such kind.
//!
//! A claim is checked against the set of its issuer. This example is in `rpki_extensions::issued`:
//!
//! ```rust
//! let asn = refused_as(
//!     issuer.asn().verify_issued(alloc, &claims.asn, mode),
//!     |excess| VerifyError::Asn(excess),
//! )?;
//! ```
#![tactic(auto)]

pub mod builder;
pub mod choice;
pub mod der;
pub mod laws;
pub mod path;
pub mod resources;
pub mod set;
mod verify;

pub use block::Block;
pub use builder::BlockSetBuilder;
pub use chain::Chain;
pub use choice::{InheritedResources, Listed, ResourcesChoice};
pub use counted::Counted;
pub use owned::OwnedChain;
pub use path::{Overclaim, PathRefusal, Step};
pub use reads::Reads;
pub use resources::ResourcesBuilder;
pub use set::BlockSet;
pub use shared::SharedChain;

/// Re-exports blocks and chains, which are defined in a crate of their own.
pub use rpki_chain_core::{block, chain, counted, owned, reads, shared};

/// Re-exports the calls on chains whose reads are counted.
pub use rpki_chain_core::{contains_item_counted, difference_counted, trim_counted, union_counted};
