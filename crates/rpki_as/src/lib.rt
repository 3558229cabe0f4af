//! Sets of AS numbers, AS resources, and what remains of a set after claims (RFC 3779, 3), with their texts and their
//! DER.
//!
//! This example, in `example_calls::builders::listed_in_the_end`, builds resources block by block:
//!
//! ```rust
//! let mut builder: AsResourcesBuilder<A> = AsResourcesBuilder::new(alloc);
//! builder.inherit();
//! builder.blocks(|blocks| blocks.push(block))?;
//! builder.finalize()
//! ```
#![tactic(auto)]

pub mod blocks;
pub mod builder;
pub mod der;
pub mod error;
pub mod iter;
pub mod laws;
pub mod resources;
pub mod verify;

pub use blocks::AsBlocks;
pub use builder::{AsBlocksBuilder, AsResourcesBuilder};
pub use error::InheritedAsResources;
pub use iter::AsnIter;
pub use resources::AsResources;
pub use verify::{AsStep, OverclaimedAsResources};

/// Re-exports the blocks of AS numbers, which are defined in a crate of their own.
pub use rpki_as_block::{AsBlock, AsBlockIter, AsRange, FromStrError, block, range};
