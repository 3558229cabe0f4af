//! Chains of blocks of whole numbers: the ascending lists of the runs of a set. The crate also has the passes over one
//! or two such lists.
//!
//! Blocks in any order become the chain of their runs, here of 1 to 4 and 23 to 48. This example is in
//! `test_chains::chains`:
//!
//! ```rust
//! OwnedChain::from_blocks(alloc, &[block(23, 48), block(1, 2), block(3, 4)])
//! ```
#![tactic(auto)]

mod ascending;
mod binary_search;
mod build;
pub mod chain;
pub mod counted;
mod difference;
mod intersection;
mod membership;
mod overhang;
pub mod owned;
pub mod reads;
pub mod shared;
mod tally;
mod trim;
mod union;

pub use difference::difference_counted;
pub use membership::contains_item_counted;
pub use trim::trim_counted;
pub use union::union_counted;

/// Re-exports blocks, whose trait is defined in a crate of its own.
pub use rpki_block::block;
