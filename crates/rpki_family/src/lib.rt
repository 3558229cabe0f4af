//! Blocks and sets of addresses of one family, with their texts.
//!
//! Join sets as in `example_calls::sets::union_of_three`:
//!
//! ```rust
//! let both = one.union(alloc, two)?;
//! both.union(alloc, three)
//! ```
#![tactic(auto)]

pub mod block;
pub mod blocks;
pub mod family;
pub mod iter;
pub mod prefixes;
pub mod v4;
pub mod v6;
pub mod verify;

pub use iter::BlockIter;
pub use prefixes::{V4SetPrefixes, V6SetPrefixes};
pub use v4::{Ipv4Block, Ipv4Blocks};
pub use v6::{Ipv6Block, Ipv6Blocks};
