//! Blocks of AS numbers (RFC 3779, 3.2.3.5 to 3.2.3.8): their bounds and numbers, their texts and their DER.
//!
//! This example, in `test_values::as_blocks`, reads a block from a text and counts its numbers:
//!
//! ```rust
//! match AsBlock::from_str(text) {
//!     Ok(block) => Some(block.asn_count()),
//!     Err(_) => None,
//! }
//! ```
#![tactic(auto)]

mod at_index;
pub mod block;
pub mod der;
pub mod error;
pub mod iter;
pub mod laws;
pub mod list;
pub mod range;
mod text;

pub use block::AsBlock;
pub use error::FromStrError;
pub use iter::AsBlockIter;
pub use range::AsRange;
