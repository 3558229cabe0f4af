//! Blocks of IP addresses (RFC 3779, 2.2.3.7) and lists of blocks, with their texts and their DER.
//!
//! A block made from bounds is a prefix if it can be one, as in `test_values::ip_blocks`:
//!
//! ```rust
//! let prefix = IpBlock::from_pair((Addr::from_bits(4), Addr::from_bits(7)));
//! same(&rt, len_of(&prefix), Some(126));
//! ```
#![tactic(auto)]

pub mod block;
pub mod der;
mod front;
pub mod list;
pub mod prefixes;
pub mod text;

pub use block::IpBlock;
pub use prefixes::SetPrefixes;
pub use text::{DisplayV4Block, DisplayV6Block};
