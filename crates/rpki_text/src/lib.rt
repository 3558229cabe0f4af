//! Basic calls on texts: lines, number texts, lists of texts, and the error of a call that may run out of memory.
//!
//! The definitions also state what a reader of a text returns. [`OrMemory`] separates a refusal from an out-of-memory
//! error. This example is in `example_calls::errors::fault_of`:
//!
//! ```rust
//! match AsBlocks::from_str(alloc, list) {
//!     Ok(_) => Ok(None),
//!     Err(OrMemory::Refused(fault)) => Ok(Some(fault)),
//!     Err(OrMemory::Memory(error)) => Err(error),
//! }
//! ```
#![tactic(auto)]

pub mod cut;
pub mod hexadecimal;
pub mod line;
pub mod list;
pub mod memory;
pub mod number;

pub use memory::{OrMemory, refused_as};
pub use number::ParseIntError;
