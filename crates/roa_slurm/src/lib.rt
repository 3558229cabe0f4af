//! Reads SLURM files (RFC 8416), and applies their filters and assertions to VRPs (validated ROA payloads).
//!
//! Call [`read_slurm`], and then [`Slurm::apply`] with the VRPs of a validator.
#![tactic(auto)]

mod assertion;
mod bgpsec;
pub mod fault;
mod field;
pub mod file;
pub mod filter;
mod item;
pub mod member;
pub mod object;
pub mod slurm;

pub use fault::{SlurmFault, SlurmItemFault};
pub use file::read_slurm;
pub use filter::PrefixFilter;
pub use member::SlurmMember;
pub use slurm::Slurm;
