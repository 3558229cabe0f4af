//! Reads files of VRPs (validated ROA payloads) in JSON or CSV, as rpki-client, FORT and Routinator write them.
//!
//! Call [`read_vrps`], or [`expiry::read_unexpired`] to leave out the expired VRPs. Make a table of the result to look
//! up the validity of routes.
#![tactic(auto)]

mod columns;
mod csv;
mod entry;
pub mod expiry;
pub mod fault;
mod file;
mod found;
pub mod front;
mod json_file;
pub mod mark;
pub mod member;
mod roas;
mod row;
mod usual_row;
mod vrp;

pub use fault::{FileFault, ItemFault, MemberFault, VrpFault};
pub use file::read_vrps;
pub use member::Member;
pub use vrp::Vrp;
