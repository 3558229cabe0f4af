//! VRPs, routes and tables as callers in C pass and receive them (RFC 6811, 2; RFC 8210, 5.6).
//!
//! The exports of `pigyelund_c` on route origins call this crate. They report its results, as
//! `pigyelund_c::exports::tables` does:
//!
//! ```rust
//! match made_table(alloc, vrps) {
//!     Ok(parts) => {
//!         *table = TableOutput::of(parts);
//!         status::OK
//!     }
//! ```
#![tactic(auto)]

pub mod change;
pub mod family;
pub mod file;
pub mod file_fault;
mod interleaved;
pub mod lines;
pub mod origin;
pub mod route;
pub mod route_changes;
pub mod several_tables;
pub mod slurm;
pub mod status;
pub mod table;
pub mod table_changes;
pub mod table_handle;
pub mod text;
pub mod unexpired;
pub mod validate;
pub mod validities;
pub mod write;
