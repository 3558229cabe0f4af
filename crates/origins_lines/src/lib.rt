//! The answers and the runs of the program `origins`.
//!
//! The crate validates routes by VRPs (RFC 6811, 2), lists the VRPs of a file, and compares the VRPs of two files. It
//! reads a VRP file whole, and answers routes as it reads them.
//!
//! [`Routes`] answers one line. Pass it to the crate `lines_engine` to answer all lines of an input.
#![tactic(auto)]

pub mod answers;
pub mod begun;
pub mod check;
pub mod error;
pub mod explanation;
pub mod file;
pub mod inputs;
mod json_answers;
pub mod laws;
pub mod lines;
pub mod outcome;
pub mod routes;
pub mod tables;
pub mod text;

pub use answers::Routes;
pub use begun::{AskedRoute, BegunRoute};
pub use explanation::Reason;
pub use outcome::{Outcome, asked_asn, outcome_of};
pub use roa_routes::{Route, RouteFault, read_route};
