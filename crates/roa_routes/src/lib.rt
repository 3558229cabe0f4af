//! Reads the routes of lines, and writes the texts of VRPs and routes.
//!
//! [`read_route`] reads a line with a prefix and an AS number, or a line of `bgpdump -m`. [`read_vrp_text`] reads the
//! text of a VRP. The module [`buffer`] writes texts into buffers of the caller, without an allocation.
#![tactic(auto)]

pub mod buffer;
pub mod fault;
pub mod route;
mod usual;
pub mod vrp;

pub use fault::RouteFault;
pub use route::{Route, read_route, read_route_text};
pub use vrp::read_vrp_text;
