//! Sets and resources of addresses in DER (RFC 3779, 2.2.3).
mod blocks;
pub mod laws;
mod resources;
