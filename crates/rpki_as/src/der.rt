//! Sets of AS numbers and AS resources in DER (RFC 3779, 3.2.3).
mod blocks;
pub mod laws;
mod resources;
