//! Blocks of AS numbers in DER (RFC 3779, 3.2.3.5 to 3.2.3.9).
mod block;
mod usual;

pub use block::AsBlockReader;
