//! The contents of certificates and signed objects.

pub mod resources;
