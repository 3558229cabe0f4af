//! The address families as types, re-exported from a crate below this one.
pub use rpki_der::family::{Family, Ipv4Family, Ipv6Family};
