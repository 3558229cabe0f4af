//! IPv4 and IPv6 addresses and their texts (RFC 791, RFC 4291, RFC 5952).
//!
//! An address is made from its bits. This example is in `test_values::addresses`:
//!
//! ```rust
//! let v4 = Ipv4Addr::from_bits(0x0a01_0203);
//! ```
#![tactic(auto)]

pub mod addr;
pub mod laws;

pub use addr::{AddrParseError, IpAddr, Ipv4Addr, Ipv6Addr};
