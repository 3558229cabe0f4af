//! Prefixes of IPv4 and IPv6 addresses, with or without a maximum length.

pub use rpki_prefix::error::{MaxLenError, ParseMaxLenPrefixError, ParsePrefixError, PrefixError};
pub use rpki_prefix::max_len::MaxLenPrefix;
pub use rpki_prefix::prefix::Prefix;

/// The addresses, and the errors of reading them. In Rust they are types of `std`.
pub use rpki_base::{AddrParseError, IpAddr, Ipv4Addr, Ipv6Addr, ParseIntError};
