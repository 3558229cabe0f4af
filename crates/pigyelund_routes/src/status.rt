//! The statuses of all calls from C. A released number never changes its meaning.
//!
//! `pigyelund_c` has no other statuses. `foreign/pigyelund.h` defines each name with the prefix `PIGY_`. A status is a
//! kind, or a kind with a number below 256 that is added. Each kind is one bit that no other kind has.

/// Success.
pub const OK: u32 = 0;
/// A buffer is too small. Each length is the required one.
pub const TOO_SMALL: u32 = 256;
/// Out of memory: an allocation failed, an array would have 2^63 octets or more, or a table 2^32 VRPs or more.
pub const MEMORY: u32 = 512;
/// An argument is invalid. The next nine statuses have a number that is added, from 1 to 9.
pub const BAD_ARGUMENT: u32 = 1024;
/// The encoding is unknown.
pub const BAD_ENCODING: u32 = 1025;
/// The mode is unknown.
pub const BAD_MODE: u32 = 1026;
/// The number of the extensions that are present is above 3.
pub const BAD_PRESENT: u32 = 1027;
/// The family is unknown.
pub const BAD_FAMILY: u32 = 1028;
/// The kind of resources is unknown.
pub const BAD_KIND: u32 = 1029;
/// An address and a length are not a prefix.
pub const BAD_PREFIX: u32 = 1030;
/// The maximum length is invalid for its prefix: it is below the prefix length, or above the family's number of bits.
pub const BAD_MAX_LEN: u32 = 1031;
/// The range of a certificate's extension does not lie in the run of octets.
pub const OUTSIDE: u32 = 1032;
/// A handle is null.
pub const NO_HANDLE: u32 = 1033;
/// The AS identifiers are invalid. The number of the first error is added.
pub const BAD_AS: u32 = 2048;
/// The IP address blocks are invalid. The number of the first error is added.
pub const BAD_IP: u32 = 4096;
/// A set has "inherit" where it has to list its resources.
pub const INHERITED: u32 = 8192;
/// The certificate has neither extension.
pub const ABSENT: u32 = 16384;
/// Overclaimed IPv4 addresses: the certificate claims more than the issuer has.
pub const OVERCLAIM_V4: u32 = 32772;
/// Overclaimed AS numbers: the certificate claims more than the issuer has.
pub const OVERCLAIM_AS: u32 = 32773;
/// Overclaimed IPv6 addresses: the certificate claims more than the issuer has.
pub const OVERCLAIM_V6: u32 = 32774;
/// A withdrawn VRP is not in the table, or is withdrawn twice (RFC 8210, 12: error 6).
pub const UNKNOWN_WITHDRAWAL: u32 = 65542;
/// An announced VRP is in the table and not withdrawn, or is announced twice (RFC 8210, 12: error 7).
pub const DUPLICATE_ANNOUNCEMENT: u32 = 65543;
/// A line of a VRP file, or the text of a VRP, is invalid. The number of its first fault is added.
pub const BAD_LINE: u32 = 131072;
/// An item of a VRP file is invalid. The number of its first fault is added.
pub const BAD_ITEM: u32 = 262144;
/// A VRP file is invalid as a whole. The number of its first fault is added.
pub const BAD_FILE: u32 = 524288;
/// The text of a set is invalid. The number of the first fault is added.
pub const BAD_TEXT: u32 = 1048576;
/// A line for `respath` is invalid.
pub const BAD_QUERY: u32 = 2097152;
/// A SLURM file is invalid, except for its items. The number of the first fault is added.
pub const BAD_SLURM: u32 = 4194304;
/// A line with a route, or the text of a route, is invalid. The number of its first fault is added.
pub const BAD_ROUTE: u32 = 8388608;
/// Added to a status if the error is in the second set, a certificate, a route or a withdrawn VRP.
pub const SECOND: u32 = 16777216;
/// An item of a SLURM file is invalid. The number of its first fault is added, and 64 times the number of its list.
pub const BAD_SLURM_ITEM: u32 = 33554432;
