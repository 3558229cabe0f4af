//! Sets of IP addresses and resources (RFC 3779, 2), with their texts and their DER.
//!
//! This code of the program `example_holdings` encodes the resources of both families:
//!
//! ```rust
//! let mut octets = Vec::new(alloc);
//! IpResources::encode_families(v4, v6, &mut octets)?;
//! Ok(Some(octets))
//! ```
#![tactic(auto)]

pub mod blocks;
pub mod builder;
pub mod der;
pub mod family;
pub mod laws;
pub mod overclaim;
pub mod prefixes;
pub mod resources;
pub mod verify;

pub use block::IpBlock;
pub use blocks::IpBlocks;
pub use builder::{IpBlocksBuilder, IpResourcesBuilder};
pub use family::IpBlocksForFamily;
pub use overclaim::{
    OverclaimedFamilyResources, OverclaimedForFamily, OverclaimedIpResources,
    OverclaimedIpv4Resources, OverclaimedIpv6Resources,
};
pub use prefixes::SetPrefixes;
pub use resources::{InheritedIpResources, IpResources};
pub use text::{DisplayV4Block, DisplayV6Block};
pub use verify::IpStep;

/// Blocks of addresses, re-exported from `rpki_ip_block`.
pub use rpki_ip_block::{block, list, text};
