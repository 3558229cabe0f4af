//! Addresses of both families: prefixes, ranges, blocks, sets, claims, and the check along paths.

pub use rpki_family::iter::BlockIter;
pub use rpki_family::prefixes::{V4SetPrefixes, V6SetPrefixes};
pub use rpki_family::v4::{Ipv4Block, Ipv4Blocks};
pub use rpki_family::v6::{Ipv6Block, Ipv6Blocks};
pub use rpki_ip::addr::Addr;
pub use rpki_ip::cover::{V4Prefixes, V6Prefixes};
pub use rpki_ip::der::{DecodeFamilyError, DecodePrefixError};
pub use rpki_ip::error::FromStrError;
pub use rpki_ip::family::AddressFamily;
pub use rpki_ip::prefix::Prefix;
pub use rpki_ip::range::AddressRange;
pub use rpki_ipres::block::IpBlock;
pub use rpki_ipres::blocks::IpBlocks;
pub use rpki_ipres::builder::{IpBlocksBuilder, IpResourcesBuilder};
pub use rpki_ipres::family::IpBlocksForFamily;
pub use rpki_ipres::overclaim::{
    OverclaimedIpResources, OverclaimedIpv4Resources, OverclaimedIpv6Resources,
};
pub use rpki_ipres::resources::{InheritedIpResources, IpResources};
pub use rpki_ipres::text::{DisplayV4Block, DisplayV6Block};
pub use rpki_ipres::verify::IpStep;
