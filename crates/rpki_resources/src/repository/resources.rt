//! The resources of RFC 3779: blocks, sets, claims, and sets of all three kinds.
//!
//! Three errors are called `FromStrError`. They are only in [`asres`], [`ipres`] and [`set`].

pub mod asres;
pub mod chain;
pub mod choice;
pub mod ipres;
pub mod set;

pub use asres::{
    AsBlock, AsBlockIter, AsBlocks, AsBlocksBuilder, AsRange, AsResources, AsResourcesBuilder,
    AsStep, AsnIter, InheritedAsResources, OverclaimedAsResources,
};
pub use choice::{Overclaim, PathRefusal, ResourcesChoice};
pub use ipres::{
    Addr, AddressFamily, AddressRange, DecodeFamilyError, DecodePrefixError, DisplayV4Block,
    DisplayV6Block, InheritedIpResources, IpBlock, IpBlocks, IpBlocksBuilder, IpBlocksForFamily,
    IpResources, IpResourcesBuilder, IpStep, Ipv4Block, Ipv4Blocks, Ipv6Block, Ipv6Blocks,
    OverclaimedIpResources, OverclaimedIpv4Resources, OverclaimedIpv6Resources, Prefix, V4Prefixes,
    V4SetPrefixes, V6Prefixes, V6SetPrefixes,
};
pub use rpki_base::asn::Asn;
pub use set::{InheritError, ResourceDiff, ResourceSet};
