//! Types of `repository::resources::ipres` by each of their names.
use crate::paths::Names;
use rpki_resources::repository::resources::{self, ipres as there};
use std::marker::PhantomData;

pub const ADDR: Names<resources::Addr, 2> = [
    PhantomData::<there::Addr>,
    PhantomData::<rpki_ip::addr::Addr>,
];

pub const ADDRESS_FAMILY: Names<resources::AddressFamily, 2> = [
    PhantomData::<there::AddressFamily>,
    PhantomData::<rpki_ip::family::AddressFamily>,
];

pub const PREFIX: Names<resources::Prefix, 2> = [
    PhantomData::<there::Prefix>,
    PhantomData::<rpki_ip::prefix::Prefix>,
];

pub const ADDRESS_RANGE: Names<resources::AddressRange, 2> = [
    PhantomData::<there::AddressRange>,
    PhantomData::<rpki_ip::range::AddressRange>,
];

pub const V4_PREFIXES: Names<resources::V4Prefixes, 2> = [
    PhantomData::<there::V4Prefixes>,
    PhantomData::<rpki_ip::cover::V4Prefixes>,
];

pub const V6_PREFIXES: Names<resources::V6Prefixes, 2> = [
    PhantomData::<there::V6Prefixes>,
    PhantomData::<rpki_ip::cover::V6Prefixes>,
];

pub const DECODE_PREFIX_ERROR: Names<resources::DecodePrefixError, 2> = [
    PhantomData::<there::DecodePrefixError>,
    PhantomData::<rpki_ip::der::DecodePrefixError>,
];

pub const DECODE_FAMILY_ERROR: Names<resources::DecodeFamilyError, 2> = [
    PhantomData::<there::DecodeFamilyError>,
    PhantomData::<rpki_ip::der::DecodeFamilyError>,
];

pub const FROM_STR_ERROR: Names<rpki_ip::FromStrError, 2> = [
    PhantomData::<there::FromStrError>,
    PhantomData::<rpki_ip::error::FromStrError>,
];

pub const IP_BLOCK: Names<resources::IpBlock, 3> = [
    PhantomData::<there::IpBlock>,
    PhantomData::<rpki_ip_block::block::IpBlock>,
    PhantomData::<rpki_ipres::IpBlock>,
];

pub const DISPLAY_V4_BLOCK: Names<resources::DisplayV4Block, 3> = [
    PhantomData::<there::DisplayV4Block>,
    PhantomData::<rpki_ip_block::text::DisplayV4Block>,
    PhantomData::<rpki_ipres::DisplayV4Block>,
];

pub const DISPLAY_V6_BLOCK: Names<resources::DisplayV6Block, 3> = [
    PhantomData::<there::DisplayV6Block>,
    PhantomData::<rpki_ip_block::text::DisplayV6Block>,
    PhantomData::<rpki_ipres::DisplayV6Block>,
];

pub const IP_BLOCKS: Names<resources::IpBlocks, 3> = [
    PhantomData::<there::IpBlocks>,
    PhantomData::<rpki_ipres::blocks::IpBlocks>,
    PhantomData::<rpki_ipres::IpBlocks>,
];

pub const IP_BLOCKS_BUILDER: Names<resources::IpBlocksBuilder, 3> = [
    PhantomData::<there::IpBlocksBuilder>,
    PhantomData::<rpki_ipres::builder::IpBlocksBuilder>,
    PhantomData::<rpki_ipres::IpBlocksBuilder>,
];

pub const IP_RESOURCES: Names<resources::IpResources, 3> = [
    PhantomData::<there::IpResources>,
    PhantomData::<rpki_ipres::resources::IpResources>,
    PhantomData::<rpki_ipres::IpResources>,
];

pub const IP_RESOURCES_BUILDER: Names<resources::IpResourcesBuilder, 3> = [
    PhantomData::<there::IpResourcesBuilder>,
    PhantomData::<rpki_ipres::builder::IpResourcesBuilder>,
    PhantomData::<rpki_ipres::IpResourcesBuilder>,
];

pub const INHERITED_IP_RESOURCES: Names<resources::InheritedIpResources, 3> = [
    PhantomData::<there::InheritedIpResources>,
    PhantomData::<rpki_ipres::resources::InheritedIpResources>,
    PhantomData::<rpki_ipres::InheritedIpResources>,
];

pub const IP_BLOCKS_FOR_FAMILY: Names<resources::IpBlocksForFamily<'static>, 3> = [
    PhantomData::<there::IpBlocksForFamily<'static>>,
    PhantomData::<rpki_ipres::family::IpBlocksForFamily<'static>>,
    PhantomData::<rpki_ipres::IpBlocksForFamily<'static>>,
];

pub const OVERCLAIMED_IP_RESOURCES: Names<resources::OverclaimedIpResources, 3> = [
    PhantomData::<there::OverclaimedIpResources>,
    PhantomData::<rpki_ipres::OverclaimedIpResources>,
    PhantomData::<rpki_ipres::overclaim::OverclaimedIpResources>,
];

pub const OVERCLAIMED_IPV4_RESOURCES: Names<resources::OverclaimedIpv4Resources, 3> = [
    PhantomData::<there::OverclaimedIpv4Resources>,
    PhantomData::<rpki_ipres::OverclaimedIpv4Resources>,
    PhantomData::<rpki_ipres::overclaim::OverclaimedIpv4Resources>,
];

pub const OVERCLAIMED_IPV6_RESOURCES: Names<resources::OverclaimedIpv6Resources, 3> = [
    PhantomData::<there::OverclaimedIpv6Resources>,
    PhantomData::<rpki_ipres::OverclaimedIpv6Resources>,
    PhantomData::<rpki_ipres::overclaim::OverclaimedIpv6Resources>,
];

pub const IP_STEP: Names<resources::IpStep, 3> = [
    PhantomData::<there::IpStep>,
    PhantomData::<rpki_ipres::IpStep>,
    PhantomData::<rpki_ipres::verify::IpStep>,
];

pub const IPV4_BLOCK: Names<resources::Ipv4Block, 3> = [
    PhantomData::<there::Ipv4Block>,
    PhantomData::<rpki_family::v4::Ipv4Block>,
    PhantomData::<rpki_family::Ipv4Block>,
];

pub const IPV6_BLOCK: Names<resources::Ipv6Block, 3> = [
    PhantomData::<there::Ipv6Block>,
    PhantomData::<rpki_family::v6::Ipv6Block>,
    PhantomData::<rpki_family::Ipv6Block>,
];

pub const IPV4_BLOCKS: Names<resources::Ipv4Blocks, 3> = [
    PhantomData::<there::Ipv4Blocks>,
    PhantomData::<rpki_family::v4::Ipv4Blocks>,
    PhantomData::<rpki_family::Ipv4Blocks>,
];

pub const IPV6_BLOCKS: Names<resources::Ipv6Blocks, 3> = [
    PhantomData::<there::Ipv6Blocks>,
    PhantomData::<rpki_family::v6::Ipv6Blocks>,
    PhantomData::<rpki_family::Ipv6Blocks>,
];

pub const V4_SET_PREFIXES: Names<resources::V4SetPrefixes<'static>, 2> = [
    PhantomData::<there::V4SetPrefixes<'static>>,
    PhantomData::<rpki_family::prefixes::V4SetPrefixes<'static>>,
];

pub const V6_SET_PREFIXES: Names<resources::V6SetPrefixes<'static>, 2> = [
    PhantomData::<there::V6SetPrefixes<'static>>,
    PhantomData::<rpki_family::prefixes::V6SetPrefixes<'static>>,
];

pub const BLOCK_ITER: Names<rpki_family::BlockIter<'static, rpki_family::Ipv4Block>, 2> = [
    PhantomData::<there::BlockIter<'static, there::Ipv4Block>>,
    PhantomData::<rpki_family::iter::BlockIter<'static, rpki_family::Ipv4Block>>,
];

/// The family of an iterator's type. The compiler refuses two implementations for one type.
pub trait CoversOf {
    const FAMILY: resources::AddressFamily;
}

impl CoversOf for resources::V4SetPrefixes<'_> {
    const FAMILY: resources::AddressFamily = resources::AddressFamily::Ipv4;
}

impl CoversOf for resources::V6SetPrefixes<'_> {
    const FAMILY: resources::AddressFamily = resources::AddressFamily::Ipv6;
}
