//! Types of `resources::addr` by each of their names.
use crate::paths::Names;
use rpki_resources::resources::addr as there;
use std::marker::PhantomData;

pub const PREFIX: Names<rpki_prefix::Prefix, 2> = [
    PhantomData::<there::Prefix>,
    PhantomData::<rpki_prefix::prefix::Prefix>,
];

pub const PREFIX_ERROR: Names<rpki_prefix::PrefixError, 2> = [
    PhantomData::<there::PrefixError>,
    PhantomData::<rpki_prefix::error::PrefixError>,
];

pub const PARSE_PREFIX_ERROR: Names<rpki_prefix::ParsePrefixError, 2> = [
    PhantomData::<there::ParsePrefixError>,
    PhantomData::<rpki_prefix::error::ParsePrefixError>,
];

pub const MAX_LEN_PREFIX: Names<rpki_prefix::MaxLenPrefix, 2> = [
    PhantomData::<there::MaxLenPrefix>,
    PhantomData::<rpki_prefix::max_len::MaxLenPrefix>,
];

pub const MAX_LEN_ERROR: Names<rpki_prefix::MaxLenError, 2> = [
    PhantomData::<there::MaxLenError>,
    PhantomData::<rpki_prefix::error::MaxLenError>,
];

pub const PARSE_MAX_LEN_PREFIX_ERROR: Names<rpki_prefix::ParseMaxLenPrefixError, 2> = [
    PhantomData::<there::ParseMaxLenPrefixError>,
    PhantomData::<rpki_prefix::error::ParseMaxLenPrefixError>,
];

pub const IPV4_ADDR: Names<rpki_base::Ipv4Addr, 2> = [
    PhantomData::<there::Ipv4Addr>,
    PhantomData::<rpki_addr::addr::Ipv4Addr>,
];

pub const IPV6_ADDR: Names<rpki_base::Ipv6Addr, 2> = [
    PhantomData::<there::Ipv6Addr>,
    PhantomData::<rpki_addr::addr::Ipv6Addr>,
];

pub const IP_ADDR: Names<rpki_base::IpAddr, 2> = [
    PhantomData::<there::IpAddr>,
    PhantomData::<rpki_addr::addr::IpAddr>,
];

pub const ADDR_PARSE_ERROR: Names<rpki_base::AddrParseError, 2> = [
    PhantomData::<there::AddrParseError>,
    PhantomData::<rpki_addr::addr::AddrParseError>,
];

pub const PARSE_INT_ERROR: Names<rpki_base::ParseIntError, 2> = [
    PhantomData::<there::ParseIntError>,
    PhantomData::<rpki_text::number::ParseIntError>,
];
