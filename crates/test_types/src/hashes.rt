// Equal values have equal hashes, at each type.
use crate::checks::{holds, same};
use rpki_base::addr::{IpAddr, Ipv4Addr, Ipv6Addr};
use rpki_base::asn::Asn;
use rpki_ip::addr::Addr;
use rpki_ip::prefix::Prefix;
use rpki_ip::range::AddressRange;
use rpki_prefix::max_len::MaxLenPrefix;
use rpki_prefix::prefix::Prefix as FamilyPrefix;
use std::hash::Hash;
use std::str::FromStr;
use test_support::hash_of;

#[test]
fn numbers_and_addresses(rt: HostRuntime) {
    same(&rt, hash_of(&Asn::from_u32(255)), hash_of(&Asn::from(255)));
    let low = Ipv4Addr::from_bits(0x0a000000);
    same(&rt, hash_of(&low), hash_of(&Ipv4Addr::from(0x0a000000)));
    same(&rt, hash_of(&IpAddr::V4(low)), hash_of(&IpAddr::from(low)));
    same(
        &rt,
        hash_of(&Ipv6Addr::from_bits(1 << 127)),
        hash_of(&Ipv6Addr::from(1 << 127)),
    );
    same(
        &rt,
        hash_of(&Addr::from_v4(low)),
        hash_of(&Addr::from_bits(10 << 120)),
    );
}

/// Returns whether both are present, equal, and have equal hashes.
fn are_same<T: Hash + PartialEq + Drop>(one: Option<T>, other: Option<T>) -> bool {
    match (one, other) {
        (Some(one), Some(other)) => one == other && hash_of(&one) == hash_of(&other),
        _ => false,
    }
}

#[test]
fn prefixes_and_ranges(rt: HostRuntime) {
    let prefix = Prefix::new(Addr::from_bits(10 << 120), 8);
    let read = Prefix::from_str("10.0.0.1/8").ok();
    holds(&rt, are_same(read, Some(prefix)));
    let range = AddressRange::from_str("10.0.0.0-10.255.255.255").ok();
    holds(&rt, are_same(range, Some(AddressRange::from(prefix))));
}

/// Returns the prefix of a text with no maximum length.
fn least(text: &str) -> Option<MaxLenPrefix> {
    match FamilyPrefix::from_str(text) {
        Ok(prefix) => Some(MaxLenPrefix::from(prefix)),
        Err(_) => None,
    }
}

#[test]
fn prefixes_of_one_family(rt: HostRuntime) {
    let prefix = FamilyPrefix::from_str("10.0.0.0/8").ok();
    let relaxed = FamilyPrefix::from_str_relaxed("10.1.0.0/8").ok();
    holds(&rt, are_same(prefix, relaxed));
    let read = MaxLenPrefix::from_str("10.0.0.0/8").ok();
    holds(&rt, are_same(read, least("10.0.0.0/8")));
}
