// The text of each error, and errors that are made of others.
use crate::checks::{holds, same};
use rpki_as::block::AsBlock;
use rpki_as::blocks::AsBlocks;
use rpki_as::error::{FromStrError as AsFromStrError, InheritedAsResources};
use rpki_as::resources::AsResources;
use rpki_as::verify::AsStep;
use rpki_base::addr::AddrParseError;
use rpki_base::asn::{Asn, ParseAsnError};
use rpki_base::memory::OrMemory;
use rpki_base::number::ParseIntError;
use rpki_chain::path::{Overclaim, PathRefusal};
use rpki_ip::der::{DecodeFamilyError, DecodePrefixError};
use rpki_ip::error::FromStrError;
use rpki_ipres::blocks::IpBlocks;
use rpki_ipres::overclaim::OverclaimedIpResources;
use rpki_ipres::resources::{InheritedIpResources, IpResources};
use rpki_prefix::error::{MaxLenError, ParseMaxLenPrefixError, ParsePrefixError, PrefixError};
use rpki_resources::repository::resources::InheritError;
use rpki_resources::repository::resources::set::FromStrError as SetFromStrError;
use std::alloc::{AllocError, Global};
use std::error::Error;
use test_support::{all_print, prints};

const ADDRESSES: [(AddrParseError, &str); 3] = [
    (AddrParseError::Ipv4, "invalid IPv4 address syntax"),
    (AddrParseError::Ipv6, "invalid IPv6 address syntax"),
    (AddrParseError::Ip, "invalid IP address syntax"),
];

const NUMBERS: [(ParseIntError, &str); 3] = [
    (
        ParseIntError::Empty,
        "cannot parse integer from empty string",
    ),
    (ParseIntError::InvalidDigit, "invalid digit found in string"),
    (
        ParseIntError::PosOverflow,
        "number too large to fit in target type",
    ),
];

const AS_NUMBERS: [(ParseAsnError, &str); 1] = [(ParseAsnError, "invalid AS number")];

const AS_BLOCKS: [(AsFromStrError, &str); 3] = [
    (
        AsFromStrError::BadAsn,
        "Bad AS number. Expected format: AS#",
    ),
    (
        AsFromStrError::BadRange,
        "Bad AS range. Expected format: AS#-AS#",
    ),
    (AsFromStrError::BadBlocks, "Cannot parse blocks."),
];

#[test]
fn faults_of_numbers_and_addresses(rt: HostRuntime) {
    holds(&rt, all_print(rt.alloc(), &ADDRESSES) == Ok(true));
    holds(&rt, all_print(rt.alloc(), &NUMBERS) == Ok(true));
    holds(&rt, all_print(rt.alloc(), &AS_NUMBERS) == Ok(true));
    holds(&rt, all_print(rt.alloc(), &AS_BLOCKS) == Ok(true));
}

const IP_BLOCKS: [(FromStrError, &str); 10] = [
    (
        FromStrError::Addr(AddrParseError::Ipv4),
        "invalid IPv4 address syntax",
    ),
    (
        FromStrError::Addr(AddrParseError::Ipv6),
        "invalid IPv6 address syntax",
    ),
    (
        FromStrError::Addr(AddrParseError::Ip),
        "invalid IP address syntax",
    ),
    (
        FromStrError::PrefixLen(ParseIntError::Empty),
        "bad prefix length: cannot parse integer from empty string",
    ),
    (
        FromStrError::PrefixLen(ParseIntError::InvalidDigit),
        "bad prefix length: invalid digit found in string",
    ),
    (
        FromStrError::PrefixLen(ParseIntError::PosOverflow),
        "bad prefix length: number too large to fit in target type",
    ),
    (FromStrError::MissingSeparator, "missing separator"),
    (FromStrError::FamilyMismatch, "address family mismatch"),
    (FromStrError::BadBlocks, "cannot parse blocks"),
    (FromStrError::BadRange, "invalid address range"),
];

/// Returns whether each error of any type prints the text of its row, or `AllocError` if memory runs out.
fn errors_print<E: Error>(alloc: Global, rows: &[(E, &str)]) -> Result<bool, AllocError> {
    all_print(alloc, rows)
}

#[test]
fn faults_of_blocks(rt: HostRuntime) {
    holds(&rt, errors_print(rt.alloc(), &IP_BLOCKS) == Ok(true));
}

const PREFIXES: [(ParsePrefixError, &str); 6] = [
    (ParsePrefixError::Empty, "empty string"),
    (ParsePrefixError::MissingLen, "missing length portion"),
    (
        ParsePrefixError::InvalidAddr(AddrParseError::Ip),
        "invalid address: invalid IP address syntax",
    ),
    (
        ParsePrefixError::InvalidLen(ParseIntError::PosOverflow),
        "invalid length: number too large to fit in target type",
    ),
    (
        ParsePrefixError::InvalidPrefix(PrefixError::LenOverflow),
        "prefix length too large",
    ),
    (
        ParsePrefixError::InvalidPrefix(PrefixError::NonZeroHost),
        "non-zero host portion",
    ),
];

const PREFIX_VALUES: [(PrefixError, &str); 2] = [
    (PrefixError::LenOverflow, "prefix length too large"),
    (PrefixError::NonZeroHost, "non-zero host portion"),
];

const MAX_LENGTH_VALUES: [(MaxLenError, &str); 2] = [
    (MaxLenError::Overflow, "max-length too large"),
    (
        MaxLenError::Underflow,
        "max-length smaller than prefix length",
    ),
];

const MAX_LENGTHS: [(ParseMaxLenPrefixError, &str); 4] = [
    (
        ParseMaxLenPrefixError::InvalidMaxLenValue(MaxLenError::Underflow),
        "max-length smaller than prefix length",
    ),
    (
        ParseMaxLenPrefixError::InvalidMaxLenValue(MaxLenError::Overflow),
        "max-length too large",
    ),
    (
        ParseMaxLenPrefixError::InvalidMaxLenFormat(ParseIntError::Empty),
        "invalid max length: cannot parse integer from empty string",
    ),
    (
        ParseMaxLenPrefixError::InvalidPrefix(ParsePrefixError::MissingLen),
        "missing length portion",
    ),
];

#[test]
fn faults_of_prefixes(rt: HostRuntime) {
    holds(&rt, errors_print(rt.alloc(), &PREFIXES) == Ok(true));
    holds(&rt, errors_print(rt.alloc(), &MAX_LENGTHS) == Ok(true));
    holds(&rt, errors_print(rt.alloc(), &PREFIX_VALUES) == Ok(true));
    holds(
        &rt,
        errors_print(rt.alloc(), &MAX_LENGTH_VALUES) == Ok(true),
    );
}

const SETS: [(SetFromStrError, &str); 3] = [
    (
        SetFromStrError::Asn(AsFromStrError::BadRange),
        "cannot parse ASN resources: Bad AS range. Expected format: AS#-AS#",
    ),
    (
        SetFromStrError::Ipv4(FromStrError::Addr(AddrParseError::Ipv4)),
        "cannot parse IPv4 resources: invalid IPv4 address syntax",
    ),
    (
        SetFromStrError::Ipv6(FromStrError::PrefixLen(ParseIntError::PosOverflow)),
        "cannot parse IPv6 resources: bad prefix length: number too large to fit in target type",
    ),
];

#[test]
fn faults_of_sets(rt: HostRuntime) {
    holds(&rt, errors_print(rt.alloc(), &SETS) == Ok(true));
}

const PREFIX_OCTETS: [(DecodePrefixError, &str); 1] = [(
    DecodePrefixError,
    "invalid prefix in IP resources",
)];

const FAMILY_OCTETS: [(DecodeFamilyError, &str); 1] = [(
    DecodeFamilyError,
    "invalid address family in IP resources",
)];

#[test]
fn faults_of_octets(rt: HostRuntime) {
    holds(&rt, errors_print(rt.alloc(), &PREFIX_OCTETS) == Ok(true));
    holds(&rt, errors_print(rt.alloc(), &FAMILY_OCTETS) == Ok(true));
}

const INHERITED_AS: [(InheritedAsResources, &str); 1] = [(
    InheritedAsResources,
    "inherited AS resources",
)];

const INHERITED_IP: [(InheritedIpResources, &str); 1] = [(
    InheritedIpResources,
    "inherited IP resources",
)];

const INHERITED: [(InheritError, &str); 1] = [(
    InheritError,
    "cannot determine resources for certificate using inherit",
)];

#[test]
fn faults_of_inherited_resources(rt: HostRuntime) {
    holds(&rt, errors_print(rt.alloc(), &INHERITED_AS) == Ok(true));
    holds(&rt, errors_print(rt.alloc(), &INHERITED_IP) == Ok(true));
    holds(&rt, errors_print(rt.alloc(), &INHERITED) == Ok(true));
}

// In an `OrMemory` an error prints as it does alone.
const OR_MEMORY: [(OrMemory<ParseAsnError>, &str); 2] = [
    (OrMemory::Memory(AllocError), "out of memory"),
    (OrMemory::Refused(ParseAsnError), "invalid AS number"),
];

#[test]
fn faults_of_memory(rt: HostRuntime) {
    holds(&rt, errors_print(rt.alloc(), &OR_MEMORY) == Ok(true));
}

const PATH_REFUSALS: [(PathRefusal<InheritedAsResources>, &str); 1] = [(
    PathRefusal {
        step: 1,
        fault: InheritedAsResources,
    },
    "refused at step 1: inherited AS resources",
)];

/// Returns what a path leaves of a set, or its refusal as an error of any kind.
fn left_on_path(alloc: Global, root: &AsBlocks, steps: &[AsStep]) -> anyhow::Result<AsBlocks> {
    let left = root.verify_path(alloc, steps)?;
    Ok(left)
}

/// Returns a step that claims AS7.
fn step_of_seven(alloc: Global) -> Result<AsStep, AllocError> {
    let set = AsBlocks::from_blocks(alloc, &[AsBlock::Id(Asn::from_u32(7))])?;
    Ok(AsStep {
        claim: AsResources::blocks(set),
        mode: Overclaim::Refuse,
    })
}

/// Returns whether the refusal of that step by the empty set prints as in an answer of `respath`.
fn refusal_of_seven_prints(alloc: Global, steps: &[AsStep]) -> bool {
    let text = "refused at step 0: overclaimed AS resources: AS7";
    match left_on_path(alloc, &AsBlocks::empty(), steps) {
        Ok(_) => false,
        Err(error) => prints(alloc, &error, text) == Ok(true),
    }
}

#[test]
fn refusals_of_paths(rt: HostRuntime) {
    holds(&rt, errors_print(rt.alloc(), &PATH_REFUSALS) == Ok(true));
    let is_so = match step_of_seven(rt.alloc()) {
        Ok(step) => refusal_of_seven_prints(rt.alloc(), &[step]),
        Err(_) => false,
    };
    holds(&rt, is_so);
}

/// Returns the error for a set whose issuer has nothing.
fn fault_of(alloc: Global, set: &IpBlocks) -> Option<OverclaimedIpResources> {
    match set.verify_covered(alloc, &IpResources::missing()) {
        Err(OrMemory::Refused(fault)) => Some(fault),
        _ => None,
    }
}

/// Returns the error for the set of a list whose issuer has nothing.
fn overclaim(alloc: Global, list: &str) -> Option<OverclaimedIpResources> {
    match IpBlocks::from_str(alloc, list) {
        Ok(set) => fault_of(alloc, &set),
        Err(_) => None,
    }
}

fn prints_as_v4(alloc: Global, fault: OverclaimedIpResources, text: &str) -> bool {
    if !fault.excess().is_whole_v4() {
        return false;
    }
    prints(alloc, &fault.v4(), text) == Ok(true)
}

fn prints_as_v6(alloc: Global, fault: OverclaimedIpResources, text: &str) -> bool {
    prints(alloc, &fault.v6(), text) == Ok(true)
}

#[test]
fn faults_of_claims_of_ipv4(rt: HostRuntime) {
    let text = "overclaimed IPv4 resources: 10.0.0.0/8, 12.0.0.0-12.0.0.2";
    let is_so = match overclaim(rt.alloc(), "12.0.0.0-12.0.0.2, 10.0.0.0/8") {
        Some(fault) => prints_as_v4(rt.alloc(), fault, text),
        None => false,
    };
    holds(&rt, is_so);
}

#[test]
fn faults_of_claims_of_ipv6(rt: HostRuntime) {
    let text = "overclaimed IPv6 resources: ::1, 2001:db8::/32";
    let is_so = match overclaim(rt.alloc(), "2001:db8::/32, ::1") {
        Some(fault) => prints_as_v6(rt.alloc(), fault, text),
        None => false,
    };
    holds(&rt, is_so);
}

#[test]
fn words_of_faults(rt: HostRuntime) {
    same(
        &rt,
        PrefixError::LenOverflow.static_description(),
        "prefix length too large",
    );
    same(
        &rt,
        <&'static str>::from(PrefixError::NonZeroHost),
        "non-zero host portion",
    );
    same(
        &rt,
        MaxLenError::Overflow.static_description(),
        "max-length too large",
    );
    let words = <&'static str>::from(MaxLenError::Underflow);
    same(&rt, words, "max-length smaller than prefix length");
}

#[test]
fn faults_of_others(rt: HostRuntime) {
    for (fault, _) in &ADDRESSES {
        same(&rt, FromStrError::from(*fault), FromStrError::Addr(*fault));
    }
    for (fault, _) in &NUMBERS {
        same(
            &rt,
            FromStrError::from(*fault),
            FromStrError::PrefixLen(*fault),
        );
    }
    holds(&rt, FromStrError::BadBlocks != FromStrError::BadRange);
}
