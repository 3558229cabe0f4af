// The output of `{:?}` for a value of each type. A derived one is the name and the fields in their order, as in std.
use crate::checks::{holds, is_shown};
use roa_origin::{OriginTable, VrpTable};
use rpki_as::block::AsBlock;
use rpki_as::blocks::AsBlocks;
use rpki_as::builder::{AsBlocksBuilder, AsResourcesBuilder};
use rpki_as::error::{FromStrError as AsFromStrError, InheritedAsResources};
use rpki_as::range::AsRange;
use rpki_as::resources::AsResources;
use rpki_as::verify::AsStep;
use rpki_base::addr::{AddrParseError, IpAddr, Ipv4Addr, Ipv6Addr};
use rpki_base::asn::{Asn, ParseAsnError};
use rpki_base::memory::OrMemory;
use rpki_base::number::ParseIntError;
use rpki_base::small_set::SmallAsnSet;
use rpki_chain::path::{Overclaim, PathRefusal};
use rpki_chain_core::owned::OwnedChain;
use rpki_chain_core::shared::SharedChain;
use rpki_extensions::error::{VerifyBelowError, VerifyError};
use rpki_extensions::extensions::Claims;
use rpki_family::v4::{Ipv4Block, Ipv4Blocks};
use rpki_family::v6::{Ipv6Block, Ipv6Blocks};
use rpki_ip::addr::Addr;
use rpki_ip::der::{DecodeFamilyError, DecodePrefixError};
use rpki_ip::error::FromStrError;
use rpki_ip::family::AddressFamily;
use rpki_ip::prefix as ip;
use rpki_ip::range::AddressRange;
use rpki_ipres::block::IpBlock;
use rpki_ipres::blocks::IpBlocks;
use rpki_ipres::builder::IpBlocksBuilder;
use rpki_ipres::overclaim::OverclaimedIpResources;
use rpki_ipres::resources::{InheritedIpResources, IpResources};
use rpki_prefix::error::{MaxLenError, ParseMaxLenPrefixError, ParsePrefixError, PrefixError};
use rpki_prefix::max_len::MaxLenPrefix;
use rpki_prefix::prefix::Prefix;
use rpki_resources::repository::resources::set::FromStrError as SetFromStrError;
use rpki_resources::repository::resources::{InheritError, ResourceSet};
use std::alloc::{AllocError, Global};
use std::fmt::Debug;
use std::str::FromStr;

#[test]
fn debug_of_numbers(rt: HostRuntime) {
    let alloc = rt.alloc();
    let refused = OrMemory::Refused(ParseAsnError);
    let memory: OrMemory<ParseAsnError> = OrMemory::Memory(AllocError);
    holds(&rt, is_shown(alloc, &Asn::from_u32(64496), "Asn(64496)"));
    holds(&rt, is_shown(alloc, &ParseAsnError, "ParseAsnError"));
    holds(&rt, is_shown(alloc, &ParseIntError::Empty, "Empty"));
    holds(&rt, is_shown(alloc, &refused, "Refused(ParseAsnError)"));
    holds(&rt, is_shown(alloc, &memory, "Memory(AllocError)"));
    holds(&rt, is_shown(alloc, &AddressFamily::Ipv4, "Ipv4"));
    holds(
        &rt,
        is_shown(alloc, &DecodeFamilyError, "DecodeFamilyError"),
    );
}

#[test]
fn debug_of_addresses(rt: HostRuntime) {
    let alloc = rt.alloc();
    let v4 = Ipv4Addr::from_bits(7);
    holds(&rt, is_shown(alloc, &v4, "Ipv4Addr(7)"));
    holds(&rt, is_shown(alloc, &Ipv6Addr::from_bits(8), "Ipv6Addr(8)"));
    holds(&rt, is_shown(alloc, &IpAddr::V4(v4), "V4(Ipv4Addr(7))"));
    holds(&rt, is_shown(alloc, &AddrParseError::Ip, "Ip"));
    holds(&rt, is_shown(alloc, &Addr::from_bits(9), "Addr(9)"));
}

/// Returns whether `{:?}` prints this text for a value that was made. It drops the value.
fn made_is_shown<T: Debug + Drop, E: Drop>(alloc: Global, made: Result<T, E>, text: &str) -> bool {
    match made {
        Ok(value) => is_shown(alloc, &value, text),
        Err(_) => false,
    }
}

fn let_go_is_shown<T: Debug + Drop>(alloc: Global, value: T, text: &str) -> bool {
    is_shown(alloc, &value, text)
}

#[test]
fn debug_of_prefixes(rt: HostRuntime) {
    let alloc = rt.alloc();
    let prefix = "Prefix { addr: V4(Ipv4Addr(0)), len: 0 }";
    let max_len =
        "MaxLenPrefix { prefix: Prefix { addr: V4(Ipv4Addr(0)), len: 0 }, max_len: Some(8) }";
    let nested = ParseMaxLenPrefixError::InvalidPrefix(ParsePrefixError::Empty);
    holds(
        &rt,
        made_is_shown(alloc, Prefix::from_str("0.0.0.0/0"), prefix),
    );
    holds(
        &rt,
        made_is_shown(alloc, MaxLenPrefix::from_str("0.0.0.0/0-8"), max_len),
    );
    holds(
        &rt,
        is_shown(alloc, &PrefixError::NonZeroHost, "NonZeroHost"),
    );
    holds(&rt, is_shown(alloc, &MaxLenError::Overflow, "Overflow"));
    holds(&rt, is_shown(alloc, &nested, "InvalidPrefix(Empty)"));
}

#[test]
fn debug_of_blocks(rt: HostRuntime) {
    let alloc = rt.alloc();
    let range = AsRange::new(Asn::from_u32(1), Asn::from_u32(3));
    holds(
        &rt,
        is_shown(alloc, &AsBlock::Id(Asn::from_u32(7)), "Id(Asn(7))"),
    );
    holds(
        &rt,
        is_shown(
            alloc,
            &AsBlock::Range(range),
            "Range(AsRange { min: Asn(1), max: Asn(3) })",
        ),
    );
    holds(&rt, is_shown(alloc, &AsFromStrError::BadAsn, "BadAsn"));
    holds(
        &rt,
        is_shown(
            alloc,
            &FromStrError::Addr(AddrParseError::Ipv4),
            "Addr(Ipv4)",
        ),
    );
    holds(
        &rt,
        is_shown(alloc, &DecodePrefixError, "DecodePrefixError"),
    );
}

#[test]
fn debug_of_blocks_of_addresses(rt: HostRuntime) {
    let alloc = rt.alloc();
    let range = AddressRange::new(Addr::from_bits(1), Addr::from_bits(2));
    let prefix = "Prefix(Prefix { addr: Addr(0), len: 0 })";
    let v4 = "Ipv4Block { block: Prefix(Prefix { addr: Addr(0), len: 0 }) }";
    let v6 = "Ipv6Block { block: Prefix(Prefix { addr: Addr(0), len: 0 }) }";
    holds(
        &rt,
        is_shown(alloc, &range, "AddressRange { min: Addr(1), max: Addr(2) }"),
    );
    holds(
        &rt,
        is_shown(
            alloc,
            &ip::Prefix::all(),
            "Prefix { addr: Addr(0), len: 0 }",
        ),
    );
    holds(&rt, is_shown(alloc, &IpBlock::all(), prefix));
    holds(&rt, is_shown(alloc, &Ipv4Block::all(), v4));
    holds(&rt, is_shown(alloc, &Ipv6Block::all(), v6));
}

/// Returns whether the error for a set that a claim has none of prints the set.
fn shows_excess(alloc: Global, set: &AsBlocks) -> bool {
    match set.verify_covered(alloc, &AsResources::missing()) {
        Err(OrMemory::Refused(fault)) => let_go_is_shown(alloc, fault, "{Id(Asn(7))}"),
        _ => false,
    }
}

fn shows_owned(alloc: Global, blocks: &[AsBlock]) -> Result<bool, AllocError> {
    let owned = OwnedChain::from_blocks(alloc, blocks)?;
    let is_chain = is_shown(alloc, &owned.as_chain(), "Chain([Id(Asn(7))])");
    Ok(is_chain && is_shown(alloc, &owned, "OwnedChain([Id(Asn(7))])"))
}

fn shows_shared(alloc: Global, blocks: &[AsBlock]) -> bool {
    let shared = SharedChain::from_blocks(alloc, blocks);
    made_is_shown(alloc, shared, "SharedChain([Id(Asn(7))])")
}

fn shows_set(alloc: Global, set: AsBlocks) -> bool {
    let is_set = is_shown(alloc, &set, "{Id(Asn(7))}") && shows_excess(alloc, &set);
    let_go_is_shown(alloc, AsResources::blocks(set), "Blocks({Id(Asn(7))})") && is_set
}

#[test]
fn debug_of_as_sets(rt: HostRuntime) {
    match AsBlocks::from_blocks(rt.alloc(), &[AsBlock::Id(Asn::from_u32(7))]) {
        Ok(set) => holds(&rt, shows_set(rt.alloc(), set)),
        Err(_) => holds(&rt, false),
    }
}

#[test]
fn debug_of_as_chains(rt: HostRuntime) {
    let alloc = rt.alloc();
    let blocks = [AsBlock::Id(Asn::from_u32(7))];
    holds(&rt, shows_owned(alloc, &blocks) == Ok(true));
    holds(&rt, shows_shared(alloc, &blocks));
    holds(&rt, shows_small(alloc, &[Asn::from_u32(7)]));
    holds(
        &rt,
        let_go_is_shown(alloc, AsBlocksBuilder::new(alloc), "AsBlocksBuilder { .. }"),
    );
    let builder = AsResourcesBuilder::new(alloc);
    holds(
        &rt,
        let_go_is_shown(alloc, builder, "ResourcesBuilder { .. }"),
    );
}

fn shows_small(alloc: Global, list: &[Asn]) -> bool {
    made_is_shown(alloc, SmallAsnSet::from_list(alloc, list), "{Asn(7)}")
}

fn shows_step(alloc: Global) -> bool {
    let step: AsStep = AsStep {
        claim: AsResources::missing(),
        mode: Overclaim::Refuse,
    };
    let_go_is_shown(alloc, step, "Step { claim: Missing, mode: Refuse }")
}

#[test]
fn debug_of_claims(rt: HostRuntime) {
    let alloc = rt.alloc();
    let refusal = PathRefusal {
        step: 1,
        fault: InheritedAsResources,
    };
    let asn = SetFromStrError::Asn(AsFromStrError::BadAsn);
    holds(&rt, shows_step(alloc));
    holds(
        &rt,
        is_shown(
            alloc,
            &refusal,
            "PathRefusal { step: 1, fault: InheritedAsResources }",
        ),
    );
    holds(
        &rt,
        is_shown(alloc, &InheritedIpResources, "InheritedIpResources"),
    );
    holds(&rt, is_shown(alloc, &InheritError, "InheritError"));
    holds(&rt, is_shown(alloc, &asn, "Asn(BadAsn)"));
}

const ALL: &str = "{Prefix(Prefix { addr: Addr(0), len: 0 })}";

fn shows_in_v6(alloc: Global, set: &IpBlocks) -> bool {
    let of_v6 =
        "IpBlocksForFamily { family: Ipv6, blocks: {Prefix(Prefix { addr: Addr(0), len: 0 })} }";
    is_shown(alloc, &set.as_v6(), of_v6)
}

/// Returns whether the error for a set of addresses that a claim has none of prints all addresses, also as one of IPv6.
fn shows_all_beyond(alloc: Global, set: &IpBlocks) -> bool {
    match set.verify_covered(alloc, &IpResources::missing()) {
        Err(OrMemory::Refused(fault)) => shows_fault(alloc, fault),
        _ => false,
    }
}

fn shows_fault(alloc: Global, fault: OverclaimedIpResources) -> bool {
    is_shown(alloc, &fault, ALL) && is_shown(alloc, &fault.v6(), ALL)
}

fn shows_ip_set(alloc: Global, set: &IpBlocks) -> bool {
    is_shown(alloc, set, ALL) && shows_in_v6(alloc, set) && shows_all_beyond(alloc, set)
}

#[test]
fn debug_of_ip_sets(rt: HostRuntime) {
    match IpBlocks::all(rt.alloc()) {
        Ok(set) => holds(&rt, shows_ip_set(rt.alloc(), &set)),
        Err(_) => holds(&rt, false),
    }
}

fn shows_all_v4(alloc: Global) -> bool {
    let v4 = "{Ipv4Block { block: Prefix(Prefix { addr: Addr(0), len: 0 }) }}";
    made_is_shown(alloc, Ipv4Blocks::all(alloc), v4)
}

/// Returns whether the iterator over a set's blocks is printed, before its first block.
fn shows_blocks(alloc: Global) -> bool {
    let left = "BlockIter(Iter([Prefix(Prefix { addr: Addr(0), len: 0 })]))";
    match Ipv4Blocks::all(alloc) {
        Ok(set) => let_go_is_shown(alloc, set.iter(), left),
        Err(_) => false,
    }
}

fn shows_all_v6(alloc: Global) -> bool {
    let v6 = "{Ipv6Block { block: Prefix(Prefix { addr: Addr(0), len: 0 }) }}";
    made_is_shown(alloc, Ipv6Blocks::all(alloc), v6)
}

#[test]
fn debug_of_sets_of_a_family(rt: HostRuntime) {
    let alloc = rt.alloc();
    holds(&rt, shows_all_v4(alloc));
    holds(&rt, shows_all_v6(alloc));
    holds(&rt, shows_blocks(alloc));
    let inherited: IpResources = IpResources::inherit();
    holds(&rt, let_go_is_shown(alloc, inherited, "Inherit"));
    holds(
        &rt,
        let_go_is_shown(alloc, IpBlocksBuilder::new(alloc), "IpBlocksBuilder { .. }"),
    );
}

/// Returns whether the difference of a set and itself is printed.
fn shows_changes(alloc: Global, set: &ResourceSet) -> bool {
    let changes = "ResourceDiff { added: ResourceSet { asn: {}, ipv4: {}, ipv6: {} }, \
        removed: ResourceSet { asn: {}, ipv4: {}, ipv6: {} } }";
    made_is_shown(alloc, set.difference(alloc, set), changes)
}

fn shows_no_changes(alloc: Global) -> bool {
    let empty: ResourceSet = ResourceSet::empty();
    shows_changes(alloc, &empty)
}

fn shows_empty(alloc: Global) -> bool {
    let empty: ResourceSet = ResourceSet::empty();
    let_go_is_shown(alloc, empty, "ResourceSet { asn: {}, ipv4: {}, ipv6: {} }")
}

#[test]
fn debug_of_sets_of_three_kinds(rt: HostRuntime) {
    let alloc = rt.alloc();
    holds(&rt, shows_empty(alloc));
    holds(&rt, shows_no_changes(alloc));
}

fn shows_certificates(alloc: Global) -> bool {
    let claims: Claims = Claims {
        asn: AsResources::missing(),
        ipv4: IpResources::inherit(),
        ipv6: IpResources::missing(),
    };
    let text = "Claims { asn: Missing, ipv4: Inherit, ipv6: Missing }";
    let_go_is_shown(alloc, claims, text) && shows_refusal(alloc)
}

fn shows_refusal(alloc: Global) -> bool {
    let reason: VerifyBelowError = VerifyBelowError::Anchor(VerifyError::Inherited);
    let_go_is_shown(alloc, reason, "a trust anchor inherits resources")
}

#[test]
fn debug_of_certificates(rt: HostRuntime) {
    holds(&rt, shows_certificates(rt.alloc()));
}

/// Returns whether a table and its iterators and lookups are printed.
fn shows_table(alloc: Global, table: &OriginTable, prefix: Prefix) -> bool {
    let listed =
        "[(MaxLenPrefix { prefix: Prefix { addr: V4(Ipv4Addr(0)), len: 0 }, max_len: None }, Asn(7))]";
    let lookup = "Lookup { route: Prefix { addr: V4(Ipv4Addr(0)), len: 0 }, asn: Asn(9), .. }";
    let covering = "Covering { route: Prefix { addr: V4(Ipv4Addr(0)), len: 0 }, .. }";
    is_shown(alloc, table, listed)
        && is_shown(alloc, &table.vrps(), listed)
        && is_shown(alloc, &table.lookup(prefix, Asn::from_u32(9)), lookup)
        && is_shown(alloc, &table.covering(prefix), covering)
}

fn shows_changes_of(alloc: Global, table: &VrpTable) -> bool {
    let none = "VrpChanges { announced: [], withdrawn: [] }";
    made_is_shown(alloc, table.changes_to(alloc, table), none)
}

/// Returns whether the tables of one VRP are printed.
fn shows_tables(alloc: Global, prefix: Prefix) -> Result<bool, AllocError> {
    let vrps = [(MaxLenPrefix::from(prefix), Asn::from_u32(7))];
    let sent =
        "[(MaxLenPrefix { prefix: Prefix { addr: V4(Ipv4Addr(0)), len: 0 }, max_len: Some(0) }, Asn(7))]";
    let table = OriginTable::new(alloc, &vrps)?;
    let to_send = VrpTable::new(alloc, &vrps)?;
    let is_sent = is_shown(alloc, &to_send, sent) && shows_changes_of(alloc, &to_send);
    Ok(is_sent && shows_table(alloc, &table, prefix))
}

#[test]
fn debug_of_tables(rt: HostRuntime) {
    match Prefix::from_str("0.0.0.0/0") {
        Ok(prefix) => holds(&rt, shows_tables(rt.alloc(), prefix) == Ok(true)),
        Err(_) => holds(&rt, false),
    }
}
