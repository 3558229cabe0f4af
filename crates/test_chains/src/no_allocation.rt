// Calls that take no memory. The allocator counts all requests, also refused ones, and there are no requests.
use crate::checks::holds;
use rpki_as::AsResourcesBuilder;
use rpki_as::block::AsBlock;
use rpki_as::blocks::AsBlocks;
use rpki_as::builder::AsBlocksBuilder;
use rpki_as::resources::AsResources;
use rpki_base::asn::Asn;
use rpki_base::memory::OrMemory;
use rpki_base::small_set::SmallAsnSet;
use rpki_chain::choice::ResourcesChoice;
use rpki_chain::owned::OwnedChain;
use rpki_family::v4::{Ipv4Block, Ipv4Blocks};
use rpki_family::v6::{Ipv6Block, Ipv6Blocks};
use rpki_ip::family::AddressFamily;
use rpki_ip::prefix::Prefix;
use rpki_ip::range::AddressRange;
use rpki_ipres::IpResourcesBuilder;
use rpki_ipres::block::IpBlock;
use rpki_ipres::blocks::IpBlocks;
use rpki_ipres::builder::IpBlocksBuilder;
use rpki_ipres::overclaim::OverclaimedIpResources;
use rpki_ipres::resources::IpResources;
use rpki_resources::repository::resources::set::{FromStrError, ResourceSet};
use std::alloc::Allocator;
use test_support::{Plan, Refusing};

// ---- questions about sets

/// Checks the set of the numbers 1 and 3 to 5.
fn as_set_answers<A: Allocator>(set: &AsBlocks<A>) -> bool {
    let has_numbers = set.contains_asn(Asn::from_u32(4)) && !set.contains_asn(Asn::MIN);
    let is_itself = set.contains(set) && set == set && !set.is_empty();
    let sizes = (set.asn_count(), set.iter().count());
    has_numbers && is_itself && sizes == (4, 2) && set.iter_asns().next() == Some(Asn::from_u32(1))
}

/// Checks the set of 10.0.0.0/8 and 12.0.0.0.
fn ip_set_answers<A: Allocator>(set: &IpBlocks<A>) -> bool {
    let all = AddressRange::from(Prefix::all());
    let has_all = set.contains_roa(all) || set.contains_block(IpBlock::all());
    let is_itself = set.contains(set) && set == set && !set.is_empty();
    let meets = set.intersects_block(IpBlock::all()) && set.is_whole_v4();
    !has_all && is_itself && meets && set.iter().count() == 2
}

fn v4_set_answers<A: Allocator>(set: &Ipv4Blocks<A>) -> bool {
    let is_itself = set.contains(set) && set == set && !set.is_empty();
    let meets = set.intersects_block(Ipv4Block::all()) && !set.contains_block(Ipv4Block::all());
    let mut prefixes = set.prefixes();
    let has_two = prefixes.next().is_some() && prefixes.next().is_some();
    is_itself && meets && has_two && prefixes.next().is_none() && ip_set_answers(set.ip_blocks())
}

/// Checks the set of ::1 and ::2.
fn v6_set_answers<A: Allocator>(set: &Ipv6Blocks<A>) -> bool {
    let is_itself = set.contains(set) && set == set && !set.is_empty();
    let meets = set.intersects_block(Ipv6Block::all()) && !set.contains_block(Ipv6Block::all());
    let mut prefixes = set.prefixes();
    let has_two = prefixes.next().is_some() && prefixes.next().is_some();
    is_itself && meets && has_two && prefixes.next().is_none()
}

fn set_answers<A: Allocator>(set: &ResourceSet<A>) -> bool {
    let all = AddressRange::from(Prefix::all());
    let has_all = set.contains_roa_address(AddressFamily::Ipv6, all);
    let is_itself = set.contains(set) && set == set && !set.is_empty();
    !has_all && is_itself && set.contains_asn(Asn::from_u32(5)) && set.asn_opt().is_some()
}

fn parts_answer<A: Allocator>(set: &ResourceSet<A>) -> bool {
    as_set_answers(set.asn()) && v4_set_answers(set.ipv4()) && v6_set_answers(set.ipv6())
}

fn asks_nothing<A: Allocator>(refusing: &Refusing, set: &ResourceSet<A>) -> bool {
    let asked = refusing.asked();
    set_answers(set) && parts_answer(set) && refusing.asked() == asked
}

type Made<T> = Result<T, OrMemory<FromStrError>>;

/// Returns the set to check.
fn set_of_all_kinds<A: Allocator + Copy>(alloc: A) -> Made<ResourceSet<A>> {
    ResourceSet::from_strs(alloc, "AS1, AS3-AS5", "10.0.0.0/8, 12.0.0.0", "::1-::2")
}

fn questions(refusing: &Refusing) -> bool {
    match set_of_all_kinds(refusing) {
        Ok(set) => asks_nothing(refusing, &set),
        Err(_) => false,
    }
}

/// Prints into a text with enough capacity.
fn is_printed_again<A: Allocator>(
    refusing: &Refusing,
    set: &ResourceSet<A>,
    text: &mut String<A>,
) -> bool {
    let (asked, len) = (refusing.asked(), text.len());
    text.clear();
    let is_written = write!(text, "{set}").is_ok();
    is_written && refusing.asked() == asked && text.len() == len && len > 0
}

fn is_printed<'a>(refusing: &'a Refusing, set: &ResourceSet<&'a Refusing>) -> bool {
    match format!(in refusing; "{set}") {
        Ok(text) => is_printed_again_alone(refusing, set, text),
        Err(_) => false,
    }
}

fn is_printed_again_alone<A: Allocator>(
    refusing: &Refusing,
    set: &ResourceSet<A>,
    mut text: String<A>,
) -> bool {
    is_printed_again(refusing, set, &mut text)
}

fn printing(refusing: &Refusing) -> bool {
    match set_of_all_kinds(refusing) {
        Ok(set) => is_printed(refusing, &set),
        Err(_) => false,
    }
}

#[test]
fn questions_and_printing(rt: HostRuntime) {
    let refusing = Refusing::new(rt.alloc(), Plan::RefuseNone);
    holds(&rt, questions(&refusing));
    holds(&rt, printing(&refusing));
}

// ---- values that are made of sets which are moved

fn is_as_set_again<A: Allocator>(refusing: &Refusing, set: AsBlocks<A>) -> bool {
    let asked = refusing.asked();
    match AsBlocks::from_resources(AsResources::blocks(set)) {
        Ok(set) => set.asn_count() == 4 && refusing.asked() == asked,
        Err(_) => false,
    }
}

fn is_counted<A: Allocator>(refusing: &Refusing, set: AsBlocks<A>) -> bool {
    let asked = refusing.asked();
    let size = ResourcesChoice::Blocks(set).map_blocks(|set: AsBlocks<A>| set.asn_count());
    size == ResourcesChoice::Blocks(4) && refusing.asked() == asked
}

/// Empties all kinds of a set.
fn clear<A: Allocator>(set: &mut ResourceSet<A>) {
    set.set_asn(AsBlocks::empty());
    set.set_ipv4(Ipv4Blocks::empty());
    set.set_ipv6(Ipv6Blocks::empty());
}

fn is_cleared<A: Allocator>(refusing: &Refusing, asn: AsBlocks<A>) -> bool {
    let asked = refusing.asked();
    let mut set = ResourceSet::new(asn, Ipv4Blocks::empty(), Ipv6Blocks::empty());
    clear(&mut set);
    set.is_empty() && refusing.asked() == asked
}

/// The use of a set of AS numbers that is moved.
#[derive(Clone, Copy)]
enum Given {
    /// It is read out of a claim again.
    Again,
    /// It is counted by a function that is applied to the blocks of a choice.
    Counted,
    /// It is put into a set of all kinds, which is emptied.
    Cleared,
}

const GIVEN: [Given; 3] = [Given::Again, Given::Counted, Given::Cleared];

fn is_given<A: Allocator>(refusing: &Refusing, given: Given, set: AsBlocks<A>) -> bool {
    match given {
        Given::Again => is_as_set_again(refusing, set),
        Given::Counted => is_counted(refusing, set),
        Given::Cleared => is_cleared(refusing, set),
    }
}

fn as_set_is_given(refusing: &Refusing, given: Given) -> bool {
    match AsBlocks::from_str(refusing, "AS1, AS3-AS5") {
        Ok(set) => is_given(refusing, given, set),
        Err(_) => false,
    }
}

/// Returns whether a set of IPv6 has two blocks.
fn is_of_two<A: Allocator>(refusing: &Refusing, set: IpBlocks<A>) -> bool {
    let asked = refusing.asked();
    Ipv6Blocks::from_ip_blocks(set).iter().count() == 2 && refusing.asked() == asked
}

fn is_ip_set_again<A: Allocator>(refusing: &Refusing, claim: IpResources<A>) -> bool {
    let asked = refusing.asked();
    match IpBlocks::from_resources(claim) {
        Ok(set) => refusing.asked() == asked && is_of_two(refusing, set),
        Err(_) => false,
    }
}

fn is_ip_claim<A: Allocator>(refusing: &Refusing, set: IpBlocks<A>) -> bool {
    let asked = refusing.asked();
    let claim = IpResources::blocks(set);
    refusing.asked() == asked && is_ip_set_again(refusing, claim)
}

fn addresses_again(refusing: &Refusing) -> bool {
    match IpBlocks::from_str(refusing, "::1, ::4/126") {
        Ok(set) => is_ip_claim(refusing, set),
        Err(_) => false,
    }
}

/// Returns whether overclaimed resources become an error of IPv4 without a request.
fn is_of_v4<A: Allocator>(refusing: &Refusing, fault: OverclaimedIpResources<A>) -> bool {
    if !fault.excess().is_whole_v4() {
        return false;
    }
    let asked = refusing.asked();
    let _fault = fault.v4();
    refusing.asked() == asked
}

/// Returns whether overclaimed resources become an error of IPv6 without a request.
fn is_of_v6<A: Allocator>(refusing: &Refusing, fault: OverclaimedIpResources<A>) -> bool {
    let asked = refusing.asked();
    let _fault = fault.v6();
    refusing.asked() == asked
}

fn is_of_family<A: Allocator>(
    refusing: &Refusing,
    fault: OverclaimedIpResources<A>,
    v4: bool,
) -> bool {
    if v4 {
        is_of_v4(refusing, fault)
    } else {
        is_of_v6(refusing, fault)
    }
}

fn excess_is_reported<'a>(
    refusing: &'a Refusing,
    set: &IpBlocks<&'a Refusing>,
    issuer: &IpResources<&'a Refusing>,
    v4: bool,
) -> bool {
    match set.verify_covered(refusing, issuer) {
        Err(OrMemory::Refused(fault)) => is_of_family(refusing, fault, v4),
        _ => false,
    }
}

fn excess_of_family(refusing: &Refusing, v4: bool) -> bool {
    match IpBlocks::from_str(refusing, "10.0.0.0/8") {
        Ok(set) => excess_is_reported(refusing, &set, &IpResources::missing(), v4),
        Err(_) => false,
    }
}

/// Returns whether a vector of one block becomes its chain without a request.
fn full_chain(refusing: &Refusing) -> bool {
    match Vec::from_array(refusing, [AsBlock::Id(Asn::MIN)]) {
        Ok(blocks) => {
            let asked = refusing.asked();
            let chain = OwnedChain::from_vec_unchecked(blocks);
            chain.as_chain().len() == 1 && refusing.asked() == asked
        }
        Err(_) => false,
    }
}

/// Returns whether a vector of one number becomes its small set without a request.
fn full_small_set(refusing: &Refusing) -> bool {
    match Vec::from_array(refusing, [Asn::MIN]) {
        Ok(asns) => {
            let asked = refusing.asked();
            let set = SmallAsnSet::from_vec_unchecked(asns);
            set.len() == 1 && refusing.asked() == asked
        }
        Err(_) => false,
    }
}

#[test]
fn sets_given_away(rt: HostRuntime) {
    let refusing = Refusing::new(rt.alloc(), Plan::RefuseNone);
    for given in &GIVEN {
        holds(&rt, as_set_is_given(&refusing, *given));
    }
    holds(&rt, addresses_again(&refusing));
    holds(&rt, excess_of_family(&refusing, true));
    holds(&rt, excess_of_family(&refusing, false));
    holds(&rt, full_chain(&refusing));
    holds(&rt, full_small_set(&refusing));
}

// ---- values that are made of nothing, with each request refused

fn is_no_claim<A: Allocator>(claim: &AsResources<A>, inherited: &AsResources<A>) -> bool {
    *claim != *inherited && claim.is_missing()
}

fn is_no_claim_of_addresses<A: Allocator>(
    claim: &IpResources<A>,
    inherited: &IpResources<A>,
) -> bool {
    *claim != *inherited && claim.is_missing()
}

fn empty_claims<A: Allocator>(_: A) -> bool {
    let inherited = AsResources::<A>::inherit();
    is_no_claim(&AsResources::blocks(AsBlocks::empty()), &inherited)
        && is_no_claim(&AsResources::missing(), &inherited)
}

fn empty_claims_of_addresses<A: Allocator>(_: A) -> bool {
    let inherited = IpResources::<A>::inherit();
    is_no_claim_of_addresses(&IpResources::blocks(IpBlocks::empty()), &inherited)
        && is_no_claim_of_addresses(&IpResources::missing(), &inherited)
}

fn empty_sets<A: Allocator>(_: A) -> bool {
    AsBlocks::<A>::default().is_empty()
        && IpBlocks::<A>::default().is_empty()
        && Ipv4Blocks::<A>::default().is_empty()
}

fn is_empty_set<A: Allocator>(set: &ResourceSet<A>) -> bool {
    *set == ResourceSet::empty()
}

fn empty_sets_of_all_kinds<A: Allocator>(_: A) -> bool {
    is_empty_set(&ResourceSet::<A>::default())
}

/// Takes a value and drops it.
fn is_made<T: Drop>(_: T) {}

fn new_builders<A: Allocator + Copy>(alloc: A) {
    is_made(AsBlocksBuilder::new(alloc));
    is_made(AsResourcesBuilder::new(alloc));
    is_made(IpBlocksBuilder::new(alloc));
    is_made(IpResourcesBuilder::new(alloc));
}

#[test]
fn made_of_nothing(rt: HostRuntime) {
    let refusing = Refusing::new(rt.alloc(), Plan::RefuseAll);
    holds(&rt, empty_sets(&refusing));
    holds(&rt, empty_sets_of_all_kinds(&refusing));
    holds(&rt, empty_claims(&refusing));
    holds(&rt, empty_claims_of_addresses(&refusing));
    new_builders(&refusing);
    holds(&rt, refusing.asked() == 0);
}
