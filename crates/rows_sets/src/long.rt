//! Sets of many blocks. The first has each fourth number from 0 on, the second the numbers greater by 2.
use rows_chains::long;
use rpki_as::block::AsBlock;
use rpki_as::blocks::AsBlocks;
use rpki_as::builder::AsBlocksBuilder;
use rpki_base::asn::Asn;
use rpki_base::number::parse_u32;
use rpki_chain::block::Block;
use rpki_ip::addr::Addr;
use rpki_ipres::block::IpBlock;
use rpki_ipres::blocks::IpBlocks;
use rpki_ipres::resources::IpResources;
use std::alloc::{AllocError, Allocator};
use test_support::print;

/// Answers `long QUESTION N`, about two chains or sets of N blocks each.
pub fn answer<A: Allocator + Copy>(
    alloc: A,
    question: &str,
    count: &str,
) -> Result<String<A>, AllocError> {
    match parse_u32(count) {
        Ok(count) => of_kind(alloc, question, count),
        Err(fault) => print::error(alloc, fault),
    }
}

fn of_kind<A: Allocator + Copy>(
    alloc: A,
    question: &str,
    count: u32,
) -> Result<String<A>, AllocError> {
    match question {
        "as" => as_union(alloc, count),
        "v6" => ip_union(alloc, count),
        "families" => families(alloc, count),
        "cover" => cover(alloc, count),
        "build" => built(alloc, count),
        _ => long::answer(alloc, question, u64::from(count)),
    }
}

fn every_fourth_asn<A: Allocator + Copy>(
    alloc: A,
    count: u32,
    first: u32,
) -> Result<AsBlocks<A>, AllocError> {
    let mut blocks = Vec::new(alloc);
    for at in 0..count {
        let number = at.saturating_mul(4).saturating_add(first);
        blocks.push(AsBlock::Id(Asn::from_u32(number)))?;
    }
    AsBlocks::from_blocks(alloc, &blocks)
}

/// Prints the number of AS numbers in the union of the two sets.
fn as_union<A: Allocator + Copy>(alloc: A, count: u32) -> Result<String<A>, AllocError> {
    let set = every_fourth_asn(alloc, count, 0)?;
    union_with_others(alloc, &set, count)
}

fn union_with_others<A: Allocator + Copy>(
    alloc: A,
    set: &AsBlocks<A>,
    count: u32,
) -> Result<String<A>, AllocError> {
    let others = every_fourth_asn(alloc, count, 2)?;
    size_of(alloc, set.union(alloc, &others))
}

fn size_of<A: Allocator + Copy>(
    alloc: A,
    set: Result<AsBlocks<A>, AllocError>,
) -> Result<String<A>, AllocError> {
    let size = set?.asn_count();
    format!(in alloc; "{size} numbers")
}

/// Prints the number of AS numbers in the set of a builder.
///
/// The builder gets the blocks of one set one by one, and then those of the other at once.
fn built<A: Allocator + Copy>(alloc: A, count: u32) -> Result<String<A>, AllocError> {
    let others = every_fourth_asn(alloc, count, 2)?;
    size_of(alloc, built_before(alloc, others.iter().as_slice()))
}

fn built_before<A: Allocator + Copy>(
    alloc: A,
    others: &[AsBlock],
) -> Result<AsBlocks<A>, AllocError> {
    let mut builder = AsBlocksBuilder::new(alloc);
    push_before(&mut builder, others)?;
    builder.finalize()
}

fn push_before<A: Allocator + Copy>(
    builder: &mut AsBlocksBuilder<A>,
    others: &[AsBlock],
) -> Result<(), AllocError> {
    for at in 0..others.len() as u64 {
        let number = u32::try_from(at.saturating_mul(4)).unwrap_or(u32::MAX);
        builder.push(AsBlock::Id(Asn::from_u32(number)))?;
    }
    builder.extend_from(others)
}

fn every_fourth_address<A: Allocator + Copy>(
    alloc: A,
    count: u32,
    first: u128,
) -> Result<IpBlocks<A>, AllocError> {
    let mut blocks = Vec::new(alloc);
    for at in 0..count {
        let addr = Addr::from_bits(u128::from(at).saturating_mul(4).saturating_add(first));
        blocks.push(<IpBlock as Block>::new(addr, addr))?;
    }
    IpBlocks::from_blocks(alloc, &blocks)
}

/// Prints the number of blocks in the union of the two sets.
fn ip_union<A: Allocator + Copy>(alloc: A, count: u32) -> Result<String<A>, AllocError> {
    let set = every_fourth_address(alloc, count, 0)?;
    union_with_more(alloc, &set, count)
}

fn union_with_more<A: Allocator + Copy>(
    alloc: A,
    set: &IpBlocks<A>,
    count: u32,
) -> Result<String<A>, AllocError> {
    let others = every_fourth_address(alloc, count, 2)?;
    len_of(alloc, set.union(alloc, &others))
}

fn len_of<A: Allocator + Copy>(
    alloc: A,
    set: Result<IpBlocks<A>, AllocError>,
) -> Result<String<A>, AllocError> {
    let len = set?.iter().count();
    format!(in alloc; "{len} blocks")
}

/// Prints the length of the answer to a line that asks for the cover of `count` ranges.
///
/// Each range has the addresses that begin with the same 16 bits, except the first and the last of them.
fn cover<A: Allocator + Copy>(alloc: A, count: u32) -> Result<String<A>, AllocError> {
    let mut line = String::from_str(alloc, "cover v6 ")?;
    for at in 0..count {
        write!(line, "{at:x}::1-{at:x}:ffff:ffff:ffff:ffff:ffff:ffff:fffe,")?;
    }
    let len = respath_lines::answer(alloc, line.as_bytes())?.len();
    format!(in alloc; "{len} octets")
}

/// Prints the number of octets that encode the set of IPv6.
fn families<A: Allocator + Copy>(alloc: A, count: u32) -> Result<String<A>, AllocError> {
    let set = every_fourth_address(alloc, count, 0)?;
    encoded_len(alloc, &IpResources::blocks(set))
}

fn encoded_len<A: Allocator + Copy>(
    alloc: A,
    claim: &IpResources<A>,
) -> Result<String<A>, AllocError> {
    if !claim.is_present() {
        return String::from_str(alloc, "0 octets");
    }
    let mut output = print::output(alloc)?;
    let write = IpResources::encode_families(&IpResources::missing(), claim, &mut output);
    octets_of(alloc, print::written(alloc, &output, write))
}

/// Prints the number of octets that these hexadecimal digits are.
fn octets_of<A: Allocator + Copy>(
    alloc: A,
    digits: Result<String<A>, AllocError>,
) -> Result<String<A>, AllocError> {
    let len = digits?.len() / 2;
    format!(in alloc; "{len} octets")
}
