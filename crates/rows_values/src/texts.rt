//! Answers of the readers of texts.
use crate::values::{Item, Value, block_text, octets};
use rpki_as::block::AsBlock;
use rpki_base::addr::{IpAddr, Ipv4Addr, Ipv6Addr};
use rpki_base::asn::Asn;
use rpki_base::number::{parse_u8, parse_u32};
use rpki_ip::error::FromStrError;
use rpki_ip::family::AddressFamily;
use rpki_ip::prefix as ip;
use rpki_ip::range::AddressRange;
use rpki_ipres::block::IpBlock;
use rpki_ipres::blocks::IpBlocks;
use rpki_prefix::max_len::MaxLenPrefix;
use rpki_prefix::prefix::Prefix;
use std::alloc::{AllocError, Allocator};
use std::str::FromStr;
use test_support::print;

/// Answers `text READER TEXT`.
pub fn answer<A: Allocator + Copy>(
    alloc: A,
    reader: &str,
    text: &str,
) -> Result<String<A>, AllocError> {
    match reader {
        "asn" => print::result(alloc, Asn::from_str(text)),
        "addr" => print::result(alloc, IpAddr::from_str(text)),
        "addr4" => print::result(alloc, Ipv4Addr::from_str(text)),
        "addr6" => print::result(alloc, Ipv6Addr::from_str(text)),
        "u8" => print::result(alloc, parse_u8(text)),
        "u32" => print::result(alloc, parse_u32(text)),
        _ => prefix_answer(alloc, reader, text),
    }
}

/// Answers for the readers of prefixes, AS blocks and sets of addresses.
fn prefix_answer<A: Allocator + Copy>(
    alloc: A,
    reader: &str,
    text: &str,
) -> Result<String<A>, AllocError> {
    match reader {
        "prefix" => print::result(alloc, Prefix::from_str(text)),
        "relaxed" => print::result(alloc, Prefix::from_str_relaxed(text)),
        "maxlen" => print::result(alloc, MaxLenPrefix::from_str(text)),
        "asblock" => as_block(alloc, AsBlock::from_str(text)),
        "ipblocks" => ip_blocks(alloc, text),
        _ => ip_block_answer(alloc, reader, text),
    }
}

/// Answers for the readers of one block of addresses.
fn ip_block_answer<A: Allocator + Copy>(
    alloc: A,
    reader: &str,
    text: &str,
) -> Result<String<A>, AllocError> {
    match ip_block(reader, text) {
        Some(Ok(block)) => ip_block_text(alloc, reader, text, block),
        Some(Err(fault)) => print::error(alloc, fault),
        None => String::from_str(alloc, "no such reader of texts"),
    }
}

/// Reads one block of addresses from a text with a reader, or returns `None` if no reader has this name.
fn ip_block(reader: &str, text: &str) -> Option<Result<IpBlock, FromStrError>> {
    match reader {
        "v4block" => Some(IpBlock::from_v4_str(text)),
        "v6block" => Some(IpBlock::from_v6_str(text)),
        "ipblock" => Some(IpBlock::from_str(text)),
        "rprefix" => Some(ip::Prefix::from_str(text).map(IpBlock::Prefix)),
        "rprefix4" => Some(ip::Prefix::from_v4_str(text).map(IpBlock::Prefix)),
        "rprefix6" => Some(ip::Prefix::from_v6_str(text).map(IpBlock::Prefix)),
        "rrange" => Some(AddressRange::from_str(text).map(IpBlock::Range)),
        "rrange4" => Some(AddressRange::from_v4_str(text).map(IpBlock::Range)),
        "rrange6" => Some(AddressRange::from_v6_str(text).map(IpBlock::Range)),
        _ => None,
    }
}

/// Prints a prefix or a range in the family of its text, and any other block in each family, with its octets.
fn ip_block_text<A: Allocator + Copy>(
    alloc: A,
    reader: &str,
    text: &str,
    block: IpBlock,
) -> Result<String<A>, AllocError> {
    match reader {
        "rprefix" | "rrange" => block_text(alloc, family(text), block),
        _ => {
            let families = [AddressFamily::Ipv4, AddressFamily::Ipv6];
            item(alloc, Item::IpBlock(block), &families)
        }
    }
}

/// Prints a block in its own form and its octets, or the fault.
fn as_block<A: Allocator + Copy>(
    alloc: A,
    block: Result<AsBlock, rpki_as::error::FromStrError>,
) -> Result<String<A>, AllocError> {
    match block {
        Ok(block) => item(alloc, Item::AsBlock(block), &[AddressFamily::Ipv6]),
        Err(fault) => print::error(alloc, fault),
    }
}

/// Prints a value in the notation of each family, and its octets.
fn item<A: Allocator + Copy>(
    alloc: A,
    item: Item,
    families: &[AddressFamily],
) -> Result<String<A>, AllocError> {
    let mut answer = String::new(alloc);
    for family in families {
        print::append_text(&mut answer, item.text(alloc, *family))?;
    }
    print::append_text(&mut answer, octets(alloc, &item))?;
    Ok(answer)
}

/// Returns the family of a text: IPv6 has colons.
fn family(text: &str) -> AddressFamily {
    if text.contains(':') {
        AddressFamily::Ipv6
    } else {
        AddressFamily::Ipv4
    }
}

/// Prints a set in the family of its text and its octets, or the fault.
fn ip_blocks<A: Allocator + Copy>(alloc: A, text: &str) -> Result<String<A>, AllocError> {
    match IpBlocks::from_str(alloc, text) {
        Ok(set) => set_with_octets(alloc, family(text), &set),
        Err(error) => print::refused(alloc, error),
    }
}

fn set_with_octets<A: Allocator + Copy>(
    alloc: A,
    family: AddressFamily,
    set: &IpBlocks<A>,
) -> Result<String<A>, AllocError> {
    let text = print::value(alloc, set.display_with_family(family))?;
    let octets = octets(alloc, set)?;
    format!(in alloc; "{text} {octets}")
}
