//! Ranges of addresses as their shortest lists of prefixes.
ghost use Rattle.std.specs.Iterator.{IsFinite};

use rpki_ip::family::AddressFamily;
use rpki_ip::prefix::Prefix;
use rpki_ip::range::AddressRange;
use std::alloc::{AllocError, Allocator};
use test_support::print;

/// Answers `prefixes v4 MIN-MAX` and `prefixes v6 MIN-MAX`.
///
/// It prints the prefixes of the range between two IPv6 addresses for the family, each with its length.
pub fn answer<A: Allocator + Copy>(
    alloc: A,
    kind: &str,
    text: &str,
) -> Result<String<A>, AllocError> {
    match AddressRange::from_v6_str(text) {
        Ok(range) if kind == "v4" => list(alloc, AddressFamily::Ipv4, range.to_v4_prefixes()),
        Ok(range) => list(alloc, AddressFamily::Ipv6, range.to_v6_prefixes()),
        Err(fault) => print::error(alloc, fault),
    }
}

fn list<A: Allocator + Copy, I: Iterator<Item = Prefix>>(
    alloc: A,
    family: AddressFamily,
    prefixes: I,
) -> Result<String<A>, AllocError>
    requires can { I.can_next prefixes }
    requires ends { IsFinite (I.remaining prefixes) }
{
    let mut list = String::new(alloc);
    for prefix in prefixes {
        append(&mut list, family, prefix)?;
    }
    Ok(list)
}

/// Appends a prefix, after a separator if the list is not empty.
fn append<A: Allocator>(
    list: &mut String<A>,
    family: AddressFamily,
    prefix: Prefix,
) -> Result<(), AllocError> {
    match family {
        AddressFamily::Ipv4 => print::append(list, ", ", prefix.to_v4())?,
        AddressFamily::Ipv6 => print::append(list, ", ", prefix.to_v6())?,
    }
    print::append(list, "/", prefix.addr_len())
}
