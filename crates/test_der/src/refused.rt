// Writers with memory refused. Each makes one request, for all that it writes, and a refused one leaves the output
// unchanged.
use crate::checks::holds;
use rpki_as::block::AsBlock;
use rpki_as::blocks::AsBlocks;
use rpki_base::asn::Asn;
use rpki_der::sequences::{encode_all, encode_sequence};
use rpki_der::{put_bit_string, put_header, put_null, put_octets, put_u32, tag};
use rpki_ip::family::AddressFamily;
use rpki_ip::prefix::Prefix;
use rpki_ip::range::AddressRange;
use rpki_ipres::block::IpBlock;
use rpki_ipres::blocks::IpBlocks;
use rpki_ipres::resources::IpResources;
use std::alloc::{AllocError, Allocator, Global};
use std::str::FromStr;
use test_support::{Plan, Refusing};

/// Returns whether a writer makes one request, and whether the output is unchanged if this is refused.
///
/// The second call of the writer has to succeed, with one request.
fn asks_once<F: Fn(&mut Vec<u8, &Refusing>) -> Result<(), AllocError>>(
    alloc: Global,
    put: F,
) -> Result<bool, AllocError>
    requires { F.IsAlwaysCallable put }
{
    let refusing = Refusing::new(alloc, Plan::RefuseOnly(1));
    let mut out = Vec::from_array(&refusing, [0x7f])?;
    let is_refused = put(&mut out).is_err() && refusing.has_refused();
    let is_left = is_refused && out.as_slice() == [0x7f].as_slice();
    Ok(is_left && put(&mut out).is_ok() && refusing.asked() == 3)
}

fn a_range() -> AddressRange {
    let range = AddressRange::from_str("10.2.48.0-10.2.64.255");
    range.unwrap_or(AddressRange::from(Prefix::all()))
}

/// Calls one of the writers of single values.
fn put_value<A: Allocator>(writer: u32, out: &mut Vec<u8, A>) -> Result<(), AllocError> {
    match writer {
        0 => put_header(out, tag::SEQUENCE, 300),
        1 => put_u32(out, 65536),
        2 => put_bit_string(out, 1, &[0x80]),
        3 => put_octets(out, &[0x00, 0x01]),
        4 => put_null(out),
        5 => Asn::MAX.encode(out),
        6 => AddressFamily::Ipv6.encode(out),
        7 => Prefix::all().encode(out),
        8 => AsBlock::all().encode(out),
        9 => IpBlock::all().encode(out),
        _ => a_range().encode(out),
    }
}

#[test]
fn values(rt: HostRuntime) {
    for writer in 0..11 {
        let is_right = asks_once(
            rt.alloc(),
            |out: &mut Vec<u8, &Refusing>| put_value(writer, out),
        );
        holds(&rt, is_right == Ok(true));
    }
}

/// Calls one of the writers of blocks of AS numbers.
fn put_as_blocks<A: Allocator>(
    writer: u32,
    set: &AsBlocks,
    out: &mut Vec<u8, A>,
) -> Result<(), AllocError> {
    let blocks = set.iter().as_slice();
    match writer {
        0 => set.encode(out),
        1 => encode_all(blocks, out),
        _ => encode_sequence(blocks, out),
    }
}

/// Returns the even numbers AS0 to AS126, each a block of its own. Their length takes two octets.
fn even_numbers() -> [AsBlock; 64] {
    let mut blocks = [AsBlock::Id(Asn::MIN); 64];
    for (half, block) in blocks.iter_mut().enumerate() {
        *block = AsBlock::Id(Asn::from_u32(2 * half as u32));
    }
    blocks
}

fn as_writer_asks_once(alloc: Global, writer: u32, set: &AsBlocks) -> bool {
    let is_right = asks_once(
        alloc,
        |out: &mut Vec<u8, &Refusing>| put_as_blocks(writer, set, out),
    );
    is_right == Ok(true)
}

fn even_numbers_ask_once(alloc: Global, writer: u32) -> bool {
    match AsBlocks::from_blocks(alloc, &even_numbers()) {
        Ok(set) => as_writer_asks_once(alloc, writer, &set),
        Err(_) => false,
    }
}

#[test]
fn blocks_of_as_numbers(rt: HostRuntime) {
    for writer in 0..3 {
        holds(&rt, even_numbers_ask_once(rt.alloc(), writer));
    }
}

/// Calls one of the writers of blocks of addresses, and of the resources that list them.
fn put_ip_blocks<A: Allocator>(
    writer: u32,
    set: &IpBlocks,
    out: &mut Vec<u8, A>,
) -> Result<(), AllocError> {
    match writer {
        0 => set.encode(out),
        1 => set.encode_family(AddressFamily::Ipv4, out),
        _ => IpResources::blocks(set.clone()?).encode_family(AddressFamily::Ipv4, out),
    }
}

fn ip_writer_asks_once(alloc: Global, writer: u32, set: &IpBlocks) -> bool {
    let is_right = asks_once(
        alloc,
        |out: &mut Vec<u8, &Refusing>| put_ip_blocks(writer, set, out),
    );
    is_right == Ok(true)
}

fn addresses_ask_once(alloc: Global, writer: u32) -> bool {
    let list = "10.0.0.0/8, 10.2.48.0-10.2.64.255, 11.0.0.0-11.0.0.2";
    match IpBlocks::from_str(alloc, list) {
        Ok(set) => ip_writer_asks_once(alloc, writer, &set),
        Err(_) => false,
    }
}

#[test]
fn blocks_of_addresses(rt: HostRuntime) {
    for writer in 0..3 {
        holds(&rt, addresses_ask_once(rt.alloc(), writer));
    }
}
