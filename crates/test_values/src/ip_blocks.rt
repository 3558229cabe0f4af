// Blocks of addresses: their forms and bounds.
use crate::checks::{holds, same};
use rpki_chain::block::Block;
use rpki_ip::addr::Addr;
use rpki_ip::range::AddressRange;
use rpki_ipres::block::IpBlock;

/// Returns the block with these bounds, in the form that `new` gives.
fn block(one: u128, other: u128) -> IpBlock {
    let (min, max) = (one.min(other), one.max(other));
    <IpBlock as Block>::new(Addr::from_bits(min), Addr::from_bits(max))
}

/// Returns the `Range` with these bounds.
fn range(one: u128, other: u128) -> IpBlock {
    let (min, max) = (one.min(other), one.max(other));
    IpBlock::Range(AddressRange::new(Addr::from_bits(min), Addr::from_bits(max)))
}

/// Returns the length of a block that is a `Prefix`.
fn len_of(block: &IpBlock) -> Option<u8> {
    match block {
        IpBlock::Prefix(prefix) => Some(prefix.addr_len()),
        IpBlock::Range(_) => None,
    }
}

#[test]
fn blocks_are_equal_by_their_bounds(rt: HostRuntime) {
    let prefix = IpBlock::from_pair((Addr::from_bits(4), Addr::from_bits(7)));
    same(&rt, len_of(&prefix), Some(126));
    same(&rt, len_of(&range(4, 7)), None);
    same(&rt, prefix, range(4, 7));
    same(&rt, range(4, 7), block(4, 7));
    holds(&rt, prefix != block(4, 6));
    holds(&rt, prefix != block(5, 7));
    let copy = prefix;
    same(&rt, copy, prefix);
    same(&rt, IpBlock::all(), range(0, u128::MAX));
}
