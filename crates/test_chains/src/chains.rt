// Chains over blocks of AS numbers.
use crate::checks::holds;
use rpki_as::block::AsBlock;
use rpki_base::asn::Asn;
use rpki_chain::block::Block;
use rpki_chain::chain::Chain;
use rpki_chain::owned::OwnedChain;
use rpki_chain::shared::SharedChain;
use std::alloc::{AllocError, Allocator, Global};
use test_support::{Plan, Refusing};

/// Returns the block with these bounds.
fn block(one: u32, other: u32) -> AsBlock {
    <AsBlock as Block>::new(Asn::from_u32(one.min(other)), Asn::from_u32(one.max(other)))
}

/// Returns the chain of the numbers 1 to 4 and 23 to 48.
fn chain<A: Allocator + Copy>(alloc: A) -> Result<OwnedChain<AsBlock, A>, AllocError> {
    OwnedChain::from_blocks(alloc, &[block(23, 48), block(1, 2), block(3, 4)])
}

/// Returns whether a chain is that one.
fn is_chain(chain: Chain<'_, AsBlock>) -> bool {
    let is_listed = chain.as_slice() == [block(1, 4), block(23, 48)].as_slice();
    is_listed && chain.len() == 2 && chain.iter().count() == 2
}

fn is_shared<A: Allocator>(shared: &SharedChain<AsBlock, A>) -> bool {
    match shared.clone() {
        Ok(other) => *shared == other,
        Err(_) => false,
    }
}

/// Returns whether a chain is within another, by both calls.
fn is_trimmed<A: Allocator + Copy>(
    alloc: A,
    own: Chain<'_, AsBlock>,
    other: Chain<'_, AsBlock>,
) -> bool {
    matches!(own.trim(alloc, other), Ok(())) && own.is_encompassed(other)
}

/// Returns whether a chain is within the chain of the numbers 0 to 17 and 19 to 50.
fn lies_in_other(alloc: Global, refusing: &Refusing, own: Chain<'_, AsBlock>) -> bool {
    match OwnedChain::from_blocks(alloc, &[block(0, 17), block(19, 50)]) {
        Ok(other) => is_trimmed(refusing, own, other.as_chain()),
        Err(_) => false,
    }
}

fn lies_within(alloc: Global, refusing: &Refusing) -> bool {
    match chain(alloc) {
        Ok(own) => lies_in_other(alloc, refusing, own.as_chain()),
        Err(_) => false,
    }
}

#[test]
fn a_trim_that_is_ok_takes_no_memory(rt: HostRuntime) {
    let refusing = Refusing::new(rt.alloc(), Plan::RefuseAll);
    holds(&rt, lies_within(rt.alloc(), &refusing));
    holds(&rt, refusing.asked() == 0);
}

/// Returns whether a chain is made of blocks without a request.
fn is_made_of<A: Allocator>(refusing: &Refusing, blocks: Vec<AsBlock, A>) -> bool {
    let asked = refusing.asked();
    let chain = OwnedChain::from_vec(blocks);
    is_chain(chain.as_chain()) && refusing.asked() == asked
}

fn is_made_in_place(refusing: &Refusing) -> bool {
    match Vec::from_array(refusing, [block(23, 48), block(1, 2), block(3, 4)]) {
        Ok(blocks) => is_made_of(refusing, blocks),
        Err(_) => false,
    }
}

#[test]
fn a_chain_is_made_in_the_memory_of_its_blocks(rt: HostRuntime) {
    let refusing = Refusing::new(rt.alloc(), Plan::RefuseNone);
    holds(&rt, is_made_in_place(&refusing));
}

fn shares_nothing<A: Allocator + Copy>(alloc: A) -> bool {
    match SharedChain::<AsBlock, A>::from_owned(alloc, OwnedChain::empty()) {
        Ok(shared) => is_shared(&shared),
        Err(_) => false,
    }
}

#[test]
fn sharing_the_empty_chain_takes_no_memory(rt: HostRuntime) {
    let refusing = Refusing::new(rt.alloc(), Plan::RefuseAll);
    holds(&rt, shares_nothing(&refusing));
    holds(&rt, refusing.asked() == 0);
}

fn is_refused<A: Allocator + Copy>(alloc: A) -> bool {
    matches!(SharedChain::from_blocks(alloc, &[block(1, 4)]), Err(_))
}

#[test]
fn a_refused_chain_asks_once(rt: HostRuntime) {
    let refusing = Refusing::new(rt.alloc(), Plan::RefuseAll);
    holds(&rt, is_refused(&refusing));
    holds(&rt, refusing.asked() == 1);
}
