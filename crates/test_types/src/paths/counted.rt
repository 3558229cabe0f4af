// The calls of `repository::resources::chain` that count their reads.
use rpki_as::AsBlock;
use rpki_base::asn::Asn;
use rpki_base::memory::OrMemory;
use rpki_resources::repository::resources::chain::{
    Block, Chain, Counted, OwnedChain, contains_item_counted, difference_counted, trim_counted,
    union_counted,
};
use std::alloc::{AllocError, Global};
use std::mem::size_of;
use std::process::Abort;

fn holds(rt: &impl Abort, is_so: bool) {
    assert!(rt; is_so);
}

/// Returns the block of the numbers from the lesser to the greater.
fn block(one: u32, other: u32) -> AsBlock {
    <AsBlock as Block>::new(Asn::from_u32(one.min(other)), Asn::from_u32(one.max(other)))
}

fn is(chain: &OwnedChain<AsBlock>, blocks: &[AsBlock]) -> bool {
    chain.as_chain().as_slice() == blocks
}

/// An operation on two chains.
#[derive(Clone, Copy)]
enum Operation {
    Union,
    Difference,
    Trim,
}

/// Returns the result of a call that counts its reads. For a refused trim these are the common blocks.
fn answer(
    alloc: Global,
    operation: Operation,
    own: Chain<'_, AsBlock>,
    other: Chain<'_, AsBlock>,
) -> Result<OwnedChain<AsBlock>, AllocError> {
    let mut own = Counted::new(own);
    let mut other = Counted::new(other);
    match operation {
        Operation::Union => union_counted(alloc, &mut own, &mut other),
        Operation::Difference => difference_counted(alloc, &mut own, &mut other),
        Operation::Trim => match trim_counted(alloc, &mut own, &mut other) {
            Ok(()) => Ok(OwnedChain::empty()),
            Err(OrMemory::Refused(common)) => Ok(common),
            Err(OrMemory::Memory(error)) => Err(error),
        },
    }
}

fn gives(
    alloc: Global,
    operation: Operation,
    own: &[AsBlock],
    other: &[AsBlock],
    blocks: &[AsBlock],
) -> Result<bool, AllocError> {
    let own = OwnedChain::from_blocks(alloc, own)?;
    let other = OwnedChain::from_blocks(alloc, other)?;
    let made = answer(alloc, operation, own.as_chain(), other.as_chain())?;
    Ok(is(&made, blocks))
}

fn unites(alloc: Global) -> bool {
    let (own, other) = ([block(1, 2), block(5, 6)], [block(3, 4)]);
    gives(alloc, Operation::Union, &own, &other, &[block(1, 6)]) == Ok(true)
}

fn subtracts(alloc: Global) -> bool {
    let wanted = [block(11, 14), block(20, 20)];
    let (own, other) = ([block(11, 20)], [block(15, 19)]);
    gives(alloc, Operation::Difference, &own, &other, &wanted) == Ok(true)
}

fn trims(alloc: Global) -> bool {
    let own = [block(10, 15), block(20, 25)];
    let other = [block(12, 15), block(22, 23), block(50, 70)];
    let wanted = [block(12, 15), block(22, 23)];
    gives(alloc, Operation::Trim, &own, &other, &wanted) == Ok(true)
}

fn contains(alloc: Global) -> Result<bool, AllocError> {
    let chain = OwnedChain::from_blocks(alloc, &[block(1, 2), block(5, 6)])?;
    let mut counted = Counted::new(chain.as_chain());
    let has_six = contains_item_counted(&mut counted, Asn::from_u32(6));
    Ok(has_six && !contains_item_counted(&mut counted, Asn::from_u32(3)))
}

#[test]
fn counted_calls(rt: HostRuntime) {
    holds(&rt, unites(rt.alloc()));
    holds(&rt, subtracts(rt.alloc()));
    holds(&rt, trims(rt.alloc()));
    holds(&rt, contains(rt.alloc()) == Ok(true));
}

#[test]
fn a_count_takes_no_bytes(rt: HostRuntime) {
    holds(
        &rt,
        size_of::<Counted<'_, AsBlock>>() == size_of::<Chain<'_, AsBlock>>(),
    );
}
