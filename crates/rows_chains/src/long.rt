//! Chains of many blocks. The first has each fourth number from 0 on, the second the numbers greater by 2.
use crate::chains::{Shown, owned_text, trim};
use crate::pairs::Pair;
use rpki_chain::block::Block;
use rpki_chain::chain::Chain;
use rpki_chain::owned::OwnedChain;
use std::alloc::{AllocError, Allocator};
use test_support::print;

/// Answers a question about two chains of `count` blocks each.
pub fn answer<A: Allocator + Copy>(
    alloc: A,
    question: &str,
    count: u64,
) -> Result<String<A>, AllocError> {
    let fourths = every_fourth(alloc, count, 0)?;
    of_fourths(alloc, question, count, fourths.as_chain())
}

fn of_fourths<A: Allocator + Copy>(
    alloc: A,
    question: &str,
    count: u64,
    chain: Chain<'_, Pair>,
) -> Result<String<A>, AllocError> {
    let others = every_fourth(alloc, count, 2)?;
    of_chains(alloc, question, count, chain, others.as_chain())
}

/// Returns the chain of `count` numbers from `first` on, each greater by 4 than the one before it.
fn every_fourth<A: Allocator + Copy>(
    alloc: A,
    count: u64,
    first: u64,
) -> Result<OwnedChain<Pair, A>, AllocError> {
    let mut blocks = Vec::new(alloc);
    for at in 0..count {
        let number = at.saturating_mul(4).saturating_add(first);
        blocks.push(Pair::new(number, number))?;
    }
    Ok(OwnedChain::from_vec(blocks))
}

/// Returns whether the chain has each fourth number, and no number that directly follows one of these.
fn has_fourths(chain: Chain<'_, Pair>, count: u64) -> bool {
    for at in 0..count {
        let number = at.saturating_mul(4);
        if !chain.contains_item(number) || chain.contains_item(number.saturating_add(1)) {
            return false;
        }
    }
    true
}

fn of_chains<A: Allocator + Copy>(
    alloc: A,
    question: &str,
    count: u64,
    chain: Chain<'_, Pair>,
    other: Chain<'_, Pair>,
) -> Result<String<A>, AllocError> {
    match question {
        "contains" => print::boolean(alloc, has_fourths(chain, count)),
        "from_blocks" => {
            owned_text(
                alloc,
                Shown::Count,
                OwnedChain::from_blocks(alloc, chain.as_slice()),
            )
        }
        "union" => owned_text(alloc, Shown::Count, chain.union(alloc, other)),
        "difference" => difference(alloc, chain, other),
        "trim" => trim(alloc, Shown::Count, chain, other),
        "within" => trim(alloc, Shown::Count, chain, chain),
        _ => String::from_str(alloc, "no such command"),
    }
}

/// Prints whether the difference of two chains is the first of them.
fn difference<A: Allocator + Copy>(
    alloc: A,
    chain: Chain<'_, Pair>,
    other: Chain<'_, Pair>,
) -> Result<String<A>, AllocError> {
    let difference = chain.difference(alloc, other)?;
    print::boolean(alloc, difference.as_chain() == chain)
}
