//! Answers about chains over pairs of `u64`.
use crate::lists::Lists;
use crate::pairs::Pair;
use rpki_base::memory::OrMemory;
use rpki_chain::block::Block;
use rpki_chain::chain::Chain;
use rpki_chain::owned::OwnedChain;
use rpki_chain::shared::SharedChain;
use std::alloc::{AllocError, Allocator};
use std::str::FromStr;
use test_support::names::named;
use test_support::print::{self, cut_at};

/// A question about the chain of a list.
#[derive(Clone, Copy)]
enum Question {
    FromBlocks,
    Copy,
    /// A copy that shares its memory.
    Shared,
    /// Whether it has the least number of a pair.
    Contains,
    /// Whether it has each number of a pair.
    Has,
    /// Whether it has some number of a pair.
    Meets,
    /// An operation on it and the chain of another list.
    Both(Operation),
}

/// An operation on two chains.
#[derive(Clone, Copy)]
enum Operation {
    Difference,
    Union,
    Trim,
    Within,
    Equal,
}

const QUESTIONS: [(&str, Question); 11] = [
    ("from_blocks", Question::FromBlocks),
    ("copy", Question::Copy),
    ("shared", Question::Shared),
    ("contains", Question::Contains),
    ("has", Question::Has),
    ("meets", Question::Meets),
    ("difference", Question::Both(Operation::Difference)),
    ("union", Question::Both(Operation::Union)),
    ("trim", Question::Both(Operation::Trim)),
    ("within", Question::Both(Operation::Within)),
    ("equal", Question::Both(Operation::Equal)),
];

/// The printed form of a chain.
#[derive(Clone, Copy)]
pub enum Shown {
    /// Its blocks.
    Blocks,
    /// The number of its blocks.
    Count,
}

/// Answers `chain QUESTION A` and `chain QUESTION A|B`.
pub fn answer<A: Allocator + Copy>(
    alloc: A,
    name: &str,
    operands: &str,
) -> Result<String<A>, AllocError> {
    match named(&QUESTIONS, name) {
        Some(question) => of_lists(alloc, question, operands),
        None => String::from_str(alloc, "no such command"),
    }
}

fn of_lists<A: Allocator + Copy>(
    alloc: A,
    question: Question,
    operands: &str,
) -> Result<String<A>, AllocError> {
    match Lists::<Pair, A>::read(alloc, operands) {
        Ok(lists) => of_blocks(alloc, question, &lists.left, &lists.right),
        Err(error) => print::refused(alloc, error),
    }
}

fn of_blocks<A: Allocator + Copy>(
    alloc: A,
    question: Question,
    blocks: &[Pair],
    more: &[Pair],
) -> Result<String<A>, AllocError> {
    match question {
        Question::Shared => shared(alloc, blocks),
        _ => of_owned(
            alloc,
            question,
            OwnedChain::from_blocks(alloc, blocks),
            more,
        ),
    }
}

fn of_owned<A: Allocator + Copy>(
    alloc: A,
    question: Question,
    chain: Result<OwnedChain<Pair, A>, AllocError>,
    more: &[Pair],
) -> Result<String<A>, AllocError> {
    match chain {
        Ok(chain) => of_chain(alloc, question, &chain, more),
        Err(error) => Err(error),
    }
}

fn of_chain<A: Allocator + Copy>(
    alloc: A,
    question: Question,
    chain: &OwnedChain<Pair, A>,
    more: &[Pair],
) -> Result<String<A>, AllocError> {
    match question {
        Question::Copy => owned_text(alloc, Shown::Blocks, chain.clone(alloc)),
        Question::Contains | Question::Has | Question::Meets => {
            of_pair(alloc, question, chain.as_chain(), more)
        }
        Question::Both(operation) => of_both(alloc, operation, chain.as_chain(), more),
        _ => text(alloc, Shown::Blocks, chain.as_chain()),
    }
}

fn of_pair<A: Allocator + Copy>(
    alloc: A,
    question: Question,
    chain: Chain<'_, Pair>,
    pairs: &[Pair],
) -> Result<String<A>, AllocError> {
    match pairs {
        [pair] => print::boolean(alloc, has(question, chain, pair)),
        _ => String::from_str(alloc, "no such command"),
    }
}

fn has(question: Question, chain: Chain<'_, Pair>, pair: &Pair) -> bool {
    match question {
        Question::Contains => chain.contains_item(pair.min()),
        Question::Has => chain.contains_block(pair),
        _ => chain.intersects_block(pair),
    }
}

fn of_both<A: Allocator + Copy>(
    alloc: A,
    operation: Operation,
    chain: Chain<'_, Pair>,
    more: &[Pair],
) -> Result<String<A>, AllocError> {
    let other = OwnedChain::from_blocks(alloc, more)?;
    of_chains(alloc, operation, chain, other.as_chain())
}

fn of_chains<A: Allocator + Copy>(
    alloc: A,
    operation: Operation,
    chain: Chain<'_, Pair>,
    other: Chain<'_, Pair>,
) -> Result<String<A>, AllocError> {
    match operation {
        Operation::Difference => {
            owned_text(alloc, Shown::Blocks, chain.difference(alloc, other))
        },
        Operation::Union => owned_text(alloc, Shown::Blocks, chain.union(alloc, other)),
        Operation::Trim => trim(alloc, Shown::Blocks, chain, other),
        Operation::Within => print::boolean(alloc, chain.is_encompassed(other)),
        Operation::Equal => print::boolean(alloc, chain == other),
    }
}

fn shared<A: Allocator + Copy>(alloc: A, blocks: &[Pair]) -> Result<String<A>, AllocError> {
    let chain = SharedChain::from_blocks(alloc, blocks)?;
    let other = chain.clone()?;
    text(alloc, Shown::Blocks, other.as_chain())
}

/// Prints `ok` if the first chain is within the other, and else their common blocks or the number of these.
pub fn trim<A: Allocator + Copy>(
    alloc: A,
    shown: Shown,
    chain: Chain<'_, Pair>,
    other: Chain<'_, Pair>,
) -> Result<String<A>, AllocError> {
    match chain.trim(alloc, other) {
        Ok(()) => String::from_str(alloc, "ok"),
        Err(OrMemory::Refused(common)) => text(alloc, shown, common.as_chain()),
        Err(OrMemory::Memory(error)) => Err(error),
    }
}

/// Prints a chain, or returns the `AllocError` that came instead of it.
pub fn owned_text<A: Allocator + Copy>(
    alloc: A,
    shown: Shown,
    chain: Result<OwnedChain<Pair, A>, AllocError>,
) -> Result<String<A>, AllocError> {
    match chain {
        Ok(chain) => text(alloc, shown, chain.as_chain()),
        Err(error) => Err(error),
    }
}

fn text<A: Allocator + Copy>(
    alloc: A,
    shown: Shown,
    chain: Chain<'_, Pair>,
) -> Result<String<A>, AllocError> {
    match shown {
        Shown::Blocks => list(alloc, chain),
        Shown::Count => {
            let len = chain.len();
            format!(in alloc; "{len} blocks")
        }
    }
}

/// Prints the blocks of a chain, joined by commas.
fn list<A: Allocator + Copy>(alloc: A, chain: Chain<'_, Pair>) -> Result<String<A>, AllocError> {
    let mut list = String::new(alloc);
    for block in chain.iter() {
        print::append(&mut list, ", ", block)?;
    }
    Ok(list)
}

/// Answers `pair QUESTION P|Q`.
pub fn pair_answer<A: Allocator + Copy>(
    alloc: A,
    question: &str,
    operands: &str,
) -> Result<String<A>, AllocError> {
    let (left, right) = cut_at(operands, '|');
    match Pair::from_str(left) {
        Ok(pair) => of_first(alloc, question, &pair, right),
        Err(fault) => print::error(alloc, fault),
    }
}

fn of_first<A: Allocator + Copy>(
    alloc: A,
    question: &str,
    pair: &Pair,
    right: &str,
) -> Result<String<A>, AllocError> {
    match Pair::from_str(right) {
        Ok(other) => of_pairs(alloc, question, pair, &other),
        Err(fault) => print::error(alloc, fault),
    }
}

fn of_pairs<A: Allocator + Copy>(
    alloc: A,
    question: &str,
    pair: &Pair,
    other: &Pair,
) -> Result<String<A>, AllocError> {
    match question {
        "sum" => sum(alloc, pair, other),
        "contains" => print::boolean(alloc, pair.contains(other.min())),
        "intersects" => print::boolean(alloc, pair.intersects(other)),
        "within" => print::boolean(alloc, pair.is_encompassed(other)),
        "equal" => print::boolean(alloc, pair.is_equivalent(other)),
        _ => String::from_str(alloc, "no such command"),
    }
}

fn sum<A: Allocator + Copy>(alloc: A, pair: &Pair, other: &Pair) -> Result<String<A>, AllocError> {
    match pair.sum(other) {
        Some(sum) => print::value(alloc, sum),
        None => String::from_str(alloc, "none"),
    }
}
