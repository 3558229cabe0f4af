//! Answers about sets of AS numbers.
use crate::question::{Operation, Question};
use rows_chains::lists::Lists;
use rows_chains::small_sets::numbers;
use rpki_as::block::AsBlock;
use rpki_as::blocks::AsBlocks;
use rpki_as::builder::AsBlocksBuilder;
use rpki_base::asn::Asn;
use rpki_base::memory::OrMemory;
use std::alloc::{AllocError, Allocator};
use std::str::FromStr;
use test_support::print::{self, cut_at};
use test_support::unchanged::kept;

/// Answers `QUESTION as A` and `QUESTION as A|B`.
pub fn answer<A: Allocator + Copy>(
    alloc: A,
    question: Question,
    operands: &str,
) -> Result<String<A>, AllocError> {
    match question {
        Question::All => print::made(alloc, AsBlocks::all(alloc)),
        Question::Build | Question::FromBlocks | Question::FromVec => {
            of_lists(alloc, question, operands)
        }
        _ => of_operands(alloc, question, operands),
    }
}

/// Prints the set that is made of blocks.
fn of_lists<A: Allocator + Copy>(
    alloc: A,
    question: Question,
    operands: &str,
) -> Result<String<A>, AllocError> {
    match Lists::<AsBlock, A>::read(alloc, operands) {
        Ok(lists) => of_blocks(alloc, question, &lists.left, &lists.right),
        Err(error) => print::refused(alloc, error),
    }
}

fn of_blocks<A: Allocator + Copy>(
    alloc: A,
    question: Question,
    blocks: &[AsBlock],
    more: &[AsBlock],
) -> Result<String<A>, AllocError> {
    match question {
        Question::Build => build(alloc, blocks, more),
        Question::FromVec => from_vec(alloc, blocks.to_vec(alloc)),
        _ => print::made(alloc, AsBlocks::from_blocks(alloc, blocks)),
    }
}

fn from_vec<A: Allocator + Copy>(
    alloc: A,
    blocks: Result<Vec<AsBlock, A>, AllocError>,
) -> Result<String<A>, AllocError> {
    match blocks {
        Ok(blocks) => print::made(alloc, AsBlocks::from_vec(alloc, blocks)),
        Err(error) => Err(error),
    }
}

/// Prints the set of blocks that are pushed one by one, and of more that are appended at once.
fn build<A: Allocator + Copy>(
    alloc: A,
    blocks: &[AsBlock],
    more: &[AsBlock],
) -> Result<String<A>, AllocError> {
    let mut builder = AsBlocksBuilder::new(alloc);
    let pushed = push(&mut builder, blocks, more);
    match builder.finalize() {
        Ok(set) => built(alloc, &set, pushed),
        Err(error) => Err(error),
    }
}

/// Pushes blocks one by one, and appends more at once.
///
/// If memory runs out, `Err` has the blocks that were pushed before.
fn push<'a, A: Allocator + Copy>(
    builder: &mut AsBlocksBuilder<A>,
    blocks: &'a [AsBlock],
    more: &[AsBlock],
) -> Result<(), &'a [AsBlock]> {
    for (at, block) in blocks.iter().enumerate() {
        if builder.push(*block).is_err() {
            return Err(&blocks[..at]);
        }
    }
    match builder.extend_from(more) {
        Ok(()) => Ok(()),
        Err(AllocError) => Err(blocks),
    }
}

/// Prints the set of a builder, or returns `AllocError` if the builder refused a block and still has those before it.
fn built<A: Allocator + Copy>(
    alloc: A,
    set: &AsBlocks<A>,
    pushed: Result<(), &[AsBlock]>,
) -> Result<String<A>, AllocError> {
    match pushed {
        Err(blocks) if is_set_of(alloc, set, blocks)? => Err(AllocError),
        _ => format!(in alloc; "{set}"),
    }
}

fn is_set_of<A: Allocator + Copy>(
    alloc: A,
    set: &AsBlocks<A>,
    blocks: &[AsBlock],
) -> Result<bool, AllocError> {
    let other = AsBlocks::from_blocks(alloc, blocks)?;
    Ok(*set == other)
}

fn of_operands<A: Allocator + Copy>(
    alloc: A,
    question: Question,
    operands: &str,
) -> Result<String<A>, AllocError> {
    let (left, _) = cut_at(operands, '|');
    match AsBlocks::from_str(alloc, left) {
        Ok(set) => of_kept(alloc, question, &set, operands),
        Err(error) => print::refused(alloc, error),
    }
}

/// Answers a question about a set, and checks that the set is unchanged, also if memory was refused.
fn of_kept<A: Allocator + Copy>(
    alloc: A,
    question: Question,
    set: &AsBlocks<A>,
    operands: &str,
) -> Result<String<A>, AllocError> {
    let (left, right) = cut_at(operands, '|');
    let found = of_set(alloc, question, set, right);
    kept(alloc, found, is_list(alloc, set, left))
}

/// Returns whether a set is still the one that a list denotes.
fn is_list<A: Allocator + Copy>(
    alloc: A,
    set: &AsBlocks<A>,
    list: &str,
) -> Result<bool, AllocError> {
    match AsBlocks::from_str(alloc, list) {
        Ok(same) => Ok(*set == same),
        Err(OrMemory::Refused(_)) => Ok(false),
        Err(OrMemory::Memory(error)) => Err(error),
    }
}

fn of_set<A: Allocator + Copy>(
    alloc: A,
    question: Question,
    set: &AsBlocks<A>,
    right: &str,
) -> Result<String<A>, AllocError> {
    match question {
        Question::Copy => print::made(alloc, set.clone()),
        Question::Octets => octets(alloc, set),
        Question::Count => print::value(alloc, set.asn_count()),
        Question::Numbers => numbers(alloc, set.iter_asns()),
        Question::Has => has(alloc, set, right),
        Question::Both(operation) => of_both(alloc, operation, set, right),
        _ => String::from_str(alloc, "no such command"),
    }
}

fn of_both<A: Allocator + Copy>(
    alloc: A,
    operation: Operation,
    set: &AsBlocks<A>,
    right: &str,
) -> Result<String<A>, AllocError> {
    match AsBlocks::from_str(alloc, right) {
        Ok(other) => of_both_kept(alloc, operation, set, &other, right),
        Err(error) => print::refused(alloc, error),
    }
}

/// Answers a question about two sets, and checks that the second one is unchanged too, also if memory was refused.
fn of_both_kept<A: Allocator + Copy>(
    alloc: A,
    operation: Operation,
    set: &AsBlocks<A>,
    other: &AsBlocks<A>,
    list: &str,
) -> Result<String<A>, AllocError> {
    let found = of_two(alloc, operation, set, other);
    kept(alloc, found, is_list(alloc, other, list))
}

fn of_two<A: Allocator + Copy>(
    alloc: A,
    operation: Operation,
    set: &AsBlocks<A>,
    other: &AsBlocks<A>,
) -> Result<String<A>, AllocError> {
    match operation {
        Operation::Union => print::made(alloc, set.union(alloc, other)),
        Operation::Intersection => print::made(alloc, set.intersection(alloc, other)),
        Operation::Assign => assign(alloc, set, other),
        Operation::Difference => print::made(alloc, set.difference(alloc, other)),
        Operation::Contains => print::boolean(alloc, set.contains(other)),
        Operation::Equal => print::boolean(alloc, set == other),
    }
}

/// Prints the intersection, which is computed in place.
fn assign<A: Allocator + Copy>(
    alloc: A,
    set: &AsBlocks<A>,
    other: &AsBlocks<A>,
) -> Result<String<A>, AllocError> {
    let mut common = set.clone()?;
    let assigned = common.intersection_assign(alloc, other);
    assigned_text(alloc, set, &common, assigned)
}

/// Prints the set after an assignment, or returns `AllocError` if memory ran out and the set is unchanged.
fn assigned_text<A: Allocator + Copy>(
    alloc: A,
    before: &AsBlocks<A>,
    set: &AsBlocks<A>,
    assigned: Result<(), AllocError>,
) -> Result<String<A>, AllocError> {
    match assigned {
        Err(error) if set == before => Err(error),
        _ => format!(in alloc; "{set}"),
    }
}

fn octets<A: Allocator + Copy>(alloc: A, set: &AsBlocks<A>) -> Result<String<A>, AllocError> {
    let mut output = print::output(alloc)?;
    let write = set.encode(&mut output);
    print::written(alloc, &output, write)
}

fn has<A: Allocator + Copy>(
    alloc: A,
    set: &AsBlocks<A>,
    number: &str,
) -> Result<String<A>, AllocError> {
    match Asn::from_str(number) {
        Ok(asn) => print::boolean(alloc, set.contains_asn(asn)),
        Err(fault) => print::error(alloc, fault),
    }
}
