//! Answers about sets of addresses of one family.
use crate::question::{Operation, Question};
use rows_chains::lists::Lists;
use rpki_base::memory::OrMemory;
use rpki_family::v4::Ipv4Blocks;
use rpki_family::v6::Ipv6Blocks;
use rpki_ip::error::FromStrError;
use rpki_ip::family::AddressFamily;
use rpki_ipres::block::IpBlock;
use rpki_ipres::blocks::IpBlocks;
use rpki_ipres::builder::IpBlocksBuilder;
use std::alloc::{AllocError, Allocator};
use test_support::print::{self, cut_at};
use test_support::unchanged::kept;

/// Answers `QUESTION v4 A` and `QUESTION v4 A|B`, and the same for `v6`.
pub fn answer<A: Allocator + Copy>(
    alloc: A,
    family: AddressFamily,
    question: Question,
    operands: &str,
) -> Result<String<A>, AllocError> {
    match question {
        Question::All => text(alloc, family, IpBlocks::all(alloc)),
        Question::Build | Question::FromBlocks | Question::FromVec => {
            of_lists(alloc, family, question, operands)
        }
        _ => of_operands(alloc, family, question, operands),
    }
}

/// Prints the set that is made of blocks.
fn of_lists<A: Allocator + Copy>(
    alloc: A,
    family: AddressFamily,
    question: Question,
    operands: &str,
) -> Result<String<A>, AllocError> {
    match Lists::<IpBlock, A>::read(alloc, operands) {
        Ok(lists) => of_blocks(alloc, family, question, &lists.left, &lists.right),
        Err(error) => print::refused(alloc, error),
    }
}

fn of_blocks<A: Allocator + Copy>(
    alloc: A,
    family: AddressFamily,
    question: Question,
    blocks: &[IpBlock],
    more: &[IpBlock],
) -> Result<String<A>, AllocError> {
    match question {
        Question::Build => build(alloc, family, blocks, more),
        Question::FromVec => from_vec(alloc, family, blocks.to_vec(alloc)),
        _ => text(alloc, family, IpBlocks::from_blocks(alloc, blocks)),
    }
}

fn from_vec<A: Allocator + Copy>(
    alloc: A,
    family: AddressFamily,
    blocks: Result<Vec<IpBlock, A>, AllocError>,
) -> Result<String<A>, AllocError> {
    match blocks {
        Ok(blocks) => text(alloc, family, IpBlocks::from_vec(alloc, blocks)),
        Err(error) => Err(error),
    }
}

/// Prints the set of blocks that are pushed one by one, and of more that are appended at once.
fn build<A: Allocator + Copy>(
    alloc: A,
    family: AddressFamily,
    blocks: &[IpBlock],
    more: &[IpBlock],
) -> Result<String<A>, AllocError> {
    let mut builder = IpBlocksBuilder::new(alloc);
    let pushed = push(&mut builder, blocks, more);
    match builder.finalize() {
        Ok(set) => built(alloc, family, &set, pushed),
        Err(error) => Err(error),
    }
}

/// Pushes blocks one by one, and appends more at once.
///
/// If memory runs out, `Err` has the blocks that were pushed before.
fn push<'a, A: Allocator + Copy>(
    builder: &mut IpBlocksBuilder<A>,
    blocks: &'a [IpBlock],
    more: &[IpBlock],
) -> Result<(), &'a [IpBlock]> {
    for (at, block) in blocks.iter().enumerate() {
        if builder.push(*block).is_err() {
            return Err(&blocks[..at]);
        }
    }
    match builder.extend_from(more) {
        Ok(()) => Ok(()),
        Err(AllocError) => Err(blocks),
    }
}

/// Prints the set of a builder, or returns `AllocError` if the builder refused a block and still has those before it.
fn built<A: Allocator + Copy>(
    alloc: A,
    family: AddressFamily,
    set: &IpBlocks<A>,
    pushed: Result<(), &[IpBlock]>,
) -> Result<String<A>, AllocError> {
    match pushed {
        Err(blocks) if is_set_of(alloc, set, blocks)? => Err(AllocError),
        _ => print::value(alloc, set.display_with_family(family)),
    }
}

fn is_set_of<A: Allocator + Copy>(
    alloc: A,
    set: &IpBlocks<A>,
    blocks: &[IpBlock],
) -> Result<bool, AllocError> {
    let other = IpBlocks::from_blocks(alloc, blocks)?;
    Ok(*set == other)
}

fn of_operands<A: Allocator + Copy>(
    alloc: A,
    family: AddressFamily,
    question: Question,
    operands: &str,
) -> Result<String<A>, AllocError> {
    let (left, _) = cut_at(operands, '|');
    match read(alloc, family, left) {
        Ok(set) => of_kept(alloc, family, question, &set, operands),
        Err(error) => print::refused(alloc, error),
    }
}

/// Answers a question about a set, and checks that the set is unchanged, also if memory was refused.
fn of_kept<A: Allocator + Copy>(
    alloc: A,
    family: AddressFamily,
    question: Question,
    set: &IpBlocks<A>,
    operands: &str,
) -> Result<String<A>, AllocError> {
    let (left, right) = cut_at(operands, '|');
    let found = of_set(alloc, family, question, set, right);
    kept(alloc, found, is_list(alloc, family, set, left))
}

/// Returns whether a set is still the one that a list denotes.
fn is_list<A: Allocator + Copy>(
    alloc: A,
    family: AddressFamily,
    set: &IpBlocks<A>,
    list: &str,
) -> Result<bool, AllocError> {
    match read(alloc, family, list) {
        Ok(same) => Ok(*set == same),
        Err(OrMemory::Refused(_)) => Ok(false),
        Err(OrMemory::Memory(error)) => Err(error),
    }
}

fn of_set<A: Allocator + Copy>(
    alloc: A,
    family: AddressFamily,
    question: Question,
    set: &IpBlocks<A>,
    right: &str,
) -> Result<String<A>, AllocError> {
    match question {
        Question::Copy => text(alloc, family, set.clone()),
        Question::Octets => octets(alloc, set),
        Question::Has | Question::Meets => has(alloc, family, question, set, right),
        Question::Both(operation) => of_both(alloc, family, operation, set, right),
        _ => String::from_str(alloc, "no such command"),
    }
}

/// Returns the set that a list of the family denotes.
fn read<A: Allocator + Copy>(
    alloc: A,
    family: AddressFamily,
    list: &str,
) -> Result<IpBlocks<A>, OrMemory<FromStrError>> {
    match family {
        AddressFamily::Ipv4 => read_v4(alloc, list),
        AddressFamily::Ipv6 => read_v6(alloc, list),
    }
}

fn read_v4<A: Allocator + Copy>(
    alloc: A,
    list: &str,
) -> Result<IpBlocks<A>, OrMemory<FromStrError>> {
    let set = Ipv4Blocks::from_str(alloc, list)?;
    Ok(set.ip_blocks().clone()?)
}

fn read_v6<A: Allocator + Copy>(
    alloc: A,
    list: &str,
) -> Result<IpBlocks<A>, OrMemory<FromStrError>> {
    let set = Ipv6Blocks::from_str(alloc, list)?;
    Ok(set.ip_blocks().clone()?)
}

/// Prints whether a set has each address of a block, or some address of it. The text is in the notation of the family.
fn has<A: Allocator + Copy>(
    alloc: A,
    family: AddressFamily,
    question: Question,
    set: &IpBlocks<A>,
    text: &str,
) -> Result<String<A>, AllocError> {
    match (block(family, text), question) {
        (Ok(block), Question::Has) => print::boolean(alloc, set.contains_block(block)),
        (Ok(block), _) => print::boolean(alloc, set.intersects_block(block)),
        (Err(fault), _) => print::error(alloc, fault),
    }
}

fn block(family: AddressFamily, text: &str) -> Result<IpBlock, FromStrError> {
    match family {
        AddressFamily::Ipv4 => IpBlock::from_v4_str(text),
        AddressFamily::Ipv6 => IpBlock::from_v6_str(text),
    }
}

fn of_both<A: Allocator + Copy>(
    alloc: A,
    family: AddressFamily,
    operation: Operation,
    set: &IpBlocks<A>,
    right: &str,
) -> Result<String<A>, AllocError> {
    match read(alloc, family, right) {
        Ok(other) => of_both_kept(alloc, family, operation, set, &other, right),
        Err(error) => print::refused(alloc, error),
    }
}

/// Answers a question about two sets, and checks that the second one is unchanged too, also if memory was refused.
fn of_both_kept<A: Allocator + Copy>(
    alloc: A,
    family: AddressFamily,
    operation: Operation,
    set: &IpBlocks<A>,
    other: &IpBlocks<A>,
    list: &str,
) -> Result<String<A>, AllocError> {
    let found = of_two(alloc, family, operation, set, other);
    kept(alloc, found, is_list(alloc, family, other, list))
}

fn of_two<A: Allocator + Copy>(
    alloc: A,
    family: AddressFamily,
    operation: Operation,
    set: &IpBlocks<A>,
    other: &IpBlocks<A>,
) -> Result<String<A>, AllocError> {
    match operation {
        Operation::Union => text(alloc, family, set.union(alloc, other)),
        Operation::Intersection => text(alloc, family, set.intersection(alloc, other)),
        Operation::Assign => assign(alloc, family, set, other),
        Operation::Difference => text(alloc, family, set.difference(alloc, other)),
        Operation::Contains => print::boolean(alloc, set.contains(other)),
        Operation::Equal => print::boolean(alloc, set == other),
    }
}

/// Prints the intersection, which is computed in place.
fn assign<A: Allocator + Copy>(
    alloc: A,
    family: AddressFamily,
    set: &IpBlocks<A>,
    other: &IpBlocks<A>,
) -> Result<String<A>, AllocError> {
    let mut common = set.clone()?;
    let assigned = common.intersection_assign(alloc, other);
    assigned_text(alloc, family, set, &common, assigned)
}

/// Prints the set after an assignment, or returns `AllocError` if memory ran out and the set is unchanged.
fn assigned_text<A: Allocator + Copy>(
    alloc: A,
    family: AddressFamily,
    before: &IpBlocks<A>,
    set: &IpBlocks<A>,
    assigned: Result<(), AllocError>,
) -> Result<String<A>, AllocError> {
    match assigned {
        Err(error) if set == before => Err(error),
        _ => print::value(alloc, set.display_with_family(family)),
    }
}

fn octets<A: Allocator + Copy>(alloc: A, set: &IpBlocks<A>) -> Result<String<A>, AllocError> {
    let mut output = print::output(alloc)?;
    let write = set.encode(&mut output);
    print::written(alloc, &output, write)
}

fn text<A: Allocator + Copy>(
    alloc: A,
    family: AddressFamily,
    set: Result<IpBlocks<A>, AllocError>,
) -> Result<String<A>, AllocError> {
    match set {
        Ok(set) => print::value(alloc, set.display_with_family(family)),
        Err(error) => Err(error),
    }
}
