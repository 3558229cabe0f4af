//! The memory that calls which make sets of AS numbers request.
use rows_chains::lists::Lists;
use rpki_as::block::AsBlock;
use rpki_as::blocks::AsBlocks;
use rpki_as::builder::AsBlocksBuilder;
use rpki_as::resources::AsResources;
use rpki_as::verify::AsStep;
use rpki_chain::path::Overclaim;
use std::alloc::{AllocError, Allocator, Global};
use test_support::asked::Asked;
use test_support::{Refusing, print};

/// Answers `requests as CALL A` and `requests as CALL A|B`.
pub fn answer(
    alloc: Global,
    counting: &Refusing,
    call: &str,
    lists: &str,
) -> Result<String, AllocError> {
    match Lists::<AsBlock, Global>::read(alloc, lists) {
        Ok(_) if call == "text" => text(alloc, counting, lists),
        Ok(lists) => of_blocks(alloc, counting, call, &lists.left, &lists.right),
        Err(error) => print::refused(alloc, error),
    }
}

fn text(alloc: Global, counting: &Refusing, list: &str) -> Result<String, AllocError> {
    let before = Asked::of(counting);
    before.since_result(alloc, counting, Ok(AsBlocks::from_str(counting, list)))
}

fn of_blocks(
    alloc: Global,
    counting: &Refusing,
    call: &str,
    blocks: &[AsBlock],
    more: &[AsBlock],
) -> Result<String, AllocError> {
    let before = Asked::of(counting);
    match call {
        "from_blocks" => before.since_result(
            alloc,
            counting,
            AsBlocks::from_blocks(counting, blocks),
        ),
        "from_vec" => before.since_result(alloc, counting, from_vec(counting, blocks)),
        "build" => before.since_result(alloc, counting, built(counting, blocks, more)),
        _ => with(
            alloc,
            counting,
            call,
            AsBlocks::from_blocks(counting, blocks),
            more,
        ),
    }
}

fn from_vec<A: Allocator + Copy>(alloc: A, blocks: &[AsBlock]) -> Result<AsBlocks<A>, AllocError> {
    AsBlocks::from_vec(alloc, blocks.to_vec(alloc)?)
}

fn built<A: Allocator + Copy>(
    alloc: A,
    blocks: &[AsBlock],
    more: &[AsBlock],
) -> Result<AsBlocks<A>, AllocError> {
    let mut builder = AsBlocksBuilder::new(alloc);
    push(&mut builder, blocks, more)?;
    builder.finalize()
}

/// Pushes blocks one by one, and appends more at once.
fn push<A: Allocator + Copy>(
    builder: &mut AsBlocksBuilder<A>,
    blocks: &[AsBlock],
    more: &[AsBlock],
) -> Result<(), AllocError> {
    for block in blocks {
        builder.push(*block)?;
    }
    builder.extend_from(more)
}

/// Counts the requests of a call on a set and the set of more blocks.
fn with<'a>(
    alloc: Global,
    counting: &'a Refusing,
    call: &str,
    set: Result<AsBlocks<&'a Refusing>, AllocError>,
    more: &[AsBlock],
) -> Result<String, AllocError> {
    match set {
        Ok(set) => beside(
            alloc,
            counting,
            call,
            &set,
            AsBlocks::from_blocks(counting, more),
        ),
        Err(error) => Err(error),
    }
}

fn beside<'a>(
    alloc: Global,
    counting: &'a Refusing,
    call: &str,
    set: &AsBlocks<&'a Refusing>,
    other: Result<AsBlocks<&'a Refusing>, AllocError>,
) -> Result<String, AllocError> {
    match other {
        Ok(other) => of_sets(alloc, counting, call, set, &other),
        Err(error) => Err(error),
    }
}

fn of_sets<'a>(
    alloc: Global,
    counting: &'a Refusing,
    call: &str,
    set: &AsBlocks<&'a Refusing>,
    other: &AsBlocks<&'a Refusing>,
) -> Result<String, AllocError> {
    let before = Asked::of(counting);
    match call {
        "octets" => before.since_result(alloc, counting, octets(counting, set)),
        "refuse" => path(alloc, counting, Overclaim::Refuse, set, other),
        "trim" => path(alloc, counting, Overclaim::Trim, set, other),
        _ => match made(counting, call, set, other) {
            Some(made) => before.since_result(alloc, counting, made),
            None => String::from_str(alloc, "no such call"),
        },
    }
}

/// Returns the set that a call makes, or `None` if no call has this name.
fn made<A: Allocator + Copy>(
    alloc: A,
    call: &str,
    set: &AsBlocks<A>,
    other: &AsBlocks<A>,
) -> Option<Result<AsBlocks<A>, AllocError>> {
    match call {
        "union" => Some(set.union(alloc, other)),
        "intersection" => Some(set.intersection(alloc, other)),
        "difference" => Some(set.difference(alloc, other)),
        "assign" => Some(assigned(alloc, set, other)),
        "all" => Some(AsBlocks::all(alloc)),
        "copy" => Some(set.clone()),
        _ => None,
    }
}

fn assigned<A: Allocator + Copy>(
    alloc: A,
    set: &AsBlocks<A>,
    other: &AsBlocks<A>,
) -> Result<AsBlocks<A>, AllocError> {
    let mut common = set.clone()?;
    common.intersection_assign(alloc, other)?;
    Ok(common)
}

fn octets<A: Allocator + Copy>(alloc: A, set: &AsBlocks<A>) -> Result<Vec<u8, A>, AllocError> {
    let mut octets = Vec::new(alloc);
    set.encode(&mut octets)?;
    Ok(octets)
}

/// Counts the requests for a path of two steps: one claims what the anchor has, and one claims another set.
fn path<'a>(
    alloc: Global,
    counting: &'a Refusing,
    mode: Overclaim,
    anchor: &AsBlocks<&'a Refusing>,
    claimed: &AsBlocks<&'a Refusing>,
) -> Result<String, AllocError> {
    let steps = steps(anchor, claimed, mode)?;
    let before = Asked::of(counting);
    before.since_result(alloc, counting, Ok(anchor.verify_path(counting, &steps)))
}

fn steps<A: Allocator>(
    anchor: &AsBlocks<A>,
    claimed: &AsBlocks<A>,
    mode: Overclaim,
) -> Result<[AsStep<A>; 2], AllocError> {
    let first = step(anchor, mode)?;
    let second = step(claimed, mode)?;
    Ok([first, second])
}

fn step<A: Allocator>(set: &AsBlocks<A>, mode: Overclaim) -> Result<AsStep<A>, AllocError> {
    let claim = AsResources::blocks(set.clone()?);
    Ok(AsStep { claim, mode })
}
