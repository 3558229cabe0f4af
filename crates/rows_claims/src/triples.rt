//! Answers about sets of all three kinds of resources.
use crate::claims::result_text;
use rpki_as::resources::AsResources;
use rpki_base::memory::OrMemory;
use rpki_ipres::resources::IpResources;
use rpki_resources::repository::resources::ResourceDiff;
use rpki_resources::repository::resources::set::{FromStrError, ResourceSet};
use std::alloc::{AllocError, Allocator};
use test_support::names::named;
use test_support::print::{cut_at, made, refused, value};
use test_support::unchanged::kept;

/// Answers `set A ; B ; C`.
pub fn set<A: Allocator + Copy>(alloc: A, lists: &str) -> Result<String<A>, AllocError> {
    match read(alloc, lists) {
        Ok(set) => value(alloc, set),
        Err(error) => refused(alloc, error),
    }
}

/// Answers `diff A ; B ; C | D ; E ; F`.
pub fn difference<A: Allocator + Copy>(alloc: A, operands: &str) -> Result<String<A>, AllocError> {
    of_operands(alloc, Operation::Difference, operands)
}

/// Returns the set that three lists denote.
pub fn read<A: Allocator + Copy>(
    alloc: A,
    lists: &str,
) -> Result<ResourceSet<A>, OrMemory<FromStrError>> {
    let (asn, addresses) = cut_at(lists, ';');
    let (ipv4, ipv6) = cut_at(addresses, ';');
    ResourceSet::from_strs(alloc, asn, ipv4, ipv6)
}

/// An operation on two sets.
#[derive(Clone, Copy)]
enum Operation {
    Union,
    Intersection,
    /// Their difference.
    Difference,
    /// The resources that the first set has and the second does not.
    Added,
    /// A copy of their difference.
    Changes,
    /// A copy of the first.
    Copy,
    /// The first set, made again from the claims that list it.
    Claims,
    /// The set of all numbers.
    All,
}

const OPERATIONS: [(&str, Operation); 7] = [
    ("union", Operation::Union),
    ("intersection", Operation::Intersection),
    ("added", Operation::Added),
    ("changes", Operation::Changes),
    ("copy", Operation::Copy),
    ("claims", Operation::Claims),
    ("all", Operation::All),
];

/// Answers `triple OPERATION A ; B ; C | D ; E ; F`.
pub fn answer<A: Allocator + Copy>(
    alloc: A,
    name: &str,
    operands: &str,
) -> Result<String<A>, AllocError> {
    match named(&OPERATIONS, name) {
        Some(operation) => of_operands(alloc, operation, operands),
        None => String::from_str(alloc, "no such command"),
    }
}

fn of_operands<A: Allocator + Copy>(
    alloc: A,
    operation: Operation,
    operands: &str,
) -> Result<String<A>, AllocError> {
    let (left, _) = cut_at(operands, '|');
    match read(alloc, left) {
        Ok(set) => of_left(alloc, operation, &set, operands),
        Err(error) => refused(alloc, error),
    }
}

fn of_left<A: Allocator + Copy>(
    alloc: A,
    operation: Operation,
    set: &ResourceSet<A>,
    operands: &str,
) -> Result<String<A>, AllocError> {
    let (_, right) = cut_at(operands, '|');
    match read(alloc, right) {
        Ok(other) => of_both(alloc, operation, set, &other, operands),
        Err(error) => refused(alloc, error),
    }
}

/// Prints the result of an operation, and checks that both sets are unchanged, also if memory was refused.
fn of_both<A: Allocator + Copy>(
    alloc: A,
    operation: Operation,
    set: &ResourceSet<A>,
    other: &ResourceSet<A>,
    operands: &str,
) -> Result<String<A>, AllocError> {
    let found = given(alloc, operation, set, other);
    kept(alloc, found, are_sets_of(alloc, set, other, operands))
}

/// Returns whether two sets are still those that the operands denote.
fn are_sets_of<A: Allocator + Copy>(
    alloc: A,
    set: &ResourceSet<A>,
    other: &ResourceSet<A>,
    operands: &str,
) -> Result<bool, AllocError> {
    let (left, right) = cut_at(operands, '|');
    Ok(is_set_of(alloc, set, left)? && is_set_of(alloc, other, right)?)
}

/// Returns whether a set is still the one that three lists denote.
fn is_set_of<A: Allocator + Copy>(
    alloc: A,
    set: &ResourceSet<A>,
    lists: &str,
) -> Result<bool, AllocError> {
    match read(alloc, lists) {
        Ok(same) => Ok(*set == same),
        Err(OrMemory::Refused(_)) => Ok(false),
        Err(OrMemory::Memory(error)) => Err(error),
    }
}

fn given<A: Allocator + Copy>(
    alloc: A,
    operation: Operation,
    set: &ResourceSet<A>,
    other: &ResourceSet<A>,
) -> Result<String<A>, AllocError> {
    match operation {
        Operation::Union => made(alloc, set.union(alloc, other)),
        Operation::Intersection => made(alloc, set.intersection(alloc, other)),
        Operation::Difference => made(alloc, set.difference(alloc, other)),
        Operation::Added | Operation::Changes => {
            changes(alloc, operation, set.difference(alloc, other))
        }
        Operation::Copy => made(alloc, set.clone()),
        Operation::Claims => of_claims(alloc, set),
        Operation::All => made(alloc, ResourceSet::all(alloc)),
    }
}

fn changes<A: Allocator + Copy>(
    alloc: A,
    operation: Operation,
    changes: Result<ResourceDiff<A>, AllocError>,
) -> Result<String<A>, AllocError> {
    match changes {
        Ok(changes) => copy_of(alloc, operation, &changes),
        Err(error) => Err(error),
    }
}

fn copy_of<A: Allocator + Copy>(
    alloc: A,
    operation: Operation,
    changes: &ResourceDiff<A>,
) -> Result<String<A>, AllocError> {
    match operation {
        Operation::Added => made(alloc, changes.added().clone()),
        _ => made(alloc, changes.clone()),
    }
}

/// Prints the set of the claims that list a set.
fn of_claims<A: Allocator + Copy>(alloc: A, set: &ResourceSet<A>) -> Result<String<A>, AllocError> {
    match set.to_as_resources() {
        Ok(asn) => with_asn(alloc, set, &asn),
        Err(error) => Err(error),
    }
}

fn with_asn<A: Allocator + Copy>(
    alloc: A,
    set: &ResourceSet<A>,
    asn: &AsResources<A>,
) -> Result<String<A>, AllocError> {
    match set.to_ip_resources_v6() {
        Ok(ipv6) => with_ipv6(alloc, set, asn, &ipv6),
        Err(error) => Err(error),
    }
}

fn with_ipv6<A: Allocator + Copy>(
    alloc: A,
    set: &ResourceSet<A>,
    asn: &AsResources<A>,
    ipv6: &IpResources<A>,
) -> Result<String<A>, AllocError> {
    match set.to_ip_resources_v4() {
        Ok(ipv4) => result_text(alloc, ResourceSet::from_resources(asn, &ipv4, ipv6)),
        Err(error) => Err(error),
    }
}
