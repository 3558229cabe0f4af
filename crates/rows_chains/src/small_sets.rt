//! Answers about small sets of AS numbers.
ghost use Rattle.std.specs.Iterator.{IsFinite};

use crate::lists::Lists;
use rpki_base::asn::Asn;
use rpki_base::small_set::SmallAsnSet;
use std::alloc::{AllocError, Allocator};
use test_support::names::order_word;
use test_support::print;
use test_support::unchanged::kept;

/// Answers `small OPERATION X|Y`.
pub fn answer<A: Allocator + Copy>(
    alloc: A,
    operation: &str,
    operands: &str,
) -> Result<String<A>, AllocError> {
    match Lists::<Asn, A>::read(alloc, operands) {
        Ok(lists) => of_list(alloc, operation, &lists.left, &lists.right),
        Err(error) => print::refused(alloc, error),
    }
}

fn of_list<A: Allocator + Copy>(
    alloc: A,
    operation: &str,
    left: &[Asn],
    right: &[Asn],
) -> Result<String<A>, AllocError> {
    match SmallAsnSet::from_list(alloc, left) {
        Ok(set) => of_kept(alloc, operation, &set, left, right),
        Err(error) => Err(error),
    }
}

/// Answers a question about a set, and checks that the set is unchanged, also if memory was refused.
fn of_kept<A: Allocator + Copy>(
    alloc: A,
    operation: &str,
    set: &SmallAsnSet<A>,
    list: &[Asn],
    right: &[Asn],
) -> Result<String<A>, AllocError> {
    let found = of_set(alloc, operation, set, right);
    kept(alloc, found, is_set_of(alloc, set, list))
}

fn is_set_of<A: Allocator + Copy>(
    alloc: A,
    set: &SmallAsnSet<A>,
    list: &[Asn],
) -> Result<bool, AllocError> {
    let same = SmallAsnSet::from_list(alloc, list)?;
    Ok(*set == same)
}

fn of_set<A: Allocator + Copy>(
    alloc: A,
    operation: &str,
    set: &SmallAsnSet<A>,
    right: &[Asn],
) -> Result<String<A>, AllocError> {
    let other = SmallAsnSet::from_list(alloc, right)?;
    of_sets(alloc, operation, set, &other)
}

fn of_sets<A: Allocator + Copy>(
    alloc: A,
    operation: &str,
    set: &SmallAsnSet<A>,
    other: &SmallAsnSet<A>,
) -> Result<String<A>, AllocError> {
    match operation {
        "union" => numbers(alloc, set.union(other)),
        "intersection" => numbers(alloc, set.intersection(other)),
        "difference" => numbers(alloc, set.difference(other)),
        "symmetric" => numbers(alloc, set.symmetric_difference(other)),
        "order" => String::from_str(alloc, order_word(set.cmp(other))),
        "copy" => copy(alloc, set),
        _ => String::from_str(alloc, "no such command"),
    }
}

fn copy<A: Allocator + Copy>(alloc: A, set: &SmallAsnSet<A>) -> Result<String<A>, AllocError> {
    let copy = set.clone(alloc)?;
    numbers(alloc, copy.iter())
}

/// Prints numbers one by one.
pub fn numbers<A: Allocator + Copy, I: Iterator<Item = Asn>>(
    alloc: A,
    asns: I,
) -> Result<String<A>, AllocError>
    requires can { I.can_next asns }
    requires ends { IsFinite (I.remaining asns) }
{
    let mut numbers = String::new(alloc);
    for asn in asns {
        print::append(&mut numbers, " ", asn.into_u32())?;
    }
    Ok(numbers)
}
