// Small sets of AS numbers.
ghost use Rattle.std.specs.Iterator.{IsFinite};

use crate::checks::holds;
use rpki_base::asn::Asn;
use rpki_base::small_set::SmallAsnSet;
use std::alloc::{AllocError, Allocator};
use test_support::{Plan, Refusing};

/// Returns the set of the numbers 1, 2 and 3.
fn three<A: Allocator>(alloc: A) -> Result<SmallAsnSet<A>, AllocError> {
    let (one, two, three) = (Asn::from_u32(1), Asn::from_u32(2), Asn::from_u32(3));
    SmallAsnSet::from_list(alloc, &[three, one, three, two])
}

/// Returns how many numbers an iterator gives.
fn size<I: Iterator<Item = Asn>>(asns: I) -> u64
    requires can { I.can_next asns }
    requires ends { IsFinite (I.remaining asns) }
{
    let mut size = 0u64;
    for _ in asns {
        size = size.saturating_add(1);
    }
    size
}

/// Returns how many numbers each iterator over two sets gives.
fn sizes<A: Allocator>(set: &SmallAsnSet<A>, other: &SmallAsnSet<A>) -> [u64; 5] {
    [
        size(set.iter()),
        size(set.union(other)),
        size(set.difference(other)),
        size(set.symmetric_difference(other)),
        size(set.intersection(other)),
    ]
}

fn sum<A: Allocator>(set: &SmallAsnSet<A>) -> u64 {
    let mut sum = 0u64;
    for asn in set {
        sum = sum.saturating_add(u64::from(asn.into_u32()));
    }
    sum
}

/// Returns whether a set of three numbers has them, and does not have 0.
fn is_three<A: Allocator>(set: &SmallAsnSet<A>) -> bool {
    let ends = (set.contains(Asn::MIN), set.contains(Asn::from_u32(3)));
    set.len() == 3 && !set.is_empty() && ends == (false, true) && sum(set) == 6
}

fn is_none<A: Allocator>(set: &SmallAsnSet<A>) -> bool {
    set.len() == 0 && set.is_empty() && !set.contains(Asn::MIN)
}

/// Returns whether the operations and orders of a set of three numbers and the empty one are right.
fn stand_so<A: Allocator>(set: &SmallAsnSet<A>, none: &SmallAsnSet<A>) -> bool {
    sizes(set, none) == [3, 3, 3, 3, 0] && *none < *set && *none != *set
}

fn are_right<A: Allocator>(set: &SmallAsnSet<A>, none: &SmallAsnSet<A>) -> bool {
    is_three(set) && is_none(none) && stand_so(set, none)
}

fn is_right<'a>(refusing: &'a Refusing, set: &SmallAsnSet<&'a Refusing>) -> bool {
    let none = SmallAsnSet::from_vec_unchecked(Vec::new(refusing));
    are_right(set, &none)
}

fn takes_nothing<'a>(refusing: &'a Refusing, set: &SmallAsnSet<&'a Refusing>) -> bool {
    let asked = refusing.asked();
    is_right(refusing, set) && asked > 0 && refusing.asked() == asked
}

fn asks_nothing(refusing: &Refusing) -> bool {
    match three(refusing) {
        Ok(set) => takes_nothing(refusing, &set),
        Err(_) => false,
    }
}

#[test]
fn calls_without_memory(rt: HostRuntime) {
    let refusing = Refusing::new(rt.alloc(), Plan::RefuseNone);
    holds(&rt, asks_nothing(&refusing));
}
