//! Iterators over small sets: ascending, each number once. They allocate nothing. Each step takes a number off one
//! list or off both.
ghost use Rattle.std.specs.Prelude.{◌≡◌};
ghost use Rattle.std.specs.Iterator.{YieldsFirst, item_count};
ghost use Rattle.rpki_base.specs.Walks.{walk, only_left, only_one, only_both, any_side};
ghost use Rattle.rpki_base.specs.declared.small_set.walk.Wanted.{Wanted as WantedOf};

use super::walk::{Walk, Wanted};
use crate::asn::Asn;
use std::fmt;
use std::marker::{Model, PhantomData};

/// An iterator over the AS numbers of a set.
#[derive(Debug, Drop)]
pub struct SmallSetIter<'a> {
    items: &'a [Asn],
}

impl<'a> Model for SmallSetIter<'a> {
    ghost use Rattle.std.specs.Prelude.{ℕ, List};

    ghost Value = { List ℕ };

    ghost view = { λ iter. iter.items.now };
}

impl<'a> SmallSetIter<'a> {
    pub(crate) fn new(items: &'a [Asn]) -> SmallSetIter<'a>
        ensures { result ≡ items.now }
    {
        SmallSetIter { items }
    }
}

impl<'a> Iterator for SmallSetIter<'a> {
    type Item = Asn;

    ghost next_gives = { YieldsFirst (λ rest. rest) };

    ghost remaining = { item_count (λ rest. rest) };

    fn next(&mut self) -> Option<Asn> {
        let (first, rest) = self.items.split_first()?;
        self.items = rest;
        Some(*first)
    }
}

/// An operation on two sets.
pub trait Operation {
    // The numbers that the operation gives, by the set or sets that they are in.
    ghost WANTED: { WantedOf };

    /// The numbers that the operation gives, by the set or sets that they are in.
    const WANTED: Wanted;
}

/// An iterator over the AS numbers of two sets that an operation gives.
#[derive(Drop)]
pub struct SmallSetOperation<'a, O: Operation> {
    walk: Walk<'a>,
    operation: PhantomData<O>,
}

impl<'a, O: Operation> Model for SmallSetOperation<'a, O> {
    ghost use Rattle.std.specs.Prelude.{ℕ, List};
    ghost use Rattle.rpki_base.specs.Walks.{walk as walk_of};

    ghost Value = { List ℕ };

    ghost view = { λ iter. walk_of O.WANTED iter.walk.left.now iter.walk.right.now };
}

impl<'a, O: Operation> SmallSetOperation<'a, O> {
    pub(crate) fn new(left: &'a [Asn], right: &'a [Asn]) -> SmallSetOperation<'a, O>
        ensures { result ≡ walk O.WANTED left.now right.now }
    {
        SmallSetOperation {
            walk: Walk { left, right },
            operation: PhantomData,
        }
    }
}

impl<O: Operation> fmt::Debug for SmallSetOperation<'_, O> {
    fn fmt<W: fmt::Write>(&self, f: &mut fmt::Formatter<W>) -> fmt::Result {
        f.debug_tuple("SmallSetOperation")
            .field(&self.walk)
            .finish()
    }
}

impl<O: Operation> Iterator for SmallSetOperation<'_, O> {
    type Item = Asn;

    ghost next_gives = { YieldsFirst (λ rest. rest) };

    ghost remaining = { item_count (λ rest. rest) };

    fn next(&mut self) -> Option<Asn> {
        self.walk.next(O::WANTED)
    }
}

/// The operation that gives the AS numbers that are in one set and not in the other.
pub enum Difference {}

impl Operation for Difference {
    ghost WANTED = { only_left };

    const WANTED: Wanted = Wanted::LEFT;
}

/// An iterator over the AS numbers that are in one set and not in the other.
pub type SmallSetDifference<'a> = SmallSetOperation<'a, Difference>;

/// The operation that gives the AS numbers that are in exactly one of two sets.
pub enum SymmetricDifference {}

impl Operation for SymmetricDifference {
    ghost WANTED = { only_one };

    const WANTED: Wanted = Wanted::ONE;
}

/// An iterator over the AS numbers that are in exactly one of two sets.
pub type SmallSetSymmetricDifference<'a> = SmallSetOperation<'a, SymmetricDifference>;

/// The operation that gives the AS numbers that are in both of two sets.
pub enum Intersection {}

impl Operation for Intersection {
    ghost WANTED = { only_both };

    const WANTED: Wanted = Wanted::BOTH;
}

/// An iterator over the AS numbers that are in both of two sets.
pub type SmallSetIntersection<'a> = SmallSetOperation<'a, Intersection>;

/// The operation that gives the AS numbers that are in at least one of two sets.
pub enum Union {}

impl Operation for Union {
    ghost WANTED = { any_side };

    const WANTED: Wanted = Wanted::ANY;
}

/// An iterator over the AS numbers that are in at least one of two sets.
pub type SmallSetUnion<'a> = SmallSetOperation<'a, Union>;
