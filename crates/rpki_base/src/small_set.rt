//! Small sets of AS numbers: ascending lists without duplicates.
ghost use Rattle.std.specs.Prelude.{◌≡◌, ◌↔◌, ◌+◌, ◌^◌, ◌<◌, ◌≤◌, [], length, IsTrue, IfOk, Some, Contains, nat_eq, refl};
ghost use Rattle.std.specs.Cmp.{partial_equiv_from_equiv};
ghost use Rattle.std.specs.Cmp.Lexicographic.{pointwise, slice_cmp, nat_list_eq_equiv, nat_list_cmp_total, texts_po, texts_ties};
ghost use Rattle.std.specs.Cmp.Rules.{hashing};
ghost use Rattle.std.specs.Hash as fed;
ghost use Rattle.std.specs.Ordering.{nat_cmp};
ghost use Rattle.std.proofs.Common.{rules};
ghost use Rattle.rpki_base.specs.SmallSet.{IsSmallSet, IsSmallSetOf, IsInFirstAlone, IsInOne, IsInBoth, IsInEither};

mod iter;
mod walk;

use crate::asn::Asn;
pub use iter::{
    SmallSetDifference, SmallSetIntersection, SmallSetIter, SmallSetSymmetricDifference,
    SmallSetUnion,
};
use std::alloc::{AllocError, Allocator, Global};
use std::cmp::Ordering;
use std::fmt;
use std::hash::{Hash, Hasher};
use std::marker::Model;

/// A set of AS numbers, stored as an ascending list.
///
/// Sets are equal if and only if they have the same numbers. They sort as their ascending lists, number by number.
#[derive(Drop)]
pub struct SmallAsnSet<A: Allocator = Global> {
    items: Vec<Asn, A>,
}

impl<A: Allocator> Model for SmallAsnSet<A> {
    ghost use Rattle.std.specs.Prelude.{ℕ, List};
    ghost use Rattle.rpki_base.specs.SmallSet.{IsSmallSet};

    ghost Value = { List ℕ };

    ghost view = { λ set. set.items.items };

    ghost invariant = { λ set. IsSmallSet set.items.items };
}

impl<A: Allocator> SmallAsnSet<A> {
    /// Returns the set of the AS numbers in `list`, which may be in any order and have duplicates.
    ///
    /// # Errors
    ///
    /// `AllocError`: out of memory.
    pub fn from_list(alloc: A, list: &[Asn]) -> Result<SmallAsnSet<A>, AllocError>
        ensures { IfOk result (λ set. IsSmallSetOf (Contains list.now) set) }
    {
        let mut items = Vec::from_slice(alloc, list)?;
        items.sort_unstable();
        items.dedup();
        Ok(SmallAsnSet { items })
    }

    /// Returns a copy of the set, allocated in `alloc`.
    ///
    /// # Errors
    ///
    /// `AllocError`: out of memory.
    pub fn clone(&self, alloc: A) -> Result<SmallAsnSet<A>, AllocError>
        ensures { IfOk result (λ set. set ≡ self.now) }
    {
        let items = Vec::from_slice(alloc, self.items.as_slice())?;
        Ok(SmallAsnSet { items })
    }

    /// Returns the set of the AS numbers in `items`, without a check.
    ///
    /// # Preconditions
    ///
    /// Each AS number is below the next. A vector with at most one number always satisfies this.
    pub fn from_vec_unchecked(items: Vec<Asn, A>) -> SmallAsnSet<A>
        requires { IsSmallSet items.items }
        ensures { result ≡ items.items }
    {
        SmallAsnSet { items }
    }

    /// Returns an iterator over the AS numbers of the set, ascending.
    pub fn iter(&self) -> SmallSetIter<'_>
        ensures items { result ≡ self.now }
        ensures ascending { IsSmallSet self.now }
        ensures fits { length result < 2 ^ 64 }
    {
        SmallSetIter::new(self.items.as_slice())
    }

    /// Returns the number of AS numbers in the set.
    pub fn len(&self) -> usize
        ensures { result ≡ length self.now }
    {
        self.items.len()
    }

    /// Returns whether the set is empty.
    pub fn is_empty(&self) -> bool
        ensures { IsTrue result ↔ (self.now ≡ []) }
    {
        self.items.is_empty()
    }

    /// Returns whether the AS number is in the set, by a binary search.
    pub fn contains(&self, asn: Asn) -> bool
        ensures { IsTrue result ↔ Contains self.now asn }
    {
        self.items.as_slice().binary_search(&asn).is_ok()
    }

    /// Returns an iterator over the AS numbers that are in this set and not in the other, ascending.
    #[tactic(auto, using(crate::proofs::SmallSetWalkLemmas::walk_is))]
    pub fn difference<'a>(&'a self, other: &'a SmallAsnSet<A>) -> SmallSetDifference<'a>
        ensures set { IsSmallSetOf (IsInFirstAlone self.now other.now) result }
        ensures few { length result ≤ length self.now }
        ensures fits { length result < 2 ^ 64 }
    {
        SmallSetDifference::new(self.items.as_slice(), other.items.as_slice())
    }

    /// Returns an iterator over the AS numbers that are in exactly one of the sets, ascending.
    #[tactic(auto, using(crate::proofs::SmallSetWalkLemmas::walk_is))]
    pub fn symmetric_difference<'a>(
        &'a self,
        other: &'a SmallAsnSet<A>,
    ) -> SmallSetSymmetricDifference<'a>
        ensures set { IsSmallSetOf (IsInOne self.now other.now) result }
        ensures few { length result ≤ length self.now + length other.now }
        ensures fits { length result < 2 ^ 64 }
    {
        SmallSetSymmetricDifference::new(self.items.as_slice(), other.items.as_slice())
    }

    /// Returns an iterator over the AS numbers that are in both sets, ascending.
    #[tactic(auto, using(crate::proofs::SmallSetWalkLemmas::walk_is))]
    pub fn intersection<'a>(&'a self, other: &'a SmallAsnSet<A>) -> SmallSetIntersection<'a>
        ensures set { IsSmallSetOf (IsInBoth self.now other.now) result }
        ensures few { length result ≤ length self.now }
        ensures few_of_other { length result ≤ length other.now }
        ensures fits { length result < 2 ^ 64 }
    {
        SmallSetIntersection::new(self.items.as_slice(), other.items.as_slice())
    }

    /// Returns an iterator over the AS numbers that are in at least one of the sets, ascending.
    #[tactic(auto, using(crate::proofs::SmallSetWalkLemmas::walk_is))]
    pub fn union<'a>(&'a self, other: &'a SmallAsnSet<A>) -> SmallSetUnion<'a>
        ensures set { IsSmallSetOf (IsInEither self.now other.now) result }
        ensures few { length result ≤ length self.now + length other.now }
        ensures fits { length result < 2 ^ 64 }
    {
        SmallSetUnion::new(self.items.as_slice(), other.items.as_slice())
    }
}

impl<'a, A: Allocator> IntoIterator for &'a SmallAsnSet<A> {
    type Item = Asn;

    type IntoIter = SmallSetIter<'a>;

    // the postconditions of `iter`
    ghost into_iter_gives = { λ set iter. (iter ≡ set.now) × IsSmallSet set.now
        × (length iter < 2 ^ 64) };

    fn into_iter(self) -> SmallSetIter<'a> {
        self.iter()
    }
}

impl<A: Allocator> fmt::Debug for SmallAsnSet<A> {
    fn fmt<W: fmt::Write>(&self, f: &mut fmt::Formatter<W>) -> fmt::Result {
        f.debug_set().entries(self.iter()).finish()
    }
}

impl<A: Allocator> PartialEq for SmallAsnSet<A> {
    ghost eq = { pointwise nat_eq };

    ghost laws = { partial_equiv_from_equiv nat_list_eq_equiv };

    fn eq(&self, other: &SmallAsnSet<A>) -> bool {
        self.items == other.items
    }
}

impl<A: Allocator> Eq for SmallAsnSet<A> {
    ghost laws = { nat_list_eq_equiv };
}

impl<A: Allocator> PartialOrd for SmallAsnSet<A> {
    ghost partial_cmp = { λ a b. Some (slice_cmp nat_cmp a b) };

    ghost laws = { texts_po };

    fn partial_cmp(&self, other: &SmallAsnSet<A>) -> Option<Ordering> {
        Some(self.cmp(other))
    }
}

impl<A: Allocator> Ord for SmallAsnSet<A> {
    ghost cmp = { slice_cmp nat_cmp };

    ghost total = { nat_list_cmp_total };

    ghost matches_partial_cmp = { λ a b. refl };

    ghost matches_eq = { texts_ties };

    fn cmp(&self, other: &SmallAsnSet<A>) -> Ordering {
        self.items.cmp(&other.items)
    }
}

impl<A: Allocator> Hash for SmallAsnSet<A> {
    ghost hash_input = { fed.slice fed.u32 };

    ghost respects_eq = { Prim.search (hashing, rules) };

    fn hash<H: Hasher>(&self, state: &mut H) {
        self.items.hash(state);
    }
}
