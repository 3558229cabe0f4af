//! The borrowed view of a chain, and the operations on the sets that chains denote.
ghost use Rattle.std.specs.Prelude.{◌≡◌, ◌↔◌, IsTrue, map};
ghost use Rattle.std.specs.Coded.{Coded-set};
ghost use Rattle.rpki_chain_core.specs.Sets.{IsChain};
ghost use Rattle.rpki_chain_core.specs.ChainLaws.{IsChain-prop};

use crate::binary_search::{is_far_longer, overhang_by_binary_search};
use crate::counted::Counted;
use crate::difference::difference_counted;
use crate::membership::{contains_block, contains_item_counted, intersects_block};
use crate::overhang::{Overhang, overhang_of};
use crate::owned::OwnedChain;
use crate::trim::trim_counted;
use crate::union::union_counted;
use rpki_block::block::Block;
use rpki_text::memory::OrMemory;
use std::alloc::{AllocError, Allocator};
use std::fmt;
use std::slice::Iter;

/// A view of ascending blocks that neither overlap nor touch, each in the form that `new` gives.
///
/// The blocks are the only list of the maximal runs of the numbers that they cover (RFC 3779, 2.2.3.6 and 3.2.3.4).
pub struct Chain<'a, T: Block> {
    blocks: &'a [T],
    pub ghost is_chain: { IsChain T.bounds T.form blocks.now } by { IsChain-prop (Coded-set T.code) },
}

impl<'a, T: Block> Chain<'a, T> {
    ghost use Rattle.std.specs.Prelude.{◌≡◌, ℕ, ◌≤◌, ◌↔◌, List, [], length, IsTrue};
    ghost use Rattle.std.specs.Slice.Iter.{iter_rest};
    ghost use Rattle.rpki_chain_core.specs.Sets.{Covers, IsChain, IsChainOf};
    ghost use Rattle.rpki_chain_core.specs.View.{chain_blocks};

    /// Returns the chain without blocks.
    pub fn empty() -> Self
        ensures { chain_blocks result ≡ [] }
    {
        Chain { blocks: &[] }
    }

    /// Returns a view of blocks that are a chain already.
    pub(crate) fn from_slice_unchecked(blocks: &'a [T]) -> Self
        requires { IsChain T.bounds T.form blocks.now }
        ensures { chain_blocks result ≡ blocks.now }
    {
        Chain { blocks }
    }

    /// Returns the blocks in ascending order. They are exactly the runs of the numbers that they cover.
    ///
    /// No other list is the chain of these numbers, and no shorter list of blocks covers the same numbers.
    pub fn as_slice(self) -> &'a [T]
        ensures value { result.now ≡ chain_blocks self.entry }
        ensures chain { IsChainOf T.bounds T.form (Covers T.bounds result.now) result.now }
        ensures only { (blocks : List T) →
            IsChainOf T.bounds T.form (Covers T.bounds result.now) blocks →
            blocks ≡ result.now }
        ensures shortest { (blocks : List T) →
            ((n : ℕ) → Covers T.bounds blocks n ↔ Covers T.bounds result.now n) →
            length result.now ≤ length blocks }
    {
        self.blocks
    }

    /// Returns the number of blocks.
    pub fn len(self) -> usize
        ensures { result ≡ length (chain_blocks self.entry) }
    {
        self.blocks.len()
    }

    /// Returns whether there is no block.
    pub fn is_empty(self) -> bool
        ensures { IsTrue result ↔ (chain_blocks self.entry ≡ []) }
    {
        self.blocks.is_empty()
    }

    /// Returns an iterator over the blocks, ascending.
    pub fn iter(self) -> Iter<'a, T>
        ensures { iter_rest result ≡ chain_blocks self.entry }
    {
        self.blocks.iter()
    }
}

impl<T: Block> Chain<'_, T> {
    ghost use Rattle.std.specs.Prelude.{ℕ, ◌+◌, ◌≤◌, ◌↔◌, ◌⊎◌, length, IsTrue, IsOk, IfOk, IfErr, MatchOption};
    ghost use Rattle.rpki_text.specs.Memory.{IfRefused};
    ghost use Rattle.rpki_chain_core.specs.Sets.{IsWithin, Covers, IsInside, IsChainOf};
    ghost use Rattle.rpki_chain_core.specs.Overhang.{IsOverhang};
    ghost use Rattle.rpki_chain_core.specs.View.{chain_blocks};

    /// Returns whether `item` lies in one of the blocks. This is a binary search.
    pub fn contains_item(self, item: T::Item) -> bool
        ensures { IsTrue result ↔ Covers T.bounds (chain_blocks self.entry) (T.number item) }
    {
        contains_item_counted(&mut Counted::new(self), item)
    }

    /// Returns whether each item of `block` lies in one of the blocks. This is a binary search.
    pub fn contains_block(self, block: &T) -> bool
        ensures { IsTrue result ↔ ((n : ℕ) →
            IsWithin (T.bounds block.now) n → Covers T.bounds (chain_blocks self.entry) n) }
    {
        contains_block(&mut Counted::new(self), block)
    }

    /// Returns whether at least one item of `block` lies in one of the blocks. This is a binary search.
    pub fn intersects_block(self, block: &T) -> bool
        ensures { IsTrue result ↔ ((n : ℕ) ×
            IsWithin (T.bounds block.now) n × Covers T.bounds (chain_blocks self.entry) n) }
    {
        intersects_block(&mut Counted::new(self), block)
    }

    /// Returns whether `other` has each number of `self`.
    pub fn is_encompassed(self, other: Chain<'_, T>) -> bool
        ensures { IsTrue result ↔
            IsInside T.bounds (chain_blocks self.entry) (chain_blocks other.entry) }
    {
        self.overhang(other).is_none()
    }

    /// Returns the first block of `self` that doesn't lie in `other`, or None if each block does.
    ///
    /// The call allocates nothing. If `other` has at least 64 times as many blocks, the call does a binary search for
    /// each block of `self`.
    pub(crate) fn overhang(self, other: Chain<'_, T>) -> Option<Overhang<T::Item>>
        ensures { MatchOption result
            (IsInside T.bounds (chain_blocks self.entry) (chain_blocks other.entry))
            (IsOverhang T.bounds T.number T.first T.last
            (chain_blocks self.entry) (chain_blocks other.entry)) }
    {
        if is_far_longer(other.len(), self.len()) {
            return overhang_by_binary_search(&mut Counted::new(self), &mut Counted::new(other));
        }
        overhang_of(self.blocks, other.blocks)
    }

    /// Checks that `other` has each number of `self`. If it has, the call allocates nothing.
    ///
    /// The chain in `Refused` is an owned one. [`crate::shared::SharedChain::trim_shared`] returns a shared one.
    ///
    /// # Errors
    ///
    /// - `Refused`: `other` doesn't have each number. The variant holds the chain of the numbers that both have. This
    ///   chain has at most as many blocks as both together.
    /// - `Memory`: out of memory for this chain.
    pub fn trim<A: Allocator>(
        self,
        alloc: A,
        other: Chain<'_, T>,
    ) -> Result<(), OrMemory<OwnedChain<T, A>>>
        ensures ok { IsOk result ↔
            IsInside T.bounds (chain_blocks self.entry) (chain_blocks other.entry) }
        ensures refused { IfErr result (IfRefused (λ chain. IsChainOf T.bounds T.form (λ n.
            Covers T.bounds (chain_blocks self.entry) n ×
            Covers T.bounds (chain_blocks other.entry) n) chain)) }
        ensures few { IfErr result (IfRefused (λ chain.
            length chain ≤ length (chain_blocks self.entry) + length (chain_blocks other.entry))) }
    {
        trim_counted(alloc, &mut Counted::new(self), &mut Counted::new(other))
    }

    /// Returns the chain of the numbers of `self` that `other` doesn't have.
    ///
    /// The result has at most as many blocks as both together.
    ///
    /// # Errors
    ///
    /// [`AllocError`]: out of memory.
    pub fn difference<A: Allocator>(
        self,
        alloc: A,
        other: Chain<'_, T>,
    ) -> Result<OwnedChain<T, A>, AllocError>
        ensures difference { IfOk result (λ chain. IsChainOf T.bounds T.form (λ n.
            Covers T.bounds (chain_blocks self.entry) n ×
            (Covers T.bounds (chain_blocks other.entry) n → ⊥)) chain) }
        ensures few { IfOk result (λ chain.
            length chain ≤ length (chain_blocks self.entry) + length (chain_blocks other.entry)) }
    {
        difference_counted(alloc, &mut Counted::new(self), &mut Counted::new(other))
    }

    /// Returns the chain of the numbers that `self` or `other` has.
    ///
    /// The result has at most as many blocks as both together.
    ///
    /// # Errors
    ///
    /// [`AllocError`]: out of memory.
    pub fn union<A: Allocator>(
        self,
        alloc: A,
        other: Chain<'_, T>,
    ) -> Result<OwnedChain<T, A>, AllocError>
        ensures union { IfOk result (λ chain. IsChainOf T.bounds T.form (λ n.
            Covers T.bounds (chain_blocks self.entry) n ⊎
            Covers T.bounds (chain_blocks other.entry) n) chain) }
        ensures few { IfOk result (λ chain.
            length chain ≤ length (chain_blocks self.entry) + length (chain_blocks other.entry)) }
    {
        union_counted(alloc, &mut Counted::new(self), &mut Counted::new(other))
    }
}

impl<T: Block + fmt::Debug> fmt::Debug for Chain<'_, T> {
    fn fmt<W: fmt::Write>(&self, f: &mut fmt::Formatter<W>) -> fmt::Result {
        f.debug_tuple("Chain").field(&self.blocks).finish()
    }
}

impl<T: Block> Clone for Chain<'_, T> {
    ghost use Rattle.std.specs.Prelude.{◌≡◌, ⊤};

    ghost is_clone = { λ chain copy. copy ≡ chain };

    ghost is_infallible = { λ _. ⊤ };

    fn clone(&self) -> Result<Self, AllocError> {
        Ok(*self)
    }
}

impl<T: Block> Copy for Chain<'_, T> {}

impl<T: Block> PartialEq for Chain<'_, T> {
    ghost use Rattle.std.specs.Prelude.{◌≡◌, ℕ, ◌↔◌, IsTrue, map};
    ghost use Rattle.rpki_chain_core.specs.Sets.{Covers};
    ghost use Rattle.rpki_chain_core.specs.Equality.{same_runs};
    ghost use Rattle.rpki_chain_core.specs.EqualityLaws.{chains_per};
    ghost use Rattle.rpki_chain_core.specs.View.{chain_blocks};

    ghost eq = { λ a b. same_runs (map T.bounds (chain_blocks a)) (map T.bounds (chain_blocks b)) };

    ghost laws = { chains_per T.bounds (λ c. chain_blocks c) };

    /// Returns whether both chains cover the same numbers.
    fn eq(&self, other: &Self) -> bool
        ensures value { result ≡ same_runs
            (map T.bounds (chain_blocks self.now)) (map T.bounds (chain_blocks other.now)) }
        ensures covers { IsTrue result ↔ ((n : ℕ) →
            Covers T.bounds (chain_blocks self.now) n ↔
            Covers T.bounds (chain_blocks other.now) n) }
        ensures same { IsTrue result ↔ (chain_blocks self.now ≡ chain_blocks other.now) }
    {
        are_same_blocks(self.blocks, other.blocks)
    }
}

impl<T: Block> Eq for Chain<'_, T> {
    ghost use Rattle.rpki_chain_core.specs.EqualityLaws.{chains_equiv};
    ghost use Rattle.rpki_chain_core.specs.View.{chain_blocks};

    ghost laws = { chains_equiv T.bounds (λ c. chain_blocks c) };
}

/// Returns whether the blocks of two lists have the same bounds, one by one.
fn are_same_blocks<T: Block>(some: &[T], others: &[T]) -> bool
    ensures { IsTrue result ↔ (map T.bounds some.now ≡ map T.bounds others.now) }
{
    if some.len() != others.len() {
        return false;
    }
    // The blocks that were passed have the same bounds, one by one.
    for (i, block) in some.iter().enumerate() {
        if !block.is_equivalent(&others[i]) {
            return false;
        }
    }
    true
}
