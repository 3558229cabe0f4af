//! Sets of items of one kind.
ghost use Rattle.std.specs.Prelude.{◌≡◌, ℕ, ◌↔◌, [], ◌∷◌, IsTrue, IsOk, IfOk, IfErr, OnOk, OnErr, map};
ghost use Rattle.std.specs.Slice.Iter.{iter_rest};
ghost use Rattle.rpki_chain.specs.BlockSets.{IsBlockChain, IsBlockSet};
ghost use Rattle.rpki_chain_core.specs.Equality.{same_runs};
ghost use Rattle.rpki_chain_core.specs.EqualityLaws.{runs_per, runs_equiv};
ghost use Rattle.rpki_text.specs.Memory.{IfRefused};
ghost use Rattle.rpki_chain.specs.Operations.{IsDifference, IsIntersection, IsUnion};
ghost use Rattle.rpki_chain.specs.Runs.{Runs, Holds, IsRunsOfBlocks};
ghost use Rattle.rpki_chain_core.specs.Sets.{IsWithin, IsChain};
ghost use Rattle.rpki_chain_core.specs.View.{chain_blocks};

use rpki_chain_core::block::Block;
use rpki_chain_core::chain::Chain;
use rpki_chain_core::owned::OwnedChain;
use rpki_chain_core::shared::SharedChain;
use rpki_text::memory::OrMemory;
use std::alloc::{AllocError, Allocator, Global};
use std::fmt;
use std::marker::Model;
use std::slice::Iter;

/// A set of items of one kind.
///
/// Sets of the same items are equal. Several sets may share the same memory. The empty set takes no memory.
///
/// The model of a set is the ascending list of its runs, each as its least and its greatest number.
#[derive(Drop)]
pub struct BlockSet<T: Block, A: Allocator = Global> {
    chain: SharedChain<T, A>,
}

impl<T: Block, A: Allocator> Model for BlockSet<T, A> {
    ghost Value = { Runs };

    ghost view = { λ s. map T.bounds s.chain };

    ghost invariant = { λ s. IsBlockChain T.bounds T.form T.first T.last s.chain };
}

impl<T: Block, A: Allocator> BlockSet<T, A> {
    /// Returns the empty set.
    pub fn empty() -> Self
        ensures { result ≡ [] }
    {
        BlockSet {
            chain: SharedChain::empty(),
        }
    }

    /// Returns the set of the items of one block.
    ///
    /// # Errors
    ///
    /// [`AllocError`]: out of memory.
    pub fn from_block(alloc: A, block: T) -> Result<Self, AllocError>
    where
        A: Copy,
        ensures { IfOk result (λ set. set ≡ T.bounds block ∷ []) }
    {
        let (min, max) = block.bounds();
        let mut blocks = Vec::with_capacity(alloc, 1)?;
        blocks.push(T::new(min, max))?;
        Self::from_owned(alloc, OwnedChain::from_vec_unchecked(blocks))
    }

    /// Returns the set of the items that at least one block has. The blocks may be in any order and may overlap.
    ///
    /// # Errors
    ///
    /// [`AllocError`]: out of memory.
    pub fn from_blocks(alloc: A, blocks: &[T]) -> Result<Self, AllocError>
    where
        A: Copy,
        ensures { IfOk result (IsRunsOfBlocks T.bounds blocks.now) }
    {
        let chain = SharedChain::from_blocks(alloc, blocks)?;
        Ok(BlockSet { chain })
    }

    /// Returns the set of the items that at least one block has, in the memory of `blocks`.
    ///
    /// The blocks may be in any order and may overlap.
    ///
    /// # Errors
    ///
    /// [`AllocError`]: out of memory for the reference count. The blocks are dropped then.
    pub fn from_vec(alloc: A, blocks: Vec<T, A>) -> Result<Self, AllocError>
        ensures { IfOk result (IsRunsOfBlocks T.bounds blocks.items) }
    {
        let chain = SharedChain::from_vec(alloc, blocks)?;
        Ok(BlockSet { chain })
    }

    /// Returns the set whose runs are `blocks`, without a check, in the memory of `blocks`.
    ///
    /// # Preconditions
    ///
    /// The blocks are the runs of a set, ascending, each in the form that `new` gives.
    ///
    /// # Errors
    ///
    /// [`AllocError`]: out of memory for the reference count. The blocks are dropped then.
    pub fn from_vec_unchecked(alloc: A, blocks: Vec<T, A>) -> Result<Self, AllocError>
        requires { IsChain T.bounds T.form blocks.items }
        ensures { IfOk result (IsRunsOfBlocks T.bounds blocks.items) }
    {
        read_ends(&blocks);
        let chain = SharedChain::from_owned(alloc, OwnedChain::from_vec_unchecked(blocks))?;
        Ok(BlockSet { chain })
    }

    /// Returns the set of the items of a chain of this kind, ready to be shared. The error is out of memory for the
    /// reference count.
    fn from_owned(alloc: A, chain: OwnedChain<T, A>) -> Result<Self, AllocError>
        requires { IsBlockChain T.bounds T.form T.first T.last chain }
        ensures { IfOk result (λ set. set ≡ map T.bounds chain) }
    {
        let chain = SharedChain::from_owned(alloc, chain)?;
        Ok(BlockSet { chain })
    }

    /// Returns the same set, which shares the memory of `self`.
    ///
    /// # Errors
    ///
    /// [`AllocError`]: the reference count is at its maximum.
    pub fn clone(&self) -> Result<Self, AllocError>
        ensures same { IfOk result (λ set. set ≡ self.now) }
        ensures set { IsBlockSet T.first T.last self.now }
    {
        let chain = self.chain.clone()?;
        Ok(BlockSet { chain })
    }

    /// States an invariant for the proofs of callers: the set is a set of items of this kind.
    ///
    /// This call is no test. It does nothing and returns nothing.
    #[doc(hidden)]
    pub fn recall_invariant(&self)
        ensures { IsBlockSet T.first T.last self.now }
    {
        let _chain = &self.chain;
    }

    /// Returns the chain of the set: its runs, each in the form that `new` gives.
    pub fn as_chain(&self) -> Chain<'_, T>
        ensures blocks { map T.bounds (chain_blocks result) ≡ self.now }
        ensures chain { IsBlockChain T.bounds T.form T.first T.last (chain_blocks result) }
    {
        self.chain.as_chain()
    }

    /// Returns the blocks of the set, ascending. They are its runs, each in the form that `new` gives.
    pub fn as_slice(&self) -> &[T]
        ensures blocks { map T.bounds result.now ≡ self.now }
        ensures made { result.now ≡ map T.form self.now }
        ensures chain { IsBlockChain T.bounds T.form T.first T.last result.now }
        ensures set { IsBlockSet T.first T.last self.now }
    {
        self.as_chain().as_slice()
    }

    /// Returns an iterator over the blocks of the set, ascending. They are its runs, each in the form that `new` gives.
    pub fn iter(&self) -> Iter<'_, T>
        ensures blocks { map T.bounds (iter_rest result) ≡ self.now }
        ensures made { iter_rest result ≡ map T.form self.now }
        ensures set { IsBlockSet T.first T.last self.now }
    {
        self.as_slice().iter()
    }

    /// Returns whether the set has no items.
    pub fn is_empty(&self) -> bool
        ensures { IsTrue result ↔ (self.now ≡ []) }
    {
        self.as_slice().is_empty()
    }

    /// Returns whether the set has `item`.
    pub fn contains_item(&self, item: T::Item) -> bool
        ensures { IsTrue result ↔ Holds self.now (T.number item) }
    {
        self.as_chain().contains_item(item)
    }

    /// Returns whether the set has every item of `block`.
    pub fn contains_block(&self, block: &T) -> bool
        ensures { IsTrue result ↔ ((n : ℕ) → IsWithin (T.bounds block.now) n → Holds self.now n) }
    {
        self.as_chain().contains_block(block)
    }

    /// Returns whether the set has at least one item of `block`.
    pub fn intersects_block(&self, block: &T) -> bool
        ensures { IsTrue result ↔ ((n : ℕ) × IsWithin (T.bounds block.now) n × Holds self.now n) }
    {
        self.as_chain().intersects_block(block)
    }

    /// Returns whether the set has every item of `other`.
    pub fn contains(&self, other: &BlockSet<T, A>) -> bool
        ensures { IsTrue result ↔ ((n : ℕ) → Holds other.now n → Holds self.now n) }
    {
        other.as_chain().is_encompassed(self.as_chain())
    }

    /// Returns the intersection of `self` and `other`.
    ///
    /// # Errors
    ///
    /// [`AllocError`]: out of memory for the result, or a reference count is at its maximum.
    pub fn intersection(&self, alloc: A, other: &BlockSet<T, A>) -> Result<Self, AllocError>
    where
        A: Copy,
        ensures { IfOk result (IsIntersection self.now other.now) }
    {
        // The check whether a short list lies in a far longer one searches the longer list. So a far shorter list comes
        // first.
        if other.as_slice().len() <= self.as_slice().len() / 64 {
            return other.common_with(alloc, self);
        }
        self.common_with(alloc, other)
    }

    /// Returns the intersection of `self` and `other`. If `other` has every item of `self`, the result shares the
    /// memory of `self`.
    ///
    /// # Errors
    ///
    /// [`AllocError`]: out of memory for the result, or a reference count is at its maximum.
    fn common_with(&self, alloc: A, other: &BlockSet<T, A>) -> Result<Self, AllocError>
    where
        A: Copy,
        ensures { IfOk result (IsIntersection self.now other.now) }
    {
        match self.trim(alloc, other) {
            Ok(()) => self.clone(),
            Err(OrMemory::Refused(common)) => Ok(common),
            Err(OrMemory::Memory(error)) => Err(error),
        }
    }

    /// Keeps only the items that `other` has too.
    ///
    /// # Errors
    ///
    /// [`AllocError`]: out of memory for the result, or a reference count is at its maximum. The set is unchanged then.
    pub fn intersection_assign(
        &mut self,
        alloc: A,
        other: &BlockSet<T, A>,
    ) -> Result<(), AllocError>
    where
        A: Copy,
        ensures ok { OnOk result (IsIntersection self.old other.now self.new) }
        ensures err { OnErr result (self.new ≡ self.old) }
    {
        let common = self.intersection(alloc, other)?;
        *self = common;
        Ok(())
    }

    /// Returns the set of the items of `self` that `other` doesn't have.
    ///
    /// # Errors
    ///
    /// [`AllocError`]: out of memory.
    pub fn difference(&self, alloc: A, other: &BlockSet<T, A>) -> Result<Self, AllocError>
    where
        A: Copy,
        ensures { IfOk result (IsDifference self.now other.now) }
    {
        let chain = self.as_chain().difference(alloc, other.as_chain())?;
        Self::from_owned(alloc, chain)
    }

    /// Checks that `other` has every item of `self`. If it has, the call allocates nothing.
    ///
    /// # Errors
    ///
    /// - `Refused`: `other` doesn't have every item. The variant holds the items of `self` that it doesn't have.
    /// - `Memory`: out of memory for these items.
    pub(crate) fn covered_by(
        &self,
        alloc: A,
        other: &BlockSet<T, A>,
    ) -> Result<(), OrMemory<BlockSet<T, A>>>
    where
        A: Copy,
        ensures ok { IsOk result ↔ ((n : ℕ) → Holds self.now n → Holds other.now n) }
        ensures refused { IfErr result (IfRefused (IsDifference self.now other.now)) }
    {
        match self.chain.covered_by(alloc, &other.chain) {
            Ok(()) => Ok(()),
            Err(OrMemory::Refused(chain)) => Err(OrMemory::Refused(BlockSet { chain })),
            Err(OrMemory::Memory(error)) => Err(OrMemory::Memory(error)),
        }
    }

    /// Checks that `other` has every item of `self`. If it has, the call allocates nothing.
    ///
    /// # Errors
    ///
    /// - `Refused`: `other` doesn't have every item. The variant holds the intersection.
    /// - `Memory`: out of memory for the intersection.
    pub(crate) fn trim(
        &self,
        alloc: A,
        other: &BlockSet<T, A>,
    ) -> Result<(), OrMemory<BlockSet<T, A>>>
    where
        A: Copy,
        ensures ok { IsOk result ↔ ((n : ℕ) → Holds self.now n → Holds other.now n) }
        ensures refused { IfErr result (IfRefused (IsIntersection self.now other.now)) }
    {
        match self.chain.trim_shared(alloc, &other.chain) {
            Ok(()) => Ok(()),
            Err(OrMemory::Refused(chain)) => Err(OrMemory::Refused(BlockSet { chain })),
            Err(OrMemory::Memory(error)) => Err(OrMemory::Memory(error)),
        }
    }

    /// Returns the union of `self` and `other`.
    ///
    /// # Errors
    ///
    /// [`AllocError`]: out of memory for the result.
    pub fn union(&self, alloc: A, other: &BlockSet<T, A>) -> Result<Self, AllocError>
    where
        A: Copy,
        ensures { IfOk result (IsUnion self.now other.now) }
    {
        let own = self.as_chain();
        let others = other.as_chain();
        if others.is_empty() {
            return self.clone();
        }
        if own.is_empty() {
            return other.clone();
        }
        let chain = own.union(alloc, others)?;
        Self::from_owned(alloc, chain)
    }
}

/// Reads the least number of a chain from its first block, and the greatest from its last. This proves that each number
/// is one of the kind.
fn read_ends<T: Block>(blocks: &[T])
    requires { IsChain T.bounds T.form blocks.now }
    ensures { IsBlockChain T.bounds T.form T.first T.last blocks.now }
{
    let Some(first) = blocks.first() else {
        return;
    };
    let Some(last) = blocks.last() else {
        return;
    };
    // These reads are for the proof: no number is below the kind's first, and no number is above its last.
    let _least = first.min();
    let _greatest = last.max();
}

impl<T: Block + fmt::Debug, A: Allocator> fmt::Debug for BlockSet<T, A> {
    fn fmt<W: fmt::Write>(&self, f: &mut fmt::Formatter<W>) -> fmt::Result {
        f.debug_set().entries(self.as_slice()).finish()
    }
}

/// Returns the empty set as the default.
impl<T: Block, A: Allocator> Default for BlockSet<T, A> {
    ghost is_default = { λ set. set ≡ [] };

    fn default() -> Self {
        BlockSet::empty()
    }
}

/// Sets are equal if and only if they have the same items.
impl<T: Block, A: Allocator> PartialEq for BlockSet<T, A> {
    ghost eq = { λ a b. same_runs a b };

    ghost laws = { runs_per };

    fn eq(&self, other: &Self) -> bool
        ensures value { result ≡ same_runs self.now other.now }
        ensures same { IsTrue result ↔ (self.now ≡ other.now) }
        ensures numbers { IsTrue result ↔ ((n : ℕ) → Holds self.now n ↔ Holds other.now n) }
    {
        self.as_chain() == other.as_chain()
    }
}

impl<T: Block, A: Allocator> Eq for BlockSet<T, A> {
    ghost laws = { runs_equiv };
}
