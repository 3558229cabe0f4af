//! A chain that owns the memory of its blocks.
ghost use Rattle.std.specs.Prelude.{◌≡◌, ℕ, ◌↔◌, List, [], All, IsTrue, IfOk, OnOk, map};
ghost use Rattle.rpki_chain_core.specs.Equality.{same_runs};
ghost use Rattle.rpki_chain_core.specs.EqualityLaws.{chains_per, chains_equiv};
ghost use Rattle.rpki_chain_core.specs.Sets.{Covers, IsNew, IsChain, IsChainOf, IsOfKind};
ghost use Rattle.rpki_chain_core.specs.Owned.{owned_blocks, IsOwned};
ghost use Rattle.rpki_chain_core.specs.View.{chain_blocks};

use crate::ascending::join_ascending_into;
use crate::build::join;
use crate::chain::Chain;
use rpki_block::block::Block;
use std::alloc::{AllocError, Allocator, Global};
use std::fmt;
use std::marker::Model;

/// A chain that owns its blocks. The empty chain holds no memory.
#[derive(Drop)]
pub struct OwnedChain<T: Block, A: Allocator = Global> {
    blocks: Option<Vec<T, A>>,
}

impl<T: Block, A: Allocator> Model for OwnedChain<T, A> {
    ghost Value = { List T };

    ghost view = { λ chain. owned_blocks chain.blocks };

    ghost invariant = { λ chain. IsOwned T.bounds T.form chain.blocks };
}

impl<T: Block, A: Allocator> OwnedChain<T, A> {
    /// Returns the chain without blocks. It holds no memory.
    pub fn empty() -> Self
        ensures { result ≡ [] }
    {
        OwnedChain { blocks: None }
    }

    /// Returns the chain of the numbers that the blocks cover. The blocks may be in any order and may overlap.
    ///
    /// The call doesn't sort the blocks if they ascend by their minima already.
    ///
    /// # Errors
    ///
    /// [`AllocError`]: out of memory for as many blocks as `blocks` has.
    pub fn from_blocks(alloc: A, blocks: &[T]) -> Result<Self, AllocError>
        ensures chain { IfOk result (λ chain.
            IsChainOf T.bounds T.form (Covers T.bounds blocks.now) chain) }
        ensures kind { IfOk result (λ _. IsOfKind T.bounds T.first T.last blocks.now) }
    {
        let mut chain = Vec::with_capacity(alloc, blocks.len())?;
        if join_ascending_into(&mut chain, blocks)? {
            return Ok(Self::from_vec_unchecked(chain));
        }
        chain.clear();
        rebuild(&mut chain, blocks)?;
        Ok(Self::from_vec(chain))
    }

    /// Returns the chain of the numbers that the blocks cover. The blocks may be in any order and may overlap.
    ///
    /// The chain is made in the memory of `blocks`. The call allocates nothing, and the chain keeps all of this memory.
    /// An empty chain keeps none.
    pub fn from_vec(mut blocks: Vec<T, A>) -> Self
        ensures chain { IsChainOf T.bounds T.form (Covers T.bounds blocks.items) result }
        ensures kind { IsOfKind T.bounds T.first T.last blocks.items }
    {
        join(&mut blocks);
        Self::from_vec_unchecked(blocks)
    }

    /// Returns the chain of blocks that are a chain already. The call frees the memory of an empty vector.
    ///
    /// # Preconditions
    ///
    /// The blocks ascend and neither overlap nor touch, and each is in the form that `new` gives.
    #[tactic(auto, using(std::proofs::lemmas::Bool::Decides::nat_tests))]
    pub fn from_vec_unchecked(blocks: Vec<T, A>) -> Self
        requires { IsChain T.bounds T.form blocks.items }
        ensures { result ≡ blocks.items }
    {
        if blocks.is_empty() {
            return Self::empty();
        }
        OwnedChain {
            blocks: Some(blocks),
        }
    }

    /// Returns the view of the chain.
    pub fn as_chain(&self) -> Chain<'_, T>
        ensures { chain_blocks result ≡ self.now }
    {
        let Some(blocks) = &self.blocks else {
            return Chain::empty();
        };
        Chain::from_slice_unchecked(blocks.as_slice())
    }

    /// Returns the same chain in memory of its own, allocated in `alloc`.
    ///
    /// # Errors
    ///
    /// [`AllocError`]: out of memory.
    pub fn clone(&self, alloc: A) -> Result<Self, AllocError>
        ensures { IfOk result (λ chain. chain ≡ self.now) }
    {
        let Some(blocks) = &self.blocks else {
            return Ok(Self::empty());
        };
        let mut copy = Vec::with_capacity(alloc, blocks.len())?;
        rebuild(&mut copy, blocks.as_slice())?;
        Ok(Self::from_vec_unchecked(copy))
    }
}

/// Fills the empty vector with blocks rebuilt from the bounds of `blocks`. A block in the form that `T::new` gives
/// comes out unchanged.
fn rebuild<T: Block, A: Allocator>(new: &mut Vec<T, A>, blocks: &[T]) -> Result<(), AllocError>
    requires { new.old.items ≡ [] }
    ensures bounds { OnOk result (map T.bounds new.new.items ≡ map T.bounds blocks.now) }
    ensures same { OnOk result (All (IsNew T.bounds T.form) blocks.now
        → new.new.items ≡ blocks.now) }
{
    for block in blocks {
        let (min, max) = block.bounds();
        new.push(T::new(min, max))?;
    }
    Ok(())
}

impl<T: Block + fmt::Debug, A: Allocator> fmt::Debug for OwnedChain<T, A> {
    fn fmt<W: fmt::Write>(&self, f: &mut fmt::Formatter<W>) -> fmt::Result {
        f.debug_tuple("OwnedChain")
            .field(&self.as_chain().as_slice())
            .finish()
    }
}

impl<T: Block, A: Allocator> PartialEq for OwnedChain<T, A> {
    ghost eq = { λ a b. same_runs (map T.bounds a) (map T.bounds b) };

    ghost laws = { chains_per T.bounds (λ c. c) };

    /// Returns whether both chains cover the same numbers.
    fn eq(&self, other: &Self) -> bool
        ensures value { result ≡ same_runs (map T.bounds self.now) (map T.bounds other.now) }
        ensures covers { IsTrue result ↔ ((n : ℕ) →
            Covers T.bounds self.now n ↔ Covers T.bounds other.now n) }
        ensures same { IsTrue result ↔ (self.now ≡ other.now) }
    {
        self.as_chain() == other.as_chain()
    }
}

impl<T: Block, A: Allocator> Eq for OwnedChain<T, A> {
    ghost laws = { chains_equiv T.bounds (λ c. c) };
}
