//! A chain whose memory several values share.
ghost use Rattle.std.specs.Prelude.{◌≡◌, ℕ, ◌↔◌, List, [], IsTrue, IsOk, IsOkAnd, IfOk, IfErr, map};
ghost use Rattle.rpki_text.specs.Memory.{IfRefused};
ghost use Rattle.rpki_chain_core.specs.Equality.{same_runs};
ghost use Rattle.rpki_chain_core.specs.EqualityLaws.{chains_per, chains_equiv};
ghost use Rattle.rpki_chain_core.specs.Sets.{Covers, IsInside, IsChainOf, IsOfKind};
ghost use Rattle.rpki_chain_core.specs.Owned.{shared_blocks, IsShared};
ghost use Rattle.rpki_chain_core.specs.View.{chain_blocks};

use crate::chain::Chain;
use crate::counted::Counted;
use crate::difference::difference_from;
use crate::intersection::common_from;
use crate::owned::OwnedChain;
use rpki_block::block::Block;
use rpki_text::memory::OrMemory;
use std::alloc::{AllocError, Allocator, Global};
use std::fmt;
use std::marker::Model;
use std::sync::Arc;

/// An owned chain that several values may share, also in several threads. The empty chain holds no memory.
#[derive(Drop)]
pub struct SharedChain<T: Block, A: Allocator = Global> {
    chain: Option<Arc<OwnedChain<T, A>, A>>,
}

impl<T: Block, A: Allocator> Model for SharedChain<T, A> {
    ghost Value = { List T };

    ghost view = { λ c. shared_blocks c.chain };

    ghost invariant = { λ c. IsShared T.bounds T.form c.chain };
}

impl<T: Block, A: Allocator> SharedChain<T, A> {
    /// Returns the chain without blocks. It holds no memory.
    pub fn empty() -> Self
        ensures { result ≡ [] }
    {
        SharedChain { chain: None }
    }

    /// Returns the same chain, ready to be shared.
    ///
    /// # Errors
    ///
    /// [`AllocError`]: out of memory for the reference count.
    pub fn from_owned(alloc: A, chain: OwnedChain<T, A>) -> Result<Self, AllocError>
        ensures { IfOk result (λ shared. shared ≡ chain) }
    {
        if chain.as_chain().is_empty() {
            return Ok(Self::empty());
        }
        let chain = Arc::new(alloc, chain)?;
        Ok(SharedChain { chain: Some(chain) })
    }

    /// Returns the chain of the numbers that the blocks cover, as `OwnedChain::from_blocks` does.
    ///
    /// # Errors
    ///
    /// [`AllocError`]: out of memory.
    pub fn from_blocks(alloc: A, blocks: &[T]) -> Result<Self, AllocError>
    where
        A: Copy,
        ensures chain { IfOk result (λ chain.
            IsChainOf T.bounds T.form (Covers T.bounds blocks.now) chain) }
        ensures kind { IfOk result (λ _. IsOfKind T.bounds T.first T.last blocks.now) }
    {
        let chain = OwnedChain::from_blocks(alloc, blocks)?;
        Self::from_owned(alloc, chain)
    }

    /// Returns the chain of the numbers that the blocks cover, in their memory, as `OwnedChain::from_vec` does.
    ///
    /// # Errors
    ///
    /// [`AllocError`]: out of memory for the reference count.
    pub fn from_vec(alloc: A, blocks: Vec<T, A>) -> Result<Self, AllocError>
        ensures chain { IfOk result (λ chain.
            IsChainOf T.bounds T.form (Covers T.bounds blocks.items) chain) }
        ensures kind { IfOk result (λ _. IsOfKind T.bounds T.first T.last blocks.items) }
    {
        Self::from_owned(alloc, OwnedChain::from_vec(blocks))
    }

    /// Returns the view of the chain.
    pub fn as_chain(&self) -> Chain<'_, T>
        ensures { chain_blocks result ≡ self.now }
    {
        let Some(chain) = &self.chain else {
            return Chain::empty();
        };
        chain.as_chain()
    }

    /// Checks that `other` has each number of `self`. If it has, the call allocates nothing.
    ///
    /// The chain in `Refused` is a shared one. [`Chain::trim`] returns an owned one.
    ///
    /// # Errors
    ///
    /// - `Refused`: `other` doesn't have each number. The variant holds the chain of the numbers that both have.
    /// - `Memory`: out of memory for this chain.
    pub fn trim_shared(
        &self,
        alloc: A,
        other: &SharedChain<T, A>,
    ) -> Result<(), OrMemory<SharedChain<T, A>>>
    where
        A: Copy,
        ensures ok { IsOk result ↔ IsInside T.bounds self.now other.now }
        ensures refused { IfErr result (IfRefused (IsChainOf T.bounds T.form (λ n.
            Covers T.bounds self.now n × Covers T.bounds other.now n))) }
    {
        let own = self.as_chain();
        let others = other.as_chain();
        let Some(overhang) = own.overhang(others) else {
            return Ok(());
        };
        let mut own = Counted::new(own);
        let mut others = Counted::new(others);
        let chain = common_from(alloc, &mut own, &mut others, overhang);
        Err(refused_with(alloc, chain))
    }

    /// Checks that `other` has each number of `self`. If it has, the call allocates nothing.
    ///
    /// # Errors
    ///
    /// - `Refused`: `other` doesn't have each number. The variant holds the chain of the numbers of `self` that `other`
    ///   doesn't have.
    /// - `Memory`: out of memory for this chain.
    pub fn covered_by(
        &self,
        alloc: A,
        other: &SharedChain<T, A>,
    ) -> Result<(), OrMemory<SharedChain<T, A>>>
    where
        A: Copy,
        ensures ok { IsOk result ↔ IsInside T.bounds self.now other.now }
        ensures refused { IfErr result (IfRefused (IsChainOf T.bounds T.form (λ n.
            Covers T.bounds self.now n × (Covers T.bounds other.now n → ⊥)))) }
    {
        let own = self.as_chain();
        let others = other.as_chain();
        let Some(overhang) = own.overhang(others) else {
            return Ok(());
        };
        let mut own = Counted::new(own);
        let mut others = Counted::new(others);
        let chain = difference_from(alloc, &mut own, &mut others, overhang);
        Err(refused_with(alloc, chain))
    }
}

/// Returns `Refused` with the chain, ready to be shared, or `Memory` if the chain or its reference count could not be
/// allocated.
fn refused_with<T: Block, A: Allocator>(
    alloc: A,
    chain: Result<OwnedChain<T, A>, AllocError>,
) -> OrMemory<SharedChain<T, A>>
    ensures { IfRefused (λ shared. IsOkAnd chain (λ chain. shared ≡ chain)) result }
{
    let shared = match chain {
        Ok(chain) => SharedChain::from_owned(alloc, chain),
        Err(error) => Err(error),
    };
    match shared {
        Ok(chain) => OrMemory::Refused(chain),
        Err(error) => OrMemory::Memory(error),
    }
}

impl<T: Block, A: Allocator> Clone for SharedChain<T, A> {
    ghost is_clone = { λ chain copy. copy ≡ chain };

    /// Returns the same chain, which shares the memory of `self`.
    ///
    /// # Errors
    ///
    /// [`AllocError`]: the reference count is at its maximum.
    fn clone(&self) -> Result<Self, AllocError> {
        let Some(chain) = &self.chain else {
            return Ok(Self::empty());
        };
        Ok(SharedChain {
            chain: Some(chain.clone()?),
        })
    }
}

impl<T: Block + fmt::Debug, A: Allocator> fmt::Debug for SharedChain<T, A> {
    fn fmt<W: fmt::Write>(&self, f: &mut fmt::Formatter<W>) -> fmt::Result {
        f.debug_tuple("SharedChain")
            .field(&self.as_chain().as_slice())
            .finish()
    }
}

impl<T: Block, A: Allocator> PartialEq for SharedChain<T, A> {
    ghost eq = { λ a b. same_runs (map T.bounds a) (map T.bounds b) };

    ghost laws = { chains_per T.bounds (λ c. c) };

    /// Returns whether both chains cover the same numbers.
    fn eq(&self, other: &Self) -> bool
        ensures value { result ≡ same_runs (map T.bounds self.now) (map T.bounds other.now) }
        ensures covers { IsTrue result ↔ ((n : ℕ) →
            Covers T.bounds self.now n ↔ Covers T.bounds other.now n) }
        ensures same { IsTrue result ↔ (self.now ≡ other.now) }
    {
        self.as_chain() == other.as_chain()
    }
}

impl<T: Block, A: Allocator> Eq for SharedChain<T, A> {
    ghost laws = { chains_equiv T.bounds (λ c. c) };
}
