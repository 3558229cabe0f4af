//! Sets of addresses of one family.
ghost use Rattle.std.specs.Prelude.{◌≡◌, ℕ, ◌↔◌, [], ◌∷◌, IsTrue, IfOk, Some, map, MatchResult};
ghost use Rattle.rpki_text.specs.Memory.{IsMemory};
ghost use Rattle.rpki_text.specs.Reading.{AnswersOrMemory};
ghost use Rattle.rpki_chain_core.specs.Equality.{same_runs};
ghost use Rattle.rpki_chain_core.specs.EqualityLaws.{runs_per, runs_equiv};
ghost use Rattle.rpki_chain.specs.Claims.{claim_of};
ghost use Rattle.rpki_chain.specs.Operations.{IsDifference, IsIntersection, IsUnion};
ghost use Rattle.rpki_chain.specs.Runs.{Runs, Holds, IsRunsOfBlocks};
ghost use Rattle.rpki_chain_core.specs.Sets.{IsWithin};
ghost use Rattle.rpki_ip_block.specs.Blocks.{ip_bounds, new_ip_block};
ghost use Rattle.rpki_ip_block.specs.ListText.{HasBlocks, HasBlocksFault};
ghost use Rattle.rpki_ipres.specs.Families.{IsWholeIn};
ghost use Rattle.rpki_ipres.specs.Resources.{IsFamilyClaim};
ghost use Rattle.rpki_ipres.specs.SetText.{IsFamilySet, IsSetOf, set_text};

use crate::block::FamilyBlock;
use crate::family::Family;
use crate::iter::BlockIter;
use rpki_ip::error::FromStrError;
use rpki_ipres::blocks::IpBlocks;
use rpki_ipres::resources::IpResources;
use rpki_text::memory::OrMemory;
use std::alloc::{AllocError, Allocator, Global};
use std::fmt;
use std::marker::{Model, PhantomData};

/// A set of addresses of one family.
///
/// Sets with the same addresses are equal and print alike. Several sets may share their memory. The empty set has no
/// allocated memory.
///
/// In contracts its value is the ascending list of the runs of its addresses as numbers of 128 bits. Each run is a pair
/// of its lowest and its highest number. In IPv4 the set consists of whole addresses.
#[derive(Drop)]
pub struct FamilyBlocks<F: Family, A: Allocator = Global> {
    pub(crate) blocks: IpBlocks<A>,
    family: PhantomData<F>,
}

impl<F: Family, A: Allocator> Model for FamilyBlocks<F, A> {
    ghost use Rattle.rpki_chain.specs.Runs.{Runs};
    ghost use Rattle.rpki_ipres.specs.Families.{IsWholeIn};

    ghost Value = { Runs };

    ghost view = { λ s. s.blocks };

    ghost invariant = { λ s. IsWholeIn F.FAMILY s.blocks };
}

impl<F: Family, A: Allocator> FamilyBlocks<F, A> {
    /// Returns the set of no addresses.
    pub fn empty() -> FamilyBlocks<F, A>
        ensures { result ≡ [] }
    {
        FamilyBlocks::of(IpBlocks::empty())
    }

    /// Returns the set of all addresses of the family.
    ///
    /// # Errors
    ///
    /// [`AllocError`] if an allocation fails.
    pub fn all(alloc: A) -> Result<FamilyBlocks<F, A>, AllocError>
    where
        A: Copy,
        ensures { IfOk result (λ set. set ≡ (0, 340282366920938463463374607431768211455) ∷ []) }
    {
        let blocks = IpBlocks::all(alloc)?;
        Ok(FamilyBlocks::of(blocks))
    }

    /// Returns the set of the addresses of the blocks, which may be in any order and may overlap.
    ///
    /// # Errors
    ///
    /// [`AllocError`] if an allocation fails.
    pub fn from_blocks(
        alloc: A,
        blocks: &[FamilyBlock<F>],
    ) -> Result<FamilyBlocks<F, A>, AllocError>
    where
        A: Copy,
        ensures { IfOk result (IsRunsOfBlocks ip_bounds blocks.now) }
    {
        let mut own = Vec::with_capacity(alloc, blocks.len())?;
        for block in blocks {
            own.push(block.to_block())?;
        }
        let blocks = IpBlocks::from_vec(alloc, own)?;
        Ok(FamilyBlocks::of(blocks))
    }

    /// Returns a set of addresses of either family as one of the family.
    pub(crate) fn of(blocks: IpBlocks<A>) -> FamilyBlocks<F, A>
        requires { IsWholeIn F.FAMILY blocks }
        ensures { result ≡ blocks }
    {
        FamilyBlocks {
            blocks,
            family: PhantomData,
        }
    }

    /// States an invariant for the proofs of callers: the set is one of addresses of the family.
    ///
    /// The call checks nothing when it runs, and returns nothing.
    #[doc(hidden)]
    #[tactic(auto, using(crate::proofs::FamilyLemmas::is_family_set))]
    pub fn recall_invariant(&self)
        ensures { IsFamilySet F.FAMILY self.now }
    {
        self.blocks.recall_invariant();
    }

    /// Returns the set as one of addresses of either family.
    #[tactic(auto, using(crate::proofs::FamilyLemmas::is_family_set))]
    pub fn ip_blocks(&self) -> &IpBlocks<A>
        ensures value { result.now ≡ self.now }
        ensures set { IsFamilySet F.FAMILY self.now }
        ensures whole { IsWholeIn F.FAMILY self.now }
    {
        self.blocks.recall_invariant();
        &self.blocks
    }

    /// Converts the set into one of addresses of either family. The reference count of its memory doesn't change.
    pub fn into_ip_blocks(self) -> IpBlocks<A>
        ensures value { result ≡ self }
        ensures whole { IsWholeIn F.FAMILY self }
    {
        self.blocks
    }

    /// Returns resources that list the set, or missing resources if the set is empty.
    ///
    /// The resources share the memory of the set (reference count + 1).
    ///
    /// # Errors
    ///
    /// [`AllocError`] if `std` refuses the additional reference.
    #[tactic(auto, using(crate::proofs::FamilyLemmas::is_family_set))]
    pub fn to_ip_resources(&self) -> Result<IpResources<A>, AllocError>
        ensures claim { IfOk result (λ resources. resources ≡ claim_of self.now) }
        ensures family { IfOk result (IsFamilyClaim F.FAMILY) }
    {
        let blocks = self.blocks.clone()?;
        Ok(IpResources::blocks(blocks))
    }

    /// Returns the same set, which shares the memory of `self` (reference count + 1).
    ///
    /// # Errors
    ///
    /// [`AllocError`] if `std` refuses the additional reference.
    pub fn clone(&self) -> Result<FamilyBlocks<F, A>, AllocError>
        ensures { IfOk result (λ set. set ≡ self.now) }
    {
        let blocks = self.blocks.clone()?;
        Ok(FamilyBlocks::of(blocks))
    }

    /// Returns whether the set has no addresses.
    pub fn is_empty(&self) -> bool
        ensures { IsTrue result ↔ (self.now ≡ []) }
    {
        self.blocks.is_empty()
    }

    /// Returns an iterator over the blocks of the set, ascending.
    ///
    /// The blocks are the set's runs, each as a prefix if possible, and otherwise as a range.
    #[tactic(auto, using(crate::proofs::FamilyLemmas::is_family_set, crate::proofs::FamilyLemmas::blocks_in))]
    pub fn iter(&self) -> BlockIter<'_, FamilyBlock<F>>
        ensures blocks { map ip_bounds result ≡ self.now }
        ensures made { result ≡ map new_ip_block self.now }
        ensures set { IsFamilySet F.FAMILY self.now }
    {
        BlockIter::over(self.blocks.iter())
    }

    /// Returns whether the set has each address of `other`.
    pub fn contains(&self, other: &FamilyBlocks<F, A>) -> bool
        ensures { IsTrue result ↔ ((n : ℕ) → Holds other.now n → Holds self.now n) }
    {
        self.blocks.contains(&other.blocks)
    }

    /// Returns whether the set has each address of a block.
    pub fn contains_block(&self, block: FamilyBlock<F>) -> bool
        ensures { IsTrue result ↔ ((n : ℕ) → IsWithin (ip_bounds block) n → Holds self.now n) }
    {
        self.blocks.contains_block(block.to_block())
    }

    /// Returns whether the set has at least one address of a block.
    pub fn intersects_block(&self, block: FamilyBlock<F>) -> bool
        ensures { IsTrue result ↔ ((n : ℕ) × IsWithin (ip_bounds block) n × Holds self.now n) }
    {
        self.blocks.intersects_block(block.to_block())
    }

    /// Returns the intersection of `self` and `other`: the addresses that are in both.
    ///
    /// # Errors
    ///
    /// [`AllocError`] if an allocation fails, or if a reference count is at its maximum.
    pub fn intersection(
        &self,
        alloc: A,
        other: &FamilyBlocks<F, A>,
    ) -> Result<FamilyBlocks<F, A>, AllocError>
    where
        A: Copy,
        ensures { IfOk result (IsIntersection self.now other.now) }
    {
        let blocks = self.blocks.intersection(alloc, &other.blocks)?;
        Ok(FamilyBlocks::of(blocks))
    }

    /// Returns the difference: the addresses of `self` that aren't in `other`.
    ///
    /// # Errors
    ///
    /// [`AllocError`] if an allocation fails.
    pub fn difference(
        &self,
        alloc: A,
        other: &FamilyBlocks<F, A>,
    ) -> Result<FamilyBlocks<F, A>, AllocError>
    where
        A: Copy,
        ensures { IfOk result (IsDifference self.now other.now) }
    {
        let blocks = self.blocks.difference(alloc, &other.blocks)?;
        Ok(FamilyBlocks::of(blocks))
    }

    /// Returns the union of `self` and `other`: the addresses that are in at least one of them.
    ///
    /// # Errors
    ///
    /// [`AllocError`] if an allocation fails.
    pub fn union(
        &self,
        alloc: A,
        other: &FamilyBlocks<F, A>,
    ) -> Result<FamilyBlocks<F, A>, AllocError>
    where
        A: Copy,
        ensures { IfOk result (IsUnion self.now other.now) }
    {
        let blocks = self.blocks.union(alloc, &other.blocks)?;
        Ok(FamilyBlocks::of(blocks))
    }

    /// Parses a list of blocks of the family and returns the set of their addresses.
    ///
    /// The call splits the text at commas and trims white space from each element. It ignores elements that are then
    /// empty.
    ///
    /// # Errors
    ///
    /// - `Refused` with [`FromStrError::FamilyMismatch`] if the first element that isn't a block looks like one of the
    ///   other family. In IPv4 that element has a colon. In IPv6 it has a dot and no colon.
    /// - `Refused` with the fault of the first element that isn't a block, in all other cases.
    /// - `Memory` if an allocation fails.
    pub fn from_str(alloc: A, text: &str) -> Result<FamilyBlocks<F, A>, OrMemory<FromStrError>>
    where
        A: Copy,
        ensures exact { AnswersOrMemory (λ set. set) (IsSetOf (HasBlocks F.FAMILY text.now))
            (HasBlocksFault F.FAMILY text.now) result }
        // The printed text of a set parses back to that set.
        ensures reads_back { (set : Runs) → IsFamilySet F.FAMILY set
            → text.now ≡ set_text F.FAMILY set
            → MatchResult result (λ read. read ≡ set) IsMemory }
    {
        match IpBlocks::from_str_with_family(alloc, F::FAMILY, text) {
            Ok(set) => Ok(FamilyBlocks::of(set)),
            Err(error) => Err(error),
        }
    }
}

impl<'a, F: Family, A: Allocator> IntoIterator for &'a FamilyBlocks<F, A> {
    type Item = FamilyBlock<F>;

    type IntoIter = BlockIter<'a, FamilyBlock<F>>;

    // The postconditions of `iter`.
    ghost into_iter_gives = { λ set blocks. (map ip_bounds blocks ≡ set.now)
        × (blocks ≡ map new_ip_block set.now)
        × IsFamilySet F.FAMILY set.now };

    fn into_iter(self) -> BlockIter<'a, FamilyBlock<F>> {
        self.iter()
    }
}

impl<F: Family, A: Allocator> fmt::Debug for FamilyBlocks<F, A> {
    fn fmt<W: fmt::Write>(&self, f: &mut fmt::Formatter<W>) -> fmt::Result {
        f.debug_set().entries(self).finish()
    }
}

/// Returns the set of no addresses.
impl<F: Family, A: Allocator> Default for FamilyBlocks<F, A> {
    ghost is_default = { λ set. set ≡ [] };

    fn default() -> FamilyBlocks<F, A> {
        FamilyBlocks::empty()
    }
}

/// Sets are equal if and only if they have the same addresses.
impl<F: Family, A: Allocator> PartialEq for FamilyBlocks<F, A> {
    ghost eq = { λ a b. same_runs a b };

    ghost laws = { runs_per };

    fn eq(&self, other: &FamilyBlocks<F, A>) -> bool
        ensures value { result ≡ same_runs self.now other.now }
        ensures same { IsTrue result ↔ (self.now ≡ other.now) }
        ensures numbers { IsTrue result ↔ ((n : ℕ) → Holds self.now n ↔ Holds other.now n) }
    {
        self.blocks == other.blocks
    }
}

impl<F: Family, A: Allocator> Eq for FamilyBlocks<F, A> {
    ghost laws = { runs_equiv };
}

/// Prints the blocks of the set, ascending, joined by a comma and a space. An empty set prints nothing.
impl<F: Family, A: Allocator> fmt::Display for FamilyBlocks<F, A> {
    ghost output = { λ set. Some (set_text F.FAMILY set) };

    fn fmt<W: fmt::Write>(&self, f: &mut fmt::Formatter<W>) -> fmt::Result {
        fmt::Display::fmt(&self.blocks.display_with_family(F::FAMILY), f)
    }
}
