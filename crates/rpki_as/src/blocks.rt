//! Sets of AS numbers.
ghost use Rattle.std.specs.Prelude.{◌≡◌, ℕ, ◌↔◌, [], ◌∷◌, IsTrue, IfOk, IsErr, Ok, OnOk, OnErr, Some, map, MatchResult};
ghost use Rattle.std.specs.Slice.Iter.{iter_rest};
ghost use Rattle.rpki_text.specs.Memory.{IsMemory};
ghost use Rattle.rpki_text.specs.Reading.{AnswersOrMemory};
ghost use Rattle.rpki_chain_core.specs.Equality.{same_runs};
ghost use Rattle.rpki_chain_core.specs.EqualityLaws.{runs_per, runs_equiv};
ghost use Rattle.rpki_chain_core.specs.Sets.{IsChain};
ghost use Rattle.rpki_chain.specs.Choices.{MatchChoice};
ghost use Rattle.rpki_chain.specs.Operations.{IsDifference, IsIntersection, IsUnion};
ghost use Rattle.rpki_chain.specs.Runs.{Runs, Holds, IsRunsOfBlocks};
ghost use Rattle.rpki_as.specs.Blocks.{IsAsSet};
ghost use Rattle.rpki_as_block.specs.Blocks.{as_bounds, new_as_block};
ghost use Rattle.rpki_as.specs.ListText.{IsAsListText, HasAsListFault, as_list_text};
ghost use Rattle.rpki_as_block.specs.Numbers.{IsListOf, IsSizeOf};

use crate::error::{FromStrError, InheritedAsResources};
use crate::iter::AsnIter;
use crate::resources::AsResources;
use rpki_as_block::block::AsBlock;
use rpki_as_block::list::read_blocks;
use rpki_base::asn::Asn;
use rpki_base::list::fmt_joined;
use rpki_base::memory::OrMemory;
use rpki_chain::choice::{Listed, ResourcesChoice};
use rpki_chain::set::BlockSet;
use std::alloc::{AllocError, Allocator, Global};
use std::fmt;
use std::marker::Model;
use std::slice::Iter;

/// A set of AS numbers.
///
/// Sets of the same numbers are equal and print alike. Several sets may share the same memory. The empty set takes no
/// memory.
///
/// The model of a set is the ascending list of its runs, each as its least and its greatest number.
#[derive(Drop)]
pub struct AsBlocks<A: Allocator = Global> {
    set: BlockSet<AsBlock, A>,
}

impl<A: Allocator> Model for AsBlocks<A> {
    ghost use Rattle.rpki_chain.specs.Runs.{Runs};

    ghost Value = { Runs };

    ghost view = { λ b. b.set };
}

impl<A: Allocator> AsBlocks<A> {
    /// Returns the empty set.
    pub fn empty() -> AsBlocks<A>
        ensures { result ≡ [] }
    {
        AsBlocks {
            set: BlockSet::empty(),
        }
    }

    /// Returns the set of all AS numbers, 0 to 4294967295.
    ///
    /// # Errors
    ///
    /// [`AllocError`]: out of memory.
    pub fn all(alloc: A) -> Result<AsBlocks<A>, AllocError>
    where
        A: Copy,
        ensures { IfOk result (λ set. set ≡ (0, 4294967295) ∷ []) }
    {
        let set = BlockSet::from_block(alloc, AsBlock::all())?;
        Ok(Self::from_set(set))
    }

    /// Returns the set of the numbers that at least one block has. The blocks may be in any order and may overlap.
    ///
    /// # Errors
    ///
    /// [`AllocError`]: out of memory.
    pub fn from_blocks(alloc: A, blocks: &[AsBlock]) -> Result<AsBlocks<A>, AllocError>
    where
        A: Copy,
        ensures { IfOk result (IsRunsOfBlocks as_bounds blocks.now) }
    {
        let set = BlockSet::from_blocks(alloc, blocks)?;
        Ok(Self::from_set(set))
    }

    /// Returns the set of the numbers that at least one block has, in the memory of `blocks`.
    ///
    /// The blocks may be in any order and may overlap.
    ///
    /// # Errors
    ///
    /// [`AllocError`]: out of memory for the reference count. The blocks are dropped then.
    pub fn from_vec(alloc: A, blocks: Vec<AsBlock, A>) -> Result<AsBlocks<A>, AllocError>
        ensures { IfOk result (IsRunsOfBlocks as_bounds blocks.items) }
    {
        let set = BlockSet::from_vec(alloc, blocks)?;
        Ok(Self::from_set(set))
    }

    /// Returns the set whose runs are `blocks`, without a check.
    ///
    /// The blocks must be the runs of a set, ascending, each in the form that `new` gives. The error is out of memory
    /// for the reference count.
    pub(crate) fn from_vec_unchecked(
        alloc: A,
        blocks: Vec<AsBlock, A>,
    ) -> Result<AsBlocks<A>, AllocError>
        requires { IsChain as_bounds new_as_block blocks.items }
        ensures { IfOk result (IsRunsOfBlocks as_bounds blocks.items) }
    {
        let set = BlockSet::from_vec_unchecked(alloc, blocks)?;
        Ok(Self::from_set(set))
    }

    /// Returns the set that `resources` list, or the empty set if they are missing.
    ///
    /// # Errors
    ///
    /// [`InheritedAsResources`]: the resources are inherited.
    pub fn from_resources(resources: AsResources<A>) -> Result<AsBlocks<A>, InheritedAsResources>
        ensures { MatchChoice resources (result ≡ Ok []) (IsErr result)
            (λ listed. result ≡ Ok listed) }
    {
        match resources.into_choice() {
            ResourcesChoice::Missing => Ok(AsBlocks::empty()),
            ResourcesChoice::Inherit => Err(InheritedAsResources),
            ResourcesChoice::Blocks(blocks) => Ok(blocks),
        }
    }

    /// Returns a set of blocks as a set of AS numbers.
    pub(crate) fn from_set(set: BlockSet<AsBlock, A>) -> AsBlocks<A>
        ensures { result ≡ set }
    {
        AsBlocks { set }
    }

    /// Returns the set as a set of blocks.
    pub(crate) fn as_set(&self) -> &BlockSet<AsBlock, A>
        ensures { result.now ≡ self.now }
    {
        &self.set
    }

    /// Returns the same set, which shares the memory of `self`.
    ///
    /// # Errors
    ///
    /// [`AllocError`]: the reference count is at its maximum.
    pub fn clone(&self) -> Result<AsBlocks<A>, AllocError>
        ensures same { IfOk result (λ set. set ≡ self.now) }
        ensures set { IsAsSet self.now }
    {
        let set = self.set.clone()?;
        Ok(Self::from_set(set))
    }

    /// Returns whether the set has no numbers.
    pub fn is_empty(&self) -> bool
        ensures { IsTrue result ↔ (self.now ≡ []) }
    {
        self.set.is_empty()
    }

    /// Returns the count of the set's numbers, 0 to 2^32.
    #[tactic(auto, using(crate::proofs::AsCountLemmas::numbers_counted))]
    pub fn asn_count(&self) -> u64
        ensures { IsSizeOf (Holds self.now) result }
    {
        let blocks = self.set.as_slice();
        let mut count = 0;
        for block in blocks {
            count += block.asn_count();
        }
        count
    }

    /// States an invariant for the proofs of callers: the set is a set of AS numbers.
    ///
    /// This call is no test. It does nothing and returns nothing.
    #[doc(hidden)]
    pub fn recall_invariant(&self)
        ensures { IsAsSet self.now }
    {
        self.set.recall_invariant();
    }

    /// Returns an iterator over the blocks of the set, ascending. They are its runs: a run of one number is an Id, any
    /// other a Range.
    pub fn iter(&self) -> Iter<'_, AsBlock>
        ensures blocks { map as_bounds (iter_rest result) ≡ self.now }
        ensures made { iter_rest result ≡ map new_as_block self.now }
        ensures set { IsAsSet self.now }
    {
        self.set.iter()
    }

    /// Returns an iterator over the numbers of the set, ascending.
    pub fn iter_asns(&self) -> AsnIter<'_>
        ensures { IsListOf (Holds self.now) result }
    {
        AsnIter::over(self.set.iter())
    }

    /// Returns whether the set has `asn`.
    pub fn contains_asn(&self, asn: Asn) -> bool
        ensures { IsTrue result ↔ Holds self.now asn }
    {
        self.set.contains_item(asn)
    }

    /// Returns whether the set has every number of `other`.
    pub fn contains(&self, other: &AsBlocks<A>) -> bool
        ensures { IsTrue result ↔ ((n : ℕ) → Holds other.now n → Holds self.now n) }
    {
        self.set.contains(&other.set)
    }

    /// Returns the intersection of `self` and `other`.
    ///
    /// # Errors
    ///
    /// [`AllocError`]: out of memory for the result, or a reference count is at its maximum.
    pub fn intersection(&self, alloc: A, other: &AsBlocks<A>) -> Result<AsBlocks<A>, AllocError>
    where
        A: Copy,
        ensures { IfOk result (IsIntersection self.now other.now) }
    {
        let set = self.set.intersection(alloc, &other.set)?;
        Ok(Self::from_set(set))
    }

    /// Keeps only the numbers that `other` has too.
    ///
    /// # Errors
    ///
    /// [`AllocError`]: out of memory for the result, or a reference count is at its maximum. The set is unchanged then.
    pub fn intersection_assign(&mut self, alloc: A, other: &AsBlocks<A>) -> Result<(), AllocError>
    where
        A: Copy,
        ensures ok { OnOk result (IsIntersection self.old other.now self.new) }
        ensures err { OnErr result (self.new ≡ self.old) }
    {
        self.set.intersection_assign(alloc, &other.set)
    }

    /// Returns the set of the numbers of `self` that `other` doesn't have.
    ///
    /// # Errors
    ///
    /// [`AllocError`]: out of memory.
    pub fn difference(&self, alloc: A, other: &AsBlocks<A>) -> Result<AsBlocks<A>, AllocError>
    where
        A: Copy,
        ensures { IfOk result (IsDifference self.now other.now) }
    {
        let set = self.set.difference(alloc, &other.set)?;
        Ok(Self::from_set(set))
    }

    /// Returns the union of `self` and `other`.
    ///
    /// # Errors
    ///
    /// [`AllocError`]: out of memory for the result.
    pub fn union(&self, alloc: A, other: &AsBlocks<A>) -> Result<AsBlocks<A>, AllocError>
    where
        A: Copy,
        ensures { IfOk result (IsUnion self.now other.now) }
    {
        let set = self.set.union(alloc, &other.set)?;
        Ok(Self::from_set(set))
    }

    /// Parses a list of blocks, and returns the set of their numbers. The blocks may be in any order and may overlap.
    ///
    /// The call splits `text` at its commas, trims white space from each part, and skips the parts that are then empty.
    /// Each other part is a block as in the `FromStr` of [`AsBlock`].
    ///
    /// # Errors
    ///
    /// - `Refused`: an element is not a block. The variant holds the fault of the first such element.
    /// - `Memory`: out of memory.
    pub fn from_str(alloc: A, text: &str) -> Result<AsBlocks<A>, OrMemory<FromStrError>>
    where
        A: Copy,
        ensures exact { AnswersOrMemory (λ set. set) (IsAsListText text.now)
            (HasAsListFault text.now) result }
        // The printed text of a set is read as that set.
        ensures reads_back { (set : Runs) → IsAsSet set → text.now ≡ as_list_text set
            → MatchResult result (λ read. read ≡ set) IsMemory }
    {
        let blocks = read_blocks(alloc, text)?;
        let set = Self::from_vec(alloc, blocks)?;
        Ok(set)
    }
}

impl<'a, A: Allocator> IntoIterator for &'a AsBlocks<A> {
    type Item = &'a AsBlock;

    type IntoIter = Iter<'a, AsBlock>;

    // the postconditions of `iter`
    ghost into_iter_gives = { λ set blocks. (map as_bounds (iter_rest blocks) ≡ set.now)
        × (iter_rest blocks ≡ map new_as_block set.now)
        × IsAsSet set.now };

    fn into_iter(self) -> Iter<'a, AsBlock> {
        self.iter()
    }
}

impl<A: Allocator> fmt::Debug for AsBlocks<A> {
    fn fmt<W: fmt::Write>(&self, f: &mut fmt::Formatter<W>) -> fmt::Result {
        f.debug_set().entries(self).finish()
    }
}

/// Returns the empty set as the default.
impl<A: Allocator> Default for AsBlocks<A> {
    ghost is_default = { λ set. set ≡ [] };

    fn default() -> AsBlocks<A> {
        AsBlocks::empty()
    }
}

/// Sets are equal if and only if they have the same numbers.
impl<A: Allocator> PartialEq for AsBlocks<A> {
    ghost eq = { λ a b. same_runs a b };

    ghost laws = { runs_per };

    fn eq(&self, other: &AsBlocks<A>) -> bool
        ensures value { result ≡ same_runs self.now other.now }
        ensures same { IsTrue result ↔ (self.now ≡ other.now) }
        ensures numbers { IsTrue result ↔ ((n : ℕ) → Holds self.now n ↔ Holds other.now n) }
    {
        self.set == other.set
    }
}

impl<A: Allocator> Eq for AsBlocks<A> {
    ghost laws = { runs_equiv };
}

/// Prints the blocks of the set, ascending, joined by a comma and a space. The empty set prints nothing.
impl<A: Allocator> fmt::Display for AsBlocks<A> {
    ghost output = { λ set. Some (as_list_text set) };

    fn fmt<W: fmt::Write>(&self, f: &mut fmt::Formatter<W>) -> fmt::Result {
        fmt_joined(self.set.as_slice(), f)
    }
}

impl<A: Allocator> Listed for AsBlocks<A> {
    ghost nothing = { [] };

    fn empty() -> AsBlocks<A> {
        AsBlocks::empty()
    }

    fn copy(&self) -> Result<AsBlocks<A>, AllocError> {
        self.clone()
    }
}
