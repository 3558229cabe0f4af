//! Sets of addresses.
ghost use Rattle.std.specs.Prelude.{◌≡◌, ℕ, ◌↔◌, [], ◌∷◌, IsTrue, IfOk, OnOk, OnErr, map, MatchResult};
ghost use Rattle.std.specs.Slice.Iter.{iter_rest};
ghost use Rattle.rpki_text.specs.Memory.{IsMemory};
ghost use Rattle.rpki_text.specs.Reading.{AnswersOrMemory};
ghost use Rattle.rpki_chain_core.specs.Equality.{same_runs};
ghost use Rattle.rpki_chain_core.specs.EqualityLaws.{runs_per, runs_equiv};
ghost use Rattle.rpki_chain.specs.Operations.{IsDifference, IsIntersection, IsUnion};
ghost use Rattle.rpki_chain.specs.Runs.{Runs, Holds, IsRunsOfBlocks};
ghost use Rattle.rpki_chain_core.specs.Sets.{IsChain, IsWithin};
ghost use Rattle.rpki_ip.specs.Ranges.{range_bounds};
ghost use Rattle.rpki_ip.specs.Whole.{IsWhole};
ghost use Rattle.rpki_der.specs.declared.family.AddressFamily.TheVariants.{Ipv4, Ipv6};
ghost use Rattle.rpki_ip_block.specs.Blocks.{ip_bounds, new_ip_block};
ghost use Rattle.rpki_ip_block.specs.ListText.{HasBlocks, HasBlocksFault, HasIpBlocks, HasIpBlocksFault, IsFamilyOf};
ghost use Rattle.rpki_ipres.specs.SetText.{IsIpSet, IsFamilySet, IsSetOf, set_text};

use crate::family::IpBlocksForFamily;
use rpki_chain::set::BlockSet;
use rpki_ip::error::FromStrError;
use rpki_ip::family::AddressFamily;
use rpki_ip::range::AddressRange;
use rpki_ip_block::block::IpBlock;
use rpki_ip_block::list::{read_blocks, read_ip_blocks};
use rpki_text::memory::OrMemory;
use std::alloc::{AllocError, Allocator, Global};
use std::fmt;
use std::marker::Model;
use std::slice::Iter;

/// A set of addresses.
///
/// An IPv4 address is stored as the numbers of 128 bits that begin with its 32 bits. Sets of the same addresses are
/// equal and print alike. Several sets can share one memory. The empty set has no memory.
///
/// In contracts its value is the ascending list of its runs, each as its least and its greatest address.
#[derive(Drop)]
pub struct IpBlocks<A: Allocator = Global> {
    set: BlockSet<IpBlock, A>,
}

impl<A: Allocator> Model for IpBlocks<A> {
    ghost use Rattle.rpki_chain.specs.Runs.{Runs};

    ghost Value = { Runs };

    ghost view = { λ b. b.set };
}

impl<A: Allocator> IpBlocks<A> {
    /// Returns the set of no addresses.
    pub fn empty() -> IpBlocks<A>
        ensures { result ≡ [] }
    {
        IpBlocks {
            set: BlockSet::empty(),
        }
    }

    /// Returns the set of all addresses, which is the same set for IPv4 and for IPv6.
    ///
    /// # Errors
    ///
    /// [`AllocError`] if an allocation fails.
    pub fn all(alloc: A) -> Result<IpBlocks<A>, AllocError>
    where
        A: Copy,
        ensures { IfOk result (λ set. set ≡ (0, 340282366920938463463374607431768211455) ∷ []) }
    {
        let set = BlockSet::from_block(alloc, IpBlock::all())?;
        Ok(IpBlocks::from_set(set))
    }

    /// Returns the set of the addresses that are in at least one block. The blocks may be in any order and may overlap.
    ///
    /// # Errors
    ///
    /// [`AllocError`] if an allocation fails.
    pub fn from_blocks(alloc: A, blocks: &[IpBlock]) -> Result<IpBlocks<A>, AllocError>
    where
        A: Copy,
        ensures { IfOk result (IsRunsOfBlocks ip_bounds blocks.now) }
    {
        let set = BlockSet::from_blocks(alloc, blocks)?;
        Ok(IpBlocks::from_set(set))
    }

    /// Returns the set of the addresses that are in at least one block. The set uses the memory of `blocks`.
    ///
    /// The blocks may be in any order and may overlap.
    ///
    /// # Errors
    ///
    /// [`AllocError`] if the allocation of the reference count fails.
    pub fn from_vec(alloc: A, blocks: Vec<IpBlock, A>) -> Result<IpBlocks<A>, AllocError>
        ensures { IfOk result (IsRunsOfBlocks ip_bounds blocks.items) }
    {
        let set = BlockSet::from_vec(alloc, blocks)?;
        Ok(IpBlocks::from_set(set))
    }

    /// Returns the set of blocks that are already its runs, each in the form that sets have.
    ///
    /// # Errors
    ///
    /// [`AllocError`] if the allocation of the reference count fails.
    pub(crate) fn from_vec_unchecked(
        alloc: A,
        blocks: Vec<IpBlock, A>,
    ) -> Result<IpBlocks<A>, AllocError>
        requires { IsChain ip_bounds new_ip_block blocks.items }
        ensures { IfOk result (IsRunsOfBlocks ip_bounds blocks.items) }
    {
        let set = BlockSet::from_vec_unchecked(alloc, blocks)?;
        Ok(IpBlocks::from_set(set))
    }

    /// Wraps a set of blocks.
    pub(crate) fn from_set(set: BlockSet<IpBlock, A>) -> IpBlocks<A>
        ensures { result ≡ set }
    {
        IpBlocks { set }
    }

    /// Borrows the set of blocks.
    pub(crate) fn as_set(&self) -> &BlockSet<IpBlock, A>
        ensures { result.now ≡ self.now }
    {
        &self.set
    }

    /// Returns the same set, which shares the memory of `self` (reference count + 1).
    ///
    /// # Errors
    ///
    /// [`AllocError`] if std refuses the additional reference.
    pub fn clone(&self) -> Result<IpBlocks<A>, AllocError>
        ensures same { IfOk result (λ set. set ≡ self.now) }
        ensures set { IsIpSet self.now }
    {
        let set = self.set.clone()?;
        Ok(IpBlocks { set })
    }

    /// Returns whether the set has no addresses.
    pub fn is_empty(&self) -> bool
        ensures { IsTrue result ↔ (self.now ≡ []) }
    {
        self.set.is_empty()
    }

    /// States an invariant for the proofs of callers: the set is one of addresses.
    ///
    /// The call checks nothing when it runs, and returns nothing.
    #[doc(hidden)]
    pub fn recall_invariant(&self)
        ensures { IsIpSet self.now }
    {
        self.set.recall_invariant();
    }

    /// Iterates over the blocks of the set, ascending.
    ///
    /// The blocks are the set's runs, each as a Prefix if possible, and otherwise as a Range.
    pub fn iter(&self) -> Iter<'_, IpBlock>
        ensures blocks { map ip_bounds (iter_rest result) ≡ self.now }
        ensures made { iter_rest result ≡ map new_ip_block self.now }
        ensures set { IsIpSet self.now }
    {
        self.set.iter()
    }

    /// Returns the blocks of the set, ascending.
    ///
    /// The blocks are the set's runs, each as a Prefix if possible, and otherwise as a Range.
    pub(crate) fn as_slice(&self) -> &[IpBlock]
        ensures blocks { map ip_bounds result.now ≡ self.now }
        ensures made { result.now ≡ map new_ip_block self.now }
        ensures set { IsIpSet self.now }
    {
        self.set.as_slice()
    }

    /// Returns the set for display as an IPv4 set: its blocks, ascending, joined by a comma and a space.
    pub fn as_v4(&self) -> IpBlocksForFamily<'_, A>
        ensures { result ≡ (Ipv4, self.now) }
    {
        IpBlocksForFamily::v4(self)
    }

    /// Returns the set for display as an IPv6 set: its blocks, ascending, joined by a comma and a space.
    pub fn as_v6(&self) -> IpBlocksForFamily<'_, A>
        ensures { result ≡ (Ipv6, self.now) }
    {
        IpBlocksForFamily::v6(self)
    }

    /// Returns the set for display as a set of `family`, as [`IpBlocks::as_v4`] or [`IpBlocks::as_v6`] does.
    pub fn display_with_family(&self, family: AddressFamily) -> IpBlocksForFamily<'_, A>
        ensures { result ≡ (family, self.now) }
    {
        IpBlocksForFamily::of(family, self)
    }

    /// Parses a list of blocks of `family` and returns the set of their addresses.
    ///
    /// The call splits the text as [`IpBlocks::from_str`] does.
    ///
    /// # Errors
    ///
    /// - [`OrMemory::Refused`]: the fault of the first element that isn't a block of the family. The fault is
    ///   [`FromStrError::FamilyMismatch`] if the element has a colon in a list of IPv4, or a dot and no colon in a list
    ///   of IPv6. Otherwise it is the fault of [`IpBlock::from_v4_str`] or [`IpBlock::from_v6_str`].
    /// - [`OrMemory::Memory`]: an allocation failed.
    pub fn from_str_with_family(
        alloc: A,
        family: AddressFamily,
        text: &str,
    ) -> Result<IpBlocks<A>, OrMemory<FromStrError>>
    where
        A: Copy,
        ensures exact { AnswersOrMemory (λ set. set) (IsSetOf (HasBlocks family text.now))
            (HasBlocksFault family text.now) result }
        // The printed text of a set of the family parses back to that set.
        ensures reads_back { (set : Runs) → IsFamilySet family set → text.now ≡ set_text family set
            → MatchResult result (λ read. read ≡ set) IsMemory }
        ensures whole { IfOk result (λ set. family ≡ Ipv4 → IsWhole (Holds set)) }
    {
        let blocks = read_blocks(alloc, family, text)?;
        let set = IpBlocks::from_vec(alloc, blocks)?;
        Ok(set)
    }

    /// Parses a list of blocks and returns the set of their addresses.
    ///
    /// The blocks are of IPv6 if the text has a colon anywhere, and otherwise of IPv4. The call splits the text at
    /// commas and trims white space from each element. It ignores elements that are then empty.
    ///
    /// # Errors
    ///
    /// - [`OrMemory::Refused`] with [`FromStrError::FamilyMismatch`]: an element isn't a block of the family.
    /// - [`OrMemory::Memory`]: an allocation failed.
    pub fn from_str(alloc: A, text: &str) -> Result<IpBlocks<A>, OrMemory<FromStrError>>
    where
        A: Copy,
        ensures exact { AnswersOrMemory (λ set. set) (IsSetOf (HasIpBlocks text.now))
            (HasIpBlocksFault text.now) result }
        ensures whole { IfOk result (λ set. IsFamilyOf text.now Ipv4 → IsWhole (Holds set)) }
        // The printed text of a set parses back to that set: in IPv4 if it consists of whole IPv4 addresses, in IPv6
        // always.
        ensures reads_back { (family : _) (set : Runs) → IsFamilySet family set
            → text.now ≡ set_text family set
            → MatchResult result (λ read. read ≡ set) IsMemory }
    {
        let blocks = read_ip_blocks(alloc, text)?;
        let set = Self::from_vec(alloc, blocks)?;
        Ok(set)
    }

    /// Returns whether the set has every address of `other`.
    pub fn contains(&self, other: &IpBlocks<A>) -> bool
        ensures { IsTrue result ↔ ((n : ℕ) → Holds other.now n → Holds self.now n) }
    {
        self.set.contains(&other.set)
    }

    /// Returns whether the set has every address of a range, for example of a prefix of a ROA (RFC 9582, 5).
    pub fn contains_roa(&self, addr: AddressRange) -> bool
        ensures { IsTrue result ↔ ((n : ℕ) → IsWithin (range_bounds addr) n → Holds self.now n) }
    {
        self.contains_block(IpBlock::from(addr))
    }

    /// Returns whether the set has every address of a block.
    pub fn contains_block(&self, block: IpBlock) -> bool
        ensures { IsTrue result ↔ ((n : ℕ) → IsWithin (ip_bounds block) n → Holds self.now n) }
    {
        self.set.contains_block(&block)
    }

    /// Returns whether the set has at least one address of a block.
    pub fn intersects_block(&self, block: IpBlock) -> bool
        ensures { IsTrue result ↔ ((n : ℕ) × IsWithin (ip_bounds block) n × Holds self.now n) }
    {
        self.set.intersects_block(&block)
    }

    /// Returns whether the set consists of whole IPv4 addresses.
    ///
    /// With each of its numbers the set then has every number with the same first 32 bits.
    pub fn is_whole_v4(&self) -> bool
        ensures { IsTrue result ↔ IsWhole (Holds self.now) }
    {
        let blocks = self.set.as_slice();
        for block in blocks {
            if !block.is_whole_v4() {
                return false;
            }
        }
        true
    }

    /// Returns the intersection of `self` and `other`: the addresses that are in both.
    ///
    /// # Errors
    ///
    /// [`AllocError`] if an allocation fails, or if a reference count is at its maximum.
    pub fn intersection(&self, alloc: A, other: &IpBlocks<A>) -> Result<IpBlocks<A>, AllocError>
    where
        A: Copy,
        ensures { IfOk result (IsIntersection self.now other.now) }
    {
        let set = self.set.intersection(alloc, &other.set)?;
        Ok(IpBlocks { set })
    }

    /// Replaces the set by its intersection with `other`.
    ///
    /// # Errors
    ///
    /// [`AllocError`] if an allocation fails. The set is unchanged then.
    pub fn intersection_assign(&mut self, alloc: A, other: &IpBlocks<A>) -> Result<(), AllocError>
    where
        A: Copy,
        ensures ok { OnOk result (IsIntersection self.old other.now self.new) }
        ensures err { OnErr result (self.new ≡ self.old) }
    {
        self.set.intersection_assign(alloc, &other.set)
    }

    /// Returns the difference: the addresses of `self` that aren't in `other`.
    ///
    /// # Errors
    ///
    /// [`AllocError`] if an allocation fails.
    pub fn difference(&self, alloc: A, other: &IpBlocks<A>) -> Result<IpBlocks<A>, AllocError>
    where
        A: Copy,
        ensures { IfOk result (IsDifference self.now other.now) }
    {
        let set = self.set.difference(alloc, &other.set)?;
        Ok(IpBlocks { set })
    }

    /// Returns the union of `self` and `other`: the addresses that are in at least one of them.
    ///
    /// # Errors
    ///
    /// [`AllocError`] if an allocation fails.
    pub fn union(&self, alloc: A, other: &IpBlocks<A>) -> Result<IpBlocks<A>, AllocError>
    where
        A: Copy,
        ensures { IfOk result (IsUnion self.now other.now) }
    {
        let set = self.set.union(alloc, &other.set)?;
        Ok(IpBlocks { set })
    }
}

impl<'a, A: Allocator> IntoIterator for &'a IpBlocks<A> {
    type Item = &'a IpBlock;

    type IntoIter = Iter<'a, IpBlock>;

    // The postconditions of `iter`.
    ghost into_iter_gives = { λ set blocks. (map ip_bounds (iter_rest blocks) ≡ set.now)
        × (iter_rest blocks ≡ map new_ip_block set.now)
        × IsIpSet set.now };

    fn into_iter(self) -> Iter<'a, IpBlock> {
        self.iter()
    }
}

impl<A: Allocator> fmt::Debug for IpBlocks<A> {
    fn fmt<W: fmt::Write>(&self, f: &mut fmt::Formatter<W>) -> fmt::Result {
        f.debug_set().entries(self).finish()
    }
}

/// Returns the set of no addresses.
impl<A: Allocator> Default for IpBlocks<A> {
    ghost is_default = { λ set. set ≡ [] };

    fn default() -> IpBlocks<A> {
        IpBlocks::empty()
    }
}

/// Sets are equal if and only if they have the same addresses.
impl<A: Allocator> PartialEq for IpBlocks<A> {
    ghost eq = { λ a b. same_runs a b };

    ghost laws = { runs_per };

    fn eq(&self, other: &IpBlocks<A>) -> bool
        ensures value { result ≡ same_runs self.now other.now }
        ensures same { IsTrue result ↔ (self.now ≡ other.now) }
        ensures numbers { IsTrue result ↔ ((n : ℕ) → Holds self.now n ↔ Holds other.now n) }
    {
        self.set == other.set
    }
}

impl<A: Allocator> Eq for IpBlocks<A> {
    ghost laws = { runs_equiv };
}
