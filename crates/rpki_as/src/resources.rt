//! AS resources that are missing, inherited from the issuer, or listed (RFC 3779, 3.2.3).
ghost use Rattle.std.specs.Prelude.{◌≡◌, ◌≢◌, ◌↔◌, true, [], IsTrue, IfOk, Ok, Some, MatchResult, ⊤};
ghost use Rattle.rpki_text.specs.Memory.{IsMemory};
ghost use Rattle.rpki_text.specs.Reading.{AnswersOrMemory};
ghost use Rattle.rpki_chain_core.specs.Equality.{same_runs};
ghost use Rattle.rpki_chain_core.specs.EqualityLaws.{runs_per, runs_equiv};
ghost use Rattle.rpki_chain_core.specs.Sets.{IsChain};
ghost use Rattle.rpki_chain.specs.ChoiceEquality.{choice_eq};
ghost use Rattle.rpki_chain.specs.ChoiceEqualityLaws.{choice_equiv, choice_per};
ghost use Rattle.rpki_chain.specs.Choices.{ListsBy, MatchChoice, IsRefused};
ghost use Rattle.rpki_chain.specs.ChoiceDer.{choice_octets};
ghost use Rattle.rpki_chain.specs.Claims.{Claim, IsClaim, claim_of};
ghost use Rattle.rpki_chain.specs.Runs.{IsRunsOfBlocks};
ghost use Rattle.rpki_chain.specs.declared.choice.ResourcesChoice.TheVariants.{Missing, Inherit};
ghost use Rattle.rpki_der.specs.SequenceWriting.{sequence_octets};
ghost use Rattle.rpki_as.specs.AsDer.{as_sequence_octets};
ghost use Rattle.rpki_as_block.specs.AsDer.{as_block_octets};
ghost use Rattle.rpki_as_block.specs.Blocks.{as_bounds, new_as_block};
ghost use Rattle.rpki_as.specs.Blocks.{IsAsSet};
ghost use Rattle.rpki_as.specs.ResourcesText.{IsAsResourcesText, HasAsResourcesFault, as_resources_text};

use crate::blocks::AsBlocks;
use crate::error::{FromStrError, InheritedAsResources};
use rpki_as_block::block::AsBlock;
use rpki_base::memory::OrMemory;
use rpki_chain::choice::ResourcesChoice;
use rpki_chain::der::make_set;
use rpki_chain::path::BlockClaim;
use rpki_chain::set::BlockSet;
use std::alloc::{AllocError, Allocator, Global};
use std::fmt;
use std::marker::Model;

/// AS resources that are missing, inherited from the issuer, or listed. A listed set isn't empty.
///
/// The model of resources is missing, inherited, or the ascending list of the runs of the listed set.
#[derive(Drop)]
pub struct AsResources<A: Allocator = Global> {
    choice: ResourcesChoice<AsBlocks<A>>,
}

impl<A: Allocator> Model for AsResources<A> {
    ghost use Rattle.rpki_chain.specs.Claims.{Claim, ListsSome};

    ghost Value = { Claim };

    ghost view = { λ r. r.choice };

    ghost invariant = { λ r. ListsSome r.choice };
}

impl<A: Allocator> AsResources<A> {
    /// Returns missing resources, which have no numbers.
    pub fn missing() -> AsResources<A>
        ensures { result ≡ Missing }
    {
        AsResources {
            choice: ResourcesChoice::Missing,
        }
    }

    /// Returns inherited resources, which are those of the issuer.
    pub fn inherit() -> AsResources<A>
        ensures { result ≡ Inherit }
    {
        AsResources {
            choice: ResourcesChoice::Inherit,
        }
    }

    /// Returns resources that list a set, or missing resources if the set is empty.
    pub fn blocks(blocks: AsBlocks<A>) -> AsResources<A>
        ensures { result ≡ claim_of blocks }
    {
        if blocks.is_empty() {
            return AsResources::missing();
        }
        AsResources {
            choice: ResourcesChoice::Blocks(blocks),
        }
    }

    /// Returns whether the resources are inherited from the issuer.
    pub fn is_inherited(&self) -> bool
        ensures { IsTrue result ↔ (self.now ≡ Inherit) }
    {
        self.choice.is_inherited()
    }

    /// Returns whether the resources are missing.
    pub fn is_missing(&self) -> bool
        ensures { IsTrue result ↔ (self.now ≡ Missing) }
    {
        matches!(self.choice, ResourcesChoice::Missing)
    }

    /// Returns whether the resources are inherited or listed.
    pub fn is_present(&self) -> bool
        ensures present { IsTrue result ↔ (self.now ≢ Missing) }
        ensures claim { IsClaim IsAsSet self.now }
    {
        // This call proves that the listed set is canonical.
        let _listed = self.as_choice();
        self.choice.is_present()
    }

    /// Returns the set that is listed, or the empty set if the resources are missing.
    ///
    /// # Errors
    ///
    /// - `Refused`: the resources are inherited.
    /// - `Memory`: [`AsBlocks::clone`] of the listed set failed.
    pub fn to_blocks(&self) -> Result<AsBlocks<A>, OrMemory<InheritedAsResources>>
        ensures { MatchChoice self.now (result ≡ Ok []) (IsRefused result)
            (λ listed. MatchResult result (λ set. set ≡ listed) IsMemory) }
    {
        match &self.choice {
            ResourcesChoice::Missing => Ok(AsBlocks::empty()),
            ResourcesChoice::Inherit => Err(OrMemory::Refused(InheritedAsResources)),
            ResourcesChoice::Blocks(listed) => Ok(listed.clone()?),
        }
    }

    /// Returns the same resources, which share the memory of a listed set.
    ///
    /// # Errors
    ///
    /// [`AllocError`]: the reference count of the listed set is at its maximum.
    pub fn clone(&self) -> Result<AsResources<A>, AllocError>
        ensures { IfOk result (λ resources. resources ≡ self.now) }
    {
        let choice = self.choice.clone()?;
        Ok(AsResources { choice })
    }

    /// Returns the resources that were read, with the set of [`make_set`] for a list of blocks. The errors are those of
    /// [`make_set`].
    pub(crate) fn from_listed(
        alloc: A,
        listed: ResourcesChoice<Vec<AsBlock, A>>,
        are_chain: bool,
    ) -> Result<AsResources<A>, AllocError>
        requires some { MatchChoice listed ⊤ ⊤ (λ blocks. blocks.items ≢ []) }
        requires chain { are_chain ≡ true
            → MatchChoice listed ⊤ ⊤ (λ blocks. IsChain as_bounds new_as_block blocks.items) }
        ensures { IfOk result
            (ListsBy (λ blocks set. IsRunsOfBlocks as_bounds blocks.items set) listed) }
    {
        let choice = match listed {
            ResourcesChoice::Missing => ResourcesChoice::Missing,
            ResourcesChoice::Inherit => ResourcesChoice::Inherit,
            ResourcesChoice::Blocks(blocks) => {
                let set = make_set(alloc, blocks, are_chain)?;
                ResourcesChoice::Blocks(AsBlocks::from_set(set))
            }
        };
        Ok(AsResources { choice })
    }

    /// Returns the listed blocks. Each is a run, in the form that `new` gives.
    #[tactic(auto, using(crate::proofs::AsSetDerLemmas::blocks_octets))]
    pub(crate) fn as_choice(&self) -> ResourcesChoice<&[AsBlock]>
        ensures octets { choice_octets (λ blocks. sequence_octets as_block_octets blocks.now) result
            ≡ choice_octets as_sequence_octets self.now }
        ensures claim { IsClaim IsAsSet self.now }
    {
        match &self.choice {
            ResourcesChoice::Missing => ResourcesChoice::Missing,
            ResourcesChoice::Inherit => ResourcesChoice::Inherit,
            ResourcesChoice::Blocks(blocks) => ResourcesChoice::Blocks(blocks.iter().as_slice()),
        }
    }

    /// Returns the resources as a choice.
    pub(crate) fn into_choice(self) -> ResourcesChoice<AsBlocks<A>>
        ensures { result ≡ self }
    {
        self.choice
    }

    /// Parses resources: the text `inherit`, or else a list of blocks as in [`AsBlocks::from_str`].
    ///
    /// The resources are missing if the list has no blocks.
    ///
    /// # Errors
    ///
    /// - `Refused`: an element of the list is not a block. The variant holds the fault of the first such element.
    /// - `Memory`: out of memory.
    pub fn from_str(alloc: A, text: &str) -> Result<AsResources<A>, OrMemory<FromStrError>>
    where
        A: Copy,
        ensures exact { AnswersOrMemory (λ claim. claim) (IsAsResourcesText text.now)
            (HasAsResourcesFault text.now) result }
        // The printed text of resources is read as these resources.
        ensures reads_back { (claim : Claim) → IsClaim IsAsSet claim
            → text.now ≡ as_resources_text claim
            → MatchResult result (λ read. read ≡ claim) IsMemory }
    {
        if text == "inherit" {
            return Ok(AsResources::inherit());
        }
        let blocks = AsBlocks::from_str(alloc, text)?;
        Ok(AsResources::blocks(blocks))
    }
}

impl<A: Allocator> BlockClaim<AsBlock, A> for AsResources<A> {
    ghost claim = { λ claim. claim };

    fn claimed(&self) -> ResourcesChoice<&BlockSet<AsBlock, A>> {
        match &self.choice {
            ResourcesChoice::Missing => ResourcesChoice::Missing,
            ResourcesChoice::Inherit => ResourcesChoice::Inherit,
            ResourcesChoice::Blocks(blocks) => ResourcesChoice::Blocks(blocks.as_set()),
        }
    }
}

impl<A: Allocator> fmt::Debug for AsResources<A> {
    fn fmt<W: fmt::Write>(&self, f: &mut fmt::Formatter<W>) -> fmt::Result {
        self.choice.fmt(f)
    }
}

/// Resources are equal if both are missing, both are inherited, or both list the same numbers.
impl<A: Allocator> PartialEq for AsResources<A> {
    ghost eq = { λ a b. choice_eq same_runs a b };

    ghost laws = { choice_per same_runs runs_per };

    fn eq(&self, other: &AsResources<A>) -> bool
        ensures value { result ≡ choice_eq same_runs self.now other.now }
        ensures same { IsTrue result ↔ (self.now ≡ other.now) }
    {
        self.choice == other.choice
    }
}

impl<A: Allocator> Eq for AsResources<A> {
    ghost laws = { choice_equiv same_runs runs_equiv };
}

/// Prints nothing for missing resources and `inherit` for inherited ones. Listed blocks are printed ascending, joined
/// by a comma and a space.
impl<A: Allocator> fmt::Display for AsResources<A> {
    ghost output = { λ claim. Some (as_resources_text claim) };

    fn fmt<W: fmt::Write>(&self, f: &mut fmt::Formatter<W>) -> fmt::Result {
        self.choice.fmt(f)
    }
}
