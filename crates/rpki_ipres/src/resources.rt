//! Resources of addresses: missing, inherited from the issuer, or listed.
ghost use Rattle.std.specs.Prelude.{◌≡◌, ◌≢◌, ◌↔◌, true, [], IsTrue, IsErr, IfOk, Ok, MatchResult, ⊤};
ghost use Rattle.rpki_text.specs.Memory.{IsMemory};
ghost use Rattle.rpki_chain.specs.Choices.{IsRefused, ListsBy, MatchChoice, if_present};
ghost use Rattle.rpki_der.specs.SequenceWriting.{sequence_octets};
ghost use Rattle.rpki_der.specs.FamiliesDer.{option_der};
ghost use Rattle.rpki_chain_core.specs.Equality.{same_runs};
ghost use Rattle.rpki_chain_core.specs.EqualityLaws.{runs_per, runs_equiv};
ghost use Rattle.rpki_chain_core.specs.Sets.{IsChain};
ghost use Rattle.rpki_chain.specs.ChoiceDer.{choice_octets};
ghost use Rattle.rpki_chain.specs.ChoiceEquality.{choice_eq};
ghost use Rattle.rpki_chain.specs.ChoiceEqualityLaws.{choice_per, choice_equiv};
ghost use Rattle.rpki_chain.specs.Claims.{ListsSome, claim_of};
ghost use Rattle.rpki_chain.specs.Runs.{IsRunsOfBlocks};
ghost use Rattle.rpki_chain.specs.declared.choice.ResourcesChoice.TheVariants.{Missing, Inherit};
ghost use Rattle.rpki_ip_block.specs.BlockDer.{ip_block_der};
ghost use Rattle.rpki_ip_block.specs.Blocks.{ip_bounds, new_ip_block};
ghost use Rattle.rpki_ipres.specs.Resources.{IsIpClaim, IsWholeClaim};
ghost use Rattle.rpki_ipres.specs.ResourcesDer.{ip_member_der, ip_resources_der};

use crate::blocks::IpBlocks;
use rpki_chain::choice::{InheritedResources, Listed, ResourcesChoice};
use rpki_chain::der::make_set;
use rpki_chain::path::BlockClaim;
use rpki_chain::set::BlockSet;
use rpki_ip_block::block::IpBlock;
use rpki_text::memory::OrMemory;
use std::alloc::{AllocError, Allocator, Global};
use std::fmt;
use std::marker::Model;
use thiserror::Error;

/// The resources of one family of addresses (RFC 3779, 2.2.3.4 to 2.2.3.6).
///
/// They are missing, inherited from the issuer, or a set of addresses that isn't empty. In contracts their value is
/// Missing, Inherit, or Blocks with the runs of the set, which has at least one run.
#[derive(Drop)]
pub struct IpResources<A: Allocator = Global> {
    choice: ResourcesChoice<IpBlocks<A>>,
}

impl<A: Allocator> Model for IpResources<A> {
    ghost use Rattle.rpki_chain.specs.Claims.{Claim, ListsSome};

    ghost Value = { Claim };

    ghost view = { λ r. r.choice };

    ghost invariant = { λ r. ListsSome r.choice };
}

impl<A: Allocator> IpResources<A> {
    /// Returns missing resources.
    pub fn missing() -> IpResources<A>
        ensures { result ≡ Missing }
    {
        IpResources {
            choice: ResourcesChoice::Missing,
        }
    }

    /// Returns the resources of the issuer.
    pub fn inherit() -> IpResources<A>
        ensures { result ≡ Inherit }
    {
        IpResources {
            choice: ResourcesChoice::Inherit,
        }
    }

    /// Returns resources that list `blocks`. They are missing if the set is empty.
    pub fn blocks(blocks: IpBlocks<A>) -> IpResources<A>
        ensures { result ≡ claim_of blocks }
    {
        if blocks.is_empty() {
            return Self::missing();
        }
        IpResources {
            choice: ResourcesChoice::Blocks(blocks),
        }
    }

    /// Returns whether the resources are missing.
    pub fn is_missing(&self) -> bool
        ensures { IsTrue result ↔ (self.now ≡ Missing) }
    {
        matches!(self.choice, ResourcesChoice::Missing)
    }

    /// Returns whether the resources are those of the issuer.
    pub fn is_inherited(&self) -> bool
        ensures { IsTrue result ↔ (self.now ≡ Inherit) }
    {
        self.choice.is_inherited()
    }

    /// Returns whether the resources are inherited or listed.
    pub fn is_present(&self) -> bool
        ensures present { IsTrue result ↔ (self.now ≢ Missing) }
        ensures some { ListsSome self.now }
        ensures claim { IsIpClaim self.now }
    {
        // `as_choice` states that a listed set is canonical, which `claim` needs.
        let _listed = self.as_choice();
        self.choice.is_present()
    }

    /// Returns whether the listed set consists of whole IPv4 addresses, as [`IpBlocks::is_whole_v4`] does.
    ///
    /// The call returns true for missing and inherited resources, which list nothing.
    pub fn is_whole_v4(&self) -> bool
        ensures { IsTrue result ↔ IsWholeClaim self.now }
    {
        match &self.choice {
            ResourcesChoice::Missing | ResourcesChoice::Inherit => true,
            ResourcesChoice::Blocks(blocks) => blocks.is_whole_v4(),
        }
    }

    /// Returns the listed set, or the empty set if the resources are missing.
    ///
    /// A listed set shares its memory with that of `self` (reference count + 1).
    ///
    /// # Errors
    ///
    /// - [`OrMemory::Refused`]: the resources are inherited.
    /// - [`OrMemory::Memory`]: std refuses the additional reference.
    pub fn to_blocks(&self) -> Result<IpBlocks<A>, OrMemory<InheritedIpResources>>
        ensures { MatchChoice self.now (result ≡ Ok []) (IsRefused result)
            (λ listed. MatchResult result (λ set. set ≡ listed) IsMemory) }
    {
        match &self.choice {
            ResourcesChoice::Missing => Ok(IpBlocks::empty()),
            ResourcesChoice::Inherit => Err(OrMemory::Refused(InheritedIpResources)),
            ResourcesChoice::Blocks(listed) => Ok(listed.clone()?),
        }
    }

    /// Returns the same resources. A listed set shares its memory with that of `self` (reference count + 1).
    ///
    /// # Errors
    ///
    /// [`AllocError`] if std refuses the additional reference.
    pub fn clone(&self) -> Result<IpResources<A>, AllocError>
        ensures { IfOk result (λ resources. resources ≡ self.now) }
    {
        let choice = self.choice.clone()?;
        Ok(IpResources { choice })
    }
}

// Internal steps of the DER reader and writer.
impl<A: Allocator> IpResources<A> {
    /// Returns the resources of the blocks that were read. If the resources list blocks, [`make_set`] makes their set.
    ///
    /// # Errors
    ///
    /// The [`AllocError`] of [`make_set`].
    pub(crate) fn from_listed(
        alloc: A,
        listed: ResourcesChoice<Vec<IpBlock, A>>,
        are_chain: bool,
    ) -> Result<IpResources<A>, AllocError>
        requires some { MatchChoice listed ⊤ ⊤ (λ blocks. blocks.items ≢ []) }
        requires chain { are_chain ≡ true
            → MatchChoice listed ⊤ ⊤ (λ blocks. IsChain ip_bounds new_ip_block blocks.items) }
        ensures { IfOk result
            (ListsBy (λ blocks set. IsRunsOfBlocks ip_bounds blocks.items set) listed) }
    {
        let choice = match listed {
            ResourcesChoice::Missing => ResourcesChoice::Missing,
            ResourcesChoice::Inherit => ResourcesChoice::Inherit,
            ResourcesChoice::Blocks(blocks) => {
                let set = make_set(alloc, blocks, are_chain)?;
                ResourcesChoice::Blocks(IpBlocks::from_set(set))
            }
        };
        Ok(IpResources { choice })
    }

    /// Returns the resources with the listed blocks, ascending.
    #[tactic(auto, using(crate::proofs::IpSetWritten::written_as_runs))]
    pub(crate) fn as_choice(&self) -> ResourcesChoice<&[IpBlock]>
        ensures octets { choice_octets (λ blocks. sequence_octets ip_block_der blocks.now) result
            ≡ ip_resources_der self.now }
        ensures member { (family : _) → option_der
            (choice_octets (λ blocks. sequence_octets ip_block_der blocks.now)) family
            (if_present result) ≡ ip_member_der family self.now }
        ensures claim { IsIpClaim self.now }
    {
        match &self.choice {
            ResourcesChoice::Missing => ResourcesChoice::Missing,
            ResourcesChoice::Inherit => ResourcesChoice::Inherit,
            ResourcesChoice::Blocks(blocks) => ResourcesChoice::Blocks(blocks.as_slice()),
        }
    }
}

impl<A: Allocator> IpBlocks<A> {
    ghost use Rattle.std.specs.Prelude.{◌≡◌, [], IsErr, Ok};
    ghost use Rattle.rpki_chain.specs.Choices.{MatchChoice};

    /// Returns the set that the resources list, or the empty set if they are missing.
    ///
    /// # Errors
    ///
    /// [`InheritedIpResources`] if the resources are inherited.
    pub fn from_resources(resources: IpResources<A>) -> Result<IpBlocks<A>, InheritedIpResources>
        ensures { MatchChoice resources (result ≡ Ok []) (IsErr result)
            (λ listed. result ≡ Ok listed) }
    {
        match resources.choice {
            ResourcesChoice::Missing => Ok(IpBlocks::empty()),
            ResourcesChoice::Inherit => Err(InheritedIpResources),
            ResourcesChoice::Blocks(blocks) => Ok(blocks),
        }
    }
}

impl<A: Allocator> Listed for IpBlocks<A> {
    ghost nothing = { [] };

    fn empty() -> IpBlocks<A> {
        IpBlocks::empty()
    }

    fn copy(&self) -> Result<IpBlocks<A>, AllocError> {
        IpBlocks::clone(self)
    }
}

impl<A: Allocator> BlockClaim<IpBlock, A> for IpResources<A> {
    ghost claim = { λ claim. claim };

    fn claimed(&self) -> ResourcesChoice<&BlockSet<IpBlock, A>> {
        match &self.choice {
            ResourcesChoice::Missing => ResourcesChoice::Missing,
            ResourcesChoice::Inherit => ResourcesChoice::Inherit,
            ResourcesChoice::Blocks(blocks) => ResourcesChoice::Blocks(blocks.as_set()),
        }
    }
}

impl<A: Allocator> fmt::Debug for IpResources<A> {
    fn fmt<W: fmt::Write>(&self, f: &mut fmt::Formatter<W>) -> fmt::Result {
        self.choice.fmt(f)
    }
}

/// Resources are equal if both are missing, both are inherited, or both list the same addresses. Otherwise they are
/// unequal.
impl<A: Allocator> PartialEq for IpResources<A> {
    ghost eq = { choice_eq same_runs };

    ghost laws = { choice_per same_runs runs_per };

    fn eq(&self, other: &IpResources<A>) -> bool
        ensures value { result ≡ choice_eq same_runs self.now other.now }
        ensures same { IsTrue result ↔ (self.now ≡ other.now) }
    {
        self.choice == other.choice
    }
}

impl<A: Allocator> Eq for IpResources<A> {
    ghost laws = { choice_equiv same_runs runs_equiv };
}

/// The error for inherited resources, which are no set of addresses by themselves.
#[derive(Clone, Copy, Debug, PartialEq, Eq, Error)]
#[error("inherited IP resources")]
pub struct InheritedIpResources;

impl From<InheritedResources> for InheritedIpResources {
    ghost from_gives = { λ _ _. ⊤ };

    fn from(_fault: InheritedResources) -> InheritedIpResources {
        InheritedIpResources
    }
}
