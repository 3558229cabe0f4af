//! Conversions between sets of resources and claims.
ghost use Rattle.std.specs.Prelude.{◌≡◌, IfOk, MatchResult};
ghost use Rattle.rpki_text.specs.Memory.{IfRefused};
ghost use Rattle.rpki_chain.specs.Claims.{IsClaim, claim_of};
ghost use Rattle.rpki_chain.specs.Choices.{IsRefused};
ghost use Rattle.rpki_as.specs.Blocks.{IsAsSet};
ghost use Rattle.rpki_der.specs.declared.family.AddressFamily.TheVariants.{Ipv4, Ipv6};
ghost use Rattle.rpki_ipres.specs.Resources.{IsFamilyClaim, IsWholeClaim};
ghost use Rattle.rpki_resources.specs.Triples.{AreListed, IsOneInherited};

use crate::error::InheritError;
use crate::set::ResourceSet;
use rpki_as::AsResources;
use rpki_base::memory::OrMemory;
use rpki_family::{Ipv4Blocks, Ipv6Blocks};
use rpki_ipres::IpResources;
use std::alloc::{AllocError, Allocator};

impl<A: Allocator> ResourceSet<A> {
    /// Returns the set of the listed resources. Missing resources give an empty set.
    ///
    /// The set shares the memory of the lists (reference count + 1 for each list).
    ///
    /// # Preconditions
    ///
    /// A list in `ipv4` consists of whole IPv4 addresses.
    ///
    /// # Errors
    ///
    /// - `Refused` with [`InheritError`] if a claim is inherited. This error comes before `Memory`.
    /// - `Memory` if `std` refuses an additional reference.
    #[tactic(auto, using(crate::proofs::ListedClaimLemmas::lists))]
    pub fn from_resources(
        asn: &AsResources<A>,
        ipv4: &IpResources<A>,
        ipv6: &IpResources<A>,
    ) -> Result<ResourceSet<A>, OrMemory<InheritError>>
        requires { IsWholeClaim ipv4.now }
        ensures found { MatchResult result (AreListed asn.now ipv4.now ipv6.now)
            (IfRefused (λ _. IsOneInherited asn.now ipv4.now ipv6.now)) }
        ensures inherited { IsOneInherited asn.now ipv4.now ipv6.now → IsRefused result }
    {
        // All three are read before any error is returned. An inherited claim is reported even if the reference for
        // another was refused.
        match (asn.to_blocks(), ipv4.to_blocks(), ipv6.to_blocks()) {
            (Ok(asn), Ok(ipv4), Ok(ipv6)) => Ok(ResourceSet::new(
                asn,
                Ipv4Blocks::from_ip_blocks(ipv4),
                Ipv6Blocks::from_ip_blocks(ipv6),
            )),
            (Err(OrMemory::Refused(_)), _, _)
            | (_, Err(OrMemory::Refused(_)), _)
            | (_, _, Err(OrMemory::Refused(_))) => Err(OrMemory::Refused(InheritError)),
            _ => Err(OrMemory::Memory(AllocError)),
        }
    }

    /// Returns a claim that lists the AS numbers, or a missing claim if the set has no AS numbers.
    ///
    /// The claim shares the memory of the set (reference count + 1).
    ///
    /// # Errors
    ///
    /// [`AllocError`] if `std` refuses the additional reference.
    pub fn to_as_resources(&self) -> Result<AsResources<A>, AllocError>
        ensures claim { IfOk result (λ resources. resources ≡ claim_of self.now.asn) }
        ensures set { IfOk result (IsClaim IsAsSet) }
    {
        let blocks = self.asn.clone()?;
        Ok(AsResources::blocks(blocks))
    }

    /// Returns a claim that lists the IPv4 addresses, or a missing claim if the set has no IPv4 addresses.
    ///
    /// The claim shares the memory of the set (reference count + 1).
    ///
    /// # Errors
    ///
    /// [`AllocError`] if `std` refuses the additional reference.
    pub fn to_ip_resources_v4(&self) -> Result<IpResources<A>, AllocError>
        ensures claim { IfOk result (λ resources. resources ≡ claim_of self.now.ipv4) }
        ensures family { IfOk result (IsFamilyClaim Ipv4) }
    {
        self.ipv4.to_ip_resources()
    }

    /// Returns a claim that lists the IPv6 addresses, or a missing claim if the set has no IPv6 addresses.
    ///
    /// The claim shares the memory of the set (reference count + 1).
    ///
    /// # Errors
    ///
    /// [`AllocError`] if `std` refuses the additional reference.
    pub fn to_ip_resources_v6(&self) -> Result<IpResources<A>, AllocError>
        ensures claim { IfOk result (λ resources. resources ≡ claim_of self.now.ipv6) }
        ensures family { IfOk result (IsFamilyClaim Ipv6) }
    {
        self.ipv6.to_ip_resources()
    }
}
