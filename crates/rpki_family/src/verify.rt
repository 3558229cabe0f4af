//! Checks of claims on addresses against a set of a family (RFC 3779, 2.3; RFC 6487, 7.2; RFC 8360, 4).
ghost use Rattle.std.specs.Prelude.{◌≡◌, ◌↔◌, IsOk, IfOk, IfErr, All};
ghost use Rattle.rpki_text.specs.Memory.{IfRefused};
ghost use Rattle.rpki_text.specs.Reading.{AnswersOrMemory};
ghost use Rattle.rpki_chain.specs.Paths.{IsIssued, IsExcess, IsCovered, IsUncovered, IsPathResult, IsFirstRefusal};
ghost use Rattle.rpki_chain.specs.Runs.{Holds};
ghost use Rattle.rpki_ipres.specs.Families.{IsClaimIn};

use crate::blocks::FamilyBlocks;
use crate::family::Family;
use rpki_chain::path::{Overclaim, PathRefusal};
use rpki_ipres::overclaim::OverclaimedFamilyResources;
use rpki_ipres::resources::IpResources;
use rpki_ipres::verify::IpStep;
use rpki_text::memory::OrMemory;
use std::alloc::{AllocError, Allocator};

/// The checks of claims have a precondition: in IPv4 a listed claim consists of whole addresses. A claim that was read
/// for IPv4, or made by a set of IPv4, meets this precondition.
impl<F: Family, A: Allocator> FamilyBlocks<F, A> {
    /// Returns the part of the set that a claim leaves (RFC 3779, 2.3).
    ///
    /// A missing claim leaves nothing, an inherited claim leaves the whole set, and a listed claim leaves its
    /// intersection with the set.
    ///
    /// # Preconditions
    ///
    /// In IPv4 a listed claim consists of whole addresses.
    ///
    /// # Errors
    ///
    /// - `Refused` with the overclaimed resources if `mode` is [`Overclaim::Refuse`] and the claim lists more than the
    ///   set has.
    /// - `Memory` if an allocation fails.
    pub fn verify_issued(
        &self,
        alloc: A,
        resources: &IpResources<A>,
        mode: Overclaim,
    ) -> Result<FamilyBlocks<F, A>, OrMemory<OverclaimedFamilyResources<F, A>>>
    where
        A: Copy,
        requires { IsClaimIn F.FAMILY resources.now }
        ensures { AnswersOrMemory (λ set. set) (IsIssued (Holds self.now) resources.now mode)
            (IsExcess (Holds self.now) resources.now mode) result }
    {
        match self.blocks.verify_issued(alloc, resources, mode) {
            Ok(set) => Ok(FamilyBlocks::of(set)),
            Err(OrMemory::Refused(fault)) => Err(OrMemory::Refused(fault.into_family())),
            Err(OrMemory::Memory(error)) => Err(OrMemory::Memory(error)),
        }
    }

    /// Returns Ok if and only if an issuer's claim has each address of the set.
    ///
    /// A missing claim covers only the empty set. An inherited claim covers each set. A listed claim covers the sets
    /// inside it. A call that returns Ok allocates nothing.
    ///
    /// # Preconditions
    ///
    /// In IPv4 a listed claim consists of whole addresses.
    ///
    /// # Errors
    ///
    /// - `Refused` with the addresses of the set that the issuer doesn't have.
    /// - `Memory` if an allocation for these addresses fails.
    pub fn verify_covered(
        &self,
        alloc: A,
        issuer: &IpResources<A>,
    ) -> Result<(), OrMemory<OverclaimedFamilyResources<F, A>>>
    where
        A: Copy,
        requires { IsClaimIn F.FAMILY issuer.now }
        ensures ok { IsOk result ↔ IsCovered (Holds self.now) issuer.now }
        ensures refused { IfErr result (IfRefused (IsUncovered (Holds self.now) issuer.now)) }
    {
        match self.blocks.verify_covered(alloc, issuer) {
            Ok(()) => Ok(()),
            Err(OrMemory::Refused(fault)) => Err(OrMemory::Refused(fault.into_family())),
            Err(OrMemory::Memory(error)) => Err(OrMemory::Memory(error)),
        }
    }

    /// Returns the part of the set that a path of claims leaves. Without steps this is the whole set.
    ///
    /// Each claim is checked against the part that the steps before it leave.
    ///
    /// # Preconditions
    ///
    /// In IPv4 each listed claim consists of whole addresses.
    ///
    /// # Errors
    ///
    /// - `Refused` with the index of the first refused step, counted from 0, and its overclaimed resources.
    /// - `Memory` if an allocation fails.
    pub fn verify_path(
        &self,
        alloc: A,
        steps: &[IpStep<A>],
    ) -> Result<FamilyBlocks<F, A>, OrMemory<PathRefusal<OverclaimedFamilyResources<F, A>>>>
    where
        A: Copy,
        requires { All (λ step. IsClaimIn F.FAMILY step.claim) steps.now }
        ensures { AnswersOrMemory (λ set. set)
            (IsPathResult (λ claim. claim) (Holds self.now) steps.now)
            (IsFirstRefusal (λ claim. claim) (Holds self.now) steps.now) result }
    {
        match self.blocks.verify_path(alloc, steps) {
            Ok(set) => Ok(FamilyBlocks::of(set)),
            Err(OrMemory::Refused(refusal)) => Err(OrMemory::Refused(PathRefusal {
                step: refusal.step,
                fault: refusal.fault.into_family(),
            })),
            Err(OrMemory::Memory(error)) => Err(OrMemory::Memory(error)),
        }
    }

    /// Returns the overclaimed addresses of a fault as a set, which shares their memory (reference count + 1).
    ///
    /// # Errors
    ///
    /// [`AllocError`] if `std` refuses the additional reference.
    pub fn from_excess(
        fault: &OverclaimedFamilyResources<F, A>,
    ) -> Result<FamilyBlocks<F, A>, AllocError>
        ensures { IfOk result (λ set. set ≡ fault.now) }
    {
        let excess = fault.excess().clone()?;
        Ok(FamilyBlocks::of(excess))
    }
}
