//! Checks of claims of addresses against an issuer's set (RFC 3779, 2.3; RFC 6487, 7.2; RFC 8360, 4).
ghost use Rattle.std.specs.Prelude.{◌↔◌, IsOk, IfErr};
ghost use Rattle.rpki_text.specs.Memory.{IfRefused};
ghost use Rattle.rpki_text.specs.Reading.{AnswersOrMemory};
ghost use Rattle.rpki_chain.specs.Paths.{IsIssued, IsExcess, IsCovered, IsUncovered, IsPathResult, IsFirstRefusal};
ghost use Rattle.rpki_chain.specs.Runs.{Holds};

use crate::blocks::IpBlocks;
use crate::overclaim::OverclaimedIpResources;
use crate::resources::IpResources;
use rpki_chain::path::{BlockClaim, Overclaim, PathRefusal, Step};
use rpki_text::memory::OrMemory;
use std::alloc::{Allocator, Global};

/// A step of a path: the claimed addresses, and the mode for a claim that lists more than the issuer has.
pub type IpStep<A = Global> = Step<IpResources<A>>;

impl<A: Allocator> IpBlocks<A> {
    /// Returns the part of the set that a claim leaves (RFC 3779, 2.3).
    ///
    /// - Missing resources leave nothing.
    /// - Inherited resources leave the whole set.
    /// - Listed resources leave the intersection of the set and the list.
    ///
    /// # Errors
    ///
    /// - [`OrMemory::Refused`] with the overclaimed addresses: the claim lists more than the set has, and `mode` is
    ///   [`Overclaim::Refuse`].
    /// - [`OrMemory::Memory`]: out of memory.
    pub fn verify_issued(
        &self,
        alloc: A,
        resources: &IpResources<A>,
        mode: Overclaim,
    ) -> Result<IpBlocks<A>, OrMemory<OverclaimedIpResources<A>>>
    where
        A: Copy,
        ensures { AnswersOrMemory (λ set. set) (IsIssued (Holds self.now) resources.now mode)
            (IsExcess (Holds self.now) resources.now mode) result }
    {
        match self
            .as_set()
            .verify_issued(alloc, resources.claimed(), mode)
        {
            Ok(set) => Ok(IpBlocks::from_set(set)),
            Err(error) => Err(error.map_refused(OverclaimedIpResources::of)),
        }
    }

    /// Returns Ok if and only if the claim of an issuer covers the whole set.
    ///
    /// Missing resources cover the empty set only. Inherited resources cover every set. Listed resources cover the sets
    /// within the list. A call for a covered set always returns Ok and allocates nothing.
    ///
    /// # Errors
    ///
    /// - [`OrMemory::Refused`] with the addresses of the set that the claim doesn't cover. There is at least one.
    /// - [`OrMemory::Memory`]: out of memory for these addresses.
    pub fn verify_covered(
        &self,
        alloc: A,
        issuer: &IpResources<A>,
    ) -> Result<(), OrMemory<OverclaimedIpResources<A>>>
    where
        A: Copy,
        ensures ok { IsOk result ↔ IsCovered (Holds self.now) issuer.now }
        ensures refused { IfErr result (IfRefused (IsUncovered (Holds self.now) issuer.now)) }
    {
        match self.as_set().verify_covered(alloc, issuer.claimed()) {
            Ok(()) => Ok(()),
            Err(error) => Err(error.map_refused(OverclaimedIpResources::of)),
        }
    }

    /// Returns the part of the set that a path of claims leaves.
    ///
    /// Each claim is checked against the part that the steps before it leave. A path without steps leaves the whole
    /// set.
    ///
    /// # Errors
    ///
    /// - [`OrMemory::Refused`] with the index (from 0) of the first refused step, and its overclaimed addresses.
    /// - [`OrMemory::Memory`]: out of memory.
    pub fn verify_path(
        &self,
        alloc: A,
        steps: &[IpStep<A>],
    ) -> Result<IpBlocks<A>, OrMemory<PathRefusal<OverclaimedIpResources<A>>>>
    where
        A: Copy,
        ensures { AnswersOrMemory (λ set. set)
            (IsPathResult (λ claim. claim) (Holds self.now) steps.now)
            (IsFirstRefusal (λ claim. claim) (Holds self.now) steps.now) result }
    {
        match self.as_set().verify_path(alloc, steps) {
            Ok(set) => Ok(IpBlocks::from_set(set)),
            Err(OrMemory::Refused(refusal)) => Err(OrMemory::Refused(PathRefusal {
                step: refusal.step,
                fault: OverclaimedIpResources::of(refusal.fault),
            })),
            Err(OrMemory::Memory(error)) => Err(OrMemory::Memory(error)),
        }
    }
}
