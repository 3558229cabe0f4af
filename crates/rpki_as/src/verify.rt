//! Checks claims of AS numbers against a set (RFC 3779, 3.3; RFC 6487, 7.2; RFC 8360, 4).
ghost use Rattle.std.specs.Prelude.{◌≡◌, ◌↔◌, IsTrue, IsOk, IfOk, IfErr, Some};
ghost use Rattle.rpki_text.specs.Memory.{IfRefused};
ghost use Rattle.rpki_text.specs.Reading.{AnswersOrMemory};
ghost use Rattle.rpki_chain_core.specs.Equality.{same_runs};
ghost use Rattle.rpki_chain_core.specs.EqualityLaws.{runs_per, runs_equiv};
ghost use Rattle.rpki_chain.specs.Paths.{IsIssued, IsExcess, IsCovered, IsUncovered, IsPathResult, IsFirstRefusal};
ghost use Rattle.rpki_chain.specs.Runs.{Holds};
ghost use Rattle.rpki_as.specs.Faults.{overclaimed_as_text};

use crate::blocks::AsBlocks;
use crate::resources::AsResources;
use rpki_as_block::block::AsBlock;
use rpki_base::memory::OrMemory;
use rpki_chain::path::{BlockClaim, Overclaim, PathRefusal, Step};
use rpki_chain::set::BlockSet;
use std::alloc::{AllocError, Allocator, Global};
use std::error::Error;
use std::fmt;
use std::marker::Model;

/// A step of a path: the claimed AS resources, and their treatment if they list more than remains after earlier steps.
pub type AsStep<A = Global> = Step<AsResources<A>>;

/// The error for claimed AS numbers that the issuer doesn't have. It holds these numbers.
///
/// The model of the error is the list of the runs of these numbers.
#[derive(Drop)]
pub struct OverclaimedAsResources<A: Allocator = Global> {
    excess: AsBlocks<A>,
}

impl<A: Allocator> Model for OverclaimedAsResources<A> {
    ghost use Rattle.rpki_chain.specs.Runs.{Runs};

    ghost Value = { Runs };

    ghost view = { λ fault. fault.excess };
}

impl<A: Allocator> OverclaimedAsResources<A> {
    /// Returns the overclaimed numbers, which are claimed and which the issuer doesn't have.
    pub fn excess(&self) -> &AsBlocks<A>
        ensures { result.now ≡ self.now }
    {
        &self.excess
    }

    /// Returns the same error, which shares the memory of its numbers.
    ///
    /// # Errors
    ///
    /// [`AllocError`]: the reference count is at its maximum.
    pub fn clone(&self) -> Result<OverclaimedAsResources<A>, AllocError>
        ensures { IfOk result (λ fault. fault ≡ self.now) }
    {
        let excess = self.excess.clone()?;
        Ok(OverclaimedAsResources { excess })
    }
}

impl<A: Allocator> AsBlocks<A> {
    /// Returns what remains of the set after a claim (RFC 3779, 3.3; RFC 6487, 7.2; RFC 8360, 4).
    ///
    /// - A missing claim leaves nothing.
    /// - An inherited claim leaves the whole set.
    /// - A claim that lists a set leaves the intersection.
    ///
    /// # Errors
    ///
    /// - `Refused`: the mode is [`Overclaim::Refuse`] and the claim lists more than the set has. The variant holds the
    ///   overclaimed numbers.
    /// - `Memory`: out of memory for the result or for these numbers.
    pub fn verify_issued(
        &self,
        alloc: A,
        resources: &AsResources<A>,
        mode: Overclaim,
    ) -> Result<AsBlocks<A>, OrMemory<OverclaimedAsResources<A>>>
    where
        A: Copy,
        ensures { AnswersOrMemory (λ set. set) (IsIssued (Holds self.now) resources.now mode)
            (IsExcess (Holds self.now) resources.now mode) result }
    {
        match self
            .as_set()
            .verify_issued(alloc, resources.claimed(), mode)
        {
            Ok(set) => Ok(AsBlocks::from_set(set)),
            Err(OrMemory::Refused(set)) => Err(OrMemory::Refused(overclaimed(set))),
            Err(OrMemory::Memory(error)) => Err(OrMemory::Memory(error)),
        }
    }

    /// Checks that the claim of an issuer covers the whole set. If it does, the call allocates nothing.
    ///
    /// - A missing claim covers only the empty set.
    /// - An inherited claim covers every set.
    /// - A claim that lists a set covers the subsets of that set.
    ///
    /// # Errors
    ///
    /// - `Refused`: the claim doesn't cover the set. The variant holds the numbers that the issuer doesn't have.
    /// - `Memory`: out of memory for these numbers.
    pub fn verify_covered(
        &self,
        alloc: A,
        issuer: &AsResources<A>,
    ) -> Result<(), OrMemory<OverclaimedAsResources<A>>>
    where
        A: Copy,
        ensures ok { IsOk result ↔ IsCovered (Holds self.now) issuer.now }
        ensures refused { IfErr result (IfRefused (IsUncovered (Holds self.now) issuer.now)) }
    {
        match self.as_set().verify_covered(alloc, issuer.claimed()) {
            Ok(()) => Ok(()),
            Err(OrMemory::Refused(set)) => Err(OrMemory::Refused(overclaimed(set))),
            Err(OrMemory::Memory(error)) => Err(OrMemory::Memory(error)),
        }
    }

    /// Returns what remains of the set after a path of claims. Each claim is made on what remains after the steps
    /// before it. Without steps the whole set remains.
    ///
    /// # Errors
    ///
    /// - `Refused`: a step is refused. The variant holds the index of the first such step, counted from 0, and the
    ///   overclaimed numbers.
    /// - `Memory`: out of memory for a set on the path.
    pub fn verify_path(
        &self,
        alloc: A,
        steps: &[AsStep<A>],
    ) -> Result<AsBlocks<A>, OrMemory<PathRefusal<OverclaimedAsResources<A>>>>
    where
        A: Copy,
        ensures { AnswersOrMemory (λ set. set)
            (IsPathResult (λ claim. claim) (Holds self.now) steps.now)
            (IsFirstRefusal (λ claim. claim) (Holds self.now) steps.now) result }
    {
        match self.as_set().verify_path(alloc, steps) {
            Ok(set) => Ok(AsBlocks::from_set(set)),
            Err(OrMemory::Refused(refusal)) => Err(OrMemory::Refused(PathRefusal {
                step: refusal.step,
                fault: overclaimed(refusal.fault),
            })),
            Err(OrMemory::Memory(error)) => Err(OrMemory::Memory(error)),
        }
    }
}

/// Returns the error for a set of overclaimed numbers.
fn overclaimed<A: Allocator>(excess: BlockSet<AsBlock, A>) -> OverclaimedAsResources<A>
    ensures { result ≡ excess }
{
    OverclaimedAsResources {
        excess: AsBlocks::from_set(excess),
    }
}

impl<A: Allocator> fmt::Debug for OverclaimedAsResources<A> {
    fn fmt<W: fmt::Write>(&self, f: &mut fmt::Formatter<W>) -> fmt::Result {
        self.excess.fmt(f)
    }
}

/// Errors are equal if and only if their overclaimed numbers are the same.
impl<A: Allocator> PartialEq for OverclaimedAsResources<A> {
    ghost eq = { λ a b. same_runs a b };

    ghost laws = { runs_per };

    fn eq(&self, other: &OverclaimedAsResources<A>) -> bool
        ensures value { result ≡ same_runs self.now other.now }
        ensures same { IsTrue result ↔ (self.now ≡ other.now) }
    {
        self.excess == other.excess
    }
}

impl<A: Allocator> Eq for OverclaimedAsResources<A> {
    ghost laws = { runs_equiv };
}

/// Prints `overclaimed AS resources: ` and the blocks of these numbers, ascending, joined by a comma and a space.
impl<A: Allocator> fmt::Display for OverclaimedAsResources<A> {
    ghost output = { λ excess. Some (overclaimed_as_text excess) };

    fn fmt<W: fmt::Write>(&self, f: &mut fmt::Formatter<W>) -> fmt::Result {
        f.write_str("overclaimed AS resources: ")?;
        fmt::Display::fmt(&self.excess, f)
    }
}

impl<A: Allocator> Error for OverclaimedAsResources<A> {}
