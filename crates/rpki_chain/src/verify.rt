//! The check of claims against a set: of one claim, of a path of claims, and of an issuer's claim that should cover the
//! set.
ghost use Rattle.std.specs.Prelude.{◌≡◌, ◌↔◌, [], ℕ, IsOk, IfErr, IfOk, IfSome, IsNone, IsTrue, MatchResult};
ghost use Rattle.rpki_text.specs.Memory.{IfRefused};
ghost use Rattle.rpki_text.specs.Reading.{AnswersOrMemory};
ghost use Rattle.rpki_chain.specs.Claims.{claim_by};
ghost use Rattle.rpki_chain.specs.Paths.{IsIssued, IsExcess, IsCovered, IsFirstRefusal, IsLeft, IsPathResult, IsUncovered};
ghost use Rattle.rpki_chain.specs.Paths.{Leaves, Lists};
ghost use Rattle.rpki_chain.specs.declared.path.Overclaim.TheVariants.{Refuse};
ghost use Rattle.rpki_chain.specs.Runs.{Holds, IsRunsOf};
ghost use Rattle.rpki_chain.specs.declared.choice.ResourcesChoice.TheVariants.{Blocks};

use crate::choice::ResourcesChoice;
use crate::path::{BlockClaim, Overclaim, PathRefusal, Step};
use crate::set::BlockSet;
use rpki_chain_core::block::Block;
use rpki_text::memory::OrMemory;
use std::alloc::{AllocError, Allocator};

impl<T: Block, A: Allocator> BlockSet<T, A> {
    /// Returns what remains of the set after a claim (RFC 3779, 2.3 and 3.3; RFC 6487, 7.2; RFC 8360, 4).
    ///
    /// - A missing claim leaves nothing.
    /// - An inherited claim leaves the whole set.
    /// - A claim that lists a set leaves the intersection.
    ///
    /// # Errors
    ///
    /// - `Refused`: the mode is [`Overclaim::Refuse`] and the claim lists more than the set has. The variant holds the
    ///   overclaimed items.
    /// - `Memory`: out of memory for the result or for these items.
    pub fn verify_issued(
        &self,
        alloc: A,
        claim: ResourcesChoice<&BlockSet<T, A>>,
        mode: Overclaim,
    ) -> Result<BlockSet<T, A>, OrMemory<BlockSet<T, A>>>
    where
        A: Copy,
        ensures { AnswersOrMemory (λ set. set)
            (IsIssued (Holds self.now) (claim_by (λ set. set.now) claim.entry) mode)
            (IsExcess (Holds self.now) (claim_by (λ set. set.now) claim.entry) mode) result }
    {
        verify_issued_matched(self, alloc, claim, mode)
    }

    /// Checks that the claim of an issuer covers the whole set. If it does, the call allocates nothing.
    ///
    /// - A missing claim covers only the empty set.
    /// - An inherited claim covers every set.
    /// - A claim that lists a set covers the subsets of that set.
    ///
    /// # Errors
    ///
    /// - `Refused`: the claim doesn't cover the set. The variant holds the items that the issuer doesn't have.
    /// - `Memory`: out of memory for these items.
    pub fn verify_covered(
        &self,
        alloc: A,
        issuer: ResourcesChoice<&BlockSet<T, A>>,
    ) -> Result<(), OrMemory<BlockSet<T, A>>>
    where
        A: Copy,
        ensures ok { IsOk result ↔ IsCovered (Holds self.now)
            (claim_by (λ set. set.now) issuer.entry) }
        ensures refused { IfErr result
            (IfRefused (IsUncovered (Holds self.now) (claim_by (λ set. set.now) issuer.entry))) }
    {
        match issuer {
            ResourcesChoice::Missing => none_left(self),
            ResourcesChoice::Inherit => Ok(()),
            ResourcesChoice::Blocks(listed) => self.covered_by(alloc, listed),
        }
    }

    /// Returns what remains of the set after a path of claims. Each claim is made on what remains after the steps
    /// before it.
    ///
    /// # Errors
    ///
    /// - `Refused`: a step is refused. The variant holds the index of the first such step, counted from 0, and the
    ///   overclaimed items.
    /// - `Memory`: out of memory for a set on the path.
    pub fn verify_path<R: BlockClaim<T, A>>(
        &self,
        alloc: A,
        steps: &[Step<R>],
    ) -> Result<BlockSet<T, A>, OrMemory<PathRefusal<BlockSet<T, A>>>>
    where
        A: Copy,
        ensures { AnswersOrMemory (λ set. set) (IsPathResult R.claim (Holds self.now) steps.now)
            (IsFirstRefusal R.claim (Holds self.now) steps.now) result }
    {
        verify_path_matched(self, alloc, steps)
    }
}

/// Returns what remains of a set after a claim, or the overclaimed items. An unchanged set is shared, not copied.
fn verify_issued_matched<T: Block, A: Allocator + Copy>(
    set: &BlockSet<T, A>,
    alloc: A,
    claim: ResourcesChoice<&BlockSet<T, A>>,
    mode: Overclaim,
) -> Result<BlockSet<T, A>, OrMemory<BlockSet<T, A>>>
    ensures { MatchResult result (IsIssued (Holds set.now) (claim_by (λ set. set.now) claim.entry)
        mode)
        (IfRefused (IsExcess (Holds set.now) (claim_by (λ set. set.now) claim.entry) mode)) }
{
    if let Some(listed) = refusable(&claim, mode) {
        listed.covered_by(alloc, set)?;
        return Ok(listed.clone()?);
    }
    Ok(left_by(set, alloc, claim)?)
}

/// Returns the set that a claim lists, if the claim is refused where this set has more than remains.
fn refusable<'a, T: Block, A: Allocator>(
    claim: &ResourcesChoice<&'a BlockSet<T, A>>,
    mode: Overclaim,
) -> Option<&'a BlockSet<T, A>>
    ensures some { IfSome result (λ listed. (claim_by (λ set. set.now) claim.now ≡ Blocks listed.now) × (mode ≡ Refuse)) }
    ensures none { IsNone result → mode ≡ Refuse → (n : ℕ) → Lists (claim_by (λ set. set.now) claim.now) n → ⊥ }
{
    match (claim, mode) {
        (ResourcesChoice::Blocks(listed), Overclaim::Refuse) => Some(*listed),
        _ => None,
    }
}

/// Returns what a claim leaves of a set. An unchanged set is shared, not copied.
fn left_by<T: Block, A: Allocator + Copy>(
    set: &BlockSet<T, A>,
    alloc: A,
    claim: ResourcesChoice<&BlockSet<T, A>>,
) -> Result<BlockSet<T, A>, AllocError>
    ensures { IfOk result (IsRunsOf (λ n. Holds set.now n × Leaves (claim_by (λ set. set.now) claim.entry) n)) }
{
    match claim {
        ResourcesChoice::Missing => Ok(BlockSet::empty()),
        ResourcesChoice::Inherit => set.clone(),
        ResourcesChoice::Blocks(listed) => listed.intersection(alloc, set),
    }
}

/// Checks that a set is empty. If not, `Refused` holds the set itself.
fn none_left<T: Block, A: Allocator>(set: &BlockSet<T, A>) -> Result<(), OrMemory<BlockSet<T, A>>>
    ensures ok { IsOk result ↔ (set.now ≡ []) }
    ensures refused { IfErr result (IfRefused (λ left. left ≡ set.now)) }
    ensures runs { IsRunsOf (Holds set.now) set.now }
{
    if set.as_slice().is_empty() {
        return Ok(());
    }
    Err(OrMemory::Refused(set.clone()?))
}

/// Returns what remains of the set `root` after a path, or its first refusal.
///
/// Only a refusal and the end of the path need what remains as a set. Until then a step that trims is kept for later: a
/// claim lies within what remains if it lies within each set. A claim that is accepted is what remains, so the steps
/// before it are done with.
fn verify_path_matched<T: Block, A: Allocator + Copy, R: BlockClaim<T, A>>(
    root: &BlockSet<T, A>,
    alloc: A,
    steps: &[Step<R>],
) -> Result<BlockSet<T, A>, OrMemory<PathRefusal<BlockSet<T, A>>>>
    ensures { MatchResult result (IsPathResult R.claim (Holds root.now) steps.now)
        (IfRefused (IsFirstRefusal R.claim (Holds root.now) steps.now)) }
{
    let mut known = root.clone()?;
    let mut done = 0;
    for (at, step) in steps.iter().enumerate() {
        let Some(listed) = refusable(&step.claim.claimed(), step.mode) else {
            continue;
        };
        match within_left(listed, &known, alloc, &steps[done..at]) {
            Ok(()) => {
                known = listed.clone()?;
                done = at + 1;
            }
            Err(OrMemory::Refused(fault)) => {
                return Err(OrMemory::Refused(PathRefusal { step: at, fault }));
            }
            Err(OrMemory::Memory(error)) => return Err(OrMemory::Memory(error)),
        }
    }
    Ok(left_of(&known, alloc, &steps[done..])?)
}

/// Checks that what remains of a set after some steps has every item of `listed`. If not, `Refused` holds the items of
/// `listed` that do not remain.
fn within_left<T: Block, A: Allocator + Copy, R: BlockClaim<T, A>>(
    listed: &BlockSet<T, A>,
    set: &BlockSet<T, A>,
    alloc: A,
    steps: &[Step<R>],
) -> Result<(), OrMemory<BlockSet<T, A>>>
    ensures { MatchResult result
        (λ nothing. (n : ℕ) → Holds listed.now n → IsLeft R.claim (Holds set.now) steps.now n)
        (IfRefused (IsExcess (IsLeft R.claim (Holds set.now) steps.now) (Blocks listed.now) Refuse)) }
{
    if !steps.is_empty() && is_within_left(listed, set, steps) {
        return Ok(());
    }
    let left = left_of(set, alloc, steps)?;
    listed.covered_by(alloc, &left)
}

/// Returns whether what remains of a set after some steps has every item of `listed`.
fn is_within_left<T: Block, A: Allocator, R: BlockClaim<T, A>>(
    listed: &BlockSet<T, A>,
    set: &BlockSet<T, A>,
    steps: &[Step<R>],
) -> bool
    ensures { IsTrue result ↔ ((n : ℕ) → Holds listed.now n → IsLeft R.claim (Holds set.now) steps.now n) }
{
    if !set.contains(listed) {
        return false;
    }
    for step in steps {
        if !leaves(step.claim.claimed(), listed) {
            return false;
        }
    }
    true
}

/// Returns whether a claim leaves every item of a set.
fn leaves<T: Block, A: Allocator>(
    claim: ResourcesChoice<&BlockSet<T, A>>,
    set: &BlockSet<T, A>,
) -> bool
    ensures { IsTrue result ↔ ((n : ℕ) → Holds set.now n → Leaves (claim_by (λ set. set.now) claim.entry) n) }
{
    match claim {
        ResourcesChoice::Missing => {
            set.recall_invariant();
            set.is_empty()
        }
        ResourcesChoice::Inherit => true,
        ResourcesChoice::Blocks(listed) => listed.contains(set),
    }
}

/// Returns what remains of a set after some steps, none of which is refused.
fn left_of<T: Block, A: Allocator + Copy, R: BlockClaim<T, A>>(
    set: &BlockSet<T, A>,
    alloc: A,
    steps: &[Step<R>],
) -> Result<BlockSet<T, A>, AllocError>
    ensures { IfOk result (IsRunsOf (IsLeft R.claim (Holds set.now) steps.now)) }
{
    let mut left = set.clone()?;
    for step in steps {
        left = left_by(&left, alloc, step.claim.claimed())?;
    }
    Ok(left)
}
