//! Sets of any kind of block.
ghost use Rattle.std.specs.Prelude.{◌≡◌, ℕ, ◌↔◌, IfErr, IfOk, IsOk, IsTrue};
ghost use Rattle.rpki_text.specs.Memory.{IfRefused};
ghost use Rattle.rpki_text.specs.Reading.{AnswersOrMemory};
ghost use Rattle.rpki_chain_core.specs.Sets.{Covers};
ghost use Rattle.rpki_chain.specs.Claims.{claim_by};
ghost use Rattle.rpki_chain.specs.Operations.{IsDifference, IsIntersection, IsUnion};
ghost use Rattle.rpki_chain.specs.Paths.{IsCovered, IsFirstRefusal, IsPathResult, IsUncovered};
ghost use Rattle.rpki_chain.specs.Runs.{Runs, Holds, IsRunsOfBlocks};

use rpki_chain::laws::laws_of_runs;
use rpki_chain::path::BlockClaim;
use rpki_chain::{Block, BlockSet, BlockSetBuilder, PathRefusal, ResourcesChoice, Step};
use rpki_text::memory::OrMemory;
use std::alloc::{AllocError, Allocator};

/// Makes the set of `blocks` by a builder.
///
/// # Errors
///
/// [`AllocError`]: out of memory.
pub fn built<T: Block, A: Allocator + Copy>(
    alloc: A,
    blocks: &[T],
) -> Result<BlockSet<T, A>, AllocError>
    ensures { IfOk result (IsRunsOfBlocks T.bounds blocks.now) }
{
    let mut builder = BlockSetBuilder::new(alloc);
    builder.extend_from(blocks)?;
    builder.finalize()
}

/// Makes the sets of two lists of blocks, and compares them.
///
/// Blocks in any order become the one chain of maximal runs of their numbers. Chains are equal if and only if they have
/// the same numbers.
///
/// # Errors
///
/// [`AllocError`]: out of memory.
pub fn chains<T: Block, A: Allocator + Copy>(
    alloc: A,
    blocks: &[T],
    others: &[T],
) -> Result<(BlockSet<T, A>, BlockSet<T, A>, bool), AllocError>
    ensures runs { IfOk result (λ made. IsRunsOfBlocks T.bounds blocks.now made.0
        × IsRunsOfBlocks T.bounds others.now made.1) }
    ensures one { (runs : Runs) → IsRunsOfBlocks T.bounds blocks.now runs
        → IfOk result (λ made. made.0 ≡ runs) }
    ensures equal { IfOk result (λ made. IsTrue made.2
        ↔ ((n : ℕ) → Covers T.bounds blocks.now n ↔ Covers T.bounds others.now n)) }
{
    laws_of_runs::<T>(); // so that the proof sees that blocks have one list of runs
    let set = BlockSet::from_blocks(alloc, blocks)?;
    let other = BlockSet::from_blocks(alloc, others)?;
    let equal = set == other;
    Ok((set, other, equal))
}

/// Returns the union, the intersection and the difference of two sets, and whether `a` has every number of `b`.
///
/// # Errors
///
/// [`AllocError`]: out of memory.
pub fn operations<T: Block, A: Allocator + Copy>(
    alloc: A,
    a: &BlockSet<T, A>,
    b: &BlockSet<T, A>,
) -> Result<(BlockSet<T, A>, BlockSet<T, A>, BlockSet<T, A>, bool), AllocError>
    ensures union { IfOk result (λ made. IsUnion a.now b.now made.0) }
    ensures intersection { IfOk result (λ made. IsIntersection a.now b.now made.1) }
    ensures difference { IfOk result (λ made. IsDifference a.now b.now made.2) }
    ensures contains { IfOk result (λ made. IsTrue made.3
        ↔ ((n : ℕ) → Holds b.now n → Holds a.now n)) }
{
    let union = a.union(alloc, b)?;
    let intersection = a.intersection(alloc, b)?;
    let difference = a.difference(alloc, b)?;
    let contains = a.contains(b);
    Ok((union, intersection, difference, contains))
}

/// Returns what a path of claims leaves of a set, or the first refusal.
///
/// # Errors
///
/// - `Refused`: a step is refused. The variant holds the index of the first such step and the overclaimed numbers.
/// - `Memory`: out of memory.
pub fn path<T: Block, A: Allocator + Copy, R: BlockClaim<T, A>>(
    alloc: A,
    root: &BlockSet<T, A>,
    steps: &[Step<R>],
) -> Result<BlockSet<T, A>, OrMemory<PathRefusal<BlockSet<T, A>>>>
    ensures { AnswersOrMemory (λ set. set) (IsPathResult R.claim (Holds root.now) steps.now)
        (IsFirstRefusal R.claim (Holds root.now) steps.now) result }
{
    root.verify_path(alloc, steps)
}

/// Checks that the claim of an issuer covers a set. If it does, the call returns no out-of-memory error.
///
/// # Errors
///
/// - `Refused`: the numbers of the set that the claim doesn't cover.
/// - `Memory`: out of memory for these numbers.
pub fn covered<T: Block, A: Allocator + Copy>(
    alloc: A,
    set: &BlockSet<T, A>,
    issuer: ResourcesChoice<&BlockSet<T, A>>,
) -> Result<(), OrMemory<BlockSet<T, A>>>
    ensures ok { IsOk result ↔ IsCovered (Holds set.now) (claim_by (λ set. set.now) issuer.entry) }
    ensures refused { IfErr result (IfRefused
        (IsUncovered (Holds set.now) (claim_by (λ set. set.now) issuer.entry))) }
{
    set.verify_covered(alloc, issuer)
}
