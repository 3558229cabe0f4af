//! Builds a chain from ascending blocks in one pass, while it copies them.
ghost use Rattle.std.specs.Prelude.{◌≡◌, ℕ, ◌↔◌, [], IsTrue, IfOk};
ghost use Rattle.std.specs.List.Sorted.{IsNonDecreasingBy};
ghost use Rattle.rpki_chain_core.specs.Sets.{Covers, IsChain, IsOfKind};

use crate::union::take_in;
use rpki_block::block::Block;
use std::alloc::{AllocError, Allocator};

/// Fills the empty `chain` with the chain of the numbers that `blocks` cover, and returns true.
///
/// The call returns false if a block begins before the last run of the blocks before it. This can't happen if the
/// blocks ascend by their minima. After false or an error, the blocks of `chain` are unspecified.
///
/// # Errors
///
/// [`AllocError`]: out of memory.
pub fn join_ascending_into<T: Block, A: Allocator>(
    chain: &mut Vec<T, A>,
    blocks: &[T],
) -> Result<bool, AllocError>
    requires { chain.old.items ≡ [] }
    ensures chain { IfOk result (λ ascend. IsTrue ascend
        → IsChain T.bounds T.form chain.new.items) }
    ensures covers { IfOk result (λ ascend. IsTrue ascend → (n : ℕ) →
        Covers T.bounds chain.new.items n ↔ Covers T.bounds blocks.now n) }
    ensures kind { IfOk result (λ ascend. IsTrue ascend → IsOfKind T.bounds T.first T.last blocks.now) }
    ensures ascends { IfOk result (λ ascend. IsNonDecreasingBy (λ b. (T.bounds b).0) blocks.now
        → IsTrue ascend) }
{
    let Some(first) = blocks.first() else {
        return Ok(true);
    };
    let mut run = first.bounds();
    // `chain` covers the blocks of the closed runs, and the current run covers the other blocks that were passed.
    for at in 1..blocks.len() {
        let next = blocks[at].bounds();
        if next.0 < run.0 {
            return Ok(false);
        }
        take_in(chain, &mut run, next)?;
    }
    chain.push(T::new(run.0, run.1))?;
    Ok(true)
}
