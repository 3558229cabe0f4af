//! The union of two chains.
ghost use Rattle.std.specs.Prelude.{◌≡◌, ℕ, ◌+◌, ◌≤◌, ◌↔◌, ◌⊎◌, [], Some, length, drop, IfOk, OnOk};
ghost use Rattle.rpki_chain_core.specs.Joining.{IsInChainOrRun, IsBehind};
ghost use Rattle.rpki_chain_core.specs.Sets.{IsWithin, Covers, IsChainOf, HoldsBlock, numbers};
ghost use Rattle.rpki_chain_core.specs.Walks.{IsReadOn};

use crate::build::run_over;
use crate::owned::OwnedChain;
use crate::reads::{Reads, read_at};
use rpki_block::block::Block;
use std::alloc::{AllocError, Allocator};

/// Adds the next bounds to the current run.
///
/// If both overlap or touch, the run becomes the one that covers both. Otherwise the block of the run is appended to
/// `chain`, and the next bounds become the current run.
///
/// # Errors
///
/// [`AllocError`]: out of memory.
#[inline(always)]
pub fn take_in<T: Block, A: Allocator>(
    chain: &mut Vec<T, A>,
    run: &mut (T::Item, T::Item),
    next: (T::Item, T::Item),
) -> Result<(), AllocError>
    requires run { IsBehind T.bounds T.form T.last chain.old.items (numbers T.number run.old) }
    requires behind { T.number run.old.0 ≤ T.number next.0 }
    requires ordered { T.number next.0 ≤ T.number next.1 }
    requires to_last { T.number next.1 ≤ T.last }
    ensures run { OnOk result (
        IsBehind T.bounds T.form T.last chain.new.items (numbers T.number run.new)) }
    ensures behind { OnOk result (T.number run.new.0 ≤ T.number next.0) }
    ensures held { OnOk result ((n : ℕ) →
        IsInChainOrRun T.bounds chain.new.items (numbers T.number run.new) n ↔
        (IsInChainOrRun T.bounds chain.old.items (numbers T.number run.old) n ⊎
        IsWithin (numbers T.number next) n)) }
{
    if let Some(longer) = run_over::<T>(*run, next) {
        *run = longer;
        return Ok(());
    }
    chain.push(T::new(run.0, run.1))?;
    *run = next;
    Ok(())
}

/// The one of two blocks that begins first.
fn earlier<T: Block>(block: (T::Item, T::Item), other: (T::Item, T::Item)) -> (T::Item, T::Item)
    ensures begins { T.number result.0 ≤ T.number block.0 }
    ensures begins_other { T.number result.0 ≤ T.number other.0 }
    ensures one { (result ≡ block) ⊎ (result ≡ other) }
{
    if block.0 <= other.0 { block } else { other }
}

/// Returns the chain of the numbers of `chain`, of the current run, and of the blocks that are left in another chain.
/// The first of these is `block`, and the blocks after it are read at most once each.
fn close_with<T: Block, A: Allocator, R: Reads<T>>(
    mut chain: Vec<T, A>,
    mut run: (T::Item, T::Item),
    rest: &mut R,
    mut at: usize,
    mut block: (T::Item, T::Item),
) -> Result<OwnedChain<T, A>, AllocError>
    requires run { IsBehind T.bounds T.form T.last chain.items (numbers T.number run) }
    requires behind { T.number run.0 ≤ T.number block.0 }
    requires block { HoldsBlock T.bounds T.number T.last (R.blocks rest.old) at (Some block) }
    ensures chain { IfOk result (IsChainOf T.bounds T.form (λ n.
        IsInChainOrRun T.bounds chain.items (numbers T.number run) n ⊎
        Covers T.bounds (drop at (R.blocks rest.old)) n)) }
    ensures rest { IsReadOn (R.blocks rest.old) (R.blocks rest.new) at
        (R.count rest.old) (R.count rest.new) }
{
    // `len` is called only for its contract: the blocks are a chain of fewer than 2^64 blocks.
    let _len = rest.len();
    // The run begins no later than `block`. All blocks of `chain` end before the run and don't touch it. Each iteration
    // adds `block` to the run, so the loop ends, and nothing is left then.
    loop {
        take_in(&mut chain, &mut run, block)?;
        at += 1;
        let Some(next) = read_at(rest, at) else {
            break;
        };
        block = next;
    }
    chain.push(T::new(run.0, run.1))?;
    Ok(OwnedChain::from_vec_unchecked(chain))
}

/// Returns the chain of the numbers that `own` or `other` has, as [`crate::chain::Chain::union`] does.
///
/// The number of reads of both chains together is at most the number of their blocks. The blocks don't change, even
/// after an error. Each iteration finishes one block, the one that begins first.
///
/// # Errors
///
/// [`AllocError`]: out of memory.
pub fn union_counted<T: Block, A: Allocator, X: Reads<T>, Y: Reads<T>>(
    alloc: A,
    own: &mut X,
    other: &mut Y,
) -> Result<OwnedChain<T, A>, AllocError>
    ensures union { IfOk result (λ chain. IsChainOf T.bounds T.form (λ n.
        Covers T.bounds (X.blocks own.old) n ⊎ Covers T.bounds (Y.blocks other.old) n) chain) }
    ensures few { IfOk result (λ chain.
        length chain ≤ length (X.blocks own.old) + length (Y.blocks other.old)) }
    ensures own_kept { X.blocks own.new ≡ X.blocks own.old }
    ensures other_kept { Y.blocks other.new ≡ Y.blocks other.old }
    ensures reads { X.count own.new + Y.count other.new ≤ X.count own.old + Y.count other.old +
        (length (X.blocks own.old) + length (Y.blocks other.old)) }
{
    // The result has at most as many blocks as both chains, so the memory is allocated once.
    let mut chain = Vec::with_capacity(alloc, own.len().saturating_add(other.len()))?;
    let Some(own_block) = read_at(own, 0) else {
        let Some(block) = read_at(other, 0) else {
            return Ok(OwnedChain::empty());
        };
        return close_with(chain, block, other, 0, block);
    };
    let Some(other_block) = read_at(other, 0) else {
        return close_with(chain, own_block, own, 0, own_block);
    };
    union_behind(chain, own, own_block, other, other_block)
}

/// Returns the chain of the numbers that at least one of both chains has, after the first block of each was read.
///
/// The call reads each block after these at most once.
fn union_behind<T: Block, A: Allocator, X: Reads<T>, Y: Reads<T>>(
    mut chain: Vec<T, A>,
    own: &mut X,
    mut own_block: (T::Item, T::Item),
    other: &mut Y,
    mut other_block: (T::Item, T::Item),
) -> Result<OwnedChain<T, A>, AllocError>
    requires empty { chain.items ≡ [] }
    requires own { HoldsBlock T.bounds T.number T.last (X.blocks own.old) 0 (Some own_block) }
    requires other { HoldsBlock T.bounds T.number T.last (Y.blocks other.old) 0 (Some other_block) }
    ensures union { IfOk result (IsChainOf T.bounds T.form (λ n.
        Covers T.bounds (X.blocks own.old) n ⊎ Covers T.bounds (Y.blocks other.old) n)) }
    ensures own { IsReadOn (X.blocks own.old) (X.blocks own.new) 0
        (X.count own.old) (X.count own.new) }
    ensures other { IsReadOn (Y.blocks other.old) (Y.blocks other.new) 0
        (Y.count other.old) (Y.count other.new) }
{
    // `len` is called only for its contract, as in `close_with`.
    let _own_len = own.len();
    let _other_len = other.len();
    let mut own_at = 0;
    let mut other_at = 0;
    // The run begins no later than both current blocks. All blocks of `chain` end before the run and don't touch it. At
    // first the run is the block that begins first, and the first iteration adds this block again. Each iteration
    // finishes the block that begins first. So the loop ends, and no later block reaches a closed run.
    let mut run = earlier::<T>(own_block, other_block);
    loop {
        if own_block.0 <= other_block.0 {
            take_in(&mut chain, &mut run, own_block)?;
            own_at += 1;
            let Some(next) = read_at(own, own_at) else {
                return close_with(chain, run, other, other_at, other_block);
            };
            own_block = next;
        } else {
            take_in(&mut chain, &mut run, other_block)?;
            other_at += 1;
            let Some(next) = read_at(other, other_at) else {
                return close_with(chain, run, own, own_at, own_block);
            };
            other_block = next;
        }
    }
}
