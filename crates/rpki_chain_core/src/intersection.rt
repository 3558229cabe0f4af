//! The intersection of two chains.
ghost use Rattle.std.specs.Prelude.{◌≡◌, ◌+◌, ◌-◌, ◌≤◌, ◌⊎◌, Some, length, take, IfOk, OnOk};
ghost use Rattle.rpki_chain_core.specs.Sets.{Covers, IsChainOf, numbers};
ghost use Rattle.rpki_chain_core.specs.Common.{IsCommonPushed};
ghost use Rattle.rpki_chain_core.specs.Overhang.{IsOverhang};
ghost use Rattle.rpki_chain_core.specs.Walks.{IsReadOn};

use crate::overhang::Overhang;
use crate::owned::OwnedChain;
use crate::reads::{Reads, read_at};
use rpki_block::block::Block;
use std::alloc::{AllocError, Allocator};

/// Returns the larger of two items.
fn later<T: Block>(item: T::Item, other: T::Item) -> T::Item
    ensures reaches { T.number item ≤ T.number result }
    ensures reaches_other { T.number other ≤ T.number result }
    ensures one { (result ≡ item) ⊎ (result ≡ other) }
{
    if item <= other { other } else { item }
}

/// Appends the common part of `block` and `other` to a chain.
///
/// The two have a common item, and `other` ends no earlier than `block`.
#[inline(always)]
fn push_common<T: Block, A: Allocator>(
    chain: &mut Vec<T, A>,
    block: (T::Item, T::Item),
    other: (T::Item, T::Item),
) -> Result<(), AllocError>
    requires ordered { T.number block.0 ≤ T.number block.1 }
    requires meets { T.number other.0 ≤ T.number block.1 }
    requires ends_first { T.number block.1 ≤ T.number other.1 }
    ensures { OnOk result (IsCommonPushed T.bounds T.form (numbers T.number block)
        (numbers T.number other) chain.old.items chain.new.items) }
{
    let low = later::<T>(block.0, other.0);
    chain.push(T::new(low, block.1))?;
    Ok(())
}

/// Returns the first `len` blocks of a chain, rebuilt from their bounds.
fn first_blocks<T: Block, A: Allocator, X: Reads<T>>(
    alloc: A,
    own: &mut X,
    len: usize,
) -> Result<Vec<T, A>, AllocError>
    requires { len ≤ length (X.blocks own.old) }
    ensures value { IfOk result (λ v. v.items ≡ take len (X.blocks own.old)) }
    ensures kept { X.blocks own.new ≡ X.blocks own.old }
    ensures reads { X.count own.new ≤ X.count own.old + len }
{
    // `len` is called only for its contract: the blocks are a chain.
    let _len = own.len();
    let mut chain = Vec::with_capacity(alloc, len)?;
    // A block in the form that `new` gives is the one made of its bounds, so each block comes out unchanged.
    for at in 0..len {
        let (min, max) = own.read(at);
        chain.push(T::new(min, max))?;
    }
    Ok(chain)
}

/// Returns the chain of the numbers that two chains have in common. `overhang` is the first overhang of `own` over
/// `other`.
///
/// The result has the blocks before the overhang, and then the common numbers that a pass from the overhang on finds.
/// Each iteration of the pass finishes one block.
///
/// # Errors
///
/// [`AllocError`]: out of memory.
pub fn common_from<T: Block, A: Allocator, X: Reads<T>, Y: Reads<T>>(
    alloc: A,
    own: &mut X,
    other: &mut Y,
    overhang: Overhang<T::Item>,
) -> Result<OwnedChain<T, A>, AllocError>
    requires { IsOverhang T.bounds T.number T.first T.last
        (X.blocks own.old) (Y.blocks other.old) overhang }
    ensures common { IfOk result (λ chain. IsChainOf T.bounds T.form (λ n.
        Covers T.bounds (X.blocks own.old) n × Covers T.bounds (Y.blocks other.old) n) chain) }
    ensures few { IfOk result (λ chain.
        length chain ≤ length (X.blocks own.old) + length (Y.blocks other.old)) }
    ensures own_kept { X.blocks own.new ≡ X.blocks own.old }
    ensures other_kept { Y.blocks other.new ≡ Y.blocks other.old }
    // The blocks before the overhang are read at most once, and so are those after it.
    ensures own_reads { X.count own.new ≤ X.count own.old + overhang.own_at +
        (length (X.blocks own.old) - (overhang.own_at + 1)) }
    ensures other_reads { Y.count other.new ≤ Y.count other.old +
        (length (Y.blocks other.old) - (overhang.other_at + 1)) }
{
    // `len` is called only for its contract: the blocks are chains of fewer than 2^64 blocks.
    let _own_len = own.len();
    let _other_len = other.len();
    let Overhang {
        own_at,
        min,
        max,
        other_at,
        other: other_block,
    } = overhang;
    let mut chain = first_blocks(alloc, own, own_at)?;
    let Some(other_block) = other_block else {
        return Ok(OwnedChain::from_vec_unchecked(chain));
    };
    push_behind(
        &mut chain,
        own,
        own_at,
        (min, max),
        other,
        other_at,
        other_block,
    )?;
    Ok(OwnedChain::from_vec_unchecked(chain))
}

/// Appends the numbers that two chains have in common from the first overhang on.
///
/// `chain` has the blocks before the overhang, and the other chain has a block left.
fn push_behind<T: Block, A: Allocator, X: Reads<T>, Y: Reads<T>>(
    chain: &mut Vec<T, A>,
    own: &mut X,
    mut own_at: usize,
    mut own_block: (T::Item, T::Item),
    other: &mut Y,
    mut other_at: usize,
    mut other_block: (T::Item, T::Item),
) -> Result<(), AllocError>
    requires overhang { IsOverhang T.bounds T.number T.first T.last
        (X.blocks own.old) (Y.blocks other.old) (record {
          own_at = own_at;
          min = own_block.0;
          max = own_block.1;
          other_at = other_at;
          other = Some other_block;
        }) }
    requires before { chain.old.items ≡ take own_at (X.blocks own.old) }
    ensures common { OnOk result (IsChainOf T.bounds T.form (λ n.
        Covers T.bounds (X.blocks own.old) n × Covers T.bounds (Y.blocks other.old) n)
        chain.new.items × (length chain.new.items ≤
        length (X.blocks own.old) + length (Y.blocks other.old))) }
    ensures own { IsReadOn (X.blocks own.old) (X.blocks own.new) own_at
        (X.count own.old) (X.count own.new) }
    ensures other { IsReadOn (Y.blocks other.old) (Y.blocks other.new) other_at
        (Y.count other.old) (Y.count other.new) }
{
    // `len` is called only for its contract: the blocks are chains of fewer than 2^64 blocks.
    let _own_len = own.len();
    let _other_len = other.len();
    // `chain` has what both chains have before one of the current blocks. Each iteration finishes the block that ends
    // first. It pushes the part that the other block has, and no later block of either chain can reach the finished
    // one. So each iteration passes a block, and the loop ends when one chain has no block left. The first two branches
    // decide nothing new. They are for speed: a block that ends before the other begins is passed after one comparison.
    loop {
        if other_block.1 < own_block.0 {
            other_at += 1;
            let Some(next) = read_at(other, other_at) else {
                break;
            };
            other_block = next;
        } else if own_block.1 < other_block.0 {
            own_at += 1;
            let Some(next) = read_at(own, own_at) else {
                break;
            };
            own_block = next;
        } else if own_block.1 <= other_block.1 {
            push_common(chain, own_block, other_block)?;
            own_at += 1;
            let Some(next) = read_at(own, own_at) else {
                break;
            };
            own_block = next;
        } else {
            push_common(chain, other_block, own_block)?;
            other_at += 1;
            let Some(next) = read_at(other, other_at) else {
                break;
            };
            other_block = next;
        }
    }
    Ok(())
}
