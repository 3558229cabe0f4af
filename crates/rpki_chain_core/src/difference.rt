//! The difference of two chains: the numbers of the first that aren't in the second.
ghost use Rattle.std.specs.Prelude.{◌≡◌, ◌+◌, ◌-◌, ◌<◌, ◌≤◌, ◌⊎◌, [], Some, length, IfOk, OnOk};
ghost use Rattle.rpki_chain_core.specs.Joining.{IsBehind};
ghost use Rattle.rpki_chain_core.specs.Overhang.{IsOverhang};
ghost use Rattle.rpki_chain_core.specs.Rest.{IsBelowPushed, IsRest};
ghost use Rattle.rpki_chain_core.specs.Sets.{Covers, IsChainOf, numbers};
ghost use Rattle.rpki_chain_core.specs.Walks.{IsReadOn};

use crate::overhang::{Overhang, first_overhang};
use crate::owned::OwnedChain;
use crate::reads::{Reads, read_at};
use rpki_block::block::Block;
use std::alloc::{AllocError, Allocator};

/// Returns the item before `item`, which isn't the first.
fn item_before<T: Block>(item: T::Item) -> T::Item
    requires { T.first < T.number item }
    ensures { T.number result + 1 ≡ T.number item }
{
    match T::previous(item) {
        Some(previous) => previous,
        None => unreachable!(),
    }
}

/// Returns the item after `item`, which isn't the last.
fn item_after<T: Block>(item: T::Item) -> T::Item
    requires { T.number item < T.last }
    ensures { T.number result ≡ T.number item + 1 }
{
    match T::next(item) {
        Some(next) => next,
        None => unreachable!(),
    }
}

/// Returns the last item of a block before `item`, which is after the block's first item.
fn last_before<T: Block>(block: (T::Item, T::Item), item: T::Item) -> T::Item
    requires from_first { T.first ≤ T.number block.0 }
    requires after { T.number block.0 < T.number item }
    ensures within { T.number result ≤ T.number block.1 }
    ensures before { T.number result < T.number item }
    ensures last { (T.number result ≡ T.number block.1) ⊎ (T.number result + 1 ≡ T.number item) }
{
    if block.1 < item {
        block.1
    } else {
        item_before::<T>(item)
    }
}

/// Appends the part of `rest` before `item` to a chain, or nothing if the rest begins no earlier.
#[inline(always)]
fn push_before<T: Block, A: Allocator>(
    chain: &mut Vec<T, A>,
    rest: (T::Item, T::Item),
    item: T::Item,
) -> Result<(), AllocError>
    requires from_first { T.first ≤ T.number rest.0 }
    requires ordered { T.number rest.0 ≤ T.number rest.1 }
    ensures { OnOk result (IsBelowPushed T.bounds T.form (numbers T.number rest) (T.number item)
        chain.old.items chain.new.items) }
{
    if rest.0 < item {
        let end = last_before::<T>(rest, item);
        chain.push(T::new(rest.0, end))?;
    }
    Ok(())
}

/// Returns the chain of the numbers of `own` that `other` doesn't have, as [`crate::chain::Chain::difference`] does.
///
/// The number of reads of both chains together is at most the number of their blocks. The blocks don't change, even
/// after an error.
///
/// # Errors
///
/// [`AllocError`]: out of memory.
pub fn difference_counted<T: Block, A: Allocator, X: Reads<T>, Y: Reads<T>>(
    alloc: A,
    own: &mut X,
    other: &mut Y,
) -> Result<OwnedChain<T, A>, AllocError>
    ensures difference { IfOk result (λ chain. IsChainOf T.bounds T.form (λ n.
        Covers T.bounds (X.blocks own.old) n × (Covers T.bounds (Y.blocks other.old) n → ⊥))
        chain) }
    ensures few { IfOk result (λ chain.
        length chain ≤ length (X.blocks own.old) + length (Y.blocks other.old)) }
    ensures own_kept { X.blocks own.new ≡ X.blocks own.old }
    ensures other_kept { Y.blocks other.new ≡ Y.blocks other.old }
    ensures reads { X.count own.new + Y.count other.new ≤ X.count own.old + Y.count other.old +
        (length (X.blocks own.old) + length (Y.blocks other.old)) }
{
    match first_overhang(own, other) {
        None => Ok(OwnedChain::empty()),
        Some(overhang) => difference_from(alloc, own, other, overhang),
    }
}

/// Returns the chain of the numbers of `own` that `other` doesn't have. `overhang` is the first overhang of `own` over
/// `other`.
///
/// The result has no number before the overhang, so the pass starts there. Each iteration finishes one block, and keeps
/// at most one piece.
///
/// # Errors
///
/// [`AllocError`]: out of memory.
pub fn difference_from<T: Block, A: Allocator, X: Reads<T>, Y: Reads<T>>(
    alloc: A,
    own: &mut X,
    other: &mut Y,
    overhang: Overhang<T::Item>,
) -> Result<OwnedChain<T, A>, AllocError>
    requires { IsOverhang T.bounds T.number T.first T.last
        (X.blocks own.old) (Y.blocks other.old) overhang }
    ensures difference { IfOk result (λ chain. IsChainOf T.bounds T.form (λ n.
        Covers T.bounds (X.blocks own.old) n × (Covers T.bounds (Y.blocks other.old) n → ⊥))
        chain) }
    ensures few { IfOk result (λ chain.
        length chain ≤ length (X.blocks own.old) + length (Y.blocks other.old)) }
    ensures own_kept { X.blocks own.new ≡ X.blocks own.old }
    ensures other_kept { Y.blocks other.new ≡ Y.blocks other.old }
    // The blocks after the overhang are read at most once.
    ensures own_reads { X.count own.new ≤ X.count own.old +
        (length (X.blocks own.old) - (overhang.own_at + 1)) }
    ensures other_reads { Y.count other.new ≤ Y.count other.old +
        (length (Y.blocks other.old) - (overhang.other_at + 1)) }
{
    // `len` is called only for its contract: the blocks are chains of fewer than 2^64 blocks.
    let _own_len = own.len();
    let _other_len = other.len();
    let Overhang {
        own_at,
        min,
        max,
        other_at,
        other: cut,
    } = overhang;
    let chain = Vec::new(alloc);
    let rest = (min, max);
    let Some(cut) = cut else {
        return keep_rest(chain, own, own_at, rest);
    };
    cut_behind(chain, own, own_at, rest, other, other_at, cut)
}

/// Returns the chain of the numbers of `own` that `other` doesn't have, from the first overhang on.
///
/// `chain` is empty, and the other chain has a block left.
fn cut_behind<T: Block, A: Allocator, X: Reads<T>, Y: Reads<T>>(
    mut chain: Vec<T, A>,
    own: &mut X,
    mut own_at: usize,
    mut rest: (T::Item, T::Item),
    other: &mut Y,
    mut other_at: usize,
    mut cut: (T::Item, T::Item),
) -> Result<OwnedChain<T, A>, AllocError>
    requires overhang { IsOverhang T.bounds T.number T.first T.last
        (X.blocks own.old) (Y.blocks other.old) (record {
          own_at = own_at;
          min = rest.0;
          max = rest.1;
          other_at = other_at;
          other = Some cut;
        }) }
    requires empty { chain.items ≡ [] }
    ensures difference { IfOk result (λ chain. IsChainOf T.bounds T.form (λ n.
        Covers T.bounds (X.blocks own.old) n × (Covers T.bounds (Y.blocks other.old) n → ⊥))
        chain) }
    ensures few { IfOk result (λ chain.
        length chain ≤ length (X.blocks own.old) + length (Y.blocks other.old)) }
    ensures own { IsReadOn (X.blocks own.old) (X.blocks own.new) own_at
        (X.count own.old) (X.count own.new) }
    ensures other { IsReadOn (Y.blocks other.old) (Y.blocks other.new) other_at
        (Y.count other.old) (Y.count other.new) }
{
    // `len` is called only for its contract: the blocks are chains of fewer than 2^64 blocks.
    let _own_len = own.len();
    let _other_len = other.len();
    // `rest` is what is left of the block at `own_at`. `cut` is the block at `other_at`, which may be removed from it.
    // The numbers before the rest are decided: those that stay are in `chain`. No cut that was passed reaches the rest.
    // Each iteration finishes the rest or the cut, so the loop ends. It keeps at most one piece.
    loop {
        if cut.1 < rest.0 {
            other_at += 1;
            let Some(next) = read_at(other, other_at) else {
                return keep_rest(chain, own, own_at, rest);
            };
            cut = next;
            continue;
        }
        push_before(&mut chain, rest, cut.0)?;
        if rest.1 <= cut.1 {
            own_at += 1;
            let Some(next) = read_at(own, own_at) else {
                return Ok(OwnedChain::from_vec_unchecked(chain));
            };
            rest = next;
        } else {
            rest.0 = item_after::<T>(cut.1);
            other_at += 1;
            let Some(next) = read_at(other, other_at) else {
                return keep_rest(chain, own, own_at, rest);
            };
            cut = next;
        }
    }
}

/// Returns the chain of the numbers of `chain`, of the rest of a block, and of the blocks after it. These are read at
/// most once each.
fn keep_rest<T: Block, A: Allocator, R: Reads<T>>(
    mut chain: Vec<T, A>,
    own: &mut R,
    mut at: usize,
    mut rest: (T::Item, T::Item),
) -> Result<OwnedChain<T, A>, AllocError>
    requires behind { IsBehind T.bounds T.form T.last chain.items (numbers T.number rest) }
    requires rest { IsRest T.bounds (R.blocks own.old) at (numbers T.number rest) }
    ensures chain { IfOk result (IsChainOf T.bounds T.form (λ n. Covers T.bounds chain.items n ⊎
        (Covers T.bounds (R.blocks own.old) n × (T.number rest.0 ≤ n)))) }
    ensures few { IfOk result (λ made.
        length made ≤ length chain.items + (length (R.blocks own.old) - at)) }
    ensures own { IsReadOn (R.blocks own.old) (R.blocks own.new) at
        (R.count own.old) (R.count own.new) }
{
    // `len` is called only for its contract: the blocks are a chain of fewer than 2^64 blocks.
    let _len = own.len();
    // All blocks of `chain` end before the rest and don't touch it. Each iteration keeps the rest, and then the next
    // block is the rest, so the loop ends.
    loop {
        chain.push(T::new(rest.0, rest.1))?;
        at += 1;
        let Some(next) = read_at(own, at) else {
            break;
        };
        rest = next;
    }
    Ok(OwnedChain::from_vec_unchecked(chain))
}
