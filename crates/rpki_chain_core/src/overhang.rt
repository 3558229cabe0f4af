//! The overhang of a chain over another: its first block that doesn't lie in the other chain.
ghost use Rattle.std.specs.Prelude.{◌≡◌, ℕ, ◌+◌, ◌-◌, ◌<◌, ◌≤◌, [], Some, length, slice_index_or, IfSome, IsTrue, MatchOption};
ghost use Rattle.rpki_chain_core.specs.Sets.{HoldsBlock, IsInside, IsChain};
ghost use Rattle.rpki_chain_core.specs.Fit.{IsFitIn};
ghost use Rattle.rpki_chain_core.specs.Overhang.{EndsWithin, IsOverhang};

use crate::reads::{Reads, read_at};
use rpki_block::block::Block;

/// The position of a chain's current block relative to the current block of another chain.
pub enum Fit {
    /// The other's block ends before this block, so the other's next block is examined.
    Skip,
    /// The block lies in the other's block.
    Inside,
    /// Some of the block lies in no block of the other chain.
    Beyond,
}

/// The first block of a chain that doesn't lie in another chain, and the current block of the other chain.
#[derive(Drop)]
pub struct Overhang<I> {
    /// The index of the block, counted from 0.
    pub own_at: usize,
    /// The smallest item of the block.
    pub min: I,
    /// The largest item of the block.
    pub max: I,
    /// The index of the current block of the other chain, or the other chain's length.
    pub other_at: usize,
    /// The bounds of the current block of the other chain, or None at its end.
    pub other: Option<(I, I)>,
}

/// Compares the block from `min` to `max` with the other chain's block from `low` to `high`.
fn fit_in<T: Block>(min: T::Item, max: T::Item, low: T::Item, high: T::Item) -> Fit
    ensures { IsFitIn T.number (min, max) (low, high) result }
{
    if high < min {
        return Fit::Skip;
    }
    if min < low {
        return Fit::Beyond;
    }
    if high < max {
        return Fit::Beyond;
    }
    Fit::Inside
}

/// Returns the first block of `own` that doesn't lie in `other`, or None if each block does.
///
/// Each iteration finishes one block.
pub fn first_overhang<T: Block, X: Reads<T>, Y: Reads<T>>(
    own: &mut X,
    other: &mut Y,
) -> Option<Overhang<T::Item>>
    ensures value { MatchOption result (IsInside T.bounds (X.blocks own.old) (Y.blocks other.old))
        (IsOverhang T.bounds T.number T.first T.last (X.blocks own.old) (Y.blocks other.old)) }
    ensures own_kept { X.blocks own.new ≡ X.blocks own.old }
    ensures other_kept { Y.blocks other.new ≡ Y.blocks other.old }
    ensures own_reads { X.count own.new ≤ X.count own.old + length (X.blocks own.old) }
    ensures other_reads { Y.count other.new ≤ Y.count other.old + length (Y.blocks other.old) }
    // The blocks after the current ones weren't read.
    ensures own_left { IfSome result (λ o. X.count own.new
        + (length (X.blocks own.old) - (o.own_at + 1)) ≤
        X.count own.old + length (X.blocks own.old)) }
    ensures other_left { IfSome result (λ o. Y.count other.new
        + (length (Y.blocks other.old) - (o.other_at + 1)) ≤
        Y.count other.old + length (Y.blocks other.old)) }
{
    let mut own_at = 0;
    let mut other_at = 0;
    let Some(mut own_block) = read_at(own, 0) else {
        return None;
    };
    let Some(mut other_block) = read_at(other, 0) else {
        return Some(Overhang {
            own_at,
            min: own_block.0,
            max: own_block.1,
            other_at,
            other: None,
        });
    };
    // The blocks before `own_block` lie in the other chain. The blocks before `other_block` end before `own_block`
    // begins. An iteration passes one of the two blocks, so the loop ends. A block that lies in no single block of the
    // other chain ends the loop at once, since chains have gaps between their blocks.
    loop {
        match fit_in::<T>(own_block.0, own_block.1, other_block.0, other_block.1) {
            Fit::Skip => {
                other_at += 1;
                let Some(next) = read_at(other, other_at) else {
                    return Some(Overhang {
                        own_at,
                        min: own_block.0,
                        max: own_block.1,
                        other_at,
                        other: None,
                    });
                };
                other_block = next;
            }
            Fit::Inside => {
                own_at += 1;
                let Some(next) = read_at(own, own_at) else {
                    return None;
                };
                own_block = next;
            }
            Fit::Beyond => {
                return Some(Overhang {
                    own_at,
                    min: own_block.0,
                    max: own_block.1,
                    other_at,
                    other: Some(other_block),
                });
            }
        }
    }
}

/// Returns the first block of `own` that doesn't lie in `other`, as [`first_overhang`] does, for two lists.
///
/// The reads are not counted.
pub fn overhang_of<T: Block>(own: &[T], other: &[T]) -> Option<Overhang<T::Item>>
    requires own_chain { IsChain T.bounds T.form own.now }
    requires other_chain { IsChain T.bounds T.form other.now }
    ensures { MatchOption result (IsInside T.bounds own.now other.now)
        (IsOverhang T.bounds T.number T.first T.last own.now other.now) }
{
    if ends_within(own, other) {
        overhang_within(own, other)
    } else {
        overhang_past_end(own, other)
    }
}

/// Returns true only if each block of `own` ends no later than some block of `other`.
fn ends_within<T: Block>(own: &[T], other: &[T]) -> bool
    requires { IsChain T.bounds T.form own.now }
    ensures { IsTrue result → EndsWithin T.bounds own.now other.now }
{
    if own.is_empty() || other.is_empty() {
        return false;
    }
    let own_last = own.len() - 1;
    let other_last = other.len() - 1;
    let own_end = own[own_last].max();
    let other_end = other[other_last].max();
    own_end <= other_end
}

/// Returns the first block of `own` that doesn't lie in `other`, or None if each block does. Each block of `own` ends
/// no later than some block of `other`.
fn overhang_within<T: Block>(own: &[T], other: &[T]) -> Option<Overhang<T::Item>>
    requires own_chain { IsChain T.bounds T.form own.now }
    requires other_chain { IsChain T.bounds T.form other.now }
    requires ends { EndsWithin T.bounds own.now other.now }
    ensures { MatchOption result (IsInside T.bounds own.now other.now)
        (IsOverhang T.bounds T.number T.first T.last own.now other.now) }
{
    if other.is_empty() {
        return None;
    }
    // `owns` begins with the current block, and `others` with the block whose bounds are held. The blocks before `owns`
    // lie in the other chain. The other's blocks before `others` end before the current block does. So the first of the
    // other's blocks that doesn't end before the current block does must contain it. There is such a block, so no
    // iteration tests for the end of the other chain.
    let mut owns = own;
    let mut others = other;
    let mut held = others[0].bounds();
    for own_at in 0..own.len() {
        let (min, max) = owns[0].bounds();
        while held.1 < max {
            others = others.split_at(1).1;
            held = others[0].bounds();
        }
        if min < held.0 {
            let (other_at, reached) = reached_back_from(other, other.len() - others.len(), min);
            return Some(Overhang {
                own_at,
                min,
                max,
                other_at,
                other: Some(reached),
            });
        }
        owns = owns.split_at(1).1;
    }
    None
}

/// Returns a block no later than the one at index `end`, so that all blocks before it end before `item`. The blocks are
/// read back from `end` on.
fn reached_back_from<T: Block>(
    chain: &[T],
    end: usize,
    item: T::Item,
) -> (usize, (T::Item, T::Item))
    requires chain { IsChain T.bounds T.form chain.now }
    requires end { end < length chain.now }
    ensures block { HoldsBlock T.bounds T.number T.last chain.now result.0 (Some result.1) }
    ensures passed { (at : ℕ) (d : T) → at < result.0 →
        (T.bounds (slice_index_or chain.now at d)).1 < T.number item }
{
    let mut at = end;
    let mut reached = chain[end].bounds();
    while at > 0 {
        let before = at - 1;
        let block = chain[before].bounds();
        if block.1 < item {
            return (at, reached);
        }
        at = before;
        reached = block;
    }
    (at, reached)
}

/// Returns the first block of `own` that doesn't lie in `other`, or None if each block does.
fn overhang_past_end<T: Block>(own: &[T], other: &[T]) -> Option<Overhang<T::Item>>
    requires own_chain { IsChain T.bounds T.form own.now }
    requires other_chain { IsChain T.bounds T.form other.now }
    ensures { MatchOption result (IsInside T.bounds own.now other.now)
        (IsOverhang T.bounds T.number T.first T.last own.now other.now) }
{
    let mut others = other.iter();
    let Some(first) = others.next() else {
        return first_of(own);
    };
    let mut held = first.bounds();
    // The blocks that were passed lie in the other chain. The other's blocks before `held` end before the current
    // block. So the first of the other's blocks that doesn't end before the current block must contain it, since chains
    // have gaps between their blocks.
    for (own_at, block) in own.iter().enumerate() {
        let (min, max) = block.bounds();
        while held.1 < min {
            let Some(next) = others.next() else {
                return Some(Overhang {
                    own_at,
                    min,
                    max,
                    other_at: other.len(),
                    other: None,
                });
            };
            held = next.bounds();
        }
        if min < held.0 || held.1 < max {
            return Some(Overhang {
                own_at,
                min,
                max,
                other_at: other.len() - others.as_slice().len() - 1,
                other: Some(held),
            });
        }
    }
    None
}

/// Returns the overhang of a chain over the empty chain: its first block.
fn first_of<T: Block>(own: &[T]) -> Option<Overhang<T::Item>>
    requires { IsChain T.bounds T.form own.now }
    ensures { MatchOption result (IsInside T.bounds own.now [])
        (IsOverhang T.bounds T.number T.first T.last own.now []) }
{
    let (min, max) = own.first()?.bounds();
    Some(Overhang {
        own_at: 0,
        min,
        max,
        other_at: 0,
        other: None,
    })
}
