//! Counts of reads: how often the operations on two chains read a block.
ghost use Rattle.std.specs.Prelude.{ℕ, ◌+◌, ◌*◌, ◌^◌, ◌<◌, ◌≤◌, ◌↔◌, ◌⊎◌, length, IfErr, IfOk, IsOk, IsTrue};
ghost use Rattle.rpki_text.specs.Memory.{IfRefused};
ghost use Rattle.rpki_chain_core.specs.Sets.{Covers, IsChainOf, IsInside};

use rpki_chain::{
    Block, OwnedChain, Reads, contains_item_counted, difference_counted, trim_counted,
    union_counted,
};
use rpki_text::memory::OrMemory;
use std::alloc::{AllocError, Allocator};

/// Returns the union of two chains. Together they are read at most as often as they have blocks.
///
/// # Errors
///
/// [`AllocError`]: out of memory.
pub fn union<T: Block, A: Allocator, X: Reads<T>, Y: Reads<T>>(
    alloc: A,
    own: &mut X,
    other: &mut Y,
) -> Result<OwnedChain<T, A>, AllocError>
    ensures chain { IfOk result (IsChainOf T.bounds T.form (λ n.
        Covers T.bounds (X.blocks own.old) n ⊎ Covers T.bounds (Y.blocks other.old) n)) }
    ensures reads { X.count own.new + Y.count other.new ≤ X.count own.old + Y.count other.old
        + (length (X.blocks own.old) + length (Y.blocks other.old)) }
{
    union_counted(alloc, own, other)
}

/// Returns the difference of two chains. Together they are read at most as often as they have blocks.
///
/// # Errors
///
/// [`AllocError`]: out of memory.
pub fn difference<T: Block, A: Allocator, X: Reads<T>, Y: Reads<T>>(
    alloc: A,
    own: &mut X,
    other: &mut Y,
) -> Result<OwnedChain<T, A>, AllocError>
    ensures chain { IfOk result (IsChainOf T.bounds T.form (λ n.
        Covers T.bounds (X.blocks own.old) n × (Covers T.bounds (Y.blocks other.old) n → ⊥))) }
    ensures reads { X.count own.new + Y.count other.new ≤ X.count own.old + Y.count other.old
        + (length (X.blocks own.old) + length (Y.blocks other.old)) }
{
    difference_counted(alloc, own, other)
}

/// Checks that `other` has each number of `own`. If it does, the call returns no out-of-memory error.
///
/// # Errors
///
/// - `Refused`: the intersection of both, if `other` lacks a number of `own`.
/// - `Memory`: out of memory for the intersection.
pub fn trim<T: Block, A: Allocator, X: Reads<T>, Y: Reads<T>>(
    alloc: A,
    own: &mut X,
    other: &mut Y,
) -> Result<(), OrMemory<OwnedChain<T, A>>>
    ensures ok { IsOk result ↔ IsInside T.bounds (X.blocks own.old) (Y.blocks other.old) }
    ensures chain { IfErr result (IfRefused (IsChainOf T.bounds T.form (λ n.
        Covers T.bounds (X.blocks own.old) n × Covers T.bounds (Y.blocks other.old) n))) }
    ensures reads { X.count own.new + Y.count other.new ≤ X.count own.old + Y.count other.old
        + (2 * length (X.blocks own.old) + length (Y.blocks other.old)) }
{
    trim_counted(alloc, own, other)
}

/// Returns whether a chain has an item. The call reads at most as many blocks as their count has binary digits.
pub fn contains<T: Block, R: Reads<T>>(chain: &mut R, item: T::Item) -> bool
    ensures value { IsTrue result ↔ Covers T.bounds (R.blocks chain.old) (T.number item) }
    ensures reads { (digits : ℕ) → length (R.blocks chain.old) < 2 ^ digits
        → R.count chain.new ≤ R.count chain.old + digits }
{
    contains_item_counted(chain, item)
}
