//! Membership of an item, or of the items of a block, in a chain. The calls search for the first block of the chain
//! that doesn't end before the item.
ghost use Rattle.std.specs.Prelude.{◌≡◌, ℕ, ◌+◌, ◌-◌, ◌*◌, ◌^◌, ◌<◌, ◌≤◌, ◌↔◌, length, slice_index_or, IsTrue, IfSome, MatchOption};
ghost use Rattle.rpki_chain_core.specs.Sets.{IsWithin, Covers, IsChain, IsRunFrom, HoldsBlock, numbers};

use crate::reads::Reads;
use rpki_block::block::Block;

/// Returns the index in the middle of a range of indexes. At most half of them are on each side.
fn middle_of(low: usize, high: usize) -> usize
    requires { low < high }
    ensures from_low { low ≤ result }
    ensures to_high { result < high }
    ensures halves { 2 * (result - low) ≤ high - low }
    ensures halves_behind { 2 * (high - (result + 1)) ≤ high - low }
{
    low + (high - low) / 2
}

/// Moves the index `at` to the first block from there on that doesn't end before `item`, and returns its bounds. If all
/// blocks from there on end before `item`, the index becomes the length of the chain, and the call returns None.
///
/// This is a binary search. It reads at most as many blocks as the number of the blocks from `at` on has binary digits.
pub fn seek<T: Block, R: Reads<T>>(
    chain: &mut R,
    at: &mut usize,
    item: T::Item,
) -> Option<(T::Item, T::Item)>
    requires { at.old ≤ length (R.blocks chain.old) }
    ensures onward { at.old ≤ at.new }
    ensures block { HoldsBlock T.bounds T.number T.last (R.blocks chain.old) at.new result }
    ensures passed { (k : ℕ) (d : T) → at.old ≤ k → k < at.new →
        (T.bounds (slice_index_or (R.blocks chain.old) k d)).1 < T.number item }
    ensures reaches { IfSome result (λ b. T.number item ≤ T.number b.1) }
    ensures chain { IsChain T.bounds T.form (R.blocks chain.old) }
    ensures kept { R.blocks chain.new ≡ R.blocks chain.old }
    ensures reads { (digits : ℕ) → length (R.blocks chain.old) - at.old < 2 ^ digits →
        R.count chain.new ≤ R.count chain.old + digits }
{
    let mut low = *at;
    let mut high = chain.len();
    let mut found = None;
    // The blocks before `low` end before the item. The block at `high` doesn't, and its bounds are in `found`, unless
    // `high` is still the end of the chain. Each iteration leaves at most half of the blocks between `low` and `high`.
    // So they meet at the first block that doesn't end before the item.
    while low < high {
        let middle = middle_of(low, high);
        let (min, max) = chain.read(middle);
        if max < item {
            low = middle + 1;
        } else {
            high = middle;
            found = Some((min, max));
        }
    }
    *at = high;
    found
}

/// Returns the bounds of the first block that doesn't end before `item`, or None if all blocks do.
///
/// The call reads at most as many blocks as their number has binary digits. This also holds for its callers below.
pub fn first_from<T: Block, R: Reads<T>>(chain: &mut R, item: T::Item) -> Option<(T::Item, T::Item)>
    ensures block { MatchOption result
        ((n : ℕ) → T.number item ≤ n → Covers T.bounds (R.blocks chain.old) n → ⊥)
        (λ b. IsRunFrom (Covers T.bounds (R.blocks chain.old)) (T.number item)
        (numbers T.number b)) }
    ensures kept { R.blocks chain.new ≡ R.blocks chain.old }
    ensures reads { (digits : ℕ) → length (R.blocks chain.old) < 2 ^ digits →
        R.count chain.new ≤ R.count chain.old + digits }
{
    let mut at = 0;
    seek(chain, &mut at, item)
}

/// Returns whether the chain has `item`, as [`crate::chain::Chain::contains_item`] does.
///
/// The call reads at most as many blocks as their number has binary digits, so it reads no block of an empty chain. The
/// blocks don't change.
pub fn contains_item_counted<T: Block, R: Reads<T>>(chain: &mut R, item: T::Item) -> bool
    ensures value { IsTrue result ↔ Covers T.bounds (R.blocks chain.old) (T.number item) }
    ensures kept { R.blocks chain.new ≡ R.blocks chain.old }
    ensures reads { (digits : ℕ) → length (R.blocks chain.old) < 2 ^ digits →
        R.count chain.new ≤ R.count chain.old + digits }
{
    match first_from(chain, item) {
        Some(found) => found.0 <= item,
        None => false,
    }
}

/// Returns whether the chain has each item of `block`.
pub fn contains_block<T: Block, R: Reads<T>>(chain: &mut R, block: &T) -> bool
    ensures value { IsTrue result ↔ ((n : ℕ) →
        IsWithin (T.bounds block.now) n → Covers T.bounds (R.blocks chain.old) n) }
    ensures kept { R.blocks chain.new ≡ R.blocks chain.old }
    ensures reads { (digits : ℕ) → length (R.blocks chain.old) < 2 ^ digits →
        R.count chain.new ≤ R.count chain.old + digits }
{
    let (min, max) = block.bounds();
    match first_from(chain, min) {
        Some(found) => found.0 <= min && max <= found.1,
        None => false,
    }
}

/// Returns whether the chain has at least one item of `block`.
pub fn intersects_block<T: Block, R: Reads<T>>(chain: &mut R, block: &T) -> bool
    ensures value { IsTrue result ↔ ((n : ℕ) ×
        IsWithin (T.bounds block.now) n × Covers T.bounds (R.blocks chain.old) n) }
    ensures kept { R.blocks chain.new ≡ R.blocks chain.old }
    ensures reads { (digits : ℕ) → length (R.blocks chain.old) < 2 ^ digits →
        R.count chain.new ≤ R.count chain.old + digits }
{
    let (min, max) = block.bounds();
    match first_from(chain, min) {
        Some(found) => found.0 <= max,
        None => false,
    }
}
