//! Builds a chain from blocks in any order, in their own memory. The blocks are sorted, and joined in one pass.
ghost use Rattle.std.specs.Prelude.{◌≡◌, ℕ, ◌+◌, ◌<◌, ◌≤◌, ◌↔◌, ◌⊎◌, IsTrue, IfSome, IfNone};
ghost use Rattle.std.specs.List.Sorted.{IsNonDecreasingBy};
ghost use Rattle.std.specs.Ordering.{nat_cmp};
ghost use Rattle.rpki_chain_core.specs.Sets.{IsWithin, Covers, IsChain, IsOfKind, numbers};

use rpki_block::block::Block;
use std::alloc::Allocator;
use std::cmp::Ordering;

/// Replaces the blocks by the chain of the numbers that they cover. The call neither allocates nor frees memory.
pub fn join<T: Block, A: Allocator>(blocks: &mut Vec<T, A>)
    ensures chain { IsChain T.bounds T.form blocks.new.items }
    ensures covers { (n : ℕ) →
        Covers T.bounds blocks.new.items n ↔ Covers T.bounds blocks.old.items n }
    ensures kind { IsOfKind T.bounds T.first T.last blocks.old.items }
{
    sort(blocks);
    join_ascending(blocks);
}

/// Sorts the blocks by their minima. If they are sorted already, the call passes over them once and moves none.
fn sort<T: Block, A: Allocator>(blocks: &mut Vec<T, A>)
    ensures covers { (n : ℕ) →
        Covers T.bounds blocks.new.items n ↔ Covers T.bounds blocks.old.items n }
    ensures ascending { IsNonDecreasingBy (λ b. (T.bounds b).0) blocks.new.items }
{
    blocks.sort_unstable_by(
        |one: &T, other: &T| -> Ordering
            ensures { result ≡ nat_cmp (T.bounds one.now).0 (T.bounds other.now).0 }
        { one.min().cmp(&other.min()) },
    );
}

/// Joins blocks that are sorted by their minima.
///
/// The blocks below the index `closed` are those of the closed runs, which end before the current run and don't touch
/// it. Each iteration takes the next block, which begins no earlier than the current run. No later block can therefore
/// reach a closed run. A run covers at least one block, so the index of its block is among those that were passed.
fn join_ascending<T: Block, A: Allocator>(blocks: &mut Vec<T, A>)
    requires { IsNonDecreasingBy (λ b. (T.bounds b).0) blocks.old.items }
    ensures chain { IsChain T.bounds T.form blocks.new.items }
    ensures covers { (n : ℕ) →
        Covers T.bounds blocks.new.items n ↔ Covers T.bounds blocks.old.items n }
    ensures kind { IsOfKind T.bounds T.first T.last blocks.old.items }
{
    let Some(first) = blocks.first() else {
        return;
    };
    let mut run = first.bounds();
    let mut closed = 0;
    for at in 1..blocks.len() {
        let next = blocks[at].bounds();
        if let Some(longer) = run_over::<T>(run, next) {
            run = longer;
            continue;
        }
        blocks[closed] = T::new(run.0, run.1);
        closed += 1;
        run = next;
    }
    blocks[closed] = T::new(run.0, run.1);
    blocks.truncate(closed + 1);
}

/// Returns the run that covers `run` and `next`, or None if they neither overlap nor touch.
///
/// # Preconditions
///
/// - `next` begins no earlier than `run`.
/// - `next` does not end before it begins, or after the kind's last item.
pub fn run_over<T: Block>(
    run: (T::Item, T::Item),
    next: (T::Item, T::Item),
) -> Option<(T::Item, T::Item)>
    requires behind { T.number run.0 ≤ T.number next.0 }
    requires ordered { T.number next.0 ≤ T.number next.1 }
    requires to_last { T.number next.1 ≤ T.last }
    ensures from { IfSome result (λ r. r.0 ≡ run.0) }
    ensures to { IfSome result (λ r.
        (T.number run.1 ≤ T.number r.1) × ((r.1 ≡ run.1) ⊎ (r.1 ≡ next.1))) }
    ensures over { IfSome result (λ r. (n : ℕ) → IsWithin (numbers T.number r) n ↔
        (IsWithin (numbers T.number run) n ⊎ IsWithin (numbers T.number next) n)) }
    ensures apart { IfNone result (T.number run.1 + 1 < T.number next.0) }
{
    if !is_reached::<T>(run.1, next.0) {
        return None;
    }
    let max = if run.1 < next.1 { next.1 } else { run.1 };
    Some((run.0, max))
}

/// Returns whether `item` comes right after `high` or is not above it.
fn is_reached<T: Block>(high: T::Item, item: T::Item) -> bool
    requires { T.number item ≤ T.last }
    ensures { IsTrue result ↔ (T.number item ≤ T.number high + 1) }
{
    match T::next(high) {
        Some(next) => item <= next,
        None => true,
    }
}
