//! The overhang of a chain over a much longer one, by a binary search for each block.
ghost use Rattle.std.specs.Prelude.{◌≡◌, ℕ, ◌+◌, ◌*◌, ◌^◌, ◌<◌, ◌≤◌, ◌↔◌, length, IsTrue, MatchOption};
ghost use Rattle.rpki_chain_core.specs.Sets.{IsInside};
ghost use Rattle.rpki_chain_core.specs.Overhang.{IsOverhang};

use crate::membership::seek;
use crate::overhang::Overhang;
use crate::reads::Reads;
use rpki_block::block::Block;

/// Returns whether `many` is at least 64 times `few`. Even in the worst case, a search in `many` blocks for each of
/// `few` blocks then reads no more than a pass over the `many` blocks.
pub fn is_far_longer(many: usize, few: usize) -> bool
    ensures { IsTrue result ↔ (64 * few ≤ many) }
{
    few <= many / 64
}

/// Returns the first block of `own` that doesn't lie in `other`, or None if each block does.
///
/// A binary search looks for each block in `other`, from the index on that the search before it found. Each search
/// reads at most as many blocks of `other` as their number has binary digits.
#[tactic(auto, using(crate::proofs::ReadCounts::searched_within))]
pub fn overhang_by_binary_search<T: Block, X: Reads<T>, Y: Reads<T>>(
    own: &mut X,
    other: &mut Y,
) -> Option<Overhang<T::Item>>
    ensures value { MatchOption result (IsInside T.bounds (X.blocks own.old) (Y.blocks other.old))
        (IsOverhang T.bounds T.number T.first T.last (X.blocks own.old) (Y.blocks other.old)) }
    ensures own_kept { X.blocks own.new ≡ X.blocks own.old }
    ensures other_kept { Y.blocks other.new ≡ Y.blocks other.old }
    ensures own_reads { X.count own.new ≤ X.count own.old + length (X.blocks own.old) }
    ensures other_reads { (digits : ℕ) → length (Y.blocks other.old) < 2 ^ digits →
        Y.count other.new ≤ Y.count other.old + length (X.blocks own.old) * digits }
{
    // `len` is called only for its contract: the blocks are a chain.
    let _other_len = other.len();
    let mut other_at = 0;
    // The blocks that were passed lie in the other chain. The other's blocks before `other_at` end before the current
    // block. So the first of the other's blocks that doesn't end before the current block must contain it, since chains
    // have gaps between their blocks.
    for own_at in 0..own.len() {
        let (min, max) = own.read(own_at);
        let Some(held) = seek(other, &mut other_at, min) else {
            return Some(Overhang {
                own_at,
                min,
                max,
                other_at,
                other: None,
            });
        };
        if min < held.0 || held.1 < max {
            return Some(Overhang {
                own_at,
                min,
                max,
                other_at,
                other: Some(held),
            });
        }
    }
    None
}
