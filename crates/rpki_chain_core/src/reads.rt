//! The interface between chains and the passes over them. A pass reads blocks by their index, one at a time, and the
//! reads are counted.
ghost use Rattle.std.specs.Prelude.{◌≡◌, ℕ, ◌+◌, ◌^◌, ◌<◌, ◌≤◌, List, length, slice_index_or, IfSome, is_some, if◌then◌else◌};
ghost use Rattle.rpki_chain_core.specs.Sets.{IsChain, HoldsBlock, numbers};

use rpki_block::block::Block;

/// A chain with a count of the reads of its blocks.
///
/// Code that is generic over this trait reads a block with [`Reads::read`] only, which counts each read. It can neither
/// create nor copy such a chain. A bound on the count of such code is therefore a bound on all its reads.
pub trait Reads<T: Block> {
    /// The chain's blocks.
    ghost blocks: { Self → List T };

    /// The number of reads of blocks.
    ghost count: { Self → ℕ };

    /// Returns the number of blocks.
    fn len(&self) -> usize
        ensures value { result ≡ length (blocks self.now) }
        ensures chain { IsChain T.bounds T.form (blocks self.now) };

    /// Returns the bounds of the block at index `at`, counted from 0, and counts the read. The blocks don't change.
    ///
    /// # Preconditions
    ///
    /// `at` is below the number of blocks.
    fn read(&mut self, at: usize) -> (T::Item, T::Item)
        requires { at < length (blocks self.old) }
        ensures value { (d : T) →
            T.bounds (slice_index_or (blocks self.old) at d) ≡ numbers T.number result }
        ensures from_first { T.first ≤ T.number result.0 }
        ensures to_last { T.number result.1 ≤ T.last }
        ensures kept { blocks self.new ≡ blocks self.old }
        ensures counted { count self.new ≡ count self.old + 1 };
}

/// Returns the bounds of the block at index `at`, or None at the end of the chain. The blocks don't change.
///
/// # Preconditions
///
/// `at` is at most the number of blocks.
pub fn read_at<T: Block, R: Reads<T>>(chain: &mut R, at: usize) -> Option<(T::Item, T::Item)>
    requires { at ≤ length (R.blocks chain.old) }
    ensures block { HoldsBlock T.bounds T.number T.last (R.blocks chain.old) at result }
    ensures chain { IsChain T.bounds T.form (R.blocks chain.old) }
    ensures valid { IfSome result (λ b. (T.first ≤ T.number b.0) × (T.number b.1 ≤ T.last)) }
    ensures bound { length (R.blocks chain.old) < 2 ^ 64 }
    ensures kept { R.blocks chain.new ≡ R.blocks chain.old }
    ensures counted { R.count chain.new ≡
        R.count chain.old + (if is_some result then 1 else 0) }
{
    if at < chain.len() {
        Some(chain.read(at))
    } else {
        None
    }
}
