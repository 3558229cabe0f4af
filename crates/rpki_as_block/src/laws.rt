//! Lemmas about ranges and about the octets of blocks. Each is the contract of a function that does nothing.
ghost use Rattle.std.specs.Prelude.{◌≡◌, ◌≢◌, ◌↔◌, ◌<◌, ℕ, List, Err, true, IsOk, IsTrue};
ghost use Rattle.rpki_block.specs.Ranges.{RangeValue};
ghost use Rattle.rpki_der.specs.Der.{OneFront};
ghost use Rattle.rpki_der.specs.declared.error.DerError.TheVariants.{NotCanonical, ReversedRange};
ghost use Rattle.rpki_base.specs.AsnDer.{as_number_at};
ghost use Rattle.rpki_der.specs.SequenceFaults.{BeginsWithTwo, BeginsWithValue};
ghost use Rattle.rpki_as_block.specs.AsDer.{HasAsNumbers, IsAsBlock, as_block_octets};
ghost use Rattle.rpki_as_block.specs.AsDerReading.{as_block_at, as_block_by, as_range_in};
ghost use Rattle.rpki_as_block.specs.declared.block.AsBlock.{AsBlock};

use crate::range::AsRange;

/// Ranges are equal if and only if their least and their greatest numbers are the same.
pub fn equal_where_the_same()
    ensures { (r s : RangeValue) → IsTrue (⟦<AsRange as PartialEq>⟧.eq r s) ↔ (r ≡ s) }
{}

/// Octets begin with at most one block.
pub fn one_block()
    ensures { OneFront IsAsBlock }
{}

/// The octets that `encode` appends denote the block.
#[tactic(auto, using(crate::proofs::AsBlockDerLemmas::block_written))]
pub fn written()
    ensures { (block : AsBlock) → HasAsNumbers block → IsAsBlock (as_block_octets block) block }
{}

/// The content of a range is refused by `ReversedRange` if and only if it begins with two numbers, the second of them
/// below the first. A block is refused so if and only if it is a SEQUENCE with such a content. The octets after the two
/// numbers don't matter.
#[tactic(auto, using(crate::proofs::AsBlockDerFaults::block_fails, crate::proofs::AsBlockDerFaults::range_fails))]
pub fn reversed()
    ensures range { (content : List ℕ) → (as_range_in content ≡ Err ReversedRange)
        ↔ BeginsWithTwo as_number_at (λ first second. second < first) content }
    ensures block { (bytes : List ℕ) → (as_block_at bytes ≡ Err ReversedRange)
        ↔ BeginsWithValue 48 (BeginsWithTwo as_number_at (λ first second. second < first)) bytes }
{}

/// Only a strict cursor refuses octets as not canonical, and only if a lenient cursor finds a block in them. Any other
/// fault of a block is reported first.
#[tactic(auto, using(crate::proofs::AsBlockDerFaults::comes_last, crate::proofs::AsBlockDerFaults::never_lenient))]
pub fn not_canonical()
    ensures lenient { (bytes : List ℕ) → as_block_at bytes ≢ Err NotCanonical }
    ensures last { (bytes : List ℕ) → as_block_by true bytes ≡ Err NotCanonical
        → IsOk (as_block_at bytes) }
{}
