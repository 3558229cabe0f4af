//! Sets of AS numbers in DER: a SEQUENCE of blocks (RFC 3779, 3.2.3.4).
use crate::blocks::AsBlocks;
use rpki_as_block::der::AsBlockReader;
use rpki_base::memory::OrMemory;
use rpki_der::sequences::{encode_all, take_sequence_of};
use rpki_der::{Cursor, DerError};
use std::alloc::{AllocError, Allocator};

impl<A: Allocator> AsBlocks<A> {
    ghost use Rattle.std.specs.Prelude.{◌≡◌, ℕ, List, ◌≤◌, ◌+◌, ◌++◌, length, vec_len, OnOk, OnErr, IsOk, MatchResult};
    ghost use Rattle.std.specs.Vec.{vec_capacity};
    ghost use Rattle.rpki_chain.specs.Runs.{Runs, IsRunsOfBlocks};
    ghost use Rattle.rpki_der.specs.Der.{Spells};
    ghost use Rattle.rpki_der.specs.Views.{Lenient, Strict, is_strict, left};
    ghost use Rattle.rpki_der.specs.SequenceViews.{NotCanonicalOrMemory, ReadsOrMemory, TakesSaidOrMemory};
    ghost use Rattle.rpki_text.specs.Memory.{IsMemory};
    ghost use Rattle.rpki_as.specs.AsDer.{IsAsBlockSequence, as_sequence_octets, as_set_octets};
    ghost use Rattle.rpki_as.specs.AsDerReading.{as_blocks_at, as_blocks_by};
    ghost use Rattle.rpki_as.specs.Blocks.{IsAsSet};
    ghost use Rattle.rpki_as_block.specs.Blocks.{as_bounds};

    /// Takes a SEQUENCE of zero or more blocks, and returns the set of their numbers. From a lenient cursor, the blocks
    /// may be in any order and may overlap.
    ///
    /// # Errors
    ///
    /// The cursor is unchanged after an error. `Memory` means that an allocation failed. `Refused` has the first fault:
    ///
    /// - a fault of the SEQUENCE, as in [`Cursor::take_sequence`]
    /// - a fault of a block, as in [`AsBlock::take_opt_from`](crate::block::AsBlock::take_opt_from)
    /// - `NotCanonical`, from a strict cursor only: a block doesn't begin more than one above the greatest number of
    ///   the block before it (RFC 3779, 3.2.3.4)
    pub fn take_from(alloc: A, cursor: &mut Cursor<'_>) -> Result<AsBlocks<A>, OrMemory<DerError>>
    where
        A: Copy,
        ensures reads { Lenient cursor.old
            (ReadsOrMemory IsAsBlockSequence (λ set. set) cursor.old cursor.new result) }
        ensures exact { Lenient cursor.old
            (TakesSaidOrMemory (IsRunsOfBlocks as_bounds) cursor.old cursor.new result
            as_blocks_at) }
        // The encoding of a set, in one SEQUENCE, is read as that set, with any octets after it.
        ensures reads_back { (set : Runs) (rest : List ℕ) → IsAsSet set
            → left cursor.old ≡ as_sequence_octets set ++ rest
            → MatchResult result (λ read. (read ≡ set) × (left cursor.new ≡ rest)) IsMemory }
        // A strict cursor takes exactly the encodings of sets.
        ensures strict { Strict cursor.old
            (ReadsOrMemory (Spells IsAsSet as_sequence_octets) (λ set. set) cursor.old cursor.new
            result) }
        ensures refused { NotCanonicalOrMemory IsAsBlockSequence cursor.old result }
        // In either mode.
        ensures by_mode { TakesSaidOrMemory (IsRunsOfBlocks as_bounds) cursor.old cursor.new result
            (as_blocks_by (is_strict cursor.old)) }
        ensures mode { is_strict cursor.new ≡ is_strict cursor.old }
    {
        Self::take_from_by_mode(alloc, cursor)
    }

    /// Appends the blocks of the set to `out`, ascending, without an enclosing SEQUENCE.
    ///
    /// The blocks are the runs of the set. A run of one number is an AS number, any other is the SEQUENCE of its
    /// bounds. The call succeeds if the capacity of `out` suffices.
    ///
    /// # Errors
    ///
    /// [`AllocError`]: out of memory for all blocks. The octets in `out` are unchanged then.
    #[tactic(auto, using(crate::proofs::AsSetDerLemmas::blocks_octets))]
    pub fn encode<B: Allocator>(&self, out: &mut Vec<u8, B>) -> Result<(), AllocError>
        ensures ok { OnOk result (out.new.items ≡ out.old.items ++ as_set_octets self.now) }
        ensures err { OnErr result (out.new.items ≡ out.old.items) }
        ensures succeeds { vec_len out.old + length (as_set_octets self.now) ≤ vec_capacity out.old
            → IsOk result }
        ensures capacity { vec_capacity out.old ≤ vec_capacity out.new }
        ensures set { IsAsSet self.now }
    {
        encode_all(self.iter().as_slice(), out)
    }

    // Reads the set for `take_from`.
    fn take_from_by_mode(
        alloc: A,
        cursor: &mut Cursor<'_>,
    ) -> Result<AsBlocks<A>, OrMemory<DerError>>
    where
        A: Copy,
        ensures by_mode { TakesSaidOrMemory (IsRunsOfBlocks as_bounds) cursor.old cursor.new result
            (as_blocks_by (is_strict cursor.old)) }
        ensures mode { is_strict cursor.new ≡ is_strict cursor.old }
    {
        let mut ahead = *cursor;
        let blocks = take_sequence_of(alloc, &AsBlockReader, &mut ahead)?;
        let set = if cursor.is_strict() {
            AsBlocks::from_vec_unchecked(alloc, blocks)?
        } else {
            AsBlocks::from_vec(alloc, blocks)?
        };
        *cursor = ahead;
        Ok(set)
    }
}
