//! AS resources in DER: a SEQUENCE with one tagged value, a NULL or a SEQUENCE of blocks (RFC 3779, 3.2.3.1 to 3.2.3.4;
//! RFC 6487, 4.8.11).

use crate::resources::AsResources;
use rpki_as_block::der::AsBlockReader;
use rpki_base::memory::OrMemory;
use rpki_chain::der::{append_choice, choice_len, content_len, take_listed};
use rpki_der::{Cursor, DerError, append_header, header_len, tag};
use std::alloc::{AllocError, Allocator};

impl<A: Allocator> AsResources<A> {
    ghost use Rattle.std.specs.Prelude.{◌≡◌, ◌≢◌, ℕ, List, ◌≤◌, ◌+◌, ◌++◌, length, vec_len, OnOk, OnErr, IsOk, MatchResult};
    ghost use Rattle.std.specs.Vec.{vec_capacity};
    ghost use Rattle.rpki_chain.specs.Choices.{ListsBy};
    ghost use Rattle.rpki_chain.specs.Claims.{Claim, IsClaim};
    ghost use Rattle.rpki_chain.specs.Runs.{IsRunsOfBlocks};
    ghost use Rattle.rpki_chain.specs.declared.choice.ResourcesChoice.TheVariants.{Missing};
    ghost use Rattle.rpki_der.specs.Der.{Spells};
    ghost use Rattle.rpki_der.specs.Views.{Lenient, Strict, is_strict, left};
    ghost use Rattle.rpki_der.specs.SequenceViews.{NotCanonicalOrMemory, ReadsOrMemory, TakesSaidOrMemory};
    ghost use Rattle.rpki_text.specs.Memory.{IsMemory};
    ghost use Rattle.rpki_as.specs.AsDer.{IsAsResources, IsPresentAsClaim, as_resources_octets};
    ghost use Rattle.rpki_as.specs.AsDerReading.{as_choice_at, as_choice_by};
    ghost use Rattle.rpki_as.specs.Blocks.{IsAsSet};
    ghost use Rattle.rpki_as_block.specs.Blocks.{as_bounds};

    /// Takes AS resources, which are inherited or listed. From a lenient cursor, the blocks may be in any order and may
    /// overlap.
    ///
    /// # Errors
    ///
    /// The cursor is unchanged after an error. `Memory` means that an allocation failed. `Refused` has the first fault:
    ///
    /// - a fault of the SEQUENCE or of the tagged value in it, as in [`Cursor::take_sequence`]
    /// - `BadTag`: the content of the tagged value is neither a NULL nor a SEQUENCE
    /// - `BadNull`: the NULL has content
    /// - a fault of a block, as in [`AsBlock::take_opt_from`](crate::block::AsBlock::take_opt_from)
    /// - `EmptyBlocks`: the SEQUENCE of blocks is empty
    /// - `NotCanonical`, from a strict cursor only, as in [`AsBlocks::take_from`](crate::blocks::AsBlocks::take_from)
    /// - `TrailingData`, after those above: octets are left in one of the two enclosing values
    pub fn take_from(
        alloc: A,
        cursor: &mut Cursor<'_>,
    ) -> Result<AsResources<A>, OrMemory<DerError>>
    where
        A: Copy,
        ensures reads { Lenient cursor.old
            (ReadsOrMemory IsAsResources (λ claim. claim) cursor.old cursor.new result) }
        ensures exact { Lenient cursor.old
            (TakesSaidOrMemory (ListsBy (IsRunsOfBlocks as_bounds)) cursor.old cursor.new result
            as_choice_at) }
        // The encoding of resources is read as these resources, with any octets after it.
        ensures reads_back { (claim : Claim) (rest : List ℕ) → IsClaim IsAsSet claim
            → claim ≢ Missing → left cursor.old ≡ as_resources_octets claim ++ rest
            → MatchResult result (λ read. (read ≡ claim) × (left cursor.new ≡ rest)) IsMemory }
        // A strict cursor takes exactly the encodings of resources.
        ensures strict { Strict cursor.old
            (ReadsOrMemory (Spells IsPresentAsClaim as_resources_octets) (λ claim. claim) cursor.old
            cursor.new result) }
        ensures refused { NotCanonicalOrMemory IsAsResources cursor.old result }
        // In either mode.
        ensures by_mode { TakesSaidOrMemory (ListsBy (IsRunsOfBlocks as_bounds)) cursor.old
            cursor.new result (as_choice_by (is_strict cursor.old)) }
        ensures mode { is_strict cursor.new ≡ is_strict cursor.old }
    {
        Self::take_from_by_mode(alloc, cursor)
    }

    /// Appends the encoding of the resources to `out`: a SEQUENCE with one value of tag `[0]` (RFC 3779, 3.2.3.1).
    ///
    /// Inherited resources are a NULL. Listed ones are the SEQUENCE of their runs, ascending. A run of one number is an
    /// AS number, any other is the SEQUENCE of its bounds. The call succeeds if the capacity of `out` suffices.
    ///
    /// # Preconditions
    ///
    /// The resources aren't missing.
    ///
    /// # Errors
    ///
    /// [`AllocError`]: out of memory for the whole encoding. The octets in `out` are unchanged then.
    pub fn encode<B: Allocator>(&self, out: &mut Vec<u8, B>) -> Result<(), AllocError>
        requires { self.now ≢ Missing }
        ensures ok { OnOk result (out.new.items ≡ out.old.items ++ as_resources_octets self.now) }
        ensures err { OnErr result (out.new.items ≡ out.old.items) }
        ensures succeeds { vec_len out.old + length (as_resources_octets self.now)
            ≤ vec_capacity out.old → IsOk result }
        ensures capacity { vec_capacity out.old ≤ vec_capacity out.new }
        ensures claim { IsClaim IsAsSet self.now }
    {
        let choice = self.as_choice();
        let Some(content_len) = content_len(&choice) else {
            return Err(AllocError);
        };
        let choice_len = choice_len(&choice, content_len);
        let tagged_len = header_len(tag::CONTEXT_0, choice_len) + choice_len;
        out.reserve(header_len(tag::SEQUENCE, tagged_len) + tagged_len)?;
        append_header(out, tag::SEQUENCE, tagged_len);
        append_header(out, tag::CONTEXT_0, choice_len);
        append_choice(&choice, content_len, out);
        Ok(())
    }

    // Reads the resources for `take_from`.
    #[tactic(auto, unfolding(rpki_der::specs::Reading::refined, rpki_der::specs::SequenceReading::only))]
    fn take_from_by_mode(
        alloc: A,
        cursor: &mut Cursor<'_>,
    ) -> Result<AsResources<A>, OrMemory<DerError>>
    where
        A: Copy,
        ensures by_mode { TakesSaidOrMemory (ListsBy (IsRunsOfBlocks as_bounds)) cursor.old
            cursor.new result (as_choice_by (is_strict cursor.old)) }
        ensures mode { is_strict cursor.new ≡ is_strict cursor.old }
    {
        let mut ahead = *cursor;
        let mut inside = ahead.take_sequence()?;
        let value = inside.take_tagged(tag::CONTEXT_0)?;
        let mut tagged = value.cursor();
        let listed = take_listed(alloc, &AsBlockReader, &mut tagged)?;
        let resources = AsResources::from_listed(alloc, listed, cursor.is_strict())?;
        tagged.finish()?;
        inside.finish()?;
        *cursor = ahead;
        Ok(resources)
    }
}
