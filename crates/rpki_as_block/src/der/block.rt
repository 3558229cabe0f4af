//! Blocks of AS numbers in DER: an INTEGER, or a SEQUENCE of two (RFC 3779, 3.2.3.5 and 3.2.3.8).
ghost use Rattle.std.specs.Prelude.{◌≡◌, ◌≤◌, length};
ghost use Rattle.rpki_block.specs.Beyond.{is_beyond};
ghost use Rattle.rpki_der.specs.Reading.{Gives};
ghost use Rattle.rpki_der.specs.Views.{is_strict, left, tlv};
ghost use Rattle.rpki_as_block.specs.AsDer.{as_range_content};
ghost use Rattle.rpki_as_block.specs.AsDerReading.{as_range_in, skip_block_of, skip_pair};
ghost use Rattle.rpki_block.specs.Ranges.{range_bounds};

use super::usual::usual_block;
use crate::block::AsBlock;
use crate::range::AsRange;
use rpki_base::asn::Asn;
use rpki_der::sequences::{Encode, ReadNext};
use rpki_der::{Content, Cursor, DerError, append_header, header_len, tag};
use std::alloc::{AllocError, Allocator};

impl AsBlock {
    ghost use Rattle.std.specs.Prelude.{◌≡◌, ℕ, List, Ok, Some, true, ◌≤◌, ◌+◌, ◌++◌, length, vec_len, OnOk, OnErr, IsOk};
    ghost use Rattle.std.specs.Vec.{vec_capacity};
    ghost use Rattle.rpki_block.specs.Bounds.{IsNew};
    ghost use Rattle.rpki_der.specs.Der.{Spells};
    ghost use Rattle.rpki_der.specs.Reading.{optional};
    ghost use Rattle.rpki_der.specs.Views.{Lenient, NotCanonicalOr, ReadsOptional, Strict, Takes, is_strict, left};
    ghost use Rattle.rpki_as_block.specs.AsDer.{HasAsNumbers, IsAsBlock, IsBlockInAnyOrder, IsSetBlock, as_block_octets};
    ghost use Rattle.rpki_as_block.specs.AsDerReading.{as_block_at, as_block_by, skip_block_at};
    ghost use Rattle.rpki_as_block.specs.Blocks.{as_bounds, new_as_block};

    /// Takes the next block. Returns None if and only if no octet is left.
    ///
    /// # Errors
    ///
    /// The cursor is unchanged after an error.
    ///
    /// - a fault of [`Cursor::take_value`], of the block or of a number of a range
    /// - `BadTag`: the block is neither an INTEGER nor a SEQUENCE, or a value in the SEQUENCE is not an INTEGER
    /// - `BadInteger`: an INTEGER is not a number from 0 to 4294967295 in the fewest octets
    /// - `ReversedRange`: the first number of a range is above the second
    /// - `TrailingData`: octets follow the two numbers of a range
    /// - `NotCanonical`, from a strict cursor only: both numbers of a range are the same
    #[tactic(auto, using(crate::proofs::AsBlockDerLemmas::block_back, crate::proofs::AsBlockDerLemmas::set_block_reading, rpki_der::proofs::SequenceCursors::reads_optional_value_by))]
    pub fn take_opt_from(cursor: &mut Cursor<'_>) -> Result<Option<AsBlock>, DerError>
        ensures reads { Lenient cursor.old
            (ReadsOptional IsAsBlock (λ block. block) cursor.old cursor.new result) }
        ensures exact { Lenient cursor.old
            (Takes (λ block. block) cursor.old cursor.new result (optional as_block_at)) }
        // The encoding of a block is read as that block, with any octets after it. For a strict cursor this holds for a
        // block in the form of `new`.
        ensures reads_back { (block : AsBlock) (rest : List ℕ) → HasAsNumbers block
            → (is_strict cursor.old ≡ true → IsNew as_bounds new_as_block block)
            → left cursor.old ≡ as_block_octets block ++ rest
            → (result ≡ Ok (Some block)) × (left cursor.new ≡ rest) }
        // A strict cursor takes exactly the encodings of the blocks that sets have.
        ensures strict { Strict cursor.old
            (ReadsOptional (Spells IsSetBlock as_block_octets) (λ block. block) cursor.old
            cursor.new result) }
        ensures refused { NotCanonicalOr IsAsBlock cursor.old result }
        // In either mode.
        ensures by_mode { Takes (λ block. block) cursor.old cursor.new result
            (optional (as_block_by (is_strict cursor.old))) }
        ensures mode { is_strict cursor.new ≡ is_strict cursor.old }
    {
        AsBlock::take_opt_from_by_mode(cursor)
    }

    /// Skips the next block. Returns None if and only if no octet is left.
    ///
    /// # Errors
    ///
    /// The errors of `take_opt_from` for a lenient cursor, except `ReversedRange`: the numbers of a range may be in any
    /// order. The cursor is unchanged after an error.
    #[tactic(auto, using(crate::specs::AsDerLaws::skip_reading, rpki_der::proofs::SequenceCursors::reads_optional_value_by))]
    pub fn skip_opt_in(cursor: &mut Cursor<'_>) -> Result<Option<()>, DerError>
        ensures reads { ReadsOptional IsBlockInAnyOrder (λ u. u) cursor.old cursor.new result }
        ensures exact { Takes (λ u. u) cursor.old cursor.new result (optional skip_block_at) }
        ensures mode { is_strict cursor.new ≡ is_strict cursor.old }
    {
        AsBlock::skip_opt_in_exact(cursor)
    }

    /// Returns the number of octets that `encode` appends: at most 16.
    #[tactic(auto, using(crate::proofs::AsBlockDerLemmas::header_lengths))]
    pub fn encoded_len(&self) -> usize
        ensures len { result ≡ length (as_block_octets self.now) }
        ensures short { result ≤ 16 }
    {
        match self {
            AsBlock::Id(asn) => asn.encoded_len(),
            AsBlock::Range(range) => {
                let content_len = range_content_len(range);
                header_len(tag::SEQUENCE, content_len) + content_len
            }
        }
    }

    /// Appends the block to `out`: an Id as an INTEGER, and a Range as a SEQUENCE of its two numbers.
    ///
    /// The encoding is that of RFC 3779, 3.2.3.5. The call succeeds if the capacity of `out` suffices.
    ///
    /// # Errors
    ///
    /// [`AllocError`]: out of memory. The octets in `out` are unchanged then.
    #[tactic(auto, using(crate::proofs::AsBlockDerLemmas::read_again))]
    pub fn encode<A: Allocator>(&self, out: &mut Vec<u8, A>) -> Result<(), AllocError>
        ensures ok { OnOk result (out.new.items ≡ out.old.items ++ as_block_octets self.now) }
        ensures err { OnErr result (out.new.items ≡ out.old.items) }
        ensures succeeds { vec_len out.old + length (as_block_octets self.now)
            ≤ vec_capacity out.old → IsOk result }
        ensures capacity { vec_capacity out.old ≤ vec_capacity out.new }
        ensures numbers { HasAsNumbers self.now }
        // The encoding is read back, with any octets after it.
        ensures read_back { (rest : List ℕ)
            → as_block_at (as_block_octets self.now ++ rest) ≡ Ok (self.now, rest) }
    {
        AsBlock::max(self).recall_invariant();
        self.put(out)
    }
}

// The private readers and writers of these calls.
impl AsBlock {
    ghost use Rattle.std.specs.Prelude.{◌≡◌, ◌≤◌, ◌+◌, ◌++◌, length, vec_len, OnOk, OnErr, IsOk};
    ghost use Rattle.std.specs.Vec.{vec_capacity};
    ghost use Rattle.rpki_as_block.specs.AsDer.{as_block_octets};
    ghost use Rattle.rpki_block.specs.Beyond.{is_beyond};
    ghost use Rattle.rpki_as_block.specs.Blocks.{as_bounds};
    ghost use Rattle.rpki_der.specs.Reading.{Gives, optional};
    ghost use Rattle.rpki_der.specs.Views.{Takes, is_strict, tlv};
    ghost use Rattle.rpki_as_block.specs.AsDerReading.{as_block_at, as_block_by, is_new_form, next_block_by, skip_block_at, skip_block_of};

    fn put<A: Allocator>(&self, out: &mut Vec<u8, A>) -> Result<(), AllocError>
        ensures ok { OnOk result (out.new.items ≡ out.old.items ++ as_block_octets self.now) }
        ensures err { OnErr result (out.new.items ≡ out.old.items) }
        ensures succeeds { vec_len out.old + length (as_block_octets self.now)
            ≤ vec_capacity out.old → IsOk result }
        ensures capacity { vec_capacity out.old ≤ vec_capacity out.new }
    {
        out.reserve(AsBlock::encoded_len(self))?;
        self.append_to(out);
        Ok(())
    }

    fn append_to<A: Allocator>(&self, out: &mut Vec<u8, A>)
        requires fits { vec_len out.old + length (as_block_octets self.now) ≤ vec_capacity out.old }
        ensures items { out.new.items ≡ out.old.items ++ as_block_octets self.now }
        ensures capacity { vec_capacity out.old ≤ vec_capacity out.new }
    {
        match self {
            AsBlock::Id(asn) => asn.append(out),
            AsBlock::Range(range) => {
                append_header(out, tag::SEQUENCE, range_content_len(range));
                AsRange::min(*range).append(out);
                AsRange::max(*range).append(out);
            }
        }
    }

    #[tactic(auto, unfolding(rpki_der::specs::Reading::optional, rpki_der::specs::Reading::refined, rpki_der::specs::Reading::passing))]
    fn take_opt_from_by_mode(cursor: &mut Cursor<'_>) -> Result<Option<AsBlock>, DerError>
        ensures by_mode { Takes (λ block. block) cursor.old cursor.new result
            (optional (as_block_by (is_strict cursor.old))) }
        ensures mode { is_strict cursor.new ≡ is_strict cursor.old }
    {
        let mut ahead = *cursor;
        let Some(block) = AsBlock::take_opt_in_any_form(&mut ahead)? else {
            return Ok(None);
        };
        if cursor.is_strict() && !block.is_new_form() {
            return Err(DerError::NotCanonical);
        }
        *cursor = ahead;
        Ok(Some(block))
    }

    // Takes a block as from a lenient cursor. `usual_block` reads most blocks in one pass.
    #[tactic(auto, using(crate::proofs::AsBlockDerLemmas::block_found))]
    fn take_opt_in_any_form(cursor: &mut Cursor<'_>) -> Result<Option<AsBlock>, DerError>
        ensures exact { Takes (λ block. block) cursor.old cursor.new result (optional as_block_at) }
        ensures mode { is_strict cursor.new ≡ is_strict cursor.old }
    {
        let Some((block, rest)) = usual_block(cursor.rest()) else {
            return AsBlock::take_opt_of_values(cursor);
        };
        *cursor = cursor_at(rest, cursor.is_strict());
        Ok(Some(block))
    }

    // Takes a block of any form, value by value.
    #[tactic(auto, unfolding(rpki_der::specs::Reading::optional, rpki_der::specs::Reading::refined, rpki_der::specs::SequenceReading::by_tag))]
    fn take_opt_of_values(cursor: &mut Cursor<'_>) -> Result<Option<AsBlock>, DerError>
        ensures exact { Takes (λ block. block) cursor.old cursor.new result (optional as_block_at) }
        ensures mode { is_strict cursor.new ≡ is_strict cursor.old }
    {
        let mut ahead = *cursor;
        let Some(value) = ahead.take_opt_value()? else {
            return Ok(None);
        };
        let block = match value.tag() {
            tag::INTEGER => AsBlock::Id(Asn::parse_content(&value)?),
            tag::SEQUENCE => AsBlock::Range(range_within(value.cursor())?),
            _ => return Err(DerError::BadTag),
        };
        *cursor = ahead;
        Ok(Some(block))
    }

    #[tactic(auto, unfolding(rpki_der::specs::Reading::optional, rpki_der::specs::Reading::refined, rpki_der::specs::Reading::passing))]
    fn next_opt_after(
        before: Option<Asn>,
        cursor: &mut Cursor<'_>,
    ) -> Result<Option<AsBlock>, DerError>
        ensures by_mode { Takes (λ block. block) cursor.old cursor.new result
            (optional (next_block_by (is_strict cursor.old) before)) }
        ensures mode { is_strict cursor.new ≡ is_strict cursor.old }
    {
        let mut ahead = *cursor;
        let Some(block) = AsBlock::take_opt_from_by_mode(&mut ahead)? else {
            return Ok(None);
        };
        if cursor.is_strict() && !block.is_beyond(before) {
            return Err(DerError::NotCanonical);
        }
        *cursor = ahead;
        Ok(Some(block))
    }

    // Returns whether the block is in the form that `new` gives.
    fn is_new_form(&self) -> bool
        ensures { result ≡ is_new_form self.now }
    {
        match self {
            AsBlock::Id(_) => true,
            AsBlock::Range(range) => AsRange::min(*range) != AsRange::max(*range),
        }
    }

    // Returns whether the block begins more than one above the number.
    fn is_beyond(&self, before: Option<Asn>) -> bool
        ensures { result ≡ is_beyond before (as_bounds self.now).0 }
    {
        match before {
            None => true,
            Some(greatest) => {
                greatest.into_u32() as u64 + 1 < AsBlock::min(self).into_u32() as u64
            }
        }
    }

    #[tactic(auto, unfolding(rpki_der::specs::Reading::optional, rpki_der::specs::Reading::refined))]
    fn skip_opt_in_exact(cursor: &mut Cursor<'_>) -> Result<Option<()>, DerError>
        ensures exact { Takes (λ u. u) cursor.old cursor.new result (optional skip_block_at) }
        ensures mode { is_strict cursor.new ≡ is_strict cursor.old }
    {
        let mut ahead = *cursor;
        let Some(value) = ahead.take_opt_value()? else {
            return Ok(None);
        };
        AsBlock::pass_over_value(&value)?;
        *cursor = ahead;
        Ok(Some(()))
    }

    #[tactic(auto, unfolding(rpki_der::specs::SequenceReading::by_tag))]
    fn pass_over_value(value: &Content<'_>) -> Result<(), DerError>
        ensures exact { Gives (λ u. u) result (skip_block_of (tlv value.now)) }
    {
        match value.tag() {
            tag::INTEGER => Asn::skip_content(value),
            tag::SEQUENCE => skip_pair_within(value.cursor()),
            _ => Err(DerError::BadTag),
        }
    }
}

/// Returns a cursor of the given mode, strict (true) or lenient (false), at the start of `octets`.
#[inline(always)]
fn cursor_at(octets: &[u8], strict: bool) -> Cursor<'_>
    ensures octets { left result ≡ octets.now }
    ensures mode { is_strict result ≡ strict }
{
    if strict {
        Cursor::new_strict(octets)
    } else {
        Cursor::new(octets)
    }
}

/// Returns the range in the content of a SEQUENCE.
#[tactic(auto, unfolding(rpki_der::specs::SequenceReading::pair_in, crate::specs::AsDerReading::range_of), using(std::proofs::lemmas::Bool::Decides::nat_tests, std::proofs::lemmas::Grind::common_steps, std::proofs::lemmas::Result::err_from_is_err_and))]
fn range_within(content: Cursor<'_>) -> Result<AsRange, DerError>
    ensures exact { Gives (λ range. range) result (as_range_in (left content.entry)) }
{
    let mut inside = content;
    let min = Asn::take_from(&mut inside)?;
    let max = Asn::take_from(&mut inside)?;
    if min > max {
        return Err(DerError::ReversedRange);
    }
    inside.finish()?;
    Ok(AsRange::new(min, max))
}

/// Skips two AS numbers in the content of a SEQUENCE.
#[tactic(auto, unfolding(rpki_der::specs::SequenceReading::pair_in))]
fn skip_pair_within(content: Cursor<'_>) -> Result<(), DerError>
    ensures exact { Gives (λ u. u) result (skip_pair (left content.entry)) }
{
    let mut inside = content;
    Asn::take_from(&mut inside)?;
    Asn::take_from(&mut inside)?;
    inside.finish()
}

/// Returns the number of octets in the content of a range.
fn range_content_len(range: &AsRange) -> usize
    ensures len { result ≡ length (as_range_content (range_bounds range.now)) }
    ensures short { result ≤ 14 }
{
    AsRange::min(*range).encoded_len() + AsRange::max(*range).encoded_len()
}

/// A reader of consecutive blocks.
///
/// From a strict cursor, it takes a block only if it begins more than one above the greatest number of the block before
/// it (RFC 3779, 3.2.3.4).
#[derive(Clone, Copy, Debug)]
pub struct AsBlockReader;

impl ReadNext for AsBlockReader {
    ghost use Rattle.std.specs.Prelude.{Some, None};
    ghost use Rattle.rpki_as_block.specs.AsDer.{IsAsBlock};
    ghost use Rattle.rpki_as_block.specs.AsDerLaws.{as_block_has_octets, as_block_reading};
    ghost use Rattle.rpki_as_block.specs.AsDerModes.{IsNextBlock};
    ghost use Rattle.rpki_as_block.specs.AsDerModeLaws.{next_block_modal};
    ghost use Rattle.rpki_as_block.specs.AsDerReading.{as_block_at, next_block_by};
    ghost use Rattle.rpki_as_block.specs.Blocks.{as_bounds};

    type Value = AsBlock;

    // The greatest number of the block before.
    type State = Option<Asn>;

    ghost first = { λ _. None };

    ghost after = { λ _ before block. Some (as_bounds block).1 };

    ghost grammar = { λ _ _. IsAsBlock };

    ghost reading = { λ _ _. as_block_at };

    ghost strict_grammar = { λ _ before. IsNextBlock before };

    ghost reading_by = { λ _ strict before. next_block_by strict before };

    ghost is_reading = { λ _ _. as_block_reading };

    ghost has_octets = { λ _ _. as_block_has_octets };

    ghost is_modal = { λ _ before. next_block_modal before };

    fn first_state(&self) -> Option<Asn> {
        None
    }

    fn state_after(&self, _before: Option<Asn>, block: &AsBlock) -> Option<Asn> {
        Some(AsBlock::max(block))
    }

    fn take_next(
        &self,
        before: Option<Asn>,
        cursor: &mut Cursor<'_>,
    ) -> Result<Option<AsBlock>, DerError> {
        AsBlock::next_opt_after(before, cursor)
    }
}

impl Encode for AsBlock {
    ghost use Rattle.rpki_as_block.specs.AsDer.{as_block_octets};

    ghost octets = { as_block_octets };

    fn encoded_len(&self) -> usize {
        AsBlock::encoded_len(self)
    }

    fn append<A: Allocator>(&self, out: &mut Vec<u8, A>) {
        self.append_to(out)
    }
}
