//! Blocks of addresses in DER: a prefix, or a SEQUENCE of two prefixes (RFC 3779, 2.2.3.7).
ghost use Rattle.std.specs.Prelude.{◌≡◌, IfOk};
ghost use Rattle.rpki_der.specs.Reading.{Gives};
ghost use Rattle.rpki_der.specs.Views.{is_strict, left};
ghost use Rattle.rpki_der.specs.Families.{bits_of};
ghost use Rattle.rpki_ip.specs.RangeDer.{span_of};
ghost use Rattle.rpki_ip_block.specs.BlockReading.{is_set_range, range_in_by, span};

pub mod laws;
mod usual;

use crate::block::IpBlock;
use rpki_der::sequences::{Encode, ReadNext};
use rpki_der::{Cursor, DerError, tag};
use rpki_ip::addr::Addr;
use rpki_ip::family::AddressFamily;
use rpki_ip::prefix::Prefix;
use rpki_ip::range::AddressRange;
use std::alloc::{AllocError, Allocator};
use usual::usual_block;

impl IpBlock {
    ghost use Rattle.std.specs.Prelude.{◌≡◌, ℕ, List, Ok, Some, true, ◌≤◌, ◌<◌, ◌+◌, ◌++◌, length, vec_len, OnOk, OnErr, IsOk};
    ghost use Rattle.std.specs.Vec.{vec_capacity};
    ghost use Rattle.rpki_block.specs.Bounds.{IsNew};
    ghost use Rattle.rpki_der.specs.Der.{Spells};
    ghost use Rattle.rpki_der.specs.Reading.{optional};
    ghost use Rattle.rpki_der.specs.Views.{Lenient, NotCanonicalOr, ReadsOptional, Strict, Takes, is_strict, left};
    ghost use Rattle.rpki_der.specs.Families.{bits_of};
    ghost use Rattle.rpki_ip_block.specs.BlockDer.{IsBlockWithin, IsIpBlockDer, IsSetIpBlock, ip_block_der};
    ghost use Rattle.rpki_ip_block.specs.BlockReading.{ip_block_at, ip_block_by};
    ghost use Rattle.rpki_ip_block.specs.Blocks.{ip_bounds, new_ip_block};
    ghost use Rattle.rpki_ip_block.specs.PrintedBlocks.{IsBlock, IsBlockOf};

    /// Reads a block, or returns None if and only if no octets are left.
    ///
    /// A BIT STRING becomes a Prefix, and a SEQUENCE of two prefixes becomes a Range (RFC 3779, 2.2.3.7).
    ///
    /// # Errors
    ///
    /// The cursor is unchanged then. The errors are the faults of [`Cursor::take_opt_value`] and these:
    ///
    /// - `BadTag`: the value is neither a BIT STRING nor a SEQUENCE.
    /// - In a BIT STRING: `BadBitString`, `BadPrefix` and `NotCanonical`, as in [`Prefix::parse_content`].
    /// - In a SEQUENCE: the faults of its two prefixes, as in [`Prefix::take_from`]. Then `ReversedRange` if the least
    ///   address is above the greatest, and then `TrailingData` if octets are left.
    /// - `NotCanonical`, from a strict cursor: the octets aren't the encoding of a block that sets have.
    #[tactic(auto, using(crate::proofs::IpBlockDerWritten::taken_exact, crate::proofs::IpBlockDerWritten::taken_reads, crate::proofs::IpBlockDerWritten::taken_strict, crate::proofs::IpBlockDerWritten::taken_refused))]
    pub fn take_opt_from(cursor: &mut Cursor<'_>) -> Result<Option<IpBlock>, DerError>
        ensures reads { Lenient cursor.old
            (ReadsOptional (IsIpBlockDer 128) (λ block. block) cursor.old cursor.new result) }
        ensures exact { Lenient cursor.old
            (Takes (λ block. block) cursor.old cursor.new result (optional (ip_block_at 128))) }
        // The encoding of a block is read back as that block, with any octets after it. In strict mode this holds for
        // blocks in new form.
        ensures reads_back { (block : IpBlock) (rest : List ℕ) → IsBlock block
            → (is_strict cursor.old ≡ true → IsNew ip_bounds new_ip_block block)
            → left cursor.old ≡ ip_block_der block ++ rest
            → (result ≡ Ok (Some block)) × (left cursor.new ≡ rest) }
        // A strict cursor accepts exactly the encodings of blocks that sets have.
        ensures strict { Strict cursor.old
            (ReadsOptional (Spells (IsSetIpBlock 128) ip_block_der) (λ block. block) cursor.old
            cursor.new result) }
        ensures refused { NotCanonicalOr (IsIpBlockDer 128) cursor.old result }
        // This clause is for both modes.
        ensures by_mode { Takes (λ block. block) cursor.old cursor.new result
            (optional (ip_block_by (is_strict cursor.old) 128)) }
        ensures mode { is_strict cursor.new ≡ is_strict cursor.old }
    {
        Self::take_opt_from_with_family_by_mode(cursor, AddressFamily::Ipv6)
    }

    /// Reads a block of `family` as `take_opt_from` does.
    ///
    /// # Errors
    ///
    /// The errors are those of `take_opt_from`. `BadPrefix` is also returned for a prefix that is longer than the
    /// family's addresses, alone and in a SEQUENCE. The cursor is unchanged then.
    #[tactic(auto, using(crate::proofs::IpBlockDerWritten::taken_exact, crate::proofs::IpBlockDerWritten::taken_reads, crate::proofs::IpBlockDerWritten::taken_strict, crate::proofs::IpBlockDerWritten::taken_refused, rpki_ip::proofs::PrefixDerModes::bits_few_enough))]
    pub fn take_opt_from_with_family(
        cursor: &mut Cursor<'_>,
        family: AddressFamily,
    ) -> Result<Option<IpBlock>, DerError>
        ensures reads { Lenient cursor.old
            (ReadsOptional (IsIpBlockDer (bits_of family)) (λ block. block) cursor.old cursor.new
            result) }
        ensures exact { Lenient cursor.old
            (Takes (λ block. block) cursor.old cursor.new result
            (optional (ip_block_at (bits_of family)))) }
        // The encoding of a block is read back as that block, with any octets after it. In strict mode this holds for
        // blocks in new form.
        ensures reads_back { (block : IpBlock) (rest : List ℕ) → IsBlockOf family block
            → (is_strict cursor.old ≡ true → IsNew ip_bounds new_ip_block block)
            → left cursor.old ≡ ip_block_der block ++ rest
            → (result ≡ Ok (Some block)) × (left cursor.new ≡ rest) }
        // A strict cursor accepts exactly the encodings of blocks that sets of the family have.
        ensures strict { Strict cursor.old
            (ReadsOptional (Spells (IsSetIpBlock (bits_of family)) ip_block_der) (λ block. block)
            cursor.old cursor.new result) }
        ensures refused { NotCanonicalOr (IsIpBlockDer (bits_of family)) cursor.old result }
        // This clause is for both modes.
        ensures by_mode { Takes (λ block. block) cursor.old cursor.new result
            (optional (ip_block_by (is_strict cursor.old) (bits_of family))) }
        ensures mode { is_strict cursor.new ≡ is_strict cursor.old }
    {
        Self::take_opt_from_with_family_by_mode(cursor, family)
    }

    /// Returns how many octets `encode` appends: fewer than 64.
    pub fn encoded_len(&self) -> usize
        ensures len { result ≡ length (ip_block_der self.now) }
        ensures short { result < 64 }
    {
        match self {
            IpBlock::Prefix(prefix) => prefix.encoded_len(),
            IpBlock::Range(range) => range.encoded_len(),
        }
    }

    /// Appends the block in its own form: a Prefix as a BIT STRING, a Range as a SEQUENCE (RFC 3779, 2.2.3.7).
    ///
    /// The SEQUENCE has the least address without all the zero bits at its end, and the greatest address without all
    /// the one bits at its end.
    ///
    /// # Errors
    ///
    /// [`AllocError`] if an allocation fails. The octets of `out` are unchanged then.
    #[tactic(auto, using(crate::proofs::IpBlockDerWritten::block_back))]
    pub fn encode<A: Allocator>(&self, out: &mut Vec<u8, A>) -> Result<(), AllocError>
        ensures ok { OnOk result (out.new.items ≡ out.old.items ++ ip_block_der self.now) }
        ensures err { OnErr result (out.new.items ≡ out.old.items) }
        ensures succeeds { vec_len out.old + length (ip_block_der self.now) ≤ vec_capacity out.old
            → IsOk result }
        ensures capacity { vec_capacity out.old ≤ vec_capacity out.new }
        ensures within { IsBlockWithin 128 self.now }
        ensures block { IsBlock self.now }
        // The encoding is read back, with any octets after it, if the bounds need no more bits than the limit.
        ensures read_back { (limit : ℕ) (rest : List ℕ) → limit ≤ 128 → IsBlockWithin limit self.now
            → ip_block_at limit (ip_block_der self.now ++ rest) ≡ Ok (self.now, rest) }
    {
        match self {
            IpBlock::Prefix(prefix) => prefix.encode(out),
            IpBlock::Range(range) => range.encode(out),
        }
    }
}

impl Encode for IpBlock {
    ghost use Rattle.rpki_ip_block.specs.BlockDer.{ip_block_der};

    ghost octets = { ip_block_der };

    fn encoded_len(&self) -> usize {
        IpBlock::encoded_len(self)
    }

    fn append<A: Allocator>(&self, out: &mut Vec<u8, A>) {
        match self {
            IpBlock::Prefix(prefix) => prefix.append(out),
            IpBlock::Range(range) => range.append(out),
        }
    }
}

// Internal steps of the calls above.
impl IpBlock {
    ghost use Rattle.rpki_block.specs.Beyond.{is_beyond};
    ghost use Rattle.rpki_der.specs.Reading.{optional};
    ghost use Rattle.rpki_der.specs.Views.{Takes, is_strict};
    ghost use Rattle.rpki_der.specs.Families.{bits_of};
    ghost use Rattle.rpki_ip_block.specs.BlockReading.{ip_block_by, next_ip_block_by};
    ghost use Rattle.rpki_ip_block.specs.Blocks.{ip_bounds};

    /// Reads a block of a family, for both calls above. `usual_block` reads most blocks from a lenient cursor in one
    /// pass.
    #[tactic(auto, using(crate::proofs::UsualBlocks::lenient_found))]
    fn take_opt_from_with_family_by_mode(
        cursor: &mut Cursor<'_>,
        family: AddressFamily,
    ) -> Result<Option<IpBlock>, DerError>
        ensures by_mode { Takes (λ block. block) cursor.old cursor.new result
            (optional (ip_block_by (is_strict cursor.old) (bits_of family))) }
        ensures mode { is_strict cursor.new ≡ is_strict cursor.old }
    {
        if !cursor.is_strict() {
            if let Some((block, rest)) = usual_block(cursor.rest(), family) {
                *cursor = Cursor::new(rest);
                return Ok(Some(block));
            }
        }
        Self::take_opt_of_values(cursor, family)
    }

    /// Reads a block of any form, value by value.
    #[tactic(auto, unfolding(rpki_der::specs::Reading::optional, rpki_der::specs::Reading::refined, rpki_der::specs::SequenceReading::by_tag))]
    fn take_opt_of_values(
        cursor: &mut Cursor<'_>,
        family: AddressFamily,
    ) -> Result<Option<IpBlock>, DerError>
        ensures by_mode { Takes (λ block. block) cursor.old cursor.new result
            (optional (ip_block_by (is_strict cursor.old) (bits_of family))) }
        ensures mode { is_strict cursor.new ≡ is_strict cursor.old }
    {
        let mut ahead = *cursor;
        let Some(value) = ahead.take_opt_value()? else {
            return Ok(None);
        };
        let block = match value.tag() {
            tag::BIT_STRING => IpBlock::Prefix(Prefix::parse_content_with_family(&value, family)?),
            tag::SEQUENCE => IpBlock::Range(range_within(value.cursor(), family)?),
            _ => return Err(DerError::BadTag),
        };
        *cursor = ahead;
        Ok(Some(block))
    }

    /// Reads the block that follows the address `before`.
    ///
    /// `before` is None for the first block. In strict mode the call returns an error unless the block begins more than
    /// one above `before`. Returns None if no block is left.
    #[tactic(auto, unfolding(rpki_der::specs::Reading::optional, rpki_der::specs::Reading::refined, rpki_der::specs::Reading::passing))]
    fn next_opt_after(
        before: Option<Addr>,
        cursor: &mut Cursor<'_>,
        family: AddressFamily,
    ) -> Result<Option<IpBlock>, DerError>
        ensures by_mode { Takes (λ block. block) cursor.old cursor.new result
            (optional (next_ip_block_by (is_strict cursor.old) (bits_of family) before)) }
        ensures mode { is_strict cursor.new ≡ is_strict cursor.old }
    {
        let mut ahead = *cursor;
        let Some(block) = Self::take_opt_from_with_family_by_mode(&mut ahead, family)? else {
            return Ok(None);
        };
        if cursor.is_strict() && !block.is_beyond(before) {
            return Err(DerError::NotCanonical);
        }
        *cursor = ahead;
        Ok(Some(block))
    }

    // Returns whether the block begins more than one above the address. Without an address the result is true.
    fn is_beyond(&self, before: Option<Addr>) -> bool
        ensures { result ≡ is_beyond before (ip_bounds self.now).0 }
    {
        match before {
            None => true,
            Some(greatest) => {
                let greatest = greatest.to_bits();
                let min = IpBlock::min(self).to_bits();
                greatest < min && min - greatest > 1
            }
        }
    }
}

/// Reads the range in the content of a SEQUENCE.
#[tactic(auto, unfolding(rpki_der::specs::SequenceReading::pair_by, rpki_der::specs::Reading::passing))]
fn range_within(content: Cursor<'_>, family: AddressFamily) -> Result<AddressRange, DerError>
    ensures by_mode { Gives (λ range. range) result
        (range_in_by (is_strict content.entry) (bits_of family) (left content.entry)) }
{
    let mut inside = content;
    let first = Prefix::take_from_with_family(&mut inside, family)?;
    let second = Prefix::take_from_with_family(&mut inside, family)?;
    let range = range_of(&first, &second)?;
    inside.finish()?;
    if content.is_strict() && !is_set_range(&range, &first, &second) {
        return Err(DerError::NotCanonical);
    }
    Ok(range)
}

/// Returns the range from the first prefix to the second.
#[tactic(auto, unfolding(rpki_ip::specs::RangeDer::span_of))]
fn range_of(first: &Prefix, second: &Prefix) -> Result<AddressRange, DerError>
    ensures exact { Gives (λ range. range) result (span_of first.now second.now) }
    ensures span { IfOk result (λ range. range ≡ span first.now second.now) }
{
    if first.min() > second.max() {
        return Err(DerError::ReversedRange);
    }
    Ok(AddressRange::new(first.min(), second.max()))
}

/// Returns whether the encoding of `range` has these prefixes, and no prefix has exactly its addresses.
///
/// # Preconditions
///
/// `range` is the range from the first prefix to the second.
fn is_set_range(range: &AddressRange, first: &Prefix, second: &Prefix) -> bool
    requires { range.now ≡ span first.now second.now }
    ensures { result ≡ is_set_range first.now second.now }
{
    range.is_written_as(first, second)
        && matches!(
            IpBlock::from_pair((AddressRange::min(range), AddressRange::max(range))),
            IpBlock::Range(_)
        )
}

/// A reader of the blocks of a family, one after another.
///
/// From a strict cursor, each block begins more than one above the greatest address of the block before it.
#[derive(Clone, Copy, Debug)]
pub struct IpBlockReader {
    /// The family, which limits the lengths of prefixes.
    pub family: AddressFamily,
}

impl ReadNext for IpBlockReader {
    ghost use Rattle.rpki_der.specs.Families.{bits_of};
    ghost use Rattle.std.specs.Prelude.{Some, None};
    ghost use Rattle.rpki_ip_block.specs.BlockDer.{IsIpBlockDer};
    ghost use Rattle.rpki_ip_block.specs.BlockModes.{IsNextIpBlock};
    ghost use Rattle.rpki_ip_block.specs.BlockModeLaws.{next_ip_block_modal};
    ghost use Rattle.rpki_ip_block.specs.BlockReading.{ip_block_at, next_ip_block_by};
    ghost use Rattle.rpki_ip_block.specs.BlockReadingLaws.{ip_block_has_octets, ip_block_reading};
    ghost use Rattle.rpki_ip_block.specs.Blocks.{ip_bounds};

    type Value = IpBlock;

    // The greatest address of the block before.
    type State = Option<Addr>;

    ghost first = { λ _. None };

    ghost after = { λ _ before block. Some (ip_bounds block).1 };

    ghost grammar = { λ reader _. IsIpBlockDer (bits_of reader.family) };

    ghost reading = { λ reader _. ip_block_at (bits_of reader.family) };

    ghost strict_grammar = { λ reader before. IsNextIpBlock (bits_of reader.family) before };

    ghost reading_by = { λ reader strict before. next_ip_block_by strict (bits_of reader.family) before };

    ghost is_reading = { λ reader _. ip_block_reading (bits_of reader.family) };

    ghost has_octets = { λ reader _. ip_block_has_octets (bits_of reader.family) };

    ghost is_modal = { λ reader before. next_ip_block_modal (bits_of reader.family) before };

    fn first_state(&self) -> Option<Addr> {
        None
    }

    fn state_after(&self, _before: Option<Addr>, block: &IpBlock) -> Option<Addr> {
        Some(IpBlock::max(block))
    }

    fn take_next(
        &self,
        before: Option<Addr>,
        cursor: &mut Cursor<'_>,
    ) -> Result<Option<IpBlock>, DerError> {
        IpBlock::next_opt_after(before, cursor, self.family)
    }
}
