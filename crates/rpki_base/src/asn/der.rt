//! AS numbers in DER: an INTEGER (RFC 3779, 3.2.3.10, ASId).
use crate::asn::Asn;
use rpki_der::{Content, Cursor, DerError, append_u32, put_u32, tag, u32_len};
use std::alloc::{AllocError, Allocator};

impl Asn {
    ghost use Rattle.std.specs.Prelude.{◌≡◌, ℕ, List, Ok, ◌<◌, ◌≤◌, ◌+◌, ◌^◌, ◌++◌, length, vec_len, OnOk, OnErr, IsOk};
    ghost use Rattle.std.specs.Vec.{vec_capacity};
    ghost use Rattle.rpki_der.specs.Der.{IsUnsigned};
    ghost use Rattle.rpki_der.specs.Reading.{Gives, unsigned};
    ghost use Rattle.rpki_der.specs.Views.{Parses, ReadsValue, Takes, content_octets, is_strict, left};
    ghost use Rattle.rpki_base.specs.AsnDer.{IsAsNumber, SaysAsNumber, as_number_at, as_number_octets, skip_number};
    ghost use Rattle.rpki_der.specs.SequenceReading.{Skips, if_tagged, skipping};
    ghost use Rattle.rpki_der.specs.SequenceViews.{ReadsTagged};

    /// Takes an AS number: an INTEGER from 0 to 4294967295.
    ///
    /// # Errors
    ///
    /// The errors of [`Cursor::take_u32`]. The cursor is unchanged after an error.
    #[tactic(auto, using(rpki_der::proofs::ValueReadings::u32_reading, rpki_der::proofs::WrittenValues::u32_is))]
    #[inline]
    pub fn take_from(cursor: &mut Cursor<'_>) -> Result<Asn, DerError>
        ensures reads { ReadsValue IsAsNumber (λ n. n) cursor.old cursor.new result }
        ensures exact { Takes (λ n. n) cursor.old cursor.new result as_number_at }
        // The encoding of an AS number is read as that number, with any octets after it.
        ensures reads_back { (n : ℕ) (rest : List ℕ) → n < 2 ^ 32
            → left cursor.old ≡ as_number_octets n ++ rest
            → (result ≡ Ok n) × (left cursor.new ≡ rest) }
        ensures mode { is_strict cursor.new ≡ is_strict cursor.old }
    {
        Asn::take_from_exact(cursor)
    }

    /// Takes an AS number as `take_from` does, if the next octet is the tag of an INTEGER.
    ///
    /// Returns None, and takes nothing, if the next octet is another one or no octet is left.
    ///
    /// # Errors
    ///
    /// The errors of `take_from`. The cursor is unchanged after an error.
    #[tactic(auto, using(rpki_der::proofs::SequenceCursors::reads_tagged_by, rpki_der::proofs::ValueReadings::u32_reading))]
    pub fn take_opt_from(cursor: &mut Cursor<'_>) -> Result<Option<Asn>, DerError>
        ensures reads { ReadsTagged 2 IsAsNumber cursor.old cursor.new result }
        ensures exact { Takes (λ n. n) cursor.old cursor.new result (if_tagged 2 as_number_at) }
        ensures mode { is_strict cursor.new ≡ is_strict cursor.old }
    {
        Asn::take_opt_from_exact(cursor)
    }

    /// Skips an AS number.
    ///
    /// # Errors
    ///
    /// The errors of `take_from`. The cursor is unchanged after an error.
    #[tactic(auto, using(rpki_der::proofs::CursorReadings::reads_by, rpki_der::proofs::SequenceReadings::number_skipped))]
    pub fn skip_in(cursor: &mut Cursor<'_>) -> Result<(), DerError>
        ensures reads { ReadsValue (Skips IsAsNumber) (λ u. u) cursor.old cursor.new result }
        ensures exact { Takes (λ u. u) cursor.old cursor.new result (skipping as_number_at) }
        ensures mode { is_strict cursor.new ≡ is_strict cursor.old }
    {
        Asn::skip_in_exact(cursor)
    }

    /// Reads `content` as an AS number. The tag is not checked.
    ///
    /// # Errors
    ///
    /// [`DerError::BadInteger`]: the content is not an INTEGER from 0 to 4294967295 in the fewest octets.
    pub fn parse_content(content: &Content<'_>) -> Result<Asn, DerError>
        ensures reads { Parses IsUnsigned (λ n. n) (content_octets content.now) result }
        ensures exact { Gives (λ n. n) result (unsigned (content_octets content.now)) }
    {
        let number = content.to_u32()?;
        Ok(Asn(number))
    }

    /// Checks that `content` is that of an AS number. The tag is not checked.
    ///
    /// # Errors
    ///
    /// [`DerError::BadInteger`]: the content is not an INTEGER from 0 to 4294967295 in the fewest octets.
    pub fn skip_content(content: &Content<'_>) -> Result<(), DerError>
        ensures reads { Parses SaysAsNumber (λ u. u) (content_octets content.now) result }
        ensures exact { Gives (λ u. u) result (skip_number (content_octets content.now)) }
    {
        content.to_u32()?;
        Ok(())
    }

    /// Returns the number of octets that `encode` appends: at most 7.
    pub fn encoded_len(&self) -> usize
        ensures len { result ≡ length (as_number_octets self.now) }
        ensures short { result ≤ 7 }
    {
        u32_len(self.0)
    }

    /// Appends the AS number to `out`. The call succeeds if the capacity of `out` suffices.
    ///
    /// # Errors
    ///
    /// `AllocError`: out of memory. The octets in `out` are unchanged.
    #[tactic(auto, using(rpki_der::proofs::ValueReadings::u32_reading, rpki_der::proofs::WrittenValues::u32_is))]
    pub fn encode<A: Allocator>(&self, out: &mut Vec<u8, A>) -> Result<(), AllocError>
        ensures ok { OnOk result (out.new.items ≡ out.old.items ++ as_number_octets self.now) }
        ensures err { OnErr result (out.new.items ≡ out.old.items) }
        ensures succeeds { vec_len out.old + length (as_number_octets self.now)
            ≤ vec_capacity out.old → IsOk result }
        ensures capacity { vec_capacity out.old ≤ vec_capacity out.new }
        // The encoding is read back, with any octets after it.
        ensures read_back { (rest : List ℕ)
            → as_number_at (as_number_octets self.now ++ rest) ≡ Ok (self.now, rest) }
    {
        let number = self.0;
        put_u32(out, number)
    }

    /// Appends the octets of `encode` to `out`, without allocation.
    ///
    /// # Preconditions
    ///
    /// The capacity of `out` suffices for these octets.
    pub fn append<A: Allocator>(&self, out: &mut Vec<u8, A>)
        requires fits { vec_len out.old + length (as_number_octets self.now)
            ≤ vec_capacity out.old }
        ensures items { out.new.items ≡ out.old.items ++ as_number_octets self.now }
        ensures capacity { vec_capacity out.old ≤ vec_capacity out.new }
    {
        append_u32(out, self.0)
    }
}

// The implementations of the calls above. Each has the clause `exact`. The further clauses of the call, `reads` and
// `reads_back`, follow from `exact` by theorems on the grammar.
impl Asn {
    ghost use Rattle.std.specs.Prelude.{◌≡◌};
    ghost use Rattle.rpki_der.specs.Views.{Takes, is_strict};
    ghost use Rattle.rpki_base.specs.AsnDer.{as_number_at};
    ghost use Rattle.rpki_der.specs.SequenceReading.{if_tagged, skipping};

    #[inline]
    fn take_from_exact(cursor: &mut Cursor<'_>) -> Result<Asn, DerError>
        ensures exact { Takes (λ n. n) cursor.old cursor.new result as_number_at }
        ensures mode { is_strict cursor.new ≡ is_strict cursor.old }
    {
        let number = cursor.take_u32()?;
        Ok(Asn(number))
    }

    #[tactic(auto, unfolding(rpki_der::specs::SequenceReading::if_tagged))]
    fn take_opt_from_exact(cursor: &mut Cursor<'_>) -> Result<Option<Asn>, DerError>
        ensures exact { Takes (λ n. n) cursor.old cursor.new result (if_tagged 2 as_number_at) }
        ensures mode { is_strict cursor.new ≡ is_strict cursor.old }
    {
        if cursor.peek_tag() != Some(tag::INTEGER) {
            return Ok(None);
        }
        Ok(Some(Asn::take_from(cursor)?))
    }

    #[tactic(auto, unfolding(rpki_der::specs::Reading::refined))]
    fn skip_in_exact(cursor: &mut Cursor<'_>) -> Result<(), DerError>
        ensures exact { Takes (λ u. u) cursor.old cursor.new result (skipping as_number_at) }
        ensures mode { is_strict cursor.new ≡ is_strict cursor.old }
    {
        Asn::take_from(cursor)?;
        Ok(())
    }
}
