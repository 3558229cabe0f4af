//! Address families in DER.
use crate::cursor::Cursor;
use crate::error::DerError;
use crate::family::{AddressFamily, DecodeFamilyError};
use crate::tag;
use crate::write::{append_octets, octets_len, put_octets};
use std::alloc::{AllocError, Allocator};

impl AddressFamily {
    ghost use Rattle.std.specs.Prelude.{◌≡◌, ℕ, List, Ok, ◌≤◌, ◌+◌, ◌++◌, length, vec_len, OnOk, OnErr, IsOk, MatchResult};
    ghost use Rattle.rpki_der.specs.SequenceReading.{Skips, if_tagged, skipping};
    ghost use Rattle.rpki_der.specs.SequenceViews.{ReadsTagged};
    ghost use Rattle.rpki_der.specs.declared.family.AddressFamily.{AddressFamily as SomeFamily};
    ghost use Rattle.std.specs.Vec.{vec_capacity};
    ghost use Rattle.rpki_der.specs.Views.{ReadsValue, Takes, is_strict, left};
    ghost use Rattle.rpki_der.specs.FamilyDer.{IsFamilyDer, SaysFamily, family_at, family_der, family_octets};

    /// Returns the family that `octets` name (RFC 3779, 2.2.3.3): 0 and 1 name IPv4, 0 and 2 name IPv6.
    ///
    /// # Errors
    ///
    /// [`DecodeFamilyError`]: `octets` are any other octets.
    pub fn from_octets(octets: &[u8]) -> Result<AddressFamily, DecodeFamilyError>
        ensures { MatchResult result (SaysFamily octets.now)
            (λ _. (family : SomeFamily) → ¬ SaysFamily octets.now family) }
    {
        Self::from_octets_exact(octets).map_err(|_| DecodeFamilyError)
    }

    /// Takes the OCTET STRING of a family (RFC 3779, 2.2.3.3; RFC 6487, 4.8.10).
    ///
    /// # Errors
    ///
    /// The cursor is unchanged after an error. The errors are those of [`Cursor::take_value`], and:
    ///
    /// - [`DerError::BadTag`]: the value has another tag.
    /// - [`DerError::BadFamily`]: the content names no family.
    #[tactic(auto, using(crate::proofs::CursorReadings::reads_by, crate::proofs::FamilyDerLemmas::family_reading, crate::proofs::FamilyDerLemmas::family_again))]
    pub fn take_from(cursor: &mut Cursor<'_>) -> Result<AddressFamily, DerError>
        ensures reads { ReadsValue IsFamilyDer (λ f. f) cursor.old cursor.new result }
        ensures exact { Takes (λ f. f) cursor.old cursor.new result family_at }
        // The encoding of a family is read as that family, with any octets after it.
        ensures reads_back { (family : SomeFamily) (rest : List ℕ)
            → left cursor.old ≡ family_der family ++ rest
            → (result ≡ Ok family) × (left cursor.new ≡ rest) }
        ensures mode { is_strict cursor.new ≡ is_strict cursor.old }
    {
        Self::take_from_exact(cursor)
    }

    /// Takes a family as `take_from` does, if the next octet is the tag of an OCTET STRING.
    ///
    /// Returns None, and takes nothing, if the next octet is another one or no octet is left.
    ///
    /// # Errors
    ///
    /// The errors of `take_from`. The cursor is unchanged after an error.
    #[tactic(auto, using(crate::proofs::SequenceCursors::reads_tagged_by, crate::proofs::FamilyDerLemmas::family_reading))]
    pub fn take_opt_from(cursor: &mut Cursor<'_>) -> Result<Option<AddressFamily>, DerError>
        ensures reads { ReadsTagged 4 IsFamilyDer cursor.old cursor.new result }
        ensures exact { Takes (λ f. f) cursor.old cursor.new result (if_tagged 4 family_at) }
        ensures mode { is_strict cursor.new ≡ is_strict cursor.old }
    {
        Self::take_opt_from_exact(cursor)
    }

    /// Skips the family that `take_opt_from` takes.
    ///
    /// Returns None, and skips nothing, if the next octet is not the tag of an OCTET STRING or no octet is left.
    ///
    /// # Errors
    ///
    /// The errors of `take_from`. The cursor is unchanged after an error.
    #[tactic(auto, using(crate::proofs::SequenceCursors::reads_tagged_by, crate::proofs::FamilyDerLemmas::family_skipped))]
    pub fn skip_opt_in(cursor: &mut Cursor<'_>) -> Result<Option<()>, DerError>
        ensures reads { ReadsTagged 4 (Skips IsFamilyDer) cursor.old cursor.new result }
        ensures exact { Takes (λ u. u) cursor.old cursor.new result
            (if_tagged 4 (skipping family_at)) }
        ensures mode { is_strict cursor.new ≡ is_strict cursor.old }
    {
        Self::skip_opt_in_exact(cursor)
    }

    /// Returns the number of octets that `encode` appends, which is 4.
    #[tactic(auto, using(crate::proofs::FamilyDerLemmas::length_family))]
    pub fn encoded_len(&self) -> usize
        ensures len { result ≡ length (family_der self.now) }
        ensures short { result ≡ 4 }
    {
        octets_len(self.octets())
    }

    /// Appends the OCTET STRING of the family to `out` (RFC 3779, 2.2.3.3). The call succeeds if the capacity of `out`
    /// suffices.
    ///
    /// # Errors
    ///
    /// `AllocError`: out of memory. The octets in `out` are unchanged.
    #[tactic(auto, using(crate::proofs::FamilyDerLemmas::family_again))]
    pub fn encode<A: Allocator>(&self, out: &mut Vec<u8, A>) -> Result<(), AllocError>
        ensures ok { OnOk result (out.new.items ≡ out.old.items ++ family_der self.now) }
        ensures err { OnErr result (out.new.items ≡ out.old.items) }
        ensures succeeds { vec_len out.old + length (family_der self.now) ≤ vec_capacity out.old
            → IsOk result }
        ensures capacity { vec_capacity out.old ≤ vec_capacity out.new }
        // The encoding is read back, with any octets after it.
        ensures read_back { (rest : List ℕ)
            → family_at (family_der self.now ++ rest) ≡ Ok (self.now, rest) }
    {
        put_octets(out, self.octets())
    }

    /// Appends the OCTET STRING of the family to `out`, without allocation.
    ///
    /// # Preconditions
    ///
    /// The capacity of `out` suffices for these octets.
    pub fn append<A: Allocator>(&self, out: &mut Vec<u8, A>)
        requires fits { vec_len out.old + length (family_der self.now) ≤ vec_capacity out.old }
        ensures items { out.new.items ≡ out.old.items ++ family_der self.now }
        ensures capacity { vec_capacity out.old ≤ vec_capacity out.new }
    {
        append_octets(out, self.octets())
    }

    // Returns the octets that name the family.
    fn octets(&self) -> &'static [u8]
        ensures { result.now ≡ family_octets self.now }
    {
        match self {
            AddressFamily::Ipv4 => &[0, 1],
            AddressFamily::Ipv6 => &[0, 2],
        }
    }
}

// The implementations of the calls above.
impl AddressFamily {
    ghost use Rattle.std.specs.Prelude.{◌≡◌};
    ghost use Rattle.rpki_der.specs.SequenceReading.{if_tagged, skipping};
    ghost use Rattle.rpki_der.specs.Reading.{Gives};
    ghost use Rattle.rpki_der.specs.Views.{Takes, is_strict};
    ghost use Rattle.rpki_der.specs.FamilyDer.{family_at, family_of_octets};

    #[tactic(auto, unfolding(crate::specs::FamilyDer::family_of_octets))]
    fn from_octets_exact(octets: &[u8]) -> Result<AddressFamily, DerError>
        ensures exact { Gives (λ f. f) result (family_of_octets octets.now) }
    {
        match octets {
            [0, 1] => Ok(AddressFamily::Ipv4),
            [0, 2] => Ok(AddressFamily::Ipv6),
            _ => Err(DerError::BadFamily),
        }
    }

    #[tactic(auto, unfolding(crate::specs::Reading::refined))]
    fn take_from_exact(cursor: &mut Cursor<'_>) -> Result<AddressFamily, DerError>
        ensures exact { Takes (λ f. f) cursor.old cursor.new result family_at }
        ensures mode { is_strict cursor.new ≡ is_strict cursor.old }
    {
        let mut ahead = *cursor;
        let family = Self::from_octets_exact(ahead.take_octets()?)?;
        *cursor = ahead;
        Ok(family)
    }

    #[tactic(auto, unfolding(crate::specs::SequenceReading::if_tagged))]
    fn take_opt_from_exact(cursor: &mut Cursor<'_>) -> Result<Option<AddressFamily>, DerError>
        ensures exact { Takes (λ f. f) cursor.old cursor.new result (if_tagged 4 family_at) }
        ensures mode { is_strict cursor.new ≡ is_strict cursor.old }
    {
        if cursor.peek_tag() != Some(tag::OCTET_STRING) {
            return Ok(None);
        }
        Ok(Some(Self::take_from_exact(cursor)?))
    }

    #[tactic(auto, unfolding(crate::specs::SequenceReading::if_tagged))]
    fn skip_opt_in_exact(cursor: &mut Cursor<'_>) -> Result<Option<()>, DerError>
        ensures exact { Takes (λ u. u) cursor.old cursor.new result
            (if_tagged 4 (skipping family_at)) }
        ensures mode { is_strict cursor.new ≡ is_strict cursor.old }
    {
        if cursor.peek_tag() != Some(tag::OCTET_STRING) {
            return Ok(None);
        }
        Ok(Some(Self::skip_in(cursor)?))
    }

    #[tactic(auto, unfolding(crate::specs::Reading::refined))]
    fn skip_in(cursor: &mut Cursor<'_>) -> Result<(), DerError>
        ensures exact { Takes (λ u. u) cursor.old cursor.new result (skipping family_at) }
        ensures mode { is_strict cursor.new ≡ is_strict cursor.old }
    {
        Self::take_from_exact(cursor)?;
        Ok(())
    }
}
