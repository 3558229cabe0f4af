//! Prefixes in DER.
ghost use Rattle.std.specs.Prelude.{◌≡◌, ◌≤◌, ◌-◌, ◌*◌, ◌^◌, length};
ghost use Rattle.rpki_der.specs.Der.{big_endian};

use crate::addr::Addr;
use crate::der::error::DecodePrefixError;
use crate::family::AddressFamily;
use crate::prefix::Prefix;
use rpki_der::{
    BitString, Content, Cursor, DerError, append_bit_string, bit_string_len, put_bit_string, tag,
};
use std::alloc::{AllocError, Allocator};

impl Prefix {
    ghost use Rattle.std.specs.Prelude.{◌≡◌, ℕ, List, Ok, ◌≤◌, ◌<◌, ◌+◌, ◌++◌, length, vec_len, OnOk, OnErr, IsOk, MatchResult};
    ghost use Rattle.std.specs.Vec.{vec_capacity};
    ghost use Rattle.rpki_cover.specs.Prefixes.{IsPrefix, PrefixValue};
    ghost use Rattle.rpki_der.specs.Reading.{Gives};
    ghost use Rattle.rpki_der.specs.Der.{Spells};
    ghost use Rattle.rpki_der.specs.Views.{Lenient, LenientIn, NotCanonicalInOr, NotCanonicalOr, Parses, ReadsValue, Strict, StrictIn, Takes, content_octets, is_strict, is_strict_in, left};
    ghost use Rattle.rpki_der.specs.Views.{bit_string_of};
    ghost use Rattle.rpki_der.specs.Families.{bits_of};
    ghost use Rattle.rpki_ip.specs.PrefixDer.{IsPrefixContent, IsPrefixDer, IsPrefixWithin, IsStrictContent, SaysPrefix, prefix_at, prefix_by, prefix_der, prefix_in, prefix_in_by};

    /// Returns the prefix whose addresses begin with the bits of a bit string (RFC 3779, 2.2.3.8).
    ///
    /// The unused bits may be set, and count as zero.
    ///
    /// # Errors
    ///
    /// [`DecodePrefixError`] if the bit string has more than sixteen octets.
    #[tactic(auto, using(crate::proofs::PrefixBits::used_bits))]
    pub fn from_bit_string(bits: &BitString<'_>) -> Result<Prefix, DecodePrefixError>
        ensures { MatchResult result (SaysPrefix 128 (bit_string_of bits.now))
            (λ _. (p : PrefixValue) → ¬ SaysPrefix 128 (bit_string_of bits.now) p) }
    {
        if bits.octet_len() > 16 {
            return Err(DecodePrefixError);
        }
        let len = bits.bit_len() as u8;
        Ok(Prefix::new(beginning_with(bits.octets()), len))
    }

    /// Reads the BIT STRING of a prefix (RFC 3779, 2.2.3.8).
    ///
    /// From a lenient cursor its unused bits may be set, and count as zero.
    ///
    /// # Errors
    ///
    /// The cursor is unchanged then.
    ///
    /// - A fault of [`Cursor::take_bit_string`].
    /// - `BadPrefix`: the BIT STRING has more than sixteen octets. A strict cursor reports this before `NotCanonical`
    ///   for an unused bit that is set.
    #[tactic(auto, using(crate::proofs::PrefixDerModes::taken_exact, crate::proofs::PrefixDerModes::taken_reads, crate::proofs::PrefixDerModes::taken_strict, crate::proofs::PrefixDerModes::taken_refused))]
    pub fn take_from(cursor: &mut Cursor<'_>) -> Result<Prefix, DerError>
        ensures reads { Lenient cursor.old
            (ReadsValue (IsPrefixDer 128) (λ p. p) cursor.old cursor.new result) }
        ensures exact { Lenient cursor.old
            (Takes (λ p. p) cursor.old cursor.new result (prefix_at 128)) }
        // The encoding of a prefix is read back as that prefix in both modes, with any octets after it.
        ensures reads_back { (p : PrefixValue) (rest : List ℕ) → IsPrefix 128 p
            → left cursor.old ≡ prefix_der p ++ rest
            → (result ≡ Ok p) × (left cursor.new ≡ rest) }
        ensures strict { Strict cursor.old
            (ReadsValue (Spells (IsPrefixWithin 128) prefix_der) (λ p. p) cursor.old cursor.new result) }
        ensures refused { NotCanonicalOr (IsPrefixDer 128) cursor.old result }
        // This clause is for both modes.
        ensures by_mode { Takes (λ p. p) cursor.old cursor.new result
            (prefix_by (is_strict cursor.old) 128) }
        ensures mode { is_strict cursor.new ≡ is_strict cursor.old }
    {
        Self::take_from_with_family_by_mode(cursor, AddressFamily::Ipv6)
    }

    /// Reads the BIT STRING of a prefix of `family` as `take_from` does.
    ///
    /// # Errors
    ///
    /// The errors are those of `take_from`. `BadPrefix` is also returned for a prefix that is longer than the family's
    /// addresses. The cursor is unchanged then.
    #[tactic(auto, using(crate::proofs::PrefixDerModes::taken_exact, crate::proofs::PrefixDerModes::taken_reads, crate::proofs::PrefixDerModes::taken_strict, crate::proofs::PrefixDerModes::taken_refused, crate::proofs::PrefixDerModes::bits_few_enough))]
    pub fn take_from_with_family(
        cursor: &mut Cursor<'_>,
        family: AddressFamily,
    ) -> Result<Prefix, DerError>
        ensures reads { Lenient cursor.old
            (ReadsValue (IsPrefixDer (bits_of family)) (λ p. p) cursor.old cursor.new result) }
        ensures exact { Lenient cursor.old
            (Takes (λ p. p) cursor.old cursor.new result (prefix_at (bits_of family))) }
        // The encoding of a prefix of the family is read back as that prefix in both modes, with any octets after it.
        ensures reads_back { (p : PrefixValue) (rest : List ℕ) → IsPrefixWithin (bits_of family) p
            → left cursor.old ≡ prefix_der p ++ rest
            → (result ≡ Ok p) × (left cursor.new ≡ rest) }
        ensures strict { Strict cursor.old
            (ReadsValue (Spells (IsPrefixWithin (bits_of family)) prefix_der) (λ p. p) cursor.old
            cursor.new result) }
        ensures refused { NotCanonicalOr (IsPrefixDer (bits_of family)) cursor.old result }
        // This clause is for both modes.
        ensures by_mode { Takes (λ p. p) cursor.old cursor.new result
            (prefix_by (is_strict cursor.old) (bits_of family)) }
        ensures mode { is_strict cursor.new ≡ is_strict cursor.old }
    {
        Self::take_from_with_family_by_mode(cursor, family)
    }

    /// Parses the content as the BIT STRING of a prefix, with any tag.
    ///
    /// # Errors
    ///
    /// The first of these faults is returned:
    ///
    /// - `BadBitString`: the content isn't that of a BIT STRING.
    /// - `BadPrefix`: the BIT STRING has more than sixteen octets.
    /// - `NotCanonical`: an unused bit is set. Only the content from a strict cursor has this fault.
    #[tactic(auto, using(crate::proofs::PrefixDerModes::said_exact, crate::proofs::PrefixDerModes::said_reads, crate::proofs::PrefixDerModes::said_strict, crate::proofs::PrefixDerModes::said_refused))]
    pub fn parse_content(content: &Content<'_>) -> Result<Prefix, DerError>
        ensures reads { LenientIn content.now
            (Parses (IsPrefixContent 128) (λ p. p) (content_octets content.now) result) }
        ensures exact { LenientIn content.now
            (Gives (λ p. p) result (prefix_in 128 (content_octets content.now))) }
        ensures strict { StrictIn content.now
            (Parses (IsStrictContent 128) (λ p. p) (content_octets content.now) result) }
        ensures refused { NotCanonicalInOr (IsPrefixContent 128) content.now result }
        // This clause is for both modes.
        ensures by_mode { Gives (λ p. p) result
            (prefix_in_by (is_strict_in content.now) 128 (content_octets content.now)) }
    {
        Self::parse_content_with_family_by_mode(content, AddressFamily::Ipv6)
    }

    /// Parses the content as the BIT STRING of a prefix of `family`, with any tag.
    ///
    /// # Errors
    ///
    /// The first of these faults is returned:
    ///
    /// - `BadBitString`: the content isn't that of a BIT STRING.
    /// - `BadPrefix`: the BIT STRING has more than sixteen octets, or the prefix is longer than the family's addresses.
    /// - `NotCanonical`: as in `parse_content`.
    #[tactic(auto, using(crate::proofs::PrefixDerModes::said_exact, crate::proofs::PrefixDerModes::said_reads, crate::proofs::PrefixDerModes::said_strict, crate::proofs::PrefixDerModes::said_refused))]
    pub fn parse_content_with_family(
        content: &Content<'_>,
        family: AddressFamily,
    ) -> Result<Prefix, DerError>
        ensures reads { LenientIn content.now
            (Parses (IsPrefixContent (bits_of family)) (λ p. p) (content_octets content.now)
            result) }
        ensures exact { LenientIn content.now
            (Gives (λ p. p) result (prefix_in (bits_of family) (content_octets content.now))) }
        ensures strict { StrictIn content.now
            (Parses (IsStrictContent (bits_of family)) (λ p. p) (content_octets content.now)
            result) }
        ensures refused { NotCanonicalInOr (IsPrefixContent (bits_of family)) content.now result }
        // This clause is for both modes.
        ensures by_mode { Gives (λ p. p) result
            (prefix_in_by (is_strict_in content.now) (bits_of family)
            (content_octets content.now)) }
    {
        Self::parse_content_with_family_by_mode(content, family)
    }

    /// Returns how many octets `encode` appends: fewer than 20.
    #[tactic(auto, using(crate::proofs::PrefixDerWritten::length_prefix))]
    pub fn encoded_len(&self) -> usize
        ensures len { result ≡ length (prefix_der self.now) }
        ensures short { result < 20 }
    {
        let (unused, octets, count) = self.parts();
        bit_string_len(unused, &octets[..count])
    }

    /// Appends the BIT STRING of the prefix, with zeros as unused bits (RFC 3779, 2.2.3.8; X.690, 11.2).
    ///
    /// # Errors
    ///
    /// [`AllocError`] if an allocation fails. The octets of `out` are unchanged then.
    pub fn encode<A: Allocator>(&self, out: &mut Vec<u8, A>) -> Result<(), AllocError>
        ensures prefix { IsPrefix 128 self.now }
        ensures ok { OnOk result (out.new.items ≡ out.old.items ++ prefix_der self.now) }
        ensures err { OnErr result (out.new.items ≡ out.old.items) }
        ensures succeeds { vec_len out.old + length (prefix_der self.now) ≤ vec_capacity out.old
            → IsOk result }
        ensures capacity { vec_capacity out.old ≤ vec_capacity out.new }
        // The encoding is read back, with any octets after it, if the prefix length isn't above the limit.
        ensures read_back { (limit : ℕ) (rest : List ℕ) → self.now.len ≤ limit
            → prefix_at limit (prefix_der self.now ++ rest) ≡ Ok (self.now, rest) }
    {
        let (unused, octets, count) = self.parts();
        put_bit_string(out, unused, &octets[..count])
    }

    /// Appends the octets that `encode` appends.
    ///
    /// # Preconditions
    ///
    /// The free capacity of `out` suffices for the encoding.
    pub fn append<A: Allocator>(&self, out: &mut Vec<u8, A>)
        requires fits { vec_len out.old + length (prefix_der self.now) ≤ vec_capacity out.old }
        ensures items { out.new.items ≡ out.old.items ++ prefix_der self.now }
        ensures capacity { vec_capacity out.old ≤ vec_capacity out.new }
    {
        let (unused, octets, count) = self.parts();
        append_bit_string(out, unused, &octets[..count])
    }
}

impl Prefix {
    ghost use Rattle.std.specs.Prelude.{◌≡◌, ◌≤◌, take};
    ghost use Rattle.rpki_cover.specs.Prefixes.{IsPrefix};
    ghost use Rattle.rpki_der.specs.Der.{bits_with};
    ghost use Rattle.rpki_ip.specs.PrefixDer.{prefix_bits};

    // Returns how many bits of the last octet are unused, the octets of the address, and how many of them the prefix
    // needs.
    fn parts(&self) -> (u8, [u8; 16], usize)
        ensures bits { bits_with result.0 (take result.2 result.1) ≡ prefix_bits self.now }
        ensures few { result.2 ≤ 16 }
        ensures prefix { IsPrefix 128 self.now }
    {
        let len = self.addr_len() as usize;
        let count = len.div_ceil(8);
        ((8 * count - len) as u8, self.addr().to_bytes(), count)
    }
}

// Internal steps of the calls above.
impl Prefix {
    ghost use Rattle.std.specs.Prelude.{◌≡◌};
    ghost use Rattle.rpki_der.specs.Families.{bits_of};
    ghost use Rattle.rpki_der.specs.Reading.{Gives};
    ghost use Rattle.rpki_der.specs.Views.{Takes, content_octets, is_strict, is_strict_in};
    ghost use Rattle.rpki_ip.specs.PrefixDer.{prefix_by, prefix_in_by};

    // The prefix length is checked before the unused bits.
    #[tactic(auto, using(crate::proofs::PrefixDerModes::length_first, crate::proofs::PrefixDerModes::few_enough, crate::proofs::PrefixBits::used_bits), unfolding(crate::specs::PrefixDer::prefix_of))]
    fn parse_content_with_family_by_mode(
        content: &Content<'_>,
        family: AddressFamily,
    ) -> Result<Prefix, DerError>
        ensures by_mode { Gives (λ p. p) result
            (prefix_in_by (is_strict_in content.now) (bits_of family)
            (content_octets content.now)) }
    {
        if content.has_more_bits_than(family.max_addr_len()) {
            return Err(DerError::BadPrefix);
        }
        let bits = content.to_bit_string()?;
        let len = bits.bit_len() as u8;
        Ok(Prefix::new(beginning_with(bits.octets()), len))
    }

    #[tactic(auto, unfolding(rpki_der::specs::Reading::refined))]
    fn take_from_with_family_by_mode(
        cursor: &mut Cursor<'_>,
        family: AddressFamily,
    ) -> Result<Prefix, DerError>
        ensures by_mode { Takes (λ p. p) cursor.old cursor.new result
            (prefix_by (is_strict cursor.old) (bits_of family)) }
        ensures mode { is_strict cursor.new ≡ is_strict cursor.old }
    {
        let mut ahead = *cursor;
        let value = ahead.take_tagged(tag::BIT_STRING)?;
        let prefix = Self::parse_content_with_family_by_mode(&value, family)?;
        *cursor = ahead;
        Ok(prefix)
    }
}

// Returns the address that begins with the octets, followed by zeros.
#[inline(always)]
pub(super) fn beginning_with(octets: &[u8]) -> Addr
    requires { length octets.now ≤ 16 }
    ensures { result ≡ big_endian octets.now * 2 ^ (128 - 8 * length octets.now) }
{
    let mut padded = [0; 16];
    padded[..octets.len()].copy_from_slice(octets);
    Addr::from_bits(u128::from_be_bytes(padded))
}
