//! A decoded value, and the readings of its content.

ghost use Rattle.std.specs.Prelude.{◌<◌, ◌≤◌, ◌*◌, length};

use crate::cursor::Cursor;
use crate::error::DerError;
use crate::value::number_of;

/// The tag and the content of a value. It borrows the octets, so a copy costs nothing.
///
/// Except for `tag`, every call reads only the content. No call checks the tag.
#[derive(Clone, Copy, Debug)]
pub struct Content<'a> {
    pub(crate) tag: u8,
    pub(crate) octets: &'a [u8],
    pub(crate) strict: bool,
}

/// The content of a BIT STRING (X.690, 8.6.2): the number of unused bits in the last octet, and the octets.
///
/// Unused bits may be set. The value borrows the octets, so a copy costs nothing.
#[derive(Clone, Copy, Debug)]
pub struct BitString<'a> {
    unused: u8,
    octets: &'a [u8],
    pub ghost below: { unused < 8 },
    pub ghost counted: { unused ≤ 8 * length octets.now },
}

impl<'a> Content<'a> {
    ghost use Rattle.std.specs.Prelude.{◌≡◌, Ok};
    ghost use Rattle.rpki_der.specs.Der.{IsBitContent, IsNothing, IsPadded, IsUnsigned, Where};
    ghost use Rattle.rpki_der.specs.Reading.{Gives, bits, bits_by, is_longer, nothing, unsigned};
    ghost use Rattle.rpki_der.specs.Views.{LenientIn, NotCanonicalInOr, Parses, StrictIn, bit_string_of, content_octets, is_strict, is_strict_in, left, tlv};

    /// Returns the tag octet.
    pub fn tag(&self) -> u8
        ensures tag { result ≡ (tlv self.now).tag }
    {
        self.tag
    }

    /// Returns the octets of the content.
    pub fn bytes(&self) -> &'a [u8]
        ensures octets { result.now ≡ content_octets self.now }
    {
        self.octets
    }

    /// Returns a cursor over the content, as for a SEQUENCE.
    ///
    /// The cursor is strict if and only if the content was taken from a strict cursor.
    pub fn cursor(&self) -> Cursor<'a>
        ensures octets { left result ≡ content_octets self.now }
        ensures mode { is_strict result ≡ is_strict_in self.now }
    {
        Cursor::in_mode(self.octets, self.strict)
    }

    /// Reads the content as an INTEGER (X.690, 8.3) from 0 to 4294967295.
    ///
    /// # Errors
    ///
    /// [`DerError::BadInteger`]: the content is not such an INTEGER, or is not in the fewest octets.
    #[tactic(auto, using(crate::proofs::ContentReadings::unsigned_check))]
    pub fn to_u32(&self) -> Result<u32, DerError>
        ensures reads { Parses IsUnsigned (λ n. n) (content_octets self.now) result }
        ensures exact { Gives (λ n. n) result (unsigned (content_octets self.now)) }
    {
        self.to_u32_exact()
    }

    /// Reads the content as a BIT STRING (X.690, 8.6.2).
    ///
    /// # Errors
    ///
    /// - [`DerError::BadBitString`]: the content is not that of a BIT STRING.
    /// - [`DerError::NotCanonical`]: an unused bit is set, and the content was taken from a strict cursor.
    #[tactic(auto, using(crate::proofs::ContentReadings::bits_check, crate::proofs::ReadingModes::padded_check, crate::proofs::ReadingModes::bits_tighten, crate::proofs::CursorReadings::parses_by))]
    pub fn to_bit_string(&self) -> Result<BitString<'a>, DerError>
        ensures reads { LenientIn self.now
            (Parses IsBitContent bit_string_of (content_octets self.now) result) }
        ensures exact { LenientIn self.now
            (Gives bit_string_of result (bits (content_octets self.now))) }
        ensures strict { StrictIn self.now
            (Parses (Where IsBitContent IsPadded) bit_string_of (content_octets self.now) result) }
        ensures refused { NotCanonicalInOr IsBitContent self.now result }
        // In either mode.
        ensures by_mode { Gives bit_string_of result
            (bits_by (is_strict_in self.now) (content_octets self.now)) }
    {
        self.to_bit_string_by_mode()
    }

    /// Returns whether the content is that of a BIT STRING with more than `limit` used bits.
    ///
    /// The call returns false for any other content.
    pub fn has_more_bits_than(&self, limit: u8) -> bool
        ensures { result ≡ is_longer limit (content_octets self.now) }
    {
        match self.octets {
            [unused, octets @ ..] => {
                *unused <= 7 && octets.len() > (limit as usize + *unused as usize) / 8
            }
            [] => false,
        }
    }

    /// Reads the content as an OCTET STRING (X.690, 8.7). Any octets are valid, so the call never fails.
    pub fn to_octets(&self) -> Result<&'a [u8], DerError>
        ensures exact { Gives (λ o. o.now) result (Ok (content_octets self.now)) }
    {
        Ok(self.octets)
    }

    /// Reads the content as a NULL (X.690, 8.8), which has no octets.
    ///
    /// # Errors
    ///
    /// [`DerError::BadNull`]: the content has an octet.
    #[tactic(auto, unfolding(crate::specs::Reading::nothing))]
    pub fn to_null(&self) -> Result<(), DerError>
        ensures reads { Parses IsNothing (λ u. u) (content_octets self.now) result }
        ensures exact { Gives (λ u. u) result (nothing (content_octets self.now)) }
    {
        self.to_null_exact()
    }
}

// The implementations of the calls above. Each has the clause `exact` or `by_mode`. The further clauses of the call
// follow from this clause by theorems on the grammar.
impl<'a> Content<'a> {
    ghost use Rattle.rpki_der.specs.Reading.{Gives, bits_by, nothing, unsigned};
    ghost use Rattle.rpki_der.specs.Views.{bit_string_of, content_octets, is_strict_in};

    #[tactic(auto, unfolding(crate::specs::Reading::unsigned))]
    fn to_u32_exact(&self) -> Result<u32, DerError>
        ensures exact { Gives (λ n. n) result (unsigned (content_octets self.now)) }
    {
        let octets = self.octets;
        if octets.is_empty() || octets.len() > 5 || octets[0] >= 128 {
            return Err(DerError::BadInteger);
        }
        if octets.len() > 1 && octets[0] == 0 && octets[1] < 128 {
            return Err(DerError::BadInteger);
        }
        let number = number_of(octets);
        if number > u32::MAX as u64 {
            return Err(DerError::BadInteger);
        }
        Ok(number as u32)
    }

    #[tactic(auto, unfolding(crate::specs::Reading::bits, crate::specs::Reading::bits_by, crate::specs::Reading::passing))]
    fn to_bit_string_by_mode(&self) -> Result<BitString<'a>, DerError>
        ensures by_mode { Gives bit_string_of result
            (bits_by (is_strict_in self.now) (content_octets self.now)) }
    {
        let [unused, octets @ ..] = self.octets else {
            return Err(DerError::BadBitString);
        };
        let unused = *unused;
        if unused > 7 || unused > 0 && octets.is_empty() {
            return Err(DerError::BadBitString);
        }
        let last = match octets {
            [.., last] => *last,
            [] => 0,
        };
        if self.strict && last % (1 << unused) != 0 {
            return Err(DerError::NotCanonical);
        }
        Ok(BitString { unused, octets })
    }

    #[tactic(auto, unfolding(crate::specs::Reading::nothing))]
    fn to_null_exact(&self) -> Result<(), DerError>
        ensures exact { Gives (λ u. u) result (nothing (content_octets self.now)) }
    {
        match self.octets {
            [] => Ok(()),
            [_, ..] => Err(DerError::BadNull),
        }
    }
}

impl<'a> BitString<'a> {
    ghost use Rattle.std.specs.Prelude.{◌≡◌, length};
    ghost use Rattle.rpki_der.specs.Der.{bit_count};
    ghost use Rattle.rpki_der.specs.Views.{bit_string_of};

    /// Returns the number of unused bits in the last octet: 0 to 7, and 0 if there is no octet.
    pub fn unused(&self) -> u8
        ensures unused { result ≡ (bit_string_of self.now).unused }
    {
        self.unused
    }

    /// Returns the octets unchanged, including the unused bits.
    pub fn octets(&self) -> &'a [u8]
        ensures octets { result.now ≡ (bit_string_of self.now).octets }
    {
        self.octets
    }

    /// Returns the number of octets.
    pub fn octet_len(&self) -> usize
        ensures len { result ≡ length (bit_string_of self.now).octets }
    {
        self.octets.len()
    }

    /// Returns the number of used bits.
    pub fn bit_len(&self) -> u128
        ensures len { result ≡ bit_count (bit_string_of self.now) }
    {
        8 * self.octets.len() as u128 - self.unused as u128
    }
}
