//! A cursor over octets, from which values are taken one after another.

ghost use Rattle.std.specs.Prelude.{◌<◌, ◌^◌, length};
ghost use Rattle.rpki_der.specs.Der.{IsBytes};

use crate::content::{BitString, Content};
use crate::error::DerError;
use crate::tag;
use crate::value::value_of;

/// The octets that are left to read.
///
/// A take that succeeds moves the cursor past the value that it returns. A take that fails leaves the cursor
/// unchanged.
///
/// A strict cursor refuses the encoding of a value by [`DerError::NotCanonical`], if the writers encode the value with
/// other octets. The cursors over the contents of its values are strict too.
///
/// A cursor borrows its octets, so a copy costs nothing: take from a copy to look ahead.
#[derive(Clone, Copy, Debug)]
pub struct Cursor<'a> {
    octets: &'a [u8],
    strict: bool,
    pub ghost bytes: { IsBytes octets.now },
    pub ghost few: { length octets.now < 2 ^ 64 },
}

impl<'a> Cursor<'a> {
    ghost use Rattle.std.specs.Prelude.{◌≡◌, ◌<◌, ◌^◌, ◌==◌, true, false, length, option_map, slice_get, IfOk, IfSome};
    ghost use Rattle.rpki_der.specs.Der.{IsBitString, IsNull, IsOctetString, IsPadded, IsSequence, IsTlv, IsU32, Where};
    ghost use Rattle.rpki_der.specs.Reading.{Gives, bit_string_at, bit_string_by, ended, null_at, optional, tagged_at, u32_at, value_at};
    ghost use Rattle.rpki_der.specs.Views.{Lenient, NotCanonicalOr, ReadsValue, ReadsOptional, Strict, Takes, bit_string_of, content_octets, is_strict, is_strict_in, left, tlv};

    /// Returns a lenient cursor at the start of `octets`.
    pub fn new(octets: &'a [u8]) -> Cursor<'a>
        ensures octets { left result ≡ octets.now }
        ensures mode { is_strict result ≡ false }
    {
        Self::in_mode(octets, false)
    }

    /// Returns a strict cursor at the start of `octets`. It takes only canonical octets.
    pub fn new_strict(octets: &'a [u8]) -> Cursor<'a>
        ensures octets { left result ≡ octets.now }
        ensures mode { is_strict result ≡ true }
    {
        Self::in_mode(octets, true)
    }

    /// Returns a cursor of the given mode, strict (true) or lenient (false), at the start of `octets`.
    pub(crate) fn in_mode(octets: &'a [u8], strict: bool) -> Cursor<'a>
        ensures octets { left result ≡ octets.now }
        ensures mode { is_strict result ≡ strict }
    {
        let _len = octets.len(); // read so that the proof sees that the octets are fewer than 2^64
        Cursor { octets, strict }
    }

    /// Returns whether the cursor takes only canonical octets.
    pub fn is_strict(&self) -> bool
        ensures mode { result ≡ is_strict self.now }
    {
        self.strict
    }

    /// Returns whether no octet is left.
    pub fn is_empty(&self) -> bool
        ensures empty { result ≡ (length (left self.now) == 0) }
    {
        self.octets.is_empty()
    }

    /// States an invariant for the proofs of callers: fewer than 2^64 octets are left.
    ///
    /// This call is no test. It does nothing and returns nothing.
    #[doc(hidden)]
    pub fn recall_invariant(&self)
        ensures { length (left self.now) < 2 ^ 64 }
    {}

    /// Returns the octets that are left.
    pub fn rest(&self) -> &'a [u8]
        ensures octets { result.now ≡ left self.now }
    {
        self.octets
    }

    /// Returns the next octet without taking it, or None if no octet is left.
    ///
    /// The octet is the tag of the next value, if the octets begin with a value.
    pub fn peek_tag(&self) -> Option<u8>
        ensures next { result ≡ slice_get (left self.now) 0 }
    {
        self.octets.first().copied()
    }

    /// Takes a value with any tag (X.690, 8.1).
    ///
    /// # Errors
    ///
    /// The cursor is unchanged after an error.
    ///
    /// - [`DerError::Truncated`]: octets are missing.
    /// - [`DerError::BadTag`]: the low five bits of the tag octet are all ones.
    /// - [`DerError::BadLength`]: the length is indefinite, is not in the fewest octets, or has more than eight octets
    ///   after the first one.
    #[tactic(auto, using(crate::proofs::ValueReadings::value_reading))]
    pub fn take_value(&mut self) -> Result<Content<'a>, DerError>
        ensures reads { ReadsValue IsTlv tlv self.old self.new result }
        ensures exact { Takes tlv self.old self.new result value_at }
        ensures mode { is_strict self.new ≡ is_strict self.old }
        ensures hands_on_mode { IfOk result (λ value. is_strict_in value ≡ is_strict self.old) }
    {
        self.take_value_exact()
    }

    /// Takes a value with any tag, as `take_value` does. Returns None if and only if no octet is left.
    ///
    /// # Errors
    ///
    /// The errors of `take_value`. The cursor is unchanged after an error.
    #[tactic(auto, using(crate::proofs::ValueReadings::value_reading, crate::proofs::ValueLists::optional_some, crate::proofs::ValueLists::optional_none, crate::proofs::ValueLists::optional_err, crate::proofs::CursorReadings::none_by))]
    pub fn take_opt_value(&mut self) -> Result<Option<Content<'a>>, DerError>
        ensures reads { ReadsOptional IsTlv tlv self.old self.new result }
        ensures exact { Takes (λ o. option_map tlv o) self.old self.new result (optional value_at) }
        ensures mode { is_strict self.new ≡ is_strict self.old }
        ensures hands_on_mode { IfOk result
            (λ o. IfSome o (λ value. is_strict_in value ≡ is_strict self.old)) }
    {
        self.take_opt_value_exact()
    }

    /// Takes a value with the tag octet `tag` (X.690, 8.1.2).
    ///
    /// # Errors
    ///
    /// The errors of `take_value`, and [`DerError::BadTag`] if the value has another tag. The cursor is unchanged after
    /// an error.
    #[tactic(auto, unfolding(crate::specs::Reading::tagged_at))]
    pub fn take_tagged(&mut self, tag: u8) -> Result<Content<'a>, DerError>
        ensures exact { Takes content_octets self.old self.new result (tagged_at tag) }
        ensures mode { is_strict self.new ≡ is_strict self.old }
        ensures hands_on_mode { IfOk result (λ value. is_strict_in value ≡ is_strict self.old) }
    {
        let (value, rest) = value_of(self.octets, self.strict)?;
        if value.tag() != tag {
            return Err(DerError::BadTag);
        }
        *self = Cursor::in_mode(rest, self.strict);
        Ok(value)
    }

    /// Takes a SEQUENCE (X.690, 8.9) and returns a cursor over its content.
    ///
    /// # Errors
    ///
    /// The errors of `take_value`, and [`DerError::BadTag`] if the value has another tag. The cursor is unchanged after
    /// an error.
    #[tactic(auto, using(crate::proofs::ValueReadings::sequence_reading))]
    pub fn take_sequence(&mut self) -> Result<Cursor<'a>, DerError>
        ensures reads { ReadsValue IsSequence left self.old self.new result }
        ensures exact { Takes left self.old self.new result (tagged_at 48) }
        ensures mode { is_strict self.new ≡ is_strict self.old }
        ensures hands_on_mode { IfOk result (λ content. is_strict content ≡ is_strict self.old) }
    {
        self.take_sequence_exact()
    }

    /// Takes an INTEGER (X.690, 8.3) from 0 to 4294967295.
    ///
    /// # Errors
    ///
    /// The cursor is unchanged after an error. The errors are those of `take_value`, and:
    ///
    /// - [`DerError::BadTag`]: the value has another tag.
    /// - [`DerError::BadInteger`]: the content is not such an INTEGER, or is not in the fewest octets.
    #[tactic(auto, using(crate::proofs::ValueReadings::u32_reading))]
    pub fn take_u32(&mut self) -> Result<u32, DerError>
        ensures reads { ReadsValue IsU32 (λ n. n) self.old self.new result }
        ensures exact { Takes (λ n. n) self.old self.new result u32_at }
        ensures mode { is_strict self.new ≡ is_strict self.old }
    {
        self.take_u32_exact()
    }

    /// Takes a BIT STRING (X.690, 8.6.2). A lenient cursor accepts unused bits that are set.
    ///
    /// # Errors
    ///
    /// The cursor is unchanged after an error. The errors are those of `take_value`, and:
    ///
    /// - [`DerError::BadTag`]: the value has another tag.
    /// - [`DerError::BadBitString`]: the content is not that of a BIT STRING.
    /// - [`DerError::NotCanonical`]: an unused bit is set, and the cursor is strict.
    #[tactic(auto, using(crate::proofs::ReadingModes::bit_string_modal, crate::proofs::ValueReadings::bit_string_reading, crate::proofs::CursorReadings::none_by))]
    pub fn take_bit_string(&mut self) -> Result<BitString<'a>, DerError>
        ensures reads { Lenient self.old
            (ReadsValue IsBitString bit_string_of self.old self.new result) }
        ensures exact { Lenient self.old
            (Takes bit_string_of self.old self.new result bit_string_at) }
        ensures strict { Strict self.old
            (ReadsValue (Where IsBitString IsPadded) bit_string_of self.old self.new result) }
        ensures refused { NotCanonicalOr IsBitString self.old result }
        // In either mode.
        ensures by_mode { Takes bit_string_of self.old self.new result
            (bit_string_by (is_strict self.old)) }
        ensures mode { is_strict self.new ≡ is_strict self.old }
    {
        self.take_bit_string_by_mode()
    }

    /// Takes an OCTET STRING (X.690, 8.7).
    ///
    /// # Errors
    ///
    /// The errors of `take_value`, and [`DerError::BadTag`] if the value has another tag. The cursor is unchanged after
    /// an error.
    #[tactic(auto, using(crate::proofs::ValueReadings::octet_string_reading))]
    pub fn take_octets(&mut self) -> Result<&'a [u8], DerError>
        ensures reads { ReadsValue IsOctetString (λ o. o.now) self.old self.new result }
        ensures exact { Takes (λ o. o.now) self.old self.new result (tagged_at 4) }
        ensures mode { is_strict self.new ≡ is_strict self.old }
    {
        self.take_octets_exact()
    }

    /// Takes a NULL (X.690, 8.8).
    ///
    /// # Errors
    ///
    /// The cursor is unchanged after an error. The errors are those of `take_value`, and:
    ///
    /// - [`DerError::BadTag`]: the value has another tag.
    /// - [`DerError::BadNull`]: the value has content.
    #[tactic(auto, using(crate::proofs::ValueReadings::null_reading, crate::proofs::CursorReadings::reads_by))]
    pub fn take_null(&mut self) -> Result<(), DerError>
        ensures reads { ReadsValue IsNull (λ u. u) self.old self.new result }
        ensures exact { Takes (λ u. u) self.old self.new result null_at }
        ensures mode { is_strict self.new ≡ is_strict self.old }
    {
        self.take_null_exact()
    }

    /// Returns Ok if no octet is left. The call consumes the cursor.
    ///
    /// # Errors
    ///
    /// [`DerError::TrailingData`]: octets are left.
    pub fn finish(self) -> Result<(), DerError>
        ensures exact { Gives (λ u. u) result (ended (left self.entry)) }
    {
        if !self.octets.is_empty() {
            return Err(DerError::TrailingData);
        }
        Ok(())
    }
}

// The implementations of the takes. Each returns the value or the error that the octets give, which is its clause
// `exact` or `by_mode`. The further clauses of the take follow from this clause by theorems on the grammar.
impl<'a> Cursor<'a> {
    ghost use Rattle.std.specs.Prelude.{◌≡◌, option_map, IfOk, IfSome};
    ghost use Rattle.rpki_der.specs.Reading.{bit_string_by, null_at, optional, tagged_at, u32_at, value_at};
    ghost use Rattle.rpki_der.specs.Views.{Takes, bit_string_of, is_strict, is_strict_in, left, tlv};

    fn take_value_exact(&mut self) -> Result<Content<'a>, DerError>
        ensures exact { Takes tlv self.old self.new result value_at }
        ensures mode { is_strict self.new ≡ is_strict self.old }
        ensures hands_on_mode { IfOk result (λ value. is_strict_in value ≡ is_strict self.old) }
    {
        let (value, rest) = value_of(self.octets, self.strict)?;
        *self = Cursor::in_mode(rest, self.strict);
        Ok(value)
    }

    #[tactic(auto, unfolding(crate::specs::Reading::optional))]
    fn take_opt_value_exact(&mut self) -> Result<Option<Content<'a>>, DerError>
        ensures exact { Takes (λ o. option_map tlv o) self.old self.new result (optional value_at) }
        ensures mode { is_strict self.new ≡ is_strict self.old }
        ensures hands_on_mode { IfOk result
            (λ o. IfSome o (λ value. is_strict_in value ≡ is_strict self.old)) }
    {
        if self.octets.is_empty() {
            return Ok(None);
        }
        Ok(Some(self.take_value_exact()?))
    }

    fn take_sequence_exact(&mut self) -> Result<Cursor<'a>, DerError>
        ensures exact { Takes left self.old self.new result (tagged_at 48) }
        ensures mode { is_strict self.new ≡ is_strict self.old }
        ensures hands_on_mode { IfOk result (λ content. is_strict content ≡ is_strict self.old) }
    {
        Ok(self.take_tagged(tag::SEQUENCE)?.cursor())
    }

    #[tactic(auto, unfolding(crate::specs::Reading::refined))]
    fn take_u32_exact(&mut self) -> Result<u32, DerError>
        ensures exact { Takes (λ n. n) self.old self.new result u32_at }
        ensures mode { is_strict self.new ≡ is_strict self.old }
    {
        let mut ahead = *self;
        let number = ahead.take_tagged(tag::INTEGER)?.to_u32()?;
        *self = ahead;
        Ok(number)
    }

    #[tactic(auto, unfolding(crate::specs::Reading::refined))]
    fn take_bit_string_by_mode(&mut self) -> Result<BitString<'a>, DerError>
        ensures by_mode { Takes bit_string_of self.old self.new result
            (bit_string_by (is_strict self.old)) }
        ensures mode { is_strict self.new ≡ is_strict self.old }
    {
        let mut ahead = *self;
        let bits = ahead.take_tagged(tag::BIT_STRING)?.to_bit_string()?;
        *self = ahead;
        Ok(bits)
    }

    fn take_octets_exact(&mut self) -> Result<&'a [u8], DerError>
        ensures exact { Takes (λ o. o.now) self.old self.new result (tagged_at 4) }
        ensures mode { is_strict self.new ≡ is_strict self.old }
    {
        Ok(self.take_tagged(tag::OCTET_STRING)?.bytes())
    }

    #[tactic(auto, unfolding(crate::specs::Reading::refined))]
    fn take_null_exact(&mut self) -> Result<(), DerError>
        ensures exact { Takes (λ u. u) self.old self.new result null_at }
        ensures mode { is_strict self.new ≡ is_strict self.old }
    {
        let mut ahead = *self;
        ahead.take_tagged(tag::NULL)?.to_null()?;
        *self = ahead;
        Ok(())
    }
}
