//! AS numbers and their texts.
ghost use Rattle.std.specs.Prelude.{◌≡◌, ◌+◌, ◌^◌, ◌<◌, Some};
ghost use Rattle.rpki_base.specs.AsnText.{IsAfterAs, ReadsAsn, asn_text};
ghost use Rattle.rpki_text.specs.Digits.{octets_of};

pub mod at_index;
mod der;
pub mod print;

use at_index::asn_at;
use print::fmt_asn;
use rpki_text::number::parse_up_to;
use std::fmt;
use std::marker::Model;
use std::str::FromStr;
use thiserror::Error;

/// An AS number: 0 to 4294967295 (RFC 6793).
///
/// AS numbers compare and sort as their values.
#[derive(Clone, Copy, Debug, PartialEq, Eq, PartialOrd, Ord, Hash)]
pub struct Asn(u32);

impl Model for Asn {
    ghost use Rattle.std.specs.Prelude.{ℕ, ◌<◌, ◌^◌};

    ghost Value = { ℕ };

    ghost view = { λ asn. asn.0 };

    ghost invariant = { λ asn. asn.0 < 2 ^ 32 };

    ghost inverse = { λ n. record { 0 = n } };
}

impl Asn {
    /// The lowest AS number, 0.
    pub const MIN: Asn = Asn(u32::MIN);

    /// The highest AS number, 4294967295.
    pub const MAX: Asn = Asn(u32::MAX);

    /// Returns the AS number with this value.
    pub fn from_u32(value: u32) -> Asn
        ensures { result ≡ value }
    {
        Asn(value)
    }

    /// States an invariant for the proofs of callers: the AS number has 32 bits.
    ///
    /// This call is no test. It does nothing and returns nothing.
    #[doc(hidden)]
    pub fn recall_invariant(self)
        ensures { self < 2 ^ 32 }
    {
        let _number = self.0;
    }

    /// Returns the value of the AS number.
    pub fn into_u32(self) -> u32
        ensures { result ≡ self }
    {
        self.0
    }

    /// Returns the four octets of the value, the highest first.
    pub fn to_raw(self) -> [u8; 4]
        ensures { result ≡ octets_of self }
    {
        self.0.to_be_bytes()
    }

    /// Returns the AS number whose value is greater by `value`.
    ///
    /// # Preconditions
    ///
    /// The sum is at most 4294967295: `Asn::MAX.into_u32() - self.into_u32()` is at least `value`.
    pub fn add(self, value: u32) -> Asn
        requires { self + value < 2 ^ 32 }
        ensures { result ≡ self + value }
    {
        Asn(self.0 + value)
    }
}

impl From<u32> for Asn {
    ghost from_gives = { λ value asn. asn ≡ value };

    fn from(value: u32) -> Asn {
        Asn(value)
    }
}

impl From<Asn> for u32 {
    ghost from_gives = { λ asn value. value ≡ asn };

    fn from(asn: Asn) -> u32 {
        asn.0
    }
}

/// The error for a text that is not an AS number.
#[derive(Clone, Copy, Debug, PartialEq, Eq, Error)]
#[error("invalid AS number")]
pub struct ParseAsnError;

/// Returns the text after `as`, in any case of letters, or the whole text if it does not begin with that.
#[tactic(auto, using(crate::proofs::AsnLemmas::too_short, crate::proofs::AsnLemmas::no_letters))]
fn after_as(text: &[u8]) -> &[u8]
    ensures { IsAfterAs text.now result.now }
{
    if text.len() < 2 {
        return text;
    }
    let (letters, digits) = text.split_at(2);
    if letters.eq_ignore_ascii_case(b"as") {
        digits
    } else {
        text
    }
}

/// Parses an AS number in any form that `from_str` accepts.
fn read_any(text: &[u8]) -> Result<Asn, ParseAsnError>
    ensures { ReadsAsn text.now result }
{
    match parse_up_to(u64::from(u32::MAX), after_as(text)) {
        Ok(value) => Ok(Asn(value as u32)),
        Err(_) => Err(ParseAsnError),
    }
}

/// Parses an optional `as`, in any case of letters, and then a `u32` in the form of [`rpki_text::number::parse_u32`].
///
/// # Errors
///
/// [`ParseAsnError`]: any other text.
impl FromStr for Asn {
    type Err = ParseAsnError;

    ghost from_str_gives = { ReadsAsn };

    fn from_str(text: &str) -> Result<Asn, ParseAsnError> {
        let bytes = text.as_bytes();
        match asn_at(bytes, 0) {
            Some((asn, end)) if end == bytes.len() => Ok(asn),
            _ => read_any(bytes),
        }
    }
}

/// Prints `AS` and the value in decimal, as in `AS65000` (RFC 5396, section 2, asplain).
impl fmt::Display for Asn {
    ghost output = { λ asn. Some (asn_text asn) };

    fn fmt<W: fmt::Write>(&self, f: &mut fmt::Formatter<W>) -> fmt::Result {
        fmt_asn(*self, f)
    }
}
