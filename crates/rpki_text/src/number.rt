//! Parses decimal numbers up to a limit.
ghost use Rattle.std.specs.Prelude.{◌≡◌, ◌^◌, ◌+◌, ◌-◌, ◌<◌, ◌≤◌, ◌⊎◌, length, Some, MatchResult};
ghost use Rattle.std.specs.Str.Parse.{without_leading_plus};
ghost use Rattle.rpki_text.specs.Reading.{Answers};
ghost use Rattle.rpki_text.specs.Numbers.{IsNumberText, HasNumberFault, IsValueUpTo, DigitsFail, AreDigitsFrom, number_fault_text};

use std::error::Error;
use std::fmt;

/// The reason why a text is not a number: its first fault from left to right.
#[derive(Clone, Copy, Debug, PartialEq, Eq)]
pub enum ParseIntError {
    /// The text is empty.
    Empty,
    /// A plus sign has no digit after it, or another character is in the place of a digit. The digits before it do not
    /// exceed the limit.
    InvalidDigit,
    /// The digits exceed the highest number that is accepted.
    PosOverflow,
}

impl fmt::Display for ParseIntError {
    ghost output = { λ fault. Some (number_fault_text fault) };

    fn fmt<W: fmt::Write>(&self, f: &mut fmt::Formatter<W>) -> fmt::Result {
        f.write_str(match self {
            ParseIntError::Empty => "cannot parse integer from empty string",
            ParseIntError::InvalidDigit => "invalid digit found in string",
            ParseIntError::PosOverflow => "number too large to fit in target type",
        })
    }
}

impl Error for ParseIntError {}

/// Returns the text after a plus, or the whole text if it does not begin with one.
fn after_plus(text: &[u8]) -> &[u8]
    ensures { result.now ≡ without_leading_plus text.now }
{
    match text {
        [b'+', digits @ ..] => digits,
        _ => text,
    }
}

/// Returns the value of `digits`, which is 0 if there is no digit.
#[tactic(auto, using(crate::proofs::NumberLemmas::stops_at, crate::proofs::NumberLemmas::value_passes))]
fn read_digits(limit: u64, digits: &[u8]) -> Result<u64, ParseIntError>
    requires { limit < 2 ^ 32 }
    ensures { MatchResult result (IsValueUpTo limit digits.now) (DigitsFail limit digits.now) }
{
    let mut value: u64 = 0;
    for byte in digits {
        if !byte.is_ascii_digit() {
            return Err(ParseIntError::InvalidDigit);
        }
        value = value * 10 + u64::from(*byte - b'0');
        if value > limit {
            return Err(ParseIntError::PosOverflow);
        }
    }
    Ok(value)
}

/// The number of digits that are read without a check of the limit. The value of any ten digits is a `u64`.
const FEW: usize = 10;

/// Returns the index after the last byte that may be read of a number at index `start`: at most ten bytes are read.
fn few_end(start: usize, len: usize) -> usize
    requires { start ≤ len }
    ensures within { (result ≤ len) × (result ≤ start + 10) }
    ensures reached { (result ≡ len) ⊎ (result ≡ start + 10) }
{
    if len - start < FEW { len } else { start + FEW }
}

/// Reads the digits from index `start` on, but at most ten. Returns their value and the index after them.
///
/// If there is no digit at `start`, the call returns 0 and `start`.
///
/// # Preconditions
///
/// `start` is at most the length of `text`.
#[tactic(auto, using(crate::proofs::NumberLemmas::few_below))]
pub fn digits_from(text: &[u8], start: usize) -> (u64, usize)
    requires { start ≤ length text.now }
    ensures { AreDigitsFrom start result.1 text.now result.0 }
{
    let mut value: u64 = 0;
    let mut end = start;
    let stop = few_end(start, text.len());
    while end < stop {
        let byte = text[end];
        if !byte.is_ascii_digit() {
            break;
        }
        value = value * 10 + u64::from(byte - b'0');
        end += 1;
    }
    (value, end)
}

/// Parses a decimal number that is at most `limit`, in the form of [`parse_u32`].
///
/// # Preconditions
///
/// `limit` is below 2^32.
///
/// # Errors
///
/// The errors of [`parse_u32`], with `limit` in place of 4294967295.
#[tactic(auto, using(crate::proofs::NumberLemmas::no_text, crate::proofs::NumberLemmas::plus_alone))]
pub fn parse_up_to(limit: u64, text: &[u8]) -> Result<u64, ParseIntError>
    requires { limit < 2 ^ 32 }
    ensures { Answers (IsNumberText limit text.now) (HasNumberFault limit text.now) result }
{
    if text.is_empty() {
        return Err(ParseIntError::Empty);
    }
    let digits = after_plus(text);
    if digits.is_empty() {
        return Err(ParseIntError::InvalidDigit);
    }
    read_digits(limit, digits)
}

/// Parses a decimal `u32`: an optional `+`, and then one or more ASCII digits. Leading zeros are accepted.
///
/// # Errors
///
/// The first fault from left to right:
///
/// - [`ParseIntError::Empty`]: the text is empty.
/// - [`ParseIntError::PosOverflow`]: the digits exceed 4294967295 before any other character.
/// - [`ParseIntError::InvalidDigit`]: there is another character, for example a minus sign, or no digit after the
///   `+`.
pub fn parse_u32(text: &str) -> Result<u32, ParseIntError>
    ensures { Answers (IsNumberText (2 ^ 32 - 1) text.now)
        (HasNumberFault (2 ^ 32 - 1) text.now) result }
{
    Ok(parse_up_to(u64::from(u32::MAX), text.as_bytes())? as u32)
}

/// Parses a decimal `u8` in the form of [`parse_u32`].
///
/// # Errors
///
/// The errors of [`parse_u32`], with 255 in place of 4294967295.
pub fn parse_u8(text: &str) -> Result<u8, ParseIntError>
    ensures { Answers (IsNumberText (2 ^ 8 - 1) text.now)
        (HasNumberFault (2 ^ 8 - 1) text.now) result }
{
    Ok(parse_up_to(u64::from(u8::MAX), text.as_bytes())? as u8)
}
