//! Parses and prints prefixes.
ghost use Rattle.std.specs.Prelude.{Some};
ghost use Rattle.rpki_text.specs.Reading.{Answers};
ghost use Rattle.rpki_prefix.specs.PrefixText.{FindsParts, ReadsPrefix, IsRelaxedPrefixText, HasRelaxedPrefixTextFault, prefix_text};

use crate::error::ParsePrefixError;
use crate::prefix::Prefix;
use rpki_addr::addr::IpAddr;
use rpki_addr::addr::print::{PREFIX_ROOM, put_with_length, write_front};
use rpki_text::number::parse_u8;
use std::fmt;
use std::str::FromStr;

/// Parses the address before the first slash and the length after it.
fn read_parts(text: &str) -> Result<(IpAddr, u8), ParsePrefixError>
    ensures { FindsParts text.now result }
{
    if text.is_empty() {
        return Err(ParsePrefixError::Empty);
    }
    let Some((addr, len)) = text.split_once('/') else {
        return Err(ParsePrefixError::MissingLen);
    };
    let addr = IpAddr::from_str(addr)?;
    let len = parse_u8(len)?;
    Ok((addr, len))
}

impl Prefix {
    /// Parses an address, a slash and a length, as [`FromStr`] does, but clears host bits that are set.
    ///
    /// # Errors
    ///
    /// The errors of [`FromStr`]. `InvalidPrefix` is reported only for a length that is too large for the family.
    pub fn from_str_relaxed(text: &str) -> Result<Prefix, ParsePrefixError>
        ensures { Answers (IsRelaxedPrefixText text.now)
            (HasRelaxedPrefixTextFault text.now) result }
    {
        let (addr, len) = read_parts(text)?;
        Ok(Prefix::new_relaxed(addr, len)?)
    }
}

/// Parses an address, a slash and a length, as in `10.0.0.0/8` (RFC 4632, 3.1) and `2001:db8::/32` (RFC 4291, 2.3).
///
/// The text is split at its first slash. The length is a decimal `u8` in the form of [`parse_u8`].
///
/// # Errors
///
/// The first fault of the text, in this order:
///
/// - [`ParsePrefixError::Empty`]: the text is empty.
/// - [`ParsePrefixError::MissingLen`]: the text has no slash.
/// - [`ParsePrefixError::InvalidAddr`]: the text before the slash is not an address.
/// - [`ParsePrefixError::InvalidLen`]: the text after the slash is not a decimal `u8`.
/// - [`ParsePrefixError::InvalidPrefix`]: [`Prefix::new`] refuses the two, for example because a host bit is set.
impl FromStr for Prefix {
    type Err = ParsePrefixError;

    ghost from_str_gives = { ReadsPrefix };

    fn from_str(text: &str) -> Result<Prefix, ParsePrefixError> {
        let (addr, len) = read_parts(text)?;
        Ok(Prefix::new(addr, len)?)
    }
}

/// Prints the address, a slash and the length, even if the prefix is a single address.
impl fmt::Display for Prefix {
    ghost output = { λ prefix. Some (prefix_text prefix) };

    fn fmt<W: fmt::Write>(&self, f: &mut fmt::Formatter<W>) -> fmt::Result {
        let mut out = [0; PREFIX_ROOM];
        let end = put_with_length(&mut out, 0, self.addr(), self.len());
        write_front(&out, end, f)
    }
}
