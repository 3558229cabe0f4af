//! The errors of prefixes and of their texts.
ghost use Rattle.std.specs.Prelude.{◌≡◌};

use rpki_addr::addr::AddrParseError;
use rpki_text::number::ParseIntError;
use thiserror::Error;

/// The reason why an address and a length are not a prefix.
#[derive(Clone, Copy, Debug, PartialEq, Eq, Error)]
#[error("{}", self.static_description())]
pub enum PrefixError {
    /// The length is above the longest one of the family: 32 for IPv4, 128 for IPv6.
    LenOverflow,
    /// A host bit, which is a bit after the prefix length, is set.
    NonZeroHost,
}

impl PrefixError {
    ghost use Rattle.rpki_prefix.specs.Values.{prefix_error_text};

    /// Returns the error message.
    pub fn static_description(self) -> &'static str
        ensures { result.now ≡ prefix_error_text self }
    {
        match self {
            PrefixError::LenOverflow => "prefix length too large",
            PrefixError::NonZeroHost => "non-zero host portion",
        }
    }
}

impl From<PrefixError> for &'static str {
    ghost use Rattle.rpki_prefix.specs.Values.{prefix_error_text};

    ghost from_gives = { λ error text. text.now ≡ prefix_error_text error };

    fn from(error: PrefixError) -> &'static str {
        error.static_description()
    }
}

/// The reason why a text is not a prefix. The variants are in the order of the checks, and the first fault is reported.
#[derive(Clone, Copy, Debug, PartialEq, Eq, Error)]
pub enum ParsePrefixError {
    /// The text is empty.
    #[error("empty string")]
    Empty,
    /// The text has no slash.
    #[error("missing length portion")]
    MissingLen,
    /// The text before the first slash is not an address.
    #[error("invalid address: {0}")]
    InvalidAddr(AddrParseError),
    /// The text after the first slash is not a decimal `u8`.
    #[error("invalid length: {0}")]
    InvalidLen(ParseIntError),
    /// The address and the length are not a prefix.
    #[error("{0}")]
    InvalidPrefix(PrefixError),
}

impl From<AddrParseError> for ParsePrefixError {
    ghost use Rattle.rpki_prefix.specs.declared.error.ParsePrefixError.TheVariants.{InvalidAddr};

    ghost from_gives = { λ fault error. error ≡ InvalidAddr fault };

    fn from(fault: AddrParseError) -> ParsePrefixError {
        ParsePrefixError::InvalidAddr(fault)
    }
}

impl From<ParseIntError> for ParsePrefixError {
    ghost use Rattle.rpki_prefix.specs.declared.error.ParsePrefixError.TheVariants.{InvalidLen};

    ghost from_gives = { λ fault error. error ≡ InvalidLen fault };

    fn from(fault: ParseIntError) -> ParsePrefixError {
        ParsePrefixError::InvalidLen(fault)
    }
}

impl From<PrefixError> for ParsePrefixError {
    ghost use Rattle.rpki_prefix.specs.declared.error.ParsePrefixError.TheVariants.{InvalidPrefix};

    ghost from_gives = { λ fault error. error ≡ InvalidPrefix fault };

    fn from(fault: PrefixError) -> ParsePrefixError {
        ParsePrefixError::InvalidPrefix(fault)
    }
}

/// The reason why a number is not a maximum length of a prefix.
#[derive(Clone, Copy, Debug, PartialEq, Eq, Error)]
#[error("{}", self.static_description())]
pub enum MaxLenError {
    /// The number is above the longest prefix length of the family: 32 for IPv4, 128 for IPv6.
    Overflow,
    /// The number is below the length of the prefix.
    Underflow,
}

impl MaxLenError {
    ghost use Rattle.rpki_prefix.specs.MaxLen.{max_len_error_text};

    /// Returns the error message.
    pub fn static_description(self) -> &'static str
        ensures { result.now ≡ max_len_error_text self }
    {
        match self {
            MaxLenError::Overflow => "max-length too large",
            MaxLenError::Underflow => "max-length smaller than prefix length",
        }
    }
}

impl From<MaxLenError> for &'static str {
    ghost use Rattle.rpki_prefix.specs.MaxLen.{max_len_error_text};

    ghost from_gives = { λ error text. text.now ≡ max_len_error_text error };

    fn from(error: MaxLenError) -> &'static str {
        error.static_description()
    }
}

/// The reason why a text is not a prefix with an optional maximum length. The variants are in the order of the checks,
/// and the first fault is reported.
#[derive(Clone, Copy, Debug, PartialEq, Eq, Error)]
pub enum ParseMaxLenPrefixError {
    /// The text before the first dash, or the whole text if it has no dash, is not a prefix.
    #[error("{0}")]
    InvalidPrefix(ParsePrefixError),
    /// The text after the first dash is not a decimal `u8`.
    #[error("invalid max length: {0}")]
    InvalidMaxLenFormat(ParseIntError),
    /// The number is not a maximum length of the prefix.
    #[error("{0}")]
    InvalidMaxLenValue(MaxLenError),
}

impl From<ParsePrefixError> for ParseMaxLenPrefixError {
    ghost use Rattle.rpki_prefix.specs.declared.error.ParseMaxLenPrefixError.TheVariants.{InvalidPrefix};

    ghost from_gives = { λ fault error. error ≡ InvalidPrefix fault };

    fn from(fault: ParsePrefixError) -> ParseMaxLenPrefixError {
        ParseMaxLenPrefixError::InvalidPrefix(fault)
    }
}

impl From<ParseIntError> for ParseMaxLenPrefixError {
    ghost use Rattle.rpki_prefix.specs.declared.error.ParseMaxLenPrefixError.TheVariants.{InvalidMaxLenFormat};

    ghost from_gives = { λ fault error. error ≡ InvalidMaxLenFormat fault };

    fn from(fault: ParseIntError) -> ParseMaxLenPrefixError {
        ParseMaxLenPrefixError::InvalidMaxLenFormat(fault)
    }
}

impl From<MaxLenError> for ParseMaxLenPrefixError {
    ghost use Rattle.rpki_prefix.specs.declared.error.ParseMaxLenPrefixError.TheVariants.{InvalidMaxLenValue};

    ghost from_gives = { λ fault error. error ≡ InvalidMaxLenValue fault };

    fn from(fault: MaxLenError) -> ParseMaxLenPrefixError {
        ParseMaxLenPrefixError::InvalidMaxLenValue(fault)
    }
}
