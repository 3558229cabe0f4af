//! Errors of parsing prefixes, ranges or blocks of addresses.
ghost use Rattle.std.specs.Prelude.{◌≡◌, Some};
ghost use Rattle.rpki_ip.specs.Faults.{ip_from_str_error_text};
ghost use Rattle.rpki_ip.specs.declared.error.FromStrError.TheVariants.{Addr, PrefixLen};

use rpki_addr::addr::AddrParseError;
use rpki_text::number::ParseIntError;
use std::error::Error;
use std::fmt;

/// The reason why a text isn't a prefix, a range or a block of addresses, or a list of such blocks.
#[derive(Clone, Copy, Debug, PartialEq, Eq)]
pub enum FromStrError {
    /// The text of an address isn't an address of the required kind.
    Addr(AddrParseError),
    /// The text after the slash isn't a number of 8 bits, or the number is above 32 in IPv4 or above 128 in IPv6.
    PrefixLen(ParseIntError),
    /// The separator of the two parts is missing: `/` in a prefix, `-` in a range.
    MissingSeparator,
    /// The two addresses of a range are of two families, or an element of a list is rejected as one of the other
    /// family. A list without a given family has this error for each invalid element.
    FamilyMismatch,
    /// A list of blocks can't be parsed. No call returns this error.
    BadBlocks,
    /// The first address of a range is above the second.
    BadRange,
}

impl fmt::Display for FromStrError {
    ghost output = { λ fault. Some (ip_from_str_error_text fault) };

    fn fmt<W: fmt::Write>(&self, f: &mut fmt::Formatter<W>) -> fmt::Result {
        match self {
            FromStrError::Addr(fault) => write!(f, "{fault}"),
            FromStrError::PrefixLen(fault) => write!(f, "bad prefix length: {fault}"),
            FromStrError::MissingSeparator => f.write_str("missing separator"),
            FromStrError::FamilyMismatch => f.write_str("address family mismatch"),
            FromStrError::BadBlocks => f.write_str("cannot parse blocks"),
            FromStrError::BadRange => f.write_str("invalid address range"),
        }
    }
}

impl Error for FromStrError {}

impl From<AddrParseError> for FromStrError {
    ghost from_gives = { λ fault error. error ≡ Addr fault };

    fn from(fault: AddrParseError) -> FromStrError {
        FromStrError::Addr(fault)
    }
}

impl From<ParseIntError> for FromStrError {
    ghost from_gives = { λ fault error. error ≡ PrefixLen fault };

    fn from(fault: ParseIntError) -> FromStrError {
        FromStrError::PrefixLen(fault)
    }
}
