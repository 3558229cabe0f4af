//! The error of a text of AS blocks.
ghost use Rattle.std.specs.Prelude.{◌≡◌, Some};
ghost use Rattle.rpki_as_block.specs.Faults.{as_from_str_error_text};
ghost use Rattle.rpki_as_block.specs.declared.error.FromStrError.TheVariants.{BadAsn};

use rpki_base::asn::ParseAsnError;
use std::error::Error;
use std::fmt;

/// The reason why a text is not a block of AS numbers, or not a list of such blocks.
#[derive(Clone, Copy, Debug, PartialEq, Eq)]
pub enum FromStrError {
    /// A text without a dash is not an AS number.
    BadAsn,
    /// A text with a dash is not two AS numbers around its first dash, or the first number is above the second.
    BadRange,
    /// The blocks cannot be parsed. No call returns this error.
    BadBlocks,
}

impl fmt::Display for FromStrError {
    ghost output = { λ fault. Some (as_from_str_error_text fault) };

    fn fmt<W: fmt::Write>(&self, f: &mut fmt::Formatter<W>) -> fmt::Result {
        match self {
            FromStrError::BadAsn => f.write_str("Bad AS number. Expected format: AS#"),
            FromStrError::BadRange => f.write_str("Bad AS range. Expected format: AS#-AS#"),
            FromStrError::BadBlocks => f.write_str("Cannot parse blocks."),
        }
    }
}

impl Error for FromStrError {}

impl From<ParseAsnError> for FromStrError {
    ghost from_gives = { λ _ fault. fault ≡ BadAsn };

    fn from(_error: ParseAsnError) -> FromStrError {
        FromStrError::BadAsn
    }
}
