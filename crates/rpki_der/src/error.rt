//! The errors of DER.

ghost use Rattle.std.specs.Prelude.{◌≡◌, Some};
ghost use Rattle.rpki_der.specs.Faults.{fault_name, fault_number, fault_text};

use rpki_text::memory::OrMemory;
use std::error::Error;
use std::fmt;

/// The reason why octets are refused: the first fault from left to right.
#[derive(Clone, Copy, Debug, PartialEq, Eq)]
pub enum DerError {
    /// Octets are missing: the tag, the length or the content of a value is not complete.
    Truncated = 1,
    /// The tag is not the expected one, or continues in further octets (X.690, 8.1.2.4).
    BadTag = 2,
    /// The length is indefinite, is not in the fewest octets, or has more than eight octets after the first one (X.690,
    /// 8.1.3 and 10.1).
    BadLength = 3,
    /// The content is not an INTEGER from 0 to 4294967295 in the fewest octets (X.690, 8.3).
    BadInteger = 4,
    /// The content is not that of a BIT STRING: a count of unused bits, 0 to 7, and the octets (X.690, 8.6.2).
    BadBitString = 5,
    /// A NULL has content (X.690, 8.8).
    BadNull = 6,
    /// Octets are left after the last value.
    TrailingData = 7,
    /// The BIT STRING of a prefix or of a bound has more bits than an address of the family (RFC 3779, 2.1.1).
    BadPrefix = 8,
    /// The octets do not name IPv4 or IPv6 (RFC 3779, 2.2.3.3).
    BadFamily = 9,
    /// The first bound of a range is above the second.
    ReversedRange = 10,
    /// The list of blocks is empty, but at least one block is required.
    EmptyBlocks = 11,
    /// An address family occurs for the second time.
    DuplicateFamily = 12,
    /// The list of address families is empty, but at least one family is required.
    NoFamily = 13,
    /// A strict cursor found octets that are not canonical.
    NotCanonical = 14,
}

impl DerError {
    /// Returns the number of the error, from 1 to 14.
    pub fn number(&self) -> u8
        ensures number { result ≡ fault_number self.now }
    {
        *self as u8
    }

    /// Returns the name of the variant.
    fn name(&self) -> &'static str
        ensures name { result.now ≡ fault_name self.now }
    {
        match self {
            DerError::Truncated => "Truncated",
            DerError::BadTag => "BadTag",
            DerError::BadLength => "BadLength",
            DerError::BadInteger => "BadInteger",
            DerError::BadBitString => "BadBitString",
            DerError::BadNull => "BadNull",
            DerError::TrailingData => "TrailingData",
            DerError::BadPrefix => "BadPrefix",
            DerError::BadFamily => "BadFamily",
            DerError::ReversedRange => "ReversedRange",
            DerError::EmptyBlocks => "EmptyBlocks",
            DerError::DuplicateFamily => "DuplicateFamily",
            DerError::NoFamily => "NoFamily",
            DerError::NotCanonical => "NotCanonical",
        }
    }
}

impl fmt::Display for DerError {
    ghost output = { λ fault. Some (fault_text fault) };

    /// Prints the number and the name, as in `der error 3 (BadLength)`.
    fn fmt<W: fmt::Write>(&self, f: &mut fmt::Formatter<W>) -> fmt::Result {
        let number = self.number();
        let name = self.name();
        write!(f, "der error {number} ({name})")
    }
}

impl Error for DerError {}

impl From<DerError> for OrMemory<DerError> {
    ghost use Rattle.std.specs.Prelude.{◌≡◌};
    ghost use Rattle.rpki_text.specs.declared.memory.OrMemory.TheVariants.{Refused};

    ghost from_gives = { λ fault error. error ≡ Refused fault };

    fn from(fault: DerError) -> OrMemory<DerError> {
        OrMemory::Refused(fault)
    }
}
