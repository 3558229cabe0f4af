//! Faults of SLURM files.
use crate::member::SlurmMember;
use roa_vrps::MemberFault;
use rpki_base::asn::ParseAsnError;
use rpki_base::number::ParseIntError;
use rpki_prefix::{MaxLenError, ParsePrefixError};
use thiserror::Error;

/// A fault of an item of one of the four lists. A call returns the first fault in the order of the item's members.
#[derive(Clone, Copy, Debug, PartialEq, Eq, Error)]
pub enum SlurmItemFault {
    /// The item is not an object.
    #[error("not an object")]
    NotObject,
    /// The number, from 1, of the first member that RFC 8416 doesn't define for the item.
    #[error("member {0}: unknown name")]
    Unknown(usize),
    /// A fault of a member of the item.
    #[error("{0}: {1}")]
    Member(SlurmMember, MemberFault),
    /// The text of the prefix is not a prefix.
    #[error("invalid prefix: {0}")]
    InvalidPrefix(ParsePrefixError),
    /// The number is not an AS number.
    #[error("{0}")]
    InvalidAsn(ParseAsnError),
    /// The number of the maximum length is not a number of 8 bits.
    #[error("invalid max length: {0}")]
    MaxLenFormat(ParseIntError),
    /// The number is not a maximum length of the prefix: it is below the prefix length, or above the family's number of
    /// bits.
    #[error("{0}")]
    MaxLen(MaxLenError),
    /// The filter names neither of the two members of which it needs one.
    #[error("no criterion")]
    NoCriterion,
}

/// A fault of a SLURM file.
#[derive(Clone, Copy, Debug, PartialEq, Eq, Error)]
pub enum SlurmFault {
    /// The file is not UTF-8, or not a JSON object, or nests deeper than 128.
    #[error("not a JSON object")]
    NotObject,
    /// The number, from 1, of the first member of the file's object that RFC 8416 doesn't define for it.
    #[error("member {0}: unknown name")]
    Unknown(usize),
    /// A fault of a required member: of the file's object, or of one of the two objects in it.
    #[error("{0}: {1}")]
    Member(SlurmMember, MemberFault),
    /// The version is not 1.
    #[error("slurmVersion: not 1")]
    Version,
    /// The number, from 1, of the first member that RFC 8416 doesn't define for the object that is the value of the
    /// named member.
    #[error("{0}: member {1}: unknown name")]
    UnknownIn(SlurmMember, usize),
    /// The first invalid item of the named list: its number, counted from 1, and its first fault.
    #[error("{0}: item {1}: {2}")]
    Item(SlurmMember, usize, SlurmItemFault),
}
