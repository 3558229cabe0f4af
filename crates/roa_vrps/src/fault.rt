//! Faults of VRP files.
use crate::member::Member;
use rpki_base::asn::ParseAsnError;
use rpki_base::number::ParseIntError;
use rpki_prefix::{MaxLenError, ParsePrefixError};
use thiserror::Error;

/// A fault of a VRP. A call returns the first fault in the order of the variants.
///
/// Only lines of CSV have the first three faults.
#[derive(Clone, Copy, Debug, PartialEq, Eq, Error)]
pub enum VrpFault {
    /// The line isn't UTF-8.
    #[error("not UTF-8")]
    NotUtf8,
    /// The line has more fields than the line that names the columns. The values are both numbers of fields, the line's
    /// first.
    #[error("too many fields: {0}, but the header names {1}")]
    TooManyFields(usize, usize),
    /// The line lacks a field in one of the three columns. The values are its number of fields, and the number of
    /// fields that it needs for a field in each of them.
    #[error("too few fields: {0}, but at least {1} are needed")]
    TooFewFields(usize, usize),
    /// The text of the AS number is not an AS number.
    #[error("{0}")]
    Asn(ParseAsnError),
    /// The text of the prefix is not a prefix.
    #[error("invalid prefix: {0}")]
    Prefix(ParsePrefixError),
    /// The text of the maximum length is not a number of 8 bits. In CSV it is not empty either.
    #[error("invalid max length: {0}")]
    MaxLenFormat(ParseIntError),
    /// The number is not a maximum length of the prefix: it is below the prefix length, or above the family's number of
    /// bits.
    #[error("{0}")]
    MaxLen(MaxLenError),
}

/// A fault of a member that an object must have exactly once.
#[derive(Clone, Copy, Debug, PartialEq, Eq, Error)]
pub enum MemberFault {
    /// The object has no member of this name.
    #[error("missing")]
    Missing,
    /// The object has more than one member of this name.
    #[error("repeated")]
    Repeated,
    /// The value of the member has the wrong kind.
    #[error("wrong kind of value")]
    Kind,
}

/// A fault of an item of a list. The members come first, in the order of [`Member`], and then the VRP.
#[derive(Clone, Copy, Debug, PartialEq, Eq, Error)]
pub enum ItemFault {
    /// A fault of a required member. An item that is not an object has no members.
    #[error("{0}: {1}")]
    Member(Member, MemberFault),
    /// A fault of the VRP that its members give.
    #[error("{0}")]
    Vrp(VrpFault),
}

/// A fault of a file.
#[derive(Clone, Copy, Debug, PartialEq, Eq, Error)]
pub enum FileFault {
    /// The first invalid line of a CSV file: its number, counted from 1, and its first fault.
    #[error("line {0}: {1}")]
    Line(usize, VrpFault),
    /// The first line of a CSV file is neither blank nor a known header, its first field is not an AS number, and its
    /// second field is not a prefix.
    #[error("line 1: neither a known header nor a VRP (AS number, prefix, maximum length)")]
    UnknownHeader,
    /// The text opens a JSON array.
    #[error("a JSON array, where an object with the member roas is expected")]
    JsonArray,
    /// The text begins with `{`, and is not a JSON object in UTF-8, or nests deeper than 128 levels.
    #[error("not a JSON object")]
    NotObject,
    /// A fault of the object's member `roas`, which must be an array.
    #[error("roas: {0}")]
    Roas(MemberFault),
    /// The first invalid item of `roas`: its number, counted from 1, and its first fault.
    #[error("item {0}: {1}")]
    Item(usize, ItemFault),
    /// The file has no other fault, and it has no VRP.
    #[error("no VRP")]
    NoVrp,
}

/// A fault of the member `expires` of an item.
#[derive(Clone, Copy, Debug, PartialEq, Eq, Error)]
pub enum ExpiresFault {
    /// The member is repeated, or its value is not a number.
    #[error("{0}")]
    Member(MemberFault),
    /// The number is not a whole number below 2^64 in decimal digits.
    #[error("not a whole number below 2^64")]
    Number,
}

/// A fault of a file whose VRPs have expiries.
///
/// A file with several faults has the first of these in the order of the variants. Then it has the first line or item
/// with such a fault.
#[derive(Clone, Copy, Debug, PartialEq, Eq, Error)]
pub enum ExpiryFault {
    /// The file is not a valid file of VRPs. The field is its first fault.
    #[error("{0}")]
    File(FileFault),
    /// The first line of a CSV file whose field in the column `Expires` is neither empty nor a whole number below 2^64.
    /// The field is the number of the line, counted from 1.
    #[error("line {0}: expires: not a whole number below 2^64")]
    Line(usize),
    /// The first item of `roas` with an invalid member `expires`: its number, counted from 1, and its fault.
    #[error("item {0}: expires: {1}")]
    Item(usize, ExpiresFault),
}
