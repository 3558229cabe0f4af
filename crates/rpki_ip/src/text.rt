//! Texts of prefixes and ranges: parsing and printing.
//!
//! A text is parsed as IPv4, as IPv6, or as either family. A value is printed as IPv4, by the first 32 bits of each
//! address, or as IPv6.
ghost use Rattle.std.specs.Prelude.{◌≡◌, ◌+◌, ◌≤◌, ◌↔◌, ◌++◌, IsTrue, None, Some, MatchResult, length, take};
ghost use Rattle.std.specs.Fmt.{WritesOnOk};
ghost use Rattle.rpki_text.specs.Reading.{Answers};
ghost use Rattle.rpki_ip.specs.AddrText.{greatest_of};
ghost use Rattle.rpki_ip.specs.BlockText.{IsAddressText, address_fault, IsPrefixBetween, HasPrefixFault, IsRangeFrom, HasPairFault, IsIpRangeBetween, HasRangeFault, IsSingleText, HasAddressFault, IsIpPrefixText, HasIpPrefixTextFault, IsRangeText, HasRangeTextFault};
ghost use Rattle.rpki_ip.specs.PrintedText.{shown_bits, as_ip, addr_text, ip_prefix_text, ip_range_text};
ghost use Rattle.rpki_der.specs.Families.{bits_of};
ghost use Rattle.rpki_der.specs.declared.family.AddressFamily.TheVariants.{Ipv4, Ipv6};

use crate::addr::Addr;
use crate::error::FromStrError;
use crate::family::AddressFamily;
use crate::front::FamilyAddr;
use crate::prefix::Prefix;
use crate::range::AddressRange;
use rpki_addr::addr::print::{
    IP_ROOM, PREFIX_ROOM, put, put_ipv4, put_ipv6, put_length, write_front,
};
use rpki_addr::addr::{AddrParseError, IpAddr, Ipv4Addr, Ipv6Addr};
use rpki_text::number::{ParseIntError, parse_u8};
use std::fmt;
use std::str::FromStr;

/// Returns the greatest number of an address.
fn greatest(addr: &IpAddr) -> Addr
    ensures { result ≡ greatest_of addr.now }
{
    match addr {
        IpAddr::V4(addr) => addr.greatest(),
        IpAddr::V6(addr) => addr.greatest(),
    }
}

/// Parses an address of the family `wanted`, or of either family if `wanted` is None.
fn read_address(wanted: Option<AddressFamily>, text: &str) -> Result<IpAddr, AddrParseError>
    ensures { MatchResult result (IsAddressText wanted text.now)
        (λ e. (e ≡ address_fault wanted) × ((a : _) → ¬ IsAddressText wanted text.now a)) }
{
    match wanted {
        Some(AddressFamily::Ipv4) => Ok(IpAddr::V4(Ipv4Addr::from_str(text)?)),
        Some(AddressFamily::Ipv6) => Ok(IpAddr::V6(Ipv6Addr::from_str(text)?)),
        None => IpAddr::from_str(text),
    }
}

/// Parses the two parts of a prefix: its address and its length.
///
/// `wanted` is the family of the address, None for either. The bits after the length are cleared.
///
/// # Errors
///
/// The first of these faults is returned:
///
/// - [`FromStrError::Addr`]: `left` isn't an address of the family.
/// - [`FromStrError::PrefixLen`]: `right` isn't a number from 0 to the number of the address's bits.
#[tactic(auto, using(crate::proofs::RangeTextLemmas::too_long))]
pub fn prefix_between(
    wanted: Option<AddressFamily>,
    left: &str,
    right: &str,
) -> Result<Prefix, FromStrError>
    ensures { MatchResult result (IsPrefixBetween wanted left.now right.now)
        (HasPrefixFault wanted left.now right.now) }
{
    let addr = read_address(wanted, left)?;
    let len = parse_u8(right)?;
    if len > addr.width() {
        return Err(FromStrError::PrefixLen(ParseIntError::PosOverflow));
    }
    Ok(Prefix::new(Addr::from(addr), len))
}

/// Parses the two addresses of a range.
///
/// `wanted` is the family of the addresses, None for either.
///
/// # Errors
///
/// The first of these faults is returned:
///
/// - [`FromStrError::Addr`]: `left` isn't an address of the family, or `right` isn't.
/// - [`FromStrError::FamilyMismatch`]: the addresses are of two families. This needs `wanted` to be None.
/// - [`FromStrError::BadRange`]: the first address is above the second.
pub fn range_between(
    wanted: Option<AddressFamily>,
    left: &str,
    right: &str,
) -> Result<AddressRange, FromStrError>
    ensures { MatchResult result (IsIpRangeBetween wanted left.now right.now)
        (HasRangeFault wanted left.now right.now) }
{
    let first = read_address(wanted, left)?;
    let last = read_address(wanted, right)?;
    range_from(first, last)
}

/// Returns the range from one address to another.
///
/// # Errors
///
/// `FamilyMismatch` if the families differ, and otherwise `BadRange` if the first address is above the last.
fn range_from(first: IpAddr, last: IpAddr) -> Result<AddressRange, FromStrError>
    ensures { MatchResult result (IsRangeFrom first last) (HasPairFault first last) }
{
    let (min, max) = match (&first, &last) {
        (IpAddr::V4(first), IpAddr::V4(last)) => (first.least(), last.greatest()),
        (IpAddr::V6(first), IpAddr::V6(last)) => (first.least(), last.greatest()),
        _ => return Err(FromStrError::FamilyMismatch),
    };
    if min > max {
        return Err(FromStrError::BadRange);
    }
    Ok(AddressRange::new(min, max))
}

/// Parses a prefix: an address and a length, separated by the first slash.
///
/// `wanted` is the family of the address, None for either. The bits after the length are cleared.
///
/// # Errors
///
/// The first of these faults is returned:
///
/// - [`FromStrError::MissingSeparator`]: the text has no slash.
/// - [`FromStrError::Addr`]: the text before the first slash isn't an address of the family.
/// - [`FromStrError::PrefixLen`]: the text after that slash isn't a number from 0 to the number of the address's bits.
pub fn read_prefix(wanted: Option<AddressFamily>, text: &str) -> Result<Prefix, FromStrError>
    ensures { Answers (IsIpPrefixText wanted text.now) (HasIpPrefixTextFault wanted text.now)
        result }
{
    match text.split_once('/') {
        Some((left, right)) => prefix_between(wanted, left, right),
        None => Err(FromStrError::MissingSeparator),
    }
}

/// Parses a range: two addresses, separated by the first dash.
///
/// `wanted` is the family of the addresses, None for either.
///
/// # Errors
///
/// The first of these faults is returned:
///
/// - [`FromStrError::MissingSeparator`]: the text has no dash.
/// - [`FromStrError::Addr`]: the text before or after the first dash isn't an address of the family.
/// - [`FromStrError::FamilyMismatch`]: the addresses are of two families. This needs `wanted` to be None.
/// - [`FromStrError::BadRange`]: the first address is above the second.
pub fn read_range(wanted: Option<AddressFamily>, text: &str) -> Result<AddressRange, FromStrError>
    ensures { Answers (IsRangeText wanted text.now) (HasRangeTextFault wanted text.now) result }
{
    match text.split_once('-') {
        Some((left, right)) => range_between(wanted, left, right),
        None => Err(FromStrError::MissingSeparator),
    }
}

/// Parses one address and returns the range of its numbers, from its least to its greatest.
///
/// `wanted` is the family of the address, None for either.
///
/// # Errors
///
/// [`FromStrError::Addr`] if the text isn't an address of the family.
pub fn read_single(wanted: Option<AddressFamily>, text: &str) -> Result<AddressRange, FromStrError>
    ensures { Answers (IsSingleText wanted text.now) (HasAddressFault wanted text.now) result }
{
    let addr = read_address(wanted, text)?;
    Ok(AddressRange::new(Addr::from(addr), greatest(&addr)))
}

/// Returns the address as an address of `family`. An IPv4 address is the first 32 bits.
pub fn shown_addr(family: AddressFamily, addr: Addr) -> IpAddr
    ensures { result ≡ as_ip family (shown_bits family addr) }
{
    match family {
        AddressFamily::Ipv4 => IpAddr::V4(addr.to_v4()),
        AddressFamily::Ipv6 => IpAddr::V6(addr.to_v6()),
    }
}

/// Returns whether the printed texts of both addresses, as addresses of the family, are the same.
fn look_alike(family: AddressFamily, a: Addr, b: Addr) -> bool
    ensures { IsTrue result ↔ (shown_bits family a ≡ shown_bits family b) }
{
    match family {
        AddressFamily::Ipv4 => a.to_v4() == b.to_v4(),
        AddressFamily::Ipv6 => a == b,
    }
}

/// The maximum number of bytes of a range's text: two addresses and a dash.
const RANGE_ROOM: usize = 2 * IP_ROOM + 1;

/// Writes an address of the family into `out` at index `at`.
///
/// The call returns the end index and the number of bits of the family's addresses.
#[inline(always)]
fn put_addr(out: &mut [u8], at: usize, family: AddressFamily, addr: Addr) -> (usize, u8)
    requires { at + 40 ≤ length out.old }
    ensures text { take result.0 out.new ≡ take at out.old ++ addr_text family addr }
    ensures end { result.0 ≤ at + 40 }
    ensures width { result.1 ≡ bits_of family }
{
    match family {
        AddressFamily::Ipv4 => (put_ipv4(out, at, addr.to_v4().octets()), 32),
        AddressFamily::Ipv6 => (put_ipv6(out, at, addr.to_bits()), 128),
    }
}

/// Writes a prefix of the family at the front of a buffer and returns the end index.
fn put_prefix(out: &mut [u8], family: AddressFamily, prefix: Prefix) -> usize
    requires { 44 ≤ length out.old }
    ensures text { take result out.new ≡ ip_prefix_text family prefix }
    ensures end { result ≤ 44 }
{
    let (end, width) = put_addr(out, 0, family, prefix.addr());
    let len = prefix.addr_len();
    if len == width {
        return end;
    }
    put_length(out, end, len)
}

/// Writes a range of the family at the front of a buffer and returns the end index.
fn put_range(out: &mut [u8], family: AddressFamily, range: AddressRange) -> usize
    requires { 81 ≤ length out.old }
    ensures text { take result out.new ≡ ip_range_text family range }
    ensures end { result ≤ 81 }
{
    let (end, _) = put_addr(out, 0, family, range.min());
    if look_alike(family, range.min(), range.max()) {
        return end;
    }
    let end = put(out, end, b'-');
    let (end, _) = put_addr(out, end, family, range.max());
    end
}

impl Prefix {
    /// Parses an IPv4 prefix: an address, a slash and a length. The bits after the length are cleared.
    ///
    /// # Errors
    ///
    /// The first of these faults is returned:
    ///
    /// - [`FromStrError::MissingSeparator`]: the text has no slash.
    /// - [`FromStrError::Addr`]: the text before the first slash isn't an IPv4 address.
    /// - [`FromStrError::PrefixLen`]: the text after that slash isn't a number from 0 to 32.
    pub fn from_v4_str(text: &str) -> Result<Prefix, FromStrError>
        ensures { Answers (IsIpPrefixText (Some Ipv4) text.now)
            (HasIpPrefixTextFault (Some Ipv4) text.now) result }
    {
        read_prefix(Some(AddressFamily::Ipv4), text)
    }

    /// Parses an IPv6 prefix: an address, a slash and a length. The bits after the length are cleared.
    ///
    /// # Errors
    ///
    /// The first of these faults is returned:
    ///
    /// - [`FromStrError::MissingSeparator`]: the text has no slash.
    /// - [`FromStrError::Addr`]: the text before the first slash isn't an IPv6 address.
    /// - [`FromStrError::PrefixLen`]: the text after that slash isn't a number from 0 to 128.
    pub fn from_v6_str(text: &str) -> Result<Prefix, FromStrError>
        ensures { Answers (IsIpPrefixText (Some Ipv6) text.now)
            (HasIpPrefixTextFault (Some Ipv6) text.now) result }
    {
        read_prefix(Some(AddressFamily::Ipv6), text)
    }

    /// Prints the prefix as a prefix of `family`: its address, a slash and the length.
    ///
    /// An IPv4 address is the first 32 bits. The slash and the length are left out if the length is the number of bits
    /// of the family's addresses.
    ///
    /// # Errors
    ///
    /// `fmt::Error` if the writer fails. It may have a part of the text then.
    pub fn fmt_with_family<W: fmt::Write>(
        &self,
        family: AddressFamily,
        f: &mut fmt::Formatter<W>,
    ) -> fmt::Result
        ensures { WritesOnOk W.write_str_gives f.old result (ip_prefix_text family self.now) f.new }
    {
        let mut out = [0; PREFIX_ROOM];
        let end = put_prefix(&mut out, family, *self);
        write_front(&out, end, f)
    }

    /// Prints the prefix as an IPv4 prefix, as [`Prefix::fmt_with_family`] does.
    ///
    /// # Errors
    ///
    /// `fmt::Error` if the writer fails. It may have a part of the text then.
    pub fn fmt_v4<W: fmt::Write>(&self, f: &mut fmt::Formatter<W>) -> fmt::Result
        ensures { WritesOnOk W.write_str_gives f.old result (ip_prefix_text Ipv4 self.now) f.new }
    {
        self.fmt_with_family(AddressFamily::Ipv4, f)
    }

    /// Prints the prefix as an IPv6 prefix, as [`Prefix::fmt_with_family`] does.
    ///
    /// # Errors
    ///
    /// `fmt::Error` if the writer fails. It may have a part of the text then.
    pub fn fmt_v6<W: fmt::Write>(&self, f: &mut fmt::Formatter<W>) -> fmt::Result
        ensures { WritesOnOk W.write_str_gives f.old result (ip_prefix_text Ipv6 self.now) f.new }
    {
        self.fmt_with_family(AddressFamily::Ipv6, f)
    }
}

/// Parses a prefix of either family as [`read_prefix`] does: an address and a length, separated by the first slash.
impl FromStr for Prefix {
    type Err = FromStrError;

    ghost from_str_gives = { λ text r. Answers (IsIpPrefixText None text)
        (HasIpPrefixTextFault None text) r };

    fn from_str(text: &str) -> Result<Prefix, FromStrError> {
        read_prefix(None, text)
    }
}

impl AddressRange {
    /// Parses an IPv4 range: its first address, a dash and its last address.
    ///
    /// # Errors
    ///
    /// The first of these faults is returned:
    ///
    /// - [`FromStrError::MissingSeparator`]: the text has no dash.
    /// - [`FromStrError::Addr`]: the text before or after the first dash isn't an IPv4 address.
    /// - [`FromStrError::BadRange`]: the first address is above the last.
    pub fn from_v4_str(text: &str) -> Result<AddressRange, FromStrError>
        ensures { Answers (IsRangeText (Some Ipv4) text.now)
            (HasRangeTextFault (Some Ipv4) text.now) result }
    {
        read_range(Some(AddressFamily::Ipv4), text)
    }

    /// Parses an IPv6 range: its first address, a dash and its last address.
    ///
    /// # Errors
    ///
    /// The first of these faults is returned:
    ///
    /// - [`FromStrError::MissingSeparator`]: the text has no dash.
    /// - [`FromStrError::Addr`]: the text before or after the first dash isn't an IPv6 address.
    /// - [`FromStrError::BadRange`]: the first address is above the last.
    pub fn from_v6_str(text: &str) -> Result<AddressRange, FromStrError>
        ensures { Answers (IsRangeText (Some Ipv6) text.now)
            (HasRangeTextFault (Some Ipv6) text.now) result }
    {
        read_range(Some(AddressFamily::Ipv6), text)
    }

    /// Prints the range as a range of `family`: the least address, a dash and the greatest address.
    ///
    /// An IPv4 address is the first 32 bits. If the texts of both addresses are the same, only one is printed.
    ///
    /// # Errors
    ///
    /// `fmt::Error` if the writer fails. It may have a part of the text then.
    pub fn fmt_with_family<W: fmt::Write>(
        &self,
        family: AddressFamily,
        f: &mut fmt::Formatter<W>,
    ) -> fmt::Result
        ensures { WritesOnOk W.write_str_gives f.old result (ip_range_text family self.now) f.new }
    {
        let mut out = [0; RANGE_ROOM];
        let end = put_range(&mut out, family, *self);
        write_front(&out, end, f)
    }

    /// Prints the range as an IPv4 range, as [`AddressRange::fmt_with_family`] does.
    ///
    /// # Errors
    ///
    /// `fmt::Error` if the writer fails. It may have a part of the text then.
    pub fn fmt_v4<W: fmt::Write>(&self, f: &mut fmt::Formatter<W>) -> fmt::Result
        ensures { WritesOnOk W.write_str_gives f.old result (ip_range_text Ipv4 self.now) f.new }
    {
        self.fmt_with_family(AddressFamily::Ipv4, f)
    }

    /// Prints the range as an IPv6 range, as [`AddressRange::fmt_with_family`] does.
    ///
    /// # Errors
    ///
    /// `fmt::Error` if the writer fails. It may have a part of the text then.
    pub fn fmt_v6<W: fmt::Write>(&self, f: &mut fmt::Formatter<W>) -> fmt::Result
        ensures { WritesOnOk W.write_str_gives f.old result (ip_range_text Ipv6 self.now) f.new }
    {
        self.fmt_with_family(AddressFamily::Ipv6, f)
    }
}

/// Parses a range between two addresses of one family as [`read_range`] does. The family may be either.
impl FromStr for AddressRange {
    type Err = FromStrError;

    ghost from_str_gives = { λ text r. Answers (IsRangeText None text) (HasRangeTextFault None text)
        r };

    fn from_str(text: &str) -> Result<AddressRange, FromStrError> {
        read_range(None, text)
    }
}
