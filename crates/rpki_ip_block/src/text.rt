//! Texts of blocks: parsing and printing.
//!
//! A text is parsed as IPv4, as IPv6, or as either family. A block is printed as IPv4, by the first 32 bits of its
//! bounds, or as IPv6.
ghost use Rattle.std.specs.Prelude.{◌≡◌, ◌↔◌, IsTrue, Some, Contains, MatchResult};
ghost use Rattle.std.specs.Fmt.{WritesOnOk};
ghost use Rattle.rpki_text.specs.Reading.{Answers};
ghost use Rattle.rpki_der.specs.declared.family.AddressFamily.TheVariants.{Ipv4, Ipv6};
ghost use Rattle.rpki_ip_block.specs.BlockText.{IsIpBlockText, HasIpBlockFault};
ghost use Rattle.rpki_ip_block.specs.Blocks.{ip_bounds};
ghost use Rattle.rpki_ip_block.specs.PrintedBlocks.{ip_block_text, IsBlockOf, ReadsIpBlock};

use crate::block::IpBlock;
use rpki_ip::error::FromStrError;
use rpki_ip::family::AddressFamily;
use rpki_ip::text::{prefix_between, range_between, read_single};
use std::fmt;
use std::marker::Model;
use std::str::FromStr;

/// Returns whether the text contains the ASCII character.
pub(crate) fn has_byte(byte: u8, text: &str) -> bool
    ensures { IsTrue result ↔ Contains text.now byte }
{
    text.as_bytes().contains(&byte)
}

/// Parses a block of the family `wanted`, or of either family if `wanted` is None.
///
/// A text with a slash is a prefix, separated by the first slash. Without a slash, a text with a dash is a range,
/// separated by the first dash. Any other text is one address.
pub(crate) fn read_block(wanted: Option<AddressFamily>, text: &str) -> Result<IpBlock, FromStrError>
    ensures { Answers (IsIpBlockText wanted text.now) (HasIpBlockFault wanted text.now) result }
{
    if let Some((left, right)) = text.split_once('/') {
        return Ok(IpBlock::Prefix(prefix_between(wanted, left, right)?));
    }
    if let Some((left, right)) = text.split_once('-') {
        return Ok(IpBlock::Range(range_between(wanted, left, right)?));
    }
    Ok(IpBlock::Range(read_single(wanted, text)?))
}

impl IpBlock {
    /// Parses a block of IPv4 addresses: a prefix, a range, or one address.
    ///
    /// - A text with a slash is a prefix, separated by the first slash. The bits after its length are cleared.
    /// - Without a slash, a text with a dash is a range, separated by the first dash.
    /// - Any other text is one address, which is returned as a Range.
    ///
    /// # Errors
    ///
    /// The first of these faults is returned:
    ///
    /// - [`FromStrError::Addr`]: the text of an address isn't an IPv4 address.
    /// - [`FromStrError::PrefixLen`]: the text after the first slash isn't a number from 0 to 32.
    /// - [`FromStrError::BadRange`]: the first address of a range is above the second.
    pub fn from_v4_str(text: &str) -> Result<IpBlock, FromStrError>
        ensures exact { Answers (IsIpBlockText (Some Ipv4) text.now)
            (HasIpBlockFault (Some Ipv4) text.now) result }
        // The IPv4 text of a block of whole addresses parses back to a block with the same bounds.
        ensures reads_back { (block : IpBlock) → IsBlockOf Ipv4 block
            → text.now ≡ ip_block_text Ipv4 block
            → MatchResult result (λ read. ip_bounds read ≡ ip_bounds block) (λ _. ⊥) }
    {
        read_block(Some(AddressFamily::Ipv4), text)
    }

    /// Parses a block of IPv6 addresses, as [`IpBlock::from_v4_str`] does for IPv4. A prefix has a length up to 128.
    ///
    /// # Errors
    ///
    /// The errors are those of [`IpBlock::from_v4_str`], for IPv6 addresses and for lengths from 0 to 128.
    pub fn from_v6_str(text: &str) -> Result<IpBlock, FromStrError>
        ensures exact { Answers (IsIpBlockText (Some Ipv6) text.now)
            (HasIpBlockFault (Some Ipv6) text.now) result }
        // The IPv6 text of a block parses back to a block with the same bounds.
        ensures reads_back { (block : IpBlock) → IsBlockOf Ipv6 block
            → text.now ≡ ip_block_text Ipv6 block
            → MatchResult result (λ read. ip_bounds read ≡ ip_bounds block) (λ _. ⊥) }
    {
        read_block(Some(AddressFamily::Ipv6), text)
    }

    /// Prints the block as a block of `family`.
    ///
    /// The forms are those of [`Prefix::fmt_with_family`] and [`AddressRange::fmt_with_family`].
    ///
    /// # Errors
    ///
    /// `fmt::Error` if the writer fails. It may have a part of the text then.
    pub fn fmt_with_family<W: fmt::Write>(
        &self,
        family: AddressFamily,
        f: &mut fmt::Formatter<W>,
    ) -> fmt::Result
        ensures { WritesOnOk W.write_str_gives f.old result (ip_block_text family self.now) f.new }
    {
        match self {
            IpBlock::Prefix(prefix) => prefix.fmt_with_family(family, f),
            IpBlock::Range(range) => range.fmt_with_family(family, f),
        }
    }

    /// Prints the block as an IPv4 block, by the first 32 bits of its addresses.
    ///
    /// - A Prefix is printed as its address, a slash and its length. The slash and the length are left out if the
    ///   length is 32.
    /// - A Range is printed as its bounds with a dash between them, or as one address if the texts of both bounds are
    ///   the same.
    ///
    /// # Errors
    ///
    /// `fmt::Error` if the writer fails. It may have a part of the text then.
    pub fn fmt_v4<W: fmt::Write>(&self, f: &mut fmt::Formatter<W>) -> fmt::Result
        ensures { WritesOnOk W.write_str_gives f.old result (ip_block_text Ipv4 self.now) f.new }
    {
        self.fmt_with_family(AddressFamily::Ipv4, f)
    }

    /// Prints the block as an IPv6 block.
    ///
    /// - A Prefix is printed as its address, a slash and its length. The slash and the length are left out if the
    ///   length is 128.
    /// - A Range is printed as its bounds with a dash between them, or as one address if the bounds are the same.
    ///
    /// # Errors
    ///
    /// `fmt::Error` if the writer fails. It may have a part of the text then.
    pub fn fmt_v6<W: fmt::Write>(&self, f: &mut fmt::Formatter<W>) -> fmt::Result
        ensures { WritesOnOk W.write_str_gives f.old result (ip_block_text Ipv6 self.now) f.new }
    {
        self.fmt_with_family(AddressFamily::Ipv6, f)
    }

    /// Returns the block for display as an IPv4 block, as [`IpBlock::fmt_v4`] prints it.
    pub fn display_v4(self) -> DisplayV4Block
        ensures { result ≡ self }
    {
        DisplayV4Block { block: self }
    }

    /// Returns the block for display as an IPv6 block, as [`IpBlock::fmt_v6`] prints it.
    pub fn display_v6(self) -> DisplayV6Block
        ensures { result ≡ self }
    {
        DisplayV6Block { block: self }
    }
}

/// Parses a block of addresses of either family, as [`IpBlock::from_v4_str`] does for IPv4.
///
/// A further error is [`FromStrError::FamilyMismatch`]: the two addresses of a range are of two families.
impl FromStr for IpBlock {
    type Err = FromStrError;

    ghost from_str_gives = { ReadsIpBlock };

    fn from_str(text: &str) -> Result<IpBlock, FromStrError> {
        read_block(None, text)
    }
}

/// A block that is displayed as an IPv4 block.
#[derive(Clone, Copy, Debug)]
pub struct DisplayV4Block {
    block: IpBlock,
}

impl Model for DisplayV4Block {
    ghost use Rattle.rpki_ip_block.specs.declared.block.IpBlock.{IpBlock};

    ghost Value = { IpBlock };

    ghost view = { λ d. d.block };

    ghost inverse = { λ block. record { block = block } };
}

/// Prints the block as [`IpBlock::fmt_v4`] does.
impl fmt::Display for DisplayV4Block {
    ghost output = { λ block. Some (ip_block_text Ipv4 block) };

    fn fmt<W: fmt::Write>(&self, f: &mut fmt::Formatter<W>) -> fmt::Result {
        self.block.fmt_v4(f)
    }
}

/// A block that is displayed as an IPv6 block.
#[derive(Clone, Copy, Debug)]
pub struct DisplayV6Block {
    block: IpBlock,
}

impl Model for DisplayV6Block {
    ghost use Rattle.rpki_ip_block.specs.declared.block.IpBlock.{IpBlock};

    ghost Value = { IpBlock };

    ghost view = { λ d. d.block };

    ghost inverse = { λ block. record { block = block } };
}

/// Prints the block as [`IpBlock::fmt_v6`] does.
impl fmt::Display for DisplayV6Block {
    ghost output = { λ block. Some (ip_block_text Ipv6 block) };

    fn fmt<W: fmt::Write>(&self, f: &mut fmt::Formatter<W>) -> fmt::Result {
        self.block.fmt_v6(f)
    }
}
