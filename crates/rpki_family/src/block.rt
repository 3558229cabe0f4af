//! Blocks of addresses of one family.
ghost use Rattle.std.specs.Prelude.{◌≡◌, ◌↔◌, IsTrue, Some};
ghost use Rattle.rpki_block.specs.Equality.{have_same_bounds};
ghost use Rattle.rpki_block.specs.EqualityLaws.{blocks_per, blocks_equiv};
ghost use Rattle.rpki_ip_block.specs.Blocks.{ip_bounds};
ghost use Rattle.rpki_ip_block.specs.PrintedBlocks.{ip_block_text};
ghost use Rattle.rpki_ip_block.specs.declared.block.IpBlock.TheVariants.{Prefix};
ghost use Rattle.rpki_family.specs.Families.{HasBoundsIn};
ghost use Rattle.rpki_family.specs.FamilyText.{ReadsFamilyBlock};
ghost use Rattle.rpki_family.specs.PrefixBlocks.{IsPrefixBlock};

use crate::family::Family;
use crate::iter::BlockOfSet;
use rpki_addr::addr::IpAddr;
use rpki_ip::error::FromStrError;
use rpki_ip::family::AddressFamily;
use rpki_ipres::block::IpBlock;
use rpki_prefix::prefix::Prefix as FamilyPrefix;
use std::fmt;
use std::marker::{Model, PhantomData};
use std::str::FromStr;

/// The addresses of a prefix or of a range of one family (RFC 3779, 2.2.3.7).
///
/// In contracts its value is a block of addresses of 128 bits. In IPv4 the block consists of whole addresses.
#[derive_where(Clone, Copy)]
pub struct FamilyBlock<F: Family> {
    block: IpBlock,
    family: PhantomData<F>,
}

impl<F: Family> Model for FamilyBlock<F> {
    ghost use Rattle.rpki_ip_block.specs.Blocks.{ip_bounds};
    ghost use Rattle.rpki_ip_block.specs.declared.block.IpBlock.{IpBlock};
    ghost use Rattle.rpki_family.specs.Families.{HasBoundsIn};

    ghost Value = { IpBlock };

    ghost view = { λ b. b.block };

    ghost invariant = { λ b. HasBoundsIn F.FAMILY (ip_bounds b.block) };

    ghost inverse = { λ block. record { block = block; family = record {} } };
}

impl<F: Family> FamilyBlock<F> {
    /// Returns the block of all addresses of the family: the prefix of length 0.
    pub fn all() -> FamilyBlock<F>
        ensures { result ≡ Prefix (record { first = 0; len = 0 }) }
    {
        FamilyBlock::of(IpBlock::all())
    }

    /// Returns the block of a prefix's addresses, or None if the prefix is of the other family.
    #[tactic(auto, using(crate::proofs::FamilyLemmas::prefix_in))]
    pub fn from_prefix(prefix: FamilyPrefix) -> Option<FamilyBlock<F>>
        ensures { IsPrefixBlock F.FAMILY prefix result }
    {
        let family = match prefix.addr() {
            IpAddr::V4(_) => AddressFamily::Ipv4,
            IpAddr::V6(_) => AddressFamily::Ipv6,
        };
        if family == F::FAMILY {
            Some(FamilyBlock::of(IpBlock::from(prefix)))
        } else {
            None
        }
    }

    /// Returns whether the block is the prefix of length 0. The result for a range of all addresses is false.
    pub fn is_slash_zero(&self) -> bool
        ensures { IsTrue result ↔ (self.now ≡ Prefix (record { first = 0; len = 0 })) }
    {
        self.block.is_slash_zero()
    }

    /// Returns a block of addresses of either family as one of the family.
    pub(crate) fn of(block: IpBlock) -> FamilyBlock<F>
        requires { HasBoundsIn F.FAMILY (ip_bounds block) }
        ensures { result ≡ block }
    {
        FamilyBlock {
            block,
            family: PhantomData,
        }
    }

    /// Returns the block as one of addresses of either family.
    pub(crate) fn to_block(&self) -> IpBlock
        ensures value { result ≡ self.now }
        ensures bounds { HasBoundsIn F.FAMILY (ip_bounds result) }
    {
        self.block
    }
}

impl<F: Family> fmt::Debug for FamilyBlock<F> {
    fn fmt<W: fmt::Write>(&self, f: &mut fmt::Formatter<W>) -> fmt::Result {
        let name = match F::FAMILY {
            AddressFamily::Ipv4 => "Ipv4Block",
            AddressFamily::Ipv6 => "Ipv6Block",
        };
        f.debug_struct(name).field("block", &self.block).finish()
    }
}

/// Blocks are equal if and only if their bounds are equal. A prefix and a range can be equal.
impl<F: Family> PartialEq for FamilyBlock<F> {
    ghost eq = { have_same_bounds ip_bounds };

    ghost laws = { blocks_per ip_bounds };

    fn eq(&self, other: &FamilyBlock<F>) -> bool
        ensures value { result ≡ have_same_bounds ip_bounds self.now other.now }
        ensures same_bounds { IsTrue result ↔ (ip_bounds self.now ≡ ip_bounds other.now) }
    {
        self.block == other.block
    }
}

impl<F: Family> Eq for FamilyBlock<F> {
    ghost laws = { blocks_equiv ip_bounds };
}

impl<F: Family> From<FamilyBlock<F>> for IpBlock {
    ghost from_gives = { λ block ip. ip ≡ block };

    fn from(block: FamilyBlock<F>) -> IpBlock {
        block.block
    }
}

/// A block of the family is made from a block of addresses that consists of addresses of the family.
impl<F: Family> BlockOfSet for FamilyBlock<F> {
    ghost of = { λ block. block };

    ghost fits = { HasBoundsIn F.FAMILY };

    fn from_block(ip: IpBlock) -> FamilyBlock<F> {
        FamilyBlock::of(ip)
    }
}

/// Parses a block of a family.
fn read_block(family: AddressFamily, text: &str) -> Result<IpBlock, FromStrError>
    ensures { ReadsFamilyBlock family text.now result }
{
    match family {
        AddressFamily::Ipv4 => IpBlock::from_v4_str(text),
        AddressFamily::Ipv6 => IpBlock::from_v6_str(text),
    }
}

/// Parses a block as [`IpBlock::from_v4_str`] and [`IpBlock::from_v6_str`] do, with the same errors.
///
/// A text with a slash is a prefix, separated by the first slash. Without a slash, a text with a dash is a range,
/// separated by the first dash. Any other text is one address.
impl<F: Family> FromStr for FamilyBlock<F> {
    type Err = FromStrError;

    ghost from_str_gives = { ReadsFamilyBlock F.FAMILY };

    #[tactic(auto, using(rpki_ip_block::proofs::WholeBlockReadings::whole_text))]
    fn from_str(text: &str) -> Result<FamilyBlock<F>, FromStrError> {
        match read_block(F::FAMILY, text) {
            Ok(block) => Ok(FamilyBlock::of(block)),
            Err(fault) => Err(fault),
        }
    }
}

/// Prints a prefix as its address, a slash and its length. The slash and the length are omitted for one address.
///
/// A range is printed as its bounds with a dash between them, or as one address if its bounds are the same address.
impl<F: Family> fmt::Display for FamilyBlock<F> {
    ghost output = { λ block. Some (ip_block_text F.FAMILY block) };

    fn fmt<W: fmt::Write>(&self, f: &mut fmt::Formatter<W>) -> fmt::Result {
        match F::FAMILY {
            AddressFamily::Ipv4 => self.block.fmt_v4(f),
            AddressFamily::Ipv6 => self.block.fmt_v6(f),
        }
    }
}
