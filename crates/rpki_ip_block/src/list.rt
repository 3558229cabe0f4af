//! Texts of lists of blocks: parsing and printing.
ghost use Rattle.std.specs.Prelude.{◌≡◌, ◌↔◌, IsTrue, IfOk, All, List, Some, map, MatchResult};
ghost use Rattle.std.specs.Fmt.{WritesOnOk};
ghost use Rattle.rpki_text.specs.Memory.{IsMemory, IfRefused};
ghost use Rattle.rpki_text.specs.Reading.{AnswersOrMemory};
ghost use Rattle.rpki_ip.specs.Whole.{HasWholeBounds};
ghost use Rattle.rpki_der.specs.declared.family.AddressFamily.TheVariants.{Ipv4};
ghost use Rattle.rpki_ip_block.specs.BlockText.{IsIpBlockText};
ghost use Rattle.rpki_ip_block.specs.Blocks.{ip_bounds};
ghost use Rattle.rpki_ip_block.specs.ListText.{IsForeign, IsElementText, HasElementFault, HasBlocks, HasBlocksFault, IsFamilyOf, HasMismatch, HasIpBlocks, HasIpBlocksFault};
ghost use Rattle.rpki_ip_block.specs.PrintedBlocks.{ip_block_text, block_list_text, IsBlockOf};
ghost use Rattle.rpki_ip_block.specs.declared.block.IpBlock.{IpBlock};

use crate::block::IpBlock;
use crate::front::usual_blocks;
use crate::text::{has_byte, read_block};
use rpki_ip::error::FromStrError;
use rpki_ip::family::AddressFamily;
use rpki_text::list::{FmtElement, ReadElement, fmt_elements, read_elements};
use rpki_text::memory::OrMemory;
use std::alloc::Allocator;
use std::fmt;

/// Returns whether an element of a list of the family is rejected as an element of the other family.
fn is_foreign(family: AddressFamily, text: &str) -> bool
    ensures { IsTrue result ↔ IsForeign family text.now }
{
    match family {
        AddressFamily::Ipv4 => has_byte(b':', text),
        // An IPv6 address has a colon near its start, so the search for a colon mostly ends there.
        AddressFamily::Ipv6 => !has_byte(b':', text) && has_byte(b'.', text),
    }
}

/// A reader of the elements of a list of a given family.
#[derive(Clone, Copy)]
struct InFamily {
    family: AddressFamily,
}

impl ReadElement for InFamily {
    type Value = IpBlock;

    type Fault = FromStrError;

    ghost has = { λ reader. IsElementText reader.family };

    ghost fails = { λ reader. HasElementFault reader.family };

    fn read_element(&self, text: &str) -> Result<IpBlock, FromStrError> {
        if is_foreign(self.family, text) {
            return Err(FromStrError::FamilyMismatch);
        }
        read_block(Some(self.family), text)
    }
}

/// A reader of the elements of a list whose family depends on a colon in the list.
#[derive(Clone, Copy)]
struct ByColon {
    family: AddressFamily,
}

impl ReadElement for ByColon {
    type Value = IpBlock;

    type Fault = FromStrError;

    ghost has = { λ reader. IsIpBlockText (Some reader.family) };

    ghost fails = { λ reader. HasMismatch reader.family };

    fn read_element(&self, text: &str) -> Result<IpBlock, FromStrError> {
        match read_block(Some(self.family), text) {
            Ok(block) => Ok(block),
            Err(_) => Err(FromStrError::FamilyMismatch),
        }
    }
}

/// Parses a list of blocks as [`read_blocks`] does. A list of the usual form is read in one pass, without a search for
/// its commas.
fn read_blocks_matched<A: Allocator + Copy>(
    alloc: A,
    family: AddressFamily,
    text: &str,
) -> Result<Vec<IpBlock, A>, OrMemory<FromStrError>>
    ensures { MatchResult result (λ v. HasBlocks family text.now v.items)
        (IfRefused (HasBlocksFault family text.now)) }
{
    if let Some(blocks) = usual_blocks(alloc, family, text.as_bytes())? {
        return Ok(blocks);
    }
    let reader = InFamily { family };
    read_elements(alloc, &reader, text)
}

/// Parses a list of blocks of `family` and returns the blocks in the order of the list.
///
/// The call splits the text at its commas and trims white space from each part. It ignores parts that are then empty.
///
/// # Errors
///
/// - [`OrMemory::Refused`]: the fault of the first element that isn't a block of the family. The fault is
///   [`FromStrError::FamilyMismatch`] if the element has a colon in a list of IPv4, or a dot and no colon in a list of
///   IPv6. Otherwise it is the fault of [`IpBlock::from_v4_str`] or `from_v6_str`.
/// - [`OrMemory::Memory`]: an allocation failed.
pub fn read_blocks<A: Allocator + Copy>(
    alloc: A,
    family: AddressFamily,
    text: &str,
) -> Result<Vec<IpBlock, A>, OrMemory<FromStrError>>
    ensures exact { AnswersOrMemory (λ v. v.items) (HasBlocks family text.now)
        (HasBlocksFault family text.now) result }
    // The printed text of blocks of the family parses back to blocks with the same bounds.
    ensures reads_back { (blocks : List IpBlock) → All (IsBlockOf family) blocks
        → text.now ≡ block_list_text family blocks
        → MatchResult result (λ v. map ip_bounds v.items ≡ map ip_bounds blocks) IsMemory }
    // Blocks of IPv4 begin and end with whole addresses.
    ensures whole { IfOk result (λ v. family ≡ Ipv4
        → All (λ block. HasWholeBounds (ip_bounds block)) v.items) }
{
    read_blocks_matched(alloc, family, text)
}

/// Returns the family of a list without a given family: IPv6 if the list has a colon, and otherwise IPv4.
fn family_of_text(text: &str) -> AddressFamily
    ensures { IsFamilyOf text.now result }
{
    if has_byte(b':', text) {
        AddressFamily::Ipv6
    } else {
        AddressFamily::Ipv4
    }
}

/// Parses a list of blocks without a given family and returns the blocks in the order of the list.
///
/// The blocks are of IPv6 if the list has a colon anywhere, and otherwise of IPv4. The call splits the list as
/// [`read_blocks`] does.
///
/// # Errors
///
/// - [`OrMemory::Refused`] with [`FromStrError::FamilyMismatch`]: an element isn't a block of the family.
/// - [`OrMemory::Memory`]: an allocation failed.
pub fn read_ip_blocks<A: Allocator>(
    alloc: A,
    text: &str,
) -> Result<Vec<IpBlock, A>, OrMemory<FromStrError>>
    ensures exact { AnswersOrMemory (λ v. v.items) (HasIpBlocks text.now)
        (HasIpBlocksFault text.now) result }
    // The printed text of blocks parses back to blocks with the same bounds. In IPv4 this holds for blocks of whole
    // addresses.
    ensures reads_back { (family : _) (blocks : List IpBlock) → All (IsBlockOf family) blocks
        → text.now ≡ block_list_text family blocks
        → MatchResult result (λ v. map ip_bounds v.items ≡ map ip_bounds blocks) IsMemory }
{
    let reader = ByColon {
        family: family_of_text(text),
    };
    read_elements(alloc, &reader, text)
}

/// A printer of blocks as blocks of a family.
#[derive(Clone, Copy)]
struct AsFamily {
    family: AddressFamily,
}

impl FmtElement for AsFamily {
    type Item = IpBlock;

    ghost text = { λ printer block. Some (ip_block_text printer.family block) };

    fn fmt_element<W: fmt::Write>(
        &self,
        block: &IpBlock,
        f: &mut fmt::Formatter<W>,
    ) -> fmt::Result {
        block.fmt_with_family(self.family, f)
    }
}

/// Prints the blocks as blocks of `family`, joined by a comma and a space. An empty list prints nothing.
///
/// # Errors
///
/// `fmt::Error` if the writer fails. It may have a part of the text then.
pub fn fmt_blocks<W: fmt::Write>(
    family: AddressFamily,
    blocks: &[IpBlock],
    f: &mut fmt::Formatter<W>,
) -> fmt::Result
    ensures { WritesOnOk W.write_str_gives f.old result (block_list_text family blocks.now) f.new }
{
    let printer = AsFamily { family };
    fmt_elements(&printer, blocks, f)
}
