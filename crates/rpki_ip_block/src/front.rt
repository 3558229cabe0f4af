//! Parsing of a block at the front of a text, and of lists of such blocks in one pass.
ghost use Rattle.std.specs.Prelude.{◌≡◌, ◌∷◌, IfOk, IfSome, IsTrue};
ghost use Rattle.rpki_ip_block.specs.ListText.{HasBlocks};
ghost use Rattle.rpki_ip_block.specs.BlockFronts.{IsBlockAtFront, IsRangeAfterDash, IsPrefixAfterSlash, IsAfterOptionalSpace, IsSpaceOrNothing};

use crate::block::IpBlock;
use rpki_addr::addr::{Ipv4Addr, Ipv6Addr};
use rpki_ip::family::AddressFamily;
use rpki_ip::front::{FamilyAddr, prefix_len_at_front, range_end_at_front, range_of};
use std::alloc::{AllocError, Allocator};

/// Returns the text after `byte` if the byte is at the front.
#[inline(always)]
fn strip_byte(byte: u8, text: &[u8]) -> Option<&[u8]>
    ensures { IfSome result (λ rest. text.now ≡ byte ∷ rest.now) }
{
    let (first, rest) = text.split_first()?;
    if *first == byte { Some(rest) } else { None }
}

/// Returns the range from `first` to the address at the front, as a block, and the rest of the text.
#[inline(always)]
fn range_after_dash<F: FamilyAddr>(first: F, text: &[u8]) -> Option<(IpBlock, &[u8])>
    ensures { IfSome result
        (λ found. IsRangeAfterDash F.family (F.ip first) text.now found.0 found.1.now) }
{
    match range_end_at_front(first, text) {
        Some((range, rest)) => Some((IpBlock::Range(range), rest)),
        None => None,
    }
}

/// Returns the prefix at `first` with the length at the front, as a block, and the rest of the text.
#[inline(always)]
fn prefix_after_slash<F: FamilyAddr>(first: F, text: &[u8]) -> Option<(IpBlock, &[u8])>
    ensures { IfSome result (λ found. IsPrefixAfterSlash (F.ip first) text.now found.0 found.1.now) }
{
    match prefix_len_at_front(first, text) {
        Some((prefix, rest)) => Some((IpBlock::Prefix(prefix), rest)),
        None => None,
    }
}

/// Returns the block at the front of the text, and the rest of the text.
///
/// The block is one address, two addresses with a dash between them, or an address, a slash and a length. The call can
/// return None for blocks of another form.
#[inline(always)]
#[tactic(auto, using(crate::proofs::BlockFrontLemmas::prefix_found, crate::proofs::BlockFrontLemmas::range_found, crate::proofs::BlockFrontLemmas::single_front))]
fn block_at_front<F: FamilyAddr>(text: &[u8]) -> Option<(IpBlock, &[u8])>
    ensures { IfSome result (λ found. IsBlockAtFront F.family text.now found.0 found.1.now) }
{
    let Some((first, rest)) = F::addr_at_front(text) else {
        return None;
    };
    if let Some(last) = strip_byte(b'-', rest) {
        return range_after_dash(first, last);
    }
    if let Some(len) = strip_byte(b'/', rest) {
        return prefix_after_slash(first, len);
    }
    Some((IpBlock::Range(range_of(first)), rest))
}

/// Returns the text after a space at the front, or the whole text if it doesn't begin with a space.
#[inline(always)]
fn skip_space(text: &[u8]) -> &[u8]
    ensures { IsAfterOptionalSpace text.now result.now }
{
    match text {
        [b' ', rest @ ..] => rest,
        _ => text,
    }
}

/// Returns whether the list ends here. One space may precede the end.
#[inline(always)]
fn is_end(text: &[u8]) -> bool
    ensures { IsTrue result → IsSpaceOrNothing text.now }
{
    matches!(text, [] | [b' '])
}

/// Returns the blocks of a list whose elements all have the usual form.
///
/// Each element has at most one space before it, and the last has at most one after it. The result is None if an
/// element has another form or isn't a block.
fn usual_blocks_of<F: FamilyAddr, A: Allocator>(
    alloc: A,
    text: &[u8],
) -> Result<Option<Vec<IpBlock, A>>, AllocError>
    ensures { IfOk result
        (λ found. IfSome found (λ blocks. HasBlocks F.family text.now blocks.items)) }
{
    let mut blocks = Vec::new(alloc);
    let mut left = text;
    loop {
        let Some((block, rest)) = block_at_front::<F>(skip_space(left)) else {
            return Ok(None);
        };
        blocks.push(block)?;
        if is_end(rest) {
            return Ok(Some(blocks));
        }
        let Some(more) = strip_byte(b',', rest) else {
            return Ok(None);
        };
        left = more;
    }
}

/// Returns the blocks of a list of the family, if all its elements have the usual form, as [`usual_blocks_of`] does.
pub(crate) fn usual_blocks<A: Allocator>(
    alloc: A,
    family: AddressFamily,
    text: &[u8],
) -> Result<Option<Vec<IpBlock, A>>, AllocError>
    ensures { IfOk result
        (λ found. IfSome found (λ blocks. HasBlocks family text.now blocks.items)) }
{
    match family {
        AddressFamily::Ipv4 => usual_blocks_of::<Ipv4Addr, A>(alloc, text),
        AddressFamily::Ipv6 => usual_blocks_of::<Ipv6Addr, A>(alloc, text),
    }
}
