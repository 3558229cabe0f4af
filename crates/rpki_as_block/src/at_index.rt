//! Reads AS blocks in the usual form at an index of a text.
ghost use Rattle.std.specs.Prelude.{◌≡◌, ℕ, ◌≤◌, length, Some, IfSome};
ghost use Rattle.rpki_as_block.specs.BlockPlaces.{IsAsBlockAt, IsAsBlockBetween};
ghost use Rattle.rpki_as_block.specs.declared.block.AsBlock.{AsBlock};

use crate::block::AsBlock;
use crate::range::AsRange;
use rpki_base::asn::at_index::asn_at;

/// Reads a block at index `start`, and returns it with the index after it.
///
/// The block is one number in the usual form, or two such numbers around a dash. For other texts of blocks, the call
/// may return None, as [`asn_at`] does.
pub(crate) fn block_at(text: &[u8], start: usize) -> Option<(AsBlock, usize)>
    requires { start ≤ length text.now }
    ensures found { IfSome result (λ found. IsAsBlockBetween start found.1 text.now found.0) }
    // A block in the usual form at `start` is found.
    ensures each { (b : AsBlock) (end : ℕ) → IsAsBlockAt start end text.now b → result ≡ Some (b, end) }
{
    let (min, dash) = asn_at(text, start)?;
    if dash == text.len() || text[dash] != b'-' {
        return Some((AsBlock::Id(min), dash));
    }
    let (max, end) = asn_at(text, dash + 1)?;
    if min > max {
        return None;
    }
    Some((AsBlock::Range(AsRange::new(min, max)), end))
}
