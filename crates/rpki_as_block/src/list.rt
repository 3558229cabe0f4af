//! Parses lists of AS blocks.
ghost use Rattle.std.specs.Prelude.{◌≤◌, ◌↔◌, IsTrue, List, Ok, Err, IfOk, MatchOption, MatchResult, length};
ghost use Rattle.rpki_text.specs.Memory.{IfRefused};
ghost use Rattle.rpki_text.specs.Lists.{elements, HaveValues, HasFirstFault};
ghost use Rattle.rpki_as_block.specs.BlockText.{ReadsAsBlock};
ghost use Rattle.rpki_as_block.specs.BlockPlaces.{AreAsBlocksFrom, IsAfterSpace, IsEndAt};
ghost use Rattle.rpki_as_block.specs.declared.block.AsBlock.{AsBlock};

use crate::at_index::block_at;
use crate::block::AsBlock;
use crate::error::FromStrError;
use rpki_text::list::read_list;
use rpki_text::memory::OrMemory;
use std::alloc::{AllocError, Allocator};

/// Returns the index after a space if there is one at `start`, and `start` otherwise.
fn after_space(text: &[u8], start: usize) -> usize
    requires { start ≤ length text.now }
    ensures { IsAfterSpace start result text.now }
{
    if start < text.len() && text[start] == b' ' {
        start + 1
    } else {
        start
    }
}

/// Returns whether the text ends at the index `end`, or after one space at that index.
fn is_end(text: &[u8], end: usize) -> bool
    requires { end ≤ length text.now }
    ensures { IsTrue result ↔ IsEndAt end text.now }
{
    after_space(text, end) == text.len()
}

/// Returns the blocks of a list in the usual form, or None for any other text.
///
/// All elements of such a list have the usual form. Each may have one space before it, and the last may have one after
/// it.
fn usual_blocks<A: Allocator>(alloc: A, text: &[u8]) -> Result<Option<Vec<AsBlock, A>>, AllocError>
    ensures { IfOk result (λ found. MatchOption found ((blocks : List AsBlock) → ¬ AreAsBlocksFrom 0 text.now blocks)
        (λ blocks. HaveValues (λ t b. ReadsAsBlock t (Ok b)) (elements text.now) blocks.items)) }
{
    let mut blocks = Vec::new(alloc);
    let mut start = 0;
    loop {
        let first = after_space(text, start);
        let Some((block, end)) = block_at(text, first) else {
            return Ok(None);
        };
        blocks.push(block)?;
        if is_end(text, end) {
            return Ok(Some(blocks));
        }
        if text[end] != b',' {
            return Ok(None);
        }
        start = end + 1;
    }
}

/// Returns the blocks that the elements of a list denote, as [`read_list`] does.
///
/// A list in the usual form is read directly, with no search for its commas.
///
/// # Errors
///
/// - `Refused`: an element is not a block. The variant holds the fault of the first such element.
/// - `Memory`: out of memory.
pub fn read_blocks<A: Allocator + Copy>(
    alloc: A,
    text: &str,
) -> Result<Vec<AsBlock, A>, OrMemory<FromStrError>>
    ensures { MatchResult result
        (λ blocks. HaveValues (λ t b. ReadsAsBlock t (Ok b)) (elements text.now) blocks.items)
        (IfRefused (HasFirstFault (λ t b. ReadsAsBlock t (Ok b))
        (λ t fault. ReadsAsBlock t (Err fault)) (elements text.now))) }
{
    if let Some(blocks) = usual_blocks(alloc, text.as_bytes())? {
        return Ok(blocks);
    }
    read_list(alloc, text)
}
