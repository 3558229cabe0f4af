//! Resources in DER: a NULL for inherited ones, or else a SEQUENCE of at least one block (RFC 3779, 2.2.3.4 to 2.2.3.6,
//! 3.2.3.2 to 3.2.3.4).
ghost use Rattle.std.specs.Prelude.{◌≡◌, ◌≢◌, ◌≤◌, ◌<◌, ◌+◌, ◌^◌, ◌++◌, true, [], length, vec_len, IfOk, IfSome, IfNone, OnOk, OnErr, IsOk, ⊤};
ghost use Rattle.std.specs.Vec.{vec_capacity};
ghost use Rattle.rpki_der.specs.Views.{is_strict};
ghost use Rattle.rpki_der.specs.SequenceReading.{values_from};
ghost use Rattle.rpki_der.specs.SequenceViews.{TakesSaidOrMemory};
ghost use Rattle.rpki_der.specs.SequenceWriting.{octets_of_all, sequence_octets};
ghost use Rattle.rpki_chain.specs.Choices.{ListsBy, MatchChoice};
ghost use Rattle.rpki_chain.specs.ChoiceDer.{choice_at, choice_octets};
ghost use Rattle.rpki_chain.specs.Runs.{IsRunsOfBlocks};
ghost use Rattle.rpki_chain_core.specs.Sets.{IsChain};

use crate::choice::ResourcesChoice;
use crate::set::BlockSet;
use rpki_chain_core::block::Block;
use rpki_der::sequences::{
    Encode, ReadNext, append_sequence, encode_sequence, len_of_all, read_some,
};
use rpki_der::{Cursor, DerError, append_null, header_len, null_len, put_null, tag};
use rpki_text::memory::OrMemory;
use std::alloc::{AllocError, Allocator};

/// Takes resources: a NULL, or a SEQUENCE of blocks (RFC 3779, 2.2.3.4 and 3.2.3.2).
///
/// `reader` decides which blocks may follow one another. The call returns the listed blocks as they are in the
/// SEQUENCE. [`make_set`] makes their set.
///
/// # Errors
///
/// The cursor is unchanged after an error. `Memory` means that an allocation failed. `Refused` has the first fault:
///
/// - a fault of [`Cursor::take_value`]
/// - `BadTag`: the value is neither a NULL nor a SEQUENCE
/// - `BadNull`: the NULL has content
/// - a fault of a block
/// - `EmptyBlocks`: the SEQUENCE has no block
#[tactic(auto, unfolding(rpki_der::specs::Reading::refined, rpki_der::specs::SequenceReading::by_tag))]
pub fn take_listed<R: ReadNext, A: Allocator + Copy>(
    alloc: A,
    reader: &R,
    cursor: &mut Cursor<'_>,
) -> Result<ResourcesChoice<Vec<R::Value, A>>, OrMemory<DerError>>
    ensures by_mode { TakesSaidOrMemory (ListsBy (λ values listed. listed.items ≡ values))
        cursor.old cursor.new result
        (choice_at (values_from (R.after reader.now)
        (R.reading_by reader.now (is_strict cursor.old)) (R.first reader.now))) }
    ensures mode { is_strict cursor.new ≡ is_strict cursor.old }
    ensures some { IfOk result (λ choice.
        MatchChoice choice ⊤ ⊤ (λ listed. listed.items ≢ [])) }
{
    let mut ahead = *cursor;
    let value = ahead.take_value()?;
    let listed = match value.tag() {
        tag::NULL => {
            value.to_null()?;
            ResourcesChoice::Inherit
        }
        tag::SEQUENCE => ResourcesChoice::Blocks(read_some(alloc, reader, value.cursor())?),
        _ => return Err(OrMemory::Refused(DerError::BadTag)),
    };
    *cursor = ahead;
    Ok(listed)
}

/// Returns the set of the items that `blocks` cover. If `are_chain` is false, the blocks are sorted and joined first.
///
/// # Preconditions
///
/// - There is at least one block.
/// - If `are_chain` is true, the blocks are the runs of a set, ascending, each in the form that `new` gives.
///
/// # Errors
///
/// [`AllocError`]: out of memory for the reference count.
pub fn make_set<T: Block, A: Allocator>(
    alloc: A,
    blocks: Vec<T, A>,
    are_chain: bool,
) -> Result<BlockSet<T, A>, AllocError>
    requires some { blocks.items ≢ [] }
    requires chain { are_chain ≡ true → IsChain T.bounds T.form blocks.items }
    ensures runs { IfOk result (IsRunsOfBlocks T.bounds blocks.items) }
    ensures some { IfOk result (λ set. set ≢ []) }
{
    if are_chain {
        return BlockSet::from_vec_unchecked(alloc, blocks);
    }
    let _least = blocks[0].min(); // read so that the proof sees that the block, and so the set, has a number
    BlockSet::from_vec(alloc, blocks)
}

/// Returns the number of octets of the listed blocks, without the header of their SEQUENCE.
///
/// For missing and inherited resources, the call returns the length of the whole encoding. It returns None if the
/// number is 2^63 or more: no vector can hold so many octets.
pub fn content_len<V: Encode>(choice: &ResourcesChoice<&[V]>) -> Option<usize>
    ensures some { IfSome result (λ n. n
        ≡ length (choice_octets (λ blocks. octets_of_all V.octets blocks.now) choice.now)) }
    ensures few { IfSome result (λ n. n < 2 ^ 63) }
    ensures none { IfNone result (2 ^ 63
        ≤ length (choice_octets (λ blocks. octets_of_all V.octets blocks.now) choice.now)) }
{
    let content_len = match choice {
        ResourcesChoice::Missing => 0,
        ResourcesChoice::Inherit => null_len(),
        ResourcesChoice::Blocks(blocks) => len_of_all(blocks)?,
    };
    if content_len > isize::MAX as usize {
        return None;
    }
    Some(content_len)
}

/// Returns the number of octets that [`encode_choice`] appends for `choice`.
///
/// # Preconditions
///
/// `content_len` is what [`content_len`] returned for `choice`.
pub fn choice_len<V: Encode>(choice: &ResourcesChoice<&[V]>, content_len: usize) -> usize
    requires len { content_len ≡ length (choice_octets (λ blocks. octets_of_all V.octets blocks.now)
        choice.now) }
    requires few { content_len < 2 ^ 63 }
    ensures len { result ≡ length (choice_octets (λ blocks. sequence_octets V.octets blocks.now)
        choice.now) }
    ensures short { result ≤ content_len + 10 }
{
    match choice {
        ResourcesChoice::Blocks(_) => header_len(tag::SEQUENCE, content_len) + content_len,
        _ => content_len,
    }
}

/// Appends resources to `out`: nothing for missing ones, a NULL for inherited ones, or else the SEQUENCE of the blocks.
///
/// The call succeeds if the capacity of `out` suffices.
///
/// # Errors
///
/// [`AllocError`]: out of memory for the whole encoding, or the encoding has 2^64 octets or more. The octets in `out`
/// are unchanged then.
pub fn encode_choice<V: Encode, A: Allocator>(
    choice: &ResourcesChoice<&[V]>,
    out: &mut Vec<u8, A>,
) -> Result<(), AllocError>
    ensures ok { OnOk result
        (out.new.items ≡ out.old.items ++ choice_octets
        (λ blocks. sequence_octets V.octets blocks.now) choice.now) }
    ensures err { OnErr result (out.new.items ≡ out.old.items) }
    ensures succeeds { vec_len out.old + length
        (choice_octets (λ blocks. sequence_octets V.octets blocks.now) choice.now)
        ≤ vec_capacity out.old → IsOk result }
    ensures capacity { vec_capacity out.old ≤ vec_capacity out.new }
{
    match choice {
        ResourcesChoice::Missing => Ok(()),
        ResourcesChoice::Inherit => put_null(out),
        ResourcesChoice::Blocks(blocks) => encode_sequence(blocks, out),
    }
}

/// Appends the octets of [`encode_choice`] to `out`, without allocation.
///
/// # Preconditions
///
/// - `content_len` is what [`content_len`] returned for `choice`.
/// - The capacity of `out` suffices for the whole encoding.
pub fn append_choice<V: Encode, A: Allocator>(
    choice: &ResourcesChoice<&[V]>,
    content_len: usize,
    out: &mut Vec<u8, A>,
)
    requires len { content_len ≡ length (choice_octets (λ blocks. octets_of_all V.octets blocks.now)
        choice.now) }
    requires fits { vec_len out.old + length
        (choice_octets (λ blocks. sequence_octets V.octets blocks.now) choice.now)
        ≤ vec_capacity out.old }
    ensures items { out.new.items
        ≡ out.old.items ++ choice_octets (λ blocks. sequence_octets V.octets blocks.now)
        choice.now }
    ensures capacity { vec_capacity out.old ≤ vec_capacity out.new }
{
    match choice {
        ResourcesChoice::Missing => {}
        ResourcesChoice::Inherit => append_null(out),
        ResourcesChoice::Blocks(blocks) => append_sequence(blocks, content_len, out),
    }
}
