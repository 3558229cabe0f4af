//! Sets of AS numbers: from builders, texts and DER, and back; and what paths of claims leave of them.
ghost use Rattle.std.specs.Prelude.{◌≡◌, ◌++◌, ℕ, ◌↔◌, List, IsTrue, IfOk, MatchResult, Some, string_bytes};
ghost use Rattle.rpki_text.specs.Memory.{IfRefused, IsMemory};
ghost use Rattle.rpki_text.specs.Reading.{AnswersOrMemory};
ghost use Rattle.rpki_der.specs.Der.{Front, NoFront, Spells};
ghost use Rattle.rpki_chain.specs.Paths.{IsFirstRefusal, IsPathResult, path_refusal_text};
ghost use Rattle.rpki_chain.specs.Runs.{Holds, IsRunsOfBlocks};
ghost use Rattle.rpki_as_block.specs.Blocks.{as_bounds};
ghost use Rattle.rpki_as.specs.AsDer.{IsAsBlockSequence, as_sequence_octets, as_set_octets};
ghost use Rattle.rpki_as.specs.Blocks.{IsAsSet};
ghost use Rattle.rpki_as.specs.Faults.{overclaimed_as_text};
ghost use Rattle.rpki_as.specs.ListText.{IsAsListText, HasAsListFault, as_list_text};

use rpki_as::{AsBlock, AsBlocks, AsBlocksBuilder, AsStep, FromStrError, OverclaimedAsResources};
use rpki_chain::path::PathRefusal;
use rpki_der::{Cursor, DerError, put_header, tag};
use rpki_text::memory::OrMemory;
use std::alloc::{AllocError, Allocator};

/// Makes the set of `blocks` by a builder.
///
/// # Errors
///
/// [`AllocError`]: out of memory.
pub fn built<A: Allocator + Copy>(alloc: A, blocks: &[AsBlock]) -> Result<AsBlocks<A>, AllocError>
    ensures { IfOk result (IsRunsOfBlocks as_bounds blocks.now) }
{
    let mut builder = AsBlocksBuilder::new(alloc);
    builder.extend_from(blocks)?;
    builder.finalize()
}

/// The results of [`read`]: the sets of a text, of octets, and of canonical octets.
pub type Reads<A> = (
    Result<AsBlocks<A>, OrMemory<FromStrError>>,
    Result<AsBlocks<A>, OrMemory<DerError>>,
    Result<AsBlocks<A>, OrMemory<DerError>>,
);

/// Reads a set from a text, and from the front of octets by a lenient and by a strict cursor.
pub fn read<A: Allocator + Copy>(alloc: A, text: &str, octets: &[u8]) -> Reads<A>
    ensures text { AnswersOrMemory (λ set. set) (IsAsListText text.now) (HasAsListFault text.now)
        result.0 }
    ensures lenient { MatchResult result.1
        (λ set. (rest : List ℕ) × Front IsAsBlockSequence octets.now set rest)
        (IfRefused (λ _. NoFront IsAsBlockSequence octets.now)) }
    ensures strict { MatchResult result.2
        (λ set. (rest : List ℕ) × Front (Spells IsAsSet as_sequence_octets) octets.now set rest)
        (IfRefused (λ _. NoFront (Spells IsAsSet as_sequence_octets) octets.now)) }
{
    let parsed = AsBlocks::from_str(alloc, text);
    let mut cursor = Cursor::new(octets);
    let lenient = AsBlocks::take_from(alloc, &mut cursor);
    let mut strict_cursor = Cursor::new_strict(octets);
    let strict = AsBlocks::take_from(alloc, &mut strict_cursor);
    (parsed, lenient, strict)
}

/// Compares two sets, prints both and encodes both.
///
/// # Errors
///
/// [`AllocError`]: out of memory.
pub fn written<A: Allocator + Copy>(
    alloc: A,
    a: &AsBlocks<A>,
    b: &AsBlocks<A>,
) -> Result<(bool, String<A>, String<A>, Vec<u8, A>, Vec<u8, A>), AllocError>
    ensures equal { IfOk result (λ made. IsTrue made.0
        ↔ ((n : ℕ) → Holds a.now n ↔ Holds b.now n)) }
    ensures texts { IfOk result (λ made. (string_bytes made.1 ≡ string_bytes made.2)
        ↔ ((n : ℕ) → Holds a.now n ↔ Holds b.now n)) }
    ensures octets { IfOk result (λ made. (made.3.items ≡ made.4.items)
        ↔ ((n : ℕ) → Holds a.now n ↔ Holds b.now n)) }
    ensures first { IfOk result (λ made. (string_bytes made.1 ≡ as_list_text a.now)
        × (made.3.items ≡ as_set_octets a.now)) }
{
    rpki_as::laws::printed_sets(); // so that the proof sees that sets print alike only if they are equal
    rpki_as::der::laws::written_sets(); // and encode alike only then
    a.recall_invariant();
    b.recall_invariant();
    let equal = *a == *b;
    let text = format!(in alloc; "{a}")?;
    let other_text = format!(in alloc; "{b}")?;
    let mut octets = Vec::new(alloc);
    a.encode(&mut octets)?;
    let mut other_octets = Vec::new(alloc);
    b.encode(&mut other_octets)?;
    Ok((equal, text, other_text, octets, other_octets))
}

/// Prints a set and parses the text. Encodes it in one SEQUENCE, appends `behind`, and decodes it by both cursors.
///
/// Returns the text, the octets, and what was read back.
///
/// # Errors
///
/// [`AllocError`]: out of memory for a text or for octets.
pub fn read_back<A: Allocator + Copy>(
    alloc: A,
    set: &AsBlocks<A>,
    behind: &[u8],
) -> Result<(String<A>, Vec<u8, A>, Reads<A>), AllocError>
    ensures printed { IfOk result (λ back. string_bytes back.0 ≡ as_list_text set.now) }
    ensures encoded { IfOk result (λ back. back.1.items ≡ as_sequence_octets set.now ++ behind.now) }
    ensures text { IfOk result (λ back. MatchResult back.2.0 (λ read. read ≡ set.now) IsMemory) }
    ensures lenient { IfOk result (λ back. MatchResult back.2.1 (λ read. read ≡ set.now) IsMemory) }
    ensures strict { IfOk result (λ back. MatchResult back.2.2 (λ read. read ≡ set.now) IsMemory) }
{
    let text = format!(in alloc; "{set}")?;
    let parsed = AsBlocks::from_str(alloc, text.as_str());
    let mut content = Vec::new(alloc);
    set.encode(&mut content)?;
    let inside = content.as_slice();
    let mut octets = Vec::new(alloc);
    put_header(&mut octets, tag::SEQUENCE, inside.len())?;
    octets.extend_from_slice(inside)?;
    octets.extend_from_slice(behind)?;
    let mut cursor = Cursor::new(octets.as_slice());
    let lenient = AsBlocks::take_from(alloc, &mut cursor);
    let mut strict_cursor = Cursor::new_strict(octets.as_slice());
    let strict = AsBlocks::take_from(alloc, &mut strict_cursor);
    Ok((text, octets, (parsed, lenient, strict)))
}

/// The result of a path of claims on AS numbers: what it leaves, or its first refusal.
pub type Left<A> = Result<AsBlocks<A>, OrMemory<PathRefusal<OverclaimedAsResources<A>>>>;

/// Returns what a path of claims leaves of `root`, or the first refusal; and the printed text of either.
///
/// # Errors
///
/// [`AllocError`]: out of memory for the text.
pub fn path<A: Allocator + Copy>(
    alloc: A,
    root: &AsBlocks<A>,
    steps: &[AsStep<A>],
) -> Result<(Left<A>, String<A>), AllocError>
    ensures left { IfOk result (λ made. AnswersOrMemory (λ set. set)
        (IsPathResult (λ claim. claim) (Holds root.now) steps.now)
        (IsFirstRefusal (λ claim. claim) (Holds root.now) steps.now) made.0) }
    ensures printed { IfOk result (λ made. MatchResult made.0
        (λ set. string_bytes made.1 ≡ as_list_text set)
        (IfRefused (λ refusal. Some (string_bytes made.1)
        ≡ path_refusal_text (λ excess. Some (overclaimed_as_text excess)) refusal))) }
{
    let left = root.verify_path(alloc, steps);
    let text = text_of(alloc, &left)?;
    Ok((left, text))
}

/// Returns the printed text of the result of a path.
fn text_of<A: Allocator + Copy>(alloc: A, left: &Left<A>) -> Result<String<A>, AllocError>
    ensures { IfOk result (λ text. MatchResult left.now
        (λ set. string_bytes text ≡ as_list_text set)
        (IfRefused (λ refusal. Some (string_bytes text)
        ≡ path_refusal_text (λ excess. Some (overclaimed_as_text excess)) refusal))) }
{
    match left {
        Ok(set) => format!(in alloc; "{set}"),
        Err(error) => format!(in alloc; "{error}"),
    }
}
