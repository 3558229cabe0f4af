//! Sets of addresses of a family: from builders, texts and DER, and back; and what paths of claims leave of them.
ghost use Rattle.std.specs.Prelude.{◌≡◌, ◌++◌, ℕ, ◌↔◌, List, All, IsTrue, IfOk, MatchResult, Some, string_bytes};
ghost use Rattle.rpki_text.specs.Memory.{IfRefused, IsMemory};
ghost use Rattle.rpki_text.specs.Reading.{AnswersOrMemory};
ghost use Rattle.rpki_der.specs.Der.{Front, NoFront, Spells};
ghost use Rattle.rpki_der.specs.Families.{bits_of};
ghost use Rattle.rpki_chain.specs.Paths.{IsFirstRefusal, IsPathResult, path_refusal_text};
ghost use Rattle.rpki_chain.specs.Runs.{Holds, IsRunsOfBlocks};
ghost use Rattle.rpki_cover.specs.Covers.{IsShortestCover};
ghost use Rattle.rpki_ip_block.specs.Blocks.{ip_bounds};
ghost use Rattle.rpki_ip_block.specs.ListText.{HasBlocks, HasBlocksFault};
ghost use Rattle.rpki_ipres.specs.Families.{IsClaimIn};
ghost use Rattle.rpki_ipres.specs.SetDer.{IsIpBlockSequence, ip_set_der};
ghost use Rattle.rpki_ipres.specs.SetText.{IsFamilySet, IsSetOf, overclaimed_ip_text, set_text};

use rpki_chain::path::PathRefusal;
use rpki_der::family::{AddressFamily, Family};
use rpki_der::{Cursor, DerError};
use rpki_family::blocks::FamilyBlocks;
use rpki_family::prefixes::FamilySetPrefixes;
use rpki_ip::error::FromStrError;
use rpki_ipres::overclaim::OverclaimedFamilyResources;
use rpki_ipres::{IpBlock, IpBlocks, IpBlocksBuilder, IpStep};
use rpki_text::memory::OrMemory;
use std::alloc::{AllocError, Allocator};

/// Makes the set of `blocks` by a builder.
///
/// # Errors
///
/// [`AllocError`]: out of memory.
pub fn built<A: Allocator + Copy>(alloc: A, blocks: &[IpBlock]) -> Result<IpBlocks<A>, AllocError>
    ensures { IfOk result (IsRunsOfBlocks ip_bounds blocks.now) }
{
    let mut builder = IpBlocksBuilder::new(alloc);
    builder.extend_from(blocks)?;
    builder.finalize()
}

/// The results of [`read`]: the sets of a text, of octets, and of canonical octets.
pub type Reads<A> = (
    Result<IpBlocks<A>, OrMemory<FromStrError>>,
    Result<IpBlocks<A>, OrMemory<DerError>>,
    Result<IpBlocks<A>, OrMemory<DerError>>,
);

/// Reads a set from a text, and from the front of octets by a lenient and by a strict cursor.
pub fn read<A: Allocator + Copy>(
    alloc: A,
    family: AddressFamily,
    text: &str,
    octets: &[u8],
) -> Reads<A>
    ensures text { AnswersOrMemory (λ set. set) (IsSetOf (HasBlocks family text.now))
        (HasBlocksFault family text.now) result.0 }
    ensures lenient { MatchResult result.1
        (λ set. (rest : List ℕ) × Front (IsIpBlockSequence (bits_of family)) octets.now set rest)
        (IfRefused (λ _. NoFront (IsIpBlockSequence (bits_of family)) octets.now)) }
    ensures strict { MatchResult result.2 (λ set. (rest : List ℕ)
        × Front (Spells (IsFamilySet family) ip_set_der) octets.now set rest)
        (IfRefused (λ _. NoFront (Spells (IsFamilySet family) ip_set_der) octets.now)) }
{
    let parsed = IpBlocks::from_str_with_family(alloc, family, text);
    let mut cursor = Cursor::new(octets);
    let lenient = IpBlocks::take_from_with_family(alloc, &mut cursor, family);
    let mut strict_cursor = Cursor::new_strict(octets);
    let strict = IpBlocks::take_from_with_family(alloc, &mut strict_cursor, family);
    (parsed, lenient, strict)
}

/// Compares two sets of a family, prints both and encodes both.
///
/// # Errors
///
/// [`AllocError`]: out of memory.
pub fn written<F: Family, A: Allocator + Copy>(
    alloc: A,
    a: &FamilyBlocks<F, A>,
    b: &FamilyBlocks<F, A>,
) -> Result<(bool, String<A>, String<A>, Vec<u8, A>, Vec<u8, A>), AllocError>
    ensures equal { IfOk result (λ made. IsTrue made.0
        ↔ ((n : ℕ) → Holds a.now n ↔ Holds b.now n)) }
    ensures texts { IfOk result (λ made. (string_bytes made.1 ≡ string_bytes made.2)
        ↔ ((n : ℕ) → Holds a.now n ↔ Holds b.now n)) }
    ensures octets { IfOk result (λ made. (made.3.items ≡ made.4.items)
        ↔ ((n : ℕ) → Holds a.now n ↔ Holds b.now n)) }
    ensures first { IfOk result (λ made. (string_bytes made.1 ≡ set_text F.FAMILY a.now)
        × (made.3.items ≡ ip_set_der a.now)) }
{
    rpki_ipres::laws::printed_sets(); // so that the proof sees that sets print alike only if they are equal
    rpki_ipres::der::laws::canonical(); // and encode alike only then
    a.recall_invariant();
    b.recall_invariant();
    let equal = *a == *b;
    let text = format!(in alloc; "{a}")?;
    let other_text = format!(in alloc; "{b}")?;
    let mut octets = Vec::new(alloc);
    a.ip_blocks().encode(&mut octets)?;
    let mut other_octets = Vec::new(alloc);
    b.ip_blocks().encode(&mut other_octets)?;
    Ok((equal, text, other_text, octets, other_octets))
}

/// Prints a set of a family and parses the text. Encodes it, appends `behind`, and decodes it by both cursors.
///
/// Returns the text, the octets, and what was read back.
///
/// # Errors
///
/// [`AllocError`]: out of memory for a text or for octets.
pub fn read_back<F: Family, A: Allocator + Copy>(
    alloc: A,
    set: &FamilyBlocks<F, A>,
    behind: &[u8],
) -> Result<(String<A>, Vec<u8, A>, Reads<A>), AllocError>
    ensures printed { IfOk result (λ back. string_bytes back.0 ≡ set_text F.FAMILY set.now) }
    ensures encoded { IfOk result (λ back. back.1.items ≡ ip_set_der set.now ++ behind.now) }
    ensures text { IfOk result (λ back. MatchResult back.2.0 (λ read. read ≡ set.now) IsMemory) }
    ensures lenient { IfOk result (λ back. MatchResult back.2.1 (λ read. read ≡ set.now) IsMemory) }
    ensures strict { IfOk result (λ back. MatchResult back.2.2 (λ read. read ≡ set.now) IsMemory) }
{
    set.recall_invariant();
    let text = format!(in alloc; "{set}")?;
    let parsed = IpBlocks::from_str_with_family(alloc, F::FAMILY, text.as_str());
    let mut octets = Vec::new(alloc);
    set.ip_blocks().encode(&mut octets)?;
    octets.extend_from_slice(behind)?;
    let mut cursor = Cursor::new(octets.as_slice());
    let lenient = IpBlocks::take_from_with_family(alloc, &mut cursor, F::FAMILY);
    let mut strict_cursor = Cursor::new_strict(octets.as_slice());
    let strict = IpBlocks::take_from_with_family(alloc, &mut strict_cursor, F::FAMILY);
    Ok((text, octets, (parsed, lenient, strict)))
}

/// The result of a path of claims on addresses of a family: what it leaves, or its first refusal.
pub type Left<F, A> = Result<
    FamilyBlocks<F, A>,
    OrMemory<PathRefusal<OverclaimedFamilyResources<F, A>>>,
>;

/// Returns what a path of claims leaves of `root`, or the first refusal; and the printed text of either.
///
/// # Preconditions
///
/// In IPv4 each listed claim consists of whole addresses.
///
/// # Errors
///
/// [`AllocError`]: out of memory for the text.
pub fn path<F: Family, A: Allocator + Copy>(
    alloc: A,
    root: &FamilyBlocks<F, A>,
    steps: &[IpStep<A>],
) -> Result<(Left<F, A>, String<A>), AllocError>
    requires { All (λ step. IsClaimIn F.FAMILY step.claim) steps.now }
    ensures left { IfOk result (λ made. AnswersOrMemory (λ set. set)
        (IsPathResult (λ claim. claim) (Holds root.now) steps.now)
        (IsFirstRefusal (λ claim. claim) (Holds root.now) steps.now) made.0) }
    ensures printed { IfOk result (λ made. MatchResult made.0
        (λ set. string_bytes made.1 ≡ set_text F.FAMILY set)
        (IfRefused (λ refusal. Some (string_bytes made.1)
        ≡ path_refusal_text (λ excess. Some (overclaimed_ip_text F.FAMILY excess)) refusal))) }
{
    let left = root.verify_path(alloc, steps);
    let text = text_of(alloc, &left)?;
    Ok((left, text))
}

/// Returns the printed text of the result of a path.
fn text_of<F: Family, A: Allocator + Copy>(
    alloc: A,
    left: &Left<F, A>,
) -> Result<String<A>, AllocError>
    ensures { IfOk result (λ text. MatchResult left.now
        (λ set. string_bytes text ≡ set_text F.FAMILY set)
        (IfRefused (λ refusal. Some (string_bytes text)
        ≡ path_refusal_text (λ excess. Some (overclaimed_ip_text F.FAMILY excess)) refusal))) }
{
    match left {
        Ok(set) => format!(in alloc; "{set}"),
        Err(error) => format!(in alloc; "{error}"),
    }
}

/// Returns the prefixes of a set: the shortest list with exactly its addresses.
pub fn prefixes<F: Family, A: Allocator>(set: &FamilyBlocks<F, A>) -> FamilySetPrefixes<'_, F>
    ensures { IsShortestCover 128 (Holds set.now) result }
{
    set.prefixes()
}
