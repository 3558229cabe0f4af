//! Sets of addresses in DER: a SEQUENCE of blocks (RFC 3779, 2.2.3.6).
ghost use Rattle.std.specs.Prelude.{◌≡◌, ◌≤◌, ◌+◌, ◌^◌, ◌++◌, length, vec_len, IfSome, IfNone, OnOk, OnErr, IsOk};
ghost use Rattle.std.specs.Vec.{vec_capacity};
ghost use Rattle.rpki_der.specs.SequenceWriting.{sequence_octets};
ghost use Rattle.rpki_der.specs.FamiliesDer.{option_der};
ghost use Rattle.rpki_chain.specs.ChoiceDer.{choice_octets};
ghost use Rattle.rpki_ip_block.specs.BlockDer.{ip_block_der};
ghost use Rattle.rpki_chain.specs.Choices.{if_present};

use crate::blocks::IpBlocks;
use rpki_chain::choice::ResourcesChoice;
use rpki_chain::der::{append_choice, choice_len, content_len};
use rpki_der::sequences::{encode_sequence, take_sequence_of};
use rpki_der::{Cursor, DerError, append_header, header_len, tag};
use rpki_ip::family::AddressFamily;
use rpki_ip_block::block::IpBlock;
use rpki_ip_block::der::IpBlockReader;
use rpki_text::memory::OrMemory;
use std::alloc::{AllocError, Allocator};
use std::marker::Model;

impl<A: Allocator> IpBlocks<A> {
    ghost use Rattle.std.specs.Prelude.{◌≡◌, ℕ, List, ◌≤◌, ◌+◌, ◌++◌, length, vec_len, OnOk, OnErr, IsOk, IfOk, MatchResult};
    ghost use Rattle.std.specs.Vec.{vec_capacity};
    ghost use Rattle.rpki_chain.specs.Runs.{Runs, Holds, IsRunsOfBlocks};
    ghost use Rattle.rpki_der.specs.Der.{Spells};
    ghost use Rattle.rpki_der.specs.Views.{Lenient, Strict, is_strict, left};
    ghost use Rattle.rpki_der.specs.SequenceViews.{NotCanonicalOrMemory, ReadsOrMemory, TakesSaidOrMemory};
    ghost use Rattle.rpki_text.specs.Memory.{IsMemory};
    ghost use Rattle.rpki_der.specs.Families.{bits_of};
    ghost use Rattle.rpki_ip.specs.Whole.{IsWhole};
    ghost use Rattle.rpki_der.specs.declared.family.AddressFamily.TheVariants.{Ipv4};
    ghost use Rattle.rpki_ip_block.specs.BlockReading.{ip_blocks_at};
    ghost use Rattle.rpki_ip_block.specs.Blocks.{ip_bounds};
    ghost use Rattle.rpki_ipres.specs.Modes.{ip_blocks_by};
    ghost use Rattle.rpki_ipres.specs.SetDer.{IsIpBlockSequence, ip_family_der, ip_set_der};
    ghost use Rattle.rpki_ipres.specs.SetText.{IsFamilySet, IsIpSet};

    /// Reads a SEQUENCE of blocks and returns the set of their addresses (RFC 3779, 2.2.3.6).
    ///
    /// The SEQUENCE may be empty. From a lenient cursor the blocks may be in any order and may overlap. Their prefixes
    /// have lengths up to 128.
    ///
    /// # Errors
    ///
    /// The cursor is unchanged then.
    ///
    /// - [`OrMemory::Refused`] with the first fault. It is a fault of the SEQUENCE as in [`Cursor::take_sequence`], or
    ///   of a block as in [`IpBlock::take_opt_from`]. From a strict cursor it is also `NotCanonical`, if a block
    ///   doesn't begin more than one above the greatest address of the block before it (RFC 3779, 2.2.3.6).
    /// - [`OrMemory::Memory`]: an allocation failed.
    pub fn take_from(alloc: A, cursor: &mut Cursor<'_>) -> Result<IpBlocks<A>, OrMemory<DerError>>
    where
        A: Copy,
        ensures reads { Lenient cursor.old
            (ReadsOrMemory (IsIpBlockSequence 128) (λ set. set) cursor.old cursor.new result) }
        ensures exact { Lenient cursor.old
            (TakesSaidOrMemory (IsRunsOfBlocks ip_bounds) cursor.old cursor.new result
            (ip_blocks_at 128)) }
        // The encoding of a set is read back as that set, with any octets after it.
        ensures reads_back { (set : Runs) (rest : List ℕ) → IsIpSet set
            → left cursor.old ≡ ip_set_der set ++ rest
            → MatchResult result (λ read. (read ≡ set) × (left cursor.new ≡ rest)) IsMemory }
        // A strict cursor accepts exactly the encodings of sets.
        ensures strict { Strict cursor.old
            (ReadsOrMemory (Spells IsIpSet ip_set_der) (λ set. set) cursor.old cursor.new result) }
        ensures refused { NotCanonicalOrMemory (IsIpBlockSequence 128) cursor.old result }
        // This clause is for both modes.
        ensures by_mode { TakesSaidOrMemory (IsRunsOfBlocks ip_bounds) cursor.old cursor.new result
            (ip_blocks_by (is_strict cursor.old) 128) }
        ensures mode { is_strict cursor.new ≡ is_strict cursor.old }
    {
        Self::take_from_with_family_by_mode(alloc, cursor, AddressFamily::Ipv6)
    }

    /// Reads a SEQUENCE of blocks of `family` as `take_from` does.
    ///
    /// # Errors
    ///
    /// The errors are those of `take_from`. `BadPrefix` is also returned for a prefix that is longer than the family's
    /// addresses. The cursor is unchanged then.
    pub fn take_from_with_family(
        alloc: A,
        cursor: &mut Cursor<'_>,
        family: AddressFamily,
    ) -> Result<IpBlocks<A>, OrMemory<DerError>>
    where
        A: Copy,
        ensures reads { Lenient cursor.old
            (ReadsOrMemory (IsIpBlockSequence (bits_of family)) (λ set. set) cursor.old cursor.new
            result) }
        ensures exact { Lenient cursor.old
            (TakesSaidOrMemory (IsRunsOfBlocks ip_bounds) cursor.old cursor.new result
            (ip_blocks_at (bits_of family))) }
        ensures whole { IfOk result (λ set. family ≡ Ipv4 → IsWhole (Holds set)) }
        // The encoding of a set of the family is read back as that set, with any octets after it.
        ensures reads_back { (set : Runs) (rest : List ℕ) → IsFamilySet family set
            → left cursor.old ≡ ip_set_der set ++ rest
            → MatchResult result (λ read. (read ≡ set) × (left cursor.new ≡ rest)) IsMemory }
        // A strict cursor accepts exactly the encodings of sets of the family.
        ensures strict { Strict cursor.old
            (ReadsOrMemory (Spells (IsFamilySet family) ip_set_der) (λ set. set) cursor.old
            cursor.new result) }
        ensures refused { NotCanonicalOrMemory (IsIpBlockSequence (bits_of family)) cursor.old
            result }
        // This clause is for both modes.
        ensures by_mode { TakesSaidOrMemory (IsRunsOfBlocks ip_bounds) cursor.old cursor.new result
            (ip_blocks_by (is_strict cursor.old) (bits_of family)) }
        ensures mode { is_strict cursor.new ≡ is_strict cursor.old }
    {
        Self::take_from_with_family_by_mode(alloc, cursor, family)
    }

    /// Appends the SEQUENCE of the set's runs to `out`, ascending (RFC 3779, 2.2.3.6).
    ///
    /// A run is encoded as a prefix if its addresses are those of a prefix, and otherwise as the SEQUENCE of its
    /// bounds.
    ///
    /// # Errors
    ///
    /// [`AllocError`] if an allocation fails. The octets of `out` are unchanged then.
    #[tactic(auto, using(crate::proofs::IpSetWritten::written_as_runs))]
    pub fn encode<B: Allocator>(&self, out: &mut Vec<u8, B>) -> Result<(), AllocError>
        ensures ok { OnOk result (out.new.items ≡ out.old.items ++ ip_set_der self.now) }
        ensures err { OnErr result (out.new.items ≡ out.old.items) }
        ensures succeeds { vec_len out.old + length (ip_set_der self.now) ≤ vec_capacity out.old
            → IsOk result }
        ensures capacity { vec_capacity out.old ≤ vec_capacity out.new }
        ensures set { IsIpSet self.now }
    {
        encode_sequence(self.iter().as_slice(), out)
    }

    /// Appends the SEQUENCE of the family and of the octets that `encode` appends (RFC 3779, 2.2.3.2).
    ///
    /// The empty set appends nothing. A set of the family can be read back. An IPv4 set must consist of whole IPv4
    /// addresses for that. For other sets the IPv4 encoding has prefixes and bounds of more than 32 bits, which readers
    /// of IPv4 refuse.
    ///
    /// # Errors
    ///
    /// [`AllocError`] if an allocation fails. The octets of `out` are unchanged then.
    #[tactic(auto, using(crate::proofs::IpSetWritten::family_written))]
    pub fn encode_family<B: Allocator>(
        &self,
        family: AddressFamily,
        out: &mut Vec<u8, B>,
    ) -> Result<(), AllocError>
        ensures ok { OnOk result (out.new.items ≡ out.old.items ++ ip_family_der family self.now) }
        ensures err { OnErr result (out.new.items ≡ out.old.items) }
        ensures succeeds { vec_len out.old + length (ip_family_der family self.now)
            ≤ vec_capacity out.old → IsOk result }
        ensures capacity { vec_capacity out.old ≤ vec_capacity out.new }
        ensures set { IsIpSet self.now }
    {
        let blocks = self.iter().as_slice();
        if blocks.is_empty() {
            return Ok(());
        }
        put_family(out, family, &ResourcesChoice::Blocks(blocks))
    }

    // Reads for both `take_from` and `take_from_with_family`.
    fn take_from_with_family_by_mode(
        alloc: A,
        cursor: &mut Cursor<'_>,
        family: AddressFamily,
    ) -> Result<IpBlocks<A>, OrMemory<DerError>>
    where
        A: Copy,
        ensures by_mode { TakesSaidOrMemory (IsRunsOfBlocks ip_bounds) cursor.old cursor.new result
            (ip_blocks_by (is_strict cursor.old) (bits_of family)) }
        ensures mode { is_strict cursor.new ≡ is_strict cursor.old }
    {
        let mut ahead = *cursor;
        let blocks = take_sequence_of(alloc, &IpBlockReader { family }, &mut ahead)?;
        let set = if cursor.is_strict() {
            IpBlocks::from_vec_unchecked(alloc, blocks)?
        } else {
            IpBlocks::from_vec(alloc, blocks)?
        };
        *cursor = ahead;
        Ok(set)
    }
}

/// Appends the SEQUENCE of a family and of its resources. Missing resources append nothing.
///
/// # Errors
///
/// [`AllocError`] if an allocation fails. The octets of `out` are unchanged then.
pub(crate) fn put_family<B: Allocator>(
    out: &mut Vec<u8, B>,
    family: AddressFamily,
    resources: &ResourcesChoice<&[IpBlock]>,
) -> Result<(), AllocError>
    ensures ok { OnOk result (out.new.items ≡ out.old.items
        ++ option_der (choice_octets (λ blocks. sequence_octets ip_block_der blocks.now)) family
        (if_present resources.now)) }
    ensures err { OnErr result (out.new.items ≡ out.old.items) }
    ensures succeeds { vec_len out.old + length
        (option_der (choice_octets (λ blocks. sequence_octets ip_block_der blocks.now)) family
        (if_present resources.now))
        ≤ vec_capacity out.old → IsOk result }
    ensures capacity { vec_capacity out.old ≤ vec_capacity out.new }
{
    let Some(member) = Member::new(family, resources) else {
        return Err(AllocError);
    };
    out.reserve(member.len())?;
    member.append(out);
    Ok(())
}

/// A family, its resources, and two lengths in octets: of the blocks alone, and of the whole content of their SEQUENCE.
///
/// In contracts its value is the encoding, as `put_family` appends it.
#[derive(Drop)]
pub(crate) struct Member<'a> {
    family: AddressFamily,
    resources: &'a ResourcesChoice<&'a [IpBlock]>,
    blocks_len: usize,
    content_len: usize,
}

impl<'a> Model for Member<'a> {
    ghost use Rattle.std.specs.Prelude.{◌≡◌, ℕ, List, ◌<◌, ◌+◌, ◌^◌, ◌++◌, length};
    ghost use Rattle.rpki_der.specs.SequenceWriting.{octets_of_all, sequence_octets};
    ghost use Rattle.rpki_der.specs.FamiliesDer.{option_der};
    ghost use Rattle.rpki_der.specs.FamilyDer.{family_der};
    ghost use Rattle.rpki_chain.specs.ChoiceDer.{choice_octets};
    ghost use Rattle.rpki_chain.specs.Choices.{if_present};
    ghost use Rattle.rpki_ip_block.specs.BlockDer.{ip_block_der};

    ghost Value = { List ℕ };

    ghost view = { λ m. option_der (choice_octets (λ blocks. sequence_octets ip_block_der blocks.now)) m.family
        (if_present m.resources.now) };

    ghost invariant = { λ m.
        (m.blocks_len ≡ length (choice_octets (λ blocks. octets_of_all ip_block_der blocks.now) m.resources.now))
        × (m.content_len ≡ length (family_der m.family
        ++ choice_octets (λ blocks. sequence_octets ip_block_der blocks.now) m.resources.now))
        × (m.content_len < 2 ^ 63 + 14) };
}

impl<'a> Member<'a> {
    /// Returns the resources of a family, or None if no vector can hold their encoding.
    pub(crate) fn new(
        family: AddressFamily,
        resources: &'a ResourcesChoice<&'a [IpBlock]>,
    ) -> Option<Member<'a>>
        ensures some { IfSome result (λ member. member
            ≡ option_der (choice_octets (λ blocks. sequence_octets ip_block_der blocks.now)) family
            (if_present resources.now)) }
        ensures none { IfNone result (2 ^ 63 ≤ length
            (option_der (choice_octets (λ blocks. sequence_octets ip_block_der blocks.now)) family
            (if_present resources.now))) }
    {
        let blocks_len = content_len(resources)?;
        let content_len = choice_len(resources, blocks_len) + family.encoded_len();
        Some(Member {
            family,
            resources,
            blocks_len,
            content_len,
        })
    }

    /// Returns how many octets `append` appends.
    pub(crate) fn len(&self) -> usize
        ensures { result ≡ length self.now }
    {
        if matches!(self.resources, ResourcesChoice::Missing) {
            return 0;
        }
        header_len(tag::SEQUENCE, self.content_len) + self.content_len
    }

    /// Appends the octets that `put_family` appends.
    ///
    /// # Preconditions
    ///
    /// The free capacity of `out` suffices for the encoding.
    pub(crate) fn append<B: Allocator>(&self, out: &mut Vec<u8, B>)
        requires fits { vec_len out.old + length self.now ≤ vec_capacity out.old }
        ensures items { out.new.items ≡ out.old.items ++ self.now }
        ensures capacity { vec_capacity out.old ≤ vec_capacity out.new }
    {
        if matches!(self.resources, ResourcesChoice::Missing) {
            return;
        }
        append_header(out, tag::SEQUENCE, self.content_len);
        self.family.append(out);
        append_choice(self.resources, self.blocks_len, out);
    }
}
