//! Resources of addresses in DER: of one family, and by families (RFC 3779, 2.2.3.1 to 2.2.3.6).
use crate::der::blocks::{Member, put_family};
use crate::resources::IpResources;
use rpki_chain::der::{encode_choice, take_listed};
use rpki_der::sequences::{ReadClaim, take_families};
use rpki_der::{Cursor, DerError, append_header, header_len, tag};
use rpki_ip::family::AddressFamily;
use rpki_ip_block::der::IpBlockReader;
use rpki_text::memory::OrMemory;
use std::alloc::{AllocError, Allocator};

impl<A: Allocator> IpResources<A> {
    ghost use Rattle.std.specs.Prelude.{◌≡◌, ◌≢◌, List, ℕ, ◌≤◌, ◌+◌, ◌++◌, length, vec_len, OnOk, OnErr, IsOk, IfOk, IfSome, MatchResult};
    ghost use Rattle.std.specs.Vec.{vec_capacity};
    ghost use Rattle.rpki_text.specs.Memory.{IsMemory};
    ghost use Rattle.rpki_der.specs.Der.{Spells};
    ghost use Rattle.rpki_der.specs.Views.{Lenient, Strict, is_strict, left};
    ghost use Rattle.rpki_der.specs.SequenceViews.{NotCanonicalOrMemory, ReadsOrMemory, TakesSaidOrMemory};
    ghost use Rattle.rpki_chain.specs.Claims.{Claim};
    ghost use Rattle.rpki_chain.specs.declared.choice.ResourcesChoice.TheVariants.{Missing};
    ghost use Rattle.rpki_der.specs.Families.{bits_of};
    ghost use Rattle.rpki_der.specs.declared.family.AddressFamily.TheVariants.{Ipv4, Ipv6};
    ghost use Rattle.rpki_ipres.specs.Modes.{ip_families_by, ip_resources_by};
    ghost use Rattle.rpki_der.specs.FamiliesDer.{families_der};
    ghost use Rattle.rpki_ipres.specs.Resources.{ArePresentClaims, IsPresentFamilyClaim, IsFamilyClaim, IsIpClaim, IsWholeClaim};
    ghost use Rattle.rpki_chain.specs.Choices.{if_present};
    ghost use Rattle.rpki_ipres.specs.ResourcesDer.{IsIpFamilies, IsIpResources, SaysClaimOf, SaysClaims, ip_families_at, ip_families_der, ip_member_der, ip_resources_at, ip_resources_der};

    /// Reads the resources of a family (RFC 3779, 2.2.3.4).
    ///
    /// They are a NULL for inherited resources, or a SEQUENCE of at least one block of the family. From a lenient
    /// cursor the blocks may be in any order and may overlap.
    ///
    /// # Errors
    ///
    /// The cursor is unchanged then.
    ///
    /// - [`OrMemory::Refused`] with the first fault:
    ///   - a fault of [`Cursor::take_value`];
    ///   - `BadTag`: the value is neither a NULL nor a SEQUENCE;
    ///   - `BadNull`: the NULL has content;
    ///   - a fault of a block as in [`IpBlock::take_opt_from_with_family`];
    ///   - `EmptyBlocks`: the SEQUENCE is empty;
    ///   - `NotCanonical`, from a strict cursor, also as in
    ///     [`IpBlocks::take_from_with_family`](crate::blocks::IpBlocks::take_from_with_family).
    /// - [`OrMemory::Memory`]: an allocation failed.
    ///
    /// [`IpBlock::take_opt_from_with_family`]: crate::block::IpBlock::take_opt_from_with_family
    pub fn take_from(
        alloc: A,
        cursor: &mut Cursor<'_>,
        family: AddressFamily,
    ) -> Result<IpResources<A>, OrMemory<DerError>>
    where
        A: Copy,
        ensures reads { Lenient cursor.old
            (ReadsOrMemory (IsIpResources (bits_of family)) (λ claim. claim) cursor.old cursor.new
            result) }
        ensures exact { Lenient cursor.old
            (TakesSaidOrMemory SaysClaimOf cursor.old cursor.new result
            (ip_resources_at (bits_of family))) }
        ensures whole { IfOk result (λ claim. family ≡ Ipv4 → IsWholeClaim claim) }
        // The encoding of resources of the family that aren't missing is read back as them, with any octets after it.
        ensures reads_back { (claim : Claim) (rest : List ℕ) → IsFamilyClaim family claim
            → claim ≢ Missing
            → left cursor.old ≡ ip_resources_der claim ++ rest
            → MatchResult result (λ read. (read ≡ claim) × (left cursor.new ≡ rest)) IsMemory }
        // A strict cursor accepts exactly the encodings of resources of the family that aren't missing.
        ensures strict { Strict cursor.old
            (ReadsOrMemory (Spells (IsPresentFamilyClaim family) ip_resources_der) (λ claim. claim)
            cursor.old cursor.new result) }
        ensures refused { NotCanonicalOrMemory (IsIpResources (bits_of family)) cursor.old result }
        // This clause is for both modes.
        ensures by_mode { TakesSaidOrMemory SaysClaimOf cursor.old cursor.new result
            (ip_resources_by (is_strict cursor.old) (bits_of family)) }
        ensures mode { is_strict cursor.new ≡ is_strict cursor.old }
    {
        Self::take_from_by_mode(alloc, cursor, family)
    }

    /// Appends the encoding of the resources (RFC 3779, 2.2.3.4 to 2.2.3.6).
    ///
    /// It is a NULL for inherited resources, or the SEQUENCE of the set's runs, ascending. A run is encoded as a prefix
    /// if its addresses are those of a prefix, and otherwise as the SEQUENCE of its bounds.
    ///
    /// # Preconditions
    ///
    /// The resources aren't missing: missing resources have no encoding.
    ///
    /// # Errors
    ///
    /// [`AllocError`] if an allocation fails. The octets of `out` are unchanged then.
    pub fn encode<B: Allocator>(&self, out: &mut Vec<u8, B>) -> Result<(), AllocError>
        requires { self.now ≢ Missing }
        ensures ok { OnOk result (out.new.items ≡ out.old.items ++ ip_resources_der self.now) }
        ensures err { OnErr result (out.new.items ≡ out.old.items) }
        ensures succeeds { vec_len out.old + length (ip_resources_der self.now)
            ≤ vec_capacity out.old → IsOk result }
        ensures capacity { vec_capacity out.old ≤ vec_capacity out.new }
        ensures claim { IsIpClaim self.now }
    {
        encode_choice(&self.as_choice(), out)
    }

    /// Appends the SEQUENCE of the family and of the octets that `encode` appends (RFC 3779, 2.2.3.2).
    ///
    /// Missing resources append nothing. Resources of the family can be read back. IPv4 resources must list whole IPv4
    /// addresses for that.
    ///
    /// # Errors
    ///
    /// [`AllocError`] if an allocation fails. The octets of `out` are unchanged then.
    pub fn encode_family<B: Allocator>(
        &self,
        family: AddressFamily,
        out: &mut Vec<u8, B>,
    ) -> Result<(), AllocError>
        ensures ok { OnOk result (out.new.items ≡ out.old.items ++ ip_member_der family self.now) }
        ensures err { OnErr result (out.new.items ≡ out.old.items) }
        ensures succeeds { vec_len out.old + length (ip_member_der family self.now)
            ≤ vec_capacity out.old → IsOk result }
        ensures capacity { vec_capacity out.old ≤ vec_capacity out.new }
        ensures claim { IsIpClaim self.now }
    {
        put_family(out, family, &self.as_choice())
    }

    /// Reads a SEQUENCE of families and returns the resources of IPv4 and of IPv6. An unlisted family gives None.
    ///
    /// The SEQUENCE has at least one family, each at most once (RFC 3779, 2.2.3.1 to 2.2.3.3; RFC 6487, 4.8.10). From a
    /// lenient cursor the families may be in any order.
    ///
    /// # Errors
    ///
    /// The cursor is unchanged then.
    ///
    /// - [`OrMemory::Refused`] with the first fault:
    ///   - a fault of a SEQUENCE or of a family;
    ///   - `DuplicateFamily`: a family was listed before. This is checked before its resources are read;
    ///   - a fault of the resources of a family as in `take_from`;
    ///   - `TrailingData`: octets are left after the resources of a family;
    ///   - `NoFamily`: the SEQUENCE is empty;
    ///   - `NotCanonical`, from a strict cursor, also for IPv4 after IPv6. This is checked before the resources are
    ///     read.
    /// - [`OrMemory::Memory`]: an allocation failed.
    pub fn take_families_from(
        alloc: A,
        cursor: &mut Cursor<'_>,
    ) -> Result<(Option<IpResources<A>>, Option<IpResources<A>>), OrMemory<DerError>>
    where
        A: Copy,
        ensures reads { Lenient cursor.old
            (ReadsOrMemory IsIpFamilies (λ found. found) cursor.old cursor.new result) }
        ensures exact { Lenient cursor.old
            (TakesSaidOrMemory SaysClaims cursor.old cursor.new result ip_families_at) }
        ensures whole { IfOk result (λ found. IfSome found.0 IsWholeClaim) }
        // The encoding of families is read back as them, with any octets after it. A missing family is read as None.
        ensures reads_back { (v4 v6 : Claim) (rest : List ℕ) → IsFamilyClaim Ipv4 v4
            → IsFamilyClaim Ipv6 v6 → (v4 ≡ Missing → v6 ≢ Missing)
            → left cursor.old ≡ ip_families_der v4 v6 ++ rest
            → MatchResult result (λ read. (read ≡ (if_present v4, if_present v6))
            × (left cursor.new ≡ rest)) IsMemory }
        // A strict cursor accepts exactly the encodings of families of which at least one isn't missing.
        ensures strict { Strict cursor.old
            (ReadsOrMemory (Spells ArePresentClaims (families_der ip_resources_der))
            (λ found. found) cursor.old cursor.new result) }
        ensures refused { NotCanonicalOrMemory IsIpFamilies cursor.old result }
        // This clause is for both modes.
        ensures by_mode { TakesSaidOrMemory SaysClaims cursor.old cursor.new result
            (ip_families_by (is_strict cursor.old)) }
        ensures mode { is_strict cursor.new ≡ is_strict cursor.old }
    {
        Self::take_families_from_by_mode(alloc, cursor)
    }

    /// Appends the SEQUENCE of the families that have resources, IPv4 first, each as `encode_family` appends it.
    ///
    /// # Preconditions
    ///
    /// At least one of `v4` and `v6` isn't missing.
    ///
    /// # Errors
    ///
    /// [`AllocError`] if an allocation fails. The octets of `out` are unchanged then.
    pub fn encode_families<B: Allocator>(
        v4: &IpResources<A>,
        v6: &IpResources<A>,
        out: &mut Vec<u8, B>,
    ) -> Result<(), AllocError>
        requires { v4.now ≡ Missing → v6.now ≢ Missing }
        ensures ok { OnOk result (out.new.items ≡ out.old.items ++ ip_families_der v4.now v6.now) }
        ensures err { OnErr result (out.new.items ≡ out.old.items) }
        ensures succeeds { vec_len out.old + length (ip_families_der v4.now v6.now)
            ≤ vec_capacity out.old → IsOk result }
        ensures capacity { vec_capacity out.old ≤ vec_capacity out.new }
        ensures claims { IsIpClaim v4.now × IsIpClaim v6.now }
    {
        let (v4, v6) = (v4.as_choice(), v6.as_choice());
        let (Some(v4), Some(v6)) = (
            Member::new(AddressFamily::Ipv4, &v4),
            Member::new(AddressFamily::Ipv6, &v6),
        ) else {
            return Err(AllocError);
        };
        let Some(content_len) = v4.len().checked_add(v6.len()) else {
            return Err(AllocError);
        };
        let Some(total) = header_len(tag::SEQUENCE, content_len).checked_add(content_len) else {
            return Err(AllocError);
        };
        out.reserve(total)?;
        append_header(out, tag::SEQUENCE, content_len);
        v4.append(out);
        v6.append(out);
        Ok(())
    }

    // Reads for `take_from` and `take_families_from`.
    fn take_from_by_mode(
        alloc: A,
        cursor: &mut Cursor<'_>,
        family: AddressFamily,
    ) -> Result<IpResources<A>, OrMemory<DerError>>
    where
        A: Copy,
        ensures by_mode { TakesSaidOrMemory SaysClaimOf cursor.old cursor.new result
            (ip_resources_by (is_strict cursor.old) (bits_of family)) }
        ensures mode { is_strict cursor.new ≡ is_strict cursor.old }
    {
        let mut ahead = *cursor;
        let listed = take_listed(alloc, &IpBlockReader { family }, &mut ahead)?;
        let resources = IpResources::from_listed(alloc, listed, cursor.is_strict())?;
        *cursor = ahead;
        Ok(resources)
    }

    fn take_families_from_by_mode(
        alloc: A,
        cursor: &mut Cursor<'_>,
    ) -> Result<(Option<IpResources<A>>, Option<IpResources<A>>), OrMemory<DerError>>
    where
        A: Copy,
        ensures reads { Lenient cursor.old
            (ReadsOrMemory IsIpFamilies (λ found. found) cursor.old cursor.new result) }
        ensures exact { Lenient cursor.old
            (TakesSaidOrMemory SaysClaims cursor.old cursor.new result ip_families_at) }
        // This clause is for both modes.
        ensures by_mode { TakesSaidOrMemory SaysClaims cursor.old cursor.new result
            (ip_families_by (is_strict cursor.old)) }
        ensures mode { is_strict cursor.new ≡ is_strict cursor.old }
    {
        take_families(&IpResourcesReader { alloc }, cursor)
    }
}

/// A reader of the resources of families.
#[derive(Clone, Copy, Debug)]
struct IpResourcesReader<A: Allocator> {
    alloc: A,
}

impl<A: Allocator + Copy> ReadClaim for IpResourcesReader<A> {
    ghost use Rattle.std.specs.Prelude.{List, None};
    ghost use Rattle.rpki_der.specs.SequenceReading.{IsSequenceFrom, IsSequenceOf};
    ghost use Rattle.rpki_chain.specs.ChoiceDer.{IsChoiceOf};
    ghost use Rattle.rpki_chain.specs.declared.choice.ResourcesChoice.{ResourcesChoice};
    ghost use Rattle.rpki_der.specs.Families.{bits_of};
    ghost use Rattle.rpki_ip_block.specs.BlockDer.{IsIpBlockDer};
    ghost use Rattle.rpki_ip_block.specs.declared.block.IpBlock.{IpBlock};
    ghost use Rattle.rpki_ipres.specs.ResourcesDer.{SaysClaimOf, ip_resources_at};
    ghost use Rattle.rpki_ip_block.specs.BlockModes.{IsNextIpBlock};
    ghost use Rattle.rpki_ipres.specs.Modes.{greatest_of_ip_block, ip_resources_by};
    ghost use Rattle.rpki_ipres.specs.ResourcesReadingLaws.{resources_modal, resources_reading};

    type Claim = IpResources<A>;

    ghost Found = { ResourcesChoice (List IpBlock) };

    ghost says = { λ _. SaysClaimOf };

    ghost grammar = { λ _ family. IsChoiceOf (IsSequenceOf (IsIpBlockDer (bits_of family))) };

    ghost reading = { λ _ family. ip_resources_at (bits_of family) };

    ghost strict_grammar = { λ _ family. IsChoiceOf
        (IsSequenceFrom greatest_of_ip_block (IsNextIpBlock (bits_of family)) None) };

    ghost reading_by = { λ _ strict family. ip_resources_by strict (bits_of family) };

    ghost is_reading = { λ _ family. resources_reading (bits_of family) };

    ghost is_modal = { λ _ family. resources_modal (bits_of family) };

    fn take_claim(
        &self,
        family: AddressFamily,
        cursor: &mut Cursor<'_>,
    ) -> Result<IpResources<A>, OrMemory<DerError>> {
        IpResources::take_from(self.alloc, cursor, family)
    }
}
