//! Reads the SEQUENCE of address families, each with its claim (RFC 3779, 2.2.3; RFC 6487, 4.8.10). The type of a
//! claim is a parameter.
ghost use Rattle.std.specs.Prelude.{◌≡◌, ℕ, Bool, List, Result, length};
ghost use Rattle.rpki_der.specs.declared.error.DerError.{DerError as Fault};
ghost use Rattle.rpki_der.specs.Der.{Refines};
ghost use Rattle.rpki_der.specs.Reading.{Gives, IsModal, IsReading, passing};
ghost use Rattle.rpki_der.specs.Views.{Lenient, is_strict, left};
ghost use Rattle.rpki_der.specs.SequenceViews.{GivesSaidOrMemory, ReadsOrMemory, TakesSaidOrMemory};
ghost use Rattle.rpki_der.specs.declared.family.AddressFamily.{AddressFamily as SomeFamily};
ghost use Rattle.rpki_der.specs.FamiliesDer.{IsFamilies, SaysByFamily};
ghost use Rattle.rpki_der.specs.FamiliesReading.{SaysClaim, families_at, families_by, families_in_by, is_in_order, member_by, member_in_by, members_by, none_found, seen, was_seen, with_claim};

use crate::cursor::Cursor;
use crate::error::DerError;
use crate::family::AddressFamily;
use rpki_text::memory::OrMemory;

/// A pair of optional values: the first is that of IPv4, the second that of IPv6.
pub type ByFamily<C> = (Option<C>, Option<C>);

/// A reader of the claim of an address family.
pub trait ReadClaim {
    /// The claim that is read.
    type Claim: Drop;

    // The type of the meaning of octets, from which a claim is made.
    ghost Found: { Type 0 };

    // The meaning of the octets is this claim.
    ghost says: { Self → Found → Self.Claim → Type 0 };

    // The octets are a claim of the family.
    ghost grammar: { Self → SomeFamily → List ℕ → Found → Type 0 };

    // The claim of the family at the front of the octets and the octets after it, or the first fault.
    ghost reading: { Self → SomeFamily → List ℕ → Result (Found × List ℕ) Fault };

    // The octets are a claim of the family that a strict cursor takes.
    ghost strict_grammar: { Self → SomeFamily → List ℕ → Found → Type 0 };

    // The result of `reading` for a cursor of the given mode: strict (true) or lenient (false).
    ghost reading_by: { Self → Bool → SomeFamily → List ℕ → Result (Found × List ℕ) Fault };

    /// Takes a claim of `family`.
    ///
    /// # Errors
    ///
    /// The cursor is unchanged after an error.
    ///
    /// - `Refused`: the first fault of the octets.
    /// - `Memory`: out of memory.
    fn take_claim(
        &self,
        family: AddressFamily,
        cursor: &mut Cursor<'_>,
    ) -> Result<Self::Claim, OrMemory<DerError>>
        ensures exact { Lenient cursor.old
            (TakesSaidOrMemory (says self.now) cursor.old cursor.new result
            (reading self.now family)) }
        // In either mode.
        ensures by_mode { TakesSaidOrMemory (says self.now) cursor.old cursor.new result
            (reading_by self.now (is_strict cursor.old) family) }
        ensures mode { is_strict cursor.new ≡ is_strict cursor.old };

    // The reading finds the claims of the grammar, with any octets after them, and no others.
    ghost is_reading: { (reader : Self) (family : SomeFamily)
        → IsReading (grammar reader family) (reading reader family) };

    // For a lenient cursor the result is that of `reading`. For a strict cursor it is the same or `NotCanonical`, and
    // the claims that are found are exactly those of the strict grammar.
    ghost is_modal: { (reader : Self) (family : SomeFamily)
        → IsModal (strict_grammar reader family) (reading reader family)
        (λ strict. reading_by reader strict family) };
}

/// Takes a SEQUENCE of at least one address family, each at most once and with its claim (RFC 3779, 2.2.3.1 to
/// 2.2.3.3).
///
/// A lenient cursor accepts the families in any order. A strict cursor requires IPv4 before IPv6.
///
/// # Errors
///
/// The cursor is unchanged after an error.
///
/// - `Refused`: the first fault of the octets. It is an error of a SEQUENCE, of a family or of a claim, or one of those
///   below.
/// - `Refused` with `NoFamily`: the SEQUENCE is empty.
/// - `Refused` with `DuplicateFamily`: the family occurred before. This is reported before its claim is read.
/// - `Refused` with `NotCanonical`: IPv4 follows IPv6, and the cursor is strict. This is reported before the claim of
///   IPv4 is read.
/// - `Refused` with `TrailingData`: octets are left after a claim.
/// - `Memory`: out of memory for a claim.
pub fn take_families<R: ReadClaim>(
    reader: &R,
    cursor: &mut Cursor<'_>,
) -> Result<ByFamily<R::Claim>, OrMemory<DerError>>
    ensures reads { Lenient cursor.old (ReadsOrMemory
        (IsFamilies (λ family. Refines (R.grammar reader.now family) (R.says reader.now)))
        (λ fs. fs) cursor.old cursor.new result) }
    ensures exact { Lenient cursor.old (TakesSaidOrMemory
        (SaysByFamily (R.says reader.now)) cursor.old cursor.new result
        (families_at (R.reading reader.now))) }
    // In either mode.
    ensures by_mode { TakesSaidOrMemory
        (SaysByFamily (R.says reader.now)) cursor.old cursor.new result
        (families_by (is_strict cursor.old) (R.reading_by reader.now (is_strict cursor.old))) }
    ensures mode { is_strict cursor.new ≡ is_strict cursor.old }
{
    take_families_by_mode(reader, cursor)
}

// The implementation of `take_families`. The further clauses of that call, `reads` and `exact`, follow from `by_mode`
// by theorems on the grammar.
#[tactic(auto, unfolding(crate::specs::Reading::refined))]
fn take_families_by_mode<R: ReadClaim>(
    reader: &R,
    cursor: &mut Cursor<'_>,
) -> Result<ByFamily<R::Claim>, OrMemory<DerError>>
    ensures by_mode { TakesSaidOrMemory
        (SaysByFamily (R.says reader.now)) cursor.old cursor.new result
        (families_by (is_strict cursor.old) (R.reading_by reader.now (is_strict cursor.old))) }
    ensures mode { is_strict cursor.new ≡ is_strict cursor.old }
{
    let mut ahead = *cursor;
    let found = families_within(reader, ahead.take_sequence()?)?;
    *cursor = ahead;
    Ok(found)
}

/// Reads the families of a content, to its end.
#[tactic(auto, unfolding(crate::specs::FamiliesReading::families_in_by))]
fn families_within<R: ReadClaim>(
    reader: &R,
    content: Cursor<'_>,
) -> Result<ByFamily<R::Claim>, OrMemory<DerError>>
    ensures by_mode { GivesSaidOrMemory
        (SaysByFamily (R.says reader.now)) result
        (families_in_by (is_strict content.entry)
        (R.reading_by reader.now (is_strict content.entry)) (left content.entry)) }
{
    if content.is_empty() {
        return Err(OrMemory::Refused(DerError::NoFamily));
    }
    members_within(reader, content)
}

/// Reads the members of a content, to its end, and returns their claims by family.
fn members_within<R: ReadClaim>(
    reader: &R,
    content: Cursor<'_>,
) -> Result<ByFamily<R::Claim>, OrMemory<DerError>>
    ensures by_mode { GivesSaidOrMemory
        (SaysByFamily (R.says reader.now)) result
        (members_by (member_by (is_strict content.entry)
        (R.reading_by reader.now (is_strict content.entry))) (length (left content.entry))
        none_found (left content.entry)) }
{
    let mut inside = content;
    let mut found = (None, None);
    while !inside.is_empty() {
        let (family, claim) = next_member(reader, &mut inside, &found)?;
        found = and_claim(found, family, claim);
    }
    Ok(found)
}

/// Takes a member whose family is not among those in `found`. The cursor is unchanged after an error.
#[tactic(auto, unfolding(crate::specs::Reading::refined))]
fn next_member<R: ReadClaim>(
    reader: &R,
    cursor: &mut Cursor<'_>,
    found: &ByFamily<R::Claim>,
) -> Result<(AddressFamily, R::Claim), OrMemory<DerError>>
    ensures by_mode { TakesSaidOrMemory
        (SaysClaim (R.says reader.now)) cursor.old cursor.new result
        (member_by (is_strict cursor.old) (R.reading_by reader.now (is_strict cursor.old))
        (seen found.now)) }
    ensures mode { is_strict cursor.new ≡ is_strict cursor.old }
{
    let mut ahead = *cursor;
    let member = member_within(reader, ahead.take_sequence()?, found)?;
    *cursor = ahead;
    Ok(member)
}

/// Reads the member in the content of a SEQUENCE.
#[tactic(auto, unfolding(crate::specs::FamiliesReading::member_in_by))]
fn member_within<R: ReadClaim>(
    reader: &R,
    content: Cursor<'_>,
    found: &ByFamily<R::Claim>,
) -> Result<(AddressFamily, R::Claim), OrMemory<DerError>>
    ensures by_mode { GivesSaidOrMemory
        (SaysClaim (R.says reader.now)) result
        (member_in_by (is_strict content.entry)
        (R.reading_by reader.now (is_strict content.entry)) (seen found.now)
        (left content.entry)) }
{
    let mut inside = content;
    let family = AddressFamily::take_from(&mut inside)?;
    if is_among(found, family) {
        return Err(OrMemory::Refused(DerError::DuplicateFamily));
    }
    look_at_order(&content, found, family)?;
    let claim = reader.take_claim(family, &mut inside)?;
    inside.finish()?;
    Ok((family, claim))
}

/// Returns whether the family is among those in `found`.
fn is_among<C>(found: &ByFamily<C>, family: AddressFamily) -> bool
    ensures { result ≡ was_seen (seen found.now) family }
{
    match family {
        AddressFamily::Ipv4 => found.0.is_some(),
        AddressFamily::Ipv6 => found.1.is_some(),
    }
}

/// Refuses IPv4 after IPv6 if the cursor `content` is strict.
#[tactic(auto, unfolding(crate::specs::Reading::passing))]
fn look_at_order<C>(
    content: &Cursor<'_>,
    found: &ByFamily<C>,
    family: AddressFamily,
) -> Result<(), DerError>
    ensures exact { Gives (λ u. family) result
        (passing (is_strict content.now) (is_in_order (seen found.now)) family) }
{
    if !is_in_order(found, family) && content.is_strict() {
        return Err(DerError::NotCanonical);
    }
    Ok(())
}

/// Returns whether the family may follow those in `found`.
fn is_in_order<C>(found: &ByFamily<C>, family: AddressFamily) -> bool
    ensures { result ≡ is_in_order (seen found.now) family }
{
    match family {
        AddressFamily::Ipv4 => found.1.is_none(),
        AddressFamily::Ipv6 => true,
    }
}

/// Returns `found` with the claim of one more family.
fn and_claim<C: Drop>(found: ByFamily<C>, family: AddressFamily, claim: C) -> ByFamily<C>
    ensures { result ≡ with_claim found family claim }
{
    match family {
        AddressFamily::Ipv4 => (Some(claim), found.1),
        AddressFamily::Ipv6 => (found.0, Some(claim)),
    }
}
