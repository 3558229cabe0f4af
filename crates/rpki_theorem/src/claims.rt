//! Claims in text and DER, and back: missing, inherited or listed AS numbers and addresses.
ghost use Rattle.std.specs.Prelude.{◌≡◌, ◌≢◌, ◌++◌, List, MatchResult, IfOk, ℕ, string_bytes};
ghost use Rattle.rpki_text.specs.Memory.{IfRefused, IsMemory};
ghost use Rattle.rpki_text.specs.Reading.{AnswersOrMemory};
ghost use Rattle.rpki_der.specs.Der.{Front, NoFront, Spells};
ghost use Rattle.rpki_der.specs.FamiliesDer.{families_der};
ghost use Rattle.rpki_chain.specs.Choices.{if_present};
ghost use Rattle.rpki_chain.specs.declared.choice.ResourcesChoice.TheVariants.{Missing};
ghost use Rattle.rpki_as.specs.AsDer.{IsAsResources, IsPresentAsClaim, as_resources_octets};
ghost use Rattle.rpki_as.specs.ResourcesText.{HasAsResourcesFault, IsAsResourcesText, as_resources_text};
ghost use Rattle.rpki_ipres.specs.Resources.{ArePresentClaims, IsWholeClaim};
ghost use Rattle.rpki_ipres.specs.ResourcesDer.{IsIpFamilies, ip_families_der, ip_resources_der};

use rpki_as::{AsResources, FromStrError};
use rpki_der::{Cursor, DerError};
use rpki_ipres::IpResources;
use rpki_text::memory::OrMemory;
use std::alloc::{AllocError, Allocator};

/// AS resources of a text, of octets, and of canonical octets.
pub type NumbersRead<A> = (
    Result<AsResources<A>, OrMemory<FromStrError>>,
    Result<AsResources<A>, OrMemory<DerError>>,
    Result<AsResources<A>, OrMemory<DerError>>,
);

/// The claims on IPv4 and on IPv6 of octets, or None for a family that the octets don't have.
pub type AddressesRead<A> = Result<
    (Option<IpResources<A>>, Option<IpResources<A>>),
    OrMemory<DerError>,
>;

/// Reads AS resources from a text, and from the front of octets by a lenient and by a strict cursor.
pub fn numbers<A: Allocator + Copy>(alloc: A, text: &str, octets: &[u8]) -> NumbersRead<A>
    ensures text { AnswersOrMemory (λ claim. claim) (IsAsResourcesText text.now)
        (HasAsResourcesFault text.now) result.0 }
    ensures lenient { MatchResult result.1
        (λ claim. (rest : List ℕ) × Front IsAsResources octets.now claim rest)
        (IfRefused (λ _. NoFront IsAsResources octets.now)) }
    ensures strict { MatchResult result.2 (λ claim. (rest : List ℕ)
        × Front (Spells IsPresentAsClaim as_resources_octets) octets.now claim rest)
        (IfRefused (λ _. NoFront (Spells IsPresentAsClaim as_resources_octets) octets.now)) }
{
    let parsed = AsResources::from_str(alloc, text);
    let mut cursor = Cursor::new(octets);
    let lenient = AsResources::take_from(alloc, &mut cursor);
    let mut strict_cursor = Cursor::new_strict(octets);
    let strict = AsResources::take_from(alloc, &mut strict_cursor);
    (parsed, lenient, strict)
}

/// Reads the claims of both families from the front of octets, by a lenient and by a strict cursor.
pub fn addresses<A: Allocator + Copy>(
    alloc: A,
    octets: &[u8],
) -> (AddressesRead<A>, AddressesRead<A>)
    ensures lenient { MatchResult result.0
        (λ claims. (rest : List ℕ) × Front IsIpFamilies octets.now claims rest)
        (IfRefused (λ _. NoFront IsIpFamilies octets.now)) }
    ensures strict { MatchResult result.1 (λ claims. (rest : List ℕ)
        × Front (Spells ArePresentClaims (families_der ip_resources_der)) octets.now claims rest)
        (IfRefused (λ _. NoFront (Spells ArePresentClaims (families_der ip_resources_der))
        octets.now)) }
{
    let mut cursor = Cursor::new(octets);
    let lenient = IpResources::take_families_from(alloc, &mut cursor);
    let mut strict_cursor = Cursor::new_strict(octets);
    let strict = IpResources::take_families_from(alloc, &mut strict_cursor);
    (lenient, strict)
}

/// Prints AS resources and parses the text. Encodes them, appends `behind`, and decodes them by both cursors.
///
/// Returns the text, the octets, and what was read back.
///
/// # Preconditions
///
/// The resources aren't missing.
///
/// # Errors
///
/// [`AllocError`]: out of memory for the text or for the octets.
pub fn numbers_read_back<A: Allocator + Copy>(
    alloc: A,
    claim: &AsResources<A>,
    behind: &[u8],
) -> Result<(String<A>, Vec<u8, A>, NumbersRead<A>), AllocError>
    requires { claim.now ≢ Missing }
    ensures printed { IfOk result (λ back. string_bytes back.0 ≡ as_resources_text claim.now) }
    ensures encoded { IfOk result (λ back. back.1.items ≡ as_resources_octets claim.now ++ behind.now) }
    ensures text { IfOk result (λ back. MatchResult back.2.0 (λ read. read ≡ claim.now) IsMemory) }
    ensures lenient { IfOk result (λ back. MatchResult back.2.1 (λ read. read ≡ claim.now) IsMemory) }
    ensures strict { IfOk result (λ back. MatchResult back.2.2 (λ read. read ≡ claim.now) IsMemory) }
{
    let text = format!(in alloc; "{claim}")?;
    let parsed = AsResources::from_str(alloc, text.as_str());
    let mut octets = Vec::new(alloc);
    claim.encode(&mut octets)?;
    octets.extend_from_slice(behind)?;
    let mut cursor = Cursor::new(octets.as_slice());
    let lenient = AsResources::take_from(alloc, &mut cursor);
    let mut strict_cursor = Cursor::new_strict(octets.as_slice());
    let strict = AsResources::take_from(alloc, &mut strict_cursor);
    Ok((text, octets, (parsed, lenient, strict)))
}

/// Encodes the claims of both families, appends `behind`, and decodes them by both cursors.
///
/// Returns the octets, and what was read back.
///
/// # Preconditions
///
/// A listed claim on IPv4 consists of whole addresses. At least one claim isn't missing.
///
/// # Errors
///
/// [`AllocError`]: out of memory for the octets.
pub fn addresses_read_back<A: Allocator + Copy>(
    alloc: A,
    v4: &IpResources<A>,
    v6: &IpResources<A>,
    behind: &[u8],
) -> Result<(Vec<u8, A>, AddressesRead<A>, AddressesRead<A>), AllocError>
    requires whole { IsWholeClaim v4.now }
    requires present { v4.now ≡ Missing → v6.now ≢ Missing }
    ensures encoded { IfOk result (λ back. back.0.items ≡ ip_families_der v4.now v6.now ++ behind.now) }
    ensures lenient { IfOk result (λ back. MatchResult back.1
        (λ read. read ≡ (if_present v4.now, if_present v6.now)) IsMemory) }
    ensures strict { IfOk result (λ back. MatchResult back.2
        (λ read. read ≡ (if_present v4.now, if_present v6.now)) IsMemory) }
{
    rpki_ipres::laws::claims_of_families(); // so that the proof sees that a whole claim is one on IPv4
    let mut octets = Vec::new(alloc);
    IpResources::encode_families(v4, v6, &mut octets)?;
    octets.extend_from_slice(behind)?;
    let mut cursor = Cursor::new(octets.as_slice());
    let lenient = IpResources::take_families_from(alloc, &mut cursor);
    let mut strict_cursor = Cursor::new_strict(octets.as_slice());
    let strict = IpResources::take_families_from(alloc, &mut strict_cursor);
    Ok((octets, lenient, strict))
}
