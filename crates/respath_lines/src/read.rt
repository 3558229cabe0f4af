//! The command `read`: decodes octets in hexadecimal as resources in DER.
ghost use Rattle.std.specs.Prelude.{◌≡◌, ℕ, List, IfOk, OnOk, MatchOption, MatchResult};
ghost use Rattle.std.specs.String.{string_bytes};
ghost use Rattle.rpki_der.specs.Views.{left};
ghost use Rattle.rpki_text.specs.Memory.{IfRefused};
ghost use Rattle.rpki_as.specs.AsDer.{IsAsResources};
ghost use Rattle.rpki_as.specs.AsDerReading.{as_choice_at};
ghost use Rattle.rpki_der.specs.FamiliesDer.{of_family};
ghost use Rattle.rpki_ipres.specs.ResourcesDer.{IsIpFamilies, ip_families_at};
ghost use Rattle.respath_lines.specs.Hexadecimal.{IsHexadecimal};
ghost use Rattle.respath_lines.specs.Read.{HasFault, IsEnded, IsReadAnswer, IsReadAs, IsReadIp, ShowsFamily, family_text};

use crate::kind::{Kind, kind_named};
use crate::write_answer::{print_set, show, write_fault, write_text};
use hex::FromHexError;
use rpki_as::resources::AsResources;
use rpki_base::memory::OrMemory;
use rpki_der::{Cursor, DerError};
use rpki_ip::family::AddressFamily;
use rpki_ipres::blocks::IpBlocks;
use rpki_ipres::resources::IpResources;
use std::alloc::{AllocError, Allocator};

/// Replaces `answer` by the answer to `read KIND HEX`.
///
/// # Errors
///
/// [`AllocError`] if an allocation fails. The text of `answer` is unspecified then.
pub(crate) fn read<A: Allocator + Copy>(
    alloc: A,
    kind: &str,
    text: &str,
    answer: &mut String<A>,
) -> Result<(), AllocError>
    ensures { OnOk result (IsReadAnswer kind.now text.now (string_bytes answer.new)) }
{
    match kind_named(kind) {
        Some(Kind::As) => read_as(alloc, text, answer),
        Some(Kind::V4) => read_ip(alloc, AddressFamily::Ipv4, text, answer),
        Some(Kind::V6) => read_ip(alloc, AddressFamily::Ipv6, text, answer),
        None => write_text(answer, "error: unknown kind"),
    }
}

/// Returns the octets of a text with digits of either case, or None if the text is not hexadecimal (RFC 4648, 8).
///
/// # Errors
///
/// [`AllocError`] if an allocation fails.
#[tactic(auto, using(crate::proofs::HexadecimalLemmas::decoded))]
fn octets_of<A: Allocator>(alloc: A, text: &str) -> Result<Option<Vec<u8, A>>, AllocError>
    ensures { IfOk result (λ found. MatchOption found
        ((octets : List ℕ) → ¬ IsHexadecimal text.now octets)
        (λ octets. IsHexadecimal text.now octets.items)) }
{
    match hex::decode(alloc, text) {
        Ok(octets) => Ok(Some(octets)),
        Err(FromHexError::OutOfMemory) => Err(AllocError),
        Err(_) => Ok(None),
    }
}

/// Answers with the AS resources that octets in hexadecimal encode, or with the fault of the text or of the octets.
fn read_as<A: Allocator + Copy>(
    alloc: A,
    text: &str,
    answer: &mut String<A>,
) -> Result<(), AllocError>
    ensures { OnOk result (IsReadAs text.now (string_bytes answer.new)) }
{
    let Some(octets) = octets_of(alloc, text)? else {
        return write_text(answer, "error: bad hex");
    };
    show(answer, as_resources_in(alloc, octets))
}

/// Returns the AS resources that all the octets encode. `Refused` has the first fault of invalid octets.
///
/// The octets are dropped, so that their memory is free when the resources are printed.
fn as_resources_in<A: Allocator + Copy>(
    alloc: A,
    octets: Vec<u8, A>,
) -> Result<AsResources<A>, OrMemory<DerError>>
    ensures { MatchResult result (IsAsResources octets.items)
        (IfRefused (HasFault IsAsResources as_choice_at octets.items)) }
{
    let mut cursor = Cursor::new(octets.as_slice());
    let taken = AsResources::take_from(alloc, &mut cursor);
    ended(taken, cursor)
}

/// Returns the decoded value if no octets follow it, and otherwise `TrailingData`. An error stays the same.
fn ended<V: Drop>(
    taken: Result<V, OrMemory<DerError>>,
    cursor: Cursor<'_>,
) -> Result<V, OrMemory<DerError>>
    ensures { IsEnded taken (left cursor.entry) result }
{
    match taken {
        Ok(value) => match cursor.finish() {
            Ok(()) => Ok(value),
            Err(fault) => Err(OrMemory::Refused(fault)),
        },
        Err(error) => Err(error),
    }
}

/// Answers with the resources of one family in the families that octets in hexadecimal encode, or with the fault of the
/// text or of the octets.
fn read_ip<A: Allocator + Copy>(
    alloc: A,
    family: AddressFamily,
    text: &str,
    answer: &mut String<A>,
) -> Result<(), AllocError>
    ensures { OnOk result (IsReadIp family text.now (string_bytes answer.new)) }
{
    let Some(octets) = octets_of(alloc, text)? else {
        return write_text(answer, "error: bad hex");
    };
    family_in(alloc, family, octets, answer)
}

/// Prints the resources of one family in the families that these octets encode, or the fault of the octets.
fn family_in<A: Allocator + Copy>(
    alloc: A,
    family: AddressFamily,
    octets: Vec<u8, A>,
    answer: &mut String<A>,
) -> Result<(), AllocError>
    ensures { OnOk result (ShowsFamily family octets.items (string_bytes answer.new)) }
{
    match families_in(alloc, octets) {
        Ok(families) => print_resources(family, resources_of(families, family), answer),
        Err(OrMemory::Refused(fault)) => write_fault(answer, &fault),
        Err(OrMemory::Memory(error)) => Err(error),
    }
}

/// Returns the resources of a family from the resources of both.
fn resources_of<A: Allocator>(
    families: (Option<IpResources<A>>, Option<IpResources<A>>),
    family: AddressFamily,
) -> Option<IpResources<A>>
    ensures { result ≡ of_family family families }
{
    match family {
        AddressFamily::Ipv4 => families.0,
        AddressFamily::Ipv6 => families.1,
    }
}

/// Returns the resources by family that all the octets encode. `Refused` has the first fault of invalid octets.
///
/// The octets are dropped, so that their memory is free when the resources are printed.
fn families_in<A: Allocator + Copy>(
    alloc: A,
    octets: Vec<u8, A>,
) -> Result<(Option<IpResources<A>>, Option<IpResources<A>>), OrMemory<DerError>>
    ensures { MatchResult result (IsIpFamilies octets.items)
        (IfRefused (HasFault IsIpFamilies ip_families_at octets.items)) }
{
    let mut cursor = Cursor::new(octets.as_slice());
    let taken = IpResources::take_families_from(alloc, &mut cursor);
    ended(taken, cursor)
}

/// Prints the resources of a family: `missing`, `inherit` or the set.
fn print_resources<A: Allocator>(
    family: AddressFamily,
    resources: Option<IpResources<A>>,
    answer: &mut String<A>,
) -> Result<(), AllocError>
    ensures { OnOk result (string_bytes answer.new ≡ family_text family resources) }
{
    let Some(resources) = resources else {
        return write_text(answer, "missing");
    };
    if resources.is_missing() {
        return write_text(answer, "missing");
    }
    match IpBlocks::from_resources(resources) {
        Ok(set) => print_set(answer, family, &set),
        Err(_) => write_text(answer, "inherit"),
    }
}
