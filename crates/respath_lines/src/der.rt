//! The command `der`: encodes resources in DER, and prints the octets in hexadecimal.
ghost use Rattle.std.specs.Prelude.{◌≡◌, ◌≢◌, ◌*◌, [], length, IfOk, OnOk, MatchResult};
ghost use Rattle.std.specs.String.{string_bytes};
ghost use Rattle.rpki_text.specs.Memory.{IfRefused};
ghost use Rattle.rpki_as.specs.AsDer.{as_resources_octets};
ghost use Rattle.rpki_chain.specs.declared.choice.ResourcesChoice.TheVariants.{Missing};
ghost use Rattle.rpki_ip_block.specs.ListText.{HasBlocksFault};
ghost use Rattle.respath_lines.specs.Der.{HasIpResourcesFault, IsDerAnswer, IsDerAs, IsDerIp, IsIpResourcesText, IsListed, one_family_der, octets_text};
ghost use Rattle.respath_lines.specs.Hexadecimal.{lower_hexadecimal};

use crate::kind::{Kind, kind_named};
use crate::write_answer::{write_fault, write_text};
use rpki_as::resources::AsResources;
use rpki_base::memory::OrMemory;
use rpki_ip::error::FromStrError;
use rpki_ip::family::AddressFamily;
use rpki_ipres::blocks::IpBlocks;
use rpki_ipres::resources::IpResources;
use std::alloc::{AllocError, Allocator};
use std::mem::replace;

/// Replaces `answer` by the answer to `der KIND LIST`.
///
/// # Errors
///
/// [`AllocError`] if an allocation fails. The text of `answer` is unspecified then.
pub(crate) fn der<A: Allocator + Copy>(
    alloc: A,
    kind: &str,
    list: &str,
    answer: &mut String<A>,
) -> Result<(), AllocError>
    ensures { OnOk result (IsDerAnswer kind.now list.now (string_bytes answer.new)) }
{
    match kind_named(kind) {
        Some(Kind::As) => der_as(alloc, list, answer),
        Some(Kind::V4) => der_ip(alloc, AddressFamily::Ipv4, list, answer),
        Some(Kind::V6) => der_ip(alloc, AddressFamily::Ipv6, list, answer),
        None => write_text(answer, "error: unknown kind"),
    }
}

/// Writes the digits of octets, in lower case, to a slice that has two bytes for each octet.
fn put_digits(octets: &[u8], digits: &mut [u8])
    requires { length digits.old ≡ 2 * length octets.now }
    ensures { digits.new ≡ lower_hexadecimal octets.now }
{
    match hex::encode_to_slice(octets, digits) {
        Ok(()) => {}
        Err(_) => unreachable!(),
    }
}

/// Returns the digits of octets, in lower case. They replace the content of `buffer`, which gets capacity for them and
/// for the end of a line.
fn digits_of<A: Allocator>(octets: &[u8], mut buffer: Vec<u8, A>) -> Result<String<A>, AllocError>
    ensures { IfOk result (λ text. string_bytes text ≡ lower_hexadecimal octets.now) }
{
    let Some(len) = octets.len().checked_mul(2) else {
        return Err(AllocError);
    };
    buffer.clear();
    buffer.reserve(len + 1)?;
    buffer.resize(len, 0)?;
    put_digits(octets, buffer.as_mut_slice());
    // Digits are ASCII, so they are valid UTF-8.
    String::from_utf8(buffer).map_err(|_| AllocError)
}

/// Answers with octets in hexadecimal. The digits are written to the buffer of the answer.
fn write_octets<A: Allocator>(
    alloc: A,
    octets: &[u8],
    answer: &mut String<A>,
) -> Result<(), AllocError>
    ensures { OnOk result (string_bytes answer.new ≡ lower_hexadecimal octets.now) }
{
    let buffer = replace(answer, String::new(alloc)).into_bytes();
    *answer = digits_of(octets, buffer)?;
    Ok(())
}

/// Answers with the octets of the AS resources in a text, or with the fault of the text.
fn der_as<A: Allocator + Copy>(
    alloc: A,
    list: &str,
    answer: &mut String<A>,
) -> Result<(), AllocError>
    ensures { OnOk result (IsDerAs list.now (string_bytes answer.new)) }
{
    match AsResources::from_str(alloc, list) {
        Ok(resources) => write_as(alloc, resources, answer),
        Err(OrMemory::Refused(fault)) => write_fault(answer, &fault),
        Err(OrMemory::Memory(error)) => Err(error),
    }
}

/// Answers with the octets of AS resources, or with `missing`.
fn write_as<A: Allocator + Copy>(
    alloc: A,
    resources: AsResources<A>,
    answer: &mut String<A>,
) -> Result<(), AllocError>
    ensures { OnOk result (string_bytes answer.new ≡ octets_text as_resources_octets resources) }
{
    if resources.is_missing() {
        return write_text(answer, "missing");
    }
    let mut octets = Vec::new(alloc);
    resources.encode(&mut octets)?;
    drop(resources); // The memory of the resources is free when the digits are written.
    write_octets(alloc, octets.as_slice(), answer)
}

/// Answers with the octets of the resources of a family in a text, or with the fault of the text.
fn der_ip<A: Allocator + Copy>(
    alloc: A,
    family: AddressFamily,
    list: &str,
    answer: &mut String<A>,
) -> Result<(), AllocError>
    ensures { OnOk result (IsDerIp family list.now (string_bytes answer.new)) }
{
    match ip_resources(alloc, family, list) {
        Ok(resources) => write_ip(alloc, family, resources, answer),
        Err(OrMemory::Refused(fault)) => write_fault(answer, &fault),
        Err(OrMemory::Memory(error)) => Err(error),
    }
}

/// Returns the resources of a family in a text: inherited resources for `inherit`, and otherwise those of the list.
#[tactic(auto, using(crate::proofs::DerCommandLemmas::listed_resources, rpki_as::proofs::AsResourcesTexts::not_true))]
fn ip_resources<A: Allocator + Copy>(
    alloc: A,
    family: AddressFamily,
    list: &str,
) -> Result<IpResources<A>, OrMemory<FromStrError>>
    ensures { MatchResult result (IsIpResourcesText family list.now)
        (IfRefused (HasIpResourcesFault family list.now)) }
{
    if list == "inherit" {
        return Ok(IpResources::inherit());
    }
    listed(alloc, family, list)
}

/// Returns the resources that list the set of a list of blocks of a family.
fn listed<A: Allocator + Copy>(
    alloc: A,
    family: AddressFamily,
    list: &str,
) -> Result<IpResources<A>, OrMemory<FromStrError>>
    ensures { MatchResult result (IsListed family list.now)
        (IfRefused (HasBlocksFault family list.now)) }
{
    let set = IpBlocks::from_str_with_family(alloc, family, list)?;
    Ok(IpResources::blocks(set))
}

/// Answers with the octets of a list of families in which only `family` has resources, or with `missing`.
fn write_ip<A: Allocator + Copy>(
    alloc: A,
    family: AddressFamily,
    resources: IpResources<A>,
    answer: &mut String<A>,
) -> Result<(), AllocError>
    ensures { OnOk result (string_bytes answer.new
        ≡ octets_text (one_family_der family) resources) }
{
    if resources.is_missing() {
        return write_text(answer, "missing");
    }
    let mut octets = Vec::new(alloc);
    encode_alone(family, &resources, &mut octets)?;
    drop(resources); // The memory of the resources is free when the digits are written.
    write_octets(alloc, octets.as_slice(), answer)
}

/// Appends to an empty vector the octets of a list of families in which only this family has resources.
fn encode_alone<A: Allocator>(
    family: AddressFamily,
    resources: &IpResources<A>,
    octets: &mut Vec<u8, A>,
) -> Result<(), AllocError>
    requires some { resources.now ≢ Missing }
    requires empty { octets.old.items ≡ [] }
    ensures { OnOk result (octets.new.items ≡ one_family_der family resources.now) }
{
    let missing = IpResources::missing();
    match family {
        AddressFamily::Ipv4 => IpResources::encode_families(resources, &missing, octets),
        AddressFamily::Ipv6 => IpResources::encode_families(&missing, resources, octets),
    }
}
